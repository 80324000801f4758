ghost use Rattle.std.specs.Prelude.{◌≡◌, Option, None, IfOk, OnOk};
ghost use Rattle.tb_outside.specs.Spill.{Runs};
ghost use Rattle.tb_outside.specs.Memory.{as_spill};
ghost use Rattle.pmtiles_file.specs.Writing.{next_id, RunsStand};

use crate::hash::hash_of;
use crate::{FinishErr, Meta, MetaLayer, Totals, Writer};
use pmtiles_dirs::{HEADER_LEN, read_dir};
use std::alloc::Global;
use tb_outside::{MemSink, MemSpill, SpillErr};
use tb_types::{FieldKind, Memory, Seq, Text, TileId};

/// More bytes than any archive of these tests has.
const PLENTY: usize = 1_000_000;

// A map with one layer.
fn map(alloc: Global) -> Result<Meta, Memory>
    ensures { IfOk result (λ m. m.bounds ≡ None) }
{
    let mut fields = Seq::new(alloc);
    fields.push((Text::copy_of(alloc, "amenity")?, FieldKind::Text))?;
    let mut layers = Seq::new(alloc);
    layers.push(MetaLayer {
        id: Text::copy_of(alloc, "nodes")?,
        fields,
    })?;
    Ok(Meta {
        name: Text::copy_of(alloc, "map")?,
        layers,
        min: 0,
        max: 14,
        bounds: None,
    })
}

fn spill(alloc: Global, fails: Option<u64>) -> Result<MemSpill, Memory> {
    let mut numbers = Vec::new(alloc);
    if let Some(n) = fails {
        numbers.push(n)?;
    }
    MemSpill::new(alloc, numbers)
}

/// Tiles 5, 6, 7 and 9 are equal, tile 8 is another.
const TILES: [(u64, &[u8]); 5] = [
    (5, b"\x01\x01\x01\x01\x01\x01\x01\x01\x01\x01"),
    (6, b"\x01\x01\x01\x01\x01\x01\x01\x01\x01\x01"),
    (7, b"\x01\x01\x01\x01\x01\x01\x01\x01\x01\x01"),
    (
        8,
        b"\x02\x02\x02\x02\x02\x02\x02\x02\x02\x02\x02\x02\x02\x02\x02\x02\x02\x02\x02\x02",
    ),
    (9, b"\x01\x01\x01\x01\x01\x01\x01\x01\x01\x01"),
];

/// Two contents with one hash, as another program found them, and the first of them again.
const OF_ONE_HASH: [(u64, &[u8]); 3] = [(0, b"4;\\+]<"), (1, b"@gP27="), (2, b"4;\\+]<")];

// A writer of a map with one layer.
fn new_writer(alloc: Global) -> Result<Writer, SpillErr>
    ensures next { IfOk result (λ w. next_id w ≡ 0) }
    ensures stand { IfOk result (λ w. (runs : Option Runs) → RunsStand w runs) }
{
    let meta = match map(alloc) {
        Ok(meta) => meta,
        Err(_) => return Err(SpillErr::Memory),
    };
    match Writer::new(alloc, meta) {
        Ok(writer) => Ok(writer),
        Err(_) => Err(SpillErr::Memory),
    }
}

// Adds tiles with few bytes each, by ascending ids.
fn add_all(
    writer: &mut Writer,
    spool: &mut MemSpill,
    tiles: &[(u64, &[u8])],
) -> Result<(), SpillErr>
    requires next { next_id writer.old ≡ 0 }
    requires stand { RunsStand writer.old (as_spill spool.old).runs }
    ensures { OnOk result (RunsStand writer.new (as_spill spool.new).runs) }
{
    let mut next = 0;
    for (id, bytes) in tiles {
        if *id < next || bytes.len() == 0 || bytes.len() > 1_000 || *id > 1_000 {
            return Err(SpillErr::Memory);
        }
        match writer.add(spool, TileId(*id), bytes) {
            Ok(()) => {}
            Err(e) => return Err(e),
        }
        next = *id + 1;
    }
    Ok(())
}

// An archive of tiles. A call of the spill may fail, and the sink may have too little room.
fn written(
    alloc: Global,
    fails: Option<u64>,
    tiles: &[(u64, &[u8])],
    sink: &mut MemSink,
) -> Result<Result<Totals, FinishErr>, SpillErr> {
    let mut spool = match spill(alloc, fails) {
        Ok(spool) => spool,
        Err(_) => return Err(SpillErr::Memory),
    };
    let mut writer = match new_writer(alloc) {
        Ok(writer) => writer,
        Err(e) => return Err(e),
    };
    match add_all(&mut writer, &mut spool, tiles) {
        Ok(()) => {}
        Err(e) => return Err(e),
    }
    Ok(writer.finish(&mut spool, sink))
}

fn equal_tiles(
    alloc: Global,
    fails: Option<u64>,
    sink: &mut MemSink,
) -> Result<Result<Totals, FinishErr>, SpillErr> {
    written(alloc, fails, &TILES, sink)
}

#[test]
fn equal_contents_are_written_once(rt: HostRuntime) -> Result<(), Memory> {
    let alloc = rt.alloc();
    let mut sink = MemSink::new(alloc, PLENTY, Vec::new(alloc))?;
    let totals = Totals {
        tiles: 5,
        entries: 3,
        contents: 2,
        bytes: 247,
    };
    assert!(rt; equal_tiles(alloc, None, &mut sink) == Ok(Ok(totals)));
    let bytes = sink.bytes();
    assert!(rt; bytes.len() == 247);
    assert!(rt;
        &bytes[127..140] == b"\x03\x05\x03\x01\x03\x01\x01\x0a\x14\x0a\x01\x00\x01".as_slice()
    );
    assert!(rt; &bytes[217..227] == [1; 10].as_slice());
    assert!(rt; bytes[227] == 2 && bytes[246] == 2);
    Ok(())
}

#[test]
fn contents_of_one_hash_are_two(rt: HostRuntime) -> Result<(), Memory> {
    let alloc = rt.alloc();
    assert!(rt; hash_of(b"4;\\+]<") == hash_of(b"@gP27="));
    let mut sink = MemSink::new(alloc, PLENTY, Vec::new(alloc))?;
    match written(alloc, None, &OF_ONE_HASH, &mut sink) {
        Ok(Ok(totals)) => {
            assert!(rt; totals.tiles == 3 && totals.entries == 3 && totals.contents == 2);
            let bytes = sink.bytes();
            assert!(rt; bytes.ends_with(b"4;\\+]<@gP27="));
        }
        _ => assert!(rt; false, "it is written"),
    }
    Ok(())
}

// 20,000 tiles that are no runs, of 5,000 contents.
fn add_many(writer: &mut Writer, spool: &mut MemSpill) -> Result<(), SpillErr>
    requires next { next_id writer.old ≡ 0 }
    requires stand { RunsStand writer.old (as_spill spool.old).runs }
    ensures { OnOk result (RunsStand writer.new (as_spill spool.new).runs) }
{
    for i in 0..20_000u32 {
        let content = (i % 5_000).to_le_bytes();
        match writer.add(spool, TileId(u64::from(i) * 2), &content) {
            Ok(()) => {}
            Err(e) => return Err(e),
        }
    }
    Ok(())
}

fn many(alloc: Global, sink: &mut MemSink) -> Result<Result<Totals, FinishErr>, SpillErr> {
    let mut spool = match spill(alloc, None) {
        Ok(spool) => spool,
        Err(_) => return Err(SpillErr::Memory),
    };
    let mut writer = match new_writer(alloc) {
        Ok(writer) => writer,
        Err(e) => return Err(e),
    };
    match add_many(&mut writer, &mut spool) {
        Ok(()) => {}
        Err(e) => return Err(e),
    }
    Ok(writer.finish(&mut spool, sink))
}

#[test]
fn a_root_names_leaves(rt: HostRuntime) -> Result<(), Memory> {
    let alloc = rt.alloc();
    let mut sink = MemSink::new(alloc, PLENTY, Vec::new(alloc))?;
    match many(alloc, &mut sink) {
        Ok(Ok(totals)) => assert!(rt;
            totals.tiles == 20_000 && totals.entries == 20_000 && totals.contents == 5_000
        ),
        _ => assert!(rt; false, "it is written"),
    }
    let bytes = sink.bytes();
    assert!(rt; bytes.len() > 20_000);
    let end = HEADER_LEN + usize::from(bytes[16]);
    assert!(rt; bytes[17] == 0, "the root has fewer than 256 bytes");
    match read_dir(alloc, &bytes[HEADER_LEN..end])? {
        Some(root) => {
            assert!(rt; root.as_slice().len() == 5);
            for (i, leaf) in root.as_slice().iter().enumerate() {
                assert!(rt; leaf.run == 0 && leaf.id == i as u64 * 8192);
            }
        }
        None => assert!(rt; false, "the root is a directory"),
    }
    Ok(())
}

#[test]
fn each_call_of_a_spill_fails_in_turn(rt: HostRuntime) -> Result<(), Memory> {
    let alloc = rt.alloc();
    for n in 0..12 {
        let mut sink = MemSink::new(alloc, PLENTY, Vec::new(alloc))?;
        match equal_tiles(alloc, Some(n), &mut sink) {
            Err(e) => assert!(rt; n < 9 && e == SpillErr::Failed && sink.bytes().len() == 0),
            Ok(answer) => {
                assert!(rt; (n < 11) == (answer == Err(FinishErr::Spill)));
                assert!(rt; sink.bytes().len() == if n < 11 { 217 } else { 247 });
            }
        }
    }
    Ok(())
}

#[test]
fn each_size_of_a_sink_takes_a_prefix(rt: HostRuntime) -> Result<(), Memory> {
    let alloc = rt.alloc();
    let mut whole = MemSink::new(alloc, PLENTY, Vec::new(alloc))?;
    assert!(rt; equal_tiles(alloc, None, &mut whole).is_ok());
    for room in 0..247 {
        let mut sink = MemSink::new(alloc, room, Vec::new(alloc))?;
        assert!(rt; equal_tiles(alloc, None, &mut sink) == Ok(Err(FinishErr::Sink)));
        assert!(rt; sink.bytes().len() == room && whole.bytes().starts_with(sink.bytes()));
    }
    for n in 0..5 {
        let mut fails = Vec::new(alloc);
        fails.push(n)?;
        let mut sink = MemSink::new(alloc, PLENTY, fails)?;
        assert!(rt; equal_tiles(alloc, None, &mut sink) == Ok(Err(FinishErr::Sink)));
        assert!(rt; whole.bytes().starts_with(sink.bytes()));
    }
    Ok(())
}
