use super::ways::{MOVED, P1, PLACES, ROAD};
use super::{HEADER, NONE, build, reader_of, sink_of, words_for};
use crate::run_one;
use std::alloc::Global;
use std::test::Fail;
use tb_outside::{Lane, MemSink, MemSource, MemSpill};
use tb_types::Memory;

/// The objects of a build.
#[derive(Drop)]
struct Objects {
    words: Vec<String>,
    profile: MemSource,
    lane: Lane<MemSource, MemSpill>,
    spool: MemSpill,
    archive: MemSink,
    console: MemSink,
}

// The extract of a road whose first node stands there twice.
pub(super) fn road(alloc: Global) -> Result<Vec<u8>, Memory> {
    let mut extract = Vec::from_slice(alloc, HEADER)?;
    for block in [PLACES, MOVED, ROAD] {
        extract.extend_from_slice(block)?;
    }
    Ok(extract)
}

// The objects of a build of the road, of which these calls fail.
fn objects_of(
    alloc: Global,
    reader: &[u64],
    spill: &[u64],
    spool: &[u64],
) -> Result<Objects, Memory> {
    let extract = road(alloc)?;
    let lane = Lane {
        reader: reader_of(alloc, &extract, reader)?,
        spill: MemSpill::new(alloc, Vec::from_slice(alloc, spill)?)?,
    };
    Ok(Objects {
        words: words_for(alloc, "build", "p")?,
        profile: reader_of(alloc, P1, &[])?,
        lane,
        spool: MemSpill::new(alloc, Vec::from_slice(alloc, spool)?)?,
        archive: sink_of(alloc, 1000, &[])?,
        console: sink_of(alloc, 200, &[])?,
    })
}

fn run_over(alloc: Global, o: &mut Objects) -> u8 {
    run_one(
        alloc,
        &o.words,
        &mut o.profile,
        &mut o.lane,
        &mut o.spool,
        &mut o.archive,
        &mut o.console,
    )
}

/// What two builds over the same objects answered, what the archive had between them, and what they wrote.
#[derive(Drop)]
struct Twice {
    first: u8,
    between: usize,
    second: u8,
    archive: MemSink,
    console: MemSink,
}

fn build_twice(
    alloc: Global,
    reader: &[u64],
    spill: &[u64],
    spool: &[u64],
) -> Result<Twice, Memory> {
    let mut o = objects_of(alloc, reader, spill, spool)?;
    let first = run_over(alloc, &mut o);
    let between = o.archive.bytes().len();
    let second = run_over(alloc, &mut o);
    Ok(Twice {
        first,
        between,
        second,
        archive: o.archive,
        console: o.console,
    })
}

// Whether the first build failed with this status and nothing written, and the second gave the whole archive.
fn is_mended(ran: &Twice, status: u8, lines: &[u8], whole: &[u8]) -> bool {
    ran.first == status
        && ran.between == 0
        && ran.second == 0
        && ran.archive.bytes() == whole
        && ran.console.bytes().starts_with(lines)
}

#[test]
fn the_same_objects_serve_again(rt: HostRuntime) -> Result<(), Fail> {
    let alloc = rt.alloc();
    let whole = build(alloc, P1, &road(alloc)?, &NONE)?.archive;
    // Each call of the reader.
    for call in 0..17u64 {
        let ran = build_twice(alloc, &[call], &[], &[])?;
        let lines = b"source: lane 0\nbuilt: tiles 1,".as_slice();
        assert!(rt; is_mended(&ran, 7, lines, whole.bytes()), "call {call}");
    }
    // Each call of the lane's spill: a run is begun, written and ended, and then read.
    for call in 0..4u64 {
        let ran = build_twice(alloc, &[], &[call], &[])?;
        let lines = b"spill: lane 0\nbuilt: tiles 1,".as_slice();
        assert!(rt; is_mended(&ran, 8, lines, whole.bytes()), "call {call}");
    }
    // Each call of the spool before anything is appended.
    for call in 0..3u64 {
        let ran = build_twice(alloc, &[], &[], &[call])?;
        let lines = b"spill: spool\nbuilt: tiles 1,".as_slice();
        assert!(rt; is_mended(&ran, 8, lines, whole.bytes()), "call {call}");
    }
    Ok(())
}
