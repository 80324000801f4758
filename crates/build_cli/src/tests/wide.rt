use super::many::put_list;
use super::{Faults, HEADER, NONE, Ran, build};
use std::alloc::Global;
use std::test::Fail;
use tb_types::Memory;
use tb_wire::{put_len, put_varint, zigzag};

// Zoom 14, roads in a layer whose buffer is 64.
const ROADS: &[u8] =
    b"format = 1\nminzoom = 14\nmaxzoom = 14\n[[layer]]\nid = \"a\"\n[[rule]]\nlayer = \"a\"\nkind = \"line\"\nwhen = [\"road\"]\n";

// Differences of a list: the first one, and then two in turn, 2,000 in all.
fn differences(alloc: Global, first: i64, odd: i64, even: i64) -> Result<Vec<u64>, Memory> {
    let mut list = Vec::new(alloc);
    list.push(zigzag(first))?;
    for n in 1..2000u32 {
        list.push(zigzag(if n % 2 == 1 { odd } else { even }))?;
    }
    Ok(list)
}

// Dense nodes 1 to 2,000, each 0.08 degrees north and 0.09 or 0.07 degrees east of the one before it.
fn dense_nodes(alloc: Global) -> Result<Vec<u8>, Memory> {
    let mut dense = Vec::new(alloc);
    put_list(&mut dense, alloc, 1, &differences(alloc, 1, 1, 1)?)?;
    let lats = differences(alloc, -799_000_000, 800_000, 800_000)?;
    put_list(&mut dense, alloc, 8, &lats)?;
    let lons = differences(alloc, -802_000_000, 900_000, 700_000)?;
    put_list(&mut dense, alloc, 9, &lons)?;
    Ok(dense)
}

// Way 1 along these nodes, `road=`.
fn way(alloc: Global) -> Result<Vec<u8>, Memory> {
    let mut way = Vec::from_slice(alloc, b"\x08\x01\x12\x01\x01\x1a\x01\x00")?;
    put_list(&mut way, alloc, 8, &differences(alloc, 1, 1, 1)?)?;
    Ok(way)
}

// A block of these nodes and of this way.
fn block(alloc: Global) -> Result<Vec<u8>, Memory> {
    let mut group = Vec::new(alloc);
    put_len(&mut group, 2, &dense_nodes(alloc)?)?;
    put_len(&mut group, 3, &way(alloc)?)?;
    let mut block = Vec::from_slice(alloc, b"\x0a\x08\x0a\x00\x0a\x04road")?;
    put_len(&mut block, 2, &group)?;
    Ok(block)
}

// The header frame, and a data frame of that block.
fn extract(alloc: Global) -> Result<Vec<u8>, Memory> {
    let mut blob = Vec::new(alloc);
    put_len(&mut blob, 1, &block(alloc)?)?;
    let mut header = Vec::from_slice(alloc, b"\x0a\x07OSMData\x18")?;
    put_varint(&mut header, blob.len() as u64)?;
    let mut extract = Vec::from_slice(alloc, HEADER)?;
    extract.extend_from_slice(&[0, 0, 0, (header.len() % 100) as u8])?;
    extract.extend_from_slice(&header)?;
    extract.extend_from_slice(&blob)?;
    Ok(extract)
}

// The box of this way has 92,334,115 tiles.
#[test]
fn a_wide_way_costs_its_tiles(rt: HostRuntime) -> Result<(), Fail> {
    let alloc = rt.alloc();
    let faults = Faults {
        room: 1_000_000,
        ..NONE
    };
    let ran = build(alloc, ROADS, &extract(alloc)?, &faults)?;
    let line = b"built: tiles 20547, entries 20547, contents 20506,".as_slice();
    assert!(rt; ran.status == 0 && ran.console.bytes().starts_with(line));
    Ok(())
}
