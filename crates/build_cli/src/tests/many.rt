use super::{HEADER, NONE, nodes};
use std::alloc::Global;
use std::test::Fail;
use tb_types::Memory;
use tb_wire::{put_len, put_varint, zigzag};

/// Nodes of the extract.
const COUNT: u64 = 300;

/// Four units of the grid of zoom 0, which has 4096 over 360 degrees, in units of 100 nanodegrees.
const FOUR_UNITS: i64 = 3_515_625;

/// The values of the key, as often as one node after another takes the next.
const VALUES: [&[u8]; 3] = [b"bench", b"cafe", b"bank"];

// A packed list of a number, as a field.
pub(super) fn put_list(
    out: &mut Vec<u8>,
    alloc: Global,
    number: u32,
    items: &[u64],
) -> Result<(), Memory> {
    let mut list = Vec::new(alloc);
    for item in items {
        put_varint(&mut list, *item)?;
    }
    put_len(out, number, &list)
}

// Dense nodes 1 to 300 at latitude 0, each four units east of the one before it.
fn dense_nodes(alloc: Global) -> Result<Vec<u8>, Memory> {
    let mut ids = Vec::new(alloc);
    let mut lats = Vec::new(alloc);
    let mut lons = Vec::new(alloc);
    let mut pairs = Vec::new(alloc);
    for n in 0..COUNT {
        ids.push(zigzag(1))?;
        lats.push(0)?;
        lons.push(zigzag(FOUR_UNITS))?;
        pairs.extend_from_slice(&[1, 2 + n % 3, 0])?;
    }
    let mut dense = Vec::new(alloc);
    put_list(&mut dense, alloc, 1, &ids)?;
    put_list(&mut dense, alloc, 8, &lats)?;
    put_list(&mut dense, alloc, 9, &lons)?;
    put_list(&mut dense, alloc, 10, &pairs)?;
    Ok(dense)
}

// A block of the strings and of those nodes.
fn block(alloc: Global) -> Result<Vec<u8>, Memory> {
    let mut strings = Vec::new(alloc);
    put_len(&mut strings, 1, b"")?;
    put_len(&mut strings, 1, b"amenity")?;
    for value in VALUES {
        put_len(&mut strings, 1, value)?;
    }
    let mut group = Vec::new(alloc);
    put_len(&mut group, 2, &dense_nodes(alloc)?)?;
    let mut block = Vec::new(alloc);
    put_len(&mut block, 1, &strings)?;
    put_len(&mut block, 2, &group)?;
    Ok(block)
}

// The header frame, and a data frame of that block.
pub(super) fn extract(alloc: Global) -> Result<Vec<u8>, Memory> {
    let mut blob = Vec::new(alloc);
    put_len(&mut blob, 1, &block(alloc)?)?;
    let mut header = Vec::new(alloc);
    put_len(&mut header, 1, b"OSMData")?;
    put_varint(&mut header, 24)?;
    put_varint(&mut header, blob.len() as u64)?;
    let mut extract = Vec::from_slice(alloc, HEADER)?;
    extract.extend_from_slice(&[0, 0, 0, (header.len() % 100) as u8])?;
    extract.extend_from_slice(&header)?;
    extract.extend_from_slice(&blob)?;
    Ok(extract)
}

// The feature of node n: id 10 n + 1, the key, the value whose turn it is, and a point on the equator. Node n lies 4 n units
// east of the middle, which is 2048.
fn feature(alloc: Global, number: u32) -> Result<Vec<u8>, Memory> {
    let n = u64::from(number);
    let mut feature = Vec::new(alloc);
    put_varint(&mut feature, 8)?;
    put_varint(&mut feature, 10 * n + 1)?;
    put_list(&mut feature, alloc, 2, &[0, (n + 2) % 3])?;
    put_varint(&mut feature, 24)?;
    put_varint(&mut feature, 1)?;
    put_list(&mut feature, alloc, 4, &[9, 2 * (2048 + 4 * n), 2 * 2048])?;
    Ok(feature)
}

// The tile of all features.
fn tile(alloc: Global) -> Result<Vec<u8>, Memory> {
    let mut layer = Vec::new(alloc);
    put_len(&mut layer, 1, b"nodes")?;
    for n in 1..301 {
        put_len(&mut layer, 2, &feature(alloc, n)?)?;
    }
    put_len(&mut layer, 3, b"amenity")?;
    for value in VALUES {
        let mut text = Vec::new(alloc);
        put_len(&mut text, 1, value)?;
        put_len(&mut layer, 4, &text)?;
    }
    layer.extend_from_slice(b"\x28\x80\x20\x78\x02")?;
    let mut tile = Vec::new(alloc);
    put_len(&mut tile, 3, &layer)?;
    Ok(tile)
}

#[test]
fn many_nodes_have_their_features(rt: HostRuntime) -> Result<(), Fail> {
    let alloc = rt.alloc();
    let ran = nodes(alloc, "amenity", &extract(alloc)?, &NONE)?;
    assert!(rt; ran.status == 0);
    let tile = tile(alloc)?;
    assert!(rt; ran.archive.bytes().ends_with(&tile), "the features");
    // Header, root and metadata stand before it; the root has 6 bytes, since the tile's length takes two.
    assert!(rt; ran.archive.bytes().len() == 127 + 6 + 77 + tile.len());
    Ok(())
}
