use super::{HEADER, NONE, nodes};
use std::alloc::Global;
use std::test::Fail;
use tb_types::Memory;

// The header frame and a data frame with the strings of the cafe's block and a node of these fields, which are few.
pub(super) fn extract_with(alloc: Global, node: &[u8]) -> Result<Vec<u8>, Memory> {
    let mut extract = Vec::from_slice(alloc, HEADER)?;
    put_frame(&mut extract, node)?;
    Ok(extract)
}

// Adds such a data frame.
fn put_frame(extract: &mut Vec<u8>, node: &[u8]) -> Result<(), Memory> {
    let len = (node.len() % 100) as u8;
    extract.extend_from_slice(b"\x00\x00\x00\x0b\x0a\x07OSMData\x18")?;
    extract.extend_from_slice(&[len + 25, 10, len + 23])?;
    extract.extend_from_slice(b"\x0a\x11\x0a\x00\x0a\x07amenity\x0a\x04cafe")?;
    extract.extend_from_slice(&[18, len + 2, 10, len])?;
    extract.extend_from_slice(node)?;
    Ok(())
}

const GOOD: &[u8] = b"\x08\x02\x12\x01\x01\x1a\x01\x02\x40\x00\x48\x00";

// The index of a key is past the table of strings.
const BAD: &[u8] = b"\x08\x02\x12\x01\x03\x1a\x01\x02\x40\x00\x48\x00";

#[test]
fn nodes_are_taken_or_damaged(rt: HostRuntime) -> Result<(), Fail> {
    let alloc = rt.alloc();
    let no_tile = b"built: tiles 0, entries 0, contents 0, bytes 205\n".as_slice();
    let tile = b"built: tiles 1, entries 1, contents 1, bytes 257\n".as_slice();
    let no_id = b"built: tiles 1, entries 1, contents 1, bytes 255\n".as_slice();
    // What a node's fields are, and the line.
    let cases: [(&str, &[u8], &[u8]); 14] = [
        ("a cafe", GOOD, tile),
        (
            "id 0 has no feature id",
            b"\x08\x00\x12\x01\x01\x1a\x01\x02\x40\x00\x48\x00",
            no_id,
        ),
        (
            "nor has id -1",
            b"\x08\x01\x12\x01\x01\x1a\x01\x02\x40\x00\x48\x00",
            no_id,
        ),
        (
            "a varint longer than needed",
            b"\x08\x02\x12\x01\x01\x1a\x01\x02\x40\x80\x00\x48\x00",
            tile,
        ),
        (
            "the first tag of a key counts",
            b"\x08\x02\x12\x02\x01\x01\x1a\x02\x02\x00\x40\x00\x48\x00",
            tile,
        ),
        ("no tags", b"\x08\x02\x40\x00\x48\x00", no_tile),
        (
            "180 degrees east",
            b"\x08\x02\x12\x01\x01\x1a\x01\x02\x40\x00\x48\x80\xc8\xce\xb4\x0d",
            tile,
        ),
        (
            "a little further there is no location",
            b"\x08\x02\x12\x01\x01\x1a\x01\x02\x40\x00\x48\x82\xc8\xce\xb4\x0d",
            no_tile,
        ),
        (
            "another order",
            b"\x12\x01\x01\x08\x02\x1a\x01\x02\x40\x00\x48\x00",
            tile,
        ),
        (
            "of two ids the last counts",
            b"\x08\x02\x40\x00\x48\x00\x08\x02",
            no_tile,
        ),
        (
            "keys without values",
            b"\x08\x02\x12\x01\x01\x40\x00\x48\x00",
            b"damage: block 1: uneven\n",
        ),
        (
            "more keys than values",
            b"\x08\x02\x12\x02\x01\x01\x1a\x01\x02\x40\x00\x48\x00",
            b"damage: block 1: uneven\n",
        ),
        ("an index past the table", BAD, b"damage: block 1: index\n"),
        (
            "no latitude",
            b"\x08\x02\x48\x00",
            b"damage: block 1: missing\n",
        ),
    ];
    for (what, node, line) in cases {
        let ran = nodes(alloc, "amenity", &extract_with(alloc, node)?, &NONE)?;
        assert!(rt; ran.console.bytes() == line, "{what}");
        let status = if line.starts_with(b"damage") { 4 } else { 0 };
        assert!(rt; ran.status == status, "{what}");
    }
    Ok(())
}

#[test]
fn damage_is_told(rt: HostRuntime) -> Result<(), Fail> {
    let alloc = rt.alloc();
    // An extract and the line.
    let cases: [(&[u8], &[u8]); 7] = [
        (b"", b"damage: block 0: no header\n"),
        (
            b"\x00\x00\x00\x0b\x0a\x07OSMData\x18\x25\x0a\x23\x0a\x11\x0a\x00\x0a\x07amenity\x0a\x04cafe\x12\x0e\x0a\x0c\x08\x02\x12\x01\x01\x1a\x01\x02\x40\x00\x48\x00",
            b"damage: block 0: no header\n",
        ),
        (
            b"\x00\x00\x00\x0d\x0a\x09OSMHeader\x18\x02\x1a\x00",
            b"damage: block 0: compressed\n",
        ),
        (
            b"\x00\x00\x00\x0d\x0a\x09OSMHeader\x18\x02\x10\x00",
            b"damage: block 0: no raw\n",
        ),
        (
            b"\x00\x00\x00\x0d\x0a\x09OSMHeader\x18\x02\x0a",
            b"damage: block 0: cut\n",
        ),
        (
            b"\x00\x01\x00\x00\x0a\x09OSMHeader\x18\x02\x0a\x00",
            b"damage: block 0: header long\n",
        ),
        (
            b"\x00\x00\x00\x0d\x0a\x09OSMHeader\x18\x02\x0a\x00\x00\x00\x00\x0b\x0a\x07OSMData\x18\x25\x0a\x23\x0a\x11\x0a\x00\x0a\x07amenity\x0a\x04cafe\x12\x0e\x0a\x0c\x08\x02\x12\x01\x01\x1a\x01\x02\x40\x00\x48\x00\x00\x00",
            b"damage: block 2: cut\n",
        ),
    ];
    for (extract, line) in cases {
        let ran = nodes(alloc, "amenity", extract, &NONE)?;
        assert!(rt; ran.status == 4 && ran.archive.bytes().is_empty());
        assert!(rt; ran.console.bytes() == line, "{extract:?}");
    }
    Ok(())
}

#[test]
fn least_damaged_block_is_named(rt: HostRuntime) -> Result<(), Fail> {
    let alloc = rt.alloc();
    let mut extract = Vec::from_slice(alloc, HEADER)?;
    for node in [GOOD, BAD, GOOD, GOOD, BAD, GOOD] {
        put_frame(&mut extract, node)?;
    }
    let ran = nodes(alloc, "amenity", &extract, &NONE)?;
    assert!(rt; ran.status == 4 && ran.archive.bytes().is_empty());
    assert!(rt; ran.console.bytes() == b"damage: block 2: index\n".as_slice());
    Ok(())
}
