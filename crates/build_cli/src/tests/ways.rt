use super::{Faults, HEADER, NONE, Ran, build};
use std::alloc::Global;
use std::test::Fail;
use tb_types::Memory;

// Zoom 0, roads as lines and land use as areas.
pub(super) const P1: &[u8] =
    b"format = 1\nmaxzoom = 0\n[[layer]]\nid = \"roads\"\n[[layer]]\nid = \"land\"\n[[rule]]\nlayer = \"roads\"\nkind = \"line\"\nwhen = [\"highway\"]\n[[rule]]\nlayer = \"land\"\nkind = \"area\"\nwhen = [\"landuse\"]\nattributes = [{ key = \"landuse\" }]\n";

// A block with node 7 at 0,0 and node 8 at latitude 0 and longitude 45.
pub(super) const PLACES: &[u8] =
    b"\x00\x00\x00\x0b\x0a\x07OSMData\x18\x1a\x0a\x18\x0a\x02\x0a\x00\x12\x12\x12\x10\x0a\x02\x0e\x02B\x02\x00\x00J\x06\x00\x80\xd2\x93\xad\x03";

// A block with node 7 again, at latitude 0 and longitude 90.
pub(super) const MOVED: &[u8] =
    b"\x00\x00\x00\x0b\x0a\x07OSMData\x18\x17\x0a\x15\x0a\x02\x0a\x00\x12\x0f\x12\x0d\x0a\x01\x0eB\x01\x00J\x05\x80\xa4\xa7\xda\x06";

// A block with way 1 along nodes 7 and 8, `highway=primary`.
pub(super) const ROAD: &[u8] =
    b"\x00\x00\x00\x0b\x0a\x07OSMData\x18(\x0a&\x0a\x14\x0a\x00\x0a\x07highway\x0a\x07primary\x12\x0e\x1a\x0c\x08\x01\x12\x01\x01\x1a\x01\x02B\x02\x0e\x02";

// The same along nodes 7 and 9, of which the second isn't there.
const BROKEN: &[u8] =
    b"\x00\x00\x00\x0b\x0a\x07OSMData\x18(\x0a&\x0a\x14\x0a\x00\x0a\x07highway\x0a\x07primary\x12\x0e\x1a\x0c\x08\x01\x12\x01\x01\x1a\x01\x02B\x02\x0e\x04";

// Four nodes, at 0,0, 0,90, 45,90 and 45,0.
const CORNERS: &[u8] =
    b"\x00\x00\x00\x0b\x0a\x07OSMData\x18(\x0a&\x0a\x02\x0a\x00\x12 \x12\x1e\x0a\x04\x02\x02\x02\x02B\x08\x00\x00\x80\xd2\x93\xad\x03\x00J\x0c\x00\x80\xa4\xa7\xda\x06\x00\xff\xa3\xa7\xda\x06";

// A block with way 2 round these nodes, `landuse=forest`.
const WOOD: &[u8] =
    b"\x00\x00\x00\x0b\x0a\x07OSMData\x18*\x0a(\x0a\x13\x0a\x00\x0a\x07landuse\x0a\x06forest\x12\x11\x1a\x0f\x08\x02\x12\x01\x01\x1a\x01\x02B\x05\x02\x02\x02\x02\x05";

// The road from the east.
const FROM_EAST: &[u8] =
    b"\x1a\x1d\x0a\x05roads\x12\x0f\x08\x0c\x18\x02\x22\x09\x09\x800\x80 \x0a\xff\x07\x00(\x80 x\x02";

// The road from the middle.
const FROM_MIDDLE: &[u8] =
    b"\x1a\x1d\x0a\x05roads\x12\x0f\x08\x0c\x18\x02\x22\x09\x09\x80 \x80 \x0a\x80\x08\x00(\x80 x\x02";

// The wood.
const FOREST: &[u8] =
    b"\x1a:\x0a\x04land\x12\x1a\x08\x16\x12\x02\x00\x00\x18\x03\x22\x10\x09\x80 \x82\x17\x1a\x80\x10\x00\x00\xfe\x08\xff\x0f\x00\x0f\x1a\x07landuse\x22\x08\x0a\x06forest(\x80 x\x02";

// Builds an extract of the header frame and these blocks.
pub(super) fn build_of(
    alloc: Global,
    blocks: &[&[u8]],
    faults: &Faults<'_>,
) -> Result<Ran, Memory> {
    let mut extract = Vec::from_slice(alloc, HEADER)?;
    for block in blocks {
        extract.extend_from_slice(block)?;
    }
    build(alloc, P1, &extract, faults)
}

#[test]
fn ways_have_lines_and_areas(rt: HostRuntime) -> Result<(), Fail> {
    let alloc = rt.alloc();
    // The blocks, how the line begins, and the last tile.
    let cases: [(&[&[u8]], &[u8], &[u8]); 5] = [
        // Of two nodes of one id the one at the greatest place counts.
        (&[PLACES, MOVED, ROAD], b"built: tiles 1,", FROM_EAST),
        (&[MOVED, PLACES, ROAD], b"built: tiles 1,", FROM_MIDDLE),
        // A way may come before its nodes.
        (&[ROAD, PLACES, MOVED], b"built: tiles 1,", FROM_EAST),
        // A way of which a node is missing has no shape.
        (&[PLACES, MOVED, BROKEN], b"built: tiles 0,", b""),
        // A closed way has an area.
        (&[CORNERS, WOOD], b"built: tiles 1,", FOREST),
    ];
    for (blocks, line, tile) in cases {
        let ran = build_of(alloc, blocks, &NONE)?;
        assert!(rt; ran.status == 0 && ran.console.bytes().starts_with(line));
        assert!(rt; ran.archive.bytes().ends_with(tile));
    }
    Ok(())
}

#[test]
fn reader_faults_of_later_passes_are_told(rt: HostRuntime) -> Result<(), Fail> {
    let alloc = rt.alloc();
    // The size, eight loads of the scan, four of the survey, and the blocks again: one with ways, two with nodes, one with ways.
    for call in 0..18 {
        let faults = Faults {
            reader: &[call],
            ..NONE
        };
        let ran = build_of(alloc, &[PLACES, MOVED, ROAD], &faults)?;
        let fails = call < 17;
        assert!(rt; ran.status == if fails { 7 } else { 0 }, "call {call}");
        assert!(rt; ran.archive.bytes().is_empty() == fails, "call {call}");
    }
    Ok(())
}
