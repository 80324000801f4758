use super::damage::extract_with;
use super::{CAFE, NONE, build};
use std::test::Fail;

// Zooms 0 and 1 of one layer: the cafe in the middle stands in tile 0 and on the corner that the four tiles of zoom 1 share.
const CORNER: &[u8] =
    b"format = 1\nmaxzoom = 1\n[[layer]]\nid = \"a\"\n[[rule]]\nlayer = \"a\"\nkind = \"point\"\n";

// The root, the metadata and the five tiles.
const FIVE_TILES: &[u8] =
    b"\x05\x00\x01\x01\x01\x01\x01\x01\x01\x01\x01\x17\x17\x16\x15\x16\x01\x00\x00\x00\x00{\"name\":\"map\",\"vector_layers\":[{\"fields\":{},\"id\":\"a\"}]}\x1a\x15\x0a\x01a\x12\x0b\x08\x0b\x18\x01\"\x05\x09\x80 \x80 (\x80 x\x02\x1a\x15\x0a\x01a\x12\x0b\x08\x0b\x18\x01\"\x05\x09\x80@\x80@(\x80 x\x02\x1a\x14\x0a\x01a\x12\x0a\x08\x0b\x18\x01\"\x04\x09\x80@\x00(\x80 x\x02\x1a\x13\x0a\x01a\x12\x09\x08\x0b\x18\x01\"\x03\x09\x00\x00(\x80 x\x02\x1a\x14\x0a\x01a\x12\x0a\x08\x0b\x18\x01\"\x04\x09\x00\x80@(\x80 x\x02";

#[test]
fn points_stand_at_all_zooms(rt: HostRuntime) -> Result<(), Fail> {
    let alloc = rt.alloc();
    let ran = build(alloc, CORNER, CAFE, &NONE)?;
    assert!(rt; ran.status == 0 && ran.archive.bytes().ends_with(FIVE_TILES));
    assert!(rt; ran.archive.bytes().len() == 127 + FIVE_TILES.len());
    assert!(rt;
        ran.console.bytes() == b"built: tiles 5, entries 5, contents 5, bytes 314\n".as_slice()
    );
    // The header tells the zooms, and the centre's is the least.
    assert!(rt; ran.archive.bytes().get(100..102) == Some(b"\x00\x01".as_slice()));
    assert!(rt; ran.archive.bytes().get(118..119) == Some(b"\x00".as_slice()));
    Ok(())
}

// One rule at zoom 1, and the buffer of its layer.
const BUFFER_64: &[u8] =
    b"format = 1\nmaxzoom = 1\n[[layer]]\nid = \"a\"\nbuffer = 64\n[[rule]]\nlayer = \"a\"\nkind = \"point\"\nminzoom = 1\n";

const BUFFER_59: &[u8] =
    b"format = 1\nmaxzoom = 1\n[[layer]]\nid = \"a\"\nbuffer = 59\n[[rule]]\nlayer = \"a\"\nkind = \"point\"\nminzoom = 1\n";

const BUFFER_256: &[u8] =
    b"format = 1\nmaxzoom = 1\n[[layer]]\nid = \"a\"\nbuffer = 256\n[[rule]]\nlayer = \"a\"\nkind = \"point\"\nminzoom = 1\n";

#[test]
fn buffers_reach_into_neighbours(rt: HostRuntime) -> Result<(), Fail> {
    let alloc = rt.alloc();
    // A node 60 units east of the middle of zoom 1, and one at the north pole on the antimeridian.
    let east = b"\x08\x02\x12\x01\x01\x1a\x01\x02\x40\x00\x48\x80\xd4\x96\x19";
    let pole = b"\x08\x02\x12\x01\x01\x1a\x01\x02\x40\x80\xa4\xa7\xda\x06\x48\x80\xc8\xce\xb4\x0d";
    // The profile, the node, how the line begins, and the last tile: that of column 1 and row 0.
    let cases: [(&[u8], &[u8], &[u8], &[u8]); 3] = [
        (
            BUFFER_64,
            east,
            b"built: tiles 4,",
            b"\x1a\x14\x0a\x01a\x12\x0a\x08\x0b\x18\x01\x22\x04\x09x\x80\x40\x28\x80\x20\x78\x02",
        ),
        (
            BUFFER_59,
            east,
            b"built: tiles 2,",
            b"\x1a\x14\x0a\x01a\x12\x0a\x08\x0b\x18\x01\x22\x04\x09x\x80\x40\x28\x80\x20\x78\x02",
        ),
        (
            BUFFER_256,
            pole,
            b"built: tiles 1,",
            b"\x1a\x14\x0a\x01a\x12\x0a\x08\x0b\x18\x01\x22\x04\x09\x80\x40\x00\x28\x80\x20\x78\x02",
        ),
    ];
    for (profile, node, line, tile) in cases {
        let ran = build(alloc, profile, &extract_with(alloc, node)?, &NONE)?;
        assert!(rt; ran.status == 0 && ran.console.bytes().starts_with(line));
        assert!(rt; ran.archive.bytes().ends_with(tile));
    }
    Ok(())
}
