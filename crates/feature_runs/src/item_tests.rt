use crate::{ItemKey, RunItem, read_item};
use mvt_codec::TileRow;
use std::alloc::Global;
use tb_types::{Attr, AttrValue, Kind, Memory, Place, Seq, Text};

/// A cafe in the middle of tile 0: the key, the length 24, and the row.
const CAFE: &[u8] =
    b"\x00\x00\x00\x00\x00\x00\x00\x00\x02\x80\x00\x00\x00\x00\x00\x01\x00\x00\x00\x00\x00\x03\x00\x00\x00\x00\x00\x00\x00\x18\x0b\x01\x03\x09\x80\x20\x80\x20\x01\x07amenity\x06\x0a\x04cafe";

/// Places in it, and what stands there in bytes that are no item: tile and layer out of range, a kind of 3, a length that is
/// short and one that passes the end, no type, a type of other commands, a short count, an empty name, a name that isn't
/// UTF-8, and values that are of another field, longer than they say, or not UTF-8.
const REFUSED: [(usize, u8); 14] = [
    (0, 1),
    (8, 64),
    (11, 3),
    (29, 0x17),
    (22, 0x80),
    (31, 0),
    (31, 2),
    (32, 2),
    (39, 0),
    (40, 0xff),
    (47, 0x22),
    (48, 5),
    (49, 0xff),
    (38, 2),
];

fn cafe(alloc: Global, order: i16) -> Result<RunItem, Memory> {
    let mut ints = Seq::new(alloc);
    for n in [9, 4096, 4096] {
        ints.push(n)?;
    }
    let mut attributes = Seq::new(alloc);
    let name = text(alloc, "amenity")?;
    let value = AttrValue::Text(text(alloc, "cafe")?);
    attributes.push(Attr { name, value })?;
    Ok(RunItem {
        key: ItemKey {
            tile: 0,
            layer: 2,
            order,
            kind: Kind::Node,
            place: Place { block: 1, index: 0 },
            rule: 3,
        },
        row: TileRow {
            id: 11,
            form: 1,
            ints,
            attributes,
        },
    })
}

fn text(alloc: Global, text: &str) -> Result<Text, Memory> {
    let mut copy = Text::new(alloc);
    copy.push_str(text)?;
    Ok(copy)
}

#[test]
fn an_item_is_read_and_written(rt: HostRuntime) -> Result<(), Memory> {
    let alloc = rt.alloc();
    let mut bytes = Vec::new(alloc);
    bytes.push(7)?;
    bytes.extend_from_slice(CAFE)?;
    bytes.push(9)?;
    match read_item(alloc, &bytes, 1)? {
        Some((item, next)) => {
            assert!(rt; next == 55 && item.key == cafe(alloc, 0)?.key);
            assert!(rt; item.row.ints.as_slice() == [9, 4096, 4096].as_slice());
        }
        None => assert!(rt; false),
    }
    assert!(rt; read_item(alloc, &bytes, 0)?.is_none() && read_item(alloc, &bytes, 57)?.is_none());
    Ok(())
}

#[test]
fn other_bytes_are_no_item(rt: HostRuntime) -> Result<(), Memory> {
    let alloc = rt.alloc();
    for (at, byte) in REFUSED {
        let mut bytes = Vec::from_slice(alloc, CAFE)?;
        assert!(rt; at < bytes.len());
        bytes[at] = byte;
        assert!(rt;
            read_item(alloc, &bytes, 0)?.is_none(),
            "with {byte} at {at}"
        );
    }
    for len in 0..CAFE.len() {
        assert!(rt;
            read_item(alloc, &CAFE[..len], 0)?.is_none(),
            "of {len} bytes"
        );
    }
    Ok(())
}
