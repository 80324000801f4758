use crate::{TileErr, count_rows, decode_tile};
use std::alloc::Global;
use tb_types::AttrValue;

/// A layer `nodes` with a point, whose one attribute is `amenity` = `cafe`.
const CAFE_AGAIN: &[u8] =
    b"\x1a\x2e\x0a\x05nodes\x12\x0f\x08\x0b\x12\x02\x00\x00\x18\x01\x22\x05\x09\x80\x20\x80\x20\x1a\x07amenity\x22\x06\x0a\x04cafe\x28\x80\x20\x78\x02";

// The number of the first bad layer of bytes, or 99 where they are a tile, or 98 where the count of rows says otherwise.
fn bad_layer(alloc: Global, bytes: &[u8]) -> u64 {
    match (decode_tile(alloc, bytes), count_rows(alloc, bytes)) {
        (Ok(_), Ok(_)) => 99,
        (Err(TileErr::Bad { at }), Err(TileErr::Bad { at: counted })) if at == counted => at,
        _ => 98,
    }
}

#[test]
fn a_cafe_is_read(rt: HostRuntime) {
    let alloc = rt.alloc();
    let Ok(layers) = decode_tile(alloc, CAFE_AGAIN) else {
        assert!(rt; false);
        return;
    };
    assert!(rt; layers.as_slice().len() == 1);
    assert!(rt; count_rows(alloc, CAFE_AGAIN) == Ok(1));
    let Some(layer) = layers.as_slice().first() else {
        return;
    };
    assert!(rt; layer.name.as_str() == "nodes" && layer.extent == 4096);
    let Some(row) = layer.rows.as_slice().first() else {
        assert!(rt; false);
        return;
    };
    assert!(rt; row.id == 11 && row.form == 1);
    assert!(rt; row.ints.as_slice() == [9, 4096, 4096].as_slice());
    let Some(attribute) = row.attributes.as_slice().first() else {
        assert!(rt; false);
        return;
    };
    assert!(rt; attribute.name.as_str() == "amenity" && is_text(&attribute.value, "cafe"));
}

fn is_text(value: &AttrValue, wanted: &str) -> bool {
    match value {
        AttrValue::Text(text) => text.as_str() == wanted,
        _ => false,
    }
}

#[test]
fn bad_layers_are_told(rt: HostRuntime) {
    let alloc = rt.alloc();
    let cases: [(&[u8], u64); 31] = [
        (b"", 99),
        // layers a and b of version 2, and one of version 1
        (b"\x1a\x05\x0a\x01a\x78\x02", 99),
        (b"\x1a\x05\x0a\x01a\x78\x02\x1a\x05\x0a\x01b\x78\x01", 99),
        // an empty name, and unknown fields
        (b"\x1a\x04\x0a\x00\x78\x02\x20\x07", 99),
        (b"\x20\x07\x1a\x07\x0a\x01a\x78\x02\x80\x01\x00", 0),
        (b"\x20\x07\x1a\x08\x0a\x01a\x78\x02\x80\x01\x00", 99),
        // two layers of one name, no name, no version, version 3
        (b"\x1a\x05\x0a\x01a\x78\x02\x1a\x05\x0a\x01a\x78\x02", 1),
        (b"\x1a\x02\x78\x02", 0),
        (b"\x1a\x03\x0a\x01a", 0),
        (b"\x1a\x05\x0a\x01a\x78\x03", 0),
        // a layer that is a number, and bytes that are no field behind a layer
        (b"\x18\x00", 0),
        (b"\x1a\x05\x0a\x01a\x78\x02\x00", 1),
        (b"\x1a\x05\x0a\x01a\x78\x02\x1a\x05\x0a\x01b\x78", 1),
        // a name that isn't UTF-8, and a key that isn't
        (b"\x1a\x05\x0a\x01\xff\x78\x02", 0),
        (b"\x1a\x08\x0a\x01a\x1a\x01\xff\x78\x02", 0),
        // values without a field, with two, and with an unknown one beside
        (b"\x1a\x07\x0a\x01a\x22\x00\x78\x02", 0),
        (b"\x1a\x0b\x0a\x01a\x22\x04\x38\x01\x38\x01\x78\x02", 0),
        (b"\x1a\x0b\x0a\x01a\x22\x04\x38\x01\x40\x01\x78\x02", 99),
        // features: empty, of type 4, a point without integers, a point
        (b"\x1a\x07\x0a\x01a\x12\x00\x78\x02", 99),
        (b"\x1a\x09\x0a\x01a\x12\x02\x18\x04\x78\x02", 0),
        (b"\x1a\x09\x0a\x01a\x12\x02\x18\x01\x78\x02", 0),
        (
            b"\x1a\x0e\x0a\x01a\x12\x07\x18\x01\x22\x03\x09\x02\x02\x78\x02",
            99,
        ),
        // a name that isn't UTF-8 before one that is; a version and a type of 2^32 + 1; the last of two names counts
        (b"\x1a\x08\x0a\x01\xff\x0a\x01a\x78\x02", 0),
        (b"\x1a\x09\x0a\x01a\x78\x81\x80\x80\x80\x10", 99),
        (
            b"\x1a\x12\x0a\x01a\x12\x0b\x18\x81\x80\x80\x80\x10\x22\x03\x09\x02\x02\x78\x02",
            99,
        ),
        (
            b"\x1a\x05\x0a\x01a\x78\x02\x1a\x08\x0a\x01a\x0a\x01b\x78\x02",
            99,
        ),
        // a layer that is bad before one of a repeated name
        (
            b"\x1a\x05\x0a\x01a\x78\x02\x1a\x05\x0a\x01b\x78\x03\x1a\x05\x0a\x01a\x78\x02",
            1,
        ),
        // a list of integers in both forms, and a known field of another wire type
        (
            b"\x1a\x0f\x0a\x01a\x12\x08\x18\x01\x20\x09\x22\x02\x02\x02\x78\x02",
            99,
        ),
        (b"\x1a\x07\x0a\x01a\x28\x00\x7a\x00", 0),
        // tags outside the dictionaries, and an odd number of tags
        (b"\x1a\x0b\x0a\x01a\x12\x04\x12\x02\x00\x00\x78\x02", 0),
        (b"\x1a\x0d\x0a\x01a\x12\x03\x12\x01\x00\x1a\x01k\x78\x02", 0),
    ];
    for (bytes, wanted) in cases {
        assert!(rt; bad_layer(alloc, bytes) == wanted);
    }
}

#[test]
fn prefixes_of_a_tile_are_bad(rt: HostRuntime) {
    let alloc = rt.alloc();
    for (len, _byte) in CAFE_AGAIN.iter().enumerate() {
        if let Some(prefix) = CAFE_AGAIN.get(..len) {
            assert!(rt; bad_layer(alloc, prefix) == if len == 0 { 99 } else { 0 });
        }
    }
}
