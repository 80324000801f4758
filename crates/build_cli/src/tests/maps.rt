use super::{CAFE, HEADER, NONE, nodes};
use std::test::Fail;

#[test]
fn maps_are_built(rt: HostRuntime) -> Result<(), Fail> {
    let alloc = rt.alloc();
    // The key, the extract, the length of the archive, what stands behind its header, and the line.
    let cases: [(&str, &[u8], usize, &[u8], &[u8]); 4] = [
        (
            "amenity",
            HEADER,
            205,
            b"\x00{\"name\":\"map\",\"vector_layers\":[{\"fields\":{\"amenity\":\"String\"},\"id\":\"nodes\"}]}",
            b"built: tiles 0, entries 0, contents 0, bytes 205\n",
        ),
        (
            "amenity",
            CAFE,
            257,
            b"\x01\x00\x01\x30\x01{\"name\":\"map\",\"vector_layers\":[{\"fields\":{\"amenity\":\"String\"},\"id\":\"nodes\"}]}\x1a\x2e\x0a\x05nodes\x12\x0f\x08\x0b\x12\x02\x00\x00\x18\x01\x22\x05\x09\x80\x20\x80\x20\x1a\x07amenity\x22\x06\x0a\x04cafe\x28\x80\x20\x78\x02",
            b"built: tiles 1, entries 1, contents 1, bytes 257\n",
        ),
        (
            "shop",
            CAFE,
            202,
            b"\x00{\"name\":\"map\",\"vector_layers\":[{\"fields\":{\"shop\":\"String\"},\"id\":\"nodes\"}]}",
            b"built: tiles 0, entries 0, contents 0, bytes 202\n",
        ),
        (
            "a\"b\n",
            CAFE,
            204,
            b"\x00{\"name\":\"map\",\"vector_layers\":[{\"fields\":{\"a\\\"b\\n\":\"String\"},\"id\":\"nodes\"}]}",
            b"built: tiles 0, entries 0, contents 0, bytes 204\n",
        ),
    ];
    for (key, extract, len, behind, line) in cases {
        let ran = nodes(alloc, key, extract, &NONE)?;
        assert!(rt;
            ran.status == 0 && ran.archive.bytes().len() == len,
            "{key}"
        );
        assert!(rt;
            behind.len() + 127 == len && ran.archive.bytes().ends_with(behind),
            "{key}"
        );
        assert!(rt; ran.console.bytes() == line, "{key}");
    }
    Ok(())
}
