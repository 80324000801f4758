use super::damage::extract_with;
use super::{NONE, nodes};
use std::test::Fail;

#[test]
fn nodes_lie_at_their_places(rt: HostRuntime) -> Result<(), Fail> {
    let alloc = rt.alloc();
    // The fields of a node, and the geometry of its feature.
    let cases: [(&str, &[u8], &[u8]); 4] = [
        (
            "45 degrees north",
            b"\x08\x02\x12\x01\x01\x1a\x01\x02\x40\x80\xd2\x93\xad\x03\x48\x00",
            b"\x22\x05\x09\x80\x20\x82\x17",
        ),
        (
            "and 90 degrees east",
            b"\x08\x02\x12\x01\x01\x1a\x01\x02\x40\x80\xd2\x93\xad\x03\x48\x80\xa4\xa7\xda\x06",
            b"\x22\x05\x09\x80\x30\x82\x17",
        ),
        (
            "the north pole and the antimeridian",
            b"\x08\x02\x12\x01\x01\x1a\x01\x02\x40\x80\xa4\xa7\xda\x06\x48\x80\xc8\xce\xb4\x0d",
            b"\x22\x04\x09\x80\x40\x00",
        ),
        (
            "the south pole",
            b"\x08\x02\x12\x01\x01\x1a\x01\x02\x40\xff\xa3\xa7\xda\x06\x48\x00",
            b"\x22\x05\x09\x80\x20\x80\x40",
        ),
    ];
    for (what, node, geometry) in cases {
        let ran = nodes(alloc, "amenity", &extract_with(alloc, node)?, &NONE)?;
        let holds = ran
            .archive
            .bytes()
            .windows(geometry.len())
            .any(|w| w == geometry);
        assert!(rt; ran.status == 0 && holds, "{what}");
    }
    Ok(())
}
