use super::{CAFE, Faults, NONE, build};
use std::test::Fail;

#[test]
fn profiles_are_judged(rt: HostRuntime) -> Result<(), Fail> {
    let alloc = rt.alloc();
    // A profile, the status and the line.
    let cases: [(&[u8], u8, &[u8]); 7] = [
        (b"", 3, b"profile: top: shape\n"),
        (b"=", 3, b"profile: top: toml\n"),
        (
            b"format = 3\n[[layer]]\nid = \"a\"\n",
            3,
            b"profile: top: format\n",
        ),
        (
            b"format = 1\nmaxzoom = 15\n[[layer]]\nid = \"a\"\n",
            3,
            b"profile: top: range\n",
        ),
        (
            b"format = 1\n[[layer]]\nid = \"a\"\n[[layer]]\nid = \"a\"\n",
            3,
            b"profile: layer 1: layer\n",
        ),
        (
            b"format = 1\nmaxzoom = 0\n[[layer]]\nid = \"a\"\n[[rule]]\nlayer = \"a\"\nkind = \"point\"\nwhen = [\"!\"]\n",
            3,
            b"profile: rule 0: condition\n",
        ),
        (
            b"format = 1\nmaxzoom = 0\n[[layer]]\nid = \"a\"\n[[rule]]\nlayer = \"a\"\nkind = \"line\"\n",
            4,
            b"damage: block 0: no header\n",
        ),
    ];
    for (profile, status, line) in cases {
        let ran = build(alloc, profile, b"", &NONE)?;
        assert!(rt; ran.status == status && ran.archive.bytes().is_empty());
        assert!(rt; ran.console.bytes() == line, "{profile:?}");
    }
    // The reader isn't asked where the profile is refused.
    let faults = Faults {
        reader: &[0],
        ..NONE
    };
    let ran = build(alloc, b"", CAFE, &faults)?;
    assert!(rt; ran.status == 3);
    Ok(())
}

// Two layers; of the second, the rule of order -1 comes first.
const LAYERS: &[u8] =
    b"format = 1\nname = \"two\"\nmaxzoom = 0\n[[layer]]\nid = \"all\"\n[[layer]]\nid = \"cafes\"\n[[rule]]\nlayer = \"cafes\"\nkind = \"point\"\nattributes = [{ name = \"n\", value = 1 }]\n[[rule]]\nlayer = \"cafes\"\nkind = \"point\"\norder = -1\nwhen = [\"amenity=cafe|bar\"]\nattributes = [{ key = \"amenity\" }]\n[[rule]]\nlayer = \"all\"\nkind = \"point\"\nwhen = [\"shop\"]\n";

// The tile: the layer `all` has no row; `cafes` has two points in the middle, the one with `amenity` first.
const TILE: &[u8] =
    b"\x1a\x46\x0a\x05cafes\x12\x0f\x08\x0b\x12\x02\x00\x00\x18\x01\x22\x05\x09\x80\x20\x80\x20\x12\x0f\x08\x0b\x12\x02\x01\x01\x18\x01\x22\x05\x09\x80\x20\x80\x20\x1a\x07amenity\x1a\x01n\x22\x06\x0a\x04cafe\x22\x02\x28\x01\x28\x80\x20\x78\x02";

#[test]
fn rows_stand_by_layer_and_order(rt: HostRuntime) -> Result<(), Fail> {
    let alloc = rt.alloc();
    let ran = build(alloc, LAYERS, CAFE, &NONE)?;
    assert!(rt; ran.status == 0);
    assert!(rt; ran.archive.bytes().ends_with(TILE));
    let metadata =
        b"{\"name\":\"two\",\"vector_layers\":[{\"fields\":{},\"id\":\"all\"},{\"fields\":{\"amenity\":\"String\",\"n\":\"Number\"},\"id\":\"cafes\"}]}".as_slice();
    let before = ran.archive.bytes().len().saturating_sub(TILE.len());
    assert!(rt;
        ran.archive
            .bytes()
            .get(..before)
            .is_some_and(|prefix| prefix.ends_with(metadata))
    );
    Ok(())
}

#[test]
fn profile_faults_are_told(rt: HostRuntime) -> Result<(), Fail> {
    let alloc = rt.alloc();
    for call in 0..3 {
        let faults = Faults {
            profile: &[call],
            ..NONE
        };
        let ran = build(alloc, LAYERS, CAFE, &faults)?;
        assert!(rt; ran.status == if call < 2 { 7 } else { 0 }, "call {call}");
        assert!(rt;
            call == 2 || ran.console.bytes() == b"source: profile\n".as_slice(),
            "call {call}"
        );
    }
    Ok(())
}
