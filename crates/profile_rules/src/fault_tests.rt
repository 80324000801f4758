//! Why profiles are refused, as a table.

use crate::{Part, ProfileErr, ProfileWhy, Spot, read_profile};
use std::alloc::{AllocError, Global};
use std::test::Fail;

const NODES: &str = "format = 1\n[[layer]]\nid = \"a\"\n";

/// A text, and the part and the reason for which it is refused.
type Row = (&'static str, Part, u32, ProfileWhy);

/// A profile for each reason of each part, and the reasons beside one another. Each text goes behind `NODES`, where the
/// spot isn't that of the top, or the first line has no format.
const REFUSED: [Row; 53] = [
    // the top table
    ("format = ", Part::Top, 0, ProfileWhy::Toml),
    ("format = 1\nformat = 1", Part::Top, 0, ProfileWhy::Toml),
    (
        "format = 1\nlayer = [{ id = \"a\" }]\nzoom = 1",
        Part::Top,
        0,
        ProfileWhy::Unknown,
    ),
    ("", Part::Top, 0, ProfileWhy::Shape),
    ("format = 1", Part::Top, 0, ProfileWhy::Shape),
    (
        "format = 1.0\nlayer = [{ id = \"a\" }]",
        Part::Top,
        0,
        ProfileWhy::Shape,
    ),
    ("format = 1\nlayer = []", Part::Top, 0, ProfileWhy::Shape),
    ("format = 1\nlayer = [1]", Part::Top, 0, ProfileWhy::Shape),
    (
        "format = 1\n[layer]\nid = \"a\"",
        Part::Top,
        0,
        ProfileWhy::Shape,
    ),
    (
        "format = 1\nrule = 1\nlayer = [{ id = \"a\" }]",
        Part::Top,
        0,
        ProfileWhy::Shape,
    ),
    (
        "format = 1\nname = 1\nlayer = [{ id = \"a\" }]",
        Part::Top,
        0,
        ProfileWhy::Shape,
    ),
    (
        "format = 2\nlayer = [{ id = \"a\" }]",
        Part::Top,
        0,
        ProfileWhy::Format,
    ),
    (
        "format = -1\nlayer = [{ id = \"a\" }]",
        Part::Top,
        0,
        ProfileWhy::Format,
    ),
    (
        "format = 1\nmaxzoom = 15\nlayer = [{ id = \"a\" }]",
        Part::Top,
        0,
        ProfileWhy::Range,
    ),
    (
        "format = 1\nminzoom = -1\nlayer = [{ id = \"a\" }]",
        Part::Top,
        0,
        ProfileWhy::Range,
    ),
    (
        "format = 1\nminzoom = 9\nmaxzoom = 8\nlayer = [{ id = \"a\" }]",
        Part::Top,
        0,
        ProfileWhy::Range,
    ),
    // unknown before shape, shape before format, format before range, the top before a layer
    ("zoom = 1", Part::Top, 0, ProfileWhy::Unknown),
    ("format = 3", Part::Top, 0, ProfileWhy::Shape),
    (
        "format = 3\nmaxzoom = 15\nlayer = [{ id = \"a\" }]",
        Part::Top,
        0,
        ProfileWhy::Format,
    ),
    (
        "format = 1\nmaxzoom = 15\nlayer = [{ x = 1 }]",
        Part::Top,
        0,
        ProfileWhy::Range,
    ),
    // layers
    (
        "[[layer]]\nid = \"b\"\nname = \"b\"",
        Part::Layer,
        1,
        ProfileWhy::Unknown,
    ),
    ("[[layer]]\nbuffer = 1", Part::Layer, 1, ProfileWhy::Shape),
    ("[[layer]]\nid = 1", Part::Layer, 1, ProfileWhy::Shape),
    (
        "[[layer]]\nid = \"b\"\nbuffer = \"1\"",
        Part::Layer,
        1,
        ProfileWhy::Shape,
    ),
    (
        "[[layer]]\nid = \"b\"\nbuffer = 257",
        Part::Layer,
        1,
        ProfileWhy::Range,
    ),
    (
        "[[layer]]\nid = \"b\"\ntolerance = 65",
        Part::Layer,
        1,
        ProfileWhy::Range,
    ),
    ("[[layer]]\nid = \"\"", Part::Layer, 1, ProfileWhy::Layer),
    ("[[layer]]\nid = \"a\"", Part::Layer, 1, ProfileWhy::Layer),
    // unknown before shape, shape before range, range before layer, an earlier layer, a layer before a rule
    (
        "[[layer]]\nname = \"b\"",
        Part::Layer,
        1,
        ProfileWhy::Unknown,
    ),
    ("[[layer]]\nbuffer = -1", Part::Layer, 1, ProfileWhy::Shape),
    (
        "[[layer]]\nid = \"a\"\nbuffer = -1",
        Part::Layer,
        1,
        ProfileWhy::Range,
    ),
    (
        "[[layer]]\nid = \"a\"\n[[layer]]\nx = 1",
        Part::Layer,
        1,
        ProfileWhy::Layer,
    ),
    (
        "[[layer]]\nid = \"a\"\n[[rule]]\nx = 1",
        Part::Layer,
        1,
        ProfileWhy::Layer,
    ),
    // rules
    (
        "[[rule]]\nlayer = \"a\"\nkind = \"line\"\nid = 1",
        Part::Rule,
        0,
        ProfileWhy::Unknown,
    ),
    (
        "[[rule]]\nlayer = \"a\"\nkind = \"ring\"",
        Part::Rule,
        0,
        ProfileWhy::Shape,
    ),
    (
        "[[rule]]\nkind = \"line\"",
        Part::Rule,
        0,
        ProfileWhy::Shape,
    ),
    (
        "[[rule]]\nlayer = \"a\"\nkind = \"line\"\nwhen = [1]",
        Part::Rule,
        0,
        ProfileWhy::Shape,
    ),
    (
        "[[rule]]\nlayer = \"a\"\nkind = \"line\"\nattributes = [\"a\"]",
        Part::Rule,
        0,
        ProfileWhy::Shape,
    ),
    (
        "[[rule]]\nlayer = \"a\"\nkind = \"line\"\norder = 32768",
        Part::Rule,
        0,
        ProfileWhy::Range,
    ),
    (
        "[[rule]]\nlayer = \"a\"\nkind = \"line\"\nmaxzoom = 15",
        Part::Rule,
        0,
        ProfileWhy::Range,
    ),
    (
        "[[rule]]\nlayer = \"a\"\nkind = \"line\"\nminzoom = 5\nmaxzoom = 4",
        Part::Rule,
        0,
        ProfileWhy::Range,
    ),
    (
        "[[rule]]\nlayer = \"b\"\nkind = \"line\"",
        Part::Rule,
        0,
        ProfileWhy::Layer,
    ),
    (
        "[[rule]]\nlayer = \"a\"\nkind = \"line\"\nwhen = [\"a\", \"a=\"]",
        Part::Rule,
        0,
        ProfileWhy::Condition,
    ),
    (
        "[[rule]]\nlayer = \"a\"\nkind = \"line\"\nattributes = [{ key = \"k\", x = 1 }]",
        Part::Rule,
        0,
        ProfileWhy::Attribute,
    ),
    (
        "[[rule]]\nlayer = \"a\"\nkind = \"line\"\nattributes = [{ key = \"k\" }, { name = \"k\", value = 1 }]",
        Part::Rule,
        0,
        ProfileWhy::Attribute,
    ),
    (
        "[[rule]]\nlayer = \"a\"\nkind = \"line\"\nattributes = [{ name = \"k\", value = 0.5 }]",
        Part::Rule,
        0,
        ProfileWhy::Attribute,
    ),
    // each reason before the next, whichever stands first, and an earlier rule
    (
        "[[rule]]\nkind = \"ring\"\nid = 1",
        Part::Rule,
        0,
        ProfileWhy::Unknown,
    ),
    (
        "[[rule]]\norder = 32768\nlayer = \"a\"\nkind = \"ring\"",
        Part::Rule,
        0,
        ProfileWhy::Shape,
    ),
    (
        "[[rule]]\nlayer = \"b\"\nkind = \"line\"\norder = -32769",
        Part::Rule,
        0,
        ProfileWhy::Range,
    ),
    (
        "[[rule]]\nwhen = [\"\"]\nlayer = \"b\"\nkind = \"line\"",
        Part::Rule,
        0,
        ProfileWhy::Layer,
    ),
    (
        "[[rule]]\nattributes = [{}]\nlayer = \"a\"\nkind = \"line\"\nwhen = [\"!\"]",
        Part::Rule,
        0,
        ProfileWhy::Condition,
    ),
    (
        "[[rule]]\nlayer = \"a\"\nkind = \"line\"\nattributes = [{}]\n[[rule]]\nid = 1",
        Part::Rule,
        0,
        ProfileWhy::Attribute,
    ),
    (
        "[[rule]]\nlayer = \"a\"\nkind = \"line\"\n[[rule]]\nlayer = \"a\"\nkind = \"line\"\nwhen = [\"=\"]",
        Part::Rule,
        1,
        ProfileWhy::Condition,
    ),
];

/// Why a text is refused, or `None` where it is read.
pub fn fault_of(alloc: Global, text: &[u8]) -> Option<ProfileErr> {
    match read_profile(alloc, text) {
        Ok(_) => None,
        Err(e) => Some(e),
    }
}

/// A refusal.
pub fn bad(part: Part, no: u32, why: ProfileWhy) -> Option<ProfileErr> {
    Some(ProfileErr::Bad {
        spot: Spot { part, no },
        why,
    })
}

/// Whether the text of these pieces is refused so, or read.
pub fn is_answered(
    alloc: Global,
    pieces: &[&str],
    want: Option<ProfileErr>,
) -> Result<bool, AllocError> {
    let text = pieces.join(alloc, "")?;
    Ok(fault_of(alloc, text.as_bytes()) == want)
}

// What stands before the text of a row.
fn before(part: Part) -> &'static str {
    match part {
        Part::Top => "",
        _ => NODES,
    }
}

// The number of the first row that is answered otherwise.
fn first_wrong(alloc: Global, rows: &[Row]) -> Result<Option<usize>, AllocError> {
    for i in 0..rows.len() {
        let (row, part, no, why) = rows[i];
        if !is_answered(alloc, &[before(part), row], bad(part, no, why))? {
            return Ok(Some(i));
        }
    }
    Ok(None)
}

#[test]
fn first_faults_are_named(rt: HostRuntime) -> Result<(), Fail> {
    let wrong = first_wrong(rt.alloc(), &REFUSED)?;
    assert!(rt; wrong.is_none(), "{wrong:?}");
    Ok(())
}
