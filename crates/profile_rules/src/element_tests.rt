//! What the rules of profiles make of elements.

use crate::{Form, Profile, Spec, read_profile, specs};
use std::alloc::Global;
use std::test::Fail;
use tb_types::{Attr, AttrValue, Kind, Memory, Seq, Tags, Text};

/// Roads and land at zoom 0, with the defaults of all that isn't named.
pub const ROADS: &str =
    "format = 1\nmaxzoom = 0\n[[layer]]\nid = \"roads\"\n[[layer]]\nid = \"land\"\n[[rule]]\nlayer = \"roads\"\nkind = \"line\"\nwhen = [\"highway\"]\n[[rule]]\nlayer = \"land\"\nkind = \"area\"\nwhen = [\"landuse\"]\nattributes = [{ key = \"landuse\" }]\n";

/// Points, lines and areas at the zooms from 10 to 12.
pub const TRIAL: &str =
    "format = 1\nname = \"trial\"\nminzoom = 10\nmaxzoom = 12\n[[layer]]\nid = \"points\"\n[[layer]]\nid = \"lines\"\n[[layer]]\nid = \"areas\"\n[[rule]]\nlayer = \"points\"\nkind = \"point\"\nwhen = [\"amenity\"]\nattributes = [{ key = \"amenity\" }]\n[[rule]]\nlayer = \"lines\"\nkind = \"line\"\nwhen = [\"highway\"]\nattributes = [{ key = \"highway\" }, { key = \"name\" }]\n[[rule]]\nlayer = \"areas\"\nkind = \"area\"\nwhen = [\"building\"]\nattributes = [{ name = \"class\", value = \"building\" }]\n[[rule]]\nlayer = \"areas\"\nkind = \"area\"\nwhen = [\"landuse\"]\nattributes = [{ key = \"landuse\" }]\n";

/// Each form of a condition and of an attribute.
pub const FORMS: &str =
    "format = 1\n[[layer]]\nid = \"a\"\nbuffer = 256\ntolerance = 0\n[[rule]]\nlayer = \"a\"\nkind = \"point\"\nwhen = [\"!k\"]\norder = -5\n[[rule]]\nlayer = \"a\"\nkind = \"point\"\nwhen = [\"k=v|w=x\"]\nminzoom = 3\n[[rule]]\nlayer = \"a\"\nkind = \"point\"\nwhen = [\"k!=v|w\"]\nmaxzoom = 4\n[[rule]]\nlayer = \"a\"\nkind = \"line\"\nattributes = [{ key = \"k\", name = \"z\" }, { key = \"k\", name = \"n\", form = \"int\" }, { key = \"k\", form = \"bool\" }, { name = \"c\", value = -7 }, { name = \"\\u00e9\", value = false }, { name = \"e\", value = \"\" }, { key = \"\", name = \"x\" }]\n[[rule]]\nlayer = \"a\"\nkind = \"line\"\nwhen = [\"n\"]\nattributes = [{ key = \"n\", form = \"bool\" }, { name = \"c\", value = 1 }]\n";

/// The profile of a text that is one.
pub fn read(alloc: Global, text: &str) -> Result<Profile, Memory> {
    match read_profile(alloc, text.as_bytes()) {
        Ok(profile) => Ok(profile),
        Err(_) => Err(Memory),
    }
}

/// A value that an attribute is to have.
#[derive(Drop)]
pub enum Value<'a> {
    Text(&'a str),
    Whole(i128),
    Truth(bool),
}

/// A spec as it is to be: its form, rule, layer, order, zooms, and attributes.
pub type Want<'a> = (Form, u16, u8, i16, (u8, u8), &'a [(&'a str, Value<'a>)]);

/// An element by its kind and tags, and what a profile makes of it.
type Row = (
    Kind,
    &'static [(&'static str, &'static str)],
    &'static [Want<'static>],
);

const LAND: Want<'static> = (
    Form::Area,
    1,
    1,
    0,
    (0, 0),
    &[("landuse", Value::Text("y"))],
);

const ROADS_ROWS: [Row; 6] = [
    (
        Kind::Way,
        &[("highway", "x"), ("landuse", "y")],
        &[(Form::Line, 0, 0, 0, (0, 0), &[]), LAND],
    ),
    (Kind::Node, &[("highway", "x")], &[]),
    (Kind::Relation, &[("landuse", "y")], &[]),
    (Kind::Relation, &[("type", "route"), ("landuse", "y")], &[]),
    (
        Kind::Relation,
        &[("type", "boundary"), ("landuse", "y")],
        &[LAND],
    ),
    (
        Kind::Relation,
        &[("landuse", "y"), ("type", "multipolygon")],
        &[LAND],
    ),
];

const TRIAL_ROWS: [Row; 4] = [
    (
        Kind::Node,
        &[("amenity", "cafe")],
        &[(
            Form::Point,
            0,
            0,
            0,
            (10, 12),
            &[("amenity", Value::Text("cafe"))],
        )],
    ),
    (
        Kind::Way,
        &[("highway", "residential"), ("name", "Way 1")],
        &[(
            Form::Line,
            1,
            1,
            0,
            (10, 12),
            &[
                ("highway", Value::Text("residential")),
                ("name", Value::Text("Way 1")),
            ],
        )],
    ),
    (
        Kind::Way,
        &[("building", "yes")],
        &[(
            Form::Area,
            2,
            2,
            0,
            (10, 12),
            &[("class", Value::Text("building"))],
        )],
    ),
    (Kind::Way, &[("name", "x")], &[]),
];

const FORMS_ROWS: [Row; 12] = [
    (
        Kind::Node,
        &[],
        &[
            (Form::Point, 0, 0, -5, (0, 14), &[]),
            (Form::Point, 2, 0, 0, (0, 4), &[]),
        ],
    ),
    (
        Kind::Node,
        &[("k", "v")],
        &[
            (Form::Point, 1, 0, 0, (3, 14), &[]),
            (Form::Point, 2, 0, 0, (0, 4), &[]),
        ],
    ),
    (
        Kind::Node,
        &[("k", "w=x")],
        &[
            (Form::Point, 1, 0, 0, (3, 14), &[]),
            (Form::Point, 2, 0, 0, (0, 4), &[]),
        ],
    ),
    (Kind::Node, &[("k", "v|w")], &[]),
    (
        Kind::Node,
        &[("k", "w"), ("k", "v")],
        &[(Form::Point, 2, 0, 0, (0, 4), &[])],
    ),
    (
        Kind::Way,
        &[],
        &[(
            Form::Line,
            3,
            0,
            0,
            (0, 14),
            &[
                ("c", Value::Whole(-7)),
                ("é", Value::Truth(false)),
                ("e", Value::Text("")),
            ],
        )],
    ),
    (
        Kind::Way,
        &[("k", "-012"), ("", "y")],
        &[(
            Form::Line,
            3,
            0,
            0,
            (0, 14),
            &[
                ("z", Value::Text("-012")),
                ("n", Value::Whole(-12)),
                ("c", Value::Whole(-7)),
                ("é", Value::Truth(false)),
                ("e", Value::Text("")),
                ("x", Value::Text("y")),
            ],
        )],
    ),
    (
        Kind::Way,
        &[("k", "-0")],
        &[(
            Form::Line,
            3,
            0,
            0,
            (0, 14),
            &[
                ("z", Value::Text("-0")),
                ("n", Value::Whole(0)),
                ("c", Value::Whole(-7)),
                ("é", Value::Truth(false)),
                ("e", Value::Text("")),
            ],
        )],
    ),
    (
        Kind::Way,
        &[("k", "999999999999999999")],
        &[(
            Form::Line,
            3,
            0,
            0,
            (0, 14),
            &[
                ("z", Value::Text("999999999999999999")),
                ("n", Value::Whole(999_999_999_999_999_999)),
                ("c", Value::Whole(-7)),
                ("é", Value::Truth(false)),
                ("e", Value::Text("")),
            ],
        )],
    ),
    (
        Kind::Way,
        &[("k", "0000000000000000001")],
        &[(
            Form::Line,
            3,
            0,
            0,
            (0, 14),
            &[
                ("z", Value::Text("0000000000000000001")),
                ("c", Value::Whole(-7)),
                ("é", Value::Truth(false)),
                ("e", Value::Text("")),
            ],
        )],
    ),
    (
        Kind::Way,
        &[("k", "1")],
        &[(
            Form::Line,
            3,
            0,
            0,
            (0, 14),
            &[
                ("z", Value::Text("1")),
                ("n", Value::Whole(1)),
                ("k", Value::Truth(true)),
                ("c", Value::Whole(-7)),
                ("é", Value::Truth(false)),
                ("e", Value::Text("")),
            ],
        )],
    ),
    (
        Kind::Way,
        &[("n", "no")],
        &[
            (
                Form::Line,
                3,
                0,
                0,
                (0, 14),
                &[
                    ("c", Value::Whole(-7)),
                    ("é", Value::Truth(false)),
                    ("e", Value::Text("")),
                ],
            ),
            (
                Form::Line,
                4,
                0,
                0,
                (0, 14),
                &[("n", Value::Truth(false)), ("c", Value::Whole(1))],
            ),
        ],
    ),
];

fn is_value(got: &AttrValue, want: &Value<'_>) -> bool {
    match (got, want) {
        (AttrValue::Text(got), Value::Text(want)) => got.as_str() == *want,
        (AttrValue::Whole(got), Value::Whole(want)) => *got == *want,
        (AttrValue::Truth(got), Value::Truth(want)) => *got == *want,
        _ => false,
    }
}

fn are_attributes(got: &[Attr], want: &[(&str, Value<'_>)]) -> bool {
    let mut alike = got.len() == want.len();
    for (attr, (name, value)) in got.iter().zip(want.iter()) {
        alike = alike && attr.name.as_str() == *name && is_value(&attr.value, value);
    }
    alike
}

fn is_spec(got: &Spec, want: &Want<'_>) -> bool {
    let (form, rule, layer, order, zooms, attributes) = want;
    got.form == *form
        && (got.rule, got.layer, got.order) == (*rule, *layer, *order)
        && (got.min, got.max) == *zooms
        && are_attributes(got.attributes.as_slice(), *attributes)
}

fn are_specs(got: &[Spec], want: &[Want<'_>]) -> bool {
    let mut alike = got.len() == want.len();
    for (spec, want) in got.iter().zip(want.iter()) {
        alike = alike && is_spec(spec, want);
    }
    alike
}

fn tag(alloc: Global, key: &str, value: &str) -> Result<(Text, Text), Memory> {
    let key = Text::copy_of(alloc, key)?;
    let value = Text::copy_of(alloc, value)?;
    Ok((key, value))
}

fn tags(alloc: Global, pairs: &[(&str, &str)]) -> Result<Tags, Memory> {
    let mut tags = Seq::new(alloc);
    for (key, value) in pairs {
        tags.push(tag(alloc, *key, *value)?)?;
    }
    Ok(Tags { pairs: tags })
}

/// Whether a profile makes this of an element.
pub fn makes(
    alloc: Global,
    profile: &Profile,
    kind: Kind,
    pairs: &[(&str, &str)],
    want: &[Want<'_>],
) -> Result<bool, Memory> {
    let tags = tags(alloc, pairs)?;
    let specs = specs(alloc, profile, &tags, kind)?;
    Ok(are_specs(specs.as_slice(), want))
}

// The number of the first row of which the profile makes something else.
fn first_wrong(alloc: Global, text: &str, rows: &[Row]) -> Result<Option<usize>, Memory> {
    let profile = read(alloc, text)?;
    for (i, (kind, pairs, want)) in rows.iter().enumerate() {
        if !makes(alloc, &profile, *kind, *pairs, *want)? {
            return Ok(Some(i));
        }
    }
    Ok(None)
}

#[test]
fn elements_have_their_specs(rt: HostRuntime) -> Result<(), Fail> {
    let profiles: [(&str, &[Row]); 3] = [
        (ROADS, &ROADS_ROWS),
        (TRIAL, &TRIAL_ROWS),
        (FORMS, &FORMS_ROWS),
    ];
    for (text, rows) in profiles {
        let wrong = first_wrong(rt.alloc(), text, rows)?;
        assert!(rt; wrong.is_none(), "row {wrong:?} of {text}");
    }
    Ok(())
}

// Whether an element has one spec, whose first attribute is this text, and three constants.
fn has_text(specs: &[Spec], text: &str) -> bool {
    let [spec] = specs else {
        return false;
    };
    match spec.attributes.as_slice() {
        [attr, _, _, _] => is_value(&attr.value, &Value::Text(text)),
        _ => false,
    }
}

// Whether a value of 70,000 bytes is the text of an attribute, and no number or truth.
fn keeps_a_long_value(alloc: Global) -> Result<bool, Memory> {
    let profile = read(alloc, FORMS)?;
    let long = "7".repeat(alloc, 70_000)?;
    let tags = tags(alloc, &[("k", long.as_str())])?;
    let specs = specs(alloc, &profile, &tags, Kind::Way)?;
    Ok(has_text(specs.as_slice(), long.as_str()))
}

#[test]
fn a_long_value_stays(rt: HostRuntime) -> Result<(), Fail> {
    assert!(rt; keeps_a_long_value(rt.alloc())?);
    Ok(())
}
