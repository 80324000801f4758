//! What is told of profiles, of those in texts and of that of a key.

use crate::element_tests::{FORMS, ROADS, TRIAL, Value, makes, read};
use crate::{Form, LayerInfo, Profile, fields, layers, name, one_rule, zooms};
use std::alloc::Global;
use std::test::Fail;
use tb_types::{FieldKind, Kind, Memory, Text};

/// A layer as it is to be: its id, buffer, tolerance and fields.
type WantLayer = (&'static str, u32, u32, &'static [(&'static str, FieldKind)]);

/// What is told of a profile: its name, its zooms and its layers.
type Told = (&'static str, (u8, u8), &'static [WantLayer]);

const ROADS_TOLD: Told = (
    "map",
    (0, 0),
    &[
        ("roads", 64, 1, &[]),
        ("land", 64, 1, &[("landuse", FieldKind::Text)]),
    ],
);

const TRIAL_TOLD: Told = (
    "trial",
    (10, 12),
    &[
        ("points", 64, 1, &[("amenity", FieldKind::Text)]),
        (
            "lines",
            64,
            1,
            &[("highway", FieldKind::Text), ("name", FieldKind::Text)],
        ),
        (
            "areas",
            64,
            1,
            &[("class", FieldKind::Text), ("landuse", FieldKind::Text)],
        ),
    ],
);

const FORMS_TOLD: Told = (
    "map",
    (0, 14),
    &[(
        "a",
        256,
        0,
        &[
            ("c", FieldKind::Number),
            ("e", FieldKind::Text),
            ("k", FieldKind::Boolean),
            ("n", FieldKind::Text),
            ("x", FieldKind::Text),
            ("z", FieldKind::Text),
            ("é", FieldKind::Boolean),
        ],
    )],
);

/// What is told of the profile of the key k.
const KEY_TOLD: Told = ("map", (0, 0), &[("nodes", 0, 0, &[("k", FieldKind::Text)])]);

fn are_fields(got: &[(Text, FieldKind)], want: &[(&str, FieldKind)]) -> bool {
    let mut alike = got.len() == want.len();
    for (field, (name, kind)) in got.iter().zip(want.iter()) {
        alike = alike && field.0.as_str() == *name && field.1 == *kind;
    }
    alike
}

fn is_layer(got: &LayerInfo, want: &WantLayer) -> bool {
    got.id.as_str() == want.0 && got.buffer == want.1 && got.tolerance == want.2
}

fn are_layers(alloc: Global, profile: &Profile, want: &[WantLayer]) -> Result<bool, Memory> {
    let layers = layers(profile);
    let mut alike = layers.len() == want.len();
    for i in 0..layers.len() {
        let fields = fields(alloc, profile, i as u8)?;
        let Some(layer) = want.get(i) else {
            return Ok(false);
        };
        alike = alike && is_layer(&layers[i], layer) && are_fields(fields.as_slice(), layer.3);
    }
    Ok(alike)
}

fn is_told(alloc: Global, profile: &Profile, want: &Told) -> Result<bool, Memory> {
    let (called, range, layers) = want;
    let alike = name(profile) == *called && zooms(profile) == *range;
    Ok(alike && are_layers(alloc, profile, *layers)?)
}

// Whether the profile of a text is told so.
fn tells(alloc: Global, text: &str, want: &Told) -> Result<bool, Memory> {
    let profile = read(alloc, text)?;
    is_told(alloc, &profile, want)
}

#[test]
fn profiles_are_told(rt: HostRuntime) -> Result<(), Fail> {
    for (text, want) in [
        (ROADS, &ROADS_TOLD),
        (TRIAL, &TRIAL_TOLD),
        (FORMS, &FORMS_TOLD),
    ] {
        assert!(rt; tells(rt.alloc(), text, want)?, "{text}");
    }
    Ok(())
}

// Whether the profile of the key k is told so, and makes a point of a node with it.
fn is_told_of_key(alloc: Global) -> Result<bool, Memory> {
    let profile = one_rule(alloc, "k")?;
    let attributes = [("k", Value::Text("v"))];
    let want = (Form::Point, 0, 0, 0, (0, 0), attributes.as_slice());
    let made = makes(alloc, &profile, Kind::Node, &[("k", "v")], &[want])?;
    Ok(made && is_told(alloc, &profile, &KEY_TOLD)?)
}

#[test]
fn a_key_has_a_profile(rt: HostRuntime) -> Result<(), Fail> {
    assert!(rt; is_told_of_key(rt.alloc())?);
    Ok(())
}
