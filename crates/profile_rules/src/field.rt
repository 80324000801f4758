ghost use Rattle.std.specs.Prelude.{◌≡◌, ◌<◌, length, IfOk, OnOk};
ghost use Rattle.profile_rules.specs.Fields.{layers_of, fields_of, IsAscending, both_kinds, kind_of, own_attributes, with_field, with_fields, joined_kind};
ghost use Rattle.profile_rules.specs.SeenFields.{seen_fields};

use crate::attribute::{Attribute, Constant, Origin, ValueForm};
use crate::parts::Rule;
use crate::profile::Profile;
use std::alloc::Global;
use std::collections::BTreeMap;
use tb_types::{FieldKind, Memory, Seq, Text};

/// The fields of a layer: each name of an attribute of its rules once, in the order of their bytes, with the kind of its
/// values. A name whose values are of several kinds is a text.
pub fn fields(alloc: Global, profile: &Profile, layer: u8) -> Result<Seq<(Text, FieldKind)>, Memory>
    requires { layer < length (layers_of profile.now) }
    ensures value { IfOk result (λ fields. fields ≡ fields_of profile.now layer) }
    ensures ascending { IfOk result IsAscending }
{
    let mut found = BTreeMap::new(alloc);
    let rules = profile.parts().rules.as_slice();
    for rule in rules {
        add_own_fields(&mut found, layer, rule)?;
    }
    listed(alloc, &found)
}

// Adds the fields of a rule, where it is one of this layer.
fn add_own_fields<'a>(
    found: &mut BTreeMap<&'a str, FieldKind>,
    layer: u8,
    rule: &'a Rule,
) -> Result<(), Memory>
    ensures { OnOk result (seen_fields found.new.entries ≡ with_fields (seen_fields found.old.entries) (own_attributes layer rule.now)) }
{
    if rule.layer == layer {
        add_fields(found, rule.attributes.as_slice())?;
    }
    Ok(())
}

// Adds the fields of these attributes.
fn add_fields<'a>(
    found: &mut BTreeMap<&'a str, FieldKind>,
    attributes: &'a [Attribute],
) -> Result<(), Memory>
    ensures { OnOk result (seen_fields found.new.entries ≡ with_fields (seen_fields found.old.entries) attributes.now) }
{
    for attribute in attributes {
        add_field(found, attribute.name.as_str(), kind_of(&attribute.origin))?;
    }
    Ok(())
}

// Adds a field. A name of several kinds is a text.
fn add_field<'a>(
    found: &mut BTreeMap<&'a str, FieldKind>,
    name: &'a str,
    kind: FieldKind,
) -> Result<(), Memory>
    ensures { OnOk result (seen_fields found.new.entries ≡ with_field name.now kind (seen_fields found.old.entries)) }
{
    let kind = joined_kind(found, name, kind);
    found.insert(name, kind)?;
    Ok(())
}

// The kind that a name has so far, with one more kind.
fn joined_kind(found: &BTreeMap<&str, FieldKind>, name: &str, kind: FieldKind) -> FieldKind
    ensures { result ≡ joined_kind name.now kind (seen_fields found.now.entries) }
{
    match found.get(name) {
        Some(before) => both_kinds(*before, kind),
        None => kind,
    }
}

fn both_kinds(one: FieldKind, other: FieldKind) -> FieldKind
    ensures { result ≡ both_kinds one other }
{
    match (one, other) {
        (FieldKind::Number, FieldKind::Number) => FieldKind::Number,
        (FieldKind::Boolean, FieldKind::Boolean) => FieldKind::Boolean,
        _ => FieldKind::Text,
    }
}

// The kind of the values that an attribute has.
fn kind_of(origin: &Origin) -> FieldKind
    ensures { result ≡ kind_of origin.now }
{
    match origin {
        Origin::Tag(_, ValueForm::Text) => FieldKind::Text,
        Origin::Tag(_, ValueForm::Whole) => FieldKind::Number,
        Origin::Tag(_, ValueForm::Truth) => FieldKind::Boolean,
        Origin::Constant(Constant::Text(_)) => FieldKind::Text,
        Origin::Constant(Constant::Whole(_)) => FieldKind::Number,
        Origin::Constant(Constant::Truth(_)) => FieldKind::Boolean,
    }
}

// The fields as a list of their own.
fn listed(
    alloc: Global,
    found: &BTreeMap<&str, FieldKind>,
) -> Result<Seq<(Text, FieldKind)>, Memory>
    ensures value { IfOk result (λ fields. fields ≡ seen_fields found.now.entries) }
    ensures ascending { IfOk result IsAscending }
{
    let mut fields = Seq::new(alloc);
    for (name, kind) in found.iter() {
        fields.push((Text::copy_of(alloc, *name)?, *kind))?;
    }
    Ok(fields)
}
