ghost use Rattle.std.specs.Prelude.{◌≡◌, IfOk, OnOk};
ghost use Rattle.pmtiles_dirs.specs.Meta.{merged, with_field, joined_kind, both_kinds};
ghost use Rattle.pmtiles_dirs.specs.SeenFields.{seen_fields};

use std::alloc::{AllocError, Global};
use std::collections::BTreeMap;
use tb_types::{FieldKind, Text};

/// The fields with each name once. A name whose values are of several kinds is a text.
pub(crate) fn merged<'a>(
    alloc: Global,
    fields: &'a [(Text, FieldKind)],
) -> Result<BTreeMap<&'a str, FieldKind>, AllocError>
    ensures { IfOk result (λ found. seen_fields found.entries ≡ merged fields.now) }
{
    let mut found = BTreeMap::new(alloc);
    for field in fields {
        add_field(&mut found, field.0.as_str(), field.1)?;
    }
    Ok(found)
}

fn add_field<'a>(
    found: &mut BTreeMap<&'a str, FieldKind>,
    name: &'a str,
    kind: FieldKind,
) -> Result<(), AllocError>
    ensures { OnOk result (seen_fields found.new.entries ≡ with_field (seen_fields found.old.entries) (name.now, kind)) }
{
    let kind = joined_kind(found, name, kind);
    found.insert(name, kind)?;
    Ok(())
}

// The kind that a name has so far, with one more kind.
fn joined_kind(found: &BTreeMap<&str, FieldKind>, name: &str, kind: FieldKind) -> FieldKind
    ensures { result ≡ joined_kind name.now kind (seen_fields found.now.entries) }
{
    match found.get(name) {
        Some(before) => both_kinds(*before, kind),
        None => kind,
    }
}

fn both_kinds(one: FieldKind, other: FieldKind) -> FieldKind
    ensures { result ≡ both_kinds one other }
{
    match (one, other) {
        (FieldKind::Number, FieldKind::Number) => FieldKind::Number,
        (FieldKind::Boolean, FieldKind::Boolean) => FieldKind::Boolean,
        _ => FieldKind::Text,
    }
}
