ghost use Rattle.std.specs.Prelude.{◌≡◌, IfOk, map, string_bytes};
ghost use Rattle.serde_json.specs.Data.{string, array, object, no_members};
ghost use Rattle.serde_json.specs.View.{view, items_view};
ghost use Rattle.pmtiles_dirs.specs.Meta.{kind_text, merged, with_fields, layer_data, layer_items, metadata_of, metadata_text};
ghost use Rattle.pmtiles_dirs.specs.SeenFields.{seen_fields};

use crate::field::merged;
use serde_json::{Map, Value, json, push, put};
use std::alloc::{AllocError, Global};
use std::collections::BTreeMap;
use tb_types::{Bounds, FieldKind, Memory, Seq, Text};

/// What an archive says of its map: the name and the layers of its metadata, its least and greatest zoom, and the box of
/// its places, in nanodegrees, which is the world where there is none.
#[derive(Debug, Drop)]
pub struct Meta {
    pub name: Text,
    pub layers: Seq<MetaLayer>,
    pub min: u8,
    pub max: u8,
    pub bounds: Option<Bounds>,
}

/// What a map's metadata says of a layer: its id, and its fields with the kinds of their values.
#[derive(Debug, Drop)]
pub struct MetaLayer {
    pub id: Text,
    pub fields: Seq<(Text, FieldKind)>,
}

/// The metadata of a map: a JSON object, without blanks (PMTiles 3, section 5).
#[tactic(auto, unfolding(crate::specs::Meta::metadata_of, crate::specs::Meta::metadata_text))]
pub fn metadata_text(alloc: Global, name: &str, layers: &[MetaLayer]) -> Result<String, Memory>
    ensures { IfOk result (λ text. string_bytes text ≡ metadata_text name.now layers.now) }
{
    let value = metadata_of(alloc, name, layers)?;
    match value.to_string(alloc) {
        Ok(text) => Ok(text),
        Err(_) => Err(Memory),
    }
}

#[tactic(auto, unfolding(crate::specs::Meta::metadata_of))]
fn metadata_of(alloc: Global, name: &str, layers: &[MetaLayer]) -> Result<Value, AllocError>
    ensures { IfOk result (λ v. view v ≡ metadata_of name.now layers.now) }
{
    let layers = layer_values(alloc, layers)?;
    json!(in alloc; {"name": name, "vector_layers": layers})
}

fn layer_values(alloc: Global, layers: &[MetaLayer]) -> Result<Value, AllocError>
    ensures { IfOk result (λ v. view v ≡ array (layer_items layers.now)) }
{
    let mut values = Vec::new(alloc);
    for layer in layers {
        push(&mut values, layer_value(alloc, layer)?)?;
    }
    Ok(Value::Array(values))
}

#[tactic(auto, unfolding(crate::specs::Meta::layer_data))]
fn layer_value(alloc: Global, layer: &MetaLayer) -> Result<Value, AllocError>
    ensures { IfOk result (λ v. view v ≡ layer_data layer.now) }
{
    let fields = fields_value(alloc, layer.fields.as_slice())?;
    json!(in alloc; {"fields": fields, "id": layer.id.as_str()})
}

// The kind of each name of the fields.
fn fields_value(alloc: Global, fields: &[(Text, FieldKind)]) -> Result<Value, AllocError>
    ensures { IfOk result (λ v. view v ≡ object (with_fields no_members (merged fields.now))) }
{
    let found = merged(alloc, fields)?;
    kinds_value(alloc, &found)
}

fn kinds_value(alloc: Global, found: &BTreeMap<&str, FieldKind>) -> Result<Value, AllocError>
    ensures { IfOk result (λ v. view v ≡ object (with_fields no_members (seen_fields found.now.entries))) }
{
    let mut members = Map::new(alloc);
    for (name, kind) in found.iter() {
        let value = kind_value(alloc, *kind)?;
        put(&mut members, alloc, *name, value)?;
    }
    Ok(Value::Object(members))
}

fn kind_value(alloc: Global, kind: FieldKind) -> Result<Value, AllocError>
    ensures { IfOk result (λ v. view v ≡ string (kind_text kind)) }
{
    Value::try_from_str(alloc, kind_text(kind))
}

#[tactic(auto, unfolding(crate::specs::Meta::kind_text))]
fn kind_text(kind: FieldKind) -> &'static str
    ensures { result.now ≡ kind_text kind }
{
    match kind {
        FieldKind::Text => "String",
        FieldKind::Number => "Number",
        FieldKind::Boolean => "Boolean",
    }
}
