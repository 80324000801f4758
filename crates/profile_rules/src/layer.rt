ghost use Rattle.std.specs.Prelude.{◌≡◌, ◌≤◌, ◌<◌, [], map, length, vec_len, position, IfSome, IfOk};
ghost use Rattle.std.specs.List.{list_any};
ghost use Rattle.toml.specs.View.{table_view};
ghost use Rattle.profile_rules.specs.Turns.{in_turn};
ghost use Rattle.profile_rules.specs.Faults.{Gives, GivesPart};
ghost use Rattle.profile_rules.specs.Layers.{layer_of, layer_shape, layer_within, has_id, is_new, layer_named};
ghost use Rattle.profile_rules.specs.Profile.{next_layer};
ghost use Rattle.profile_rules.specs.Seen.{seen_layer_shape};

use crate::fault::{Part, PartErr, ProfileErr, ProfileWhy, Spot, placed};
use crate::key::{Key, LAYER_KEYS, has_only};
use crate::kinds::{required, text_at, whole_at};
use crate::limits::{USUAL_BUFFER, USUAL_TOLERANCE, WIDEST_BUFFER, WIDEST_TOLERANCE};
use crate::parts::LayerInfo;
use crate::ranges::{is_short, within_or};
use std::alloc::Global;
use tb_types::Text;
use toml::Table;

/// A layer whose values are of the right kinds.
#[derive(Clone, Copy)]
pub struct LayerShape<'a> {
    id: &'a str,
    buffer: Option<i64>,
    tolerance: Option<i64>,
}

/// The layers that these tables are, in turn.
pub fn layers_of(alloc: Global, tables: &[&Table]) -> Result<Vec<LayerInfo>, ProfileErr>
    requires { length tables.now ≤ 64 }
    ensures value { Gives (λ v. v.items) result (in_turn next_layer [] (map (λ t. table_view t.now) tables.now)) }
    ensures few { IfOk result (λ v. vec_len v ≤ 64) }
{
    let mut layers = Vec::new(alloc);
    for table in tables {
        let spot = Spot {
            part: Part::Layer,
            no: layers.len() as u32,
        };
        let layer = placed(spot, layer_of(alloc, &layers, *table))?;
        layers.push(layer)?;
    }
    Ok(layers)
}

// A layer behind those before it. Its reasons are unknown keys, its shape, ranges and its id, in this order.
fn layer_of(alloc: Global, before: &[LayerInfo], table: &Table) -> Result<LayerInfo, PartErr>
    ensures { GivesPart (λ l. l) result (layer_of before.now (table_view table.now)) }
{
    if !has_only(&LAYER_KEYS, table) {
        return Err(PartErr::Bad(ProfileWhy::Unknown));
    }
    let shape = layer_shape(table)?;
    let layer = layer_within(alloc, shape)?;
    if !is_new(before, layer.id.as_str()) {
        return Err(PartErr::Bad(ProfileWhy::Layer));
    }
    Ok(layer)
}

fn layer_shape<'a>(table: &'a Table) -> Result<LayerShape<'a>, PartErr>
    ensures { GivesPart seen_layer_shape result (layer_shape (table_view table.now)) }
{
    let id = text_at(table, Key::Id)?;
    let id = required(id)?;
    let buffer = whole_at(table, Key::Buffer)?;
    let tolerance = whole_at(table, Key::Tolerance)?;
    Ok(LayerShape {
        id,
        buffer,
        tolerance,
    })
}

fn layer_within(alloc: Global, shape: LayerShape<'_>) -> Result<LayerInfo, PartErr>
    ensures { GivesPart (λ l. l) result (layer_within (seen_layer_shape shape.entry)) }
{
    if !is_short(shape.id) {
        return Err(PartErr::Bad(ProfileWhy::Range));
    }
    let buffer = within_or(USUAL_BUFFER, 0, WIDEST_BUFFER, shape.buffer)?;
    let tolerance = within_or(USUAL_TOLERANCE, 0, WIDEST_TOLERANCE, shape.tolerance)?;
    let id = Text::copy_of(alloc, shape.id)?;
    Ok(LayerInfo {
        id,
        buffer,
        tolerance,
    })
}

// Whether an id isn't empty and is none of the layers before it.
fn is_new(before: &[LayerInfo], id: &str) -> bool
    ensures { result ≡ is_new before.now id.now }
{
    !id.is_empty() && !is_used(before, id)
}

fn is_used(layers: &[LayerInfo], id: &str) -> bool
    ensures { result ≡ list_any (has_id id.now) layers.now }
{
    layers.iter().any(|layer| has_id(layer, id))
}

fn has_id(layer: &LayerInfo, id: &str) -> bool
    ensures { result ≡ has_id id.now layer.now }
{
    layer.id.as_str() == id
}

/// The number of the layer of this id. `Layer` where none has it.
pub fn layer_named(layers: &[LayerInfo], id: &str) -> Result<usize, PartErr>
    ensures value { GivesPart (λ n. n) result (layer_named layers.now id.now) }
    ensures bound { IfOk result (λ n. n < length layers.now) }
{
    match position_of(layers, id) {
        Some(number) => Ok(number),
        None => Err(PartErr::Bad(ProfileWhy::Layer)),
    }
}

fn position_of(layers: &[LayerInfo], id: &str) -> Option<usize>
    ensures value { result ≡ position (has_id id.now) layers.now }
    ensures bound { IfSome result (λ n. n < length layers.now) }
{
    layers.iter().position(|layer| has_id(layer, id))
}
