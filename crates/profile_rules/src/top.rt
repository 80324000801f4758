ghost use Rattle.std.specs.Prelude.{◌≡◌, ◌≤◌, vec_len, map, IfOk, unwrap_or, option_copied};
ghost use Rattle.toml.specs.View.{table_view};
ghost use Rattle.profile_rules.specs.Faults.{GivesPart};
ghost use Rattle.profile_rules.specs.Top.{top_of, top_shape, top_within, some_of, are_few, usual_name};
ghost use Rattle.profile_rules.specs.Seen.{seen_top, seen_top_shape};

use crate::fault::{PartErr, ProfileWhy};
use crate::format::{Format, format_of};
use crate::key::{Key, TOP_KEYS, has_only};
use crate::kinds::{required, tables_at, text_at, whole_at};
use crate::limits::{MOST_LAYERS, MOST_RULES};
use crate::ranges::{is_short, zooms_within};
use std::alloc::Global;
use toml::Table;

/// What the top table says.
#[derive(Drop)]
pub struct Top<'a> {
    pub name: &'a str,
    pub zooms: (u8, u8),
    pub layers: Vec<&'a Table>,
    pub rules: Vec<&'a Table>,
}

/// A top table whose values are of the right kinds.
#[derive(Drop)]
pub struct TopShape<'a> {
    format: i64,
    name: Option<&'a str>,
    first: Option<i64>,
    last: Option<i64>,
    layers: Vec<&'a Table>,
    rules: Vec<&'a Table>,
}

/// What a top table says. Its reasons are unknown keys, its shape, its format and ranges, in this order.
pub fn top_of<'a>(alloc: Global, table: &'a Table) -> Result<Top<'a>, PartErr>
    ensures value { GivesPart seen_top result (top_of (table_view table.now)) }
    ensures few { IfOk result (λ top. (vec_len top.layers ≤ 64) × (vec_len top.rules ≤ 1024)) }
{
    if !has_only(&TOP_KEYS, table) {
        return Err(PartErr::Bad(ProfileWhy::Unknown));
    }
    let shape = top_shape(alloc, table)?;
    let format = format_of(shape.format)?;
    top_within(format, shape)
}

fn top_shape<'a>(alloc: Global, table: &'a Table) -> Result<TopShape<'a>, PartErr>
    ensures { GivesPart seen_top_shape result (top_shape (table_view table.now)) }
{
    let format = whole_at(table, Key::Format)?;
    let format = required(format)?;
    let name = text_at(table, Key::Name)?;
    let first = whole_at(table, Key::Minzoom)?;
    let last = whole_at(table, Key::Maxzoom)?;
    let layers = tables_at(alloc, table, Key::Layer)?;
    let layers = some_of(layers)?;
    let rules = tables_at(alloc, table, Key::Rule)?;
    Ok(TopShape {
        format,
        name,
        first,
        last,
        layers,
        rules,
    })
}

// A list of layers isn't empty.
fn some_of(layers: Vec<&Table>) -> Result<Vec<&Table>, PartErr>
    ensures { GivesPart (λ v. map (λ t. table_view t.now) v.items) result (some_of (map (λ t. table_view t.now) layers.entry.items)) }
{
    if layers.is_empty() {
        return Err(PartErr::Bad(ProfileWhy::Shape));
    }
    Ok(layers)
}

fn top_within(format: Format, shape: TopShape<'_>) -> Result<Top<'_>, PartErr>
    ensures value { GivesPart seen_top result (top_within format (seen_top_shape shape.entry)) }
    ensures few { IfOk result (λ top. (vec_len top.layers ≤ 64) × (vec_len top.rules ≤ 1024)) }
{
    let name = name_or_usual(shape.name);
    if !(is_short(name) && are_few(&shape.layers, &shape.rules)) {
        return Err(PartErr::Bad(ProfileWhy::Range));
    }
    let zooms = zooms_within(0, format.last_zoom(), shape.first, shape.last)?;
    Ok(Top {
        name,
        zooms,
        layers: shape.layers,
        rules: shape.rules,
    })
}

#[tactic(auto, unfolding(crate::specs::Top::usual_name))]
fn name_or_usual(name: Option<&str>) -> &str
    ensures { result.now ≡ unwrap_or (option_copied name.entry) usual_name }
{
    match name {
        Some(name) => name,
        None => "map",
    }
}

fn are_few(layers: &[&Table], rules: &[&Table]) -> bool
    ensures { result ≡ are_few (map (λ t. table_view t.now) layers.now) (map (λ t. table_view t.now) rules.now) }
{
    layers.len() <= MOST_LAYERS && rules.len() <= MOST_RULES
}
