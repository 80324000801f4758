ghost use Rattle.std.specs.Prelude.{◌≡◌, ◌≤◌, [], map, length};
ghost use Rattle.std.specs.List.{list_all};
ghost use Rattle.toml.specs.View.{table_view};
ghost use Rattle.profile_rules.specs.Ranges.{is_short};
ghost use Rattle.profile_rules.specs.Attributes.{has_short_texts};
ghost use Rattle.profile_rules.specs.Turns.{in_turn};
ghost use Rattle.profile_rules.specs.Faults.{Gives, GivesPart};
ghost use Rattle.profile_rules.specs.Rules.{rule_of, rule_shape, rule_within, form_of, are_texts_short, are_lists_short, point_word, line_word, area_word};
ghost use Rattle.profile_rules.specs.Profile.{next_rule};
ghost use Rattle.profile_rules.specs.Seen.{seen_rule_shape};

use crate::attribute::{attributes_of, has_short_texts};
use crate::condition::conditions_of;
use crate::fault::{Part, PartErr, ProfileErr, ProfileWhy, Spot, placed};
use crate::key::{Key, RULE_KEYS, has_only};
use crate::kinds::{required, tables_at, text_at, texts_at, whole_at};
use crate::layer::layer_named;
use crate::limits::{MOST_ATTRIBUTES, MOST_CONDITIONS};
use crate::parts::{Form, LayerInfo, Rule};
use crate::ranges::{is_short, order_or_0, zooms_within};
use std::alloc::Global;
use tb_types::Seq;
use toml::Table;

/// A rule whose values are of the right kinds.
#[derive(Drop)]
pub struct RuleShape<'a> {
    layer: &'a str,
    form: Form,
    conditions: Vec<&'a str>,
    first: Option<i64>,
    last: Option<i64>,
    order: Option<i64>,
    attributes: Vec<&'a Table>,
}

/// The rules that these tables are, in turn, of a profile of these zooms and layers.
pub fn rules_of(
    alloc: Global,
    zooms: (u8, u8),
    layers: &[LayerInfo],
    tables: &[&Table],
) -> Result<Vec<Rule>, ProfileErr>
    requires many { length tables.now ≤ 1024 }
    requires few { length layers.now ≤ 64 }
    ensures { Gives (λ v. v.items) result (in_turn (next_rule zooms layers.now) [] (map (λ t. table_view t.now) tables.now)) }
{
    let mut rules = Vec::new(alloc);
    for table in tables {
        let spot = Spot {
            part: Part::Rule,
            no: rules.len() as u32,
        };
        let rule = placed(spot, rule_of(alloc, zooms, layers, *table))?;
        rules.push(rule)?;
    }
    Ok(rules)
}

// A rule. Its reasons are unknown keys, its shape, ranges, layer, conditions and attributes, in this order.
fn rule_of(
    alloc: Global,
    zooms: (u8, u8),
    layers: &[LayerInfo],
    table: &Table,
) -> Result<Rule, PartErr>
    requires { length layers.now ≤ 64 }
    ensures { GivesPart (λ r. r) result (rule_of zooms layers.now (table_view table.now)) }
{
    if !has_only(&RULE_KEYS, table) {
        return Err(PartErr::Bad(ProfileWhy::Unknown));
    }
    let shape = rule_shape(alloc, table)?;
    let (min, max, order) = rule_within(zooms, &shape)?;
    let layer = layer_named(layers, shape.layer)?;
    let conditions = conditions_of(alloc, &shape.conditions)?;
    let attributes = attributes_of(alloc, &shape.attributes)?;
    Ok(Rule {
        layer: layer as u8,
        form: shape.form,
        conditions: Seq::from_vec(conditions),
        min,
        max,
        order,
        attributes: Seq::from_vec(attributes),
    })
}

fn rule_shape<'a>(alloc: Global, table: &'a Table) -> Result<RuleShape<'a>, PartErr>
    ensures { GivesPart seen_rule_shape result (rule_shape (table_view table.now)) }
{
    let layer = text_at(table, Key::Layer)?;
    let layer = required(layer)?;
    let kind = text_at(table, Key::Kind)?;
    let kind = required(kind)?;
    let form = form_of(kind)?;
    let conditions = texts_at(alloc, table, Key::When)?;
    let first = whole_at(table, Key::Minzoom)?;
    let last = whole_at(table, Key::Maxzoom)?;
    let order = whole_at(table, Key::Order)?;
    let attributes = tables_at(alloc, table, Key::Attributes)?;
    Ok(RuleShape {
        layer,
        form,
        conditions,
        first,
        last,
        order,
        attributes,
    })
}

#[tactic(auto, unfolding(crate::specs::Rules::point_word, crate::specs::Rules::line_word, crate::specs::Rules::area_word))]
fn form_of(name: &str) -> Result<Form, PartErr>
    ensures { GivesPart (λ f. f) result (form_of name.now) }
{
    if name == "point" {
        Ok(Form::Point)
    } else if name == "line" {
        Ok(Form::Line)
    } else if name == "area" {
        Ok(Form::Area)
    } else {
        Err(PartErr::Bad(ProfileWhy::Shape))
    }
}

// The zooms and the order of a rule.
fn rule_within(zooms: (u8, u8), shape: &RuleShape<'_>) -> Result<(u8, u8, i16), PartErr>
    ensures { GivesPart (λ n. n) result (rule_within zooms (seen_rule_shape shape.now)) }
{
    if !(are_texts_short(shape) && are_lists_short(shape)) {
        return Err(PartErr::Bad(ProfileWhy::Range));
    }
    let own = zooms_within(zooms.0, zooms.1, shape.first, shape.last)?;
    let order = order_or_0(shape.order)?;
    Ok((own.0, own.1, order))
}

fn are_texts_short(shape: &RuleShape<'_>) -> bool
    ensures { result ≡ are_texts_short (seen_rule_shape shape.now) }
{
    is_short(shape.layer)
        && (all_short(&shape.conditions) && all_have_short_texts(&shape.attributes))
}

fn all_short(texts: &[&str]) -> bool
    ensures { result ≡ list_all is_short (map (λ s. s.now) texts.now) }
{
    for text in texts {
        if !is_short(*text) {
            return false;
        }
    }
    true
}

fn all_have_short_texts(tables: &[&Table]) -> bool
    ensures { result ≡ list_all has_short_texts (map (λ t. table_view t.now) tables.now) }
{
    for table in tables {
        if !has_short_texts(*table) {
            return false;
        }
    }
    true
}

fn are_lists_short(shape: &RuleShape<'_>) -> bool
    ensures { result ≡ are_lists_short (seen_rule_shape shape.now) }
{
    shape.conditions.len() <= MOST_CONDITIONS && shape.attributes.len() <= MOST_ATTRIBUTES
}
