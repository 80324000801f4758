ghost use Rattle.std.specs.Prelude.{◌≡◌, [], map, option_map, option_copied};
ghost use Rattle.std.specs.List.{list_any, list_all};
ghost use Rattle.std.specs.BTreeMap.{values};
ghost use Rattle.toml.specs.Data.{as_str};
ghost use Rattle.toml.specs.View.{view, table_view};
ghost use Rattle.profile_rules.specs.Faults.{GivesPart};
ghost use Rattle.profile_rules.specs.Kinds.{if_there};
ghost use Rattle.profile_rules.specs.Attributes.{attribute_of, attributes_of, attribute_from, constant_of, form_or_text, form_named, named, has_name, has_short_texts, is_short_if, if_other_name, text_word, whole_word, truth_word};

use crate::fault::{PartErr, ProfileWhy};
use crate::key::{ATTRIBUTE_KEYS, Key, has_only, value_at};
use crate::kinds::text_if;
use crate::ranges::is_short;
use std::alloc::Global;
use tb_types::Text;
use toml::{Table, Value};

/// How the value of a tag is read.
#[derive(Clone, Copy, Debug, PartialEq, Eq)]
pub enum ValueForm {
    Text,
    Whole,
    Truth,
}

/// A value that a profile states.
#[derive(Debug, Drop)]
pub enum Constant {
    Text(Text),
    Whole(i64),
    Truth(bool),
}

/// Where the value of an attribute comes from.
#[derive(Debug, Drop)]
pub enum Origin {
    /// From the tag of this key.
    Tag(Text, ValueForm),
    Constant(Constant),
}

/// An attribute of a rule's features. Its name isn't empty.
#[derive(Debug, Drop)]
pub struct Attribute {
    pub name: Text,
    pub origin: Origin,
}

/// The attributes that these tables are. `Attribute` where one is none, or has the name of one before it.
pub fn attributes_of(alloc: Global, tables: &[&Table]) -> Result<Vec<Attribute>, PartErr>
    ensures { GivesPart (λ v. v.items) result (attributes_of (map (λ t. table_view t.now) tables.now)) }
{
    let mut attributes = Vec::new(alloc);
    for table in tables {
        let attribute = attribute_of(alloc, *table)?;
        let attribute = if_other_name(&attributes, attribute)?;
        attributes.push(attribute)?;
    }
    Ok(attributes)
}

// A name is none of those before it.
fn if_other_name(before: &[Attribute], attribute: Attribute) -> Result<Attribute, PartErr>
    ensures { GivesPart (λ a. a) result (if_other_name before.now attribute) }
{
    if is_named(before, attribute.name.as_str()) {
        return Err(PartErr::Bad(ProfileWhy::Attribute));
    }
    Ok(attribute)
}

// Whether one of these has this name.
fn is_named(attributes: &[Attribute], name: &str) -> bool
    ensures { result ≡ list_any (has_name name.now) attributes.now }
{
    attributes.iter().any(|attribute| has_name(attribute, name))
}

fn has_name(attribute: &Attribute, name: &str) -> bool
    ensures { result ≡ has_name name.now attribute.now }
{
    attribute.name.as_str() == name
}

// A table `{ key = K, name = N, form = F }` or `{ name = N, value = C }`.
fn attribute_of(alloc: Global, table: &Table) -> Result<Attribute, PartErr>
    ensures { GivesPart (λ a. a) result (attribute_of (table_view table.now)) }
{
    if !has_only(&ATTRIBUTE_KEYS, table) {
        return Err(PartErr::Bad(ProfileWhy::Attribute));
    }
    let key = text_if(value_at(table, Key::TagKey), ProfileWhy::Attribute)?;
    let name = text_if(value_at(table, Key::Name), ProfileWhy::Attribute)?;
    let form = text_if(value_at(table, Key::Form), ProfileWhy::Attribute)?;
    let value = constant_if(alloc, value_at(table, Key::Value))?;
    attribute_from(alloc, key, name, form, value)
}

fn attribute_from(
    alloc: Global,
    key: Option<&str>,
    name: Option<&str>,
    form: Option<&str>,
    value: Option<Constant>,
) -> Result<Attribute, PartErr>
    ensures { GivesPart (λ a. a) result (attribute_from (option_copied key.entry) (option_copied name.entry) (option_copied form.entry) value) }
{
    match (key, name, form, value) {
        (Some(key), name, form, None) => {
            let form = form_or_text(form)?;
            named(
                alloc,
                name.unwrap_or(key),
                Origin::Tag(Text::copy_of(alloc, key)?, form),
            )
        }
        (None, Some(name), None, Some(value)) => named(alloc, name, Origin::Constant(value)),
        _ => Err(PartErr::Bad(ProfileWhy::Attribute)),
    }
}

// A name isn't empty.
fn named(alloc: Global, name: &str, origin: Origin) -> Result<Attribute, PartErr>
    ensures { GivesPart (λ a. a) result (named name.now origin) }
{
    if name.is_empty() {
        return Err(PartErr::Bad(ProfileWhy::Attribute));
    }
    let name = Text::copy_of(alloc, name)?;
    Ok(Attribute { name, origin })
}

fn form_or_text(name: Option<&str>) -> Result<ValueForm, PartErr>
    ensures { GivesPart (λ f. f) result (form_or_text (option_copied name.entry)) }
{
    match name {
        Some(name) => form_named(name),
        None => Ok(ValueForm::Text),
    }
}

#[tactic(auto, unfolding(crate::specs::Attributes::text_word, crate::specs::Attributes::whole_word, crate::specs::Attributes::truth_word))]
fn form_named(name: &str) -> Result<ValueForm, PartErr>
    ensures { GivesPart (λ f. f) result (form_named name.now) }
{
    if name == "text" {
        Ok(ValueForm::Text)
    } else if name == "int" {
        Ok(ValueForm::Whole)
    } else if name == "bool" {
        Ok(ValueForm::Truth)
    } else {
        Err(PartErr::Bad(ProfileWhy::Attribute))
    }
}

fn constant_if(alloc: Global, value: Option<&Value>) -> Result<Option<Constant>, PartErr>
    ensures { GivesPart (λ c. c) result (if_there constant_of (option_map (λ v. view v.now) value.entry)) }
{
    match value {
        Some(value) => Ok(Some(constant_of(alloc, value)?)),
        None => Ok(None),
    }
}

// A constant is a text, a whole number or a truth.
fn constant_of(alloc: Global, value: &Value) -> Result<Constant, PartErr>
    ensures { GivesPart (λ c. c) result (constant_of (view value.now)) }
{
    match (value.as_str(), value.as_integer(), value.as_bool()) {
        (Some(text), _, _) => Ok(Constant::Text(Text::copy_of(alloc, text)?)),
        (None, Some(n), _) => Ok(Constant::Whole(n)),
        (None, None, Some(b)) => Ok(Constant::Truth(b)),
        (None, None, None) => Err(PartErr::Bad(ProfileWhy::Attribute)),
    }
}

/// Whether the texts among the values of a table aren't too long.
pub fn has_short_texts(table: &Table) -> bool
    ensures { result ≡ has_short_texts (table_view table.now) }
{
    all_short(table)
}

fn all_short(table: &Table) -> bool
    ensures { result ≡ list_all (λ value. is_short_if (as_str (view value))) (values table.now) }
{
    table.values().all(|value| is_short_value(value))
}

fn is_short_value(value: &Value) -> bool
    ensures { result ≡ is_short_if (as_str (view value.now)) }
{
    match value.as_str() {
        Some(text) => is_short(text),
        None => true,
    }
}
