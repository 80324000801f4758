ghost use Rattle.std.specs.Prelude.{◌≡◌, [], map, Ok};
ghost use Rattle.std.specs.Option.{option_map, option_copied};
ghost use Rattle.toml.specs.View.{view, table_view};
ghost use Rattle.profile_rules.specs.Turns.{in_turn};
ghost use Rattle.profile_rules.specs.Faults.{GivesPart};
ghost use Rattle.profile_rules.specs.Keys.{value_at};
ghost use Rattle.profile_rules.specs.Kinds.{text_or, whole_of, table_of, if_there, list_if, list_of, text_at, whole_at, texts_at, tables_at, required};
ghost use Rattle.profile_rules.specs.declared.fault.ProfileWhy.TheVariants as reasons;

use crate::fault::{PartErr, ProfileWhy};
use crate::key::{Key, value_at};
use std::alloc::Global;
use toml::{Table, Value};

/// The text at a key, if one stands. `Shape` where a value of another kind does.
pub fn text_at<'a>(table: &'a Table, key: Key) -> Result<Option<&'a str>, PartErr>
    ensures { GivesPart (λ s. option_copied s) result (text_at key (table_view table.now)) }
{
    text_if(value_at(table, key), ProfileWhy::Shape)
}

/// A text, if a value stands. A value of another kind is refused for this reason.
pub fn text_if<'a>(value: Option<&'a Value>, why: ProfileWhy) -> Result<Option<&'a str>, PartErr>
    ensures { GivesPart (λ s. option_copied s) result (if_there (text_or why) (option_map (λ v. view v.now) value.entry)) }
{
    match value {
        Some(value) => Ok(Some(text_of(value, why)?)),
        None => Ok(None),
    }
}

fn text_of(value: &Value, why: ProfileWhy) -> Result<&str, PartErr>
    ensures { GivesPart (λ s. s.now) result (text_or why (view value.now)) }
{
    match value.as_str() {
        Some(text) => Ok(text),
        None => Err(PartErr::Bad(why)),
    }
}

/// The whole number at a key, if one stands. `Shape` where a value of another kind does.
pub fn whole_at(table: &Table, key: Key) -> Result<Option<i64>, PartErr>
    ensures { GivesPart (λ n. n) result (whole_at key (table_view table.now)) }
{
    match value_at(table, key) {
        Some(value) => match value.as_integer() {
            Some(n) => Ok(Some(n)),
            None => Err(PartErr::Bad(ProfileWhy::Shape)),
        },
        None => Ok(None),
    }
}

/// The texts listed at a key, or none. `Shape` where another value stands, or another item.
pub fn texts_at<'a>(alloc: Global, table: &'a Table, key: Key) -> Result<Vec<&'a str>, PartErr>
    ensures { GivesPart (λ v. map (λ s. s.now) v.items) result (texts_at key (table_view table.now)) }
{
    let items = list_at(table, key)?;
    texts_of(alloc, items)
}

fn texts_of(alloc: Global, items: &[Value]) -> Result<Vec<&str>, PartErr>
    ensures { GivesPart (λ v. map (λ s. s.now) v.items) result (in_turn (λ _. text_or reasons.Shape) [] (map view items.now)) }
{
    let mut texts = Vec::new(alloc);
    for item in items {
        texts.push(text_of(item, ProfileWhy::Shape)?)?;
    }
    Ok(texts)
}

/// The tables listed at a key, or none. `Shape` where another value stands, or another item.
pub fn tables_at<'a>(alloc: Global, table: &'a Table, key: Key) -> Result<Vec<&'a Table>, PartErr>
    ensures { GivesPart (λ v. map (λ t. table_view t.now) v.items) result (tables_at key (table_view table.now)) }
{
    let items = list_at(table, key)?;
    tables_of(alloc, items)
}

fn tables_of(alloc: Global, items: &[Value]) -> Result<Vec<&Table>, PartErr>
    ensures { GivesPart (λ v. map (λ t. table_view t.now) v.items) result (in_turn (λ _. table_of) [] (map view items.now)) }
{
    let mut tables = Vec::new(alloc);
    for item in items {
        tables.push(table_of(item)?)?;
    }
    Ok(tables)
}

fn table_of(value: &Value) -> Result<&Table, PartErr>
    ensures { GivesPart (λ t. table_view t.now) result (table_of (view value.now)) }
{
    match value.as_table() {
        Some(table) => Ok(table),
        None => Err(PartErr::Bad(ProfileWhy::Shape)),
    }
}

// The items listed at a key, or none.
fn list_at<'a>(table: &'a Table, key: Key) -> Result<&'a [Value], PartErr>
    ensures { GivesPart (λ s. map view s.now) result (list_if (value_at key (table_view table.now))) }
{
    match value_at(table, key) {
        Some(value) => list_of(value),
        None => Ok(&[]),
    }
}

fn list_of(value: &Value) -> Result<&[Value], PartErr>
    ensures { GivesPart (λ s. map view s.now) result (list_of (view value.now)) }
{
    match value.as_array() {
        Some(items) => Ok(items.as_slice()),
        None => Err(PartErr::Bad(ProfileWhy::Shape)),
    }
}

/// What has to stand. `Shape` where it doesn't.
pub fn required<T>(value: Option<T>) -> Result<T, PartErr>
    ensures { GivesPart (λ x. x) result (required value) }
{
    match value {
        Some(x) => Ok(x),
        None => Err(PartErr::Bad(ProfileWhy::Shape)),
    }
}
