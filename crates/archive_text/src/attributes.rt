ghost use Rattle.std.specs.Prelude.{◌≡◌, IfOk, string_bytes};
ghost use Rattle.serde_json.specs.Data.{number, string};
ghost use Rattle.serde_json.specs.Find.{of_integer};
ghost use Rattle.serde_json.specs.View.{view};
ghost use Rattle.archive_text.specs.Attributes.{bits_text, value_data, attributes_data, attributes_text};

use serde_json::{Map, Number, Value, put};
use std::alloc::Global;
use tb_types::{Attr, AttrValue, Memory};

/// The text of a feature's attributes: a JSON object without blanks, its keys in the order of their bytes. Of two equal keys
/// the later counts.
#[tactic(auto, unfolding(crate::specs::Attributes::attributes_text))]
pub fn attributes_text(alloc: Global, attributes: &[Attr]) -> Result<String, Memory>
    ensures { IfOk result (λ text. string_bytes text ≡ attributes_text attributes.now) }
{
    let value = attributes_value(alloc, attributes)?;
    match value.to_string(alloc) {
        Ok(text) => Ok(text),
        Err(_) => Err(Memory),
    }
}

fn attributes_value(alloc: Global, attributes: &[Attr]) -> Result<Value, Memory>
    ensures { IfOk result (λ v. view v ≡ attributes_data attributes.now) }
{
    let mut members = Map::new(alloc);
    for a in attributes {
        let value = value_of(alloc, &a.value)?;
        put(&mut members, alloc, a.name.as_str(), value)?;
    }
    Ok(Value::Object(members))
}

// An attribute's value. A floating value is the text of its bits.
#[tactic(auto, unfolding(crate::specs::Attributes::value_data))]
fn value_of(alloc: Global, value: &AttrValue) -> Result<Value, Memory>
    ensures { IfOk result (λ v. view v ≡ value_data value.now) }
{
    match value {
        AttrValue::Text(text) => Ok(Value::try_from_str(alloc, text.as_str())?),
        AttrValue::Whole(n) => whole_value(*n),
        AttrValue::Truth(truth) => Ok(Value::Bool(*truth)),
        AttrValue::Bits32(bits) => bits_value(alloc, "float ", bits.to_be_bytes().as_slice()),
        AttrValue::Bits64(bits) => bits_value(alloc, "double ", bits.to_be_bytes().as_slice()),
    }
}

// A whole number. One that passes 64 bits is want of memory.
fn whole_value(n: i128) -> Result<Value, Memory>
    ensures { IfOk result (λ v. view v ≡ number (of_integer n)) }
{
    match Number::from_i128(n) {
        Some(number) => Ok(Value::Number(number)),
        None => Err(Memory),
    }
}

// Bytes as hexadecimal digits behind the name of their type.
fn bits_value(alloc: Global, name: &str, bytes: &[u8]) -> Result<Value, Memory>
    ensures { IfOk result (λ v. view v ≡ string (bits_text name.now bytes.now)) }
{
    let digits = hex::encode(alloc, bytes)?;
    let mut text = String::from_str(alloc, name)?;
    text.push_str(&digits)?;
    Ok(Value::String(text))
}
