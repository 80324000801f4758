ghost use Rattle.std.specs.Prelude.{◌≡◌};
ghost use Rattle.feature_runs.specs.ItemReading.{Gives, value_of, text_of, uint_of, sint_of, float_of, double_of, truth_of};

use crate::read_parts::{read_short, read_sized, read_text};
use crate::refused::Refused;
use std::alloc::Global;
use tb_types::AttrValue;

/// The first byte of a value: the number of its field and its wire type (Mapbox Vector Tile 2.1, section 4.4).
const STRING: u8 = 10;

const FLOAT: u8 = 21;

const DOUBLE: u8 = 25;

const UINT: u8 = 40;

const SINT: u8 = 48;

const BOOL: u8 = 56;

/// The value whose text is all of the bytes: a `string` that is UTF-8, a `float`, a `double`, a `uint`, a `sint` below 0, or a
/// `bool` of 0 or 1, and nothing else.
#[tactic(auto, unfolding(crate::specs::ItemReading::value_of))]
pub fn read_value(alloc: Global, bytes: &[u8]) -> Result<AttrValue, Refused>
    ensures { Gives (λ value. value) result (value_of bytes.now) }
{
    match bytes {
        [] => Err(Refused::NoItem),
        [tag, rest @ ..] => {
            if *tag == STRING {
                read_string(alloc, rest)
            } else if *tag == FLOAT {
                read_float(rest)
            } else if *tag == DOUBLE {
                read_double(rest)
            } else if *tag == UINT {
                read_uint(rest)
            } else if *tag == SINT {
                read_sint(rest)
            } else if *tag == BOOL {
                read_bool(rest)
            } else {
                Err(Refused::NoItem)
            }
        }
    }
}

#[tactic(auto, unfolding(crate::specs::ItemReading::text_of))]
fn read_string(alloc: Global, bytes: &[u8]) -> Result<AttrValue, Refused>
    ensures { Gives (λ value. value) result (text_of bytes.now) }
{
    let (text, rest) = read_sized(bytes)?;
    if !rest.is_empty() {
        return Err(Refused::NoItem);
    }
    let text = read_text(alloc, text)?;
    Ok(AttrValue::Text(text))
}

#[tactic(auto, unfolding(crate::specs::ItemReading::float_of))]
fn read_float(bytes: &[u8]) -> Result<AttrValue, Refused>
    ensures { Gives (λ value. value) result (float_of bytes.now) }
{
    if bytes.len() != 4 {
        return Err(Refused::NoItem);
    }
    let bits = u32::from_le_bytes([bytes[0], bytes[1], bytes[2], bytes[3]]);
    Ok(AttrValue::Bits32(bits))
}

#[tactic(auto, unfolding(crate::specs::ItemReading::double_of))]
fn read_double(bytes: &[u8]) -> Result<AttrValue, Refused>
    ensures { Gives (λ value. value) result (double_of bytes.now) }
{
    if bytes.len() != 8 {
        return Err(Refused::NoItem);
    }
    let bits = u64::from_le_bytes([
        bytes[0], bytes[1], bytes[2], bytes[3], bytes[4], bytes[5], bytes[6], bytes[7],
    ]);
    Ok(AttrValue::Bits64(bits))
}

#[tactic(auto, unfolding(crate::specs::ItemReading::uint_of))]
fn read_uint(bytes: &[u8]) -> Result<AttrValue, Refused>
    ensures { Gives (λ value. value) result (uint_of bytes.now) }
{
    let (n, rest) = read_short(bytes)?;
    if !rest.is_empty() {
        return Err(Refused::NoItem);
    }
    Ok(AttrValue::Whole(i128::from(n)))
}

#[tactic(auto, unfolding(crate::specs::ItemReading::sint_of))]
fn read_sint(bytes: &[u8]) -> Result<AttrValue, Refused>
    ensures { Gives (λ value. value) result (sint_of bytes.now) }
{
    let (n, rest) = read_short(bytes)?;
    if !rest.is_empty() || n % 2 != 1 {
        return Err(Refused::NoItem);
    }
    Ok(AttrValue::Whole(-i128::from(n / 2) - 1))
}

#[tactic(auto, unfolding(crate::specs::ItemReading::truth_of))]
fn read_bool(bytes: &[u8]) -> Result<AttrValue, Refused>
    ensures { Gives (λ value. value) result (truth_of bytes.now) }
{
    match bytes {
        [] => Err(Refused::NoItem),
        [byte] => {
            if *byte > 1 {
                return Err(Refused::NoItem);
            }
            Ok(AttrValue::Truth(*byte == 1))
        }
        [_, _, ..] => Err(Refused::NoItem),
    }
}
