ghost use Rattle.std.specs.Prelude.{◌≡◌};
ghost use Rattle.tb_wire.specs.Field.{value_of, entry_of};
ghost use Rattle.mvt_codec.specs.Messages.{said_from};
ghost use Rattle.mvt_codec.specs.Grammar.{value_said, bits_32, bits_64, no_value, note_value, signed_64, value_in};
ghost use Rattle.mvt_codec.specs.Reading.{Gives, seen_value, seen_some};

use crate::fault::Fault;
use crate::numbers::{
    VALUE_BOOL, VALUE_DOUBLE, VALUE_FLOAT, VALUE_INT, VALUE_SINT, VALUE_STRING, VALUE_UINT,
};
use crate::packed::number_in;
use crate::text::text_in;
use tb_wire::{Field, FieldValue, read_field, unzigzag};

/// A value of a layer's dictionary. A text lies in the bytes of the tile.
#[derive(Clone, Copy, Debug)]
pub enum ReadValue<'a> {
    Text(&'a str),
    Whole(i128),
    Truth(bool),
    Bits32(u32),
    Bits64(u64),
}

/// The value of a message (Mapbox Vector Tile 2.1, section 4.4), which has exactly one of the fields of a value.
pub fn value_of(bytes: &[u8]) -> Result<ReadValue<'_>, Fault>
    ensures { Gives seen_value result (value_said bytes.now) }
{
    match said_value(bytes)? {
        Some(value) => Ok(value),
        None => Err(Fault::Bad),
    }
}

// The value of a message that has one field of a value at most.
fn said_value(bytes: &[u8]) -> Result<Option<ReadValue<'_>>, Fault>
    ensures { Gives seen_some result (said_from note_value no_value bytes.now 0) }
{
    let mut value = None;
    let mut at = 0;
    while at < bytes.len() {
        match read_field(bytes, at) {
            Ok(Some(field)) => match noted(value, field) {
                Ok(now) => {
                    value = now;
                    at = field.next;
                }
                Err(e) => return Err(e),
            },
            Ok(None) => break,
            Err(_) => return Err(Fault::Bad),
        }
    }
    Ok(value)
}

fn noted<'a>(
    so_far: Option<ReadValue<'a>>,
    field: Field<'a>,
) -> Result<Option<ReadValue<'a>>, Fault>
    ensures { Gives seen_some result (note_value (seen_some so_far.entry) (entry_of field.entry)) }
{
    if field.number > VALUE_BOOL {
        return Ok(so_far);
    }
    if so_far.is_some() {
        return Err(Fault::Bad);
    }
    let value = value_in(field.number, field.value)?;
    Ok(Some(value))
}

// The value that a field has, by its number, which is 1 to 7.
#[tactic(auto, unfolding(crate::specs::Grammar::value_in))]
fn value_in(number: u32, value: FieldValue<'_>) -> Result<ReadValue<'_>, Fault>
    ensures { Gives seen_value result (value_in number (value_of value.entry)) }
{
    if number == VALUE_STRING {
        return Ok(ReadValue::Text(text_in(value)?));
    }
    if number == VALUE_FLOAT {
        return float_in(value);
    }
    if number == VALUE_DOUBLE {
        return double_in(value);
    }
    let n = number_in(value)?;
    if number == VALUE_INT {
        return Ok(ReadValue::Whole(i128::from(signed_64(n))));
    }
    if number == VALUE_UINT {
        return Ok(ReadValue::Whole(i128::from(n)));
    }
    if number == VALUE_SINT {
        return Ok(ReadValue::Whole(i128::from(unzigzag(n))));
    }
    Ok(ReadValue::Truth(n != 0))
}

fn float_in(value: FieldValue<'_>) -> Result<ReadValue<'_>, Fault>
    ensures { Gives seen_value result (bits_32 (value_of value.entry)) }
{
    match value {
        FieldValue::Fixed32(n) => Ok(ReadValue::Bits32(n)),
        _ => Err(Fault::Bad),
    }
}

fn double_in(value: FieldValue<'_>) -> Result<ReadValue<'_>, Fault>
    ensures { Gives seen_value result (bits_64 (value_of value.entry)) }
{
    match value {
        FieldValue::Fixed64(n) => Ok(ReadValue::Bits64(n)),
        _ => Err(Fault::Bad),
    }
}

// The signed number of 64 bits in two's complement.
fn signed_64(n: u64) -> i64
    ensures { result ≡ signed_64 n }
{
    if n < 1 << 63 {
        n as i64
    } else {
        -((u64::MAX - n) as i64) - 1
    }
}
