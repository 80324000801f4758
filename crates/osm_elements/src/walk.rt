//! A message walked for the fields of one number, without a list of all its fields.

ghost use Rattle.std.specs.Prelude.{Ok, ◌++◌, ◌≡◌, ◌<◌, ◌≤◌, [], ◌∷◌, length, map, IfOk, IfSome};
ghost use Rattle.tb_wire.specs.Field.{value_of};
ghost use Rattle.osm_elements.specs.Reasons.{Gives};
ghost use Rattle.osm_elements.specs.Fields.{with_found, one_body};
ghost use Rattle.osm_elements.specs.Walks.{IsNext, bodies_at};
ghost use Rattle.osm_elements.specs.Words.{seen_words};

use crate::fault::BlockErr;
use crate::message::{NO_MESSAGE, next_field};
use crate::word::Word;
use tb_wire::FieldValue;

/// The bytes of the next field of a number from a place on, and the place behind it.
pub(crate) fn next_body<'a>(
    number: u32,
    bytes: &'a [u8],
    from: usize,
) -> Result<Option<(&'a [u8], usize)>, BlockErr>
    requires { from ≤ length bytes.now }
    ensures exact { IsNext number bytes.now from result }
    ensures within { IfOk result (λ found. IfSome found (λ b. (from < b.1) × (b.1 ≤ length bytes.now))) }
{
    let mut at = from;
    while let Some(field) = next_field(bytes, at)? {
        at = field.next;
        if field.number == number {
            let body = body_of(field.value)?;
            return Ok(Some((body, at)));
        }
    }
    Ok(None)
}

fn body_of(value: FieldValue<'_>) -> Result<&[u8], BlockErr>
    ensures { Gives (λ b. b.now ∷ []) result (one_body (value_of value.entry)) }
{
    match value {
        FieldValue::Bytes(bytes) => Ok(bytes),
        _ => Err(NO_MESSAGE),
    }
}

/// Adds the bytes of each field of a number in a message, as strings.
pub(crate) fn put_bodies<'a>(
    out: &mut Vec<Word<'a>>,
    number: u32,
    bytes: &'a [u8],
) -> Result<(), BlockErr>
    ensures { Gives (λ _. seen_words out.new.items) result (with_found (seen_words out.old.items) (bodies_at number bytes.now 0)) }
{
    out.reserve(body_count(number, bytes))?;
    let mut at = 0;
    while let Some((body, next)) = next_body(number, bytes, at)? {
        put_word(out, body)?;
        at = next;
    }
    Ok(())
}

// Adds the string of these bytes.
fn put_word<'a>(out: &mut Vec<Word<'a>>, bytes: &'a [u8]) -> Result<(), BlockErr>
    ensures { Gives (λ _. seen_words out.new.items) result (Ok (seen_words out.old.items ++ bytes.now ∷ [])) }
{
    out.push(Word::of(bytes))?;
    Ok(())
}

/// How many fields of a number with bytes a message has, as far as it can be read. It is asked for the room alone.
pub(crate) fn body_count(number: u32, bytes: &[u8]) -> usize
    ensures { result ≤ length bytes.now }
{
    let mut count: usize = 0;
    let mut at = 0;
    while let Ok(Some((_body, next))) = next_body(number, bytes, at) {
        count += 1;
        at = next;
    }
    count
}
