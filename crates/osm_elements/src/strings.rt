ghost use Rattle.std.specs.Prelude.{◌≡◌, map};
ghost use Rattle.tb_wire.specs.Field.{entry_of};
ghost use Rattle.osm_elements.specs.Reasons.{Gives};
ghost use Rattle.osm_elements.specs.Fields.{if_numbered, with_found};
ghost use Rattle.osm_elements.specs.Heads.{some_strings};
ghost use Rattle.osm_elements.specs.Tags.{string_at};
ghost use Rattle.osm_elements.specs.Words.{seen_word, seen_words};

use crate::fault::BlockErr;
use crate::message::NO_MESSAGE;
use crate::numbers::TABLE_STRING;
use crate::signed::low_32;
use crate::walk::put_bodies;
use crate::word::Word;
use tb_types::Why;
use tb_wire::{Field, FieldValue};

/// Adds the strings of a field of this number, which is a table.
pub(crate) fn put_strings<'a>(
    out: &mut Vec<Word<'a>>,
    number: u32,
    field: &Field<'a>,
) -> Result<(), BlockErr>
    ensures { Gives (λ _. seen_words out.new.items) result (with_found (seen_words out.old.items) (if_numbered some_strings number (entry_of field.now))) }
{
    if field.number != number {
        return Ok(());
    }
    match field.value {
        FieldValue::Bytes(table) => put_bodies(out, TABLE_STRING, table),
        _ => Err(NO_MESSAGE),
    }
}

/// The string of an index, of which the low 32 bits count.
pub(crate) fn string_at<'a>(strings: &[Word<'a>], index: u64) -> Result<Word<'a>, BlockErr>
    ensures { Gives seen_word result (string_at (seen_words strings.now) index) }
{
    match strings.get(low_32(index) as usize) {
        Some(string) => Ok(*string),
        None => Err(BlockErr::Bad(Why::Index)),
    }
}
