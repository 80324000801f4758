ghost use Rattle.std.specs.Prelude.{◌≡◌, map};
ghost use Rattle.osm_elements.specs.Reasons.{Gives};
ghost use Rattle.osm_elements.specs.Tags.{tags_of, with_pair, with_signed_pair, is_negative};
ghost use Rattle.osm_elements.specs.TagRefs.{seen_tags};
ghost use Rattle.osm_elements.specs.Words.{seen_words};

use crate::fault::BlockErr;
use crate::signed::{HALF_32, low_32};
use crate::strings::string_at;
use crate::tag_list::TagList;
use crate::word::Word;
use tb_types::Why;

/// Makes a list of tags that of an element, from the indexes of its keys and of its values.
pub(crate) fn find_tags<'a>(
    tags: &mut TagList<'a>,
    strings: &[Word<'a>],
    keys: &[u64],
    values: &[u64],
) -> Result<(), BlockErr>
    ensures { Gives (λ _. seen_tags tags.new.tags.items) result (tags_of (seen_words strings.now) keys.now values.now) }
{
    tags.clear();
    if keys.len() != values.len() {
        return Err(BlockErr::Bad(Why::Uneven));
    }
    for i in 0..keys.len() {
        put_pair(tags, strings, keys[i], values[i])?;
    }
    Ok(())
}

/// Adds the tag of an index of a key and one of a value.
pub(crate) fn put_pair<'a>(
    tags: &mut TagList<'a>,
    strings: &[Word<'a>],
    key: u64,
    value: u64,
) -> Result<(), BlockErr>
    ensures { Gives (λ _. seen_tags tags.new.tags.items) result (with_pair (seen_words strings.now) (seen_tags tags.old.tags.items) key value) }
{
    let key = string_at(strings, key)?;
    let value = string_at(strings, value)?;
    tags.put(key, value)
}

/// The same of two indexes that are refused where they are negative.
pub(crate) fn put_signed_pair<'a>(
    tags: &mut TagList<'a>,
    strings: &[Word<'a>],
    key: u64,
    value: u64,
) -> Result<(), BlockErr>
    ensures { Gives (λ _. seen_tags tags.new.tags.items) result (with_signed_pair (seen_words strings.now) (seen_tags tags.old.tags.items) key value) }
{
    if is_negative(key) || is_negative(value) {
        return Err(BlockErr::Bad(Why::Index));
    }
    put_pair(tags, strings, key, value)
}

/// Whether the low 32 bits are those of a negative number.
pub(crate) fn is_negative(n: u64) -> bool
    ensures { result ≡ is_negative n }
{
    low_32(n) >= HALF_32
}
