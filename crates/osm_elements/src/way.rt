ghost use Rattle.std.specs.Prelude.{◌≡◌, map};
ghost use Rattle.osm_elements.specs.Reasons.{Gives};
ghost use Rattle.osm_elements.specs.Elements.{way, way_of};
ghost use Rattle.osm_elements.specs.Numbered.{way_summed};
ghost use Rattle.osm_elements.specs.Sums.{seen_sums};
ghost use Rattle.osm_elements.specs.TagRefs.{seen_tags};
ghost use Rattle.osm_elements.specs.Words.{seen_words};

use crate::common::require;
use crate::fault::BlockErr;
use crate::message::{later_number, next_field, put_numbers};
use crate::numbers::{ELEMENT_ID, ELEMENT_KEYS, ELEMENT_VALUES, WAY_REFS};
use crate::room::Numbers;
use crate::signed::signed_64;
use crate::sums::Sums;
use crate::tag_list::TagList;
use crate::tags::find_tags;
use crate::word::Word;
use tb_types::OsmId;

/// The id of the way of a message, its tags and its refs.
#[tactic(auto, using(crate::proofs::Numbering::way_of_read))]
pub(crate) fn find_way<'a>(
    numbers: &mut Numbers,
    tags: &mut TagList<'a>,
    refs: &mut Sums<OsmId>,
    strings: &[Word<'a>],
    body: &[u8],
) -> Result<OsmId, BlockErr>
    ensures { Gives (λ id. way id (seen_tags tags.new.tags.items) refs.new.items.items) result (way_of (seen_words strings.now) body.now) }
{
    let id = read_way(numbers, refs, body)?;
    let id = require(id)?;
    find_tags(tags, strings, &numbers.keys, &numbers.values)?;
    refs.check()?;
    Ok(OsmId(signed_64(id)))
}

// The numbers of the message of a way. It answers its id.
fn read_way(
    numbers: &mut Numbers,
    refs: &mut Sums<OsmId>,
    body: &[u8],
) -> Result<Option<u64>, BlockErr>
    ensures { Gives (λ id. (id, numbers.new.keys.items, numbers.new.values.items, seen_sums refs.new)) result (way_summed body.now) }
{
    numbers.clear();
    refs.clear();
    let mut id = None;
    let mut at = 0;
    while let Some(field) = next_field(body, at)? {
        id = later_number(id, ELEMENT_ID, &field)?;
        put_numbers(&mut numbers.keys, ELEMENT_KEYS, &field)?;
        put_numbers(&mut numbers.values, ELEMENT_VALUES, &field)?;
        refs.put_field(WAY_REFS, &field)?;
        at = field.next;
    }
    Ok(id)
}
