ghost use Rattle.std.specs.Prelude.{◌≡◌, length, map};
ghost use Rattle.osm_elements.specs.Reasons.{Gives};
ghost use Rattle.osm_elements.specs.Elements.{relation, relation_of, members_of, kind_of};
ghost use Rattle.osm_elements.specs.Numbered.{relation_summed};
ghost use Rattle.osm_elements.specs.Sums.{seen_sums};
ghost use Rattle.osm_elements.specs.TagRefs.{seen_tags};
ghost use Rattle.osm_elements.specs.Words.{seen_words};

use crate::common::require;
use crate::element::Member;
use crate::fault::BlockErr;
use crate::message::{later_number, next_field, put_numbers};
use crate::numbers::{
    ELEMENT_ID, ELEMENT_KEYS, ELEMENT_VALUES, KIND_NODE, KIND_RELATION, KIND_WAY, RELATION_IDS,
    RELATION_KINDS,
};
use crate::room::Numbers;
use crate::signed::{low_32, signed_64};
use crate::sums::Sums;
use crate::tag_list::TagList;
use crate::tags::find_tags;
use crate::word::Word;
use tb_types::{Kind, OsmId, Why};

/// The id of the relation of a message, its tags and its members. The sums are some to work with.
#[tactic(auto, using(crate::proofs::Numbering::relation_of_read))]
pub(crate) fn find_relation<'a>(
    numbers: &mut Numbers,
    tags: &mut TagList<'a>,
    ids: &mut Sums<i64>,
    members: &mut Vec<Member>,
    strings: &[Word<'a>],
    body: &[u8],
) -> Result<OsmId, BlockErr>
    ensures { Gives (λ id. relation id (seen_tags tags.new.tags.items) members.new.items) result (relation_of (seen_words strings.now) body.now) }
{
    let id = read_relation(numbers, ids, body)?;
    let id = require(id)?;
    if ids.items.len() != numbers.kinds.len() {
        return Err(BlockErr::Bad(Why::Uneven));
    }
    find_tags(tags, strings, &numbers.keys, &numbers.values)?;
    ids.check()?;
    find_members(members, &ids.items, &numbers.kinds)?;
    Ok(OsmId(signed_64(id)))
}

// The numbers of the message of a relation. It answers its id.
fn read_relation(
    numbers: &mut Numbers,
    ids: &mut Sums<i64>,
    body: &[u8],
) -> Result<Option<u64>, BlockErr>
    ensures { Gives (λ id. (id, numbers.new.keys.items, numbers.new.values.items, length ids.new.items.items, seen_sums ids.new, numbers.new.kinds.items)) result (relation_summed body.now) }
{
    numbers.clear();
    ids.clear();
    let mut id = None;
    let mut at = 0;
    while let Some(field) = next_field(body, at)? {
        id = later_number(id, ELEMENT_ID, &field)?;
        put_numbers(&mut numbers.keys, ELEMENT_KEYS, &field)?;
        put_numbers(&mut numbers.values, ELEMENT_VALUES, &field)?;
        ids.put_field(RELATION_IDS, &field)?;
        put_numbers(&mut numbers.kinds, RELATION_KINDS, &field)?;
        at = field.next;
    }
    Ok(id)
}

// Makes a list of members that of these ids and kinds, as far as both lists go.
fn find_members(members: &mut Vec<Member>, ids: &[i64], kinds: &[u64]) -> Result<(), BlockErr>
    ensures { Gives (λ _. members.new.items) result (members_of ids.now kinds.now) }
{
    let count = ids.len().min(kinds.len());
    members.clear();
    members.reserve(count)?;
    for i in 0..count {
        let kind = kind_of(kinds[i])?;
        members.push(Member {
            kind,
            id: OsmId(ids[i]),
        })?;
    }
    Ok(())
}

// The kind of a member by its number.
fn kind_of(n: u64) -> Result<Kind, BlockErr>
    ensures { Gives (λ k. k) result (kind_of n) }
{
    match low_32(n) {
        KIND_NODE => Ok(Kind::Node),
        KIND_WAY => Ok(Kind::Way),
        KIND_RELATION => Ok(Kind::Relation),
        _ => Err(BlockErr::Bad(Why::Range)),
    }
}
