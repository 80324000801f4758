ghost use Rattle.std.specs.Prelude.{◌≡◌, length, map, IfOk};
ghost use Rattle.tb_wire.specs.Field.{entry_of};
ghost use Rattle.osm_elements.specs.Reasons.{Gives};
ghost use Rattle.osm_elements.specs.Block.{group_of, unit_check, elements_of, block_of, joined};
ghost use Rattle.osm_elements.specs.Walks.{each_from};
ghost use Rattle.osm_elements.specs.Heads.{head_of, seen_head};
ghost use Rattle.osm_elements.specs.SoFar.{Adds};
ghost use Rattle.osm_elements.specs.Taking.{Walked};
ghost use Rattle.osm_elements.specs.Few.{IsFew};
ghost use Rattle.osm_elements.specs.Words.{seen_words};

use crate::element::Block;
use crate::fault::BlockErr;
use crate::granularity::{Granularity, granularity_from};
use crate::group::give_group;
use crate::kept::Keeper;
use crate::message::{later_number, next_field};
use crate::numbers::{
    BLOCK_GRANULARITY, BLOCK_GROUP, BLOCK_LAT_OFFSET, BLOCK_LON_OFFSET, BLOCK_TABLE,
};
use crate::room::Room;
use crate::so_far::check_unit;
use crate::strings::put_strings;
use crate::taker::{ElementTaker, WalkErr};
use crate::walk::next_body;
use crate::word::Word;
use std::alloc::Global;
use tb_types::Why;

/// The elements of a raw block (osmformat.proto, PrimitiveBlock), in the order of its groups, and in a group nodes, dense
/// nodes, ways and relations. `Bad` exactly where the block is outside the format, with the first of these that holds
/// anywhere in it: `Wire` (no message or packed list, or a field of another wire type), `Missing` (no id, or no location
/// of a node), `Uneven` (lists that belong together differ in length), `Index` (a string past the table), `Range` (a unit
/// below 1, a sum past 64 bits, an unknown kind of member). `Memory` where a growth was refused, or from 2^32 elements on.
/// No way has more refs, and no relation more members, than the block has bytes.
#[tactic(auto, using(crate::proofs::Few::few))]
pub fn read_block(alloc: Global, raw: &[u8]) -> Result<Block, BlockErr>
    ensures exact { Gives (λ b. b) result (block_of raw.now) }
    ensures few { IfOk result (λ b. IsFew (length raw.now) b) }
{
    find_block(alloc, raw)
}

#[tactic(auto, unfolding(crate::specs::Block::block_of))]
fn find_block(alloc: Global, raw: &[u8]) -> Result<Block, BlockErr>
    ensures { Gives (λ b. b) result (block_of raw.now) }
{
    let mut keeper = Keeper::new(alloc);
    match walk_block(alloc, raw, &mut keeper) {
        Ok(()) => Ok(keeper.finish()),
        Err(WalkErr::Bad(why)) => Err(BlockErr::Bad(why)),
        Err(WalkErr::Memory) => Err(BlockErr::Memory),
        Err(WalkErr::Taker(_)) => Err(BlockErr::Memory),
    }
}

/// Gives the elements of a raw block to a taker, one after another: those that `read_block` reads, in their order. `Bad` has
/// the reason that `read_block` has; the taker was then given some elements, which say nothing. Where the taker refuses one, or
/// memory is wanted, it was given a prefix of the block's elements, if it has any.
#[tactic(auto, using(crate::proofs::Heads::elements_of_walked))]
pub fn walk_block<T: ElementTaker>(
    alloc: Global,
    raw: &[u8],
    taker: &mut T,
) -> Result<(), WalkErr<T::Stop>>
    ensures { Walked T.steps T.stops taker.old taker.new result (elements_of raw.now) }
{
    let head = match read_head(alloc, raw) {
        Ok(head) => head,
        Err(e) => return Err(WalkErr::from_block(e)),
    };
    let mut why = None;
    give_elements(alloc, &head, raw, taker, &mut why)?;
    match why {
        Some(why) => Err(WalkErr::Bad(why)),
        None => Ok(()),
    }
}

/// What stands once in a block: its strings, and the unit and the origin of its locations.
#[derive(Drop)]
pub(crate) struct Head<'a> {
    pub strings: Vec<Word<'a>>,
    pub granularity: Granularity,
}

fn read_head<'a>(alloc: Global, raw: &'a [u8]) -> Result<Head<'a>, BlockErr>
    ensures { Gives seen_head result (head_of raw.now) }
{
    let mut strings = Vec::new(alloc);
    let mut unit = None;
    let mut lat = None;
    let mut lon = None;
    let mut at = 0;
    while let Some(field) = next_field(raw, at)? {
        put_strings(&mut strings, BLOCK_TABLE, &field)?;
        unit = later_number(unit, BLOCK_GRANULARITY, &field)?;
        lat = later_number(lat, BLOCK_LAT_OFFSET, &field)?;
        lon = later_number(lon, BLOCK_LON_OFFSET, &field)?;
        at = field.next;
    }
    let granularity = granularity_from(unit, lat, lon);
    Ok(Head {
        strings,
        granularity,
    })
}

// Gives the elements of all groups, and checks the unit.
fn give_elements<'a, T: ElementTaker>(
    alloc: Global,
    head: &Head<'a>,
    raw: &[u8],
    taker: &mut T,
    why: &mut Option<Why>,
) -> Result<(), WalkErr<T::Stop>>
    ensures { Adds T.steps T.stops (taker.old, why.old) (taker.new, why.new) result (joined (each_from (group_of (seen_words head.now.strings.items) head.now.granularity) 2 raw.now 0) (unit_check head.now.granularity)) }
{
    let mut room = Room::new(alloc);
    give_groups(taker, why, &mut room, &head.strings, head.granularity, raw)?;
    check_unit::<T>(why, head.granularity)
}

// Gives the elements of all groups.
fn give_groups<'a, T: ElementTaker>(
    taker: &mut T,
    why: &mut Option<Why>,
    room: &mut Room<'a>,
    strings: &[Word<'a>],
    granularity: Granularity,
    raw: &[u8],
) -> Result<(), WalkErr<T::Stop>>
    ensures { Adds T.steps T.stops (taker.old, why.old) (taker.new, why.new) result (each_from (group_of (seen_words strings.now) granularity) 2 raw.now 0) }
{
    let mut at = 0;
    loop {
        match next_body(BLOCK_GROUP, raw, at) {
            Ok(Some((group, next))) => {
                give_group(taker, why, room, strings, granularity, group)?;
                at = next;
            }
            Ok(None) => return Ok(()),
            Err(e) => return Err(WalkErr::from_block(e)),
        }
    }
}
