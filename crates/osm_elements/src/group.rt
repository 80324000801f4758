//! The elements of a group: each kind in its turn, and the dense nodes.

ghost use Rattle.std.specs.Prelude.{◌≡◌, ◌≢◌, ◌<◌, Ok, [], ◌∷◌, length, map};
ghost use Rattle.tb_types.specs.declared.damage.Why.{Why};
ghost use Rattle.osm_elements.specs.Elements.{element_of, node_of, way_of, relation_of, group_field};
ghost use Rattle.osm_elements.specs.Lists.{seen_lists, nodes_of, bare_nodes, tagged_nodes, place_node};
ghost use Rattle.osm_elements.specs.Block.{one, group_of};
ghost use Rattle.osm_elements.specs.TagRefs.{seen_tags};
ghost use Rattle.osm_elements.specs.Walks.{bodies_at, each_from, dense_in};
ghost use Rattle.osm_elements.specs.Looks.{LooksAt};
ghost use Rattle.osm_elements.specs.SoFar.{Adds};
ghost use Rattle.osm_elements.specs.Words.{seen_words};

use crate::dense::Dense;
use crate::element::{AnyElement, TagRef};
use crate::fault::BlockErr;
use crate::granularity::Granularity;
use crate::message::next_field;
use crate::node::find_node;
use crate::numbers::{GROUP_DENSE, GROUP_NODE, GROUP_RELATION, GROUP_WAY};
use crate::relation::find_relation;
use crate::room::Room;
use crate::runs::first_run;
use crate::so_far::{give, make_room, refuse};
use crate::tag_list::TagList;
use crate::taker::{ElementTaker, WalkErr};
use crate::walk::next_body;
use crate::way::find_way;
use crate::word::Word;
use tb_types::{Kind, OsmId, Why};

/// How many fields a group has of each kind of message, as a first look over it tells.
#[derive(Clone, Copy, Debug, PartialEq, Eq)]
pub(crate) struct Looked {
    pub nodes: usize,
    pub dense: usize,
    pub ways: usize,
    pub relations: usize,
}

fn look(group: &[u8]) -> Result<Looked, BlockErr>
    ensures { LooksAt group.now result }
{
    let mut seen = Looked {
        nodes: 0,
        dense: 0,
        ways: 0,
        relations: 0,
    };
    let mut at = 0;
    while let Some(field) = next_field(group, at)? {
        seen.nodes = counted(seen.nodes, field.number, GROUP_NODE);
        seen.dense = counted(seen.dense, field.number, GROUP_DENSE);
        seen.ways = counted(seen.ways, field.number, GROUP_WAY);
        seen.relations = counted(seen.relations, field.number, GROUP_RELATION);
        at = field.next;
    }
    Ok(seen)
}

// One more, if the number of a field is the one that is counted.
#[inline]
fn counted(count: usize, number: u32, wanted: u32) -> usize
    ensures { result ≡ 0 → (count ≡ 0) × (number ≢ wanted) }
{
    if number == wanted && count < usize::MAX {
        count + 1
    } else {
        count
    }
}

/// Gives the elements of a group.
pub(crate) fn give_group<'a, T: ElementTaker>(
    taker: &mut T,
    why: &mut Option<Why>,
    room: &mut Room<'a>,
    strings: &[Word<'a>],
    granularity: Granularity,
    group: &[u8],
) -> Result<(), WalkErr<T::Stop>>
    ensures { Adds T.steps T.stops (taker.old, why.old) (taker.new, why.new) result (group_of (seen_words strings.now) granularity group.now) }
{
    let seen = match look(group) {
        Ok(seen) => seen,
        Err(e) => return Err(WalkErr::from_block(e)),
    };
    give_each(
        taker,
        why,
        room,
        strings,
        granularity,
        Kind::Node,
        seen.nodes,
        group,
    )?;
    give_dense(taker, why, room, strings, granularity, seen.dense, group)?;
    give_each(
        taker,
        why,
        room,
        strings,
        granularity,
        Kind::Way,
        seen.ways,
        group,
    )?;
    give_each(
        taker,
        why,
        room,
        strings,
        granularity,
        Kind::Relation,
        seen.relations,
        group,
    )?;
    Ok(())
}

// Gives the elements of a kind of a group, which has so many messages of them.
fn give_each<'a, T: ElementTaker>(
    taker: &mut T,
    why: &mut Option<Why>,
    room: &mut Room<'a>,
    strings: &[Word<'a>],
    granularity: Granularity,
    kind: Kind,
    count: usize,
    group: &[u8],
) -> Result<(), WalkErr<T::Stop>>
    requires none { count ≡ 0 → bodies_at (group_field kind) group.now 0 ≡ Ok [] }
    ensures { Adds T.steps T.stops (taker.old, why.old) (taker.new, why.new) result (each_from (λ body. one (element_of (seen_words strings.now) granularity kind body)) (group_field kind) group.now 0) }
{
    if count == 0 {
        return Ok(());
    }
    let number = group_field(kind);
    make_room(taker, *why, kind, count)?;
    let mut at = 0;
    loop {
        match next_body(number, group, at) {
            Ok(Some((body, next))) => {
                give_element(taker, why, room, strings, granularity, kind, body)?;
                at = next;
            }
            Ok(None) => return Ok(()),
            Err(e) => return Err(WalkErr::from_block(e)),
        }
    }
}

// Gives the element of a message of a kind.
fn give_element<'a, T: ElementTaker>(
    taker: &mut T,
    why: &mut Option<Why>,
    room: &mut Room<'a>,
    strings: &[Word<'a>],
    granularity: Granularity,
    kind: Kind,
    body: &[u8],
) -> Result<(), WalkErr<T::Stop>>
    ensures { Adds T.steps T.stops (taker.old, why.old) (taker.new, why.new) result (one (element_of (seen_words strings.now) granularity kind body.now)) }
{
    match kind {
        Kind::Node => give_node(taker, why, room, strings, granularity, body),
        Kind::Way => give_way(taker, why, room, strings, body),
        Kind::Relation => give_relation(taker, why, room, strings, body),
    }
}

fn give_node<'a, T: ElementTaker>(
    taker: &mut T,
    why: &mut Option<Why>,
    room: &mut Room<'a>,
    strings: &[Word<'a>],
    granularity: Granularity,
    body: &[u8],
) -> Result<(), WalkErr<T::Stop>>
    ensures { Adds T.steps T.stops (taker.old, why.old) (taker.new, why.new) result (one (node_of (seen_words strings.now) granularity body.now)) }
{
    let numbers = &mut room.numbers;
    match find_node(numbers, &mut room.tags, strings, granularity, body) {
        Ok((id, at)) => {
            let tags = room.tags.tags.as_slice();
            give(taker, *why, AnyElement::Node(id, at, tags))
        }
        Err(BlockErr::Bad(reason)) => refuse::<T>(why, reason),
        Err(BlockErr::Memory) => Err(WalkErr::Memory),
    }
}

fn give_way<'a, T: ElementTaker>(
    taker: &mut T,
    why: &mut Option<Why>,
    room: &mut Room<'a>,
    strings: &[Word<'a>],
    body: &[u8],
) -> Result<(), WalkErr<T::Stop>>
    ensures { Adds T.steps T.stops (taker.old, why.old) (taker.new, why.new) result (one (way_of (seen_words strings.now) body.now)) }
{
    let numbers = &mut room.numbers;
    match find_way(numbers, &mut room.tags, &mut room.refs, strings, body) {
        Ok(id) => {
            let tags = room.tags.tags.as_slice();
            give(taker, *why, AnyElement::Way(id, tags, &room.refs.items))
        }
        Err(BlockErr::Bad(reason)) => refuse::<T>(why, reason),
        Err(BlockErr::Memory) => Err(WalkErr::Memory),
    }
}

fn give_relation<'a, T: ElementTaker>(
    taker: &mut T,
    why: &mut Option<Why>,
    room: &mut Room<'a>,
    strings: &[Word<'a>],
    body: &[u8],
) -> Result<(), WalkErr<T::Stop>>
    ensures { Adds T.steps T.stops (taker.old, why.old) (taker.new, why.new) result (one (relation_of (seen_words strings.now) body.now)) }
{
    let numbers = &mut room.numbers;
    let members = &mut room.members;
    match find_relation(
        numbers,
        &mut room.tags,
        &mut room.ids,
        members,
        strings,
        body,
    ) {
        Ok(id) => {
            let tags = room.tags.tags.as_slice();
            give(taker, *why, AnyElement::Relation(id, tags, &room.members))
        }
        Err(BlockErr::Bad(reason)) => refuse::<T>(why, reason),
        Err(BlockErr::Memory) => Err(WalkErr::Memory),
    }
}

// Gives the dense nodes of a group, which has so many messages of them.
#[tactic(auto, using(crate::proofs::DenseNodes::dense_in_checked))]
fn give_dense<'a, T: ElementTaker>(
    taker: &mut T,
    why: &mut Option<Why>,
    room: &mut Room<'a>,
    strings: &[Word<'a>],
    granularity: Granularity,
    count: usize,
    group: &[u8],
) -> Result<(), WalkErr<T::Stop>>
    requires none { count ≡ 0 → bodies_at 2 group.now 0 ≡ Ok [] }
    ensures { Adds T.steps T.stops (taker.old, why.old) (taker.new, why.new) result (dense_in (seen_words strings.now) granularity group.now) }
{
    if count == 0 {
        return Ok(());
    }
    match room.dense.find(strings, group) {
        Ok(()) => give_lists(
            taker,
            why,
            &mut room.tags,
            strings,
            granularity,
            &room.dense,
        ),
        Err(BlockErr::Bad(reason)) => refuse::<T>(why, reason),
        Err(BlockErr::Memory) => Err(WalkErr::Memory),
    }
}

fn give_lists<'a, T: ElementTaker>(
    taker: &mut T,
    why: &mut Option<Why>,
    tags: &mut TagList<'a>,
    strings: &[Word<'a>],
    granularity: Granularity,
    lists: &Dense,
) -> Result<(), WalkErr<T::Stop>>
    ensures { Adds T.steps T.stops (taker.old, why.old) (taker.new, why.new) result (nodes_of (seen_words strings.now) granularity (seen_lists lists.now)) }
{
    make_room(taker, *why, Kind::Node, lists.ids.items.len())?;
    if lists.pairs.len() == 0 {
        give_bare(taker, *why, granularity, lists)
    } else {
        give_tagged(taker, why, tags, strings, granularity, lists)
    }
}

fn give_bare<T: ElementTaker>(
    taker: &mut T,
    why: Option<Why>,
    granularity: Granularity,
    lists: &Dense,
) -> Result<(), WalkErr<T::Stop>>
    ensures { Adds T.steps T.stops (taker.old, why) (taker.new, why) result (Ok (bare_nodes granularity lists.now.ids.items.items lists.now.lats.items.items lists.now.lons.items.items)) }
{
    for i in 0..lists.places() {
        give_place(taker, why, granularity, lists, i, &[])?;
    }
    Ok(())
}

fn give_tagged<'a, T: ElementTaker>(
    taker: &mut T,
    why: &mut Option<Why>,
    tags: &mut TagList<'a>,
    strings: &[Word<'a>],
    granularity: Granularity,
    lists: &Dense,
) -> Result<(), WalkErr<T::Stop>>
    ensures { Adds T.steps T.stops (taker.old, why.old) (taker.new, why.new) result (tagged_nodes (seen_words strings.now) granularity lists.now.ids.items.items lists.now.lats.items.items lists.now.lons.items.items lists.now.pairs.items) }
{
    let mut pairs = lists.pairs.as_slice();
    for i in 0..lists.places() {
        match first_run(tags, strings, pairs) {
            Ok(behind) => {
                give_place(taker, *why, granularity, lists, i, tags.tags.as_slice())?;
                pairs = behind;
            }
            Err(BlockErr::Bad(reason)) => return refuse::<T>(why, reason),
            Err(BlockErr::Memory) => return Err(WalkErr::Memory),
        }
    }
    Ok(())
}

// Gives the dense node of a place.
fn give_place<T: ElementTaker>(
    taker: &mut T,
    why: Option<Why>,
    granularity: Granularity,
    lists: &Dense,
    i: usize,
    tags: &[TagRef<'_>],
) -> Result<(), WalkErr<T::Stop>>
    requires ids { i < length lists.now.ids.items.items }
    requires lats { i < length lists.now.lats.items.items }
    requires lons { i < length lists.now.lons.items.items }
    ensures { Adds T.steps T.stops (taker.old, why) (taker.new, why) result (Ok (place_node granularity lists.now i (seen_tags tags.now) ∷ [])) }
{
    let at = granularity.place(lists.lats.items[i], lists.lons.items[i]);
    give(
        taker,
        why,
        AnyElement::Node(OsmId(lists.ids.items[i]), at, tags),
    )
}

// The number of the field of a group with the elements of a kind.
fn group_field(kind: Kind) -> u32
    ensures { result ≡ group_field kind }
{
    match kind {
        Kind::Node => GROUP_NODE,
        Kind::Way => GROUP_WAY,
        Kind::Relation => GROUP_RELATION,
    }
}
