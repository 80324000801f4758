ghost use Rattle.std.specs.Prelude.{◌≡◌, ◌≢◌, ◌+◌, ◌-◌, ◌*◌, ◌%◌, ◌<◌, ◌≤◌, ◌++◌, map, IfOk, OnOk, pos, if◌then◌else◌, ◌==◌};
ghost use Rattle.std.specs.List.{range_with_len};
ghost use Rattle.gen_world.specs.Numbers.{draw};
ghost use Rattle.gen_world.specs.Elements.{node_of, amenity_of, amenity_tags};
ghost use Rattle.gen_world.specs.Words.{pair_of};
ghost use Rattle.gen_world.specs.Places.{place_of, corner_of, IsNear};

use crate::numbers::Numbers;
use crate::word::{Tag, Word};
use std::alloc::Global;
use tb_types::Memory;

/// A node has a tag, or none.
#[derive(Clone, Copy, Debug, PartialEq, Eq)]
pub enum Amenity {
    Cafe,
    Bench,
}

/// A node: its place in units of 100 nanodegrees.
#[derive(Clone, Copy, Drop)]
pub struct Node {
    pub id: i32,
    pub lat: i32,
    pub lon: i32,
    pub amenity: Option<Amenity>,
}

/// A place in units of 100 nanodegrees.
#[derive(Clone, Copy)]
pub struct Spot {
    pub lat: i32,
    pub lon: i32,
}

/// How many nodes a cluster has.
pub const CLUSTER: u64 = 10;

/// How far the first node of a cluster is from 0, and each other one from the first, at most.
const FAR: u32 = 80_000_000;

const NEAR: u32 = 1_000_000;

/// Draws so many nodes behind the first ones. With those they are at most 10,000,000.
pub fn draw_nodes(
    alloc: Global,
    numbers: &mut Numbers,
    first: u64,
    count: u64,
) -> Result<Vec<Node>, Memory>
    requires taken { numbers.old.taken ≡ 3 * first }
    requires whole { first % 10 ≡ 0 }
    requires few { first + count ≤ 10000000 }
    ensures nodes { IfOk result (λ v. v.items ≡ map (node_of numbers.old.seed) (range_with_len first count)) }
    ensures taken { OnOk result (numbers.new.taken ≡ 3 * (first + count)) }
    ensures seed { OnOk result (numbers.new.seed ≡ numbers.old.seed) }
{
    let mut nodes = Vec::with_capacity(alloc, count as usize)?;
    let mut corner = Spot { lat: 0, lon: 0 };
    for index in first..first + count {
        let spot = draw_spot(numbers, index, corner);
        let kind = numbers.draw(4);
        nodes.push(node_at(index, spot, kind))?;
        corner = corner_behind(index, spot, corner);
    }
    Ok(nodes)
}

// The node behind the first `index` ones, at a place, with the tag that was drawn.
fn node_at(index: u64, spot: Spot, kind: u64) -> Node
    requires { index < 10000000 }
    ensures id { result.id ≡ pos (index + 1) }
    ensures lat { result.lat ≡ spot.lat }
    ensures lon { result.lon ≡ spot.lon }
    ensures amenity { result.amenity ≡ amenity_of kind }
{
    Node {
        id: (index + 1) as i32,
        lat: spot.lat,
        lon: spot.lon,
        amenity: amenity_of(kind),
    }
}

// The place of the node behind the first `index` ones, whose cluster has this corner, if it isn't the first there.
fn draw_spot(numbers: &mut Numbers, index: u64, corner: Spot) -> Spot
    requires taken { numbers.old.taken ≡ 3 * index }
    requires few { index < 10000000 }
    requires corner { index % 10 ≢ 0 → corner ≡ corner_of numbers.old.seed index }
    requires within { IsNear corner }
    ensures spot { result ≡ place_of numbers.old.seed index }
    ensures within { index % 10 ≡ 0 → IsNear result }
    ensures taken { numbers.new.taken ≡ 3 * index + 2 }
    ensures seed { numbers.new.seed ≡ numbers.old.seed }
{
    if index % CLUSTER == 0 {
        let lat = numbers.around(FAR);
        let lon = numbers.around(FAR);
        return Spot { lat, lon };
    }
    let lat = corner.lat + numbers.around(NEAR);
    let lon = corner.lon + numbers.around(NEAR);
    Spot { lat, lon }
}

// The corner of a node's cluster, with which its next one goes on.
fn corner_behind(index: u64, spot: Spot, corner: Spot) -> Spot
    ensures { result ≡ (if index % 10 == 0 then spot else corner) }
{
    if index % CLUSTER == 0 { spot } else { corner }
}

fn amenity_of(kind: u64) -> Option<Amenity>
    ensures { result ≡ amenity_of kind }
{
    match kind {
        0 => Some(Amenity::Cafe),
        1 => Some(Amenity::Bench),
        _ => None,
    }
}

impl Node {
    /// Appends the tags of the node.
    #[tactic(auto, unfolding(crate::specs::Elements::amenity_tags, crate::specs::Words::text_of))]
    pub fn put_tags(&self, tags: &mut Vec<Tag>) -> Result<(), Memory>
        ensures { OnOk result (map pair_of tags.new.items ≡ map pair_of tags.old.items ++ amenity_tags self.now.amenity) }
    {
        match self.amenity {
            None => {}
            Some(Amenity::Cafe) => tags.push(Tag::new(Word::Amenity, Word::Cafe))?,
            Some(Amenity::Bench) => tags.push(Tag::new(Word::Amenity, Word::Bench))?,
        }
        Ok(())
    }
}
