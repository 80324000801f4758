ghost use Rattle.std.specs.Prelude.{◌≡◌, ◌+◌, ◌-◌, ◌*◌, ◌/◌, ◌%◌, ◌==◌, ◌<◌, ◌^◌, ◌≤◌, ◌++◌, All, map, IfOk, OnOk, if◌then◌else◌};
ghost use Rattle.std.specs.List.{range_with_len};
ghost use Rattle.gen_world.specs.Numbers.{draw};
ghost use Rattle.gen_world.specs.Elements.{way_of, way_draws, way_tags, street_tags, refs_of, corners_of};
ghost use Rattle.gen_world.specs.Words.{pair_of};

use crate::counts::Counts;
use crate::node::CLUSTER;
use crate::numbers::Numbers;
use crate::way_id::WayId;
use crate::word::{Tag, Word};
use std::alloc::Global;
use tb_types::Memory;

/// A way, whose nodes are of one cluster. Clusters are counted from 0.
#[derive(Clone, Copy, Drop)]
pub struct Way {
    pub id: u32,
    pub cluster: u32,
}

/// The nodes of a way by the remainder of its id by 4, counted from 1 in the cluster: a building, a street, and two parts of a ring.
const BUILDING: [u32; 7] = [1, 2, 3, 4, 5, 6, 1];

const STREET: [u32; 10] = [1, 2, 3, 4, 5, 6, 7, 8, 9, 10];

const FRONT: [u32; 4] = [1, 2, 3, 4];

const BACK: [u32; 4] = [4, 5, 6, 1];

/// Draws so many ways behind the first ones. With those they are at most 1,000,000.
pub fn draw_ways(
    alloc: Global,
    numbers: &mut Numbers,
    counts: Counts,
    first: u64,
    count: u64,
) -> Result<Vec<Way>, Memory>
    requires taken { numbers.old.taken ≡ 3 * counts.nodes + way_draws first }
    requires some { 10 ≤ counts.nodes }
    requires nodes { counts.nodes ≤ 10000000 }
    requires few { first + count ≤ 1000000 }
    ensures ways { IfOk result (λ v. v.items ≡ map (way_of numbers.old.seed counts) (range_with_len (first + 1) count)) }
    ensures near { IfOk result (λ v. All (λ w. w.cluster < 1000000) v.items) }
    ensures taken { OnOk result (numbers.new.taken ≡ 3 * counts.nodes + way_draws (first + count)) }
    ensures seed { OnOk result (numbers.new.seed ≡ numbers.old.seed) }
{
    let mut ways = Vec::with_capacity(alloc, count as usize)?;
    let clusters = counts.nodes / CLUSTER;
    for id in first + 1..first + count + 1 {
        let cluster = draw_cluster(numbers, id, clusters);
        ways.push(way_at(id, cluster))?;
    }
    Ok(ways)
}

// The way of an id and a cluster.
fn way_at(id: u64, cluster: u64) -> Way
    requires id { id < 2 ^ 32 }
    requires cluster { cluster < 2 ^ 32 }
    ensures id { result.id ≡ id }
    ensures cluster { result.cluster ≡ cluster }
{
    Way {
        id: id as u32,
        cluster: cluster as u32,
    }
}

// The cluster of a way: that of the way before it, which was drawn last, for the second part of a ring, else another draw.
fn draw_cluster(numbers: &mut Numbers, id: u64, clusters: u64) -> u64
    requires some { 0 < clusters }
    requires room { numbers.old.taken < 2 ^ 63 }
    ensures drawn { result ≡ draw numbers.new.seed numbers.new.taken clusters }
    ensures below { result < clusters }
    ensures taken { numbers.new.taken ≡ (if id % 4 == 3 then numbers.old.taken else numbers.old.taken + 1) }
    ensures seed { numbers.new.seed ≡ numbers.old.seed }
{
    if id % 4 == 3 {
        return numbers.latest(clusters);
    }
    numbers.draw(clusters)
}

impl Way {
    /// Appends the tags of the way.
    #[tactic(auto, unfolding(crate::specs::Elements::way_tags, crate::specs::Words::text_of))]
    pub fn put_tags(&self, tags: &mut Vec<Tag>) -> Result<(), Memory>
        ensures { OnOk result (map pair_of tags.new.items ≡ map pair_of tags.old.items ++ way_tags self.now) }
    {
        let kind = self.id % 4;
        if kind == 0 {
            tags.push(Tag::new(Word::Building, Word::Yes))?;
            return Ok(());
        }
        if kind == 1 {
            return put_street_tags(tags, self.id);
        }
        Ok(())
    }

    /// Appends the ids of the nodes of the way. Its cluster is below 1,000,000.
    pub fn put_refs(&self, refs: &mut Vec<i32>) -> Result<(), Memory>
        requires { self.now.cluster < 1000000 }
        ensures { OnOk result (refs.new.items ≡ refs.old.items ++ refs_of self.now) }
    {
        for corner in corners_of(self.id) {
            refs.push((10 * self.cluster + *corner) as i32)?;
        }
        Ok(())
    }
}

// Appends the tags of the street of an id.
#[tactic(auto, unfolding(crate::specs::Elements::street_tags, crate::specs::Words::text_of))]
fn put_street_tags(tags: &mut Vec<Tag>, id: u32) -> Result<(), Memory>
    ensures { OnOk result (map pair_of tags.new.items ≡ map pair_of tags.old.items ++ street_tags id) }
{
    tags.push(Tag::new(Word::Highway, Word::Residential))?;
    tags.push(Tag::new(Word::Name, Word::WayName(WayId { id })))?;
    Ok(())
}

// The nodes of the way of an id, counted from 1 in its cluster.
#[tactic(auto, unfolding(crate::specs::Elements::corners_of))]
fn corners_of(id: u32) -> &'static [u32]
    ensures corners { result.now ≡ corners_of id }
    ensures within { All (λ corner. corner ≤ 10) result.now }
{
    let kind = id % 4;
    if kind == 0 {
        return &BUILDING;
    }
    if kind == 1 {
        return &STREET;
    }
    if kind == 2 {
        return &FRONT;
    }
    &BACK
}
