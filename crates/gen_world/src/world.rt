ghost use Rattle.std.specs.Prelude.{◌≡◌, ℕ, List, [], ◌∷◌, ◌+◌, ◌-◌, ◌≤◌, ◌<◌, ◌*◌, ◌^◌, min, drop, length, IfOk, IfSome, IfNone, OnOk, OnErr};
ghost use Rattle.std.specs.List.{concat};
ghost use Rattle.gen_world.specs.Frames.{frames_of, frames_with, frames_for, node_frame, way_frame, relation_frame};
ghost use Rattle.gen_world.specs.Elements.{way_draws};
ghost use Rattle.gen_world.specs.Draws.{draws_before, frame_count, AreCounts};

use crate::block::{node_block, relation_block, way_block};
use crate::counts::{Counts, counts_of};
use crate::frame::{data_frame, header_frame};
use crate::node::draw_nodes;
use crate::numbers::Numbers;
use crate::relation::draw_relations;
use crate::way::draw_ways;
use std::alloc::Global;
use std::marker::Model;
use tb_types::Memory;

/// How many elements a frame has, unless it is the last of its kind.
const FRAME: u64 = 200;

/// A generated extract, seen as the frames that are still to come.
#[derive(Drop)]
pub struct GenWorld {
    alloc: Global,
    counts: Counts,
    numbers: Numbers,
    given: u64,
}

impl Model for GenWorld {
    ghost Value = { List (List ℕ) };

    ghost view = { λ w. drop w.given (frames_with w.numbers.seed w.counts) };

    ghost invariant = { λ w. (w.numbers.taken ≡ draws_before w.counts w.given) × AreCounts w.counts × (w.given ≤ frame_count w.counts) };
}

/// The extract of a seed, of 100 to 10,000,000 elements.
#[tactic(auto, unfolding(crate::specs::Frames::frames_of))]
pub fn gen_blocks(alloc: Global, seed: u64, count: u64) -> Result<GenWorld, Memory>
    requires least { 100 ≤ count }
    requires most { count ≤ 10000000 }
    ensures frames { IfOk result (λ w. w ≡ frames_of seed count) }

    // They are few, and so are their bytes.
    ensures few { IfOk result (λ w. length w < 2 ^ 20) }
    ensures short { IfOk result (λ w. length (concat w) < 2 ^ 40) }
{
    Ok(GenWorld {
        alloc,
        counts: counts_of(count),
        numbers: Numbers::new(seed),
        given: 0,
    })
}

impl GenWorld {
    /// The next frame, or `None` exactly after the last. Where memory is wanted, the same frames are still to come.
    pub fn next_frame(&mut self) -> Result<Option<Vec<u8>>, Memory>
        ensures some { IfOk result (λ found. IfSome found (λ frame. self.old ≡ frame.items ∷ self.new)) }
        ensures none { IfOk result (λ found. IfNone found (self.old ≡ [])) }
        ensures end { IfOk result (λ found. IfNone found (self.new ≡ [])) }
        ensures err { OnErr result (self.new ≡ self.old) }
    {
        let mut numbers = self.numbers;
        match frame_at(self.alloc, &mut numbers, self.counts, self.given)? {
            None => Ok(None),
            Some(frame) => {
                self.numbers = numbers;
                self.given += 1;
                Ok(Some(frame))
            }
        }
    }
}

// The frame behind so many, or none where those are all.
fn frame_at(
    alloc: Global,
    numbers: &mut Numbers,
    counts: Counts,
    given: u64,
) -> Result<Option<Vec<u8>>, Memory>
    requires counts { AreCounts counts }
    requires taken { numbers.old.taken ≡ draws_before counts given }
    ensures some { IfOk result (λ found. IfSome found (λ frame. drop given (frames_with numbers.old.seed counts) ≡ frame.items ∷ drop (given + 1) (frames_with numbers.old.seed counts))) }
    ensures none { IfOk result (λ found. IfNone found (drop given (frames_with numbers.old.seed counts) ≡ [])) }
    ensures taken { IfOk result (λ found. IfSome found (λ _. numbers.new.taken ≡ draws_before counts (given + 1))) }
    ensures within { IfOk result (λ found. IfSome found (λ _. given < frame_count counts)) }
    ensures seed { OnOk result (numbers.new.seed ≡ numbers.old.seed) }
{
    if given == 0 {
        return Ok(Some(header_frame(alloc)?));
    }
    let nodes = frames_for(counts.nodes);
    let ways = frames_for(counts.ways);
    let relations = frames_for(counts.relations);
    let at = given - 1;
    if at < nodes {
        return Ok(Some(node_frame(alloc, numbers, counts, at)?));
    }
    if at < nodes + ways {
        return Ok(Some(way_frame(alloc, numbers, counts, at - nodes)?));
    }
    if at < nodes + ways + relations {
        return Ok(Some(relation_frame(alloc, numbers, counts, at - nodes - ways)?));
    }
    Ok(None)
}

// How many frames so many elements take.
#[tactic(auto, unfolding(crate::specs::Frames::frames_for))]
fn frames_for(elements: u64) -> u64
    requires { elements ≤ 10000000 }
    ensures { result ≡ frames_for elements }
{
    (elements + (FRAME - 1)) / FRAME
}

// How many elements the frame behind so many frames has.
fn size_of(elements: u64, frame: u64) -> u64
    requires frame { frame ≤ 10000000 }
    requires some { 200 * frame ≤ elements }
    ensures { result ≡ min 200 (elements - 200 * frame) }
{
    FRAME.min(elements - FRAME * frame)
}

// The frame of nodes behind so many frames of nodes.
#[tactic(auto, unfolding(crate::specs::Frames::node_frame))]
fn node_frame(
    alloc: Global,
    numbers: &mut Numbers,
    counts: Counts,
    frame: u64,
) -> Result<Vec<u8>, Memory>
    requires counts { AreCounts counts }
    requires within { 200 * frame < counts.nodes }
    requires taken { numbers.old.taken ≡ 3 * (200 * frame) }
    ensures text { IfOk result (λ v. v.items ≡ node_frame numbers.old.seed counts frame) }
    ensures taken { OnOk result (numbers.new.taken ≡ 3 * (200 * frame + min 200 (counts.nodes - 200 * frame))) }
    ensures seed { OnOk result (numbers.new.seed ≡ numbers.old.seed) }
{
    let count = size_of(counts.nodes, frame);
    let nodes = draw_nodes(alloc, numbers, FRAME * frame, count)?;
    let block = node_block(alloc, &nodes)?;
    data_frame(alloc, &block)
}

// The frame of ways behind so many frames of ways.
#[tactic(auto, unfolding(crate::specs::Frames::way_frame))]
fn way_frame(
    alloc: Global,
    numbers: &mut Numbers,
    counts: Counts,
    frame: u64,
) -> Result<Vec<u8>, Memory>
    requires counts { AreCounts counts }
    requires within { 200 * frame < counts.ways }
    requires taken { numbers.old.taken ≡ 3 * counts.nodes + way_draws (200 * frame) }
    ensures text { IfOk result (λ v. v.items ≡ way_frame numbers.old.seed counts frame) }
    ensures taken { OnOk result (numbers.new.taken ≡ 3 * counts.nodes + way_draws (200 * frame + min 200 (counts.ways - 200 * frame))) }
    ensures seed { OnOk result (numbers.new.seed ≡ numbers.old.seed) }
{
    let count = size_of(counts.ways, frame);
    let ways = draw_ways(alloc, numbers, counts, FRAME * frame, count)?;
    let block = way_block(alloc, &ways)?;
    data_frame(alloc, &block)
}

// The frame of relations behind so many frames of relations.
#[tactic(auto, unfolding(crate::specs::Frames::relation_frame))]
fn relation_frame(
    alloc: Global,
    numbers: &mut Numbers,
    counts: Counts,
    frame: u64,
) -> Result<Vec<u8>, Memory>
    requires counts { AreCounts counts }
    requires within { 200 * frame < counts.relations }
    requires taken { numbers.old.taken ≡ 3 * counts.nodes + way_draws counts.ways + 200 * frame }
    ensures text { IfOk result (λ v. v.items ≡ relation_frame numbers.old.seed counts frame) }
    ensures taken { OnOk result (numbers.new.taken ≡ 3 * counts.nodes + way_draws counts.ways + (200 * frame + min 200 (counts.relations - 200 * frame))) }
    ensures seed { OnOk result (numbers.new.seed ≡ numbers.old.seed) }
{
    let count = size_of(counts.relations, frame);
    let relations = draw_relations(alloc, numbers, counts, FRAME * frame, count)?;
    let block = relation_block(alloc, &relations)?;
    data_frame(alloc, &block)
}
