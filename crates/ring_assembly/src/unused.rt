ghost use Rattle.std.specs.Prelude.{◌≡◌, ℕ, ◌+◌, ◌*◌, ◌/◌, ◌%◌, ◌^◌, ◌<◌, ◌≤◌, ◌∷◌, true, false, Some, None, All, IfOk, IfNone, MatchOption, FitsSigned, length, replicate, slice_index, slice_index_or};
ghost use Rattle.std.specs.Int.{w64};
ghost use Rattle.std.specs.List.Sorted.{IsNonDecreasing};
ghost use Rattle.ring_assembly.specs.Chains.{first_fit};
ghost use Rattle.ring_assembly.specs.Search.{unused_of, node_number, end_number, IsUsed, StaysUsed, IsUsedBelow, IsEnd, HasEnds, IsIndexed};

use super::way::{WayShape, is_same_node};
use std::alloc::Global;
use tb_types::{Memory, OsmId};

// The ways that aren't used yet: a mark for each way, the ends of all ways, and the index from which an end of an unused way
// is looked for.
#[derive(Drop)]
pub struct Unused {
    used: Vec<bool>,
    // Each end of a way that isn't a ring by itself, as one number: its node's, and below that its way's. In ascending order
    // the ends at a node stand together, by way.
    ends: Vec<u128>,
    // At the index of a node's first end, the index of its first end of which the way may be unused.
    next: Vec<usize>,
}

impl Unused {
    // All ways.
    pub fn new(alloc: Global, ways: &[WayShape]) -> Result<Unused, Memory>
        ensures indexed { IfOk result (λ unused. IsIndexed ways.now unused.used.items unused.ends.items unused.next.items) }
        ensures all { IfOk result (λ unused. unused_of unused.used.items ways.now ≡ ways.now) }
    {
        let used = no_marks(alloc, ways.len())?;
        let mut ends = ends_of(alloc, ways)?;
        ends.sort_unstable();
        let next = indexes(alloc, ends.len())?;
        Ok(Unused { used, ends, next })
    }

    // Marks a way as used, by its number, if it isn't, and says whether it was unused.
    pub fn take_number(&mut self, ways: &[WayShape], number: usize) -> bool
        requires indexed { IsIndexed ways.now self.old.used.items self.old.ends.items self.old.next.items }
        requires within { number < length ways.now }
        requires below { IsUsedBelow number self.old.used.items }
        ensures indexed { IsIndexed ways.now self.new.used.items self.new.ends.items self.new.next.items }
        ensures below { IsUsedBelow (number + 1) self.new.used.items }
        ensures taken { result ≡ true → (d : WayShape) → unused_of self.old.used.items ways.now ≡ slice_index_or ways.now number d ∷ unused_of self.new.used.items ways.now }
        ensures kept { result ≡ false → self.new.used.items ≡ self.old.used.items }
    {
        if self.used[number] {
            return false;
        }
        self.used[number] = true;
        true
    }

    // The lowest unused way that fits a node, which is used from now on.
    pub fn take<'a>(&mut self, ways: &'a [WayShape], node: OsmId) -> Option<&'a WayShape>
        requires indexed { IsIndexed ways.now self.old.used.items self.old.ends.items self.old.next.items }
        ensures indexed { IsIndexed ways.now self.new.used.items self.new.ends.items self.new.next.items }
        ensures stays { StaysUsed self.old.used.items self.new.used.items }
        ensures kept { IfNone result (self.new.used.items ≡ self.old.used.items) }
        ensures lowest { MatchOption result
            (first_fit node (unused_of self.old.used.items ways.now) ≡ None)
            (λ way. first_fit node (unused_of self.old.used.items ways.now) ≡ Some (way.now, unused_of self.new.used.items ways.now)) }
    {
        let first = self.first_end(node);
        if first == self.ends.len() {
            return None;
        }
        let at = self.unused_end(self.next[first], node);
        self.next[first] = at;
        if at >= self.ends.len() {
            return None;
        }
        if node_of(self.ends[at]) != node_number(node) {
            return None;
        }
        let way = way_of(self.ends[at]);
        self.used[way] = true;
        Some(&ways[way])
    }

    // The index of the first end at a node or a later one.
    fn first_end(&self, node: OsmId) -> usize
        requires { IsNonDecreasing self.now.ends.items }
        ensures fits { FitsSigned w64 node.0 }
        ensures within { result ≤ length self.now.ends.items }
        ensures before { (p : ℕ) → p < result → slice_index self.now.ends.items p / 2 ^ 64 < node_number node }
        ensures after { (p : ℕ) → result ≤ p → p < length self.now.ends.items → node_number node ≤ slice_index self.now.ends.items p / 2 ^ 64 }
    {
        let number = node_number(node);
        let mut low = 0;
        let mut high = self.ends.len();
        while low < high {
            let mid = low + (high - low) / 2;
            if node_of(self.ends[mid]) < number {
                low = mid + 1;
            } else {
                high = mid;
            }
        }
        low
    }

    // The first index from one on that has no end at a node, or one of an unused way.
    fn unused_end(&self, from: usize, node: OsmId) -> usize
        ensures after { from ≤ result }
        ensures skipped { (p : ℕ) → from ≤ p → p < result → IsUsed self.now.used.items (slice_index self.now.ends.items p % 2 ^ 64) }
        ensures stops { result < length self.now.ends.items → slice_index self.now.ends.items result / 2 ^ 64 ≡ node_number node
            → slice_index_or self.now.used.items (slice_index self.now.ends.items result % 2 ^ 64) true ≡ false }
    {
        let number = node_number(node);
        let mut at = from;
        while at < self.ends.len() {
            let end = self.ends[at];
            if node_of(end) != number || !is_used(&self.used, way_of(end)) {
                return at;
            }
            at += 1;
        }
        at
    }
}

// The ends of all ways that aren't rings by themselves.
fn ends_of(alloc: Global, ways: &[WayShape]) -> Result<Vec<u128>, Memory>
    ensures sound { IfOk result (λ ends. All (IsEnd ways.now) ends.items) }
    ensures complete { IfOk result (λ ends. HasEnds ways.now (length ways.now) ends.items) }
{
    let mut ends = Vec::new(alloc);
    for (number, way) in ways.iter().enumerate() {
        if !is_same_node(way.first, way.last) {
            ends.push(end(way.first, number))?;
            ends.push(end(way.last, number))?;
        }
    }
    Ok(ends)
}

// No mark for any of n ways.
#[tactic(auto, using(std::proofs::lemmas::List::replicate_more))]
fn no_marks(alloc: Global, n: usize) -> Result<Vec<bool>, Memory>
    ensures { IfOk result (λ marks. marks.items ≡ replicate n false) }
{
    let mut marks = Vec::with_capacity(alloc, n)?;
    for _way in 0..n {
        marks.push(false)?;
    }
    Ok(marks)
}

// The numbers below n.
fn indexes(alloc: Global, n: usize) -> Result<Vec<usize>, Memory>
    ensures count { IfOk result (λ indexes. length indexes.items ≡ n) }
    ensures below { IfOk result (λ indexes. (s : ℕ) → slice_index indexes.items s ≤ s) }
    ensures each { IfOk result (λ indexes. (s : ℕ) → s < n → s ≤ slice_index indexes.items s) }
{
    let mut indexes = Vec::with_capacity(alloc, n)?;
    for index in 0..n {
        indexes.push(index)?;
    }
    Ok(indexes)
}

fn is_used(used: &[bool], way: usize) -> bool
    ensures { result ≡ slice_index_or used.now way true }
{
    way >= used.len() || used[way]
}

// The number of an end.
fn end(node: OsmId, way: usize) -> u128
    ensures exact { result ≡ end_number node way }
    ensures node { result / 2 ^ 64 ≡ node_number node }
    ensures way { result % 2 ^ 64 ≡ way }
    ensures fits { FitsSigned w64 node.0 }
{
    u128::from(node_number(node)) * 2u128.pow(64) + way as u128
}

// The number of a node.
#[tactic(auto, unfolding(crate::specs::Search::node_number))]
fn node_number(node: OsmId) -> u64
    ensures exact { result ≡ node_number node }
    ensures fits { FitsSigned w64 node.0 }
{
    let size = node.0.unsigned_abs();
    if node.0 < 0 {
        2u64.pow(63) - size
    } else {
        2u64.pow(63) + size
    }
}

// The number of the node of an end, and that of its way.
fn node_of(end: u128) -> u64
    ensures { result ≡ end / 2 ^ 64 }
{
    (end / 2u128.pow(64)) as u64
}

fn way_of(end: u128) -> usize
    ensures { result ≡ end % 2 ^ 64 }
{
    (end % 2u128.pow(64)) as usize
}
