ghost use Rattle.std.specs.Prelude.{◌≡◌, ◌-◌, ◌≤◌, ◌++◌, All, IfOk, OnOk, length, take, drop, reverse, option_map};
ghost use Rattle.ring_assembly.specs.Chains.{extended, ring_of, assembled};
ghost use Rattle.ring_assembly.specs.Counts.{IsRing, points_of_ways, points_of_rings};
ghost use Rattle.ring_assembly.specs.Search.{unused_of, grown_from, chain, closed_points, StaysUsed, IsIndexed};

use super::clean::cleaned;
use super::unused::Unused;
use super::way::{WayShape, is_same_node};
use std::alloc::Global;
use tb_types::{Memory, OsmId, Seq, World};

/// The rings of ways, which stand in member order. As long as ways are unused, the lowest begins a chain; as long as the
/// chain's last node isn't its first, the lowest unused way that has it as its first or last node is put behind the chain,
/// reversed where only its last node is it. A way whose first and last node are one is a chain of its own and part of no
/// other. A chain that closes is a ring; one that can't is dropped with its ways.
///
/// A ring's points are those of its chain, each joint once, without the last. Repeated neighbours go, also round its end,
/// where the first point stays; then rings of fewer than 3 points or without area go. `Memory` is want of memory.
///
/// It takes some n log n steps for n ways and points, however many ways meet in a node.
pub fn assemble(alloc: Global, ways: &[WayShape]) -> Result<Seq<Seq<World>>, Memory>
    ensures exact { IfOk result (λ rings. rings ≡ assembled ways.now) }

    // Rings have three points or more and some area. They have no more points than the ways.
    ensures rings { IfOk result (λ rings. All IsRing rings) }
    ensures few { IfOk result (λ rings. points_of_rings rings ≤ points_of_ways ways.now) }
{
    all_rings(alloc, ways)
}

// The rings of ways.
fn all_rings(alloc: Global, ways: &[WayShape]) -> Result<Seq<Seq<World>>, Memory>
    ensures { IfOk result (λ rings. rings ≡ assembled ways.now) }
{
    let mut unused = Unused::new(alloc, ways)?;
    let mut rings = Seq::new(alloc);
    for (number, way) in ways.iter().enumerate() {
        if unused.take_number(ways, number) {
            match next_ring(alloc, ways, &mut unused, way)? {
                Some(ring) => rings.push(ring)?,
                None => {}
            }
        }
    }
    Ok(rings)
}

// The ring of the chain that a way begins, if it closes and has area.
fn next_ring(
    alloc: Global,
    ways: &[WayShape],
    unused: &mut Unused,
    way: &WayShape,
) -> Result<Option<Seq<World>>, Memory>
    requires { IsIndexed ways.now unused.old.used.items unused.old.ends.items unused.old.next.items }
    ensures indexed { OnOk result (IsIndexed ways.now unused.new.used.items unused.new.ends.items unused.new.next.items) }
    ensures stays { OnOk result (StaysUsed unused.old.used.items unused.new.used.items) }
    ensures rest { OnOk result (unused_of unused.new.used.items ways.now ≡ (grown_from ways.now unused.old.used.items way.now).1) }
    ensures ring { IfOk result (λ ring. ring ≡ ring_of (grown_from ways.now unused.old.used.items way.now).0) }
{
    match closed_chain(alloc, ways, unused, way)? {
        Some(points) => cleaned(alloc, without_last(&points)),
        None => Ok(None),
    }
}

fn without_last(points: &[World]) -> &[World]
    ensures { result.now ≡ take (length points.now - 1) points.now }
{
    &points[..points.len().saturating_sub(1)]
}

// The points of the chain that a way begins, if it closes.
fn closed_chain(
    alloc: Global,
    ways: &[WayShape],
    unused: &mut Unused,
    way: &WayShape,
) -> Result<Option<Vec<World>>, Memory>
    requires { IsIndexed ways.now unused.old.used.items unused.old.ends.items unused.old.next.items }
    ensures indexed { OnOk result (IsIndexed ways.now unused.new.used.items unused.new.ends.items unused.new.next.items) }
    ensures stays { OnOk result (StaysUsed unused.old.used.items unused.new.used.items) }
    ensures rest { OnOk result (unused_of unused.new.used.items ways.now ≡ (grown_from ways.now unused.old.used.items way.now).1) }
    ensures points { IfOk result (λ found. option_map (λ points. points.items) found ≡ closed_points (grown_from ways.now unused.old.used.items way.now).0) }
{
    let mut end = way.last;
    let mut points = Vec::new(alloc);
    points.extend_from_slice(way.points.as_slice())?;
    while !is_same_node(way.first, end) {
        match unused.take(ways, end) {
            Some(next) => end = append(&mut points, end, next)?,
            None => return Ok(None),
        }
    }
    Ok(Some(points))
}

// Puts a way behind the points of a chain with this end, and answers the chain's new end.
fn append(points: &mut Vec<World>, end: OsmId, way: &WayShape) -> Result<OsmId, Memory>
    ensures { IfOk result (λ last. (start : OsmId) → chain start last points.new.items ≡ extended (chain start end points.old.items) way.now) }
{
    let more = way.points.as_slice();
    if is_same_node(end, way.first) {
        append_forward(points, more)?;
        return Ok(way.last);
    }
    append_backward(points, more)?;
    Ok(way.first)
}

// Puts points behind others, without the first.
fn append_forward(points: &mut Vec<World>, more: &[World]) -> Result<(), Memory>
    ensures { OnOk result (points.new.items ≡ points.old.items ++ drop 1 more.now) }
{
    let (_joint, rest) = more.split_at(more.len().min(1));
    points.extend_from_slice(rest)?;
    Ok(())
}

// Puts points behind others from the last to the first, without the last.
fn append_backward(points: &mut Vec<World>, more: &[World]) -> Result<(), Memory>
    ensures { OnOk result (points.new.items ≡ points.old.items ++ drop 1 (reverse more.now)) }
{
    points.reserve(more.len())?;
    let mut at = more.len().saturating_sub(1);
    while at > 0 {
        at -= 1;
        points.push(more[at])?;
    }
    Ok(())
}
