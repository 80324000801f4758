ghost use Rattle.std.specs.Prelude.{◌≡◌, ◌+◌, ◌-◌, ◌<◌, ◌≤◌, All, IfOk, MatchOption, None, length, slice_get, slice_range};
ghost use Rattle.line_simplify.specs.Key.{IsOnGrid};
ghost use Rattle.line_simplify.specs.Rule.{split_of, point, simplified, IsSplitAt};

use super::farthest::farthest;
use std::alloc::Global;
use tb_types::{Grid, Memory, Seq};

/// The points that a path keeps: its ends, and of each part the point that lies farthest from it, of equals the first, if
/// that is farther than the tolerance; then likewise in the parts on both sides of it. The tolerance counts in units of the
/// grid. With tolerance 0, points on a straight line between the points that are kept go.
///
/// Coordinates lie within 0 and 2^28, and the tolerance is at most 64. `Memory` is want of memory. On a line that isn't
/// contrived, it takes about n log n steps.
pub fn simplify(alloc: Global, path: &[Grid], tolerance: u32) -> Result<Seq<Grid>, Memory>
    requires points { All IsOnGrid path.now }
    requires tolerance { tolerance ≤ 64 }
    ensures exact { IfOk result (λ points. points ≡ simplified tolerance path.now) }

    // A path of at most two points is itself. Both ends stay, and nothing is added.
    ensures short { length path.now ≤ 2 → IfOk result (λ points. points ≡ path.now) }
    ensures first { IfOk result (λ points. slice_get points 0 ≡ slice_get path.now 0) }
    ensures last { IfOk result (λ points. slice_get points (length points - 1) ≡ slice_get path.now (length path.now - 1)) }
    ensures line { 2 ≤ length path.now → IfOk result (λ points. 2 ≤ length points) }
    ensures fewer { IfOk result (λ points. length points ≤ length path.now) }
    ensures points { IfOk result (λ points. All IsOnGrid points) }
{
    if path.len() < 2 {
        let mut all = Vec::new(alloc);
        all.extend_from_slice(path)?;
        return Ok(Seq::from_vec(all));
    }
    Ok(Seq::from_vec(keep(alloc, path, tolerance)?))
}

// The points that a line keeps. The parts that are still to be treated follow on each other, so a stack of their ends is
// enough: the next part begins at the point that was kept last, and ends at the top of the stack.
fn keep(alloc: Global, path: &[Grid], tolerance: u32) -> Result<Vec<Grid>, Memory>
    requires points { All IsOnGrid path.now }
    requires tolerance { tolerance ≤ 64 }
    requires line { 2 ≤ length path.now }
    ensures { IfOk result (λ points. points.items ≡ simplified tolerance path.now) }
{
    let mut kept = Vec::new(alloc);
    kept.push(path[0])?;
    let mut from = 0;
    let mut ends = Vec::new(alloc);
    ends.push(path.len() - 1)?;
    while let Some(to) = ends.pop() {
        match split(path, from, to, tolerance) {
            Some(at) => {
                ends.push(to)?;
                ends.push(at)?;
            }
            None => {
                kept.push(path[to])?;
                from = to;
            }
        }
    }
    Ok(kept)
}

// The place at which the part between two places is split, if a point of it is kept.
fn split(path: &[Grid], from: usize, to: usize, tolerance: u32) -> Option<usize>
    requires points { All IsOnGrid path.now }
    requires tolerance { tolerance ≤ 64 }
    requires order { from < to }
    requires within { to < length path.now }
    ensures { MatchOption result
        (split_of tolerance (point path.now from) (slice_range path.now (from + 1) to) (point path.now to) ≡ None)
        (λ at. IsSplitAt tolerance path.now from at to) }
{
    let index = farthest(path[from], &path[from + 1..to], path[to], tolerance)?;
    Some(from + 1 + index)
}

#[cfg(test)]
mod tests;
