ghost use Rattle.std.specs.Prelude.{◌≡◌, take, drop, IfOk};
ghost use Rattle.ring_assembly.specs.Envelopes.{end_of, AreOnRing, IsOutline};

use super::envelope::{Envelope, envelope_from};
use std::alloc::Global;
use tb_types::{Memory, World};

/// How many points a stretch of a ring goes over, behind that where it begins.
const STRETCH: usize = 64;

/// A box around a ring, and boxes around its stretches from the first point on. Up to 64 points behind them have no box of their own.
#[derive(Debug, Drop)]
pub struct Outline {
    pub whole: Envelope,
    pub stretches: Vec<Envelope>,
}

// The boxes of a ring.
pub fn outline_of(alloc: Global, ring: &[World]) -> Result<Outline, Memory>
    ensures { IfOk result (λ outline. IsOutline outline ring.now) }
{
    let stretches = stretches_of(alloc, ring)?;
    let whole = match ring.split_first() {
        Some((first, rest)) => envelope_from(*first, rest),
        None => envelope_from(World { x: 0, y: 0 }, ring),
    };
    Ok(Outline { whole, stretches })
}

// The boxes of the stretches of a ring.
fn stretches_of(alloc: Global, ring: &[World]) -> Result<Vec<Envelope>, Memory>
    ensures { IfOk result (λ boxes. AreOnRing boxes.items ring.now) }
{
    let mut boxes = Vec::new(alloc);
    let Some((first, rest)) = ring.split_first() else {
        return Ok(boxes);
    };
    let mut from = *first;
    let mut left = rest;
    while left.len() > STRETCH {
        let (stretch, more) = split_stretch(left);
        boxes.push(envelope_from(from, stretch))?;
        from = end_of(from, stretch);
        left = more;
    }
    Ok(boxes)
}

// The next stretch of a path, and what is behind it.
pub fn split_stretch(path: &[World]) -> (&[World], &[World])
    ensures stretch { result.0.now ≡ take 64 path.now }
    ensures more { result.1.now ≡ drop 64 path.now }
{
    path.split_at(STRETCH.min(path.len()))
}

// Where a path ends.
#[tactic(auto, using(crate::proofs::Paths::end_last))]
pub fn end_of(from: World, path: &[World]) -> World
    ensures { result ≡ end_of from path.now }
{
    if path.is_empty() {
        return from;
    }
    path[path.len() - 1]
}
