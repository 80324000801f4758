//! What a lane has in hand.
ghost use Rattle.std.specs.Prelude.{◌≡◌, ◌<◌, length, replicate, IfOk};
ghost use Rattle.flow_core.specs.Lanes.{fresh_lane, with_own, with_work, with_over};

use std::alloc::{AllocError, Global};

/// The unit that a lane has claimed and not yet pushed.
#[derive(Clone, Copy, Debug, PartialEq, Eq)]
pub enum Own {
    Free,
    Claimed(u32),
    Booked(u32),
    Loaded(u32),
}

/// The unit that a lane has popped and not yet done.
#[derive(Clone, Copy, Debug, PartialEq, Eq)]
pub enum Work {
    Idle,
    Popped(u32),
    Stored(u32),
    Emitted(u32),
}

/// A lane: its own unit, the unit that it works, and whether it has found no unit left.
#[derive(Clone, Copy, Debug, PartialEq, Eq)]
pub struct LaneState {
    pub own: Own,
    pub work: Work,
    pub over: bool,
}

/// A unit in one of the machine's lists, with the lane that put it there.
#[derive(Clone, Copy, Debug, PartialEq, Eq)]
pub struct Entry {
    pub lane: u32,
    pub unit: u32,
}

/// Lanes with nothing in hand, none of them over.
pub(crate) fn fresh_lanes(alloc: Global, count: u32) -> Result<Vec<LaneState>, AllocError>
    ensures { IfOk result (λ lanes. lanes.items ≡ replicate count fresh_lane) }
{
    let fresh = LaneState {
        own: Own::Free,
        work: Work::Idle,
        over: false,
    };
    let mut lanes = Vec::with_capacity(alloc, count as usize)?;
    for _lane in 0..count {
        lanes.push(fresh)?;
    }
    Ok(lanes)
}

pub(crate) fn set_own(lanes: &mut [LaneState], lane: u32, own: Own)
    requires { lane < length lanes.old }
    ensures { lanes.new ≡ with_own lanes.old lane own }
{
    lanes[lane as usize].own = own;
}

pub(crate) fn set_work(lanes: &mut [LaneState], lane: u32, work: Work)
    requires { lane < length lanes.old }
    ensures { lanes.new ≡ with_work lanes.old lane work }
{
    lanes[lane as usize].work = work;
}

pub(crate) fn set_over(lanes: &mut [LaneState], lane: u32)
    requires { lane < length lanes.old }
    ensures { lanes.new ≡ with_over lanes.old lane }
{
    lanes[lane as usize].over = true;
}
