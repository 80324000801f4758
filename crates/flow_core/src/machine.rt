//! The machine: its state, its start, and its step.
ghost use Rattle.std.specs.Prelude.{◌≡◌, ◌+◌, ◌≤◌, ◌^◌, ◌↔◌, IsTrue, IsFalse, IfOk, OnOk, OnErr, IfSome, IfNone, None, Some, length, slice_get, nat_lt, if◌then◌else◌};
ghost use Rattle.std.specs.List.{All, find};
ghost use Rattle.flow_core.specs.State.{start_state, left_of, need_of};
ghost use Rattle.flow_core.specs.Events.{unit_of, after, next_event, is_possible, CanDoNothing, MayDo, IsUnitOf};
ghost use Rattle.flow_core.specs.Runs.{run_of, taken, IsSameMachine};
ghost use Rattle.flow_core.specs.Kept.{IsKept};
ghost use Rattle.flow_core.specs.Laws.{Progresses, SomeLaneMay, IsSettled};

use crate::event::{Event, NotNow};
use crate::flow::Flow;
use std::alloc::Global;
use std::marker::Model;
use tb_types::Memory;

/// How many events a unit is from its claim to its end.
const UNIT_EVENTS: u64 = 8;

/// A machine of lanes and one queue. A contract sees its state.
#[derive(Drop)]
pub struct Core {
    flow: Flow,
    /// How many events are left.
    left: u64,
}

impl Model for Core {
    ghost use Rattle.std.specs.Prelude.{◌≡◌};
    ghost use Rattle.flow_core.specs.State.{CoreState, left_of};

    ghost Value = { CoreState };

    ghost use Rattle.flow_core.specs.Inside.{state_of, IsSound};

    ghost view = { λ core. state_of core.flow };

    ghost invariant = { λ core. IsSound core.flow × (core.left ≡ left_of (state_of core.flow)) };
}

impl Core {
    /// A machine in which nothing has happened, with room for all that may come: 1 to 64 lanes, a queue of 1 to 1,024
    /// places, at most 2^24 units, and the part of memory that needs are booked in, which no need is above.
    ///
    /// Refused for want of memory alone.
    pub fn start(
        alloc: Global,
        needs: &[u64],
        lanes: u32,
        queue: u32,
        part: u64,
    ) -> Result<Core, Memory>
        requires few_units { length needs.now ≤ 2 ^ 24 }
        requires fit { All (λ need. need ≤ part) needs.now }
        requires some_lane { 1 ≤ lanes }
        requires few_lanes { lanes ≤ 64 }
        requires some_place { 1 ≤ queue }
        requires few_places { queue ≤ 1024 }
        ensures start { IfOk result (λ core. core ≡ start_state needs.now lanes queue part) }
        ensures kept { IfOk result (λ core. IsKept core) }
    {
        let left = UNIT_EVENTS * needs.len() as u64 + u64::from(lanes);
        let flow = Flow::new(alloc, needs, lanes, queue, part)?;
        Ok(Core { flow, left })
    }

    /// The unit that the event is about, if the event is possible now. A claim is about the next unit, which is the
    /// number of units where none is left.
    pub fn unit_of(&self, event: Event) -> Option<u32>
        ensures value { result ≡ unit_of event self.now }
        ensures within { IfSome result (λ unit. IsUnitOf event (length self.now.needs) unit) }
        ensures kept { IsKept self.now }
    {
        let lane = *self.flow.lanes.get(event.lane() as usize)?;
        self.flow.unit_at(event, lane)
    }

    /// Does the event, or says that it isn't possible now, and then nothing changes. Takes no memory.
    pub fn step(&mut self, event: Event) -> Result<(), NotNow>
        ensures ok { OnOk result (after event self.old ≡ Some self.new) }
        ensures lowers { OnOk result (left_of self.new + 1 ≡ left_of self.old) }
        ensures not_now { OnErr result (after event self.old ≡ None) }
        ensures same { OnErr result (self.new ≡ self.old) }
        ensures machine { IsSameMachine self.old self.new }
        ensures kept { IsKept self.new }
    {
        let Some(unit) = self.unit_of(event) else {
            return Err(NotNow);
        };
        self.flow.act(event, unit);
        self.left -= 1;
        Ok(())
    }

    /// The first event that the lane can do, in the order Give, Emit, Load, Push, Put, Book, Claim, Pop; none exactly
    /// where it can do none.
    pub fn next_of(&self, lane: u32) -> Option<Event>
        ensures value { result ≡ next_event lane self.now }
        ensures may { IfSome result (λ event. MayDo lane self.now event) }
        ensures none { IfNone result (CanDoNothing lane self.now) }
    {
        self.first_of(&Event::in_order(lane))
    }

    /// Whether nothing is left: each unit is done and each lane is over.
    pub fn settled(&self) -> bool
        ensures exact { IsTrue result ↔ (left_of self.now ≡ 0) }
        ensures end { IsTrue result → IsSettled self.now }
        ensures goes_on { IsFalse result → SomeLaneMay self.now }
        ensures kept { IsKept self.now }
    {
        self.left == 0
    }

    /// Does one event after another, past those that aren't possible when their turn comes, and says how many were.
    pub fn run(&mut self, events: &[Event]) -> u64
        ensures state { self.new ≡ run_of events.now self.old }
        ensures count { result ≡ taken events.now self.old }
        ensures left { result + left_of self.new ≡ left_of self.old }
        ensures machine { IsSameMachine self.old self.new }
        ensures progress { Progresses self.new }
    {
        let left = self.left;
        for event in events {
            let _ = self.step(*event);
        }
        left - self.left
    }

    // The first of these events that is possible.
    fn first_of(&self, events: &[Event]) -> Option<Event>
        ensures { result ≡ find (is_possible self.now) events.now }
    {
        for event in events {
            if self.unit_of(*event).is_some() {
                return Some(*event);
            }
        }
        None
    }
}
