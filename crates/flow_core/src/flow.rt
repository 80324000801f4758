//! The machine's fields: which events are possible, and what each does.
ghost use Rattle.std.specs.Prelude.{◌≡◌, ◌<◌, length, IfOk};
ghost use Rattle.flow_core.specs.State.{start_state, need_of};
ghost use Rattle.flow_core.specs.Events.{lane_of, unit_at, effect};
ghost use Rattle.flow_core.specs.Inside.{state_of, IsSound, HasRoom, HasPlace, HasRoomOf};

use crate::event::Event;
use crate::lane::{Entry, LaneState, Own, Work, fresh_lanes, set_over, set_own, set_work};
use std::alloc::Global;
use std::collections::VecDeque;
use tb_types::Memory;

/// Units on their way through the lanes and one queue. Units count from 0.
#[derive(Drop)]
pub(crate) struct Flow {
    // Each unit's need, the part that needs are booked in, both in bytes, and the queue's places.
    pub needs: Vec<u64>,
    pub part: u64,
    pub capacity: u32,
    // The next unit to claim, and what is booked.
    pub next: u32,
    pub booked: u64,
    pub queue: VecDeque<u32>,
    pub lanes: Vec<LaneState>,
    // What all lanes claimed, pushed, popped and did: one list of each kind, with room for each unit once.
    pub claims: Vec<Entry>,
    pub pushed: Vec<Entry>,
    pub popped: Vec<Entry>,
    pub done: Vec<Entry>,
}

impl Flow {
    /// Nothing has happened, and there is room for all that may.
    pub(crate) fn new(
        alloc: Global,
        needs: &[u64],
        lanes: u32,
        queue: u32,
        part: u64,
    ) -> Result<Flow, Memory>
        ensures state { IfOk result (λ flow. state_of flow ≡ start_state needs.now lanes queue part) }
        ensures room { IfOk result (λ flow. HasRoom flow) }
    {
        let units = needs.len();
        Ok(Flow {
            needs: Vec::from_slice(alloc, needs)?,
            part,
            capacity: queue,
            next: 0,
            booked: 0,
            queue: VecDeque::with_capacity(alloc, units.min(queue as usize))?,
            lanes: fresh_lanes(alloc, lanes)?,
            claims: Vec::with_capacity(alloc, units)?,
            pushed: Vec::with_capacity(alloc, units)?,
            popped: Vec::with_capacity(alloc, units)?,
            done: Vec::with_capacity(alloc, units)?,
        })
    }

    // A unit's need, which is 0 if there is no such unit.
    fn need(&self, unit: u32) -> u64
        ensures { result ≡ need_of self.now.needs.items unit }
    {
        self.needs.get(unit as usize).copied().unwrap_or(0)
    }

    /// The unit that the event is about, if it is possible in a lane that is as given.
    pub(crate) fn unit_at(&self, event: Event, lane: LaneState) -> Option<u32>
        requires { IsSound self.now }
        ensures { result ≡ unit_at event (state_of self.now) lane }
    {
        match (event, lane.own, lane.work) {
            (Event::Claim { .. }, Own::Free, Work::Idle) => (!lane.over).then_some(self.next),
            (Event::Book { .. }, Own::Claimed(unit), Work::Idle) => {
                (self.need(unit) <= self.part - self.booked).then_some(unit)
            }
            (Event::Load { .. }, Own::Booked(unit), _) => Some(unit),
            (Event::Push { .. }, Own::Loaded(unit), Work::Idle) => {
                (self.queue.len() < self.capacity as usize).then_some(unit)
            }
            (Event::Pop { .. }, Own::Booked(_), _) => None,
            (Event::Pop { .. }, _, Work::Idle) => self.queue.front().copied(),
            (Event::Put { .. }, _, Work::Popped(unit)) => Some(unit),
            (Event::Emit { .. }, _, Work::Stored(unit)) => Some(unit),
            (Event::Give { .. }, _, Work::Emitted(unit)) => Some(unit),
            _ => None,
        }
    }

    /// Does the event, for which there is place.
    pub(crate) fn act(&mut self, event: Event, unit: u32)
        requires lane { lane_of event < length self.old.lanes.items }
        requires place { HasPlace event unit self.old }
        ensures state { state_of self.new ≡ effect event unit (state_of self.old) }
        ensures room { HasRoomOf self.old self.new }
    {
        match event {
            Event::Claim { lane } => {
                if (unit as usize) < self.needs.len() {
                    set_own(&mut self.lanes, lane, Own::Claimed(unit));
                    self.claims.push_reserved(Entry { lane, unit });
                    self.next = unit + 1;
                } else {
                    set_over(&mut self.lanes, lane);
                }
            }
            Event::Book { lane } => {
                self.booked += self.need(unit);
                set_own(&mut self.lanes, lane, Own::Booked(unit));
            }
            Event::Load { lane } => set_own(&mut self.lanes, lane, Own::Loaded(unit)),
            Event::Push { lane } => {
                set_own(&mut self.lanes, lane, Own::Free);
                self.queue.push_back_reserved(unit);
                self.pushed.push_reserved(Entry { lane, unit });
            }
            Event::Pop { lane } => {
                set_work(&mut self.lanes, lane, Work::Popped(unit));
                self.queue.pop_front();
                self.popped.push_reserved(Entry { lane, unit });
            }
            Event::Put { lane } => set_work(&mut self.lanes, lane, Work::Stored(unit)),
            Event::Emit { lane } => set_work(&mut self.lanes, lane, Work::Emitted(unit)),
            Event::Give { lane } => {
                self.booked -= self.need(unit);
                set_work(&mut self.lanes, lane, Work::Idle);
                self.done.push_reserved(Entry { lane, unit });
            }
        }
    }
}
