//! The steps of a pass of drawn lanes.
ghost use Rattle.std.specs.Prelude.{◌≡◌, ◌≢◌, ◌-◌, ◌<◌, ◌≤◌, ◌++◌, IfOk, OnOk, length, option_to_list};
ghost use Rattle.std.specs.List.{range_with_len};
ghost use Rattle.flow_core.specs.State.{left_of};
ghost use Rattle.flow_core.specs.Kept.{IsKept};
ghost use Rattle.flow_core.specs.Laws.{MayStart};
ghost use Rattle.pass_order.specs.Turns.{first_event, event_of};
ghost use Rattle.pass_order.specs.Whole.{event_step, steps_along};
ghost use Rattle.pass_order.specs.Orders.{lanes_start, pass_events, next_drawn};
ghost use Rattle.pass_order.specs.Planned.{TakesTurn};

use crate::drawn::Drawn;
use crate::step::Step;
use flow_core::{Core, Event};
use gen_world::Numbers;
use std::alloc::Global;
use tb_types::Memory;

/// All steps of a pass over units of these needs, in the order in which drawn lanes do them. The sequence goes on behind what
/// was drawn.
pub(crate) fn plan(alloc: Global, drawn: &mut Drawn, needs: &[u64]) -> Result<Vec<Step>, Memory>
    requires may { MayStart needs.now drawn.old.lanes drawn.old.queue drawn.old.part }
    ensures steps { IfOk result (λ planned. planned.items ≡ steps_along (pass_events drawn.old needs.now) (lanes_start drawn.old needs.now)) }
    ensures next { OnOk result (drawn.new ≡ next_drawn drawn.old needs.now) }
{
    let lanes = drawn.lanes;
    let mut core = Core::start(alloc, needs, lanes, drawn.queue, drawn.part)?;
    let mut numbers = Numbers::new(drawn.last);
    let mut planned = Vec::new(alloc);
    while !core.settled() {
        let first = numbers.draw(u64::from(lanes)) as u32;
        take_turn(&mut core, lanes, first, &mut planned)?;
    }
    drawn.last = numbers.last();
    Ok(planned)
}

// The turn of a drawn lane: the first lane from it on that has an event does it, and if that is a step it is planned.
fn take_turn(core: &mut Core, lanes: u32, first: u32, planned: &mut Vec<Step>) -> Result<(), Memory>
    requires lanes { lanes ≡ length core.old.lanes }
    requires first { first < lanes }
    requires kept { IsKept core.old }
    requires goes_on { left_of core.old ≢ 0 }
    ensures { OnOk result (TakesTurn first core.old core.new planned.old.items planned.new.items) }
{
    let Some(event) = event_of(core, lanes, first) else {
        unreachable!()
    };
    let Some(unit) = core.unit_of(event) else {
        unreachable!()
    };
    plan_step(planned, event, unit)?;
    match core.step(event) {
        Ok(()) => Ok(()),
        Err(_) => unreachable!(),
    }
}

// Plans the step that an event is, if it is one.
fn plan_step(planned: &mut Vec<Step>, event: Event, unit: u32) -> Result<(), Memory>
    ensures { OnOk result (planned.new.items ≡ planned.old.items ++ event_step event unit) }
{
    match event {
        Event::Load { .. } => planned.push(Step::Load(unit))?,
        Event::Put { .. } => planned.push(Step::Put(unit))?,
        Event::Emit { .. } => planned.push(Step::Emit(unit))?,
        _ => {}
    }
    Ok(())
}

// What is done where this lane is drawn.
fn event_of(core: &Core, lanes: u32, first: u32) -> Option<Event>
    requires lanes { lanes ≡ length core.now.lanes }
    requires first { first ≤ lanes }
    ensures { result ≡ event_of first core.now }
{
    match first_event(core, first, lanes) {
        Some(event) => Some(event),
        None => first_event(core, 0, first),
    }
}

// The event of the first lane of a range that has one.
fn first_event(core: &Core, from: u32, to: u32) -> Option<Event>
    requires { from ≤ to }
    ensures { result ≡ first_event core.now (range_with_len from (to - from)) }
{
    for lane in from..to {
        if let Some(event) = core.next_of(lane) {
            return Some(event);
        }
    }
    None
}
