//! Drives the steps of a pass in an order.
ghost use Rattle.std.specs.Prelude.{◌≡◌, ℕ, ◌<◌, ◌^◌, OnOk, length};
ghost use Rattle.flow_core.specs.Laws.{MayStart};
ghost use Rattle.pass_order.specs.Orders.{lanes_start, pass_events, pass_steps, next_drawn, next_order, MayPass};
ghost use Rattle.pass_order.specs.Whole.{steps_along, steps_in_file};
ghost use Rattle.pass_order.specs.Driven.{Drives, DrivesUnit, StaysReady};

use crate::drawn::Drawn;
use crate::error::OrderErr;
use crate::order::Order;
use crate::plan::plan;
use crate::steps::Steps;
use crate::walk::walk;
use std::alloc::Global;
use tb_types::Memory;

/// Loads, puts and emits each unit of a pass, in this order. The needs of the units are what drawn lanes book; there is one for each.
///
/// Where it succeeds the steps were done in the order's own turn, each on the body that its unit's load gave, and the order goes on
/// for the next pass. A step that fails is the last that is done. Want of memory comes before the first step.
pub fn drive<S: Steps>(
    alloc: Global,
    order: &mut Order,
    needs: &[u64],
    steps: &mut S,
) -> Result<(), OrderErr<S::Fault>>
    requires may { MayPass order.old needs.now }
    requires ready { (unit : ℕ) → unit < length needs.now → S.meaning.ready steps.old unit }
    ensures drives { Drives S.meaning (length needs.now) (pass_steps order.old needs.now) steps.old steps.new result }
    ensures order { OnOk result (order.new ≡ next_order order.old needs.now) }
{
    match order {
        Order::InFile => drive_in_file(needs.len() as u32, steps),
        Order::Drawn(drawn) => drive_drawn(alloc, drawn, needs, steps),
    }
}

// The steps of drawn lanes.
fn drive_drawn<S: Steps>(
    alloc: Global,
    drawn: &mut Drawn,
    needs: &[u64],
    steps: &mut S,
) -> Result<(), OrderErr<S::Fault>>
    requires may { MayStart needs.now drawn.old.lanes drawn.old.queue drawn.old.part }
    requires ready { (unit : ℕ) → unit < length needs.now → S.meaning.ready steps.old unit }
    ensures drives { Drives S.meaning (length needs.now) (steps_along (pass_events drawn.old needs.now) (lanes_start drawn.old needs.now)) steps.old steps.new result }
    ensures order { OnOk result (drawn.new ≡ next_drawn drawn.old needs.now) }
{
    match plan(alloc, drawn, needs) {
        Ok(planned) => walk(alloc, &planned, needs.len(), steps),
        Err(Memory) => Err(OrderErr::Memory),
    }
}

// Each unit after the other.
fn drive_in_file<S: Steps>(units: u32, steps: &mut S) -> Result<(), OrderErr<S::Fault>>
    requires ready { (unit : ℕ) → unit < units → S.meaning.ready steps.old unit }
    ensures { Drives S.meaning units (steps_in_file units) steps.old steps.new result }
{
    for unit in 0..units {
        match drive_unit(unit, steps) {
            Ok(()) => {}
            Err(fault) => return Err(OrderErr::Failed(fault)),
        }
    }
    Ok(())
}

// Loads, puts and emits a unit.
fn drive_unit<S: Steps>(unit: u32, steps: &mut S) -> Result<(), S::Fault>
    requires ready { S.meaning.ready steps.old unit }
    ensures does { DrivesUnit S.meaning unit steps.old steps.new result }
    ensures stays { OnOk result (StaysReady S.meaning steps.old steps.new) }
{
    let body = match steps.load(unit) {
        Ok(body) => body,
        Err(fault) => return Err(fault),
    };
    match steps.put(unit, &body) {
        Ok(()) => {}
        Err(fault) => return Err(fault),
    }
    steps.emit(unit, body)
}
