//! Does planned steps, and holds the bodies of the units that are under way.
ghost use Rattle.std.specs.Prelude.{◌≡◌, ℕ, ◌<◌, OnOk, IfOk, None, length, replicate};
ghost use Rattle.pass_order.specs.Whole.{IsWhole};
ghost use Rattle.pass_order.specs.Driven.{Drives, StaysReady};
ghost use Rattle.pass_order.specs.Holding.{AreLoaded, HasBody, IsReadyFor, Takes};

use crate::error::OrderErr;
use crate::step::Step;
use crate::steps::Steps;
use std::alloc::Global;
use tb_types::Memory;

/// Does the planned steps of so many units. Memory is wanted before the first of them alone.
pub(crate) fn walk<S: Steps>(
    alloc: Global,
    planned: &[Step],
    units: usize,
    steps: &mut S,
) -> Result<(), OrderErr<S::Fault>>
    requires whole { IsWhole units planned.now }
    requires ready { (unit : ℕ) → unit < units → S.meaning.ready steps.old unit }
    ensures { Drives S.meaning units planned.now steps.old steps.new result }
{
    let mut held = match nothing_held(alloc, units) {
        Ok(held) => held,
        Err(Memory) => return Err(OrderErr::Memory),
    };
    let places = held.as_mut_slice();
    for step in planned {
        match take_step(places, *step, steps) {
            Ok(()) => {}
            Err(fault) => return Err(OrderErr::Failed(fault)),
        }
    }
    Ok(())
}

// A place for the body of each unit.
fn nothing_held<B: Drop>(alloc: Global, units: usize) -> Result<Vec<Option<B>>, Memory>
    ensures { IfOk result (λ held. held.items ≡ replicate units None) }
{
    let mut held = Vec::with_capacity(alloc, units)?;
    for _unit in 0..units {
        held.push(None)?;
    }
    Ok(held)
}

// Does a step. The body of its unit is held from its load until it is emitted.
fn take_step<S: Steps>(
    held: &mut [Option<S::Body>],
    step: Step,
    steps: &mut S,
) -> Result<(), S::Fault>
    requires there { HasBody held.old step }
    requires loaded { AreLoaded S.meaning held.old }
    requires ready { IsReadyFor S.meaning steps.old step }
    ensures takes { Takes S.meaning step held.old held.new steps.old steps.new result }
    ensures stays { OnOk result (StaysReady S.meaning steps.old steps.new) }
{
    match step {
        Step::Load(unit) => match steps.load(unit) {
            Ok(body) => {
                held[unit as usize] = Some(body);
                Ok(())
            }
            Err(fault) => Err(fault),
        },
        Step::Put(unit) => match &held[unit as usize] {
            Some(body) => steps.put(unit, body),
            None => unreachable!(),
        },
        Step::Emit(unit) => match held[unit as usize].take() {
            Some(body) => steps.emit(unit, body),
            None => unreachable!(),
        },
    }
}
