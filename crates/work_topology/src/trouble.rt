//! Which of several lanes' troubles is told.
ghost use Rattle.std.specs.Prelude.{◌≡◌};
ghost use Rattle.std.specs.Ordering.{is_lt};
ghost use Rattle.work_topology.specs.Told.{rank, named, trouble_order, IsTold};
ghost use Rattle.work_topology.specs.Told as told;

use crate::post::Report;
use tb_types::{Trouble, Whom, compare_objects};

/// Where a trouble's kind stands in the order in which troubles are told.
fn rank(trouble: Trouble) -> u8
    ensures { result ≡ rank trouble }
{
    match trouble {
        Trouble::Source(_) => 0,
        Trouble::Spill(_) => 1,
        Trouble::Outside { .. } => 2,
        Trouble::Changed { .. } => 3,
        Trouble::Memory => 4,
    }
}

/// The object that a trouble names. One that names none counts as if it named the first of all.
fn named(trouble: Trouble) -> Whom
    ensures { result ≡ named trouble }
{
    match trouble {
        Trouble::Source(whom) => whom,
        Trouble::Spill(whom) => whom,
        Trouble::Outside { whom, .. } => whom,
        Trouble::Changed { .. } => Whom::Profile,
        Trouble::Memory => Whom::Profile,
    }
}

/// Whether a trouble stands before another: by their kinds, and in a kind by the objects that they name.
fn is_before(one: Trouble, other: Trouble) -> bool
    ensures { result ≡ is_lt (trouble_order one other) }
{
    let by_kind = rank(one).cmp(&rank(other));
    by_kind
        .then(compare_objects(named(one), named(other)))
        .is_lt()
}

/// The one of two that is told.
fn first_told(front: Option<Trouble>, back: Option<Trouble>) -> Option<Trouble>
    ensures { result ≡ told.first_told front back }
{
    match front {
        None => back,
        Some(one) => match back {
            None => Some(one),
            Some(other) => {
                if is_before(other, one) {
                    Some(other)
                } else {
                    Some(one)
                }
            }
        },
    }
}

/// Why the lanes left early: of their troubles one that none stands before, and nothing where they had none.
pub fn told_of<O>(reports: &[Report<O>]) -> Option<Trouble>
    ensures { IsTold reports.now result }
{
    let mut told = None;
    for report in reports {
        told = first_told(told, report.trouble);
    }
    told
}
