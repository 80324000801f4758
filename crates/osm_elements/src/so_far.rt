//! What was found so far of a block: elements that a taker has, or the first reason to refuse the block. Once there is a
//! reason, the elements don't count.

ghost use Rattle.std.specs.Prelude.{Option, Ok, Err, [], ◌∷◌};
ghost use Rattle.tb_types.specs.declared.damage.Why.{Why};
ghost use Rattle.osm_elements.specs.Elements.{seen_element};
ghost use Rattle.osm_elements.specs.Block.{unit_check};
ghost use Rattle.osm_elements.specs.SoFar.{Adds};

use crate::element::AnyElement;
use crate::fault::first;
use crate::granularity::Granularity;
use crate::taker::{ElementTaker, WalkErr};
use tb_types::{Kind, Why};

/// Adds a reason. What is no message is answered at once, since no reason comes before it.
pub(crate) fn refuse<T: ElementTaker>(
    why: &mut Option<Why>,
    more: Why,
) -> Result<(), WalkErr<T::Stop>>
    ensures { (taker : T) → Adds T.steps T.stops (taker, why.old) (taker, why.new) result (Err more) }
{
    if more == Why::Wire {
        return Err(WalkErr::Bad(Why::Wire));
    }
    *why = match *why {
        Some(before) => Some(first(before, more)),
        None => Some(more),
    };
    Ok(())
}

/// Adds a reason where the block's unit is below 1.
pub(crate) fn check_unit<T: ElementTaker>(
    why: &mut Option<Why>,
    granularity: Granularity,
) -> Result<(), WalkErr<T::Stop>>
    ensures { (taker : T) → Adds T.steps T.stops (taker, why.old) (taker, why.new) result (unit_check granularity) }
{
    if granularity.unit < 1 {
        refuse::<T>(why, Why::Range)
    } else {
        Ok(())
    }
}

/// Tells a taker that so many elements of a kind may follow.
pub(crate) fn make_room<T: ElementTaker>(
    taker: &mut T,
    why: Option<Why>,
    kind: Kind,
    count: usize,
) -> Result<(), WalkErr<T::Stop>>
    ensures { Adds T.steps T.stops (taker.old, why) (taker.new, why) result (Ok []) }
{
    if why.is_some() {
        return Ok(());
    }
    match taker.make_room(kind, count) {
        Ok(()) => Ok(()),
        Err(stop) => Err(WalkErr::Taker(stop)),
    }
}

/// Gives an element to a taker, where no reason stands.
pub(crate) fn give<T: ElementTaker>(
    taker: &mut T,
    why: Option<Why>,
    element: AnyElement<'_>,
) -> Result<(), WalkErr<T::Stop>>
    ensures { Adds T.steps T.stops (taker.old, why) (taker.new, why) result (Ok (seen_element element.entry ∷ [])) }
{
    if why.is_some() {
        return Ok(());
    }
    match taker.take(element) {
        Ok(()) => Ok(()),
        Err(stop) => Err(WalkErr::Taker(stop)),
    }
}
