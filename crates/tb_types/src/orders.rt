ghost use Rattle.std.specs.Prelude.{◌≡◌};
ghost use Rattle.tb_types.specs.Orders.{place_order, whom_order};

use crate::element::Place;
use crate::trouble::Whom;
use std::cmp::Ordering;

/// How two places stand, by `Place`'s own order: by their blocks, and in one block by their numbers.
pub fn compare_places(one: Place, other: Place) -> Ordering
    ensures { result ≡ place_order one other }
{
    one.cmp(&other)
}

/// How two objects outside stand, by `Whom`'s own order: the profile's source, the lanes by their numbers, the spool, the
/// archive's sink, the console.
pub fn compare_objects(one: Whom, other: Whom) -> Ordering
    ensures { result ≡ whom_order one other }
{
    one.cmp(&other)
}
