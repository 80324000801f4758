ghost use Rattle.std.specs.Prelude.{◌≡◌};
ghost use Rattle.node_store.specs.Order.{way_order, shaped_order};

use ring_assembly::WayShape;
use shard_store::Join;
use std::cmp::Ordering;
use tb_types::{Place, compare_places};

/// A way's place in the extract, and its shape, if all its nodes have locations.
#[derive(Debug, Drop)]
pub struct Shaped {
    pub place: Place,
    pub shape: Option<WayShape>,
}

impl Shaped {
    // By the place, and at one place by the shape, of which none is below any.
    fn compare(&self, other: &Shaped) -> Ordering
        ensures { result ≡ shaped_order self.now other.now }
    {
        match compare_places(self.place, other.place) {
            Ordering::Less => Ordering::Less,
            Ordering::Greater => Ordering::Greater,
            Ordering::Equal => match (&self.shape, &other.shape) {
                (None, None) => Ordering::Equal,
                (None, Some(_)) => Ordering::Less,
                (Some(_), None) => Ordering::Greater,
                (Some(shape), Some(with)) => compare_ways(shape, with),
            },
        }
    }
}

// How two shapes stand: by their first nodes, then by their last ones, then by their points from the first on.
fn compare_ways(one: &WayShape, other: &WayShape) -> Ordering
    ensures { result ≡ way_order one.now other.now }
{
    one.first
        .cmp(&other.first)
        .then(one.last.cmp(&other.last))
        .then(one.points.as_slice().cmp(other.points.as_slice()))
}

impl Join for Shaped {
    ghost use Rattle.node_store.specs.Order.{shaped_join};
    ghost use Rattle.node_store.specs.WayLaws.{shaped_commutes, shaped_associates, shaped_repeats};

    ghost both = { shaped_join };

    ghost commutes = { shaped_commutes };

    ghost associates = { shaped_associates };

    ghost repeats = { shaped_repeats };

    fn merge(&mut self, other: Shaped) {
        if self.compare(&other).is_lt() {
            *self = other;
        }
    }
}
