ghost use Rattle.std.specs.Prelude.{◌≡◌};
ghost use Rattle.node_store.specs.Order.{located_order};

use shard_store::Join;
use std::cmp::Ordering;
use tb_types::{Place, World};

/// A node's place in the extract, and its point, if its location is one of the world's.
#[derive(Clone, Copy, Debug, PartialEq, Eq, PartialOrd, Ord)]
pub struct Located {
    pub place: Place,
    pub at: Option<World>,
}

impl Located {
    // By the place, and at one place by the point, of which none is below any.
    fn compare(&self, other: &Located) -> Ordering
        ensures { result ≡ located_order self.now other.now }
    {
        self.cmp(other)
    }
}

impl Join for Located {
    ghost use Rattle.node_store.specs.Order.{located_join};
    ghost use Rattle.node_store.specs.NodeLaws.{located_commutes, located_associates, located_repeats};

    ghost both = { located_join };

    ghost commutes = { located_commutes };

    ghost associates = { located_associates };

    ghost repeats = { located_repeats };

    fn merge(&mut self, other: Located) {
        if self.compare(&other).is_lt() {
            *self = other;
        }
    }
}
