//! What holds of every list of entries that was put.
ghost use Rattle.shard_store.specs.Laws.{PutsGrow};

use crate::join::Join;

/// After a put of all entries the seat's list has the old entries and the new ones, each as often, and the join of all
/// that it has under an id is the join of all old and new ones there.
pub fn puts_grow<V: Join>()
    ensures { PutsGrow V.both }
{}
