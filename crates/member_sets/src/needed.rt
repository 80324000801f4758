ghost use Rattle.std.specs.Prelude.{◌≡◌, List, is_some};
ghost use Rattle.shard_store.specs.Join.{Entry, value_at};
ghost use Rattle.member_sets.specs.declared.unit.Unit.{Unit};

use crate::unit::Unit;
use shard_store::ShardMap;
use std::marker::{Model, PhantomData};
use tb_types::OsmId;

/// Marks a set of ids as those of ways.
pub struct Ways;

/// Marks a set of ids as those of nodes.
pub struct Nodes;

/// The ways that kept relations need.
pub type NeededWays = Needed<Ways>;

/// The nodes that ways need.
pub type NeededNodes = Needed<Nodes>;

/// A set of needed ids. A contract sees the entries of the map of these ids.
#[derive(Drop)]
pub struct Needed<K> {
    map: ShardMap<Unit>,
    kind: PhantomData<K>,
}

impl<K> Model for Needed<K> {
    ghost Value = { List (Entry Unit) };

    ghost view = { λ n. n.map };
}

impl<K> Needed<K> {
    /// The set of a map's ids. It takes no memory.
    pub fn from_map(map: ShardMap<Unit>) -> Needed<K>
        ensures { result ≡ map }
    {
        Needed {
            map,
            kind: PhantomData,
        }
    }

    /// Whether an id was put. It takes no memory.
    pub fn has(&self, id: OsmId) -> bool
        ensures { result ≡ is_some (value_at id self.now) }
    {
        self.map.get(id).is_some()
    }
}
