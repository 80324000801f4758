ghost use Rattle.std.specs.Prelude.{◌≡◌, List, Some, None, IfSome, IfNone};
ghost use Rattle.shard_store.specs.Join.{Entry, value_at};

use crate::located::Located;
use crate::shaped::Shaped;
use shard_store::ShardMap;
use std::marker::Model;
use tb_types::OsmId;

/// The nodes that were put, with their places and points.
pub type Locations = Store<Located>;

/// The ways that were put, with their places and shapes.
pub type Shapes = Store<Shaped>;

/// What was put under ids, at the greatest place of each. A contract sees the entries of the map of these ids.
#[derive(Drop)]
pub struct Store<V> {
    map: ShardMap<V>,
}

impl<V> Model for Store<V> {
    ghost Value = { List (Entry V) };

    ghost view = { λ s. s.map };
}

impl<V> Store<V> {
    /// The store of a map. It takes no memory.
    pub fn from_map(map: ShardMap<V>) -> Store<V>
        ensures { result ≡ map }
    {
        Store { map }
    }

    /// What stands under an id. `None` comes exactly where nothing was put there. It takes no memory.
    pub fn get(&self, id: OsmId) -> Option<&V>
        ensures some { IfSome result (λ v. value_at id self.now ≡ Some v.now) }
        ensures none { IfNone result (value_at id self.now ≡ None) }
    {
        self.map.get(id)
    }
}
