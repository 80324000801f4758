//! The rule of the shards, and what each kind of step tells its seat.
use crate::entries::Entries;
use crate::join::Join;
use atomic_table::{Join as Gather, Play, Split, TableRule};
use std::collections::LinkedList;
use tb_types::OsmId;

/// What a seat knows. It exists in proofs alone: no value of it is made, so its counts are any numbers.
pub struct View<V> {
    /// It is the first seat.
    pub first: bool,
    /// 1 until it is joined into the first seat, and then 0.
    pub live: u64,
    /// Of the first seat: how many others are out.
    pub out: u64,
    /// How often it found a turn taken.
    pub found_taken: u64,
    /// The shard whose turn it has, and what lay there.
    pub hold: Option<(u64, LinkedList<(OsmId, V)>)>,
    pub puts: LinkedList<(OsmId, V)>,
}

/// What always holds of the turns, the slots and all seats.
pub struct Turns;

impl<V: Join> TableRule<Entries<V>, View<V>, ()> for Turns {
    ghost use Rattle.shard_store.specs.Rule.{IsKept, opener};

    ghost holds = { λ _ s. IsKept V.both s };

    ghost first = { λ _. opener };
}

/// A turn is taken, with its slot.
pub struct Takes;

impl<V: Join> Play<Entries<V>, View<V>> for Takes {
    ghost use Rattle.shard_store.specs.Rule.{Taken};

    ghost then = { Taken };
}

/// A turn is given back, with its slot.
pub struct Gives;

impl<V: Join> Play<Entries<V>, View<V>> for Gives {
    ghost use Rattle.shard_store.specs.Rule.{Given};

    ghost then = { Given };
}

/// A seat is split off.
pub struct Deals;

impl<V> Split<View<V>> for Deals {
    ghost use Rattle.shard_store.specs.Rule.{kept_by, given_by};

    ghost left = { kept_by };

    ghost right = { given_by };
}

/// A seat is joined into another.
pub struct Gathers;

impl<V> Gather<View<V>> for Gathers {
    ghost use Rattle.shard_store.specs.Rule.{gathered, spent};

    ghost both = { gathered };

    ghost spent = { spent };
}
