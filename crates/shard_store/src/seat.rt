ghost use Rattle.std.specs.Prelude.{◌≡◌, [], None};
ghost use Rattle.shard_store.specs.Facts.{SeatFacts};

use crate::entries::Entries;
use crate::rule::View;
use atomic_table::Seat;
use std::marker::Model;

/// What a thread puts entries with. A contract sees what it put, and how often it found a turn taken.
#[derive(Drop)]
pub struct ShardSeat<V> {
    pub(super) seat: Seat<Entries<V>, View<V>>,
}

impl<V> Model for ShardSeat<V> {
    ghost Value = { SeatFacts V };

    ghost view = { λ s. record { place = s.seat.table_id; first = s.seat.me.0.first; out = s.seat.me.0.out; found_taken = s.seat.me.0.found_taken; puts = s.seat.me.0.puts } };

    ghost invariant = { λ s. (s.seat.me.1 ≡ []) × (s.seat.me.0.hold ≡ None) × (s.seat.me.0.live ≡ 1) };
}
