ghost use Rattle.std.specs.Prelude.{◌≡◌, []};
ghost use Rattle.claim_desk.specs.Facts.{SeatFacts, has_ended};

use crate::rule::View;
use atomic_table::Seat;
use std::marker::Model;

/// What a thread draws numbers with. A contract sees what it drew, and what its last step found.
#[derive(Drop)]
pub struct DeskSeat {
    pub(super) seat: Seat<u8, View>,
    /// Its last step found the limit or more.
    pub(super) over: bool,
}

impl Model for DeskSeat {
    ghost Value = { SeatFacts };

    ghost view = { λ s. record { place = s.seat.table_id; limit = s.seat.me.0.limit; first = s.seat.me.0.first; out = s.seat.me.0.out; splits = s.seat.me.0.splits; seen = s.seat.me.0.seen; past = s.seat.me.0.past; drawn = s.seat.me.0.drawn } };

    ghost invariant = { λ s. (s.seat.me.1 ≡ []) × (s.over ≡ has_ended s.seat.me.0.limit s.seat.me.0.seen) × (s.seat.me.0.live ≡ 1) };
}
