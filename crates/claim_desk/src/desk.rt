ghost use Rattle.std.specs.Prelude.{◌≡◌, ℕ, ◌+◌, ◌-◌, ◌^◌, ◌<◌, ◌≤◌, ◌++◌, ◌∷◌, [], min, IfOk, IfSome, IfNone, Some, None, true, false};
ghost use Rattle.tb_types.specs.Bags.{IsEachOnce, IsSameBag, below};
ghost use Rattle.claim_desk.specs.Facts.{DeskFacts, IsSeatOf, IsWhole, has_ended, later, IsAtMostOnce};

use crate::rule::{Claims, Deals, Draws, Gathers, Looks, View};
use crate::seat::DeskSeat;
use atomic_table::Table;
use std::alloc::Global;
use std::marker::Model;
use tb_types::Memory;

/// A desk that gives out the numbers below its limit, each once.
#[derive(Drop)]
pub struct Desk {
    /// Its one word is the number of steps so far.
    table: Table<u8, View, u32, Draws, Global>,
    limit: u32,
}

impl Model for Desk {
    ghost Value = { DeskFacts };

    ghost view = { λ d. record { place = d.table.shared.table_id; limit = d.limit } };

    ghost invariant = { λ d. (d.table.shared.table_id.words ≡ 1) × (d.table.shared.table_id.slots ≡ 0) × (d.table.shared.key ≡ d.limit) × (d.limit ≤ 16777216) };
}

impl Desk {
    /// A desk for the numbers below `n`, at most 2^24, and its first seat.
    pub fn new(alloc: Global, n: u32) -> Result<(Desk, DeskSeat), Memory>
        requires { n ≤ 2 ^ 24 }
        ensures desk { IfOk result (λ made. made.0.limit ≡ n) }
        ensures seat { IfOk result (λ made. made.1 ≡ record { place = made.0.place; limit = n; first = true; out = 0; splits = 0; seen = None; past = 0; drawn = [] }) }
    {
        let (table, seat) = Table::of_words(alloc, &[0], &n)?;
        Ok((Desk { table, limit: n }, DeskSeat { seat, over: false }))
    }

    /// A seat for another thread, which has drawn nothing. Only the first seat may split, at most 63 times.
    pub fn split(&self, seat: &mut DeskSeat) -> DeskSeat
        requires desk { IsSeatOf self.now seat.old }
        requires first { seat.old.first ≡ true }
        requires splits { seat.old.splits < 63 }
        ensures seat { seat.new ≡ record seat.old { out = seat.old.out + 1; splits = seat.old.splits + 1 } }
        ensures result { result ≡ record seat.old { first = false; out = 0; splits = 0; seen = None; past = 0; drawn = [] } }
    {
        DeskSeat {
            seat: self.table.shared.split_seat::<Deals>(&mut seat.seat),
            over: false,
        }
    }

    /// Takes another seat back into the first one: its numbers come behind those of `seat`.
    pub fn join(&self, seat: &mut DeskSeat, other: DeskSeat)
        requires desk { IsSeatOf self.now seat.old × IsSeatOf self.now other }
        requires first { seat.old.first ≡ true }
        ensures seat { seat.new ≡ record seat.old { out = seat.old.out - 1; seen = later seat.old.seen other.seen; past = seat.old.past + other.past; drawn = seat.old.drawn ++ other.drawn } }
    {
        let DeskSeat { seat: theirs, over } = other;
        self.table
            .shared
            .join_seat::<Gathers>(&mut seat.seat, theirs);
        seat.over = seat.over || over;
    }

    /// Draws the next number. `None` comes exactly where the word that the seat's last step found is the limit or more;
    /// a seat that found this takes no further step.
    pub fn claim(&self, seat: &mut DeskSeat) -> Option<u32>
        requires desk { IsSeatOf self.now seat.old }
        ensures some { IfSome result (λ x. (x < self.now.limit) × (seat.new ≡ record seat.old { seen = Some x; drawn = seat.old.drawn ++ x ∷ [] })) }
        ensures none { IfNone result ((has_ended self.now.limit seat.new.seen ≡ true) × (seat.new ≡ record seat.old { seen = seat.new.seen; past = seat.new.past })) }
        ensures step { has_ended self.now.limit seat.old.seen ≡ false → IfNone result (seat.new.past ≡ seat.old.past + 1) }
        ensures over { has_ended self.now.limit seat.old.seen ≡ true → (result ≡ None) × (seat.new ≡ seat.old) }
    {
        if seat.over {
            return None;
        }
        let found = self.table.shared.fetch_add::<Claims>(&mut seat.seat, 0, 1);
        if found < u64::from(self.limit) {
            return Some(found as u32);
        }
        seat.over = true;
        None
    }

    /// Ends the desk and answers its word, the number of steps that were taken.
    ///
    /// Each number below the word and below the limit was drawn by one seat, once: the list of a seat into which all
    /// are joined has just these. Where a seat has seen the end, the word is at least the limit.
    pub fn close(self, seat: &mut DeskSeat) -> u64
        requires desk { IsSeatOf self seat.old }
        ensures seat { seat.new ≡ seat.old }
        ensures steps { result ≤ self.limit + 64 }
        ensures word { IsWhole seat.old → result ≡ seat.old.past + min result self.limit }
        ensures ended { has_ended self.limit seat.old.seen ≡ true → self.limit ≤ result }
        ensures once { IsAtMostOnce (min result self.limit) seat.old.drawn }
        ensures drawn { IsWhole seat.old → IsSameBag seat.old.drawn (below (min result self.limit)) }
        ensures whole { IsWhole seat.old → self.limit ≤ result → IsEachOnce self.limit seat.old.drawn }
    {
        self.table.shared.load::<Looks>(&mut seat.seat, 0)
    }
}
