//! The queue's rule, and what each kind of step tells its pass.
ghost use Rattle.std.specs.Prelude.{ℕ};

use crate::batch::Batch;
use crate::entry::Hand;
use crossbeam_queue::protocol::{Join, Lesson, Outcome, Protocol, Split};
use memory_book::Purse;
use std::marker::{Brand, PhantomData};

/// How many batches the queue may hold.
pub trait Room {
    ghost capacity: { ℕ };
}

impl Room for Brand {
    ghost capacity = { 0 };
}

/// What always holds of the queue and of all passes.
pub struct Fair;

impl<L: Purse> Protocol<Batch<L>, Hand> for Fair {
    ghost use Rattle.batch_queue.specs.Rule.{Balanced, opener};

    ghost holds = { λ items views. Balanced items views };

    ghost first = { opener };
}

/// A push, or a look at a queue that is full.
pub struct Puts<C: Room> {
    room: PhantomData<C>,
}

impl<L: Purse, C: Room> Outcome<Batch<L>, Hand> for Puts<C> {
    ghost use Rattle.batch_queue.specs.Rule.{Pushed};

    ghost then = { λ v x w. Pushed C.capacity v x w };
}

impl<L: Purse, C: Room> Lesson<Batch<L>, Hand> for Puts<C> {
    ghost use Rattle.batch_queue.specs.Rule.{Learned};

    ghost fact = { Learned };
}

/// A pop, or a look at a queue that is empty.
pub struct Takes;

impl<L: Purse> Outcome<Batch<L>, Hand> for Takes {
    ghost use Rattle.batch_queue.specs.Rule.{Popped};

    ghost then = { Popped };
}

impl<L: Purse> Lesson<Batch<L>, Hand> for Takes {
    ghost use Rattle.batch_queue.specs.Rule.{Learned};

    ghost fact = { Learned };
}

/// A pass is split off the first one, or joined into it.
pub struct Cuts;

impl Split<Hand> for Cuts {
    ghost use Rattle.batch_queue.specs.Rule.{given_by, kept_by};

    ghost left = { kept_by };

    ghost right = { given_by };
}

impl Join<Hand> for Cuts {
    ghost use Rattle.batch_queue.specs.Rule.{joined, spent};

    ghost both = { joined };

    ghost spent = { spent };
}
