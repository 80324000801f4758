ghost use Rattle.std.specs.Prelude.{◌≡◌, ◌+◌, ◌-◌, ◌<◌, ◌≤◌, [], ◌∷◌, ◌++◌, length, true, false, List, IfOk, IfErr, IfSome, IfNone};
ghost use Rattle.crossbeam_queue.specs.Passes.{ruled_capacity};
ghost use Rattle.tb_types.specs.Bags.{IsSameBag};
ghost use Rattle.batch_queue.specs.declared.entry.Entry.{Entry};
ghost use Rattle.batch_queue.specs.Facts.{QueueFacts, IsPassHere, IsWhole, Holds, joins_in_order};

use crate::batch::Batch;
use crate::entry::Hand;
use crate::pass::QueuePass;
use crate::rule::{Cuts, Fair, Puts, Room, Takes};
use crossbeam_queue::RuledArrayQueue;
use memory_book::Purse;
use std::alloc::Global;
use std::marker::{Brand, Model};
use std::mem::ManuallyDrop;
use std::sync::Wait;
use tb_types::Memory;

/// A queue of at most `capacity` batches, first in, first out. Since batches can't be dropped, it is ended by `end`.
///
/// While passes are out, other threads push and pop too, and no contract can name the moment at which the queue was
/// full or empty. With all passes joined each answer is exact.
pub struct BatchQueue<L: Purse> {
    queue: RuledArrayQueue<Batch<L>, Hand, Fair>,
}

impl<L: Purse> Model for BatchQueue<L> {
    ghost Value = { QueueFacts };

    ghost view = { λ q. record { place = q.queue.table.shared.table_id; capacity = ruled_capacity q.queue } };
}

impl<L: Purse> BatchQueue<L> {
    /// An empty queue for 1 to 1,024 batches, and its first pass.
    pub fn new(alloc: Global, capacity: u32) -> Result<(BatchQueue<L>, QueuePass<L>), Memory>
        requires { (0 < capacity) × (capacity ≤ 1024) }
        ensures queue { IfOk result (λ made. made.0.capacity ≡ capacity) }
        ensures pass { IfOk result (λ made. made.1 ≡ record { place = made.0.place; first = true; out = 0; pushed = []; popped = []; pushed_in_order = true; popped_in_order = true }) }
    {
        let (queue, pass) = RuledArrayQueue::ruled(alloc, capacity as usize)?;
        Ok((BatchQueue { queue }, QueuePass { pass }))
    }

    /// A pass for another thread, which has pushed and popped nothing. Only the first pass may split.
    pub fn split(&self, pass: &mut QueuePass<L>) -> QueuePass<L>
        requires queue { IsPassHere self.now pass.old }
        requires first { pass.old.first ≡ true }
        ensures pass { pass.new ≡ record pass.old { out = pass.old.out + 1 } }
        ensures result { result ≡ record pass.old { first = false; out = 0; pushed = []; popped = [] } }
    {
        QueuePass {
            pass: self.queue.another::<Cuts>(&mut pass.pass),
        }
    }

    /// Takes another pass back into the first one: its lists come behind those of `pass`.
    pub fn join(&self, pass: &mut QueuePass<L>, other: QueuePass<L>)
        requires queue { IsPassHere self.now pass.old × IsPassHere self.now other }
        requires first { pass.old.first ≡ true }
        ensures { pass.new ≡ record pass.old { out = pass.old.out - 1; pushed = pass.old.pushed ++ other.pushed; popped = pass.old.popped ++ other.popped; pushed_in_order = joins_in_order pass.old.pushed_in_order pass.old.pushed other.pushed_in_order other.pushed; popped_in_order = joins_in_order pass.old.popped_in_order pass.old.popped other.popped_in_order other.popped } }
    {
        let QueuePass { pass: theirs } = other;
        self.queue.absorb::<Cuts>(&mut pass.pass, theirs);
    }

    fn push_in<C: Room, T: Wait>(
        &self,
        rt: &T,
        pass: &mut QueuePass<L>,
        batch: Batch<L>,
    ) -> Result<(), Batch<L>>
        requires queue { IsPassHere self.now pass.old }
        requires room { self.now.capacity ≡ C.capacity }
        ensures ok { IfOk result (λ _. pass.new ≡ record pass.old { pushed = pass.old.pushed ++ batch.entry ∷ [] }) }
        ensures room { IfOk result (λ _. IsWhole pass.old → (held : List Entry) × Holds pass.old held × (length held < self.now.capacity)) }
        ensures err { IfErr result (λ back. (back ≡ batch) × (pass.new ≡ pass.old)) }
        ensures full { IfErr result (λ _. IsWhole pass.old → (held : List Entry) × Holds pass.old held × (length held ≡ self.now.capacity)) }
    {
        self.queue.push_as::<Puts<C>, T>(rt, &mut pass.pass, batch)
    }

    /// Puts a batch at the queue's back. It comes back only where the queue was full at a moment of the call, and with
    /// all passes joined exactly where the queue is full. It may wait for other threads that push or pop.
    pub fn push<T: Wait>(
        &self,
        rt: &T,
        pass: &mut QueuePass<L>,
        batch: Batch<L>,
    ) -> Result<(), Batch<L>>
        requires queue { IsPassHere self.now pass.old }
        ensures ok { IfOk result (λ _. pass.new ≡ record pass.old { pushed = pass.old.pushed ++ batch.entry ∷ [] }) }
        ensures room { IfOk result (λ _. IsWhole pass.old → (held : List Entry) × Holds pass.old held × (length held < self.now.capacity)) }
        ensures err { IfErr result (λ back. (back ≡ batch) × (pass.new ≡ pass.old)) }
        ensures full { IfErr result (λ _. IsWhole pass.old → (held : List Entry) × Holds pass.old held × (length held ≡ self.now.capacity)) }
    {
        self.push_in::<Brand, T>(rt, pass, batch)
    }

    /// Takes the batch at the queue's front. `None` comes only where the queue was empty at a moment of the call, and
    /// with all passes joined exactly where it is empty. It may wait for other threads that push or pop.
    pub fn pop<T: Wait>(&self, rt: &T, pass: &mut QueuePass<L>) -> Option<Batch<L>>
        requires queue { IsPassHere self.now pass.old }
        ensures some { IfSome result (λ batch. pass.new ≡ record pass.old { popped = pass.old.popped ++ batch.entry ∷ [] }) }
        ensures front { IfSome result (λ batch. IsWhole pass.old → (rest : List Entry) × Holds pass.old (batch.entry ∷ rest)) }
        ensures none { IfNone result (pass.new ≡ pass.old) }
        ensures empty { IfNone result (IsWhole pass.old → Holds pass.old []) }
    {
        self.queue.pop_as::<Takes, T>(rt, &mut pass.pass)
    }

    /// `pop`, where no other thread has the queue: `None` comes exactly where it is empty. Then, with all passes
    /// joined, what was pushed is what was popped, each as often.
    pub fn drain<T: Wait>(&mut self, rt: &T, pass: &mut QueuePass<L>) -> Option<Batch<L>>
        requires queue { IsPassHere self.old pass.old }
        ensures queue { self.new ≡ self.old }
        ensures some { IfSome result (λ batch. pass.new ≡ record pass.old { popped = pass.old.popped ++ batch.entry ∷ [] }) }
        ensures front { IfSome result (λ batch. IsWhole pass.old → (rest : List Entry) × Holds pass.old (batch.entry ∷ rest)) }
        ensures none { IfNone result (pass.new ≡ pass.old) }
        ensures empty { IfNone result (IsWhole pass.old → Holds pass.old []) }
        ensures settled { IfNone result (IsWhole pass.old → IsSameBag pass.new.pushed pass.new.popped) }
    {
        self.pop(rt, pass)
    }

    /// Gives the queue up, which is empty: all passes are joined, and all that was pushed was popped.
    ///
    /// Its two blocks of memory stay taken, as after `mem::forget`: a queue of values that can't be dropped can't be
    /// dropped either, though it holds none.
    pub fn end(self, pass: &mut QueuePass<L>)
        requires queue { IsPassHere self pass.old }
        requires whole { IsWhole pass.old }
        requires empty { IsSameBag pass.old.pushed pass.old.popped }
        ensures { pass.new ≡ pass.old }
    {
        let BatchQueue { queue } = self;
        // SAFETY: the queue holds no batch, so no grant is lost with it.
        let _empty = unsafe { ManuallyDrop::new_unchecked(queue) };
    }
}
