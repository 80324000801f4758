ghost use Rattle.std.specs.Prelude.{◌≡◌, []};
ghost use Rattle.batch_queue.specs.Facts.{PassFacts};

use crate::batch::Batch;
use crate::entry::Hand;
use crossbeam_queue::Pass;
use memory_book::Purse;
use std::marker::Model;

/// What a thread pushes and pops with. A contract sees what it pushed and what it popped, as numbers and bytes.
#[derive(Drop)]
pub struct QueuePass<L: Purse> {
    pub(super) pass: Pass<Batch<L>, Hand>,
}

impl<L: Purse> Model for QueuePass<L> {
    ghost Value = { PassFacts };

    ghost view = { λ p. record { place = p.pass.table_id; first = p.pass.me.0.client.first; out = p.pass.me.0.client.out; pushed = p.pass.me.0.client.put; popped = p.pass.me.0.client.taken; pushed_in_order = p.pass.me.0.client.put_in_order; popped_in_order = p.pass.me.0.client.taken_in_order } };

    ghost invariant = { λ p. (p.pass.me.1 ≡ []) × (p.pass.me.0.client.live ≡ 1) };
}
