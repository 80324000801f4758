ghost use Rattle.std.specs.Prelude.{◌≡◌, ◌≤◌, length, vec_len};
ghost use Rattle.tb_types.specs.Needs.{block_need};
ghost use Rattle.batch_queue.specs.Facts.{BatchFacts, entry_of};

use memory_book::{Grant, Purse};
use std::marker::Model;

/// A block's number and the bytes of its body, with a grant of memory that covers the block's need.
///
/// It has no `Drop`: it ends in `finish`, and the grant then goes back to its book.
pub struct Batch<L: Purse> {
    no: u32,
    body: Vec<u8>,
    grant: Grant<L>,
}

impl<L: Purse> Model for Batch<L> {
    ghost Value = { BatchFacts };

    ghost view = { λ b. record { entry = entry_of b.no b.body.items; granted = b.grant } };

    ghost invariant = { λ b. block_need (vec_len b.body) ≤ b.grant };
}

impl<L: Purse> Batch<L> {
    /// A batch of the block `no`. The grant has to cover the need of its body.
    pub fn new(no: u32, body: Vec<u8>, grant: Grant<L>) -> Batch<L>
        requires covers { block_need (vec_len body) ≤ grant }
        ensures { result ≡ record { entry = entry_of no body.items; granted = grant } }
    {
        Batch { no, body, grant }
    }

    /// The block's number.
    pub fn no(&self) -> u32
        ensures { result ≡ self.now.entry.no }
    {
        self.no
    }

    /// The bytes of the block's body.
    pub fn body(&self) -> &[u8]
        ensures { result.now ≡ self.now.entry.bytes }
    {
        self.body.as_slice()
    }

    /// Ends the batch and gives up its grant, which still covers the need.
    pub fn finish(self) -> Grant<L>
        ensures grant { result ≡ self.granted }
        ensures covers { block_need (length self.entry.bytes) ≤ result }
    {
        let Batch {
            no: _,
            body: _,
            grant,
        } = self;
        grant
    }
}
