//! What a pass does with blocks.
ghost use Rattle.pbf_blobs.specs.declared.block.BlockAt.{BlockAt};
ghost use Rattle.block_pass.specs.Meaning.{Meaning, ReadAnswers, PutAnswers, EmitAnswers, Begins, StopsAfter};

use pbf_blobs::BlockAt;

/// What a pass does with the blocks that it loads.
pub trait Work {
    /// What the body of a block is read as.
    type Body: Drop;

    /// Why a block is refused.
    type Fault;

    // What the calls mean.
    ghost meaning: { Meaning Self Self.Body Self.Fault };

    /// Reads the body of a block.
    fn read(&self, block: BlockAt, body: Vec<u8>) -> Result<Self::Body, Self::Fault>
        ensures { ReadAnswers meaning block body.items result };

    /// Puts what a block gives into stores.
    fn put(&mut self, block: BlockAt, body: &Self::Body) -> Result<(), Self::Fault>
        ensures { PutAnswers meaning (block, body.now) self.old self.new result };

    /// Emits what a block gives as items, and lets it go.
    fn emit(&mut self, block: BlockAt, body: Self::Body) -> Result<(), Self::Fault>
        ensures { EmitAnswers meaning (block, body) self.old self.new result };

    // At first nothing was done, and a stop behind what was done is a stop from the beginning on.
    ghost begins: { Begins meaning };

    ghost stops_after: { StopsAfter meaning };
}
