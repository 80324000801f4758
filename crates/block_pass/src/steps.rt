//! The steps of a pass over blocks.
ghost use Rattle.std.specs.Prelude.{◌≡◌};
ghost use Rattle.block_pass.specs.Steps.{steps_meaning};

use crate::error::PassErr;
use crate::load::load_block;
use crate::work::Work;
use pass_order::Steps;
use pbf_blobs::BlockAt;
use std::alloc::Global;
use tb_outside::Source;

/// Does the steps of a pass over blocks: unit k is the block in place k.
pub(crate) struct BlockSteps<'a, R, W> {
    pub reader: &'a mut R,
    pub work: &'a mut W,
    pub alloc: Global,
    pub blocks: &'a [BlockAt],
}

impl<'a, R, W> Drop for BlockSteps<'a, R, W> {
    fn drop(self)
        ensures reader { self.exit.0.now ≡ self.entry.reader.now }
        ensures work { self.exit.1.0.now ≡ self.entry.work.now }
    {
        let Self {
            reader: _,
            work: _,
            alloc: _,
            blocks: _,
        } = self;
    }
}

impl<'a, R: Source, W: Work> Steps for BlockSteps<'a, R, W> {
    type Body = W::Body;

    type Fault = PassErr<W::Fault>;

    ghost meaning = { steps_meaning R.seen W.meaning };

    fn load(&mut self, unit: u32) -> Result<W::Body, PassErr<W::Fault>> {
        let block = self.blocks[unit as usize];
        load_block(self.alloc, self.reader, self.work, block)
    }

    fn put(&mut self, unit: u32, body: &W::Body) -> Result<(), PassErr<W::Fault>> {
        let block = self.blocks[unit as usize];
        match self.work.put(block, body) {
            Ok(()) => Ok(()),
            Err(fault) => Err(PassErr::Work(fault)),
        }
    }

    fn emit(&mut self, unit: u32, body: W::Body) -> Result<(), PassErr<W::Fault>> {
        let block = self.blocks[unit as usize];
        match self.work.emit(block, body) {
            Ok(()) => Ok(()),
            Err(fault) => Err(PassErr::Work(fault)),
        }
    }
}
