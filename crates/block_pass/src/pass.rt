//! A pass over blocks.
ghost use Rattle.std.specs.Prelude.{◌≡◌, All, OnOk};
ghost use Rattle.pass_order.specs.Orders.{MayPass, next_order};
ghost use Rattle.block_pass.specs.Loading.{FitsIn};
ghost use Rattle.block_pass.specs.Orders.{needs_of};
ghost use Rattle.block_pass.specs.Passes.{PassAnswers};

use crate::error::PassErr;
use crate::needs::needs_of;
use crate::steps::BlockSteps;
use crate::work::Work;
use pass_order::{Order, OrderErr, drive};
use pbf_blobs::BlockAt;
use std::alloc::Global;
use tb_outside::Source;
use tb_types::Memory;

/// Loads each block once, whole, has it read, and then puts and emits what it gives, in this order of steps.
///
/// `Source` exactly where the reader's count rose; `Work` where a block was refused when it was read, put or emitted.
pub fn pass_blocks<'a, R: Source, W: Work>(
    alloc: Global,
    order: &mut Order,
    reader: &'a mut R,
    blocks: &'a [BlockAt],
    work: &'a mut W,
) -> Result<(), PassErr<W::Fault>>
    requires may { MayPass order.old (needs_of blocks.now) }
    requires within { All (FitsIn (R.seen reader.old).bytes) blocks.now }
    ensures answers { PassAnswers W.meaning order.old blocks.now (R.seen reader.old) (R.seen reader.new) work.old work.new result }
    ensures order { OnOk result (order.new ≡ next_order order.old (needs_of blocks.now)) }
{
    let needs = match needs_of(alloc, blocks) {
        Ok(needs) => needs,
        Err(Memory) => return Err(PassErr::Memory),
    };
    let mut steps = BlockSteps {
        reader,
        work,
        alloc,
        blocks,
    };
    match drive(alloc, order, &needs, &mut steps) {
        Ok(()) => Ok(()),
        Err(OrderErr::Failed(fault)) => Err(fault),
        Err(OrderErr::Memory) => Err(PassErr::Memory),
    }
}
