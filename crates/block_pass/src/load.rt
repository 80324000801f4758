//! Loads a block.
ghost use Rattle.block_pass.specs.Loading.{LoadAnswers, FitsIn};

use crate::error::PassErr;
use crate::work::Work;
use pbf_blobs::BlockAt;
use std::alloc::Global;
use tb_outside::Source;

/// Loads the body of a block and has it read.
pub(crate) fn load_block<R: Source, W: Work>(
    alloc: Global,
    reader: &mut R,
    work: &W,
    block: BlockAt,
) -> Result<W::Body, PassErr<W::Fault>>
    requires { FitsIn (R.seen reader.old).bytes block }
    ensures { LoadAnswers W.meaning block (R.seen reader.old) (R.seen reader.new) result }
{
    let mut body = match vec![in alloc; 0u8; block.len as usize] {
        Ok(body) => body,
        Err(_) => return Err(PassErr::Memory),
    };
    match reader.load(block.at, &mut body) {
        Ok(()) => {}
        Err(_) => return Err(PassErr::Source),
    }
    match work.read(block, body) {
        Ok(read) => Ok(read),
        Err(fault) => Err(PassErr::Work(fault)),
    }
}
