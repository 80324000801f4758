//! What blocks need of memory.
ghost use Rattle.std.specs.Prelude.{◌≡◌, IfOk};
ghost use Rattle.tb_types.specs.Needs as needs;
ghost use Rattle.block_pass.specs.Orders.{needs_of};

use pbf_blobs::BlockAt;
use std::alloc::Global;
use tb_types::Memory;

/// How many bytes of memory a byte of a block's body needs, and a block besides.
const FACTOR: u64 = 16;

const REST: u64 = 65_536;

/// What a block with a body of so many bytes needs, in bytes.
pub fn block_need(len: u32) -> u64
    ensures { result ≡ needs.block_need len }
{
    FACTOR * u64::from(len) + REST
}

/// The needs of blocks, in bytes.
pub fn needs_of(alloc: Global, blocks: &[BlockAt]) -> Result<Vec<u64>, Memory>
    ensures { IfOk result (λ needs. needs.items ≡ needs_of blocks.now) }
{
    let mut needs = Vec::with_capacity(alloc, blocks.len())?;
    for block in blocks {
        needs.push(block_need(block.len))?;
    }
    Ok(needs)
}
