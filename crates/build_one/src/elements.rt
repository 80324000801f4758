ghost use Rattle.std.specs.Prelude.{◌≡◌};
ghost use Rattle.build_one.specs.Works.{ReadsElements, pass_stop_in};

use crate::stop::PassStop;
use block_pass::PassErr;
use osm_elements::{Block, BlockErr};
use pass_survey::block_in;
use pbf_blobs::BlockAt;
use std::alloc::Global;
use tb_types::Damage;

/// Reads the body of a block of elements. `Damage` where it is damaged, which no block is once an extract is surveyed, if its
/// reader gives the same bytes again.
pub fn read_elements(alloc: Global, block: BlockAt, body: &[u8]) -> Result<Block, PassStop>
    ensures { ReadsElements block body.now result }
{
    match block_in(alloc, body) {
        Ok(elements) => Ok(elements),
        Err(BlockErr::Bad(why)) => Err(PassStop::Damage(Damage {
            block: block.no,
            why,
        })),
        Err(BlockErr::Memory) => Err(PassStop::Memory),
    }
}

/// What the end of a pass over blocks is.
pub fn stop_of_blocks(e: PassErr<PassStop>) -> PassStop
    ensures { result ≡ pass_stop_in e }
{
    match e {
        PassErr::Source => PassStop::Source,
        PassErr::Work(stop) => stop,
        PassErr::Memory => PassStop::Memory,
    }
}
