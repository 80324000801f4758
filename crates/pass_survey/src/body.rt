ghost use Rattle.std.specs.Prelude.{◌≡◌, IfOk, IfSome, true};
ghost use Rattle.osm_elements.specs.Reasons.{Gives};
ghost use Rattle.osm_elements.specs.Header.{is_valid};
ghost use Rattle.tile_model.specs.Contents.{header_in, block_in};

use osm_elements::{Block, BlockErr, read_block, read_header};
use pbf_blobs::raw_of;
use std::alloc::Global;
use tb_types::Bounds;

/// The box in the body of a header frame, if it is valid, or the first reason that holds of its blob and then of its block.
pub fn header_in(alloc: Global, body: &[u8]) -> Result<Option<Bounds>, BlockErr>
    ensures given { Gives (λ b. b) result (header_in body.now) }
    ensures valid { IfOk result (λ found. IfSome found (λ b. is_valid b ≡ true)) }
{
    match raw_of(body) {
        Ok(raw) => read_header(alloc, raw),
        Err(why) => Err(BlockErr::Bad(why)),
    }
}

/// The elements in the body of a data frame, or the first reason that holds of its blob and then of its block.
pub fn block_in(alloc: Global, body: &[u8]) -> Result<Block, BlockErr>
    ensures given { Gives (λ b. b) result (block_in body.now) }
{
    match raw_of(body) {
        Ok(raw) => read_block(alloc, raw),
        Err(why) => Err(BlockErr::Bad(why)),
    }
}
