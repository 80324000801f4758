ghost use Rattle.std.specs.Prelude.{◌≡◌, ◌<◌, max};
ghost use Rattle.tb_types.specs.Needs as needs;
ghost use Rattle.tile_model.specs.Needs.{block_needs, is_read, largest, run_limit};

use block_pass::block_need;
use pbf_blobs::{BlockAt, BlockKind};

/// The part of a budget that blocks, relations and tiles are booked in, in bytes.
pub fn batch_part(budget: u64) -> u64
    ensures { result ≡ needs.batch_part budget }
{
    budget - budget / 4
}

/// How long a run may be, in bytes, where so many lanes share a budget.
pub fn run_limit(budget: u64, lanes: u64) -> u64
    requires { 0 < lanes }
    ensures { result ≡ run_limit budget lanes }
{
    budget / 4 / lanes
}

/// The largest need of the blocks that are read, in bytes, or 0 where there is none.
pub fn largest_block(blocks: &[BlockAt]) -> u64
    ensures { result ≡ largest (block_needs blocks.now) }
{
    let mut most = 0;
    for block in blocks {
        if is_read(block.kind) {
            most = larger(most, block_need(block.len));
        }
    }
    most
}

/// Whether the body of a block of this kind is read.
pub fn is_read(kind: BlockKind) -> bool
    ensures { result ≡ is_read kind }
{
    kind != BlockKind::Other
}

// The larger of two numbers.
fn larger(a: u64, b: u64) -> u64
    ensures { result ≡ max a b }
{
    if a < b { b } else { a }
}
