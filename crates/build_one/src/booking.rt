ghost use Rattle.std.specs.Prelude.{◌≡◌};
ghost use Rattle.tb_types.specs.Needs.{group_need};

use crate::needs::largest_block;
use crate::numbers::{TILE_FACTOR, TILE_REST};
use block_pass::Order;
use memory_book::{Book, Grant, Purse};
use pbf_blobs::BlockAt;
use tb_types::Memory;

/// Books what a pass over blocks needs while they are loaded and worked on: in the order of the file one after another, so the largest
/// need; and for drawn lanes all of their part, in which they book by themselves.
pub fn book_pass<L: Purse>(
    book: &mut Book<L>,
    order: &Order,
    blocks: &[BlockAt],
) -> Result<Grant<L>, Memory> {
    let need = match order {
        Order::InFile => largest_block(blocks),
        Order::Drawn(drawn) => drawn.part,
    };
    book_need(book, need)
}

/// Books what the items of a tile need, by the sum of their lengths.
pub fn book_tile<L: Purse>(book: &mut Book<L>, sum: u64) -> Result<Grant<L>, Memory> {
    book_need(book, tile_need(sum))
}

/// Books a need. One that doesn't fit beside what is booked is want of memory: each is tested before, and none is booked beside another.
pub fn book_need<L: Purse>(book: &mut Book<L>, need: u64) -> Result<Grant<L>, Memory> {
    match book.book(need) {
        Ok(grant) => Ok(grant),
        Err(_) => Err(Memory),
    }
}

// What the items of a tile need.
fn tile_need(sum: u64) -> u64
    ensures { result ≡ group_need sum }
{
    sum.saturating_mul(TILE_FACTOR).saturating_add(TILE_REST)
}
