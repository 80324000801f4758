//! Elements of an extract: takes the raw bytes of a block, gives its nodes, ways and relations, or why it has none.
//!
//! Messages are walked field by field, and an element is given to a taker as it lies in the block or in room that serves for
//! the next one again. An element that is refused doesn't end the walk: the first reason in a fixed order is named that holds
//! anywhere in the block.
//!
//! Read `taker` (who is given elements), `message` and `walk`, `room`, `strings`, `tag_list`, `tags`, `sums`, `granularity`, then
//! `common`, `node`, `way`, `relation`, `dense` with its `runs`, then `so_far` (what was given so far), `group` and `block`. `kept`
//! has the taker that keeps all elements, and `header` the box of the extract.
#![tactic(auto)]

mod block;
mod common;
mod dense;
mod element;
mod fault;
mod granularity;
mod group;
mod header;
mod kept;
mod kinds;
mod message;
mod node;
mod numbers;
mod relation;
mod room;
mod runs;
mod signed;
mod so_far;
mod strings;
mod sums;
mod tag_list;
mod tags;
mod taker;
mod varint;
mod walk;
mod way;
mod word;
mod worked;

pub use block::{read_block, walk_block};
pub use element::{AnyElement, Block, Kinds, Member, NodeEl, RelEl, TagRef, WayEl};
pub use fault::BlockErr;
pub use header::read_header;
pub use kept::copy_tags;
pub use kinds::kinds_of;
pub use taker::{ElementTaker, WalkErr};
pub use worked::{nothing_dropped, worked_cases};

#[cfg(test)]
mod tests;
#[cfg(test)]
mod walk_tests;
