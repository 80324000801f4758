//! Sorted runs: takes the items of tiles, gives runs of them on a spill, each sorted by key, and reads items back from bytes.
//!
//! An item is a row with its key as bytes: read `item_writer` and `lengths`, then `item_reader` with `read_parts` and
//! `value_reader`; `refused` says why none is read, and `head` reads no more than a key and a length. A buffer keeps items as
//! their bytes, one behind another, with an index of their keys. Where the next item doesn't fit, the index is sorted and the
//! items are written in its order as one run: read `slot` (an item of the index), `run_buffer` and `run_writer`.
#![tactic(auto)]

mod head;
mod item_reader;
mod item_writer;
mod laws;
mod lengths;
mod read_parts;
mod refused;
mod run_buffer;
mod run_writer;
mod slot;
mod value_reader;
mod worked;

pub use head::read_head;
pub use item_reader::read_item;
pub use item_writer::put_item;
pub use laws::{items_stand_apart, runs_behind_change_nothing};
pub use lengths::{item_len, row_len};
pub use mvt_codec::{Group, ItemKey, RunItem};
pub use run_buffer::RunBuffer;
pub use tb_outside::{RunAt, Spill, SpillErr};
pub use worked::worked_items;

#[cfg(test)]
mod item_tests;
#[cfg(test)]
mod tests;
