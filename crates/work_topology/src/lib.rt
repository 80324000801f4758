//! Lanes side by side: takes lanes, blocks and a job, gives what each lane gathered, with each block worked once.
//!
//! Each lane claims blocks, books memory for them, loads them and puts them into one queue; each takes blocks out of it
//! and works them. `fan_out` is the same fan-out over any items.
//! Read `body` (a body and its runs), `job` (what a pass does with blocks), `ends` (how it ended), then `pass`.
#![tactic(auto)]

mod body;
mod deal;
mod drain;
mod ends;
mod halves;
mod job;
mod lanes;
mod lister;
mod lists;
mod places;
mod post;
mod sides;
mod together;
mod trouble;
mod worker;

pub use batch_queue::{Batch, BatchQueue, QueuePass};
pub use body::{Body, fan_out};
pub use claim_desk::{Desk, DeskSeat};
pub use ends::{Done, Ends};
pub use job::PassJob;
pub use lanes::pass;
pub use lister::{Lister, Tally};
pub use memory_book::{Book, Busy, Grant, Purse, SharedBook};

#[cfg(test)]
mod tests;
