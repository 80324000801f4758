//! Shards of joined values: takes entries of an id and a value from many threads, gives the map of the joins.
//!
//! An id belongs to one of 64 shards, by its remainder. A shard is a list of entries behind a turn: a thread that takes
//! the turn has the list alone, puts its entries behind it and gives the turn back, so that nobody waits for a lock. At
//! the close each list is sorted where it lies, and entries of one id are joined; so the order in which threads came
//! makes no difference.
//! Read `join` (what values have to be), `shard` (which shard an id belongs to), `map` (what a close gives)
//! and `entries`, then `shards` and `seat` (the calls), `rule` with `specs/Rule` (what always holds), `putting` and `closing`.
#![tactic(auto)]

mod closing;
mod entries;
mod join;
mod laws;
mod map;
mod putting;
mod rule;
mod seat;
mod shard;
mod shards;
mod worked;

pub use join::Join;
pub use laws::puts_grow;
pub use map::ShardMap;
pub use putting::put_all;
pub use seat::ShardSeat;
pub use shard::shard_of;
pub use shards::{PutErr, Shards};
pub use worked::worked_joins;

#[cfg(test)]
mod tests;
