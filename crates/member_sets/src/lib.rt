//! Sets of needed ids: takes ids from many threads, gives sets that tell which ids were put.
//!
//! A set is a map of shards whose values have no content, so that an id stands in it or not.
//! Read `unit` (the value), `put` (how ids are put), then `needed` (the sets) and `kept` (a kept relation).
#![tactic(auto)]

mod kept;
mod needed;
mod put;
mod unit;

pub use kept::KeptRelation;
pub use needed::{Needed, NeededNodes, NeededWays, Nodes, Ways};
pub use put::put_ids;
pub use unit::Unit;

#[cfg(test)]
mod tests;
