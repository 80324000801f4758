//! The lane machine: takes the needs of units and the events of lanes, gives the state after each event.
//!
//! Lanes claim units, book their needs in one part of memory, load them and push them into one queue; lanes pop units
//! from it, work them and give the booked need back. Here this is one value with no threads: an event is one action of
//! one lane, and it is possible now or it isn't. Every list of possible events comes to the same end: each unit is done
//! once, and nothing is booked. Read `event` (what a lane may do), `lane` (what a lane has in hand), `machine` (the
//! machine), then `flow` (what each event needs and does) and `laws` (what holds of every list of events).
#![tactic(auto)]

mod event;
mod flow;
mod lane;
mod laws;
mod machine;
mod worked;

pub use event::{Event, NotNow};
pub use lane::{Entry, LaneState, Own, Work};
pub use laws::{every_schedule_ends, kept_by_lane, settled_means_done};
pub use machine::Core;
pub use worked::worked_events;

#[cfg(test)]
mod tests;
