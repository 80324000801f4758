//! Stores of a pass: takes maps of what many threads put at places of the extract, gives what stands at the greatest place.
//!
//! An element's id may stand in an extract more than once; the one at the greatest place counts, whoever came first.
//! Read `located` (a node's place and point) and `shaped` (a way's place and shape), `store` (both stores), and `laws` (that
//! the greatest place decides).
#![tactic(auto)]

mod laws;
mod located;
mod shaped;
mod store;
mod worked;

pub use laws::greatest_place_decides;
pub use located::Located;
pub use shaped::Shaped;
pub use store::{Locations, Shapes, Store};
pub use worked::worked_places;

#[cfg(test)]
mod tests;
#[cfg(test)]
mod thread_tests;
