//! Simplified lines: takes the points of a path and a tolerance, gives the points that the path keeps.
//!
//! Both ends stay. Of the points between two ends the one that lies farthest from the part between them is kept, if it is
//! farther than the tolerance, and then both sides of it are treated likewise; else all of them go. Distances are compared
//! by whole numbers alone, each multiplied by the square of the part's length. Read `key` (how far a point lies), then
//! `farthest` (which point of a part is kept), then `path` (all parts of a path).
#![tactic(auto)]

mod farthest;
mod key;
mod path;
mod worked;

pub use path::simplify;
pub use worked::worked_paths;
