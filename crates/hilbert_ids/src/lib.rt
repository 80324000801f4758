//! Tile ids: takes a tile by its zoom, column and row, gives its number in an archive, and the tile back.
//!
//! The tiles of a zoom lie along a Hilbert curve. It runs through the four quadrants of a square in a fixed order, and
//! inside each quadrant it is the curve of half the side, turned. So one step a zoom level goes into a quadrant or out
//! of it. Read `quadrant` (one such step), then `zoom` (where the ids of a zoom begin), then `id` (all steps).
#![tactic(auto)]

mod id;
mod laws;
mod quadrant;
mod zoom;

pub use id::{id_of, xyz_of};
pub use laws::ids_are_inverse;
pub use zoom::MAX_ZOOM;
