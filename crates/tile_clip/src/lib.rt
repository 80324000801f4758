//! Pieces: takes the shape of a feature on a zoom's grid, gives each tile of the zoom that has a part of it, with that part.
//!
//! A shape is cut by columns and then by rows, each time from its own edges. The columns that it reaches are halved until
//! one is left, and to each half only the edges go that touch it; in a column its rows are halved likewise, until one is left
//! or all of them are alike. So the work is that of the edges and pieces, and a tile that the shape misses costs nothing.
//! Read `taker` (who is given the pieces), `edge` and `outline` (a shape as edges), `paths` and `rings` (what a strip keeps of
//! them), `piece` (what is left in a tile) and `steady` (rows that are alike), then `tiling` and `span` (which columns and
//! rows), then `divided` (the halving, once for both), `rows`, `columns` and `pieces` (all tiles).
#![tactic(auto)]

mod columns;
#[cfg(test)]
mod count_tests;
mod divided;
mod edge;
mod outline;
mod paths;
mod piece;
mod pieces;
mod rings;
mod rows;
mod span;
mod steady;
mod taker;
#[cfg(test)]
mod tests;
mod tiling;
mod worked;

pub use pieces::for_tiles;
pub use taker::{ClipErr, PieceTaker};
pub use worked::worked_pieces;
