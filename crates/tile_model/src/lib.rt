//! The model of tiles: takes the features of an extract, gives the rows of each tile, and the laws that tie builds to them.
//!
//! A tile's rows are said tile by tile: of all features those of which the tile's cut leaves something, in order. A build meets
//! features one by one, gives each an item in every tile that it reaches, sorts all items by key and groups them by tile.
//! Read `specs` in this order: `Features`, `Keys`, `Walks`, `Tiles`, `Points` (what the words mean), then what is proved of
//! them, `TileLaws`, `BuildLaws`, `PointLaws`. Callers cite the laws from `proofs/Proved`, such as `build.grouped`.
//! What is due for a profile (`from`) and an extract, an archive or a `stop`, is said in `specs/Due`.
#![tactic(auto)]

mod from;
mod laws;
mod order;
mod reach;
mod stop;
#[cfg(test)]
mod tests;
mod trial;
mod worked;
mod world;

pub use from::ProfileFrom;
pub use laws::{build_laws, differ_laws, extract_laws, point_laws, tile_laws};
pub use order::{sort_items, tile_len};
pub use reach::{Reach, Strips, from_corner, reach_of_point};
pub use stop::Stop;
pub use trial::trial_text;
pub use worked::worked_tiles;
pub use world::{Origin, WorldShape};
