//! A build on one lane: takes a profile and the extract that a lane's reader has, gives its archive to a sink.
//!
//! Read `engine` and `extract` (the passes by their names), then along the way of the bytes: `profile`, `survey` (which blocks the
//! extract has), `booking`, `elements` (one block), the passes `members`, `nodes`, `ways` and `relations`, `map` (what the archive says of
//! the map) and `tiles`. What a build promises by its answer stands in `specs/Answers`; what is due is `tile_model`'s `Due`.
#![tactic(auto)]

mod booking;
mod elements;
mod engine;
mod extract;
mod map;
mod members;
mod needs;
mod node_work;
mod nodes;
mod numbers;
mod profile;
mod relations;
mod stop;
mod survey;
mod tiles;
mod way_work;
mod ways;
mod worked;

pub use engine::{build, build_beside, builds_are_complete};
pub use pmtiles_file::Totals;
pub use tile_model::{ProfileFrom, Stop};
pub use worked::worked_rows;
