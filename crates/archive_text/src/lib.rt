//! Archives as text: takes a source of an archive's bytes, gives the text of `check` or `show`, or the archive's first fault.
//!
//! For either text each content of the archive is first read as a tile, once, however many tiles have it, and either is made
//! whole before any of it is given. Read `contents` (the contents of an archive and its totals, by `counted`), then `check`, and
//! `show` with `tile`, `row` and `attributes` (the text of a tile's layers).
#![tactic(auto)]

mod attributes;
mod check;
mod contents;
mod counted;
mod number;
mod row;
mod show;
mod span;
mod tile;
mod totals;

pub use check::check_archive;
pub use pmtiles_read::{ArcFault, ArcWhy, ReadErr};
pub use show::show_tile;

#[cfg(test)]
mod tests;
