//! Cuts: takes the shape of a feature on a zoom's grid, gives its part in one tile and the tile's buffer.
//!
//! A tile is where two strips cross, that of its column and that of its row. So a shape is cut by one strip and then by the
//! other, edge by edge; then what is left is cleaned up, so that each line and ring of a tile has one form. Read `axis`,
//! `crossing` (where an edge meets a bound) and `strip` (one edge in a strip), then `line` and `ring`, then `clean` and
//! `window`, then `cut_line`, `cut_area` and `shape` (a whole shape).
#![tactic(auto)]

mod axis;
mod clean;
mod crossing;
mod cut_area;
mod cut_line;
#[cfg(test)]
mod cut_tests;
mod line;
mod ring;
mod shape;
mod strip;
#[cfg(test)]
mod tests;
mod window;
mod worked;

pub use axis::Axis;
pub use clean::clean_ring;
pub use cut_area::has_area_left;
pub use line::strip_line;
pub use ring::strip_ring;
pub use shape::{cut, some_area, some_line};
pub use strip::{Strip, is_inside, meets, reach};
pub use window::Window;
pub use worked::worked_cuts;
