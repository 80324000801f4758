//! Integer Mercator: takes a latitude and a longitude in nanodegrees, gives a point of the world, and its place on a grid.
//!
//! The projection is a table of 5,445 knots, one each 1/64 degree from the equator to 85.0625 degrees north, made once by
//! whole numbers alone. So each machine gives the same points. Between two knots a point lies on a straight line; at tested
//! latitudes it is at most 2^12 units from Web Mercator, where the world is 2^32 units wide. Read `cosine` (the series of
//! the cosine), then `table` (the knots), then `world` (points of the world and of a grid).
#![tactic(auto)]

mod cosine;
mod table;
mod world;

pub use table::{Table, table_facts};
pub use world::{LAT_LIMIT, LON_LIMIT, grid, project};
