//! Areas of relations: takes the shapes of member ways, gives rings, and of rings the polygons that they bound.
//!
//! Ways are joined end to end, always by the lowest unused way that has the chain's end node, until the chain closes. Rings
//! are nested by how many other rings contain them. Read `way` (what is joined), then `clean` (which rings stay), then
//! `unused` (which way comes next) and `chain` (rings of ways), then `envelope` and `outline` (boxes around rings), `side` (where
//! a point lies), `contain` (which ring contains which) and `polygon` (polygons of rings).
#![tactic(auto)]

mod chain;
mod clean;
mod contain;
mod envelope;
mod outline;
mod polygon;
mod side;
#[cfg(test)]
mod tests;
mod unused;
mod way;
mod worked;

pub use chain::assemble;
pub use polygon::{Polygon, nest};
pub use way::WayShape;
pub use worked::{worked_polygons, worked_rings};
