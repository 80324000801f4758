//! Steps of the passes that make shapes: takes the elements of a block, gives where nodes are, shapes of ways, and the items of features.
//!
//! Each pass has two steps on a block: what it puts into a store, and which items it emits. Read `located` (where needed nodes
//! are), `points` (the items of nodes), `path` (where the nodes of a way are), `shaped` (the shapes of needed ways), `ways` (the
//! items of ways), `member_ways`, `needs` (what relations need) and `relations` (the items of kept relations), then how a shape of the world becomes items:
//! `feature` (zoom after zoom), `simple` (what is left of it on a zoom's grid) and `pieces` (an item for each tile that it is cut
//! into).
#![tactic(auto)]

mod attributes;
mod emit;
mod feature;
mod id;
mod layer;
mod located;
mod member_ways;
mod needs;
mod numbers;
mod path;
mod pieces;
mod points;
mod relations;
mod shaped;
mod simple;
mod ways;

pub use located::put_located;
pub use needs::largest_relation;
pub use points::put_points;
pub use relations::put_relations;
pub use shaped::put_shaped;
pub use ways::put_ways;
