//! A town for trials: takes a seed and a number of elements, gives the frames of an extract, one after another.
//!
//! All that is drawn comes from one sequence of numbers, so the place of a draw in it is known for each element, and frames
//! are made without what came before them. Read `numbers` (the sequence), `counts`, then `node`, `way` and `relation` (what is
//! drawn), `word` and `strings` (texts and their table), `put`, `dense`, `tagged` and `block` (the bytes of a block), `frame`, and `world`
//! (the frames in order).
#![tactic(auto)]

mod block;
mod counts;
mod dense;
mod field;
mod frame;
mod node;
mod numbers;
mod put;
mod relation;
mod strings;
mod tagged;
mod way;
mod way_id;
mod word;
mod worked;
mod world;

pub use numbers::Numbers;
pub use worked::worked_extracts;
pub use world::{GenWorld, gen_blocks};

#[cfg(test)]
mod tests;
