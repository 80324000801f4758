//! Steps of the first two passes: takes the body or the elements of a block, gives what was found of all, and the needed ways and nodes.
//!
//! What is found of a block is added to what was found of others, whatever their order, and put into the order of the file at
//! the end. So one lane and many share these steps.
//! Read `found` (what is found, joined and arranged), `take` (what a block brings), `kept` (the relations of which a profile
//! makes something), `ways` (the ways that they need), then `needed` (the nodes that ways need).
#![tactic(auto)]

mod body;
mod found;
mod header;
mod kept;
mod laws;
mod least;
mod needed;
mod take;
mod ways;

pub use body::{block_in, header_in};
pub use found::Found;
pub use header::HeaderAt;
pub use kept::put_kept;
pub use laws::found_laws;
pub use needed::put_needed;
pub use ways::needed_ways;

#[cfg(test)]
mod tests;
