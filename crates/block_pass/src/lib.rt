//! One pass over blocks on one lane: takes a reader, blocks and what is done with each, gives each step its turn.
//!
//! A pass loads the body of each block, reads it, puts what it gives into stores and emits what it gives as items. The steps are
//! done unit after unit or as drawn lanes would do them, as `pass_order` has it. Read `work` (what is done with blocks), `error`,
//! `steps` (the steps of a pass as `pass_order` takes them), then `pass`.
#![tactic(auto)]

mod error;
mod load;
mod needs;
mod pass;
mod steps;
mod work;

pub use error::PassErr;
pub use needs::{block_need, needs_of};
pub use pass::pass_blocks;
pub use pass_order::{Drawn, Order};
pub use work::Work;
