//! The order of a pass's steps: takes units and what loads, puts and emits them, gives each step its turn.
//!
//! A pass does three things with each unit: it loads it, puts what it gives into stores, and emits what it gives as items.
//! Here these steps are done one after another without threads, either unit after unit, or as lanes would do them whose turns are
//! drawn from a sequence of numbers: a rehearsal of what lanes may do. Read `step`, `steps` (who does them), `drawn` and `order`
//! (in which order), `plan` (the steps of drawn lanes), `walk` (steps in any such order), then `pass` and `laws`.
#![tactic(auto)]

mod drawn;
mod error;
mod laws;
mod order;
mod pass;
mod plan;
mod step;
mod steps;
mod walk;
mod worked;

pub use drawn::Drawn;
pub use error::OrderErr;
pub use laws::{every_drawn_pass_ends, every_order_is_whole, every_schedule_is_whole};
pub use order::Order;
pub use pass::drive;
pub use step::Step;
pub use steps::Steps;
pub use worked::worked_orders;

#[cfg(test)]
mod tests;
