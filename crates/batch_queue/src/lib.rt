//! A queue of batches: takes blocks with their grants from several threads, gives each of them on, once.
//!
//! A batch is a block's bytes with the grant of memory that covers its need; it can't be dropped. A pass is what a
//! thread pushes and pops with; it stands for the lists of what the thread pushed and popped. Once all passes are
//! joined again, the one that is left knows that what was pushed is what was popped and what is left.
//! Read `batch`, then `queue` (the calls) and `pass`, then `rule` and `specs/Rule.antt` (what always holds).
#![tactic(auto)]

mod batch;
mod entry;
mod pass;
mod queue;
mod rule;
mod worked;

pub use batch::Batch;
pub use pass::QueuePass;
pub use queue::BatchQueue;
pub use worked::worked_order;

#[cfg(test)]
mod tests;
