//! The outside: takes bytes in memory or names of files, gives the objects that a build reads, writes and spills to.
//!
//! A source is read by place, a sink is appended to, a spill keeps runs of bytes that are written and read again. Each
//! may tell its content to contracts, and each has a count of faults that never falls: `Failed` comes only where it rose.
//! Read `source`, `sink` and `spill` (the traits), then the objects in memory, which tell everything, then those over
//! files, which tell nothing.
#![tactic(auto)]

mod count_sink;
mod failed;
mod file_sink;
mod file_source;
mod file_spill;
mod gate;
mod lane;
mod mem_sink;
mod mem_source;
mod mem_spill;
mod plan;
mod run_file;
mod run_store;
mod sink;
mod source;
mod spill;
mod steady_source;
mod steady_spill;

pub use count_sink::CountSink;
pub use failed::Failed;
pub use file_sink::FileSink;
pub use file_source::FileSource;
pub use file_spill::FileSpill;
pub use gate::{FreeGate, Gate};
pub use lane::Lane;
pub use mem_sink::MemSink;
pub use mem_source::MemSource;
pub use mem_spill::MemSpill;
pub use sink::Sink;
pub use source::Source;
pub use spill::{RunAt, Spill, SpillErr};
pub use steady_source::SteadySource;
pub use steady_spill::SteadySpill;

#[cfg(test)]
mod tests;
