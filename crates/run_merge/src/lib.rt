//! The merge of sorted runs: takes the runs of all lanes, gives the items of one tile after another.
//!
//! At most 64 runs are read at once, each through 4,096 bytes. Where there are more, neighbours are first merged into runs of
//! the spool, until 64 are left. Read `named_run` (whose spill a run stands in) and `cursor` (how far it is read), then
//! `read_from`, `window` and `run_reader` (a run that is read item by item), `tournament`, `least` and `steps` (which item is next,
//! of all runs), `gather` (the items of one tile), `middle` (runs of the spool), `opening` (which runs are merged into them), and
//! last `merge`.
#![tactic(auto)]

mod cursor;
mod gather;
mod laws;
mod least;
mod merge;
mod merge_err;
mod middle;
mod named_run;
mod opening;
mod read_from;
mod run_reader;
mod steps;
mod tournament;
mod window;
mod worked;

pub use feature_runs::{Group, ItemKey, RunAt, RunItem};
pub use laws::{runs_are_read_again, runs_behind_change_nothing};
pub use merge::Merge;
pub use merge_err::MergeErr;
pub use worked::worked_runs;

#[cfg(test)]
mod quiet;
#[cfg(test)]
mod tests;
