//! The commands: takes the words of a command line and the objects outside, gives the status, with the archive written or read.
//!
//! Read `run` (the top call), `command`, `number` and `names` (its words), `status` (the one table of statuses), then `line` and `pieces`
//! (what stands on the console), `generate`, `trial` and `trial_line`. What the answers promise stands in `specs/Answers`, and laws of it in `laws`.
#![tactic(auto)]

mod command;
mod generate;
mod laws;
mod line;
mod names;
mod number;
mod pieces;
mod run;
mod status;
mod trial;
mod trial_line;

pub use laws::{
    done_means_generated, done_means_shown, done_means_written, generating_is_complete,
    looks_are_complete, only_words_are_not_understood, worked_words,
};
pub use names::{Names, names_of};
pub use run::{refuse_memory, run_one};
pub use status::Refusal;

#[cfg(test)]
mod tests;
