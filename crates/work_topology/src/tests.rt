//! Passes over blocks of ten bytes by lanes in memory.
mod fans;
mod fixtures;
mod passes;
mod teller;
mod troubles;
mod turns;
