//! Numbers of the passes, and of memory.

/// Lanes that a build on one lane has.
pub const LANES: u64 = 1;

/// Passes behind the survey.
pub const MEMBERS: u8 = 1;

pub const NODES: u8 = 2;

pub const WAYS: u8 = 3;

/// Bytes that the items of a tile need for each of their bytes, and besides.
pub const TILE_FACTOR: u64 = 4;

pub const TILE_REST: u64 = 131_072;

/// The most bytes that a value of any type takes.
pub const MOST_BYTES: usize = isize::MAX as usize;
