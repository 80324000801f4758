//! Numbers of the formats (Mapbox Vector Tile 2.1) and limits.

/// The command that moves to one point.
pub const MOVE_TO_ONE: u32 = 9;

/// What is cut has fewer points than this, 2^27.
pub const POINT_LIMIT: usize = 1 << 27;

/// The row of an item has fewer bytes than this, 2^32.
pub const ROW_LIMIT: u64 = 1 << 32;

/// Bytes that a relation needs for each point of its member ways, and besides.
pub const RELATION_FACTOR: u64 = 32;

pub const RELATION_REST: u64 = 65_536;
