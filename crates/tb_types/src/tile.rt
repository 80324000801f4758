/// The width and height of a tile, in units of its zoom's grid.
pub const EXTENT: u32 = 4096;

/// A tile by its zoom, its column and its row.
#[derive(Clone, Copy, Debug, PartialEq, Eq)]
pub struct TileXyz {
    pub z: u8,
    pub x: u32,
    pub y: u32,
}

/// The number of a tile in an archive: the tiles of all lower zooms come before it, and those of its own zoom along a
/// Hilbert curve.
#[derive(Clone, Copy, Debug, PartialEq, Eq, PartialOrd, Ord, Hash)]
pub struct TileId(pub u64);
