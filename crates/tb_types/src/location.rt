/// A latitude and a longitude, in nanodegrees.
#[derive(Clone, Copy, Debug, PartialEq, Eq)]
pub struct LatLon {
    pub lat: i64,
    pub lon: i64,
}

/// A box of latitudes and longitudes, in nanodegrees.
#[derive(Clone, Copy, Debug, PartialEq, Eq)]
pub struct Bounds {
    pub left: i64,
    pub right: i64,
    pub top: i64,
    pub bottom: i64,
}

/// A point of the projected world, which is 2^32 units wide and high. Its y grows to the south.
#[derive(Clone, Copy, Debug, PartialEq, Eq, PartialOrd, Ord)]
pub struct World {
    pub x: u32,
    pub y: u32,
}

/// A point of a zoom's grid, which has 4096 units a tile, or of one tile, counted from its corner.
#[derive(Clone, Copy, Debug, PartialEq, Eq, PartialOrd, Ord)]
pub struct Grid {
    pub x: i32,
    pub y: i32,
}
