ghost use Rattle.std.specs.Prelude.{◌≡◌, IfSome};
ghost use Rattle.pmtiles_dirs.specs.Bounds.{whole_world, bounds_in, bounds_of, hundredth, middle, CanBeWritten, FitsFourBytes};

use tb_types::Bounds;

/// Nanodegrees in a unit of a map's bounds, which is 10^-7 degrees.
const UNIT: i64 = 100;

/// The bounds of a map, in 10^-7 degrees.
#[derive(Clone, Copy, Debug, PartialEq, Eq)]
pub struct MapBounds {
    west: i32,
    south: i32,
    east: i32,
    north: i32,
}

/// A map of the world, as far as it is shown: 180 west and 85 south to 180 east and 85 north.
pub fn whole_world() -> MapBounds
    ensures { result ≡ whole_world }
{
    MapBounds {
        west: -1_800_000_000,
        south: -850_000_000,
        east: 1_800_000_000,
        north: 850_000_000,
    }
}

/// The bounds of a map by a box in nanodegrees, or of the world where there is none.
pub fn bounds_of(found: Option<Bounds>) -> MapBounds
    requires { IfSome found CanBeWritten }
    ensures { result ≡ bounds_of found }
{
    match found {
        None => whole_world(),
        Some(found) => bounds_in(found),
    }
}

fn bounds_in(found: Bounds) -> MapBounds
    requires { CanBeWritten found }
    ensures { result ≡ bounds_in found }
{
    MapBounds {
        west: hundredth(found.left),
        south: hundredth(found.bottom),
        east: hundredth(found.right),
        north: hundredth(found.top),
    }
}

// Nanodegrees in 10^-7 degrees, rounded down.
fn hundredth(n: i64) -> i32
    requires { FitsFourBytes (hundredth n) }
    ensures { result ≡ hundredth n }
{
    n.div_euclid(UNIT) as i32
}

impl MapBounds {
    pub fn west(self) -> i32
        ensures { result ≡ self.west }
    {
        self.west
    }

    pub fn south(self) -> i32
        ensures { result ≡ self.south }
    {
        self.south
    }

    pub fn east(self) -> i32
        ensures { result ≡ self.east }
    {
        self.east
    }

    pub fn north(self) -> i32
        ensures { result ≡ self.north }
    {
        self.north
    }

    /// The longitude half-way, rounded down.
    pub fn centre_lon(self) -> i32
        ensures { result ≡ middle self.west self.east }
    {
        middle(self.west, self.east)
    }

    /// The latitude half-way, rounded down.
    pub fn centre_lat(self) -> i32
        ensures { result ≡ middle self.south self.north }
    {
        middle(self.south, self.north)
    }
}

// The mean of two bounds, rounded down.
fn middle(one: i32, other: i32) -> i32
    ensures { result ≡ middle one other }
{
    (i64::from(one) + i64::from(other)).div_euclid(2) as i32
}
