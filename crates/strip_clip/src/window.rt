ghost use Rattle.std.specs.Prelude.{◌≡◌, ◌^◌, ◌<◌, ◌≤◌, All, map, IfOk};
ghost use Rattle.strip_clip.specs.Cuts.{corner_of, column, row, relative, IsCorner, IsInTile};

use super::axis::Axis;
use super::strip::Strip;
use std::alloc::Global;
use tb_types::{EXTENT, Grid, Memory, TileXyz};

/// A tile and its buffer, through which a shape is seen: the tile's upper left corner on the grid of its zoom, which is at
/// most 14, and the width of the buffer, at most 256 units.
#[derive(Clone, Copy, Debug, PartialEq, Eq)]
pub struct Window {
    pub corner: Grid,
    pub buffer: u32,
    ghost on_grid: { IsCorner corner },
    ghost narrow: { buffer ≤ 256 },
}

impl Window {
    /// The window of a tile, whose x and y are below 2^14, with a buffer of at most 256 units.
    pub fn of_tile(tile: TileXyz, buffer: u32) -> Window
        requires x { tile.x < 2 ^ 14 }
        requires y { tile.y < 2 ^ 14 }
        requires buffer { buffer ≤ 256 }
        ensures corner { result.corner ≡ corner_of tile }
        ensures buffer { result.buffer ≡ buffer }
    {
        Window {
            corner: corner(tile),
            buffer,
        }
    }

    /// The strip of the tile's column, with its buffer.
    pub fn column(self) -> Strip
        ensures { result ≡ column self.corner self.buffer }
    {
        Strip {
            axis: Axis::X,
            lo: self.corner.x - self.buffer as i32,
            hi: self.corner.x + (EXTENT + self.buffer) as i32,
        }
    }

    /// The strip of the tile's row, with its buffer.
    pub fn row(self) -> Strip
        ensures { result ≡ row self.corner self.buffer }
    {
        Strip {
            axis: Axis::Y,
            lo: self.corner.y - self.buffer as i32,
            hi: self.corner.y + (EXTENT + self.buffer) as i32,
        }
    }

    /// A point of the window, counted from the tile's corner.
    pub fn from_corner(self, p: Grid) -> Grid
        requires { IsInTile self.corner self.buffer p }
        ensures { result ≡ relative self.corner p }
    {
        Grid {
            x: p.x - self.corner.x,
            y: p.y - self.corner.y,
        }
    }

    // Points of the window, counted from the tile's corner.
    pub(crate) fn all_from_corner(self, alloc: Global, points: &[Grid]) -> Result<Vec<Grid>, Memory>
        requires { All (IsInTile self.corner self.buffer) points.now }
        ensures { IfOk result (λ moved. moved.items ≡ map (relative self.corner) points.now) }
    {
        let mut moved = Vec::with_capacity(alloc, points.len())?;
        for p in points {
            moved.push(self.from_corner(*p))?;
        }
        Ok(moved)
    }
}

// The corner of a tile, on the grid of its zoom.
fn corner(tile: TileXyz) -> Grid
    requires x { tile.x < 2 ^ 14 }
    requires y { tile.y < 2 ^ 14 }
    ensures exact { result ≡ corner_of tile }
    ensures small { IsCorner result }
{
    Grid {
        x: (tile.x * EXTENT) as i32,
        y: (tile.y * EXTENT) as i32,
    }
}
