ghost use Rattle.std.specs.Prelude.{◌≡◌, ◌+◌, ◌*◌, ◌^◌, ◌<◌, ◌≤◌, pos, ◌+ℤ◌, ◌-ℤ◌, ◌<ℤ◌};
ghost use Rattle.strip_clip.specs.Cuts.{corner_of};
ghost use Rattle.tile_clip.specs.Outlines.{strip_of};
ghost use Rattle.tile_clip.specs.Pieces.{tile_at};

use strip_clip::{Axis, Strip, Window};
use tb_types::{EXTENT, TileXyz};

// A zoom of at most 14, and how many units around each of its tiles, at most 256, belong to the tile too.
#[derive(Clone, Copy, Debug, PartialEq, Eq)]
pub struct Tiling {
    pub z: u8,
    pub buffer: u32,
    ghost zoom: { z ≤ 14 },
    ghost narrow: { buffer ≤ 256 },
}

// A column of a zoom's tiles.
#[derive(Clone, Copy, Debug, PartialEq, Eq)]
pub struct Column {
    pub tiling: Tiling,
    pub x: u32,
    ghost on_grid: { x < 2 ^ tiling.z },
}

impl Column {
    // The tile in a row.
    pub fn tile(self, y: u32) -> TileXyz
        ensures { result ≡ tile_at self.tiling.z self.x y }
    {
        TileXyz {
            z: self.tiling.z,
            x: self.x,
            y,
        }
    }

    // The window of the tile in a row.
    pub fn window(self, y: u32) -> Window
        requires { y < 2 ^ self.tiling.z }
        ensures corner { result.corner ≡ corner_of (tile_at self.tiling.z self.x y) }
        ensures buffer { result.buffer ≡ self.tiling.buffer }
    {
        Window::of_tile(self.tile(y), self.tiling.buffer)
    }
}

// The strip of so many columns or rows from a first one on, with the buffer.
pub fn strip_of(axis: Axis, tiling: Tiling, first: u32, count: u32) -> Strip
    requires { first + count ≤ 2 ^ tiling.z }
    ensures { result ≡ strip_of axis tiling.buffer first count }
{
    Strip {
        axis,
        lo: low(first, tiling.buffer),
        hi: high(first + count, tiling.buffer),
    }
}

fn low(at: u32, buffer: u32) -> i32
    requires buffer { buffer ≤ 256 }
    requires at { at ≤ 2 ^ 14 }
    ensures { result ≡ pos (4096 * at) -ℤ pos buffer }
{
    (at * EXTENT) as i32 - buffer as i32
}

fn high(at: u32, buffer: u32) -> i32
    requires buffer { buffer ≤ 256 }
    requires at { at ≤ 2 ^ 14 }
    ensures { result ≡ pos (4096 * at) +ℤ pos buffer }
{
    (at * EXTENT + buffer) as i32
}

// How many columns a zoom has, and how many rows.
pub fn side(z: u8) -> u32
    requires { z ≤ 14 }
    ensures { result ≡ 2 ^ z }
{
    1 << z
}

// The number of columns or rows that end before a coordinate, with the buffer.
pub fn first_from(lo: i32, buffer: u32) -> u32
    ensures { (at : _) → at < result → (pos (4096 * at) +ℤ pos (4096 + buffer)) <ℤ lo }
{
    if lo < 0 {
        return 0;
    }
    let before = lo as u32;
    if before <= buffer {
        return 0;
    }
    (before - buffer - 1) / EXTENT
}

// The number from which on they begin after a coordinate, or that of all where it is less.
pub fn end_after(hi: i32, buffer: u32, side: u32) -> u32
    requires { buffer ≤ 256 }
    ensures within { result ≤ side }
    ensures after { (at : _) → result ≤ at → at < side → hi <ℤ (pos (4096 * at) -ℤ pos buffer) }
{
    let most = if hi < 0 { 0 } else { hi as u32 };
    let end = (most + buffer) / EXTENT + 1;
    if end < side { end } else { side }
}
