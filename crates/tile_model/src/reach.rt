ghost use Rattle.std.specs.Prelude.{◌≡◌, ◌*◌, ◌^◌, ◌≤◌, ◌-ℤ◌, pos};
ghost use Rattle.strip_clip.specs.Cuts.{IsBetween, corner_of, relative};
ghost use Rattle.tile_model.specs.Points.{AreFew, AreStrips, HoldsAt, IsOnGrid, IsPointTold, reach_tiles};

use tb_types::{EXTENT, Grid, TileXyz};

/// Neighbouring columns or rows of tiles, from the first to the last.
#[derive(Clone, Copy, Debug, PartialEq, Eq)]
pub struct Strips {
    pub first: u32,
    pub last: u32,
}

/// The tiles where some columns and rows cross.
#[derive(Clone, Copy, Debug, PartialEq, Eq)]
pub struct Reach {
    pub columns: Strips,
    pub rows: Strips,
}

/// The tiles of a zoom in which a point of its grid stands, also those that hold it in their buffers alone: one or two
/// columns, and one or two rows. The bounds of a tile with its buffer are inside, so a point on a corner stands in four
/// tiles. Tiles have columns and rows below 2^zoom, so the world's far edge belongs to the last tile, and no buffer
/// reaches round the world.
///
/// The zoom is at most 14, the point within 0 and 4096 * 2^zoom, and the buffer at most 256 units.
pub fn reach_of_point(p: Grid, zoom: u8, buffer: u32) -> Reach
    requires zoom { zoom ≤ 14 }
    requires grid { IsOnGrid zoom p }
    requires buffer { buffer ≤ 256 }
    ensures told { IsPointTold zoom buffer p (reach_tiles zoom result) }
    ensures columns { AreFew zoom result.columns }
    ensures rows { AreFew zoom result.rows }
{
    Reach {
        columns: strips_of(p.x, zoom, buffer),
        rows: strips_of(p.y, zoom, buffer),
    }
}

/// A point of a zoom's grid counted from the upper left corner of a tile.
pub fn from_corner(p: Grid, zoom: u8, tile: TileXyz) -> Grid
    requires zoom { zoom ≤ 14 }
    requires grid { IsOnGrid zoom p }
    requires column { tile.x ≤ 16383 }
    requires row { tile.y ≤ 16383 }
    ensures { result ≡ relative (corner_of tile) p }
{
    Grid {
        x: past(p.x, zoom, tile.x),
        y: past(p.y, zoom, tile.y),
    }
}

// How far past the bound of a column or row a coordinate lies.
fn past(c: i32, zoom: u8, strip: u32) -> i32
    requires zoom { zoom ≤ 14 }
    requires within { IsBetween (pos 0) (pos (4096 * 2 ^ zoom)) c }
    requires strip { strip ≤ 16383 }
    ensures { result ≡ c -ℤ pos (4096 * strip) }
{
    c - (strip * EXTENT) as i32
}

// The columns or rows whose strips with the buffer hold a coordinate.
fn strips_of(c: i32, zoom: u8, buffer: u32) -> Strips
    requires zoom { zoom ≤ 14 }
    requires within { IsBetween (pos 0) (pos (4096 * 2 ^ zoom)) c }
    requires buffer { buffer ≤ 256 }
    ensures { HoldsAt zoom buffer c result }
{
    strips_past(c.unsigned_abs(), zoom, buffer)
}

// The same of a coordinate without a sign.
fn strips_past(c: u32, zoom: u8, buffer: u32) -> Strips
    requires zoom { zoom ≤ 14 }
    requires within { c ≤ 4096 * 2 ^ zoom }
    requires buffer { buffer ≤ 256 }
    ensures { AreStrips zoom buffer c result }
{
    let side = side(zoom);
    let first = c.saturating_sub(buffer + 1) / EXTENT;
    let last = ((c + buffer) / EXTENT).min(side - 1);
    Strips { first, last }
}

// How many columns, and rows, a zoom has.
fn side(zoom: u8) -> u32
    requires { zoom ≤ 14 }
    ensures exact { result ≡ 2 ^ zoom }
    ensures some { 1 ≤ result }
    ensures small { result ≤ 16384 }
{
    1 << zoom
}
