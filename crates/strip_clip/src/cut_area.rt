ghost use Rattle.std.specs.Prelude.{◌≡◌, false, filter_map, IfOk};
ghost use Rattle.strip_clip.specs.Cuts.{cut_ring, cut_polygon, leaves_some};

use super::clean::{clean_ring, doubled_area};
use super::ring::ring_in;
use super::window::Window;
use std::alloc::Global;
use tb_types::{Grid, GridPolygon, Memory, Seq};

// The polygons of an area in a tile and its buffer, counted from the tile's corner, after clean-up.
pub(crate) fn area_in_tile(
    alloc: Global,
    window: Window,
    polygons: &[GridPolygon],
) -> Result<Seq<GridPolygon>, Memory>
    ensures { IfOk result (λ left. left ≡ filter_map (cut_polygon window.corner window.buffer) polygons.now) }
{
    let mut left = Seq::new(alloc);
    for polygon in polygons {
        if let Some(part) = polygon_in_tile(alloc, window, polygon)? {
            left.push(part)?;
        }
    }
    Ok(left)
}

// A polygon in a tile and its buffer, unless its outer ring is dropped or filled by its holes.
#[tactic(auto, unfolding(crate::specs::Cuts::cut_polygon))]
fn polygon_in_tile(
    alloc: Global,
    window: Window,
    polygon: &GridPolygon,
) -> Result<Option<GridPolygon>, Memory>
    ensures { IfOk result (λ left. left ≡ cut_polygon window.corner window.buffer polygon.now) }
{
    let outer = ring_in_tile(alloc, window, true, polygon.outer.as_slice())?;
    let Some(outer) = outer else {
        return Ok(None);
    };
    let inners = holes_in_tile(alloc, window, polygon.inners.as_slice())?;
    if !has_area_left(outer.as_slice(), inners.as_slice()) {
        return Ok(None);
    }
    Ok(Some(GridPolygon { outer, inners }))
}

// The holes of a polygon in a tile and its buffer.
fn holes_in_tile(
    alloc: Global,
    window: Window,
    inners: &[Seq<Grid>],
) -> Result<Seq<Seq<Grid>>, Memory>
    ensures { IfOk result (λ left. left ≡ filter_map (cut_ring window.corner window.buffer false) inners.now) }
{
    let mut left = Seq::new(alloc);
    for inner in inners {
        if let Some(part) = ring_in_tile(alloc, window, false, inner.as_slice())? {
            left.push(part)?;
        }
    }
    Ok(left)
}

// A ring in a tile and its buffer, unless it is dropped.
#[tactic(auto, unfolding(crate::specs::Cuts::cut_ring))]
fn ring_in_tile(
    alloc: Global,
    window: Window,
    outer: bool,
    ring: &[Grid],
) -> Result<Option<Seq<Grid>>, Memory>
    ensures { IfOk result (λ left. left ≡ cut_ring window.corner window.buffer outer ring.now) }
{
    let in_column = ring_in(alloc, window.column(), ring)?;
    let in_tile = ring_in(alloc, window.row(), in_column.as_slice())?;
    let moved = window.all_from_corner(alloc, in_tile.as_slice())?;
    clean_ring(alloc, &moved, outer)
}

/// Whether an outer ring has more area than all of its holes have together.
pub fn has_area_left(outer: &[Grid], inners: &[Seq<Grid>]) -> bool
    ensures { result ≡ leaves_some outer.now inners.now }
{
    let whole = doubled_area(outer);
    if whole <= 0 {
        return false;
    }
    let mut rest = whole.unsigned_abs();
    for inner in inners {
        let hole = doubled_area(inner.as_slice()).unsigned_abs();
        if hole >= rest {
            return false;
        }
        rest -= hole;
    }
    true
}
