ghost use Rattle.std.specs.Prelude.{◌≡◌, ◌≤◌, ◌+◌, ◌⊎◌, ◌-ℤ◌, ◌+ℤ◌, pos, true, false, [], ◌∷◌, ◌++◌, All, map, filter_map, IfOk, OnOk, if◌then◌else◌};
ghost use Rattle.strip_clip.specs.declared.axis.Axis.TheVariants as axes;
ghost use Rattle.strip_clip.specs.Cuts.{relative, row};
ghost use Rattle.strip_clip.specs.Cleaning.{clean_paths};
ghost use Rattle.strip_clip.specs.Edges.{reach};
ghost use Rattle.strip_clip.specs.Rings.{edge_points};
ghost use Rattle.tile_clip.specs.declared.outline.Outline.TheVariants as outlines;
ghost use Rattle.tile_clip.specs.Bounds.{IsEdgeWithin, IsEdgeInTile, AreRingsWithin, IsWithin};
ghost use Rattle.tile_clip.specs.Outlines.{row_cut, point_cut, paths_cut, polygon_cut, ring_cut, paths_of, touches};

use crate::edge::{Edge, touches};
use crate::outline::{Outline, RingEdges};
use crate::paths::edge_part;
use std::alloc::Global;
use strip_clip::{Window, clean_ring, has_area_left, is_inside, reach, some_area, some_line};
use tb_types::{Grid, GridPolygon, Memory, Seq, Shape, without_repeats};

// What is left in a tile's row of the outline in its column, counted from the tile's corner, after clean-up. The list of
// points is one to work in.
#[tactic(auto, unfolding(crate::specs::Outlines::row_cut))]
pub fn row_cut(
    alloc: Global,
    window: Window,
    outline: &Outline,
    points: &mut Vec<Grid>,
) -> Result<Option<Shape>, Memory>
    requires { IsWithin axes.X (window.corner.x -ℤ pos window.buffer) (window.corner.x +ℤ pos (4096 + window.buffer)) outline.now }
    ensures { IfOk result (λ kept. kept ≡ row_cut window.corner window.buffer outline.now) }
{
    match outline {
        Outline::OnePoint(p) => Ok(point_cut(window, *p)),
        Outline::Paths(edges) => Ok(some_line(paths_cut(alloc, window, edges.as_slice(), points)?)),
        Outline::Polygons(polygons) => Ok(some_area(polygons_cut(
            alloc,
            window,
            polygons.as_slice(),
            points,
        )?)),
    }
}

fn point_cut(window: Window, p: Grid) -> Option<Shape>
    requires { IsWithin axes.X (window.corner.x -ℤ pos window.buffer) (window.corner.x +ℤ pos (4096 + window.buffer)) (outlines.OnePoint p) }
    ensures { result ≡ point_cut window.corner window.buffer p }
{
    if is_inside(window.row(), p) {
        return Some(Shape::Point(window.from_corner(p)));
    }
    None
}

// The paths of a line in a tile, from edges that follow on each other, after clean-up.
fn paths_cut(
    alloc: Global,
    window: Window,
    edges: &[Edge],
    path: &mut Vec<Grid>,
) -> Result<Seq<Seq<Grid>>, Memory>
    requires { All (IsEdgeWithin axes.X (window.corner.x -ℤ pos window.buffer) (window.corner.x +ℤ pos (4096 + window.buffer))) edges.now }
    ensures { IfOk result (λ kept. kept ≡ paths_cut window.corner window.buffer edges.now) }
{
    let mut kept = Seq::new(alloc);
    path.clear();
    for edge in edges {
        if let Some(part) = edge_part(window.row(), *edge) {
            add_edge(alloc, window, part, path, &mut kept)?;
        }
    }
    if !path.is_empty() {
        add_clean(alloc, path, &mut kept)?;
    }
    Ok(kept)
}

// Adds the first point of an edge to a path that is begun. With its last point the last edge of a path ends it.
fn add_edge(
    alloc: Global,
    window: Window,
    edge: Edge,
    path: &mut Vec<Grid>,
    kept: &mut Seq<Seq<Grid>>,
) -> Result<(), Memory>
    requires { IsEdgeInTile window.corner window.buffer edge }
    ensures path { OnOk result (path.new.items ≡ if edge.last then [] else path.old.items ++ relative window.corner edge.from ∷ []) }
    ensures kept { OnOk result (kept.new ≡ if edge.last then kept.old ++ clean_paths (((path.old.items ++ relative window.corner edge.from ∷ []) ++ relative window.corner edge.to ∷ []) ∷ []) else kept.old) }
{
    path.push(window.from_corner(edge.from))?;
    if edge.last {
        path.push(window.from_corner(edge.to))?;
        add_clean(alloc, path, kept)?;
        path.clear();
    }
    Ok(())
}

// Adds a path without repeated neighbours to others, if it has at least two points.
fn add_clean(alloc: Global, path: &[Grid], kept: &mut Seq<Seq<Grid>>) -> Result<(), Memory>
    ensures { OnOk result (kept.new ≡ kept.old ++ clean_paths (path.now ∷ [])) }
{
    let points = without_repeats(alloc, path)?;
    if points.len() >= 2 {
        kept.push(Seq::from_vec(points))?;
    }
    Ok(())
}

// The polygons of an area in a tile.
fn polygons_cut(
    alloc: Global,
    window: Window,
    polygons: &[RingEdges],
    points: &mut Vec<Grid>,
) -> Result<Seq<GridPolygon>, Memory>
    requires { All (AreRingsWithin axes.X (window.corner.x -ℤ pos window.buffer) (window.corner.x +ℤ pos (4096 + window.buffer))) polygons.now }
    ensures { IfOk result (λ kept. kept ≡ filter_map (polygon_cut window.corner window.buffer) polygons.now) }
{
    let mut kept = Seq::new(alloc);
    for rings in polygons {
        if let Some(polygon) = polygon_cut(alloc, window, rings, points)? {
            kept.push(polygon)?;
        }
    }
    Ok(kept)
}

// A polygon, unless its outer ring is dropped or filled by its holes.
fn polygon_cut(
    alloc: Global,
    window: Window,
    rings: &RingEdges,
    points: &mut Vec<Grid>,
) -> Result<Option<GridPolygon>, Memory>
    requires { AreRingsWithin axes.X (window.corner.x -ℤ pos window.buffer) (window.corner.x +ℤ pos (4096 + window.buffer)) rings.now }
    ensures { IfOk result (λ kept. kept ≡ polygon_cut window.corner window.buffer rings.now) }
{
    let outer = ring_cut(alloc, window, true, rings.outer.as_slice(), points)?;
    let Some(outer) = outer else {
        return Ok(None);
    };
    let inners = inners_cut(alloc, window, rings.inners.as_slice(), points)?;
    if !has_area_left(outer.as_slice(), inners.as_slice()) {
        return Ok(None);
    }
    Ok(Some(GridPolygon { outer, inners }))
}

fn inners_cut(
    alloc: Global,
    window: Window,
    inners: &[Seq<Edge>],
    points: &mut Vec<Grid>,
) -> Result<Seq<Seq<Grid>>, Memory>
    requires { All (λ inner. All (IsEdgeWithin axes.X (window.corner.x -ℤ pos window.buffer) (window.corner.x +ℤ pos (4096 + window.buffer))) inner) inners.now }
    ensures { IfOk result (λ kept. kept ≡ filter_map (ring_cut window.corner window.buffer false) inners.now) }
{
    let mut kept = Seq::new(alloc);
    for inner in inners {
        if let Some(ring) = ring_cut(alloc, window, false, inner.as_slice(), points)? {
            kept.push(ring)?;
        }
    }
    Ok(kept)
}

// A ring, unless it is dropped.
fn ring_cut(
    alloc: Global,
    window: Window,
    outer: bool,
    edges: &[Edge],
    points: &mut Vec<Grid>,
) -> Result<Option<Seq<Grid>>, Memory>
    requires { All (IsEdgeWithin axes.X (window.corner.x -ℤ pos window.buffer) (window.corner.x +ℤ pos (4096 + window.buffer))) edges.now }
    ensures { IfOk result (λ kept. kept ≡ ring_cut window.corner window.buffer outer edges.now) }
{
    points.clear();
    for edge in edges {
        add_points(window, *edge, points)?;
    }
    clean_ring(alloc, points, outer)
}

// Adds the points of an edge in a tile's row, counted from the tile's corner.
fn add_points(window: Window, edge: Edge, points: &mut Vec<Grid>) -> Result<(), Memory>
    requires { IsEdgeWithin axes.X (window.corner.x -ℤ pos window.buffer) (window.corner.x +ℤ pos (4096 + window.buffer)) edge }
    ensures { OnOk result (points.new.items ≡ points.old.items ++ map (relative window.corner) (edge_points (row window.corner window.buffer) edge.from edge.to)) }
{
    let strip = window.row();
    if touches(strip, edge) {
        if !is_inside(strip, edge.from) {
            points.push(end_in_row(window, edge, edge.from))?;
        }
        points.push(end_in_row(window, edge, edge.to))?;
    }
    Ok(())
}

// The point of an edge in a tile's row that is nearest to one of its ends, counted from the tile's corner.
fn end_in_row(window: Window, edge: Edge, end: Grid) -> Grid
    requires within { IsEdgeWithin axes.X (window.corner.x -ℤ pos window.buffer) (window.corner.x +ℤ pos (4096 + window.buffer)) edge }
    requires end { (end ≡ edge.from) ⊎ (end ≡ edge.to) }
    requires touches { touches (row window.corner window.buffer) edge ≡ true }
    ensures { result ≡ relative window.corner (reach (row window.corner window.buffer) edge.from edge.to end) }
{
    window.from_corner(reach(window.row(), edge.from, edge.to, end))
}
