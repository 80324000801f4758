ghost use Rattle.std.specs.Prelude.{◌≡◌, ◌≤◌, All, IfOk, OnOk, filter_map};
ghost use Rattle.line_simplify.specs.Key as simplified;
ghost use Rattle.tile_model.specs.Points.{IsOnGrid};
ghost use Rattle.tile_model.specs.World.{grid_point, grid_points, round, simple_path, simple_polygon, simple_ring, simple_shape, some_ring};
ghost use Rattle.tile_model.specs.declared.world.WorldShape.TheVariants as worlds;

use int_mercator::grid;
use line_simplify::simplify;
use ring_assembly::Polygon;
use std::alloc::Global;
use tb_types::{
    Grid, GridPolygon, Memory, Seq, Shape, World, ring_without_repeats, without_repeats,
};
use tile_model::WorldShape;

/// What is left of a shape of the world on the grid of a zoom: repeated neighbours go, lines and rings are simplified, and a
/// line of fewer than 2 points and a ring of fewer than 3 go, an outer ring with its inner ones. `None` where nothing is left.
///
/// The zoom is at most 14, and the tolerance at most 64 units of the grid.
pub fn simple_shape(
    alloc: Global,
    shape: &WorldShape,
    zoom: u8,
    tolerance: u32,
) -> Result<Option<Shape>, Memory>
    requires zoom { zoom ≤ 14 }
    requires tolerance { tolerance ≤ 64 }
    ensures { IfOk result (λ simple. simple ≡ simple_shape zoom tolerance shape.now) }
{
    match shape {
        WorldShape::Point(point) => Ok(Some(Shape::Point(grid_point(*point, zoom)))),
        WorldShape::Line(path) => simple_line(alloc, path.as_slice(), zoom, tolerance),
        WorldShape::Area(polygons) => simple_area(alloc, polygons.as_slice(), zoom, tolerance),
    }
}

/// A point of the world on the grid of a zoom.
pub fn grid_point(point: World, zoom: u8) -> Grid
    requires { zoom ≤ 14 }
    ensures exact { result ≡ grid_point point zoom }
    ensures within { IsOnGrid zoom result }
{
    Grid {
        x: grid(point.x, zoom),
        y: grid(point.y, zoom),
    }
}

// Points of the world on the grid of a zoom.
#[tactic(auto, using(crate::proofs::Walks::on_grid))]
fn grid_points(alloc: Global, points: &[World], zoom: u8) -> Result<Vec<Grid>, Memory>
    requires { zoom ≤ 14 }
    ensures exact { IfOk result (λ placed. placed.items ≡ grid_points zoom points.now) }
    ensures within { IfOk result (λ placed. All simplified.IsOnGrid placed.items) }
{
    let mut placed = Vec::with_capacity(alloc, points.len())?;
    for point in points {
        placed.push(grid_point(*point, zoom))?;
    }
    Ok(placed)
}

// What is left of a path, as a line.
fn simple_line(
    alloc: Global,
    path: &[World],
    zoom: u8,
    tolerance: u32,
) -> Result<Option<Shape>, Memory>
    requires zoom { zoom ≤ 14 }
    requires tolerance { tolerance ≤ 64 }
    ensures { IfOk result (λ simple. simple ≡ simple_shape zoom tolerance (worlds.Line path.now)) }
{
    let kept = simple_path(alloc, path, zoom, tolerance)?;
    if kept.as_slice().len() < 2 {
        return Ok(None);
    }
    let mut paths = Seq::new(alloc);
    paths.push(kept)?;
    Ok(Some(Shape::Line(paths)))
}

// The points of a path that stay.
fn simple_path(alloc: Global, path: &[World], zoom: u8, tolerance: u32) -> Result<Seq<Grid>, Memory>
    requires zoom { zoom ≤ 14 }
    requires tolerance { tolerance ≤ 64 }
    ensures { IfOk result (λ kept. kept ≡ simple_path zoom tolerance path.now) }
{
    let placed = grid_points(alloc, path, zoom)?;
    let points = without_repeats(alloc, &placed)?;
    simplify(alloc, &points, tolerance)
}

// What is left of polygons, as an area.
fn simple_area(
    alloc: Global,
    polygons: &[Polygon],
    zoom: u8,
    tolerance: u32,
) -> Result<Option<Shape>, Memory>
    requires zoom { zoom ≤ 14 }
    requires tolerance { tolerance ≤ 64 }
    ensures { IfOk result (λ simple. simple ≡ simple_shape zoom tolerance (worlds.Area polygons.now)) }
{
    let kept = simple_polygons(alloc, polygons, zoom, tolerance)?;
    if kept.as_slice().is_empty() {
        return Ok(None);
    }
    Ok(Some(Shape::Area(kept)))
}

// The polygons that stay.
#[tactic(auto, using(crate::proofs::Walks::chosen_next, crate::proofs::Walks::chosen_not))]
fn simple_polygons(
    alloc: Global,
    polygons: &[Polygon],
    zoom: u8,
    tolerance: u32,
) -> Result<Seq<GridPolygon>, Memory>
    requires zoom { zoom ≤ 14 }
    requires tolerance { tolerance ≤ 64 }
    ensures { IfOk result (λ kept. kept ≡ filter_map (simple_polygon zoom tolerance) polygons.now) }
{
    let mut kept = Seq::new(alloc);
    for polygon in polygons {
        if let Some(simple) = simple_polygon(alloc, polygon, zoom, tolerance)? {
            kept.push(simple)?;
        }
    }
    Ok(kept)
}

// What is left of a polygon.
fn simple_polygon(
    alloc: Global,
    polygon: &Polygon,
    zoom: u8,
    tolerance: u32,
) -> Result<Option<GridPolygon>, Memory>
    requires zoom { zoom ≤ 14 }
    requires tolerance { tolerance ≤ 64 }
    ensures { IfOk result (λ simple. simple ≡ simple_polygon zoom tolerance polygon.now) }
{
    let Some(outer) = some_ring(alloc, polygon.outer.as_slice(), zoom, tolerance)? else {
        return Ok(None);
    };
    let inners = simple_rings(alloc, polygon.inners.as_slice(), zoom, tolerance)?;
    Ok(Some(GridPolygon { outer, inners }))
}

// The rings that stay.
#[tactic(auto, using(crate::proofs::Walks::chosen_next, crate::proofs::Walks::chosen_not))]
fn simple_rings(
    alloc: Global,
    rings: &[Seq<World>],
    zoom: u8,
    tolerance: u32,
) -> Result<Seq<Seq<Grid>>, Memory>
    requires zoom { zoom ≤ 14 }
    requires tolerance { tolerance ≤ 64 }
    ensures { IfOk result (λ kept. kept ≡ filter_map (some_ring zoom tolerance) rings.now) }
{
    let mut kept = Seq::new(alloc);
    for ring in rings {
        if let Some(simple) = some_ring(alloc, ring.as_slice(), zoom, tolerance)? {
            kept.push(simple)?;
        }
    }
    Ok(kept)
}

// What is left of a ring, if that is one.
fn some_ring(
    alloc: Global,
    ring: &[World],
    zoom: u8,
    tolerance: u32,
) -> Result<Option<Seq<Grid>>, Memory>
    requires zoom { zoom ≤ 14 }
    requires tolerance { tolerance ≤ 64 }
    ensures { IfOk result (λ simple. simple ≡ some_ring zoom tolerance ring.now) }
{
    let kept = simple_ring(alloc, ring, zoom, tolerance)?;
    if kept.len() < 3 {
        return Ok(None);
    }
    Ok(Some(Seq::from_vec(kept)))
}

// The vertices of a ring that stay: it is simplified as the path from its first vertex round to it again.
fn simple_ring(alloc: Global, ring: &[World], zoom: u8, tolerance: u32) -> Result<Vec<Grid>, Memory>
    requires zoom { zoom ≤ 14 }
    requires tolerance { tolerance ≤ 64 }
    ensures { IfOk result (λ kept. kept.items ≡ simple_ring zoom tolerance ring.now) }
{
    let placed = grid_points(alloc, ring, zoom)?;
    let mut points = ring_without_repeats(alloc, &placed)?;
    close(&mut points)?;
    let mut kept = simplify(alloc, &points, tolerance)?.into_vec();
    kept.pop();
    Ok(kept)
}

// Puts the first point of a ring behind its last one.
fn close(points: &mut Vec<Grid>) -> Result<(), Memory>
    ensures { OnOk result (points.new.items ≡ round points.old.items) }
{
    if let Some(first) = points.first().copied() {
        points.push(first)?;
    }
    Ok(())
}
