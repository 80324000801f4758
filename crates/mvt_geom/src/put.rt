ghost use Rattle.std.specs.Prelude.{◌≡◌, ◌<◌, ◌^◌, [], ◌∷◌, ◌++◌, ◌-ℤ◌, All, IfOk, OnOk, false, true};
ghost use Rattle.tb_types.specs.Zigzag.{zigzag_of};
ghost use Rattle.mvt_geom.specs.Commands.{command, line_to, move_to};
ghost use Rattle.mvt_geom.specs.Geometry.{cursor_after, origin};
ghost use Rattle.mvt_geom.specs.Text.{difference, differences, path_ints, paths_ints, rings_of, ints_of, all_of, Fits32, IsStep, AreSteps, IsShort, IsDrawable};
ghost use Rattle.mvt_geom.specs.Walks.{Draws};

use crate::numbers::{CLOSE_PATH, LINE_TO, MOVE_TO_ONE};
use crate::read::ORIGIN;
use std::alloc::Global;
use tb_types::{Grid, GridPolygon, Memory, Seq, Shape, zigzag};

/// The integers that were written, and where the cursor is after them.
#[derive(Debug, Drop)]
pub struct Pen {
    pub ints: Vec<u32>,
    pub at: Grid,
}

/// The integers of a shape (Mapbox Vector Tile 2.1, section 4.3): of each path MoveTo of its first point and LineTo of the
/// others, of each ring the same and ClosePath, and of a polygon its outer ring before its inner ones. Parameters are zigzag
/// differences from the cursor, which starts at 0,0 and isn't moved by ClosePath.
///
/// Each difference has 32 bits, and each path or ring fewer than 2^29 points.
pub fn put_geometry(alloc: Global, shape: &Shape) -> Result<Seq<u32>, Memory>
    requires { IsDrawable shape.now }
    ensures { IfOk result (λ ints. ints ≡ ints_of shape.now) }
{
    match shape {
        Shape::Point(p) => point_ints(alloc, *p),
        Shape::Line(paths) => line_ints(alloc, paths.as_slice()),
        Shape::Area(polygons) => area_ints(alloc, polygons.as_slice()),
    }
}

// Nothing is written yet.
fn fresh(alloc: Global) -> Pen
    ensures ints { result.ints.items ≡ [] }
    ensures at { result.at ≡ origin }
{
    Pen {
        ints: Vec::new(alloc),
        at: ORIGIN,
    }
}

fn point_ints(alloc: Global, p: Grid) -> Result<Seq<u32>, Memory>
    requires { IsStep origin p }
    ensures { IfOk result (λ ints. ints ≡ command move_to 1 ∷ difference origin p) }
{
    let mut pen = fresh(alloc);
    pen.ints.push(MOVE_TO_ONE)?;
    put_point(&mut pen, p)?;
    Ok(Seq::from_vec(pen.ints))
}

fn line_ints(alloc: Global, paths: &[Seq<Grid>]) -> Result<Seq<u32>, Memory>
    requires short { All IsShort paths.now }
    requires steps { AreSteps origin (all_of paths.now) }
    ensures { IfOk result (λ ints. ints ≡ paths_ints false origin paths.now) }
{
    let mut pen = fresh(alloc);
    put_paths(&mut pen, false, paths)?;
    Ok(Seq::from_vec(pen.ints))
}

fn area_ints(alloc: Global, polygons: &[GridPolygon]) -> Result<Seq<u32>, Memory>
    requires short { All IsShort (rings_of polygons.now) }
    requires steps { AreSteps origin (all_of (rings_of polygons.now)) }
    ensures { IfOk result (λ ints. ints ≡ paths_ints true origin (rings_of polygons.now)) }
{
    let mut pen = fresh(alloc);
    put_polygons(&mut pen, polygons)?;
    Ok(Seq::from_vec(pen.ints))
}

fn put_polygons(pen: &mut Pen, polygons: &[GridPolygon]) -> Result<(), Memory>
    requires short { All IsShort (rings_of polygons.now) }
    requires steps { AreSteps pen.old.at (all_of (rings_of polygons.now)) }
    ensures draws { OnOk result (Draws true pen.old pen.new (rings_of polygons.now)) }
{
    for polygon in polygons {
        put_polygon(pen, polygon)?;
    }
    Ok(())
}

fn put_polygon(pen: &mut Pen, polygon: &GridPolygon) -> Result<(), Memory>
    requires short { All IsShort (polygon.now.outer ∷ polygon.now.inners) }
    requires steps { AreSteps pen.old.at (all_of (polygon.now.outer ∷ polygon.now.inners)) }
    ensures draws { OnOk result (Draws true pen.old pen.new (polygon.now.outer ∷ polygon.now.inners)) }
    ensures at { OnOk result (pen.new.at ≡ cursor_after pen.old.at (all_of (polygon.now.outer ∷ polygon.now.inners))) }
{
    put_path(pen, true, polygon.outer.as_slice())?;
    put_paths(pen, true, polygon.inners.as_slice())
}

fn put_paths(pen: &mut Pen, closed: bool, paths: &[Seq<Grid>]) -> Result<(), Memory>
    requires short { All IsShort paths.now }
    requires steps { AreSteps pen.old.at (all_of paths.now) }
    ensures draws { OnOk result (Draws closed pen.old pen.new paths.now) }
    ensures at { OnOk result (pen.new.at ≡ cursor_after pen.old.at (all_of paths.now)) }
{
    for path in paths {
        put_path(pen, closed, path.as_slice())?;
    }
    Ok(())
}

#[tactic(auto, unfolding(crate::specs::Text::path_ints))]
fn put_path(pen: &mut Pen, closed: bool, path: &[Grid]) -> Result<(), Memory>
    requires short { IsShort path.now }
    requires steps { AreSteps pen.old.at path.now }
    ensures ints { OnOk result (pen.new.ints.items ≡ pen.old.ints.items ++ path_ints closed pen.old.at path.now) }
    ensures at { OnOk result (pen.new.at ≡ cursor_after pen.old.at path.now) }
{
    let Some((first, others)) = path.split_first() else {
        return Ok(());
    };
    pen.ints.push(MOVE_TO_ONE)?;
    put_point(pen, *first)?;
    pen.ints.push(line_to(others.len()))?;
    put_points(pen, others)?;
    if closed {
        pen.ints.push(CLOSE_PATH)?;
    }
    Ok(())
}

// The command integer of LineTo.
fn line_to(count: usize) -> u32
    requires { count < 2 ^ 29 }
    ensures { result ≡ command line_to count }
{
    LINE_TO + 8 * count as u32
}

fn put_points(pen: &mut Pen, points: &[Grid]) -> Result<(), Memory>
    requires { AreSteps pen.old.at points.now }
    ensures ints { OnOk result (pen.new.ints.items ≡ pen.old.ints.items ++ differences pen.old.at points.now) }
    ensures at { OnOk result (pen.new.at ≡ cursor_after pen.old.at points.now) }
{
    for p in points {
        put_point(pen, *p)?;
    }
    Ok(())
}

fn put_point(pen: &mut Pen, p: Grid) -> Result<(), Memory>
    requires { IsStep pen.old.at p }
    ensures ints { OnOk result (pen.new.ints.items ≡ pen.old.ints.items ++ difference pen.old.at p) }
    ensures at { OnOk result (pen.new.at ≡ p) }
{
    pen.ints.push(parameter(pen.at.x, p.x))?;
    pen.ints.push(parameter(pen.at.y, p.y))?;
    pen.at = p;
    Ok(())
}

// The difference of two coordinates as a parameter.
fn parameter(from: i32, to: i32) -> u32
    requires { Fits32 (to -ℤ from) }
    ensures { result ≡ zigzag_of (to -ℤ from) }
{
    zigzag(i64::from(to) - i64::from(from)) as u32
}
