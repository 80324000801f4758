ghost use Rattle.std.specs.Prelude.{◌≡◌, ◌&&◌, ◌||◌, int_lt, IfOk};
ghost use Rattle.std.specs.Ordering.{int_eq};
ghost use Rattle.tile_clip.specs.Steady.{runs_down, runs_up, are_steady, all_steady, is_polygon_steady, are_polygons_steady, is_steady};

use crate::edge::Edge;
use crate::outline::{Outline, RingEdges};
use std::alloc::Global;
use strip_clip::Strip;
use tb_types::{Grid, GridPolygon, Memory, Seq, Shape};

// Whether an area has the same piece in all of some rows: each edge of it that is left goes straight through them.
pub fn is_steady(rows: Strip, outline: &Outline) -> bool
    ensures { result ≡ is_steady rows outline.now }
{
    match outline {
        Outline::OnePoint(_) => false,
        Outline::Paths(_) => false,
        Outline::Polygons(polygons) => are_polygons_steady(rows, polygons.as_slice()),
    }
}

fn are_polygons_steady(rows: Strip, polygons: &[RingEdges]) -> bool
    ensures { result ≡ are_polygons_steady rows polygons.now }
{
    for rings in polygons {
        if !is_polygon_steady(rows, rings) {
            return false;
        }
    }
    true
}

fn is_polygon_steady(rows: Strip, rings: &RingEdges) -> bool
    ensures { result ≡ is_polygon_steady rows rings.now }
{
    are_steady(rows, rings.outer.as_slice()) && all_steady(rows, rings.inners.as_slice())
}

fn all_steady(rows: Strip, rings: &[Seq<Edge>]) -> bool
    ensures { result ≡ all_steady rows rings.now }
{
    for ring in rings {
        if !are_steady(rows, ring.as_slice()) {
            return false;
        }
    }
    true
}

fn are_steady(rows: Strip, edges: &[Edge]) -> bool
    ensures { result ≡ are_steady rows edges.now }
{
    for edge in edges {
        if !runs_through(rows, *edge) {
            return false;
        }
    }
    true
}

fn runs_through(rows: Strip, edge: Edge) -> bool
    ensures { result ≡ (runs_down rows edge || runs_up rows edge) }
{
    runs_down(rows, edge) || runs_up(rows, edge)
}

#[tactic(auto, unfolding(crate::specs::Steady::runs_down))]
fn runs_down(rows: Strip, edge: Edge) -> bool
    ensures { result ≡ runs_down rows edge }
{
    is_upright(edge) && reaches_over(rows, edge.from.y, edge.to.y)
}

#[tactic(auto, unfolding(crate::specs::Steady::runs_up))]
fn runs_up(rows: Strip, edge: Edge) -> bool
    ensures { result ≡ runs_up rows edge }
{
    is_upright(edge) && reaches_over(rows, edge.to.y, edge.from.y)
}

fn is_upright(edge: Edge) -> bool
    ensures { result ≡ int_eq edge.from.x edge.to.x }
{
    edge.from.x == edge.to.x
}

fn reaches_over(rows: Strip, first: i32, last: i32) -> bool
    ensures { result ≡ (int_lt first rows.lo && int_lt rows.hi last) }
{
    first < rows.lo && rows.hi < last
}

// A piece once more.
pub fn copy_piece(alloc: Global, piece: &Shape) -> Result<Shape, Memory>
    ensures { IfOk result (λ copy. copy ≡ piece.now) }
{
    match piece {
        Shape::Point(p) => Ok(Shape::Point(*p)),
        Shape::Line(paths) => Ok(Shape::Line(copy_rings(alloc, paths.as_slice())?)),
        Shape::Area(polygons) => Ok(Shape::Area(copy_polygons(alloc, polygons.as_slice())?)),
    }
}

fn copy_polygons(alloc: Global, polygons: &[GridPolygon]) -> Result<Seq<GridPolygon>, Memory>
    ensures { IfOk result (λ copy. copy ≡ polygons.now) }
{
    let mut copy = Vec::with_capacity(alloc, polygons.len())?;
    for polygon in polygons {
        copy.push(GridPolygon {
            outer: copy_ring(alloc, polygon.outer.as_slice())?,
            inners: copy_rings(alloc, polygon.inners.as_slice())?,
        })?;
    }
    Ok(Seq::from_vec(copy))
}

fn copy_rings(alloc: Global, rings: &[Seq<Grid>]) -> Result<Seq<Seq<Grid>>, Memory>
    ensures { IfOk result (λ copy. copy ≡ rings.now) }
{
    let mut copy = Vec::with_capacity(alloc, rings.len())?;
    for ring in rings {
        copy.push(copy_ring(alloc, ring.as_slice())?)?;
    }
    Ok(Seq::from_vec(copy))
}

fn copy_ring(alloc: Global, ring: &[Grid]) -> Result<Seq<Grid>, Memory>
    ensures { IfOk result (λ copy. copy ≡ ring.now) }
{
    let mut copy = Vec::with_capacity(alloc, ring.len())?;
    copy.extend_from_slice(ring)?;
    Ok(Seq::from_vec(copy))
}
