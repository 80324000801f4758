ghost use Rattle.std.specs.Prelude.{◌≡◌, ◌+◌, ◌^◌, ◌<◌, ◌≤◌, ◌⊎◌, true, All};
ghost use Rattle.strip_clip.specs.Axes.{along};
ghost use Rattle.strip_clip.specs.Cuts.{IsBetween};
ghost use Rattle.tile_clip.specs.Bounds.{IsEdgeWithin, AreRingsWithin, IsWithin, IsWider};
ghost use Rattle.tile_clip.specs.Outlines.{touching, is_nothing, strip_of};

use crate::edge::Edge;
use crate::outline::{Outline, RingEdges};
use crate::tiling::{Tiling, end_after, first_from, side};
use strip_clip::Axis;
use tb_types::{Grid, Seq};

// The columns or rows that an outline reaches: the first of them, and how many there are.
#[derive(Clone, Copy, Debug, PartialEq, Eq)]
pub struct Reach {
    pub first: u32,
    pub count: u32,
}

// The columns or rows of a zoom that an outline reaches. It touches no other.
pub fn reached(axis: Axis, tiling: Tiling, outline: &Outline) -> Reach
    ensures within { result.first + result.count ≤ 2 ^ tiling.z }
    ensures others { (at : _) → at < 2 ^ tiling.z → (at < result.first) ⊎ (result.first + result.count ≤ at) →
        is_nothing (touching (strip_of axis tiling.buffer at 1) outline.now) ≡ true }
{
    let span = span_of(axis, outline);
    let end = end_after(span.hi, tiling.buffer, side(tiling.z));
    let first = least(first_from(span.lo, tiling.buffer), end);
    Reach {
        first,
        count: end - first,
    }
}

fn least(a: u32, b: u32) -> u32
    ensures a { result ≤ a }
    ensures b { result ≤ b }
{
    if a < b { a } else { b }
}

// The least and the greatest coordinate of something along an axis. Of nothing, the first is above the second.
#[derive(Clone, Copy, Debug, PartialEq, Eq)]
pub struct Span {
    pub lo: i32,
    pub hi: i32,
}

// The span of an outline.
fn span_of(axis: Axis, outline: &Outline) -> Span
    ensures { IsWithin axis result.lo result.hi outline.now }
{
    let nothing = Span {
        lo: i32::MAX,
        hi: i32::MIN,
    };
    match outline {
        Outline::OnePoint(p) => of_point(axis, *p),
        Outline::Paths(edges) => with_edges(axis, nothing, edges.as_slice()),
        Outline::Polygons(polygons) => with_polygons(axis, nothing, polygons.as_slice()),
    }
}

fn of_point(axis: Axis, p: Grid) -> Span
    ensures { IsBetween result.lo result.hi (along axis p) }
{
    let at = axis.along(p);
    Span { lo: at, hi: at }
}

// A span and all edges of some polygons.
fn with_polygons(axis: Axis, span: Span, polygons: &[RingEdges]) -> Span
    ensures { All (AreRingsWithin axis result.lo result.hi) polygons.now }
{
    let mut wide = span;
    for rings in polygons {
        wide = with_edges(axis, wide, rings.outer.as_slice());
        wide = with_inners(axis, wide, rings.inners.as_slice());
    }
    wide
}

// A span and the edges of some rings.
fn with_inners(axis: Axis, span: Span, inners: &[Seq<Edge>]) -> Span
    ensures inners { All (λ inner. All (IsEdgeWithin axis result.lo result.hi) inner) inners.now }
    ensures wider { IsWider span result }
{
    let mut wide = span;
    for inner in inners {
        wide = with_edges(axis, wide, inner.as_slice());
    }
    wide
}

// A span and some edges.
fn with_edges(axis: Axis, span: Span, edges: &[Edge]) -> Span
    ensures edges { All (IsEdgeWithin axis result.lo result.hi) edges.now }
    ensures wider { IsWider span result }
{
    let mut wide = span;
    for edge in edges {
        wide = with_edge(axis, wide, *edge);
    }
    wide
}

fn with_edge(axis: Axis, span: Span, edge: Edge) -> Span
    ensures edge { IsEdgeWithin axis result.lo result.hi edge }
    ensures wider { IsWider span result }
{
    with_coordinate(
        with_coordinate(span, axis.along(edge.from)),
        axis.along(edge.to),
    )
}

fn with_coordinate(span: Span, at: i32) -> Span
    ensures at { IsBetween result.lo result.hi at }
    ensures wider { IsWider span result }
{
    Span {
        lo: if at < span.lo { at } else { span.lo },
        hi: if span.hi < at { at } else { span.hi },
    }
}
