ghost use Rattle.std.specs.Prelude.{◌≡◌, ◌+◌, ◌^◌, ◌≤◌, ◌++◌, [], map, IfOk, OnOk};
ghost use Rattle.std.specs.List.{cons_option};
ghost use Rattle.tile_clip.specs.declared.outline.Outline.TheVariants as outlines;
ghost use Rattle.tile_clip.specs.Outlines.{outline_of, touching, touching_rings, touching_inners, some_edges, some_rings, outline_in, is_nothing, rings_in, polygon_edges, point_in, split};

use crate::edge::{Edge, halves};
use crate::paths::{all_path_edges, path_edges_in};
use crate::rings::{ring_edges, ring_in};
use crate::tiling::{Tiling, strip_of};
use std::alloc::Global;
use strip_clip::{Axis, Strip, is_inside};
use tb_types::{Grid, GridPolygon, Memory, Seq, Shape};

// The edges of a polygon's outer ring, and those of each inner ring.
#[derive(Debug, Drop)]
pub struct RingEdges {
    pub outer: Seq<Edge>,
    pub inners: Seq<Seq<Edge>>,
}

// A shape as its place, the edges of its paths, or those of its rings.
#[derive(Debug, Drop)]
pub enum Outline {
    OnePoint(Grid),
    Paths(Seq<Edge>),
    Polygons(Seq<RingEdges>),
}

// The outline of a shape.
pub fn outline_of(alloc: Global, shape: &Shape) -> Result<Outline, Memory>
    ensures { IfOk result (λ outline. outline ≡ outline_of shape.now) }
{
    match shape {
        Shape::Point(p) => Ok(Outline::OnePoint(*p)),
        Shape::Line(paths) => Ok(Outline::Paths(all_path_edges(alloc, paths.as_slice())?)),
        Shape::Area(polygons) => Ok(Outline::Polygons(all_polygon_edges(
            alloc,
            polygons.as_slice(),
        )?)),
    }
}

fn all_polygon_edges(alloc: Global, polygons: &[GridPolygon]) -> Result<Seq<RingEdges>, Memory>
    ensures { IfOk result (λ all. all ≡ map polygon_edges polygons.now) }
{
    let mut all = Seq::new(alloc);
    for polygon in polygons {
        all.push(polygon_edges(alloc, polygon)?)?;
    }
    Ok(all)
}

fn polygon_edges(alloc: Global, polygon: &GridPolygon) -> Result<RingEdges, Memory>
    ensures { IfOk result (λ rings. rings ≡ polygon_edges polygon.now) }
{
    let outer = ring_edges(alloc, polygon.outer.as_slice())?;
    let mut inners = Seq::new(alloc);
    for inner in polygon.inners.as_slice() {
        inners.push(ring_edges(alloc, inner.as_slice())?)?;
    }
    Ok(RingEdges { outer, inners })
}

// What touches each of two strips.
#[derive(Debug, Drop)]
pub struct Halves {
    pub first: Outline,
    pub second: Outline,
}

// What of an outline touches the first half of so many columns or rows, and what touches the others.
pub fn split(
    alloc: Global,
    axis: Axis,
    tiling: Tiling,
    first: u32,
    count: u32,
    outline: Outline,
) -> Result<Halves, Memory>
    requires { first + count ≤ 2 ^ tiling.z }
    ensures { IfOk result (λ both. both ≡ split axis tiling.buffer first count outline) }
{
    let half = count / 2;
    let before = strip_of(axis, tiling, first, half);
    let behind = strip_of(axis, tiling, first + half, count - half);
    outline_halves(alloc, before, behind, outline)
}

// What of an outline touches each of two strips. At most one part of its edges is a copy.
fn outline_halves(
    alloc: Global,
    first: Strip,
    second: Strip,
    outline: Outline,
) -> Result<Halves, Memory>
    ensures { IfOk result (λ both. both ≡ record { first = touching first outline; second = touching second outline }) }
{
    match outline {
        Outline::OnePoint(p) => Ok(Halves {
            first: point_in(alloc, first, p),
            second: point_in(alloc, second, p),
        }),
        Outline::Paths(edges) => {
            let both = halves(alloc, first, second, edges)?;
            Ok(Halves {
                first: Outline::Paths(both.first),
                second: Outline::Paths(both.second),
            })
        }
        Outline::Polygons(polygons) => polygon_halves(alloc, first, second, polygons),
    }
}

fn point_in(alloc: Global, strip: Strip, p: Grid) -> Outline
    ensures { result ≡ point_in strip p }
{
    if is_inside(strip, p) {
        return Outline::OnePoint(p);
    }
    Outline::Paths(Seq::new(alloc))
}

fn polygon_halves(
    alloc: Global,
    first: Strip,
    second: Strip,
    polygons: Seq<RingEdges>,
) -> Result<Halves, Memory>
    ensures { IfOk result (λ both. both ≡ record { first = touching first (outlines.Polygons polygons); second = touching second (outlines.Polygons polygons) }) }
{
    let mut in_first = Seq::new(alloc);
    let mut in_second = Seq::new(alloc);
    for rings in polygons.into_vec() {
        add_rings(alloc, first, second, rings, &mut in_first, &mut in_second)?;
    }
    Ok(Halves {
        first: Outline::Polygons(in_first),
        second: Outline::Polygons(in_second),
    })
}

// Adds the rings of a polygon with the edges that touch each of two strips, unless the outer ring has none.
fn add_rings(
    alloc: Global,
    first: Strip,
    second: Strip,
    rings: RingEdges,
    in_first: &mut Seq<RingEdges>,
    in_second: &mut Seq<RingEdges>,
) -> Result<(), Memory>
    ensures first { OnOk result (in_first.new ≡ in_first.old ++ cons_option (touching_rings first rings) []) }
    ensures second { OnOk result (in_second.new ≡ in_second.old ++ cons_option (touching_rings second rings) []) }
{
    let RingEdges { outer, inners } = rings;
    let outers = halves(alloc, first, second, outer)?;
    let mut inner_first = Seq::new(alloc);
    let mut inner_second = Seq::new(alloc);
    add_inners(
        alloc,
        first,
        second,
        inners,
        &mut inner_first,
        &mut inner_second,
    )?;
    add_polygon(outers.first, inner_first, in_first)?;
    add_polygon(outers.second, inner_second, in_second)
}

// Adds the edges of inner rings that touch each of two strips.
fn add_inners(
    alloc: Global,
    first: Strip,
    second: Strip,
    inners: Seq<Seq<Edge>>,
    in_first: &mut Seq<Seq<Edge>>,
    in_second: &mut Seq<Seq<Edge>>,
) -> Result<(), Memory>
    ensures first { OnOk result (in_first.new ≡ in_first.old ++ touching_inners first inners) }
    ensures second { OnOk result (in_second.new ≡ in_second.old ++ touching_inners second inners) }
{
    for inner in inners.into_vec() {
        let both = halves(alloc, first, second, inner)?;
        add_some(both.first, in_first)?;
        add_some(both.second, in_second)?;
    }
    Ok(())
}

// Adds the edges of a ring to those of others, unless there are none.
fn add_some(edges: Seq<Edge>, inners: &mut Seq<Seq<Edge>>) -> Result<(), Memory>
    ensures { OnOk result (inners.new ≡ inners.old ++ cons_option (some_edges edges) []) }
{
    if edges.as_slice().is_empty() {
        return Ok(());
    }
    inners.push(edges)
}

// Adds a polygon to others, unless its outer ring has no edges.
fn add_polygon(
    outer: Seq<Edge>,
    inners: Seq<Seq<Edge>>,
    polygons: &mut Seq<RingEdges>,
) -> Result<(), Memory>
    ensures { OnOk result (polygons.new ≡ polygons.old ++ cons_option (some_rings inners (some_edges outer)) []) }
{
    if outer.as_slice().is_empty() {
        return Ok(());
    }
    polygons.push(RingEdges { outer, inners })
}

// Whether nothing is left of an outline.
pub fn is_nothing(outline: &Outline) -> bool
    ensures { result ≡ is_nothing outline.now }
{
    match outline {
        Outline::OnePoint(_) => false,
        Outline::Paths(edges) => edges.as_slice().is_empty(),
        Outline::Polygons(polygons) => polygons.as_slice().is_empty(),
    }
}

// The outline of what is left in a strip. The list of points is one to work in.
pub fn outline_in(
    alloc: Global,
    strip: Strip,
    outline: &Outline,
    points: &mut Vec<Grid>,
) -> Result<Outline, Memory>
    ensures { IfOk result (λ kept. kept ≡ outline_in strip outline.now) }
{
    match outline {
        Outline::OnePoint(p) => Ok(point_in(alloc, strip, *p)),
        Outline::Paths(edges) => Ok(Outline::Paths(path_edges_in(alloc, strip, edges.as_slice())?)),
        Outline::Polygons(polygons) => Ok(Outline::Polygons(polygons_in(
            alloc,
            strip,
            polygons.as_slice(),
            points,
        )?)),
    }
}

fn polygons_in(
    alloc: Global,
    strip: Strip,
    polygons: &[RingEdges],
    points: &mut Vec<Grid>,
) -> Result<Seq<RingEdges>, Memory>
    ensures { IfOk result (λ kept. kept ≡ map (rings_in strip) polygons.now) }
{
    let mut kept = Vec::with_capacity(alloc, polygons.len())?;
    for rings in polygons {
        kept.push(rings_in(alloc, strip, rings, points)?)?;
    }
    Ok(Seq::from_vec(kept))
}

fn rings_in(
    alloc: Global,
    strip: Strip,
    rings: &RingEdges,
    points: &mut Vec<Grid>,
) -> Result<RingEdges, Memory>
    ensures { IfOk result (λ kept. kept ≡ rings_in strip rings.now) }
{
    let outer = ring_in(alloc, strip, rings.outer.as_slice(), points)?;
    let mut inners = Vec::with_capacity(alloc, rings.inners.as_slice().len())?;
    for inner in rings.inners.as_slice() {
        inners.push(ring_in(alloc, strip, inner.as_slice(), points)?)?;
    }
    Ok(RingEdges {
        outer,
        inners: Seq::from_vec(inners),
    })
}
