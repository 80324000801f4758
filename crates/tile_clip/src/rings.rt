ghost use Rattle.std.specs.Prelude.{◌≡◌, ◌++◌, false, IfOk, OnOk};
ghost use Rattle.strip_clip.specs.Rings.{edge_points};
ghost use Rattle.tile_clip.specs.Outlines.{ring_edges, points_in, ring_in};

use crate::edge::{Edge, touches};
use std::alloc::Global;
use strip_clip::{Strip, is_inside, reach};
use tb_types::{Grid, Memory, Seq};

// The edges of a ring, the last one from its last vertex to its first.
pub fn ring_edges(alloc: Global, ring: &[Grid]) -> Result<Seq<Edge>, Memory>
    ensures { IfOk result (λ edges. edges ≡ ring_edges ring.now) }
{
    let mut edges = Vec::with_capacity(alloc, ring.len())?;
    let Some((first, rest)) = ring.split_first() else {
        return Ok(Seq::from_vec(edges));
    };
    let mut p = *first;
    for q in rest {
        edges.push(ring_edge(p, *q))?;
        p = *q;
    }
    edges.push(ring_edge(p, *first))?;
    Ok(Seq::from_vec(edges))
}

fn ring_edge(from: Grid, to: Grid) -> Edge
    ensures { result ≡ record { from = from; to = to; last = false } }
{
    Edge {
        from,
        to,
        last: false,
    }
}

// The edges of what is left of a ring in a strip. The list of points is one to work in.
pub fn ring_in(
    alloc: Global,
    strip: Strip,
    edges: &[Edge],
    points: &mut Vec<Grid>,
) -> Result<Seq<Edge>, Memory>
    ensures { IfOk result (λ left. left ≡ ring_in strip edges.now) }
{
    fill_points(strip, edges, points)?;
    ring_edges(alloc, points)
}

// Fills a list with the points of a ring's edges in a strip.
fn fill_points(strip: Strip, edges: &[Edge], points: &mut Vec<Grid>) -> Result<(), Memory>
    ensures { OnOk result (points.new.items ≡ points_in strip edges.now) }
{
    points.clear();
    for edge in edges {
        add_points(strip, *edge, points)?;
    }
    Ok(())
}

// Adds the points of an edge in a strip.
fn add_points(strip: Strip, edge: Edge, points: &mut Vec<Grid>) -> Result<(), Memory>
    ensures { OnOk result (points.new.items ≡ points.old.items ++ edge_points strip edge.from edge.to) }
{
    if touches(strip, edge) {
        if !is_inside(strip, edge.from) {
            points.push(reach(strip, edge.from, edge.to, edge.from))?;
        }
        points.push(reach(strip, edge.from, edge.to, edge.to))?;
    }
    Ok(())
}
