ghost use Rattle.std.specs.Prelude.{◌≡◌, ◌++◌, flat_map, filter_map, IfOk, OnOk};
ghost use Rattle.tile_clip.specs.Outlines.{path_edges, edge_part};

use crate::edge::{Edge, touches};
use std::alloc::Global;
use strip_clip::{Strip, is_inside, reach};
use tb_types::{Grid, Memory, Seq};

// The edges of several paths, one path after another. A path of one point has none.
pub fn all_path_edges(alloc: Global, paths: &[Seq<Grid>]) -> Result<Seq<Edge>, Memory>
    ensures { IfOk result (λ edges. edges ≡ flat_map path_edges paths.now) }
{
    let mut edges = Seq::new(alloc);
    for path in paths {
        add_path(path.as_slice(), &mut edges)?;
    }
    Ok(edges)
}

// Adds the edges of a path to others.
fn add_path(path: &[Grid], edges: &mut Seq<Edge>) -> Result<(), Memory>
    ensures { OnOk result (edges.new ≡ edges.old ++ path_edges path.now) }
{
    let Some((first, rest)) = path.split_first() else {
        return Ok(());
    };
    let mut p = *first;
    let mut more = rest.len();
    for q in rest {
        more -= 1;
        edges.push(Edge {
            from: p,
            to: *q,
            last: more == 0,
        })?;
        p = *q;
    }
    Ok(())
}

// The parts of paths in a strip, as edges.
pub fn path_edges_in(alloc: Global, strip: Strip, edges: &[Edge]) -> Result<Seq<Edge>, Memory>
    ensures { IfOk result (λ kept. kept ≡ filter_map (edge_part strip) edges.now) }
{
    let mut kept = Seq::new(alloc);
    for edge in edges {
        if let Some(part) = edge_part(strip, *edge) {
            kept.push(part)?;
        }
    }
    Ok(kept)
}

// The part of an edge in a strip, with which a path ends where the edge leaves the strip.
pub fn edge_part(strip: Strip, edge: Edge) -> Option<Edge>
    ensures { result ≡ edge_part strip edge }
{
    if !touches(strip, edge) {
        return None;
    }
    Some(Edge {
        from: reach(strip, edge.from, edge.to, edge.from),
        to: reach(strip, edge.from, edge.to, edge.to),
        last: edge.last || !is_inside(strip, edge.to),
    })
}
