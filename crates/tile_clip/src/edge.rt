ghost use Rattle.std.specs.Prelude.{◌≡◌, filter, IfOk};
ghost use Rattle.tile_clip.specs.Outlines.{touches, all_touch};

use std::alloc::Global;
use strip_clip::{Strip, meets};
use tb_types::{Grid, Memory, Seq};

// An edge of a path or a ring. The last edge of a path has a mark; in a ring no edge has it.
#[derive(Clone, Copy, Debug, PartialEq, Eq)]
pub struct Edge {
    pub from: Grid,
    pub to: Grid,
    pub last: bool,
}

// Whether an edge has a point in a strip.
pub fn touches(strip: Strip, edge: Edge) -> bool
    ensures { result ≡ touches strip edge }
{
    meets(strip, edge.from, edge.to)
}

// The edges that touch a strip.
fn edges_touching(alloc: Global, strip: Strip, edges: &[Edge]) -> Result<Seq<Edge>, Memory>
    ensures { IfOk result (λ kept. kept ≡ filter (touches strip) edges.now) }
{
    let mut kept = Seq::new(alloc);
    for edge in edges {
        if touches(strip, *edge) {
            kept.push(*edge)?;
        }
    }
    Ok(kept)
}

// The edges that touch each of two strips.
#[derive(Debug, Drop)]
pub struct EdgeHalves {
    pub first: Seq<Edge>,
    pub second: Seq<Edge>,
}

// Which edges touch each of two strips. Where all of them touch the second, their list is handed on to it; else it is handed
// on to the first, with the edges that touch that one. So at most one part is a copy.
pub fn halves(
    alloc: Global,
    first: Strip,
    second: Strip,
    edges: Seq<Edge>,
) -> Result<EdgeHalves, Memory>
    ensures { IfOk result (λ both. both ≡ record { first = filter (touches first) edges; second = filter (touches second) edges }) }
{
    if all_touch(second, edges.as_slice()) {
        let in_first = edges_touching(alloc, first, edges.as_slice())?;
        return Ok(EdgeHalves {
            first: in_first,
            second: edges,
        });
    }
    let in_second = edges_touching(alloc, second, edges.as_slice())?;
    Ok(EdgeHalves {
        first: only_touching(first, edges),
        second: in_second,
    })
}

// The edges that touch a strip, in the list that they come in.
fn only_touching(strip: Strip, edges: Seq<Edge>) -> Seq<Edge>
    ensures { result ≡ filter (touches strip) edges }
{
    let mut kept = edges.into_vec();
    kept.retain(|edge| touches(strip, *edge));
    Seq::from_vec(kept)
}

// Whether all edges touch a strip.
fn all_touch(strip: Strip, edges: &[Edge]) -> bool
    ensures { result ≡ all_touch strip edges.now }
{
    for edge in edges {
        if !touches(strip, *edge) {
            return false;
        }
    }
    true
}
