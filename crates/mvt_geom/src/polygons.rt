ghost use Rattle.std.specs.Prelude.{◌≡◌, [], ◌++◌, ◌∷◌, IfOk};
ghost use Rattle.mvt_geom.specs.Rings.{polygon, polygons_from, polygons_of};
ghost use Rattle.mvt_geom.specs.Walks.{GoesOn};

use std::alloc::Global;
use tb_types::{Grid, GridPolygon, Memory, Seq, doubled_area};

/// Polygons that are whole, and the one that inner rings may still be added to.
#[derive(Debug, Drop)]
pub struct Pending {
    pub whole: Seq<GridPolygon>,
    pub outer: Seq<Grid>,
    pub inners: Seq<Seq<Grid>>,
}

/// The polygons of rings: a ring of positive area begins a polygon, and one of negative area is inner to the polygon before
/// it. `None` exactly where there is no ring, the first isn't an outer one, or a ring has no area.
pub fn polygons_of(alloc: Global, rings: Seq<Seq<Grid>>) -> Result<Option<Seq<GridPolygon>>, Memory>
    ensures { IfOk result (λ polygons. polygons ≡ polygons_of rings) }
{
    let mut rings = rings.into_vec();
    if rings.is_empty() {
        return Ok(None);
    }
    let outer = rings.remove(0);
    if doubled_area(outer.as_slice()) <= 0 {
        return Ok(None);
    }
    polygons_from(alloc, outer, rings)
}

// The polygons of an outer ring and of the rings that follow.
fn polygons_from(
    alloc: Global,
    outer: Seq<Grid>,
    rings: Vec<Seq<Grid>>,
) -> Result<Option<Seq<GridPolygon>>, Memory>
    ensures { IfOk result (λ polygons. polygons ≡ polygons_from outer [] rings.items) }
{
    let mut pending = Pending {
        whole: Seq::new(alloc),
        outer,
        inners: Seq::new(alloc),
    };
    for ring in rings {
        match with_ring(alloc, pending, ring)? {
            Some(next) => pending = next,
            None => return Ok(None),
        }
    }
    Ok(Some(closed(pending)?))
}

// All polygons, the pending one too.
fn closed(pending: Pending) -> Result<Seq<GridPolygon>, Memory>
    ensures { IfOk result (λ polygons. polygons ≡ pending.whole ++ polygon pending.outer pending.inners ∷ []) }
{
    let Pending {
        mut whole,
        outer,
        inners,
    } = pending;
    whole.push(GridPolygon { outer, inners })?;
    Ok(whole)
}

// One ring more, unless it has no area.
fn with_ring(alloc: Global, pending: Pending, ring: Seq<Grid>) -> Result<Option<Pending>, Memory>
    ensures { IfOk result (GoesOn pending ring) }
{
    let area = doubled_area(ring.as_slice());
    if area > 0 {
        return Ok(Some(Pending {
            whole: closed(pending)?,
            outer: ring,
            inners: Seq::new(alloc),
        }));
    }
    if area < 0 {
        return Ok(Some(with_inner(pending, ring)?));
    }
    Ok(None)
}

// An inner ring in the polygon that is pending.
fn with_inner(pending: Pending, ring: Seq<Grid>) -> Result<Pending, Memory>
    ensures whole { IfOk result (λ next. next.whole ≡ pending.whole) }
    ensures outer { IfOk result (λ next. next.outer ≡ pending.outer) }
    ensures inners { IfOk result (λ next. next.inners ≡ pending.inners ++ ring ∷ []) }
{
    let Pending {
        whole,
        outer,
        mut inners,
    } = pending;
    inners.push(ring)?;
    Ok(Pending {
        whole,
        outer,
        inners,
    })
}
