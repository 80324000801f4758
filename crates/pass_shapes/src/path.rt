ghost use Rattle.std.specs.Prelude.{◌≡◌, IfOk};
ghost use Rattle.pass_shapes.specs.Stores.{locate_in, seen_path};
ghost use Rattle.ring_assembly.specs.Chains.{same_node};
ghost use Rattle.tile_model.specs.Relations.{way_along};
ghost use Rattle.tile_model.specs.Ways.{all_located, path_of, is_closed};

use node_store::Locations;
use ring_assembly::WayShape;
use std::alloc::Global;
use tb_types::{Memory, OsmId, Seq, World};

/// The points of a way: it has at least 2 nodes, and all of them have locations.
pub fn path_of(
    alloc: Global,
    locations: &Locations,
    refs: &[OsmId],
) -> Result<Option<Vec<World>>, Memory>
    ensures { IfOk result (λ path. seen_path path ≡ path_of (locate_in locations.now) refs.now) }
{
    if refs.len() < 2 {
        return Ok(None);
    }
    located(alloc, locations, refs)
}

/// A way along these nodes, with its first and its last one, if it has a shape.
#[tactic(auto, using(crate::proofs::WayWalks::along_are, crate::proofs::WayWalks::not_along))]
pub fn way_along(
    alloc: Global,
    locations: &Locations,
    refs: &[OsmId],
) -> Result<Option<WayShape>, Memory>
    ensures { IfOk result (λ way. way ≡ way_along (locate_in locations.now) refs.now) }
{
    if refs.len() < 2 {
        return Ok(None);
    }
    match located(alloc, locations, refs)? {
        Some(points) => Ok(Some(WayShape {
            first: refs[0],
            last: refs[refs.len() - 1],
            points: Seq::from_vec(points),
        })),
        None => Ok(None),
    }
}

// Where all these nodes are.
#[tactic(auto, using(crate::proofs::Walks::rest_start, crate::proofs::Walks::rest_next, crate::proofs::Walks::rest_missing, crate::proofs::Walks::rest_all))]
fn located(
    alloc: Global,
    locations: &Locations,
    refs: &[OsmId],
) -> Result<Option<Vec<World>>, Memory>
    ensures { IfOk result (λ path. seen_path path ≡ all_located (locate_in locations.now) refs.now) }
{
    let mut points = Vec::with_capacity(alloc, refs.len())?;
    for id in refs {
        match locate(locations, *id) {
            Some(point) => points.push(point)?,
            None => return Ok(None),
        }
    }
    Ok(Some(points))
}

// Where a node is.
fn locate(locations: &Locations, id: OsmId) -> Option<World>
    ensures { result ≡ locate_in locations.now id }
{
    match locations.get(id) {
        Some(located) => located.at,
        None => None,
    }
}

/// Whether a way is closed: its first and its last node are one, and it has at least 4.
#[tactic(auto, using(crate::proofs::Walks::closed_are, crate::proofs::Walks::not_closed))]
pub fn is_closed(refs: &[OsmId]) -> bool
    ensures { result ≡ is_closed refs.now }
{
    if refs.len() < 4 {
        return false;
    }
    is_same(refs[0], refs[refs.len() - 1])
}

// Whether two ids are one.
fn is_same(one: OsmId, other: OsmId) -> bool
    ensures { result ≡ same_node one other }
{
    one.0 == other.0
}
