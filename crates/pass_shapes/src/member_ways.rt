ghost use Rattle.std.specs.Prelude.{◌≡◌, ◌-◌, ◌^◌, Option, option_map, filter_map, min, IfOk};
ghost use Rattle.ring_assembly.specs.declared.way.WayShape.{WayShape};
ghost use Rattle.tile_model.specs.Needs.{member_points};
ghost use Rattle.tile_model.specs.Relations.{first_each};
ghost use Rattle.pass_shapes.specs.Kept.{points_at};
ghost use Rattle.pass_shapes.specs.Stores.{shape_in};

use indexmap::IndexSet;
use node_store::Shapes;
use ring_assembly::WayShape;
use std::alloc::Global;
use tb_types::{Memory, OsmId, Seq};

/// The shapes of ways of these ids, each id at its first occurrence; ways without a shape are left out.
#[tactic(auto, using(crate::proofs::Walks::chosen_next, crate::proofs::Walks::chosen_not))]
pub fn member_ways(alloc: Global, shapes: &Shapes, ids: &[OsmId]) -> Result<Vec<WayShape>, Memory>
    ensures { IfOk result (λ ways. ways.items ≡ filter_map (shape_in shapes.now) (first_each ids.now)) }
{
    let first = first_each(alloc, ids)?;
    let mut ways = Vec::new(alloc);
    for id in first.as_slice() {
        if let Some(way) = shape_of(alloc, shapes, *id)? {
            ways.push(way)?;
        }
    }
    Ok(ways)
}

/// How many points the shapes of ways of these ids have together, each way once, up to the largest number of 64 bits.
#[tactic(auto, using(crate::proofs::MemberPoints::points_next))]
pub fn count_points(alloc: Global, shapes: &Shapes, ids: &[OsmId]) -> Result<u64, Memory>
    ensures { IfOk result (λ count. count ≡ min (member_points (shape_in shapes.now) ids.now) (2 ^ 64 - 1)) }
{
    let first = first_each(alloc, ids)?;
    let mut count = 0u64;
    for id in first.as_slice() {
        count = count.saturating_add(points_of(shapes, *id));
    }
    Ok(count)
}

// How many points the shape of a way has, or 0 where it has none.
fn points_of(shapes: &Shapes, id: OsmId) -> u64
    ensures { result ≡ points_at (shape_in shapes.now) id }
{
    match shapes.get(id) {
        Some(shaped) => match &shaped.shape {
            Some(way) => way.points.as_slice().len() as u64,
            None => 0,
        },
        None => 0,
    }
}

// Each id at its first occurrence.
#[tactic(auto, using(crate::proofs::WayWalks::first_next))]
fn first_each(alloc: Global, ids: &[OsmId]) -> Result<IndexSet<OsmId>, Memory>
    ensures { IfOk result (λ set. set.keys ≡ first_each ids.now) }
{
    let mut set = IndexSet::new(alloc);
    for id in ids {
        set.insert(*id)?;
    }
    Ok(set)
}

// A copy of the shape of a way, if it has one.
fn shape_of(alloc: Global, shapes: &Shapes, id: OsmId) -> Result<Option<WayShape>, Memory>
    ensures { IfOk result (λ way. way ≡ shape_in shapes.now id) }
{
    match shapes.get(id) {
        Some(shaped) => match &shaped.shape {
            Some(way) => Ok(Some(copy_of(alloc, way)?)),
            None => Ok(None),
        },
        None => Ok(None),
    }
}

fn copy_of(alloc: Global, way: &WayShape) -> Result<WayShape, Memory>
    ensures { IfOk result (λ copy. copy ≡ way.now) }
{
    let points = Vec::from_slice(alloc, way.points.as_slice())?;
    Ok(WayShape {
        first: way.first,
        last: way.last,
        points: Seq::from_vec(points),
    })
}
