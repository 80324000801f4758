ghost use Rattle.std.specs.Prelude.{◌≡◌, IfOk, max};
ghost use Rattle.tb_types.specs.Needs.{relation_need};
ghost use Rattle.tile_model.specs.Needs.{largest, member_points};
ghost use Rattle.pass_shapes.specs.Kept.{needs_of};
ghost use Rattle.pass_shapes.specs.Stores.{shape_in};

use crate::member_ways::count_points;
use crate::numbers::{RELATION_FACTOR, RELATION_REST};
use member_sets::KeptRelation;
use node_store::Shapes;
use std::alloc::Global;
use tb_types::Memory;

/// The largest need of kept relations, in bytes, or 0 where there is none.
#[tactic(auto, using(crate::proofs::MemberPoints::largest_next))]
pub fn largest_relation(
    alloc: Global,
    shapes: &Shapes,
    kept: &[KeptRelation],
) -> Result<u64, Memory>
    ensures { IfOk result (λ need. need ≡ largest (needs_of (shape_in shapes.now) kept.now)) }
{
    let mut most = 0;
    for relation in kept {
        let points = count_points(alloc, shapes, relation.members.as_slice())?;
        most = larger(most, relation_need(points));
    }
    Ok(most)
}

// What a relation needs whose member ways have so many points, up to the largest number of 64 bits.
fn relation_need(points: u64) -> u64
    ensures { result ≡ relation_need points }
{
    points
        .saturating_mul(RELATION_FACTOR)
        .saturating_add(RELATION_REST)
}

// The larger of two numbers.
fn larger(a: u64, b: u64) -> u64
    ensures { result ≡ max a b }
{
    if a < b { b } else { a }
}
