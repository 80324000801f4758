ghost use Rattle.std.specs.Prelude.{◌≡◌, ◌<◌, ◌*◌, ◌^◌, IfOk};
ghost use Rattle.ring_assembly.specs.Rings.{absolute_doubled_area, clean_ring};

use std::alloc::Global;
use tb_types::{Memory, Seq, World, ring_without_repeats};

// The ring of some points, without repeated neighbours, if it has three points or more and some area.
#[tactic(auto, unfolding(crate::specs::Rings::clean_ring))]
pub fn cleaned(alloc: Global, points: &[World]) -> Result<Option<Seq<World>>, Memory>
    ensures { IfOk result (λ ring. ring ≡ clean_ring points.now) }
{
    let ring = ring_without_repeats(alloc, points)?;
    if ring.len() < 3 {
        return Ok(None);
    }
    if absolute_doubled_area(&ring) == 0 {
        return Ok(None);
    }
    Ok(Some(Seq::from_vec(ring)))
}

// The absolute doubled area of a ring of any length: the sums of the products of neighbours' x and y, one way round and the
// other, fit where a sum with signs would not.
pub fn absolute_doubled_area(ring: &[World]) -> u128
    ensures { result ≡ absolute_doubled_area ring.now }
{
    let Some((first, rest)) = ring.split_first() else {
        return 0;
    };
    let mut forth = 0;
    let mut back = 0;
    let mut p = *first;
    for q in rest {
        forth += product(p.x, q.y);
        back += product(q.x, p.y);
        p = *q;
    }
    forth += product(p.x, first.y);
    back += product(first.x, p.y);
    forth.abs_diff(back)
}

// The product of two coordinates.
pub fn product(m: u32, n: u32) -> u128
    ensures exact { result ≡ m * n }
    ensures small { result < 2 ^ 64 }
{
    u128::from(m) * u128::from(n)
}
