ghost use Rattle.std.specs.Prelude.{◌≡◌, ◌^◌, ◌≤◌, ◌*ℤ◌, length, take, unsigned_abs, IfOk};
ghost use Rattle.tb_types.specs.Points.{same, distinct, opened, distinct_ring, turn, doubled_area};

use crate::memory::Memory;
use crate::point::Point;
use std::alloc::Global;

/// Whether two points are one.
pub fn is_same<P: Point>(p: P, q: P) -> bool
    ensures { result ≡ same P.x_of P.y_of p q }
{
    p.x() == q.x() && p.y() == q.y()
}

/// A path without repeated neighbours.
pub fn without_repeats<P: Point>(alloc: Global, path: &[P]) -> Result<Vec<P>, Memory>
    ensures { IfOk result (λ points. points.items ≡ distinct P.x_of P.y_of path.now) }
{
    let mut points = Vec::new(alloc);
    let Some((first, rest)) = path.split_first() else {
        return Ok(points);
    };
    points.push(*first)?;
    let mut p = *first;
    for q in rest {
        if !is_same(p, *q) {
            points.push(*q)?;
            p = *q;
        }
    }
    Ok(points)
}

/// A ring without repeated neighbours, also round its end, where the first point stays.
pub fn ring_without_repeats<P: Point>(alloc: Global, points: &[P]) -> Result<Vec<P>, Memory>
    ensures { IfOk result (λ ring. ring.items ≡ distinct_ring P.x_of P.y_of points.now) }
{
    let mut ring = without_repeats(alloc, points)?;
    let kept = opened_length(&ring);
    ring.truncate(kept);
    Ok(ring)
}

// How many points of a ring are left without its last one where that is the first again.
fn opened_length<P: Point>(ring: &[P]) -> usize
    ensures { take result ring.now ≡ opened P.x_of P.y_of ring.now }
{
    if ring.len() < 2 {
        return ring.len();
    }
    let last = ring.len() - 1;
    if is_same(ring[0], ring[last]) {
        return last;
    }
    ring.len()
}

/// The doubled area of a ring of at most 2^60 points, by the surveyor's formula: positive where x turns to y, as for the outer
/// rings of Mapbox Vector Tile 2.1, section 4.3.4.4.
pub fn doubled_area<P: Point>(ring: &[P]) -> i128
    requires few { length ring.now ≤ 2 ^ 60 }
    ensures { result ≡ doubled_area P.x_of P.y_of ring.now }
{
    let Some((first, rest)) = ring.split_first() else {
        return 0;
    };
    let mut sum = 0;
    let mut p = *first;
    for q in rest {
        sum += turn(p, *q);
        p = *q;
    }
    sum + turn(p, *first)
}

// What an edge adds to the doubled area.
fn turn<P: Point>(p: P, q: P) -> i128
    ensures exact { result ≡ turn P.x_of P.y_of p q }
    ensures small { unsigned_abs result ≤ 2 ^ 65 }
{
    product(p.x(), q.y()) - product(q.x(), p.y())
}

fn product(m: i64, n: i64) -> i128
    requires m { unsigned_abs m ≤ 2 ^ 32 }
    requires n { unsigned_abs n ≤ 2 ^ 32 }
    ensures exact { result ≡ m *ℤ n }
    ensures small { unsigned_abs result ≤ 2 ^ 64 }
{
    i128::from(m) * i128::from(n)
}
