ghost use Rattle.std.specs.Prelude.{◌≡◌, [], ◌∷◌, ◌++◌, ◌+◌, ◌*◌, ◌≤◌, ◌<◌, ◌^◌};
ghost use Rattle.ring_assembly.specs.Sides.{forth_round, back_round, on_edge, passes, crosses, differ, shown_along, shown};
ghost use Rattle.ring_assembly.specs.Envelopes.{IsAround, AreOnRing};

use super::clean::product;
use super::envelope::{Envelope, has};
use super::outline::{end_of, split_stretch};
use tb_types::World;

// Whether a point is inside a ring by the crossing rule, or `None` where it lies on an edge. The ring's boxes tell which of
// its stretches have to be walked.
pub fn side(ring: &[World], boxes: &[Envelope], p: World) -> Option<bool>
    requires { AreOnRing boxes.now ring.now }
    ensures { result ≡ shown ring.now p }
{
    let Some((first, rest)) = ring.split_first() else {
        return Some(false);
    };
    let mut inside = false;
    let mut from = *first;
    let mut left = rest;
    for envelope in boxes {
        let (stretch, more) = split_stretch(left);
        match crossed(from, stretch, *envelope, p) {
            Some(odd) => inside = differ(inside, odd),
            None => return None,
        }
        from = end_of(from, stretch);
        left = more;
    }
    match closed(from, left, *first, p) {
        Some(odd) => Some(differ(inside, odd)),
        None => None,
    }
}

// What a path shows that goes on to the ring's first point.
fn closed(from: World, path: &[World], first: World, p: World) -> Option<bool>
    ensures { result ≡ shown_along p from (path.now ++ first ∷ []) }
{
    match along(from, path, p) {
        Some(odd) => {
            let last = end_of(from, path);
            if is_on(last, first, p) {
                return None;
            }
            Some(differ(odd, is_crossed(last, first, p)))
        }
        None => None,
    }
}

// What a stretch within a box shows. Outside the box it has no edge to walk: to the left of it each edge is crossed of which
// exactly one end is below, and so the stretch's ends decide.
fn crossed(from: World, stretch: &[World], envelope: Envelope, p: World) -> Option<bool>
    requires { IsAround envelope (from ∷ stretch.now) }
    ensures { result ≡ shown_along p from stretch.now }
{
    if has(envelope, p) {
        return along(from, stretch, p);
    }
    if p.x >= envelope.low.x {
        return Some(false);
    }
    let end = end_of(from, stretch);
    Some(differ(p.y < from.y, p.y < end.y))
}

// What the edges along a path show.
fn along(from: World, path: &[World], p: World) -> Option<bool>
    ensures { result ≡ shown_along p from path.now }
{
    let mut odd = false;
    let mut a = from;
    for b in path {
        if is_on(a, *b, p) {
            return None;
        }
        odd = differ(odd, is_crossed(a, *b, p));
        a = *b;
    }
    Some(odd)
}

fn differ(one: bool, other: bool) -> bool
    ensures { result ≡ differ one other }
{
    one != other
}

// Whether a point lies on the edge from a to b.
#[tactic(auto, unfolding(crate::specs::Sides::on_edge))]
fn is_on(a: World, b: World, p: World) -> bool
    ensures { result ≡ on_edge a b p }
{
    a.y.min(b.y) <= p.y
        && p.y <= a.y.max(b.y)
        && a.x.min(b.x) <= p.x
        && p.x <= a.x.max(b.x)
        && forth(a, b, p) == back(a, b, p)
}

// Whether the edge from a to b crosses the way from p to the right.
#[tactic(auto, unfolding(crate::specs::Sides::crosses))]
fn is_crossed(a: World, b: World, p: World) -> bool
    ensures { result ≡ crosses a b p }
{
    if a.y <= p.y && p.y < b.y {
        return is_passed(a, b, p);
    }
    if b.y <= p.y && p.y < a.y {
        return is_passed(b, a, p);
    }
    false
}

// Whether the edge from a to b, one end above p and one below, passes p's height to the right of p.
fn is_passed(a: World, b: World, p: World) -> bool
    requires above { a.y ≤ p.y }
    requires below { p.y < b.y }
    ensures { result ≡ passes a b p }
{
    product(p.x, b.y - a.y) < product(a.x, b.y - p.y) + product(b.x, p.y - a.y)
}

// The two sums whose difference is twice the area of the triangle a, b, p.
fn forth(a: World, b: World, p: World) -> u128
    ensures { result ≡ forth_round a b p }
{
    product(a.x, b.y) + product(b.x, p.y) + product(p.x, a.y)
}

fn back(a: World, b: World, p: World) -> u128
    ensures { result ≡ back_round a b p }
{
    product(b.x, a.y) + product(p.x, b.y) + product(a.x, p.y)
}
