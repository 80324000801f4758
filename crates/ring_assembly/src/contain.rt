ghost use Rattle.std.specs.Prelude.{◌≡◌, ◌<◌, length};
ghost use Rattle.ring_assembly.specs.Nesting.{encloses, contains};
ghost use Rattle.ring_assembly.specs.Envelopes.{AreOnRing, AreOutlines};

use super::clean::absolute_doubled_area;
use super::envelope::{Envelope, has};
use super::outline::Outline;
use super::side::side;
use tb_types::{Seq, World};

// Whether one ring contains another, both by their numbers. Where the first point of the second lies outside the box of the
// first, it doesn't.
#[tactic(auto, unfolding(crate::specs::Nesting::contains))]
pub fn contains(rings: &[Seq<World>], outlines: &[Outline], outer: usize, inner: usize) -> bool
    requires outlines { AreOutlines outlines.now rings.now }
    requires outer { outer < length rings.now }
    requires inner { inner < length rings.now }
    ensures { result ≡ contains rings.now outer inner }
{
    if outer == inner {
        return false;
    }
    let outline = &outlines[outer];
    let ring = rings[inner].as_slice();
    if let Some(p) = ring.first() {
        if !has(outline.whole, *p) {
            return false;
        }
    }
    encloses(
        rings[outer].as_slice(),
        &outline.stretches,
        ring,
        outer < inner,
    )
}

// Whether a ring encloses another: the first point of the second that lies on no edge of the first decides, and where there is
// none, their areas. Of two rings of one area the one that stands first is taken as the larger.
#[tactic(auto, unfolding(crate::specs::Nesting::encloses))]
fn encloses(outer: &[World], boxes: &[Envelope], inner: &[World], first: bool) -> bool
    requires { AreOnRing boxes.now outer.now }
    ensures { result ≡ encloses outer.now inner.now first }
{
    for p in inner {
        if let Some(inside) = side(outer, boxes, *p) {
            return inside;
        }
    }
    let outer = absolute_doubled_area(outer);
    let inner = absolute_doubled_area(inner);
    inner < outer || (inner == outer && first)
}
