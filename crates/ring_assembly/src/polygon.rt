ghost use Rattle.std.specs.Prelude.{◌≡◌, ◌<◌, ◌≤◌, All, IfOk, length};
ghost use Rattle.ring_assembly.specs.Nesting.{depth_of, is_outer_of, outer_of, is_number, inners_at, polygon_at, nested, AreDepths, AreOuters};
ghost use Rattle.ring_assembly.specs.Counts.{IsRing, IsArea, points_of_rings, points_of_polygons};
ghost use Rattle.ring_assembly.specs.Envelopes.{AreOutlines};

use super::contain::contains;
use super::outline::{Outline, outline_of};
use std::alloc::Global;
use tb_types::{Memory, Seq, World};

/// An outer ring and the rings that are holes in it. A ring's last point is joined to its first, which isn't repeated.
#[derive(Debug, Drop)]
pub struct Polygon {
    pub outer: Seq<World>,
    pub inners: Seq<Seq<World>>,
}

/// The polygons of rings. A ring contains another where the first point of the other that lies on no edge of it is inside by
/// the crossing rule; where there is none, where its absolute area is greater, or equal and it stands first. The depth of a
/// ring is the number of rings that contain it. A ring of even depth is the outer ring of a polygon. One of odd depth is an
/// inner ring of the first ring that contains it and is by one less deep, and is dropped where there is none. Polygons, and
/// the inner rings of each, stand in the order of the rings.
///
/// `Memory` is want of memory. Each pair of rings is looked at. It costs a few comparisons where the first point of the one
/// lies outside the box of the other. Else that point costs a step for each 64 points of the other, and one for each point of
/// the stretches in whose boxes it lies; and so does each point behind it, as long as they lie on edges of the other.
pub fn nest(alloc: Global, rings: &[Seq<World>]) -> Result<Seq<Polygon>, Memory>
    ensures exact { IfOk result (λ polygons. polygons ≡ nested rings.now) }

    // They are made of the rings, and have no more points than these.
    ensures areas { All IsRing rings.now → IfOk result (λ polygons. All IsArea polygons) }
    ensures few { IfOk result (λ polygons. points_of_polygons polygons ≤ points_of_rings rings.now) }
{
    all_polygons(alloc, rings)
}

// The polygons of rings.
#[tactic(auto, unfolding(crate::specs::Nesting::nested))]
fn all_polygons(alloc: Global, rings: &[Seq<World>]) -> Result<Seq<Polygon>, Memory>
    ensures { IfOk result (λ polygons. polygons ≡ nested rings.now) }
{
    let outlines = outlines(alloc, rings)?;
    let depths = depths(alloc, rings, &outlines)?;
    let outers = outers(alloc, rings, &outlines, &depths)?;
    let mut polygons = Seq::new(alloc);
    for number in 0..rings.len() {
        match polygon_of(alloc, rings, &depths, &outers, number)? {
            Some(polygon) => polygons.push(polygon)?,
            None => {}
        }
    }
    Ok(polygons)
}

// The outlines of rings.
fn outlines(alloc: Global, rings: &[Seq<World>]) -> Result<Vec<Outline>, Memory>
    ensures { IfOk result (λ outlines. AreOutlines outlines.items rings.now) }
{
    let mut outlines = Vec::with_capacity(alloc, rings.len())?;
    for ring in rings {
        outlines.push(outline_of(alloc, ring.as_slice())?)?;
    }
    Ok(outlines)
}

// The depths of rings.
fn depths(alloc: Global, rings: &[Seq<World>], outlines: &[Outline]) -> Result<Vec<usize>, Memory>
    requires { AreOutlines outlines.now rings.now }
    ensures { IfOk result (λ depths. AreDepths rings.now depths.items) }
{
    let mut depths = Vec::with_capacity(alloc, rings.len())?;
    for inner in 0..rings.len() {
        depths.push(depth(rings, outlines, inner))?;
    }
    Ok(depths)
}

// How many rings contain the one of a number.
#[tactic(auto, unfolding(crate::specs::Nesting::depth_of))]
fn depth(rings: &[Seq<World>], outlines: &[Outline], inner: usize) -> usize
    requires outlines { AreOutlines outlines.now rings.now }
    requires inner { inner < length rings.now }
    ensures { result ≡ depth_of rings.now inner }
{
    let mut depth = 0;
    for outer in 0..rings.len() {
        if contains(rings, outlines, outer, inner) {
            depth += 1;
        }
    }
    depth
}

// Of each ring the number of its outer ring, if it is an inner ring and has one.
fn outers(
    alloc: Global,
    rings: &[Seq<World>],
    outlines: &[Outline],
    depths: &[usize],
) -> Result<Vec<Option<usize>>, Memory>
    requires outlines { AreOutlines outlines.now rings.now }
    requires depths { AreDepths rings.now depths.now }
    ensures { IfOk result (λ outers. AreOuters rings.now outers.items) }
{
    let mut outers = Vec::with_capacity(alloc, rings.len())?;
    for inner in 0..rings.len() {
        outers.push(outer_of(rings, outlines, depths, inner))?;
    }
    Ok(outers)
}

// The number of the outer ring of an inner ring, if it has one.
#[tactic(auto, unfolding(crate::specs::Nesting::outer_of))]
fn outer_of(
    rings: &[Seq<World>],
    outlines: &[Outline],
    depths: &[usize],
    inner: usize,
) -> Option<usize>
    requires outlines { AreOutlines outlines.now rings.now }
    requires depths { AreDepths rings.now depths.now }
    requires inner { inner < length rings.now }
    ensures { result ≡ outer_of rings.now inner }
{
    if depths[inner] % 2 == 0 {
        return None;
    }
    for outer in 0..rings.len() {
        if is_outer_of(rings, outlines, depths, outer, inner) {
            return Some(outer);
        }
    }
    None
}

// Whether one ring contains another and is by one less deep, both by their numbers.
#[tactic(auto, unfolding(crate::specs::Nesting::is_outer_of))]
fn is_outer_of(
    rings: &[Seq<World>],
    outlines: &[Outline],
    depths: &[usize],
    outer: usize,
    inner: usize,
) -> bool
    requires outlines { AreOutlines outlines.now rings.now }
    requires depths { AreDepths rings.now depths.now }
    requires outer { outer < length rings.now }
    requires inner { inner < length rings.now }
    ensures { result ≡ is_outer_of rings.now outer inner }
{
    let above = depths[outer];
    let depth = depths[inner];
    above < depth && depth - above == 1 && contains(rings, outlines, outer, inner)
}

// The polygon whose outer ring has this number, if that is one.
#[tactic(auto, unfolding(crate::specs::Nesting::polygon_at))]
fn polygon_of(
    alloc: Global,
    rings: &[Seq<World>],
    depths: &[usize],
    outers: &[Option<usize>],
    number: usize,
) -> Result<Option<Polygon>, Memory>
    requires depths { AreDepths rings.now depths.now }
    requires outers { AreOuters rings.now outers.now }
    requires number { number < length rings.now }
    ensures { IfOk result (λ polygon. polygon ≡ polygon_at rings.now number) }
{
    if depths[number] % 2 != 0 {
        return Ok(None);
    }
    let outer = copied(alloc, rings[number].as_slice())?;
    let inners = inners_of(alloc, rings, outers, number)?;
    Ok(Some(Polygon { outer, inners }))
}

// The inner rings of the polygon whose outer ring has this number.
#[tactic(auto, unfolding(crate::specs::Nesting::inners_at))]
fn inners_of(
    alloc: Global,
    rings: &[Seq<World>],
    outers: &[Option<usize>],
    outer: usize,
) -> Result<Seq<Seq<World>>, Memory>
    requires { AreOuters rings.now outers.now }
    ensures { IfOk result (λ inners. inners ≡ inners_at rings.now outer) }
{
    let mut inners = Seq::new(alloc);
    for inner in 0..rings.len() {
        if is_number(outers[inner], outer) {
            inners.push(copied(alloc, rings[inner].as_slice())?)?;
        }
    }
    Ok(inners)
}

fn is_number(found: Option<usize>, number: usize) -> bool
    ensures { result ≡ is_number found number }
{
    match found {
        Some(at) => at == number,
        None => false,
    }
}

fn copied(alloc: Global, ring: &[World]) -> Result<Seq<World>, Memory>
    ensures { IfOk result (λ copy. copy ≡ ring.now) }
{
    let mut copy = Vec::with_capacity(alloc, ring.len())?;
    copy.extend_from_slice(ring)?;
    Ok(Seq::from_vec(copy))
}
