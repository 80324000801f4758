use super::*;
use std::alloc::Global;
use tb_types::{Memory, OsmId, Seq, World};

// A way by its first and its last node and its points.
type Row = (i64, i64, &'static [(u32, u32)]);

// Ways, and their rings one behind the other.
type Case = (&'static [Row], &'static [&'static [(u32, u32)]]);

const CASES: [Case; 8] = [
    // Two ways and a reversed one close, a way closes by itself, and one that closes with none goes.
    (
        &[
            (1, 2, &[(0, 0), (100, 0)]),
            (3, 2, &[(100, 100), (100, 0)]),
            (3, 1, &[(100, 100), (0, 100), (0, 0)]),
            (5, 5, &[(20, 20), (40, 20), (40, 40), (20, 40), (20, 20)]),
            (9, 10, &[(200, 200), (300, 200)]),
        ],
        &[
            &[(0, 0), (100, 0), (100, 100), (0, 100)],
            &[(20, 20), (40, 20), (40, 40), (20, 40)],
        ],
    ),
    // Four ways meet in one node, and the lowest that fits is taken.
    (
        &[
            (1, 3, &[(0, 0), (10, 0), (10, 10)]),
            (1, 6, &[(0, 0), (0, 90), (90, 90)]),
            (3, 1, &[(10, 10), (0, 10), (0, 0)]),
            (6, 1, &[(90, 90), (0, 0)]),
        ],
        &[
            &[(0, 0), (10, 0), (10, 10), (0, 10)],
            &[(0, 0), (0, 90), (90, 90)],
        ],
    ),
    // One way twice comes back on itself, and has no area.
    (
        &[
            (1, 3, &[(0, 0), (10, 0), (10, 10)]),
            (1, 3, &[(0, 0), (10, 0), (10, 10)]),
        ],
        &[],
    ),
    // A closed way is no part of a chain through its node.
    (
        &[
            (1, 2, &[(0, 0), (10, 0)]),
            (2, 2, &[(10, 0), (20, 0), (20, 5), (10, 0)]),
            (2, 1, &[(10, 0), (10, 10), (0, 0)]),
        ],
        &[&[(0, 0), (10, 0), (10, 10)], &[(10, 0), (20, 0), (20, 5)]],
    ),
    // A chain that can't close takes its ways with it: the third way alone would close with the second.
    (
        &[
            (1, 2, &[(0, 0), (10, 0)]),
            (2, 3, &[(10, 0), (10, 10)]),
            (3, 2, &[(10, 10), (20, 5), (10, 0)]),
            (2, 4, &[(10, 0), (50, 50)]),
        ],
        &[],
    ),
    // Ids at both ends of their range, ways of no and of one point, and a point that comes twice in a row.
    (
        &[
            (i64::MIN, i64::MAX, &[(0, 0), (10, 0)]),
            (-1, i64::MAX, &[]),
            (0, -1, &[(7, 7)]),
            (
                0,
                i64::MIN,
                &[(10, 10), (10, 10), (10, 10), (0, 10), (0, 0), (0, 0)],
            ),
            (4, 4, &[]),
            (4, 4, &[(1, 1)]),
        ],
        &[&[(0, 0), (10, 0), (10, 10), (0, 10)]],
    ),
    // A joint's point goes wherever it lies.
    (
        &[
            (1, 2, &[(0, 0), (10, 0)]),
            (2, 1, &[(90, 90), (10, 10), (0, 10), (50, 50)]),
        ],
        &[&[(0, 0), (10, 0), (10, 10), (0, 10)]],
    ),
    (&[], &[]),
];

#[test]
fn known_ways_have_their_rings(rt: HostRuntime) -> Result<(), Memory> {
    let alloc = rt.alloc();
    for (rows, wanted) in CASES {
        let ways = ways_of(alloc, rows)?;
        let rings = assemble(alloc, &ways)?;
        let rings = rings.as_slice();
        assert!(rt; rings.len() == wanted.len());
        for (ring, row) in rings.iter().zip(wanted) {
            assert!(rt; ring.as_slice() == points(alloc, row)?.as_slice());
        }
    }
    Ok(())
}

// A ring by its points.
type Ring = &'static [(u32, u32)];

// Rings, and of each polygon the numbers of its outer ring and of its inner rings among them.
type Nest = (&'static [Ring], &'static [(usize, &'static [usize])]);

const MAX: u32 = u32::MAX;

const NESTS: [Nest; 8] = [
    // A square in a square.
    (
        &[
            &[(0, 0), (100, 0), (100, 100), (0, 100)],
            &[(20, 20), (40, 20), (40, 40), (20, 40)],
        ],
        &[(0, &[1])],
    ),
    // Of two equal rings the second is inner to the first.
    (
        &[
            &[(0, 0), (9, 0), (9, 9), (0, 9)],
            &[(0, 0), (9, 0), (9, 9), (0, 9)],
        ],
        &[(0, &[1])],
    ),
    // Four squares in each other, in no order.
    (
        &[
            &[(3, 3), (6, 3), (6, 6), (3, 6)],
            &[(0, 0), (9, 0), (9, 9), (0, 9)],
            &[(1, 1), (8, 1), (8, 8), (1, 8)],
            &[(2, 2), (7, 2), (7, 7), (2, 7)],
        ],
        &[(1, &[2]), (3, &[0])],
    ),
    // A ring that touches the outer one in a vertex, and one that lies beside it.
    (
        &[
            &[(0, 0), (9, 0), (9, 9), (0, 9)],
            &[(0, 0), (5, 1), (1, 5)],
            &[(9, 9), (20, 9), (20, 20)],
        ],
        &[(0, &[1]), (2, &[])],
    ),
    // All points on the outer ring's edges: the areas decide.
    (
        &[&[(0, 0), (5, 0), (0, 5)], &[(0, 0), (9, 0), (9, 9), (0, 9)]],
        &[(1, &[0])],
    ),
    // A hole in each of two rings, which stand behind their holes.
    (
        &[
            &[(22, 2), (24, 2), (24, 4)],
            &[(2, 2), (4, 2), (4, 4)],
            &[(0, 0), (9, 0), (9, 9), (0, 9)],
            &[(20, 0), (29, 0), (29, 9), (20, 9)],
        ],
        &[(2, &[1]), (3, &[0])],
    ),
    // The corners of the world.
    (
        &[
            &[(0, 0), (MAX, 0), (MAX, MAX), (0, MAX)],
            &[(1, 1), (MAX, 1), (MAX, MAX), (1, MAX)],
        ],
        &[(0, &[1])],
    ),
    // Rings of no and of one point: the areas decide on the first.
    (
        &[&[], &[(5, 5)], &[(0, 0), (9, 0), (9, 9), (0, 9)]],
        &[(2, &[0, 1])],
    ),
];

#[test]
fn known_rings_have_their_polygons(rt: HostRuntime) -> Result<(), Memory> {
    let alloc = rt.alloc();
    for (rows, wanted) in NESTS {
        let mut rings = Vec::new(alloc);
        for row in rows {
            rings.push(points(alloc, row)?)?;
        }
        assert!(rt; are_polygons(nest(alloc, &rings)?.as_slice(), &rings, wanted));
    }
    Ok(())
}

// Rings in, beside and at an upper or a lower side of a ring of 400 points, which is 200 wide and 100 high.
const BESIDE: [Ring; 5] = [
    &[(10, 10), (20, 10), (20, 20)],
    &[(300, 10), (310, 10), (310, 20)],
    &[(5, 0), (6, 3), (4, 3)],
    &[(70, 300), (80, 300), (80, 310)],
    &[(150, 100), (160, 100), (155, 101)],
];

#[test]
fn a_ring_of_many_stretches_has_its_inner_rings(rt: HostRuntime) -> Result<(), Memory> {
    let alloc = rt.alloc();
    let mut long = Seq::new(alloc);
    for x in 0..200 {
        long.push(World { x, y: 0 })?;
    }
    for x in 0..200 {
        long.push(World { x: 200 - x, y: 100 })?;
    }
    let mut rings = Vec::new(alloc);
    rings.push(long)?;
    for row in BESIDE {
        rings.push(points(alloc, row)?)?;
    }
    let wanted: [(usize, &[usize]); 4] = [(0, &[1, 3]), (2, &[]), (4, &[]), (5, &[])];
    assert!(rt; are_polygons(nest(alloc, &rings)?.as_slice(), &rings, &wanted));
    Ok(())
}

// Whether polygons are those of rings by their numbers.
fn are_polygons(
    polygons: &[Polygon],
    rings: &[Seq<World>],
    wanted: &[(usize, &'static [usize])],
) -> bool {
    let mut are = polygons.len() == wanted.len();
    for (polygon, (outer, inners)) in polygons.iter().zip(wanted) {
        let found = polygon.inners.as_slice();
        are = are && same(polygon.outer.as_slice(), rings.get(*outer));
        are = are && found.len() == inners.len();
        for (ring, inner) in found.iter().zip(*inners) {
            are = are && same(ring.as_slice(), rings.get(*inner));
        }
    }
    are
}

fn same(points: &[World], ring: Option<&Seq<World>>) -> bool {
    match ring {
        Some(ring) => points == ring.as_slice(),
        None => false,
    }
}

fn ways_of(alloc: Global, rows: &[Row]) -> Result<Vec<WayShape>, Memory> {
    let mut ways = Vec::new(alloc);
    for (first, last, row) in rows {
        ways.push(WayShape {
            first: OsmId(*first),
            last: OsmId(*last),
            points: points(alloc, row)?,
        })?;
    }
    Ok(ways)
}

fn points(alloc: Global, row: &[(u32, u32)]) -> Result<Seq<World>, Memory> {
    let mut points = Seq::new(alloc);
    for (x, y) in row {
        points.push(World { x: *x, y: *y })?;
    }
    Ok(points)
}
