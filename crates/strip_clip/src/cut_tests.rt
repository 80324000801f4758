use super::tests::{area, draw, points, polygon};
use super::*;
use std::alloc::Global;
use tb_types::{Grid, Memory, Seq, Shape, TileXyz};

// A point of a shape: 1 where it begins a path or an outer ring, 2 where it begins a hole, else 0; and its place.
type Mark = (u8, i32, i32);

type Places = &'static [(i32, i32)];

// Zoom, x and y of a tile, a line, and its points in the tile and a buffer of 64 units.
type LineRow = (u8, u32, u32, Places, &'static [Mark]);

const LINES: [LineRow; 4] = [
    (
        0,
        0,
        0,
        &[(100, -200), (303, 4400)],
        &[(1, 106, -64), (0, 292, 4160)],
    ),
    (
        1,
        1,
        1,
        &[
            (4000, 4000),
            (4500, 4500),
            (4500, 4500),
            (9000, 4501),
            (8000, 8000),
            (8000, 9001),
        ],
        &[
            (1, -64, -64),
            (0, 404, 404),
            (0, 4160, 405),
            (1, 4160, 3008),
            (0, 3904, 3904),
            (0, 3904, 4160),
        ],
    ),
    // A touch of a bound leaves nothing, and neither does a path of one point.
    (1, 1, 1, &[(0, 0), (4032, 4032), (0, 5000)], &[]),
    (0, 0, 0, &[(50, 50)], &[]),
];

// Zoom and x of a tile in the first row, an outer ring and a hole, and what is left of both.
type AreaRow = (u8, u32, Places, Places, &'static [Mark]);

const TEN: &[Mark] = &[(1, 0, 0), (0, 10, 0), (0, 10, 10), (0, 0, 10)];

const HUNDRED: Places = &[(0, 0), (100, 0), (100, 100), (0, 100)];

const AREAS: [AreaRow; 8] = [
    // A reversed ring, another start, repeated neighbours, also round the end.
    (0, 0, &[(0, 0), (0, 10), (10, 10), (10, 0)], &[], TEN),
    (0, 0, &[(10, 10), (0, 10), (0, 0), (10, 0)], &[], TEN),
    (
        0,
        0,
        &[(0, 0), (0, 0), (10, 0), (10, 10), (10, 10), (0, 10), (0, 0)],
        &[],
        TEN,
    ),
    (0, 0, &[(0, 0), (10, 10), (20, 20)], &[], &[]),
    // A hole that stays, one outside, one that is cut, one without area.
    (
        0,
        0,
        HUNDRED,
        &[(20, 10), (20, 20), (10, 20), (10, 10)],
        &[
            (1, 0, 0),
            (0, 100, 0),
            (0, 100, 100),
            (0, 0, 100),
            (2, 10, 10),
            (0, 10, 20),
            (0, 20, 20),
            (0, 20, 10),
        ],
    ),
    (
        1,
        0,
        &[(0, 0), (9000, 0), (9000, 9000), (0, 9000)],
        &[(5000, 5000), (5010, 5000), (5010, 5010)],
        &[(1, 0, 0), (0, 4160, 0), (0, 4160, 4160), (0, 0, 4160)],
    ),
    (
        1,
        0,
        &[(0, 0), (3000, 0), (3000, 8000), (0, 8000)],
        &[(1000, 3000), (2000, 3000), (2000, 6001), (999, 6000)],
        &[
            (1, 0, 0),
            (0, 3000, 0),
            (0, 3000, 4160),
            (0, 0, 4160),
            (2, 1000, 3000),
            (0, 1000, 4160),
            (0, 2000, 4160),
            (0, 2000, 3000),
        ],
    ),
    (
        0,
        0,
        HUNDRED,
        &[(1, 1), (5, 5), (9, 9)],
        &[(1, 0, 0), (0, 100, 0), (0, 100, 100), (0, 0, 100)],
    ),
];

#[test]
fn known_lines_and_areas_have_their_cuts(rt: HostRuntime) -> Result<(), Memory> {
    let alloc = rt.alloc();
    for (z, x, y, path, wanted) in LINES {
        assert!(rt; z <= 1 && x < 1 << z && y < 1 << z);
        let whole = line(alloc, path)?;
        let found = cut_marks(alloc, &whole, z, x, y)?;
        assert!(rt; found.as_slice() == wanted, "line of {x} {y}");
    }
    for (z, x, outer, inner, wanted) in AREAS {
        assert!(rt; z <= 1 && x < 1 << z);
        let whole = area(alloc, outer, inner)?;
        let found = cut_marks(alloc, &whole, z, x, 0)?;
        assert!(rt; found.as_slice() == wanted, "area of {x}");
    }
    Ok(())
}

// Small rings, which often have repeated neighbours or no area, lie in the tile: what is left is the clean-up alone.
#[test]
fn drawn_rings_and_paths_are_cleaned_as_by_the_plain_rule(rt: HostRuntime) -> Result<(), Memory> {
    let alloc = rt.alloc();
    let mut seed = 3;
    let around = [(-9, -9), (9, -9), (9, 9), (-9, 9)];
    for turn in 0u64..300 {
        let drawn = small(alloc, &draw(alloc, &mut seed, turn % 8)?)?;
        let ring = from_third(alloc, &drawn)?;
        let whole = area(alloc, &drawn, &[])?;
        let found = cut_marks(alloc, &whole, 0, 0, 0)?;
        let mut wanted = Vec::new(alloc);
        add_marks(&mut wanted, 1, &plain_ring(alloc, &ring, true)?)?;
        assert!(rt; found.as_slice() == wanted.as_slice(), "ring {turn}");
        let whole = area(alloc, &around, &drawn)?;
        let found = cut_marks(alloc, &whole, 0, 0, 0)?;
        let mut wanted = Vec::new(alloc);
        add_marks(&mut wanted, 1, &around)?;
        add_marks(&mut wanted, 2, &plain_ring(alloc, &ring, false)?)?;
        assert!(rt; found.as_slice() == wanted.as_slice(), "hole {turn}");
        let whole = line(alloc, &drawn)?;
        let found = cut_marks(alloc, &whole, 0, 0, 0)?;
        let path = plain_path(alloc, &drawn)?;
        let mut wanted = Vec::new(alloc);
        if path.len() > 1 {
            add_marks(&mut wanted, 1, &path)?;
        }
        assert!(rt; found.as_slice() == wanted.as_slice(), "path {turn}");
    }
    Ok(())
}

#[test]
fn drawn_rings_are_cut_by_columns_and_then_by_rows(rt: HostRuntime) -> Result<(), Memory> {
    let alloc = rt.alloc();
    let mut seed = 17;
    for turn in 0u64..100 {
        let mut drawn = Vec::new(alloc);
        for (x, y) in draw(alloc, &mut seed, turn % 9)? {
            drawn.push((x.wrapping_mul(700), y.wrapping_mul(700)))?;
        }
        let ring = points(alloc, &drawn)?;
        let in_column = strip_ring(alloc, Axis::X, 4032, 8256, &ring)?;
        let in_tile = strip_ring(alloc, Axis::Y, 4032, 8256, in_column.as_slice())?;
        let mut places = Vec::new(alloc);
        for p in in_tile.as_slice() {
            places.push((p.x.wrapping_sub(4096), p.y.wrapping_sub(4096)))?;
        }
        let mut wanted = Vec::new(alloc);
        add_marks(&mut wanted, 1, &plain_ring(alloc, &places, true)?)?;
        let whole = area(alloc, &drawn, &[])?;
        let found = cut_marks(alloc, &whole, 1, 1, 1)?;
        assert!(rt; found.as_slice() == wanted.as_slice(), "ring {turn}");
    }
    Ok(())
}

// Places with coordinates of -1 to 1.
fn small(alloc: Global, places: &[(i32, i32)]) -> Result<Vec<(i32, i32)>, Memory> {
    let mut small = Vec::new(alloc);
    for (x, y) in places {
        small.push((x.wrapping_rem(2), y.wrapping_rem(2)))?;
    }
    Ok(small)
}

#[test]
fn each_polygon_is_cut_by_itself(rt: HostRuntime) -> Result<(), Memory> {
    let alloc = rt.alloc();
    let ten = [(0, 0), (10, 0), (10, 10), (0, 10)];
    let twenty = [(20, 20), (30, 20), (30, 30), (20, 30)];
    let mut polygons = Seq::new(alloc);
    polygons.push(polygon(alloc, &ten, &ten)?)?;
    polygons.push(polygon(alloc, &twenty, &[])?)?;
    polygons.push(polygon(alloc, &ten, &[])?)?;
    let found = cut_marks(alloc, &Shape::Area(polygons), 0, 0, 0)?;
    let mut wanted = Vec::new(alloc);
    add_marks(&mut wanted, 1, &twenty)?;
    add_marks(&mut wanted, 1, &ten)?;
    assert!(rt; found.as_slice() == wanted.as_slice());
    Ok(())
}

// A line and a ring of many points, which go down by steps and back beside them.
#[test]
fn long_lines_and_rings_are_cut(rt: HostRuntime) -> Result<(), Memory> {
    let alloc = rt.alloc();
    let mut steps = Vec::new(alloc);
    for i in 0i32..35000 {
        steps.push((i % 2, i / 9))?;
    }
    for i in 0i32..35000 {
        steps.push((4000 - i % 2, 3888 - i / 9))?;
    }
    let found = cut_marks(alloc, &line(alloc, &steps)?, 0, 0, 0)?;
    assert!(rt; found.len() == 70000);
    let found = cut_marks(alloc, &area(alloc, &steps, &[])?, 0, 0, 0)?;
    assert!(rt; found.len() == 70000);
    Ok(())
}

// A ring from its third point on: a strip gives the end of each edge, so each of the two begins with the next point.
fn from_third(alloc: Global, places: &[(i32, i32)]) -> Result<Vec<(i32, i32)>, Memory> {
    let mut ring = Vec::new(alloc);
    for i in 0..places.len() {
        ring.push(around(places, i, 2))?;
    }
    Ok(ring)
}

fn line(alloc: Global, places: &[(i32, i32)]) -> Result<Shape, Memory> {
    let mut paths = Seq::new(alloc);
    paths.push(Seq::from_vec(points(alloc, places)?))?;
    Ok(Shape::Line(paths))
}

// The points of a shape in a tile and a buffer of 64 units.
fn cut_marks(alloc: Global, shape: &Shape, z: u8, x: u32, y: u32) -> Result<Vec<Mark>, Memory> {
    let mut marks = Vec::new(alloc);
    if z > 1 || x >= 1 << z || y >= 1 << z {
        return Ok(marks);
    }
    match cut(alloc, shape, TileXyz { z, x, y }, 64)? {
        None => {}
        Some(Shape::Point(_)) => {}
        Some(Shape::Line(paths)) => {
            for path in paths.as_slice() {
                add_ring(&mut marks, 1, path.as_slice())?;
            }
        }
        Some(Shape::Area(polygons)) => {
            for polygon in polygons.as_slice() {
                add_ring(&mut marks, 1, polygon.outer.as_slice())?;
                for inner in polygon.inners.as_slice() {
                    add_ring(&mut marks, 2, inner.as_slice())?;
                }
            }
        }
    }
    Ok(marks)
}

fn add_ring(marks: &mut Vec<Mark>, first: u8, ring: &[Grid]) -> Result<(), Memory> {
    for (i, p) in ring.iter().enumerate() {
        marks.push((if i == 0 { first } else { 0 }, p.x, p.y))?;
    }
    Ok(())
}

fn add_marks(marks: &mut Vec<Mark>, first: u8, places: &[(i32, i32)]) -> Result<(), Memory> {
    for (i, (x, y)) in places.iter().enumerate() {
        marks.push((if i == 0 { first } else { 0 }, *x, *y))?;
    }
    Ok(())
}

fn plain_path(alloc: Global, places: &[(i32, i32)]) -> Result<Vec<(i32, i32)>, Memory> {
    let mut path = Vec::new(alloc);
    for (i, p) in places.iter().enumerate() {
        if i == 0 || places.get(i.saturating_sub(1)) != Some(p) {
            path.push(*p)?;
        }
    }
    Ok(path)
}

// The place at some distance from another round a ring.
fn around(ring: &[(i32, i32)], from: usize, by: usize) -> (i32, i32) {
    let at = from.wrapping_add(by).checked_rem(ring.len()).unwrap_or(0);
    ring.get(at).copied().unwrap_or((0, 0))
}

// The doubled area by the trapezes below the edges.
fn plain_area(ring: &[(i32, i32)]) -> i64 {
    let mut sum = 0i64;
    for i in 0..ring.len() {
        let (x, y) = around(ring, i, 0);
        let (next_x, next_y) = around(ring, i, 1);
        let width = i64::from(x).wrapping_add(i64::from(next_x));
        let height = i64::from(next_y).wrapping_sub(i64::from(y));
        sum = sum.wrapping_add(width.wrapping_mul(height));
    }
    sum
}

// A ring after clean-up, or nothing: its points are picked from its least vertex on, one way round or the other.
fn plain_ring(
    alloc: Global,
    places: &[(i32, i32)],
    outer: bool,
) -> Result<Vec<(i32, i32)>, Memory> {
    let mut ring = plain_path(alloc, places)?;
    if ring.len() > 1 && ring.first() == ring.last() {
        let _ = ring.pop();
    }
    let mut picked = Vec::new(alloc);
    let sum = plain_area(&ring);
    if ring.len() < 3 || sum == 0 {
        return Ok(picked);
    }
    let forward = (sum > 0) == outer;
    let start = least_place(&ring, forward);
    for k in 0..ring.len() {
        let by = if forward {
            k
        } else {
            ring.len().wrapping_sub(k)
        };
        picked.push(around(&ring, start, by))?;
    }
    Ok(picked)
}

// The place of the least vertex by (y, x), of equals the first one forward or backward.
fn least_place(ring: &[(i32, i32)], forward: bool) -> usize {
    let mut best = 0usize;
    for k in 0..ring.len() {
        let i = if forward {
            k
        } else {
            ring.len().wrapping_sub(k).wrapping_sub(1)
        };
        let (x, y) = around(ring, i, 0);
        let (least_x, least_y) = around(ring, best, 0);
        if k == 0 || y < least_y || y == least_y && x < least_x {
            best = i;
        }
    }
    best
}
