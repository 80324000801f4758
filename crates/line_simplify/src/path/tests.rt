ghost use Rattle.std.specs.Prelude.{All, IfOk};
ghost use Rattle.line_simplify.specs.Key.{IsOnGrid};

use super::*;

// The tolerance, the points of a path, and those that are kept.
type Row = (u32, &'static [(u16, u16)], &'static [(u16, u16)]);

const ROWS: [Row; 9] = [
    (1, &[(0, 0), (5, 1), (10, 0)], &[(0, 0), (10, 0)]),
    (0, &[(0, 0), (5, 1), (10, 0)], &[(0, 0), (5, 1), (10, 0)]),
    // Of two points at one distance the first is kept.
    (
        1,
        &[(0, 0), (4, 2), (6, 2), (10, 0)],
        &[(0, 0), (4, 2), (10, 0)],
    ),
    // A point beyond an end is as far as it is from that end.
    (2, &[(3, 0), (0, 0), (13, 0)], &[(3, 0), (0, 0), (13, 0)]),
    (0, &[(0, 0), (1, 1), (2, 2), (4, 4)], &[(0, 0), (4, 4)]),
    // The ends are one point.
    (
        2,
        &[(0, 0), (2, 0), (3, 0), (0, 0)],
        &[(0, 0), (3, 0), (0, 0)],
    ),
    (64, &[(1, 1), (1, 1)], &[(1, 1), (1, 1)]),
    (64, &[(7, 1)], &[(7, 1)]),
    (64, &[], &[]),
];

#[test]
fn known_paths_keep_their_points(rt: HostRuntime) -> Result<(), Memory> {
    let alloc = rt.alloc();
    for (tolerance, path, wanted) in ROWS {
        assert!(rt; tolerance <= 64);
        let path = line(alloc, path)?;
        let wanted = line(alloc, wanted)?;
        let kept = simplify(alloc, &path, tolerance)?;
        assert!(rt;
            kept.as_slice() == wanted.as_slice(),
            "tolerance {tolerance}"
        );
    }
    Ok(())
}

#[test]
fn drawn_paths_keep_what_the_plain_rule_keeps(rt: HostRuntime) -> Result<(), Memory> {
    let alloc = rt.alloc();
    let mut seed = 7;
    for turn in 0u32..400 {
        let mut drawn = Vec::new(alloc);
        for _ in 0..turn % 23 {
            seed = next(seed);
            drawn.push((part(seed >> 40), part(seed >> 20)))?;
        }
        let path = line(alloc, &drawn)?;
        let tolerance = turn % 4;
        let kept = simplify(alloc, &path, tolerance)?;
        let wanted = plain(alloc, &path, tolerance)?;
        assert!(rt; kept.as_slice() == wanted.as_slice(), "turn {turn}");
    }
    Ok(())
}

fn next(seed: u64) -> u64 {
    seed.wrapping_mul(6364136223846793005)
        .wrapping_add(1442695040888963407)
}

// A coordinate below 12, so that points often lie at equal distances.
fn part(bits: u64) -> u16 {
    (bits % 12) as u16
}

fn line(alloc: Global, places: &[(u16, u16)]) -> Result<Vec<Grid>, Memory>
    ensures { IfOk result (λ points. All IsOnGrid points.items) }
{
    let mut points = Vec::new(alloc);
    for (x, y) in places {
        points.push(point(*x, *y))?;
    }
    Ok(points)
}

fn point(x: u16, y: u16) -> Grid
    ensures { IsOnGrid result }
{
    Grid {
        x: i32::from(x),
        y: i32::from(y),
    }
}

// The rule by marks and recursion.
fn plain(alloc: Global, path: &[Grid], tolerance: u32) -> Result<Vec<Grid>, Memory> {
    let last = path.len().saturating_sub(1);
    let mut marks = vec![in alloc; false; path.len()]?;
    mark(path, tolerance, (0, last), path.len(), &mut marks);
    let mut kept = Vec::new(alloc);
    for (i, p) in path.iter().enumerate() {
        if i == 0 || i == last || marks.get(i).copied().unwrap_or(false) {
            kept.push(*p)?;
        }
    }
    Ok(kept)
}

fn mark(path: &[Grid], tolerance: u32, ends: (usize, usize), depth: usize, marks: &mut [bool]) {
    let (from, to) = ends;
    let (Some(a), Some(b)) = (path.get(from), path.get(to)) else {
        return;
    };
    let mut found = None;
    let mut most = 0;
    for i in from.saturating_add(1)..to {
        let key = path.get(i).map_or(0, |p| plain_key(*a, *b, *p));
        if found.is_none() || key > most {
            found = Some(i);
            most = key;
        }
    }
    let limit = i128::from(tolerance)
        .wrapping_mul(i128::from(tolerance))
        .wrapping_mul(dot(*a, *b, *b).max(1));
    let Some(at) = found else {
        return;
    };
    if most <= limit || depth == 0 {
        return;
    }
    if let Some(slot) = marks.get_mut(at) {
        *slot = true;
    }
    mark(path, tolerance, (from, at), depth - 1, marks);
    mark(path, tolerance, (at, to), depth - 1, marks);
}

fn plain_key(a: Grid, b: Grid, p: Grid) -> i128 {
    let length = dot(a, b, b);
    let along = dot(a, p, b);
    let from_a = dot(a, p, p);
    let square = from_a.wrapping_mul(length);
    if length == 0 {
        from_a
    } else if along <= 0 {
        square
    } else if along >= length {
        dot(b, p, p).wrapping_mul(length)
    } else {
        // By the law of Lagrange, the square of the cross product.
        square.wrapping_sub(along.wrapping_mul(along))
    }
}

// The scalar product of p - a and q - a.
fn dot(a: Grid, p: Grid, q: Grid) -> i128 {
    let wide = way(a.x, p.x).wrapping_mul(way(a.x, q.x));
    let high = way(a.y, p.y).wrapping_mul(way(a.y, q.y));
    wide.wrapping_add(high)
}

fn way(from: i32, to: i32) -> i128 {
    i128::from(to).wrapping_sub(i128::from(from))
}

#[test]
fn a_long_straight_path_keeps_its_ends(rt: HostRuntime) -> Result<(), Memory> {
    let alloc = rt.alloc();
    let mut places = Vec::new(alloc);
    for i in 0u16..60000 {
        places.push((i, i))?;
    }
    let path = line(alloc, &places)?;
    let kept = simplify(alloc, &path, 0)?;
    assert!(rt; kept.as_slice().len() == 2);
    Ok(())
}
