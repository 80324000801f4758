ghost use Rattle.std.specs.Prelude.{◌≡◌, ◌*◌, ◌^◌, ◌<◌, ◌≤◌, ◌-ℤ◌, ◌*ℤ◌, unsigned_abs};
ghost use Rattle.line_simplify.specs.Key.{IsCoordinate, IsOnGrid, distance_of, scalar_of, cross_of, key_of};

use tb_types::Grid;

// The square of the distance of two points.
#[tactic(auto, unfolding(crate::specs::Key::distance_of))]
pub fn distance(p: Grid, q: Grid) -> u64
    requires p { IsOnGrid p }
    requires q { IsOnGrid q }
    ensures exact { result ≡ distance_of p q }
    ensures small { result ≤ 2 ^ 57 }
{
    square(p.x.abs_diff(q.x)) + square(p.y.abs_diff(q.y))
}

// The key of a point between the ends a and b of a part, by the part's squared length: the square of the point's distance
// from the part, times the square of the length where that isn't 0.
#[tactic(auto, unfolding(crate::specs::Key::key_of))]
pub fn key(a: Grid, b: Grid, length: u64, p: Grid) -> u128
    requires a { IsOnGrid a }
    requires b { IsOnGrid b }
    requires p { IsOnGrid p }
    requires length { length ≡ distance_of a b }
    requires small { length ≤ 2 ^ 57 }
    ensures { result ≡ key_of a b p }
{
    if length == 0 {
        return u128::from(distance(p, a));
    }
    let along = scalar(a, b, p);
    if along <= 0 {
        return u128::from(distance(p, a)) * u128::from(length);
    }
    if along >= length as i64 {
        return u128::from(distance(p, b)) * u128::from(length);
    }
    let off = u128::from(cross(a, b, p).unsigned_abs());
    off * off
}

// The scalar product of the steps from a to p and from a to b.
#[tactic(auto, unfolding(crate::specs::Key::scalar_of))]
fn scalar(a: Grid, b: Grid, p: Grid) -> i64
    requires a { IsOnGrid a }
    requires b { IsOnGrid b }
    requires p { IsOnGrid p }
    ensures { result ≡ scalar_of a b p }
{
    product(step(a.x, p.x), step(a.x, b.x)) + product(step(a.y, p.y), step(a.y, b.y))
}

// The cross product of the steps from a to p and from a to b.
#[tactic(auto, unfolding(crate::specs::Key::cross_of))]
fn cross(a: Grid, b: Grid, p: Grid) -> i64
    requires a { IsOnGrid a }
    requires b { IsOnGrid b }
    requires p { IsOnGrid p }
    ensures exact { result ≡ cross_of a b p }
    ensures small { unsigned_abs result ≤ 2 ^ 57 }
{
    product(step(a.x, p.x), step(a.y, b.y)) - product(step(a.y, p.y), step(a.x, b.x))
}

// The step from one coordinate to another, which is negative downward.
fn step(from: i32, to: i32) -> i64
    requires from { IsCoordinate from }
    requires to { IsCoordinate to }
    ensures exact { result ≡ to -ℤ from }
    ensures small { unsigned_abs result ≤ 2 ^ 28 }
{
    i64::from(to) - i64::from(from)
}

// The product of two steps.
fn product(m: i64, n: i64) -> i64
    requires m { unsigned_abs m ≤ 2 ^ 28 }
    requires n { unsigned_abs n ≤ 2 ^ 28 }
    ensures exact { result ≡ m *ℤ n }
    ensures small { unsigned_abs result ≤ 2 ^ 56 }
{
    m * n
}

// The square of a difference of coordinates.
fn square(difference: u32) -> u64
    requires { difference ≤ 2 ^ 28 }
    ensures exact { result ≡ difference * difference }
    ensures small { result ≤ 2 ^ 56 }
{
    u64::from(difference) * u64::from(difference)
}
