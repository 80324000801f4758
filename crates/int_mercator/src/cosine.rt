ghost use Rattle.std.specs.Prelude.{◌≡◌, ℕ, ◌+◌, ◌*◌, ◌/◌, ◌^◌, ◌<◌, ◌≤◌};
ghost use Rattle.int_mercator.specs.Cosine.{cosine_of, series, term, last_half, least_cosine};

/// A half turn, the number pi, in units of 2^-60.
pub const HALF_TURN: u128 = 0x3243_F6A8_885A_308D;

/// How many half knots, each 1/128 degree, a half turn has.
pub const HALVES_IN_HALF_TURN: u128 = 23040;

/// Angles, cosines and secants count in units of 2^-60, so that this is the number 1.
pub const ONE: u128 = 1 << UNIT_BITS;

/// The bits below the unit.
pub const UNIT_BITS: u32 = 60;

// How many terms of each sign the series has.
const PAIRS: u32 = 8;

// The cosine after a count of half knots. None is small, so the products of secants fit 128 bits without a sign.
pub fn cosine(halves: u32) -> u128
    requires { halves ≤ last_half }
    ensures exact { result ≡ cosine_of halves }
    ensures least { least_cosine ≤ result }
{
    let angle = HALF_TURN * u128::from(halves) / HALVES_IN_HALF_TURN;
    sum_of_series((angle * angle) >> UNIT_BITS)
}

// The series at the square of an angle. All terms of even number are added, then all of odd number are taken away at once:
// in turn, the sum would fall below 0 on the way.
fn sum_of_series(square: u128) -> u128
    requires small { square ≤ 2 ^ 62 }
    requires positive { 0 < series square }
    ensures { result ≡ series square }
{
    let mut evens = 0;
    let mut odds = 0;
    let mut term = ONE;
    for pair in 0..PAIRS {
        evens += term;
        term = next_term(term, square, 2 * pair);
        odds += term;
        term = next_term(term, square, 2 * pair + 1);
    }
    evens - odds
}

// The term of the series that follows term number n.
fn next_term(at: u128, square: u128, n: u32) -> u128
    requires number { n < 16 }
    requires square { square ≤ 2 ^ 62 }
    requires term { at ≡ term square n }
    ensures exact { result ≡ term square (n + 1) }
    ensures small { result ≤ 2 ^ 61 }
{
    let twice = 2 * u128::from(n);
    (at * square / ((twice + 1) * (twice + 2))) >> UNIT_BITS
}
