ghost use Rattle.std.specs.Prelude.{◌≡◌, ◌-◌, ◌^◌, ◌≤◌, IfSome};
ghost use Rattle.hilbert_ids.specs.Ids.{IsTile, last_zoom};
ghost use Rattle.build_cli.specs.Numbers.{number_of, budget_of, seed_of, count_of, trial_count_of, tile_of};

use hilbert_ids::MAX_ZOOM;
use itoa::Buffer;
use tb_types::TileXyz;

/// The fewest elements of an extract that is generated.
pub const FEWEST: u64 = 100;

/// The most elements of an extract that is generated.
pub const MOST: u64 = 10_000_000;

/// The most elements of an extract that is tried.
pub const MOST_TRIED: u64 = 1_000_000;

/// The budget of a build that gives none, in bytes.
pub const DEFAULT_BUDGET: u64 = 1 << 30;

/// The least budget, in bytes.
pub const LEAST_BUDGET: u64 = 1 << 20;

/// The largest budget, in bytes.
pub const MOST_BUDGET: u64 = 1 << 32;

/// The number that a word is, if it is at most `most`: decimal digits without a sign, and without leading zeros but `0`.
pub fn number_of(word: &str, most: u64) -> Option<u64>
    ensures number { result ≡ number_of word.now most }
    ensures within { IfSome result (λ n. n ≤ most) }
{
    let n = match word.parse::<u64>() {
        Ok(n) => n,
        Err(_) => return None,
    };
    let mut digits = Buffer::new();
    if digits.format(n) == word && n <= most {
        Some(n)
    } else {
        None
    }
}

/// The seed of an extract: any number of 64 bits.
pub fn seed_of(word: &str) -> Option<u64>
    ensures { result ≡ seed_of word.now }
{
    number_of(word, u64::MAX)
}

/// How many elements an extract has: 100 to 10,000,000.
pub fn count_of(word: &str) -> Option<u64>
    ensures number { result ≡ count_of word.now }
    ensures within { IfSome result (λ n. (FEWEST ≤ n) × (n ≤ MOST)) }
{
    let n = match number_of(word, MOST) {
        Some(n) => n,
        None => return None,
    };
    if n >= FEWEST { Some(n) } else { None }
}

/// How many elements a trial has: 100 to 1,000,000.
pub fn trial_count_of(word: &str) -> Option<u64>
    ensures number { result ≡ trial_count_of word.now }
    ensures within { IfSome result (λ n. (FEWEST ≤ n) × (n ≤ MOST_TRIED)) }
{
    let n = match number_of(word, MOST_TRIED) {
        Some(n) => n,
        None => return None,
    };
    if n >= FEWEST { Some(n) } else { None }
}

/// A budget in bytes: 1,048,576 to 4,294,967,296.
pub fn budget_of(word: &str) -> Option<u64>
    ensures number { result ≡ budget_of word.now }
    ensures within { IfSome result (λ n. n ≤ MOST_BUDGET) }
{
    let n = match number_of(word, MOST_BUDGET) {
        Some(n) => n,
        None => return None,
    };
    if n >= LEAST_BUDGET { Some(n) } else { None }
}

/// The tile of a zoom, a column and a row: the zoom is at most 26, column and row are below 2^zoom.
pub fn tile_of(zoom: &str, column: &str, row: &str) -> Option<TileXyz>
    ensures tile { result ≡ tile_of zoom.now column.now row.now }
    ensures within { IfSome result IsTile }
{
    let z = match number_of(zoom, u64::from(MAX_ZOOM)) {
        Some(z) => z as u8,
        None => return None,
    };
    let last = last_of(z);
    let x = match number_of(column, u64::from(last)) {
        Some(x) => x as u32,
        None => return None,
    };
    match number_of(row, u64::from(last)) {
        Some(y) => Some(TileXyz { z, x, y: y as u32 }),
        None => None,
    }
}

// The last column, and the last row, of a zoom.
fn last_of(zoom: u8) -> u32
    requires { zoom ≤ last_zoom }
    ensures { result ≡ 2 ^ zoom - 1 }
{
    (1 << zoom) - 1
}
