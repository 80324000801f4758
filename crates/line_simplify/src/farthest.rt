ghost use Rattle.std.specs.Prelude.{◌≡◌, ◌*◌, ◌^◌, ◌≤◌, ◌<◌, max, All, IfSome, length};
ghost use Rattle.line_simplify.specs.Key.{IsOnGrid};
ghost use Rattle.line_simplify.specs.Rule.{split_of};

use super::key::{distance, key};
use tb_types::Grid;

// Which point between the ends a and b of a part is kept: of those that lie farthest from the part the first, or none where
// they are within the tolerance.
#[tactic(auto, unfolding(crate::specs::Rule::split_of))]
pub fn farthest(a: Grid, between: &[Grid], b: Grid, tolerance: u32) -> Option<usize>
    requires a { IsOnGrid a }
    requires between { All IsOnGrid between.now }
    requires b { IsOnGrid b }
    requires tolerance { tolerance ≤ 64 }
    ensures exact { result ≡ split_of tolerance a between.now b }
    ensures within { IfSome result (λ index. index < length between.now) }
{
    let length = distance(a, b);
    let mut most = limit(tolerance, length);
    let mut found = None;
    for (index, p) in between.iter().enumerate() {
        let key = key(a, b, length, *p);
        if key > most {
            most = key;
            found = Some(index);
        }
    }
    found
}

// The greatest key of a point within the tolerance of a part.
fn limit(tolerance: u32, length: u64) -> u128
    requires tolerance { tolerance ≤ 64 }
    requires length { length ≤ 2 ^ 57 }
    ensures { result ≡ tolerance * tolerance * max length 1 }
{
    u128::from(tolerance) * u128::from(tolerance) * u128::from(length.max(1))
}
