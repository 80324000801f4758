ghost use Rattle.std.specs.Prelude.{◌≡◌, ◌+◌, ◌*◌, ◌^◌, ◌<◌};
ghost use Rattle.hilbert_ids.specs.Curve.{place};
ghost use Rattle.hilbert_ids.specs.Ids.{last_zoom};

use super::zoom::side;

// Goes into a quadrant of the square of side 2^(level + 1): its rank on the curve, and the column and row inside it, turned
// as the curve goes on there.
pub fn enter(level: u8, x: u32, y: u32) -> (u64, u32, u32)
    requires level { level < last_zoom }
    requires column { x < 2 ^ (level + 1) }
    requires row { y < 2 ^ (level + 1) }
    ensures rank { result.0 < 4 }
    ensures column { result.1 < 2 ^ level }
    ensures row { result.2 < 2 ^ level }
    ensures place { place (level + 1) x y ≡ result.0 * 4 ^ level + place level result.1 result.2 }
{
    let side = side(level);
    match (side <= x, side <= y) {
        (false, false) => (0, y, x),
        (false, true) => (1, x, y - side),
        (true, true) => (2, x - side, y - side),
        (true, false) => (3, side - 1 - y, side - 1 - (x - side)),
    }
}

// Goes out of the quadrant of that rank: the column and row in the square of side 2^(level + 1).
pub fn leave(level: u8, rank: u64, x: u32, y: u32) -> (u32, u32)
    requires level { level < last_zoom }
    requires rank { rank < 4 }
    requires column { x < 2 ^ level }
    requires row { y < 2 ^ level }
    ensures column { result.0 < 2 ^ (level + 1) }
    ensures row { result.1 < 2 ^ (level + 1) }
    ensures place { place (level + 1) result.0 result.1 ≡ rank * 4 ^ level + place level x y }
{
    let side = side(level);
    match rank {
        0 => (y, x),
        1 => (x, side + y),
        2 => (side + x, side + y),
        _ => (2 * side - 1 - y, side - 1 - x),
    }
}
