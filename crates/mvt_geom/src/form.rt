ghost use Rattle.std.specs.Prelude.{◌≡◌};
ghost use Rattle.mvt_geom.specs.Commands.{has_form, is_move, are_paths};

use crate::numbers::{LINE, MOVE_TO, POINT, POLYGON, UNKNOWN};
use crate::path::next_path;

/// Whether integers are whole commands in the form of a feature's type, 1 to 3, or any integers of type 0 (Mapbox Vector Tile
/// 2.1, section 4.3.4): for points (1) one MoveTo of at least 1; for lines (2) one path or more of MoveTo 1 and LineTo of at
/// least 1; for polygons (3) one ring or more of MoveTo 1, LineTo of at least 2 and ClosePath 1. There is no other type. Where
/// the points lie isn't asked. Who takes no unknown geometry asks beside it that the type is at least 1.
#[tactic(auto, unfolding(crate::specs::Commands::has_form))]
pub fn has_form(form: u8, ints: &[u32]) -> bool
    ensures { result ≡ has_form form ints.now }
{
    if form == POINT {
        return is_move(ints);
    }
    if form == LINE {
        return are_paths(false, ints);
    }
    if form == POLYGON {
        return are_paths(true, ints);
    }
    form == UNKNOWN
}

// Whether integers are MoveTo of one point or more.
fn is_move(ints: &[u32]) -> bool
    ensures { result ≡ is_move ints.now }
{
    match ints {
        [] => false,
        [move_to, parameters @ ..] => {
            move_to % 8 == MOVE_TO
                && move_to / 8 != 0
                && 2 * (move_to / 8) as usize == parameters.len()
        }
    }
}

// Whether integers are one path or more.
fn are_paths(closed: bool, ints: &[u32]) -> bool
    ensures { result ≡ are_paths closed ints.now }
{
    if ints.is_empty() {
        return false;
    }
    let mut rest = ints;
    while !rest.is_empty() {
        match next_path(closed, rest) {
            Some(path) => rest = path.behind,
            None => return false,
        }
    }
    true
}
