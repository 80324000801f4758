ghost use Rattle.std.specs.Prelude.{◌≡◌, ◌∷◌, IfOk, pos, negsuc, ◌≤ℤ◌, ◌<ℤ◌};
ghost use Rattle.tb_types.specs.Zigzag.{unzigzag_of};
ghost use Rattle.mvt_geom.specs.Geometry.{in_32_bits, shifted, moved};
ghost use Rattle.mvt_geom.specs.Walks.{ArePoints};

use crate::path::Path;
use std::alloc::Global;
use tb_types::{Grid, Memory, Seq, unzigzag};

/// The points of a path from a cursor on, and the last of them, where the cursor is then. `None` exactly where a
/// coordinate isn't a signed number of 32 bits, or the last point has one parameter alone.
pub fn points_of(
    alloc: Global,
    from: Grid,
    path: Path<'_>,
) -> Result<Option<(Seq<Grid>, Grid)>, Memory>
    ensures { IfOk result (λ found. ArePoints from (path.entry.x ∷ path.entry.y ∷ path.entry.more.now) found) }
{
    let Some(first) = moved(from, path.x, path.y) else {
        return Ok(None);
    };
    let mut points = Vec::with_capacity(alloc, path.more.len() / 2 + 1)?;
    points.push(first)?;
    let mut cursor = first;
    let mut at = 0;
    while at < path.more.len() {
        if at + 1 == path.more.len() {
            return Ok(None);
        }
        let Some(p) = moved(cursor, path.more[at], path.more[at + 1]) else {
            return Ok(None);
        };
        points.push(p)?;
        cursor = p;
        at += 2;
    }
    Ok(Some((Seq::from_vec(points), cursor)))
}

/// The cursor, moved by the parameters of a point. `None` where it leaves 32 bits.
pub fn moved(from: Grid, dx: u32, dy: u32) -> Option<Grid>
    ensures { result ≡ moved from dx dy }
{
    let x = shifted(from.x, dx)?;
    let y = shifted(from.y, dy)?;
    Some(Grid { x, y })
}

// A coordinate that is moved by a parameter.
#[tactic(auto, unfolding(crate::specs::Geometry::shifted))]
fn shifted(from: i32, by: u32) -> Option<i32>
    ensures { result ≡ shifted from by }
{
    in_32_bits(i64::from(from) + signed(by))
}

// The signed number of a parameter.
fn signed(by: u32) -> i64
    ensures value { result ≡ unzigzag_of by }
    ensures low { negsuc 2147483647 ≤ℤ result }
    ensures high { result <ℤ pos 2147483648 }
{
    unzigzag(u64::from(by))
}

#[tactic(auto, unfolding(crate::specs::Geometry::in_32_bits))]
fn in_32_bits(z: i64) -> Option<i32>
    ensures { result ≡ in_32_bits z }
{
    if z >= -0x8000_0000 && z < 0x8000_0000 {
        return Some(z as i32);
    }
    None
}
