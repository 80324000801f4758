ghost use Rattle.std.specs.Prelude.{◌+◌, ◌^◌, ◌<◌, ◌≤◌};
ghost use Rattle.strip_clip.specs.CleanCuts.{points_of};
ghost use Rattle.tile_clip.specs.Given.{Gives};
ghost use Rattle.tile_clip.specs.Pieces.{pieces_of};

use crate::divided::all_parts;
use crate::outline::outline_of;
use crate::taker::{ClipErr, PieceTaker};
use crate::tiling::Tiling;
use std::alloc::Global;
use tb_types::Shape;

/// Gives a taker each tile of a zoom where the cut of a shape isn't empty, once, with that cut: by columns, and in them by
/// rows. The cut is that of `strip_clip::cut`. The shape lies on the zoom's grid, which has 4096 units a tile.
///
/// `Taker` carries the taker's own refusal; the taker was then given a prefix of the pieces, up to the refused one. On
/// `Memory`, want of memory, it was given a prefix of them too.
///
/// The zoom is at most 14, the buffer at most 256 units, and the shape has fewer than 2^27 points.
pub fn for_tiles<T: PieceTaker>(
    alloc: Global,
    shape: &Shape,
    z: u8,
    buffer: u32,
    take: &mut T,
) -> Result<(), ClipErr<T::Stop>>
    requires zoom { z ≤ 14 }
    requires buffer { buffer ≤ 256 }
    requires few { points_of shape.now < 2 ^ 27 }
    ensures { Gives T.taken T.steps T.stops take.old take.new (pieces_of z buffer shape.now) result }
{
    let mut points = Vec::new(alloc);
    match outline_of(alloc, shape) {
        Ok(outline) => all_parts(alloc, Tiling { z, buffer }, outline, &mut points, take),
        Err(_) => Err(ClipErr::Memory),
    }
}
