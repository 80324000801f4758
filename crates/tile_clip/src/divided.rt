ghost use Rattle.std.specs.Prelude.{◌≡◌, ℕ, ◌+◌, ◌<◌, ◌≤◌, ◌^◌, true, List};
ghost use Rattle.tb_types.specs.declared.tile.TileXyz.{TileXyz};
ghost use Rattle.tb_types.specs.declared.shape.Shape.{Shape};
ghost use Rattle.strip_clip.specs.declared.axis.Axis.{Axis};
ghost use Rattle.tile_clip.specs.declared.outline.Outline.{Outline};
ghost use Rattle.tile_clip.specs.declared.tiling.Tiling.{Tiling};
ghost use Rattle.tile_clip.specs.Given.{Gives};
ghost use Rattle.tile_clip.specs.Parts.{RestOnStrips, StaysFit};
ghost use Rattle.tile_clip.specs.Pieces.{of_each, AreTakable};

use crate::outline::{Outline, is_nothing, split};
use crate::span::reached;
use crate::taker::{ClipErr, PieceTaker};
use crate::tiling::Tiling;
use std::alloc::Global;
use strip_clip::Axis;
use tb_types::Grid;

// What is divided along an axis: a zoom into its columns, or a column into its rows.
pub trait Divided: Copy {
    ghost axis: { Axis };

    ghost tiling: { Self → Tiling };

    // The pieces of a part, by an outline.
    ghost pieces: { Self → Outline → ℕ → List (TileXyz × Shape) };

    // An outline lies where parts can be cut out of it.
    ghost fits: { Self → Outline → Type 0 };

    // So many parts, from a first one on, have their pieces in one step.
    ghost is_step: { Self → Outline → ℕ → ℕ → Type 0 };

    fn axis(self) -> Axis
        ensures { result ≡ axis };

    fn tiling(self) -> Tiling
        ensures { result ≡ tiling self };

    // Whether so many parts have their pieces in one step, as one part has.
    fn is_step(self, outline: &Outline, first: u32, count: u32) -> bool
        requires { first + count ≤ 2 ^ (tiling self).z }
        ensures step { result ≡ true → is_step self outline.now first count }
        ensures one { count ≡ 1 → result ≡ true };

    // Gives their pieces. The list of points is one to work in.
    fn give_step<T: PieceTaker>(
        self,
        alloc: Global,
        outline: &Outline,
        first: u32,
        count: u32,
        points: &mut Vec<Grid>,
        take: &mut T,
    ) -> Result<(), ClipErr<T::Stop>>
        requires some { 0 < count }
        requires parts { first + count ≤ 2 ^ (tiling self).z }
        requires fits { fits self outline.now }
        requires step { is_step self outline.now first count }
        requires pieces { AreTakable (of_each (pieces self outline.now) first count) }
        ensures { Gives T.taken T.steps T.stops take.old take.new (of_each (pieces self outline.now) first count) result };
}

// Gives the pieces of all parts.
pub fn all_parts<D: Divided, T: PieceTaker>(
    alloc: Global,
    divided: D,
    outline: Outline,
    points: &mut Vec<Grid>,
    take: &mut T,
) -> Result<(), ClipErr<T::Stop>>
    requires rest { RestOnStrips (D.tiling divided).buffer D.axis (D.pieces divided) }
    requires stays { StaysFit (D.fits divided) }
    requires fits { D.fits divided outline }
    requires pieces { AreTakable (of_each (D.pieces divided outline) 0 (2 ^ (D.tiling divided).z)) }
    ensures { Gives T.taken T.steps T.stops take.old take.new (of_each (D.pieces divided outline) 0 (2 ^ (D.tiling divided).z)) result }
{
    let part = reached(divided.axis(), divided.tiling(), &outline);
    some_parts(
        alloc, divided, outline, part.first, part.count, points, take,
    )
}

// Gives the pieces of so many parts, from a first one on.
//
// They are halved until it is one step; to each half goes only what touches it.
fn some_parts<D: Divided, T: PieceTaker>(
    alloc: Global,
    divided: D,
    outline: Outline,
    first: u32,
    count: u32,
    points: &mut Vec<Grid>,
    take: &mut T,
) -> Result<(), ClipErr<T::Stop>>
    requires parts { first + count ≤ 2 ^ (D.tiling divided).z }
    requires rest { RestOnStrips (D.tiling divided).buffer D.axis (D.pieces divided) }
    requires stays { StaysFit (D.fits divided) }
    requires fits { D.fits divided outline }
    requires pieces { AreTakable (of_each (D.pieces divided outline) first count) }
    ensures { Gives T.taken T.steps T.stops take.old take.new (of_each (D.pieces divided outline) first count) result }
{
    if count == 0 {
        return Ok(());
    }
    if is_nothing(&outline) {
        return Ok(());
    }
    if divided.is_step(&outline, first, count) {
        return divided.give_step(alloc, &outline, first, count, points, take);
    }
    let halves = match split(
        alloc,
        divided.axis(),
        divided.tiling(),
        first,
        count,
        outline,
    ) {
        Ok(halves) => halves,
        Err(_) => return Err(ClipErr::Memory),
    };
    let half = count / 2;
    let middle = first + half;
    let rest = count - half;
    match some_parts(alloc, divided, halves.first, first, half, points, take) {
        Ok(()) => some_parts(alloc, divided, halves.second, middle, rest, points, take),
        Err(e) => Err(e),
    }
}
