ghost use Rattle.std.specs.Prelude.{◌≡◌, ⊤, IfOk};
ghost use Rattle.strip_clip.specs.declared.axis.Axis.TheVariants as axes;
ghost use Rattle.strip_clip.specs.Cuts.{column, corner_of};
ghost use Rattle.tile_clip.specs.Given.{Gives};
ghost use Rattle.tile_clip.specs.Outlines.{outline_in, column_pieces};
ghost use Rattle.tile_clip.specs.Pieces.{tile_at, AreTakable};

use crate::divided::{Divided, all_parts};
use crate::outline::{Outline, outline_in};
use crate::taker::{ClipErr, PieceTaker};
use crate::tiling::{Column, Tiling};
use std::alloc::Global;
use strip_clip::Axis;
use tb_types::{Grid, Memory};

// A zoom's columns. Each is a step of its own.
impl Divided for Tiling {
    ghost axis = { axes.X };

    ghost tiling = { λ t. t };

    ghost pieces = { λ t. column_pieces t.z t.buffer };

    ghost fits = { λ _ _. ⊤ };

    ghost is_step = { λ _ _ _ count. count ≡ 1 };

    fn axis(self) -> Axis {
        Axis::X
    }

    fn tiling(self) -> Tiling {
        self
    }

    fn is_step(self, _outline: &Outline, _first: u32, count: u32) -> bool {
        count == 1
    }

    fn give_step<T: PieceTaker>(
        self,
        alloc: Global,
        outline: &Outline,
        first: u32,
        _count: u32,
        points: &mut Vec<Grid>,
        take: &mut T,
    ) -> Result<(), ClipErr<T::Stop>> {
        let column = Column {
            tiling: self,
            x: first,
        };
        one_column(alloc, outline, column, points, take)
    }
}

// Gives the pieces of one column.
fn one_column<T: PieceTaker>(
    alloc: Global,
    outline: &Outline,
    column: Column,
    points: &mut Vec<Grid>,
    take: &mut T,
) -> Result<(), ClipErr<T::Stop>>
    requires { AreTakable (column_pieces column.tiling.z column.tiling.buffer outline.now column.x) }
    ensures { Gives T.taken T.steps T.stops take.old take.new (column_pieces column.tiling.z column.tiling.buffer outline.now column.x) result }
{
    match column_part(alloc, outline, column, points) {
        Ok(in_column) => all_parts(alloc, column, in_column, points, take),
        Err(_) => Err(ClipErr::Memory),
    }
}

// The outline of what is left in a column.
fn column_part(
    alloc: Global,
    outline: &Outline,
    of: Column,
    points: &mut Vec<Grid>,
) -> Result<Outline, Memory>
    ensures { IfOk result (λ part. part ≡ outline_in (column (corner_of (tile_at of.tiling.z of.x 0)) of.tiling.buffer) outline.now) }
{
    outline_in(alloc, of.window(0).column(), outline, points)
}
