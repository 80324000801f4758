ghost use Rattle.std.specs.Prelude.{◌≡◌, ◌+◌, ◌⊎◌, ◌^◌, ◌<◌, ◌≤◌, true, Some, IfOk, IfSome};
ghost use Rattle.strip_clip.specs.declared.axis.Axis.TheVariants as axes;
ghost use Rattle.strip_clip.specs.Cuts.{corner_of};
ghost use Rattle.tile_clip.specs.Bounds.{IsInColumn};
ghost use Rattle.tile_clip.specs.Given.{Gives};
ghost use Rattle.tile_clip.specs.Outlines.{row_cut, row_piece, strip_of};
ghost use Rattle.tile_clip.specs.Steady.{like_piece, is_steady};
ghost use Rattle.tile_clip.specs.Pieces.{tile_at, with_tile, of_each, IsPiece};

use crate::divided::Divided;
use crate::outline::Outline;
use crate::piece::row_cut;
use crate::steady::{copy_piece, is_steady};
use crate::taker::{ClipErr, PieceTaker};
use crate::tiling::{Column, Tiling, strip_of};
use std::alloc::Global;
use strip_clip::Axis;
use tb_types::{Grid, Memory, Shape, TileXyz};

// A column's rows. One row is a step, and so are rows that are all alike.
impl Divided for Column {
    ghost axis = { axes.Y };

    ghost tiling = { λ c. c.tiling };

    ghost pieces = { λ c. row_piece c.tiling.z c.tiling.buffer c.x };

    ghost fits = { λ c. IsInColumn c.tiling.buffer c.x };

    ghost is_step = { λ c outline first count. (count ≡ 1) ⊎ (is_steady (strip_of axes.Y c.tiling.buffer first count) outline ≡ true) };

    fn axis(self) -> Axis {
        Axis::Y
    }

    fn tiling(self) -> Tiling {
        self.tiling
    }

    fn is_step(self, outline: &Outline, first: u32, count: u32) -> bool {
        count == 1 || is_steady(strip_of(Axis::Y, self.tiling, first, count), outline)
    }

    fn give_step<T: PieceTaker>(
        self,
        alloc: Global,
        outline: &Outline,
        first: u32,
        count: u32,
        points: &mut Vec<Grid>,
        take: &mut T,
    ) -> Result<(), ClipErr<T::Stop>> {
        if count == 1 {
            return one_row(alloc, outline, self, first, points, take);
        }
        steady_rows(alloc, outline, self, first, count, points, take)
    }
}

// Gives the piece of one row of a column.
fn one_row<T: PieceTaker>(
    alloc: Global,
    outline: &Outline,
    column: Column,
    y: u32,
    points: &mut Vec<Grid>,
    take: &mut T,
) -> Result<(), ClipErr<T::Stop>>
    requires row { y < 2 ^ column.tiling.z }
    requires within { IsInColumn column.tiling.buffer column.x outline.now }
    requires piece { IfSome (row_cut (corner_of (tile_at column.tiling.z column.x y)) column.tiling.buffer outline.now) IsPiece }
    ensures { Gives T.taken T.steps T.stops take.old take.new (row_piece column.tiling.z column.tiling.buffer column.x outline.now y) result }
{
    match piece_at(alloc, outline, column, y, points) {
        Ok(piece) => give(column.tile(y), piece, take),
        Err(_) => Err(ClipErr::Memory),
    }
}

// What is left in one row of a column.
fn piece_at(
    alloc: Global,
    outline: &Outline,
    column: Column,
    y: u32,
    points: &mut Vec<Grid>,
) -> Result<Option<Shape>, Memory>
    requires row { y < 2 ^ column.tiling.z }
    requires within { IsInColumn column.tiling.buffer column.x outline.now }
    ensures { IfOk result (λ piece. piece ≡ row_cut (corner_of (tile_at column.tiling.z column.x y)) column.tiling.buffer outline.now) }
{
    row_cut(alloc, column.window(y), outline, points)
}

// Gives the pieces of so many rows of a column, which are all like that of the first of them.
fn steady_rows<T: PieceTaker>(
    alloc: Global,
    outline: &Outline,
    column: Column,
    first: u32,
    count: u32,
    points: &mut Vec<Grid>,
    take: &mut T,
) -> Result<(), ClipErr<T::Stop>>
    requires some { 0 < count }
    requires rows { first + count ≤ 2 ^ column.tiling.z }
    requires within { IsInColumn column.tiling.buffer column.x outline.now }
    requires piece { IfSome (row_cut (corner_of (tile_at column.tiling.z column.x first)) column.tiling.buffer outline.now) IsPiece }
    ensures { Gives T.taken T.steps T.stops take.old take.new (of_each (like_piece column.tiling.z column.x (row_cut (corner_of (tile_at column.tiling.z column.x first)) column.tiling.buffer outline.now)) first count) result }
{
    match piece_at(alloc, outline, column, first, points) {
        Ok(Some(piece)) => like_rows(alloc, &piece, column, first, count, take),
        Ok(None) => Ok(()),
        Err(_) => Err(ClipErr::Memory),
    }
}

// Gives so many rows of a column, each with a copy of a piece.
fn like_rows<T: PieceTaker>(
    alloc: Global,
    piece: &Shape,
    column: Column,
    first: u32,
    count: u32,
    take: &mut T,
) -> Result<(), ClipErr<T::Stop>>
    requires rows { first + count ≤ 2 ^ column.tiling.z }
    requires piece { IsPiece piece.now }
    ensures { Gives T.taken T.steps T.stops take.old take.new (of_each (like_piece column.tiling.z column.x (Some piece.now)) first count) result }
{
    for y in first..first + count {
        match give_copy(alloc, piece, column.tile(y), take) {
            Ok(()) => {}
            Err(e) => return Err(e),
        }
    }
    Ok(())
}

// Gives a tile with a copy of a piece.
fn give_copy<T: PieceTaker>(
    alloc: Global,
    piece: &Shape,
    tile: TileXyz,
    take: &mut T,
) -> Result<(), ClipErr<T::Stop>>
    requires zoom { tile.z ≤ 14 }
    requires x { tile.x < 2 ^ tile.z }
    requires y { tile.y < 2 ^ tile.z }
    requires piece { IsPiece piece.now }
    ensures { Gives T.taken T.steps T.stops take.old take.new (with_tile tile (Some piece.now)) result }
{
    match copy_piece(alloc, piece) {
        Ok(copy) => give(tile, Some(copy), take),
        Err(_) => Err(ClipErr::Memory),
    }
}

// Gives a tile's piece, if it has one.
fn give<T: PieceTaker>(
    tile: TileXyz,
    piece: Option<Shape>,
    take: &mut T,
) -> Result<(), ClipErr<T::Stop>>
    requires zoom { tile.z ≤ 14 }
    requires x { tile.x < 2 ^ tile.z }
    requires y { tile.y < 2 ^ tile.z }
    requires piece { IfSome piece IsPiece }
    ensures { Gives T.taken T.steps T.stops take.old take.new (with_tile tile piece) result }
{
    let Some(piece) = piece else {
        return Ok(());
    };
    match take.take(tile, piece) {
        Ok(()) => Ok(()),
        Err(stop) => Err(ClipErr::Taker(stop)),
    }
}
