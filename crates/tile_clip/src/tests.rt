ghost use Rattle.std.specs.Prelude.{◌≡◌, ◌++◌, ◌<◌, ◌≤◌, ◌^◌, length, Some, IfOk, ⊤};
ghost use Rattle.std.proofs.Common.{ap, sym, append-nil, append_assoc, ◌∙◌};
ghost use Rattle.strip_clip.specs.CleanCuts.{points_of, polygon_points};
ghost use Rattle.tile_clip.specs.Pieces.{pieces_of};

use super::*;
use std::alloc::Global;
use strip_clip::cut;
use tb_types::{Grid, GridPolygon, Memory, Seq, Shape, TileXyz};

// A taker that keeps what it takes, up to a number of pieces.
#[derive(Drop)]
struct Kept {
    pieces: Seq<(TileXyz, Shape)>,
    room: usize,
}

// Why a piece isn't kept.
#[derive(Clone, Copy, Debug, PartialEq, Eq)]
enum Full {
    Room,
    Memory,
}

impl PieceTaker for Kept {
    type Stop = Full;

    ghost taken = { λ kept. Some kept.pieces };

    ghost steps = { λ a more b. b.pieces ≡ a.pieces ++ more };

    ghost stops = { λ _ _ _. ⊤ };

    fn take(&mut self, tile: TileXyz, piece: Shape) -> Result<(), Full> {
        if self.room == 0 {
            return Err(Full::Room);
        }
        match self.pieces.push((tile, piece)) {
            Ok(()) => {}
            Err(_) => return Err(Full::Memory),
        }
        self.room -= 1;
        Ok(())
    }

    ghost steps_none = { λ a. sym (append-nil a.pieces) };

    ghost steps_on = { λ a b c some more h k. k ∙ (ap (λ xs. xs ++ more) h ∙ append_assoc a.pieces some more) };

    ghost stops_after = { λ _ _ _ _ _ _ _. tt };
}

// The pieces of a shape, as a list.
fn pieces(
    alloc: Global,
    shape: &Shape,
    z: u8,
    buffer: u32,
    room: usize,
) -> Result<Seq<(TileXyz, Shape)>, ClipErr<Full>>
    requires zoom { z ≤ 14 }
    requires buffer { buffer ≤ 256 }
    requires few { points_of shape.now < 2 ^ 27 }
    ensures { IfOk result (λ list. list ≡ pieces_of z buffer shape.now) }
{
    let mut kept = Kept {
        pieces: Seq::new(alloc),
        room,
    };
    for_tiles(alloc, shape, z, buffer, &mut kept)?;
    Ok(kept.pieces)
}

// Points of a grid.
fn points(alloc: Global, places: &[(i32, i32)]) -> Result<Seq<Grid>, Memory>
    ensures { IfOk result (λ list. length list ≡ length places.now) }
{
    let mut list = Vec::new(alloc);
    for (x, y) in places {
        list.push(Grid { x: *x, y: *y })?;
    }
    Ok(Seq::from_vec(list))
}

// A line of one path.
pub(crate) fn line(alloc: Global, places: &[(i32, i32)]) -> Result<Shape, Memory>
    requires { length places.now ≤ 100000 }
    ensures { IfOk result (λ shape. points_of shape < 2 ^ 27) }
{
    let path = points(alloc, places)?;
    let mut paths = Seq::new(alloc);
    paths.push(path)?;
    Ok(Shape::Line(paths))
}

// A polygon with a hole.
pub(crate) fn polygon(
    alloc: Global,
    outer: &[(i32, i32)],
    hole: &[(i32, i32)],
) -> Result<GridPolygon, Memory>
    requires outer { length outer.now ≤ 100000 }
    requires hole { length hole.now ≤ 10000 }
    ensures { IfOk result (λ polygon. polygon_points polygon ≤ 110000) }
{
    let outer = points(alloc, outer)?;
    let hole = points(alloc, hole)?;
    let mut inners = Seq::new(alloc);
    inners.push(hole)?;
    Ok(GridPolygon { outer, inners })
}

// An area of one polygon with a hole.
pub(crate) fn area(
    alloc: Global,
    outer: &[(i32, i32)],
    hole: &[(i32, i32)],
) -> Result<Shape, Memory>
    requires outer { length outer.now ≤ 100000 }
    requires hole { length hole.now ≤ 10000 }
    ensures { IfOk result (λ shape. points_of shape < 2 ^ 27) }
{
    let mut polygons = Seq::new(alloc);
    polygons.push(polygon(alloc, outer, hole)?)?;
    Ok(Shape::Area(polygons))
}

// An area of two polygons, the second with a hole.
pub(crate) fn two_areas(
    alloc: Global,
    first: &[(i32, i32)],
    second: &[(i32, i32)],
    hole: &[(i32, i32)],
) -> Result<Shape, Memory>
    requires first { length first.now ≤ 10000 }
    requires second { length second.now ≤ 10000 }
    requires hole { length hole.now ≤ 10000 }
    ensures { IfOk result (λ shape. points_of shape < 2 ^ 27) }
{
    let mut polygons = Seq::new(alloc);
    polygons.push(polygon(alloc, first, &[])?)?;
    polygons.push(polygon(alloc, second, hole)?)?;
    Ok(Shape::Area(polygons))
}

fn are_rings_same(a: &[Seq<Grid>], b: &[Seq<Grid>]) -> bool {
    if a.len() != b.len() {
        return false;
    }
    for (p, q) in a.iter().zip(b.iter()) {
        if p.as_slice() != q.as_slice() {
            return false;
        }
    }
    true
}

fn are_polygons_same(a: &[GridPolygon], b: &[GridPolygon]) -> bool {
    if a.len() != b.len() {
        return false;
    }
    for (p, q) in a.iter().zip(b.iter()) {
        if p.outer.as_slice() != q.outer.as_slice()
            || !are_rings_same(p.inners.as_slice(), q.inners.as_slice())
        {
            return false;
        }
    }
    true
}

fn is_same(a: &Shape, b: &Shape) -> bool {
    match (a, b) {
        (Shape::Point(p), Shape::Point(q)) => *p == *q,
        (Shape::Line(p), Shape::Line(q)) => are_rings_same(p.as_slice(), q.as_slice()),
        (Shape::Area(p), Shape::Area(q)) => are_polygons_same(p.as_slice(), q.as_slice()),
        _ => false,
    }
}

#[test]
fn a_line_has_a_piece_in_each_of_four_tiles(rt: HostRuntime) -> Result<(), Memory> {
    let alloc = rt.alloc();
    let whole = line(alloc, &[(0, 2048), (16384, 2048)])?;
    let part = line(alloc, &[(0, 2048), (4096, 2048)])?;
    let Ok(list) = pieces(alloc, &whole, 2, 0, 100) else {
        return Err(Memory);
    };
    assert!(rt; list.as_slice().len() == 4);
    for (x, (tile, piece)) in list.as_slice().iter().enumerate() {
        assert!(rt; tile.z == 2 && tile.x as usize == x && tile.y == 0);
        assert!(rt; is_same(piece, &part));
    }
    Ok(())
}

#[test]
fn a_square_covers_sixteen_tiles(rt: HostRuntime) -> Result<(), Memory> {
    let alloc = rt.alloc();
    let whole = area(
        alloc,
        &[(0, 0), (16384, 0), (16384, 16384), (0, 16384)],
        &[],
    )?;
    let mut rings = Seq::new(alloc);
    rings.push(GridPolygon {
        outer: points(alloc, &[(0, 0), (4096, 0), (4096, 4096), (0, 4096)])?,
        inners: Seq::new(alloc),
    })?;
    let part = Shape::Area(rings);
    let Ok(list) = pieces(alloc, &whole, 2, 0, 100) else {
        return Err(Memory);
    };
    assert!(rt; list.as_slice().len() == 16);
    for (i, (tile, piece)) in list.as_slice().iter().enumerate() {
        assert!(rt; tile.x as usize == i / 4 && tile.y as usize == i % 4);
        assert!(rt; is_same(piece, &part));
    }
    Ok(())
}

#[test]
fn a_taker_that_refuses_has_the_pieces_before(rt: HostRuntime) -> Result<(), Memory> {
    let alloc = rt.alloc();
    let whole = line(alloc, &[(0, 2048), (16384, 2048)])?;
    let mut kept = Kept {
        pieces: Seq::new(alloc),
        room: 3,
    };
    let answer = for_tiles(alloc, &whole, 2, 0, &mut kept);
    assert!(rt; matches!(answer, Err(ClipErr::Taker(Full::Room))));
    assert!(rt; kept.pieces.as_slice().len() == 3);
    let tall = area(alloc, &[(9, -99), (99, -99), (99, 99999), (9, 99999)], &[])?;
    kept.room = 7;
    let answer = for_tiles(alloc, &tall, 4, 0, &mut kept);
    assert!(rt; matches!(answer, Err(ClipErr::Taker(Full::Room))));
    assert!(rt; kept.pieces.as_slice().len() == 10);
    Ok(())
}

fn next(seed: u64) -> u64 {
    seed.wrapping_mul(6364136223846793005)
        .wrapping_add(1442695040888963407)
}

// A coordinate in or near the tiles of zoom 2, often on a bound of a tile.
fn coordinate(bits: u64) -> i32 {
    let grain = (bits % 23) as i32 * 1024 - 3072;
    if bits % 5 < 2 {
        grain
    } else {
        grain + (bits >> 8 & 511) as i32
    }
}

fn draw(alloc: Global, seed: &mut u64, count: u64) -> Result<Vec<(i32, i32)>, Memory> {
    let mut places = Vec::new(alloc);
    for _ in 0..count {
        *seed = next(*seed);
        places.push((coordinate(*seed >> 40), coordinate(*seed >> 20)))?;
    }
    Ok(places)
}

// Whether the pieces of a shape are the cuts of all tiles, by columns, that aren't empty.
fn are_cuts(alloc: Global, shape: &Shape, z: u8, buffer: u32) -> Result<bool, Memory>
    requires zoom { z ≤ 2 }
    requires buffer { buffer ≤ 256 }
    requires few { points_of shape.now < 2 ^ 27 }
{
    let Ok(list) = pieces(alloc, shape, z, buffer, 1000) else {
        return Ok(false);
    };
    let mut left = list.as_slice().iter();
    for x in 0..1u32 << z {
        for y in 0..1u32 << z {
            let tile = TileXyz { z, x, y };
            let Some(wanted) = cut(alloc, shape, tile, buffer)? else {
                continue;
            };
            let Some((found, piece)) = left.next() else {
                return Ok(false);
            };
            if *found != tile || !is_same(piece, &wanted) {
                return Ok(false);
            }
        }
    }
    Ok(left.next().is_none())
}

fn are_cuts_in_three_zooms(alloc: Global, shape: &Shape, buffer: u32) -> Result<bool, Memory>
    requires buffer { buffer ≤ 256 }
    requires few { points_of shape.now < 2 ^ 27 }
{
    Ok(
        are_cuts(alloc, shape, 0, buffer)?
            && are_cuts(alloc, shape, 1, buffer)?
            && are_cuts(alloc, shape, 2, buffer)?,
    )
}

fn is_line_cut(alloc: Global, places: &[(i32, i32)], buffer: u32) -> Result<bool, Memory>
    requires buffer { buffer ≤ 256 }
    requires places { length places.now ≤ 10000 }
{
    let shape = line(alloc, places)?;
    are_cuts_in_three_zooms(alloc, &shape, buffer)
}

fn is_area_cut(
    alloc: Global,
    outer: &[(i32, i32)],
    hole: &[(i32, i32)],
    buffer: u32,
) -> Result<bool, Memory>
    requires buffer { buffer ≤ 256 }
    requires outer { length outer.now ≤ 10000 }
    requires hole { length hole.now ≤ 10000 }
{
    let shape = area(alloc, outer, hole)?;
    are_cuts_in_three_zooms(alloc, &shape, buffer)
}

fn are_two_cut(
    alloc: Global,
    first: &[(i32, i32)],
    second: &[(i32, i32)],
    hole: &[(i32, i32)],
    buffer: u32,
) -> Result<bool, Memory>
    requires buffer { buffer ≤ 256 }
    requires first { length first.now ≤ 10000 }
    requires second { length second.now ≤ 10000 }
    requires hole { length hole.now ≤ 10000 }
{
    let shape = two_areas(alloc, first, second, hole)?;
    are_cuts_in_three_zooms(alloc, &shape, buffer)
}

#[test]
fn drawn_shapes_have_the_cuts_of_all_tiles(rt: HostRuntime) -> Result<(), Memory> {
    let alloc = rt.alloc();
    let mut seed = 5;
    for turn in 0u64..200 {
        let outer = draw(alloc, &mut seed, turn % 9)?;
        let hole = draw(alloc, &mut seed, turn % 7)?;
        let other = draw(alloc, &mut seed, turn % 5)?;
        let buffer = (turn % 5) as u32 * 64;
        if outer.len() > 100 || hole.len() > 100 || other.len() > 100 {
            return Err(Memory);
        }
        assert!(rt; is_line_cut(alloc, &outer, buffer)?, "line {turn}");
        assert!(rt; is_area_cut(alloc, &outer, &hole, buffer)?, "area {turn}");
        assert!(rt;
            are_two_cut(alloc, &outer, &other, &hole, buffer)?,
            "polygons {turn}"
        );
    }
    Ok(())
}

// A hole that contains a tile has no edge near it; a point stands in each tile whose buffer has it. A square and a hole may
// lie on the bounds of tiles.
#[test]
fn holes_and_points_have_the_cuts_of_all_tiles(rt: HostRuntime) -> Result<(), Memory> {
    let alloc = rt.alloc();
    let outer = [(100, 100), (16000, 100), (16000, 16000), (100, 16000)];
    let hole = [(3000, 3000), (9000, 3000), (9000, 13000), (3000, 13000)];
    assert!(rt; is_area_cut(alloc, &outer, &hole, 64)?);
    assert!(rt; is_area_cut(alloc, &outer, &hole, 0)?);
    let tile = [(4096, 4096), (8192, 4096), (8192, 8192), (4096, 8192)];
    let nine = [(0, 0), (12288, 0), (12288, 12288), (0, 12288)];
    assert!(rt; is_area_cut(alloc, &nine, &tile, 0)?);
    assert!(rt; is_area_cut(alloc, &nine, &tile, 64)?);
    let island = [(5000, 5000), (7000, 5000), (7000, 12000), (5000, 12000)];
    assert!(rt; are_two_cut(alloc, &island, &outer, &hole, 64)?);
    assert!(rt; are_two_cut(alloc, &outer, &outer, &outer, 64)?);
    for x in [0, 4032, 4096, 4160, 8192, 16384] {
        let point = Shape::Point(Grid { x, y: 4096 });
        assert!(rt; are_cuts_in_three_zooms(alloc, &point, 64)?, "point {x}");
    }
    Ok(())
}
