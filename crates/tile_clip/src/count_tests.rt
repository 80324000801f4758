ghost use Rattle.std.specs.Prelude.{◌<◌, ◌≤◌, ◌^◌, None, IfOk, ⊤};
ghost use Rattle.strip_clip.specs.CleanCuts.{points_of};

use super::tests::{area, line, polygon, two_areas};
use super::*;
use std::alloc::Global;
use tb_types::{Memory, Seq, Shape, TileXyz};

// A taker that counts pieces and their points.
#[derive(Clone, Copy)]
struct Counts {
    pieces: usize,
    points: usize,
}

impl PieceTaker for Counts {
    type Stop = Memory;

    ghost taken = { λ _. None };

    ghost steps = { λ _ _ _. ⊤ };

    ghost stops = { λ _ _ _. ⊤ };

    fn take(&mut self, _tile: TileXyz, piece: Shape) -> Result<(), Memory> {
        self.pieces = self.pieces.wrapping_add(1);
        self.points = self.points.wrapping_add(points_in(&piece));
        Ok(())
    }

    ghost steps_none = { λ _. tt };

    ghost steps_on = { λ _ _ _ _ _ _ _. tt };

    ghost stops_after = { λ _ _ _ _ _ _ _. tt };
}

fn points_in(piece: &Shape) -> usize {
    let mut count = 0usize;
    match piece {
        Shape::Point(_) => count = 1,
        Shape::Line(paths) => {
            for path in paths.as_slice() {
                count = count.wrapping_add(path.as_slice().len());
            }
        }
        Shape::Area(polygons) => {
            for polygon in polygons.as_slice() {
                count = count.wrapping_add(polygon.outer.as_slice().len());
                for inner in polygon.inners.as_slice() {
                    count = count.wrapping_add(inner.as_slice().len());
                }
            }
        }
    }
    count
}

// How many pieces a shape has, and how many points they have.
fn count_in(alloc: Global, shape: &Shape, z: u8, buffer: u32) -> Result<(usize, usize), Memory>
    requires zoom { z ≤ 14 }
    requires buffer { buffer ≤ 256 }
    requires few { points_of shape.now < 2 ^ 27 }
{
    let mut counts = Counts {
        pieces: 0,
        points: 0,
    };
    match for_tiles(alloc, shape, z, buffer, &mut counts) {
        Ok(()) => Ok((counts.pieces, counts.points)),
        Err(_) => Err(Memory),
    }
}

// At zoom 14 with a buffer of 64 units.
fn count_pieces(alloc: Global, shape: &Shape) -> Result<(usize, usize), Memory>
    requires { points_of shape.now < 2 ^ 27 }
{
    count_in(alloc, shape, 14, 64)
}

// The width of 9,999 tiles, and that of 10,000.
const INNER: i32 = 40955904;

const WIDTH: i32 = 40960000;

// The boxes of these areas have a hundred million tiles, nearly all of them in gaps, holes or whole.
#[test]
fn gaps_and_holes_of_areas_cost_nothing(rt: HostRuntime) -> Result<(), Memory> {
    let alloc = rt.alloc();
    let bow = [
        (0, 0),
        (WIDTH, 0),
        (WIDTH, WIDTH),
        (0, WIDTH),
        (0, INNER),
        (INNER, INNER),
        (INNER, 4096),
        (0, 4096),
    ];
    let bow = area(alloc, &bow, &[])?;
    assert!(rt; count_pieces(alloc, &bow)? == (79993, 359980));
    let square = [(0, 0), (WIDTH, 0), (WIDTH, WIDTH), (0, WIDTH)];
    let hole = [(4096, 4096), (INNER, 4096), (INNER, INNER), (4096, INNER)];
    let frame = area(alloc, &square, &hole)?;
    assert!(rt; count_pieces(alloc, &frame)? == (99985, 719876));
    let tall = [(0, 0), (12288, 0), (12288, WIDTH), (0, WIDTH)];
    let within = [
        (5000, 5000),
        (6000, 5000),
        (6000, 40955000),
        (5000, 40955000),
    ];
    let two = two_areas(alloc, &tall, &within, &[])?;
    assert!(rt; count_pieces(alloc, &two)? == (40004, 200008));
    Ok(())
}

// The width of all tiles of zoom 14.
const WORLD: i32 = 67108864;

// Squares over all rows or all columns, beyond them and up to their bounds, and squares about the last tile and its buffer.
#[test]
fn squares_over_a_whole_zoom_have_their_pieces(rt: HostRuntime) -> Result<(), Memory> {
    let alloc = rt.alloc();
    let rows = [
        ((100, -1000), (3900, WORLD + 1000), (16384, 65536)),
        ((100, 0), (3900, WORLD), (16384, 65536)),
        ((4096, 0), (8192, WORLD), (49152, 196608)),
        ((-1000, 100), (WORLD + 1000, 3900), (16384, 65536)),
        (
            (WORLD - 3996, WORLD - 3996),
            (WORLD - 196, WORLD - 196),
            (1, 4),
        ),
        ((WORLD + 63, 0), (WORLD + 100, 100), (1, 4)),
        ((WORLD + 64, 0), (WORLD + 100, 100), (0, 0)),
    ];
    for ((left, top), (right, bottom), wanted) in rows {
        let ring = [(left, top), (right, top), (right, bottom), (left, bottom)];
        let shape = area(alloc, &ring, &[])?;
        assert!(rt; count_pieces(alloc, &shape)? == wanted, "{left} {top}");
    }
    Ok(())
}

// Lines over all columns, over all rows, and over the corners of all tiles on a diagonal.
#[test]
fn lines_over_a_whole_zoom_have_their_pieces(rt: HostRuntime) -> Result<(), Memory> {
    let alloc = rt.alloc();
    let rows = [
        ((-9, 2048), (WORLD + 9, 2048), (16384, 32768)),
        ((2048, -9), (2048, WORLD + 9), (16384, 32768)),
        ((-5, -5), (WORLD + 5, WORLD + 5), (49150, 98300)),
        ((i32::MIN, i32::MIN), (i32::MAX, i32::MAX), (49150, 98300)),
    ];
    for (from, to, wanted) in rows {
        let shape = line(alloc, &[from, to])?;
        assert!(rt; count_pieces(alloc, &shape)? == wanted, "{wanted:?}");
    }
    Ok(())
}

// A line along the middle of the first row has a piece in each column of each zoom, whatever the buffer.
#[test]
fn each_zoom_and_buffer_has_its_pieces(rt: HostRuntime) -> Result<(), Memory> {
    let alloc = rt.alloc();
    for z in 0..15u8 {
        let shape = line(alloc, &[(0, 2048), (4096 << z, 2048)])?;
        assert!(rt;
            count_in(alloc, &shape, z, 256)? == (1 << z, 2 << z),
            "zoom {z}"
        );
    }
    for buffer in 0..257u32 {
        let shape = line(alloc, &[(0, 2048), (16384, 2048)])?;
        assert!(rt;
            count_in(alloc, &shape, 2, buffer)? == (4, 8),
            "buffer {buffer}"
        );
    }
    Ok(())
}

// A path of 100,000 points over 1,001 columns, and a path and a ring of as many in one tile.
#[test]
fn long_shapes_have_their_pieces(rt: HostRuntime) -> Result<(), Memory> {
    let alloc = rt.alloc();
    let mut wide = Vec::new(alloc);
    let mut near = Vec::new(alloc);
    for i in 0..100000i32 {
        wide.push((i.wrapping_mul(41), 2048 + i % 2))?;
        near.push((64 + i / 26, 100 + i.wrapping_mul(37) % 3900))?;
    }
    if wide.len() > 100000 || near.len() > 100000 {
        return Err(Memory);
    }
    assert!(rt; count_pieces(alloc, &line(alloc, &wide)?)? == (1001, 105098));
    assert!(rt; count_pieces(alloc, &line(alloc, &near)?)? == (1, 100000));
    assert!(rt; count_pieces(alloc, &area(alloc, &near, &[])?)? == (1, 100000));
    Ok(())
}

// A thousand small squares, each with a hole, over 13 tiles.
#[test]
fn many_polygons_have_their_pieces(rt: HostRuntime) -> Result<(), Memory> {
    let alloc = rt.alloc();
    let many = thousand_squares(alloc)?;
    assert!(rt; count_pieces(alloc, &many)? == (13, 8300));
    Ok(())
}

fn thousand_squares(alloc: Global) -> Result<Shape, Memory>
    ensures { IfOk result (λ shape. points_of shape < 2 ^ 27) }
{
    let mut polygons = Seq::new(alloc);
    for i in 0..1000u32 {
        let at = 50 * i as i32;
        polygons.push(polygon(alloc, &square(at, 100, 40), &square(at + 10, 110, 20))?)?;
    }
    Ok(Shape::Area(polygons))
}

fn square(x: i32, y: i32, side: i32) -> [(i32, i32); 4] {
    let (right, below) = (x.wrapping_add(side), y.wrapping_add(side));
    [(x, y), (right, y), (right, below), (x, below)]
}

// The box of this path has 92,294,370 tiles.
#[test]
fn a_wide_path_costs_its_pieces(rt: HostRuntime) -> Result<(), Memory> {
    let alloc = rt.alloc();
    let mut places = Vec::new(alloc);
    for i in 0i32..2000 {
        let x = 14900i32.wrapping_mul(i).wrapping_add(1864 * (i % 2));
        let y = 26000i32.wrapping_mul(i);
        places.push((x.wrapping_add(18600000), 59500000i32.wrapping_sub(y)))?;
    }
    if places.len() > 10000 {
        return Err(Memory);
    }
    let wide = line(alloc, &places)?;
    assert!(rt; count_pieces(alloc, &wide)? == (20580, 43273));
    Ok(())
}

// An area that covers a tile and its buffer leaves the whole buffered square of the tile.
#[test]
fn a_covered_tile_has_its_whole_square(rt: HostRuntime) -> Result<(), Memory> {
    let alloc = rt.alloc();
    let outer = [(-9, -9), (99999, -9), (99999, 99999), (-9, 99999)];
    let square = [(-64, -64), (4160, -64), (4160, 4160), (-64, 4160)];
    let whole = area(alloc, &outer, &[])?;
    let mut taker = Squares {
        wanted: square,
        squares: 0,
        others: 0,
    };
    let given = for_tiles(alloc, &whole, 4, 64, &mut taker);
    assert!(rt; given.is_ok());
    assert!(rt; taker.squares == 225 && taker.others == 31);
    Ok(())
}

// A taker that counts the pieces that are one ring of four given points, and all others.
#[derive(Clone, Copy)]
struct Squares {
    wanted: [(i32, i32); 4],
    squares: usize,
    others: usize,
}

impl PieceTaker for Squares {
    type Stop = Memory;

    ghost taken = { λ _. None };

    ghost steps = { λ _ _ _. ⊤ };

    ghost stops = { λ _ _ _. ⊤ };

    fn take(&mut self, _tile: TileXyz, piece: Shape) -> Result<(), Memory> {
        if is_ring(&piece, &self.wanted) {
            self.squares = self.squares.wrapping_add(1);
        } else {
            self.others = self.others.wrapping_add(1);
        }
        Ok(())
    }

    ghost steps_none = { λ _. tt };

    ghost steps_on = { λ _ _ _ _ _ _ _. tt };

    ghost stops_after = { λ _ _ _ _ _ _ _. tt };
}

fn is_ring(piece: &Shape, wanted: &[(i32, i32)]) -> bool {
    let Shape::Area(polygons) = piece else {
        return false;
    };
    let mut points = 0usize;
    for polygon in polygons.as_slice() {
        for (p, (x, y)) in polygon.outer.as_slice().iter().zip(wanted.iter()) {
            if p.x != *x || p.y != *y {
                return false;
            }
        }
        points = points.wrapping_add(polygon.outer.as_slice().len());
    }
    points == wanted.len()
}
