ghost use Rattle.std.specs.Prelude.{◌≡◌, ◌<◌, ◌^◌, length, IfOk};
ghost use Rattle.mvt_geom.specs.Geometry.{origin};
ghost use Rattle.mvt_geom.specs.Text.{AreSteps};

use crate::{has_form, put_geometry, read_geometry};
use std::alloc::Global;
use tb_types::{Grid, GridPolygon, Memory, Seq, Shape};

/// A line of a street, and an area that covers a tile and its buffer of 64.
const LINE: [u32; 6] = [9, 6144, 4096, 10, 1023, 0];

const COVERED: [Grid; 4] = [
    Grid { x: -64, y: -64 },
    Grid { x: 4160, y: -64 },
    Grid { x: 4160, y: 4160 },
    Grid { x: -64, y: 4160 },
];

const COVER: [u32; 11] = [9, 127, 127, 26, 8448, 0, 0, 8448, 8447, 0, 15];

fn path(alloc: Global, points: &[Grid]) -> Result<Seq<Grid>, Memory>
    ensures { IfOk result (λ path. path ≡ points.now) }
{
    Ok(Seq::from_vec(Vec::from_slice(alloc, points)?))
}

// The integers of a line along some points.
fn line_ints(alloc: Global, points: &[Grid]) -> Result<Seq<u32>, Memory>
    requires short { length points.now < 2 ^ 29 }
    requires steps { AreSteps origin points.now }
{
    let mut paths = Seq::new(alloc);
    paths.push(path(alloc, points)?)?;
    put_geometry(alloc, &Shape::Line(paths))
}

#[test]
fn lines_go_both_ways(rt: HostRuntime) -> Result<(), Memory> {
    let alloc = rt.alloc();
    let ints = line_ints(
        alloc,
        &[Grid { x: 3072, y: 2048 }, Grid { x: 2560, y: 2048 }],
    )?;
    assert!(rt; ints.as_slice() == LINE.as_slice());
    let shape = read_geometry(alloc, 2, ints.as_slice())?;
    assert!(rt; ends_at(shape, 2560, 2048));
    Ok(())
}

#[test]
fn the_longest_steps_are_written(rt: HostRuntime) -> Result<(), Memory> {
    let alloc = rt.alloc();
    let least = Grid {
        x: -2147483648,
        y: 0,
    };
    let ints = line_ints(
        alloc,
        &[
            least,
            Grid {
                x: -1,
                y: 2147483647,
            },
        ],
    )?;
    assert!(rt; ints.as_slice() == [9, 4294967295, 0, 10, 4294967294, 4294967294].as_slice());
    let shape = read_geometry(alloc, 2, ints.as_slice())?;
    assert!(rt; ends_at(shape, -1, 2147483647));
    Ok(())
}

// Whether a shape is a line whose last point lies there.
fn ends_at(shape: Option<Shape>, x: i32, y: i32) -> bool {
    let Some(Shape::Line(paths)) = shape else {
        return false;
    };
    let Some(path) = paths.as_slice().last() else {
        return false;
    };
    match path.as_slice().last() {
        Some(p) => p.x == x && p.y == y,
        None => false,
    }
}

#[test]
fn areas_go_both_ways(rt: HostRuntime) -> Result<(), Memory> {
    let alloc = rt.alloc();
    let mut polygons = Seq::new(alloc);
    polygons.push(GridPolygon {
        outer: path(alloc, &COVERED)?,
        inners: Seq::new(alloc),
    })?;
    let ints = put_geometry(alloc, &Shape::Area(polygons))?;
    assert!(rt; ints.as_slice() == COVER.as_slice());
    let Some(Shape::Area(again)) = read_geometry(alloc, 3, ints.as_slice())? else {
        assert!(rt; false);
        return Ok(());
    };
    assert!(rt; again.as_slice().len() == 1);
    Ok(())
}

#[test]
fn other_integers_are_none(rt: HostRuntime) -> Result<(), Memory> {
    let alloc = rt.alloc();
    let cases: [(u8, &[u32]); 14] = [
        (0, &[]),
        (1, &[]),
        (1, &[17, 2, 2, 2, 2]),
        (1, &[9, 2]),
        (2, &[]),
        (2, &[9, 0, 0]),
        (2, &[9, 0, 0, 2]),
        (2, &[9, 0, 0, 10, 2]),
        (2, &[9, 4294967294, 0, 10, 2, 0]),
        (2, &[9, 0, 4294967295, 10, 0, 1]),
        (3, &[9, 0, 0, 26, 8, 0, 0, 8, 7, 0]),
        (3, &[9, 0, 0, 18, 0, 8, 8, 0, 15]),
        (3, &[9, 0, 0, 18, 8, 0, 8, 0, 15]),
        (4, &[9, 2, 2]),
    ];
    for (form, ints) in cases {
        assert!(rt; read_geometry(alloc, form, ints)?.is_none());
    }
    Ok(())
}

#[test]
fn forms_ask_for_commands_alone(rt: HostRuntime) {
    assert!(rt; has_form(0, &[]));
    assert!(rt; has_form(0, &[1, 2, 3]));
    assert!(rt; has_form(1, &[17, 2, 2, 2, 2]));
    assert!(rt; !has_form(1, &[1]) && !has_form(1, &[9, 2, 2, 2]));
    assert!(rt; has_form(2, &[9, 4294967294, 0, 10, 2, 0]));
    assert!(rt; !has_form(2, &[9, 0, 0, 10, 2, 0, 9]));
    assert!(rt; has_form(3, &[9, 0, 0, 18, 8, 0, 8, 0, 15]));
    assert!(rt; !has_form(3, &[9, 0, 0, 10, 8, 0, 15]));
    assert!(rt; !has_form(4, &[]));
}
