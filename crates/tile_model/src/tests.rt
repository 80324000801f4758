ghost use Rattle.std.specs.Prelude.{◌≤◌};
ghost use Rattle.tile_model.specs.Points.{IsOnGrid};

use super::*;
use mvt_codec::{ItemKey, RunItem, TileRow};
use tb_types::{Grid, Kind, Place, Seq, TileXyz};

// The first and last column and row of the tiles that a point stands in.
fn reached(x: i32, y: i32, zoom: u8, buffer: u32) -> [u32; 4]
    requires zoom { zoom ≤ 14 }
    requires grid { IsOnGrid zoom (record { x = x; y = y }) }
    requires buffer { buffer ≤ 256 }
{
    let reach = reach_of_point(Grid { x, y }, zoom, buffer);
    [
        reach.columns.first,
        reach.columns.last,
        reach.rows.first,
        reach.rows.last,
    ]
}

// The corner that the tiles of zoom 1 share, and bounds of buffers.
#[test]
fn points_stand_in_all_tiles_whose_buffers_hold_them(rt: HostRuntime) {
    assert!(rt; reached(4096, 4096, 0, 0) == [0, 0, 0, 0]);
    assert!(rt; reached(4096, 4096, 1, 0) == [0, 1, 0, 1]);
    assert!(rt; reached(4096, 4096, 1, 64) == [0, 1, 0, 1]);
    assert!(rt; reached(4097, 4095, 1, 0) == [1, 1, 0, 0]);
    assert!(rt; reached(4160, 4032, 1, 64) == [0, 1, 0, 1]);
    assert!(rt; reached(4161, 4031, 1, 64) == [1, 1, 0, 0]);
    assert!(rt; reached(4352, 3839, 1, 256) == [0, 1, 0, 0]);
}

#[test]
fn far_edges_belong_to_the_last_tiles(rt: HostRuntime) {
    assert!(rt; reached(0, 8192, 1, 256) == [0, 0, 1, 1]);
    assert!(rt; reached(67108864, 67108864, 14, 0) == [16383, 16383, 16383, 16383]);
    assert!(rt; reached(67108864, 67104512, 14, 256) == [16383, 16383, 16382, 16383]);
}

#[test]
fn points_are_counted_from_corners(rt: HostRuntime) {
    let tile = TileXyz { z: 1, x: 1, y: 0 };
    let p = Grid { x: 4032, y: 4352 };
    assert_eq!(rt; from_corner(p, 1, tile), Grid { x: -64, y: 4352 });
}

fn key(tile: u64, layer: u8, order: i16, kind: Kind, index: u32, rule: u16) -> ItemKey {
    let place = Place { block: 7, index };
    ItemKey {
        tile,
        layer,
        order,
        kind,
        place,
        rule,
    }
}

#[test]
fn items_stand_by_their_keys(rt: HostRuntime) {
    let alloc = rt.alloc();
    let keys = [
        key(5, 0, 1, Kind::Way, 3, 1),
        key(5, 0, 1, Kind::Way, 3, 0),
        key(5, 0, 1, Kind::Way, 2, 9),
        key(5, 0, 1, Kind::Node, 9, 0),
        key(5, 0, -1, Kind::Relation, 9, 0),
        key(4, 1, 0, Kind::Node, 0, 0),
    ];
    let mut items = keys.map(|key| RunItem {
        key,
        row: TileRow {
            id: 0,
            form: 1,
            ints: Seq::new(alloc),
            attributes: Seq::new(alloc),
        },
    });
    sort_items(&mut items);
    for i in 0..6 {
        assert!(rt; items[i].key == keys[5 - i]);
    }
    assert!(rt; tile_len(&items[..]) == 1);
    let sorted = &items[..];
    assert!(rt; tile_len(&sorted[1..]) == 5);
}

#[test]
fn laws_hold_at_any_types() {
    tile_laws::<u8, u16, u32>();
    differ_laws::<u8, u16, u32, u64, char>();
    build_laws();
    point_laws();
    extract_laws();
    worked_tiles();
}
