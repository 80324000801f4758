ghost use Rattle.std.specs.Prelude.{◌≡◌};
ghost use Rattle.shard_store.specs.Facts.{IsSeatOf};

use super::*;
use ring_assembly::WayShape;
use shard_store::{Join, ShardMap, ShardSeat, Shards};
use std::alloc::Global;
use std::test::*;
use tb_types::{Memory, OsmId, Place, Seq, World};

/// Puts one value under id 7.
fn put_seven<V: Join>(
    alloc: Global,
    shards: &Shards<V>,
    seat: &mut ShardSeat<V>,
    value: V,
) -> Result<bool, Memory>
    requires { IsSeatOf shards.now seat.old }
    ensures { (seat.new.place ≡ seat.old.place) × (seat.new.first ≡ seat.old.first) }
{
    let mut entries = Vec::new(alloc);
    entries.push((OsmId(7), value))?;
    Ok(shards.put(seat, 7, entries).is_ok())
}

/// Two seats put under one id: the map, if both puts went well.
fn put_by_two<V: Join>(alloc: Global, one: V, other: V) -> Result<Option<ShardMap<V>>, Memory> {
    let (shards, mut first) = Shards::new(alloc)?;
    let mut second = shards.split(&mut first);
    let one_put = put_seven(alloc, &shards, &mut first, one)?;
    let other_put = put_seven(alloc, &shards, &mut second, other)?;
    shards.join(&mut first, second);
    let map = shards.close(first);
    Ok((one_put && other_put && map.count() == 1).then_some(map))
}

/// A node or a way by its place, and the x of its point, if it has one.
pub(crate) type Row = (u32, u32, Option<u32>);

/// Two of one id, and the one that stays.
const CASES: [(Row, Row, Row); 6] = [
    // The later one counts, also where its location or its shape is missing.
    ((1, 0, Some(5)), (2, 0, None), (2, 0, None)),
    ((1, 0, None), (2, 0, Some(5)), (2, 0, Some(5))),
    // In one block the number decides.
    ((1, 9, Some(5)), (1, 10, None), (1, 10, None)),
    // The block counts before the number in it.
    ((1, 9, Some(5)), (2, 0, Some(4)), (2, 0, Some(4))),
    // At one place what is there counts before what is missing, and of two the greater.
    ((1, 0, Some(5)), (1, 0, None), (1, 0, Some(5))),
    ((1, 0, Some(5)), (1, 0, Some(6)), (1, 0, Some(6))),
];

pub(crate) fn node(row: Row) -> Located {
    Located {
        place: Place {
            block: row.0,
            index: row.1,
        },
        at: row.2.map(|x| World { x, y: 3 }),
    }
}

fn node_by_two(alloc: Global, one: Row, other: Row) -> Result<Option<Row>, Memory> {
    let Some(map) = put_by_two(alloc, node(one), node(other))? else {
        return Ok(None);
    };
    let store = Locations::from_map(map);
    let found = store.get(OsmId(7));
    Ok(found.map(|node| (node.place.block, node.place.index, node.at.map(|p| p.x))))
}

#[test]
fn of_two_nodes_the_one_at_the_greater_place_stays(rt: HostRuntime) -> Result<(), Fail> {
    for (one, other, stays) in CASES {
        assert_eq!(rt; node_by_two(rt.alloc(), one, other)?, Some(stays));
        assert_eq!(rt; node_by_two(rt.alloc(), other, one)?, Some(stays));
    }
    Ok(())
}

fn way(alloc: Global, row: Row) -> Result<Shaped, Memory> {
    let shape = match row.2 {
        None => None,
        Some(x) => {
            let mut points = Seq::new(alloc);
            points.push(World { x, y: 3 })?;
            Some(WayShape {
                first: OsmId(1),
                last: OsmId(2),
                points,
            })
        }
    };
    let place = Place {
        block: row.0,
        index: row.1,
    };
    Ok(Shaped { place, shape })
}

/// The x of a way's first point.
fn first_x(way: &Shaped) -> Option<u32> {
    match &way.shape {
        Some(shape) => shape.points.as_slice().first().map(|p| p.x),
        None => None,
    }
}

fn way_by_two(alloc: Global, one: Row, other: Row) -> Result<Option<Row>, Memory> {
    let Some(map) = put_by_two(alloc, way(alloc, one)?, way(alloc, other)?)? else {
        return Ok(None);
    };
    let store = Shapes::from_map(map);
    let found = store.get(OsmId(7));
    Ok(found.map(|way| (way.place.block, way.place.index, first_x(way))))
}

#[test]
fn of_two_ways_the_one_at_the_greater_place_stays(rt: HostRuntime) -> Result<(), Fail> {
    for (one, other, stays) in CASES {
        assert_eq!(rt; way_by_two(rt.alloc(), one, other)?, Some(stays));
        assert_eq!(rt; way_by_two(rt.alloc(), other, one)?, Some(stays));
    }
    Ok(())
}
