ghost use Rattle.std.specs.Prelude.{◌≡◌};
ghost use Rattle.shard_store.specs.Facts.{IsSeatOf};

use super::tests::node;
use super::*;
use shard_store::{ShardSeat, Shards, put_all};
use std::alloc::Global;
use std::sync::Wait;
use std::test::*;
use std::thread::{Threads, join};
use tb_types::OsmId;

/// From which id up to which one a thread puts a node under each, and the block in which these stand.
type Range = (i64, i64, u32);

const RANGES: [Range; 3] = [(-500, 300, 1), (0, 500, 3), (250, 750, 2)];

/// Puts the nodes of a range, tells whether all went well, and gives the seat back.
fn put_range<R: Wait>(
    rt: &R,
    alloc: Global,
    shards: &Shards<Located>,
    mut seat: ShardSeat<Located>,
    range: Range,
) -> (bool, ShardSeat<Located>)
    requires { IsSeatOf shards.now seat }
    ensures { (result.1.place ≡ seat.place) × (result.1.first ≡ seat.first) }
{
    let mut entries = Vec::new(alloc);
    for id in range.0..range.1 {
        if entries.push((OsmId(id), node((range.2, 0, None)))).is_err() {
            return (false, seat);
        }
    }
    let put = put_all(rt, shards, &mut seat, entries);
    (put.is_ok(), seat)
}

/// Two threads put the nodes of the second and the third range.
fn put_two<R: Threads + Wait + Sync>(
    rt: &R,
    alloc: Global,
    shards: &Shards<Located>,
    one: ShardSeat<Located>,
    other: ShardSeat<Located>,
) -> (bool, ShardSeat<Located>, ShardSeat<Located>)
    requires { IsSeatOf shards.now one × IsSeatOf shards.now other }
    ensures one { (result.1.place ≡ one.place) × (result.1.first ≡ one.first) }
    ensures other { (result.2.place ≡ other.place) × (result.2.first ≡ other.first) }
{
    let ((done, one), (done_too, other)) = join(
        rt,
        move ||
            requires { IsSeatOf shards.now one }
            ensures { (result.1.place ≡ one.place) × (result.1.first ≡ one.first) }
        { put_range(rt, alloc, shards, one, RANGES[1]) },
        move ||
            requires { IsSeatOf shards.now other }
            ensures { (result.1.place ≡ other.place) × (result.1.first ≡ other.first) }
        { put_range(rt, alloc, shards, other, RANGES[2]) },
    );
    (done && done_too, one, other)
}

/// What three threads put, if all went well.
fn put_by_three<R: Threads + Wait + Sync>(rt: &R, alloc: Global) -> Option<Locations> {
    let (shards, mut first) = Shards::new(alloc).ok()?;
    let one = shards.split(&mut first);
    let other = shards.split(&mut first);
    let shared = &shards;
    let ((done, mut first), (done_too, one, other)) = join(
        rt,
        move ||
            requires { IsSeatOf shared.now first }
            ensures { (result.1.place ≡ first.place) × (result.1.first ≡ first.first) }
        { put_range(rt, alloc, shared, first, RANGES[0]) },
        move ||
            requires { IsSeatOf shared.now one × IsSeatOf shared.now other }
            ensures one { (result.1.place ≡ one.place) × (result.1.first ≡ one.first) }
            ensures other { (result.2.place ≡ other.place) × (result.2.first ≡ other.first) }
        { put_two(rt, alloc, shared, one, other) },
    );
    shards.join(&mut first, one);
    shards.join(&mut first, other);
    (done && done_too).then_some(Locations::from_map(shards.close(first)))
}

/// The greatest block in which a node of an id stands.
fn last_block(id: i64) -> Option<u32> {
    match id {
        -500..0 => Some(1),
        0..500 => Some(3),
        500..750 => Some(2),
        _ => None,
    }
}

#[test]
fn three_threads_put_and_the_greatest_place_stays(rt: HostRuntime) -> Result<(), Fail> {
    for _ in 0..4 {
        let Some(nodes) = put_by_three(&rt, rt.alloc()) else {
            panic!(rt; "no store");
        };
        for id in -510..760 {
            let block = nodes.get(OsmId(id)).map(|node| node.place.block);
            assert_eq!(rt; block, last_block(id), "{id}");
        }
    }
    Ok(())
}
