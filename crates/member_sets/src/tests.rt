use super::*;
use shard_store::{ShardMap, Shards};
use std::alloc::Global;
use std::sync::Wait;
use std::test::*;
use tb_types::{Memory, OsmId, Seq};

/// These ids, and the numbers below another.
fn ids_of(alloc: Global, ids: &[i64], below: i64) -> Result<Seq<OsmId>, Memory> {
    let mut list = Seq::new(alloc);
    for id in ids {
        list.push(OsmId(*id))?;
    }
    for id in 0..below {
        list.push(OsmId(id))?;
    }
    Ok(list)
}

/// The map of what two seats put, and a third one, which puts the numbers below another.
fn map_of<R: Wait>(
    rt: &R,
    alloc: Global,
    one: &[i64],
    other: &[i64],
    below: i64,
) -> Result<ShardMap<Unit>, Memory> {
    let (shards, mut first) = Shards::new(alloc)?;
    let mut second = shards.split(&mut first);
    let mut third = shards.split(&mut first);
    put_ids(rt, &shards, &mut second, ids_of(alloc, other, 0)?)?;
    put_ids(rt, &shards, &mut third, ids_of(alloc, &[], below)?)?;
    put_ids(rt, &shards, &mut first, ids_of(alloc, one, 0)?)?;
    shards.join(&mut first, second);
    shards.join(&mut first, third);
    Ok(shards.close(first))
}

#[test]
fn a_set_has_the_ids_that_were_put(rt: HostRuntime) -> Result<(), Fail> {
    let (one, other) = ([7, -7, 7], [71, 7]);
    let ways = NeededWays::from_map(map_of(&rt, rt.alloc(), &one, &other, 0)?);
    let nodes = NeededNodes::from_map(map_of(&rt, rt.alloc(), &one, &other, 70_000)?);
    let none = NeededNodes::from_map(map_of(&rt, rt.alloc(), &[], &[], 0)?);
    for (id, in_ways, in_nodes) in [
        (7, true, true),
        (-7, true, true),
        (71, true, true),
        (-8, false, false),
        (135, false, true),
        (69_999, false, true),
        (70_000, false, false),
    ] {
        assert_eq!(rt; ways.has(OsmId(id)), in_ways);
        assert_eq!(rt; nodes.has(OsmId(id)), in_nodes);
        assert!(rt; !none.has(OsmId(id)));
    }
    Ok(())
}

/// A build on one lane has no shards: its set is that of one list of ids.
#[test]
fn one_list_becomes_a_set(rt: HostRuntime) -> Result<(), Fail> {
    let mut entries = Vec::new(rt.alloc());
    for id in [7, -7, 71, 7] {
        entries.push((OsmId(id), Unit))?;
    }
    let nodes = NeededNodes::from_map(ShardMap::joined(entries));
    for (id, stands) in [(7, true), (-7, true), (71, true), (8, false), (-71, false)] {
        assert_eq!(rt; nodes.has(OsmId(id)), stands, "{id}");
    }
    Ok(())
}
