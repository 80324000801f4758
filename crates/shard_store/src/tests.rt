ghost use Rattle.std.specs.Prelude.{◌≡◌, ◌<◌, None};
ghost use Rattle.shard_store.specs.Facts.{IsSeatOf};

use super::*;
use crate::entries::Entries;
use crate::rule::{Takes, View};
use atomic_table::Seat;
use std::alloc::Global;
use std::sync::Wait;
use std::test::*;
use std::thread::{Threads, join};
use tb_types::{Memory, OsmId};

/// A number whose join with another is the larger of both.
#[derive(Clone, Copy, Debug, PartialEq, Eq)]
struct Largest(u32);

impl Join for Largest {
    ghost use Rattle.std.specs.Prelude.{max};
    ghost use Rattle.std.proofs.Common.{ap};
    ghost use Rattle.shard_store.specs.Worked.{max_commutes, max_associates, max_repeats};

    ghost both = { λ x y. record { 0 = max x.0 y.0 } };

    ghost commutes = { λ x y. ap (λ n. record { 0 = n }) (max_commutes x.0 y.0) };

    ghost associates = { λ x y z. ap (λ n. record { 0 = n }) (max_associates x.0 y.0 z.0) };

    ghost repeats = { λ x. ap (λ n. record { 0 = n }) (max_repeats x.0) };

    fn merge(&mut self, other: Largest) {
        if self.0 < other.0 {
            self.0 = other.0;
        }
    }
}

#[test]
fn an_id_stands_in_the_shard_of_its_remainder(rt: HostRuntime) -> Result<(), Fail> {
    let cases = [
        (0, 0),
        (63, 63),
        (64, 0),
        (-1, 63),
        (-64, 0),
        (-65, 63),
        (i64::MAX, 63),
        (i64::MIN, 0),
    ];
    for (id, shard) in cases {
        assert_eq!(rt; shard_of(OsmId(id)), shard);
    }
    Ok(())
}

#[test]
fn one_list_becomes_a_map(rt: HostRuntime) -> Result<(), Fail> {
    let mut entries = Vec::new(rt.alloc());
    for (id, value) in [(7, 1), (-7, 5), (7, 3), (200, 2), (7, 2), (-7, 4)] {
        entries.push((OsmId(id), Largest(value)))?;
    }
    let map = ShardMap::joined(entries);
    assert_eq!(rt; map.count(), 3);
    assert_eq!(rt; map.get(OsmId(7)), Some(&Largest(3)));
    assert_eq!(rt; map.get(OsmId(-7)), Some(&Largest(5)));
    assert_eq!(rt; map.get(OsmId(200)), Some(&Largest(2)));
    assert_eq!(rt; map.get(OsmId(8)), None);
    Ok(())
}

/// Puts one value under id 7.
fn put_value(
    alloc: Global,
    shards: &Shards<Largest>,
    seat: &mut ShardSeat<Largest>,
    value: u32,
) -> Result<bool, Memory>
    requires { IsSeatOf shards.now seat.old }
    ensures { (seat.new.place ≡ seat.old.place) × (seat.new.first ≡ seat.old.first) }
{
    let mut entries = Vec::new(alloc);
    entries.push((OsmId(7), Largest(value)))?;
    Ok(shards.put(seat, 7, entries).is_ok())
}

/// Two seats put under one id: the map's value there.
fn put_by_two(alloc: Global, one: u32, other: u32) -> Result<Option<u32>, Memory> {
    let (shards, mut first) = Shards::new(alloc)?;
    let mut second = shards.split(&mut first);
    let one_put = put_value(alloc, &shards, &mut first, one)?;
    let other_put = put_value(alloc, &shards, &mut second, other)?;
    shards.join(&mut first, second);
    let map = shards.close(first);
    if !one_put || !other_put || map.count() != 1 {
        return Ok(None);
    }
    match map.get(OsmId(7)) {
        Some(value) => Ok(Some(value.0)),
        None => Ok(None),
    }
}

#[test]
fn two_seats_put_in_both_orders_and_the_larger_value_stays(rt: HostRuntime) -> Result<(), Fail> {
    assert_eq!(rt; put_by_two(rt.alloc(), 3, 5)?, Some(5));
    assert_eq!(rt; put_by_two(rt.alloc(), 5, 3)?, Some(5));
    Ok(())
}

/// From which id up to which one a seat puts a value under each.
type Range = (i64, i64, u32);

const RANGES: [Range; 4] = [(-500, 300, 1), (0, 500, 2), (250, 750, 3), (-20, 20, 4)];

/// Puts the entries of a range, tells whether all went well, and gives the seat back.
fn put_range<R: Wait>(
    rt: &R,
    alloc: Global,
    shards: &Shards<Largest>,
    mut seat: ShardSeat<Largest>,
    range: Range,
) -> (bool, ShardSeat<Largest>)
    requires { IsSeatOf shards.now seat }
    ensures { (result.1.place ≡ seat.place) × (result.1.first ≡ seat.first) }
{
    let mut entries = Vec::new(alloc);
    for id in range.0..range.1 {
        if entries.push((OsmId(id), Largest(range.2))).is_err() {
            return (false, seat);
        }
    }
    let put = put_all(rt, shards, &mut seat, entries);
    (put.is_ok(), seat)
}

/// Two threads put the entries of two ranges.
fn put_two<R: Threads + Wait + Sync>(
    rt: &R,
    alloc: Global,
    shards: &Shards<Largest>,
    one: ShardSeat<Largest>,
    other: ShardSeat<Largest>,
    ranges: (Range, Range),
) -> (bool, ShardSeat<Largest>, ShardSeat<Largest>)
    requires { IsSeatOf shards.now one × IsSeatOf shards.now other }
    ensures one { (result.1.place ≡ one.place) × (result.1.first ≡ one.first) }
    ensures other { (result.2.place ≡ other.place) × (result.2.first ≡ other.first) }
{
    let ((done, one), (done_too, other)) = join(
        rt,
        move ||
            requires { IsSeatOf shards.now one }
            ensures { (result.1.place ≡ one.place) × (result.1.first ≡ one.first) }
        { put_range(rt, alloc, shards, one, ranges.0) },
        move ||
            requires { IsSeatOf shards.now other }
            ensures { (result.1.place ≡ other.place) × (result.1.first ≡ other.first) }
        { put_range(rt, alloc, shards, other, ranges.1) },
    );
    (done && done_too, one, other)
}

/// The map of what four threads put, if all went well.
fn filled<R: Threads + Wait + Sync>(rt: &R, alloc: Global) -> Option<ShardMap<Largest>> {
    let (shards, mut a) = Shards::new(alloc).ok()?;
    let b = shards.split(&mut a);
    let c = shards.split(&mut a);
    let d = shards.split(&mut a);
    let shared = &shards;
    let ((done, mut a, b), (done_too, c, d)) = join(
        rt,
        move ||
            requires { IsSeatOf shared.now a × IsSeatOf shared.now b }
            ensures a { (result.1.place ≡ a.place) × (result.1.first ≡ a.first) }
            ensures b { (result.2.place ≡ b.place) × (result.2.first ≡ b.first) }
        { put_two(rt, alloc, shared, a, b, (RANGES[0], RANGES[1])) },
        move ||
            requires { IsSeatOf shared.now c × IsSeatOf shared.now d }
            ensures c { (result.1.place ≡ c.place) × (result.1.first ≡ c.first) }
            ensures d { (result.2.place ≡ d.place) × (result.2.first ≡ d.first) }
        { put_two(rt, alloc, shared, c, d, (RANGES[2], RANGES[3])) },
    );
    shards.join(&mut a, b);
    shards.join(&mut a, c);
    shards.join(&mut a, d);
    (done && done_too).then_some(shards.close(a))
}

/// The largest value of the ranges that an id is in.
fn wanted(id: i64) -> Option<u32> {
    let mut largest = None;
    for (from, to, value) in RANGES {
        if from <= id && id < to {
            largest = largest.max(Some(value));
        }
    }
    largest
}

#[test]
fn four_threads_put_and_the_map_has_all(rt: HostRuntime) -> Result<(), Fail> {
    for _ in 0..2 {
        let Some(map) = filled(&rt, rt.alloc()) else {
            panic!(rt; "no map");
        };
        assert_eq!(rt; map.count(), 1250);
        for id in -510..760 {
            assert_eq!(rt; map.get(OsmId(id)).map(|value| value.0), wanted(id), "{id}");
        }
    }
    Ok(())
}

/// Puts so many entries into one shard: how many ids the map has, and what stands under the last of them.
fn put_into_one<R: Wait>(
    rt: &R,
    alloc: Global,
    count: u32,
) -> Result<(u64, Option<Largest>), Memory> {
    let (shards, mut seat) = Shards::new(alloc)?;
    let mut entries = Vec::new(alloc);
    let mut last = OsmId(0);
    for number in 0..count {
        last = OsmId(i64::from(number) * 64);
        entries.push((last, Largest(number)))?;
    }
    put_all(rt, &shards, &mut seat, entries)?;
    let map = shards.close(seat);
    Ok((map.count(), map.get(last).copied()))
}

#[test]
fn a_shard_holds_100_000_entries(rt: HostRuntime) -> Result<(), Fail> {
    let got = put_into_one(&rt, rt.alloc(), 100_000)?;
    assert!(rt; got == (100_000, Some(Largest(99_999))), "{got:?}");
    Ok(())
}

/// Takes the turn of a shard and keeps it.
fn hold<V: Join>(shards: &Shards<V>, seat: &mut Seat<Entries<V>, View<V>>, shard: usize) -> bool
    requires seat { (seat.old.table_id ≡ shards.now.place) × (seat.old.me.0.live ≡ 1) × (seat.old.me.0.hold ≡ None) }
    requires shard { shard < 64 }
{
    shards
        .table
        .shared
        .compare_exchange::<Takes>(seat, shard, 0, 1)
        == 0
}

/// While one shard's turn is held, `put_all` of entries to all others comes to its end, and a put there is refused:
/// whether the turn was held, and how many entries came back.
fn put_beside_a_turn<R: Wait>(rt: &R, alloc: Global) -> Result<(bool, usize), Memory> {
    let (shards, mut first) = Shards::new(alloc)?;
    let ShardSeat { seat: mut other } = shards.split(&mut first);
    let held = hold(&shards, &mut other, 5);
    let mut entries = Vec::new(alloc);
    for id in 6..69 {
        entries.push((OsmId(id), Largest(1)))?;
    }
    put_all(rt, &shards, &mut first, entries)?;
    let mut five = Vec::new(alloc);
    five.push((OsmId(5), Largest(1)))?;
    match shards.put(&mut first, 5, five) {
        Err(PutErr::Again(back)) => Ok((held, back.len())),
        _ => Ok((held, 0)),
    }
}

#[test]
fn a_turn_that_is_held_keeps_none_from_other_shards(rt: HostRuntime) -> Result<(), Fail> {
    assert_eq!(rt; put_beside_a_turn(&rt, rt.alloc())?, (true, 1));
    Ok(())
}
