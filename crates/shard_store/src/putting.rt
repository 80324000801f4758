//! Entries of any shards are put shard by shard, by a thread that may wait.
ghost use Rattle.std.specs.Prelude.{◌≡◌, ◌≢◌, ◌<◌, ◌++◌, ◌∷◌, ◌&&◌, ℕ, [], true, length, IfOk, OnOk, OnErr};
ghost use Rattle.shard_store.specs.Facts.{IsSeatOf};
ghost use Rattle.shard_store.specs.PutAll.{PutsAll, PutsSome, Moves, AreSorted, OnlyPuts, bucket, of_shard};

use crate::entries::{Entries, empty_lists};
use crate::join::Join;
use crate::seat::ShardSeat;
use crate::shard::shard_of;
use crate::shards::{PutErr, Shards};
use std::alloc::Global;
use std::mem::replace;
use std::sync::Wait;
use std::thread::yield_now;
use tb_types::{Memory, OsmId};

/// Puts all entries, shard by shard. While another seat has a shard's turn, it goes on with other shards and comes back;
/// so it may wait. After `Memory` the entries of each shard were put whole or not at all.
pub fn put_all<R: Wait, V: Join>(
    rt: &R,
    shards: &Shards<V>,
    seat: &mut ShardSeat<V>,
    entries: Vec<(OsmId, V)>,
) -> Result<(), Memory>
    requires shards { IsSeatOf shards.now seat.old }
    ensures seat { OnlyPuts seat.old seat.new }
    ensures ok { OnOk result (PutsAll seat.old.puts seat.new.puts entries.items) }
    ensures err { OnErr result (PutsSome seat.old.puts seat.new.puts entries.items) }
{
    let mut buckets = by_shard(entries)?;
    match put_buckets(rt, shards, seat, &mut buckets) {
        Ok(()) => Ok(()),
        Err(refused) => Err(refused),
    }
}

// How many entries each shard has: so much room is made.
fn counts<V>(entries: &[(OsmId, V)]) -> [usize; 64] {
    let mut counts = [0usize; 64];
    for entry in entries {
        let shard = shard_of(entry.0) as usize;
        counts[shard] = counts[shard].saturating_add(1);
    }
    counts
}

// The entries of each shard, in their order.
fn by_shard<V: Join>(entries: Vec<(OsmId, V)>) -> Result<Vec<Entries<V>>, Memory>
    ensures { IfOk result (λ buckets. (length buckets.items ≡ 64) × ((k : ℕ) → bucket k buckets.items ≡ of_shard k entries.items)) }
{
    let mut buckets = empty_lists(*entries.allocator(), &counts(entries.as_slice()))?;
    for entry in entries {
        let shard = shard_of(entry.0) as usize;
        buckets[shard].push(entry)?;
    }
    Ok(buckets)
}

// Goes round until all buckets are empty.
fn put_buckets<R: Wait, V: Join>(
    rt: &R,
    shards: &Shards<V>,
    seat: &mut ShardSeat<V>,
    buckets: &mut Vec<Entries<V>>,
) -> Result<(), Memory>
    requires shards { IsSeatOf shards.now seat.old }
    requires buckets { (length buckets.old.items ≡ 64) × AreSorted buckets.old.items }
    ensures seat { OnlyPuts seat.old seat.new }
    ensures moves { Moves buckets.old.items buckets.new.items seat.old.puts seat.new.puts }
    ensures ok { OnOk result ((k : ℕ) → bucket k buckets.new.items ≡ []) }
{
    for _ in rt.forever() {
        if put_round(shards, seat, buckets)? {
            return Ok(());
        }
        yield_now();
    }
    unreachable!()
}

// Tries each bucket once, and tells whether all are empty now.
fn put_round<V: Join>(
    shards: &Shards<V>,
    seat: &mut ShardSeat<V>,
    buckets: &mut Vec<Entries<V>>,
) -> Result<bool, Memory>
    requires shards { IsSeatOf shards.now seat.old }
    requires buckets { (length buckets.old.items ≡ 64) × AreSorted buckets.old.items }
    ensures seat { OnlyPuts seat.old seat.new }
    ensures count { length buckets.new.items ≡ 64 }
    ensures moves { Moves buckets.old.items buckets.new.items seat.old.puts seat.new.puts }
    ensures ok { IfOk result (λ all. all ≡ true → (k : ℕ) → bucket k buckets.new.items ≡ []) }
{
    let mut all = true;
    let mut shard = 0u32;
    while shard < 64 {
        let emptied = put_bucket(shards, seat, buckets, shard)?;
        all = both(all, emptied);
        shard += 1;
    }
    Ok(all)
}

fn both(one: bool, other: bool) -> bool
    ensures { result ≡ (one && other) }
{
    one && other
}

// Puts what lies in the bucket of a shard, and tells whether the bucket is empty now.
fn put_filled<V: Join>(
    shards: &Shards<V>,
    seat: &mut ShardSeat<V>,
    buckets: &mut Vec<Entries<V>>,
    shard: u32,
) -> Result<bool, Memory>
    requires shards { IsSeatOf shards.now seat.old }
    requires bucket { (shard < 64) × (length buckets.old.items ≡ 64) × AreSorted buckets.old.items }
    ensures seat { OnlyPuts seat.old seat.new }
    ensures count { length buckets.new.items ≡ 64 }
    ensures moves { Moves buckets.old.items buckets.new.items seat.old.puts seat.new.puts }
    ensures others { (k : ℕ) → k ≢ shard → bucket k buckets.new.items ≡ bucket k buckets.old.items }
    ensures ok { IfOk result (λ emptied. emptied ≡ true → bucket shard buckets.new.items ≡ []) }
{
    let at = shard as usize;
    let empty = Entries::empty(*buckets.allocator());
    let Entries { items } = replace(&mut buckets[at], empty);
    match shards.put(seat, shard, items) {
        Ok(()) => Ok(true),
        Err(PutErr::Again(items)) => {
            buckets[at] = Entries { items };
            Ok(false)
        }
        Err(PutErr::Memory(items)) => {
            buckets[at] = Entries { items };
            Err(Memory)
        }
    }
}

// The same, but it takes no turn where the bucket is empty.
fn put_bucket<V: Join>(
    shards: &Shards<V>,
    seat: &mut ShardSeat<V>,
    buckets: &mut Vec<Entries<V>>,
    shard: u32,
) -> Result<bool, Memory>
    requires shards { IsSeatOf shards.now seat.old }
    requires bucket { (shard < 64) × (length buckets.old.items ≡ 64) × AreSorted buckets.old.items }
    ensures seat { OnlyPuts seat.old seat.new }
    ensures count { length buckets.new.items ≡ 64 }
    ensures moves { Moves buckets.old.items buckets.new.items seat.old.puts seat.new.puts }
    ensures others { (k : ℕ) → k ≢ shard → bucket k buckets.new.items ≡ bucket k buckets.old.items }
    ensures ok { IfOk result (λ emptied. emptied ≡ true → bucket shard buckets.new.items ≡ []) }
{
    if buckets[shard as usize].is_empty() {
        return Ok(true);
    }
    put_filled(shards, seat, buckets, shard)
}
