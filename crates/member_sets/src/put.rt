ghost use Rattle.std.specs.Prelude.{◌≡◌, IfOk, OnOk, OnErr};
ghost use Rattle.shard_store.specs.Facts.{IsSeatOf};
ghost use Rattle.shard_store.specs.PutAll.{PutsAll, PutsSome, OnlyPuts};
ghost use Rattle.member_sets.specs.Ids.{entries_of};

use crate::unit::Unit;
use shard_store::{ShardSeat, Shards, put_all};
use std::sync::Wait;
use tb_types::{Memory, OsmId, Seq};

/// Puts ids. It may wait for the turns of shards. After `Memory` the ids of each shard were put whole or not at all.
pub fn put_ids<R: Wait>(
    rt: &R,
    shards: &Shards<Unit>,
    seat: &mut ShardSeat<Unit>,
    ids: Seq<OsmId>,
) -> Result<(), Memory>
    requires shards { IsSeatOf shards.now seat.old }
    ensures seat { OnlyPuts seat.old seat.new }
    ensures ok { OnOk result (PutsAll seat.old.puts seat.new.puts (entries_of ids)) }
    ensures err { OnErr result (PutsSome seat.old.puts seat.new.puts (entries_of ids)) }
{
    let entries = with_units(ids)?;
    match put_all(rt, shards, seat, entries) {
        Ok(()) => Ok(()),
        Err(refused) => Err(refused),
    }
}

// The ids, each with a value without content.
fn with_units(ids: Seq<OsmId>) -> Result<Vec<(OsmId, Unit)>, Memory>
    ensures { IfOk result (λ entries. entries.items ≡ entries_of ids) }
{
    let ids = ids.into_vec();
    let mut entries = Vec::with_capacity(*ids.allocator(), ids.len())?;
    for id in &ids {
        entries.push((*id, Unit))?;
    }
    Ok(entries)
}
