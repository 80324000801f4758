ghost use Rattle.std.specs.Prelude.{◌≡◌, ◌++◌, flat_map, IfOk, OnOk};
ghost use Rattle.shard_store.specs.Join.{IsJoinOf};
ghost use Rattle.member_sets.specs.declared.kept.KeptRelation.{KeptRelation};
ghost use Rattle.member_sets.specs.declared.unit.Unit as units;
ghost use Rattle.member_sets.specs.Ids.{entries_of};
ghost use Rattle.pass_survey.specs.Kept.{members_of};

use crate::needed::put_ids;
use member_sets::{KeptRelation, NeededWays, Unit};
use shard_store::ShardMap;
use std::alloc::Global;
use tb_types::{Memory, OsmId};

/// The ways that kept relations need: all that are members of one of them.
pub fn needed_ways(alloc: Global, kept: &[KeptRelation]) -> Result<NeededWays, Memory>
    ensures { IfOk result (λ ways. (both : units.Unit → units.Unit → units.Unit) × IsJoinOf both (entries_of (members_of kept.now)) ways) }
{
    let mut ids: Vec<(OsmId, Unit)> = Vec::new(alloc);
    put_members(&mut ids, kept)?;
    Ok(NeededWays::from_map(ShardMap::joined(ids)))
}

// Adds the members of relations.
fn put_members(ids: &mut Vec<(OsmId, Unit)>, kept: &[KeptRelation]) -> Result<(), Memory>
    ensures { OnOk result (ids.new.items ≡ ids.old.items ++ entries_of (members_of kept.now)) }
{
    for relation in kept {
        put_ids(ids, relation.members.as_slice())?;
    }
    Ok(())
}
