ghost use Rattle.std.specs.Prelude.{◌≡◌, ◌++◌, ◌||◌, is_some, flat_map, OnOk, IfOk};
ghost use Rattle.shard_store.specs.Join.{value_at};
ghost use Rattle.member_sets.specs.Ids.{entries_of};
ghost use Rattle.tile_model.specs.Extract.{is_drawn, needed_refs};

use member_sets::{NeededWays, Unit};
use osm_elements::WayEl;
use profile_rules::{Profile, specs};
use std::alloc::Global;
use tb_types::{Kind, Memory, OsmId};

/// Adds the nodes that the ways of a block need: the refs of each way of which the rules of a profile make something, and of
/// each that a kept relation needs.
pub fn put_needed(
    ids: &mut Vec<(OsmId, Unit)>,
    alloc: Global,
    profile: &Profile,
    members: &NeededWays,
    ways: &[WayEl],
) -> Result<(), Memory>
    ensures { OnOk result (ids.new.items ≡ ids.old.items ++ entries_of (flat_map (needed_refs profile.now (λ id. is_some (value_at id members.now))) ways.now)) }
{
    for way in ways {
        if is_needed(alloc, profile, members, way)? {
            put_ids(ids, way.refs.as_slice())?;
        }
    }
    Ok(())
}

// Whether the nodes of a way are needed.
fn is_needed(
    alloc: Global,
    profile: &Profile,
    members: &NeededWays,
    way: &WayEl,
) -> Result<bool, Memory>
    ensures { IfOk result (λ needed. needed ≡ (is_drawn profile.now way.now || is_some (value_at way.now.id members.now))) }
{
    if members.has(way.id) {
        return Ok(true);
    }
    let specs = specs(alloc, profile, &way.tags, Kind::Way)?;
    Ok(!specs.as_slice().is_empty())
}

/// Adds these ids.
pub fn put_ids(ids: &mut Vec<(OsmId, Unit)>, more: &[OsmId]) -> Result<(), Memory>
    ensures { OnOk result (ids.new.items ≡ ids.old.items ++ entries_of more.now) }
{
    for id in more {
        ids.push((*id, Unit))?;
    }
    Ok(())
}
