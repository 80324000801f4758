ghost use Rattle.std.specs.Prelude.{◌≡◌, ◌++◌, IfOk, OnOk};
ghost use Rattle.pass_shapes.specs.Stores.{locate_in, shaped_at, shaped_in};

use crate::path::way_along;
use member_sets::NeededWays;
use node_store::{Locations, Shaped};
use osm_elements::WayEl;
use std::alloc::Global;
use tb_types::{Memory, OsmId, Place};

/// Adds what is known of the needed ways among those of a block: each with its place, and its shape if it has one.
#[tactic(auto, using(crate::proofs::WayWalks::shaped_next, crate::proofs::WayWalks::shaped_not))]
pub fn put_shaped(
    entries: &mut Vec<(OsmId, Shaped)>,
    alloc: Global,
    needed: &NeededWays,
    locations: &Locations,
    block: u32,
    ways: &[WayEl],
) -> Result<(), Memory>
    ensures { OnOk result (entries.new.items ≡ entries.old.items ++ shaped_in needed.now (locate_in locations.now) block ways.now) }
{
    for way in ways {
        if needed.has(way.id) {
            entries.push((way.id, shaped_at(alloc, locations, block, way)?))?;
        }
    }
    Ok(())
}

// A way's place, and its shape if it has one.
fn shaped_at(
    alloc: Global,
    locations: &Locations,
    block: u32,
    way: &WayEl,
) -> Result<Shaped, Memory>
    ensures { IfOk result (λ shaped. shaped ≡ shaped_at (locate_in locations.now) block way.now) }
{
    let shape = way_along(alloc, locations, way.refs.as_slice())?;
    Ok(Shaped {
        place: Place {
            block,
            index: way.index,
        },
        shape,
    })
}
