ghost use Rattle.std.specs.Prelude.{◌≡◌, ◌++◌, OnOk};
ghost use Rattle.pass_shapes.specs.Stores.{is_needed, located_at, located_in};

use crate::points::point_of;
use int_mercator::Table;
use member_sets::NeededNodes;
use node_store::Located;
use osm_elements::NodeEl;
use tb_types::{Memory, OsmId, Place};

/// Adds what is known of the needed nodes among those of a block: each with its place, and its point if it has a location.
#[tactic(auto, using(crate::proofs::Walks::located_next, crate::proofs::Walks::located_not))]
pub fn put_located(
    entries: &mut Vec<(OsmId, Located)>,
    needed: &NeededNodes,
    table: &Table,
    block: u32,
    nodes: &[NodeEl],
) -> Result<(), Memory>
    ensures { OnOk result (entries.new.items ≡ entries.old.items ++ located_in needed.now block nodes.now) }
{
    for node in nodes {
        if needed.has(node.id) {
            entries.push((node.id, located_at(table, block, node)))?;
        }
    }
    Ok(())
}

// A node's place, and its point if it has a location.
fn located_at(table: &Table, block: u32, node: &NodeEl) -> Located
    ensures { result ≡ located_at block node.now }
{
    Located {
        place: Place {
            block,
            index: node.index,
        },
        at: point_of(table, node),
    }
}
