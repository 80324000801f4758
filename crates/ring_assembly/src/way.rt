ghost use Rattle.std.specs.Prelude.{◌≡◌};
ghost use Rattle.ring_assembly.specs.Chains.{same_node};

use tb_types::{OsmId, Seq, World};

/// A way whose nodes all have locations: its first and its last node, and its points in order.
#[derive(Debug, Drop)]
pub struct WayShape {
    pub first: OsmId,
    pub last: OsmId,
    pub points: Seq<World>,
}

// Whether two ids are of one node.
pub fn is_same_node(a: OsmId, b: OsmId) -> bool
    ensures { result ≡ same_node a b }
{
    a.0 == b.0
}
