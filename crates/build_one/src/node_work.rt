ghost use Rattle.std.specs.Prelude.{◌≡◌};
ghost use Rattle.profile_rules.specs.Sound.{IsSound};
ghost use Rattle.build_one.specs.Props.{profile_props};

use feature_runs::RunBuffer;
use int_mercator::Table;
use member_sets::NeededNodes;
use node_store::Located;
use profile_rules::Profile;
use std::alloc::Global;
use tb_types::OsmId;

/// Locates needed nodes, and emits the items of all nodes.
pub struct NodeWork<'a, S> {
    pub buffer: &'a mut RunBuffer,
    pub spill: &'a mut S,
    pub entries: &'a mut Vec<(OsmId, Located)>,
    pub alloc: Global,
    pub profile: &'a Profile,
    pub table: &'a Table,
    pub needed: &'a NeededNodes,
    ghost sound: { IsSound profile.now } by { Prim.hlevel profile_props },
}

impl<'a, S> Drop for NodeWork<'a, S> {
    fn drop(self)
        ensures buffer { self.exit.0.now ≡ self.entry.buffer.now }
        ensures spill { self.exit.1.0.now ≡ self.entry.spill.now }
        ensures entries { self.exit.1.1.0.now ≡ self.entry.entries.now }
    {
        let Self {
            buffer: _,
            spill: _,
            entries: _,
            alloc: _,
            profile: _,
            table: _,
            needed: _,
        } = self;
    }
}
