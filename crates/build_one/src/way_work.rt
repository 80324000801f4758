ghost use Rattle.std.specs.Prelude.{◌≡◌};
ghost use Rattle.profile_rules.specs.Sound.{IsSound};
ghost use Rattle.build_one.specs.Props.{profile_props};

use feature_runs::RunBuffer;
use member_sets::NeededWays;
use node_store::{Locations, Shaped};
use profile_rules::Profile;
use std::alloc::Global;
use tb_types::OsmId;

/// Gives needed ways their shapes, and emits the items of all ways.
pub struct WayWork<'a, S> {
    pub buffer: &'a mut RunBuffer,
    pub spill: &'a mut S,
    pub entries: &'a mut Vec<(OsmId, Shaped)>,
    pub alloc: Global,
    pub profile: &'a Profile,
    pub needed: &'a NeededWays,
    pub locations: &'a Locations,
    ghost sound: { IsSound profile.now } by { Prim.hlevel profile_props },
}

impl<'a, S> Drop for WayWork<'a, S> {
    fn drop(self)
        ensures buffer { self.exit.0.now ≡ self.entry.buffer.now }
        ensures spill { self.exit.1.0.now ≡ self.entry.spill.now }
        ensures entries { self.exit.1.1.0.now ≡ self.entry.entries.now }
    {
        let Self {
            buffer: _,
            spill: _,
            entries: _,
            alloc: _,
            profile: _,
            needed: _,
            locations: _,
        } = self;
    }
}
