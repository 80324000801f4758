use profile_rules::Spec;
use tb_types::{OsmId, Place, Seq};

/// A relation that the profile keeps: its place in the extract, its id, the ids of the ways that are its members, in
/// their order, and the specs that the profile's rules make of it.
#[derive(Drop)]
pub struct KeptRelation {
    pub place: Place,
    pub id: OsmId,
    pub members: Seq<OsmId>,
    pub specs: Seq<Spec>,
}
