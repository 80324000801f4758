ghost use Rattle.hilbert_ids.specs.Ids.{OneToOne, KnownIds};

/// The law of ids: tiles and the numbers below (4^27 - 1) / 3 stand one to one. So `xyz_of` of a tile's id is that tile,
/// and `id_of` of an id's tile is that id.
pub fn ids_are_inverse()
    ensures one_to_one { OneToOne }
    ensures known { KnownIds }
{}
