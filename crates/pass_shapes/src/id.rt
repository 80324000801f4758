ghost use Rattle.std.specs.Prelude.{◌≡◌};
ghost use Rattle.tile_model.specs.Rows.{feature_id, kind_digit};

use tb_types::{Kind, OsmId};

/// The id of an element's features: ten times its own and one for a node, two for a way, three for a relation; 0 where its own
/// isn't positive or that is no number of 64 bits.
pub fn feature_id(kind: Kind, id: OsmId) -> u64
    ensures { result ≡ feature_id kind id.0 }
{
    if id.0 <= 0 {
        return 0;
    }
    match (id.0 as u64).checked_mul(10) {
        Some(n) => n.checked_add(digit(kind)).unwrap_or(0),
        None => 0,
    }
}

fn digit(kind: Kind) -> u64
    ensures { result ≡ kind_digit kind }
{
    match kind {
        Kind::Node => 1,
        Kind::Way => 2,
        Kind::Relation => 3,
    }
}
