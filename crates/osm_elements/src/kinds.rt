ghost use Rattle.std.specs.Prelude.{◌≡◌};
ghost use Rattle.osm_elements.specs.Kinds.{kinds_of};

use crate::element::{Block, Kinds};

/// Which kinds of element a block has: those with at least one element.
pub fn kinds_of(block: &Block) -> Kinds
    ensures { result ≡ kinds_of block.now }
{
    Kinds {
        nodes: block.nodes.as_slice().len() > 0,
        ways: block.ways.as_slice().len() > 0,
        relations: block.relations.as_slice().len() > 0,
    }
}
