//! What holds of every list of entries that was put.
ghost use Rattle.node_store.specs.Order.{located_order, shaped_order};
ghost use Rattle.node_store.specs.Greatest.{GreatestDecides};

/// The join of what was put under an id is one of the nodes, or of the ways, that were put there, and none was put there at a
/// greater place.
pub fn greatest_place_decides()
    ensures nodes { GreatestDecides located_order (λ node. node.place) }
    ensures ways { GreatestDecides shaped_order (λ way. way.place) }
{}
