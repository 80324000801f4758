ghost use Rattle.osm_elements.specs.Worked.{Worked, NothingDropped};

/// The worked cases that the definitions were checked on: blocks with their elements or their first reason, the tags of
/// dense nodes, and lists that belong together and differ in length.
pub fn worked_cases()
    ensures { Worked }
{}

/// No definition drops what doesn't fit: where dense nodes are read, each id has a node, a latitude, a longitude and, where
/// there are pairs, a run; where a relation is read, each id has a member and a kind.
pub fn nothing_dropped()
    ensures { NothingDropped }
{}
