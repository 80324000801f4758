use tb_types::{Kind, LatLon, OsmId, Seq, Tags};

/// A node. `index` is its number among all elements of its block. Its location is missing where the extract gives one
/// out of 90 or 180 degrees.
#[derive(Debug, Drop)]
pub struct NodeEl {
    pub index: u32,
    pub id: OsmId,
    pub at: Option<LatLon>,
    pub tags: Tags,
}

/// A way, with the nodes that it goes coordinate.
#[derive(Debug, Drop)]
pub struct WayEl {
    pub index: u32,
    pub id: OsmId,
    pub tags: Tags,
    pub refs: Seq<OsmId>,
}

/// A member of a relation.
#[derive(Clone, Copy, Debug, PartialEq, Eq)]
pub struct Member {
    pub kind: Kind,
    pub id: OsmId,
}

/// A relation, with its members in their order.
#[derive(Debug, Drop)]
pub struct RelEl {
    pub index: u32,
    pub id: OsmId,
    pub tags: Tags,
    pub members: Seq<Member>,
}

/// The elements of a block, each kind in the order of their numbers.
#[derive(Debug, Drop)]
pub struct Block {
    pub nodes: Seq<NodeEl>,
    pub ways: Seq<WayEl>,
    pub relations: Seq<RelEl>,
}

/// Which kinds of element a block has.
#[derive(Clone, Copy, Debug, PartialEq, Eq)]
pub struct Kinds {
    pub nodes: bool,
    pub ways: bool,
    pub relations: bool,
}

/// A tag as it stands in the table of strings.
#[derive(Clone, Copy, Debug)]
pub struct TagRef<'a> {
    pub key: &'a str,
    pub value: &'a str,
}

/// An element as it is given to a taker, without its number in the block. What it names lies in the block, or in room that
/// serves for the next element again.
#[derive(Clone, Copy, Debug)]
pub enum AnyElement<'a> {
    Node(OsmId, Option<LatLon>, &'a [TagRef<'a>]),
    Way(OsmId, &'a [TagRef<'a>], &'a [OsmId]),
    Relation(OsmId, &'a [TagRef<'a>], &'a [Member]),
}
