use ring_assembly::Polygon;
use tb_types::{Kind, OsmId, Place, Seq, World};

/// A feature's geometry in the world: the point of a node, the line of a way, or the polygons of an area.
#[derive(Debug, Drop)]
pub enum WorldShape {
    Point(World),
    Line(Seq<World>),
    Area(Seq<Polygon>),
}

/// An element as far as its features tell of it: its kind, its place in the extract and its id.
#[derive(Clone, Copy, Debug, PartialEq, Eq)]
pub struct Origin {
    pub kind: Kind,
    pub place: Place,
    pub id: OsmId,
}
