use crate::location::Grid;
use crate::seq::Seq;

/// A feature's geometry on a grid. A line that was not cut has one path.
#[derive(Debug, Drop)]
pub enum Shape {
    Point(Grid),
    Line(Seq<Seq<Grid>>),
    Area(Seq<GridPolygon>),
}

/// An outer ring and the rings that are holes in it. A ring's last point is joined to its first, which isn't repeated.
#[derive(Debug, Drop)]
pub struct GridPolygon {
    pub outer: Seq<Grid>,
    pub inners: Seq<Seq<Grid>>,
}
