//! Geometry of tiles: takes a feature's shape, gives its command and parameter integers, and takes such integers, gives the shape.
//!
//! Integers are read in three steps: paths by their commands (`path`), their points by the differences from a cursor
//! (`points`), and the polygons of rings by their areas (`polygons`); `read` puts them together. `form` asks for the
//! commands alone, without taking memory. `put` writes, and `laws` says that what is written is read again.
#![tactic(auto)]

mod form;
mod laws;
mod numbers;
mod path;
mod points;
mod polygons;
mod put;
mod read;

pub use form::has_form;
pub use laws::{
    geometry_has_its_form, geometry_is_read_again, near_shapes_are_drawable, worked_geometry,
};
pub use numbers::{LINE, POINT, POLYGON, UNKNOWN};
pub use put::put_geometry;
pub use read::read_geometry;

#[cfg(test)]
mod tests;
