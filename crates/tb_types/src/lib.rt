//! Shared words: takes nothing, gives the lists, texts and plain values that all other crates speak of.
//!
//! Read `seq` and `text` (what contracts see as lists), then `element`, `location`, `tile` and `shape` (what an
//! extract holds and a tile shows), `point` and `ring` (paths and rings of any points), `signed`, then `damage` and `trouble`
//! (why a build is refused) and `orders`. `specs/Clean` has the form of a shape after clean-up, `specs/Results` how readers
//! go on and what code gives of a definition, `specs/Seats` the count of the seats that are out.
#![tactic(auto)]

mod attribute;
mod damage;
mod element;
mod location;
mod memory;
mod orders;
mod point;
mod ring;
mod seq;
mod shape;
mod signed;
mod text;
mod tile;
mod trouble;
mod worked;

pub use attribute::{Attr, AttrValue, FieldKind, Tags};
pub use damage::{Damage, Why};
pub use element::{Kind, OsmId, Place};
pub use location::{Bounds, Grid, LatLon, World};
pub use memory::Memory;
pub use orders::{compare_objects, compare_places};
pub use point::Point;
pub use ring::{doubled_area, is_same, ring_without_repeats, without_repeats};
pub use seq::Seq;
pub use shape::{GridPolygon, Shape};
pub use signed::{unzigzag, zigzag};
pub use text::Text;
pub use tile::{EXTENT, TileId, TileXyz};
pub use trouble::{Stage, Trouble, Whom};
pub use worked::{ring_laws, worked_points};
