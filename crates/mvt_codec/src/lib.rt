//! Tiles: takes the layers of a tile with their rows, gives its bytes, and takes bytes, gives the layers.
//!
//! Read `row` (what a tile is made of), then for writing from the whole to its parts `tile`, `layer`, `feature` and `value`.
//! A layer's `dictionary` has the `keys` and `values` that its features name by their places; `field`, `index` and `numbers`
//! are what all write. For reading likewise `read_tile`, `read_layer`, `read_feature` and `read_value`; `count_tile` goes the
//! same way and builds no rows, `packed` and `text` are what a field has, and `fault` why it hasn't. An `item` is a row with
//! the key that decides its place, keys have an `order`, and `group` makes the layers of the items of a tile.
#![tactic(auto)]

mod count_tile;
mod dictionary;
mod fault;
mod feature;
mod field;
mod group;
mod index;
mod item;
mod keys;
mod laws;
mod layer;
mod numbers;
mod order;
mod packed;
mod read_feature;
mod read_layer;
mod read_tile;
mod read_value;
mod row;
mod text;
mod tile;
mod value;
mod values;
mod worked;

pub use count_tile::count_rows;
pub use fault::TileErr;
pub use group::{encode_items, layers_of};
pub use item::{Group, ItemKey, RunItem};
pub use laws::{tiles_are_read_again, tiles_are_small};
pub use order::{
    compare_keys, keys_are_ordered, kind_as_number, order_as_number, rank_prefix, rank_suffix,
};
pub use read_tile::decode_tile;
pub use row::{LayerRows, TileRow};
pub use tile::encode_tile;
pub use value::put_value;
pub use worked::{worked_keys, worked_reads, worked_tiles};

#[cfg(test)]
mod group_tests;
#[cfg(test)]
mod read_tests;
#[cfg(test)]
mod tests;
