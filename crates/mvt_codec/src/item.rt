use crate::row::TileRow;
use tb_types::{Kind, Place, Seq, TileId};

/// What decides the place of a row among all rows of all tiles: its tile's id, and in the tile the number of its layer, the
/// order of its rule, the kind and place of its element, and its rule. Keys are ordered by these fields, in this order.
#[derive(Clone, Copy, Debug, PartialEq, Eq, PartialOrd, Ord)]
pub struct ItemKey {
    pub tile: u64,
    pub layer: u8,
    pub order: i16,
    pub kind: Kind,
    pub place: Place,
    pub rule: u16,
}

/// A row of a tile with its key.
#[derive(Debug, Drop)]
pub struct RunItem {
    pub key: ItemKey,
    pub row: TileRow,
}

/// The items of one tile in order of their keys, and the sum of their lengths in bytes.
#[derive(Debug, Drop)]
pub struct Group {
    pub tile: TileId,
    pub items: Seq<RunItem>,
    pub bytes: u64,
}
