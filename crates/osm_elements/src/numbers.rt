//! Numbers of the fields of the format's messages (osmformat.proto), and limits.

/// HeaderBlock.
pub(crate) const HEADER_BOX: u32 = 1;

pub(crate) const HEADER_FEATURE: u32 = 4;

/// HeaderBBox.
pub(crate) const BOX_LEFT: u32 = 1;

pub(crate) const BOX_RIGHT: u32 = 2;

pub(crate) const BOX_TOP: u32 = 3;

pub(crate) const BOX_BOTTOM: u32 = 4;

/// PrimitiveBlock.
pub(crate) const BLOCK_TABLE: u32 = 1;

pub(crate) const BLOCK_GROUP: u32 = 2;

pub(crate) const BLOCK_GRANULARITY: u32 = 17;

pub(crate) const BLOCK_LAT_OFFSET: u32 = 19;

pub(crate) const BLOCK_LON_OFFSET: u32 = 20;

/// StringTable.
pub(crate) const TABLE_STRING: u32 = 1;

/// PrimitiveGroup.
pub(crate) const GROUP_NODE: u32 = 1;

pub(crate) const GROUP_DENSE: u32 = 2;

pub(crate) const GROUP_WAY: u32 = 3;

pub(crate) const GROUP_RELATION: u32 = 4;

/// Node, Way and Relation.
pub(crate) const ELEMENT_ID: u32 = 1;

pub(crate) const ELEMENT_KEYS: u32 = 2;

pub(crate) const ELEMENT_VALUES: u32 = 3;

/// Node and DenseNodes.
pub(crate) const NODE_LAT: u32 = 8;

pub(crate) const NODE_LON: u32 = 9;

/// DenseNodes.
pub(crate) const DENSE_IDS: u32 = 1;

pub(crate) const DENSE_TAGS: u32 = 10;

/// Way.
pub(crate) const WAY_REFS: u32 = 8;

/// Relation.
pub(crate) const RELATION_IDS: u32 = 9;

pub(crate) const RELATION_KINDS: u32 = 10;

/// The numbers of the kinds of a relation's member.
pub(crate) const KIND_NODE: u64 = 0;

pub(crate) const KIND_WAY: u64 = 1;

pub(crate) const KIND_RELATION: u64 = 2;

/// The unit of a location where the block names none, in nanodegrees.
pub(crate) const USUAL_UNIT: i64 = 100;

/// 90 and 180 degrees, in nanodegrees.
pub(crate) const LARGEST_LAT: u128 = 90_000_000_000;

pub(crate) const LARGEST_LON: u128 = 180_000_000_000;

/// The same, for the numbers of a box.
pub(crate) const LARGEST_BOX_LAT: u64 = 90_000_000_000;

pub(crate) const LARGEST_BOX_LON: u64 = 180_000_000_000;

/// The elements of a block, whose numbers have 32 bits.
pub(crate) const MOST_ELEMENTS: u64 = 1 << 32;
