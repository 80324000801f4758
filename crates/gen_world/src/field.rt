//! The numbers of fields that are written (fileformat.proto, osmformat.proto), and the kinds of frames.

/// BlobHeader.
pub const FRAME_KIND: u32 = 1;

pub const FRAME_SIZE: u32 = 3;

/// Blob.
pub const BODY_RAW: u32 = 1;

/// HeaderBlock.
pub const REQUIRED_FEATURE: u32 = 4;

/// PrimitiveBlock and its StringTable.
pub const BLOCK_STRINGS: u32 = 1;

pub const BLOCK_GROUP: u32 = 2;

pub const STRING: u32 = 1;

/// PrimitiveGroup.
pub const GROUP_DENSE: u32 = 2;

pub const GROUP_WAY: u32 = 3;

pub const GROUP_RELATION: u32 = 4;

/// DenseNodes.
pub const DENSE_ID: u32 = 1;

pub const DENSE_LAT: u32 = 8;

pub const DENSE_LON: u32 = 9;

pub const DENSE_TAGS: u32 = 10;

/// Way and Relation.
pub const ELEMENT_ID: u32 = 1;

pub const ELEMENT_KEYS: u32 = 2;

pub const ELEMENT_VALUES: u32 = 3;

pub const WAY_REFS: u32 = 8;

pub const RELATION_ROLES: u32 = 8;

pub const RELATION_MEMBERS: u32 = 9;

pub const RELATION_KINDS: u32 = 10;

/// The kinds of frames.
pub const HEADER: &[u8] = b"OSMHeader";

pub const DATA: &[u8] = b"OSMData";
