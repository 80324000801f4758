//! The numbers of fields (fileformat.proto), and the limits of what is read.

/// BlobHeader.type, a text.
pub(crate) const HEADER_TYPE: u32 = 1;

/// BlobHeader.indexdata, bytes that are skipped.
pub(crate) const HEADER_INDEXDATA: u32 = 2;

/// BlobHeader.datasize, the length of the body.
pub(crate) const HEADER_DATASIZE: u32 = 3;

/// Blob.raw, the block as it stands.
pub(crate) const BLOB_RAW: u32 = 1;

/// Blob.raw_size, a number that is ignored.
pub(crate) const BLOB_RAW_SIZE: u32 = 2;

/// Blob.zlib_data, the first of the fields with a compressed block.
pub(crate) const FIRST_COMPRESSED: u32 = 3;

/// Blob.zstd_data, the last of them.
pub(crate) const LAST_COMPRESSED: u32 = 7;

/// The bytes of the number before a header, which is its length.
pub(crate) const LENGTH_BYTES: u64 = 4;

/// The bytes that a header has at most.
pub(crate) const LONGEST_HEADER: u32 = 65_535;

/// The bytes that a body has at most.
pub(crate) const LONGEST_BODY: u32 = 33_619_968;

/// 32 MiB: a raw block has fewer bytes.
pub(crate) const RAW_LIMIT: usize = 33_554_432;

/// The bytes that an extract has at most.
pub(crate) const LONGEST_FILE: u64 = 1 << 40;

/// The frames that an extract has at most.
pub(crate) const MOST_FRAMES: u32 = 1 << 24;
