/// Why bytes of an extract are outside its format.
#[derive(Clone, Copy, Debug, PartialEq, Eq)]
pub enum Why {
    /// A length, a header or a body passes the end.
    Cut,
    /// A frame's header has 65,536 bytes or more.
    HeaderLong,
    /// A frame's body has a negative length or one above the limit.
    BlobLong,
    /// The extract has too many bytes or frames.
    FileLong,
    /// Elements stand before any header, or there is none.
    NoHeader,
    /// A message or a packed list isn't one.
    Wire,
    /// A required field is missing.
    Missing,
    /// A body is compressed.
    Compressed,
    /// A body has no raw block.
    NoRaw,
    /// A raw block has 32 MiB or more.
    Over32M,
    /// The extract requires a feature that isn't supported.
    Feature,
    /// Lists that belong together differ in length.
    Uneven,
    /// A string's index is past the table.
    Index,
    /// A number is out of its range.
    Range,
}

/// The damage of a block. Its number is that of its frame, counted from 0.
#[derive(Clone, Copy, Debug, PartialEq, Eq)]
pub struct Damage {
    pub block: u32,
    pub why: Why,
}
