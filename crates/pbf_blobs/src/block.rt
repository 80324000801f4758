ghost use Rattle.std.specs.Prelude.{◌≡◌};
ghost use Rattle.pbf_blobs.specs.Kinds.{is_header, is_elements};

use tb_types::Seq;

/// What a block holds, by the type in its frame's header.
#[derive(Clone, Copy, Debug, PartialEq, Eq)]
pub enum BlockKind {
    /// `OSMHeader`.
    Header,
    /// `OSMData`.
    Elements,
    /// Any other type. Its body is skipped.
    Other,
}

/// It is that of a header frame.
pub(crate) fn is_header(kind: BlockKind) -> bool
    ensures { result ≡ is_header kind }
{
    matches!(kind, BlockKind::Header)
}

/// It is that of a data frame.
pub(crate) fn is_elements(kind: BlockKind) -> bool
    ensures { result ≡ is_elements kind }
{
    matches!(kind, BlockKind::Elements)
}

/// Where the body of a frame lies.
#[derive(Clone, Copy, Debug, PartialEq, Eq)]
pub struct BlockAt {
    /// The number of the frame, counted from 0.
    pub no: u32,
    /// The place of the body's first byte in the extract.
    pub at: u64,
    /// The bytes of the body.
    pub len: u32,
    pub kind: BlockKind,
}

/// The blocks of an extract, in file order.
#[derive(Debug, Drop)]
pub struct Index {
    pub blocks: Seq<BlockAt>,
}
