ghost use Rattle.std.specs.Prelude.{◌≡◌};
ghost use Rattle.archive_text.specs.Spans.{span_of};

use pmtiles_read::DirEntry;

/// Where a content lies in the tile section of its archive, and how many bytes it has.
#[derive(Clone, Copy, Debug, PartialEq, Eq, Hash)]
pub struct Span {
    pub offset: u64,
    pub len: u32,
}

/// Where the content of an entry lies.
pub fn span_of(e: DirEntry) -> Span
    ensures { result ≡ span_of e }
{
    Span {
        offset: e.offset,
        len: e.len,
    }
}
