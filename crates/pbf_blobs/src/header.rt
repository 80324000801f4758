ghost use Rattle.std.specs.Prelude.{◌≡◌, ◌≤◌, IfOk};
ghost use Rattle.pbf_blobs.specs.Header.{kind_of, header_of};
ghost use Rattle.pbf_blobs.specs.Messages.{header_by, seen};

use crate::block::BlockKind;
use crate::message::{Found, Message, find};
use crate::numbers::LONGEST_BODY;
use tb_types::Why;

/// What the header of a frame says of its body.
#[derive(Clone, Copy)]
pub(crate) struct Header {
    pub kind: BlockKind,
    pub len: u32,
}

/// The kind and the length of a body, by the header of its frame (fileformat.proto, BlobHeader). `Wire` where that is no
/// message or a known field has another wire type than its own, `Missing` where type or datasize is missing, `BlobLong`
/// where datasize, the low 32 bits of its varint as a signed number, is negative or above 33,619,968.
pub(crate) fn header_of(bytes: &[u8]) -> Result<Header, Why>
    ensures exact { result ≡ header_of bytes.now }
    ensures short { IfOk result (λ header. header.len ≤ 33619968) }
{
    match find(Message::BlobHeader, bytes) {
        Ok(found) => header_by(found),
        Err(_) => Err(Why::Wire),
    }
}

// The header, by what was found in all its fields.
fn header_by(found: Found<'_>) -> Result<Header, Why>
    ensures exact { result ≡ header_by (seen found.entry) }
    ensures short { IfOk result (λ header. header.len ≤ 33619968) }
{
    if found.mistyped {
        return Err(Why::Wire);
    }
    let Some(name) = found.text else {
        return Err(Why::Missing);
    };
    let kind = kind_of(name);
    let Some(size) = found.number else {
        return Err(Why::Missing);
    };
    let len = (size % (1 << 32)) as u32;
    if len > LONGEST_BODY {
        return Err(Why::BlobLong);
    }
    Ok(Header { kind, len })
}

fn kind_of(name: &[u8]) -> BlockKind
    ensures { result ≡ kind_of name.now }
{
    if name == b"OSMHeader".as_slice() {
        return BlockKind::Header;
    }
    if name == b"OSMData".as_slice() {
        return BlockKind::Elements;
    }
    BlockKind::Other
}
