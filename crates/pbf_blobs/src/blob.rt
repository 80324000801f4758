ghost use Rattle.std.specs.Prelude.{◌≡◌, ◌<◌, length, IfOk};
ghost use Rattle.pbf_blobs.specs.Blob.{seen_raw, raw_of};
ghost use Rattle.pbf_blobs.specs.Messages.{raw_by, seen};

use crate::message::{Found, Message, find};
use crate::numbers::RAW_LIMIT;
use tb_types::Why;

/// The raw block in the body of a frame (fileformat.proto, Blob). It takes no memory.
///
/// The reason is the first of these that holds anywhere in the body: `Wire` where it is no message or a known field has
/// another wire type than its own, `Compressed` where a field with a compressed block stands, `NoRaw` where no raw block
/// does, `Over32M` where the raw block has 33,554,432 bytes or more. Of several raw blocks the last counts.
pub fn raw_of(body: &[u8]) -> Result<&[u8], Why>
    ensures exact { seen_raw result ≡ raw_of body.now }
    ensures short { IfOk result (λ raw. length raw.now < 33554432) }
{
    match find(Message::Blob, body) {
        Ok(found) => raw_by(found),
        Err(_) => Err(Why::Wire),
    }
}

// The raw block, by what was found in all fields.
fn raw_by<'a>(found: Found<'a>) -> Result<&'a [u8], Why>
    ensures exact { seen_raw result ≡ raw_by (seen found.entry) }
    ensures short { IfOk result (λ raw. length raw.now < 33554432) }
{
    if found.mistyped {
        return Err(Why::Wire);
    }
    if found.compressed {
        return Err(Why::Compressed);
    }
    match found.text {
        None => Err(Why::NoRaw),
        Some(raw) => {
            if raw.len() >= RAW_LIMIT {
                return Err(Why::Over32M);
            }
            Ok(raw)
        }
    }
}
