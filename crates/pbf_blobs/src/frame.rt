ghost use Rattle.std.specs.Prelude.{◌≡◌, ◌+◌, ◌^◌, ◌≤◌, ◌<◌, length, slice_range, IfOk, IfSome};
ghost use Rattle.pbf_blobs.specs.Header.{header_of};
ghost use Rattle.pbf_blobs.specs.Frames.{header_len_at, frame_at, block_at};
ghost use Rattle.pbf_blobs.specs.Answers.{ReadAnswers, IsInHead, FitsFrame};

use crate::block::{BlockAt, is_elements};
use crate::header::{Header, header_of};
use crate::numbers::{LENGTH_BYTES, LONGEST_HEADER, MOST_FRAMES};
use crate::stop::FrameStop;
use tb_outside::Source;
use tb_types::Why;

/// The block of the frame with this number that begins at a place of an extract of `size` bytes; `headed` where a header
/// frame came before. `FileLong` at frame 2^24, `NoHeader` where elements stand before any header, and else why the bytes
/// are no frame. `room` serves for its header.
pub(crate) fn block_at<R: Source>(
    source: &mut R,
    size: u64,
    no: u32,
    at: u64,
    headed: bool,
    room: &mut [u8],
) -> Result<BlockAt, FrameStop>
    requires within { at ≤ size }
    requires small { size ≤ 2 ^ 40 }
    requires told { IfSome (R.seen source.old).bytes (λ bytes. length bytes ≡ size) }
    requires room { length room.old ≡ 65535 }
    ensures answers { ReadAnswers (R.seen source.old) (R.seen source.new) result (λ bytes. block_at bytes no at headed) (λ bytes load. IsInHead bytes at load) }
    ensures fits { IfOk result (λ block. FitsFrame size no at block) }
    ensures few { IfOk result (λ block. no < 2 ^ 24) }
{
    if no >= MOST_FRAMES {
        return Err(FrameStop::Bad(Why::FileLong));
    }
    let block = match frame_at(source, size, no, at, room) {
        Ok(block) => block,
        Err(stop) => return Err(stop),
    };
    let elements = is_elements(block.kind);
    if elements && !headed {
        return Err(FrameStop::Bad(Why::NoHeader));
    }
    Ok(block)
}

// The block of a frame, whatever came before it.
fn frame_at<R: Source>(
    source: &mut R,
    size: u64,
    no: u32,
    at: u64,
    room: &mut [u8],
) -> Result<BlockAt, FrameStop>
    requires within { at ≤ size }
    requires small { size ≤ 2 ^ 40 }
    requires told { IfSome (R.seen source.old).bytes (λ bytes. length bytes ≡ size) }
    requires room { length room.old ≡ 65535 }
    ensures answers { ReadAnswers (R.seen source.old) (R.seen source.new) result (λ bytes. frame_at bytes no at) (λ bytes load. IsInHead bytes at load) }
    ensures fits { IfOk result (λ block. FitsFrame size no at block) }
{
    let len = match header_len(source, size, at) {
        Ok(len) => len,
        Err(stop) => return Err(stop),
    };
    let from = at + LENGTH_BYTES;
    let body = from + u64::from(len);
    if size < body {
        return Err(FrameStop::Bad(Why::Cut));
    }
    let header = match header_at(source, from, len, room) {
        Ok(header) => header,
        Err(stop) => return Err(stop),
    };
    if size < body + u64::from(header.len) {
        return Err(FrameStop::Bad(Why::Cut));
    }
    Ok(BlockAt {
        no,
        at: body,
        len: header.len,
        kind: header.kind,
    })
}

// The length of the header of the frame that begins at a place.
fn header_len<R: Source>(source: &mut R, size: u64, at: u64) -> Result<u32, FrameStop>
    requires within { at ≤ size }
    requires small { size ≤ 2 ^ 40 }
    requires told { IfSome (R.seen source.old).bytes (λ bytes. length bytes ≡ size) }
    ensures answers { ReadAnswers (R.seen source.old) (R.seen source.new) result (λ bytes. header_len_at bytes at) (λ _ load. load ≡ (at, 4)) }
    ensures len { IfOk result (λ len. len ≤ 65535) }
{
    if size < at + LENGTH_BYTES {
        return Err(FrameStop::Bad(Why::Cut));
    }
    let mut bytes = [0u8; 4];
    match source.load(at, &mut bytes) {
        Ok(()) => {}
        Err(_) => return Err(FrameStop::Failed),
    }
    let len = u32::from_be_bytes(bytes);
    if len > LONGEST_HEADER {
        return Err(FrameStop::Bad(Why::HeaderLong));
    }
    Ok(len)
}

// The header of this length at a place.
fn header_at<R: Source>(
    source: &mut R,
    at: u64,
    len: u32,
    room: &mut [u8],
) -> Result<Header, FrameStop>
    requires within { IfSome (R.seen source.old).bytes (λ bytes. at + len ≤ length bytes) }
    requires room { len ≤ length room.old }
    ensures answers { ReadAnswers (R.seen source.old) (R.seen source.new) result (λ bytes. header_of (slice_range bytes at (at + len))) (λ _ load. load ≡ (at, len)) }
    ensures short { IfOk result (λ header. header.len ≤ 33619968) }
{
    let bytes = &mut room[..len as usize];
    match source.load(at, bytes) {
        Ok(()) => {}
        Err(_) => return Err(FrameStop::Failed),
    }
    match header_of(bytes) {
        Ok(header) => Ok(header),
        Err(why) => Err(FrameStop::Bad(why)),
    }
}
