ghost use Rattle.std.specs.Prelude.{◌≡◌, ◌^◌, ◌≤◌, length, vec_len, IfOk, IfSome};
ghost use Rattle.pbf_blobs.specs.Answers.{ScanAnswers};

use crate::block::{Index, is_header};
use crate::frame::block_at;
use crate::numbers::{LONGEST_FILE, LONGEST_HEADER};
use crate::stop::{ScanStop, damage_at, stop_of};
use std::alloc::Global;
use tb_outside::Source;
use tb_types::{Memory, Seq, Why};

/// The blocks of an extract (fileformat.proto): the frames of its bytes, or the first fault of them, frame after frame.
///
/// It asks for the size, and then for the length of each header and for that header, and loads no byte of a body.
/// `Failed` comes only where the source's count rose, `Damage` exactly where the frames have a fault. The numbers of the
/// blocks ascend from 0, a body has at most 33,619,968 bytes, an extract at most 2^24 frames and 2^40 bytes.
pub fn scan<R: Source>(alloc: Global, source: &mut R) -> Result<Index, ScanStop>
    ensures { ScanAnswers (R.seen source.old) (R.seen source.new) result }
{
    let mut room = header_room(alloc)?;
    let size = match source.size() {
        Ok(size) => size,
        Err(_) => return Err(ScanStop::Failed),
    };
    if size > LONGEST_FILE {
        return Err(damage_at(0, Why::FileLong));
    }
    scan_within(alloc, source, size, &mut room)
}

// Room for any header.
fn header_room(alloc: Global) -> Result<Vec<u8>, Memory>
    ensures { IfOk result (λ room. vec_len room ≡ 65535) }
{
    let room = vec![in alloc; 0u8; LONGEST_HEADER as usize]?;
    Ok(room)
}

// The blocks of an extract that isn't too long. The room serves for one header after another.
fn scan_within<R: Source>(
    alloc: Global,
    source: &mut R,
    size: u64,
    room: &mut [u8],
) -> Result<Index, ScanStop>
    requires small { size ≤ 2 ^ 40 }
    requires told { IfSome (R.seen source.old).bytes (λ bytes. length bytes ≡ size) }
    requires room { length room.old ≡ 65535 }
    ensures { ScanAnswers (R.seen source.old) (R.seen source.new) result }
{
    let mut blocks = Seq::new(alloc);
    let mut no = 0;
    let mut at = 0;
    let mut headed = false;
    while at < size {
        let block = match block_at(source, size, no, at, headed, room) {
            Ok(block) => block,
            Err(stop) => return Err(stop_of(no, stop)),
        };
        blocks.push(block)?;
        headed |= is_header(block.kind);
        at = block.at + u64::from(block.len);
        no += 1;
    }
    if !headed {
        return Err(damage_at(no, Why::NoHeader));
    }
    Ok(Index { blocks })
}
