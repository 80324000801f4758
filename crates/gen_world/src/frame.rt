ghost use Rattle.std.specs.Prelude.{◌≡◌, ◌≤◌, ◌++◌, length, IfOk};
ghost use Rattle.gen_world.specs.Frames.{frame_text, head_text, header_frame, data_frame};

use crate::field::{BODY_RAW, DATA, FRAME_KIND, FRAME_SIZE, HEADER, REQUIRED_FEATURE};
use crate::put::put_number;
use std::alloc::Global;
use tb_types::Memory;
use tb_wire::put_len;

/// The frame of the header of the extract.
#[tactic(auto, unfolding(crate::specs::Frames::header_frame))]
pub fn header_frame(alloc: Global) -> Result<Vec<u8>, Memory>
    ensures { IfOk result (λ v. v.items ≡ header_frame) }
{
    let mut block = Vec::new(alloc);
    put_len(&mut block, REQUIRED_FEATURE, b"OsmSchema-V0.6")?;
    put_len(&mut block, REQUIRED_FEATURE, b"DenseNodes")?;
    frame_of(alloc, HEADER, &block)
}

/// The frame of a block of data.
pub fn data_frame(alloc: Global, block: &[u8]) -> Result<Vec<u8>, Memory>
    ensures { IfOk result (λ v. v.items ≡ data_frame block.now) }
{
    frame_of(alloc, DATA, block)
}

// A frame of a kind, whose name has at most 16 bytes, and a raw block.
#[tactic(auto, using(std::proofs::Common::append_assoc), unfolding(crate::specs::Frames::frame_text))]
fn frame_of(alloc: Global, kind: &[u8], block: &[u8]) -> Result<Vec<u8>, Memory>
    requires { length kind.now ≤ 16 }
    ensures { IfOk result (λ v. v.items ≡ frame_text kind.now block.now) }
{
    let mut body = Vec::new(alloc);
    put_len(&mut body, BODY_RAW, block)?;
    let head = head_of(alloc, kind, body.len() as u64)?;
    let mut frame = Vec::with_capacity(alloc, head.len() + body.len() + 4)?;
    frame.extend_from_slice(&(head.len() as u32).to_be_bytes())?;
    frame.extend_from_slice(&head)?;
    frame.extend_from_slice(&body)?;
    Ok(frame)
}

// The header of a frame.
#[tactic(auto, using(std::proofs::Common::append_assoc), unfolding(crate::specs::Frames::head_text))]
fn head_of(alloc: Global, kind: &[u8], size: u64) -> Result<Vec<u8>, Memory>
    requires { length kind.now ≤ 16 }
    ensures text { IfOk result (λ v. v.items ≡ head_text kind.now size) }
    ensures len { IfOk result (λ v. length v.items ≤ 64) }
{
    let mut head = Vec::new(alloc);
    put_len(&mut head, FRAME_KIND, kind)?;
    put_number(&mut head, FRAME_SIZE, size)?;
    Ok(head)
}
