ghost use Rattle.std.specs.Prelude.{◌≡◌, ◌<◌, ◌≤◌, length, IfOk};
ghost use Rattle.tb_wire.specs.Varint.{varint_at};

use tb_wire::{Wire, read_varint};

/// The varint at a place, as `read_varint` reads it. Most have one byte or two.
#[inline]
pub(crate) fn next_varint(bytes: &[u8], at: usize) -> Result<(u64, usize), Wire>
    requires { at < length bytes.now }
    ensures exact { result ≡ varint_at bytes.now at }
    ensures within { IfOk result (λ found. (at < found.1) × (found.1 ≤ length bytes.now)) }
{
    let byte = bytes[at];
    if byte < 128 {
        return Ok((u64::from(byte), at + 1));
    }
    if bytes.len() - at > 1 {
        let second = bytes[at + 1];
        if second < 128 {
            return Ok((u64::from(byte) - 128 + 128 * u64::from(second), at + 2));
        }
    }
    read_varint(bytes, at)
}
