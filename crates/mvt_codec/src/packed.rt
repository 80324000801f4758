ghost use Rattle.std.specs.Prelude.{◌≡◌, ◌<◌, ◌≤◌, length, IfOk};
ghost use Rattle.tb_wire.specs.Varint.{varint_at};
ghost use Rattle.tb_wire.specs.Field.{value_of};
ghost use Rattle.tb_wire.specs.Message.{packed_at};
ghost use Rattle.mvt_codec.specs.Messages.{if_read, low_32, number_in, numbers_in};
ghost use Rattle.mvt_codec.specs.Reading.{Gives, with_list, with_numbers};

use crate::fault::Fault;
use tb_wire::{FieldValue, Wire, read_varint};

/// The number of a field.
pub fn number_in(value: FieldValue<'_>) -> Result<u64, Fault>
    ensures { Gives (λ n. n) result (number_in (value_of value.entry)) }
{
    match value {
        FieldValue::Varint(n) => Ok(n),
        _ => Err(Fault::Bad),
    }
}

/// A number's low 32 bits.
pub fn low_32(n: u64) -> u32
    ensures { result ≡ low_32 n }
{
    (n % 0x1_0000_0000) as u32
}

/// Adds the numbers of a field, one or a packed list, of which the low 32 bits count.
pub fn put_numbers(out: &mut Vec<u32>, value: FieldValue<'_>) -> Result<(), Fault>
    ensures { Gives (λ _. out.new.items) result (with_list out.old.items (numbers_in (value_of value.entry))) }
{
    match value {
        FieldValue::Varint(n) => {
            out.push(low_32(n))?;
            Ok(())
        }
        FieldValue::Bytes(bytes) => put_packed(out, bytes),
        _ => Err(Fault::Bad),
    }
}

// Adds the numbers of a packed list.
fn put_packed(out: &mut Vec<u32>, bytes: &[u8]) -> Result<(), Fault>
    ensures { Gives (λ _. out.new.items) result (with_numbers out.old.items (if_read (packed_at bytes.now 0))) }
{
    let mut at = 0;
    while at < bytes.len() {
        match read_number(bytes, at) {
            Ok((n, next)) => {
                at = next;
                out.push(low_32(n))?;
            }
            Err(_) => return Err(Fault::Bad),
        }
    }
    Ok(())
}

// The varint at a place that isn't the end, and the place after it. Most have one byte or two, which are read here.
fn read_number(bytes: &[u8], at: usize) -> Result<(u64, usize), Wire>
    requires { at < length bytes.now }
    ensures exact { result ≡ varint_at bytes.now at }
    ensures within { IfOk result (λ found. (at < found.1) × (found.1 ≤ length bytes.now)) }
{
    let low = bytes[at];
    if low < 128 {
        return Ok((u64::from(low), at + 1));
    }
    if at + 1 < bytes.len() {
        let high = bytes[at + 1];
        if high < 128 {
            return Ok((u64::from(low) - 128 + 128 * u64::from(high), at + 2));
        }
    }
    read_varint(bytes, at)
}
