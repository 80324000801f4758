ghost use Rattle.std.specs.Prelude.{◌≡◌, ℕ, ◌+◌, ◌*◌, ◌^◌, ◌≤◌, ◌<◌, ◌++◌, length, vec_len, vec_capacity, OnOk, OnErr};
ghost use Rattle.tb_wire.specs.Varint.{encoding, encoding_within};
ghost use Rattle.tb_wire.specs.Message.{len_text};
ghost use Rattle.tb_wire.specs.Again.{VarintsAreReadAgain, FieldsAreReadAgain};

use tb_types::Memory;

/// The bytes that a varint takes at most.
const VARINT_BYTES: usize = 10;

/// Appends the shortest encoding of a number. Where that is refused, `out` is as it was.
#[tactic(auto, unfolding(crate::specs::Varint::encoding))]
pub fn put_varint(out: &mut Vec<u8>, v: u64) -> Result<(), Memory>
    ensures ok { OnOk result (out.new.items ≡ out.old.items ++ encoding v) }
    ensures err { OnErr result (out.new.items ≡ out.old.items) }
{
    out.reserve(VARINT_BYTES)?;
    put_within(out, v, VARINT_BYTES - 1);
    Ok(())
}

/// Appends a field whose value is bytes: its tag, their number and they themselves. Where that is refused, `out` is as
/// it was. A field's number is 1 to 2^29 - 1; another isn't read again.
#[tactic(auto, unfolding(crate::specs::Varint::encoding, crate::specs::Message::len_text))]
pub fn put_len(out: &mut Vec<u8>, number: u32, body: &[u8]) -> Result<(), Memory>
    ensures ok { OnOk result (out.new.items ≡ out.old.items ++ len_text number body.now) }
    ensures err { OnErr result (out.new.items ≡ out.old.items) }
{
    out.reserve(2 * VARINT_BYTES + body.len())?;
    put_within(out, u64::from(number) * 8 + 2, VARINT_BYTES - 1);
    put_within(out, body.len() as u64, VARINT_BYTES - 1);
    out.extend_from_slice(body)?;
    Ok(())
}

// Appends the shortest encoding of a number that takes at most `more` and one bytes.
fn put_within(out: &mut Vec<u8>, v: u64, more: usize)
    requires room { vec_len out.old + more < vec_capacity out.old }
    requires few { more ≤ 9 }
    requires small { v < 2 ^ (7 * more + 1) }
    ensures text { out.new.items ≡ out.old.items ++ encoding_within more v }
    ensures len { vec_len out.new ≤ vec_len out.old + more + 1 }
    ensures capacity { vec_capacity out.new ≡ vec_capacity out.old }
{
    if more == 0 || v < 128 {
        out.push_reserved(v as u8);
        return;
    }
    out.push_reserved((v % 128) as u8 + 128);
    put_within(out, v / 128, more - 1);
}

/// A varint that is put is read again as the same number, whatever stands before and behind it.
pub fn varints_are_read_again()
    ensures { VarintsAreReadAgain }
{}

/// A field of bytes that is put is read again as the same field, whatever stands before and behind it.
pub fn fields_are_read_again()
    ensures { FieldsAreReadAgain }
{}
