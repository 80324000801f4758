ghost use Rattle.std.specs.Prelude.{◌≡◌, ℕ, ◌+◌, ◌*◌, ◌^◌, ◌≤◌, ◌<◌, length, IfOk};
ghost use Rattle.tb_wire.specs.Varint.{varint_at, varint_of};

/// Why bytes are no field of a message.
#[derive(Clone, Copy, Debug, PartialEq, Eq)]
pub enum Wire {
    /// They end inside it.
    Cut,
    /// A varint has more than ten bytes, or a tenth above 1, so it passes 64 bits.
    Long,
    /// No field begins so: its number is 0 or above 2^29 - 1, or its wire type is none of 0, 1, 2 and 5.
    Tag,
}

/// The bytes of a varint after its first one, at most.
const MORE_BYTES: usize = 9;

/// The varint at the place `at`, and the place after it (Protocol Buffers, "Base 128 Varints"). A longer encoding than
/// needed is read too. `Cut` where the bytes end inside it, `Long` where it passes 64 bits.
#[tactic(auto, unfolding(crate::specs::Varint::varint))]
pub fn read_varint(bytes: &[u8], at: usize) -> Result<(u64, usize), Wire>
    requires { at ≤ length bytes.now }
    ensures exact { result ≡ varint_at bytes.now at }
    ensures within { IfOk result (λ found. (at < found.1) × (found.1 ≤ length bytes.now)) }
{
    let (value, len) = first_number(&bytes[at..], MORE_BYTES)?;
    Ok((value, at + len))
}

// The varint at the start, of at most `more` and one bytes.
fn first_number(bytes: &[u8], more: usize) -> Result<(u64, usize), Wire>
    requires { more ≤ 9 }
    ensures exact { result ≡ varint_of more bytes.now }
    ensures small { IfOk result (λ found. found.0 < 2 ^ (7 * more + 1)) }
    ensures within { IfOk result (λ found. (0 < found.1) × (found.1 ≤ length bytes.now)) }
{
    match bytes {
        [] => Err(Wire::Cut),
        [byte, rest @ ..] => {
            let low = u64::from(*byte);
            if more == 0 {
                return if low > 1 {
                    Err(Wire::Long)
                } else {
                    Ok((low, 1))
                };
            }
            if low < 128 {
                return Ok((low, 1));
            }
            let (high, len) = first_number(rest, more - 1)?;
            Ok((low - 128 + 128 * high, len + 1))
        }
    }
}
