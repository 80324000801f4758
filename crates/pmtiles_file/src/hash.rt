ghost use Rattle.std.specs.Prelude.{◌≡◌, ◌<◌, ◌^◌};
ghost use Rattle.pmtiles_file.specs.Hashes.{hash_of, next_state};

/// A factor that is odd and spreads over 64 bits.
const FACTOR: u64 = 0x9e37_79b9_7f4a_7c15;

/// A hash of bytes. It narrows a search, and decides nothing.
#[tactic(auto, unfolding(crate::specs::Hashes::hash_of))]
pub fn hash_of(bytes: &[u8]) -> u32
    ensures { result ≡ hash_of bytes.now }
{
    let mut state = 0u64;
    for byte in bytes {
        state = next_state(state, *byte);
    }
    (state >> 32) as u32
}

// A state with one byte more. The high bits come down to the low ones, so that no block of bytes cancels another.
#[tactic(auto, unfolding(crate::specs::Hashes::next_state))]
fn next_state(state: u64, byte: u8) -> u64
    ensures { result ≡ next_state state byte }
{
    let product = state.wrapping_add(u64::from(byte) + 1).wrapping_mul(FACTOR);
    product ^ (product >> 32)
}
