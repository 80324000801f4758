ghost use Rattle.std.specs.Prelude.{◌≡◌, pos, ◌≤ℤ◌, ◌<ℤ◌, neg_ℤ, ◌^◌, ◌<◌};
ghost use Rattle.osm_elements.specs.Signed.{signed_64, signed_32, low_32};

/// The numbers below which a signed number of 64 or of 32 bits isn't negative.
const HALF_64: u64 = 1 << 63;

pub(crate) const HALF_32: u64 = 1 << 31;

const BITS_32: u64 = 1 << 32;

/// The int64 of a varint.
pub(crate) fn signed_64(n: u64) -> i64
    ensures { result ≡ signed_64 n }
{
    if n < HALF_64 {
        n as i64
    } else {
        -((u64::MAX - n) as i64) - 1
    }
}

/// The low 32 bits of a varint.
pub(crate) fn low_32(n: u64) -> u64
    ensures value { result ≡ low_32 n }
    ensures small { result < 2 ^ 32 }
{
    n % BITS_32
}

/// The int32 of a varint.
pub(crate) fn signed_32(n: u64) -> i64
    ensures value { result ≡ signed_32 n }
    ensures above { neg_ℤ (pos 2147483648) ≤ℤ result }
    ensures below { result <ℤ pos 2147483648 }
{
    let low = low_32(n);
    if low < HALF_32 {
        low as i64
    } else {
        -((BITS_32 - 1 - low) as i64) - 1
    }
}
