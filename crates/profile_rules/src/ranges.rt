ghost use Rattle.std.specs.Prelude.{◌≡◌, ◌≤◌, max, IfOk};
ghost use Rattle.profile_rules.specs.Faults.{GivesPart};
ghost use Rattle.profile_rules.specs.Ranges.{is_short, within, within_or, zooms_within, order_or_0};

use crate::fault::{PartErr, ProfileWhy};
use crate::limits::LONGEST_TEXT;

/// Whether a text isn't too long.
pub fn is_short(text: &str) -> bool
    ensures { result ≡ is_short text.now }
{
    text.len() <= LONGEST_TEXT
}

/// A number from `low` to `high`, or the usual one. `Range` for another.
pub fn within_or(usual: u32, low: u32, high: u32, n: Option<i64>) -> Result<u32, PartErr>
    ensures value { GivesPart (λ n. n) result (within_or usual low high n) }
    ensures bound { IfOk result (λ n. n ≤ max usual high) }
{
    match n {
        Some(n) => within(low, high, n),
        None => Ok(usual),
    }
}

fn within(low: u32, high: u32, n: i64) -> Result<u32, PartErr>
    ensures value { GivesPart (λ n. n) result (within low high n) }
    ensures bound { IfOk result (λ n. n ≤ high) }
{
    if i64::from(low) <= n && n <= i64::from(high) {
        Ok(n as u32)
    } else {
        Err(PartErr::Bad(ProfileWhy::Range))
    }
}

/// A first and a last zoom from `low` to `high`, which are also their defaults. `Range` for others, or where the first is
/// above the last.
pub fn zooms_within(
    low: u8,
    high: u8,
    first: Option<i64>,
    last: Option<i64>,
) -> Result<(u8, u8), PartErr>
    ensures { GivesPart (λ z. z) result (zooms_within low high first last) }
{
    let first = within_or(u32::from(low), u32::from(low), u32::from(high), first)?;
    let last = within_or(u32::from(high), u32::from(low), u32::from(high), last)?;
    if first <= last {
        Ok((first as u8, last as u8))
    } else {
        Err(PartErr::Bad(ProfileWhy::Range))
    }
}

/// A number of 16 bits, or 0. `Range` for another.
pub fn order_or_0(n: Option<i64>) -> Result<i16, PartErr>
    ensures { GivesPart (λ n. n) result (order_or_0 n) }
{
    match n {
        Some(n) => {
            if i64::from(i16::MIN) <= n && n <= i64::from(i16::MAX) {
                Ok(n as i16)
            } else {
                Err(PartErr::Bad(ProfileWhy::Range))
            }
        }
        None => Ok(0),
    }
}
