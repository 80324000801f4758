ghost use Rattle.std.specs.Prelude.{◌≡◌};
ghost use Rattle.profile_rules.specs.Faults.{GivesPart};
ghost use Rattle.profile_rules.specs.Top.{format_of, last_zoom};

use crate::fault::{PartErr, ProfileWhy};

/// The formats of a profile.
#[derive(Clone, Copy, Debug, PartialEq, Eq)]
pub enum Format {
    One,
}

impl Format {
    /// The last zoom that a profile of this format may have.
    pub fn last_zoom(self) -> u8
        ensures { result ≡ last_zoom self }
    {
        match self {
            Format::One => 14,
        }
    }
}

/// The format of a number. `Format` where it is none.
pub fn format_of(n: i64) -> Result<Format, PartErr>
    ensures { GivesPart (λ f. f) result (format_of n) }
{
    match n {
        1 => Ok(Format::One),
        _ => Err(PartErr::Bad(ProfileWhy::Format)),
    }
}
