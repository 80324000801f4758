ghost use Rattle.std.specs.Prelude.{◌≡◌};
ghost use Rattle.profile_rules.specs.declared.fault.PartErr.TheVariants as faults;
ghost use Rattle.profile_rules.specs.declared.fault.ProfileErr.TheVariants as refusals;
ghost use Rattle.profile_rules.specs.Faults.{placed};

use std::alloc::{AllocError, AllocFailed};
use tb_types::Memory as NoMemory;

/// The kinds of part that a profile has.
#[derive(Clone, Copy, Debug, PartialEq, Eq)]
pub enum Part {
    /// The text as a whole, and its top table.
    Top,
    /// A `[[layer]]`.
    Layer,
    /// A `[[rule]]`.
    Rule,
}

/// A part of a profile. `no` is its number among the parts of its kind, counted from 0, and 0 for the top.
#[derive(Clone, Copy, Debug, PartialEq, Eq)]
pub struct Spot {
    pub part: Part,
    pub no: u32,
}

/// Why a part of a profile is refused, in the order in which the reasons are looked at.
#[derive(Clone, Copy, Debug, PartialEq, Eq)]
pub enum ProfileWhy {
    /// The text has more than 1,048,576 bytes.
    Long,
    /// The text isn't UTF-8, or no TOML document.
    Toml,
    /// A key that the part doesn't have.
    Unknown,
    /// A value of another kind than its key asks for, a required key that is missing, a rule's kind that is none of the
    /// three, or no layer.
    Shape,
    /// A format other than 1.
    Format,
    /// A number out of its range, a first zoom above the last one, a text above 1,024 bytes, or a list that is too long.
    Range,
    /// A layer's id that is empty or used before, or a rule's layer that is none of the layers.
    Layer,
    /// A text that is no condition.
    Condition,
    /// A table that is no attribute, or a name that is empty or stands twice in a rule.
    Attribute,
}

/// Why a profile isn't read.
#[derive(Clone, Copy, Debug, PartialEq, Eq)]
pub enum ProfileErr {
    /// It is refused: its first faulty part, in the order top, layers, rules, and the first reason of that part.
    Bad { spot: Spot, why: ProfileWhy },
    /// Want of memory.
    Memory,
}

/// Why a part of a profile isn't read.
#[derive(Clone, Copy, Debug, PartialEq, Eq)]
pub enum PartErr {
    Bad(ProfileWhy),
    Memory,
}

impl From<AllocError> for PartErr {
    ghost from_gives = { λ _ e. e ≡ faults.Memory };

    fn from(_e: AllocError) -> PartErr {
        PartErr::Memory
    }
}

impl<T: Drop> From<AllocFailed<T>> for PartErr {
    ghost from_gives = { λ _ e. e ≡ faults.Memory };

    fn from(_e: AllocFailed<T>) -> PartErr {
        PartErr::Memory
    }
}

impl From<NoMemory> for PartErr {
    ghost from_gives = { λ _ e. e ≡ faults.Memory };

    fn from(_e: NoMemory) -> PartErr {
        PartErr::Memory
    }
}

impl<T: Drop> From<AllocFailed<T>> for ProfileErr {
    ghost from_gives = { λ _ e. e ≡ refusals.Memory };

    fn from(_e: AllocFailed<T>) -> ProfileErr {
        ProfileErr::Memory
    }
}

/// What was read of the part at a spot.
pub fn placed<T>(spot: Spot, read: Result<T, PartErr>) -> Result<T, ProfileErr>
    ensures { result ≡ placed spot read }
{
    match read {
        Ok(x) => Ok(x),
        Err(PartErr::Bad(why)) => Err(ProfileErr::Bad { spot, why }),
        Err(PartErr::Memory) => Err(ProfileErr::Memory),
    }
}
