ghost use Rattle.std.specs.Prelude.{◌≡◌};
ghost use Rattle.feature_runs.specs.declared.refused.Refused.TheVariants as refused;

use std::alloc::{AllocError, AllocFailed};
use tb_types::Memory as NoMemory;

/// Why a part of an item isn't read: no such part begins there, or memory is wanted.
#[derive(Clone, Copy, Debug, PartialEq, Eq)]
pub enum Refused {
    NoItem,
    Memory,
}

impl From<NoMemory> for Refused {
    ghost from_gives = { λ _ e. e ≡ refused.Memory };

    fn from(_e: NoMemory) -> Refused {
        Refused::Memory
    }
}

impl From<AllocError> for Refused {
    ghost from_gives = { λ _ e. e ≡ refused.Memory };

    fn from(_e: AllocError) -> Refused {
        Refused::Memory
    }
}

impl<T: Drop> From<AllocFailed<T>> for Refused {
    ghost from_gives = { λ _ e. e ≡ refused.Memory };

    fn from(_e: AllocFailed<T>) -> Refused {
        Refused::Memory
    }
}
