ghost use Rattle.std.specs.Prelude.{◌≡◌};
ghost use Rattle.run_merge.specs.declared.merge_err.MergeErr.TheVariants as merge_errors;

use std::alloc::{AllocError, AllocFailed};
use tb_types::{Memory as NoMemory, Whom};

/// Why a call of a merge is refused. After all but `TooLarge` the merge isn't used again.
#[derive(Clone, Copy, Debug, PartialEq, Eq)]
pub enum MergeErr {
    /// A spill failed: this object's count of faults rose.
    Spill(Whom),
    /// A spill that doesn't tell its runs gave back bytes that are no sorted items of the profile's layers: the run, and the
    /// place in it where the first item that was read and breaks a rule begins.
    Outside { whom: Whom, run: u64, at: u64 },
    /// The items of a tile need more memory than there is for them, in bytes. Only `next_group` answers it.
    TooLarge { need: u64 },
    /// Want of memory. It is also the answer where a run of the spool would be 2^64 bytes or longer.
    Memory,
}

impl From<NoMemory> for MergeErr {
    ghost from_gives = { λ _ e. e ≡ merge_errors.Memory };

    fn from(_e: NoMemory) -> MergeErr {
        MergeErr::Memory
    }
}

impl From<AllocError> for MergeErr {
    ghost from_gives = { λ _ e. e ≡ merge_errors.Memory };

    fn from(_e: AllocError) -> MergeErr {
        MergeErr::Memory
    }
}

impl<T: Drop> From<AllocFailed<T>> for MergeErr {
    ghost from_gives = { λ _ e. e ≡ merge_errors.Memory };

    fn from(_e: AllocFailed<T>) -> MergeErr {
        MergeErr::Memory
    }
}
