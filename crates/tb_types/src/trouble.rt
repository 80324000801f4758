ghost use Rattle.std.specs.Prelude.{◌≡◌};
ghost use Rattle.tb_types.specs.declared.trouble.Trouble.TheVariants as troubles;

use crate::memory::Memory as NoMemory;
use std::alloc::AllocError;

/// An object outside the program. The least is named where several have failed.
#[derive(Clone, Copy, Debug, PartialEq, Eq, PartialOrd, Ord)]
pub enum Whom {
    Profile,
    Lane(u32),
    Spool,
    Archive,
    Console,
}

/// What is too large for the budget.
#[derive(Clone, Copy, Debug, PartialEq, Eq)]
pub enum Stage {
    Block,
    Relation,
    Tile,
}

/// Why a pass ends without its result.
#[derive(Clone, Copy, Debug, PartialEq, Eq)]
pub enum Trouble {
    /// A source failed.
    Source(Whom),
    /// A spill failed.
    Spill(Whom),
    /// A spill that doesn't tell its content gave back bytes that were not written to it.
    Outside { whom: Whom, run: u64, at: u64 },
    /// A reader that doesn't tell its content gave bytes in this pass that it didn't give before.
    Changed { pass: u8, block: u32 },
    /// Want of memory.
    Memory,
}

impl From<NoMemory> for Trouble {
    ghost from_gives = { λ _ e. e ≡ troubles.Memory };

    fn from(_e: NoMemory) -> Trouble {
        Trouble::Memory
    }
}

impl From<AllocError> for Trouble {
    ghost from_gives = { λ _ e. e ≡ troubles.Memory };

    fn from(_e: AllocError) -> Trouble {
        Trouble::Memory
    }
}
