ghost use Rattle.std.specs.Prelude.{◌≡◌};
ghost use Rattle.osm_elements.specs.declared.fault.BlockErr.TheVariants as faults;
ghost use Rattle.osm_elements.specs.Reasons.{first, rank};

use std::alloc::{AllocError, AllocFailed};
use tb_types::{Memory as NoMemory, Why};

/// Why a block isn't read.
#[derive(Clone, Copy, Debug, PartialEq, Eq)]
pub enum BlockErr {
    /// It is outside the format, with the first reason of its order.
    Bad(Why),
    /// Want of memory.
    Memory,
}

impl From<AllocError> for BlockErr {
    ghost from_gives = { λ _ e. e ≡ faults.Memory };

    fn from(_e: AllocError) -> BlockErr {
        BlockErr::Memory
    }
}

impl<T: Drop> From<AllocFailed<T>> for BlockErr {
    ghost from_gives = { λ _ e. e ≡ faults.Memory };

    fn from(_e: AllocFailed<T>) -> BlockErr {
        BlockErr::Memory
    }
}

impl From<NoMemory> for BlockErr {
    ghost from_gives = { λ _ e. e ≡ faults.Memory };

    fn from(_e: NoMemory) -> BlockErr {
        BlockErr::Memory
    }
}

/// The one of two reasons that is named.
pub(crate) fn first(one: Why, other: Why) -> Why
    ensures { result ≡ first one other }
{
    if rank(other) < rank(one) { other } else { one }
}

// The place of a reason in the order of the reasons of a block.
fn rank(why: Why) -> u8
    ensures { result ≡ rank why }
{
    match why {
        Why::Wire => 0,
        Why::Missing => 1,
        Why::Feature => 2,
        Why::Uneven => 3,
        Why::Index => 4,
        Why::Range => 5,
        _ => 6,
    }
}
