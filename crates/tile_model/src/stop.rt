use profile_rules::{ProfileWhy, Spot};
use tb_types::{Damage, Stage, Whom};

/// Why a build ends without an archive. Each has the values that tell of it.
#[derive(Clone, Copy, Debug, PartialEq, Eq)]
pub enum Stop {
    /// The profile is refused: its first faulty part, and the first reason of that part.
    Profile { spot: Spot, why: ProfileWhy },
    /// The extract is damaged.
    Damage(Damage),
    /// A block, a relation or a tile needs more memory, in bytes, than there is for it in the budget.
    Budget { stage: Stage, need: u64 },
    /// A source failed: its count of faults rose.
    Source(Whom),
    /// A spill or the spool failed: its count of faults rose.
    Spill(Whom),
    /// A spill that doesn't tell its content gave back bytes that are no sorted items: its run, and the place of the first item
    /// that was read and breaks a rule.
    Outside { whom: Whom, run: u64, at: u64 },
    /// The archive's sink failed: its count of faults rose.
    Sink,
    /// A reader that doesn't tell its bytes gave in this pass a block that is damaged, which it wasn't in the survey.
    Changed { pass: u8, block: u32 },
    /// Want of memory.
    Memory,
}
