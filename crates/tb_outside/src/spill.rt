ghost use Rattle.std.specs.Prelude.{◌+◌, ◌<◌, ◌≤◌, [], length, slice_index_or, IsSome, IfSome};
ghost use Rattle.tb_outside.specs.Spill.{SpillSeen, BeginAnswers, AppendAnswers, EndAnswers, ReadAnswers};

use crate::failed::Failed;

/// Why a call of a spill was refused.
#[derive(Clone, Copy, Debug, PartialEq, Eq)]
pub enum SpillErr {
    Failed,
    Memory,
}

/// An ended run of a spill: its number, and its length in bytes.
#[derive(Clone, Copy, Debug, PartialEq, Eq)]
pub struct RunAt {
    pub run: u64,
    pub len: u64,
}

/// Runs of bytes that are written one after another, and read by place once they are ended.
pub trait Spill {
    // The runs, where the spill tells them, and the count of faults.
    ghost seen: { Self → SpillSeen };

    /// Ends the run that is begun, if there is one, begins a new run and answers its number, counted from 0. Where it
    /// fails, a run that was begun may be ended. Where memory is wanting, nothing changes.
    fn begin_run(&mut self) -> Result<u64, SpillErr>
        ensures { BeginAnswers (seen self.old) (seen self.new) result };

    /// Appends the whole piece to the run that is begun, or a prefix of it where it fails, or nothing where memory is
    /// wanting. A spill that doesn't tell its runs fails where none is begun.
    fn append(&mut self, piece: &[u8]) -> Result<(), SpillErr>
        requires { IfSome (seen self.old).runs (λ runs. IsSome runs.begun) }
        ensures { AppendAnswers (seen self.old) (seen self.new) piece.now result };

    /// Ends the run that is begun, and answers its length. Where it fails, the run is still begun. A spill that doesn't
    /// tell its runs fails where none is begun.
    fn end_run(&mut self) -> Result<u64, Failed>
        requires { IfSome (seen self.old).runs (λ runs. IsSome runs.begun) }
        ensures { EndAnswers (seen self.old) (seen self.new) result };

    /// Fills `out` with the bytes of an ended run from the place `at` on. After a fault `out` holds anything.
    fn read_run(&mut self, run: u64, at: u64, out: &mut [u8]) -> Result<(), Failed>
        requires ended { IfSome (seen self.old).runs (λ runs. run < length runs.ended) }
        requires within { IfSome (seen self.old).runs (λ runs. at + length out.old ≤ length (slice_index_or runs.ended run [])) }
        ensures { ReadAnswers (seen self.old) (seen self.new) run at out.new result };
}
