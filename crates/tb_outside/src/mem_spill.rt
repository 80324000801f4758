ghost use Rattle.std.specs.Prelude.{◌≡◌, ◌+◌, ◌<◌, ◌≤◌, [], None, IsSome, IfOk, length, slice_index_or};
ghost use Rattle.tb_outside.specs.Plan.{uncalled, fails_next, after_call, is_refused};
ghost use Rattle.tb_outside.specs.Spill.{BeginAnswers, AppendAnswers, EndAnswers, ReadAnswers, closed, is_failed};
ghost use Rattle.tb_outside.specs.Memory.{MemSpillSeen, as_spill};

use crate::failed::Failed;
use crate::plan::Plan;
use crate::run_store::RunStore;
use crate::spill::{Spill, SpillErr};
use std::alloc::Global;
use std::marker::Model;
use tb_types::Memory;

/// A spill in memory, which tells its runs and fails at chosen calls.
#[derive(Debug, Drop)]
pub struct MemSpill {
    runs: RunStore,
    plan: Plan,
}

impl Model for MemSpill {
    ghost Value = { MemSpillSeen };

    ghost view = { λ s. record { runs = s.runs; plan = s.plan } };
}

impl MemSpill {
    /// A spill without runs. Its four calls are counted together from 0; those whose numbers are in `fails` fail.
    pub fn new(alloc: Global, fails: Vec<u64>) -> Result<MemSpill, Memory>
        ensures { IfOk result (λ s. s ≡ record { runs = record { ended = []; begun = None }; plan = uncalled fails.items }) }
    {
        Ok(MemSpill {
            runs: RunStore::new(alloc),
            plan: Plan::new(fails),
        })
    }

    /// The bytes of a run, ended or begun.
    pub fn run(&self, no: u64) -> &[u8]
        requires { no < length (closed self.now.runs) }
        ensures { result.now ≡ slice_index_or (closed self.now.runs) no [] }
    {
        self.runs.run(no)
    }
}

impl Spill for MemSpill {
    ghost seen = { as_spill };

    fn begin_run(&mut self) -> Result<u64, SpillErr>
        ensures spill { BeginAnswers (as_spill self.old) (as_spill self.new) result }
        ensures failed { is_failed result ≡ fails_next self.old.plan }
        ensures plan { self.new.plan ≡ after_call self.old.plan }
    {
        if self.plan.fails_now() {
            return Err(SpillErr::Failed);
        }
        match self.runs.begin() {
            Ok(number) => Ok(number),
            Err(Memory) => Err(SpillErr::Memory),
        }
    }

    fn append(&mut self, piece: &[u8]) -> Result<(), SpillErr>
        requires { IsSome self.old.runs.begun }
        ensures spill { AppendAnswers (as_spill self.old) (as_spill self.new) piece.now result }
        ensures failed { is_failed result ≡ fails_next self.old.plan }
        ensures plan { self.new.plan ≡ after_call self.old.plan }
    {
        if self.plan.fails_now() {
            return Err(SpillErr::Failed);
        }
        match self.runs.append(piece) {
            Ok(()) => Ok(()),
            Err(Memory) => Err(SpillErr::Memory),
        }
    }

    fn end_run(&mut self) -> Result<u64, Failed>
        requires { IsSome self.old.runs.begun }
        ensures spill { EndAnswers (as_spill self.old) (as_spill self.new) result }
        ensures refused { is_refused result ≡ fails_next self.old.plan }
        ensures plan { self.new.plan ≡ after_call self.old.plan }
    {
        if self.plan.fails_now() {
            return Err(Failed);
        }
        Ok(self.runs.end())
    }

    fn read_run(&mut self, run: u64, at: u64, out: &mut [u8]) -> Result<(), Failed>
        requires ended { run < length self.old.runs.ended }
        requires within { at + length out.old ≤ length (slice_index_or self.old.runs.ended run []) }
        ensures spill { ReadAnswers (as_spill self.old) (as_spill self.new) run at out.new result }
        ensures refused { is_refused result ≡ fails_next self.old.plan }
        ensures plan { self.new.plan ≡ after_call self.old.plan }
    {
        if self.plan.fails_now() {
            return Err(Failed);
        }
        self.runs.read(run, at, out);
        Ok(())
    }
}
