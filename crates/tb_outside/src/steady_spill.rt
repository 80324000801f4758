ghost use Rattle.std.specs.Prelude.{◌≡◌, Some, None, []};
ghost use Rattle.tb_outside.specs.Spill.{Runs};

use crate::failed::Failed;
use crate::run_store::RunStore;
use crate::spill::{Spill, SpillErr};
use std::alloc::Global;
use std::marker::Model;
use tb_types::Memory;

/// A spill in memory, which tells its runs and never fails.
#[derive(Debug, Drop)]
pub struct SteadySpill {
    runs: RunStore,
}

impl Model for SteadySpill {
    ghost Value = { Runs };

    ghost view = { λ s. s.runs };
}

impl SteadySpill {
    /// A spill without runs. It takes no memory.
    pub fn new(alloc: Global) -> SteadySpill
        ensures { result ≡ record { ended = []; begun = None } }
    {
        SteadySpill {
            runs: RunStore::new(alloc),
        }
    }
}

impl Spill for SteadySpill {
    ghost seen = { λ s. record { runs = Some s; faults = 0 } };

    fn begin_run(&mut self) -> Result<u64, SpillErr> {
        match self.runs.begin() {
            Ok(number) => Ok(number),
            Err(Memory) => Err(SpillErr::Memory),
        }
    }

    fn append(&mut self, piece: &[u8]) -> Result<(), SpillErr> {
        match self.runs.append(piece) {
            Ok(()) => Ok(()),
            Err(Memory) => Err(SpillErr::Memory),
        }
    }

    fn end_run(&mut self) -> Result<u64, Failed> {
        Ok(self.runs.end())
    }

    fn read_run(&mut self, run: u64, at: u64, out: &mut [u8]) -> Result<(), Failed> {
        self.runs.read(run, at, out);
        Ok(())
    }
}
