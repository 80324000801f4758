ghost use Rattle.std.specs.Prelude.{◌≡◌, ◌≤◌, None, IfSome, length};
ghost use Rattle.tb_types.specs.Counts.{Rose};

use crate::RunAt;
use std::alloc::Global;
use tb_outside::{Failed, Lane, Spill, SpillErr};
use tb_types::{Memory, Seq};

/// No call.
pub const NEVER: u64 = u64::MAX;

/// A byte of a run that is read as another.
#[derive(Clone, Copy, Debug)]
pub struct Lie {
    pub run: u64,
    pub at: u64,
    pub byte: u8,
}

pub const NO_LIE: Lie = Lie {
    run: NEVER,
    at: 0,
    byte: 0,
};

/// A spill in memory that doesn't tell its runs. Its calls are counted together, and the one of the number `fails` fails.
#[derive(Debug, Drop)]
pub struct Quiet {
    pub alloc: Global,
    pub runs: Vec<Vec<u8>>,
    pub calls: u64,
    pub fails: u64,
    pub faults: u64,
    pub lie: Lie,
}

impl Quiet {
    pub fn new(alloc: Global, fails: u64, lie: Lie) -> Quiet {
        Quiet {
            alloc,
            runs: Vec::new(alloc),
            calls: 0,
            fails,
            faults: 0,
            lie,
        }
    }

    fn fails_now(&mut self) -> bool
        ensures { self.new.faults ≡ self.old.faults }
    {
        let number = self.calls;
        self.calls = number.wrapping_add(1);
        number == self.fails
    }

    fn fault(&mut self) -> Failed
        ensures rose { Rose self.old.faults self.new.faults }
        ensures never_falls { self.old.faults ≤ self.new.faults }
    {
        self.faults = self.faults.saturating_add(1);
        Failed
    }

    // The bytes of a run from a place on, if there are so many.
    fn part(&self, run: u64, at: u64, len: usize) -> Option<&[u8]>
        ensures { IfSome result (λ part. length part.now ≡ len) }
    {
        let bytes = self.runs.get(usize::try_from(run).ok()?)?;
        let begin = usize::try_from(at).ok()?;
        bytes.get(begin..begin.checked_add(len)?)
    }
}

impl Spill for Quiet {
    ghost seen = { λ s. record { runs = None; faults = s.faults } };

    fn begin_run(&mut self) -> Result<u64, SpillErr> {
        if self.fails_now() {
            let _failed = self.fault();
            return Err(SpillErr::Failed);
        }
        let number = self.runs.len() as u64;
        match self.runs.push(Vec::new(self.alloc)) {
            Ok(()) => Ok(number),
            Err(_) => Err(SpillErr::Memory),
        }
    }

    fn append(&mut self, piece: &[u8]) -> Result<(), SpillErr> {
        if self.fails_now() {
            let _failed = self.fault();
            return Err(SpillErr::Failed);
        }
        match self.runs.last_mut() {
            Some(run) => match run.extend_from_slice(piece) {
                Ok(()) => Ok(()),
                Err(_) => Err(SpillErr::Memory),
            },
            None => Ok(()),
        }
    }

    // The length that it answers is wrong.
    fn end_run(&mut self) -> Result<u64, Failed> {
        if self.fails_now() {
            return Err(self.fault());
        }
        Ok(12_345)
    }

    fn read_run(&mut self, run: u64, at: u64, out: &mut [u8]) -> Result<(), Failed> {
        if self.fails_now() {
            return Err(self.fault());
        }
        match self.part(run, at, out.len()) {
            Some(part) => out.copy_from_slice(part),
            None => return Err(self.fault()),
        }
        let lie = self.lie;
        if lie.run == run && lie.at >= at && lie.at - at < out.len() as u64 {
            out[(lie.at - at) as usize] = lie.byte;
        }
        Ok(())
    }
}

/// A lane with no runs yet.
pub fn lane(alloc: Global, fails: u64, lie: Lie) -> Lane<(), Quiet> {
    Lane {
        reader: (),
        spill: Quiet::new(alloc, fails, lie),
    }
}

/// What a lane lists: all its runs.
pub fn list_of(alloc: Global, lane: &Lane<(), Quiet>) -> Result<Seq<RunAt>, Memory> {
    let mut list = Seq::new(alloc);
    for number in 0..lane.spill.runs.len() {
        list.push(RunAt {
            run: number as u64,
            len: lane.spill.runs[number].len() as u64,
        })?;
    }
    Ok(list)
}
