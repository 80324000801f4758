ghost use Rattle.std.specs.Prelude.{◌≡◌, ◌↔◌, [], Err, None, Some, map, true, length, IfOk, OnOk, IsErr};
ghost use Rattle.std.specs.Option.{option_map};
ghost use Rattle.tb_outside.specs.Plan.{is_refused};
ghost use Rattle.tb_outside.specs.Spill.{BeginAnswers, AppendAnswers, EndAnswers, ReadAnswers, is_failed};
ghost use Rattle.tb_outside.specs.File.{FileSpillSeen, LiesIn, untold_spill, after_answer, with_next, with_written, without_begun};

use crate::failed::Failed;
use crate::run_file::RunFile;
use crate::spill::{Spill, SpillErr};
use std::alloc::Global;
use std::marker::Model;
use std::rt::Files;

/// A named file that holds runs one behind another, made or emptied when the first run is begun. It tells nothing of
/// its content; contracts see its count of faults, and how long its runs are.
#[derive(Drop)]
pub struct FileSpill<'a, R: Files> {
    file: RunFile<'a, R>,
    faults: u64,
}

impl<'a, R: Files> Model for FileSpill<'a, R> {
    ghost Value = { FileSpillSeen };

    ghost view = { λ s. record { faults = s.faults; ended = map (λ span. span.len) s.file.ended.items; begun = option_map (λ span. span.len) s.file.begun } };
}

impl<'a, R: Files> FileSpill<'a, R> {
    pub fn new(rt: &'a R, alloc: Global, path: String) -> FileSpill<'a, R>
        ensures { result ≡ record { faults = 0; ended = []; begun = None } }
    {
        FileSpill {
            file: RunFile::new(rt, alloc, path),
            faults: 0,
        }
    }

    /// Removes the file, if a run was begun in it. Whether that succeeds isn't told.
    pub fn remove(self) {
        self.file.remove();
    }
}

impl<'a, R: Files> Spill for FileSpill<'a, R> {
    ghost seen = { untold_spill };

    fn begin_run(&mut self) -> Result<u64, SpillErr>
        ensures spill { BeginAnswers (untold_spill self.old) (untold_spill self.new) result }
        ensures counted { self.new.faults ≡ after_answer self.old.faults (is_failed result) }
        ensures begun { OnOk result (self.new ≡ with_next self.old) }
        ensures number { IfOk result (λ n. n ≡ length self.new.ended) }
        ensures same { IsErr result → self.new ≡ record self.old { faults = self.new.faults } }
    {
        match self.file.begin() {
            Ok(number) => Ok(number),
            Err(SpillErr::Memory) => Err(SpillErr::Memory),
            Err(SpillErr::Failed) => {
                self.faults = self.faults.saturating_add(1);
                Err(SpillErr::Failed)
            }
        }
    }

    fn append(&mut self, piece: &[u8]) -> Result<(), SpillErr>
        ensures spill { AppendAnswers (untold_spill self.old) (untold_spill self.new) piece.now result }
        ensures counted { self.new.faults ≡ after_answer self.old.faults (is_failed result) }
        ensures needs_a_run { self.old.begun ≡ None → result ≡ Err SpillErr.Failed }
        ensures written { OnOk result (self.new ≡ with_written self.old (length piece.now)) }
        ensures same { IsErr result → self.new ≡ record self.old { faults = self.new.faults } }
    {
        match self.file.append(piece) {
            Ok(()) => Ok(()),
            Err(_) => {
                self.faults = self.faults.saturating_add(1);
                Err(SpillErr::Failed)
            }
        }
    }

    fn end_run(&mut self) -> Result<u64, Failed>
        ensures spill { EndAnswers (untold_spill self.old) (untold_spill self.new) result }
        ensures counted { self.new.faults ≡ after_answer self.old.faults (is_refused result) }
        ensures needs_a_run { is_refused result ≡ true ↔ self.old.begun ≡ None }
        ensures len { IfOk result (λ n. self.old.begun ≡ Some n) }
        ensures ended { OnOk result (self.new ≡ without_begun self.old) }
    {
        match self.file.end() {
            Some(len) => Ok(len),
            None => {
                self.faults = self.faults.saturating_add(1);
                Err(Failed)
            }
        }
    }

    fn read_run(&mut self, run: u64, at: u64, out: &mut [u8]) -> Result<(), Failed>
        ensures spill { ReadAnswers (untold_spill self.old) (untold_spill self.new) run at out.new result }
        ensures counted { self.new.faults ≡ after_answer self.old.faults (is_refused result) }
        ensures within { OnOk result (LiesIn self.old.ended run at (length out.new)) }
        ensures same { self.new ≡ record self.old { faults = self.new.faults } }
    {
        match self.file.read(run, at, out) {
            Ok(()) => Ok(()),
            Err(_) => {
                self.faults = self.faults.saturating_add(1);
                Err(Failed)
            }
        }
    }
}
