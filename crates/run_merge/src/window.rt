ghost use Rattle.std.specs.Prelude.{◌≡◌, ◌+◌, ◌-◌, ◌<◌, ◌≤◌, ◌∷◌, [], IfSome, OnOk, length, min, slice_range};
ghost use Rattle.run_merge.specs.Cursors.{IsAhead, IsWithin, Stands};
ghost use Rattle.run_merge.specs.Objects.{objects_of, told_of, IsThere};
ghost use Rattle.run_merge.specs.Steps.{OnlyReads};

use crate::merge_err::MergeErr;
use crate::named_run::NamedRun;
use crate::read_from::read_from;
use std::alloc::Global;
use tb_outside::{Lane, Spill};

/// A run is read through so many bytes at a time. A window never holds more.
pub const WINDOW: u64 = 4096;

/// The bytes of a run that were read ahead: those from the place `from` on.
#[derive(Debug, Drop)]
pub struct Window {
    pub from: u64,
    pub bytes: Vec<u8>,
}

impl Window {
    /// A window with nothing in it. It takes no memory.
    pub fn new(alloc: Global) -> Window
        ensures from { result.from ≡ 0 }
        ensures bytes { result.bytes.items ≡ [] }
    {
        Window {
            from: 0,
            bytes: Vec::new(alloc),
        }
    }

    /// Sees to it that the window has `size` bytes of the run from the place `at` on.
    pub fn cover<R, S: Spill>(
        &mut self,
        run: NamedRun,
        at: u64,
        size: u64,
        lanes: &mut [Lane<R, S>],
        spool: &mut S,
    ) -> Result<(), MergeErr>
        requires fits { at + size ≤ run.run.len }
        requires small { size ≤ 4096 }
        requires there { IsThere (objects_of S.seen lanes.old spool.old) run.store }
        requires within { IsWithin run self.old }
        requires stands { IfSome (told_of (objects_of S.seen lanes.old spool.old) run) (λ runs. Stands runs run) }
        requires ahead { IfSome (told_of (objects_of S.seen lanes.old spool.old) run) (λ runs. IsAhead runs run self.old) }
        ensures begin { OnOk result (self.new.from ≤ at) }
        ensures end { OnOk result (at + size ≤ self.new.from + length self.new.bytes.items) }
        ensures within { IsWithin run self.new }
        ensures ahead { OnOk result (IfSome (told_of (objects_of S.seen lanes.old spool.old) run) (λ runs. IsAhead runs run self.new)) }
        ensures reads { OnlyReads (objects_of S.seen lanes.old spool.old) (objects_of S.seen lanes.new spool.new) (run ∷ []) result }
    {
        if self.from <= at && at - self.from + size <= self.bytes.len() as u64 {
            return Ok(());
        }
        self.load(run, at, lanes, spool)
    }

    // Reads the bytes from the place `at` on, up to the run's end or until the window is full.
    fn load<R, S: Spill>(
        &mut self,
        run: NamedRun,
        at: u64,
        lanes: &mut [Lane<R, S>],
        spool: &mut S,
    ) -> Result<(), MergeErr>
        requires fits { at ≤ run.run.len }
        requires there { IsThere (objects_of S.seen lanes.old spool.old) run.store }
        requires stands { IfSome (told_of (objects_of S.seen lanes.old spool.old) run) (λ runs. Stands runs run) }
        ensures from { OnOk result (self.new.from ≡ at) }
        ensures len { OnOk result (length self.new.bytes.items ≡ min (run.run.len - at) 4096) }
        ensures within { IsWithin run self.new }
        ensures ahead { OnOk result (IfSome (told_of (objects_of S.seen lanes.old spool.old) run) (λ runs. IsAhead runs run self.new)) }
        ensures reads { OnlyReads (objects_of S.seen lanes.old spool.old) (objects_of S.seen lanes.new spool.new) (run ∷ []) result }
    {
        let size = (run.run.len - at).min(WINDOW) as usize;
        self.from = at;
        self.bytes.clear();
        match self.bytes.resize(size, 0) {
            Ok(()) => {}
            Err(_) => return Err(MergeErr::Memory),
        }
        match read_from(run, at, &mut self.bytes, lanes, spool) {
            Ok(()) => Ok(()),
            Err(e) => {
                self.bytes.clear();
                Err(e)
            }
        }
    }

    /// The bytes of the window from a place of the run on.
    pub fn bytes_at(&self, at: u64, size: u64) -> &[u8]
        requires begin { self.now.from ≤ at }
        requires end { at + size ≤ self.now.from + length self.now.bytes.items }
        ensures { result.now ≡ slice_range self.now.bytes.items (at - self.now.from) (at - self.now.from + size) }
    {
        let begin = (at - self.from) as usize;
        &self.bytes[begin..begin + size as usize]
    }
}
