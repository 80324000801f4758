ghost use Rattle.std.specs.Prelude.{◌≡◌, ◌+◌, ◌<◌, ◌≤◌, [], None, map, IfOk, IsSome, OnOk, OnErr, IfSome, length, slice_index_or, slice_range, vec_len, vec_capacity};
ghost use Rattle.std.specs.Option.{option_map};
ghost use Rattle.tb_outside.specs.Spill.{Runs, closed, with_begun, with_bytes, with_ended};

use std::alloc::Global;
use std::marker::Model;
use tb_types::Memory;

/// The runs of a spill in memory.
#[derive(Debug, Drop)]
pub struct RunStore {
    ended: Vec<Vec<u8>>,
    begun: Option<Vec<u8>>,
    alloc: Global,
}

impl Model for RunStore {
    ghost Value = { Runs };

    ghost view = { λ s. record { ended = map (λ run. run.items) s.ended.items; begun = option_map (λ run. run.items) s.begun } };

    // the begun run can be ended without memory
    ghost invariant = { λ s. IsSome s.begun → vec_len s.ended < vec_capacity s.ended };
}

impl RunStore {
    pub fn new(alloc: Global) -> RunStore
        ensures { result ≡ record { ended = []; begun = None } }
    {
        RunStore {
            ended: Vec::new(alloc),
            begun: None,
            alloc,
        }
    }

    pub fn begin(&mut self) -> Result<u64, Memory>
        ensures number { IfOk result (λ n. n ≡ length (closed self.old)) }
        ensures ok { OnOk result (self.new ≡ with_begun self.old) }
        ensures err { OnErr result (self.new ≡ self.old) }
    {
        self.ended.reserve(2)?;
        if let Some(run) = self.begun.take() {
            self.ended.push_reserved(run);
        }
        self.begun = Some(Vec::new(self.alloc));
        Ok(self.ended.len() as u64)
    }

    pub fn append(&mut self, piece: &[u8]) -> Result<(), Memory>
        ensures ok { OnOk result (self.new ≡ with_bytes self.old piece.now) }
        ensures err { OnErr result (self.new ≡ self.old) }
    {
        match &mut self.begun {
            None => {}
            Some(run) => run.extend_from_slice(piece)?,
        }
        Ok(())
    }

    /// Ends the run that is begun, if there is one, and gives its length, or 0.
    pub fn end(&mut self) -> u64
        ensures len { IfSome self.old.begun (λ bytes. result ≡ length bytes) }
        ensures ended { self.new ≡ with_ended self.old }
    {
        match self.begun.take() {
            None => 0,
            Some(run) => {
                let len = run.len() as u64;
                self.ended.push_reserved(run);
                len
            }
        }
    }

    pub fn read(&self, run: u64, at: u64, out: &mut [u8])
        requires ended { run < length self.now.ended }
        requires within { at + length out.old ≤ length (slice_index_or self.now.ended run []) }
        ensures { out.new ≡ slice_range (slice_index_or self.now.ended run []) at (at + length out.old) }
    {
        let from = at as usize;
        let bytes = run_at(&self.ended, run as usize);
        out.copy_from_slice(&bytes[from..from + out.len()]);
    }

    /// The bytes of a run, ended or begun.
    pub fn run(&self, no: u64) -> &[u8]
        requires { no < length (closed self.now) }
        ensures { result.now ≡ slice_index_or (closed self.now) no [] }
    {
        let no = no as usize;
        match &self.begun {
            Some(run) if no == self.ended.len() => run.as_slice(),
            _ => run_at(&self.ended, no),
        }
    }
}

fn run_at(runs: &[Vec<u8>], no: usize) -> &[u8]
    requires { no < length (map (λ run. run.items) runs.now) }
    ensures { result.now ≡ slice_index_or (map (λ run. run.items) runs.now) no [] }
{
    runs[no].as_slice()
}
