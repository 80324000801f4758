ghost use Rattle.std.specs.Prelude.{◌≡◌, ◌+◌, ◌≤◌, ◌||◌, [], Some, IfOk, IfSome, OnOk, length, nat_le, vec_len, vec_capacity, refl};
ghost use Rattle.tb_outside.specs.Plan.{uncalled, fails_next, after_call, is_refused};
ghost use Rattle.tb_outside.specs.Source.{SizeAnswers, LoadAnswers};
ghost use Rattle.tb_outside.specs.Memory.{MemSourceSeen, as_source, refuses_load, after_load};

use crate::failed::Failed;
use crate::plan::Plan;
use crate::source::Source;
use std::alloc::Global;
use std::marker::Model;
use tb_types::Memory;

/// A source in memory, which tells its bytes and its loads, and fails at chosen calls.
#[derive(Debug, Drop)]
pub struct MemSource {
    bytes: Vec<u8>,
    log: Vec<(u64, u64)>,
    room: usize,
    plan: Plan,
}

impl Model for MemSource {
    ghost Value = { MemSourceSeen };

    ghost view = { λ s. record { bytes = s.bytes.items; log = s.log.items; room = s.room; plan = s.plan } };

    ghost invariant = { λ s. (vec_len s.log ≤ s.room) × (s.room ≤ vec_capacity s.log) };
}

impl MemSource {
    /// A source of these bytes. Its calls are counted from 0 over `size` and `load` together; those whose numbers are in
    /// `fails` fail, and so does a load once the log has `log_room` of them.
    pub fn new(
        alloc: Global,
        bytes: Vec<u8>,
        log_room: usize,
        fails: Vec<u64>,
    ) -> Result<MemSource, Memory>
        ensures { IfOk result (λ s. s ≡ record { bytes = bytes.items; log = []; room = log_room; plan = uncalled fails.items }) }
    {
        let log = Vec::with_capacity(alloc, log_room)?;
        Ok(MemSource {
            bytes,
            log,
            room: log_room,
            plan: Plan::new(fails),
        })
    }

    /// The place and length of each load that was answered.
    pub fn log(&self) -> &[(u64, u64)]
        ensures { result.now ≡ self.now.log }
    {
        self.log.as_slice()
    }
}

impl Source for MemSource {
    ghost seen = { as_source };

    ghost same_told = { λ a b. refl };

    fn size(&mut self) -> Result<u64, Failed>
        ensures source { SizeAnswers (as_source self.old) (as_source self.new) result }
        ensures refused { is_refused result ≡ fails_next self.old.plan }
        ensures left { self.new ≡ record self.old { plan = after_call self.old.plan } }
    {
        if self.plan.fails_now() {
            return Err(Failed);
        }
        Ok(self.bytes.len() as u64)
    }

    fn load(&mut self, at: u64, out: &mut [u8]) -> Result<(), Failed>
        requires { at + length out.old ≤ length self.old.bytes }
        ensures source { LoadAnswers (as_source self.old) (as_source self.new) at out.new result }
        ensures refused { is_refused result ≡ refuses_load self.old }
        ensures left { self.new ≡ after_load self.old at (length out.old) }
    {
        if self.plan.fails_now() {
            return Err(Failed);
        }
        if self.log.len() >= self.room {
            self.plan.fault();
            return Err(Failed);
        }
        let from = at as usize;
        out.copy_from_slice(&self.bytes[from..from + out.len()]);
        self.log.push_reserved((at, out.len() as u64));
        Ok(())
    }
}
