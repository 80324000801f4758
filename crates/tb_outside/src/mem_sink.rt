ghost use Rattle.std.specs.Prelude.{◌≡◌, ◌-◌, ◌≤◌, ◌||◌, [], IfOk, length, nat_lt, vec_len, vec_capacity};
ghost use Rattle.tb_outside.specs.Plan.{uncalled, fails_next, is_refused};
ghost use Rattle.tb_outside.specs.Sink.{SinkAnswers};
ghost use Rattle.tb_outside.specs.Memory.{MemSinkSeen, as_sink, refuses_append, after_append};

use crate::failed::Failed;
use crate::plan::Plan;
use crate::sink::Sink;
use std::alloc::Global;
use std::marker::Model;
use tb_types::Memory;

/// A sink in memory of a fixed size, which tells its bytes and fails at chosen calls. An append takes no memory.
#[derive(Debug, Drop)]
pub struct MemSink {
    bytes: Vec<u8>,
    room: usize,
    plan: Plan,
}

impl Model for MemSink {
    ghost Value = { MemSinkSeen };

    ghost view = { λ s. record { bytes = s.bytes.items; room = s.room; plan = s.plan } };

    ghost invariant = { λ s. (vec_len s.bytes ≤ s.room) × (s.room ≤ vec_capacity s.bytes) };
}

impl MemSink {
    /// A sink for `room` bytes. The calls of `append` whose numbers from 0 are in `fails` fail and take nothing; one
    /// that doesn't fit takes what fits and fails.
    pub fn new(alloc: Global, room: usize, fails: Vec<u64>) -> Result<MemSink, Memory>
        ensures { IfOk result (λ s. s ≡ record { bytes = []; room = room; plan = uncalled fails.items }) }
    {
        let bytes = Vec::with_capacity(alloc, room)?;
        Ok(MemSink {
            bytes,
            room,
            plan: Plan::new(fails),
        })
    }

    /// The bytes so far.
    pub fn bytes(&self) -> &[u8]
        ensures { result.now ≡ self.now.bytes }
    {
        self.bytes.as_slice()
    }
}

impl Sink for MemSink {
    ghost seen = { as_sink };

    fn append(&mut self, piece: &[u8]) -> Result<(), Failed>
        ensures sink { SinkAnswers (as_sink self.old) (as_sink self.new) piece.now result }
        ensures refused { is_refused result ≡ refuses_append self.old piece.now }
        ensures left { self.new ≡ after_append self.old piece.now }
    {
        let (prefix, rest) = piece.split_at(piece.len().min(self.room - self.bytes.len()));
        if self.plan.fails_now() {
            return Err(Failed);
        }
        if self.bytes.extend_from_slice(prefix).is_err() || !rest.is_empty() {
            self.plan.fault();
            return Err(Failed);
        }
        Ok(())
    }
}
