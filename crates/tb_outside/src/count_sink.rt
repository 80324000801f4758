ghost use Rattle.std.specs.Prelude.{◌≡◌, ◌+◌, ℕ, min, length, None};
ghost use Rattle.tb_types.specs.Counts.{last_count};
ghost use Rattle.tb_outside.specs.Sink.{SinkAnswers};

use crate::failed::Failed;
use crate::sink::Sink;
use std::marker::Model;

/// A sink that keeps the number of its bytes alone, up to 2^64 - 1, tells nothing of them and never fails.
#[derive(Debug, Drop)]
pub struct CountSink {
    count: u64,
}

impl Model for CountSink {
    ghost Value = { ℕ };

    ghost view = { λ s. s.count };
}

impl CountSink {
    /// A sink without bytes. It takes no memory.
    pub fn new() -> CountSink
        ensures { result ≡ 0 }
    {
        CountSink { count: 0 }
    }

    /// How many bytes it was given.
    pub fn count(&self) -> u64
        ensures { result ≡ self.now }
    {
        self.count
    }
}

impl Sink for CountSink {
    ghost seen = { λ s. record { bytes = None; faults = 0 } };

    fn append(&mut self, piece: &[u8]) -> Result<(), Failed>
        ensures sink { SinkAnswers (record { bytes = None; faults = 0 }) (record { bytes = None; faults = 0 }) piece.now result }
        ensures counted { self.new ≡ min (self.old + length piece.now) last_count }
    {
        self.count = self.count.saturating_add(piece.len() as u64);
        Ok(())
    }
}
