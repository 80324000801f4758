ghost use Rattle.std.specs.Prelude.{◌≡◌, List, ℕ, Some, None, refl};

use crate::failed::Failed;
use crate::source::Source;
use std::marker::Model;

/// A source in memory, which tells its bytes, keeps no log and never fails.
#[derive(Debug, Drop)]
pub struct SteadySource {
    bytes: Vec<u8>,
}

impl Model for SteadySource {
    ghost Value = { List ℕ };

    ghost view = { λ s. s.bytes.items };
}

impl SteadySource {
    /// A source of these bytes. It takes no memory.
    pub fn new(bytes: Vec<u8>) -> SteadySource
        ensures { result ≡ bytes.items }
    {
        SteadySource { bytes }
    }
}

impl Source for SteadySource {
    ghost seen = { λ s. record { bytes = Some s; log = None; faults = 0 } };

    ghost same_told = { λ a b. refl };

    fn size(&mut self) -> Result<u64, Failed> {
        Ok(self.bytes.len() as u64)
    }

    fn load(&mut self, at: u64, out: &mut [u8]) -> Result<(), Failed> {
        let from = at as usize;
        out.copy_from_slice(&self.bytes[from..from + out.len()]);
        Ok(())
    }
}
