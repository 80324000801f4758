ghost use Rattle.std.specs.Prelude.{◌≡◌, ◌+◌, ◌≤◌, length, is_some, IfSome};
ghost use Rattle.tb_outside.specs.Source.{SourceSeen, SizeAnswers, LoadAnswers};

use crate::failed::Failed;

/// Bytes that are read by place.
pub trait Source {
    // The bytes and the loads so far, where the source tells them, and the count of faults.
    ghost seen: { Self → SourceSeen };

    /// How many bytes there are.
    fn size(&mut self) -> Result<u64, Failed>
        ensures { SizeAnswers (seen self.old) (seen self.new) result };

    /// Fills `out` with the bytes from the place `at` on. After a fault `out` holds anything.
    fn load(&mut self, at: u64, out: &mut [u8]) -> Result<(), Failed>
        requires { IfSome (seen self.old).bytes (λ bytes. at + length out.old ≤ length bytes) }
        ensures { LoadAnswers (seen self.old) (seen self.new) at out.new result };

    // All sources of one type tell their bytes, or none does.
    ghost same_told: { (a b : Self) → is_some (seen a).bytes ≡ is_some (seen b).bytes };
}
