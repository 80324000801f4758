//! Why a pass ended early.
ghost use Rattle.std.specs.Prelude.{◌≡◌};
ghost use Rattle.block_pass.specs.declared.error.PassErr.TheVariants as errors;

use tb_types::Memory as NoMemory;

/// Why not all steps of a pass were done.
#[derive(Clone, Copy, Debug, PartialEq, Eq)]
pub enum PassErr<F> {
    /// The reader's count of faults rose.
    Source,
    /// What is done with blocks refused one, for this reason.
    Work(F),
    /// Want of memory.
    Memory,
}

impl<F> From<NoMemory> for PassErr<F> {
    ghost from_gives = { λ _ e. e ≡ errors.Memory };

    fn from(_e: NoMemory) -> PassErr<F> {
        PassErr::Memory
    }
}
