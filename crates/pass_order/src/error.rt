//! Why a pass ended early.
ghost use Rattle.std.specs.Prelude.{◌≡◌};
ghost use Rattle.pass_order.specs.declared.error.OrderErr.TheVariants as errors;

use tb_types::Memory as NoMemory;

/// Why the steps of a pass were not all done.
#[derive(Clone, Copy, Debug, PartialEq, Eq)]
pub enum OrderErr<E> {
    /// A step failed, for this reason.
    Failed(E),
    /// Want of memory, before the first step.
    Memory,
}

impl<E> From<NoMemory> for OrderErr<E> {
    ghost from_gives = { λ _ e. e ≡ errors.Memory };

    fn from(_e: NoMemory) -> OrderErr<E> {
        OrderErr::Memory
    }
}
