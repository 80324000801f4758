/// What a lane passes before it takes up work, so that a test can hold lanes back. It promises nothing.
pub trait Gate {
    /// Called with the lane's number, the number of the pass and that of the block.
    fn at_claim(&self, lane: u32, pass: u8, block: u32);
}

/// A gate that does nothing.
#[derive(Clone, Copy, Debug, PartialEq, Eq)]
pub struct FreeGate;

impl Gate for FreeGate {
    fn at_claim(&self, _lane: u32, _pass: u8, _block: u32) {}
}
