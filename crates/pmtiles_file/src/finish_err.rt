/// Why an archive isn't finished.
#[derive(Clone, Copy, Debug, PartialEq, Eq)]
pub enum FinishErr {
    /// Want of memory: nothing was appended.
    Memory,
    /// The spool failed: its count of faults rose.
    Spill,
    /// The sink failed: its count of faults rose.
    Sink,
}
