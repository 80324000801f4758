//! Lanes whose turns are drawn.

/// Lanes whose turns are drawn from a sequence of numbers, which goes on from one pass to the next.
#[derive(Clone, Copy, Debug, PartialEq, Eq)]
pub struct Drawn {
    /// The number that was taken last. Before the first pass it is the seed.
    pub last: u64,
    /// How many lanes there are.
    pub lanes: u32,
    /// How many units their queue holds.
    pub queue: u32,
    /// The part of memory that the needs of units are booked in.
    pub part: u64,
}
