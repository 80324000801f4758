/// An item of the index: its key as two numbers, of the first 16 bytes and of the last six, and where its bytes begin and how
/// many they are. Slots are ordered by key, and those of one key as they were added.
#[derive(Clone, Copy, Debug, PartialEq, Eq, PartialOrd, Ord)]
pub struct Slot {
    pub prefix: u128,
    pub suffix: u64,
    pub at: u32,
    pub len: u32,
}
