/// A content in the spool: the number of its run, its length in bytes, and its place behind the contents before it.
#[derive(Clone, Copy, Debug, PartialEq, Eq)]
pub struct Stored {
    pub run: u32,
    pub len: u32,
    pub offset: u64,
}
