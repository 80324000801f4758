//! What passes know. It exists in proofs alone: no value of these types is made.
use std::collections::LinkedList;

/// A batch's number and bytes.
#[derive(Drop)]
pub struct Entry {
    pub no: u32,
    pub bytes: LinkedList<u8>,
}

/// What one pass knows.
pub struct Hand {
    /// It is the first pass.
    pub first: bool,
    /// 1 until it is joined into the first pass, and then 0.
    pub live: u64,
    /// Of the first pass: how many others are out.
    pub out: u64,
    /// The lists are in the order in which the queue took and gave their entries.
    pub put_in_order: bool,
    pub taken_in_order: bool,
    pub put: LinkedList<Entry>,
    pub taken: LinkedList<Entry>,
}
