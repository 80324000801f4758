use batch_queue::QueuePass;
use claim_desk::DeskSeat;
use memory_book::Purse;
use tb_types::Seq;

/// A block that was worked: the lane that worked it, the number of its frame, and the bytes that were granted for it.
#[derive(Clone, Copy, Debug, PartialEq, Eq)]
pub struct Done {
    pub lane: u32,
    pub block: u32,
    pub granted: u64,
}

/// How a pass ended: what each lane gathered, and what each lane did.
///
/// `claims`, `pushed` and `popped` have one list for each lane, of places in the list of blocks, counted from 0. `claims` is
/// what the lane listed, tied to the list of its seat; `pushed` is a copy of it, tied to what the queue's pass pushed; and
/// `popped` are the places of the lane's `done`, tied to what that pass popped.
#[derive(Drop)]
pub struct Ends<L: Purse, O> {
    pub outs: Seq<O>,
    pub claims: Seq<Seq<u32>>,
    pub pushed: Seq<Seq<u32>>,
    /// With what the caller drained, in the list of lane 0.
    pub popped: Seq<Seq<u32>>,
    /// Lane after lane, and in each the blocks as it worked them.
    pub done: Seq<Done>,
    /// The desk's seat, with all seats joined.
    pub seat: DeskSeat,
    /// The queue's pass, with all passes joined.
    pub queue: QueuePass<L>,
}
