use crate::ends::Done;
use batch_queue::QueuePass;
use claim_desk::DeskSeat;
use memory_book::Purse;
use tb_types::{Seq, Trouble};

/// What a lane gives back: its out, the places that it claimed, the blocks that it worked, and why it left early.
#[derive(Drop)]
pub struct Report<O> {
    pub out: O,
    pub claims: Seq<u32>,
    pub done: Seq<Done>,
    pub trouble: Option<Trouble>,
}

/// What a lane works with.
#[derive(Drop)]
pub struct Post<L: Purse, O> {
    pub seat: DeskSeat,
    pub queue: QueuePass<L>,
    pub report: Report<O>,
}

/// What all lanes did, lane after lane, with their seats and passes joined into the first ones.
#[derive(Drop)]
pub struct Gathered<L: Purse, O> {
    pub seat: DeskSeat,
    pub pass: QueuePass<L>,
    pub reports: Vec<Report<O>>,
}
