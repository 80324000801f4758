//! One lane: it claims, books, loads and pushes blocks, and pops and works them.
ghost use Rattle.std.specs.Prelude.{◌≡◌, ◌+◌, ◌≤◌, length, IfOk, IfSome};
ghost use Rattle.tb_types.specs.Needs.{block_need};
ghost use Rattle.work_topology.specs.Objects.{objects_of};
ghost use Rattle.work_topology.specs.Lane.{scene, IsWell, IsReady, GoesOnWell, TakesUp, Loads, PushesOn, TakesOn, FillsUp};

use crate::ends::Done;
use crate::job::PassJob;
use crate::places::{block_at, need_of};
use crate::post::{Post, Report};
use batch_queue::{Batch, BatchQueue};
use claim_desk::Desk;
use memory_book::{Grant, Purse, SharedBook};
use pbf_blobs::BlockAt;
use std::alloc::Global;
use std::sync::Wait;
use std::thread;
use tb_outside::{Gate, Lane, Source, Spill};
use tb_types::{Trouble, Whom};

/// What the lanes of a pass share.
#[derive(Drop)]
pub struct Crew<'a, T: Wait, L: Purse, G, J> {
    pub rt: &'a T,
    pub alloc: Global,
    pub desk: &'a Desk,
    pub queue: &'a BatchQueue<L>,
    pub book: &'a SharedBook<L>,
    pub blocks: &'a [BlockAt],
    pub gate: &'a G,
    pub pass: u8,
    pub job: &'a J,
}

/// Works a batch and gives its grant back, whatever the job answers.
pub fn work<T: Wait, L: Purse, R: Source, S: Spill, J: PassJob<L, R, S>>(
    rt: &T,
    book: &SharedBook<L>,
    job: &J,
    number: u32,
    lane: &mut Lane<R, S>,
    report: &mut Report<J::Out>,
    batch: Batch<L>,
) -> Result<(), Trouble>
    requires fits { (J.meaning job.now).fits number report.old.out (objects_of lane.old) }
    ensures { TakesUp (J.meaning job.now) S.seen number batch lane.old report.old lane.new report.new result }
{
    let answer = job.work(&mut report.out, lane, &batch);
    let block = batch.no();
    let grant = batch.finish();
    let granted = grant.amount();
    book.give(rt, grant);
    answer?;
    report.done.push(Done {
        lane: number,
        block,
        granted,
    })?;
    Ok(())
}

impl<'a, T: Wait, L: Purse, G: Gate, J> Crew<'a, T, L, G, J> {
    /// Pops a batch and works it; `false` where the queue was empty.
    fn help<R: Source, S: Spill>(
        &self,
        number: u32,
        lane: &mut Lane<R, S>,
        post: &mut Post<L, J::Out>,
    ) -> Result<bool, Trouble>
    where
        J: PassJob<L, R, S>,
        requires well { IsWell (scene (J.meaning self.now.job.now) R.seen S.seen self.now.blocks.now self.now.desk.now self.now.queue.now) number lane.old post.old }
        ensures { GoesOnWell (scene (J.meaning self.now.job.now) R.seen S.seen self.now.blocks.now self.now.desk.now self.now.queue.now) number lane.old post.old lane.new post.new result }
    {
        let Some(batch) = self.queue.pop(self.rt, &mut post.queue) else {
            return Ok(false);
        };
        match work(
            self.rt,
            self.book,
            self.job,
            number,
            lane,
            &mut post.report,
            batch,
        ) {
            Ok(()) => Ok(true),
            Err(trouble) => Err(trouble),
        }
    }

    /// Helps once, and lets other threads run where there is nothing to help with.
    fn help_or_yield<R: Source, S: Spill>(
        &self,
        number: u32,
        lane: &mut Lane<R, S>,
        post: &mut Post<L, J::Out>,
    ) -> Result<(), Trouble>
    where
        J: PassJob<L, R, S>,
        requires well { IsWell (scene (J.meaning self.now.job.now) R.seen S.seen self.now.blocks.now self.now.desk.now self.now.queue.now) number lane.old post.old }
        ensures { GoesOnWell (scene (J.meaning self.now.job.now) R.seen S.seen self.now.blocks.now self.now.desk.now self.now.queue.now) number lane.old post.old lane.new post.new result }
    {
        match self.help(number, lane, post) {
            Ok(true) => Ok(()),
            Ok(false) => {
                thread::yield_now();
                Ok(())
            }
            Err(trouble) => Err(trouble),
        }
    }

    /// Books the need of a block. While the book is busy, the lane helps.
    fn book<R: Source, S: Spill>(
        &self,
        number: u32,
        lane: &mut Lane<R, S>,
        post: &mut Post<L, J::Out>,
        need: u64,
    ) -> Result<Grant<L>, Trouble>
    where
        J: PassJob<L, R, S>,
        requires well { IsWell (scene (J.meaning self.now.job.now) R.seen S.seen self.now.blocks.now self.now.desk.now self.now.queue.now) number lane.old post.old }
        ensures going { GoesOnWell (scene (J.meaning self.now.job.now) R.seen S.seen self.now.blocks.now self.now.desk.now self.now.queue.now) number lane.old post.old lane.new post.new result }
        ensures grant { IfOk result (λ grant. grant ≡ need) }
    {
        for _ in self.rt.forever() {
            match self.book.book(self.rt, need) {
                Ok(grant) => return Ok(grant),
                Err(_) => {}
            }
            match self.help_or_yield(number, lane, post) {
                Ok(()) => {}
                Err(trouble) => return Err(trouble),
            }
        }
        unreachable!()
    }

    /// Loads a block's body. Where that is refused, the grant is given back.
    fn load<R: Source, S: Spill>(
        &self,
        number: u32,
        lane: &mut Lane<R, S>,
        block: BlockAt,
        grant: Grant<L>,
    ) -> Result<Batch<L>, Trouble>
        requires within { IfSome (R.seen lane.old.reader).bytes (λ bytes. block.at + block.len ≤ length bytes) }
        requires covers { block_need block.len ≤ grant }
        ensures { Loads R.seen number block lane.old lane.new result }
    {
        let mut body = match Vec::from_elem(self.alloc, 0u8, block.len as usize) {
            Ok(body) => body,
            Err(_) => {
                self.book.give(self.rt, grant);
                return Err(Trouble::Memory);
            }
        };
        match lane.reader.load(block.at, body.as_mut_slice()) {
            Ok(()) => Ok(Batch::new(block.no, body, grant)),
            Err(_) => {
                self.book.give(self.rt, grant);
                Err(Trouble::Source(Whom::Lane(number)))
            }
        }
    }

    /// Pushes a batch. While the queue is full, the lane helps. Where it leaves early, the grant is given back.
    fn push<R: Source, S: Spill>(
        &self,
        number: u32,
        lane: &mut Lane<R, S>,
        post: &mut Post<L, J::Out>,
        batch: Batch<L>,
    ) -> Result<(), Trouble>
    where
        J: PassJob<L, R, S>,
        requires well { IsWell (scene (J.meaning self.now.job.now) R.seen S.seen self.now.blocks.now self.now.desk.now self.now.queue.now) number lane.old post.old }
        ensures { PushesOn (scene (J.meaning self.now.job.now) R.seen S.seen self.now.blocks.now self.now.desk.now self.now.queue.now) number lane.old post.old batch.entry lane.new post.new result }
    {
        let mut batch = batch;
        for _ in self.rt.forever() {
            match self.queue.push(self.rt, &mut post.queue, batch) {
                Ok(()) => return Ok(()),
                Err(back) => batch = back,
            }
            match self.help_or_yield(number, lane, post) {
                Ok(()) => {}
                Err(trouble) => {
                    self.book.give(self.rt, batch.finish());
                    return Err(trouble);
                }
            }
        }
        unreachable!()
    }

    /// Claims a block and pushes it with its body and its grant; `false` where none was left.
    fn take<R: Source, S: Spill>(
        &self,
        number: u32,
        lane: &mut Lane<R, S>,
        post: &mut Post<L, J::Out>,
    ) -> Result<bool, Trouble>
    where
        J: PassJob<L, R, S>,
        requires well { IsReady (scene (J.meaning self.now.job.now) R.seen S.seen self.now.blocks.now self.now.desk.now self.now.queue.now) number lane.old post.old }
        ensures { TakesOn (scene (J.meaning self.now.job.now) R.seen S.seen self.now.blocks.now self.now.desk.now self.now.queue.now) number lane.old post.old lane.new post.new result }
    {
        let Some(place) = self.desk.claim(&mut post.seat) else {
            return Ok(false);
        };
        match post.report.claims.push(place) {
            Ok(()) => {}
            Err(_) => return Err(Trouble::Memory),
        }
        let block = block_at(self.blocks, place);
        self.gate.at_claim(number, self.pass, block.no);
        let grant = match self.book(number, lane, post, need_of(block)) {
            Ok(grant) => grant,
            Err(trouble) => return Err(trouble),
        };
        let batch = match self.load(number, lane, block, grant) {
            Ok(batch) => batch,
            Err(trouble) => return Err(trouble),
        };
        match self.push(number, lane, post, batch) {
            Ok(()) => Ok(true),
            Err(trouble) => Err(trouble),
        }
    }

    /// Works until the queue is empty.
    fn empty<R: Source, S: Spill>(
        &self,
        number: u32,
        lane: &mut Lane<R, S>,
        post: &mut Post<L, J::Out>,
    ) -> Result<(), Trouble>
    where
        J: PassJob<L, R, S>,
        requires well { IsWell (scene (J.meaning self.now.job.now) R.seen S.seen self.now.blocks.now self.now.desk.now self.now.queue.now) number lane.old post.old }
        ensures { GoesOnWell (scene (J.meaning self.now.job.now) R.seen S.seen self.now.blocks.now self.now.desk.now self.now.queue.now) number lane.old post.old lane.new post.new result }
    {
        for _ in self.rt.forever() {
            match self.help(number, lane, post) {
                Ok(true) => {}
                Ok(false) => return Ok(()),
                Err(trouble) => return Err(trouble),
            }
        }
        unreachable!()
    }

    /// The lane's whole part: it claims until no block is left, and then works until the queue is empty.
    pub fn run<R: Source, S: Spill>(
        &self,
        number: u32,
        lane: &mut Lane<R, S>,
        post: &mut Post<L, J::Out>,
    ) -> Result<(), Trouble>
    where
        J: PassJob<L, R, S>,
        requires well { IsReady (scene (J.meaning self.now.job.now) R.seen S.seen self.now.blocks.now self.now.desk.now self.now.queue.now) number lane.old post.old }
        ensures { FillsUp (scene (J.meaning self.now.job.now) R.seen S.seen self.now.blocks.now self.now.desk.now self.now.queue.now) number lane.old post.old lane.new post.new result }
    {
        for _ in self.rt.forever() {
            match self.take(number, lane, post) {
                Ok(true) => {}
                Ok(false) => match self.empty(number, lane, post) {
                    Ok(()) => return Ok(()),
                    Err(trouble) => return Err(trouble),
                },
                Err(trouble) => return Err(trouble),
            }
        }
        unreachable!()
    }
}
