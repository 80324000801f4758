//! All lanes together: seats and passes are dealt, the lanes run, and what is left in the queue is worked.
ghost use Rattle.std.specs.Prelude.{◌≡◌, ◌<◌, ◌≤◌, length, vec_len, vec_capacity, IfOk, IfErr};
ghost use Rattle.claim_desk.specs.Facts.{IsSeatOf};
ghost use Rattle.batch_queue.specs.Facts.{IsPassHere, IsWhole};
ghost use Rattle.work_topology.specs.Ends.{PassCause, LanesStay};
ghost use Rattle.work_topology.specs.Lane.{scene};
ghost use Rattle.work_topology.specs.Parts.{first_seat, first_pass, MayWork, HaveRunOut, HaveWorked, FirstFits, NoneTold, WorksRest};

use crate::deal::{deal, gather};
use crate::drain::{give_left, work_left};
use crate::halves::Way;
use crate::job::PassJob;
use crate::post::{Gathered, Post, Report};
use crate::sides::run_lanes;
use crate::trouble::told_of;
use crate::worker::Crew;
use batch_queue::{BatchQueue, QueuePass};
use claim_desk::{Desk, DeskSeat};
use memory_book::{Purse, SharedBook};
use pbf_blobs::BlockAt;
use std::alloc::Global;
use std::sync::Wait;
use std::thread::Threads;
use tb_outside::{Gate, Lane, Source, Spill};
use tb_types::{Memory, Trouble};

// Empty lists with room for so many posts and reports.
fn rooms<L: Purse, O: Drop>(
    alloc: Global,
    count: usize,
) -> Result<(Vec<Post<L, O>>, Vec<Report<O>>), Memory>
    ensures posts { IfOk result (λ made. (vec_len made.0 ≡ 0) × (count ≤ vec_capacity made.0)) }
    ensures reports { IfOk result (λ made. (vec_len made.1 ≡ 0) × (count ≤ vec_capacity made.1)) }
{
    let posts = Vec::with_capacity(alloc, count)?;
    let reports = Vec::with_capacity(alloc, count)?;
    Ok((posts, reports))
}

/// Deals seats and passes to the lanes, runs them to their ends, and gathers what they did. The room for it is there.
fn run_all<
    T: Threads + Wait + Sync,
    L: Purse + Send + Sync,
    R: Source + Send,
    S: Spill + Send,
    G: Gate + Sync,
    J: PassJob<L, R, S> + Sync,
>(
    crew: &Crew<'_, T, L, G, J>,
    way: Way,
    lanes: &mut [Lane<R, S>],
    seat: DeskSeat,
    pass: QueuePass<L>,
    starts: Vec<Report<J::Out>>,
    mut posts: Vec<Post<L, J::Out>>,
    reports: Vec<Report<J::Out>>,
) -> Gathered<L, J::Out>
where
    J::Out: Drop + Send,
    requires may { MayWork (J.meaning crew.now.job.now) R.seen crew.now.blocks.now lanes.old crew.now.desk.now starts.items crew.now.queue.now.capacity }
    requires seat { seat ≡ first_seat crew.now.desk.now 0 }
    requires pass { pass ≡ first_pass crew.now.queue.now 0 }
    requires posts { (vec_len posts ≡ 0) × (length lanes.old ≤ vec_capacity posts) }
    requires reports { (vec_len reports ≡ 0) × (length lanes.old ≤ vec_capacity reports) }
    ensures { HaveRunOut (scene (J.meaning crew.now.job.now) R.seen S.seen crew.now.blocks.now crew.now.desk.now crew.now.queue.now) lanes.old starts.items lanes.new result }
{
    deal(crew.desk, crew.queue, seat, pass, starts, &mut posts);
    run_lanes(crew.rt, way, crew, lanes, &mut posts);
    gather(crew.desk, crew.queue, posts, reports)
}

/// Works what is left in the queue on lane 0 where no lane had trouble, up to the first trouble.
fn work_rest<T: Wait, L: Purse, R: Source, S: Spill, J: PassJob<L, R, S>>(
    rt: &T,
    book: &SharedBook<L>,
    job: &J,
    queue: &mut BatchQueue<L>,
    pass: &mut QueuePass<L>,
    lanes: &mut [Lane<R, S>],
    reports: &mut Vec<Report<J::Out>>,
) -> Result<(), Trouble>
    requires some { (0 < length lanes.old) × (0 < length reports.old.items) }
    requires here { IsPassHere queue.old pass.old }
    requires whole { IsWhole pass.old }
    requires fits { NoneTold reports.old.items → FirstFits (J.meaning job.now) lanes.old reports.old.items }
    ensures queue { queue.new ≡ queue.old }
    ensures rest { WorksRest (J.meaning job.now) S.seen pass.old lanes.old reports.old.items pass.new lanes.new reports.new.items result }
{
    match told_of(reports.as_slice()) {
        Some(trouble) => Err(trouble),
        None => match work_left(rt, book, job, queue, pass, lanes, reports) {
            Ok(()) => Ok(()),
            Err(trouble) => Err(trouble),
        },
    }
}

/// Works all blocks on all lanes, from what each lane starts with. On every path the queue is emptied and ended.
pub fn work_all<
    T: Threads + Wait + Sync,
    L: Purse + Send + Sync,
    R: Source + Send,
    S: Spill + Send,
    G: Gate + Sync,
    J: PassJob<L, R, S> + Sync,
>(
    rt: &T,
    alloc: Global,
    way: Way,
    lanes: &mut [Lane<R, S>],
    blocks: &[BlockAt],
    book: &SharedBook<L>,
    queue: u32,
    gate: &G,
    number: u8,
    job: &J,
    desk: &Desk,
    seat: DeskSeat,
    starts: Vec<Report<J::Out>>,
) -> Result<Gathered<L, J::Out>, Trouble>
where
    J::Out: Drop + Send,
    requires may { MayWork (J.meaning job.now) R.seen blocks.now lanes.old desk.now starts.items queue }
    requires seat { seat ≡ first_seat desk.now 0 }
    ensures worked { IfOk result (λ g. HaveWorked (J.meaning job.now) R.seen S.seen blocks.now lanes.old lanes.new starts.items g.reports.items g.seat g.pass) }
    ensures desk { IfOk result (λ g. IsSeatOf desk.now g.seat) }
    ensures cause { IfErr result (λ trouble. PassCause (J.meaning job.now) R.seen S.seen blocks.now lanes.old lanes.new trouble) }
    ensures lanes { LanesStay (J.meaning job.now) R.seen S.seen blocks.now lanes.old lanes.new }
{
    let (posts, reports) = match rooms(alloc, lanes.len()) {
        Ok(rooms) => rooms,
        Err(_) => return Err(Trouble::Memory),
    };
    let (mut queue, first) = match BatchQueue::new(alloc, queue) {
        Ok(made) => made,
        Err(_) => return Err(Trouble::Memory),
    };
    let crew = Crew {
        rt,
        alloc,
        desk,
        queue: &queue,
        book,
        blocks,
        gate,
        pass: number,
        job,
    };
    let Gathered {
        seat,
        mut pass,
        mut reports,
    } = run_all(&crew, way, lanes, seat, first, starts, posts, reports);
    match work_rest(rt, book, job, &mut queue, &mut pass, lanes, &mut reports) {
        Ok(()) => {}
        Err(trouble) => {
            give_left(rt, book, queue, &mut pass);
            return Err(trouble);
        }
    }
    queue.end(&mut pass);
    Ok(Gathered {
        seat,
        pass,
        reports,
    })
}
