//! What the lanes start with, and a pass as a whole.
ghost use Rattle.std.specs.Prelude.{◌≤◌, vec_len, IfOk, IfErr};
ghost use Rattle.work_topology.specs.Start.{AreStarted};
ghost use Rattle.work_topology.specs.Ends.{MayPass, PassEnds, PassCause, LanesStay};

use crate::ends::Ends;
use crate::halves::Way;
use crate::job::PassJob;
use crate::lists::{Lists, ends_of};
use crate::post::{Gathered, Report};
use crate::sides::end_lanes;
use crate::together::work_all;
use crate::trouble::told_of;
use claim_desk::Desk;
use memory_book::{Purse, SharedBook};
use pbf_blobs::BlockAt;
use std::alloc::Global;
use std::sync::Wait;
use std::thread::Threads;
use tb_outside::{Gate, Lane, Source, Spill};
use tb_types::{Memory, Seq, Trouble};

/// What each lane starts with, in order.
pub fn started<L: Purse, R: Source, S: Spill, J: PassJob<L, R, S>>(
    alloc: Global,
    job: &J,
    seeds: Vec<J::Seed>,
) -> Result<Vec<Report<J::Out>>, Memory>
where
    J::Seed: Drop,
    J::Out: Drop,
    requires few { vec_len seeds ≤ 64 }
    ensures { IfOk result (λ reports. AreStarted (J.meaning job.now) seeds.items reports.items) }
{
    let mut reports = Vec::with_capacity(alloc, seeds.len())?;
    let mut lane = 0u32;
    for seed in seeds {
        let out = job.start(lane, seed)?;
        reports.push(Report {
            out,
            claims: Seq::new(alloc),
            done: Seq::new(alloc),
            trouble: None,
        })?;
        lane += 1;
    }
    Ok(reports)
}

/// One pass over blocks by 1 to 64 lanes, with a queue of 1 to 1,024 places.
///
/// Each lane claims a block, calls the gate, books the block's need, loads its body and pushes it; while the book is busy
/// or the queue is full it pops a batch and works it, and after its last claim it works until the queue is empty. What is
/// left after that is worked by the caller on lane 0, and then each lane's part is ended. On `Ok` each block was claimed,
/// pushed, popped and worked once, under a grant that covers its need, and each grant was given back.
///
/// `Source` and `Spill` name the least object whose count rose, and come before all other troubles; then `Outside`,
/// `Changed` and `Memory`, as the job gave them. Whatever it answers, no grant is left out.
///
/// Seeds and outs that are left where a pass is refused are dropped with it.
pub fn pass<
    T: Threads + Wait + Sync,
    L: Purse + Send + Sync,
    R: Source + Send,
    S: Spill + Send,
    G: Gate + Sync,
    J: PassJob<L, R, S> + Sync,
>(
    rt: &T,
    alloc: Global,
    lanes: &mut [Lane<R, S>],
    blocks: &[BlockAt],
    book: &SharedBook<L>,
    queue: u32,
    gate: &G,
    number: u8,
    seeds: Vec<J::Seed>,
    job: &J,
) -> Result<Ends<L, J::Out>, Trouble>
where
    J::Seed: Drop + Send,
    J::Out: Drop + Send,
    requires { MayPass (J.meaning job.now) R.seen blocks.now lanes.old seeds.items queue L.budget }
    ensures settled { IfOk result (λ ends. PassEnds (J.meaning job.now) R.seen S.seen blocks.now lanes.old lanes.new seeds.items ends) }
    ensures cause { IfErr result (λ trouble. PassCause (J.meaning job.now) R.seen S.seen blocks.now lanes.old lanes.new trouble) }
    ensures lanes { LanesStay (J.meaning job.now) R.seen S.seen blocks.now lanes.old lanes.new }
{
    let starts = match started(alloc, job, seeds) {
        Ok(starts) => starts,
        Err(_) => return Err(Trouble::Memory),
    };
    let lists = match Lists::with_room(alloc, lanes.len(), blocks.len()) {
        Ok(lists) => lists,
        Err(_) => return Err(Trouble::Memory),
    };
    let (desk, seat) = match Desk::new(alloc, blocks.len() as u32) {
        Ok(made) => made,
        Err(_) => return Err(Trouble::Memory),
    };
    let gathered = match work_all(
        rt,
        alloc,
        Way::SideBySide,
        lanes,
        blocks,
        book,
        queue,
        gate,
        number,
        job,
        &desk,
        seat,
        starts,
    ) {
        Ok(gathered) => gathered,
        Err(trouble) => return Err(trouble),
    };
    let Gathered {
        mut seat,
        pass,
        mut reports,
    } = gathered;
    end_lanes(rt, job, lanes, &mut reports);
    match told_of(reports.as_slice()) {
        Some(trouble) => return Err(trouble),
        None => {}
    }
    desk.close(&mut seat);
    match ends_of(alloc, blocks, lists, reports, seat, pass) {
        Ok(ends) => Ok(ends),
        Err(_) => Err(Trouble::Memory),
    }
}
