//! What is left in the queue after the lanes ran.
ghost use Rattle.std.specs.Prelude.{◌≡◌, ◌<◌, length};
ghost use Rattle.batch_queue.specs.Facts.{IsPassHere, IsWhole};
ghost use Rattle.work_topology.specs.Objects.{objects_of};
ghost use Rattle.work_topology.specs.Parts.{EmptiesQueue, FirstFits, WorksOnFirst, GivesLeft};

use crate::job::PassJob;
use crate::post::Report;
use crate::worker::work;
use batch_queue::{BatchQueue, QueuePass};
use memory_book::{Purse, SharedBook};
use std::sync::Wait;
use tb_outside::{Lane, Source, Spill};
use tb_types::Trouble;

// Works what is left in the queue on a lane and its report, up to the first trouble.
fn work_on<T: Wait, L: Purse, R: Source, S: Spill, J: PassJob<L, R, S>>(
    rt: &T,
    book: &SharedBook<L>,
    job: &J,
    queue: &mut BatchQueue<L>,
    pass: &mut QueuePass<L>,
    lane: &mut Lane<R, S>,
    report: &mut Report<J::Out>,
) -> Result<(), Trouble>
    requires here { IsPassHere queue.old pass.old }
    requires whole { IsWhole pass.old }
    requires fits { (J.meaning job.now).fits 0 report.old.out (objects_of lane.old) }
    ensures queue { queue.new ≡ queue.old }
    ensures left { EmptiesQueue (J.meaning job.now) S.seen 0 pass.old lane.old report.old pass.new lane.new report.new result }
{
    for _ in rt.forever() {
        match queue.drain(rt, pass) {
            Some(batch) => match work(rt, book, job, 0, lane, report, batch) {
                Ok(()) => {}
                Err(trouble) => return Err(trouble),
            },
            None => return Ok(()),
        }
    }
    unreachable!()
}

/// Works what is left in the queue on lane 0, up to the first trouble.
pub fn work_left<T: Wait, L: Purse, R: Source, S: Spill, J: PassJob<L, R, S>>(
    rt: &T,
    book: &SharedBook<L>,
    job: &J,
    queue: &mut BatchQueue<L>,
    pass: &mut QueuePass<L>,
    lanes: &mut [Lane<R, S>],
    reports: &mut Vec<Report<J::Out>>,
) -> Result<(), Trouble>
    requires some { (0 < length lanes.old) × (0 < length reports.old.items) }
    requires here { IsPassHere queue.old pass.old }
    requires whole { IsWhole pass.old }
    requires fits { FirstFits (J.meaning job.now) lanes.old reports.old.items }
    ensures queue { queue.new ≡ queue.old }
    ensures left { WorksOnFirst (J.meaning job.now) S.seen pass.old lanes.old reports.old.items pass.new lanes.new reports.new.items result }
{
    let reports = reports.as_mut_slice();
    work_on(rt, book, job, queue, pass, &mut lanes[0], &mut reports[0])
}

/// Gives back the grants of all that is left in the queue, and ends it.
pub fn give_left<T: Wait, L: Purse>(
    rt: &T,
    book: &SharedBook<L>,
    mut queue: BatchQueue<L>,
    pass: &mut QueuePass<L>,
)
    requires here { IsPassHere queue pass.old }
    requires whole { IsWhole pass.old }
    ensures { GivesLeft pass.old pass.new }
{
    for _ in rt.forever() {
        match queue.drain(rt, pass) {
            Some(batch) => book.give(rt, batch.finish()),
            None => {
                queue.end(pass);
                return;
            }
        }
    }
    unreachable!()
}
