//! What lanes do side by side.
ghost use Rattle.work_topology.specs.Objects.{objects_of};
ghost use Rattle.work_topology.specs.Spread.{AllReady, AllRun};
ghost use Rattle.work_topology.specs.Job.{Meaning};
ghost use Rattle.work_topology.specs.Lane.{scene, IsReady, RunsOut, EndsPart};

use crate::halves::{Step, Way, spread};
use crate::job::PassJob;
use crate::post::{Post, Report};
use crate::worker::Crew;
use memory_book::Purse;
use std::marker::PhantomData;
use std::sync::Wait;
use std::thread::Threads;
use tb_outside::{Gate, Lane, Source, Spill};

impl<'a, T: Wait, L: Purse, R: Source, S: Spill, G: Gate, J: PassJob<L, R, S>> Step<
    Lane<R, S>,
    Post<L, J::Out>,
> for Crew<'a, T, L, G, J>
where
    J::Out: Drop,
{
    ghost ready = { λ crew number lane post. IsReady (scene (J.meaning crew.job.now) R.seen S.seen crew.blocks.now crew.desk.now crew.queue.now) number lane post };

    ghost runs = { λ crew number lane post lane' post'. RunsOut (scene (J.meaning crew.job.now) R.seen S.seen crew.blocks.now crew.desk.now crew.queue.now) number lane post lane' post' };

    fn step(&self, number: u32, lane: &mut Lane<R, S>, post: &mut Post<L, J::Out>) {
        match self.run(number, lane, post) {
            Ok(()) => post.report.trouble = None,
            Err(trouble) => post.report.trouble = Some(trouble),
        }
    }
}

/// Runs each lane to its end.
pub fn run_lanes<
    T: Threads + Wait + Sync,
    L: Purse + Send + Sync,
    R: Source + Send,
    S: Spill + Send,
    G: Gate + Sync,
    J: PassJob<L, R, S> + Sync,
>(
    rt: &T,
    way: Way,
    crew: &Crew<'_, T, L, G, J>,
    lanes: &mut [Lane<R, S>],
    posts: &mut Vec<Post<L, J::Out>>,
)
where
    J::Out: Drop + Send,
    requires { AllReady (λ number lane post. IsReady (scene (J.meaning crew.now.job.now) R.seen S.seen crew.now.blocks.now crew.now.desk.now crew.now.queue.now) number lane post) 0 lanes.old posts.old.items }
    ensures { AllRun (λ number lane post lane' post'. RunsOut (scene (J.meaning crew.now.job.now) R.seen S.seen crew.now.blocks.now crew.now.desk.now crew.now.queue.now) number lane post lane' post') 0 lanes.old posts.old.items lanes.new posts.new.items }
{
    spread(rt, way, crew, 0, lanes, posts.as_mut_slice());
}

/// The end of a lane's part.
#[derive(Drop)]
pub struct Ender<'a, L, J> {
    job: &'a J,
    ledger: PhantomData<L>,
}

impl<'a, L: Purse, R: Source, S: Spill, J: PassJob<L, R, S>> Step<Lane<R, S>, Report<J::Out>>
    for Ender<'a, L, J>
where
    J::Out: Drop,
{
    ghost ready = { λ ender number lane report. (J.meaning ender.job.now).fits number report.out (objects_of lane) };

    ghost runs = { λ ender number lane report lane' report'. EndsPart (J.meaning ender.job.now) S.seen number lane report lane' report' };

    fn step(&self, _number: u32, lane: &mut Lane<R, S>, report: &mut Report<J::Out>) {
        match self.job.end(&mut report.out, lane) {
            Ok(()) => report.trouble = None,
            Err(trouble) => report.trouble = Some(trouble),
        }
    }
}

/// Ends each lane's part.
pub fn end_lanes<
    T: Threads + Wait + Sync,
    L: Purse + Send + Sync,
    R: Source + Send,
    S: Spill + Send,
    J: PassJob<L, R, S> + Sync,
>(rt: &T, job: &J, lanes: &mut [Lane<R, S>], reports: &mut Vec<Report<J::Out>>)
where
    J::Out: Drop + Send,
    requires { AllReady (λ number lane report. (J.meaning job.now).fits number report.out (objects_of lane)) 0 lanes.old reports.old.items }
    ensures { AllRun (λ number lane report lane' report'. EndsPart (J.meaning job.now) S.seen number lane report lane' report') 0 lanes.old reports.old.items lanes.new reports.new.items }
{
    let ender = Ender {
        job,
        ledger: PhantomData::<L>,
    };
    spread(
        rt,
        Way::SideBySide,
        &ender,
        0,
        lanes,
        reports.as_mut_slice(),
    );
}
