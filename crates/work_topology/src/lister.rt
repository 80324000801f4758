//! The simplest job: it lists the blocks that it works.
ghost use Rattle.std.specs.Prelude.{◌≡◌, ◌++◌, ◌∷◌, [], Some, true, slice_get};
ghost use Rattle.work_topology.specs.Job.{Meaning};

use crate::job::PassJob;
use batch_queue::Batch;
use memory_book::Purse;
use std::alloc::Global;
use tb_outside::{Lane, Source, Spill, SpillErr};
use tb_types::{Memory, Seq, Trouble, Whom};

/// The numbers of the blocks that a lane worked, in order.
#[derive(Debug, Drop)]
pub struct Tally {
    pub lane: u32,
    pub numbers: Seq<u32>,
}

/// Lists the numbers of the blocks that it works, and begins a run of the lane's spill at the end. A body whose first byte
/// is the mark counts as changed in the pass of this number.
#[derive(Drop)]
pub struct Lister {
    pub alloc: Global,
    pub pass: u8,
    pub mark: u8,
}

/// Whether a body begins with the mark.
pub(crate) fn is_marked(body: &[u8], mark: u8) -> bool
    ensures { result ≡ true → slice_get body.now 0 ≡ Some mark }
{
    match body.first() {
        Some(first) => *first == mark,
        None => false,
    }
}

impl<L: Purse, R: Source, S: Spill> PassJob<L, R, S> for Lister {
    type Seed = u8;

    type Out = Tally;

    ghost meaning = { λ job. record {
      starts = λ lane seed out. (out.lane ≡ lane) × (out.numbers ≡ []);
      works = λ lane entry out out' old new. (out' ≡ record out { numbers = out.numbers ++ entry.no ∷ [] }) × (new ≡ old);
      ends = λ lane out out' old new. out' ≡ out;
      fits = λ lane out objects. out.lane ≡ lane;
      moves = λ old new. Unit {0};
      finds_changed = λ pass bytes. (pass ≡ job.pass) × (slice_get bytes 0 ≡ Some job.mark);
      may_be_outside = ⊥;
    } };

    fn start(&self, lane: u32, _seed: u8) -> Result<Tally, Memory> {
        Ok(Tally {
            lane,
            numbers: Seq::new(self.alloc),
        })
    }

    fn work(
        &self,
        out: &mut Tally,
        _lane: &mut Lane<R, S>,
        batch: &Batch<L>,
    ) -> Result<(), Trouble> {
        if is_marked(batch.body(), self.mark) {
            return Err(Trouble::Changed {
                pass: self.pass,
                block: batch.no(),
            });
        }
        match out.numbers.push(batch.no()) {
            Ok(()) => Ok(()),
            Err(_) => Err(Trouble::Memory),
        }
    }

    fn end(&self, out: &mut Tally, lane: &mut Lane<R, S>) -> Result<(), Trouble> {
        match lane.spill.begin_run() {
            Ok(_) => Ok(()),
            Err(SpillErr::Failed) => Err(Trouble::Spill(Whom::Lane(out.lane))),
            Err(SpillErr::Memory) => Err(Trouble::Memory),
        }
    }

    ghost goes_on = { λ job. record { stays = λ o. tt; follows = λ a b c p q. tt } };
}
