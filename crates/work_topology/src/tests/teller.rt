//! A job that refuses blocks by the first bytes of their bodies, over spills that don't tell their runs.
ghost use Rattle.std.specs.Prelude.{◌≡◌, None, Some, slice_get, refl};
ghost use Rattle.work_topology.specs.Job.{Meaning};

use crate::job::PassJob;
use crate::lister::is_marked;
use batch_queue::Batch;
use memory_book::Purse;
use tb_outside::{Failed, Lane, Source, Spill, SpillErr};
use tb_types::{Memory, Trouble, Whom};

/// A spill that never fails and tells nothing.
#[derive(Drop)]
pub struct Untold;

impl Spill for Untold {
    ghost seen = { λ s. record { runs = None; faults = 0 } };

    fn begin_run(&mut self) -> Result<u64, SpillErr> {
        Ok(0)
    }

    fn append(&mut self, _piece: &[u8]) -> Result<(), SpillErr> {
        Ok(())
    }

    fn end_run(&mut self) -> Result<u64, Failed> {
        Ok(0)
    }

    fn read_run(&mut self, _run: u64, _at: u64, _out: &mut [u8]) -> Result<(), Failed> {
        Ok(())
    }
}

/// Calls a block changed, outside or too large for memory where its body begins with 1, 2 or 3.
#[derive(Drop)]
pub struct Teller;

impl<L: Purse, R: Source> PassJob<L, R, Untold> for Teller {
    type Seed = u8;

    type Out = u32;

    ghost meaning = { λ job. record {
      starts = λ lane seed out. out ≡ lane;
      works = λ lane entry out out' old new. (out' ≡ out) × (new ≡ old);
      ends = λ lane out out' old new. (out' ≡ out) × (new ≡ old);
      fits = λ lane out objects. out ≡ lane;
      moves = λ old new. Unit {0};
      finds_changed = λ pass bytes. (pass ≡ 7) × (slice_get bytes 0 ≡ Some 1);
      may_be_outside = Unit {0};
    } };

    fn start(&self, lane: u32, _seed: u8) -> Result<u32, Memory> {
        Ok(lane)
    }

    fn work(
        &self,
        out: &mut u32,
        _lane: &mut Lane<R, Untold>,
        batch: &Batch<L>,
    ) -> Result<(), Trouble> {
        if is_marked(batch.body(), 1) {
            return Err(Trouble::Changed {
                pass: 7,
                block: batch.no(),
            });
        }
        if is_marked(batch.body(), 2) {
            return Err(Trouble::Outside {
                whom: Whom::Lane(*out),
                run: 3,
                at: 4,
            });
        }
        if is_marked(batch.body(), 3) {
            return Err(Trouble::Memory);
        }
        Ok(())
    }

    fn end(&self, _out: &mut u32, _lane: &mut Lane<R, Untold>) -> Result<(), Trouble> {
        Ok(())
    }

    ghost goes_on = { λ job. record { stays = λ o. tt; follows = λ a b c p q. tt } };
}
