ghost use Rattle.std.specs.Prelude.{◌≡◌, ◌+◌, ◌<◌, ◌≤◌, ◌∷◌, [], IfSome, OnOk, length, slice_range};
ghost use Rattle.run_merge.specs.Cursors.{bytes_of_run};
ghost use Rattle.run_merge.specs.Objects.{objects_of, told_of, IsThere};
ghost use Rattle.run_merge.specs.Steps.{OnlyReads};

use crate::merge_err::MergeErr;
use crate::named_run::{NamedRun, Store};
use tb_outside::{Lane, Spill};

/// Fills `out` with the bytes of a run from the place `at` on.
pub fn read_from<R, S: Spill>(
    run: NamedRun,
    at: u64,
    out: &mut [u8],
    lanes: &mut [Lane<R, S>],
    spool: &mut S,
) -> Result<(), MergeErr>
    requires there { IsThere (objects_of S.seen lanes.old spool.old) run.store }
    requires ended { IfSome (told_of (objects_of S.seen lanes.old spool.old) run) (λ runs. run.run.run < length runs.ended) }
    requires within { IfSome (told_of (objects_of S.seen lanes.old spool.old) run) (λ runs. at + length out.old ≤ length (bytes_of_run runs run)) }
    ensures value { OnOk result (IfSome (told_of (objects_of S.seen lanes.old spool.old) run) (λ runs. out.new ≡ slice_range (bytes_of_run runs run) at (at + length out.old))) }
    ensures reads { OnlyReads (objects_of S.seen lanes.old spool.old) (objects_of S.seen lanes.new spool.new) (run ∷ []) result }
{
    match run.store {
        Store::Lane(lane) => match lanes[lane as usize].spill.read_run(run.run.run, at, out) {
            Ok(()) => Ok(()),
            Err(_) => Err(MergeErr::Spill(run.store.whom())),
        },
        Store::Spool => match spool.read_run(run.run.run, at, out) {
            Ok(()) => Ok(()),
            Err(_) => Err(MergeErr::Spill(run.store.whom())),
        },
    }
}
