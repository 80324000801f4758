ghost use Rattle.std.specs.Prelude.{◌≡◌, ◌++◌, ◌<◌, IfOk, OnOk, length, slice_set};
ghost use Rattle.mvt_codec.specs.Items.{item_text};
ghost use Rattle.run_merge.specs.Cursors.{AreSound, AreThere, AreTold, cursors_of, runs_of};
ghost use Rattle.run_merge.specs.Objects.{objects_of};
ghost use Rattle.run_merge.specs.Steps.{AdvancesAt, IsLeast, LoadsAt, OnlyReads};
ghost use Rattle.run_merge.specs.Winners.{AreWinners};
ghost use Rattle.run_merge.specs.declared.run_reader.RunReader.{RunReader};

use crate::cursor::Head;
use crate::merge_err::MergeErr;
use crate::run_reader::RunReader;
use crate::tournament::replay;
use feature_runs::RunItem;
use std::alloc::Global;
use tb_outside::{Lane, Spill};

/// Puts the bytes of the least item behind `out`, and reads it. Nothing is taken.
pub fn load_at<R, S: Spill>(
    alloc: Global,
    readers: &mut [RunReader],
    number: usize,
    head: Head,
    layers: u8,
    out: &mut Vec<u8>,
    lanes: &mut [Lane<R, S>],
    spool: &mut S,
) -> Result<RunItem, MergeErr>
    requires least { IsLeast (cursors_of readers.old) number head }
    requires sound { AreSound readers.old }
    requires there { AreThere (objects_of S.seen lanes.old spool.old) readers.old }
    requires told { AreTold (objects_of S.seen lanes.old spool.old) layers readers.old }
    ensures loads { IfOk result (LoadsAt (objects_of S.seen lanes.old spool.old) layers number head readers.old readers.new) }
    ensures text { IfOk result (λ item. out.new.items ≡ out.old.items ++ item_text item) }
    ensures sound { AreSound readers.new }
    ensures reads { OnlyReads (objects_of S.seen lanes.old spool.old) (objects_of S.seen lanes.new spool.new) (runs_of (cursors_of readers.old)) result }
{
    readers[number].load(alloc, head, layers, out, lanes, spool)
}

/// Takes the least item.
pub fn advance_at<R, S: Spill>(
    readers: &mut [RunReader],
    winners: &mut [usize],
    number: usize,
    head: Head,
    layers: u8,
    lanes: &mut [Lane<R, S>],
    spool: &mut S,
) -> Result<(), MergeErr>
    requires least { IsLeast (cursors_of readers.old) number head }
    requires winners { AreWinners (cursors_of readers.old) winners.old }
    requires sound { AreSound readers.old }
    requires there { AreThere (objects_of S.seen lanes.old spool.old) readers.old }
    requires told { AreTold (objects_of S.seen lanes.old spool.old) layers readers.old }
    ensures advances { OnOk result (AdvancesAt (objects_of S.seen lanes.old spool.old) layers number head readers.old readers.new) }
    ensures winners { OnOk result (AreWinners (cursors_of readers.new) winners.new) }
    ensures sound { AreSound readers.new }
    ensures reads { OnlyReads (objects_of S.seen lanes.old spool.old) (objects_of S.seen lanes.new spool.new) (runs_of (cursors_of readers.old)) result }
{
    match take_one(readers, number, head, layers, lanes, spool) {
        Ok(()) => {}
        Err(e) => return Err(e),
    }
    replay(readers, winners, number);
    Ok(())
}

// Takes the least item of its run.
fn take_one<R, S: Spill>(
    readers: &mut [RunReader],
    number: usize,
    head: Head,
    layers: u8,
    lanes: &mut [Lane<R, S>],
    spool: &mut S,
) -> Result<(), MergeErr>
    requires least { IsLeast (cursors_of readers.old) number head }
    requires sound { AreSound readers.old }
    requires there { AreThere (objects_of S.seen lanes.old spool.old) readers.old }
    requires told { AreTold (objects_of S.seen lanes.old spool.old) layers readers.old }
    ensures advances { OnOk result (AdvancesAt (objects_of S.seen lanes.old spool.old) layers number head readers.old readers.new) }
    ensures one { (next : RunReader) × (readers.new ≡ slice_set readers.old number next) }
    ensures sound { AreSound readers.new }
    ensures reads { OnlyReads (objects_of S.seen lanes.old spool.old) (objects_of S.seen lanes.new spool.new) (runs_of (cursors_of readers.old)) result }
{
    readers[number].advance(head, layers, lanes, spool)
}
