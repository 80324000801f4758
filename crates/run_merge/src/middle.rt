ghost use Rattle.std.specs.Prelude.{◌≡◌, IfOk, OnOk, map};
ghost use Rattle.feature_runs.specs.Appending.{HasBegun};
ghost use Rattle.run_merge.specs.Cursors.{AreSound, AreThere, AreTold, cursors_of, left_of, runs_of};
ghost use Rattle.run_merge.specs.Objects.{objects_of, Keeps};
ghost use Rattle.run_merge.specs.Steps.{AppendsAll, IsLeast, IsMadeOf, PutsNext, Works, bytes_left};
ghost use Rattle.run_merge.specs.Winners.{AreWinners};
ghost use Rattle.run_merge.specs.declared.named_run.Store.TheVariants as stores;

use crate::cursor::Head;
use crate::least::least;
use crate::merge_err::MergeErr;
use crate::named_run::{NamedRun, Store};
use crate::run_reader::RunReader;
use crate::steps::{advance_at, load_at};
use crate::tournament::winners_of;
use feature_runs::{RunAt, SpillErr};
use std::alloc::Global;
use tb_outside::{Lane, Spill};
use tb_types::Whom;

/// So many bytes are appended to the spool at once, or up to one item more.
const BLOCK: usize = 65536;

/// Merges all that the readers have left into a new run of the spool. Its length is what was appended, whatever the spool answers.
pub fn write_middle<R, S: Spill>(
    alloc: Global,
    readers: &mut [RunReader],
    layers: u8,
    lanes: &mut [Lane<R, S>],
    spool: &mut S,
) -> Result<NamedRun, MergeErr>
    requires sound { AreSound readers.old }
    requires there { AreThere (objects_of S.seen lanes.old spool.old) readers.old }
    requires told { AreTold (objects_of S.seen lanes.old spool.old) layers readers.old }
    ensures made { IfOk result (IsMadeOf (objects_of S.seen lanes.old spool.old) (objects_of S.seen lanes.new spool.new) layers (bytes_left (cursors_of readers.old)) (map (left_of (objects_of S.seen lanes.old spool.old)) (cursors_of readers.old))) }
    ensures store { IfOk result (λ run. run.store ≡ stores.Spool) }
    ensures keeps { Keeps (objects_of S.seen lanes.old spool.old) (objects_of S.seen lanes.new spool.new) }
    ensures works { Works (objects_of S.seen lanes.old spool.old) (objects_of S.seen lanes.new spool.new) (runs_of (cursors_of readers.old)) result }
{
    let run = match spool.begin_run() {
        Ok(run) => run,
        Err(SpillErr::Failed) => return Err(MergeErr::Spill(Whom::Spool)),
        Err(SpillErr::Memory) => return Err(MergeErr::Memory),
    };
    let len = match append_all(alloc, readers, layers, lanes, spool) {
        Ok(len) => len,
        Err(e) => return Err(e),
    };
    match spool.end_run() {
        Ok(_) => Ok(NamedRun {
            store: Store::Spool,
            run: RunAt { run, len },
        }),
        Err(_) => Err(MergeErr::Spill(Whom::Spool)),
    }
}

// Appends all that the readers have left to the run that is begun, and answers how many bytes it is.
fn append_all<R, S: Spill>(
    alloc: Global,
    readers: &mut [RunReader],
    layers: u8,
    lanes: &mut [Lane<R, S>],
    spool: &mut S,
) -> Result<u64, MergeErr>
    requires sound { AreSound readers.old }
    requires there { AreThere (objects_of S.seen lanes.old spool.old) readers.old }
    requires told { AreTold (objects_of S.seen lanes.old spool.old) layers readers.old }
    requires begun { HasBegun (S.seen spool.old) }
    ensures appends { IfOk result (AppendsAll (objects_of S.seen lanes.old spool.old) (objects_of S.seen lanes.new spool.new) layers readers.old) }
    ensures keeps { Keeps (objects_of S.seen lanes.old spool.old) (objects_of S.seen lanes.new spool.new) }
    ensures works { Works (objects_of S.seen lanes.old spool.old) (objects_of S.seen lanes.new spool.new) (runs_of (cursors_of readers.old)) result }
{
    let mut winners = match winners_of(alloc, readers) {
        Ok(winners) => winners,
        Err(_) => return Err(MergeErr::Memory),
    };
    let winners = winners.as_mut_slice();
    let mut block = Vec::new(alloc);
    let mut appended: u64 = 0;
    while let Some((number, head)) = least(readers, winners) {
        appended = match appended.checked_add(head.len) {
            Some(sum) => sum,
            None => return Err(MergeErr::Memory),
        };
        match put_next(
            alloc, readers, winners, number, head, layers, &mut block, lanes, spool,
        ) {
            Ok(()) => {}
            Err(e) => return Err(e),
        }
    }
    match spool.append(block.as_slice()) {
        Ok(()) => Ok(appended),
        Err(SpillErr::Failed) => Err(MergeErr::Spill(Whom::Spool)),
        Err(SpillErr::Memory) => Err(MergeErr::Memory),
    }
}

// Takes the least item and puts its bytes into the block, which is appended once it is long.
fn put_next<R, S: Spill>(
    alloc: Global,
    readers: &mut [RunReader],
    winners: &mut [usize],
    number: usize,
    head: Head,
    layers: u8,
    block: &mut Vec<u8>,
    lanes: &mut [Lane<R, S>],
    spool: &mut S,
) -> Result<(), MergeErr>
    requires least { IsLeast (cursors_of readers.old) number head }
    requires winners { AreWinners (cursors_of readers.old) winners.old }
    requires sound { AreSound readers.old }
    requires there { AreThere (objects_of S.seen lanes.old spool.old) readers.old }
    requires told { AreTold (objects_of S.seen lanes.old spool.old) layers readers.old }
    requires begun { HasBegun (S.seen spool.old) }
    ensures winners { OnOk result (AreWinners (cursors_of readers.new) winners.new) }
    ensures puts { OnOk result (PutsNext (objects_of S.seen lanes.old spool.old) (objects_of S.seen lanes.new spool.new) layers head readers.old readers.new block.old.items block.new.items) }
    ensures sound { AreSound readers.new }
    ensures keeps { Keeps (objects_of S.seen lanes.old spool.old) (objects_of S.seen lanes.new spool.new) }
    ensures works { Works (objects_of S.seen lanes.old spool.old) (objects_of S.seen lanes.new spool.new) (runs_of (cursors_of readers.old)) result }
{
    match load_at(alloc, readers, number, head, layers, block, lanes, spool) {
        Ok(_) => {}
        Err(e) => return Err(e),
    }
    match advance_at(readers, winners, number, head, layers, lanes, spool) {
        Ok(()) => {}
        Err(e) => return Err(e),
    }
    if block.len() < BLOCK {
        return Ok(());
    }
    match spool.append(block.as_slice()) {
        Ok(()) => {
            block.clear();
            Ok(())
        }
        Err(SpillErr::Failed) => Err(MergeErr::Spill(Whom::Spool)),
        Err(SpillErr::Memory) => Err(MergeErr::Memory),
    }
}
