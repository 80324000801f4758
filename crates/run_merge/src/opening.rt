ghost use Rattle.std.specs.Prelude.{◌≡◌, ◌<◌, ◌≤◌, IfOk, map, length};
ghost use Rattle.run_merge.specs.Answers as answers;
ghost use Rattle.run_merge.specs.Objects.{objects_of, Keeps};
ghost use Rattle.run_merge.specs.Steps.{AreReadable, HaveAll, IsMadeOf, IsOneOf, OnlyReads, Opens, RunsAreThere, Works, bytes_named, items_of};

use crate::merge_err::MergeErr;
use crate::middle::write_middle;
use crate::named_run::{NamedRun, Store};
use crate::run_reader::RunReader;
use feature_runs::RunAt;
use std::alloc::Global;
use tb_outside::{Lane, Spill};
use tb_types::{Memory, Seq};

/// So many runs are read at once, at most.
pub const FAN_IN: usize = 64;

/// The listed runs of all lanes, lane after lane. `Memory` also where a lane's number has more than 32 bits.
pub fn named_runs(alloc: Global, lists: &[Seq<RunAt>]) -> Result<Vec<NamedRun>, Memory>
    ensures { IfOk result (λ runs. runs.items ≡ answers.named_runs lists.now) }
{
    let mut all = Vec::new(alloc);
    for number in 0..lists.len() {
        let lane = as_u32(number)?;
        for run in lists[number].as_slice() {
            all.push(NamedRun {
                store: Store::Lane(lane),
                run: *run,
            })?;
        }
    }
    Ok(all)
}

// A lane's number. `Memory` where it has more than 32 bits.
fn as_u32(number: usize) -> Result<u32, Memory>
    ensures { IfOk result (λ lane. lane ≡ number) }
{
    u32::try_from(number).map_err(|_| Memory)
}

/// Readers of all these runs, each at its run's begin.
pub fn open_all<R, S: Spill>(
    alloc: Global,
    runs: &[NamedRun],
    layers: u8,
    lanes: &mut [Lane<R, S>],
    spool: &mut S,
) -> Result<Vec<RunReader>, MergeErr>
    requires there { RunsAreThere (objects_of S.seen lanes.old spool.old) runs.now }
    requires readable { AreReadable (objects_of S.seen lanes.old spool.old) layers runs.now }
    ensures opens { IfOk result (λ readers. Opens (objects_of S.seen lanes.old spool.old) layers runs.now readers.items) }
    ensures reads { OnlyReads (objects_of S.seen lanes.old spool.old) (objects_of S.seen lanes.new spool.new) runs.now result }
{
    let mut readers = Vec::new(alloc);
    for run in runs {
        let reader = match RunReader::open(alloc, *run, layers, lanes, spool) {
            Ok(reader) => reader,
            Err(e) => return Err(e),
        };
        match readers.push(reader) {
            Ok(()) => {}
            Err(_) => return Err(MergeErr::Memory),
        }
    }
    Ok(readers)
}

/// Fewer runs with the same items: neighbours are merged, 64 at a time or just as many as it takes for 64 to be left.
pub fn merge_some<R, S: Spill>(
    alloc: Global,
    waiting: &[NamedRun],
    layers: u8,
    lanes: &mut [Lane<R, S>],
    spool: &mut S,
) -> Result<Vec<NamedRun>, MergeErr>
    requires many { 64 < length waiting.now }
    requires there { RunsAreThere (objects_of S.seen lanes.old spool.old) waiting.now }
    requires readable { AreReadable (objects_of S.seen lanes.old spool.old) layers waiting.now }
    ensures all { IfOk result (λ merged. HaveAll (objects_of S.seen lanes.old spool.old) (objects_of S.seen lanes.new spool.new) layers waiting.now merged.items) }
    ensures fewer { IfOk result (λ merged. length merged.items < length waiting.now) }
    ensures keeps { Keeps (objects_of S.seen lanes.old spool.old) (objects_of S.seen lanes.new spool.new) }
    ensures works { Works (objects_of S.seen lanes.old spool.old) (objects_of S.seen lanes.new spool.new) waiting.now result }
{
    let mut merged = Vec::new(alloc);
    let mut rest = waiting;
    while !rest.is_empty() {
        match merged.reserve(1) {
            Ok(()) => {}
            Err(_) => return Err(MergeErr::Memory),
        }
        let (now, later) = rest.split_at(at_once(merged.len(), rest.len()));
        let one = match as_one(alloc, now, layers, lanes, spool) {
            Ok(one) => one,
            Err(e) => return Err(e),
        };
        merged.push_reserved(one);
        rest = later;
    }
    Ok(merged)
}

// How many of the first of `rest` runs are merged into one, where so many were made of those before them.
fn at_once(merged: usize, rest: usize) -> usize
    requires { 0 < rest }
    ensures some { 0 < result }
    ensures within { result ≤ rest }
    ensures few { result ≤ 64 }
    ensures more { 64 < rest → 1 < result }
{
    let above = merged.saturating_add(rest).saturating_sub(FAN_IN - 1);
    above.max(1).min(FAN_IN).min(rest)
}

// One run with the items of these: itself, or a new one of the spool.
fn as_one<R, S: Spill>(
    alloc: Global,
    runs: &[NamedRun],
    layers: u8,
    lanes: &mut [Lane<R, S>],
    spool: &mut S,
) -> Result<NamedRun, MergeErr>
    requires some { 0 < length runs.now }
    requires there { RunsAreThere (objects_of S.seen lanes.old spool.old) runs.now }
    requires readable { AreReadable (objects_of S.seen lanes.old spool.old) layers runs.now }
    ensures made { IfOk result (IsMadeOf (objects_of S.seen lanes.old spool.old) (objects_of S.seen lanes.new spool.new) layers (bytes_named runs.now) (map (items_of (objects_of S.seen lanes.old spool.old)) runs.now)) }
    ensures name { IfOk result (λ run. IsOneOf runs.now run) }
    ensures keeps { Keeps (objects_of S.seen lanes.old spool.old) (objects_of S.seen lanes.new spool.new) }
    ensures works { Works (objects_of S.seen lanes.old spool.old) (objects_of S.seen lanes.new spool.new) runs.now result }
{
    if runs.len() == 1 {
        return Ok(runs[0]);
    }
    let mut readers = match open_all(alloc, runs, layers, lanes, spool) {
        Ok(readers) => readers,
        Err(e) => return Err(e),
    };
    write_middle(alloc, &mut readers, layers, lanes, spool)
}
