ghost use Rattle.std.specs.Prelude.{◌≡◌, length};
ghost use Rattle.run_merge.specs.Objects.{objects_of, Keeps};
ghost use Rattle.run_merge.specs.Cursors.{AreSound, AreThere, AreTold};
ghost use Rattle.run_merge.specs.Answers.{IfNext, IfStarted, Merging, named_runs};
ghost use Rattle.run_merge.specs.Steps.{AreReadable};

use crate::gather::gather;
use crate::merge_err::MergeErr;
use crate::opening::{self, FAN_IN, merge_some, open_all};
use crate::run_reader::RunReader;
use feature_runs::{Group, RunAt};
use std::alloc::Global;
use std::marker::Model;
use tb_outside::{Lane, Spill};
use tb_types::Seq;

/// The items that are left of some runs, tile after tile.
#[derive(Drop)]
pub struct Merge {
    alloc: Global,
    layers: u8,
    readers: Vec<RunReader>,
}

impl Model for Merge {
    ghost Value = { Merging };

    ghost view = { λ m. record { layers = m.layers; readers = m.readers.items } };

    ghost invariant = { λ m. AreSound m.readers.items };
}

impl Merge {
    /// Begins a merge of the listed runs, one list for each lane. `layers` is the number of the profile's layers. Where there
    /// are more than 64 runs, neighbours are first merged into runs of the spool, just enough for 64 to be left; runs of the
    /// spool that are ended before stay.
    ///
    /// # Errors
    ///
    /// `Spill` where the spill failed that it names, `Outside` where a spill that doesn't tell its runs gave back bytes that
    /// are no sorted items of these layers, `Memory` for want of memory, also where a lane's number has more than 32 bits or a
    /// run of the spool would have 2^64 bytes. It never answers `TooLarge`.
    pub fn start<R, S: Spill>(
        alloc: Global,
        lanes: &mut [Lane<R, S>],
        runs: &[Seq<RunAt>],
        layers: u8,
        spool: &mut S,
    ) -> Result<Merge, MergeErr>
        requires lists { length runs.now ≡ length lanes.old }
        requires told { AreReadable (objects_of S.seen lanes.old spool.old) layers (named_runs runs.now) }
        ensures answer { IfStarted (objects_of S.seen lanes.old spool.old) (objects_of S.seen lanes.new spool.new) layers (named_runs runs.now) result }
        ensures keeps { Keeps (objects_of S.seen lanes.old spool.old) (objects_of S.seen lanes.new spool.new) }
    {
        let mut waiting = match opening::named_runs(alloc, runs) {
            Ok(waiting) => waiting,
            Err(_) => return Err(MergeErr::Memory),
        };
        while waiting.len() > FAN_IN {
            waiting = match merge_some(alloc, &waiting, layers, lanes, spool) {
                Ok(merged) => merged,
                Err(e) => return Err(e),
            };
        }
        match open_all(alloc, &waiting, layers, lanes, spool) {
            Ok(readers) => Ok(Merge {
                alloc,
                layers,
                readers,
            }),
            Err(e) => Err(e),
        }
    }

    /// The items of the least tile that is left, in order of their keys, those with one key in the order of their runs, or
    /// `None` exactly where nothing is left. `part` is the memory for them in bytes: four times the sum of their lengths and
    /// 131,072 more is needed. No more of them is held than that allows. Needs that the lanes of its runs are among `lanes`, and
    /// that what these and the spool tell is still what it was; each call that answers a group, `None` or `TooLarge` leaves it so.
    ///
    /// # Errors
    ///
    /// `TooLarge` exactly where the need is above `part`; then nothing is taken, and the same group comes again. `Spill`,
    /// `Outside` and `Memory` as for `start`; after these the merge isn't used again.
    pub fn next_group<R, S: Spill>(
        &mut self,
        lanes: &mut [Lane<R, S>],
        spool: &mut S,
        part: u64,
    ) -> Result<Option<Group>, MergeErr>
        requires there { AreThere (objects_of S.seen lanes.old spool.old) self.old.readers }
        requires told { AreTold (objects_of S.seen lanes.old spool.old) self.old.layers self.old.readers }
        ensures answer { IfNext (objects_of S.seen lanes.old spool.old) (objects_of S.seen lanes.new spool.new) part self.old self.new result }
        ensures keeps { Keeps (objects_of S.seen lanes.old spool.old) (objects_of S.seen lanes.new spool.new) }
    {
        gather(
            self.alloc,
            &mut self.readers,
            self.layers,
            part,
            lanes,
            spool,
        )
    }
}
