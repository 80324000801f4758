ghost use Rattle.std.specs.Prelude.{◌≡◌, ◌≤◌, ◌⊎◌, ℕ, [], ◌∷◌, ◌++◌, List, All, OnOk, OnErr, IfOk, Err, Some, length};
ghost use Rattle.mvt_codec.specs.Items.{IsItem};
ghost use Rattle.tb_outside.specs.declared.spill.SpillErr.TheVariants as spill_errors;
ghost use Rattle.tb_outside.specs.Spill.{Runs, SpillSeen};
ghost use Rattle.feature_runs.specs.Added.{KeepsAdded, WereAdded};
ghost use Rattle.feature_runs.specs.Entry.{Buffered, Entry, entry_of};
ghost use Rattle.feature_runs.specs.Index.{entries_in, HoldsAll, IsLimited, IsWithin};
ghost use Rattle.feature_runs.specs.Since.{IsSince, KeepsSince};
ghost use Rattle.feature_runs.specs.Writing.{Adds, Flushes, Frames, IfHeld, IsSameBuffer, StaysOrWrites};

use crate::item_writer::put_item;
use crate::run_writer::write_run;
use crate::slot::Slot;
use mvt_codec::{RunItem, rank_prefix, rank_suffix};
use std::alloc::Global;
use std::marker::Model;
use tb_outside::{RunAt, Spill, SpillErr};
use tb_types::Memory;

/// The bytes that items may have together, so that their places have 32 bits.
const MOST_BYTES: u64 = 0xffff_ffff;

/// Items that wait to be written as a sorted run, and the runs that were written. A run is at most `limit` bytes long, or is
/// one item; an item of 4 GiB or more is refused as want of memory. Besides the items' bytes it takes 32 bytes an item.
#[derive(Drop)]
pub struct RunBuffer {
    limit: u64,
    arena: Vec<u8>,
    index: Vec<Slot>,
    runs: Vec<RunAt>,
    block: Vec<u8>,
}

impl Model for RunBuffer {
    ghost Value = { Buffered };

    ghost view = { λ b. record { limit = b.limit; runs = b.runs.items; entries = entries_in b.arena.items b.index.items } };

    ghost invariant = { λ b. All (IsWithin b.arena.items) b.index.items × (HoldsAll b.arena.items b.index.items × IsLimited b.limit b.index.items) };
}

impl RunBuffer {
    /// A buffer that holds nothing and has written no run.
    pub fn new(alloc: Global, limit: u64) -> Result<RunBuffer, Memory>
        ensures new { IfOk result (λ b. b ≡ record { limit = limit; runs = []; entries = [] }) }
        ensures told { IfOk result (λ b. (ended : List (List ℕ)) → WereAdded b ended []) }
        ensures since { IfOk result (λ b. (start : Runs) (seen : SpillSeen) → seen.runs ≡ Some start → IsSince start seen b []) }
    {
        Ok(RunBuffer {
            limit,
            arena: Vec::new(alloc),
            index: Vec::new(alloc),
            runs: Vec::new(alloc),
            block: Vec::new(alloc),
        })
    }

    /// The runs that were written, in order, with their lengths.
    pub fn runs(&self) -> &[RunAt]
        ensures { result.now ≡ self.now.runs }
    {
        self.runs.as_slice()
    }

    /// Adds an item. Where it doesn't fit beside what is held, that is written first as a run. `Failed` comes only where the
    /// spill's count of faults rose, and then the buffer isn't used again. Where memory is wanted, the item isn't added, what
    /// was held is still held or was written, and the count is as it was.
    pub fn add<S: Spill>(&mut self, spill: &mut S, item: RunItem) -> Result<(), SpillErr>
        requires { IsItem item }
        ensures added { OnOk result (Adds (S.seen spill.old) (S.seen spill.new) self.old self.new (entry_of item)) }
        ensures told { OnOk result (KeepsAdded (S.seen spill.old) (S.seen spill.new) self.old self.new (entry_of item ∷ [])) }
        ensures since { OnOk result (KeepsSince (S.seen spill.old) (S.seen spill.new) self.old self.new (entry_of item ∷ [])) }
        ensures memory { result ≡ Err spill_errors.Memory → StaysOrWrites (S.seen spill.old) (S.seen spill.new) self.old self.new }
        ensures frames { Frames (S.seen spill.old) (S.seen spill.new) result }
    {
        match self.hold(&item) {
            Ok(true) => return Ok(()),
            Ok(false) => {}
            Err(Memory) => return Err(SpillErr::Memory),
        }
        match self.flush(spill) {
            Ok(()) => {}
            Err(e) => return Err(e),
        }
        match self.hold(&item) {
            Ok(true) => Ok(()),
            Ok(false) => Err(SpillErr::Memory),
            Err(Memory) => Err(SpillErr::Memory),
        }
    }

    // Puts an item behind what is held, or answers `false` where it doesn't fit there. Where that is refused, the same is held
    // as before.
    fn hold(&mut self, item: &RunItem) -> Result<bool, Memory>
        requires { IsItem item.now }
        ensures ok { IfOk result (λ fits. IfHeld fits self.old self.new (entry_of item.now)) }
        ensures err { OnErr result (self.new ≡ self.old) }
    {
        self.block.clear();
        put_item(&mut self.block, item)?;
        let at = as_u32(self.arena.len())?;
        let len = as_u32(self.block.len())?;
        let with_item = u64::from(at) + u64::from(len);
        if !self.index.is_empty() && with_item > self.limit.min(MOST_BYTES) {
            return Ok(false);
        }
        self.index.reserve(1)?;
        self.arena.extend_from_slice(&self.block)?;
        self.index.push_reserved(Slot {
            prefix: rank_prefix(&item.key),
            suffix: rank_suffix(&item.key),
            at,
            len,
        });
        Ok(true)
    }

    /// Writes what is held as a run that is sorted by key. Where nothing is held, no run is begun. After `Failed` the buffer
    /// isn't used again. Where memory is wanted, it holds what it held, and the spill's count is as it was.
    pub fn flush<S: Spill>(&mut self, spill: &mut S) -> Result<(), SpillErr>
        ensures flushed { OnOk result (Flushes (S.seen spill.old) (S.seen spill.new) self.old self.new) }
        ensures told { OnOk result (KeepsAdded (S.seen spill.old) (S.seen spill.new) self.old self.new []) }
        ensures since { OnOk result (KeepsSince (S.seen spill.old) (S.seen spill.new) self.old self.new []) }
        ensures frames { Frames (S.seen spill.old) (S.seen spill.new) result }
        ensures memory { result ≡ Err spill_errors.Memory → IsSameBuffer self.old self.new }
    {
        if self.index.is_empty() {
            return Ok(());
        }
        self.index.sort_unstable();
        match self.runs.reserve(1) {
            Ok(()) => {}
            Err(_) => return Err(SpillErr::Memory),
        }
        let run = match write_run(spill, &self.arena, &self.index, &mut self.block) {
            Ok(run) => run,
            Err(e) => return Err(e),
        };
        self.runs.push_reserved(run);
        self.index.clear();
        self.arena.clear();
        Ok(())
    }
}

// A number of bytes of at most 32 bits. `Memory` where there are more.
fn as_u32(n: usize) -> Result<u32, Memory>
    ensures { IfOk result (λ m. m ≡ n) }
{
    u32::try_from(n).map_err(|_| Memory)
}
