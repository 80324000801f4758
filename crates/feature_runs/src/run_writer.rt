ghost use Rattle.std.specs.Prelude.{◌≡◌, ◌+◌, ◌≤◌, [], ◌∷◌, ◌++◌, All, IfOk, length, slice_range};
ghost use Rattle.feature_runs.specs.Entry.{bytes_of};
ghost use Rattle.feature_runs.specs.Index.{entries_in, HoldsAll, IsWithin};
ghost use Rattle.feature_runs.specs.Appending.{Appends, PutsOff, HasBegun};
ghost use Rattle.feature_runs.specs.Writing.{Writes, Frames};

use crate::slot::Slot;
use tb_outside::{RunAt, Spill, SpillErr};

/// So many bytes are appended to a spill at once, or a few more.
const BLOCK: usize = 65536;

/// Writes the items of an index in its order as a new run, whose length is what was appended, whatever the spill answers.
/// `block` is room for what is appended at once.
pub fn write_run<S: Spill>(
    spill: &mut S,
    arena: &[u8],
    index: &[Slot],
    block: &mut Vec<u8>,
) -> Result<RunAt, SpillErr>
    requires within { All (IsWithin arena.now) index.now }
    requires all { HoldsAll arena.now index.now }
    ensures written { IfOk result (Writes (S.seen spill.old).runs (S.seen spill.new).runs (bytes_of (entries_in arena.now index.now))) }
    ensures frames { Frames (S.seen spill.old) (S.seen spill.new) result }
{
    let run = match spill.begin_run() {
        Ok(run) => run,
        Err(e) => return Err(e),
    };
    match append_all(spill, arena, index, block) {
        Ok(()) => {}
        Err(e) => return Err(e),
    }
    match spill.end_run() {
        Ok(_) => Ok(RunAt {
            run,
            len: arena.len() as u64,
        }),
        Err(_) => Err(SpillErr::Failed),
    }
}

fn append_all<S: Spill>(
    spill: &mut S,
    arena: &[u8],
    index: &[Slot],
    block: &mut Vec<u8>,
) -> Result<(), SpillErr>
    requires within { All (IsWithin arena.now) index.now }
    requires begun { HasBegun (S.seen spill.old) }
    ensures { Appends (S.seen spill.old) (S.seen spill.new) (bytes_of (entries_in arena.now index.now)) result }
{
    block.clear();
    for slot in index {
        match put_slot(spill, arena, slot, block) {
            Ok(()) => {}
            Err(e) => return Err(e),
        }
    }
    spill.append(block)
}

// Puts an item into the block, which is appended once it is long.
fn put_slot<S: Spill>(
    spill: &mut S,
    arena: &[u8],
    slot: &Slot,
    block: &mut Vec<u8>,
) -> Result<(), SpillErr>
    requires within { IsWithin arena.now slot.now }
    requires begun { HasBegun (S.seen spill.old) }
    ensures { PutsOff (S.seen spill.old) (S.seen spill.new) block.old.items block.new.items (slice_range arena.now slot.now.at (slot.now.at + slot.now.len)) result }
{
    let at = slot.at as usize;
    match block.extend_from_slice(&arena[at..at + slot.len as usize]) {
        Ok(()) => {}
        Err(_) => return Err(SpillErr::Memory),
    }
    if block.len() < BLOCK {
        return Ok(());
    }
    match spill.append(block) {
        Ok(()) => {
            block.clear();
            Ok(())
        }
        Err(e) => Err(e),
    }
}
