ghost use Rattle.std.specs.Prelude.{◌≤◌, ◌<◌, ◌^◌, ◌≡◌, IfSome, OnOk, length};
ghost use Rattle.profile_rules.specs.Fields.{layers_of};
ghost use Rattle.profile_rules.specs.Sound.{IsSound};
ghost use Rattle.tb_types.specs.Needs.{group_need};
ghost use Rattle.pmtiles_dirs.specs.Bounds.{CanBeWritten};
ghost use Rattle.pmtiles_file.specs.Writing.{next_id, RunsStand};
ghost use Rattle.run_merge.specs.Answers.{IsGroupOf, named_runs};
ghost use Rattle.run_merge.specs.Cursors.{AreThere, AreTold};
ghost use Rattle.run_merge.specs.Objects.{objects_of};
ghost use Rattle.run_merge.specs.Steps.{AreReadable};
ghost use Rattle.tile_model.specs.Map.{tile_from};
ghost use Rattle.mvt_codec.specs.Groups.{AreNames};
ghost use Rattle.build_one.specs.Writing.{all_groups, AreShort, IsDecoded, MapAnswers, TileAnswers, TilesAnswers};

use crate::booking::book_tile;
use crate::map::layer_names;
use memory_book::{Book, Purse};
use mvt_codec::encode_items;
use pmtiles_dirs::Meta;
use pmtiles_file::Writer;
use profile_rules::Profile;
use run_merge::{Group, Merge, MergeErr, RunAt};
use std::alloc::Global;
use tb_outside::{Lane, Spill, SpillErr};
use tb_types::{Memory, Seq, Text, Whom};

/// Writes the tiles of the items in the listed runs, one list for each lane: merges these, and hands the text of each tile to a
/// writer, which keeps it in the spool. `part` is the memory for the items of a tile, in bytes.
///
/// # Errors
///
/// Those of the merge: `TooLarge` for the first tile that needs more than the part, `Spill` for the spill or the spool that
/// failed, `Outside` for one that gave back something else, `Memory`.
pub fn write_tiles<L: Purse, R, S: Spill>(
    alloc: Global,
    profile: &Profile,
    meta: Meta,
    runs: &[Seq<RunAt>],
    lanes: &mut [Lane<R, S>],
    spool: &mut S,
    book: &mut Book<L>,
    part: u64,
) -> Result<Writer, MergeErr>
    requires sound { IsSound profile.now }
    requires bounds { IfSome meta.bounds CanBeWritten }
    requires part { part < 2 ^ 32 }
    requires lists { length runs.now ≡ length lanes.old }
    requires told { AreReadable (objects_of S.seen lanes.old spool.old) (length (layers_of profile.now)) (named_runs runs.now) }
    ensures { MapAnswers profile.now part meta (all_groups (objects_of S.seen lanes.old spool.old) runs.now) (objects_of S.seen lanes.old spool.old) (objects_of S.seen lanes.new spool.new) result }
{
    let names = layer_names(alloc, profile)?;
    let names = names.as_slice();
    let mut writer = Writer::new(alloc, meta)?;
    let mut merge = match Merge::start(alloc, lanes, runs, names.len() as u8, spool) {
        Ok(merge) => merge,
        Err(e) => return Err(e),
    };
    match put_tiles(
        alloc,
        names,
        &mut merge,
        lanes,
        spool,
        book,
        part,
        &mut writer,
    ) {
        Ok(()) => Ok(writer),
        Err(e) => Err(e),
    }
}

// Writes the tiles of all items that are left of a merge, by ascending id.
fn put_tiles<L: Purse, R, S: Spill>(
    alloc: Global,
    names: &[Text],
    merge: &mut Merge,
    lanes: &mut [Lane<R, S>],
    spool: &mut S,
    book: &mut Book<L>,
    part: u64,
    writer: &mut Writer,
) -> Result<(), MergeErr>
    requires names { AreShort names.now }
    requires differ { AreNames names.now }
    requires part { part < 2 ^ 32 }
    requires layers { merge.old.layers ≡ length names.now }
    requires there { AreThere (objects_of S.seen lanes.old spool.old) merge.old.readers }
    requires told { AreTold (objects_of S.seen lanes.old spool.old) merge.old.layers merge.old.readers }
    requires first { next_id writer.old ≡ 0 }
    requires stand { RunsStand writer.old (S.seen spool.old).runs }
    ensures { TilesAnswers names.now part merge.old writer.old writer.new (objects_of S.seen lanes.old spool.old) (objects_of S.seen lanes.new spool.new) result }
{
    'tiles: loop {
        match merge.next_group(lanes, spool, part) {
            Ok(Some(group)) => match put_tile(alloc, names, group, part, spool, book, writer) {
                Ok(()) => {}
                Err(e) => return Err(e),
            },
            Ok(None) => return Ok(()),
            Err(e) => return Err(e),
        }
    }
}

// Writes the tile of a group. What its items need is booked meanwhile.
fn put_tile<L: Purse, S: Spill>(
    alloc: Global,
    names: &[Text],
    group: Group,
    part: u64,
    spool: &mut S,
    book: &mut Book<L>,
    writer: &mut Writer,
) -> Result<(), MergeErr>
    requires names { AreShort names.now }
    requires differ { AreNames names.now }
    requires part { part < 2 ^ 32 }
    requires group { IsGroupOf (length names.now) group }
    requires fits { group_need group.bytes ≤ part }
    requires next { next_id writer.old ≤ group.tile.0 }
    requires stand { RunsStand writer.old (S.seen spool.old).runs }
    ensures written { TileAnswers writer.old writer.new (tile_from names.now (group.tile.0, group.items)) (S.seen spool.old) (S.seen spool.new) result }
    ensures decoded { OnOk result (IsDecoded names.now (group.tile.0, group.items)) }
{
    let id = group.tile;
    let grant = book_tile(book, group.bytes)?;
    let tile = match encode_items(alloc, names, group.items) {
        Ok(tile) => tile,
        Err(Memory) => {
            book.give(grant);
            return Err(MergeErr::Memory);
        }
    };
    match writer.add(spool, id, &tile) {
        Ok(()) => {
            book.give(grant);
            Ok(())
        }
        Err(SpillErr::Failed) => {
            book.give(grant);
            Err(MergeErr::Spill(Whom::Spool))
        }
        Err(SpillErr::Memory) => {
            book.give(grant);
            Err(MergeErr::Memory)
        }
    }
}
