ghost use Rattle.std.specs.Prelude.{◌≡◌, ◌+◌, ◌*◌, Contains, IfOk, IfSome};
ghost use Rattle.pmtiles_dirs.specs.Fault.{fault};
ghost use Rattle.pmtiles_dirs.specs.declared.fault.ArcWhy.TheVariants as reasons;
ghost use Rattle.pmtiles_read.specs.Answers.{Gives, IsNotFailed};
ghost use Rattle.pmtiles_read.specs.Tiles.{IsOpenedFrom};
ghost use Rattle.archive_text.specs.Rows.{rows_of};
ghost use Rattle.archive_text.specs.Counted.{tile_at_id};
ghost use Rattle.archive_text.specs.Answers.{CountAnswers, EntryAnswers};

use crate::counted::Counted;
use crate::span::span_of;
use crate::totals::Totals;
use mvt_codec::{TileErr, count_rows};
use pmtiles_read::{ArcFault, ArcWhy, Archive, DirEntry, ReadErr};
use std::alloc::Global;
use tb_outside::Source;
use tb_types::Memory;

/// Reads each content of an archive as a tile, once and in the order of its first use, and counts what the archive holds.
/// `Bad` comes exactly with the first entry whose content is no tile. One content is held at a time.
pub fn count_contents<R: Source>(
    alloc: Global,
    source: &mut R,
    archive: &Archive,
) -> Result<Totals, ReadErr>
    requires { IfSome (R.seen source.old).bytes (λ bytes. IsOpenedFrom bytes archive.now) }
    ensures { CountAnswers archive.now (R.seen source.old) (R.seen source.new) result }
{
    let mut counted = Counted::new(alloc);
    let mut content = Vec::new(alloc);
    let mut tiles: u128 = 0;
    let mut features: u128 = 0;
    let entries = archive.entries();
    for e in entries {
        let more = match features_of(alloc, source, archive, *e, &mut counted, &mut content) {
            Ok(more) => more,
            Err(e) => return Err(e),
        };
        tiles += u128::from(e.run);
        features = with_tiles(features, e.run, more)?;
    }
    Ok(Totals {
        tiles,
        entries: entries.len() as u64,
        contents: counted.count() as u64,
        features,
    })
}

// How many features each tile of an entry has. A content that was read is looked up, another is loaded, read and noted.
fn features_of<R: Source>(
    alloc: Global,
    source: &mut R,
    archive: &Archive,
    e: DirEntry,
    counted: &mut Counted,
    content: &mut Vec<u8>,
) -> Result<u128, ReadErr>
    requires entry { Contains archive.now.entries e }
    requires told { IfSome (R.seen source.old).bytes (λ bytes. IsOpenedFrom bytes archive.now) }
    ensures { EntryAnswers archive.now e (R.seen source.old) (R.seen source.new) counted.old counted.new result }
{
    let span = span_of(e);
    if let Some(features) = counted.features_at(span) {
        return Ok(features);
    }
    match archive.load_content(source, e, content) {
        Ok(()) => {}
        Err(e) => return Err(e),
    }
    let features = features_in(alloc, content, e.id)?;
    counted.add(span, features)?;
    Ok(features)
}

// How many features a tile has. Where the bytes are none, the fault is at this id.
fn features_in(alloc: Global, content: &[u8], id: u64) -> Result<u128, ReadErr>
    ensures gives { Gives (λ n. n) result (tile_at_id id (rows_of content.now)) }
    ensures never_failed { IsNotFailed result }
{
    match count_rows(alloc, content) {
        Ok(features) => Ok(features),
        Err(TileErr::Bad { .. }) => Err(ReadErr::Bad(no_tile(id))),
        Err(TileErr::Memory) => Err(ReadErr::Memory),
    }
}

/// The fault of an entry whose content is no tile.
pub fn no_tile(id: u64) -> ArcFault
    ensures { result ≡ fault id reasons.Tile }
{
    ArcFault {
        place: id,
        why: ArcWhy::Tile,
    }
}

// The features so far and those of so many tiles more. A sum past 128 bits is want of memory.
fn with_tiles(features: u128, run: u32, each: u128) -> Result<u128, Memory>
    ensures { IfOk result (λ sum. sum ≡ features + run * each) }
{
    match u128::from(run).checked_mul(each) {
        Some(more) => match features.checked_add(more) {
            Some(sum) => Ok(sum),
            None => Err(Memory),
        },
        None => Err(Memory),
    }
}
