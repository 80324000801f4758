ghost use Rattle.std.specs.Prelude.{◌≡◌, ◌+◌, ◌*◌, ◌≤◌, ◌<◌, ◌^◌, Some, length, slice_range, IfOk, IfSome, OnOk};
ghost use Rattle.pmtiles_dirs.specs.Directory.{IsDirectory, IsEntry, dir_of};
ghost use Rattle.pmtiles_dirs.specs.Fault.{walk_dir, with_entry, with_tiles};
ghost use Rattle.pmtiles_read.specs.Answers.{Gives, Reads, MayGoOn, HasEnds, IsNotBad, IsNotFailed, WalkAnswers, walk_of};

use crate::error::ReadErr;
use crate::found::Found;
use crate::header::fault;
use pmtiles_dirs::{ArcWhy, DirEntry, Header, read_dir};
use std::alloc::Global;
use tb_outside::Source;
use tb_types::{Memory, Seq};

/// Adds the entries of a directory and of the leaves under it, each leaf before the entry that follows its own. The
/// directory is one of so many levels. A source that tells its bytes tells all of them.
#[cycle(levels)]
pub fn walk_dir<R: Source>(
    alloc: Global,
    source: &mut R,
    header: &Header,
    levels: u8,
    at: u64,
    len: u64,
    found: &mut Found,
) -> Result<(), ReadErr>
    requires ends { HasEnds header.now }
    requires told { IfSome (R.seen source.old).bytes (λ a. (at + len ≤ length a) × (header.now.leaves_at + header.now.leaves_len ≤ length a)) }
    ensures { WalkAnswers header.now.tiles_at (R.seen source.old) (R.seen source.new) (walk_of found.old) (walk_of found.new) result (λ a. walk_dir a header.now levels at len (walk_of found.old)) }
{
    if levels == 0 {
        return Err(ReadErr::Bad(fault(at, ArcWhy::Depth)));
    }
    let entries = match load_dir(alloc, source, at, len) {
        Ok(Some(entries)) => entries,
        Ok(None) => return Err(ReadErr::Bad(fault(at, ArcWhy::Directory))),
        Err(e) => return Err(e),
    };
    for e in entries.as_slice() {
        match with_entry(alloc, source, header, levels - 1, *e, found) {
            Ok(()) => {}
            Err(e) => return Err(e),
        }
    }
    Ok(())
}

// Adds an entry that names tiles, or those of the leaf that it names.
#[cycle(levels)]
fn with_entry<R: Source>(
    alloc: Global,
    source: &mut R,
    header: &Header,
    levels: u8,
    e: DirEntry,
    found: &mut Found,
) -> Result<(), ReadErr>
    requires ends { HasEnds header.now }
    requires told { IfSome (R.seen source.old).bytes (λ a. header.now.leaves_at + header.now.leaves_len ≤ length a) }
    requires entry { IsEntry e }
    ensures { WalkAnswers header.now.tiles_at (R.seen source.old) (R.seen source.new) (walk_of found.old) (walk_of found.new) result (λ a. with_entry (walk_dir a header.now levels) header.now e (walk_of found.old)) }
{
    if e.run > 0 {
        return with_tiles(header, e, found);
    }
    if u128::from(e.offset) + u128::from(e.len) > u128::from(header.leaves_len) {
        return Err(ReadErr::Bad(fault(e.id, ArcWhy::Section)));
    }
    let at = header.leaves_at + e.offset;
    walk_dir(alloc, source, header, levels, at, u64::from(e.len), found)
}

// Adds an entry that names tiles.
fn with_tiles(header: &Header, e: DirEntry, found: &mut Found) -> Result<(), ReadErr>
    requires ends { HasEnds header.now }
    requires entry { IsEntry e }
    requires run { 0 < e.run }
    ensures gives { Gives (λ _. walk_of found.new) result (with_tiles header.now e (walk_of found.old)) }
    ensures sound { OnOk result (MayGoOn header.now.tiles_at (walk_of found.old) → MayGoOn header.now.tiles_at (walk_of found.new)) }
    ensures never_failed { IsNotFailed result }
{
    if u128::from(e.id) < found.next {
        return Err(ReadErr::Bad(fault(e.id, ArcWhy::Order)));
    }
    if u128::from(e.offset) + u128::from(e.len) > u128::from(header.tiles_len) {
        return Err(ReadErr::Bad(fault(e.id, ArcWhy::Section)));
    }
    found.entries.push(e)?;
    found.next = u128::from(e.id) + u128::from(e.run);
    Ok(())
}

// The directory at a place of the source, or none where the bytes there are none.
fn load_dir<R: Source>(
    alloc: Global,
    source: &mut R,
    at: u64,
    len: u64,
) -> Result<Option<Seq<DirEntry>>, ReadErr>
    requires { IfSome (R.seen source.old).bytes (λ a. at + len ≤ length a) }
    ensures told { IfOk result (λ dir. IfSome (R.seen source.old).bytes (λ a. dir ≡ dir_of (slice_range a at (at + len)))) }
    ensures directory { IfOk result (λ dir. IfSome dir IsDirectory) }
    ensures reads { Reads (R.seen source.old) (R.seen source.new) result }
    ensures not_bad { IsNotBad result }
{
    let mut bytes = zeros(alloc, len)?;
    match source.load(at, &mut bytes) {
        Ok(()) => {}
        Err(_) => return Err(ReadErr::Failed),
    }
    let dir = read_dir(alloc, &bytes)?;
    Ok(dir)
}

/// So many bytes of room.
pub fn zeros(alloc: Global, len: u64) -> Result<Vec<u8>, Memory>
    ensures { IfOk result (λ bytes. length bytes.items ≡ len) }
{
    let bytes = vec![in alloc; 0u8; len as usize]?;
    Ok(bytes)
}
