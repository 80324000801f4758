ghost use Rattle.std.specs.Prelude.{◌≡◌, ◌+◌, ◌≤◌, length, slice_range, Contains, IfOk, IfSome};
ghost use Rattle.pmtiles_dirs.specs.Fault.{Opened};
ghost use Rattle.pmtiles_read.specs.Tiles.{IsSound, IsOpenedFrom, AreApart, covering_entry};
ghost use Rattle.pmtiles_read.specs.Answers.{HeaderAnswers, OpenAnswers, TileAnswers, ContentAnswers, Reads, IsNotBad, tile_seen};

use crate::error::ReadErr;
use crate::found::Found;
use crate::header::{checked_header, fault};
use crate::walk::{walk_dir, zeros};
use pmtiles_dirs::{ArcWhy, DirEntry, HEADER_LEN, Header};
use std::alloc::Global;
use std::marker::Model;
use tb_outside::Source;
use tb_types::{Seq, TileId};

/// A root and three levels of leaves.
const MOST_LEVELS: u8 = 4;

/// An archive whose directories were read.
#[derive(Debug, Drop)]
pub struct Archive {
    tiles_at: u64,
    entries: Vec<DirEntry>,
    alloc: Global,
}

impl Model for Archive {
    ghost Value = { Opened };

    ghost view = { λ a. record { tiles_at = a.tiles_at; entries = a.entries.items } };

    ghost invariant = { λ a. IsSound (record { tiles_at = a.tiles_at; entries = a.entries.items }) };
}

/// Reads the header and all directories of an archive (PMTiles 3). Where the source tells its bytes, `Bad` comes exactly
/// with the first fault of them; `Failed` comes only where the source's count of faults rose. Whatever the source tells,
/// the entries of an archive cover ids that are apart and ascend, and their bytes end within 64 bits.
pub fn open_archive<R: Source>(alloc: Global, source: &mut R) -> Result<Archive, ReadErr>
    ensures { OpenAnswers (R.seen source.old) (R.seen source.new) result }
{
    let header = match read_header(source) {
        Ok(header) => header,
        Err(e) => return Err(e),
    };
    let mut found = Found {
        entries: Seq::new(alloc),
        next: 0,
    };
    let (at, len) = (header.root_at, header.root_len);
    match walk_dir(alloc, source, &header, MOST_LEVELS, at, len, &mut found) {
        Ok(()) => Ok(Archive {
            tiles_at: header.tiles_at,
            entries: found.entries.into_vec(),
            alloc,
        }),
        Err(e) => Err(e),
    }
}

// The header of a source, or its first fault.
fn read_header<R: Source>(source: &mut R) -> Result<Header, ReadErr>
    ensures { HeaderAnswers (R.seen source.old) (R.seen source.new) result }
{
    let size = match source.size() {
        Ok(size) => size,
        Err(_) => return Err(ReadErr::Failed),
    };
    if size < HEADER_LEN as u64 {
        return Err(ReadErr::Bad(fault(size, ArcWhy::Short)));
    }
    let mut bytes = [0; 127];
    match source.load(0, &mut bytes) {
        Ok(()) => {}
        Err(_) => return Err(ReadErr::Failed),
    }
    match checked_header(&bytes, size) {
        Ok(header) => Ok(header),
        Err(fault) => Err(ReadErr::Bad(fault)),
    }
}

impl Archive {
    /// The tile of an id, or `None` exactly where no entry covers the id. A source that tells its bytes tells those that
    /// were opened. The answer is never `Bad`, and `Failed` only where the source's count of faults rose.
    pub fn tile<R: Source>(&self, source: &mut R, id: TileId) -> Result<Option<Vec<u8>>, ReadErr>
        requires { IfSome (R.seen source.old).bytes (λ archive. IsOpenedFrom archive self.now) }
        ensures { TileAnswers self.now (R.seen source.old) (R.seen source.new) id.0 (tile_seen result) }
    {
        let e = match covering(&self.entries, id.0) {
            Some(e) => e,
            None => return Ok(None),
        };
        let at = self.tiles_at + e.offset;
        match load_bytes(self.alloc, source, at, e.len) {
            Ok(bytes) => Ok(Some(bytes)),
            Err(e) => Err(e),
        }
    }

    /// Puts the content of one of the archive's entries into `content`, in the place of what is there. A source that tells
    /// its bytes tells those that were opened. The answer is never `Bad`, and `Failed` only where the source's count of faults
    /// rose.
    pub fn load_content<R: Source>(
        &self,
        source: &mut R,
        e: DirEntry,
        content: &mut Vec<u8>,
    ) -> Result<(), ReadErr>
        requires entry { Contains self.now.entries e }
        requires told { IfSome (R.seen source.old).bytes (λ archive. IsOpenedFrom archive self.now) }
        ensures { ContentAnswers self.now e (R.seen source.old) (R.seen source.new) content.new.items result }
    {
        let at = self.tiles_at + e.offset;
        content.resize(e.len as usize, 0)?;
        match source.load(at, content.as_mut_slice()) {
            Ok(()) => Ok(()),
            Err(_) => Err(ReadErr::Failed),
        }
    }

    /// The entries that name tiles, by their ids.
    pub fn entries(&self) -> &[DirEntry]
        ensures entries { result.now ≡ self.now.entries }
        ensures sound { IsSound self.now }
    {
        &self.entries
    }
}

// The entry that covers an id, found by halving.
fn covering(entries: &[DirEntry], id: u64) -> Option<DirEntry>
    requires { AreApart 0 entries.now }
    ensures { result ≡ covering_entry entries.now id }
{
    let mut low = 0;
    let mut high = entries.len();
    while low < high {
        let middle = low + (high - low) / 2;
        if entries[middle].id <= id {
            low = middle + 1;
        } else {
            high = middle;
        }
    }
    if low == 0 {
        return None;
    }
    let e = entries[low - 1];
    if id - e.id < u64::from(e.run) {
        Some(e)
    } else {
        None
    }
}

// So many bytes at a place of the source.
fn load_bytes<R: Source>(
    alloc: Global,
    source: &mut R,
    at: u64,
    len: u32,
) -> Result<Vec<u8>, ReadErr>
    requires { IfSome (R.seen source.old).bytes (λ archive. at + len ≤ length archive) }
    ensures told { IfOk result (λ bytes. IfSome (R.seen source.old).bytes (λ archive. bytes.items ≡ slice_range archive at (at + len))) }
    ensures len { IfOk result (λ bytes. length bytes.items ≡ len) }
    ensures reads { Reads (R.seen source.old) (R.seen source.new) result }
    ensures not_bad { IsNotBad result }
{
    let mut bytes = zeros(alloc, u64::from(len))?;
    match source.load(at, &mut bytes) {
        Ok(()) => Ok(bytes),
        Err(_) => Err(ReadErr::Failed),
    }
}
