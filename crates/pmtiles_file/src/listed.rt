ghost use Rattle.std.specs.Prelude.{◌≡◌, ◌<◌, ◌≤◌, ◌+◌, ◌^◌, [], true, IfOk, OnOk};
ghost use Rattle.pmtiles_dirs.specs.Directory.{IsDirectory};
ghost use Rattle.pmtiles_file.specs.Listed.{next_behind, entry_at, with_entry, is_followed, one_longer};
ghost use Rattle.pmtiles_file.specs.Distinct.{CanBeNamed};

use crate::stored::Stored;
use pmtiles_dirs::DirEntry;
use std::alloc::Global;
use std::marker::Model;
use tb_types::Memory;

/// The most tiles of an entry.
const MAX_RUN: u32 = 0xffff_ffff;

/// The entries of an archive, of which the last may still grow, and how many tiles they name.
#[derive(Drop)]
pub struct Listed {
    closed: Vec<DirEntry>,
    last: Option<DirEntry>,
    tiles: u64,
}

impl Model for Listed {
    ghost use Rattle.std.specs.Prelude.{◌++◌, option_to_list};
    ghost use Rattle.pmtiles_file.specs.Listed.{ListedSeen, IsListed};

    ghost Value = { ListedSeen };

    ghost view = { λ l. record { entries = l.closed.items ++ option_to_list l.last; tiles = l.tiles } };

    ghost invariant = { λ l. IsListed l.closed.items l.last };
}

impl Listed {
    /// No entries. It takes no memory.
    pub fn new(alloc: Global) -> Listed
        ensures { result ≡ record { entries = []; tiles = 0 } }
    {
        Listed {
            closed: Vec::new(alloc),
            last: None,
            tiles: 0,
        }
    }

    /// Adds a tile of a content: the last entry goes on with it where ids and content follow, or it is another entry. A tile
    /// past 2^64 - 1 is refused as want of memory.
    pub fn add(&mut self, id: u64, content: Stored) -> Result<(), Memory>
        requires next { next_behind 0 self.old.entries ≤ id }
        requires named { CanBeNamed content }
        ensures entries { OnOk result (self.new.entries ≡ with_entry self.old.entries (entry_at id content)) }
        ensures tiles { OnOk result (self.new.tiles ≡ self.old.tiles + 1) }
    {
        let tiles = match self.tiles.checked_add(1) {
            Some(tiles) => tiles,
            None => return Err(Memory),
        };
        let e = DirEntry {
            id,
            run: 1,
            len: content.len,
            offset: content.offset,
        };
        let last = match self.last {
            Some(last) => last,
            None => {
                self.last = Some(e);
                self.tiles = tiles;
                return Ok(());
            }
        };
        if is_followed(last, e) {
            self.last = Some(one_longer(last));
            self.tiles = tiles;
            return Ok(());
        }
        match self.closed.push(last) {
            Ok(()) => {}
            Err(_) => return Err(Memory),
        }
        self.last = Some(e);
        self.tiles = tiles;
        Ok(())
    }

    /// How many tiles the entries name.
    pub fn tiles(&self) -> u64
        ensures { result ≡ self.now.tiles }
    {
        self.tiles
    }

    /// All entries.
    pub fn into_entries(self) -> Result<Vec<DirEntry>, Memory>
        ensures all { IfOk result (λ v. v.items ≡ self.entries) }
        ensures directory { IfOk result (λ v. IsDirectory v.items) }
    {
        let mut entries = self.closed;
        match self.last {
            None => Ok(entries),
            Some(last) => match entries.push(last) {
                Ok(()) => Ok(entries),
                Err(_) => Err(Memory),
            },
        }
    }
}

// Whether an entry goes on with one of one tile.
#[tactic(auto, unfolding(crate::specs::Listed::is_followed))]
fn is_followed(last: DirEntry, e: DirEntry) -> bool
    ensures told { result ≡ is_followed last e }
    ensures room { result ≡ true → last.run + 1 < 2 ^ 32 }
    ensures id { result ≡ true → e.id ≡ last.id + last.run }
{
    u128::from(e.id) == u128::from(last.id) + u128::from(last.run)
        && e.offset == last.offset
        && last.run < MAX_RUN
}

fn one_longer(e: DirEntry) -> DirEntry
    requires { e.run + 1 < 2 ^ 32 }
    ensures { result ≡ one_longer e }
{
    DirEntry {
        id: e.id,
        run: e.run + 1,
        len: e.len,
        offset: e.offset,
    }
}
