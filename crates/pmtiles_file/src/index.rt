ghost use Rattle.std.specs.Prelude.{◌≡◌, ◌<◌, ◌++◌, [], ◌∷◌, length, get_or, OnOk, OnErr};
ghost use Rattle.pmtiles_file.specs.Hashes.{last_with};

use std::alloc::Global;
use std::collections::HashMap;
use std::marker::Model;
use tb_types::Memory;

/// The hashes of numbered contents: the last content of each hash, and of each content the last one before it that has
/// the same hash.
#[derive(Drop)]
pub struct HashIndex {
    hashes: Vec<u32>,
    earlier: Vec<Option<u32>>,
    latest: HashMap<u32, u32>,
}

impl Model for HashIndex {
    ghost use Rattle.std.specs.Prelude.{List, ℕ};
    ghost use Rattle.pmtiles_file.specs.Index.{IsIndex};

    ghost Value = { List ℕ };

    ghost view = { λ s. s.hashes.items };

    ghost invariant = { λ s. IsIndex s.hashes.items s.earlier.items s.latest };
}

impl HashIndex {
    /// An index of no contents. It takes no memory.
    pub fn new(alloc: Global) -> HashIndex
        ensures { result ≡ [] }
    {
        HashIndex {
            hashes: Vec::new(alloc),
            earlier: Vec::new(alloc),
            latest: HashMap::new(alloc),
        }
    }

    /// Adds the hash of the next content. There are fewer than 2^32 of them; another is refused as want of memory.
    pub fn push(&mut self, hash: u32) -> Result<(), Memory>
        ensures ok { OnOk result (self.new ≡ self.old ++ hash ∷ []) }
        ensures err { OnErr result (self.new ≡ self.old) }
    {
        let number = self.hashes.len();
        if number > LAST_NUMBER {
            return Err(Memory);
        }
        self.hashes.reserve(1)?;
        self.earlier.reserve(1)?;
        let before = self.latest.insert(hash, number as u32)?;
        self.hashes.push_reserved(hash);
        self.earlier.push_reserved(before);
        Ok(())
    }

    /// The last content that has a hash.
    pub fn latest(&self, hash: u32) -> Option<u32>
        ensures { result ≡ last_with hash self.now (length self.now) }
    {
        self.latest.get(&hash).copied()
    }

    /// The last content before another that has its hash.
    pub fn before(&self, number: u32) -> Option<u32>
        requires { number < length self.now }
        ensures { result ≡ last_with (get_or self.now number 0) self.now number }
    {
        self.earlier[number as usize]
    }
}

/// The greatest number of a content.
const LAST_NUMBER: usize = 0xffff_fffe;
