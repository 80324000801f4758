ghost use Rattle.std.specs.Prelude.{◌≡◌, ◌<◌, ◌≤◌, ◌^◌, [], length, IfOk, IfSome};
ghost use Rattle.pmtiles_file.specs.Distinct.{PlaceAnswers, PutAnswers, StandIn};
ghost use Rattle.pmtiles_file.specs.Finished.{StepAnswers, all_contents};

use crate::copy::copy_all;
use crate::finish_err::FinishErr;
use crate::hash::hash_of;
use crate::index::HashIndex;
use crate::search::find;
use crate::store::store;
use crate::stored::Stored;
use std::alloc::Global;
use std::marker::Model;
use tb_outside::{Sink, Spill, SpillErr};
use tb_types::Memory;

/// The room for reading contents back and for copying them, in bytes.
const ROOM: usize = 65_536;

/// The distinct contents of an archive, in the order of their first use. Their bytes stand in runs of a spool.
#[derive(Drop)]
pub struct Distinct {
    index: HashIndex,
    stored: Vec<Stored>,
    end: u64,
    room: Vec<u8>,
}

impl Model for Distinct {
    ghost use Rattle.std.specs.Prelude.{length};
    ghost use Rattle.pmtiles_file.specs.Distinct.{DistinctSeen, IsDistinct};

    ghost Value = { DistinctSeen };

    ghost view = { λ d. record { hashes = d.index; stored = d.stored.items; end = d.end } };

    ghost invariant = { λ d. IsDistinct (record { hashes = d.index; stored = d.stored.items; end = d.end }) (length d.room.items) };
}

impl Distinct {
    /// No contents, and room for reading them back.
    pub fn new(alloc: Global) -> Result<Distinct, Memory>
        ensures { IfOk result (λ d. d ≡ record { hashes = []; stored = []; end = 0 }) }
    {
        let room = room(alloc)?;
        Ok(Distinct {
            index: HashIndex::new(alloc),
            stored: Vec::new(alloc),
            end: 0,
            room,
        })
    }

    /// Where a content lies, which is stored if it is none of those before it. It has 1 to 2^32 - 1 bytes.
    pub fn place<S: Spill>(&mut self, spool: &mut S, bytes: &[u8]) -> Result<Stored, SpillErr>
        requires some { 1 ≤ length bytes.now }
        requires short { length bytes.now < 2 ^ 32 }
        requires stand { StandIn (S.seen spool.old).runs self.old.stored }
        ensures { PlaceAnswers self.old self.new bytes.now (S.seen spool.old) (S.seen spool.new) result }
    {
        let hash = hash_of(bytes);
        match find(
            spool,
            &self.index,
            &self.stored,
            &mut self.room,
            hash,
            bytes,
        ) {
            Ok(Some(number)) => Ok(self.stored[number as usize]),
            Ok(None) => self.put(spool, hash, bytes),
            Err(_) => Err(SpillErr::Failed),
        }
    }

    // Stores a content that is none of those before it: one run of the spool. All room is made before, so that a refusal
    // leaves the contents as they were.
    fn put<S: Spill>(&mut self, spool: &mut S, hash: u32, bytes: &[u8]) -> Result<Stored, SpillErr>
        requires some { 1 ≤ length bytes.now }
        requires short { length bytes.now < 2 ^ 32 }
        ensures { PutAnswers self.old self.new hash bytes.now (S.seen spool.old) (S.seen spool.new) result }
    {
        let offset = self.end;
        let end = match offset.checked_add(bytes.len() as u64) {
            Some(end) => end,
            None => return Err(SpillErr::Memory),
        };
        match self.stored.reserve(1) {
            Ok(()) => {}
            Err(_) => return Err(SpillErr::Memory),
        }
        let run = match store(spool, bytes) {
            Ok(run) => run,
            Err(e) => return Err(e),
        };
        let run = match u32::try_from(run) {
            Ok(run) => run,
            Err(_) => return Err(SpillErr::Memory),
        };
        match self.index.push(hash) {
            Ok(()) => {}
            Err(Memory) => return Err(SpillErr::Memory),
        }
        let content = Stored {
            run,
            len: bytes.len() as u32,
            offset,
        };
        self.stored.push_reserved(content);
        self.end = end;
        Ok(content)
    }

    /// How many contents there are.
    pub fn len(&self) -> u64
        ensures { result ≡ length self.now.stored }
    {
        self.stored.len() as u64
    }

    /// How many bytes all contents have.
    pub fn end(&self) -> u64
        ensures { result ≡ self.now.end }
    {
        self.end
    }

    /// Appends all contents to a sink, one behind another.
    pub fn copy_to<S: Spill, K: Sink>(self, spool: &mut S, sink: &mut K) -> Result<(), FinishErr>
        requires { StandIn (S.seen spool.old).runs self.stored }
        ensures { StepAnswers (λ _. []) (all_contents self.stored) (S.seen spool.old) (S.seen spool.new) (K.seen sink.old) (K.seen sink.new) result }
    {
        let mut distinct = self;
        copy_all(spool, sink, &mut distinct.room, &distinct.stored)
    }
}

// Room for reading contents back.
fn room(alloc: Global) -> Result<Vec<u8>, Memory>
    ensures { IfOk result (λ room. 1 ≤ length room.items) }
{
    let room = vec![in alloc; 0u8; ROOM]?;
    Ok(room)
}
