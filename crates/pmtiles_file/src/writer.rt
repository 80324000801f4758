ghost use Rattle.std.specs.Prelude.{◌≡◌, ◌<◌, ◌≤◌, ◌^◌, [], ℕ, List, Option, length, IfOk, IfSome};
ghost use Rattle.tb_outside.specs.Spill.{Runs};
ghost use Rattle.pmtiles_dirs.specs.Bounds.{CanBeWritten};
ghost use Rattle.pmtiles_file.specs.Writing.{next_id, RunsStand, Wrote, AddAnswers};
ghost use Rattle.pmtiles_file.specs.Finished.{FinishAnswers};

use crate::distinct::Distinct;
use crate::finish_err::FinishErr;
use crate::listed::Listed;
use crate::parts::{append_parts, prepare};
use pmtiles_dirs::{Meta, Totals};
use std::alloc::Global;
use std::marker::Model;
use tb_outside::{Sink, Spill, SpillErr};
use tb_types::{Memory, TileId};

/// Writes the archive of a map (PMTiles 3). Tiles are added by ascending ids, and their contents go to a spool. What is kept
/// of them is about 40 bytes a distinct content and 24 an entry.
#[derive(Drop)]
pub struct Writer {
    meta: Meta,
    contents: Distinct,
    listed: Listed,
    alloc: Global,
}

impl Model for Writer {
    ghost use Rattle.std.specs.Prelude.{IfSome};
    ghost use Rattle.pmtiles_dirs.specs.Bounds.{CanBeWritten};
    ghost use Rattle.pmtiles_file.specs.Writing.{WriterSeen};

    ghost Value = { WriterSeen };

    ghost view = { λ w. record { meta = w.meta; contents = w.contents; entries = w.listed.entries; tiles = w.listed.tiles } };

    ghost invariant = { λ w. IfSome w.meta.bounds CanBeWritten };
}

impl Writer {
    /// A writer of a map without tiles. The map's box, if it has one, fits 32 bits in 10^-7 degrees.
    pub fn new(alloc: Global, meta: Meta) -> Result<Writer, Memory>
        requires { IfSome meta.bounds CanBeWritten }
        ensures meta { IfOk result (λ w. w.meta ≡ meta) }
        ensures next { IfOk result (λ w. next_id w ≡ 0) }
        ensures stand { IfOk result (λ w. (runs : Option Runs) → RunsStand w runs) }
        ensures none { IfOk result (λ w. (ended : List (List ℕ)) → Wrote w ended []) }
    {
        let contents = Distinct::new(alloc)?;
        Ok(Writer {
            meta,
            contents,
            listed: Listed::new(alloc),
            alloc,
        })
    }

    /// Adds a tile. Its id is above all before it, and it has 1 to 2^32 - 1 bytes. A content that was added before is found
    /// again by its bytes, which are read back; another is one run more of the spool. `Failed` comes only where the spool's
    /// count of faults rose. From 2^32 - 1 distinct contents on, from run number 2^32 of the spool on, and past 2^64 - 1 tiles
    /// or bytes of contents, another is refused as want of memory. After a refusal the writer isn't used again.
    pub fn add<S: Spill>(&mut self, spool: &mut S, id: TileId, bytes: &[u8]) -> Result<(), SpillErr>
        requires next { next_id self.old ≤ id.0 }
        requires some { 1 ≤ length bytes.now }
        requires short { length bytes.now < 2 ^ 32 }
        requires stand { RunsStand self.old (S.seen spool.old).runs }
        ensures { AddAnswers self.old self.new id.0 bytes.now (S.seen spool.old) (S.seen spool.new) result }
    {
        let content = match self.contents.place(spool, bytes) {
            Ok(content) => content,
            Err(e) => return Err(e),
        };
        match self.listed.add(id.0, content) {
            Ok(()) => {}
            Err(Memory) => return Err(SpillErr::Memory),
        }
        Ok(())
    }

    /// Appends the whole archive to the sink: header, root, metadata, leaves, and the contents from the spool. `Memory` comes
    /// only before the first byte, also where a leaf has 2^32 bytes or the archive 2^64. `Spill` and `Sink` come only where that
    /// count of faults rose, and then the sink has a prefix of the archive.
    pub fn finish<S: Spill, K: Sink>(self, spool: &mut S, sink: &mut K) -> Result<Totals, FinishErr>
        requires { RunsStand self (S.seen spool.old).runs }
        ensures { FinishAnswers self (S.seen spool.old) (S.seen spool.new) (K.seen sink.old) (K.seen sink.new) result }
    {
        let Writer {
            meta,
            contents,
            listed,
            alloc,
        } = self;
        let parts = match prepare(alloc, &meta, &contents, listed) {
            Ok(parts) => parts,
            Err(Memory) => return Err(FinishErr::Memory),
        };
        match append_parts(sink, &parts) {
            Ok(()) => {}
            Err(e) => return Err(e),
        }
        match contents.copy_to(spool, sink) {
            Ok(()) => {}
            Err(e) => return Err(e),
        }
        Ok(parts.totals)
    }
}
