ghost use Rattle.std.specs.Prelude.{◌≡◌, ◌<◌, ◌≤◌, ◌^◌, ◌++◌, string_bytes, IfOk, IfSome, IfNone};
ghost use Rattle.pmtiles_dirs.specs.Bounds.{CanBeWritten};
ghost use Rattle.pmtiles_dirs.specs.Archive.{length_of};
ghost use Rattle.pmtiles_file.specs.Finished.{PutAnswers, parts_text, totals_in};

use crate::append::append;
use crate::distinct::Distinct;
use crate::finish_err::FinishErr;
use crate::listed::Listed;
use pmtiles_dirs::{
    HEADER_LEN, Meta, Sizes, Totals, map_header, metadata_text, plan_leaves, put_header,
};
use std::alloc::Global;
use tb_outside::Sink;
use tb_types::{Memory, Seq};

/// What stands in an archive before the contents, and what it holds in all.
#[derive(Drop)]
pub struct Parts {
    pub header: [u8; 127],
    pub root: Seq<u8>,
    pub metadata: String,
    pub leaves: Seq<u8>,
    pub totals: Totals,
}

/// Header, root, metadata and leaves. A leaf of 2^32 bytes, or an archive of 2^64, is refused as want of memory.
#[tactic(auto, unfolding(crate::specs::Finished::parts_text))]
pub fn prepare(
    alloc: Global,
    meta: &Meta,
    contents: &Distinct,
    listed: Listed,
) -> Result<Parts, Memory>
    requires { IfSome meta.now.bounds CanBeWritten }
    ensures text { IfOk result (λ p. p.header ++ (p.root ++ (string_bytes p.metadata ++ p.leaves)) ≡ parts_text (record { meta = meta.now; contents = contents.now; entries = listed.entries; tiles = listed.tiles })) }
    ensures fits { IfOk result (λ p. p.totals.bytes < 2 ^ 64) }
    ensures totals { IfOk result (λ p. p.totals ≡ totals_in (record { meta = meta.now; contents = contents.now; entries = listed.entries; tiles = listed.tiles })) }
{
    let tiles = listed.tiles();
    let entries = listed.into_entries()?;
    let dirs = plan_leaves(alloc, &entries)?;
    let metadata = metadata_text(alloc, meta.name.as_str(), meta.layers.as_slice())?;
    let sizes = Sizes {
        root_len: dirs.root.as_slice().len() as u64,
        meta_len: metadata.len() as u64,
        leaves_len: dirs.leaves.as_slice().len() as u64,
        tiles_len: contents.end(),
        tile_count: tiles,
        entry_count: entries.len() as u64,
        content_count: contents.len(),
    };
    let bytes = match total(sizes) {
        Some(bytes) => bytes,
        None => return Err(Memory),
    };
    let mut header = [0; 127];
    put_header(&map_header(meta, sizes), &mut header);
    Ok(Parts {
        header,
        root: dirs.root,
        metadata,
        leaves: dirs.leaves,
        totals: Totals {
            tiles,
            entries: sizes.entry_count,
            contents: sizes.content_count,
            bytes,
        },
    })
}

// How long an archive is, if 64 bits hold it.
fn total(sizes: Sizes) -> Option<u64>
    ensures some { IfSome result (λ n. n ≡ length_of sizes) }
    ensures fits { IfSome result (λ n. n < 2 ^ 64) }
    ensures none { IfNone result (2 ^ 64 ≤ length_of sizes) }
{
    let before = (HEADER_LEN as u64).checked_add(sizes.root_len)?;
    let before = before.checked_add(sizes.meta_len)?;
    before
        .checked_add(sizes.leaves_len)?
        .checked_add(sizes.tiles_len)
}

/// Appends header, root, metadata and leaves to a sink.
pub fn append_parts<K: Sink>(sink: &mut K, parts: &Parts) -> Result<(), FinishErr>
    ensures { PutAnswers (K.seen sink.old) (K.seen sink.new) (parts.now.header ++ (parts.now.root ++ (string_bytes parts.now.metadata ++ parts.now.leaves))) result }
{
    match append(sink, &parts.header) {
        Ok(()) => {}
        Err(e) => return Err(e),
    }
    match append(sink, parts.root.as_slice()) {
        Ok(()) => {}
        Err(e) => return Err(e),
    }
    match append(sink, parts.metadata.as_bytes()) {
        Ok(()) => {}
        Err(e) => return Err(e),
    }
    append(sink, parts.leaves.as_slice())
}
