ghost use Rattle.std.specs.Prelude.{◌≡◌, None, ◌∷◌, ◌++◌, map, flat_map, length, IfOk, OnOk};
ghost use Rattle.tb_wire.specs.Varint.{encoding};
ghost use Rattle.pmtiles_dirs.specs.Directory.{IsEntry, IsBehind, IsDirectory, dir_text, column, step_behind, code_behind};

use crate::entry::DirEntry;
use std::alloc::Global;
use tb_types::Memory;
use tb_wire::put_varint;

/// The bytes of a directory (PMTiles 3, section 4.2): how many entries it has, then the ids of all, their runs, their
/// lengths and their offsets, as varints. The ids ascend, each entry has bytes, and neither the last id that a run covers
/// nor the end of an entry's bytes passes 64 bits.
#[tactic(auto, using(std::proofs::Common::append_assoc, crate::proofs::Columns::flat_map_joined), unfolding(crate::specs::Directory::dir_text))]
pub fn put_dir(alloc: Global, entries: &[DirEntry]) -> Result<Vec<u8>, Memory>
    requires { IsDirectory entries.now }
    ensures { IfOk result (λ v. v.items ≡ dir_text entries.now) }
{
    let mut out = Vec::new(alloc);
    put_varint(&mut out, entries.len() as u64)?;
    put_ids(&mut out, entries)?;
    put_runs(&mut out, entries)?;
    put_lens(&mut out, entries)?;
    put_offsets(&mut out, entries)?;
    Ok(out)
}

// Appends each id as what it is more than the one before it.
fn put_ids(out: &mut Vec<u8>, entries: &[DirEntry]) -> Result<(), Memory>
    requires { IsDirectory entries.now }
    ensures { OnOk result (out.new.items ≡ out.old.items ++ flat_map encoding (column step_behind None entries.now)) }
{
    let mut before = None;
    for e in entries {
        put_varint(out, step_behind(before, *e))?;
        before = Some(*e);
    }
    Ok(())
}

fn put_runs(out: &mut Vec<u8>, entries: &[DirEntry]) -> Result<(), Memory>
    ensures { OnOk result (out.new.items ≡ out.old.items ++ flat_map encoding (map (λ e. e.run) entries.now)) }
{
    for e in entries {
        put_varint(out, u64::from(e.run))?;
    }
    Ok(())
}

fn put_lens(out: &mut Vec<u8>, entries: &[DirEntry]) -> Result<(), Memory>
    ensures { OnOk result (out.new.items ≡ out.old.items ++ flat_map encoding (map (λ e. e.len) entries.now)) }
{
    for e in entries {
        put_varint(out, u64::from(e.len))?;
    }
    Ok(())
}

// Appends each offset: 0 where the bytes follow on those of the entry before, and else one more than it is.
fn put_offsets(out: &mut Vec<u8>, entries: &[DirEntry]) -> Result<(), Memory>
    requires { IsDirectory entries.now }
    ensures { OnOk result (out.new.items ≡ out.old.items ++ flat_map encoding (column code_behind None entries.now)) }
{
    let mut before = None;
    for e in entries {
        put_varint(out, code_behind(before, *e))?;
        before = Some(*e);
    }
    Ok(())
}

fn step_behind(before: Option<DirEntry>, e: DirEntry) -> u64
    requires { IsBehind before e }
    ensures { result ≡ step_behind before e }
{
    match before {
        None => e.id,
        Some(before) => e.id - before.id,
    }
}

fn code_behind(before: Option<DirEntry>, e: DirEntry) -> u64
    requires { IsEntry e }
    ensures { result ≡ code_behind before e }
{
    match before {
        None => e.offset + 1,
        Some(before) => match before.offset.checked_add(u64::from(before.len)) {
            None => e.offset + 1,
            Some(end) => if e.offset == end { 0 } else { e.offset + 1 },
        },
    }
}
