ghost use Rattle.std.specs.Prelude.{◌≡◌, ◌<◌, ◌++◌, true, false, length, IfOk, IfSome, IfNone, OnOk};
ghost use Rattle.pmtiles_dirs.specs.Directory.{IsEntry, IsDirectory, dir_text};
ghost use Rattle.pmtiles_dirs.specs.Leaves.{IsPlan, plan_of, plan_by, split_plan, plan_in, is_short, leaf_entry};

use crate::entry::{DirEntry, Dirs};
use crate::put::put_dir;
use std::alloc::Global;
use tb_types::{Memory, Seq};

/// The most bytes of a root directory, which with the header stays within the first 16,384.
pub const ROOT_LIMIT: usize = 16_257;

/// The least number of entries of a leaf, and how often it is doubled at most.
const LEAST_LEAF: usize = 4096;

const DOUBLINGS: usize = 51;

/// The least bytes of an entry: each of its four numbers takes one.
const LEAST_ENTRY: usize = 4;

/// Root and leaves of entries that name tiles (PMTiles 3, section 4). All entries stand in the root where that has at most
/// 16,257 bytes. Else leaves have 4096 entries each, or the least double of it whose root of leaf entries is that short.
pub fn plan_leaves(alloc: Global, entries: &[DirEntry]) -> Result<Dirs, Memory>
    requires { IsDirectory entries.now }
    ensures exact { IfOk result (λ dirs. plan_in dirs ≡ plan_of entries.now) }
    ensures least { IfOk result (λ dirs. IsPlan entries.now (plan_in dirs)) }
{
    planned(alloc, entries)
}

#[tactic(auto, unfolding(crate::specs::Leaves::plan_of))]
fn planned(alloc: Global, entries: &[DirEntry]) -> Result<Dirs, Memory>
    requires { IsDirectory entries.now }
    ensures { IfOk result (λ dirs. plan_in dirs ≡ plan_of entries.now) }
{
    match short_root(alloc, entries)? {
        Some(root) => Ok(Dirs {
            root: Seq::from_vec(root),
            leaves: Seq::new(alloc),
        }),
        None => plan_from(alloc, entries),
    }
}

// The root of all entries, if it is short. It has at least four bytes an entry, so that of many isn't written.
fn short_root(alloc: Global, entries: &[DirEntry]) -> Result<Option<Vec<u8>>, Memory>
    requires { IsDirectory entries.now }
    ensures some { IfOk result (λ found. IfSome found (λ root. (root.items ≡ dir_text entries.now) × (is_short (dir_text entries.now) ≡ true))) }
    ensures none { IfOk result (λ found. IfNone found (is_short (dir_text entries.now) ≡ false)) }
{
    if entries.len() > ROOT_LIMIT / LEAST_ENTRY {
        return Ok(None);
    }
    let root = put_dir(alloc, entries)?;
    if root.len() <= ROOT_LIMIT {
        Ok(Some(root))
    } else {
        Ok(None)
    }
}

// The plan of the least size, of the least leaf and its doubles, whose root is short.
#[tactic(auto, unfolding(crate::specs::Leaves::split_plan))]
fn plan_from(alloc: Global, entries: &[DirEntry]) -> Result<Dirs, Memory>
    requires { IsDirectory entries.now }
    ensures { IfOk result (λ dirs. plan_in dirs ≡ split_plan entries.now) }
{
    let mut size = LEAST_LEAF;
    for _ in 0..DOUBLINGS {
        let dirs = plan_by(alloc, entries, size)?;
        if dirs.root.as_slice().len() <= ROOT_LIMIT {
            return Ok(dirs);
        }
        size *= 2;
    }
    let largest = plan_by(alloc, entries, size)?;
    Ok(largest)
}

// The plan with leaves of so many entries.
#[tactic(auto, unfolding(crate::specs::Leaves::plan_by))]
fn plan_by(alloc: Global, entries: &[DirEntry], size: usize) -> Result<Dirs, Memory>
    requires directory { IsDirectory entries.now }
    requires some { 0 < size }
    ensures { IfOk result (λ dirs. plan_in dirs ≡ plan_by size entries.now) }
{
    let mut leaves = Vec::new(alloc);
    let mut named = Vec::new(alloc);
    let mut at = 0;
    while at < entries.len() {
        let count = size.min(entries.len() - at);
        let e = put_leaf(alloc, &mut leaves, &entries[at..at + count])?;
        named.push(e)?;
        at += count;
    }
    let root = put_dir(alloc, &named)?;
    Ok(Dirs {
        root: Seq::from_vec(root),
        leaves: Seq::from_vec(leaves),
    })
}

// Appends a leaf, and gives the entry that names it. A leaf of 4 GiB has no entry, and counts as want of memory.
fn put_leaf(alloc: Global, leaves: &mut Vec<u8>, part: &[DirEntry]) -> Result<DirEntry, Memory>
    requires directory { IsDirectory part.now }
    requires some { 0 < length part.now }
    ensures leaves { OnOk result (leaves.new.items ≡ leaves.old.items ++ dir_text part.now) }
    ensures named { IfOk result (λ e. e ≡ leaf_entry (length leaves.old.items) part.now) }
    ensures entry { IfOk result IsEntry }
{
    let text = put_dir(alloc, part)?;
    if text.len() > LONGEST_LEAF {
        return Err(Memory);
    }
    let offset = leaves.len() as u64;
    leaves.extend_from_slice(&text)?;
    Ok(DirEntry {
        id: part[0].id,
        run: 0,
        len: text.len() as u32,
        offset,
    })
}

/// The most bytes of a leaf, which an entry has room for.
const LONGEST_LEAF: usize = 0xffff_ffff;
