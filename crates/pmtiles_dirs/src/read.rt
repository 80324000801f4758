ghost use Rattle.std.specs.Prelude.{◌≡◌, ◌+◌, ◌<◌, ◌^◌, None, Some, ◌∷◌, length, IfOk, IfSome, IfNone, true};
ghost use Rattle.pmtiles_dirs.specs.Directory.{IsDirectory, dir_of, dir_in, entries_behind, rows, read_entry, follows, is_entry, id_behind, offset_behind, numbers_of, IsFull};

use crate::entry::DirEntry;
use std::alloc::Global;
use tb_types::{Memory, Seq};
use tb_wire::read_varint;

/// The entries of a directory, or `None` exactly where the bytes are none (PMTiles 3, section 4.2): a varint is cut or
/// passes 64 bits, there are more or fewer numbers than the count asks for, a run or a length passes 32 bits, a length is
/// 0, the first offset is written as 0, an id isn't above the one before it, or an offset, the last id that a run covers
/// or the end of an entry's bytes passes 64 bits. What it keeps is at most in proportion to the bytes and to the count.
#[tactic(auto, unfolding(crate::specs::Directory::dir_of))]
pub fn read_dir(alloc: Global, bytes: &[u8]) -> Result<Option<Seq<DirEntry>>, Memory>
    ensures exact { IfOk result (λ found. found ≡ dir_of bytes.now) }
    ensures directory { IfOk result (λ found. IfSome found IsDirectory) }
{
    match read_numbers(alloc, bytes)? {
        None => Ok(None),
        Some(numbers) => match numbers.as_slice().split_first() {
            None => Ok(None),
            Some((count, columns)) => read_columns(alloc, *count, columns),
        },
    }
}

// The varints that the bytes are, or none where they are no directory: they are no varints, or more than the first of
// them asks for. No more than those are kept.
fn read_numbers(alloc: Global, bytes: &[u8]) -> Result<Option<Seq<u64>>, Memory>
    ensures some { IfOk result (λ found. IfSome found (λ numbers. Some numbers ≡ numbers_of bytes.now)) }
    ensures none { IfOk result (λ found. IfNone found (dir_in (numbers_of bytes.now) ≡ None)) }
{
    let mut numbers = Vec::new(alloc);
    let mut at = 0;
    while at < bytes.len() {
        if is_full(&numbers) {
            return Ok(None);
        }
        match read_varint(bytes, at) {
            Ok((number, next)) => {
                at = next;
                numbers.push(number)?;
            }
            Err(_) => return Ok(None),
        }
    }
    Ok(Some(Seq::from_vec(numbers)))
}

// Whether four columns of so many numbers as the first says are there.
fn is_full(numbers: &[u64]) -> bool
    ensures { result ≡ true → IsFull numbers.now }
{
    match numbers.split_first() {
        None => false,
        Some((count, columns)) => *count <= columns.len() as u64 / COLUMNS,
    }
}

/// The columns of a directory.
const COLUMNS: u64 = 4;

// The entries of four columns, if each has so many numbers.
fn read_columns(alloc: Global, count: u64, columns: &[u64]) -> Result<Option<Seq<DirEntry>>, Memory>
    ensures exact { IfOk result (λ found. found ≡ dir_in (Some (count ∷ columns.now))) }
    ensures directory { IfOk result (λ found. IfSome found IsDirectory) }
{
    let n = columns.len() / 4;
    if columns.len() % 4 != 0 || n as u64 != count {
        return Ok(None);
    }
    read_rows(alloc, n, columns)
}

// The entries of so many rows, if they are a directory's.
fn read_rows(alloc: Global, n: usize, columns: &[u64]) -> Result<Option<Seq<DirEntry>>, Memory>
    requires { length columns.now ≡ n + n + n + n }
    ensures exact { IfOk result (λ found. found ≡ entries_behind None (rows n columns.now)) }
    ensures directory { IfOk result (λ found. IfSome found IsDirectory) }
{
    let mut entries = Vec::with_capacity(alloc, n)?;
    let mut before = None;
    for i in 0..n {
        let run = columns[n + i];
        let len = columns[n + n + i];
        match read_entry(before, columns[i], run, len, columns[n + n + n + i]) {
            None => return Ok(None),
            Some(e) => {
                entries.push(e)?;
                before = Some(e);
            }
        }
    }
    Ok(Some(Seq::from_vec(entries)))
}

// The entry of four numbers behind another, if they are one.
#[tactic(auto, unfolding(crate::specs::Directory::read_entry))]
fn read_entry(
    before: Option<DirEntry>,
    step: u64,
    run: u64,
    len: u64,
    code: u64,
) -> Option<DirEntry>
    ensures { result ≡ read_entry before step run len code }
{
    let id = id_behind(before, step);
    let offset = offset_behind(before, code);
    let fits = fits(id, run, len, offset);
    if !follows(before, step, code) || !fits {
        return None;
    }
    Some(DirEntry {
        id: id as u64,
        run: run as u32,
        len: len as u32,
        offset: offset as u64,
    })
}

// Whether numbers are within the sizes of an entry's.
fn fits(id: u128, run: u64, len: u64, offset: u128) -> bool
    requires { (id < 2 ^ 65) × (offset < 2 ^ 65) }
    ensures { result ≡ is_entry (record { id = id; run = run; len = len; offset = offset }) }
{
    let last = id + u128::from(run.saturating_sub(1));
    let end = offset + u128::from(len);
    run < SIZE_32 && 0 < len && len < SIZE_32 && last < SIZE_64 && end < SIZE_64
}

/// The first numbers past 32 and 64 bits.
const SIZE_32: u64 = 1 << 32;

const SIZE_64: u128 = 1 << 64;

// Whether ids ascend, and the first offset isn't written as one that follows on another.
fn follows(before: Option<DirEntry>, step: u64, code: u64) -> bool
    ensures { result ≡ follows before step code }
{
    match before {
        None => 0 < code,
        Some(_) => 0 < step,
    }
}

fn id_behind(before: Option<DirEntry>, step: u64) -> u128
    ensures exact { result ≡ id_behind before step }
    ensures small { result < 2 ^ 65 }
{
    match before {
        None => u128::from(step),
        Some(before) => u128::from(before.id) + u128::from(step),
    }
}

fn offset_behind(before: Option<DirEntry>, code: u64) -> u128
    ensures exact { result ≡ offset_behind before code }
    ensures small { result < 2 ^ 65 }
{
    match before {
        None => u128::from(code.saturating_sub(1)),
        Some(before) => {
            if code == 0 {
                u128::from(before.offset) + u128::from(before.len)
            } else {
                u128::from(code - 1)
            }
        }
    }
}
