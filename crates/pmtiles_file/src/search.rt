ghost use Rattle.std.specs.Prelude.{◌≡◌, ◌<◌, ◌≤◌, [], length, slice_index_or, IfOk, IfSome, Some, None};
ghost use Rattle.std.specs.Str.{bytes_eq};
ghost use Rattle.pmtiles_file.specs.Spool.{Stands, AllStand, Reads, Finds, content_in};

use crate::index::HashIndex;
use crate::stored::Stored;
use tb_outside::{Failed, Spill};

/// Whether an ended run of the spool has these bytes, which are as many. It is read back part by part.
pub fn is_content<S: Spill>(
    spool: &mut S,
    buffer: &mut [u8],
    run: u64,
    bytes: &[u8],
) -> Result<bool, Failed>
    requires room { 0 < length buffer.old }
    requires told { IfSome (S.seen spool.old).runs (λ runs. (run < length runs.ended) × (length (slice_index_or runs.ended run []) ≡ length bytes.now)) }
    ensures told { IfOk result (λ same. IfSome (S.seen spool.old).runs (λ runs. same ≡ bytes_eq bytes.now (slice_index_or runs.ended run []))) }
    ensures reads { Reads (S.seen spool.old) (S.seen spool.new) result }
    ensures room { length buffer.new ≡ length buffer.old }
{
    let mut at = 0;
    while at < bytes.len() {
        let n = buffer.len().min(bytes.len() - at);
        match spool.read_run(run, at as u64, &mut buffer[..n]) {
            Ok(()) => {}
            Err(e) => return Err(e),
        }
        if !is_same(&buffer[..n], &bytes[at..at + n]) {
            return Ok(false);
        }
        at += n;
    }
    Ok(true)
}

fn is_same(one: &[u8], other: &[u8]) -> bool
    ensures { result ≡ bytes_eq one.now other.now }
{
    one == other
}

// Whether a content has these bytes. One of another length isn't read.
fn has_bytes<S: Spill>(
    spool: &mut S,
    buffer: &mut [u8],
    content: Stored,
    bytes: &[u8],
) -> Result<bool, Failed>
    requires room { 0 < length buffer.old }
    requires told { IfSome (S.seen spool.old).runs (λ runs. Stands runs.ended content) }
    ensures told { IfOk result (λ same. IfSome (S.seen spool.old).runs (λ runs. same ≡ bytes_eq bytes.now (content_in runs.ended content))) }
    ensures reads { Reads (S.seen spool.old) (S.seen spool.new) result }
    ensures room { length buffer.new ≡ length buffer.old }
{
    if content.len as usize != bytes.len() {
        return Ok(false);
    }
    is_content(spool, buffer, u64::from(content.run), bytes)
}

/// The number of the content that has these bytes, if there is one. Contents of another hash or length aren't read.
pub fn find<S: Spill>(
    spool: &mut S,
    index: &HashIndex,
    stored: &[Stored],
    buffer: &mut [u8],
    hash: u32,
    bytes: &[u8],
) -> Result<Option<u32>, Failed>
    requires room { 0 < length buffer.old }
    requires len { length stored.now ≡ length index.now }
    requires told { IfSome (S.seen spool.old).runs (λ runs. AllStand runs.ended stored.now) }
    ensures told { IfOk result (λ found. IfSome (S.seen spool.old).runs (λ runs. Finds runs.ended index.now stored.now hash bytes.now found)) }
    ensures number { IfOk result (λ found. IfSome found (λ n. n < length stored.now)) }
    ensures reads { Reads (S.seen spool.old) (S.seen spool.new) result }
    ensures room { length buffer.new ≡ length buffer.old }
{
    let mut candidate = index.latest(hash);
    while let Some(number) = candidate {
        let content = stored[number as usize];
        match has_bytes(spool, buffer, content, bytes) {
            Ok(true) => return Ok(Some(number)),
            Ok(false) => {}
            Err(e) => return Err(e),
        }
        candidate = index.before(number);
    }
    Ok(None)
}
