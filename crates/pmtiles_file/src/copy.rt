ghost use Rattle.std.specs.Prelude.{◌≡◌, ◌<◌, ◌≤◌, ◌+◌, ◌++◌, [], take, length, IfOk, IfSome};
ghost use Rattle.pmtiles_file.specs.Spool.{Stands, content_in};
ghost use Rattle.pmtiles_file.specs.Distinct.{StandIn};
ghost use Rattle.pmtiles_file.specs.Finished.{StepAnswers, PartAnswers, RoomAnswers, all_contents};

use crate::append::append;
use crate::finish_err::FinishErr;
use crate::stored::Stored;
use tb_outside::{Sink, Spill};

/// Appends all contents from the spool to the sink, one behind another. They are gathered in the buffer before they are
/// appended.
pub fn copy_all<S: Spill, K: Sink>(
    spool: &mut S,
    sink: &mut K,
    buffer: &mut [u8],
    stored: &[Stored],
) -> Result<(), FinishErr>
    requires room { 0 < length buffer.old }
    requires stand { StandIn (S.seen spool.old).runs stored.now }
    ensures { StepAnswers (λ _. []) (all_contents stored.now) (S.seen spool.old) (S.seen spool.new) (K.seen sink.old) (K.seen sink.new) result }
{
    let mut filled = 0;
    for content in stored {
        match copy(spool, sink, buffer, filled, *content) {
            Ok(n) => filled = n,
            Err(e) => return Err(e),
        }
    }
    match append(sink, &buffer[..filled]) {
        Ok(()) => Ok(()),
        Err(e) => Err(e),
    }
}

// Gathers a content behind what the buffer has, and appends the buffer whenever it is full.
fn copy<S: Spill, K: Sink>(
    spool: &mut S,
    sink: &mut K,
    buffer: &mut [u8],
    start: usize,
    content: Stored,
) -> Result<usize, FinishErr>
    requires room { 0 < length buffer.old }
    requires start { start ≤ length buffer.old }
    requires stands { IfSome (S.seen spool.old).runs (λ runs. Stands runs.ended content) }
    ensures answers { StepAnswers (λ n. take n buffer.new) (λ runs. take start buffer.old ++ content_in runs.ended content) (S.seen spool.old) (S.seen spool.new) (K.seen sink.old) (K.seen sink.new) result }
    ensures room { length buffer.new ≡ length buffer.old }
    ensures filled { IfOk result (λ n. n ≤ length buffer.old) }
{
    let len = content.len as usize;
    let mut filled = start;
    let mut at = 0;
    while at < len {
        match make_room(sink, buffer, filled) {
            Ok(n) => filled = n,
            Err(e) => return Err(e),
        }
        let n = (buffer.len() - filled).min(len - at);
        match read_behind(spool, buffer, filled, n, content, at) {
            Ok(()) => {}
            Err(e) => return Err(e),
        }
        filled += n;
        at += n;
    }
    Ok(filled)
}

// Appends the buffer if it is full, and gives how much of it is filled then.
fn make_room<K: Sink>(sink: &mut K, buffer: &[u8], filled: usize) -> Result<usize, FinishErr>
    requires room { 0 < length buffer.now }
    requires filled { filled ≤ length buffer.now }
    ensures answers { RoomAnswers (λ n. take n buffer.now) (take filled buffer.now) (K.seen sink.old) (K.seen sink.new) result }
    ensures room { IfOk result (λ n. n < length buffer.now) }
{
    if filled < buffer.len() {
        return Ok(filled);
    }
    match append(sink, buffer) {
        Ok(()) => Ok(0),
        Err(e) => Err(e),
    }
}

// Reads a part of a content into the buffer, behind what stands there.
fn read_behind<S: Spill>(
    spool: &mut S,
    buffer: &mut [u8],
    filled: usize,
    n: usize,
    content: Stored,
    at: usize,
) -> Result<(), FinishErr>
    requires room { filled + n ≤ length buffer.old }
    requires within { at + n ≤ content.len }
    requires stands { IfSome (S.seen spool.old).runs (λ runs. Stands runs.ended content) }
    ensures part { PartAnswers content at n (S.seen spool.old) (S.seen spool.new) (take filled buffer.old) (take (filled + n) buffer.new) result }
    ensures room { length buffer.new ≡ length buffer.old }
{
    match spool.read_run(
        u64::from(content.run),
        at as u64,
        &mut buffer[filled..filled + n],
    ) {
        Ok(()) => Ok(()),
        Err(_) => Err(FinishErr::Spill),
    }
}
