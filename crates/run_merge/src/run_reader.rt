ghost use Rattle.std.specs.Prelude.{◌≡◌, ◌+◌, ◌<◌, ◌≤◌, ◌∷◌, ◌++◌, [], IfOk, IfSome, OnOk, length, drop, slice_range, Some, IsTrue, ◌↔◌};
ghost use Rattle.mvt_codec.specs.Items.{item_text};
ghost use Rattle.run_merge.specs.Cursors.{IsAhead, IsNext, IsRun, IsSound, IsTold, IsWithin, Stands, bytes_of_run, first_head, left_in};
ghost use Rattle.run_merge.specs.Items.{AreItems};
ghost use Rattle.run_merge.specs.Objects.{objects_of, told_of, whom_of, IsThere};
ghost use Rattle.run_merge.specs.declared.merge_err.MergeErr.TheVariants as errors;
ghost use Rattle.mvt_codec.specs.Order.{prefix_number, suffix_number};
ghost use Rattle.run_merge.specs.Steps.{Advances, Loads, OnlyReads};

use crate::cursor::{Cursor, Head, is_below};
use crate::merge_err::MergeErr;
use crate::named_run::NamedRun;
use crate::window::{WINDOW, Window};
use feature_runs::{RunItem, read_head, read_item};
use mvt_codec::{rank_prefix, rank_suffix};
use std::alloc::Global;
use tb_outside::{Lane, Spill};

/// The bytes of a key and of the length behind it.
const HEAD: u64 = 30;

/// A run that is read item by item.
#[derive(Debug, Drop)]
pub struct RunReader {
    pub cursor: Cursor,
    pub window: Window,
}

impl RunReader {
    /// A run, read up to the head of its first item.
    pub fn open<R, S: Spill>(
        alloc: Global,
        run: NamedRun,
        layers: u8,
        lanes: &mut [Lane<R, S>],
        spool: &mut S,
    ) -> Result<RunReader, MergeErr>
        requires there { IsThere (objects_of S.seen lanes.old spool.old) run.store }
        requires told { IfSome (told_of (objects_of S.seen lanes.old spool.old) run) (λ runs. IsRun layers runs run) }
        ensures run { IfOk result (λ reader. reader.cursor.run ≡ run) }
        ensures at { IfOk result (λ reader. reader.cursor.at ≡ 0) }
        ensures sound { IfOk result IsSound }
        ensures told { IfOk result (IsTold (objects_of S.seen lanes.old spool.old) layers) }
        ensures reads { OnlyReads (objects_of S.seen lanes.old spool.old) (objects_of S.seen lanes.new spool.new) (run ∷ []) result }
    {
        let mut window = Window::new(alloc);
        match head_at(&mut window, run, 0, layers, lanes, spool) {
            Ok(head) => Ok(RunReader {
                cursor: Cursor { run, at: 0, head },
                window,
            }),
            Err(e) => Err(e),
        }
    }

    /// Puts the bytes of the item that is next behind `out`, and reads it. Nothing is taken.
    pub fn load<R, S: Spill>(
        &mut self,
        alloc: Global,
        head: Head,
        layers: u8,
        out: &mut Vec<u8>,
        lanes: &mut [Lane<R, S>],
        spool: &mut S,
    ) -> Result<RunItem, MergeErr>
        requires head { self.old.cursor.head ≡ Some head }
        requires sound { IsSound self.old }
        requires there { IsThere (objects_of S.seen lanes.old spool.old) self.old.cursor.run.store }
        requires told { IsTold (objects_of S.seen lanes.old spool.old) layers self.old }
        ensures loads { IfOk result (λ item. Loads layers self.old self.new item (told_of (objects_of S.seen lanes.old spool.old) self.old.cursor.run)) }
        ensures text { IfOk result (λ item. out.new.items ≡ out.old.items ++ item_text item) }
        ensures sound { IsSound self.new }
        ensures reads { OnlyReads (objects_of S.seen lanes.old spool.old) (objects_of S.seen lanes.new spool.new) (self.old.cursor.run ∷ []) result }
    {
        let cursor = self.cursor;
        let begin = out.len();
        match put_text(
            &mut self.window,
            cursor.run,
            cursor.at,
            head.len,
            out,
            lanes,
            spool,
        ) {
            Ok(()) => {}
            Err(e) => return Err(e),
        }
        let read = match read_item(alloc, out.as_slice(), begin) {
            Ok(read) => read,
            Err(_) => return Err(MergeErr::Memory),
        };
        match read {
            Some((item, end)) => {
                if end == out.len() && is_as_said(head, &item) && item.key.layer < layers {
                    return Ok(item);
                }
                Err(outside(cursor.run, cursor.at))
            }
            None => Err(outside(cursor.run, cursor.at)),
        }
    }

    /// Takes the item that is next, and reads up to the head of the one behind it.
    pub fn advance<R, S: Spill>(
        &mut self,
        head: Head,
        layers: u8,
        lanes: &mut [Lane<R, S>],
        spool: &mut S,
    ) -> Result<(), MergeErr>
        requires head { self.old.cursor.head ≡ Some head }
        requires sound { IsSound self.old }
        requires there { IsThere (objects_of S.seen lanes.old spool.old) self.old.cursor.run.store }
        requires told { IsTold (objects_of S.seen lanes.old spool.old) layers self.old }
        ensures advances { OnOk result (Advances layers self.old self.new head (told_of (objects_of S.seen lanes.old spool.old) self.old.cursor.run)) }
        ensures sound { IsSound self.new }
        ensures reads { OnlyReads (objects_of S.seen lanes.old spool.old) (objects_of S.seen lanes.new spool.new) (self.old.cursor.run ∷ []) result }
    {
        let _end = self.cursor.run.run.len;
        let run = self.cursor.run;
        let at = self.cursor.at + head.len;
        match head_at(&mut self.window, run, at, layers, lanes, spool) {
            Ok(None) => {
                self.cursor = Cursor {
                    run,
                    at,
                    head: None,
                };
                Ok(())
            }
            Ok(Some(next)) => {
                if is_below(next, head) {
                    return Err(outside(run, at));
                }
                self.cursor = Cursor {
                    run,
                    at,
                    head: Some(next),
                };
                Ok(())
            }
            Err(e) => Err(e),
        }
    }
}

// The head of the item at a place of a run, or none at the run's end.
fn head_at<R, S: Spill>(
    window: &mut Window,
    run: NamedRun,
    at: u64,
    layers: u8,
    lanes: &mut [Lane<R, S>],
    spool: &mut S,
) -> Result<Option<Head>, MergeErr>
    requires fits { at ≤ run.run.len }
    requires there { IsThere (objects_of S.seen lanes.old spool.old) run.store }
    requires within { IsWithin run window.old }
    requires stands { IfSome (told_of (objects_of S.seen lanes.old spool.old) run) (λ runs. Stands runs run) }
    requires items { IfSome (told_of (objects_of S.seen lanes.old spool.old) run) (λ runs. AreItems layers (drop at (bytes_of_run runs run))) }
    requires ahead { IfSome (told_of (objects_of S.seen lanes.old spool.old) run) (λ runs. IsAhead runs run window.old) }
    ensures next { IfOk result (λ head. IsNext run.run.len at head) }
    ensures first { IfOk result (λ head. IfSome (told_of (objects_of S.seen lanes.old spool.old) run) (λ runs. head ≡ first_head (left_in runs run at))) }
    ensures within { IsWithin run window.new }
    ensures ahead { OnOk result (IfSome (told_of (objects_of S.seen lanes.old spool.old) run) (λ runs. IsAhead runs run window.new)) }
    ensures reads { OnlyReads (objects_of S.seen lanes.old spool.old) (objects_of S.seen lanes.new spool.new) (run ∷ []) result }
{
    let left = run.run.len - at;
    if left == 0 {
        return Ok(None);
    }
    if left < HEAD {
        return Err(outside(run, at));
    }
    match window.cover(run, at, HEAD, lanes, spool) {
        Ok(()) => {}
        Err(e) => return Err(e),
    }
    let head = match read_head(window.bytes_at(at, HEAD)) {
        Ok(head) => head,
        Err(_) => return Err(MergeErr::Memory),
    };
    match head {
        Some((key, row_len)) => {
            if key.layer >= layers || row_len > left - HEAD {
                return Err(outside(run, at));
            }
            let prefix = rank_prefix(&key);
            let suffix = rank_suffix(&key);
            Ok(Some(Head {
                prefix,
                suffix,
                len: HEAD + row_len,
            }))
        }
        None => Err(outside(run, at)),
    }
}

// Puts so many bytes of a run behind `out`, piece by piece.
fn put_text<R, S: Spill>(
    window: &mut Window,
    run: NamedRun,
    at: u64,
    len: u64,
    out: &mut Vec<u8>,
    lanes: &mut [Lane<R, S>],
    spool: &mut S,
) -> Result<(), MergeErr>
    requires fits { at + len ≤ run.run.len }
    requires there { IsThere (objects_of S.seen lanes.old spool.old) run.store }
    requires within { IsWithin run window.old }
    requires stands { IfSome (told_of (objects_of S.seen lanes.old spool.old) run) (λ runs. Stands runs run) }
    requires ahead { IfSome (told_of (objects_of S.seen lanes.old spool.old) run) (λ runs. IsAhead runs run window.old) }
    ensures len { OnOk result (length out.new.items ≡ length out.old.items + len) }
    ensures text { OnOk result (IfSome (told_of (objects_of S.seen lanes.old spool.old) run) (λ runs. out.new.items ≡ out.old.items ++ slice_range (bytes_of_run runs run) at (at + len))) }
    ensures front { OnOk result (out.new.items ≡ out.old.items ++ drop (length out.old.items) out.new.items) }
    ensures within { IsWithin run window.new }
    ensures ahead { OnOk result (IfSome (told_of (objects_of S.seen lanes.old spool.old) run) (λ runs. IsAhead runs run window.new)) }
    ensures reads { OnlyReads (objects_of S.seen lanes.old spool.old) (objects_of S.seen lanes.new spool.new) (run ∷ []) result }
{
    let mut put: u64 = 0;
    while put < len {
        let size = (len - put).min(WINDOW);
        match window.cover(run, at + put, size, lanes, spool) {
            Ok(()) => {}
            Err(e) => return Err(e),
        }
        match out.extend_from_slice(window.bytes_at(at + put, size)) {
            Ok(()) => {}
            Err(_) => return Err(MergeErr::Memory),
        }
        put += size;
    }
    Ok(())
}

// Whether an item is the one that its head told of.
fn is_as_said(head: Head, item: &RunItem) -> bool
    ensures { IsTrue result ↔ ((head.prefix ≡ prefix_number item.now.key) × (head.suffix ≡ suffix_number item.now.key)) }
{
    rank_prefix(&item.key) == head.prefix && rank_suffix(&item.key) == head.suffix
}

// The run and the place of the item that breaks a rule.
fn outside(run: NamedRun, at: u64) -> MergeErr
    ensures { result ≡ errors.Outside (whom_of run.store) run.run.run at }
{
    MergeErr::Outside {
        whom: run.store.whom(),
        run: run.run.run,
        at,
    }
}
