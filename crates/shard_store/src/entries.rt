ghost use Rattle.std.specs.Prelude.{◌≡◌, ◌∷◌, ◌++◌, ◌+◌, ◌==◌, ◌<◌, ◌≤◌, List, [], length, replicate, if◌then◌else◌, IfSome, IfNone, IfOk, OnOk, Some, None};
ghost use Rattle.std.specs.VecDeque.{deque_len, deque_capacity};
ghost use Rattle.tb_types.specs.declared.element.OsmId.{OsmId};
ghost use Rattle.shard_store.specs.Ids.{is_same};
ghost use Rattle.shard_store.specs.Join.{IsJoinOf, value_at};
ghost use Rattle.shard_store.specs.Parts.{IsPart, squeezed};

use crate::join::Join;
use std::alloc::Global;
use std::collections::VecDeque;
use std::marker::Model;
use tb_types::{Memory, OsmId};

/// Entries, each an id and a value. A contract sees their list.
#[derive(Drop)]
pub struct Entries<V> {
    pub(super) items: Vec<(OsmId, V)>,
}

impl<V> Model for Entries<V> {
    ghost Value = { List (OsmId × V) };

    ghost view = { λ e. e.items.items };
}

// The next entry of a list by ids: taken into the last one where both are under one id, else the last one is done.
fn step<V: Join>(
    done: &mut VecDeque<(OsmId, V)>,
    mut last: (OsmId, V),
    next: (OsmId, V),
) -> (OsmId, V)
    requires { deque_len done.old < deque_capacity done.old }
    ensures last { result ≡ (if is_same last.0 next.0 then (last.0, V.both last.1 next.1) else next) }
    ensures done { done.new.items ≡ (if is_same last.0 next.0 then done.old.items else done.old.items ++ last ∷ []) }
    ensures room { (deque_len done.new ≤ deque_len done.old + 1) × (deque_capacity done.new ≡ deque_capacity done.old) }
{
    if last.0.0 == next.0.0 {
        last.1.merge(next.1);
        return last;
    }
    done.push_back_reserved(last);
    next
}

// Joins neighbours under one id where they lie: what is done goes behind what is left.
fn squeeze<V: Join>(entries: Vec<(OsmId, V)>) -> Vec<(OsmId, V)>
    ensures { result.items ≡ squeezed V.both entries.items }
{
    let mut queue = VecDeque::from_vec(entries);
    let Some(mut last) = queue.pop_front() else {
        return queue.into_vec();
    };
    let mut left = queue.len();
    while left > 0 {
        left -= 1;
        let Some(next) = queue.pop_front() else {
            unreachable!()
        };
        last = step(&mut queue, last, next);
    }
    queue.push_back_reserved(last);
    queue.into_vec()
}

impl<V: Join> Entries<V> {
    /// Sorts the entries by id and joins those under one id, where they lie. It takes no memory.
    pub(super) fn joined(self) -> Entries<V>
        ensures part { IsPart result }
        ensures joined { IsJoinOf V.both self result }
    {
        let Entries { mut items } = self;
        items.sort_unstable_by_key(|entry| entry.0.0);
        Entries {
            items: squeeze(items),
        }
    }
}

impl<V> Entries<V> {
    /// No entry. It takes no memory.
    pub(super) fn empty(alloc: Global) -> Entries<V>
        ensures { result ≡ [] }
    {
        Entries {
            items: Vec::new(alloc),
        }
    }

    /// No entry, with room for so many.
    fn with_room(alloc: Global, count: usize) -> Result<Entries<V>, Memory>
        ensures { IfOk result (λ entries. entries ≡ []) }
    {
        Ok(Entries {
            items: Vec::with_capacity(alloc, count)?,
        })
    }

    /// Adds an entry at the end.
    pub(super) fn push(&mut self, entry: (OsmId, V)) -> Result<(), Memory>
    where
        V: Drop,
        ensures { OnOk result (self.new ≡ self.old ++ entry ∷ []) }
    {
        self.items.push(entry)?;
        Ok(())
    }

    pub(super) fn is_empty(&self) -> bool
        ensures { result ≡ (length self.now == 0) }
    {
        self.items.len() == 0
    }

    pub(super) fn len(&self) -> u64
        ensures { result ≡ length self.now }
    {
        self.items.len() as u64
    }

    /// The value under an id, by halving.
    pub(super) fn find(&self, id: OsmId) -> Option<&V>
        requires { IsPart self.now }
        ensures some { IfSome result (λ v. value_at id self.now ≡ Some v.now) }
        ensures none { IfNone result (value_at id self.now ≡ None) }
    {
        let items = self.items.as_slice();
        match items.binary_search_by_key(&id.0, |entry| entry.0.0) {
            Ok(at) => Some(&items[at].1),
            Err(_) => None,
        }
    }
}

/// A list for each shard, without an entry, with room for so many as are told.
pub(super) fn empty_lists<V: Drop>(
    alloc: Global,
    room: &[usize; 64],
) -> Result<Vec<Entries<V>>, Memory>
    ensures { IfOk result (λ lists. lists.items ≡ replicate 64 []) }
{
    let mut lists = Vec::with_capacity(alloc, 64)?;
    for count in room {
        lists.push(Entries::with_room(alloc, *count)?)?;
    }
    Ok(lists)
}
