ghost use Rattle.std.specs.Prelude.{◌≡◌, ◌+◌, ◌-◌, ◌<◌, ◌++◌, ◌≤◌, ℕ, [], true, false, length, IfOk, OnOk, MatchResult, vec_capacity};
ghost use Rattle.shard_store.specs.Facts.{ShardsFacts, SeatFacts, IsSeatOf, IsOfShard, IsWhole};
ghost use Rattle.shard_store.specs.Join.{IsJoinOf};
ghost use Rattle.shard_store.specs.Put.{IsRefusal};

use crate::closing::{take_more, take_part};
use crate::entries::{Entries, empty_lists};
use crate::join::Join;
use crate::map::ShardMap;
use crate::rule::{Deals, Gathers, Gives, Takes, Turns, View};
use crate::seat::ShardSeat;
use atomic_table::Table;
use std::alloc::Global;
use std::marker::Model;
use tb_types::{Memory, OsmId};

/// Why entries were not put. They come back.
#[derive(Debug, Drop)]
pub enum PutErr<V> {
    /// Another seat has the shard's turn just now.
    Again(Vec<(OsmId, V)>),
    /// Want of memory. The shard holds what it held.
    Memory(Vec<(OsmId, V)>),
}

/// 64 lists of entries, which threads fill together, each with a seat of its own.
#[derive(Drop)]
pub struct Shards<V: Join> {
    /// A word is the turn of a shard: 0 where it is free. A slot has the shard's entries.
    pub(super) table: Table<Entries<V>, View<V>, (), Turns, Global>,
    /// Room for the parts of the map that the close makes.
    room: Vec<Entries<V>>,
}

impl<V: Join> Model for Shards<V> {
    ghost Value = { ShardsFacts };

    ghost view = { λ s. record { place = s.table.shared.table_id } };

    ghost invariant = { λ s. (s.table.shared.table_id.words ≡ 64) × (s.table.shared.table_id.slots ≡ 64) × (s.room.items ≡ []) × (63 ≤ vec_capacity s.room) };
}

// Both lists, one behind the other; or both as they were.
fn together<V>(
    mut content: Entries<V>,
    mut more: Entries<V>,
) -> Result<Entries<V>, (Entries<V>, Entries<V>)>
    ensures { MatchResult result (λ e. e ≡ content ++ more) (λ p. (p.0 ≡ content) × (p.1 ≡ more)) }
{
    if content.items.append(&mut more.items).is_err() {
        return Err((content, more));
    }
    let Entries { items } = more;
    items.destroy_empty();
    Ok(content)
}

impl<V: Join> Shards<V> {
    /// Shards without an entry, and their first seat.
    pub fn new(alloc: Global) -> Result<(Shards<V>, ShardSeat<V>), Memory>
        ensures { IfOk result (λ made. made.1 ≡ record { place = made.0.place; first = true; out = 0; found_taken = 0; puts = [] }) }
    {
        let room = Vec::with_capacity(alloc, 63)?;
        let slots = empty_lists(alloc, &[0; 64])?;
        match Table::new(alloc, &[0; 64], slots, &()) {
            Ok((table, seat)) => Ok((Shards { table, room }, ShardSeat { seat })),
            Err(_) => Err(Memory),
        }
    }

    /// A seat for another thread, which has put nothing. Only the first seat may split.
    pub fn split(&self, seat: &mut ShardSeat<V>) -> ShardSeat<V>
        requires shards { IsSeatOf self.now seat.old }
        requires first { seat.old.first ≡ true }
        ensures seat { seat.new ≡ record seat.old { out = seat.old.out + 1 } }
        ensures result { result ≡ record seat.old { first = false; out = 0; found_taken = 0; puts = [] } }
    {
        ShardSeat {
            seat: self.table.shared.split_seat::<Deals>(&mut seat.seat),
        }
    }

    /// Takes another seat back into the first one: its entries come behind those of `seat`.
    pub fn join(&self, seat: &mut ShardSeat<V>, other: ShardSeat<V>)
        requires shards { IsSeatOf self.now seat.old × IsSeatOf self.now other }
        requires first { seat.old.first ≡ true }
        ensures seat { seat.new ≡ record seat.old { out = seat.old.out - 1; found_taken = seat.old.found_taken + other.found_taken; puts = seat.old.puts ++ other.puts } }
    {
        let ShardSeat { seat: theirs } = other;
        self.table
            .shared
            .join_seat::<Gathers>(&mut seat.seat, theirs);
    }

    /// Puts entries into their shard. `Again` comes exactly where the compare and exchange found the shard's turn taken,
    /// which the seat counts. On a refusal the entries come back and nothing was put.
    pub fn put(
        &self,
        seat: &mut ShardSeat<V>,
        shard: u32,
        entries: Vec<(OsmId, V)>,
    ) -> Result<(), PutErr<V>>
        requires shards { IsSeatOf self.now seat.old }
        requires shard { shard < 64 }
        requires ids { IsOfShard shard entries.items }
        ensures ok { OnOk result (seat.new ≡ record seat.old { puts = seat.old.puts ++ entries.items }) }
        ensures err { IsRefusal result entries.items seat.old seat.new }
    {
        let ShardSeat { seat } = seat;
        let shared = &self.table.shared;
        let empty = Entries::empty(*entries.allocator());
        let more = Entries { items: entries };
        if shared.compare_exchange::<Takes>(seat, shard as usize, 0, 1) != 0 {
            return Err(PutErr::Again(more.items));
        }
        let content = shared.exchange(seat, shard as usize, empty);
        match together(content, more) {
            Ok(content) => {
                drop(shared.exchange(seat, shard as usize, content));
                shared.store::<Gives>(seat, shard as usize, 0);
                Ok(())
            }
            Err((content, more)) => {
                drop(shared.exchange(seat, shard as usize, content));
                shared.store::<Gives>(seat, shard as usize, 0);
                Err(PutErr::Memory(more.items))
            }
        }
    }

    /// Ends the table: the map of all that was put. It takes no memory.
    ///
    /// Where all seats are joined into `seat`, the map has under each id the join of what all seats put under it.
    pub fn close(self, seat: ShardSeat<V>) -> ShardMap<V>
        requires shards { IsSeatOf self seat }
        ensures { IsWhole seat → IsJoinOf V.both seat.puts result }
    {
        let Shards { table, room } = self;
        let ShardSeat { seat } = seat;
        let alloc = *room.allocator();
        let mut closed = table.close_with(seat);
        let first = take_part(&mut closed, 0, alloc);
        let more = take_more(&mut closed, room);
        closed.free();
        ShardMap::of_parts(first, more)
    }
}
