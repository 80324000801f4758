ghost use Rattle.std.specs.Prelude.{◌≡◌, ◌+◌, ◌≤◌, ◌<◌, ◌^◌, IfOk, OnOk, length, map, [], ◌∷◌};
ghost use Rattle.tb_types.specs.Needs as needs;
ghost use Rattle.run_merge.specs.Answers.{IfNext};
ghost use Rattle.run_merge.specs.Cursors.{AreFrom, AreSound, AreThere, AreTold, cursors_of, head_tile, runs_of};
ghost use Rattle.run_merge.specs.Objects.{objects_of};
ghost use Rattle.run_merge.specs.Steps.{IfLeastOf, IsLeast, OnlyReads, Takes};
ghost use Rattle.run_merge.specs.Winners.{AreWinners};

use crate::cursor::{Cursor, Head, tile_of};
use crate::least::least;
use crate::merge_err::MergeErr;
use crate::run_reader::RunReader;
use crate::steps::{advance_at, load_at};
use crate::tournament::winners_of;
use feature_runs::{Group, RunItem};
use std::alloc::Global;
use tb_outside::{Lane, Spill};
use tb_types::{Seq, TileId};

/// The bytes that a group needs besides four times its items' sum.
const GROUP_BYTES: u64 = 131_072;

/// The items of one tile so far: the sum of their lengths, and the items themselves as long as they need no more than `part`.
#[derive(Drop)]
pub struct Gathered {
    pub alloc: Global,
    pub tile: u64,
    pub part: u64,
    pub bytes: u64,
    pub items: Seq<RunItem>,
    pub text: Vec<u8>,
}

/// The items of the least tile that is left, or `None` exactly where nothing is left. Where they need more than `part`, none is
/// taken.
pub fn gather<R, S: Spill>(
    alloc: Global,
    readers: &mut [RunReader],
    layers: u8,
    part: u64,
    lanes: &mut [Lane<R, S>],
    spool: &mut S,
) -> Result<Option<Group>, MergeErr>
    requires sound { AreSound readers.old }
    requires there { AreThere (objects_of S.seen lanes.old spool.old) readers.old }
    requires told { AreTold (objects_of S.seen lanes.old spool.old) layers readers.old }
    ensures answer { IfNext (objects_of S.seen lanes.old spool.old) (objects_of S.seen lanes.new spool.new) part (record { layers = layers; readers = readers.old }) (record { layers = layers; readers = readers.new }) result }
    ensures sound { AreSound readers.new }
{
    let mut winners = match winners_of(alloc, readers) {
        Ok(winners) => winners,
        Err(_) => return Err(MergeErr::Memory),
    };
    let winners = winners.as_mut_slice();
    let Some((number, head)) = least(readers, winners) else {
        return Ok(None);
    };
    let places = match places_of(alloc, readers) {
        Ok(places) => places,
        Err(_) => return Err(MergeErr::Memory),
    };
    let tile = tile_of(head);
    let mut gathered = Gathered {
        alloc,
        tile,
        part,
        bytes: 0,
        items: Seq::new(alloc),
        text: Vec::new(alloc),
    };
    match take(
        &mut gathered,
        readers,
        winners,
        number,
        head,
        layers,
        lanes,
        spool,
    ) {
        Ok(()) => {}
        Err(e) => return Err(e),
    }
    while let Some((number, head)) = least_of(readers, winners, tile) {
        match take(
            &mut gathered,
            readers,
            winners,
            number,
            head,
            layers,
            lanes,
            spool,
        ) {
            Ok(()) => {}
            Err(e) => return Err(e),
        }
    }
    let need = group_need(gathered.bytes);
    if need > part {
        put_back(readers, &places);
        return Err(MergeErr::TooLarge { need });
    }
    Ok(Some(Group {
        tile: TileId(tile),
        items: gathered.items,
        bytes: gathered.bytes,
    }))
}

// The least item that is left, where it is of this tile.
fn least_of(readers: &[RunReader], winners: &[usize], tile: u64) -> Option<(usize, Head)>
    requires sound { AreSound readers.now }
    requires winners { AreWinners (cursors_of readers.now) winners.now }
    requires from { AreFrom tile (cursors_of readers.now) }
    ensures { IfLeastOf tile (cursors_of readers.now) result }
{
    match least(readers, winners) {
        Some((number, head)) => {
            if tile_of(head) == tile {
                Some((number, head))
            } else {
                None
            }
        }
        None => None,
    }
}

// Takes the least item. It is kept as long as there is room for all.
fn take<R, S: Spill>(
    gathered: &mut Gathered,
    readers: &mut [RunReader],
    winners: &mut [usize],
    number: usize,
    head: Head,
    layers: u8,
    lanes: &mut [Lane<R, S>],
    spool: &mut S,
) -> Result<(), MergeErr>
    requires least { IsLeast (cursors_of readers.old) number head }
    requires winners { AreWinners (cursors_of readers.old) winners.old }
    requires sound { AreSound readers.old }
    requires there { AreThere (objects_of S.seen lanes.old spool.old) readers.old }
    requires told { AreTold (objects_of S.seen lanes.old spool.old) layers readers.old }
    ensures winners { OnOk result (AreWinners (cursors_of readers.new) winners.new) }
    ensures takes { OnOk result (Takes (objects_of S.seen lanes.old spool.old) layers head readers.old readers.new gathered.old gathered.new) }
    ensures sound { AreSound readers.new }
    ensures reads { OnlyReads (objects_of S.seen lanes.old spool.old) (objects_of S.seen lanes.new spool.new) (runs_of (cursors_of readers.old)) result }
{
    let sum = gathered.bytes.saturating_add(head.len);
    gathered.bytes = sum;
    if group_need(sum) > gathered.part {
        gathered.items = Seq::new(gathered.alloc);
        return advance_at(readers, winners, number, head, layers, lanes, spool);
    }
    gathered.text.clear();
    let loaded = load_at(
        gathered.alloc,
        readers,
        number,
        head,
        layers,
        &mut gathered.text,
        lanes,
        spool,
    );
    let item = match loaded {
        Ok(item) => item,
        Err(e) => return Err(e),
    };
    match gathered.items.push(item) {
        Ok(()) => {}
        Err(_) => return Err(MergeErr::Memory),
    }
    advance_at(readers, winners, number, head, layers, lanes, spool)
}

// What the items of a tile need, by the sum of their lengths: 2^64 - 1 where it is more.
fn group_need(bytes: u64) -> u64
    ensures { result ≡ needs.group_need bytes }
{
    bytes.saturating_mul(4).saturating_add(GROUP_BYTES)
}

// How far each run is read.
fn places_of(alloc: Global, readers: &[RunReader]) -> Result<Vec<Cursor>, MergeErr>
    ensures { IfOk result (λ places. places.items ≡ cursors_of readers.now) }
{
    let mut places = Vec::new(alloc);
    for reader in readers {
        places.push(reader.cursor)?;
    }
    Ok(places)
}

// Sets each run back to its place.
fn put_back(readers: &mut [RunReader], places: &[Cursor])
    requires { length places.now ≡ length readers.old }
    ensures cursors { cursors_of readers.new ≡ places.now }
    ensures windows { map (λ reader. reader.window) readers.new ≡ map (λ reader. reader.window) readers.old }
{
    for number in 0..readers.len() {
        readers[number].cursor = places[number];
    }
}
