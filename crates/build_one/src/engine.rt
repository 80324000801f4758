ghost use Rattle.std.specs.Prelude.{◌≡◌, ◌∷◌, [], ◌≤◌, ◌<◌, ◌^◌, Option, IfSome, OnOk, length};
ghost use Rattle.profile_rules.specs.Fields.{layers_of};
ghost use Rattle.profile_rules.specs.Sound.{IsSound};
ghost use Rattle.pmtiles_dirs.specs.Bounds.{CanBeWritten};
ghost use Rattle.run_merge.specs.Answers.{named_runs};
ghost use Rattle.run_merge.specs.Objects.{objects_of};
ghost use Rattle.run_merge.specs.Steps.{AreReadable};
ghost use Rattle.tb_types.specs.Needs.{batch_part};
ghost use Rattle.tile_model.specs.Due.{Due};
ghost use Rattle.tile_model.specs.From.{IsKeyed, IsAlone};
ghost use Rattle.tile_model.specs.Objects.{if_told, one_lane};
ghost use Rattle.build_one.specs.Answers.{BuildAnswers, BuildsAreComplete};
ghost use Rattle.build_one.specs.Made.{IsKnown, MapWritten};
ghost use Rattle.build_one.specs.Extracts.{at_lane};
ghost use Rattle.build_one.specs.Writing.{all_groups};

use crate::extract::read_extract;
use crate::map::meta_of;
use crate::needs::batch_part;
use crate::numbers::MOST_BYTES;
use crate::profile::profile_from;
use crate::stop::{stop_of_archive, stop_of_profile, stop_of_tiles};
use crate::tiles::write_tiles;
use feature_runs::RunAt;
use memory_book::{Book, Purse};
use pmtiles_file::Totals;
use profile_rules::Profile;
use std::alloc::Global;
use std::marker::Brand;
use std::mem::size_of_val;
use std::slice;
use std::sync::ledger::Blank;
use tb_outside::{Lane, Sink, Source, Spill};
use tb_types::{Bounds, Memory, Seq};
use tile_model::{ProfileFrom, Stop};

/// Builds the archive of the extract that the lane's reader has, by a profile and within a budget of memory, in bytes, and appends
/// it to the sink.
///
/// `Profile` exactly where a told profile is refused, `Damage` exactly where a told extract is damaged, `Budget` exactly where a
/// block, a relation or a tile needs more than three quarters of the budget, `Source`, `Spill` and `Sink` only where the count of
/// the named object rose, `Outside` only where a spill doesn't tell its runs, `Changed` only where the reader doesn't tell its
/// bytes. The profile is judged before the extract is touched, and the sink gets nothing before all tiles stand in the spool.
pub fn build<P: Source, R: Source, S: Spill, K: Sink>(
    alloc: Global,
    from: ProfileFrom,
    profile: &mut P,
    lane: &mut Lane<R, S>,
    spool: &mut S,
    archive: &mut K,
    budget: u64,
) -> Result<Totals, Stop>
    requires keyed { IsKeyed from }
    requires budget { budget ≤ 2 ^ 32 }
    ensures answers { BuildAnswers from budget 1 (one_lane P.seen R.seen S.seen K.seen profile.old lane.old spool.old archive.old)
        (one_lane P.seen R.seen S.seen K.seen profile.new lane.new spool.new archive.new) result }
    ensures alone { IsAlone from → profile.new ≡ profile.old }
{
    let blank = Blank::new(batch_part(budget));
    build_in::<Brand, P, R, S, K>(alloc, from, profile, lane, spool, archive, budget, blank)
}

// The same with a blank book, in which all that is loaded and worked on is booked.
fn build_in<L: Purse, P: Source, R: Source, S: Spill, K: Sink>(
    alloc: Global,
    from: ProfileFrom,
    profile: &mut P,
    lane: &mut Lane<R, S>,
    spool: &mut S,
    archive: &mut K,
    budget: u64,
    blank: Blank,
) -> Result<Totals, Stop>
    requires keyed { IsKeyed from }
    requires budget { budget ≤ 2 ^ 32 }
    requires ledger { (blank.name ≡ L.name) × (blank.parts ≡ L.parts) × (L.parts ≡ L.budget) × (L.budget ≡ batch_part budget) }
    ensures answers { BuildAnswers from budget 1 (one_lane P.seen R.seen S.seen K.seen profile.old lane.old spool.old archive.old)
        (one_lane P.seen R.seen S.seen K.seen profile.new lane.new spool.new archive.new) result }
    ensures alone { IsAlone from → profile.new ≡ profile.old }
{
    let part = batch_part(budget);
    let mut book = Book::<L>::new(blank, part);
    let profile = match profile_from(alloc, &from, profile) {
        Ok(profile) => profile,
        Err(e) => return Err(stop_of_profile(e)),
    };
    let items = match read_extract(
        alloc,
        &profile,
        &mut lane.reader,
        &mut lane.spill,
        &mut book,
        budget,
    ) {
        Ok(items) => items,
        Err(stop) => return Err(stop),
    };
    write_map(
        alloc,
        &profile,
        items.runs,
        items.bounds,
        lane,
        spool,
        archive,
        &mut book,
        part,
    )
}

/// The same from an extract beside the lane's reader, which is left alone.
pub fn build_beside<P: Source, X: Source, R, S: Spill, K: Sink>(
    alloc: Global,
    from: ProfileFrom,
    profile: &mut P,
    extract: &mut X,
    lane: &mut Lane<R, S>,
    spool: &mut S,
    archive: &mut K,
    budget: u64,
) -> Result<Totals, Stop>
    requires keyed { IsKeyed from }
    requires budget { budget ≤ 2 ^ 32 }
    ensures answers { BuildAnswers from budget 1 (at_lane (P.seen profile.old) (X.seen extract.old) (S.seen lane.old.spill) (S.seen spool.old) (K.seen archive.old))
        (at_lane (P.seen profile.new) (X.seen extract.new) (S.seen lane.new.spill) (S.seen spool.new) (K.seen archive.new)) result }
    ensures alone { IsAlone from → profile.new ≡ profile.old }
    ensures reader { lane.new.reader ≡ lane.old.reader }
{
    let blank = Blank::new(batch_part(budget));
    build_beside_in::<Brand, P, X, R, S, K>(
        alloc, from, profile, extract, lane, spool, archive, budget, blank,
    )
}

// The same with a blank book, in which all that is loaded and worked on is booked.
fn build_beside_in<L: Purse, P: Source, X: Source, R, S: Spill, K: Sink>(
    alloc: Global,
    from: ProfileFrom,
    profile: &mut P,
    extract: &mut X,
    lane: &mut Lane<R, S>,
    spool: &mut S,
    archive: &mut K,
    budget: u64,
    blank: Blank,
) -> Result<Totals, Stop>
    requires keyed { IsKeyed from }
    requires budget { budget ≤ 2 ^ 32 }
    requires ledger { (blank.name ≡ L.name) × (blank.parts ≡ L.parts) × (L.parts ≡ L.budget) × (L.budget ≡ batch_part budget) }
    ensures answers { BuildAnswers from budget 1 (at_lane (P.seen profile.old) (X.seen extract.old) (S.seen lane.old.spill) (S.seen spool.old) (K.seen archive.old))
        (at_lane (P.seen profile.new) (X.seen extract.new) (S.seen lane.new.spill) (S.seen spool.new) (K.seen archive.new)) result }
    ensures alone { IsAlone from → profile.new ≡ profile.old }
    ensures reader { lane.new.reader ≡ lane.old.reader }
{
    let part = batch_part(budget);
    let mut book = Book::<L>::new(blank, part);
    let profile = match profile_from(alloc, &from, profile) {
        Ok(profile) => profile,
        Err(e) => return Err(stop_of_profile(e)),
    };
    let items = match read_extract(alloc, &profile, extract, &mut lane.spill, &mut book, budget) {
        Ok(items) => items,
        Err(stop) => return Err(stop),
    };
    write_map(
        alloc,
        &profile,
        items.runs,
        items.bounds,
        lane,
        spool,
        archive,
        &mut book,
        part,
    )
}

// Writes the map of the items in these runs: its tiles, and then the archive.
fn write_map<L: Purse, R, S: Spill, K: Sink>(
    alloc: Global,
    profile: &Profile,
    runs: Seq<RunAt>,
    bounds: Option<Bounds>,
    lane: &mut Lane<R, S>,
    spool: &mut S,
    archive: &mut K,
    book: &mut Book<L>,
    part: u64,
) -> Result<Totals, Stop>
    requires runs { AreReadable (objects_of S.seen (lane.old ∷ []) spool.old) (length (layers_of profile.now)) (named_runs (runs ∷ [])) }
    requires bounds { IfSome bounds CanBeWritten }
    requires sound { IsSound profile.now }
    requires part { part < 2 ^ 32 }
    ensures written { (due : Option Due) → IsKnown profile.now part (if_told (S.seen lane.old.spill ∷ []) (S.seen spool.old).runs) (all_groups (objects_of S.seen (lane.old ∷ []) spool.old) (runs ∷ [])) bounds due
        → MapWritten due (S.seen lane.old.spill) (S.seen lane.new.spill) (S.seen spool.old) (S.seen spool.new) (K.seen archive.old) (K.seen archive.new) result }
    ensures reader { lane.new.reader ≡ lane.old.reader }
{
    // So large is no type: a type parameter alone tells nothing of its size.
    if size_of_val(&*lane) > MOST_BYTES {
        return Err(Stop::Memory);
    }
    let meta = match meta_of(alloc, profile, bounds) {
        Ok(meta) => meta,
        Err(Memory) => return Err(Stop::Memory),
    };
    let lanes = slice::from_mut(lane);
    let writer = match write_tiles(alloc, profile, meta, &[runs], lanes, spool, book, part) {
        Ok(writer) => writer,
        Err(e) => return Err(stop_of_tiles(e)),
    };
    match writer.finish(spool, archive) {
        Ok(totals) => Ok(totals),
        Err(e) => Err(stop_of_archive(e)),
    }
}

/// Where no count of an object that a build uses rose, its answer is what is due, or memory wants.
pub fn builds_are_complete()
    ensures { BuildsAreComplete }
{}
