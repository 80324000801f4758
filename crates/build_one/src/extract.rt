ghost use Rattle.std.specs.Prelude.{◌≡◌, ◌^◌, ◌≤◌, IfSome, OnOk, unwrap_or, None};
ghost use Rattle.profile_rules.specs.Sound.{IsSound};
ghost use Rattle.tile_model.specs.Loads.{Logs};
ghost use Rattle.pass_survey.specs.Told.{box_of};
ghost use Rattle.build_one.specs.Extracts.{ExtractAnswers};
ghost use Rattle.pass_survey.specs.Found.{IsReady};
ghost use Rattle.build_one.specs.Made.{GatherAnswers, loads_behind};
ghost use Rattle.build_one.specs.Survey.{FitFound, MayGoOn};

use crate::members::members;
use crate::needs::{batch_part, largest_block, run_limit};
use crate::nodes::nodes;
use crate::numbers::{LANES, MEMBERS, NODES, WAYS};
use crate::relations::relations;
use crate::stop::{stop_of_pass, stop_of_relations, stop_of_survey};
use crate::survey::survey;
use crate::ways::ways;
use block_pass::Order;
use feature_runs::{RunAt, RunBuffer};
use memory_book::{Book, Purse};
use pass_survey::{Found, needed_ways};
use pbf_blobs::scan;
use profile_rules::Profile;
use std::alloc::Global;
use tb_outside::{Source, Spill};
use tb_types::{Bounds, Memory, Seq, Stage};
use tile_model::Stop;

/// What a map is made of: the sorted runs of its items, and the box of the extract, if that has one.
#[derive(Drop)]
pub struct Items {
    pub runs: Seq<RunAt>,
    pub bounds: Option<Bounds>,
}

/// Reads an extract, pass by pass, and gives the items of its map by a profile.
pub fn read_extract<L: Purse, R: Source, S: Spill>(
    alloc: Global,
    profile: &Profile,
    reader: &mut R,
    spill: &mut S,
    book: &mut Book<L>,
    budget: u64,
) -> Result<Items, Stop>
    requires sound { IsSound profile.now }
    requires budget { budget ≤ 2 ^ 32 }
    ensures { ExtractAnswers profile.now budget (R.seen reader.old) (R.seen reader.new) (S.seen spill.old) (S.seen spill.new) result }
{
    let part = batch_part(budget);
    let index = match scan(alloc, reader) {
        Ok(index) => index,
        Err(e) => return Err(stop_of_survey(e)),
    };
    let blocks = index.blocks.as_slice();
    let need = largest_block(blocks);
    if need > part {
        return Err(Stop::Budget {
            stage: Stage::Block,
            need,
        });
    }
    let mut order = Order::InFile;
    let found = match survey(alloc, profile, reader, book, &mut order, blocks) {
        Ok(found) => found,
        Err(e) => return Err(stop_of_survey(e)),
    };
    let limit = run_limit(budget, LANES);
    match gather(
        alloc, profile, reader, spill, book, &mut order, &found, part, limit,
    ) {
        Ok(runs) => Ok(Items {
            runs,
            bounds: bounds_of(&found),
        }),
        Err(stop) => Err(stop),
    }
}

// The box of an extract, if its first header has one.
fn bounds_of(found: &Found) -> Option<Bounds>
    ensures { result ≡ unwrap_or (box_of found.now.header) None }
{
    match found.header {
        Some(header) => header.bounds,
        None => None,
    }
}

// The runs of the items of all features: the needed ways and nodes are found, then nodes are located and their items made, then
// those of ways, and of kept relations.
fn gather<L: Purse, R: Source, S: Spill>(
    alloc: Global,
    profile: &Profile,
    reader: &mut R,
    spill: &mut S,
    book: &mut Book<L>,
    order: &mut Order,
    found: &Found,
    part: u64,
    limit: u64,
) -> Result<Seq<RunAt>, Stop>
    requires sound { IsSound profile.now }
    requires ready { IsReady profile.now found.now }
    requires may { MayGoOn order.old found.now }
    requires within { FitFound (R.seen reader.old).bytes found.now }
    ensures answers { GatherAnswers profile.now part limit found.now (R.seen reader.old) (R.seen reader.new) (S.seen spill.old) (S.seen spill.new) result }
    ensures loads { OnOk result (Logs (R.seen reader.old) (R.seen reader.new) (loads_behind order.old found.now)) }
{
    let member_ways = match needed_ways(alloc, &found.kept) {
        Ok(ways) => ways,
        Err(Memory) => return Err(Stop::Memory),
    };
    let needed = match members(
        alloc,
        profile,
        reader,
        book,
        order,
        &found.ways,
        &member_ways,
    ) {
        Ok(needed) => needed,
        Err(e) => return Err(stop_of_pass(MEMBERS, e)),
    };
    let mut buffer = match RunBuffer::new(alloc, limit) {
        Ok(buffer) => buffer,
        Err(Memory) => return Err(Stop::Memory),
    };
    let locations = match nodes(
        alloc,
        profile,
        reader,
        spill,
        book,
        order,
        &mut buffer,
        &found.nodes,
        &needed,
    ) {
        Ok(locations) => locations,
        Err(e) => return Err(stop_of_pass(NODES, e)),
    };
    let shapes = match ways(
        alloc,
        profile,
        reader,
        spill,
        book,
        order,
        &mut buffer,
        &found.ways,
        &member_ways,
        &locations,
    ) {
        Ok(shapes) => shapes,
        Err(e) => return Err(stop_of_pass(WAYS, e)),
    };
    match relations(
        alloc,
        profile,
        &found.kept,
        &shapes,
        spill,
        book,
        buffer,
        part,
    ) {
        Ok(runs) => Ok(runs),
        Err(e) => Err(stop_of_relations(e)),
    }
}
