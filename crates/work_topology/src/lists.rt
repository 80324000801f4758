//! What the lanes did, put together.
ghost use Rattle.std.specs.Prelude.{◌≡◌, ◌≤◌, ◌^◌, ◌++◌, ◌∷◌, [], length, IfOk, OnOk, List};
ghost use Rattle.work_topology.specs.declared.post.Report.{Report as ReportFacts};
ghost use Rattle.pbf_blobs.specs.declared.block.BlockAt.{BlockAt};
ghost use Rattle.work_topology.specs.Sums.{ArePlaces, SumsUp, AreEnds};

use crate::ends::{Done, Ends};
use crate::places::place_of;
use crate::post::Report;
use batch_queue::QueuePass;
use claim_desk::DeskSeat;
use memory_book::Purse;
use pbf_blobs::BlockAt;
use std::alloc::Global;
use tb_types::{Memory, Seq};

/// The lists of a pass, lane after lane.
#[derive(Drop)]
pub struct Lists<O> {
    outs: Vec<O>,
    claims: Vec<Seq<u32>>,
    pushed: Vec<Seq<u32>>,
    popped: Vec<Seq<u32>>,
    done: Vec<Done>,
}

/// The places of the blocks that a lane worked.
fn places_of(alloc: Global, blocks: &[BlockAt], done: &[Done]) -> Result<Vec<u32>, Memory>
    requires few { length blocks.now ≤ 2 ^ 24 }
    ensures { IfOk result (λ places. ArePlaces blocks.now done.now places.items) }
{
    let mut places = Vec::with_capacity(alloc, done.len())?;
    for entry in done {
        places.push(place_of(blocks, entry.block))?;
    }
    Ok(places)
}

impl<O: Drop> Lists<O> {
    /// Empty lists, with room for so many lanes and blocks.
    pub fn with_room(alloc: Global, lanes: usize, blocks: usize) -> Result<Lists<O>, Memory>
        ensures { IfOk result (λ lists. (blocks : List BlockAt) → SumsUp blocks [] lists.outs.items lists.claims.items lists.pushed.items lists.popped.items lists.done.items) }
    {
        Ok(Lists {
            outs: Vec::with_capacity(alloc, lanes)?,
            claims: Vec::with_capacity(alloc, lanes)?,
            pushed: Vec::with_capacity(alloc, lanes)?,
            popped: Vec::with_capacity(alloc, lanes)?,
            done: Vec::with_capacity(alloc, blocks)?,
        })
    }

    /// Takes up what the next lane did. The lists may hold anything where memory is wanting.
    fn add(&mut self, alloc: Global, blocks: &[BlockAt], report: Report<O>) -> Result<(), Memory>
        requires few { length blocks.now ≤ 2 ^ 24 }
        ensures { OnOk result ((reports : List (ReportFacts O)) → SumsUp blocks.now reports self.old.outs.items self.old.claims.items self.old.pushed.items self.old.popped.items self.old.done.items → SumsUp blocks.now (reports ++ report ∷ []) self.new.outs.items self.new.claims.items self.new.pushed.items self.new.popped.items self.new.done.items) }
    {
        let Report {
            out,
            claims,
            done,
            trouble: _,
        } = report;
        let pushed = Vec::from_slice(alloc, claims.as_slice())?;
        let popped = places_of(alloc, blocks, done.as_slice())?;
        self.outs.push(out)?;
        self.claims.push(claims)?;
        self.pushed.push(Seq::from_vec(pushed))?;
        self.popped.push(Seq::from_vec(popped))?;
        self.done.append(&mut done.into_vec())?;
        Ok(())
    }
}

/// The ends of a pass whose lanes came to theirs, from empty lists.
pub fn ends_of<L: Purse, O: Drop>(
    alloc: Global,
    blocks: &[BlockAt],
    mut lists: Lists<O>,
    reports: Vec<Report<O>>,
    seat: DeskSeat,
    queue: QueuePass<L>,
) -> Result<Ends<L, O>, Memory>
    requires few { length blocks.now ≤ 2 ^ 24 }
    requires empty { SumsUp blocks.now [] lists.outs.items lists.claims.items lists.pushed.items lists.popped.items lists.done.items }
    ensures { IfOk result (λ ends. AreEnds blocks.now reports.items seat queue ends) }
{
    for report in reports {
        lists.add(alloc, blocks, report)?;
    }
    let Lists {
        outs,
        claims,
        pushed,
        popped,
        done,
    } = lists;
    Ok(Ends {
        outs: Seq::from_vec(outs),
        claims: Seq::from_vec(claims),
        pushed: Seq::from_vec(pushed),
        popped: Seq::from_vec(popped),
        done: Seq::from_vec(done),
        seat,
        queue,
    })
}
