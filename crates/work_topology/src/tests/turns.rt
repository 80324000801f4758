//! Lanes that run one after another, as where no thread can be made.
ghost use Rattle.std.specs.Prelude.{◌≡◌};

use crate::halves::Way;
use crate::lanes::started;
use crate::lister::{Lister, Tally};
use crate::post::Report;
use crate::tests::fixtures::{NEED, Row, Times, are_loaded_once, blocks_of, free_of, lanes_of};
use crate::together::work_all;
use crate::{Book, Desk, Purse, SharedBook};
use std::alloc::Global;
use std::marker::Brand;
use std::sync::Wait;
use std::sync::ledger::Blank;
use std::test::*;
use std::thread::Threads;
use tb_outside::{FreeGate, MemSource, MemSpill};
use tb_types::Memory;

/// The first lane claimed and worked each block once, and the others none.
fn did_the_first_all(reports: &[Report<Tally>], count: u32) -> bool {
    let mut claims = Times::new();
    let mut numbers = Times::new();
    let mut right = true;
    for report in reports {
        right = right && (report.out.lane == 0 || report.claims.as_slice().is_empty());
        for place in report.claims.as_slice() {
            claims.see(u64::from(*place));
        }
        for block in report.out.numbers.as_slice() {
            numbers.see(u64::from(*block / 2));
        }
    }
    right && claims.are_once(count) && numbers.are_once(count)
}

/// Whether all was worked, by the first lane alone, and how much the book grants at once afterwards.
fn taken_in_turn<L: Purse + Send + Sync, T: Threads + Wait + Sync>(
    rt: &T,
    alloc: Global,
    blank: Blank,
    row: &Row,
) -> Result<(bool, u64), Memory>
    requires ledger { (blank.name ≡ L.name) × (blank.parts ≡ L.parts) × (L.parts ≡ L.budget) × (L.budget ≡ row.now.budget) }
{
    if !row.may() {
        return Ok((false, 0));
    }
    let book = SharedBook::new(Book::<L>::new(blank, row.budget));
    let blocks = blocks_of(alloc, row.blocks)?;
    let mut lanes = lanes_of(alloc, row)?;
    let job = Lister {
        alloc,
        pass: 9,
        mark: 1,
    };
    let seeds = Vec::from_elem(alloc, 0u8, row.lanes as usize)?;
    let starts = started::<L, MemSource, MemSpill, Lister>(alloc, &job, seeds)?;
    let (desk, seat) = Desk::new(alloc, blocks.len() as u32)?;
    let gathered = work_all::<T, L, MemSource, MemSpill, FreeGate, Lister>(
        rt,
        alloc,
        Way::InTurn,
        lanes.as_mut_slice(),
        blocks.as_slice(),
        &book,
        row.queue,
        &FreeGate,
        9,
        &job,
        &desk,
        seat,
        starts,
    );
    let free = free_of(rt, &book, row.budget);
    match gathered {
        Ok(gathered) => {
            let right = did_the_first_all(gathered.reports.as_slice(), row.blocks)
                && are_loaded_once(lanes.as_slice(), row.blocks);
            Ok((right, free))
        }
        Err(_) => Ok((false, free)),
    }
}

#[test]
fn lanes_in_turn_with_a_queue_of_one_end(rt: HostRuntime) -> Result<(), Fail> {
    for (lanes, blocks) in [(1, 40), (3, 40), (64, 100)] {
        let row = Row {
            lanes,
            queue: 1,
            blocks,
            budget: 2 * NEED,
            held: 0,
            marks: &[],
            readers: &[],
            spills: &[],
        };
        let seen = taken_in_turn::<Brand, HostRuntime>(
            &rt,
            rt.alloc(),
            Blank::new(row.budget),
            &row,
        )?;
        assert!(rt; seen == (true, row.budget), "{lanes} {seen:?}");
    }
    Ok(())
}
