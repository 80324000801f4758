//! Passes of the lister over lanes in memory.
ghost use Rattle.std.specs.Prelude.{◌≡◌};

use crate::ends::{Done, Ends};
use crate::lister::{Lister, Tally};
use crate::tests::fixtures::{
    Meeting, NEED, Row, Times, are_each_once, are_loaded_once, blocks_of, free_of, lanes_of,
};
use crate::{Book, Purse, SharedBook, pass};
use std::alloc::Global;
use std::marker::Brand;
use std::sync::Wait;
use std::sync::atomic::AtomicU32;
use std::sync::ledger::Blank;
use std::test::*;
use std::thread::Threads;
use tb_outside::{Lane, MemSource, MemSpill};
use tb_types::{Memory, Trouble, Whom};

/// What a test looks at: why the pass was refused, whether its lists are as they should be, how many lanes claimed, and how much the
/// book grants at once afterwards.
#[derive(Clone, Copy, Debug, PartialEq, Eq)]
struct Seen {
    trouble: Option<Trouble>,
    right: bool,
    claimed: u32,
    free: u64,
}

/// The blocks that the lanes list, each by the lane that the out names.
fn are_listed_once(outs: &[Tally], count: u32) -> bool {
    let mut times = Times::new();
    let mut right = true;
    for (number, out) in outs.iter().enumerate() {
        right = right && out.lane as usize == number;
        for block in out.numbers.as_slice() {
            times.see(u64::from(*block / 2));
        }
    }
    right && times.are_once(count)
}

/// Each block was worked once, by a lane that there is, under the grant of its need.
fn are_done_once(done: &[Done], lanes: u32, count: u32) -> bool {
    let mut times = Times::new();
    let mut right = true;
    for entry in done {
        right = right && entry.lane < lanes && entry.granted == NEED && entry.block % 2 == 1;
        times.see(u64::from(entry.block / 2));
    }
    right && times.are_once(count)
}

fn are_right<L: Purse>(
    ends: &Ends<L, Tally>,
    lanes: &[Lane<MemSource, MemSpill>],
    row: &Row,
) -> bool {
    are_listed_once(ends.outs.as_slice(), row.blocks)
        && are_each_once(ends.claims.as_slice(), row.blocks)
        && are_each_once(ends.pushed.as_slice(), row.blocks)
        && are_each_once(ends.popped.as_slice(), row.blocks)
        && are_done_once(ends.done.as_slice(), row.lanes, row.blocks)
        && are_loaded_once(lanes, row.blocks)
}

/// How many lanes claimed a block.
fn claimed_by<L: Purse>(ends: &Ends<L, Tally>) -> u32 {
    let mut count = 0u32;
    for claims in ends.claims.as_slice() {
        if !claims.as_slice().is_empty() {
            count = count.saturating_add(1);
        }
    }
    count
}

/// A pass of number 9, in which a body that begins with 1 counts as changed.
fn tried<L: Purse + Send + Sync, T: Threads + Wait + Sync>(
    rt: &T,
    alloc: Global,
    blank: Blank,
    row: &Row,
) -> Result<Option<Seen>, Memory>
    requires ledger { (blank.name ≡ L.name) × (blank.parts ≡ L.parts) × (L.parts ≡ L.budget) × (L.budget ≡ row.now.budget) }
{
    if !row.may() {
        return Ok(None);
    }
    let book = SharedBook::new(Book::<L>::new(blank, row.budget));
    let blocks = blocks_of(alloc, row.blocks)?;
    let mut lanes = lanes_of(alloc, row)?;
    let seeds = Vec::from_elem(alloc, 0u8, row.lanes as usize)?;
    let gate = Meeting {
        held: row.held,
        claims: AtomicU32::new(0),
    };
    let job = Lister {
        alloc,
        pass: 9,
        mark: 1,
    };
    let ends = pass::<T, L, MemSource, MemSpill, Meeting, Lister>(
        rt,
        alloc,
        lanes.as_mut_slice(),
        blocks.as_slice(),
        &book,
        row.queue,
        &gate,
        9,
        seeds,
        &job,
    );
    let free = free_of(rt, &book, row.budget);
    Ok(Some(match ends {
        Ok(ends) => Seen {
            trouble: None,
            right: are_right(&ends, lanes.as_slice(), row),
            claimed: claimed_by(&ends),
            free,
        },
        Err(trouble) => Seen {
            trouble: Some(trouble),
            right: true,
            claimed: 0,
            free,
        },
    }))
}

/// What a pass of nothing special shows.
fn is_whole(seen: Option<Seen>, held: u32, budget: u64) -> bool {
    match seen {
        Some(seen) => {
            seen.trouble.is_none() && seen.right && seen.claimed >= held && seen.free == budget
        }
        None => false,
    }
}

#[test]
fn each_block_is_worked_once(rt: HostRuntime) -> Result<(), Fail> {
    for (lanes, queue, blocks, budget, held) in [
        (1, 1, 0, NEED, 0),
        (1, 1, 40, NEED, 0),
        (1, 64, 40, NEED, 0),
        (3, 1, 40, NEED, 2),
        (3, 64, 40, 6 * NEED, 3),
        (64, 1, 100, NEED, 2),
        (64, 64, 100, 3 * NEED, 2),
        (64, 64, 1, NEED, 0),
    ] {
        let row = Row {
            lanes,
            queue,
            blocks,
            budget,
            held,
            marks: &[],
            readers: &[],
            spills: &[],
        };
        let seen = tried::<Brand, HostRuntime>(&rt, rt.alloc(), Blank::new(budget), &row)?;
        assert!(rt;
            is_whole(seen, held, budget),
            "{lanes} {queue} {blocks} {seen:?}"
        );
    }
    Ok(())
}

/// Three lanes, or one, over 40 blocks, of which one is refused.
fn faulty(
    lanes: u32,
    held: u32,
    marks: &'static [(u32, u8)],
    readers: &'static [(u32, u64)],
    spills: &'static [(u32, u64)],
) -> Row
    ensures { result.budget ≡ 262784 }
{
    Row {
        lanes,
        queue: 4,
        blocks: 40,
        budget: 262_784,
        held,
        marks,
        readers,
        spills,
    }
}

#[test]
fn the_least_is_named_and_the_whole_budget_is_free(rt: HostRuntime) -> Result<(), Fail> {
    let rows: [(Row, Trouble); 5] = [
        (
            faulty(1, 0, &[], &[(0, 1)], &[]),
            Trouble::Source(Whom::Lane(0)),
        ),
        (
            faulty(3, 3, &[], &[(1, 0), (2, 0)], &[]),
            Trouble::Source(Whom::Lane(1)),
        ),
        (
            faulty(3, 3, &[(0, 1)], &[(2, 0)], &[(0, 0)]),
            Trouble::Source(Whom::Lane(2)),
        ),
        (
            faulty(3, 0, &[], &[], &[(1, 0), (2, 0)]),
            Trouble::Spill(Whom::Lane(1)),
        ),
        (
            faulty(3, 0, &[(5, 1)], &[], &[]),
            Trouble::Changed { pass: 9, block: 11 },
        ),
    ];
    for (row, trouble) in rows {
        let seen = tried::<Brand, HostRuntime>(&rt, rt.alloc(), Blank::new(row.budget), &row)?;
        let wanted = Some(Seen {
            trouble: Some(trouble),
            right: true,
            claimed: 0,
            free: row.budget,
        });
        assert!(rt; seen == wanted, "{seen:?} {wanted:?}");
    }
    Ok(())
}
