//! What a job refuses is handed on.
ghost use Rattle.std.specs.Prelude.{◌≡◌, ◌+◌, ◌*◌, ◌≤◌, length, IfOk, IfSome};
ghost use Rattle.tb_outside.specs.Memory.{as_source};
ghost use Rattle.work_topology.specs.Lists.{Each};

use crate::tests::fixtures::{Meeting, NEED, Row, blocks_of, free_of, reader_of};
use crate::tests::teller::{Teller, Untold};
use crate::{Book, Purse, SharedBook, pass};
use std::alloc::Global;
use std::marker::Brand;
use std::sync::Wait;
use std::sync::atomic::AtomicU32;
use std::sync::ledger::Blank;
use std::test::*;
use std::thread::Threads;
use tb_outside::{Lane, MemSource};
use tb_types::{Memory, Trouble, Whom};

fn lane_of(alloc: Global, row: &Row, number: u32) -> Result<Lane<MemSource, Untold>, Memory>
    requires { row.now.blocks ≤ 100 }
    ensures { IfOk result (λ lane. IfSome (as_source lane.reader).bytes (λ bytes. length bytes ≡ 10 * row.now.blocks)) }
{
    let reader = reader_of(alloc, row, number)?;
    Ok(Lane {
        reader,
        spill: Untold,
    })
}

fn lanes_of(alloc: Global, row: &Row) -> Result<Vec<Lane<MemSource, Untold>>, Memory>
    requires { row.now.blocks ≤ 100 }
    ensures { IfOk result (λ lanes. (length lanes.items ≡ row.now.lanes) × Each (λ lane. IfSome (as_source lane.reader).bytes (λ bytes. length bytes ≡ 10 * row.now.blocks)) lanes.items) }
{
    let mut lanes = Vec::new(alloc);
    for number in 0..row.lanes {
        let lane = lane_of(alloc, row, number)?;
        lanes.push(lane)?;
    }
    Ok(lanes)
}

/// The trouble of a pass by the teller, and how much the book grants at once afterwards.
fn told<L: Purse + Send + Sync, T: Threads + Wait + Sync>(
    rt: &T,
    alloc: Global,
    blank: Blank,
    row: &Row,
) -> Result<(Option<Trouble>, u64), Memory>
    requires ledger { (blank.name ≡ L.name) × (blank.parts ≡ L.parts) × (L.parts ≡ L.budget) × (L.budget ≡ row.now.budget) }
{
    if !row.may() {
        return Ok((None, 0));
    }
    let book = SharedBook::new(Book::<L>::new(blank, row.budget));
    let blocks = blocks_of(alloc, row.blocks)?;
    let mut lanes = lanes_of(alloc, row)?;
    let seeds = Vec::from_elem(alloc, 0u8, row.lanes as usize)?;
    let gate = Meeting {
        held: row.held,
        claims: AtomicU32::new(0),
    };
    let ends = pass::<T, L, MemSource, Untold, Meeting, Teller>(
        rt,
        alloc,
        lanes.as_mut_slice(),
        blocks.as_slice(),
        &book,
        row.queue,
        &gate,
        7,
        seeds,
        &Teller,
    );
    let free = free_of(rt, &book, row.budget);
    Ok(match ends {
        Ok(_) => (None, free),
        Err(trouble) => (Some(trouble), free),
    })
}

/// `Outside` of any lane as that of lane 0.
fn of_any_lane(trouble: Option<Trouble>) -> Option<Trouble> {
    match trouble {
        Some(Trouble::Outside { run, at, .. }) => Some(Trouble::Outside {
            whom: Whom::Lane(0),
            run,
            at,
        }),
        other => other,
    }
}

#[test]
fn what_a_job_refuses_is_handed_on_and_the_whole_budget_is_free(
    rt: HostRuntime,
) -> Result<(), Fail> {
    let changed = Trouble::Changed { pass: 7, block: 5 };
    let outside = Trouble::Outside {
        whom: Whom::Lane(0),
        run: 3,
        at: 4,
    };
    let marks: [(u32, &'static [(u32, u8)], Trouble); 5] = [
        (1, &[(2, 1)], changed),
        (3, &[(2, 1)], changed),
        (1, &[(2, 2)], outside),
        (3, &[(1, 3)], Trouble::Memory),
        (3, &[(0, 3), (1, 1), (2, 2)], outside),
    ];
    for (lanes, marks, trouble) in marks {
        let row = Row {
            lanes,
            queue: 4,
            blocks: 3,
            budget: 3 * NEED,
            held: lanes,
            marks,
            readers: &[],
            spills: &[],
        };
        let (seen, free) = told::<Brand, HostRuntime>(
            &rt,
            rt.alloc(),
            Blank::new(row.budget),
            &row,
        )?;
        assert!(rt; of_any_lane(seen) == Some(trouble), "{seen:?}");
        assert_eq!(rt; free, row.budget);
    }
    Ok(())
}
