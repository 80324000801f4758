ghost use Rattle.std.specs.Prelude.{◌≡◌, IfOk, IsTrue, length};
ghost use Rattle.run_merge.specs.Cursors.{AreThere};
ghost use Rattle.run_merge.specs.Objects.{objects_of};

use crate::quiet::{Lie, NEVER, NO_LIE, Quiet, lane, list_of};
use crate::{Merge, MergeErr, RunAt};
use std::alloc::Global;
use tb_outside::{Lane, Spill};
use tb_types::{Memory, Seq, Whom};

/// A point of a group: its tile, its index and its id.
type Point = (u64, u32, u64);

/// The bytes of a point's item are 30 of its head and seven of its row: no other number of it differs from point to point.
fn put_point(run: &mut Vec<u8>, tile: u32, index: u32, id: u8) -> Result<(), Memory> {
    run.extend_from_slice(&[0, 0, 0, 0])?;
    run.extend_from_slice(&tile.to_be_bytes())?;
    run.extend_from_slice(b"\x00\x7f\xff\x01\x00\x00\x00\x02")?;
    run.extend_from_slice(&index.to_be_bytes())?;
    run.extend_from_slice(b"\x00\x00\x00\x00\x00\x00\x00\x00\x00\x07")?;
    run.extend_from_slice(&[id, 1, 3, 9, 0, 0, 0])?;
    Ok(())
}

/// A lane with these runs of points: tile, index and id.
fn lane_of(alloc: Global, runs: &[&[(u32, u32, u8)]], lie: Lie) -> Result<Lane<(), Quiet>, Memory> {
    let mut lane = lane(alloc, NEVER, lie);
    for points in runs {
        let mut run = Vec::new(alloc);
        for (tile, index, id) in *points {
            put_point(&mut run, *tile, *index, *id)?;
        }
        lane.spill.runs.push(run)?;
    }
    Ok(lane)
}

/// A lane with `count` runs of one point each, three to a tile, in a scattered order.
fn lane_of_many(
    alloc: Global,
    count: u32,
    fails: u64,
    lie: Lie,
) -> Result<Lane<(), Quiet>, Memory> {
    let mut lane = lane(alloc, fails, lie);
    for n in 0..count {
        let place = n.wrapping_mul(7919) % count;
        let mut run = Vec::new(alloc);
        put_point(&mut run, place / 3, place % 3, 0)?;
        lane.spill.runs.push(run)?;
    }
    Ok(lane)
}

/// What a merge gave: the points of its groups, the sums of their lengths, the errors, and whether it came to its end.
#[derive(Drop)]
struct Ran {
    points: Vec<Point>,
    sums: Vec<u64>,
    errors: Vec<MergeErr>,
    ended: bool,
}

/// Asks for a group, and answers whether it may be asked again.
fn ask(
    merge: &mut Merge,
    lanes: &mut [Lane<(), Quiet>],
    spool: &mut Quiet,
    part: u64,
    ran: &mut Ran,
) -> Result<bool, Memory>
    requires { AreThere (objects_of ⟦<Quiet as Spill>⟧.seen lanes.old spool.old) merge.old.readers }
    ensures { IfOk result (λ again. IsTrue again → AreThere (objects_of ⟦<Quiet as Spill>⟧.seen lanes.new spool.new) merge.new.readers) }
{
    match merge.next_group(lanes, spool, part) {
        Ok(Some(group)) => {
            ran.sums.push(group.bytes)?;
            for item in group.items.as_slice() {
                ran.points
                    .push((group.tile.0, item.key.place.index, item.row.id))?;
            }
            Ok(true)
        }
        Ok(None) => {
            ran.ended = true;
            Ok(true)
        }
        Err(MergeErr::TooLarge { need }) => {
            ran.errors.push(MergeErr::TooLarge { need })?;
            Ok(true)
        }
        Err(e) => {
            ran.errors.push(e)?;
            Ok(false)
        }
    }
}

/// Merges the listed runs, and asks for a group with each of these parts.
fn run(
    alloc: Global,
    lanes: &mut [Lane<(), Quiet>],
    lists: &[Seq<RunAt>],
    spool: &mut Quiet,
    parts: &[u64],
) -> Result<Ran, Memory>
    requires { length lists.now ≡ length lanes.old }
{
    let mut ran = Ran {
        points: Vec::new(alloc),
        sums: Vec::new(alloc),
        errors: Vec::new(alloc),
        ended: false,
    };
    let mut merge = match Merge::start(alloc, lanes, lists, 1, spool) {
        Ok(merge) => merge,
        Err(e) => {
            ran.errors.push(e)?;
            return Ok(ran);
        }
    };
    for part in parts {
        if !ask(&mut merge, lanes, spool, *part, &mut ran)? {
            return Ok(ran);
        }
    }
    Ok(ran)
}

/// Merges all runs of one lane, with `asked` parts that are large enough.
fn merged(
    alloc: Global,
    lane: Lane<(), Quiet>,
    spool: &mut Quiet,
    asked: usize,
) -> Result<Ran, Memory> {
    let lists = [list_of(alloc, &lane)?];
    let mut lanes = [lane];
    let parts = vec![in alloc; 1_000_000; asked]?;
    run(alloc, &mut lanes, &lists, spool, &parts)
}

/// Whether a merge was refused so.
fn is_refused(ran: &Ran, error: MergeErr) -> bool {
    ran.errors.as_slice() == [error].as_slice()
}

/// Points of equal keys come in the order of their runs.
#[test]
fn runs_of_two_lanes_are_merged(rt: HostRuntime) -> Result<(), Memory> {
    let alloc = rt.alloc();
    let first: [&[(u32, u32, u8)]; 3] = [
        &[(1, 0, 1), (1, 2, 2), (5, 0, 3)],
        &[(0, 9, 4), (1, 2, 5)],
        &[],
    ];
    let second: [&[(u32, u32, u8)]; 1] = [&[(1, 1, 6), (1, 2, 7), (7, 0, 8)]];
    let mut lanes = [
        lane_of(alloc, &first, NO_LIE)?,
        lane_of(alloc, &second, NO_LIE)?,
    ];
    let lists = [list_of(alloc, &lanes[0])?, list_of(alloc, &lanes[1])?];
    let mut spool = Quiet::new(alloc, NEVER, NO_LIE);
    let ran = run(alloc, &mut lanes, &lists, &mut spool, &[NEVER; 5])?;
    let points: [Point; 8] = [
        (0, 9, 4),
        (1, 0, 1),
        (1, 1, 6),
        (1, 2, 2),
        (1, 2, 5),
        (1, 2, 7),
        (5, 0, 3),
        (7, 0, 8),
    ];
    assert!(rt; ran.points.as_slice() == points.as_slice());
    assert!(rt; ran.sums.as_slice() == [37, 185, 37, 37].as_slice());
    assert!(rt; ran.ended && ran.errors.is_empty() && spool.calls == 0);
    Ok(())
}

/// So many runs of one point each need so many middle runs: the last has two levels of them.
#[test]
fn two_levels_of_middle_runs(rt: HostRuntime) -> Result<(), Memory> {
    let alloc = rt.alloc();
    for (count, middle) in [(64, 0), (65, 1), (127, 1), (128, 2), (4200, 67)] {
        let mut spool = Quiet::new(alloc, NEVER, NO_LIE);
        let lane = lane_of_many(alloc, count, NEVER, NO_LIE)?;
        let ran = merged(alloc, lane, &mut spool, 1500)?;
        assert!(rt; ran.points.len() == count as usize && ran.ended);
        for n in 0..ran.points.len() {
            assert!(rt; ran.points[n] == (n as u64 / 3, n as u32 % 3, 0));
        }
        assert!(rt; spool.runs.len() == middle);
    }
    Ok(())
}

/// Bytes of a lane's run that are read as others, and where the item that they break begins: its layer is none of the
/// profile's, its length passes the run, its type is none, its tile is below that of the item before it.
#[test]
fn changed_bytes_of_a_lane_are_outside(rt: HostRuntime) -> Result<(), Memory> {
    let alloc = rt.alloc();
    for (at, byte, place) in [
        (8, 1, 0),
        (22, 0x80, 0),
        (31, 0, 0),
        (44, 0, 37),
        (45, 1, 37),
        (68, 4, 37),
    ] {
        let lie = Lie { run: 1, at, byte };
        let runs: [&[(u32, u32, u8)]; 2] = [&[(0, 1, 0)], &[(1, 0, 1), (2, 0, 2)]];
        let mut spool = Quiet::new(alloc, NEVER, NO_LIE);
        let ran = merged(alloc, lane_of(alloc, &runs, lie)?, &mut spool, 4)?;
        let whom = Whom::Lane(0);
        let error = MergeErr::Outside {
            whom,
            run: 1,
            at: place,
        };
        assert!(rt; is_refused(&ran, error), "at {at}");
    }
    Ok(())
}

/// The second item's layer is none of the profile's, and no item is read beyond its head.
#[test]
fn layers_are_tested_where_nothing_is_kept(rt: HostRuntime) -> Result<(), Memory> {
    let alloc = rt.alloc();
    let lie = Lie {
        run: 0,
        at: 45,
        byte: 1,
    };
    let runs: [&[(u32, u32, u8)]; 1] = [&[(1, 0, 1), (1, 1, 2)]];
    let lane = lane_of(alloc, &runs, lie)?;
    let lists = [list_of(alloc, &lane)?];
    let mut lanes = [lane];
    let mut spool = Quiet::new(alloc, NEVER, NO_LIE);
    let ran = run(alloc, &mut lanes, &lists, &mut spool, &[0; 1])?;
    let error = MergeErr::Outside {
        whom: Whom::Lane(0),
        run: 0,
        at: 37,
    };
    assert!(rt; is_refused(&ran, error));
    Ok(())
}

/// The same of runs of the spool, of the first and of the second level.
#[test]
fn changed_bytes_of_a_middle_run_are_outside(rt: HostRuntime) -> Result<(), Memory> {
    let alloc = rt.alloc();
    for (count, run) in [(65, 0), (4200, 3), (4200, 66)] {
        let lie = Lie {
            run,
            at: 31,
            byte: 0,
        };
        let mut spool = Quiet::new(alloc, NEVER, lie);
        let lane = lane_of_many(alloc, count, NEVER, NO_LIE)?;
        let ran = merged(alloc, lane, &mut spool, 1500)?;
        let whom = Whom::Spool;
        let error = MergeErr::Outside { whom, run, at: 0 };
        assert!(rt; is_refused(&ran, error), "run {run}");
    }
    Ok(())
}

/// 70 runs are read by a call each, seven of them are merged by three calls of the spool, and what they make is read by one.
#[test]
fn each_call_fails_in_turn(rt: HostRuntime) -> Result<(), Memory> {
    let alloc = rt.alloc();
    for fails in 0..71 {
        let mut spool = Quiet::new(alloc, NEVER, NO_LIE);
        let lane = lane_of_many(alloc, 70, fails, NO_LIE)?;
        let ran = merged(alloc, lane, &mut spool, 30)?;
        let error = MergeErr::Spill(Whom::Lane(0));
        assert!(rt; is_refused(&ran, error) == (fails < 70), "at call {fails}");
        assert!(rt; ran.ended == (fails == 70));
    }
    for fails in 0..5 {
        let mut spool = Quiet::new(alloc, fails, NO_LIE);
        let lane = lane_of_many(alloc, 70, NEVER, NO_LIE)?;
        let ran = merged(alloc, lane, &mut spool, 30)?;
        let error = MergeErr::Spill(Whom::Spool);
        assert!(rt; is_refused(&ran, error) == (fails < 4), "at call {fails}");
        assert!(rt; ran.ended == (fails == 4));
    }
    Ok(())
}

/// Three points of 37 bytes need four times their sum and 131,072.
#[test]
fn a_tile_that_is_too_large_comes_again(rt: HostRuntime) -> Result<(), Memory> {
    let alloc = rt.alloc();
    let need = 131_516;
    let lane = lane_of_many(alloc, 6, NEVER, NO_LIE)?;
    let lists = [list_of(alloc, &lane)?];
    let mut lanes = [lane];
    let mut spool = Quiet::new(alloc, NEVER, NO_LIE);
    let parts = [0, 131_072, need - 1, need, need - 1, need, 0];
    let ran = run(alloc, &mut lanes, &lists, &mut spool, &parts)?;
    let error = MergeErr::TooLarge { need };
    assert!(rt; ran.errors.as_slice() == [error, error, error, error].as_slice());
    assert!(rt; ran.sums.as_slice() == [111, 111].as_slice() && ran.ended);
    let points: [Point; 6] = [
        (0, 0, 0),
        (0, 1, 0),
        (0, 2, 0),
        (1, 0, 0),
        (1, 1, 0),
        (1, 2, 0),
    ];
    assert!(rt; ran.points.as_slice() == points.as_slice());
    Ok(())
}

/// A point of tile 1 with a text of 10,000 bytes, of 10,044 bytes in all.
fn put_long(run: &mut Vec<u8>) -> Result<(), Memory> {
    run.extend_from_slice(b"\x00\x00\x00\x00\x00\x00\x00\x01\x00\x7f\xff\x01")?;
    run.extend_from_slice(b"\x00\x00\x00\x02\x00\x00\x00\x00\x00\x00")?;
    run.extend_from_slice(b"\x00\x00\x00\x00\x00\x00\x27\x1e\x05\x01\x03\x09\x00\x00")?;
    run.extend_from_slice(b"\x01\x01a\x93\x4e\x0a\x90\x4e")?;
    for _ in 0..10_000u32 {
        run.push(120)?;
    }
    Ok(())
}

/// It stands between two other points, in a run that is read through windows of 4,096 bytes.
#[test]
fn a_long_item_is_read_in_pieces(rt: HostRuntime) -> Result<(), Memory> {
    let alloc = rt.alloc();
    let mut bytes = Vec::new(alloc);
    put_point(&mut bytes, 0, 0, 1)?;
    put_long(&mut bytes)?;
    put_point(&mut bytes, 2, 0, 3)?;
    let mut lane = lane(alloc, NEVER, NO_LIE);
    lane.spill.runs.push(bytes)?;
    let mut spool = Quiet::new(alloc, NEVER, NO_LIE);
    let ran = merged(alloc, lane, &mut spool, 4)?;
    assert!(rt; ran.points.as_slice() == [(0, 0, 1), (1, 0, 5), (2, 0, 3)].as_slice());
    assert!(rt; ran.sums.as_slice() == [37, 10_044, 37].as_slice() && ran.ended);
    Ok(())
}

/// A run that is listed with 2^64 - 1 bytes, the first item of which says that it has 2^63: the spill fails, and no memory
/// is taken for it.
#[test]
fn a_length_of_2_63_allocates_nothing(rt: HostRuntime) -> Result<(), Memory> {
    let alloc = rt.alloc();
    let lie = Lie {
        run: 0,
        at: 22,
        byte: 0x80,
    };
    let runs: [&[(u32, u32, u8)]; 1] = [&[(1, 0, 1)]];
    let mut lanes = [lane_of(alloc, &runs, lie)?];
    let mut spool = Quiet::new(alloc, NEVER, NO_LIE);
    let mut list = Seq::new(alloc);
    list.push(RunAt {
        run: 0,
        len: u64::MAX,
    })?;
    let ran = run(alloc, &mut lanes, &[list], &mut spool, &[NEVER; 1])?;
    assert!(rt; is_refused(&ran, MergeErr::Spill(Whom::Lane(0))));
    Ok(())
}
