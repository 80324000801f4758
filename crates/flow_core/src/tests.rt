//! A worked row, and random schedules to their end.
use crate::event::Event;
use crate::machine::Core;
use std::alloc::Global;

// A machine, if its parameters are within their limits and there is memory.
fn machine(alloc: Global, needs: &[u64], lanes: u32, queue: u32, part: u64) -> Option<Core> {
    if needs.len() > 1 << 24 || !needs.iter().all(|need| *need <= part) {
        return None;
    }
    if lanes < 1 || lanes > 64 || queue < 1 || queue > 1024 {
        return None;
    }
    Core::start(alloc, needs, lanes, queue, part).ok()
}

// Numbers by a linear congruence, each below `limit`.
fn draw(seed: &mut u64, limit: u32) -> u32 {
    *seed = seed
        .wrapping_mul(6364136223846793005)
        .wrapping_add(1442695040888963407);
    if limit == 0 {
        0
    } else {
        (*seed >> 32) as u32 % limit
    }
}

// How many events were possible up to the end, where a lane does now what it prefers and now any event.
fn walk(mut core: Core, lanes: u32, mut seed: u64) -> Option<u64> {
    let mut steps: u64 = 0;
    for _turn in 0..20_000 {
        let lane = draw(&mut seed, lanes);
        let wanted = if draw(&mut seed, 2) == 0 {
            core.next_of(lane)
        } else {
            Event::in_order(lane)
                .get(draw(&mut seed, 8) as usize)
                .copied()
        };
        if let Some(event) = wanted {
            if core.step(event).is_ok() {
                steps = steps.wrapping_add(1);
            }
        }
        if core.settled() {
            return Some(steps);
        }
    }
    None
}

#[test]
fn a_full_queue_holds_the_second_lane_back(rt: HostRuntime) {
    let Some(mut core) = machine(rt.alloc(), &[5, 5, 5], 2, 1, 10) else {
        panic!(rt; "no machine");
    };
    let rows = [
        (Event::Claim { lane: 0 }, true),
        (Event::Book { lane: 0 }, true),
        (Event::Load { lane: 0 }, true),
        (Event::Claim { lane: 1 }, true),
        (Event::Book { lane: 1 }, true),
        (Event::Load { lane: 1 }, true),
        (Event::Push { lane: 0 }, true),
        (Event::Push { lane: 1 }, false),
        (Event::Pop { lane: 1 }, true),
        (Event::Put { lane: 1 }, true),
        (Event::Emit { lane: 1 }, true),
        (Event::Give { lane: 1 }, true),
        (Event::Push { lane: 1 }, true),
        (Event::Claim { lane: 2 }, false),
    ];
    for (event, possible) in rows {
        assert_eq!(rt; core.step(event).is_ok(), possible, "{event:?}");
    }
}

#[test]
fn every_schedule_takes_as_many_steps(rt: HostRuntime) {
    let rows = [
        (&[5, 5, 5][..], 2, 1, 10, 26),
        (&[][..], 3, 1, 0, 3),
        (&[7][..], 1, 1, 7, 9),
        (&[1, 2, 3, 4, 5, 6, 7, 8][..], 4, 2, 11, 68),
        (&[9, 9, 0, 9, 9, 9][..], 5, 1024, 9, 53),
        (&[5, 5, 5][..], 64, 2, 10, 88),
    ];
    for (needs, lanes, queue, part, steps) in rows {
        for seed in 0..4 {
            let Some(core) = machine(rt.alloc(), needs, lanes, queue, part) else {
                panic!(rt; "no machine");
            };
            assert_eq!(rt; walk(core, lanes, seed), Some(steps), "{needs:?}");
        }
    }
}

#[test]
fn a_run_counts_what_was_possible(rt: HostRuntime) {
    let Some(mut core) = machine(rt.alloc(), &[4], 1, 1, 4) else {
        panic!(rt; "no machine");
    };
    let events = [
        Event::Book { lane: 0 },
        Event::Claim { lane: 0 },
        Event::Claim { lane: 0 },
        Event::Book { lane: 0 },
    ];
    assert_eq!(rt; core.run(&events), 2);
}
