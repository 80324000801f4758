//! The order of steps, against orders that a model of its own gives.
use crate::drawn::Drawn;
use crate::error::OrderErr;
use crate::order::Order;
use crate::pass::drive;
use crate::step::Step;
use crate::steps::Steps;
use std::alloc::Global;

// Notes its steps, as a letter and a digit each, and refuses one of them. A body is a number that its unit determines.
#[derive(Drop)]
struct Noted {
    text: Vec<u8>,
    refused: Option<Step>,
}

impl Noted {
    fn note(&mut self, step: Step, unit: u32, letter: u8) -> Result<(), Step> {
        if self.refused == Some(step) {
            return Err(step);
        }
        match self
            .text
            .extend_from_slice(&[letter, b'0' + (unit % 10) as u8])
        {
            Ok(()) => Ok(()),
            Err(_) => Err(step),
        }
    }
}

fn body_of(unit: u32) -> u32 {
    unit.wrapping_mul(7).wrapping_add(3)
}

impl Steps for Noted {
    type Body = u32;

    type Fault = Step;

    ghost meaning = { record { ready = λ _ _. Unit {0}; loads = λ _ _ _ _. Unit {0}; puts = λ _ _ _ _ _. Unit {0}; emits = λ _ _ _ _ _. Unit {0} } };

    fn load(&mut self, unit: u32) -> Result<u32, Step> {
        match self.note(Step::Load(unit), unit, b'L') {
            Ok(()) => Ok(body_of(unit)),
            Err(step) => Err(step),
        }
    }

    fn put(&mut self, unit: u32, body: &u32) -> Result<(), Step> {
        let letter = if *body == body_of(unit) { b'P' } else { b'?' };
        self.note(Step::Put(unit), unit, letter)
    }

    fn emit(&mut self, unit: u32, body: u32) -> Result<(), Step> {
        let letter = if body == body_of(unit) { b'E' } else { b'?' };
        self.note(Step::Emit(unit), unit, letter)
    }
}

fn fresh(alloc: Global, refused: Option<Step>) -> Noted {
    Noted {
        text: Vec::new(alloc),
        refused,
    }
}

// Drives a pass, if its parameters are within their limits.
fn driven(
    alloc: Global,
    order: &mut Order,
    needs: &[u64],
    steps: &mut Noted,
) -> Option<Result<(), OrderErr<Step>>> {
    if needs.len() > 1 << 24 {
        return None;
    }
    if let Order::Drawn(drawn) = *order {
        let part = drawn.part;
        if !needs.iter().all(|need| *need <= part) {
            return None;
        }
        if drawn.lanes < 1 || drawn.lanes > 64 || drawn.queue < 1 || drawn.queue > 1024 {
            return None;
        }
    }
    Some(drive(alloc, order, needs, steps))
}

fn lanes(last: u64, lanes: u32, queue: u32, part: u64) -> Order {
    Order::Drawn(Drawn {
        last,
        lanes,
        queue,
        part,
    })
}

#[test]
fn steps_come_in_their_order(rt: HostRuntime) {
    let rows = [
        (
            Order::InFile,
            &[5, 5, 5][..],
            b"L0P0E0L1P1E1L2P2E2".as_slice(),
        ),
        (Order::InFile, &[][..], b"".as_slice()),
        (lanes(7, 1, 1, 10), &[5, 5][..], b"L0L1P0E0P1E1".as_slice()),
        (
            lanes(1, 2, 1, 10),
            &[5, 5, 5][..],
            b"L1L0P0E0L2P1E1P2E2".as_slice(),
        ),
        (
            lanes(2, 3, 2, 11),
            &[1, 2, 3, 4, 5][..],
            b"L1L0L3L2P0E0P3P1E3E1P2E2L4P4E4".as_slice(),
        ),
        (
            lanes(9, 3, 1, 9),
            &[9, 9, 0][..],
            b"L0L2P2E2P0E0L1P1E1".as_slice(),
        ),
        (lanes(0, 64, 1024, 4), &[4][..], b"L0P0E0".as_slice()),
        (lanes(5, 2, 2, 0), &[][..], b"".as_slice()),
    ];
    for (order, needs, text) in rows {
        let mut order = order;
        let mut steps = fresh(rt.alloc(), None);
        assert_eq!(rt;
            driven(rt.alloc(), &mut order, needs, &mut steps),
            Some(Ok(())),
            "{needs:?}"
        );
        assert!(rt; steps.text.as_slice() == text);
    }
}

#[test]
fn the_sequence_goes_on(rt: HostRuntime) {
    let mut order = lanes(7, 2, 1, 10);
    let rows = [
        (b"L0P0L1E0P1E1".as_slice(), 2892187164789250849),
        (b"L1L0P1E1P0E0".as_slice(), 6965010504494001739),
    ];
    for (text, last) in rows {
        let mut steps = fresh(rt.alloc(), None);
        assert_eq!(rt;
            driven(rt.alloc(), &mut order, &[5, 5], &mut steps),
            Some(Ok(())),
            "{last}"
        );
        assert!(rt; steps.text.as_slice() == text);
        assert_eq!(rt; order, lanes(last, 2, 1, 10), "{last}");
    }
}

#[test]
fn a_step_that_fails_is_the_last(rt: HostRuntime) {
    let rows = [
        (Order::InFile, Step::Load(1), b"L0P0E0".as_slice()),
        (Order::InFile, Step::Emit(0), b"L0P0".as_slice()),
        (lanes(7, 2, 1, 10), Step::Emit(0), b"L0P0L1".as_slice()),
        (lanes(7, 1, 1, 10), Step::Put(0), b"L0L1".as_slice()),
    ];
    for (order, refused, text) in rows {
        let mut order = order;
        let mut steps = fresh(rt.alloc(), Some(refused));
        assert_eq!(rt;
            driven(rt.alloc(), &mut order, &[5, 5], &mut steps),
            Some(Err(OrderErr::Failed(refused))),
            "{refused:?}"
        );
        assert!(rt; steps.text.as_slice() == text);
    }
}
