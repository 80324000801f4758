ghost use Rattle.std.specs.Prelude.{◌≡◌};
ghost use Rattle.claim_desk.specs.Facts.{IsSeatOf};

use super::*;
use std::alloc::{AllocError, Global};
use std::test::*;
use std::thread::join;
use tb_types::Memory;

/// What a seat draws in so many claims.
fn draw(
    alloc: Global,
    desk: &Desk,
    mut seat: DeskSeat,
    most: u32,
) -> (Result<Vec<u32>, AllocError>, DeskSeat)
    requires { IsSeatOf desk.now seat }
    ensures { (result.1.place ≡ seat.place) × (result.1.limit ≡ seat.limit) × (result.1.first ≡ seat.first) }
{
    let mut drawn = match Vec::with_capacity(alloc, most as usize) {
        Ok(drawn) => drawn,
        Err(e) => return (Err(e), seat),
    };
    for _ in 0..most {
        if let Some(number) = desk.claim(&mut seat) {
            if drawn.push(number).is_err() {
                return (Err(AllocError), seat);
            }
        }
    }
    (Ok(drawn), seat)
}

/// Counts each number that was drawn.
fn mark(times: &mut [u8], drawn: &[u32]) {
    for number in drawn {
        if let Some(count) = times.get_mut(*number as usize) {
            *count = count.saturating_add(1);
        }
    }
}

#[test]
fn two_threads_draw_each_number_once(rt: HostRuntime) -> Result<(), Fail> {
    let (desk, mut first) = Desk::new(rt.alloc(), 1000)?;
    let second = desk.split(&mut first);
    let shared = &desk;
    let alloc = rt.alloc();
    let ((a, mut first), (b, second)) = join(
        &rt,
        move ||
            requires { IsSeatOf shared.now first }
            ensures { (result.1.place ≡ first.place) × (result.1.limit ≡ first.limit) × (result.1.first ≡ first.first) }
        { draw(alloc, shared, first, 1001) },
        move ||
            requires { IsSeatOf shared.now second }
            ensures { (result.1.place ≡ second.place) × (result.1.limit ≡ second.limit) × (result.1.first ≡ second.first) }
        { draw(alloc, shared, second, 1001) },
    );
    desk.join(&mut first, second);
    assert_eq!(rt; desk.close(&mut first), 1002);
    let (a, b) = (a?, b?);
    let mut times = [0u8; 1000];
    mark(&mut times, a.as_slice());
    mark(&mut times, b.as_slice());
    assert_eq!(rt; a.len().saturating_add(b.len()), 1000);
    assert!(rt; times.iter().all(|count| *count == 1));
    Ok(())
}

/// What the greatest desk gives first, and how many steps that took.
fn first_of_all(alloc: Global) -> Result<(Option<u32>, Option<u32>, u64), Memory> {
    let (desk, mut seat) = Desk::new(alloc, 1 << 24)?;
    let first = desk.claim(&mut seat);
    let second = desk.claim(&mut seat);
    Ok((first, second, desk.close(&mut seat)))
}

#[test]
fn a_desk_has_up_to_two_to_the_24_numbers(rt: HostRuntime) -> Result<(), Fail> {
    let got = first_of_all(rt.alloc())?;
    assert!(rt; got == (Some(0), Some(1), 2), "{got:?}");
    Ok(())
}
