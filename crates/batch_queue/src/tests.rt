ghost use Rattle.std.specs.Prelude.{◌≡◌, ◌<◌, ◌≤◌};
ghost use Rattle.batch_queue.specs.Facts.{IsPassHere, IsWhole};

use super::*;
use memory_book::{Book, Purse, SharedBook};
use std::alloc::Global;
use std::marker::Brand;
use std::sync::Wait;
use std::sync::ledger::Blank;
use std::test::*;
use std::thread::{Threads, join};
use tb_types::Memory;

const BUDGET: u64 = 1_000_000;

/// The need of a body of three bytes.
const NEED: u64 = 16 * 3 + 65_536;

/// Makes 20 batches and pushes each that the book and the queue have room for; answers how many it pushed.
fn put<L: Purse, T: Wait>(
    rt: &T,
    alloc: Global,
    book: &SharedBook<L>,
    queue: &BatchQueue<L>,
    mut pass: QueuePass<L>,
) -> (u32, QueuePass<L>)
    requires { IsPassHere queue.now pass }
    ensures { (result.1.place ≡ pass.place) × (result.1.first ≡ pass.first) × (result.1.out ≡ pass.out) }
{
    let mut pushed = 0u32;
    for number in 0..20u32 {
        let body = match Vec::from_elem(alloc, 7u8, 3) {
            Ok(body) => body,
            Err(_) => continue,
        };
        let grant = match book.book(rt, NEED) {
            Ok(grant) => grant,
            Err(_) => continue,
        };
        match queue.push(rt, &mut pass, Batch::new(number, body, grant)) {
            Ok(()) => pushed = pushed.wrapping_add(1),
            Err(batch) => book.give(rt, batch.finish()),
        }
    }
    (pushed, pass)
}

/// Gives a batch's grant back; answers 1 where the batch is one of those that `put` makes.
fn done<L: Purse, T: Wait>(rt: &T, book: &SharedBook<L>, batch: Batch<L>) -> u32 {
    let right = batch.no() < 20 && batch.body() == [7, 7, 7].as_slice();
    book.give(rt, batch.finish());
    u32::from(right)
}

/// Pops up to 20 times; answers how many batches it got.
fn take<L: Purse, T: Wait>(
    rt: &T,
    book: &SharedBook<L>,
    queue: &BatchQueue<L>,
    mut pass: QueuePass<L>,
) -> (u32, QueuePass<L>)
    requires { IsPassHere queue.now pass }
    ensures { (result.1.place ≡ pass.place) × (result.1.first ≡ pass.first) × (result.1.out ≡ pass.out) }
{
    let mut popped = 0u32;
    for _ in 0..20u32 {
        if let Some(batch) = queue.pop(rt, &mut pass) {
            popped = popped.wrapping_add(done(rt, book, batch));
        }
    }
    (popped, pass)
}

/// Takes what is left and ends the queue; answers how many batches it got.
fn drain_all<L: Purse, T: Wait>(
    rt: &T,
    book: &SharedBook<L>,
    mut queue: BatchQueue<L>,
    mut pass: QueuePass<L>,
) -> u32
    requires { IsPassHere queue pass × IsWhole pass }
{
    let mut popped = 0u32;
    for _ in rt.forever() {
        match queue.drain(rt, &mut pass) {
            Some(batch) => popped = popped.wrapping_add(done(rt, book, batch)),
            None => {
                queue.end(&mut pass);
                return popped;
            }
        }
    }
    unreachable!()
}

/// One thread pushes and another pops, and then the rest is drained: how many were pushed, how many came out, and
/// how much the book grants at once afterwards.
fn exchange<L: Purse + Send + Sync, T: Threads + Wait + Sync>(
    rt: &T,
    alloc: Global,
    blank: Blank,
    capacity: u32,
) -> Result<(u32, u32, u64), Memory>
    requires capacity { (0 < capacity) × (capacity ≤ 1024) }
    requires ledger { (blank.name ≡ L.name) × (blank.parts ≡ L.parts) × (L.parts ≡ L.budget) × (L.budget ≡ 1000000) }
{
    let book = SharedBook::new(Book::<L>::new(blank, BUDGET));
    let (queue, mut pass) = BatchQueue::<L>::new(alloc, capacity)?;
    let other = queue.split(&mut pass);
    let shared = &queue;
    let lent = &book;
    let ((pushed, mut pass), (popped, other)) = join(
        rt,
        move ||
            requires { IsPassHere shared.now pass }
            ensures { (result.1.place ≡ pass.place) × (result.1.first ≡ pass.first) × (result.1.out ≡ pass.out) }
        { put(rt, alloc, lent, shared, pass) },
        move ||
            requires { IsPassHere shared.now other }
            ensures { (result.1.place ≡ other.place) × (result.1.first ≡ other.first) × (result.1.out ≡ other.out) }
        { take(rt, lent, shared, other) },
    );
    shared.join(&mut pass, other);
    let drained = drain_all(rt, &book, queue, pass);
    let free = match book.book(rt, BUDGET) {
        Ok(grant) => {
            let amount = grant.amount();
            book.give(rt, grant);
            amount
        }
        Err(_) => 0,
    };
    Ok((pushed, popped.wrapping_add(drained), free))
}

#[test]
fn what_is_pushed_comes_out_and_the_whole_budget_is_free(rt: HostRuntime) -> Result<(), Fail> {
    let (pushed, popped, free) = exchange::<Brand, HostRuntime>(
        &rt,
        rt.alloc(),
        Blank::new(BUDGET),
        4,
    )?;
    assert!(rt; pushed >= 1);
    assert_eq!(rt; popped, pushed);
    assert_eq!(rt; free, BUDGET);
    Ok(())
}

#[test]
fn a_queue_has_up_to_1024_places(rt: HostRuntime) -> Result<(), Fail> {
    let (pushed, popped, free) = exchange::<Brand, HostRuntime>(
        &rt,
        rt.alloc(),
        Blank::new(BUDGET),
        1024,
    )?;
    assert!(rt; pushed >= 15);
    assert_eq!(rt; popped, pushed);
    assert_eq!(rt; free, BUDGET);
    Ok(())
}
