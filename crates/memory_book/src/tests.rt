ghost use Rattle.std.specs.Prelude.{◌≡◌, ◌*◌, ◌^◌, ◌≤◌};

use super::*;
use std::marker::Brand;
use std::sync::Wait;
use std::sync::ledger::Blank;
use std::test::*;

/// What three bookings answered.
type Answers = (Result<u64, Busy>, Result<u64, Busy>, Result<u64, Busy>);

/// Books an amount and gives it back at once.
fn tried<L: Purse>(book: &mut Book<L>, n: u64) -> Result<u64, Busy> {
    let grant = book.book(n)?;
    let amount = grant.amount();
    book.give(grant);
    Ok(amount)
}

/// What a book of 10 bytes answers where 6 are booked and 5 or 4 are asked for, and at 10 once the 6 are given back.
fn asked<L: Purse>(blank: Blank) -> Result<Answers, Busy>
    requires { (blank.name ≡ L.name) × (blank.parts ≡ L.parts) × (L.parts ≡ L.budget) × (L.budget ≡ 10) }
{
    let mut book = Book::<L>::new(blank, 10);
    let six = book.book(6)?;
    let five = tried(&mut book, 5);
    let four = tried(&mut book, 4);
    book.give(six);
    Ok((five, four, tried(&mut book, 10)))
}

fn tried_shared<L: Purse, T: Wait>(rt: &T, book: &SharedBook<L>, n: u64) -> Result<u64, Busy> {
    let grant = book.book(rt, n)?;
    let amount = grant.amount();
    book.give(rt, grant);
    Ok(amount)
}

/// The same of a book that threads share, each amount so many times.
fn asked_shared<L: Purse, T: Wait>(rt: &T, blank: Blank, unit: u64) -> Result<Answers, Busy>
    requires ledger { (blank.name ≡ L.name) × (blank.parts ≡ L.parts) × (L.parts ≡ L.budget) }
    requires budget { (unit ≤ 2 ^ 40) × (L.budget ≡ 10 * unit) }
{
    let book = SharedBook::new(Book::<L>::new(blank, 10 * unit));
    let six = book.book(rt, 6 * unit)?;
    let five = tried_shared(rt, &book, 5 * unit);
    let four = tried_shared(rt, &book, 4 * unit);
    book.give(rt, six);
    Ok((five, four, tried_shared(rt, &book, 10 * unit)))
}

#[test]
fn a_book_of_ten(rt: HostRuntime) {
    let wanted = Ok((Err(Busy { booked: 6 }), Ok(4), Ok(10)));
    assert!(rt; asked::<Brand>(Blank::new(10)) == wanted);
    assert!(rt; asked_shared::<Brand, HostRuntime>(&rt, Blank::new(10), 1) == wanted);
}

#[test]
fn a_shared_book_of_ten_trillions(rt: HostRuntime) {
    let wanted = Ok((
        Err(Busy {
            booked: 6_000_000_000_000,
        }),
        Ok(4_000_000_000_000),
        Ok(10_000_000_000_000),
    ));
    let blank = Blank::new(10_000_000_000_000);
    assert!(rt; asked_shared::<Brand, HostRuntime>(&rt, blank, 1_000_000_000_000) == wanted);
}
