ghost use Rattle.std.specs.Prelude.{◌≡◌, ◌+◌, ◌<◌, ◌≤◌, IfOk, IfErr};

use crate::book::{Book, Busy};
use crate::grant::Grant;
use crate::purse::Purse;
use std::sync::{Mutex, Wait};

/// A book that threads share, under a lock.
///
/// No contract can name what is booked at the moment of a call, since other threads book too: so the exact number in
/// `Busy` is promised by `Book::book`, and here only what it shows, that the amount didn't fit beside it.
#[derive(Drop)]
pub struct SharedBook<L: Purse> {
    book: Mutex<Book<L>>,
}

impl<L: Purse> SharedBook<L> {
    /// Shares the book.
    pub fn new(book: Book<L>) -> SharedBook<L> {
        SharedBook {
            book: Mutex::new(book),
        }
    }

    /// Books `n` bytes. `Busy` comes only where they would pass the budget. It waits for the lock.
    pub fn book<T: Wait>(&self, rt: &T, n: u64) -> Result<Grant<L>, Busy>
        ensures ok { IfOk result (λ grant. (grant ≡ n) × (n ≤ L.budget)) }
        ensures busy { IfErr result (λ busy. (busy.booked ≤ L.budget) × (L.budget < busy.booked + n)) }
    {
        self.book.lock(rt).book(n)
    }

    /// Takes a grant back. It waits for the lock.
    pub fn give<T: Wait>(&self, rt: &T, grant: Grant<L>) {
        self.book.lock(rt).give(grant);
    }
}
