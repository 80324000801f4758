ghost use Rattle.std.specs.Prelude.{◌≡◌, ℕ, ◌+◌, ◌<◌, ◌≤◌, IfOk, IfErr};

use crate::grant::Grant;
use crate::purse::Purse;
use std::marker::Model;
use std::sync::ledger;
use std::sync::ledger::{Blank, Share};

/// The amount didn't fit beside the `booked` bytes.
#[derive(Clone, Copy, Debug, PartialEq, Eq)]
pub struct Busy {
    pub booked: u64,
}

/// The amounts that are booked, together at most the budget. A contract sees their sum, in bytes.
///
/// The ledger has as many parts as the budget has bytes: the grants hold those that are booked, the book the rest.
#[derive(Drop)]
pub struct Book<L: Purse> {
    budget: u64,
    booked: u64,
    total: ledger::Book<L>,
    rest: Share<L>,
}

impl<L: Purse> Model for Book<L> {
    ghost Value = { ℕ };

    ghost view = { λ b. b.booked };

    ghost invariant = { λ b. (b.budget ≡ L.budget) × (b.total.total ≡ b.booked) × (b.rest.parts + b.booked ≡ b.budget) × (b.rest.amount ≡ 0) };
}

impl<L: Purse> Book<L> {
    /// A book in which nothing is booked. The budget, in bytes, is the one that `L` names.
    pub fn new(blank: Blank, budget: u64) -> Book<L>
        requires ledger { (blank.name ≡ L.name) × (blank.parts ≡ L.parts) × (L.parts ≡ L.budget) }
        requires budget { budget ≡ L.budget }
        ensures { result ≡ 0 }
    {
        let (total, rest) = blank.open::<L>();
        Book {
            budget,
            booked: 0,
            total,
            rest,
        }
    }

    /// Books `n` bytes. `Busy` comes exactly where they would pass the budget, with what is booked.
    pub fn book(&mut self, n: u64) -> Result<Grant<L>, Busy>
        ensures ok { IfOk result (λ grant. (grant ≡ n) × (self.new ≡ self.old + n) × (self.new ≤ L.budget)) }
        ensures busy { IfErr result (λ busy. (busy.booked ≡ self.old) × (busy.booked ≤ L.budget) × (L.budget < busy.booked + n)) }
        ensures unchanged { IfErr result (λ _. self.new ≡ self.old) }
    {
        if n > self.budget - self.booked {
            return Err(Busy {
                booked: self.booked,
            });
        }
        let share = if n == 0 {
            self.rest.empty()
        } else {
            self.total.add(&mut self.rest, n);
            self.rest.split_off(n, n)
        };
        self.booked += n;
        Ok(Grant { amount: n, share })
    }

    /// Takes a grant back.
    pub fn give(&mut self, grant: Grant<L>)
        ensures given { self.new + grant ≡ self.old }
        ensures within { self.old ≤ L.budget }
    {
        let Grant { amount, mut share } = grant;
        self.total.audit(&mut share);
        self.total.sub(&mut share, amount);
        self.booked -= amount;
        self.rest.merge(share);
    }
}
