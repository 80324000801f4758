ghost use Rattle.std.specs.Prelude.{◌≡◌, ℕ};

use crate::purse::Purse;
use std::marker::Model;
use std::sync::ledger::Share;

/// An amount in bytes that is booked. A contract sees the amount.
///
/// It has no `Drop`: it ends where a book takes it back. In the ledger it has as many parts as bytes.
pub struct Grant<L: Purse> {
    pub(super) amount: u64,
    pub(super) share: Share<L>,
}

impl<L: Purse> Model for Grant<L> {
    ghost Value = { ℕ };

    ghost view = { λ g. g.amount };

    ghost invariant = { λ g. (g.share.parts ≡ g.amount) × (g.share.amount ≡ g.amount) };
}

impl<L: Purse> Grant<L> {
    /// The amount, in bytes.
    pub fn amount(&self) -> u64
        ensures { result ≡ self.now }
    {
        self.amount
    }
}
