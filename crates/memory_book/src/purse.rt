ghost use Rattle.std.specs.Prelude.{ℕ};

use std::marker::Brand;
use std::sync::ledger::Ledger;

/// Which ledger the grants of a book are shares of, and the book's budget in bytes.
///
/// The budget is named here, by the type, so that what is known of a book under a lock can speak of it.
pub trait Purse: Ledger {
    ghost budget: { ℕ };
}

impl Purse for Brand {
    ghost budget = { 0 };
}
