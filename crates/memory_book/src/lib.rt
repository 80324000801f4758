//! A book of memory: takes stated amounts, gives grants of them, together never more than its budget.
//!
//! A grant is a share of one ledger, and what the book calls booked is the sum of all shares: so nobody can make a
//! grant, change its amount or give it back twice. Grants can't be dropped, only given back.
//! Read `purse` (which ledger, and its budget), then `grant`, `book`, and `shared` (the book that threads share).
#![tactic(auto)]

mod book;
mod grant;
mod purse;
mod shared;

pub use book::{Book, Busy};
pub use grant::Grant;
pub use purse::Purse;
pub use shared::SharedBook;

#[cfg(test)]
mod tests;
