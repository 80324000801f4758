//! A desk of numbers: takes a limit, gives each number below it to one of several threads, once.
//!
//! One word counts the steps of all threads, and a step is one atomic addition: no lock, no waiting, no memory. A seat
//! is what a thread steps with; it stands for what the thread drew. Once all seats are joined again, the one that is
//! left knows that together they drew every number below the limit.
//! Read `desk` (the calls), then `rule` (what each step tells its seat), then `specs/Rule.antt` (what always holds).
#![tactic(auto)]

mod desk;
mod rule;
mod seat;
mod worked;

pub use desk::Desk;
pub use seat::DeskSeat;
pub use worked::worked_seats;

#[cfg(test)]
mod tests;
