//! Sorted lists: takes lists in order, gives what sorting, grouping and merging them mean, and their laws.
//!
//! Read `specs` in this order: `Sorting`, `Grouping`, `Merging` (what the words mean), then the laws, each record of them the
//! clause of one call here: `SortingLaws`, `KeyLaws`, `BagLaws`, `NumberLaws`, `GroupingLaws`, `MergingLaws`, `MapLaws`.
//! Callers cite the laws from `proofs/Proved`, such as `(sorting X).only`.
#![tactic(auto)]

mod group;
mod laws;
#[cfg(test)]
mod tests;
mod worked;

pub use group::{Classed, group_len};
pub use laws::{
    bag_laws, grouping_laws, key_laws, map_laws, merging_laws, number_laws, sorting_laws,
};
pub use worked::worked_lists;
