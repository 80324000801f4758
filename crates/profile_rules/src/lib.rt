//! Rules of a profile: takes the text of a profile and the tags of an element, gives the specs that its rules make of it.
//!
//! A profile is a TOML document with a top table, layers and rules. A part is read in stages, each over the whole part:
//! its keys, the kinds of its values, their ranges, and then what a layer, a condition or an attribute asks. So the first
//! reason in the order of the stages is named that holds anywhere in the first faulty part.
//!
//! Read `parts` (what a profile is) with `condition` and `attribute`, then `fault`, `key`, `kinds` and `ranges` (what the
//! stages are made of), then `top`, `layer`, `rule` and `read` (a text), `by_key` with `merge` (which rules an element
//! looks at), `profile` and `one_key`, then `element`, `value` and `spec` (what the rules make of an element), and `field`
//! (what is told of a layer).
#![tactic(auto)]

mod attribute;
mod by_key;
mod condition;
mod element;
mod fault;
mod field;
mod format;
mod key;
mod kinds;
mod layer;
mod limits;
mod merge;
mod one_key;
mod parts;
mod profile;
mod ranges;
mod read;
mod rule;
mod spec;
mod top;
mod value;
mod worked;

pub use fault::{Part, ProfileErr, ProfileWhy, Spot};
pub use field::fields;
pub use limits::LONGEST_PROFILE;
pub use one_key::one_rule;
pub use parts::{Form, LayerInfo};
pub use profile::{Profile, layers, name, zooms};
pub use read::read_profile;
pub use spec::{Spec, specs};
pub use worked::worked_profiles;

#[cfg(test)]
mod element_tests;
#[cfg(test)]
mod fault_tests;
#[cfg(test)]
mod limit_tests;
#[cfg(test)]
mod told_tests;
