//! Writing archives: takes tiles by ascending ids, keeps their contents in a spool, gives the archive's bytes to a sink.
//!
//! Each distinct content is one run of the spool. Read `hash` and `index` (which contents may be equal), then `search` (which
//! are, by the bytes read back), `store` (a content's run), `distinct` (the contents) and `listed` (the entries), then `writer`.
//! What `finish` appends is made in `parts`, and the contents are copied in `copy`.
#![tactic(auto)]

mod append;
mod copy;
mod distinct;
mod finish_err;
mod hash;
mod index;
mod laws;
mod listed;
mod parts;
mod search;
mod store;
mod stored;
mod writer;

pub use finish_err::FinishErr;
pub use laws::runs_behind_change_nothing;
pub use pmtiles_dirs::{Meta, MetaLayer, Totals};
pub use tb_types::FieldKind;
pub use writer::Writer;

#[cfg(test)]
mod tests;
