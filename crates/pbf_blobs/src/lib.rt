//! Frames and blobs: takes the bytes of an extract by place, gives where its blocks lie, and the raw block of a body.
//!
//! An extract is a run of frames, each the length of a header, the header and a body (fileformat.proto). `scan` goes from
//! header to header and touches no body. Read `numbers` (fields and limits), `block` (what an index holds), `field` (what
//! a field says), `header` and `blob` (the two messages), then `frame` (one frame) and `walk` (all of them).
//! `worked` has the cases that the definitions were checked on, and the limits that no test reaches.
#![tactic(auto)]

mod blob;
mod block;
mod field;
mod frame;
mod header;
mod message;
mod numbers;
mod stop;
mod walk;
mod worked;

pub use blob::raw_of;
pub use block::{BlockAt, BlockKind, Index};
pub use stop::ScanStop;
pub use walk::scan;
pub use worked::{frames_are_limited, worked_cases};

#[cfg(test)]
mod tests;
