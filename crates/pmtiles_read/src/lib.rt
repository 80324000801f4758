//! Reading archives: takes a source of bytes, gives the entries of an archive and its tiles, or its first fault.
//!
//! All directories are read when an archive is opened, from the root on. Read `header` (the checks of the first 127 bytes),
//! then `walk` (the directories), then `archive` (an open archive and its tiles).
#![tactic(auto)]

mod archive;
mod error;
mod found;
mod header;
mod walk;

pub use archive::{Archive, open_archive};
pub use error::ReadErr;
pub use pmtiles_dirs::{ArcFault, ArcWhy, DirEntry};

#[cfg(test)]
mod tests;
