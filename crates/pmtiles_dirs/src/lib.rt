//! Archives in parts: takes entries, metadata and sizes, gives the bytes of directories and headers, and reads them back.
//!
//! A directory is a list of varints: a count, and then four columns of so many numbers. Each entry is written, and read, behind
//! the one before it. Read `entry` (what an entry is), `put` and `read` (directories both ways), `plan` (root and leaves), then
//! `header`, `sizes`, `bounds` and `meta` (what stands before the tiles), and `totals` (what an archive holds). The whole text of an archive, its faults and the tiles
//! that are read back from it are defined in `specs/Archive`, `specs/Fault` and `specs/Back`.
#![tactic(auto)]

mod bounds;
mod entry;
mod fault;
mod field;
mod header;
mod laws;
mod meta;
mod plan;
mod put;
mod read;
mod sizes;
mod totals;
mod worked;

pub use bounds::{MapBounds, bounds_of, whole_world};
pub use entry::{DirEntry, Dirs};
pub use fault::{ArcFault, ArcWhy};
pub use header::{HEADER_LEN, Header, MAGIC, VERSION, put_header, take_header};
pub use laws::{archives_are_read_back, directories_are_read_again, headers_are_read_again};
pub use meta::{Meta, MetaLayer, metadata_text};
pub use plan::{ROOT_LIMIT, plan_leaves};
pub use put::put_dir;
pub use read::read_dir;
pub use sizes::{Sizes, map_header};
pub use totals::Totals;
pub use worked::worked_archives;

#[cfg(test)]
mod tests;
