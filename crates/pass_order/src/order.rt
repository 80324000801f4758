//! The order of the steps of passes.

use crate::drawn::Drawn;

/// In which order the steps of passes are done.
#[derive(Clone, Copy, Debug, PartialEq, Eq)]
pub enum Order {
    /// Unit after unit: each is loaded, put and emitted before the next one is loaded.
    InFile,
    /// As drawn lanes do them.
    Drawn(Drawn),
}
