//! A step of a pass.

/// One step of a pass, by the number of its unit. Units count from 0, in the order of the file.
#[derive(Clone, Copy, Debug, PartialEq, Eq)]
pub enum Step {
    /// The unit is loaded.
    Load(u32),
    /// What the unit gives is put into the stores.
    Put(u32),
    /// What the unit gives is emitted as items, and the unit is let go.
    Emit(u32),
}
