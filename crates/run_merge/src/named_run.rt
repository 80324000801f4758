ghost use Rattle.std.specs.Prelude.{◌≡◌};
ghost use Rattle.run_merge.specs.Objects.{whom_of};

use tb_outside::RunAt;
use tb_types::Whom;

/// Whose spill a run stands in: the lane's of this number, or the spool.
#[derive(Clone, Copy, Debug)]
pub enum Store {
    Lane(u32),
    Spool,
}

impl Store {
    /// The object's name in an error.
    pub fn whom(self) -> Whom
        ensures { result ≡ whom_of self }
    {
        match self {
            Store::Lane(lane) => Whom::Lane(lane),
            Store::Spool => Whom::Spool,
        }
    }
}

/// An ended run, and whose spill it stands in.
#[derive(Clone, Copy, Debug)]
pub struct NamedRun {
    pub store: Store,
    pub run: RunAt,
}
