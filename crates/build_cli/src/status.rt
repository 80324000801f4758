ghost use Rattle.std.specs.Prelude.{◌≡◌};
ghost use Rattle.build_cli.specs.Ended.{refusal_of};
ghost use Rattle.build_cli.specs.Status.{status_of};

use archive_text::{ArcFault, ReadErr};
use build_one::Stop;
use tb_types::Whom;

/// The status of a command that was done.
pub const DONE: u8 = 0;

/// The status of a sink that failed, also of a console behind a whole archive.
pub const SINK_FAILED: u8 = 9;

/// Why a command isn't done.
#[derive(Clone, Copy, Debug, PartialEq, Eq)]
pub enum Refusal {
    /// The words are no command.
    Words,
    /// The command stopped as a build does.
    Stopped(Stop),
    /// The archive that is read has this fault.
    Faulty(ArcFault),
}

/// The status of a refusal.
pub fn status_of(refusal: Refusal) -> u8
    ensures { result ≡ status_of refusal }
{
    match refusal {
        Refusal::Words => 2,
        Refusal::Stopped(Stop::Profile { .. }) => 3,
        Refusal::Stopped(Stop::Budget { .. }) => 5,
        Refusal::Stopped(Stop::Source(_)) => 7,
        Refusal::Stopped(Stop::Spill(_)) => 8,
        Refusal::Stopped(Stop::Outside { .. }) => 8,
        Refusal::Stopped(Stop::Damage(_)) => 4,
        Refusal::Stopped(Stop::Sink) => SINK_FAILED,
        Refusal::Stopped(Stop::Changed { .. }) => 12,
        Refusal::Stopped(Stop::Memory) => 10,
        Refusal::Faulty(_) => 11,
    }
}

/// The refusal of a look into the archive of lane 0's reader.
pub fn refusal_of(e: ReadErr) -> Refusal
    ensures { result ≡ refusal_of e }
{
    match e {
        ReadErr::Failed => Refusal::Stopped(Stop::Source(Whom::Lane(0))),
        ReadErr::Bad(fault) => Refusal::Faulty(fault),
        ReadErr::Memory => Refusal::Stopped(Stop::Memory),
    }
}
