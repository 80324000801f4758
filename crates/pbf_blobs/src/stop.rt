ghost use Rattle.std.specs.Prelude.{◌≡◌};
ghost use Rattle.pbf_blobs.specs.declared.stop.ScanStop.TheVariants as stops;
ghost use Rattle.pbf_blobs.specs.Answers.{stop_of, damage_at};

use std::alloc::AllocError;
use tb_types::{Damage, Memory, Why};

/// Why a scan gives no index.
#[derive(Clone, Copy, Debug, PartialEq, Eq)]
pub enum ScanStop {
    /// The source failed: its count of faults rose.
    Failed,
    /// The first fault of the frames.
    Damage(Damage),
    /// Want of memory.
    Memory,
}

/// Why a frame is not read.
#[derive(Clone, Copy, Debug, PartialEq, Eq)]
pub(crate) enum FrameStop {
    /// The source failed: its count of faults rose.
    Failed,
    /// The bytes are no frame that may stand there.
    Bad(Why),
}

impl From<AllocError> for ScanStop {
    ghost from_gives = { λ _ e. e ≡ stops.Memory };

    fn from(_e: AllocError) -> ScanStop {
        ScanStop::Memory
    }
}

impl From<Memory> for ScanStop {
    ghost from_gives = { λ _ e. e ≡ stops.Memory };

    fn from(_e: Memory) -> ScanStop {
        ScanStop::Memory
    }
}

/// The end of a scan at a frame.
pub(crate) fn stop_of(no: u32, stop: FrameStop) -> ScanStop
    ensures { result ≡ stop_of no stop }
{
    match stop {
        FrameStop::Failed => ScanStop::Failed,
        FrameStop::Bad(why) => damage_at(no, why),
    }
}

/// The damage of a frame.
pub(crate) fn damage_at(no: u32, why: Why) -> ScanStop
    ensures { result ≡ damage_at no why }
{
    ScanStop::Damage(Damage { block: no, why })
}
