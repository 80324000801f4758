ghost use Rattle.std.specs.Prelude.{◌≡◌};
ghost use Rattle.build_one.specs.Survey.{pass_stop_of};
ghost use Rattle.build_one.specs.Stages.{stop_of_archive, stop_of_pass, stop_of_profile, stop_of_relations, stop_of_survey, stop_of_tiles};

use pbf_blobs::ScanStop;
use pmtiles_file::FinishErr;
use profile_rules::{ProfileWhy, Spot};
use run_merge::MergeErr;
use std::alloc::{AllocError, AllocFailed};
use tb_outside::SpillErr;
use tb_types::{Damage, Memory as NoMemory, Stage, Whom};
use tile_model::Stop;

/// The lane that a build on one lane has.
const LANE: Whom = Whom::Lane(0);

/// Why a profile isn't read.
#[derive(Clone, Copy, Debug, PartialEq, Eq)]
pub enum ProfileStop {
    /// It is refused.
    Bad { spot: Spot, why: ProfileWhy },
    /// Its source failed.
    Failed,
    /// Want of memory.
    Memory,
}

/// Why a pass behind the survey ends.
#[derive(Clone, Copy, Debug, PartialEq, Eq)]
pub enum PassStop {
    /// A block is damaged, which none was in the survey.
    Damage(Damage),
    /// The reader failed.
    Source,
    /// The spill failed.
    Spill,
    /// Want of memory.
    Memory,
}

/// Why the pass over relations ends.
#[derive(Clone, Copy, Debug, PartialEq, Eq)]
pub enum RelationStop {
    /// A relation needs more memory than there is for it, in bytes.
    TooLarge { need: u64 },
    /// The spill failed.
    Spill,
    /// Want of memory.
    Memory,
}

/// What a refused or unread profile is for the build.
pub fn stop_of_profile(e: ProfileStop) -> Stop
    ensures { result ≡ stop_of_profile e }
{
    match e {
        ProfileStop::Bad { spot, why } => Stop::Profile { spot, why },
        ProfileStop::Failed => Stop::Source(Whom::Profile),
        ProfileStop::Memory => Stop::Memory,
    }
}

/// What a refused extract or a failed reader is for the build.
pub fn stop_of_survey(e: ScanStop) -> Stop
    ensures { result ≡ stop_of_survey e }
{
    match e {
        ScanStop::Damage(damage) => Stop::Damage(damage),
        ScanStop::Failed => Stop::Source(LANE),
        ScanStop::Memory => Stop::Memory,
    }
}

/// What a spill that failed is for a pass.
pub fn stop_of_spill(e: SpillErr) -> PassStop
    ensures { result ≡ pass_stop_of e }
{
    match e {
        SpillErr::Failed => PassStop::Spill,
        SpillErr::Memory => PassStop::Memory,
    }
}

/// What the end of the pass of this number is for the build.
pub fn stop_of_pass(pass: u8, e: PassStop) -> Stop
    ensures { result ≡ stop_of_pass pass e }
{
    match e {
        PassStop::Damage(damage) => Stop::Changed {
            pass,
            block: damage.block,
        },
        PassStop::Source => Stop::Source(LANE),
        PassStop::Spill => Stop::Spill(LANE),
        PassStop::Memory => Stop::Memory,
    }
}

/// What the end of the pass over relations is for the build.
pub fn stop_of_relations(e: RelationStop) -> Stop
    ensures { result ≡ stop_of_relations e }
{
    match e {
        RelationStop::TooLarge { need } => Stop::Budget {
            stage: Stage::Relation,
            need,
        },
        RelationStop::Spill => Stop::Spill(LANE),
        RelationStop::Memory => Stop::Memory,
    }
}

/// What refused tiles are for the build.
pub fn stop_of_tiles(e: MergeErr) -> Stop
    ensures { result ≡ stop_of_tiles e }
{
    match e {
        MergeErr::Spill(whom) => Stop::Spill(whom),
        MergeErr::Outside { whom, run, at } => Stop::Outside { whom, run, at },
        MergeErr::TooLarge { need } => Stop::Budget {
            stage: Stage::Tile,
            need,
        },
        MergeErr::Memory => Stop::Memory,
    }
}

/// What an archive that isn't finished is for the build.
pub fn stop_of_archive(e: FinishErr) -> Stop
    ensures { result ≡ stop_of_archive e }
{
    match e {
        FinishErr::Memory => Stop::Memory,
        FinishErr::Spill => Stop::Spill(Whom::Spool),
        FinishErr::Sink => Stop::Sink,
    }
}

impl From<NoMemory> for ProfileStop {
    ghost use Rattle.build_one.specs.declared.stop.ProfileStop.TheVariants as stops;

    ghost from_gives = { λ _ e. e ≡ stops.Memory };

    fn from(_e: NoMemory) -> ProfileStop {
        ProfileStop::Memory
    }
}

impl<T: Drop> From<AllocFailed<T>> for ProfileStop {
    ghost use Rattle.build_one.specs.declared.stop.ProfileStop.TheVariants as stops;

    ghost from_gives = { λ _ e. e ≡ stops.Memory };

    fn from(_e: AllocFailed<T>) -> ProfileStop {
        ProfileStop::Memory
    }
}

impl From<AllocError> for ProfileStop {
    ghost use Rattle.build_one.specs.declared.stop.ProfileStop.TheVariants as stops;

    ghost from_gives = { λ _ e. e ≡ stops.Memory };

    fn from(_e: AllocError) -> ProfileStop {
        ProfileStop::Memory
    }
}

impl From<NoMemory> for PassStop {
    ghost use Rattle.build_one.specs.declared.stop.PassStop.TheVariants as stops;

    ghost from_gives = { λ _ e. e ≡ stops.Memory };

    fn from(_e: NoMemory) -> PassStop {
        PassStop::Memory
    }
}

impl From<NoMemory> for RelationStop {
    ghost use Rattle.build_one.specs.declared.stop.RelationStop.TheVariants as stops;

    ghost from_gives = { λ _ e. e ≡ stops.Memory };

    fn from(_e: NoMemory) -> RelationStop {
        RelationStop::Memory
    }
}

impl From<AllocError> for RelationStop {
    ghost use Rattle.build_one.specs.declared.stop.RelationStop.TheVariants as stops;

    ghost from_gives = { λ _ e. e ≡ stops.Memory };

    fn from(_e: AllocError) -> RelationStop {
        RelationStop::Memory
    }
}

impl From<SpillErr> for RelationStop {
    ghost use Rattle.build_one.specs.Stages.{relation_stop_of};

    ghost from_gives = { λ e s. s ≡ relation_stop_of e };

    fn from(e: SpillErr) -> RelationStop {
        match e {
            SpillErr::Failed => RelationStop::Spill,
            SpillErr::Memory => RelationStop::Memory,
        }
    }
}
