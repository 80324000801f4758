ghost use Rattle.std.specs.Prelude.{◌≡◌, ◌<◌, false, IfSome, length};
ghost use Rattle.profile_rules.specs.Faults.{Gives};
ghost use Rattle.profile_rules.specs.Profile.{profile_of};
ghost use Rattle.tb_types.specs.Counts.{Counted};
ghost use Rattle.tile_model.specs.Due.{parts_from};
ghost use Rattle.build_one.specs.Profiles.{ReadsProfile, LoadsText, profile_failed};
ghost use Rattle.tile_model.specs.From.{IsKeyed, IsAlone};

use crate::stop::ProfileStop;
use profile_rules::{
    LONGEST_PROFILE, Part, Profile, ProfileErr, ProfileWhy, Spot, one_rule, read_profile,
};
use std::alloc::Global;
use tb_outside::Source;
use tile_model::{ProfileFrom, trial_text};

/// The profile of a build. A text is refused by its size before it is loaded.
pub fn profile_from<P: Source>(
    alloc: Global,
    from: &ProfileFrom,
    source: &mut P,
) -> Result<Profile, ProfileStop>
    requires keyed { IsKeyed from.now }
    ensures told { IfSome (parts_from from.now (P.seen source.old).bytes) (ReadsProfile result) }
    ensures counts { Counted (profile_failed result) (P.seen source.old).faults (P.seen source.new).faults }
    ensures bytes { (P.seen source.new).bytes ≡ (P.seen source.old).bytes }
    ensures alone { IsAlone from.now → source.new ≡ source.old }
{
    match from {
        ProfileFrom::Read => read_from(alloc, source),
        ProfileFrom::OneRule(key) => Ok(one_rule(alloc, key.as_str())?),
        ProfileFrom::Trial => read_text(alloc, trial_text()),
    }
}

// The profile whose text a source has.
fn read_from<P: Source>(alloc: Global, source: &mut P) -> Result<Profile, ProfileStop>
    ensures told { IfSome (P.seen source.old).bytes (λ text. ReadsProfile result (profile_of text)) }
    ensures counts { Counted (profile_failed result) (P.seen source.old).faults (P.seen source.new).faults }
    ensures bytes { (P.seen source.new).bytes ≡ (P.seen source.old).bytes }
{
    let text = match load_text(alloc, source) {
        Ok(text) => text,
        Err(e) => return Err(e),
    };
    read_text(alloc, &text)
}

// The profile of a text.
fn read_text(alloc: Global, text: &[u8]) -> Result<Profile, ProfileStop>
    ensures told { ReadsProfile result (profile_of text.now) }
    ensures read { profile_failed result ≡ false }
{
    match read_profile(alloc, text) {
        Ok(profile) => Ok(profile),
        Err(ProfileErr::Bad { spot, why }) => Err(ProfileStop::Bad { spot, why }),
        Err(ProfileErr::Memory) => Err(ProfileStop::Memory),
    }
}

// The text of a profile, if it isn't too long.
#[tactic(auto, unfolding(profile_rules::specs::Profile::profile_of))]
fn load_text<P: Source>(alloc: Global, source: &mut P) -> Result<Vec<u8>, ProfileStop>
    ensures told { IfSome (P.seen source.old).bytes (LoadsText result) }
    ensures counts { Counted (profile_failed result) (P.seen source.old).faults (P.seen source.new).faults }
    ensures bytes { (P.seen source.new).bytes ≡ (P.seen source.old).bytes }
{
    let size = match source.size() {
        Ok(size) => size,
        Err(_) => return Err(ProfileStop::Failed),
    };
    if size > LONGEST_PROFILE as u64 {
        return Err(ProfileStop::Bad {
            spot: Spot {
                part: Part::Top,
                no: 0,
            },
            why: ProfileWhy::Long,
        });
    }
    let mut text = vec![in alloc; 0u8; size as usize]?;
    match source.load(0, &mut text) {
        Ok(()) => Ok(text),
        Err(_) => Err(ProfileStop::Failed),
    }
}
