ghost use Rattle.std.specs.Prelude.{◌≡◌, IfOk};
ghost use Rattle.profile_rules.specs.ByKey.{IsByKey};
ghost use Rattle.profile_rules.specs.Fields.{name_of, zooms_of, layers_of};
ghost use Rattle.profile_rules.specs.Sound.{IsSound};

use crate::by_key::by_key;
use crate::parts::{LayerInfo, Parts};
use std::alloc::Global;
use std::marker::Model;
use tb_types::{Memory, Seq};

/// A profile that was read, or the one of a key. Contracts see its parts.
#[derive(Debug, Drop)]
pub struct Profile {
    parts: Parts,
    // the numbers of the rules by the key that each asks for
    places: Seq<Seq<u16>>,
}

impl Model for Profile {
    ghost use Rattle.profile_rules.specs.declared.parts.Parts.{Parts};
    ghost use Rattle.profile_rules.specs.ByKey.{IsProfile};

    ghost Value = { Parts };

    ghost view = { λ p. p.parts };

    ghost invariant = { λ p. IsProfile p.parts p.places };
}

impl Profile {
    /// The profile of these parts.
    pub(crate) fn of(alloc: Global, parts: Parts) -> Result<Profile, Memory>
        requires { IsSound parts }
        ensures { IfOk result (λ p. p ≡ parts) }
    {
        let places = by_key(alloc, parts.rules.as_slice())?;
        Ok(Profile { parts, places })
    }

    /// The parts of the profile.
    pub(crate) fn parts(&self) -> &Parts
        ensures value { result.now ≡ self.now }
        ensures sound { IsSound self.now }
    {
        &self.parts
    }

    /// The numbers of the rules by the key that each asks for.
    pub(crate) fn places(&self) -> &[Seq<u16>]
        ensures { IsByKey self.now.rules result.now }
    {
        self.places.as_slice()
    }
}

/// The layers, in their order: 1 to 64.
pub fn layers(profile: &Profile) -> &[LayerInfo]
    ensures value { result.now ≡ layers_of profile.now }
    ensures sound { IsSound profile.now }
{
    profile.parts.layers.as_slice()
}

/// The first and the last zoom, which are at most 14.
pub fn zooms(profile: &Profile) -> (u8, u8)
    ensures value { result ≡ zooms_of profile.now }
    ensures sound { IsSound profile.now }
{
    (profile.parts.min, profile.parts.max)
}

/// The name: `map` where the text has none.
pub fn name(profile: &Profile) -> &str
    ensures { result.now ≡ name_of profile.now }
{
    profile.parts.name.as_str()
}
