ghost use Rattle.std.specs.Prelude.{◌≡◌, ◌≤◌, Some, true, false, IfSome, IfNone, vec_len};
ghost use Rattle.std.specs.Str.{is_utf8};
ghost use Rattle.toml.specs.Parse.{parse_document};
ghost use Rattle.toml.specs.View.{table_view};
ghost use Rattle.profile_rules.specs.declared.fault.ProfileErr.TheVariants as refusals;
ghost use Rattle.profile_rules.specs.Faults.{Gives};
ghost use Rattle.profile_rules.specs.Profile.{top_spot, profile_of, parts_in, parts_under};
ghost use Rattle.profile_rules.specs.Seen.{seen_top};

use crate::fault::{Part, ProfileErr, ProfileWhy, Spot, placed};
use crate::layer::layers_of;
use crate::limits::LONGEST_PROFILE;
use crate::parts::Parts;
use crate::profile::Profile;
use crate::rule::rules_of;
use crate::top::{Top, top_of};
use std::alloc::Global;
use std::str;
use tb_types::{Seq, Text};
use toml::Table;

/// The spot of the text as a whole and of its top table.
const TOP: Spot = Spot {
    part: Part::Top,
    no: 0,
};

/// The profile that a text is, in the format that `docs/PROFILE.md` describes. `Bad` exactly where the text has a fault,
/// with the first one: `Long` and `Toml` of the text, then those of the top table, of each layer and of each rule in
/// turn, and of a part the first reason, in the order of `ProfileWhy`, that holds anywhere in it.
pub fn read_profile(alloc: Global, text: &[u8]) -> Result<Profile, ProfileErr>
    ensures { Gives (λ p. p) result (profile_of text.now) }
{
    match parts_of(alloc, text) {
        Ok(parts) => match Profile::of(alloc, parts) {
            Ok(profile) => Ok(profile),
            Err(_) => Err(ProfileErr::Memory),
        },
        Err(e) => Err(e),
    }
}

#[tactic(auto, unfolding(crate::specs::Profile::profile_of))]
fn parts_of(alloc: Global, text: &[u8]) -> Result<Parts, ProfileErr>
    ensures { Gives (λ p. p) result (profile_of text.now) }
{
    if text.len() > LONGEST_PROFILE {
        return Err(at_top(ProfileWhy::Long));
    }
    match text_of(text) {
        Some(text) => document_of(alloc, text),
        None => Err(at_top(ProfileWhy::Toml)),
    }
}

// The bytes as text, if they are UTF-8.
fn text_of(bytes: &[u8]) -> Option<&str>
    ensures some { IfSome result (λ t. (t.now ≡ bytes.now) × (is_utf8 bytes.now ≡ true)) }
    ensures none { IfNone result (is_utf8 bytes.now ≡ false) }
{
    match str::from_utf8(bytes) {
        Ok(text) => Some(text),
        Err(_) => None,
    }
}

fn document_of(alloc: Global, text: &str) -> Result<Parts, ProfileErr>
    ensures { Gives (λ p. p) result (parts_in (parse_document text.now)) }
{
    match toml::table_from_str(alloc, text) {
        Ok(table) => parts_in(alloc, &table),
        Err(e) => {
            if e.is_memory() {
                Err(ProfileErr::Memory)
            } else {
                Err(at_top(ProfileWhy::Toml))
            }
        }
    }
}

fn at_top(why: ProfileWhy) -> ProfileErr
    ensures { result ≡ refusals.Bad top_spot why }
{
    ProfileErr::Bad { spot: TOP, why }
}

// The profile that a table is.
fn parts_in(alloc: Global, table: &Table) -> Result<Parts, ProfileErr>
    ensures { Gives (λ p. p) result (parts_in (Some (table_view table.now))) }
{
    let top = placed(TOP, top_of(alloc, table))?;
    parts_under(alloc, top)
}

// The profile with this top.
fn parts_under(alloc: Global, top: Top<'_>) -> Result<Parts, ProfileErr>
    requires layers { vec_len top.layers ≤ 64 }
    requires rules { vec_len top.rules ≤ 1024 }
    ensures { Gives (λ p. p) result (parts_under (seen_top top.entry)) }
{
    let layers = layers_of(alloc, &top.layers)?;
    let rules = rules_of(alloc, top.zooms, &layers, &top.rules)?;
    let name = match Text::copy_of(alloc, top.name) {
        Ok(name) => name,
        Err(_) => return Err(ProfileErr::Memory),
    };
    Ok(Parts {
        name,
        min: top.zooms.0,
        max: top.zooms.1,
        layers: Seq::from_vec(layers),
        rules: Seq::from_vec(rules),
    })
}
