ghost use Rattle.std.specs.Prelude.{◌≡◌, ◌<◌, IfOk, length, map};
ghost use Rattle.profile_rules.specs.Fields.{layers_of};
ghost use Rattle.profile_rules.specs.Sound.{IsSound};
ghost use Rattle.tile_model.specs.Map.{layer_names, meta_layer, meta_layers, meta_of};

use pmtiles_dirs::{Meta, MetaLayer};
use profile_rules::{LayerInfo, Profile, fields, layers, name, zooms};
use std::alloc::Global;
use tb_types::{Bounds, Memory, Seq, Text};

/// What an archive says of a profile's map: its name, its layers with the fields of their rules, its zooms, and the box of
/// the extract, if that has one.
pub fn meta_of(alloc: Global, profile: &Profile, bounds: Option<Bounds>) -> Result<Meta, Memory>
    ensures { IfOk result (λ meta. meta ≡ meta_of profile.now bounds) }
{
    let name = Text::copy_of(alloc, name(profile))?;
    let layers = meta_layers(alloc, profile)?;
    let (min, max) = zooms(profile);
    Ok(Meta {
        name,
        layers: Seq::from_vec(layers),
        min,
        max,
        bounds,
    })
}

/// The names of a profile's layers.
pub fn layer_names(alloc: Global, profile: &Profile) -> Result<Vec<Text>, Memory>
    ensures { IfOk result (λ names. names.items ≡ layer_names profile.now) }
{
    names_of(alloc, layers(profile))
}

fn names_of(alloc: Global, infos: &[LayerInfo]) -> Result<Vec<Text>, Memory>
    ensures { IfOk result (λ names. names.items ≡ map (λ info. info.id) infos.now) }
{
    let mut names = Vec::with_capacity(alloc, infos.len())?;
    for info in infos {
        names.push(Text::copy_of(alloc, info.id.as_str())?)?;
    }
    Ok(names)
}

fn meta_layers(alloc: Global, profile: &Profile) -> Result<Vec<MetaLayer>, Memory>
    ensures { IfOk result (λ v. v.items ≡ meta_layers profile.now) }
{
    let infos = layers(profile);
    let mut found = Vec::with_capacity(alloc, infos.len())?;
    for i in 0..infos.len() {
        found.push(meta_layer(alloc, profile, i as u8, &infos[i])?)?;
    }
    Ok(found)
}

fn meta_layer(
    alloc: Global,
    profile: &Profile,
    number: u8,
    info: &LayerInfo,
) -> Result<MetaLayer, Memory>
    requires { number < length (layers_of profile.now) }
    ensures { IfOk result (λ layer. layer ≡ meta_layer profile.now (number, info.now)) }
{
    let id = Text::copy_of(alloc, info.id.as_str())?;
    let fields = fields(alloc, profile, number)?;
    Ok(MetaLayer { id, fields })
}
