ghost use Rattle.std.specs.Prelude.{◌≡◌, ◌<◌, ◌≤◌, length};
ghost use Rattle.profile_rules.specs.Sound.{IsSound, IsSoundSpec};
ghost use Rattle.tile_model.specs.World.{buffer_of, tolerance_at};

use profile_rules::{Profile, Spec, layers, zooms};

/// The buffer of a spec's layer.
pub fn buffer_of(profile: &Profile, spec: &Spec) -> u32
    requires sound { IsSound profile.now }
    requires spec { IsSoundSpec profile.now spec.now }
    ensures exact { result ≡ buffer_of profile.now spec.now.layer }
    ensures within { result ≤ 256 }
{
    layers(profile)[usize::from(spec.layer)].buffer
}

/// The tolerance of a layer at a zoom: its own below the profile's last zoom, and none at it.
pub fn tolerance_at(profile: &Profile, layer: u8, zoom: u8) -> u32
    requires sound { IsSound profile.now }
    requires layer { layer < length profile.now.layers }
    ensures exact { result ≡ tolerance_at profile.now layer zoom }
    ensures within { result ≤ 64 }
{
    let (_, last) = zooms(profile);
    if zoom < last {
        layers(profile)[usize::from(layer)].tolerance
    } else {
        0
    }
}
