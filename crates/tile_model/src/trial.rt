ghost use Rattle.std.specs.Prelude.{◌≡◌};
ghost use Rattle.tile_model.specs.Trial.{trial_text};

/// The text of the profile of trials: amenities as points, highways as lines, buildings and land use as areas, at zooms 10 to 12.
#[tactic(auto, unfolding(crate::specs::Trial::trial_text))]
pub fn trial_text() -> &'static [u8]
    ensures { result.now ≡ trial_text }
{
    b"format = 1\nname = 'trial'\nminzoom = 10\nmaxzoom = 12\nlayer = [{ id = 'points' }, { id = 'lines' }, { id = 'areas' }]\n[[rule]]\nlayer = 'points'\nkind = 'point'\nwhen = ['amenity']\nattributes = [{ key = 'amenity' }]\n[[rule]]\nlayer = 'lines'\nkind = 'line'\nwhen = ['highway']\nattributes = [{ key = 'highway' }, { key = 'name' }]\n[[rule]]\nlayer = 'areas'\nkind = 'area'\nwhen = ['building']\nattributes = [{ name = 'class', value = 'building' }]\n[[rule]]\nlayer = 'areas'\nkind = 'area'\nwhen = ['landuse']\nattributes = [{ key = 'landuse' }]\n"
}
