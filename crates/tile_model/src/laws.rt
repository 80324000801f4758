ghost use Rattle.tile_model.specs.BuildLaws.{BuildLaws};
ghost use Rattle.tile_model.specs.ExtractLaws.{ExtractLaws};
ghost use Rattle.tile_model.specs.PointLaws.{PointLaws};
ghost use Rattle.tile_model.specs.TileLaws.{DifferLaws, TileLaws};

/// The laws of walks over tiles, for features, tiles and items of any type.
pub fn tile_laws<F, T, X>()
    ensures { TileLaws F T X }
{}

/// The law that keys of different items differ, for features, tiles, items, keys and names of any type.
pub fn differ_laws<F, T, X, K, N>()
    ensures { DifferLaws F T X K N }
{}

/// The laws of a build: its items, emitted feature after feature, sorted by key and grouped by tile, are its tiles.
pub fn build_laws()
    ensures { BuildLaws }
{}

/// The laws of points: the tiles that `reach_of_point` tells are those in which a point's feature has a row.
pub fn point_laws()
    ensures { PointLaws }
{}

/// The laws of the features of an extract: no two of them have one kind, place and rule, and their zooms are the profile's.
pub fn extract_laws()
    ensures { ExtractLaws }
{}
