ghost use Rattle.tile_model.specs.Worked.{WorkedPoints, WorkedTiles};
ghost use Rattle.tile_model.specs.WorkedNeeds.{WorkedNeeds};
ghost use Rattle.tile_model.specs.WorkedRelations.{WorkedRelations};
ghost use Rattle.tile_model.specs.WorkedWays.{WorkedWays};

/// Points on corners, on bounds and on the world's far edge, the tiles of seven features, shapes of ways and of relations, and
/// needs of memory, by hand.
pub fn worked_tiles()
    ensures points { WorkedPoints }
    ensures tiles { WorkedTiles }
    ensures ways { WorkedWays }
    ensures relations { WorkedRelations }
    ensures needs { WorkedNeeds }
{}
