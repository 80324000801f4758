ghost use Rattle.tile_clip.specs.Worked.{WorkedPieces};

/// A worked line and area, whose pieces are known.
pub fn worked_pieces()
    ensures { WorkedPieces }
{}
