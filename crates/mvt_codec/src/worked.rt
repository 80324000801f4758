ghost use Rattle.mvt_codec.specs.Worked.{WorkedTiles};
ghost use Rattle.mvt_codec.specs.WorkedKeys.{WorkedKeys};
ghost use Rattle.mvt_codec.specs.WorkedReads.{WorkedReads};

/// The worked cases that the definitions were checked on: a point with an attribute, a line without, and the orders of keys and values.
pub fn worked_tiles()
    ensures { WorkedTiles }
{}

/// Worked tiles that are read, and bytes that are none.
pub fn worked_reads()
    ensures { WorkedReads }
{}

/// Worked keys in order, one of them as a number, and items in their layers.
pub fn worked_keys()
    ensures { WorkedKeys }
{}
