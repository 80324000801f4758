ghost use Rattle.build_one.specs.Worked.{WorkedRows};

/// The worked cases that the definitions were checked on: contents of extracts, damage, a point, bounds, and the lengths of
/// archives.
pub fn worked_rows()
    ensures { WorkedRows }
{}
