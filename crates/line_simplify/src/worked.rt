ghost use Rattle.line_simplify.specs.Worked.{WorkedPaths};

/// Worked paths with the points that they keep.
pub fn worked_paths()
    ensures { WorkedPaths }
{}
