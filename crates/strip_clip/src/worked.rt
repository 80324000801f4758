ghost use Rattle.strip_clip.specs.Worked.{WorkedCuts};

/// Worked lines and shapes with their cuts.
pub fn worked_cuts()
    ensures { WorkedCuts }
{}
