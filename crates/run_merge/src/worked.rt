ghost use Rattle.run_merge.specs.Worked.{WorkedRuns};

/// Runs that are read and merged by hand.
pub fn worked_runs()
    ensures { WorkedRuns }
{}
