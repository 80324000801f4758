ghost use Rattle.run_merge.specs.Laws.{RunsAreReadAgain, RunsBehindChangeNothing};

/// Items in order, written one behind another, are a run that a merge may begin with, and are read again as these items.
pub fn runs_are_read_again()
    ensures { RunsAreReadAgain }
{}

/// A merge may be asked again, and has the same groups left, after a call that keeps the lanes and the ended runs of the spool,
/// as when other runs are written to the spool between two groups.
pub fn runs_behind_change_nothing<R>()
    ensures { RunsBehindChangeNothing R }
{}
