ghost use Rattle.pmtiles_file.specs.Writing.{RunsBehindChangeNothing};

/// Runs that others add to the spool change nothing of what a writer wrote.
pub fn runs_behind_change_nothing()
    ensures { RunsBehindChangeNothing }
{}
