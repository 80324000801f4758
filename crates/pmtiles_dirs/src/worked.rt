ghost use Rattle.pmtiles_dirs.specs.Worked.{WorkedArchives};

/// Worked directories, metadata and archives, also with leaves, and what is refused.
pub fn worked_archives()
    ensures { WorkedArchives }
{}
