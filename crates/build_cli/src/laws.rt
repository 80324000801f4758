ghost use Rattle.build_cli.specs.Answers.{DoneMeansWritten, OnlyWordsAreNotUnderstood};
ghost use Rattle.build_cli.specs.Generated.{DoneMeansGenerated, GeneratingIsComplete};
ghost use Rattle.build_cli.specs.Looks.{DoneMeansShown, LooksAreComplete};
ghost use Rattle.build_cli.specs.Worked.{WorkedWords};

/// Status 0 means that the archive that is due for the command was written.
pub fn done_means_written()
    ensures { DoneMeansWritten }
{}

/// Status 2 comes exactly where the words are no command.
pub fn only_words_are_not_understood()
    ensures { OnlyWordsAreNotUnderstood }
{}

/// Status 0 of `check` and `show` means that the archive has no fault, that the console has just its text more, and that no count
/// of faults rose.
pub fn done_means_shown()
    ensures { DoneMeansShown }
{}

/// Where no count of faults rose, `check` and `show` answer 11 exactly where the archive has a fault, else 0, or want of memory.
pub fn looks_are_complete()
    ensures { LooksAreComplete }
{}

/// Status 0 of `gen` means that the archive's sink has just the extract more, that the console has just its line more, and that no
/// count of faults rose.
pub fn done_means_generated()
    ensures { DoneMeansGenerated }
{}

/// Where neither the count of the archive's sink rose nor the console's, `gen` answers 0, or want of memory.
pub fn generating_is_complete()
    ensures { GeneratingIsComplete }
{}

/// Worked words of `build` with its budget, `check`, `show` and `gen`.
pub fn worked_words()
    ensures { WorkedWords }
{}
