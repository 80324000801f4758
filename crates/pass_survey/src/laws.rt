ghost use Rattle.pass_survey.specs.Told.{FoundLaws};

/// What was found of all blocks of an extract, in order, is what the extract holds.
pub fn found_laws()
    ensures { FoundLaws }
{}
