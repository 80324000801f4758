ghost use Rattle.feature_runs.specs.WorkedItems.{WorkedItems};

/// Worked items that the definitions were checked on: one that is written and read, and bytes that are none.
pub fn worked_items()
    ensures { WorkedItems }
{}
