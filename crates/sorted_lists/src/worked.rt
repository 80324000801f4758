ghost use Rattle.sorted_lists.specs.Worked.{WorkedLists};

/// Lists that are sorted, grouped and merged by hand.
pub fn worked_lists()
    ensures { WorkedLists }
{}
