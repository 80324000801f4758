ghost use Rattle.shard_store.specs.Worked.{WorkedJoins};

/// Joins and maps of a few entries.
pub fn worked_joins()
    ensures { WorkedJoins }
{}
