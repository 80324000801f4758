ghost use Rattle.node_store.specs.Worked.{WorkedPlaces, WorkedWays};

/// Nodes of one id at several places, and ways likewise.
pub fn worked_places()
    ensures nodes { WorkedPlaces }
    ensures ways { WorkedWays }
{}
