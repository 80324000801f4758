ghost use Rattle.flow_core.specs.Worked.{WorkedHands, WorkedRow};

/// A worked row of events, and what a lane may do by what it has in hand.
pub fn worked_events()
    ensures row { WorkedRow }
    ensures hands { WorkedHands }
{}
