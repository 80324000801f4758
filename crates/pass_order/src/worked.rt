//! Worked cases of the definitions.
ghost use Rattle.pass_order.specs.Worked.{WorkedRefusals, WorkedTurns};

/// Two and no units in both orders, and lists of steps that are no whole pass.
pub fn worked_orders()
    ensures turns { WorkedTurns }
    ensures refusals { WorkedRefusals }
{}
