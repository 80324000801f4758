ghost use Rattle.claim_desk.specs.Worked.{WorkedSeats};

/// What a seat has seen, and lists of numbers that were drawn.
pub fn worked_seats()
    ensures { WorkedSeats }
{}
