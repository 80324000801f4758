ghost use Rattle.tb_types.specs.Laws.{AreaStartsAnywhere, AreaTurns};
ghost use Rattle.tb_types.specs.Worked.{WorkedPoints};

/// Worked paths, rings and signed numbers.
pub fn worked_points()
    ensures { WorkedPoints }
{}

/// The doubled area of a ring doesn't rest on where it starts, and turns its sign where the ring is reversed.
pub fn ring_laws()
    ensures start { AreaStartsAnywhere }
    ensures turn { AreaTurns }
{}
