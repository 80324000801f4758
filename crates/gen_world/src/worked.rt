ghost use Rattle.gen_world.specs.Worked.{WorkedNumbers, WorkedElements, WorkedBytes};

/// Worked numbers of the sequence, elements, blocks and frames that the definitions were checked on.
pub fn worked_extracts()
    ensures numbers { WorkedNumbers }
    ensures elements { WorkedElements }
    ensures bytes { WorkedBytes }
{}
