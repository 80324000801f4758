ghost use Rattle.batch_queue.specs.Worked.{WorkedOrder};

/// Lists of what was pushed and popped, in order and mixed.
pub fn worked_order()
    ensures { WorkedOrder }
{}
