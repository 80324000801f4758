//! What holds of every order of steps.
ghost use Rattle.pass_order.specs.Laws.{EveryDrawnPassEnds, EveryOrderIsWhole, EveryScheduleIsWhole};

/// However lanes take their turns: where they come to the end, each unit was loaded, put and emitted once, and in this order.
pub fn every_schedule_is_whole()
    ensures { EveryScheduleIsWhole }
{}

/// The steps of a pass, in the order of the file or in any drawn order: each unit is loaded, put and emitted once, and in this order.
pub fn every_order_is_whole()
    ensures { EveryOrderIsWhole }
{}

/// A pass of drawn lanes comes to its end after 8 events for each unit and 1 for each lane, whatever is drawn.
pub fn every_drawn_pass_ends()
    ensures { EveryDrawnPassEnds }
{}
