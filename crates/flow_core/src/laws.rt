//! What holds of every list of events.
ghost use Rattle.flow_core.specs.Laws.{EveryScheduleEnds, KeptByLane, SettledMeansDone};

/// From the start on, for every list of events: at most 8 for each unit and 1 for each lane are possible; until all is
/// settled some lane has an event; and where it is settled each unit was done once and nothing is booked.
pub fn every_schedule_ends()
    ensures { EveryScheduleEnds }
{}

/// Where units are settled, all that was done is each unit once.
pub fn settled_means_done()
    ensures { SettledMeansDone }
{}

/// What every machine keeps, read lane by lane.
pub fn kept_by_lane()
    ensures { KeptByLane }
{}
