//! What a lane may do.
ghost use Rattle.std.specs.Prelude.{◌≡◌};
ghost use Rattle.flow_core.specs.Events.{lane_of, in_order};

/// One action of one lane. Lanes count from 0.
#[derive(Clone, Copy, Debug, PartialEq, Eq)]
pub enum Event {
    /// Takes the next unit, or finds that none is left and is over.
    Claim { lane: u32 },
    /// Books the need of the claimed unit.
    Book { lane: u32 },
    /// Loads the booked unit.
    Load { lane: u32 },
    /// Puts the loaded unit at the queue's back.
    Push { lane: u32 },
    /// Takes the unit at the queue's front.
    Pop { lane: u32 },
    /// Puts what the popped unit gives into the stores.
    Put { lane: u32 },
    /// Emits what the unit gives, once it is put.
    Emit { lane: u32 },
    /// Gives the unit's need back: it is done.
    Give { lane: u32 },
}

/// The event isn't possible now.
#[derive(Clone, Copy, Debug, PartialEq, Eq)]
pub struct NotNow;

impl Event {
    /// The lane that acts.
    pub fn lane(self) -> u32
        ensures { result ≡ lane_of self }
    {
        match self {
            Event::Claim { lane } => lane,
            Event::Book { lane } => lane,
            Event::Load { lane } => lane,
            Event::Push { lane } => lane,
            Event::Pop { lane } => lane,
            Event::Put { lane } => lane,
            Event::Emit { lane } => lane,
            Event::Give { lane } => lane,
        }
    }

    /// A lane's events in the order in which it prefers them: what frees memory first, and new work last.
    pub fn in_order(lane: u32) -> [Event; 8]
        ensures { result ≡ in_order lane }
    {
        [
            Event::Give { lane },
            Event::Emit { lane },
            Event::Load { lane },
            Event::Push { lane },
            Event::Put { lane },
            Event::Book { lane },
            Event::Claim { lane },
            Event::Pop { lane },
        ]
    }
}
