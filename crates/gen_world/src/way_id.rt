ghost use Rattle.std.specs.Prelude.{◌<◌, ◌^◌};

/// The id of a way, as its name has it.
#[derive(Clone, Copy, Debug, PartialEq, Eq)]
pub struct WayId {
    pub id: u32,
    ghost short: { id < 2 ^ 32 },
}
