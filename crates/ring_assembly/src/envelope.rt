ghost use Rattle.std.specs.Prelude.{◌≡◌, ◌∷◌};
ghost use Rattle.ring_assembly.specs.Envelopes.{in_box, IsAround};

use tb_types::World;

/// A box: its least and its greatest x and y.
#[derive(Clone, Copy, Debug, Drop)]
pub struct Envelope {
    pub low: World,
    pub high: World,
}

// The box of a point and the points of a path behind it.
pub fn envelope_from(from: World, path: &[World]) -> Envelope
    ensures { IsAround result (from ∷ path.now) }
{
    let mut low = from;
    let mut high = from;
    for p in path {
        low = World {
            x: low.x.min(p.x),
            y: low.y.min(p.y),
        };
        high = World {
            x: high.x.max(p.x),
            y: high.y.max(p.y),
        };
    }
    Envelope { low, high }
}

// Whether a point lies within a box, bounds and all.
pub fn has(envelope: Envelope, p: World) -> bool
    ensures { result ≡ in_box envelope p }
{
    envelope.low.x <= p.x
        && p.x <= envelope.high.x
        && envelope.low.y <= p.y
        && p.y <= envelope.high.y
}
