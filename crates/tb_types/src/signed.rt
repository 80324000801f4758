ghost use Rattle.std.specs.Prelude.{◌≡◌};
ghost use Rattle.tb_types.specs.Zigzag.{zigzag_of, unzigzag_of};

/// A signed number as an unsigned one that is small where the signed one is near 0: 0, -1, 1, -2 are 0, 1, 2, 3
/// (Protocol Buffers, "Signed Integers").
pub fn zigzag(v: i64) -> u64
    ensures { result ≡ zigzag_of v }
{
    if v < 0 {
        2 * (-(v + 1)) as u64 + 1
    } else {
        2 * v as u64
    }
}

/// The signed number of an unsigned one, as `zigzag` makes it.
pub fn unzigzag(v: u64) -> i64
    ensures { result ≡ unzigzag_of v }
{
    let half = (v / 2) as i64;
    if v % 2 == 0 { half } else { -half - 1 }
}
