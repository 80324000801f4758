ghost use Rattle.std.specs.Prelude.{◌≡◌, ◌+◌, ◌^◌, ◌<◌, ◌≤◌};
ghost use Rattle.hilbert_ids.specs.Ids.{first_id_of, last_zoom};

/// The greatest zoom whose tiles have ids here.
pub const MAX_ZOOM: u8 = 26;

// How many tiles a zoom has in a row.
pub fn side(zoom: u8) -> u32
    requires { zoom ≤ last_zoom }
    ensures exact { result ≡ 2 ^ zoom }
    ensures small { result ≤ 2 ^ 26 }
{
    1 << zoom
}

// How many tiles a zoom has in all.
pub fn area(zoom: u8) -> u64
    requires { zoom ≤ last_zoom + 1 }
    ensures exact { result ≡ 4 ^ zoom }
    ensures positive { 0 < result }
    ensures small { result ≤ 4 ^ 27 }
{
    1 << (2 * u32::from(zoom))
}

// The first id of a zoom.
pub fn first_id(zoom: u8) -> u64
    requires { zoom ≤ last_zoom + 1 }
    ensures exact { result ≡ first_id_of zoom }
    ensures small { result ≤ 4 ^ 27 }
{
    (area(zoom) - 1) / 3
}
