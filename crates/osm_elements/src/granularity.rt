ghost use Rattle.std.specs.Prelude.{◌≡◌, pos, ◌+ℤ◌, ◌*ℤ◌, unwrap_or, nat_abs, ◌≤◌, ◌^◌};
ghost use Rattle.std.specs.Option.{option_map};
ghost use Rattle.osm_elements.specs.Signed.{signed_64};
ghost use Rattle.osm_elements.specs.Granularity.{place, place_if};
ghost use Rattle.osm_elements.specs.Heads.{granularity_from};

use crate::numbers::{LARGEST_LAT, LARGEST_LON, USUAL_UNIT};
use crate::signed::{signed_32, signed_64};
use tb_types::LatLon;

/// The unit and the origin of a block's locations, in nanodegrees.
#[derive(Clone, Copy, Debug, PartialEq, Eq)]
pub(crate) struct Granularity {
    pub unit: i64,
    pub lat: i64,
    pub lon: i64,
}

/// The granularity of a block, from the last of each of its numbers.
pub(crate) fn granularity_from(unit: Option<u64>, lat: Option<u64>, lon: Option<u64>) -> Granularity
    ensures { result ≡ granularity_from unit lat lon }
{
    Granularity {
        unit: match unit {
            Some(n) => signed_32(n),
            None => USUAL_UNIT,
        },
        lat: offset(lat),
        lon: offset(lon),
    }
}

fn offset(n: Option<u64>) -> i64
    ensures { result ≡ unwrap_or (option_map signed_64 n) (pos 0) }
{
    match n {
        Some(n) => signed_64(n),
        None => 0,
    }
}

impl Granularity {
    /// The location of these numbers of units, if it is within 90 and 180 degrees.
    pub fn place(self, lat: i64, lon: i64) -> Option<LatLon>
        ensures { result ≡ place self lat lon }
    {
        let lat = coordinate(self.lat, self.unit, lat);
        let lon = coordinate(self.lon, self.unit, lon);
        place_if(lat, lon)
    }
}

// So many units from an origin, exactly.
fn coordinate(origin: i64, unit: i64, units: i64) -> i128
    ensures { result ≡ origin +ℤ unit *ℤ units }
{
    i128::from(origin) + product(unit, units)
}

fn product(unit: i64, units: i64) -> i128
    ensures value { result ≡ unit *ℤ units }
    ensures small { nat_abs result ≤ 2 ^ 126 }
{
    i128::from(unit) * i128::from(units)
}

fn place_if(lat: i128, lon: i128) -> Option<LatLon>
    ensures { result ≡ place_if lat lon }
{
    if lat.unsigned_abs() <= LARGEST_LAT && lon.unsigned_abs() <= LARGEST_LON {
        Some(LatLon {
            lat: lat as i64,
            lon: lon as i64,
        })
    } else {
        None
    }
}
