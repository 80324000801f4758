ghost use Rattle.std.specs.Prelude.{◌≡◌, ◌*◌, ◌^◌, ◌≤◌, ◌↔◌, IsSome, IfSome, pos, unsigned_abs};
ghost use Rattle.int_mercator.specs.Places.{IsOnEarth, lat_limit, lon_limit, world_of, x_of, y_of, grid_of};

use super::table::Table;
use tb_types::World;

/// The latitude of the poles, in nanodegrees.
pub const LAT_LIMIT: u64 = 90_000_000_000;

/// The longitude of the antimeridian, in nanodegrees.
pub const LON_LIMIT: u64 = 180_000_000_000;

// The y of the equator, half the world's height.
const EQUATOR: u32 = 1 << 31;

/// The point of the world at a latitude and a longitude, in nanodegrees. `None` comes exactly where the latitude is outside
/// -90 to 90 degrees or the longitude outside -180 to 180 degrees.
///
/// Latitudes beyond 85.0625 degrees go to the world's north and south bounds. The east and south bounds belong to the last
/// column and row, which have the coordinate 2^32 - 1.
#[tactic(auto, unfolding(crate::specs::Places::world_of))]
pub fn project(table: &Table, lat: i64, lon: i64) -> Option<World>
    ensures some { IsSome result ↔ IsOnEarth lat lon }
    ensures exact { IfSome result (λ world. world ≡ world_of lat lon) }
{
    if lat.unsigned_abs() > LAT_LIMIT || lon.unsigned_abs() > LON_LIMIT {
        return None;
    }
    Some(World {
        x: column(lon),
        y: row(table, lat),
    })
}

/// The place of a coordinate of the world, its x or its y, on the grid of a zoom, which has 4096 units a tile. It is rounded
/// to the nearest.
///
/// The zoom is at most 14. The answer is 0 to 4096 * 2^z.
pub fn grid(w: u32, z: u8) -> i32
    requires { z ≤ 14 }
    ensures exact { result ≡ pos (grid_of w z) }
    ensures within { grid_of w z ≤ 4096 * 2 ^ z }
{
    ((u64::from(w) + (1 << (19 - z))) >> (20 - z)) as i32
}

// The x of a longitude.
#[tactic(auto, unfolding(crate::specs::Places::x_of))]
fn column(lon: i64) -> u32
    requires { unsigned_abs lon ≤ lon_limit }
    ensures { result ≡ x_of lon }
{
    let east = (lon + LON_LIMIT as i64) as u128;
    ((east << 32) / (2 * u128::from(LON_LIMIT))).min(u128::from(u32::MAX)) as u32
}

// The y of a latitude.
#[tactic(auto, unfolding(crate::specs::Places::y_of))]
fn row(table: &Table, lat: i64) -> u32
    requires { unsigned_abs lat ≤ lat_limit }
    ensures { result ≡ y_of lat }
{
    let north = table.north(lat.unsigned_abs());
    if lat < 0 {
        EQUATOR.saturating_add(north)
    } else {
        EQUATOR - north
    }
}

#[cfg(test)]
mod tests {
    use super::*;
    use tb_types::Memory;

    const DEGREE: i64 = 1_000_000_000;

    // Latitudes in nanodegrees and their y in Web Mercator, rounded to units of the world, by its formula with 40 digits. The
    // last lies half-way between two knots near the table's end, where straight lines are farthest from the curve.
    const WEB_MERCATOR: [(i64, u32); 21] = [
        (-85 * DEGREE, 4287932506),
        (-80 * DEGREE, 3812816853),
        (-75 * DEGREE, 3533473370),
        (-66 * DEGREE, 3206016710),
        (-60 * DEGREE, 3047710336),
        (-51 * DEGREE, 2857108805),
        (-45 * DEGREE, 2749960027),
        (-37 * DEGREE, 2623236874),
        (-30 * DEGREE, 2522970254),
        (-23 * DEGREE, 2429565476),
        (-10 * DEGREE, 2267398654),
        (-1 * DEGREE, 2159414718),
        (5 * DEGREE, 2087755467),
        (12 * DEGREE, 2003259788),
        (23 * DEGREE, 1865401820),
        (34 * DEGREE, 1715704091),
        (48 * DEGREE, 1492992547),
        (57 * DEGREE, 1315806991),
        (70 * DEGREE, 961214104),
        (85 * DEGREE, 7034790),
        (84_992_187_500, 8103386),
    ];

    #[test]
    fn latitudes_lie_near_web_mercator(rt: HostRuntime) -> Result<(), Memory> {
        let table = Table::new(rt.alloc())?;
        for (lat, y) in WEB_MERCATOR {
            let near = project(&table, lat, 0).is_some_and(|world| world.y.abs_diff(y) <= 4096);
            assert!(rt; near, "at {lat}");
        }
        Ok(())
    }

    // Latitude, longitude and the point of the world.
    const CORNERS: [(i64, i64, Option<World>); 8] = [
        (
            90 * DEGREE,
            180 * DEGREE,
            Some(World {
                x: 4294967295,
                y: 0,
            }),
        ),
        (
            -90 * DEGREE,
            -180 * DEGREE,
            Some(World {
                x: 0,
                y: 4294967295,
            }),
        ),
        (
            0,
            0,
            Some(World {
                x: 2147483648,
                y: 2147483648,
            }),
        ),
        (
            0,
            -1,
            Some(World {
                x: 2147483647,
                y: 2147483648,
            }),
        ),
        (90_000_000_001, 0, None),
        (-90_000_000_001, 0, None),
        (0, 180_000_000_001, None),
        (0, -180_000_000_001, None),
    ];

    #[test]
    fn corners_are_the_stated_points(rt: HostRuntime) -> Result<(), Memory> {
        let table = Table::new(rt.alloc())?;
        for (lat, lon, world) in CORNERS {
            assert_eq!(rt; project(&table, lat, lon), world, "at {lat}, {lon}");
        }
        Ok(())
    }

    // Latitude, longitude, zoom, and the place on its grid.
    const GRIDS: [(i64, i64, u8, i32, i32); 3] = [
        (45 * DEGREE, 90 * DEGREE, 0, 3072, 1473),
        (90 * DEGREE, 180 * DEGREE, 0, 4096, 0),
        (-90 * DEGREE, 180 * DEGREE, 14, 67108864, 67108864),
    ];

    #[test]
    fn grids_have_4096_units_a_tile(rt: HostRuntime) -> Result<(), Memory> {
        let table = Table::new(rt.alloc())?;
        for (lat, lon, zoom, x, y) in GRIDS {
            assert!(rt; zoom <= 14);
            let place = project(&table, lat, lon).map(|world| (
                grid(world.x, zoom),
                grid(world.y, zoom),
            ));
            assert_eq!(rt; place, Some((x, y)), "at {lat}, {lon}");
        }
        Ok(())
    }
}
