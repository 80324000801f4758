ghost use Rattle.std.specs.Prelude.{◌≡◌, ℕ, ◌+◌, ◌^◌, ◌<◌, ◌≤◌, ◌↔◌, IsSome, IfSome, Some};
ghost use Rattle.hilbert_ids.specs.Curve.{place};
ghost use Rattle.hilbert_ids.specs.Ids.{first_id_of, number_of, ids_end, last_zoom, IsTile};
ghost use Rattle.tb_types.specs.declared.tile.TileXyz.{TileXyz};

use super::quadrant::{enter, leave};
use super::zoom::{MAX_ZOOM, area, first_id};
use tb_types::{TileId, TileXyz};

/// The id of a tile (PMTiles 3, "Tile ID"): how many tiles all lower zooms have, and how many tiles of its own zoom come
/// before it on the Hilbert curve. It is below (4^27 - 1) / 3.
///
/// The zoom is at most 26; column and row are below 2^zoom and count from the upper left tile.
#[tactic(auto, unfolding(crate::specs::Ids::number_of))]
pub fn id_of(tile: TileXyz) -> TileId
    requires zoom { tile.z ≤ last_zoom }
    requires column { tile.x < 2 ^ tile.z }
    requires row { tile.y < 2 ^ tile.z }
    ensures { result.0 ≡ number_of tile }
{
    TileId(first_id(tile.z) + place_of(tile.z, tile.x, tile.y))
}

/// The tile of an id (PMTiles 3, "Tile ID"), the only one that has it. `None` comes exactly where the id is
/// (4^27 - 1) / 3 or above, which no tile up to zoom 26 has.
pub fn xyz_of(id: TileId) -> Option<TileXyz>
    ensures some { IsSome result ↔ id.0 < ids_end }
    ensures tile { IfSome result (λ tile. IsTile tile) }
    ensures number { IfSome result (λ tile. number_of tile ≡ id.0) }
    ensures only { (tile : TileXyz) → IsTile tile → number_of tile ≡ id.0 → result ≡ Some tile }
{
    for zoom in 0..=MAX_ZOOM {
        if id.0 < first_id(zoom + 1) {
            return Some(tile_at(zoom, id.0 - first_id(zoom)));
        }
    }
    None
}

// The place of a tile on the curve of its zoom: from the whole square into smaller and smaller quadrants.
fn place_of(zoom: u8, mut x: u32, mut y: u32) -> u64
    requires zoom { zoom ≤ last_zoom }
    requires column { x < 2 ^ zoom }
    requires row { y < 2 ^ zoom }
    ensures exact { result ≡ place zoom x y }
    ensures below { result < 4 ^ zoom }
{
    let mut found = 0;
    for level in (0..zoom).rev() {
        let (rank, inner_x, inner_y) = enter(level, x, y);
        found += rank * area(level);
        x = inner_x;
        y = inner_y;
    }
    found
}

// The tile at a place on the curve of a zoom: from one tile out to larger and larger squares.
fn tile_at(zoom: u8, at: u64) -> TileXyz
    requires zoom { zoom ≤ last_zoom }
    requires below { at < 4 ^ zoom }
    ensures tile { IsTile result }
    ensures number { number_of result ≡ first_id_of zoom + at }
{
    let mut rest = at;
    let mut x = 0;
    let mut y = 0;
    for level in 0..zoom {
        (x, y) = leave(level, rest % 4, x, y);
        rest /= 4;
    }
    TileXyz { z: zoom, x, y }
}

#[cfg(test)]
mod tests {
    use super::super::zoom::side;
    use super::*;

    // Zoom, column, row and id: whole zooms 0 and 1, the first and last tiles of zoom 2, and two far tiles.
    const KNOWN: [(u8, u32, u32, u64); 12] = [
        (0, 0, 0, 0),
        (1, 0, 0, 1),
        (1, 0, 1, 2),
        (1, 1, 1, 3),
        (1, 1, 0, 4),
        (2, 0, 0, 5),
        (2, 1, 0, 6),
        (2, 1, 1, 7),
        (2, 0, 1, 8),
        (2, 3, 0, 20),
        (12, 3423, 1763, 19078479),
        (26, 67108863, 0, 6004799503160660),
    ];

    #[test]
    fn known_tiles_have_their_ids(rt: HostRuntime) {
        for (z, x, y, id) in KNOWN {
            let tile = TileXyz { z, x, y };
            assert!(rt; z <= MAX_ZOOM && x < side(z) && y < side(z));
            assert_eq!(rt; id_of(tile), TileId(id), "at {z}/{x}/{y}");
            assert_eq!(rt; xyz_of(TileId(id)), Some(tile), "at id {id}");
        }
        assert_eq!(rt; xyz_of(TileId(6004799503160661)), None);
    }
}
