ghost use Rattle.std.specs.Prelude.{◌≡◌, ◌<◌, ◌^◌, IfSome};
ghost use Rattle.pmtiles_dirs.specs.Bounds.{CanBeWritten};
ghost use Rattle.pmtiles_dirs.specs.Archive.{map_header, length_of};

use crate::bounds::bounds_of;
use crate::header::{HEADER_LEN, Header};
use crate::meta::Meta;

/// The lengths in bytes of an archive's sections behind the header, and the counts of its tiles, of its entries that name
/// tiles and of its distinct contents.
#[derive(Clone, Copy, Debug, PartialEq, Eq)]
pub struct Sizes {
    pub root_len: u64,
    pub meta_len: u64,
    pub leaves_len: u64,
    pub tiles_len: u64,
    pub tile_count: u64,
    pub entry_count: u64,
    pub content_count: u64,
}

/// The header of a map's archive: one section stands behind another, and nothing is compressed. Its bounds and their
/// middle are rounded down to 10^-7 degrees.
pub fn map_header(meta: &Meta, sizes: Sizes) -> Header
    requires bounds { IfSome meta.now.bounds CanBeWritten }
    requires fits { length_of sizes < 2 ^ 64 }
    ensures { result ≡ map_header meta.now sizes }
{
    let bounds = bounds_of(meta.bounds);
    let meta_at = HEADER_LEN as u64 + sizes.root_len;
    let leaves_at = meta_at + sizes.meta_len;
    Header {
        root_at: HEADER_LEN as u64,
        root_len: sizes.root_len,
        meta_at,
        meta_len: sizes.meta_len,
        leaves_at,
        leaves_len: sizes.leaves_len,
        tiles_at: leaves_at + sizes.leaves_len,
        tiles_len: sizes.tiles_len,
        addressed: sizes.tile_count,
        entries: sizes.entry_count,
        contents: sizes.content_count,
        clustered: 1,
        internal_compression: 1,
        tile_compression: 1,
        tile_type: 1,
        min_zoom: meta.min,
        max_zoom: meta.max,
        min_lon: bounds.west(),
        min_lat: bounds.south(),
        max_lon: bounds.east(),
        max_lat: bounds.north(),
        centre_zoom: meta.min,
        centre_lon: bounds.centre_lon(),
        centre_lat: bounds.centre_lat(),
    }
}
