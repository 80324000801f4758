ghost use Rattle.std.specs.Prelude.{◌≡◌, ◌+◌, ◌*◌, ◌≤◌, ◌++◌, length, take};
ghost use Rattle.pmtiles_dirs.specs.Header.{header_text, header_of, longs_text, int_text, place_text, places_text, long_at, int_at};

/// The numbers of an archive's header behind its version, in their order (PMTiles 3, section 3). Places and lengths are in
/// bytes, places from the archive's first byte on. Longitudes and latitudes are in 10^-7 degrees.
#[derive(Clone, Copy, Debug, PartialEq, Eq)]
pub struct Header {
    pub root_at: u64,
    pub root_len: u64,
    pub meta_at: u64,
    pub meta_len: u64,
    pub leaves_at: u64,
    pub leaves_len: u64,
    pub tiles_at: u64,
    pub tiles_len: u64,
    /// The tiles that can be asked for.
    pub addressed: u64,
    /// The entries that name tiles.
    pub entries: u64,
    /// The distinct tiles.
    pub contents: u64,
    pub clustered: u8,
    pub internal_compression: u8,
    pub tile_compression: u8,
    pub tile_type: u8,
    pub min_zoom: u8,
    pub max_zoom: u8,
    pub min_lon: i32,
    pub min_lat: i32,
    pub max_lon: i32,
    pub max_lat: i32,
    pub centre_zoom: u8,
    pub centre_lon: i32,
    pub centre_lat: i32,
}

/// The bytes of a header.
pub const HEADER_LEN: usize = 127;

/// The first bytes of an archive.
pub const MAGIC: &[u8] = b"PMTiles";

/// The byte behind them: the version of the format.
pub const VERSION: u8 = 3;

/// Writes a header behind its seven letters and version 3 (PMTiles 3, section 3). It takes no memory.
#[tactic(auto, using(std::proofs::Common::append_assoc), unfolding(crate::specs::Header::header_text, crate::specs::Header::magic))]
pub fn put_header(header: &Header, out: &mut [u8; 127])
    ensures { out.new ≡ header_text header.now }
{
    let at = put_part(out, 0, MAGIC);
    let at = put_part(out, at, &[VERSION]);
    let at = put_longs(
        out,
        at,
        &[
            header.root_at,
            header.root_len,
            header.meta_at,
            header.meta_len,
            header.leaves_at,
            header.leaves_len,
            header.tiles_at,
            header.tiles_len,
            header.addressed,
            header.entries,
            header.contents,
        ],
    );
    let at = put_part(
        out,
        at,
        &[
            header.clustered,
            header.internal_compression,
            header.tile_compression,
            header.tile_type,
            header.min_zoom,
            header.max_zoom,
        ],
    );
    put_places(out, at, header);
}

// Writes both corners, and the zoom and the place of the centre, and gives the place behind them.
#[tactic(auto, using(std::proofs::Common::append_assoc), unfolding(crate::specs::Header::places_text))]
fn put_places(out: &mut [u8; 127], at: usize, header: &Header) -> usize
    requires { at + 25 ≤ 127 }
    ensures place { result ≡ at + 25 }
    ensures text { take result out.new ≡ take at out.old ++ places_text header.now }
{
    let at = put_least(out, at, header);
    let at = put_greatest(out, at, header);
    let at = put_part(out, at, &[header.centre_zoom]);
    put_centre(out, at, header)
}

fn put_least(out: &mut [u8; 127], at: usize, header: &Header) -> usize
    requires { at + 8 ≤ 127 }
    ensures place { result ≡ at + 8 }
    ensures text { take result out.new ≡ take at out.old ++ place_text header.now.min_lon header.now.min_lat }
{
    put_place(out, at, header.min_lon, header.min_lat)
}

fn put_greatest(out: &mut [u8; 127], at: usize, header: &Header) -> usize
    requires { at + 8 ≤ 127 }
    ensures place { result ≡ at + 8 }
    ensures text { take result out.new ≡ take at out.old ++ place_text header.now.max_lon header.now.max_lat }
{
    put_place(out, at, header.max_lon, header.max_lat)
}

fn put_centre(out: &mut [u8; 127], at: usize, header: &Header) -> usize
    requires { at + 8 ≤ 127 }
    ensures place { result ≡ at + 8 }
    ensures text { take result out.new ≡ take at out.old ++ place_text header.now.centre_lon header.now.centre_lat }
{
    put_place(out, at, header.centre_lon, header.centre_lat)
}

#[tactic(auto, using(std::proofs::Common::append_assoc), unfolding(crate::specs::Header::place_text))]
fn put_place(out: &mut [u8; 127], at: usize, lon: i32, lat: i32) -> usize
    requires { at + 8 ≤ 127 }
    ensures place { result ≡ at + 8 }
    ensures text { take result out.new ≡ take at out.old ++ place_text lon lat }
{
    let at = put_int(out, at, lon);
    put_int(out, at, lat)
}

// Writes a signed number of four bytes, the least byte first.
#[tactic(auto, unfolding(crate::specs::Header::int_text))]
fn put_int(out: &mut [u8; 127], at: usize, z: i32) -> usize
    requires { at + 4 ≤ 127 }
    ensures place { result ≡ at + 4 }
    ensures text { take result out.new ≡ take at out.old ++ int_text z }
{
    put_part(out, at, &z.to_le_bytes())
}

// Writes numbers of eight bytes, the least byte first.
#[tactic(auto, unfolding(crate::specs::Header::longs_text))]
fn put_longs(out: &mut [u8; 127], at: usize, numbers: &[u64]) -> usize
    requires { at + 8 * length numbers.now ≤ 127 }
    ensures place { result ≡ at + 8 * length numbers.now }
    ensures text { take result out.new ≡ take at out.old ++ longs_text numbers.now }
{
    let mut end = at;
    for number in numbers {
        end = put_part(out, end, &number.to_le_bytes());
    }
    end
}

// Writes a part at a place, and gives the place behind it.
#[tactic(auto, using(std::proofs::lemmas::Slice::overwrites))]
fn put_part(out: &mut [u8; 127], at: usize, part: &[u8]) -> usize
    requires { at + length part.now ≤ 127 }
    ensures place { result ≡ at + length part.now }
    ensures text { take result out.new ≡ take at out.old ++ part.now }
{
    let end = at + part.len();
    out[at..end].copy_from_slice(part);
    end
}

/// The numbers of a header, whatever its first eight bytes are.
#[tactic(auto, unfolding(crate::specs::Header::header_of))]
pub fn take_header(bytes: &[u8; 127]) -> Header
    ensures { result ≡ header_of bytes.now }
{
    Header {
        root_at: long_at(bytes, 8),
        root_len: long_at(bytes, 16),
        meta_at: long_at(bytes, 24),
        meta_len: long_at(bytes, 32),
        leaves_at: long_at(bytes, 40),
        leaves_len: long_at(bytes, 48),
        tiles_at: long_at(bytes, 56),
        tiles_len: long_at(bytes, 64),
        addressed: long_at(bytes, 72),
        entries: long_at(bytes, 80),
        contents: long_at(bytes, 88),
        clustered: bytes[96],
        internal_compression: bytes[97],
        tile_compression: bytes[98],
        tile_type: bytes[99],
        min_zoom: bytes[100],
        max_zoom: bytes[101],
        min_lon: int_at(bytes, 102),
        min_lat: int_at(bytes, 106),
        max_lon: int_at(bytes, 110),
        max_lat: int_at(bytes, 114),
        centre_zoom: bytes[118],
        centre_lon: int_at(bytes, 119),
        centre_lat: int_at(bytes, 123),
    }
}

// The number of eight bytes at a place.
fn long_at(bytes: &[u8; 127], at: usize) -> u64
    requires { at + 8 ≤ 127 }
    ensures { result ≡ long_at bytes.now at }
{
    let part = &bytes[at..at + 8];
    u64::from_le_bytes([
        part[0], part[1], part[2], part[3], part[4], part[5], part[6], part[7],
    ])
}

// The signed number of four bytes at a place.
fn int_at(bytes: &[u8; 127], at: usize) -> i32
    requires { at + 4 ≤ 127 }
    ensures { result ≡ int_at bytes.now at }
{
    let part = &bytes[at..at + 4];
    i32::from_le_bytes([part[0], part[1], part[2], part[3]])
}
