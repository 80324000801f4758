ghost use Rattle.std.specs.Prelude.{◌≡◌, ◌+◌, ◌≤◌, IfOk, OnOk};
ghost use Rattle.pmtiles_dirs.specs.Fault.{checked_header, sections_within, section_within, fault};
ghost use Rattle.pmtiles_read.specs.Answers.{IsWithin};

use pmtiles_dirs::{ArcFault, ArcWhy, Header, MAGIC, VERSION, take_header};

/// Nothing is compressed, and tiles are vector tiles.
const NOT_COMPRESSED: u8 = 1;

const VECTOR_TILES: u8 = 1;

/// The header of an archive of so many bytes, or its first fault (PMTiles 3, section 3).
#[tactic(auto, unfolding(pmtiles_dirs::specs::Fault::checked_header, pmtiles_dirs::specs::Header::magic))]
pub fn checked_header(bytes: &[u8; 127], size: u64) -> Result<Header, ArcFault>
    ensures exact { result ≡ checked_header bytes.now size }
    ensures within { IfOk result (λ h. IsWithin h size) }
{
    if &bytes[..7] != MAGIC {
        return Err(fault(0, ArcWhy::Magic));
    }
    if bytes[7] != VERSION {
        return Err(fault(7, ArcWhy::Version));
    }
    if bytes[97] != NOT_COMPRESSED {
        return Err(fault(97, ArcWhy::Compressed));
    }
    if bytes[98] != NOT_COMPRESSED {
        return Err(fault(98, ArcWhy::Compressed));
    }
    if bytes[99] != VECTOR_TILES {
        return Err(fault(99, ArcWhy::TileType));
    }
    let h = take_header(bytes);
    sections_within(size, &h)?;
    Ok(h)
}

// The four sections end within the archive; else the fault is at the place of the first's offset that doesn't.
#[tactic(auto, unfolding(pmtiles_dirs::specs::Fault::sections_within))]
fn sections_within(size: u64, h: &Header) -> Result<u64, ArcFault>
    ensures exact { result ≡ sections_within size h.now }
    ensures within { OnOk result (IsWithin h.now size) }
{
    section_within(size, 8, h.root_at, h.root_len)?;
    section_within(size, 24, h.meta_at, h.meta_len)?;
    section_within(size, 40, h.leaves_at, h.leaves_len)?;
    section_within(size, 56, h.tiles_at, h.tiles_len)
}

fn section_within(size: u64, place: u64, at: u64, len: u64) -> Result<u64, ArcFault>
    ensures exact { result ≡ section_within size place at len }
    ensures within { OnOk result (at + len ≤ size) }
{
    if u128::from(at) + u128::from(len) <= u128::from(size) {
        Ok(0)
    } else {
        Err(fault(place, ArcWhy::Section))
    }
}

/// A fault at a place.
pub fn fault(place: u64, why: ArcWhy) -> ArcFault
    ensures { result ≡ fault place why }
{
    ArcFault { place, why }
}
