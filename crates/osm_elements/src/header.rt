ghost use Rattle.std.specs.Prelude.{◌≡◌, map};
ghost use Rattle.tb_wire.specs.Field.{entry_of};
ghost use Rattle.osm_elements.specs.Reasons.{Gives};
ghost use Rattle.osm_elements.specs.Header.{header_of, box_if, box_in, is_valid, is_ordered, is_within, is_accepted, are_accepted};

use crate::common::require;
use crate::fault::BlockErr;
use crate::message::{bodies, fields, last_number, merged_fields};
use crate::numbers::{
    BOX_BOTTOM, BOX_LEFT, BOX_RIGHT, BOX_TOP, HEADER_BOX, HEADER_FEATURE, LARGEST_BOX_LAT,
    LARGEST_BOX_LON,
};
use std::alloc::Global;
use tb_types::{Bounds, Why};
use tb_wire::{Field, unzigzag};

/// The box of a raw header (osmformat.proto, HeaderBlock), or `None` exactly where no valid box stands. `Bad` exactly
/// where the header is outside the format, with the first of these that holds anywhere in it: `Wire` (no message, or a
/// field of another wire type), `Missing` (a box without one of its numbers), `Feature` (a require feature other than
/// `OsmSchema-V0.6` and `DenseNodes`).
#[tactic(auto, unfolding(crate::specs::Header::header_of))]
pub fn read_header(alloc: Global, raw: &[u8]) -> Result<Option<Bounds>, BlockErr>
    ensures { Gives (λ b. b) result (header_of raw.now) }
{
    let fields = fields(alloc, raw)?;
    let boxes = bodies(alloc, HEADER_BOX, &fields)?;
    let in_box = merged_fields(alloc, HEADER_BOX, &fields)?;
    let features = bodies(alloc, HEADER_FEATURE, &fields)?;
    let found = box_if(&boxes, &in_box)?;
    if !are_accepted(&features) {
        return Err(BlockErr::Bad(Why::Feature));
    }
    Ok(found)
}

// The box of these fields, if one stands and is valid.
fn box_if(boxes: &[&[u8]], fields: &[Field<'_>]) -> Result<Option<Bounds>, BlockErr>
    ensures { Gives (λ b. b) result (box_if (map (λ b. b.now) boxes.now) (map entry_of fields.now)) }
{
    if boxes.len() == 0 {
        return Ok(None);
    }
    let found = box_in(fields)?;
    if is_valid(found) {
        Ok(Some(found))
    } else {
        Ok(None)
    }
}

fn box_in(fields: &[Field<'_>]) -> Result<Bounds, BlockErr>
    ensures { Gives (λ b. b) result (box_in (map entry_of fields.now)) }
{
    let left = last_number(BOX_LEFT, fields)?;
    let right = last_number(BOX_RIGHT, fields)?;
    let top = last_number(BOX_TOP, fields)?;
    let bottom = last_number(BOX_BOTTOM, fields)?;
    let left = require(left)?;
    let right = require(right)?;
    let top = require(top)?;
    let bottom = require(bottom)?;
    Ok(Bounds {
        left: unzigzag(left),
        right: unzigzag(right),
        top: unzigzag(top),
        bottom: unzigzag(bottom),
    })
}

fn is_valid(b: Bounds) -> bool
    ensures { result ≡ is_valid b }
{
    is_ordered(b)
        && is_within(b.left, b.right, LARGEST_BOX_LON)
        && is_within(b.top, b.bottom, LARGEST_BOX_LAT)
}

fn is_ordered(b: Bounds) -> bool
    ensures { result ≡ is_ordered b }
{
    b.left <= b.right && b.bottom <= b.top
}

fn is_within(one: i64, other: i64, limit: u64) -> bool
    ensures { result ≡ is_within one other limit }
{
    one.unsigned_abs() <= limit && other.unsigned_abs() <= limit
}

fn are_accepted(features: &[&[u8]]) -> bool
    ensures { result ≡ are_accepted (map (λ b. b.now) features.now) }
{
    for feature in features {
        if !is_accepted(*feature) {
            return false;
        }
    }
    true
}

#[tactic(auto, unfolding(crate::specs::Header::is_accepted))]
fn is_accepted(feature: &[u8]) -> bool
    ensures { result ≡ is_accepted feature.now }
{
    feature == b"OsmSchema-V0.6".as_slice() || feature == b"DenseNodes".as_slice()
}
