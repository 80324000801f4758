ghost use Rattle.std.specs.Prelude.{◌≡◌, ℕ, Some, IfOk, IfSome};
ghost use Rattle.mvt_codec.specs.declared.item.RunItem.{RunItem};
ghost use Rattle.feature_runs.specs.ItemReading.{Gives, key_at, item_at, row_of, attribute_at, attributes_at, order_of, kind_of, parts_at};
ghost use Rattle.mvt_codec.specs.Items.{IsItem, Fits, StandsAt};

use crate::read_parts::{
    read_byte, read_ints, read_name, read_short, read_sized, read_text, read_u16, read_u32,
    read_u64, split,
};
use crate::refused::Refused;
use crate::value_reader::read_value;
use mvt_codec::{ItemKey, RunItem, TileRow};
use mvt_geom::{UNKNOWN, has_form};
use std::alloc::Global;
use tb_types::{Attr, Kind, Memory, Place, Seq};

/// The first number that is no tile up to zoom 26 (PMTiles 3, "Tile ID").
const TILES_END: u64 = 6_004_799_503_160_661;

/// The greatest number of a layer.
const LAST_LAYER: u8 = 63;

/// The item that begins at the place `at`, and the place after it, or `None` exactly where no item begins there: the bytes end
/// inside it, a varint is longer than it needs to be, or a number, a text or a geometry isn't one that an item may have.
pub fn read_item(alloc: Global, bytes: &[u8], at: usize) -> Result<Option<(RunItem, usize)>, Memory>
    ensures found { IfOk result (λ r. IfSome r (λ x. StandsAt bytes.now at x.0 x.1 × IsItem x.0 × Fits x.0)) }
    ensures only { IfOk result (λ r. (item : RunItem) (next : ℕ) → IsItem item → Fits item → StandsAt bytes.now at item next → r ≡ Some (item, next)) }
{
    if at > bytes.len() {
        return Ok(None);
    }
    let (_front, rest) = bytes.split_at(at);
    match item_of(alloc, rest) {
        Ok((item, rest)) => Ok(Some((item, bytes.len().saturating_sub(rest.len())))),
        Err(Refused::NoItem) => Ok(None),
        Err(Refused::Memory) => Err(Memory),
    }
}

/// The item at the front of the bytes, and the bytes behind it.
#[tactic(auto, unfolding(crate::specs::ItemReading::item_at))]
pub fn item_of(alloc: Global, bytes: &[u8]) -> Result<(RunItem, &[u8]), Refused>
    ensures { Gives (λ x. (x.0, x.1.now)) result (item_at bytes.now) }
{
    let (key, rest) = read_key(bytes)?;
    let (len, rest) = read_u64(rest)?;
    let (text, rest) = split(rest, len)?;
    let row = read_row(alloc, text)?;
    Ok((RunItem { key, row }, rest))
}

#[tactic(auto, unfolding(crate::specs::ItemReading::key_at))]
pub fn read_key(bytes: &[u8]) -> Result<(ItemKey, &[u8]), Refused>
    ensures { Gives (λ x. (x.0, x.1.now)) result (key_at bytes.now) }
{
    let (tile, rest) = read_u64(bytes)?;
    let (layer, rest) = read_byte(rest)?;
    let (order, rest) = read_u16(rest)?;
    let (kind, rest) = read_byte(rest)?;
    let kind = kind_from_number(kind)?;
    let (block, rest) = read_u32(rest)?;
    let (index, rest) = read_u32(rest)?;
    let (rule, rest) = read_u16(rest)?;
    if tile >= TILES_END || layer > LAST_LAYER {
        return Err(Refused::NoItem);
    }
    let place = Place { block, index };
    let order = order_from_number(order);
    let key = ItemKey {
        tile,
        layer,
        order,
        kind,
        place,
        rule,
    };
    Ok((key, rest))
}

fn order_from_number(n: u16) -> i16
    ensures { result ≡ order_of n }
{
    (i32::from(n) - 32768) as i16
}

fn kind_from_number(n: u8) -> Result<Kind, Refused>
    ensures { Gives (λ kind. kind) result (kind_of n) }
{
    match n {
        0 => Ok(Kind::Node),
        1 => Ok(Kind::Way),
        2 => Ok(Kind::Relation),
        _ => Err(Refused::NoItem),
    }
}

// The row that is all of the bytes.
#[tactic(auto, unfolding(crate::specs::ItemReading::row_of))]
fn read_row(alloc: Global, bytes: &[u8]) -> Result<TileRow, Refused>
    ensures { Gives (λ row. row) result (row_of bytes.now) }
{
    let (id, rest) = read_short(bytes)?;
    let (form, rest) = read_byte(rest)?;
    let (ints, rest) = read_ints(alloc, rest)?;
    let (attributes, rest) = read_attributes(alloc, rest)?;
    if !rest.is_empty() || form == UNKNOWN || !has_form(form, ints.as_slice()) {
        return Err(Refused::NoItem);
    }
    Ok(TileRow {
        id,
        form,
        ints,
        attributes,
    })
}

#[tactic(auto, unfolding(crate::specs::ItemReading::attributes_at))]
fn read_attributes(alloc: Global, bytes: &[u8]) -> Result<(Seq<Attr>, &[u8]), Refused>
    ensures { Gives (λ x. (x.0, x.1.now)) result (attributes_at bytes.now) }
{
    let (count, rest) = read_short(bytes)?;
    let (attributes, rest) = attributes_of(alloc, count, rest)?;
    Ok((Seq::from_vec(attributes), rest))
}

fn attributes_of(alloc: Global, count: u64, bytes: &[u8]) -> Result<(Vec<Attr>, &[u8]), Refused>
    ensures { Gives (λ x. (x.0.items, x.1.now)) result (parts_at attribute_at count bytes.now) }
{
    let mut attributes = Vec::new(alloc);
    let mut rest = bytes;
    for _ in 0..count {
        let (attribute, after) = read_attribute(alloc, rest)?;
        attributes.push(attribute)?;
        rest = after;
    }
    Ok((attributes, rest))
}

#[tactic(auto, unfolding(crate::specs::ItemReading::attribute_at))]
fn read_attribute(alloc: Global, bytes: &[u8]) -> Result<(Attr, &[u8]), Refused>
    ensures { Gives (λ x. (x.0, x.1.now)) result (attribute_at bytes.now) }
{
    let (name, rest) = read_name(alloc, bytes)?;
    let (text, rest) = read_sized(rest)?;
    let value = read_value(alloc, text)?;
    Ok((Attr { name, value }, rest))
}
