ghost use Rattle.std.specs.Prelude.{◌≡◌, ◌+◌, ◌^◌, ◌<◌, ◌≤◌, ◌∷◌, [], ◌++◌, length, flat_map, OnOk};
ghost use Rattle.std.specs.Int.{w16, w32, w64};
ghost use Rattle.std.specs.List.{AllByRecursion};
ghost use Rattle.tb_wire.specs.Varint.{encoding};
ghost use Rattle.mvt_codec.specs.Items.{fixed, key_text, item_text, row_text, attribute_text, IsItem, IsNamed};
ghost use Rattle.mvt_codec.specs.Value.{value_text, IsWritable};

use crate::lengths::{row_len, value_len};
use mvt_codec::{ItemKey, RunItem, TileRow, kind_as_number, order_as_number, put_value};
use tb_types::{Attr, Memory};
use tb_wire::put_varint;

/// Appends an item: 22 bytes of its key, eight of the length of its row, and its row. Numbers of the key and the length have
/// their highest byte first, so that the first 22 bytes of items are ordered as their keys are; an order counts from -32768.
/// The row is a varint id, a byte for its type, and its integers and attributes, each behind a varint of their number. An
/// attribute is its name and the text of its value, each behind a varint of its length. Varints are in their shortest form.
///
/// `Memory` where memory is wanted; then `out` may have a front of the item more.
#[tactic(auto, using(std::proofs::Common::append_assoc, mvt_codec::proofs::ItemLengths::item_len), unfolding(mvt_codec::specs::Items::item_text))]
pub fn put_item(out: &mut Vec<u8>, item: &RunItem) -> Result<(), Memory>
    requires { IsItem item.now }
    ensures { OnOk result (out.new.items ≡ out.old.items ++ item_text item.now) }
{
    put_key(out, &item.key)?;
    put_u64(out, row_len(&item.row))?;
    put_row(out, &item.row)
}

#[tactic(auto, using(std::proofs::Common::append_assoc), unfolding(mvt_codec::specs::Items::key_text))]
fn put_key(out: &mut Vec<u8>, key: &ItemKey) -> Result<(), Memory>
    ensures { OnOk result (out.new.items ≡ out.old.items ++ key_text key.now) }
{
    put_u64(out, key.tile)?;
    put_byte(out, key.layer)?;
    put_u16(out, order_as_number(key.order))?;
    put_byte(out, kind_as_number(key.kind))?;
    put_u32(out, key.place.block)?;
    put_u32(out, key.place.index)?;
    put_u16(out, key.rule)
}

fn put_byte(out: &mut Vec<u8>, byte: u8) -> Result<(), Memory>
    ensures { OnOk result (out.new.items ≡ out.old.items ++ byte ∷ []) }
{
    out.push(byte)?;
    Ok(())
}

#[tactic(auto, unfolding(mvt_codec::specs::Items::fixed))]
fn put_u16(out: &mut Vec<u8>, n: u16) -> Result<(), Memory>
    ensures { OnOk result (out.new.items ≡ out.old.items ++ fixed w16 n) }
{
    out.extend_from_slice(&n.to_be_bytes())?;
    Ok(())
}

#[tactic(auto, unfolding(mvt_codec::specs::Items::fixed))]
fn put_u32(out: &mut Vec<u8>, n: u32) -> Result<(), Memory>
    ensures { OnOk result (out.new.items ≡ out.old.items ++ fixed w32 n) }
{
    out.extend_from_slice(&n.to_be_bytes())?;
    Ok(())
}

#[tactic(auto, unfolding(mvt_codec::specs::Items::fixed))]
fn put_u64(out: &mut Vec<u8>, n: u64) -> Result<(), Memory>
    ensures { OnOk result (out.new.items ≡ out.old.items ++ fixed w64 n) }
{
    out.extend_from_slice(&n.to_be_bytes())?;
    Ok(())
}

#[tactic(auto, using(std::proofs::Common::append_assoc, mvt_codec::proofs::ItemLengths::row_len), unfolding(mvt_codec::specs::Items::row_text))]
fn put_row(out: &mut Vec<u8>, row: &TileRow) -> Result<(), Memory>
    requires all { AllByRecursion IsNamed row.now.attributes }
    requires short { length (row_text row.now) < 2 ^ 64 }
    ensures { OnOk result (out.new.items ≡ out.old.items ++ row_text row.now) }
{
    put_varint(out, row.id)?;
    out.push(row.form)?;
    put_ints(out, row.ints.as_slice())?;
    put_attributes(out, row.attributes.as_slice())
}

fn put_ints(out: &mut Vec<u8>, ints: &[u32]) -> Result<(), Memory>
    ensures { OnOk result (out.new.items ≡ out.old.items ++ encoding (length ints.now) ++ flat_map encoding ints.now) }
{
    put_varint(out, ints.len() as u64)?;
    for n in ints {
        put_varint(out, u64::from(*n))?;
    }
    Ok(())
}

fn put_attributes(out: &mut Vec<u8>, attributes: &[Attr]) -> Result<(), Memory>
    requires all { AllByRecursion IsNamed attributes.now }
    requires short { length (flat_map attribute_text attributes.now) < 2 ^ 64 }
    ensures { OnOk result (out.new.items ≡ out.old.items ++ encoding (length attributes.now) ++ flat_map attribute_text attributes.now) }
{
    put_varint(out, attributes.len() as u64)?;
    for attribute in attributes {
        put_attribute(out, attribute)?;
    }
    Ok(())
}

#[tactic(auto, using(std::proofs::Common::append_assoc), unfolding(mvt_codec::specs::Items::attribute_text))]
fn put_attribute(out: &mut Vec<u8>, attribute: &Attr) -> Result<(), Memory>
    requires writable { IsWritable attribute.now.value }
    requires short { length (attribute_text attribute.now) < 2 ^ 64 }
    ensures { OnOk result (out.new.items ≡ out.old.items ++ attribute_text attribute.now) }
{
    let name = attribute.name.as_str().as_bytes();
    put_varint(out, name.len() as u64)?;
    out.extend_from_slice(name)?;
    put_varint(out, value_len(&attribute.value))?;
    put_value(out, &attribute.value)
}
