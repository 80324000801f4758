ghost use Rattle.std.specs.Prelude.{◌≡◌, ◌+◌, ◌<◌, ◌≤◌, length, IfOk, IfSome};
ghost use Rattle.tb_wire.specs.Field.{value_at, field_at, seen_value, seen_field, part_at, seen_part};

use crate::varint::{Wire, read_varint};

/// The value of a field, by its wire type. The fixed ones have their least byte first.
#[derive(Clone, Copy, Debug, PartialEq, Eq)]
pub enum FieldValue<'a> {
    Varint(u64),
    Fixed64(u64),
    Bytes(&'a [u8]),
    Fixed32(u32),
}

/// A field of a message, and the place after it.
#[derive(Clone, Copy, Debug, PartialEq, Eq)]
pub struct Field<'a> {
    pub number: u32,
    pub value: FieldValue<'a>,
    pub next: usize,
}

/// The greatest number of a field.
const LAST_NUMBER: u64 = 0x1fff_ffff;

/// The wire types (Protocol Buffers, "Message Structure"). Groups, types 3 and 4, are refused.
const VARINT: u64 = 0;

const FIXED_64: u64 = 1;

const BYTES: u64 = 2;

const FIXED_32: u64 = 5;

/// The field at the place `at`, or `None` exactly at the end. `Tag` where no field begins so, `Cut` where the bytes end
/// inside it or its length passes them, `Long` where a varint in it passes 64 bits.
#[tactic(auto, unfolding(crate::specs::Field::field_at))]
pub fn read_field<'a>(bytes: &'a [u8], at: usize) -> Result<Option<Field<'a>>, Wire>
    requires { at ≤ length bytes.now }
    ensures exact { seen_field result ≡ field_at bytes.now at }
    ensures within { IfOk result (λ found. IfSome found (λ f. (at < f.next) × (f.next ≤ length bytes.now))) }
{
    if at == bytes.len() {
        return Ok(None);
    }
    let (tag, at) = read_varint(bytes, at)?;
    let number = tag / 8;
    if number == 0 || number > LAST_NUMBER {
        return Err(Wire::Tag);
    }
    let (value, next) = read_value(bytes, tag % 8, at)?;
    Ok(Some(Field {
        number: number as u32,
        value,
        next,
    }))
}

#[tactic(auto, unfolding(crate::specs::Field::value_at))]
fn read_value<'a>(
    bytes: &'a [u8],
    wire_type: u64,
    at: usize,
) -> Result<(FieldValue<'a>, usize), Wire>
    requires { at ≤ length bytes.now }
    ensures exact { seen_value result ≡ value_at bytes.now wire_type at }
    ensures within { IfOk result (λ found. (at ≤ found.1) × (found.1 ≤ length bytes.now)) }
{
    if wire_type == VARINT {
        let (n, next) = read_varint(bytes, at)?;
        return Ok((FieldValue::Varint(n), next));
    }
    if wire_type == FIXED_64 {
        let (part, next) = part(bytes, at, 8)?;
        let n = u64::from_le_bytes([
            part[0], part[1], part[2], part[3], part[4], part[5], part[6], part[7],
        ]);
        return Ok((FieldValue::Fixed64(n), next));
    }
    if wire_type == BYTES {
        let (len, from) = read_varint(bytes, at)?;
        let (part, next) = part(bytes, from, len)?;
        return Ok((FieldValue::Bytes(part), next));
    }
    if wire_type == FIXED_32 {
        let (part, next) = part(bytes, at, 4)?;
        let n = u32::from_le_bytes([part[0], part[1], part[2], part[3]]);
        return Ok((FieldValue::Fixed32(n), next));
    }
    Err(Wire::Tag)
}

// So many bytes at a place, and the place after them.
fn part(bytes: &[u8], at: usize, len: u64) -> Result<(&[u8], usize), Wire>
    requires { at ≤ length bytes.now }
    ensures exact { seen_part result ≡ part_at bytes.now at len }
    ensures len { IfOk result (λ p. length p.0.now ≡ len) }
    ensures within { IfOk result (λ p. (at ≤ p.1) × (p.1 ≤ length bytes.now)) }
{
    if ((bytes.len() - at) as u64) < len {
        return Err(Wire::Cut);
    }
    let next = at + len as usize;
    Ok((&bytes[at..next], next))
}
