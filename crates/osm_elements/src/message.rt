ghost use Rattle.std.specs.Prelude.{◌≡◌, ◌<◌, ◌≤◌, Some, Ok, length, map, IfOk, IfSome};
ghost use Rattle.tb_wire.specs.Field.{entry_of, field_at, text};
ghost use Rattle.osm_elements.specs.Reasons.{Gives};
ghost use Rattle.osm_elements.specs.Slots.{IsField};
ghost use Rattle.osm_elements.specs.Fields.{fields_of, some_numbers, some_fields, numbers, bodies, merged_fields, last_number, with_found, last_read, if_numbered, one_number, one_body};

use crate::fault::BlockErr;
use crate::varint::next_varint;
use std::alloc::Global;
use tb_types::Why;
use tb_wire::{Field, FieldValue, read_field};

/// What is no message, no packed list or no field of its stated type.
pub(crate) const NO_MESSAGE: BlockErr = BlockErr::Bad(Why::Wire);

/// The fields of a message.
#[tactic(auto, using(crate::proofs::Prefixes::with_found_nil))]
pub(crate) fn fields<'a>(alloc: Global, bytes: &'a [u8]) -> Result<Vec<Field<'a>>, BlockErr>
    ensures { Gives (λ v. map entry_of v.items) result (fields_of bytes.now) }
{
    let mut fields = Vec::new(alloc);
    put_fields(&mut fields, bytes)?;
    Ok(fields)
}

/// Adds the fields of a message.
pub(crate) fn put_fields<'a>(out: &mut Vec<Field<'a>>, bytes: &'a [u8]) -> Result<(), BlockErr>
    ensures { Gives (λ _. map entry_of out.new.items) result (with_found (map entry_of out.old.items) (fields_of bytes.now)) }
{
    out.reserve(field_count(bytes))?;
    let mut at = 0;
    while at < bytes.len() {
        match read_field(bytes, at) {
            Ok(Some(field)) => {
                at = field.next;
                out.push(field)?;
            }
            Ok(None) => break,
            Err(_) => return Err(NO_MESSAGE),
        }
    }
    Ok(())
}

/// The field at a place of a message, or `None` at its end.
pub(crate) fn next_field<'a>(bytes: &'a [u8], at: usize) -> Result<Option<Field<'a>>, BlockErr>
    requires { at ≤ length bytes.now }
    ensures exact { IsField bytes.now at result }
    ensures within { IfOk result (λ found. IfSome found (λ f. (at < f.next) × (f.next ≤ length bytes.now))) }
{
    if let Some(field) = short_field(bytes, at) {
        return Ok(Some(field));
    }
    match read_field(bytes, at) {
        Ok(field) => Ok(field),
        Err(_) => Err(NO_MESSAGE),
    }
}

// The field at a place, if it is bytes, and its tag and its length have one byte each, as most have.
#[inline(always)]
fn short_field<'a>(bytes: &'a [u8], at: usize) -> Option<Field<'a>>
    requires { at ≤ length bytes.now }
    ensures exact { IfSome result (λ f. Ok (Some (entry_of f, f.next)) ≡ field_at bytes.now at) }
    ensures within { IfSome result (λ f. (at < f.next) × (f.next ≤ length bytes.now)) }
{
    if bytes.len() - at < 2 {
        return None;
    }
    let tag = bytes[at];
    let len = bytes[at + 1];
    if tag >= 128 || tag < 8 || tag % 8 != 2 || len >= 128 {
        return None;
    }
    let from = at + 2;
    let next = from + len as usize;
    if next > bytes.len() {
        return None;
    }
    Some(Field {
        number: u32::from(tag / 8),
        value: FieldValue::Bytes(&bytes[from..next]),
        next,
    })
}

// How many fields a message has, as far as it can be read. It is asked for the room alone.
fn field_count(bytes: &[u8]) -> usize
    ensures { result ≤ length bytes.now }
{
    let mut count: usize = 0;
    let mut at = 0;
    while let Ok(Some(field)) = read_field(bytes, at) {
        count += 1;
        at = field.next;
    }
    count
}

/// The last varint of a number, if there is one.
pub(crate) fn last_number(number: u32, fields: &[Field<'_>]) -> Result<Option<u64>, BlockErr>
    ensures { Gives (λ n. n) result (last_number number (map entry_of fields.now)) }
{
    let mut last = None;
    for field in fields {
        last = later_number(last, number, field)?;
    }
    Ok(last)
}

/// The varint of a field of this number, or else the one before it.
pub(crate) fn later_number(
    before: Option<u64>,
    number: u32,
    field: &Field<'_>,
) -> Result<Option<u64>, BlockErr>
    ensures { Gives (λ n. n) result (last_read before (if_numbered one_number number (entry_of field.now))) }
{
    if field.number != number {
        return Ok(before);
    }
    match field.value {
        FieldValue::Varint(n) => Ok(Some(n)),
        _ => Err(NO_MESSAGE),
    }
}

/// All varints of a number, packed and unpacked.
pub(crate) fn numbers(
    alloc: Global,
    number: u32,
    fields: &[Field<'_>],
) -> Result<Vec<u64>, BlockErr>
    ensures { Gives (λ v. v.items) result (numbers number (map entry_of fields.now)) }
{
    let mut numbers = Vec::new(alloc);
    for field in fields {
        put_numbers(&mut numbers, number, field)?;
    }
    Ok(numbers)
}

/// Adds the varints of a field of this number.
pub(crate) fn put_numbers(
    out: &mut Vec<u64>,
    number: u32,
    field: &Field<'_>,
) -> Result<(), BlockErr>
    ensures { Gives (λ _. out.new.items) result (with_found out.old.items (if_numbered some_numbers number (entry_of field.now))) }
{
    if field.number != number {
        return Ok(());
    }
    match field.value {
        FieldValue::Varint(n) => {
            out.push(n)?;
            Ok(())
        }
        FieldValue::Bytes(bytes) => put_packed(out, bytes),
        _ => Err(NO_MESSAGE),
    }
}

// Adds the varints of a packed list.
fn put_packed(out: &mut Vec<u64>, bytes: &[u8]) -> Result<(), BlockErr>
    ensures { Gives (λ _. out.new.items) result (with_found out.old.items (some_numbers (text bytes.now))) }
{
    out.reserve(varint_count(bytes))?;
    let mut at = 0;
    while at < bytes.len() {
        match next_varint(bytes, at) {
            Ok((number, next)) => {
                at = next;
                out.push(number)?;
            }
            Err(_) => return Err(NO_MESSAGE),
        }
    }
    Ok(())
}

// How many varints a packed list has: each ends with a byte below 128.
fn varint_count(bytes: &[u8]) -> usize
    ensures { result ≤ length bytes.now }
{
    let mut count = 0;
    for byte in bytes {
        if *byte < 128 {
            count += 1;
        }
    }
    count
}

/// The bytes of each field of a number.
pub(crate) fn bodies<'a>(
    alloc: Global,
    number: u32,
    fields: &[Field<'a>],
) -> Result<Vec<&'a [u8]>, BlockErr>
    ensures { Gives (λ v. map (λ b. b.now) v.items) result (bodies number (map entry_of fields.now)) }
{
    let mut bodies = Vec::with_capacity(alloc, numbered_count(number, fields))?;
    for field in fields {
        put_body(&mut bodies, number, field)?;
    }
    Ok(bodies)
}

// How many of these fields have this number.
fn numbered_count(number: u32, fields: &[Field<'_>]) -> usize
    ensures { result ≤ length fields.now }
{
    let mut count = 0;
    for field in fields {
        if field.number == number {
            count += 1;
        }
    }
    count
}

// Adds the bytes of a field of this number.
fn put_body<'a>(out: &mut Vec<&'a [u8]>, number: u32, field: &Field<'a>) -> Result<(), BlockErr>
    ensures { Gives (λ _. map (λ b. b.now) out.new.items) result (with_found (map (λ b. b.now) out.old.items) (if_numbered one_body number (entry_of field.now))) }
{
    if field.number != number {
        return Ok(());
    }
    match field.value {
        FieldValue::Bytes(bytes) => {
            out.push(bytes)?;
            Ok(())
        }
        _ => Err(NO_MESSAGE),
    }
}

/// The fields of all messages of a number.
pub(crate) fn merged_fields<'a>(
    alloc: Global,
    number: u32,
    fields: &[Field<'a>],
) -> Result<Vec<Field<'a>>, BlockErr>
    ensures { Gives (λ v. map entry_of v.items) result (merged_fields number (map entry_of fields.now)) }
{
    let mut merged_fields = Vec::new(alloc);
    for field in fields {
        put_message(&mut merged_fields, number, field)?;
    }
    Ok(merged_fields)
}

// Adds the fields of the message that a field of this number has.
fn put_message<'a>(out: &mut Vec<Field<'a>>, number: u32, field: &Field<'a>) -> Result<(), BlockErr>
    ensures { Gives (λ _. map entry_of out.new.items) result (with_found (map entry_of out.old.items) (if_numbered some_fields number (entry_of field.now))) }
{
    if field.number != number {
        return Ok(());
    }
    match field.value {
        FieldValue::Bytes(bytes) => put_fields(out, bytes),
        _ => Err(NO_MESSAGE),
    }
}
