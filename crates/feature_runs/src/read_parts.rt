ghost use Rattle.std.specs.Prelude.{◌≡◌, ◌≤◌, ◌<◌, length, take, drop, IfOk};
ghost use Rattle.std.specs.Int.{w16, w32, w64};
ghost use Rattle.std.specs.Str.{is_utf8};
ghost use Rattle.feature_runs.specs.ItemReading.{Gives, number_at, byte_at, varint_at, sized_at, int_at, ints_at, name_at, parts_at, split_off, utf8_text};

use crate::lengths::varint_len;
use crate::refused::Refused;
use std::alloc::Global;
use tb_types::{Seq, Text};
use tb_wire::read_varint;

pub fn read_u16(bytes: &[u8]) -> Result<(u16, &[u8]), Refused>
    ensures { Gives (λ x. (x.0, x.1.now)) result (number_at w16 bytes.now) }
{
    if bytes.len() < 2 {
        return Err(Refused::NoItem);
    }
    let (front, rest) = bytes.split_at(2);
    let number = u16::from_be_bytes([front[0], front[1]]);
    Ok((number, rest))
}

pub fn read_u32(bytes: &[u8]) -> Result<(u32, &[u8]), Refused>
    ensures { Gives (λ x. (x.0, x.1.now)) result (number_at w32 bytes.now) }
{
    if bytes.len() < 4 {
        return Err(Refused::NoItem);
    }
    let (front, rest) = bytes.split_at(4);
    let number = u32::from_be_bytes([front[0], front[1], front[2], front[3]]);
    Ok((number, rest))
}

pub fn read_u64(bytes: &[u8]) -> Result<(u64, &[u8]), Refused>
    ensures { Gives (λ x. (x.0, x.1.now)) result (number_at w64 bytes.now) }
{
    if bytes.len() < 8 {
        return Err(Refused::NoItem);
    }
    let (front, rest) = bytes.split_at(8);
    let number = u64::from_be_bytes([
        front[0], front[1], front[2], front[3], front[4], front[5], front[6], front[7],
    ]);
    Ok((number, rest))
}

pub fn read_byte(bytes: &[u8]) -> Result<(u8, &[u8]), Refused>
    ensures { Gives (λ x. (x.0, x.1.now)) result (byte_at bytes.now) }
{
    match bytes {
        [] => Err(Refused::NoItem),
        [byte, rest @ ..] => Ok((*byte, rest)),
    }
}

/// The varint at the front, where it has its shortest form.
#[tactic(auto, unfolding(crate::specs::ItemReading::varint_at))]
pub fn read_short(bytes: &[u8]) -> Result<(u64, &[u8]), Refused>
    ensures { Gives (λ x. (x.0, x.1.now)) result (varint_at bytes.now) }
{
    match read_varint(bytes, 0) {
        Ok((n, len)) => {
            if len as u64 != varint_len(n) {
                return Err(Refused::NoItem);
            }
            Ok((n, &bytes[len..]))
        }
        Err(_) => Err(Refused::NoItem),
    }
}

/// The bytes that stand at the front behind their number.
#[tactic(auto, unfolding(crate::specs::ItemReading::sized_at))]
pub fn read_sized(bytes: &[u8]) -> Result<(&[u8], &[u8]), Refused>
    ensures { Gives (λ x. (x.0.now, x.1.now)) result (sized_at bytes.now) }
{
    let (len, rest) = read_short(bytes)?;
    split(rest, len)
}

/// So many bytes at the front, and the others.
pub fn split(bytes: &[u8], len: u64) -> Result<(&[u8], &[u8]), Refused>
    ensures { Gives (λ x. (x.0.now, x.1.now)) result (split_off len bytes.now) }
{
    if (bytes.len() as u64) < len {
        return Err(Refused::NoItem);
    }
    let (front, rest) = bytes.split_at(len as usize);
    Ok((front, rest))
}

/// The text of bytes that are UTF-8.
pub fn read_text(alloc: Global, bytes: &[u8]) -> Result<Text, Refused>
    ensures { Gives (λ text. text) result (utf8_text bytes.now) }
{
    match str::from_utf8(bytes) {
        Ok(text) => {
            let mut copy = Text::new(alloc);
            copy.push_str(text)?;
            Ok(copy)
        }
        Err(_) => Err(Refused::NoItem),
    }
}

/// A name: bytes behind their number, which are UTF-8 and not none.
#[tactic(auto, unfolding(crate::specs::ItemReading::name_at))]
pub fn read_name(alloc: Global, bytes: &[u8]) -> Result<(Text, &[u8]), Refused>
    ensures { Gives (λ x. (x.0, x.1.now)) result (name_at bytes.now) }
{
    let (name, rest) = read_sized(bytes)?;
    if name.is_empty() {
        return Err(Refused::NoItem);
    }
    let text = read_text(alloc, name)?;
    Ok((text, rest))
}

/// The integers of a geometry behind their number, each of at most 32 bits.
#[tactic(auto, unfolding(crate::specs::ItemReading::ints_at))]
pub fn read_ints(alloc: Global, bytes: &[u8]) -> Result<(Seq<u32>, &[u8]), Refused>
    ensures { Gives (λ x. (x.0, x.1.now)) result (ints_at bytes.now) }
{
    let (count, rest) = read_short(bytes)?;
    let (ints, rest) = ints_of(alloc, count, rest)?;
    Ok((Seq::from_vec(ints), rest))
}

fn ints_of(alloc: Global, count: u64, bytes: &[u8]) -> Result<(Vec<u32>, &[u8]), Refused>
    ensures { Gives (λ x. (x.0.items, x.1.now)) result (parts_at int_at count bytes.now) }
{
    let mut ints = Vec::new(alloc);
    let mut rest = bytes;
    for _ in 0..count {
        let (n, after) = read_int(rest)?;
        ints.push(n)?;
        rest = after;
    }
    Ok((ints, rest))
}

#[tactic(auto, unfolding(crate::specs::ItemReading::int_at))]
fn read_int(bytes: &[u8]) -> Result<(u32, &[u8]), Refused>
    ensures { Gives (λ x. (x.0, x.1.now)) result (int_at bytes.now) }
{
    let (n, rest) = read_short(bytes)?;
    if n > 0xffff_ffff {
        return Err(Refused::NoItem);
    }
    Ok((n as u32, rest))
}
