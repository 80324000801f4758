ghost use Rattle.std.specs.Prelude.{◌≡◌, ◌+◌, ◌*◌, ◌-◌, ◌^◌, ◌<◌, ◌≤◌, ⊤, length, min, flat_map};
ghost use Rattle.std.specs.List.{AllByRecursion};
ghost use Rattle.tb_wire.specs.Varint.{encoding, encoding_within};
ghost use Rattle.mvt_codec.specs.Items.{item_text, row_text, attribute_text, IsItem, IsNamed};
ghost use Rattle.feature_runs.specs.Lengths.{whole_number};
ghost use Rattle.mvt_codec.specs.Value.{value_text, whole_text, IsWritable, IsWithin};

use mvt_codec::{RunItem, TileRow};
use tb_types::{Attr, AttrValue};
use tb_wire::zigzag;

/// The bytes of a key and of the length behind it.
pub const HEAD_BYTES: u64 = 30;

/// The bytes of a varint after its first one, at most.
const MORE_BYTES: u32 = 9;

/// How many bytes an item takes, as `put_item` writes it.
#[tactic(auto, using(mvt_codec::proofs::ItemLengths::item_len))]
pub fn item_len(item: &RunItem) -> u64
    requires { IsItem item.now }
    ensures { result ≡ length (item_text item.now) }
{
    row_len(&item.row).saturating_add(HEAD_BYTES)
}

/// How many bytes a row takes in an item, or 2^64 - 1 where it takes more.
#[tactic(auto, using(mvt_codec::proofs::ItemLengths::row_len))]
pub fn row_len(row: &TileRow) -> u64
    requires { AllByRecursion IsNamed row.now.attributes }
    ensures { result ≡ min (length (row_text row.now)) (2 ^ 64 - 1) }
{
    let ints = row.ints.as_slice();
    let attributes = row.attributes.as_slice();
    (varint_len(row.id) + 1 + varint_len(ints.len() as u64) + varint_len(attributes.len() as u64))
        .saturating_add(ints_len(ints))
        .saturating_add(attributes_len(attributes))
}

fn ints_len(ints: &[u32]) -> u64
    ensures { result ≡ min (length (flat_map encoding ints.now)) (2 ^ 64 - 1) }
{
    let mut len: u64 = 0;
    for n in ints {
        len = len.saturating_add(varint_len(u64::from(*n)));
    }
    len
}

fn attributes_len(attributes: &[Attr]) -> u64
    requires { AllByRecursion IsNamed attributes.now }
    ensures { result ≡ min (length (flat_map attribute_text attributes.now)) (2 ^ 64 - 1) }
{
    let mut len: u64 = 0;
    for attribute in attributes {
        len = len.saturating_add(attribute_len(attribute));
    }
    len
}

#[tactic(auto, using(mvt_codec::proofs::ItemLengths::attribute_len))]
fn attribute_len(attribute: &Attr) -> u64
    requires { IsWritable attribute.now.value }
    ensures { result ≡ min (length (attribute_text attribute.now)) (2 ^ 64 - 1) }
{
    let name = sized_len(attribute.name.as_str().len() as u64);
    name.saturating_add(sized_len(value_len(&attribute.value)))
}

// How many bytes so many bytes take behind their number, or 2^64 - 1 where they take more.
fn sized_len(len: u64) -> u64
    ensures { result ≡ min (length (encoding len) + len) (2 ^ 64 - 1) }
{
    len.saturating_add(varint_len(len))
}

/// How many bytes the text of a value takes, or 2^64 - 1 where it takes more.
#[tactic(auto, using(crate::proofs::ItemLengths::text_len, crate::proofs::ItemLengths::float_len, crate::proofs::ItemLengths::double_len, crate::proofs::ItemLengths::whole_len, crate::proofs::ItemLengths::truth_len))]
pub fn value_len(value: &AttrValue) -> u64
    requires { IsWritable value.now }
    ensures { result ≡ min (length (value_text value.now)) (2 ^ 64 - 1) }
{
    match value {
        AttrValue::Text(text) => sized_len(text.as_str().len() as u64).saturating_add(1),
        AttrValue::Bits32(_) => 5,
        AttrValue::Bits64(_) => 9,
        AttrValue::Whole(n) => whole_len(*n),
        AttrValue::Truth(_) => 2,
    }
}

#[tactic(auto, using(crate::proofs::ItemLengths::whole_text_len))]
fn whole_len(n: i128) -> u64
    requires { IsWithin n }
    ensures { result ≡ length (whole_text n) }
{
    1 + varint_len(as_varint(n))
}

// The varint of a whole number: itself from 0 on, else its zigzag.
fn as_varint(n: i128) -> u64
    requires { IsWithin n }
    ensures { result ≡ whole_number n }
{
    if n < 0 { zigzag(n as i64) } else { n as u64 }
}

/// How many bytes the shortest encoding of a number takes: 1 to 10.
#[tactic(auto, unfolding(tb_wire::specs::Varint::encoding))]
pub fn varint_len(n: u64) -> u64
    ensures exact { result ≡ length (encoding n) }
    ensures few { (1 ≤ result) × (result ≤ 10) }
{
    len_within(MORE_BYTES, n)
}

// The same of a number that takes at most `more` and one bytes.
fn len_within(more: u32, n: u64) -> u64
    requires { more ≤ 9 }
    ensures exact { result ≡ length (encoding_within more n) }
    ensures few { (1 ≤ result) × (result ≤ more + 1) }
{
    if more == 0 || n < 128 {
        return 1;
    }
    1 + len_within(more - 1, n / 128)
}
