ghost use Rattle.std.specs.Prelude.{◌≡◌, ◌^◌, ◌<◌};
ghost use Rattle.mvt_codec.specs.Order.{key_cmp, kind_number, order_number, prefix_number, suffix_number, KeyLaws};

use crate::item::ItemKey;
use std::cmp::Ordering;
use tb_types::Kind;

/// How two keys are ordered: by tile, layer, order, kind (node, way, relation), block, index and rule.
pub fn compare_keys(a: &ItemKey, b: &ItemKey) -> Ordering
    ensures { result ≡ key_cmp a.now b.now }
{
    a.cmp(b)
}

/// Keys are in a total order. Keys of which neither is before the other are equal, and a key's rank, which is its numbers in
/// a row, is before another's exactly where the key is.
pub fn keys_are_ordered()
    ensures { KeyLaws }
{}

/// The first 16 bytes of a key as one number, the highest first: tile, layer, order, kind and block.
pub fn rank_prefix(key: &ItemKey) -> u128
    ensures { result ≡ prefix_number key.now }
{
    let tile = key.tile;
    let layer = key.layer;
    let block = key.place.block;
    let rows = u64::from(layer) * 65536 + u64::from(order_as_number(key.order));
    let element = u64::from(kind_as_number(key.kind)) * 4_294_967_296 + u64::from(block);
    u128::from(tile) * 18_446_744_073_709_551_616 + u128::from(rows * 1_099_511_627_776 + element)
}

/// The last six bytes of a key as one number: index and rule. Keys are ordered by the first number, and then by this one.
pub fn rank_suffix(key: &ItemKey) -> u64
    ensures exact { result ≡ suffix_number key.now }
    ensures small { result < 2 ^ 48 }
{
    let index = key.place.index;
    let rule = key.rule;
    u64::from(index) * 65536 + u64::from(rule)
}

/// An order as a number from 0 to 65535, in the same order.
pub fn order_as_number(order: i16) -> u16
    ensures { result ≡ order_number order }
{
    (i32::from(order) + 32768) as u16
}

/// A kind as a number in the order of kinds: 0 is a node, 1 a way, 2 a relation.
pub fn kind_as_number(kind: Kind) -> u8
    ensures { result ≡ kind_number kind }
{
    match kind {
        Kind::Node => 0,
        Kind::Way => 1,
        Kind::Relation => 2,
    }
}
