ghost use Rattle.std.specs.Prelude.{◌≡◌, ◌<◌, All, OnOk};
ghost use Rattle.mvt_codec.specs.Groups.{IsWritableItem};

use crate::{ItemKey, RunItem, TileRow, compare_keys, encode_items, rank_prefix, rank_suffix};
use std::alloc::Global;
use std::cmp::Ordering;
use tb_types::{Kind, Memory, Place, Seq, Text};

/// Layer `b` with two points, those of the ids 1 and 3, behind layer `a` with that of the id 2.
const TILE: &[u8] =
    b"\x1a\x15\x0a\x01a\x12\x0b\x08\x02\x18\x01\x22\x05\x09\x80\x20\x80\x20\x28\x80\x20\x78\x02\x1a\x22\x0a\x01b\x12\x0b\x08\x01\x18\x01\x22\x05\x09\x80\x20\x80\x20\x12\x0b\x08\x03\x18\x01\x22\x05\x09\x80\x20\x80\x20\x28\x80\x20\x78\x02";

fn key(layer: u8, order: i16, kind: Kind, block: u32) -> ItemKey
    ensures { result.layer ≡ layer }
{
    ItemKey {
        tile: 7,
        layer,
        order,
        kind,
        place: Place { block, index: 0 },
        rule: 0,
    }
}

#[test]
fn keys_and_ranks_agree(rt: HostRuntime) {
    let keys = [
        key(0, -32768, Kind::Relation, 9),
        key(0, -1, Kind::Node, 0),
        key(0, 0, Kind::Node, 4_294_967_295),
        key(0, 0, Kind::Way, 0),
        key(0, 32767, Kind::Node, 0),
        key(1, -32768, Kind::Node, 0),
    ];
    for (m, a) in keys.iter().enumerate() {
        for (n, b) in keys.iter().enumerate() {
            assert!(rt; compare_keys(a, b) == m.cmp(&n));
            assert!(rt;
                (rank_prefix(a), rank_suffix(a)).cmp(&(rank_prefix(b), rank_suffix(b))) == m.cmp(&n)
            );
        }
    }
    assert!(rt; keys[0].cmp(&keys[1]) == Ordering::Less);
}

#[test]
fn items_stand_in_their_layers(rt: HostRuntime) -> Result<(), Memory> {
    let alloc = rt.alloc();
    let names = [
        Text::copy_of(alloc, "a")?,
        Text::copy_of(alloc, "none")?,
        Text::copy_of(alloc, "b")?,
    ];
    let mut items = Seq::new(alloc);
    add(&mut items, alloc, 1, 2)?;
    add(&mut items, alloc, 2, 0)?;
    add(&mut items, alloc, 3, 2)?;
    assert!(rt; encode_items(alloc, &names, items)?.as_slice() == TILE);
    Ok(())
}

// Adds a point of this id in the middle of one of three layers.
fn add(items: &mut Seq<RunItem>, alloc: Global, id: u64, layer: u8) -> Result<(), Memory>
    requires layer { layer < 3 }
    requires layers { All (λ item. item.key.layer < 3) items.old }
    requires writable { All IsWritableItem items.old }
    ensures layers { OnOk result (All (λ item. item.key.layer < 3) items.new) }
    ensures writable { OnOk result (All IsWritableItem items.new) }
{
    let ints = Seq::from_vec(Vec::from_slice(alloc, &[9, 4096, 4096])?);
    let row = TileRow {
        id,
        form: 1,
        ints,
        attributes: Seq::new(alloc),
    };
    let key = key(layer, 0, Kind::Node, 1);
    items.push(RunItem { key, row })
}
