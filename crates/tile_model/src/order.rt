ghost use Rattle.std.specs.Prelude.{◌≡◌, ◌∷◌, ◌<◌, ◌≤◌, length, take, drop, slice_index_or};
ghost use Rattle.std.specs.List.Sorted.{IsPermutation, IsSortedBy};
ghost use Rattle.sorted_lists.specs.Grouping.{grouped_by};
ghost use Rattle.tile_model.specs.Keys.{item_less, tile_of};

use mvt_codec::RunItem;

/// Puts items in the order of their keys: by tile, layer, order, kind, place and rule. It takes no memory.
pub fn sort_items(items: &mut [RunItem])
    ensures sorted { IsSortedBy item_less items.new }
    ensures same { IsPermutation items.old items.new }
{
    items.sort_unstable_by_key(|item| item.key);
}

/// How many items the first item's tile has, where neighbours of one tile stand together: those from the first on that have
/// its tile, up to the first that doesn't.
pub fn tile_len(items: &[RunItem]) -> usize
    requires { 0 < length items.now }
    ensures some { 0 < result }
    ensures within { result ≤ length items.now }
    ensures group { (d : RunItem) → grouped_by tile_of items.now
        ≡ (tile_of (slice_index_or items.now 0 d), take result items.now) ∷ grouped_by tile_of (drop result items.now) }
{
    let tile = items[0].key.tile;
    for len in 1..items.len() {
        if items[len].key.tile != tile {
            return len;
        }
    }
    items.len()
}
