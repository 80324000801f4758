ghost use Rattle.std.specs.Prelude.{◌≡◌, ◌<◌, length, All, IfOk, OnOk, IsUtf8, ◌++◌, []};
ghost use Rattle.mvt_codec.specs.Tile.{AreWritable};
ghost use Rattle.mvt_codec.specs.Items.{IsItem, Fits};
ghost use Rattle.mvt_codec.specs.Groups.{AreNames, IsReadAgain, IsWritableItem, layer_of, layers_of, named, slots, text_of_items};

use crate::item::RunItem;
use crate::row::{LayerRows, TileRow};
use crate::tile::encode_tile;
use std::alloc::Global;
use tb_types::{EXTENT, Memory, Seq, Text};

/// The layers of a tile that have rows, in the order of `names`, which are those of all layers. Each item's row is moved to
/// the layer of its key's number, and the rows of a layer stand as their items did. The extent is 4096.
pub fn layers_of(
    alloc: Global,
    names: &[Text],
    items: Seq<RunItem>,
) -> Result<Seq<LayerRows>, Memory>
    requires { All (λ item. item.key.layer < length names.now) items }
    ensures layers { IfOk result (λ layers. layers ≡ layers_of names.now items) }
    ensures writable { All IsWritableItem items → IfOk result (λ layers. AreWritable layers) }
    ensures texts { IfOk result (λ layers. All (λ layer. IsUtf8 layer.name) layers) }
{
    let slots = empty_slots(alloc, names.len())?;
    let slots = filled_slots(slots, items.into_vec())?;
    named_layers(alloc, names, slots)
}

/// The bytes of a tile whose rows are those of the items, each in the layer of its key's number (Mapbox Vector Tile 2.1,
/// section 4). `names` are those of all layers, and layers without rows are left out. `Memory` where memory is wanted, or
/// a layer has more than 2^32 keys or values.
pub fn encode_items(alloc: Global, names: &[Text], items: Seq<RunItem>) -> Result<Vec<u8>, Memory>
    requires layers { All (λ item. item.key.layer < length names.now) items }
    requires writable { All IsWritableItem items }
    ensures text { IfOk result (λ tile. tile.items ≡ text_of_items names.now items) }
    // Where no two layers have one name, reading the bytes gives the rows of each layer again.
    ensures again { AreNames names.now → All IsItem items → All Fits items → IfOk result (λ tile. IsReadAgain names.now items tile.items) }
{
    let layers = layers_of(alloc, names, items)?;
    encode_tile(alloc, layers.as_slice())
}

// A list without rows for each layer.
fn empty_slots(alloc: Global, count: usize) -> Result<Vec<Seq<TileRow>>, Memory>
    ensures { IfOk result (λ rows. rows.items ≡ slots 0 count []) }
{
    let mut slots = Vec::with_capacity(alloc, count)?;
    for number in 0..count {
        slots.push(Seq::new(alloc))?;
    }
    Ok(slots)
}

// Moves the row of each item behind those of its layer.
fn filled_slots(
    mut layers: Vec<Seq<TileRow>>,
    items: Vec<RunItem>,
) -> Result<Vec<Seq<TileRow>>, Memory>
    requires empty { layers.items ≡ slots 0 (length layers.items) [] }
    requires within { All (λ item. item.key.layer < length layers.items) items.items }
    ensures { IfOk result (λ rows. rows.items ≡ slots 0 (length layers.items) items.items) }
{
    for item in items {
        let number = usize::from(item.key.layer);
        layers[number].push(item.row)?;
    }
    Ok(layers)
}

// The lists that have rows, each with its name.
fn named_layers(
    alloc: Global,
    names: &[Text],
    layer_rows: Vec<Seq<TileRow>>,
) -> Result<Seq<LayerRows>, Memory>
    ensures layers { IfOk result (λ layers. layers ≡ named names.now layer_rows.items) }
    ensures texts { IfOk result (λ layers. All (λ layer. IsUtf8 layer.name) layers) }
{
    let mut layers = Vec::new(alloc);
    let mut rest = names;
    for rows in layer_rows {
        match rest.split_first() {
            None => return Ok(Seq::from_vec(layers)),
            Some((name, later)) => {
                add_layer(&mut layers, alloc, name, rows)?;
                rest = later;
            }
        }
    }
    Ok(Seq::from_vec(layers))
}

// Adds the layer of this name, where it has rows.
fn add_layer(
    layers: &mut Vec<LayerRows>,
    alloc: Global,
    name: &Text,
    rows: Seq<TileRow>,
) -> Result<(), Memory>
    ensures layers { OnOk result (layers.new.items ≡ layers.old.items ++ layer_of name.now rows) }
    ensures texts { All (λ layer. IsUtf8 layer.name) layers.old.items → OnOk result (All (λ layer. IsUtf8 layer.name) layers.new.items) }
{
    if rows.as_slice().is_empty() {
        return Ok(());
    }
    let layer = layer_with(alloc, name, rows)?;
    layers.push(layer)?;
    Ok(())
}

fn layer_with(alloc: Global, name: &Text, rows: Seq<TileRow>) -> Result<LayerRows, Memory>
    ensures name { IfOk result (λ layer. layer.name ≡ name.now) }
    ensures utf8 { IfOk result (λ layer. IsUtf8 layer.name) }
    ensures extent { IfOk result (λ layer. layer.extent ≡ 4096) }
    ensures rows { IfOk result (λ layer. layer.rows ≡ rows) }
{
    Ok(LayerRows {
        name: Text::copy_of(alloc, name.as_str())?,
        extent: EXTENT,
        rows,
    })
}
