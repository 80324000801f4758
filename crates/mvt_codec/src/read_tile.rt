ghost use Rattle.std.specs.Prelude.{◌≡◌, OnOk};
ghost use Rattle.tb_wire.specs.Field.{entry_of};
ghost use Rattle.mvt_codec.specs.Grammar.{names_of, note_tile, tile_of};
ghost use Rattle.mvt_codec.specs.Reading.{Gives, IsTile};

use crate::fault::{Fault, TileErr};
use crate::keys::Keys;
use crate::numbers::TILE_LAYER;
use crate::read_feature::Numbers;
use crate::read_layer::layer_in;
use crate::row::LayerRows;
use crate::text::bytes_in;
use std::alloc::Global;
use tb_types::Seq;
use tb_wire::{Field, read_field};

/// The layers of a tile in their order, also those without features (Mapbox Vector Tile 2.1, section 4).
///
/// `Bad` exactly where the bytes are no such tile: where they, a layer, a feature or a value are no message, a known field has
/// another wire type, a layer has no name or one that a layer before it has, a text isn't UTF-8, a layer's version is
/// none or neither 1 nor 2, a feature's tags are uneven or lie outside its layer's keys and values, its geometry integers
/// aren't whole commands in the form of its type, or a value has none or several of its fields. Unknown fields are
/// skipped. A layer without an extent has 4096, and a feature without an id has 0. Of a number or text that is written several
/// times the last counts; of 32-bit numbers the low 32 bits do.
///
/// Each attribute has copies of its key and its value, so a row takes as many bytes as these have together: a tile that names
/// one long text by many tags may take a square of its length. Where the rows aren't wanted, `count_rows` takes none of this.
#[tactic(auto, unfolding(crate::specs::Grammar::tile_of))]
pub fn decode_tile(alloc: Global, bytes: &[u8]) -> Result<Seq<LayerRows>, TileErr>
    ensures exact { IsTile result (tile_of bytes.now) }
{
    let mut layers = Seq::new(alloc);
    let mut names = Keys::new(alloc);
    let mut numbers = Numbers::new(alloc);
    let mut at = 0;
    for _turn in 0..bytes.len() {
        match read_field(bytes, at) {
            Ok(Some(field)) => {
                let bad = layers.as_slice().len() as u64;
                match note(alloc, &mut layers, &mut names, &mut numbers, field) {
                    Ok(()) => at = field.next,
                    Err(Fault::Bad) => return Err(TileErr::Bad { at: bad }),
                    Err(Fault::Memory) => return Err(TileErr::Memory),
                }
            }
            Ok(None) => return Ok(layers),
            Err(_) => {
                return Err(TileErr::Bad {
                    at: layers.as_slice().len() as u64,
                });
            }
        }
    }
    Ok(layers)
}

// One field more. `names` are those of the layers.
fn note<'a>(
    alloc: Global,
    layers: &mut Seq<LayerRows>,
    names: &mut Keys<'a>,
    numbers: &mut Numbers,
    field: Field<'a>,
) -> Result<(), Fault>
    requires { names.old ≡ names_of layers.old }
    ensures layers { Gives (λ _. layers.new) result (note_tile layers.old (entry_of field.entry)) }
    ensures names { OnOk result (names.new ≡ names_of layers.new) }
{
    if field.number != TILE_LAYER {
        return Ok(());
    }
    let bytes = bytes_in(field.value)?;
    let (name, layer) = layer_in(alloc, numbers, bytes)?;
    if !names.add(name)? {
        return Err(Fault::Bad);
    }
    layers.push(layer)?;
    Ok(())
}
