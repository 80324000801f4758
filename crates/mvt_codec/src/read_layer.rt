ghost use Rattle.std.specs.Prelude.{◌≡◌, ◌==◌, ◌||◌, IfOk, map};
ghost use Rattle.tb_wire.specs.Field.{entry_of};
ghost use Rattle.mvt_codec.specs.Messages.{said_from};
ghost use Rattle.mvt_codec.specs.Grammar.{no_layer, note_layer, rows_of, rows_in, layer_in};
ghost use Rattle.mvt_codec.specs.Reading.{Gives, seen_layer, seen_value};

use crate::fault::Fault;
use crate::numbers::{
    LAYER_EXTENT, LAYER_FEATURE, LAYER_KEY, LAYER_NAME, LAYER_VALUE, LAYER_VERSION,
};
use crate::packed::{low_32, number_in};
use crate::read_feature::{Numbers, row_in};
use crate::read_value::{ReadValue, value_of};
use crate::row::{LayerRows, TileRow};
use crate::text::{bytes_in, text_in};
use std::alloc::Global;
use tb_types::{EXTENT, Seq, Text};
use tb_wire::{Field, read_field};

/// What a layer's message says: its name, the messages of its features, its keys, its values, its extent, and its version,
/// or 0 where it has none.
#[derive(Debug, Drop)]
pub struct Layer<'a> {
    pub name: Option<&'a str>,
    pub features: Vec<&'a [u8]>,
    pub keys: Vec<&'a str>,
    pub values: Vec<ReadValue<'a>>,
    pub extent: u32,
    pub version: u32,
}

/// The layer of a message (Mapbox Vector Tile 2.1, section 4.1), and its name where it stands in the message.
pub fn layer_in<'a>(
    alloc: Global,
    numbers: &mut Numbers,
    bytes: &'a [u8],
) -> Result<(&'a str, LayerRows), Fault>
    ensures layer { Gives (λ l. l.1) result (layer_in bytes.now) }
    ensures name { IfOk result (λ l. l.0.now ≡ l.1.name) }
{
    let layer = said_layer(alloc, bytes)?;
    rows_of(alloc, numbers, &layer)
}

fn rows_of<'a>(
    alloc: Global,
    numbers: &mut Numbers,
    layer: &Layer<'a>,
) -> Result<(&'a str, LayerRows), Fault>
    ensures layer { Gives (λ l. l.1) result (rows_of (seen_layer layer.now)) }
    ensures name { IfOk result (λ l. l.0.now ≡ l.1.name) }
{
    if !has_known_version(layer) {
        return Err(Fault::Bad);
    }
    match layer.name {
        Some(name) => {
            let rows = rows_in(alloc, &layer.keys, &layer.values, numbers, &layer.features)?;
            let layer = LayerRows {
                name: Text::copy_of(alloc, name)?,
                extent: layer.extent,
                rows,
            };
            Ok((name, layer))
        }
        None => Err(Fault::Bad),
    }
}

/// Whether a layer is of version 1 or 2.
pub fn has_known_version(layer: &Layer<'_>) -> bool
    ensures { result ≡ (layer.now.version == 1) || (layer.now.version == 2) }
{
    layer.version == 1 || layer.version == 2
}

fn rows_in(
    alloc: Global,
    keys: &[&str],
    values: &[ReadValue<'_>],
    numbers: &mut Numbers,
    features: &[&[u8]],
) -> Result<Seq<TileRow>, Fault>
    ensures { Gives (λ r. r) result (rows_in (map (λ k. k.now) keys.now) (map seen_value values.now) (map (λ b. b.now) features.now)) }
{
    let mut rows = Vec::with_capacity(alloc, features.len())?;
    for feature in features {
        let row = row_in(alloc, keys, values, numbers, *feature)?;
        rows.push(row)?;
    }
    Ok(Seq::from_vec(rows))
}

/// What a layer's message says.
pub fn said_layer<'a>(alloc: Global, bytes: &'a [u8]) -> Result<Layer<'a>, Fault>
    ensures { Gives seen_layer result (said_from note_layer no_layer bytes.now 0) }
{
    let mut layer = Layer {
        name: None,
        features: Vec::new(alloc),
        keys: Vec::new(alloc),
        values: Vec::new(alloc),
        extent: EXTENT,
        version: 0,
    };
    let mut at = 0;
    while at < bytes.len() {
        match read_field(bytes, at) {
            Ok(Some(field)) => match note(&mut layer, field) {
                Ok(()) => at = field.next,
                Err(e) => return Err(e),
            },
            Ok(None) => break,
            Err(_) => return Err(Fault::Bad),
        }
    }
    Ok(layer)
}

// One field more.
#[tactic(auto, unfolding(crate::specs::Grammar::note_layer))]
fn note<'a>(layer: &mut Layer<'a>, field: Field<'a>) -> Result<(), Fault>
    ensures { Gives (λ _. seen_layer layer.new) result (note_layer (seen_layer layer.old) (entry_of field.entry)) }
{
    if field.number == LAYER_NAME {
        layer.name = Some(text_in(field.value)?);
        return Ok(());
    }
    if field.number == LAYER_FEATURE {
        layer.features.push(bytes_in(field.value)?)?;
        return Ok(());
    }
    if field.number == LAYER_KEY {
        layer.keys.push(text_in(field.value)?)?;
        return Ok(());
    }
    if field.number == LAYER_VALUE {
        layer.values.push(value_of(bytes_in(field.value)?)?)?;
        return Ok(());
    }
    if field.number == LAYER_EXTENT {
        layer.extent = low_32(number_in(field.value)?);
        return Ok(());
    }
    if field.number == LAYER_VERSION {
        layer.version = low_32(number_in(field.value)?);
    }
    Ok(())
}
