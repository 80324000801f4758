ghost use Rattle.std.specs.Prelude.{◌≡◌, ◌≤◌, ◌^◌, ◌<◌, IfOk, is_some, map};
ghost use Rattle.tb_wire.specs.Field.{entry_of};
ghost use Rattle.mvt_codec.specs.Grammar.{names_of, note_tile, tile_of, layer_in, rows_of, rows_in, row_in, row_of};
ghost use Rattle.mvt_codec.specs.Reading.{seen_feature, seen_layer, seen_value};
ghost use Rattle.mvt_codec.specs.Counting.{are_tags, IsCount, Finds, CountsLayer, CountsOn};

use crate::fault::{Fault, TileErr};
use crate::keys::Keys;
use crate::numbers::TILE_LAYER;
use crate::read_feature::{Feature, Numbers, feature_in, form_of};
use crate::read_layer::{Layer, has_known_version, said_layer};
use crate::read_value::ReadValue;
use crate::text::bytes_in;
use std::alloc::Global;
use tb_wire::{Field, read_field};

/// How many rows the layers of a tile have together, as `decode_tile` reads them, and `Bad` where that answers it. No row is
/// built: a tile takes no more memory than some 40 bytes a field of its layers.
pub fn count_rows(alloc: Global, bytes: &[u8]) -> Result<u128, TileErr>
    ensures { IsCount result (tile_of bytes.now) }
{
    let mut rows: u128 = 0;
    let mut names = Keys::new(alloc);
    let mut numbers = Numbers::new(alloc);
    let mut at = 0;
    for _turn in 0..bytes.len() {
        match read_field(bytes, at) {
            Ok(Some(field)) => {
                let bad = names.count() as u64;
                match counted(alloc, &mut names, &mut numbers, field) {
                    Ok(more) => {
                        rows += u128::from(more);
                        at = field.next;
                    }
                    Err(Fault::Bad) => return Err(TileErr::Bad { at: bad }),
                    Err(Fault::Memory) => return Err(TileErr::Memory),
                }
            }
            Ok(None) => return Ok(rows),
            Err(_) => {
                return Err(TileErr::Bad {
                    at: names.count() as u64,
                });
            }
        }
    }
    Ok(rows)
}

// How many rows one field more has. `names` are those of the layers.
fn counted<'a>(
    alloc: Global,
    names: &mut Keys<'a>,
    numbers: &mut Numbers,
    field: Field<'a>,
) -> Result<u64, Fault>
    ensures { (layers : _) → names.old ≡ names_of layers → CountsOn layers (entry_of field.entry) names.new result }
{
    if field.number != TILE_LAYER {
        return Ok(0);
    }
    let bytes = bytes_in(field.value)?;
    let (name, rows) = count_layer(alloc, numbers, bytes)?;
    if !names.add(name)? {
        return Err(Fault::Bad);
    }
    Ok(rows)
}

// The name of a layer, and how many rows it has.
fn count_layer<'a>(
    alloc: Global,
    numbers: &mut Numbers,
    bytes: &'a [u8],
) -> Result<(&'a str, u64), Fault>
    ensures { CountsLayer (λ n. n.now) result (layer_in bytes.now) }
{
    let layer = said_layer(alloc, bytes)?;
    if !has_known_version(&layer) {
        return Err(Fault::Bad);
    }
    match layer.name {
        Some(name) => {
            check_rows(&layer.keys, &layer.values, numbers, &layer.features)?;
            Ok((name, layer.features.len() as u64))
        }
        None => Err(Fault::Bad),
    }
}

fn check_rows(
    keys: &[&str],
    values: &[ReadValue<'_>],
    numbers: &mut Numbers,
    features: &[&[u8]],
) -> Result<(), Fault>
    ensures { Finds result (rows_in (map (λ k. k.now) keys.now) (map seen_value values.now) (map (λ b. b.now) features.now)) }
{
    for feature in features {
        check_row(keys, values, numbers, *feature)?;
    }
    Ok(())
}

fn check_row(
    keys: &[&str],
    values: &[ReadValue<'_>],
    numbers: &mut Numbers,
    bytes: &[u8],
) -> Result<(), Fault>
    ensures { Finds result (row_in (map (λ k. k.now) keys.now) (map seen_value values.now) bytes.now) }
{
    let feature = feature_in(numbers, bytes)?;
    if !is_row(keys, values, feature, numbers) {
        return Err(Fault::Bad);
    }
    Ok(())
}

fn is_row(keys: &[&str], values: &[ReadValue<'_>], feature: Feature, numbers: &Numbers) -> bool
    ensures { result ≡ is_some (row_of (map (λ k. k.now) keys.now) (map seen_value values.now) (seen_feature feature numbers.now)) }
{
    form_of(feature.form, &numbers.ints).is_some()
        && are_tags(keys.len(), values.len(), &numbers.tags)
}

// Whether tags are pairs, and lie inside dictionaries of so many keys and values.
fn are_tags(keys: usize, values: usize, tags: &[u32]) -> bool
    ensures { result ≡ are_tags keys values tags.now }
{
    let mut at = 0;
    while at < tags.len() {
        if at + 1 == tags.len() {
            return false;
        }
        if tags[at] as usize >= keys {
            return false;
        }
        if tags[at + 1] as usize >= values {
            return false;
        }
        at += 2;
    }
    true
}
