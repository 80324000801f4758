ghost use Rattle.std.specs.Prelude.{◌≡◌, Some, map};
ghost use Rattle.tb_wire.specs.Field.{entry_of};
ghost use Rattle.mvt_codec.specs.Messages.{said_from};
ghost use Rattle.mvt_codec.specs.Grammar.{no_feature, note_feature, row_of, row_in, attribute_at, attributes_at};
ghost use Rattle.mvt_codec.specs.Reading.{Gives, IsForm, seen_feature, seen_value};

use crate::fault::Fault;
use crate::numbers::{FEATURE_GEOMETRY, FEATURE_ID, FEATURE_TAGS, FEATURE_TYPE, LAST_TYPE};
use crate::packed::{low_32, number_in, put_numbers};
use crate::read_value::ReadValue;
use crate::row::TileRow;
use mvt_geom::has_form;
use std::alloc::Global;
use tb_types::{Attr, AttrValue, Seq, Text};
use tb_wire::{Field, read_field};

/// What a feature's message says of its id and its type.
#[derive(Clone, Copy, Debug)]
pub struct Feature {
    pub id: u64,
    pub form: u32,
}

/// The tags and the geometry integers of a feature. The lists serve all features, one after another.
#[derive(Debug, Drop)]
pub struct Numbers {
    pub tags: Vec<u32>,
    pub ints: Vec<u32>,
}

impl Numbers {
    /// No numbers. It takes no memory.
    pub fn new(alloc: Global) -> Self {
        Numbers {
            tags: Vec::new(alloc),
            ints: Vec::new(alloc),
        }
    }
}

/// The row of a feature's message (Mapbox Vector Tile 2.1, section 4.2), whose tags are places in these keys and values.
pub fn row_in(
    alloc: Global,
    keys: &[&str],
    values: &[ReadValue<'_>],
    numbers: &mut Numbers,
    bytes: &[u8],
) -> Result<TileRow, Fault>
    ensures { Gives (λ r. r) result (row_in (map (λ k. k.now) keys.now) (map seen_value values.now) bytes.now) }
{
    let feature = feature_in(numbers, bytes)?;
    row_of(alloc, keys, values, feature, numbers)
}

fn row_of(
    alloc: Global,
    keys: &[&str],
    values: &[ReadValue<'_>],
    feature: Feature,
    numbers: &Numbers,
) -> Result<TileRow, Fault>
    ensures { Gives (λ r. r) result (row_of (map (λ k. k.now) keys.now) (map seen_value values.now) (seen_feature feature numbers.now)) }
{
    let Some(form) = form_of(feature.form, &numbers.ints) else {
        return Err(Fault::Bad);
    };
    let attributes = attributes_at(alloc, keys, values, &numbers.tags)?;
    let ints = Vec::from_slice(alloc, &numbers.ints)?;
    Ok(TileRow {
        id: feature.id,
        form,
        ints: Seq::from_vec(ints),
        attributes,
    })
}

/// A type, if integers are whole commands in its form.
#[tactic(auto, unfolding(mvt_geom::specs::Commands::has_form))]
pub fn form_of(form: u32, ints: &[u32]) -> Option<u8>
    ensures { IsForm form ints.now result }
{
    if form > LAST_TYPE {
        return None;
    }
    let form = form as u8;
    if has_form(form, ints) {
        Some(form)
    } else {
        None
    }
}

// The attributes that tags name.
fn attributes_at(
    alloc: Global,
    keys: &[&str],
    values: &[ReadValue<'_>],
    tags: &[u32],
) -> Result<Seq<Attr>, Fault>
    ensures { Gives (λ a. a) result (attributes_at (map (λ k. k.now) keys.now) (map seen_value values.now) tags.now) }
{
    let mut attributes = Vec::with_capacity(alloc, tags.len() / 2)?;
    let mut at = 0;
    while at < tags.len() {
        if at + 1 == tags.len() {
            return Err(Fault::Bad);
        }
        let attribute = attribute_at(alloc, keys, values, tags[at], tags[at + 1])?;
        attributes.push(attribute)?;
        at += 2;
    }
    Ok(Seq::from_vec(attributes))
}

// The attribute of a key's place and a value's place.
fn attribute_at(
    alloc: Global,
    keys: &[&str],
    values: &[ReadValue<'_>],
    key: u32,
    value: u32,
) -> Result<Attr, Fault>
    ensures { Gives (λ a. a) result (attribute_at (map (λ k. k.now) keys.now) (map seen_value values.now) key value) }
{
    match keys.get(key as usize) {
        Some(name) => match values.get(value as usize) {
            Some(value) => Ok(Attr {
                name: Text::copy_of(alloc, *name)?,
                value: copied(alloc, *value)?,
            }),
            None => Err(Fault::Bad),
        },
        None => Err(Fault::Bad),
    }
}

fn copied(alloc: Global, value: ReadValue<'_>) -> Result<AttrValue, Fault>
    ensures { Gives (λ v. v) result (Some (seen_value value.entry)) }
{
    match value {
        ReadValue::Text(text) => Ok(AttrValue::Text(Text::copy_of(alloc, text)?)),
        ReadValue::Whole(n) => Ok(AttrValue::Whole(n)),
        ReadValue::Truth(b) => Ok(AttrValue::Truth(b)),
        ReadValue::Bits32(n) => Ok(AttrValue::Bits32(n)),
        ReadValue::Bits64(n) => Ok(AttrValue::Bits64(n)),
    }
}

/// What a feature's message says. Its numbers take the place of those that were there.
pub fn feature_in(numbers: &mut Numbers, bytes: &[u8]) -> Result<Feature, Fault>
    ensures { Gives (λ f. seen_feature f numbers.new) result (said_from note_feature no_feature bytes.now 0) }
{
    numbers.tags.clear();
    numbers.ints.clear();
    let mut feature = Feature { id: 0, form: 0 };
    let mut at = 0;
    while at < bytes.len() {
        match read_field(bytes, at) {
            Ok(Some(field)) => match note(&mut feature, numbers, field) {
                Ok(()) => at = field.next,
                Err(e) => return Err(e),
            },
            Ok(None) => break,
            Err(_) => return Err(Fault::Bad),
        }
    }
    Ok(feature)
}

// One field more.
#[tactic(auto, unfolding(crate::specs::Grammar::note_feature))]
fn note(feature: &mut Feature, numbers: &mut Numbers, field: Field<'_>) -> Result<(), Fault>
    ensures { Gives (λ _. seen_feature feature.new numbers.new) result (note_feature (seen_feature feature.old numbers.old) (entry_of field.entry)) }
{
    if field.number == FEATURE_ID {
        feature.id = number_in(field.value)?;
        return Ok(());
    }
    if field.number == FEATURE_TAGS {
        return put_numbers(&mut numbers.tags, field.value);
    }
    if field.number == FEATURE_TYPE {
        feature.form = low_32(number_in(field.value)?);
        return Ok(());
    }
    if field.number == FEATURE_GEOMETRY {
        return put_numbers(&mut numbers.ints, field.value);
    }
    Ok(())
}
