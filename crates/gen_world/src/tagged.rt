ghost use Rattle.std.specs.Prelude.{◌≡◌, ◌++◌, ◌<◌, All, map, flat_map, OnOk};
ghost use Rattle.tb_wire.specs.Message.{len_text};
ghost use Rattle.gen_world.specs.Words.{pair_of};
ghost use Rattle.gen_world.specs.Tables.{keys_in, values_in, places_in};
ghost use Rattle.gen_world.specs.Blocks.{tagged_text, way_text, relation_text};

use crate::field::{
    ELEMENT_ID, ELEMENT_KEYS, ELEMENT_VALUES, GROUP_RELATION, GROUP_WAY, RELATION_KINDS,
    RELATION_MEMBERS, RELATION_ROLES, WAY_REFS,
};
use crate::put::{put_number, put_packed, put_steps};
use crate::relation::Relation;
use crate::strings::Strings;
use crate::way::Way;
use crate::word::Tag;
use std::alloc::Global;
use tb_types::Memory;
use tb_wire::put_len;

/// Room for what is put of one element.
#[derive(Drop)]
struct Room {
    packed: Vec<u8>,
    tags: Vec<Tag>,
    places: Vec<u64>,
    ids: Vec<i32>,
}

impl Room {
    fn new(alloc: Global) -> Room {
        Room {
            packed: Vec::new(alloc),
            tags: Vec::new(alloc),
            places: Vec::new(alloc),
            ids: Vec::new(alloc),
        }
    }
}

/// Appends ways as fields of their group. Their clusters are below 1,000,000.
pub fn put_ways(
    alloc: Global,
    out: &mut Vec<u8>,
    strings: &Strings,
    ways: &[Way],
) -> Result<(), Memory>
    requires { All (λ w. w.cluster < 1000000) ways.now }
    ensures { OnOk result (out.new.items ≡ out.old.items ++ flat_map (λ w. len_text 3 (way_text strings.now w)) ways.now) }
{
    let mut text = Vec::new(alloc);
    let mut room = Room::new(alloc);
    for way in ways {
        text.clear();
        put_way(&mut text, &mut room, strings, way)?;
        put_len(out, GROUP_WAY, &text)?;
    }
    Ok(())
}

/// Appends relations as fields of their group. Their areas are below 1,000,000.
pub fn put_relations(
    alloc: Global,
    out: &mut Vec<u8>,
    strings: &Strings,
    relations: &[Relation],
) -> Result<(), Memory>
    requires { All (λ r. r.area < 1000000) relations.now }
    ensures { OnOk result (out.new.items ≡ out.old.items ++ flat_map (λ r. len_text 4 (relation_text strings.now r)) relations.now) }
{
    let mut text = Vec::new(alloc);
    let mut room = Room::new(alloc);
    for relation in relations {
        text.clear();
        put_relation(&mut text, &mut room, strings, relation)?;
        put_len(out, GROUP_RELATION, &text)?;
    }
    Ok(())
}

#[tactic(auto, using(std::proofs::Common::append_assoc), unfolding(crate::specs::Blocks::way_text))]
fn put_way(out: &mut Vec<u8>, room: &mut Room, strings: &Strings, way: &Way) -> Result<(), Memory>
    requires { way.now.cluster < 1000000 }
    ensures { OnOk result (out.new.items ≡ out.old.items ++ way_text strings.now way.now) }
{
    room.tags.clear();
    way.put_tags(&mut room.tags)?;
    put_tagged(
        out,
        &mut room.packed,
        &mut room.places,
        strings,
        way.id,
        &room.tags,
    )?;
    room.ids.clear();
    way.put_refs(&mut room.ids)?;
    put_steps(out, &mut room.packed, WAY_REFS, &room.ids)
}

#[tactic(auto, using(std::proofs::Common::append_assoc), unfolding(crate::specs::Blocks::relation_text))]
fn put_relation(
    out: &mut Vec<u8>,
    room: &mut Room,
    strings: &Strings,
    relation: &Relation,
) -> Result<(), Memory>
    requires { relation.now.area < 1000000 }
    ensures { OnOk result (out.new.items ≡ out.old.items ++ relation_text strings.now relation.now) }
{
    room.tags.clear();
    relation.put_tags(&mut room.tags)?;
    put_tagged(
        out,
        &mut room.packed,
        &mut room.places,
        strings,
        relation.id,
        &room.tags,
    )?;
    put_packed(out, &mut room.packed, RELATION_ROLES, &[0, 0])?;
    let first = (4 * relation.area + 2) as i32;
    put_steps(out, &mut room.packed, RELATION_MEMBERS, &[first, first + 1])?;
    put_packed(out, &mut room.packed, RELATION_KINDS, &[1, 1])
}

// Appends an id, and the places of keys and values. `packed` and `places` are room for those.
#[tactic(auto, using(std::proofs::Common::append_assoc), unfolding(crate::specs::Blocks::tagged_text))]
fn put_tagged(
    out: &mut Vec<u8>,
    packed: &mut Vec<u8>,
    places: &mut Vec<u64>,
    strings: &Strings,
    id: u32,
    tags: &[Tag],
) -> Result<(), Memory>
    ensures { OnOk result (out.new.items ≡ out.old.items ++ tagged_text strings.now id (map pair_of tags.now)) }
{
    put_number(out, ELEMENT_ID, u64::from(id))?;
    set_keys(places, strings, tags)?;
    put_packed(out, packed, ELEMENT_KEYS, places)?;
    set_values(places, strings, tags)?;
    put_packed(out, packed, ELEMENT_VALUES, places)
}

fn set_keys(places: &mut Vec<u64>, strings: &Strings, tags: &[Tag]) -> Result<(), Memory>
    ensures { OnOk result (places.new.items ≡ keys_in strings.now (map pair_of tags.now)) }
{
    places.clear();
    for tag in tags {
        places.push(strings.place_of(tag.key))?;
    }
    Ok(())
}

fn set_values(places: &mut Vec<u64>, strings: &Strings, tags: &[Tag]) -> Result<(), Memory>
    ensures { OnOk result (places.new.items ≡ values_in strings.now (map pair_of tags.now)) }
{
    places.clear();
    for tag in tags {
        places.push(strings.place_of(tag.value))?;
    }
    Ok(())
}

/// Appends the places of tags, a key before its value.
pub fn put_places(places: &mut Vec<u64>, strings: &Strings, tags: &[Tag]) -> Result<(), Memory>
    ensures { OnOk result (places.new.items ≡ places.old.items ++ places_in strings.now (map pair_of tags.now)) }
{
    for tag in tags {
        places.push(strings.place_of(tag.key))?;
        places.push(strings.place_of(tag.value))?;
    }
    Ok(())
}
