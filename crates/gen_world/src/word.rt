ghost use Rattle.std.specs.Prelude.{◌≡◌, ◌++◌, OnOk, codes, decimal};
ghost use Rattle.gen_world.specs.Words.{text_of};

use crate::way_id::WayId;
use std::alloc::Global;
use tb_types::Memory;

/// A text that tags are made of.
#[derive(Clone, Copy, Debug, PartialEq, Eq)]
pub enum Word {
    Amenity,
    Cafe,
    Bench,
    Building,
    Yes,
    Highway,
    Residential,
    Name,
    /// The name of the way of an id.
    WayName(WayId),
    Kind,
    Multipolygon,
    Landuse,
    Forest,
}

/// A tag of an element.
#[derive(Clone, Copy, Drop)]
pub struct Tag {
    pub key: Word,
    pub value: Word,
}

impl Tag {
    pub fn new(key: Word, value: Word) -> Tag
        ensures key { result.key ≡ key }
        ensures value { result.value ≡ value }
    {
        Tag { key, value }
    }
}

impl Word {
    /// Appends the word as it is written.
    #[tactic(auto, unfolding(crate::specs::Words::text_of))]
    pub fn put(self, alloc: Global, out: &mut Vec<u8>) -> Result<(), Memory>
        ensures { OnOk result (out.new.items ≡ out.old.items ++ text_of self) }
    {
        match self {
            Word::Amenity => put_bytes(out, b"amenity"),
            Word::Cafe => put_bytes(out, b"cafe"),
            Word::Bench => put_bytes(out, b"bench"),
            Word::Building => put_bytes(out, b"building"),
            Word::Yes => put_bytes(out, b"yes"),
            Word::Highway => put_bytes(out, b"highway"),
            Word::Residential => put_bytes(out, b"residential"),
            Word::Name => put_bytes(out, b"name"),
            Word::WayName(way) => put_name(alloc, out, way.id),
            Word::Kind => put_bytes(out, b"type"),
            Word::Multipolygon => put_bytes(out, b"multipolygon"),
            Word::Landuse => put_bytes(out, b"landuse"),
            Word::Forest => put_bytes(out, b"forest"),
        }
    }
}

fn put_bytes(out: &mut Vec<u8>, bytes: &[u8]) -> Result<(), Memory>
    ensures { OnOk result (out.new.items ≡ out.old.items ++ bytes.now) }
{
    out.extend_from_slice(bytes)?;
    Ok(())
}

// Appends the name of the way of an id.
fn put_name(alloc: Global, out: &mut Vec<u8>, id: u32) -> Result<(), Memory>
    ensures { OnOk result (out.new.items ≡ out.old.items ++ codes "Way " ++ decimal id) }
{
    let name = format!(in alloc; "Way {id}")?;
    put_bytes(out, name.as_bytes())
}
