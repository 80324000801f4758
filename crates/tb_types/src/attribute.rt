use crate::seq::Seq;
use crate::text::Text;

/// The tags of an element: pairs of a key and a value.
#[derive(Debug, Drop)]
pub struct Tags {
    pub pairs: Seq<(Text, Text)>,
}

/// An attribute of a feature in a tile.
#[derive(Debug, Drop)]
pub struct Attr {
    pub name: Text,
    pub value: AttrValue,
}

/// The value of an attribute. Floating values are kept as their bits.
#[derive(Debug, Drop)]
pub enum AttrValue {
    Text(Text),
    Whole(i128),
    Truth(bool),
    Bits32(u32),
    Bits64(u64),
}

/// What an archive's metadata says of the values under one attribute name.
#[derive(Clone, Copy, Debug, PartialEq, Eq)]
pub enum FieldKind {
    Text,
    Number,
    Boolean,
}
