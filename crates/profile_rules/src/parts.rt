use crate::attribute::Attribute;
use crate::condition::Condition;
use tb_types::{Seq, Text};

/// What an element has to be for a rule, and what its feature becomes.
#[derive(Clone, Copy, Debug, PartialEq, Eq)]
pub enum Form {
    Point,
    Line,
    Area,
}

/// A layer of a profile. `buffer` is 0 to 256 and `tolerance` 0 to 64, in units of a tile, which has 4096. Ids aren't
/// empty and differ.
#[derive(Debug, Drop)]
pub struct LayerInfo {
    pub id: Text,
    pub buffer: u32,
    pub tolerance: u32,
}

/// A rule of a profile. `layer` is the number of its layer, and its features stand at the zooms from `min` to `max`.
#[derive(Debug, Drop)]
pub struct Rule {
    pub layer: u8,
    pub form: Form,
    pub conditions: Seq<Condition>,
    pub min: u8,
    pub max: u8,
    pub order: i16,
    pub attributes: Seq<Attribute>,
}

/// The parts of a profile, as contracts see it.
#[derive(Debug, Drop)]
pub struct Parts {
    pub name: Text,
    pub min: u8,
    pub max: u8,
    pub layers: Seq<LayerInfo>,
    pub rules: Seq<Rule>,
}
