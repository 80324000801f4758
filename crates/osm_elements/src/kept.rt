ghost use Rattle.std.specs.Prelude.{◌≡◌, ◌+◌, ◌<◌, ◌≤◌, ◌^◌, [], ◌∷◌, List, IfOk, MatchResult, ⊤};
ghost use Rattle.osm_elements.specs.Kept.{IsEmpty, Keeps, keeps_none, keeps_on};
ghost use Rattle.osm_elements.specs.Block.{block_in};
ghost use Rattle.osm_elements.specs.TagRefs.{seen_tags};
ghost use Rattle.osm_elements.specs.Elements.{Element};

use crate::element::{AnyElement, Block, NodeEl, RelEl, TagRef, WayEl};
use crate::numbers::MOST_ELEMENTS;
use crate::taker::ElementTaker;
use std::alloc::Global;
use tb_types::{Kind, Memory, Seq, Tags, Text};

/// Keeps the elements that it takes, each with its number among all of them.
#[derive(Drop)]
pub(crate) struct Keeper {
    alloc: Global,
    nodes: Vec<NodeEl>,
    ways: Vec<WayEl>,
    relations: Vec<RelEl>,
    count: u64,
}

impl Keeper {
    pub fn new(alloc: Global) -> Keeper
        ensures { IsEmpty result }
    {
        Keeper {
            alloc,
            nodes: Vec::new(alloc),
            ways: Vec::new(alloc),
            relations: Vec::new(alloc),
            count: 0,
        }
    }

    /// The block of what was kept.
    pub fn finish(self) -> Block
        ensures { (start : Keeper) (elements : List Element) → IsEmpty start → Keeps start elements self → result ≡ block_in elements }
    {
        Block {
            nodes: Seq::from_vec(self.nodes),
            ways: Seq::from_vec(self.ways),
            relations: Seq::from_vec(self.relations),
        }
    }

    // The number of the next element, which has 32 bits.
    fn next(&self) -> Result<u32, Memory>
        ensures { MatchResult result (λ index. (index ≡ self.now.count) × (index < 2 ^ 32)) (λ _. 2 ^ 32 ≤ self.now.count) }
    {
        if self.count < MOST_ELEMENTS {
            Ok(self.count as u32)
        } else {
            Err(Memory)
        }
    }
}

impl ElementTaker for Keeper {
    type Stop = Memory;

    ghost steps = { Keeps };

    ghost stops = { λ _ _ _ _. ⊤ };

    fn make_room(&mut self, kind: Kind, count: usize) -> Result<(), Memory> {
        match kind {
            Kind::Node => self.nodes.reserve(count)?,
            Kind::Way => self.ways.reserve(count)?,
            Kind::Relation => self.relations.reserve(count)?,
        }
        Ok(())
    }

    // `Memory` also from 2^32 elements on, since their numbers have 32 bits.
    fn take(&mut self, element: AnyElement<'_>) -> Result<(), Memory> {
        let index = self.next()?;
        match element {
            AnyElement::Node(id, at, tags) => {
                let tags = copy_tags(self.alloc, tags)?;
                self.nodes.push(NodeEl {
                    index,
                    id,
                    at,
                    tags,
                })?;
            }
            AnyElement::Way(id, tags, refs) => {
                let tags = copy_tags(self.alloc, tags)?;
                let refs = Seq::from_vec(Vec::from_slice(self.alloc, refs)?);
                self.ways.push(WayEl {
                    index,
                    id,
                    tags,
                    refs,
                })?;
            }
            AnyElement::Relation(id, tags, members) => {
                let tags = copy_tags(self.alloc, tags)?;
                let members = Seq::from_vec(Vec::from_slice(self.alloc, members)?);
                self.relations.push(RelEl {
                    index,
                    id,
                    tags,
                    members,
                })?;
            }
        }
        self.count += 1;
        Ok(())
    }

    ghost steps_none = { keeps_none };

    ghost steps_on = { keeps_on };

    ghost stops_after = { λ _ _ _ _ _ _ _ _. tt };
}

/// A copy of tags that a taker is given. None take no memory.
pub fn copy_tags(alloc: Global, tags: &[TagRef<'_>]) -> Result<Tags, Memory>
    ensures { IfOk result (λ copy. copy.pairs ≡ seen_tags tags.now) }
{
    let mut pairs = Vec::with_capacity(alloc, tags.len())?;
    for tag in tags {
        pairs.push((
            Text::copy_of(alloc, tag.key)?,
            Text::copy_of(alloc, tag.value)?,
        ))?;
    }
    Ok(Tags {
        pairs: Seq::from_vec(pairs),
    })
}
