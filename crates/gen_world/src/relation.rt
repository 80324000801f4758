ghost use Rattle.std.specs.Prelude.{◌≡◌, ◌+◌, ◌*◌, ◌/◌, ◌<◌, ◌^◌, ◌≤◌, ◌++◌, All, map, IfOk, OnOk};
ghost use Rattle.std.specs.List.{range_with_len};
ghost use Rattle.gen_world.specs.Elements.{relation_of, relation_tags, way_draws};
ghost use Rattle.gen_world.specs.Words.{pair_of};

use crate::counts::Counts;
use crate::numbers::Numbers;
use crate::word::{Tag, Word};
use std::alloc::Global;
use tb_types::Memory;

/// A relation: an area, whose ring is two ways of one cluster. Areas are counted from 0.
#[derive(Clone, Copy, Drop)]
pub struct Relation {
    pub id: u32,
    pub area: u32,
}

/// Draws so many relations behind the first ones. With those they are at most 100,000.
pub fn draw_relations(
    alloc: Global,
    numbers: &mut Numbers,
    counts: Counts,
    first: u64,
    count: u64,
) -> Result<Vec<Relation>, Memory>
    requires taken { numbers.old.taken ≡ 3 * counts.nodes + way_draws counts.ways + first }
    requires room { numbers.old.taken < 2 ^ 62 }
    requires some { 3 ≤ counts.ways }
    requires ways { counts.ways ≤ 1000000 }
    requires few { first + count ≤ 100000 }
    ensures relations { IfOk result (λ v. v.items ≡ map (relation_of numbers.old.seed counts) (range_with_len (first + 1) count)) }
    ensures near { IfOk result (λ v. All (λ r. r.area < 1000000) v.items) }
    ensures taken { OnOk result (numbers.new.taken ≡ 3 * counts.nodes + way_draws counts.ways + (first + count)) }
    ensures seed { OnOk result (numbers.new.seed ≡ numbers.old.seed) }
{
    let mut relations = Vec::with_capacity(alloc, count as usize)?;
    for id in first + 1..first + count + 1 {
        let area = numbers.draw((counts.ways + 1) / 4);
        relations.push(relation_at(id, area))?;
    }
    Ok(relations)
}

impl Relation {
    /// Appends the tags of the relation.
    #[tactic(auto, unfolding(crate::specs::Elements::relation_tags, crate::specs::Words::text_of))]
    pub fn put_tags(&self, tags: &mut Vec<Tag>) -> Result<(), Memory>
        ensures { OnOk result (map pair_of tags.new.items ≡ map pair_of tags.old.items ++ relation_tags self.now) }
    {
        tags.push(Tag::new(Word::Kind, Word::Multipolygon))?;
        tags.push(Tag::new(Word::Landuse, Word::Forest))?;
        Ok(())
    }
}

// The relation of an id and an area.
fn relation_at(id: u64, area: u64) -> Relation
    requires id { id < 2 ^ 32 }
    requires area { area < 2 ^ 32 }
    ensures id { result.id ≡ id }
    ensures area { result.area ≡ area }
{
    Relation {
        id: id as u32,
        area: area as u32,
    }
}
