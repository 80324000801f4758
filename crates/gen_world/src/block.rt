ghost use Rattle.std.specs.Prelude.{◌≡◌, ◌<◌, All, map, flat_map, IfOk};
ghost use Rattle.gen_world.specs.Words.{pair_of};
ghost use Rattle.gen_world.specs.Elements.{node_tags, way_tags, relation_tags};
ghost use Rattle.gen_world.specs.Blocks.{block_text, node_block, way_block, relation_block};

use crate::dense::put_dense;
use crate::field::{BLOCK_GROUP, BLOCK_STRINGS, GROUP_DENSE};
use crate::node::Node;
use crate::relation::Relation;
use crate::strings::Strings;
use crate::tagged::{put_relations, put_ways};
use crate::way::Way;
use crate::word::Tag;
use std::alloc::Global;
use tb_types::Memory;
use tb_wire::put_len;

/// The block of these nodes, in dense form.
#[tactic(auto, unfolding(crate::specs::Blocks::node_block))]
pub fn node_block(alloc: Global, nodes: &[Node]) -> Result<Vec<u8>, Memory>
    ensures { IfOk result (λ v. v.items ≡ node_block nodes.now) }
{
    let tags = tags_of_nodes(alloc, nodes)?;
    let strings = Strings::of(alloc, &tags)?;
    let mut dense = Vec::new(alloc);
    put_dense(alloc, &mut dense, &strings, nodes)?;
    let mut group = Vec::new(alloc);
    put_len(&mut group, GROUP_DENSE, &dense)?;
    block_of(alloc, &strings, &group)
}

/// The block of these ways, whose clusters are below 1,000,000.
#[tactic(auto, unfolding(crate::specs::Blocks::way_block))]
pub fn way_block(alloc: Global, ways: &[Way]) -> Result<Vec<u8>, Memory>
    requires { All (λ w. w.cluster < 1000000) ways.now }
    ensures { IfOk result (λ v. v.items ≡ way_block ways.now) }
{
    let tags = tags_of_ways(alloc, ways)?;
    let strings = Strings::of(alloc, &tags)?;
    let mut group = Vec::new(alloc);
    put_ways(alloc, &mut group, &strings, ways)?;
    block_of(alloc, &strings, &group)
}

/// The block of these relations, whose areas are below 1,000,000.
#[tactic(auto, unfolding(crate::specs::Blocks::relation_block))]
pub fn relation_block(alloc: Global, relations: &[Relation]) -> Result<Vec<u8>, Memory>
    requires { All (λ r. r.area < 1000000) relations.now }
    ensures { IfOk result (λ v. v.items ≡ relation_block relations.now) }
{
    let tags = tags_of_relations(alloc, relations)?;
    let strings = Strings::of(alloc, &tags)?;
    let mut group = Vec::new(alloc);
    put_relations(alloc, &mut group, &strings, relations)?;
    block_of(alloc, &strings, &group)
}

// A block of a table and a group.
#[tactic(auto, unfolding(crate::specs::Blocks::block_text))]
fn block_of(alloc: Global, strings: &Strings, group: &[u8]) -> Result<Vec<u8>, Memory>
    ensures { IfOk result (λ v. v.items ≡ block_text strings.now group.now) }
{
    let mut table = Vec::new(alloc);
    strings.put(alloc, &mut table)?;
    let mut block = Vec::new(alloc);
    put_len(&mut block, BLOCK_STRINGS, &table)?;
    put_len(&mut block, BLOCK_GROUP, group)?;
    Ok(block)
}

fn tags_of_nodes(alloc: Global, nodes: &[Node]) -> Result<Vec<Tag>, Memory>
    ensures { IfOk result (λ v. map pair_of v.items ≡ flat_map node_tags nodes.now) }
{
    let mut tags = Vec::new(alloc);
    for node in nodes {
        node.put_tags(&mut tags)?;
    }
    Ok(tags)
}

fn tags_of_ways(alloc: Global, ways: &[Way]) -> Result<Vec<Tag>, Memory>
    ensures { IfOk result (λ v. map pair_of v.items ≡ flat_map way_tags ways.now) }
{
    let mut tags = Vec::new(alloc);
    for way in ways {
        way.put_tags(&mut tags)?;
    }
    Ok(tags)
}

fn tags_of_relations(alloc: Global, relations: &[Relation]) -> Result<Vec<Tag>, Memory>
    ensures { IfOk result (λ v. map pair_of v.items ≡ flat_map relation_tags relations.now) }
{
    let mut tags = Vec::new(alloc);
    for relation in relations {
        relation.put_tags(&mut tags)?;
    }
    Ok(tags)
}
