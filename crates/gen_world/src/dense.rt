ghost use Rattle.std.specs.Prelude.{◌≡◌, ◌++◌, map, OnOk, IfOk, is_some};
ghost use Rattle.std.specs.List.{list_any};
ghost use Rattle.gen_world.specs.Blocks.{dense_text, dense_tags};

use crate::field::{DENSE_ID, DENSE_LAT, DENSE_LON, DENSE_TAGS};
use crate::node::Node;
use crate::put::{put_packed, put_steps};
use crate::strings::Strings;
use crate::tagged::put_places;
use std::alloc::Global;
use tb_types::Memory;

/// Appends nodes in dense form.
#[tactic(auto, using(std::proofs::Common::append_assoc), unfolding(crate::specs::Blocks::dense_text))]
pub fn put_dense(
    alloc: Global,
    out: &mut Vec<u8>,
    strings: &Strings,
    nodes: &[Node],
) -> Result<(), Memory>
    ensures { OnOk result (out.new.items ≡ out.old.items ++ dense_text strings.now nodes.now) }
{
    let mut packed = Vec::new(alloc);
    let ids = ids_of(alloc, nodes)?;
    put_steps(out, &mut packed, DENSE_ID, &ids)?;
    let lats = lats_of(alloc, nodes)?;
    put_steps(out, &mut packed, DENSE_LAT, &lats)?;
    let lons = lons_of(alloc, nodes)?;
    put_steps(out, &mut packed, DENSE_LON, &lons)?;
    let tags = dense_tags(alloc, strings, nodes)?;
    put_packed(out, &mut packed, DENSE_TAGS, &tags)
}

fn ids_of(alloc: Global, nodes: &[Node]) -> Result<Vec<i32>, Memory>
    ensures { IfOk result (λ v. v.items ≡ map (λ n. n.id) nodes.now) }
{
    Ok(nodes.iter().map(|n| n.id).collect(alloc)?)
}

fn lats_of(alloc: Global, nodes: &[Node]) -> Result<Vec<i32>, Memory>
    ensures { IfOk result (λ v. v.items ≡ map (λ n. n.lat) nodes.now) }
{
    Ok(nodes.iter().map(|n| n.lat).collect(alloc)?)
}

fn lons_of(alloc: Global, nodes: &[Node]) -> Result<Vec<i32>, Memory>
    ensures { IfOk result (λ v. v.items ≡ map (λ n. n.lon) nodes.now) }
{
    Ok(nodes.iter().map(|n| n.lon).collect(alloc)?)
}

// The places of each node's tags and a 0, or nothing where no node has a tag.
fn dense_tags(alloc: Global, strings: &Strings, nodes: &[Node]) -> Result<Vec<u64>, Memory>
    ensures { IfOk result (λ v. v.items ≡ dense_tags strings.now nodes.now) }
{
    let mut places = Vec::new(alloc);
    if has_tags(nodes) {
        let mut tags = Vec::new(alloc);
        for node in nodes {
            tags.clear();
            node.put_tags(&mut tags)?;
            put_places(&mut places, strings, &tags)?;
            places.push(0)?;
        }
    }
    Ok(places)
}

fn has_tags(nodes: &[Node]) -> bool
    ensures { result ≡ list_any (λ n. is_some n.amenity) nodes.now }
{
    nodes.iter().any(|n| n.amenity.is_some())
}
