ghost use Rattle.std.specs.Prelude.{◌≡◌, ◌++◌, ◌∷◌, [], All, OnOk, IfOk};
ghost use Rattle.tb_types.specs.declared.element.Kind.TheVariants as kinds;
ghost use Rattle.profile_rules.specs.declared.parts.Parts.{Parts};
ghost use Rattle.profile_rules.specs.Features.{specs_of};
ghost use Rattle.tile_model.specs.Relations.{way_ids};
ghost use Rattle.pass_survey.specs.Kept.{kept_of, kept_in, IsSoundKept};

use member_sets::KeptRelation;
use osm_elements::{Member, RelEl};
use profile_rules::{Profile, Spec, specs};
use std::alloc::Global;
use tb_types::{Kind, Memory, OsmId, Place, Seq};

/// Adds those of the relations of a block of which the rules of a profile make something.
pub fn put_kept(
    kept: &mut Vec<KeptRelation>,
    alloc: Global,
    profile: &Profile,
    block: u32,
    relations: &[RelEl],
) -> Result<(), Memory>
    ensures kept { OnOk result (kept.new.items ≡ kept.old.items ++ kept_in profile.now block relations.now) }
    ensures sound { OnOk result (All (IsSoundKept profile.now) kept.old.items → All (IsSoundKept profile.now) kept.new.items) }
{
    for relation in relations {
        put_relation(kept, alloc, profile, block, relation)?;
    }
    Ok(())
}

// Adds a relation, if the rules make something of it.
fn put_relation(
    kept: &mut Vec<KeptRelation>,
    alloc: Global,
    profile: &Profile,
    block: u32,
    relation: &RelEl,
) -> Result<(), Memory>
    ensures kept { OnOk result (kept.new.items ≡ kept.old.items ++ kept_in profile.now block (relation.now ∷ [])) }
    ensures sound { OnOk result (All (IsSoundKept profile.now) kept.old.items → All (IsSoundKept profile.now) kept.new.items) }
{
    let specs = specs(alloc, profile, &relation.tags, Kind::Relation)?;
    if specs.as_slice().is_empty() {
        return Ok(());
    }
    kept.push(kept_of(alloc, block, relation, specs)?)?;
    Ok(())
}

// What is kept of a relation of which the rules make these specs.
fn kept_of(
    alloc: Global,
    block: u32,
    relation: &RelEl,
    specs: Seq<Spec>,
) -> Result<KeptRelation, Memory>
    ensures { IfOk result (λ k. (parts : Parts) → specs ≡ specs_of parts relation.now.tags kinds.Relation → k ≡ kept_of parts block relation.now) }
{
    let members = way_ids(alloc, relation.members.as_slice())?;
    Ok(KeptRelation {
        place: Place {
            block,
            index: relation.index,
        },
        id: relation.id,
        members,
        specs,
    })
}

// The ids of the ways among members, in member order.
#[tactic(auto, using(crate::proofs::Keeping::chosen_next, crate::proofs::Keeping::chosen_not))]
fn way_ids(alloc: Global, members: &[Member]) -> Result<Seq<OsmId>, Memory>
    ensures { IfOk result (λ ids. ids ≡ way_ids members.now) }
{
    let mut ids = Seq::new(alloc);
    for member in members {
        match member.kind {
            Kind::Way => ids.push(member.id)?,
            Kind::Node | Kind::Relation => {}
        }
    }
    Ok(ids)
}
