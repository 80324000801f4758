ghost use Rattle.std.specs.Prelude.{◌≡◌, ◌++◌, ◌∷◌, [], None, Some, List, OnOk, cond};
ghost use Rattle.tb_types.specs.declared.damage.Why.{Why};
ghost use Rattle.pbf_blobs.specs.declared.block.BlockKind.TheVariants as kinds;
ghost use Rattle.osm_elements.specs.Kinds.{has_any};
ghost use Rattle.osm_elements.specs.declared.fault.BlockErr.TheVariants as faults;
ghost use Rattle.profile_rules.specs.declared.parts.Parts.{Parts};
ghost use Rattle.pass_survey.specs.Kept.{kept_in};
ghost use Rattle.pass_survey.specs.Taken.{Taken, taken_with};
ghost use Rattle.pass_survey.specs.Found.{FoundOf, Brings, BringsBlock, IsReady};

use crate::body::{block_in, header_in};
use crate::found::Found;
use crate::header::HeaderAt;
use crate::kept::put_kept;
use crate::least::{least_damage, least_header};
use osm_elements::{Block, BlockErr, kinds_of};
use pbf_blobs::{BlockAt, BlockKind};
use profile_rules::Profile;
use std::alloc::Global;
use tb_types::{Damage, Memory};

impl Found {
    /// Takes up what the body of a block holds.
    pub fn take(
        &mut self,
        alloc: Global,
        profile: &Profile,
        block: BlockAt,
        body: &[u8],
    ) -> Result<(), Memory>
        ensures takes { (taken : List Taken) → FoundOf profile.now self.old taken → OnOk result (FoundOf profile.now self.new (taken ++ taken_with block body.now ∷ [])) }
        ensures ready { IsReady profile.now self.old → OnOk result (IsReady profile.now self.new) }
    {
        self.take_block(alloc, profile, block, body)
    }

    // Takes it up by its kind.
    fn take_block(
        &mut self,
        alloc: Global,
        profile: &Profile,
        block: BlockAt,
        body: &[u8],
    ) -> Result<(), Memory>
        ensures brings { OnOk result (BringsBlock profile.now self.old self.new (taken_with block body.now)) }
        ensures ready { IsReady profile.now self.old → OnOk result (IsReady profile.now self.new) }
    {
        match block.kind {
            BlockKind::Header => self.take_header(alloc, block, body),
            BlockKind::Elements => self.take_elements(alloc, profile, block, body),
            BlockKind::Other => Ok(()),
        }
    }

    // Takes up a header frame.
    fn take_header(&mut self, alloc: Global, block: BlockAt, body: &[u8]) -> Result<(), Memory>
        requires kind { block.kind ≡ kinds.Header }
        ensures brings { (parts : Parts) → OnOk result (BringsBlock parts self.old self.new (taken_with block body.now)) }
        ensures ready { (parts : Parts) → IsReady parts self.old → OnOk result (IsReady parts self.new) }
    {
        match header_in(alloc, body) {
            Ok(bounds) => {
                self.note_header(HeaderAt {
                    no: block.no,
                    bounds,
                });
                Ok(())
            }
            Err(e) => self.refuse(block.no, e),
        }
    }

    // Notes a header, if it is the least.
    fn note_header(&mut self, header: HeaderAt)
        ensures { Brings self.old self.new None (Some header) [] [] [] }
    {
        self.header = least_header(self.header, Some(header));
    }

    // Takes up a data frame.
    fn take_elements(
        &mut self,
        alloc: Global,
        profile: &Profile,
        block: BlockAt,
        body: &[u8],
    ) -> Result<(), Memory>
        requires kind { block.kind ≡ kinds.Elements }
        ensures brings { OnOk result (BringsBlock profile.now self.old self.new (taken_with block body.now)) }
        ensures ready { IsReady profile.now self.old → OnOk result (IsReady profile.now self.new) }
    {
        match block_in(alloc, body) {
            Ok(elements) => self.note_block(alloc, profile, block, &elements),
            Err(e) => self.refuse(block.no, e),
        }
    }

    // Notes which kinds of elements a block has, and the relations that are kept.
    fn note_block(
        &mut self,
        alloc: Global,
        profile: &Profile,
        block: BlockAt,
        elements: &Block,
    ) -> Result<(), Memory>
        ensures brings { OnOk result (Brings self.old self.new None None (kept_in profile.now block.no elements.now.relations) (cond (has_any elements.now.nodes) (block ∷ []) []) (cond (has_any elements.now.ways) (block ∷ []) [])) }
        ensures ready { block.kind ≡ kinds.Elements → IsReady profile.now self.old → OnOk result (IsReady profile.now self.new) }
    {
        let kinds = kinds_of(elements);
        push_if(&mut self.nodes, block, kinds.nodes)?;
        push_if(&mut self.ways, block, kinds.ways)?;
        let relations = elements.relations.as_slice();
        put_kept(&mut self.kept, alloc, profile, block.no, relations)
    }

    // Notes the damage of a block, if it is the least.
    fn refuse(&mut self, no: u32, e: BlockErr) -> Result<(), Memory>
        ensures { OnOk result ((why : Why) × (e ≡ faults.Bad why) × Brings self.old self.new (Some (record { block = no; why = why })) None [] [] []) }
    {
        match e {
            BlockErr::Bad(why) => {
                self.damage = least_damage(self.damage, Some(Damage { block: no, why }));
                Ok(())
            }
            BlockErr::Memory => Err(Memory),
        }
    }
}

// Adds a block, if that is said.
fn push_if(blocks: &mut Vec<BlockAt>, block: BlockAt, has: bool) -> Result<(), Memory>
    ensures { OnOk result (blocks.new.items ≡ blocks.old.items ++ cond has (block ∷ []) []) }
{
    if !has {
        return Ok(());
    }
    blocks.push(block)?;
    Ok(())
}
