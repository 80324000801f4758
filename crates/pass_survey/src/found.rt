ghost use Rattle.std.specs.Prelude.{◌≡◌, ◌++◌, ◌∷◌, [], None, Some, List, map, OnOk};
ghost use Rattle.std.specs.List.Sorted.{IsPermutation, IsStrictlyIncreasing};
ghost use Rattle.profile_rules.specs.declared.parts.Parts.{Parts};
ghost use Rattle.pass_survey.specs.Taken.{Taken, taken_with, number_of};
ghost use Rattle.pass_survey.specs.Found.{FoundOf, InOrder, Brings, IsReady};

use crate::header::HeaderAt;
use crate::least::{least_damage, least_header};
use member_sets::KeptRelation;
use pbf_blobs::BlockAt;
use std::alloc::Global;
use tb_types::{Damage, Memory, compare_places};

/// What was found of blocks, in whatever order they came: the damage of the least damaged one, the header of the least number,
/// the relations of which the profile makes something, and the blocks that have nodes and those that have ways. Where there is
/// damage, nothing else counts.
#[derive(Drop)]
pub struct Found {
    pub damage: Option<Damage>,
    pub header: Option<HeaderAt>,
    pub kept: Vec<KeptRelation>,
    pub nodes: Vec<BlockAt>,
    pub ways: Vec<BlockAt>,
}

impl Found {
    /// Nothing yet. It takes no memory.
    pub fn new(alloc: Global) -> Found
        ensures none { (parts : Parts) → FoundOf parts result [] }
        ensures ready { (parts : Parts) → IsReady parts result }
    {
        Found {
            damage: None,
            header: None,
            kept: Vec::new(alloc),
            nodes: Vec::new(alloc),
            ways: Vec::new(alloc),
        }
    }

    /// Takes up what was found of other blocks.
    pub fn join(&mut self, other: Found) -> Result<(), Memory>
        ensures joins { (parts : Parts) (one two : List Taken) → FoundOf parts self.old one → FoundOf parts other two → OnOk result (FoundOf parts self.new (one ++ two)) }
        ensures ready { (parts : Parts) → IsReady parts self.old → IsReady parts other → OnOk result (IsReady parts self.new) }
    {
        self.bring(other)
    }

    // Puts the lists of others behind its own, and notes the lesser damage and header.
    fn bring(&mut self, other: Found) -> Result<(), Memory>
        ensures { OnOk result (Brings self.old self.new other.damage other.header other.kept.items other.nodes.items other.ways.items) }
    {
        let Found {
            damage,
            header,
            mut kept,
            mut nodes,
            mut ways,
        } = other;
        self.damage = least_damage(self.damage, damage);
        self.header = least_header(self.header, header);
        self.kept.append(&mut kept)?;
        self.nodes.append(&mut nodes)?;
        self.ways.append(&mut ways)?;
        Ok(())
    }

    /// Puts what was found into the order of the file, in place: blocks by their numbers, relations by their places.
    pub fn arrange(&mut self)
        ensures order { (parts : Parts) (taken ordered : List Taken) → FoundOf parts self.old taken → IsPermutation taken ordered → IsStrictlyIncreasing (map number_of ordered) → InOrder parts self.new ordered }
        ensures ready { (parts : Parts) → IsReady parts self.old → IsReady parts self.new }
    {
        self.kept
            .sort_unstable_by(|one, other| compare_places(one.place, other.place));
        self.nodes.sort_unstable_by_key(|block| block.no);
        self.ways.sort_unstable_by_key(|block| block.no);
    }
}
