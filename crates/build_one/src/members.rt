ghost use Rattle.std.specs.Prelude.{◌≡◌, All, OnOk, map};
ghost use Rattle.tb_types.specs.Counts.{Counted};
ghost use Rattle.pass_order.specs.Orders.{MayPass, next_order};
ghost use Rattle.block_pass.specs.Loading.{FitsIn};
ghost use Rattle.block_pass.specs.Orders.{load_order, needs_of};
ghost use Rattle.tile_model.specs.Loads.{whole, Logs};
ghost use Rattle.pass_survey.specs.Found.{IsOfElements};
ghost use Rattle.build_one.specs.Passes.{AreNeeded, Reads};
ghost use Rattle.build_one.specs.Survey.{source_failed, NoSpill};
ghost use Rattle.build_one.specs.Works.{members_meaning};

use crate::booking::book_pass;
use crate::elements::{read_elements, stop_of_blocks};
use crate::stop::PassStop;
use block_pass::{Order, Work, pass_blocks};
use member_sets::{NeededNodes, NeededWays, Unit};
use memory_book::{Book, Purse};
use osm_elements::Block;
use pass_survey::put_needed;
use pbf_blobs::BlockAt;
use profile_rules::Profile;
use shard_store::ShardMap;
use std::alloc::Global;
use tb_outside::Source;
use tb_types::{Memory, OsmId};

/// Puts the nodes that ways need.
pub struct MemberWork<'a> {
    pub alloc: Global,
    pub profile: &'a Profile,
    pub ways: &'a NeededWays,
    pub ids: Vec<(OsmId, Unit)>,
}

impl<'a> Work for MemberWork<'a> {
    type Body = Block;

    type Fault = PassStop;

    ghost use Rattle.build_one.specs.WorkLaws.{members-begin, members-stop};

    ghost meaning = { members_meaning };

    fn read(&self, block: BlockAt, body: Vec<u8>) -> Result<Block, PassStop> {
        read_elements(self.alloc, block, &body)
    }

    fn put(&mut self, _block: BlockAt, body: &Block) -> Result<(), PassStop> {
        let ways = body.ways.as_slice();
        match put_needed(&mut self.ids, self.alloc, self.profile, self.ways, ways) {
            Ok(()) => Ok(()),
            Err(Memory) => Err(PassStop::Memory),
        }
    }

    fn emit(&mut self, _block: BlockAt, _body: Block) -> Result<(), PassStop> {
        Ok(())
    }

    ghost begins = { members-begin };

    ghost stops_after = { members-stop };
}

/// The nodes that are needed: those of each way of which the profile makes something, and of each that a kept relation needs.
/// Each of these blocks is loaded, once.
pub fn members<L: Purse, R: Source>(
    alloc: Global,
    profile: &Profile,
    reader: &mut R,
    book: &mut Book<L>,
    order: &mut Order,
    blocks: &[BlockAt],
    ways: &NeededWays,
) -> Result<NeededNodes, PassStop>
    requires may { MayPass order.old (needs_of blocks.now) }
    requires within { All (FitsIn (R.seen reader.old).bytes) blocks.now }
    requires kinds { All IsOfElements blocks.now }
    ensures read { Reads (λ needed read. AreNeeded profile.now ways.now needed read) blocks.now (R.seen reader.old).bytes result }
    ensures alone { NoSpill result }
    ensures counts { Counted (source_failed result) (R.seen reader.old).faults (R.seen reader.new).faults }
    ensures loads { OnOk result (Logs (R.seen reader.old) (R.seen reader.new) (map whole (load_order order.old blocks.now))) }
    ensures order { OnOk result (order.new ≡ next_order order.old (needs_of blocks.now)) }
    ensures bytes { (R.seen reader.new).bytes ≡ (R.seen reader.old).bytes }
{
    let grant = book_pass(book, order, blocks)?;
    let mut work = MemberWork {
        alloc,
        profile,
        ways,
        ids: Vec::new(alloc),
    };
    let passed = pass_blocks(alloc, order, reader, blocks, &mut work);
    book.give(grant);
    let MemberWork {
        alloc: _,
        profile: _,
        ways: _,
        ids,
    } = work;
    match passed {
        Ok(()) => Ok(NeededNodes::from_map(ShardMap::joined(ids))),
        Err(e) => Err(stop_of_blocks(e)),
    }
}
