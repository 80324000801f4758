ghost use Rattle.std.specs.Prelude.{◌≡◌, All, OnOk, map};
ghost use Rattle.tb_types.specs.Counts.{Counted};
ghost use Rattle.pass_order.specs.Orders.{MayPass, next_order};
ghost use Rattle.block_pass.specs.Loading.{FitsIn};
ghost use Rattle.block_pass.specs.Orders.{load_order, needs_of};
ghost use Rattle.profile_rules.specs.Sound.{IsSound};
ghost use Rattle.feature_runs.specs.Writing.{Frames};
ghost use Rattle.tile_model.specs.Loads.{whole, Logs};
ghost use Rattle.pass_survey.specs.Found.{IsOfElements};
ghost use Rattle.build_one.specs.Passes.{AreDrawn, Reads};
ghost use Rattle.build_one.specs.Survey.{as_spilled, source_failed};
ghost use Rattle.build_one.specs.Works.{AreMade, ways_made, ways_meaning, ways_put};

use crate::booking::book_pass;
use crate::elements::{read_elements, stop_of_blocks};
use crate::stop::{PassStop, stop_of_spill};
use crate::way_work::WayWork;
use block_pass::{Order, Work, pass_blocks};
use feature_runs::RunBuffer;
use member_sets::NeededWays;
use memory_book::{Book, Purse};
use node_store::{Locations, Shaped, Shapes};
use osm_elements::Block;
use pass_shapes::{put_shaped, put_ways};
use pbf_blobs::BlockAt;
use profile_rules::Profile;
use shard_store::ShardMap;
use std::alloc::Global;
use tb_outside::{Source, Spill};
use tb_types::{Memory, OsmId};

impl<'a, S: Spill> Work for WayWork<'a, S> {
    type Body = Block;

    type Fault = PassStop;

    ghost use Rattle.build_one.specs.WorkLaws.{ways-begin, ways-stop};

    ghost meaning = { ways_meaning S.seen };

    fn read(&self, block: BlockAt, body: Vec<u8>) -> Result<Block, PassStop> {
        read_elements(self.alloc, block, &body)
    }

    fn put(&mut self, block: BlockAt, body: &Block) -> Result<(), PassStop> {
        let ways = body.ways.as_slice();
        match put_shaped(
            self.entries,
            self.alloc,
            self.needed,
            self.locations,
            block.no,
            ways,
        ) {
            Ok(()) => Ok(()),
            Err(Memory) => Err(PassStop::Memory),
        }
    }

    fn emit(&mut self, block: BlockAt, body: Block) -> Result<(), PassStop> {
        let ways = body.ways.as_slice();
        match put_ways(
            self.buffer,
            self.spill,
            self.alloc,
            self.profile,
            self.locations,
            block.no,
            ways,
        ) {
            Ok(()) => Ok(()),
            Err(e) => Err(stop_of_spill(e)),
        }
    }

    ghost begins = { ways-begin S.seen };

    ghost stops_after = { ways-stop S.seen };
}

/// Gives the needed ways their shapes, and adds the items of all ways to the run buffer. Each of these blocks is loaded, once.
pub fn ways<L: Purse, R: Source, S: Spill>(
    alloc: Global,
    profile: &Profile,
    reader: &mut R,
    spill: &mut S,
    book: &mut Book<L>,
    order: &mut Order,
    buffer: &mut RunBuffer,
    blocks: &[BlockAt],
    needed: &NeededWays,
    locations: &Locations,
) -> Result<Shapes, PassStop>
    requires sound { IsSound profile.now }
    requires may { MayPass order.old (needs_of blocks.now) }
    requires within { All (FitsIn (R.seen reader.old).bytes) blocks.now }
    requires kinds { All IsOfElements blocks.now }
    ensures read { Reads (λ shapes read. AreDrawn profile.now needed.now locations.now (S.seen spill.old) (S.seen spill.new) buffer.old buffer.new shapes read) blocks.now (R.seen reader.old).bytes result }
    ensures counts { Counted (source_failed result) (R.seen reader.old).faults (R.seen reader.new).faults }
    ensures loads { OnOk result (Logs (R.seen reader.old) (R.seen reader.new) (map whole (load_order order.old blocks.now))) }
    ensures order { OnOk result (order.new ≡ next_order order.old (needs_of blocks.now)) }
    ensures bytes { (R.seen reader.new).bytes ≡ (R.seen reader.old).bytes }
    ensures spill { Frames (S.seen spill.old) (S.seen spill.new) (as_spilled result) }
{
    let grant = book_pass(book, order, blocks)?;
    let mut entries: Vec<(OsmId, Shaped)> = Vec::new(alloc);
    let passed = pass_ways(
        alloc,
        profile,
        reader,
        spill,
        order,
        buffer,
        blocks,
        needed,
        locations,
        &mut entries,
    );
    book.give(grant);
    match passed {
        Ok(()) => Ok(Shapes::from_map(ShardMap::joined(entries))),
        Err(stop) => Err(stop),
    }
}

// The same, with what is put behind other entries.
fn pass_ways<'a, R: Source, S: Spill>(
    alloc: Global,
    profile: &'a Profile,
    reader: &mut R,
    spill: &'a mut S,
    order: &mut Order,
    buffer: &'a mut RunBuffer,
    blocks: &[BlockAt],
    needed: &'a NeededWays,
    locations: &'a Locations,
    entries: &'a mut Vec<(OsmId, Shaped)>,
) -> Result<(), PassStop>
    requires sound { IsSound profile.now }
    requires may { MayPass order.old (needs_of blocks.now) }
    requires within { All (FitsIn (R.seen reader.old).bytes) blocks.now }
    requires kinds { All IsOfElements blocks.now }
    ensures read { Reads (λ x read. AreMade profile.now (ways_put needed.now locations.now) (ways_made profile.now locations.now) read entries.old.items entries.new.items (S.seen spill.old) (S.seen spill.new) buffer.old buffer.new) blocks.now (R.seen reader.old).bytes result }
    ensures counts { Counted (source_failed result) (R.seen reader.old).faults (R.seen reader.new).faults }
    ensures loads { OnOk result (Logs (R.seen reader.old) (R.seen reader.new) (map whole (load_order order.old blocks.now))) }
    ensures order { OnOk result (order.new ≡ next_order order.old (needs_of blocks.now)) }
    ensures bytes { (R.seen reader.new).bytes ≡ (R.seen reader.old).bytes }
    ensures spill { Frames (S.seen spill.old) (S.seen spill.new) (as_spilled result) }
{
    let mut work = WayWork {
        buffer,
        spill,
        entries,
        alloc,
        profile,
        needed,
        locations,
    };
    match pass_blocks(alloc, order, reader, blocks, &mut work) {
        Ok(()) => Ok(()),
        Err(e) => Err(stop_of_blocks(e)),
    }
}
