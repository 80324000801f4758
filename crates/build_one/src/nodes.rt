ghost use Rattle.std.specs.Prelude.{◌≡◌, All, OnOk, map};
ghost use Rattle.tb_types.specs.Counts.{Counted};
ghost use Rattle.pass_order.specs.Orders.{MayPass, next_order};
ghost use Rattle.block_pass.specs.Loading.{FitsIn};
ghost use Rattle.block_pass.specs.Orders.{load_order, needs_of};
ghost use Rattle.profile_rules.specs.Sound.{IsSound};
ghost use Rattle.feature_runs.specs.Writing.{Frames};
ghost use Rattle.tile_model.specs.Loads.{whole, Logs};
ghost use Rattle.pass_survey.specs.Found.{IsOfElements};
ghost use Rattle.build_one.specs.Passes.{ArePlaced, Reads};
ghost use Rattle.build_one.specs.Survey.{as_spilled, source_failed};
ghost use Rattle.build_one.specs.Works.{AreMade, nodes_made, nodes_meaning, nodes_put};

use crate::booking::book_pass;
use crate::elements::{read_elements, stop_of_blocks};
use crate::node_work::NodeWork;
use crate::stop::{PassStop, stop_of_spill};
use block_pass::{Order, Work, pass_blocks};
use feature_runs::RunBuffer;
use int_mercator::Table;
use member_sets::NeededNodes;
use memory_book::{Book, Purse};
use node_store::{Located, Locations};
use osm_elements::Block;
use pass_shapes::{put_located, put_points};
use pbf_blobs::BlockAt;
use profile_rules::Profile;
use shard_store::ShardMap;
use std::alloc::Global;
use tb_outside::{Source, Spill};
use tb_types::{Memory, OsmId};

impl<'a, S: Spill> Work for NodeWork<'a, S> {
    type Body = Block;

    type Fault = PassStop;

    ghost use Rattle.build_one.specs.WorkLaws.{nodes-begin, nodes-stop};

    ghost meaning = { nodes_meaning S.seen };

    fn read(&self, block: BlockAt, body: Vec<u8>) -> Result<Block, PassStop> {
        read_elements(self.alloc, block, &body)
    }

    fn put(&mut self, block: BlockAt, body: &Block) -> Result<(), PassStop> {
        let nodes = body.nodes.as_slice();
        match put_located(self.entries, self.needed, self.table, block.no, nodes) {
            Ok(()) => Ok(()),
            Err(Memory) => Err(PassStop::Memory),
        }
    }

    fn emit(&mut self, block: BlockAt, body: Block) -> Result<(), PassStop> {
        let nodes = body.nodes.as_slice();
        match put_points(
            self.buffer,
            self.spill,
            self.alloc,
            self.profile,
            self.table,
            block.no,
            nodes,
        ) {
            Ok(()) => Ok(()),
            Err(e) => Err(stop_of_spill(e)),
        }
    }

    ghost begins = { nodes-begin S.seen };

    ghost stops_after = { nodes-stop S.seen };
}

/// Locates the needed nodes, and adds the items of all nodes to the run buffer. Each of these blocks is loaded, once.
pub fn nodes<L: Purse, R: Source, S: Spill>(
    alloc: Global,
    profile: &Profile,
    reader: &mut R,
    spill: &mut S,
    book: &mut Book<L>,
    order: &mut Order,
    buffer: &mut RunBuffer,
    blocks: &[BlockAt],
    needed: &NeededNodes,
) -> Result<Locations, PassStop>
    requires sound { IsSound profile.now }
    requires may { MayPass order.old (needs_of blocks.now) }
    requires within { All (FitsIn (R.seen reader.old).bytes) blocks.now }
    requires kinds { All IsOfElements blocks.now }
    ensures read { Reads (λ locations read. ArePlaced profile.now needed.now (S.seen spill.old) (S.seen spill.new) buffer.old buffer.new locations read) blocks.now (R.seen reader.old).bytes result }
    ensures counts { Counted (source_failed result) (R.seen reader.old).faults (R.seen reader.new).faults }
    ensures loads { OnOk result (Logs (R.seen reader.old) (R.seen reader.new) (map whole (load_order order.old blocks.now))) }
    ensures order { OnOk result (order.new ≡ next_order order.old (needs_of blocks.now)) }
    ensures bytes { (R.seen reader.new).bytes ≡ (R.seen reader.old).bytes }
    ensures spill { Frames (S.seen spill.old) (S.seen spill.new) (as_spilled result) }
{
    let table = Table::new(alloc)?;
    let grant = book_pass(book, order, blocks)?;
    let mut entries: Vec<(OsmId, Located)> = Vec::new(alloc);
    let passed = pass_nodes(
        alloc,
        profile,
        reader,
        spill,
        order,
        buffer,
        blocks,
        &table,
        needed,
        &mut entries,
    );
    book.give(grant);
    match passed {
        Ok(()) => Ok(Locations::from_map(ShardMap::joined(entries))),
        Err(stop) => Err(stop),
    }
}

// The same, with what is put behind other entries.
fn pass_nodes<'a, R: Source, S: Spill>(
    alloc: Global,
    profile: &'a Profile,
    reader: &mut R,
    spill: &'a mut S,
    order: &mut Order,
    buffer: &'a mut RunBuffer,
    blocks: &[BlockAt],
    table: &'a Table,
    needed: &'a NeededNodes,
    entries: &'a mut Vec<(OsmId, Located)>,
) -> Result<(), PassStop>
    requires sound { IsSound profile.now }
    requires may { MayPass order.old (needs_of blocks.now) }
    requires within { All (FitsIn (R.seen reader.old).bytes) blocks.now }
    requires kinds { All IsOfElements blocks.now }
    ensures read { Reads (λ x read. AreMade profile.now (nodes_put needed.now) (nodes_made profile.now) read entries.old.items entries.new.items (S.seen spill.old) (S.seen spill.new) buffer.old buffer.new) blocks.now (R.seen reader.old).bytes result }
    ensures counts { Counted (source_failed result) (R.seen reader.old).faults (R.seen reader.new).faults }
    ensures loads { OnOk result (Logs (R.seen reader.old) (R.seen reader.new) (map whole (load_order order.old blocks.now))) }
    ensures order { OnOk result (order.new ≡ next_order order.old (needs_of blocks.now)) }
    ensures bytes { (R.seen reader.new).bytes ≡ (R.seen reader.old).bytes }
    ensures spill { Frames (S.seen spill.old) (S.seen spill.new) (as_spilled result) }
{
    let mut work = NodeWork {
        buffer,
        spill,
        entries,
        alloc,
        profile,
        table,
        needed,
    };
    match pass_blocks(alloc, order, reader, blocks, &mut work) {
        Ok(()) => Ok(()),
        Err(e) => Err(stop_of_blocks(e)),
    }
}
