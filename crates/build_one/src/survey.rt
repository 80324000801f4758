ghost use Rattle.std.specs.Prelude.{◌≡◌, All, IfOk, IfSome, OnOk, filter, length, map};
ghost use Rattle.tb_types.specs.Counts.{Counted};
ghost use Rattle.pbf_blobs.specs.Answers.{IsNumbered, IsShort};
ghost use Rattle.pbf_blobs.specs.declared.block.BlockAt.{BlockAt};
ghost use Rattle.pass_order.specs.Orders.{MayPass, next_order};
ghost use Rattle.block_pass.specs.Orders.{load_order, needs_of};
ghost use Rattle.tile_model.specs.Contents.{contents_at};
ghost use Rattle.tile_model.specs.Loads.{whole, Logs};
ghost use Rattle.pass_survey.specs.Found.{IsReady};
ghost use Rattle.build_one.specs.Survey.{IsOf, Surveys, read_of, survey_failed};
ghost use Rattle.build_one.specs.Works.{survey_meaning};

use crate::booking::book_pass;
use crate::needs::is_read;
use block_pass::{Order, PassErr, Work, pass_blocks};
use memory_book::{Book, Purse};
use pass_survey::Found;
use pbf_blobs::{BlockAt, ScanStop};
use profile_rules::Profile;
use std::alloc::Global;
use tb_outside::Source;
use tb_types::{Memory, Seq};

/// The body of a block, as it was loaded.
#[derive(Drop)]
pub struct Loaded {
    pub bytes: Seq<u8>,
}

/// Takes up what blocks hold.
pub struct SurveyWork<'a> {
    pub alloc: Global,
    pub profile: &'a Profile,
    pub found: Found,
}

impl<'a> Work for SurveyWork<'a> {
    type Body = Loaded;

    type Fault = Memory;

    ghost use Rattle.build_one.specs.WorkLaws.{survey-begin, survey-stop};

    ghost meaning = { survey_meaning };

    fn read(&self, _block: BlockAt, body: Vec<u8>) -> Result<Loaded, Memory> {
        Ok(Loaded {
            bytes: Seq::from_vec(body),
        })
    }

    fn put(&mut self, block: BlockAt, body: &Loaded) -> Result<(), Memory> {
        self.found
            .take(self.alloc, self.profile, block, body.bytes.as_slice())
    }

    fn emit(&mut self, _block: BlockAt, _body: Loaded) -> Result<(), Memory> {
        Ok(())
    }

    ghost begins = { survey-begin };

    ghost stops_after = { survey-stop };
}

/// What the blocks of an extract hold, as far as the later passes need it: each block that is read is loaded, once. `Damage` is the
/// first reason of the least damaged block; `Failed` where the reader's count rose, also if there is damage, since it goes on after that.
pub fn survey<L: Purse, R: Source>(
    alloc: Global,
    profile: &Profile,
    reader: &mut R,
    book: &mut Book<L>,
    order: &mut Order,
    blocks: &[BlockAt],
) -> Result<Found, ScanStop>
    requires may { MayPass order.old (needs_of (read_of blocks.now)) }
    requires within { IfSome (R.seen reader.old).bytes (λ extract. All (IsShort (length extract)) blocks.now) }
    requires numbered { IsNumbered blocks.now }
    ensures told { IfSome (R.seen reader.old).bytes (λ extract. Surveys profile.now extract blocks.now result (contents_at extract blocks.now)) }
    ensures loads { OnOk result (Logs (R.seen reader.old) (R.seen reader.new) (map whole (load_order order.old (read_of blocks.now)))) }
    ensures order { OnOk result (order.new ≡ next_order order.old (needs_of (read_of blocks.now))) }
    ensures counts { Counted (survey_failed result) (R.seen reader.old).faults (R.seen reader.new).faults }
    ensures bytes { (R.seen reader.new).bytes ≡ (R.seen reader.old).bytes }
    ensures ready { IfOk result (IsReady profile.now) }
    ensures of { IfOk result (IsOf (read_of blocks.now)) }
{
    let read = read_blocks(alloc, blocks)?;
    let grant = book_pass(book, order, &read)?;
    let mut work = SurveyWork {
        alloc,
        profile,
        found: Found::new(alloc),
    };
    let passed = pass_blocks(alloc, order, reader, &read, &mut work);
    book.give(grant);
    let SurveyWork {
        alloc: _,
        profile: _,
        mut found,
    } = work;
    match passed {
        Ok(()) => {}
        Err(PassErr::Source) => return Err(ScanStop::Failed),
        Err(_) => return Err(ScanStop::Memory),
    }
    found.arrange();
    match found.damage {
        Some(damage) => Err(ScanStop::Damage(damage)),
        None => Ok(found),
    }
}

// The blocks that are read.
fn read_blocks(alloc: Global, blocks: &[BlockAt]) -> Result<Vec<BlockAt>, Memory>
    ensures { IfOk result (λ read. read.items ≡ read_of blocks.now) }
{
    let mut read = Vec::with_capacity(alloc, blocks.len())?;
    for block in blocks {
        if is_read(block.kind) {
            read.push(*block)?;
        }
    }
    Ok(read)
}
