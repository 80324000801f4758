ghost use Rattle.std.specs.Prelude.{◌≡◌, ◌≤◌};
ghost use Rattle.tb_outside.specs.Sink.{SinkAnswers};
ghost use Rattle.gen_world.specs.Frames.{frames_of};
ghost use Rattle.build_cli.specs.Answers.{GenerateAnswers, Tells};
ghost use Rattle.build_cli.specs.Ended.{generate_ended};
ghost use Rattle.build_cli.specs.Extract.{generated_line};

use crate::line::refuse;
use crate::number::{FEWEST, MOST};
use crate::pieces::append_all;
use crate::status::{DONE, Refusal, SINK_FAILED};
use build_one::Stop;
use gen_world::gen_blocks;
use itoa::Buffer;
use std::alloc::Global;
use tb_outside::{Failed, Sink};
use tb_types::Memory;

/// How many frames an extract has, and how many bytes.
#[derive(Clone, Copy, Debug, PartialEq, Eq)]
pub struct Generated {
    pub blocks: u64,
    pub bytes: u64,
}

/// Why an extract isn't whole.
#[derive(Clone, Copy, Debug, PartialEq, Eq)]
pub enum GenErr {
    /// The sink failed.
    Sink,
    /// Want of memory.
    Memory,
}

impl From<Memory> for GenErr {
    ghost use Rattle.build_cli.specs.declared.generate.GenErr.TheVariants as errors;

    ghost from_gives = { λ _ e. e ≡ errors.Memory };

    fn from(_e: Memory) -> GenErr {
        GenErr::Memory
    }
}

impl From<Failed> for GenErr {
    ghost use Rattle.build_cli.specs.declared.generate.GenErr.TheVariants as errors;

    ghost from_gives = { λ _ e. e ≡ errors.Sink };

    fn from(_e: Failed) -> GenErr {
        GenErr::Sink
    }
}

/// Appends the extract of a seed and a number of elements to a sink, frame after frame: one of them is held at a time. A prefix of
/// it stands there where the sink fails, or where memory wants.
pub fn write_extract<K: Sink>(
    alloc: Global,
    seed: u64,
    count: u64,
    archive: &mut K,
) -> Result<Generated, GenErr>
    requires least { FEWEST ≤ count }
    requires most { count ≤ MOST }
    ensures { GenerateAnswers (frames_of seed count) (K.seen archive.old) (K.seen archive.new) result }
{
    let mut world = gen_blocks(alloc, seed, count)?;
    let mut blocks = 0;
    let mut bytes = 0;
    while let Some(frame) = world.next_frame()? {
        archive.append(&frame)?;
        blocks += 1;
        bytes += frame.len() as u64;
    }
    Ok(Generated { blocks, bytes })
}

// Tells the console of an extract that is written. It takes no memory.
#[tactic(auto, unfolding(crate::specs::Extract::generated_line))]
fn tell_totals<K: Sink>(console: &mut K, totals: Generated) -> Result<(), Failed>
    ensures { SinkAnswers (K.seen console.old) (K.seen console.new) (generated_line totals) result }
{
    let mut blocks = Buffer::new();
    let mut bytes = Buffer::new();
    append_all(
        console,
        &[
            b"generated: blocks ".as_slice(),
            blocks.format(totals.blocks).as_bytes(),
            b", bytes ".as_slice(),
            bytes.format(totals.bytes).as_bytes(),
            b"\n".as_slice(),
        ],
    )
}

/// Tells the console how generating an extract ended, and gives the status. A console that fails behind a whole extract is the
/// status of a sink that failed.
pub fn tell_generated<K: Sink>(console: &mut K, ended: Result<Generated, GenErr>) -> u8
    ensures { Tells (generate_ended ended) (K.seen console.old) (K.seen console.new) result }
{
    match ended {
        Ok(totals) => match tell_totals(console, totals) {
            Ok(()) => DONE,
            Err(Failed) => SINK_FAILED,
        },
        Err(GenErr::Sink) => refuse(console, Refusal::Stopped(Stop::Sink)),
        Err(GenErr::Memory) => refuse(console, Refusal::Stopped(Stop::Memory)),
    }
}
