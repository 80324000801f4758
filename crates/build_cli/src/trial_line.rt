ghost use Rattle.std.specs.Prelude.{◌≡◌};
ghost use Rattle.tb_outside.specs.Sink.{SinkAnswers};
ghost use Rattle.build_cli.specs.Answers.{Tells};
ghost use Rattle.build_cli.specs.Ended.{trial_ended};
ghost use Rattle.build_cli.specs.Line.{totals_text, town_text, trial_line};

use crate::line::refuse;
use crate::pieces::append_all;
use crate::status::{DONE, Refusal, SINK_FAILED};
use build_one::{Stop, Totals};
use itoa::Buffer;
use tb_outside::{Failed, Sink};

/// Tells the console how a trial of this seed and number of elements ended, and gives the status.
pub fn tell_trial<K: Sink>(
    console: &mut K,
    seed: u64,
    count: u64,
    ended: Result<Totals, Stop>,
) -> u8
    ensures { Tells (trial_ended seed count ended) (K.seen console.old) (K.seen console.new) result }
{
    match ended {
        Ok(totals) => match tell_tried(console, seed, count, totals) {
            Ok(()) => DONE,
            Err(Failed) => SINK_FAILED,
        },
        Err(stop) => refuse(console, Refusal::Stopped(stop)),
    }
}

// Tells the console of a map that was tried. It takes no memory.
fn tell_tried<K: Sink>(console: &mut K, seed: u64, count: u64, totals: Totals) -> Result<(), Failed>
    ensures { SinkAnswers (K.seen console.old) (K.seen console.new) (trial_line seed count totals) result }
{
    match tell_town(console, seed, count) {
        Ok(()) => tell_totals(console, totals),
        Err(e) => Err(e),
    }
}

// Appends what was tried.
#[tactic(auto, unfolding(crate::specs::Line::town_text))]
fn tell_town<K: Sink>(console: &mut K, seed: u64, count: u64) -> Result<(), Failed>
    ensures { SinkAnswers (K.seen console.old) (K.seen console.new) (town_text seed count) result }
{
    let mut first = Buffer::new();
    let mut second = Buffer::new();
    append_all(
        console,
        &[
            b"trial: ".as_slice(),
            first.format(seed).as_bytes(),
            b" ".as_slice(),
            second.format(count).as_bytes(),
            b": ".as_slice(),
        ],
    )
}

// Appends what an archive holds.
#[tactic(auto, unfolding(crate::specs::Line::totals_text))]
fn tell_totals<K: Sink>(console: &mut K, totals: Totals) -> Result<(), Failed>
    ensures { SinkAnswers (K.seen console.old) (K.seen console.new) (totals_text totals) result }
{
    let mut tiles = Buffer::new();
    let mut entries = Buffer::new();
    let mut contents = Buffer::new();
    let mut bytes = Buffer::new();
    append_all(
        console,
        &[
            b"tiles ".as_slice(),
            tiles.format(totals.tiles).as_bytes(),
            b", entries ".as_slice(),
            entries.format(totals.entries).as_bytes(),
            b", contents ".as_slice(),
            contents.format(totals.contents).as_bytes(),
            b", bytes ".as_slice(),
            bytes.format(totals.bytes).as_bytes(),
            b"\n".as_slice(),
        ],
    )
}
