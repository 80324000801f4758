ghost use Rattle.std.specs.Prelude.{◌≡◌};
ghost use Rattle.tb_outside.specs.Sink.{SinkAnswers};
ghost use Rattle.build_cli.specs.Line.{success_line, line_of, object_line, outside_line, budget_line, stage_text, changed_line, pass_text, whom_text, lane_text, damage_line, why_text, profile_line, part_text, number_text, fault_text, archive_line, flaw_text};
ghost use Rattle.build_cli.specs.Answers.{HasLine, Tells};
ghost use Rattle.build_cli.specs.Ended.{build_ended, look_ended};
ghost use Rattle.build_cli.specs.Status.{status_of};

use crate::pieces::append_all;
use crate::status::{DONE, Refusal, SINK_FAILED, refusal_of, status_of};
use archive_text::{ArcFault, ArcWhy, ReadErr};
use build_one::{Stop, Totals};
use itoa::Buffer;
use profile_rules::{Part, ProfileWhy, Spot};
use tb_outside::{Failed, Sink};
use tb_types::{Damage, Stage, Text, Whom, Why};

// Tells the console of an archive that is written. It takes no memory.
#[tactic(auto, unfolding(crate::specs::Line::success_line))]
fn tell_success<K: Sink>(console: &mut K, totals: Totals) -> Result<(), Failed>
    ensures { SinkAnswers (K.seen console.old) (K.seen console.new) (success_line totals) result }
{
    let mut tiles = Buffer::new();
    let mut entries = Buffer::new();
    let mut contents = Buffer::new();
    let mut bytes = Buffer::new();
    append_all(
        console,
        &[
            b"built: tiles ".as_slice(),
            tiles.format(totals.tiles).as_bytes(),
            b", entries ".as_slice(),
            entries.format(totals.entries).as_bytes(),
            b", contents ".as_slice(),
            contents.format(totals.contents).as_bytes(),
            b", bytes ".as_slice(),
            bytes.format(totals.bytes).as_bytes(),
            b"\n".as_slice(),
        ],
    )
}

/// Tells the console how a build ended, and gives the status. A console that fails changes nothing of a refusal; behind a whole
/// archive it is the status of a sink that failed.
pub fn tell_build<K: Sink>(console: &mut K, ended: Result<Totals, Stop>) -> u8
    ensures { Tells (build_ended ended) (K.seen console.old) (K.seen console.new) result }
{
    match ended {
        Ok(totals) => match tell_success(console, totals) {
            Ok(()) => DONE,
            Err(_) => SINK_FAILED,
        },
        Err(stop) => refuse(console, Refusal::Stopped(stop)),
    }
}

/// Tells the console how a look into an archive ended, and gives the status.
pub fn tell_look<K: Sink>(console: &mut K, ended: Result<Text, ReadErr>) -> u8
    ensures { Tells (look_ended ended) (K.seen console.old) (K.seen console.new) result }
{
    match ended {
        Ok(text) => match console.append(text.as_str().as_bytes()) {
            Ok(()) => DONE,
            Err(Failed) => SINK_FAILED,
        },
        Err(e) => refuse(console, refusal_of(e)),
    }
}

/// Tells the console of a refusal, and gives its status, which stands whatever becomes of the line.
pub fn refuse<K: Sink>(console: &mut K, refusal: Refusal) -> u8
    ensures status { result ≡ status_of refusal }
    ensures line { HasLine (K.seen console.old) (K.seen console.new) (line_of refusal) }
{
    match tell_refusal(console, refusal) {
        Ok(()) => {}
        Err(_) => {}
    }
    status_of(refusal)
}

// Appends the line of a refusal.
#[tactic(auto, unfolding(crate::specs::Line::words_line, crate::specs::Line::sink_line, crate::specs::Line::memory_line))]
fn tell_refusal<K: Sink>(console: &mut K, refusal: Refusal) -> Result<(), Failed>
    ensures { SinkAnswers (K.seen console.old) (K.seen console.new) (line_of refusal) result }
{
    match refusal {
        Refusal::Words => console.append(b"words not understood\n"),
        Refusal::Stopped(Stop::Profile { spot, why }) => tell_profile(console, spot, why),
        Refusal::Stopped(Stop::Damage(damage)) => tell_damage(console, damage),
        Refusal::Stopped(Stop::Source(whom)) => tell_object(console, b"source: ", whom),
        Refusal::Stopped(Stop::Spill(whom)) => tell_object(console, b"spill: ", whom),
        Refusal::Stopped(Stop::Outside { whom, run, at }) => tell_outside(console, whom, run, at),
        Refusal::Stopped(Stop::Sink) => console.append(b"sink: archive\n"),
        Refusal::Stopped(Stop::Budget { stage, need }) => tell_budget(console, stage, need),
        Refusal::Stopped(Stop::Changed { pass, block }) => tell_changed(console, pass, block),
        Refusal::Stopped(Stop::Memory) => console.append(b"want of memory\n"),
        Refusal::Faulty(fault) => tell_fault(console, fault),
    }
}

// Appends the line of an object that failed.
#[tactic(auto, unfolding(crate::specs::Line::object_line))]
fn tell_object<K: Sink>(console: &mut K, role: &'static [u8], whom: Whom) -> Result<(), Failed>
    ensures { SinkAnswers (K.seen console.old) (K.seen console.new) (object_line role.now whom) result }
{
    let mut digits = Buffer::new();
    append_all(
        console,
        &[
            role,
            whom_text(whom),
            lane_text(&mut digits, whom),
            b"\n".as_slice(),
        ],
    )
}

// Appends the line of a spill that gave back something else than was written.
#[tactic(auto, unfolding(crate::specs::Line::outside_line))]
fn tell_outside<K: Sink>(console: &mut K, whom: Whom, run: u64, at: u64) -> Result<(), Failed>
    ensures { SinkAnswers (K.seen console.old) (K.seen console.new) (outside_line whom run at) result }
{
    let mut digits = Buffer::new();
    let mut number = Buffer::new();
    let mut place = Buffer::new();
    append_all(
        console,
        &[
            b"spill: ".as_slice(),
            whom_text(whom),
            lane_text(&mut digits, whom),
            b" run ".as_slice(),
            number.format(run).as_bytes(),
            b" at ".as_slice(),
            place.format(at).as_bytes(),
            b"\n".as_slice(),
        ],
    )
}

// Appends the line of a need of memory.
#[tactic(auto, unfolding(crate::specs::Line::budget_line))]
fn tell_budget<K: Sink>(console: &mut K, stage: Stage, need: u64) -> Result<(), Failed>
    ensures { SinkAnswers (K.seen console.old) (K.seen console.new) (budget_line stage need) result }
{
    let mut digits = Buffer::new();
    append_all(
        console,
        &[
            b"budget: ".as_slice(),
            stage_text(stage),
            b": need ".as_slice(),
            digits.format(need).as_bytes(),
            b"\n".as_slice(),
        ],
    )
}

// What needs memory.
#[tactic(auto, unfolding(crate::specs::Line::stage_text))]
fn stage_text(stage: Stage) -> &'static [u8]
    ensures { result.now ≡ stage_text stage }
{
    match stage {
        Stage::Block => b"block",
        Stage::Relation => b"relation",
        Stage::Tile => b"tile",
    }
}

// Appends the line of a block that was changed.
#[tactic(auto, unfolding(crate::specs::Line::changed_line))]
fn tell_changed<K: Sink>(console: &mut K, pass: u8, block: u32) -> Result<(), Failed>
    ensures { SinkAnswers (K.seen console.old) (K.seen console.new) (changed_line pass block) result }
{
    let mut digits = Buffer::new();
    append_all(
        console,
        &[
            b"changed: pass ".as_slice(),
            pass_text(pass),
            b": block ".as_slice(),
            digits.format(block).as_bytes(),
            b"\n".as_slice(),
        ],
    )
}

// The name of a pass.
fn pass_text(pass: u8) -> &'static [u8]
    ensures { result.now ≡ pass_text pass }
{
    match pass {
        1 => b"members",
        2 => b"nodes",
        3 => b"ways",
        _ => b"survey",
    }
}

// The name of an object outside.
#[tactic(auto, unfolding(crate::specs::Line::whom_text))]
fn whom_text(whom: Whom) -> &'static [u8]
    ensures { result.now ≡ whom_text whom }
{
    match whom {
        Whom::Profile => b"profile",
        Whom::Lane(_) => b"lane ",
        Whom::Spool => b"spool",
        Whom::Archive => b"archive",
        Whom::Console => b"console",
    }
}

// The number of a lane.
fn lane_text(digits: &mut Buffer, whom: Whom) -> &[u8]
    ensures { result.now ≡ lane_text whom }
{
    match whom {
        Whom::Lane(number) => digits.format(number).as_bytes(),
        Whom::Profile => b"",
        Whom::Spool => b"",
        Whom::Archive => b"",
        Whom::Console => b"",
    }
}

#[tactic(auto, unfolding(crate::specs::Line::profile_line))]
fn tell_profile<K: Sink>(console: &mut K, spot: Spot, why: ProfileWhy) -> Result<(), Failed>
    ensures { SinkAnswers (K.seen console.old) (K.seen console.new) (profile_line spot why) result }
{
    let mut digits = Buffer::new();
    append_all(
        console,
        &[
            b"profile: ".as_slice(),
            part_text(spot.part),
            number_text(&mut digits, spot),
            b": ".as_slice(),
            fault_text(why),
            b"\n".as_slice(),
        ],
    )
}

// The kind of a part of a profile.
#[tactic(auto, unfolding(crate::specs::Line::part_text))]
fn part_text(part: Part) -> &'static [u8]
    ensures { result.now ≡ part_text part }
{
    match part {
        Part::Top => b"top",
        Part::Layer => b"layer ",
        Part::Rule => b"rule ",
    }
}

// The number of a part, where there are several of its kind.
#[tactic(auto, unfolding(crate::specs::Line::number_text))]
fn number_text(digits: &mut Buffer, spot: Spot) -> &[u8]
    ensures { result.now ≡ number_text spot }
{
    match spot.part {
        Part::Top => b"",
        Part::Layer => digits.format(spot.no).as_bytes(),
        Part::Rule => digits.format(spot.no).as_bytes(),
    }
}

// Why a profile is refused.
#[tactic(auto, unfolding(crate::specs::Line::fault_text))]
fn fault_text(why: ProfileWhy) -> &'static [u8]
    ensures { result.now ≡ fault_text why }
{
    match why {
        ProfileWhy::Long => b"long",
        ProfileWhy::Toml => b"toml",
        ProfileWhy::Unknown => b"unknown",
        ProfileWhy::Shape => b"shape",
        ProfileWhy::Format => b"format",
        ProfileWhy::Range => b"range",
        ProfileWhy::Layer => b"layer",
        ProfileWhy::Condition => b"condition",
        ProfileWhy::Attribute => b"attribute",
    }
}

#[tactic(auto, unfolding(crate::specs::Line::damage_line))]
fn tell_damage<K: Sink>(console: &mut K, damage: Damage) -> Result<(), Failed>
    ensures { SinkAnswers (K.seen console.old) (K.seen console.new) (damage_line damage) result }
{
    let mut block = Buffer::new();
    append_all(
        console,
        &[
            b"damage: block ".as_slice(),
            block.format(damage.block).as_bytes(),
            b": ".as_slice(),
            why_text(damage.why),
            b"\n".as_slice(),
        ],
    )
}

// Why an extract is damaged.
#[tactic(auto, unfolding(crate::specs::Line::why_text))]
fn why_text(why: Why) -> &'static [u8]
    ensures { result.now ≡ why_text why }
{
    match why {
        Why::Cut => b"cut",
        Why::HeaderLong => b"header long",
        Why::BlobLong => b"blob long",
        Why::FileLong => b"file long",
        Why::NoHeader => b"no header",
        Why::Wire => b"wire",
        Why::Missing => b"missing",
        Why::Compressed => b"compressed",
        Why::NoRaw => b"no raw",
        Why::Over32M => b"over 32 MiB",
        Why::Feature => b"feature",
        Why::Uneven => b"uneven",
        Why::Index => b"index",
        Why::Range => b"range",
    }
}

#[tactic(auto, unfolding(crate::specs::Line::archive_line))]
fn tell_fault<K: Sink>(console: &mut K, fault: ArcFault) -> Result<(), Failed>
    ensures { SinkAnswers (K.seen console.old) (K.seen console.new) (archive_line fault) result }
{
    let mut place = Buffer::new();
    append_all(
        console,
        &[
            b"archive: ".as_slice(),
            place.format(fault.place).as_bytes(),
            b": ".as_slice(),
            flaw_text(fault.why),
            b"\n".as_slice(),
        ],
    )
}

// Why bytes are no archive.
#[tactic(auto, unfolding(crate::specs::Line::flaw_text))]
fn flaw_text(why: ArcWhy) -> &'static [u8]
    ensures { result.now ≡ flaw_text why }
{
    match why {
        ArcWhy::Short => b"short",
        ArcWhy::Magic => b"magic",
        ArcWhy::Version => b"version",
        ArcWhy::Compressed => b"compressed",
        ArcWhy::TileType => b"tile type",
        ArcWhy::Section => b"section",
        ArcWhy::Directory => b"directory",
        ArcWhy::Order => b"order",
        ArcWhy::Depth => b"depth",
        ArcWhy::Tile => b"tile",
    }
}
