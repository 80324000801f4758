ghost use Rattle.std.specs.Prelude.{◌≡◌, ◌≤◌, map, string_bytes};
ghost use Rattle.build_cli.specs.declared.number.TheConstants.{MOST_BUDGET};
ghost use Rattle.build_one.specs.Answers.{BuildAnswers};
ghost use Rattle.tile_model.specs.Objects.{one_lane};
ghost use Rattle.tile_model.specs.From.{IsAlone};
ghost use Rattle.build_cli.specs.Answers.{Answers, HasLine, Leaves};
ghost use Rattle.build_cli.specs.Command.{IsKeyed, command_of, seen_rules, source_of};
ghost use Rattle.build_cli.specs.Line.{line_of};
ghost use Rattle.build_cli.specs.Status.{status_of};
ghost use Rattle.build_cli.specs.declared.status.Refusal.TheVariants.{Stopped};
ghost use Rattle.tile_model.specs.declared.stop.Stop.TheVariants as stops;

use crate::command::{Command, Rules, command_of, source_of};
use crate::generate::{tell_generated, write_extract};
use crate::line::{refuse, tell_build, tell_look};
use crate::status::Refusal;
use crate::trial::build_generated;
use crate::trial_line::tell_trial;
use archive_text::{check_archive, show_tile};
use build_one::{Stop, Totals, build};
use std::alloc::Global;
use tb_outside::{Lane, Sink, Source, Spill};

/// Works one command on one lane, and answers its status: 0 done, 2 no command, 3 the profile is refused, 4 the extract is
/// damaged, 5 the budget is too small, 7 a source failed, 8 the lane's spill or the spool failed or gave back something else, 9 a
/// sink failed, 10 want of memory, 11 the archive has a fault, 12 the extract changed.
///
/// The console gets the text of success, or the line of the refusal. `check` and `show` read the archive by the lane's reader,
/// and use nothing else. Of a build the archive's sink gets nothing before all tiles stand in the spool, so it holds the whole archive
/// (status 0, and 9 where only the console failed), a prefix of it (8 and 9), or nothing new. Its items stand in the lane's spill as
/// sorted runs first. `gen` appends its extract to the archive's sink frame after frame and uses nothing else, so that holds the whole
/// extract (status 0, and 9 where only the console failed), or a prefix. `trial` builds from an extract that it generates in memory, and
/// leaves the profile's source and the lane's reader alone.
pub fn run_one<R: Source, S: Spill, K: Sink>(
    alloc: Global,
    words: &[String],
    profile: &mut R,
    lane: &mut Lane<R, S>,
    spool: &mut S,
    archive: &mut K,
    console: &mut K,
) -> u8
    ensures answers { Answers (map (λ word. string_bytes word) words.now)
        (one_lane R.seen R.seen S.seen K.seen profile.old lane.old spool.old archive.old)
        (one_lane R.seen R.seen S.seen K.seen profile.new lane.new spool.new archive.new) (K.seen console.old) (K.seen console.new) result }
    ensures unused { Leaves (command_of (map (λ word. string_bytes word) words.now)) (profile.new ≡ profile.old) (lane.new.reader ≡ lane.old.reader) (lane.new.spill ≡ lane.old.spill) (spool.new ≡ spool.old) (archive.new ≡ archive.old) }
{
    match command_of(words) {
        None => refuse(console, Refusal::Words),
        Some(Command::Build { rules, budget, .. }) => {
            let ended = build_by(alloc, rules, profile, lane, spool, archive, budget);
            tell_build(console, ended)
        }
        Some(Command::Check { .. }) => {
            let ended = check_archive(alloc, &mut lane.reader);
            tell_look(console, ended)
        }
        Some(Command::Show { tile, .. }) => {
            let ended = show_tile(alloc, &mut lane.reader, tile);
            tell_look(console, ended)
        }
        Some(Command::Generate { seed, count, .. }) => {
            let ended = write_extract(alloc, seed, count, archive);
            tell_generated(console, ended)
        }
        Some(Command::Trial { seed, count, .. }) => {
            let ended = build_generated(alloc, seed, count, profile, lane, spool, archive);
            tell_trial(console, seed, count, ended)
        }
    }
}

// Builds by the rules of a command.
fn build_by<R: Source, S: Spill, K: Sink>(
    alloc: Global,
    rules: Rules<'_>,
    profile: &mut R,
    lane: &mut Lane<R, S>,
    spool: &mut S,
    archive: &mut K,
    budget: u64,
) -> Result<Totals, Stop>
    requires keyed { IsKeyed (seen_rules rules) }
    requires budget { budget ≤ MOST_BUDGET }
    ensures answers { BuildAnswers (source_of (seen_rules rules.entry)) budget 1 (one_lane R.seen R.seen S.seen K.seen profile.old lane.old spool.old archive.old)
        (one_lane R.seen R.seen S.seen K.seen profile.new lane.new spool.new archive.new) result }
    ensures alone { IsAlone (source_of (seen_rules rules.entry)) → profile.new ≡ profile.old }
{
    match source_of(alloc, rules) {
        Ok(from) => build(alloc, from, profile, lane, spool, archive, budget),
        Err(_) => Err(Stop::Memory),
    }
}

/// Tells the console that memory was refused before a command could begin, and gives the status of that.
pub fn refuse_memory<K: Sink>(console: &mut K) -> u8
    ensures status { result ≡ status_of (Stopped stops.Memory) }
    ensures line { HasLine (K.seen console.old) (K.seen console.new) (line_of (Stopped stops.Memory)) }
{
    refuse(console, Refusal::Stopped(Stop::Memory))
}
