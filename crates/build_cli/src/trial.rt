ghost use Rattle.std.specs.Prelude.{◌≡◌, ◌≤◌, ◌∷◌, [], IfOk};
ghost use Rattle.std.specs.List.{concat};
ghost use Rattle.gen_world.specs.Frames.{extract_of, frames_of};
ghost use Rattle.tile_model.specs.declared.from.ProfileFrom.TheVariants as profiles;
ghost use Rattle.build_one.specs.Answers.{BuildAnswers};
ghost use Rattle.build_one.specs.Extracts.{at_lane};
ghost use Rattle.build_cli.specs.Answers.{generated_reader};

use crate::number::{DEFAULT_BUDGET, FEWEST, MOST_TRIED};
use build_one::{ProfileFrom, Stop, Totals, build_beside};
use gen_world::gen_blocks;
use std::alloc::Global;
use tb_outside::{Lane, Sink, Source, Spill, SteadySource};
use tb_types::Memory;

/// Builds the map of the extract of a seed and a number of elements, which is generated in memory, by the profile of trials.
pub fn build_generated<R: Source, S: Spill, K: Sink>(
    alloc: Global,
    seed: u64,
    count: u64,
    profile: &mut R,
    lane: &mut Lane<R, S>,
    spool: &mut S,
    archive: &mut K,
) -> Result<Totals, Stop>
    requires least { FEWEST ≤ count }
    requires most { count ≤ MOST_TRIED }
    ensures answers { BuildAnswers profiles.Trial DEFAULT_BUDGET 1 (at_lane (R.seen profile.old) (generated_reader seed count) (S.seen lane.old.spill) (S.seen spool.old) (K.seen archive.old))
        (at_lane (R.seen profile.new) (generated_reader seed count) (S.seen lane.new.spill) (S.seen spool.new) (K.seen archive.new)) result }
    ensures profile { profile.new ≡ profile.old }
    ensures reader { lane.new.reader ≡ lane.old.reader }
{
    match extract_of(alloc, seed, count) {
        Ok(bytes) => {
            let mut extract = SteadySource::new(bytes);
            let from = ProfileFrom::Trial;
            let budget = DEFAULT_BUDGET;
            build_beside(
                alloc,
                from,
                profile,
                &mut extract,
                lane,
                spool,
                archive,
                budget,
            )
        }
        Err(Memory) => Err(Stop::Memory),
    }
}

// All frames of a generated extract, one behind another.
fn extract_of(alloc: Global, seed: u64, count: u64) -> Result<Vec<u8>, Memory>
    requires least { FEWEST ≤ count }
    requires most { count ≤ MOST_TRIED }
    ensures { IfOk result (λ bytes. bytes.items ≡ extract_of seed count) }
{
    let mut world = gen_blocks(alloc, seed, count)?;
    let mut bytes = Vec::new(alloc);
    while let Some(frame) = world.next_frame()? {
        bytes.extend_from_slice(&frame)?;
    }
    Ok(bytes)
}
