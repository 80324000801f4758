ghost use Rattle.std.specs.Prelude.{◌≡◌, [], All, OnOk, flat_map};
ghost use Rattle.profile_rules.specs.Sound.{IsSound};
ghost use Rattle.tile_model.specs.Tiles.{emitted_items};
ghost use Rattle.pass_survey.specs.Kept.{IsSoundKept};
ghost use Rattle.pass_shapes.specs.Kept.{kept_features, needs_of};
ghost use Rattle.pass_shapes.specs.Emitting.{Emits};
ghost use Rattle.pass_shapes.specs.Stores.{shape_in};
ghost use Rattle.build_one.specs.Passes.{RelationAnswers};

use crate::booking::book_need;
use crate::stop::RelationStop;
use feature_runs::{RunAt, RunBuffer};
use member_sets::KeptRelation;
use memory_book::{Book, Purse};
use node_store::Shapes;
use pass_shapes::{largest_relation, put_relations};
use profile_rules::Profile;
use std::alloc::Global;
use tb_outside::{Spill, SpillErr};
use tb_types::Seq;

/// Adds the items of the kept relations to the run buffer, writes what it then holds as its last run, and gives the runs that it
/// wrote. It loads nothing, and books the largest need while it adds items. `TooLarge` exactly where a kept relation needs more than the part of memory, in bytes; then nothing is
/// added.
pub fn relations<L: Purse, S: Spill>(
    alloc: Global,
    profile: &Profile,
    kept: &[KeptRelation],
    shapes: &Shapes,
    spill: &mut S,
    book: &mut Book<L>,
    mut buffer: RunBuffer,
    part: u64,
) -> Result<Seq<RunAt>, RelationStop>
    requires sound { IsSound profile.now }
    requires specs { All (IsSoundKept profile.now) kept.now }
    ensures { RelationAnswers profile.now part (needs_of (shape_in shapes.now) kept.now) (emitted_items (flat_map (kept_features profile.now (shape_in shapes.now)) kept.now)) (S.seen spill.old) (S.seen spill.new) buffer result }
{
    let need = largest_relation(alloc, shapes, kept)?;
    if need > part {
        return Err(RelationStop::TooLarge { need });
    }
    let grant = book_need(book, need)?;
    let added = add_relations(alloc, profile, kept, shapes, spill, &mut buffer);
    book.give(grant);
    added?;
    let runs = Vec::from_slice(alloc, buffer.runs())?;
    Ok(Seq::from_vec(runs))
}

// Adds the items of the kept relations, and writes what is then held.
fn add_relations<S: Spill>(
    alloc: Global,
    profile: &Profile,
    kept: &[KeptRelation],
    shapes: &Shapes,
    spill: &mut S,
    buffer: &mut RunBuffer,
) -> Result<(), SpillErr>
    requires sound { IsSound profile.now }
    requires specs { All (IsSoundKept profile.now) kept.now }
    ensures added { Emits profile.now (emitted_items (flat_map (kept_features profile.now (shape_in shapes.now)) kept.now)) (S.seen spill.old) (S.seen spill.new) buffer.old buffer.new result }
    ensures flushed { OnOk result (buffer.new.entries ≡ []) }
{
    match put_relations(buffer, spill, alloc, profile, shapes, kept) {
        Ok(()) => buffer.flush(spill),
        Err(e) => Err(e),
    }
}
