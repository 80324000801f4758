ghost use Rattle.std.specs.Prelude.{◌∷◌, ◌≤◌, [], length};
ghost use Rattle.profile_rules.specs.Fields.{layers_of};
ghost use Rattle.tile_model.specs.Items.{IsSoundItem};
ghost use Rattle.pass_shapes.specs.Emitting.{Emits};

use crate::numbers::ROW_LIMIT;
use feature_runs::{RunBuffer, Spill, SpillErr, row_len};
use mvt_codec::RunItem;
use profile_rules::Profile;

/// Adds a sound item to a buffer. One whose row has 4 GiB or more is want of memory.
pub fn emit_item<S: Spill>(
    buffer: &mut RunBuffer,
    spill: &mut S,
    profile: &Profile,
    item: RunItem,
) -> Result<(), SpillErr>
    requires few { length (layers_of profile.now) ≤ 64 }
    requires item { IsSoundItem (length (layers_of profile.now)) item }
    ensures { Emits profile.now (item ∷ []) (S.seen spill.old) (S.seen spill.new) buffer.old buffer.new result }
{
    if row_len(&item.row) >= ROW_LIMIT {
        return Err(SpillErr::Memory);
    }
    buffer.add(spill, item)
}
