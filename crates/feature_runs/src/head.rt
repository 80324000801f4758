ghost use Rattle.std.specs.Prelude.{◌≡◌, ◌++◌, ℕ, List, Some, IfOk, length};
ghost use Rattle.mvt_codec.specs.declared.item.RunItem.{RunItem};
ghost use Rattle.mvt_codec.specs.Items.{IsItem, Fits, item_text, row_text};
ghost use Rattle.feature_runs.specs.ItemReading.{Gives, head_at};

use crate::item_reader::read_key;
use crate::read_parts::read_u64;
use crate::refused::Refused;
use mvt_codec::ItemKey;
use tb_types::Memory;

/// The key of an item and the length of its row in bytes, by its first 30 bytes: the item is 30 bytes longer than its row.
/// `None` where no item begins so, since they are fewer or a number of the key isn't one that an item may have.
pub fn read_head(bytes: &[u8]) -> Result<Option<(ItemKey, u64)>, Memory>
    ensures exact { IfOk result (λ head. head ≡ head_at bytes.now) }
    ensures item { IfOk result (λ head. (item : RunItem) (rest : List ℕ) → IsItem item → Fits item → bytes.now ++ rest ≡ item_text item → length bytes.now ≡ 30 → head ≡ Some (item.key, length (row_text item.row))) }
{
    match head_of(bytes) {
        Ok(head) => Ok(Some(head)),
        Err(Refused::NoItem) => Ok(None),
        Err(Refused::Memory) => Err(Memory),
    }
}

#[tactic(auto, unfolding(crate::specs::ItemReading::head_at))]
fn head_of(bytes: &[u8]) -> Result<(ItemKey, u64), Refused>
    ensures { Gives (λ head. head) result (head_at bytes.now) }
{
    let (key, rest) = read_key(bytes)?;
    let (len, _rest) = read_u64(rest)?;
    Ok((key, len))
}
