ghost use Rattle.std.specs.Prelude.{◌≡◌};
ghost use Rattle.osm_elements.specs.Reasons.{Gives, require};

use crate::fault::BlockErr;
use tb_types::Why;

/// A number that has to stand.
pub(crate) fn require(n: Option<u64>) -> Result<u64, BlockErr>
    ensures { Gives (λ n. n) result (require n) }
{
    match n {
        Some(n) => Ok(n),
        None => Err(BlockErr::Bad(Why::Missing)),
    }
}
