ghost use Rattle.std.specs.Prelude.{◌≡◌, ◌<◌, IfSome, length};
ghost use Rattle.run_merge.specs.Cursors.{AreSound, cursors_of};
ghost use Rattle.run_merge.specs.Steps.{IfLeast};
ghost use Rattle.run_merge.specs.Winners.{AreWinners};

use crate::cursor::Head;
use crate::run_reader::RunReader;

/// The number and the head of the run whose next item has the least key, of equal keys the first run's, or `None` exactly where
/// all runs are at their ends.
pub fn least(readers: &[RunReader], winners: &[usize]) -> Option<(usize, Head)>
    requires sound { AreSound readers.now }
    requires winners { AreWinners (cursors_of readers.now) winners.now }
    ensures { IfLeast (cursors_of readers.now) result }
{
    if readers.is_empty() {
        return None;
    }
    let best = winners[1];
    match readers[best].cursor.head {
        Some(head) => Some((best, head)),
        None => None,
    }
}
