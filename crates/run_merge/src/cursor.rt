ghost use Rattle.std.specs.Prelude.{◌≡◌, ◌^◌, ◌<◌, IfSome, nat_lt};
ghost use Rattle.run_merge.specs.Cursors.{head_tile, rank_at};

use crate::named_run::NamedRun;

/// What is known of an item before it is read: its key as two numbers, the first 16 and the last six of its 22 bytes, and how
/// many bytes the item takes.
#[derive(Clone, Copy, Debug)]
pub struct Head {
    pub prefix: u128,
    pub suffix: u64,
    pub len: u64,
}

/// How far a run is read: the place of the item that is next, and its head, or none at the run's end.
#[derive(Clone, Copy, Debug)]
pub struct Cursor {
    pub run: NamedRun,
    pub at: u64,
    pub head: Option<Head>,
}

/// Whether the first item's key is below the second's. A run's end is above all keys.
#[tactic(auto, unfolding(crate::specs::Cursors::head_rank, crate::specs::Cursors::last_rank))]
pub fn is_before(a: Option<Head>, b: Option<Head>) -> bool
    requires a_fits { IfSome a (λ head. (head.suffix < 2 ^ 48) × (head.prefix < 2 ^ 128)) }
    requires b_fits { IfSome b (λ head. (head.suffix < 2 ^ 48) × (head.prefix < 2 ^ 128)) }
    ensures { result ≡ nat_lt (rank_at a) (rank_at b) }
{
    match a {
        None => false,
        Some(first) => match b {
            None => true,
            Some(second) => is_below(first, second),
        },
    }
}

/// Whether the first key is below the second.
#[tactic(auto, unfolding(crate::specs::Cursors::head_rank))]
pub fn is_below(first: Head, second: Head) -> bool
    requires first_fits { first.suffix < 2 ^ 48 }
    requires second_fits { second.suffix < 2 ^ 48 }
    ensures { result ≡ nat_lt (rank_at (Some first)) (rank_at (Some second)) }
{
    first.prefix < second.prefix || (first.prefix == second.prefix && first.suffix < second.suffix)
}

/// The tile of an item.
#[tactic(auto, unfolding(crate::specs::Cursors::head_tile))]
pub fn tile_of(head: Head) -> u64
    requires { head.prefix < 2 ^ 128 }
    ensures { result ≡ head_tile head }
{
    (head.prefix / 18_446_744_073_709_551_616) as u64
}
