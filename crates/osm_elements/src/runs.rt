ghost use Rattle.std.specs.Prelude.{◌≡◌, ℕ, ◌≤◌, map, length, List, [], ◌∷◌, Ok};
ghost use Rattle.osm_elements.specs.Reasons.{Gives};
ghost use Rattle.osm_elements.specs.Dense.{behind_run, are_runs, first_run, tag_lists};
ghost use Rattle.osm_elements.specs.Tags.{with_signed_pair};
ghost use Rattle.osm_elements.specs.Runs.{check_of, run_check, runs_check, no_more};
ghost use Rattle.osm_elements.specs.TagRefs.{seen_tags};
ghost use Rattle.osm_elements.specs.Words.{seen_words};

use crate::fault::BlockErr;
use crate::signed::low_32;
use crate::strings::string_at;
use crate::tag_list::TagList;
use crate::tags::{is_negative, put_signed_pair};
use crate::word::Word;
use tb_types::Why;

/// Lists that belong together and differ in length, or pairs that are no runs.
const UNEVEN: BlockErr = BlockErr::Bad(Why::Uneven);

/// Checks that the pairs of so many dense nodes are a run for each and nothing else, or none at all, and that each
/// index is one of the table.
pub(crate) fn check_runs(strings: &[Word<'_>], nodes: usize, pairs: &[u64]) -> Result<(), BlockErr>
    ensures { Gives (λ _. tt) result (runs_check (seen_words strings.now) nodes pairs.now) }
{
    if pairs.len() == 0 {
        return Ok(());
    }
    check_shape(nodes, pairs)?;
    check_pairs(strings, nodes, pairs)
}

// Checks that these are so many runs of pairs, with nothing behind the last.
fn check_shape(nodes: usize, pairs: &[u64]) -> Result<(), BlockErr>
    ensures { Gives (λ _. tt) result (are_runs nodes pairs.now) }
{
    let mut left = nodes;
    let mut rest = pairs;
    while left > 0 {
        rest = behind_run(rest)?;
        left -= 1;
    }
    check_end(rest)
}

// Checks that nothing is left.
fn check_end(pairs: &[u64]) -> Result<(), BlockErr>
    ensures { Gives (λ _. tt) result (no_more pairs.now) }
{
    match pairs.first() {
        None => Ok(()),
        Some(_) => Err(UNEVEN),
    }
}

// What stands behind the first run.
fn behind_run(pairs: &[u64]) -> Result<&[u64], BlockErr>
    ensures { Gives (λ b. b.now) result (behind_run pairs.now) }
{
    let mut rest = pairs;
    while let Some((key, behind)) = rest.split_first() {
        if low_32(*key) == 0 {
            return Ok(behind);
        }
        if let Some((_value, others)) = behind.split_first() {
            rest = others;
        } else {
            return Err(UNEVEN);
        }
    }
    Err(UNEVEN)
}

// Checks each pair of so many runs.
fn check_pairs(strings: &[Word<'_>], nodes: usize, pairs: &[u64]) -> Result<(), BlockErr>
    ensures { Gives (λ _. tt) result (check_of (tag_lists (seen_words strings.now) nodes pairs.now)) }
{
    let mut left = nodes;
    let mut rest = pairs;
    while left > 0 {
        rest = check_run(strings, rest)?;
        left -= 1;
    }
    check_end(rest)
}

// Checks each pair of the first run. It answers what stands behind it.
fn check_run<'p>(strings: &[Word<'_>], pairs: &'p [u64]) -> Result<&'p [u64], BlockErr>
    ensures { Gives (λ b. b.now) result (run_check (seen_words strings.now) [] pairs.now) }
{
    let mut rest = pairs;
    while let Some((key, behind)) = rest.split_first() {
        if low_32(*key) == 0 {
            return Ok(behind);
        }
        if let Some((value, others)) = behind.split_first() {
            check_pair(strings, *key, *value)?;
            rest = others;
        } else {
            return Err(UNEVEN);
        }
    }
    Err(UNEVEN)
}

// Checks that both indexes are in the table.
fn check_pair(strings: &[Word<'_>], key: u64, value: u64) -> Result<(), BlockErr>
    ensures { Gives (λ _. tt) result (check_of (with_signed_pair (seen_words strings.now) [] key value)) }
{
    if is_negative(key) || is_negative(value) {
        return Err(BlockErr::Bad(Why::Index));
    }
    string_at(strings, key)?;
    string_at(strings, value)?;
    Ok(())
}

/// Makes a list of tags that of the first run. It answers what stands behind it.
pub(crate) fn first_run<'a, 'p>(
    tags: &mut TagList<'a>,
    strings: &[Word<'a>],
    pairs: &'p [u64],
) -> Result<&'p [u64], BlockErr>
    ensures { Gives (λ b. (seen_tags tags.new.tags.items, b.now)) result (first_run (seen_words strings.now) [] pairs.now) }
{
    tags.clear();
    let mut rest = pairs;
    while let Some((key, behind)) = rest.split_first() {
        if low_32(*key) == 0 {
            return Ok(behind);
        }
        if let Some((value, others)) = behind.split_first() {
            put_signed_pair(tags, strings, *key, *value)?;
            rest = others;
        } else {
            return Err(UNEVEN);
        }
    }
    Err(UNEVEN)
}
