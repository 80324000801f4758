ghost use Rattle.build_cli.specs.declared.number.TheConstants.{MOST_BUDGET};
ghost use Rattle.std.specs.Prelude.{◌≡◌, ◌≤◌, map, string_bytes, length, not, ◌&&◌, ◌==◌, codes, nat_eq, IfSome, IfOk, true};
ghost use Rattle.std.specs.Option.{option_map};
ghost use Rattle.build_cli.specs.Command.{HasGoodValues, IsKeyed, is_argument, rules_of, check_of, build_of, build_within, budgeted, is_budget, with_budget, show_of, generate_of, trial_of, four_of, command_of, seen_command, seen_rules, source_of};

use crate::number::{DEFAULT_BUDGET, budget_of, count_of, seed_of, tile_of, trial_count_of};
use build_one::ProfileFrom;
use std::alloc::Global;
use tb_types::{Memory, Text, TileXyz};

/// Where the rules of a build come from.
#[derive(Clone, Copy, Debug, PartialEq, Eq)]
pub enum Rules<'a> {
    /// One rule: the nodes that have this key.
    Key(&'a str),
    /// The profile in a file of this name.
    Profile(&'a str),
}

/// A command with its values.
#[derive(Clone, Copy, Debug, PartialEq, Eq)]
pub enum Command<'a> {
    /// Build a map by these rules, from an extract to an archive, within a budget of memory in bytes.
    Build {
        rules: Rules<'a>,
        extract: &'a str,
        archive: &'a str,
        budget: u64,
    },
    /// Tell what an archive holds.
    Check {
        archive: &'a str,
    },
    /// Tell what a tile of an archive holds.
    Show {
        archive: &'a str,
        tile: TileXyz,
    },
    /// Generate the extract of a seed and a number of elements.
    Generate {
        seed: u64,
        count: u64,
        extract: &'a str,
    },
    /// Build the map of the extract of a seed and a number of elements by the profile of trials.
    Trial {
        seed: u64,
        count: u64,
        archive: &'a str,
    },
}

/// The command of these words, or `None` where they are none. A key isn't empty, a tile lies within its zoom, and an extract has
/// as many elements as it may.
pub fn command_of(words: &[String]) -> Option<Command<'_>>
    ensures command { option_map seen_command result ≡ command_of (map (λ word. string_bytes word) words.now) }
    ensures values { IfSome result (λ c. HasGoodValues (seen_command c)) }
{
    match words {
        [] => None,
        [_] => None,
        [name, archive] => check_of(name.as_str(), archive.as_str()),
        [_, _, _] => None,
        [name, first, second, third] => four_of(
            name.as_str(),
            first.as_str(),
            second.as_str(),
            third.as_str(),
        ),
        [name, archive, zoom, column, row] => show_of(
            name.as_str(),
            archive.as_str(),
            zoom.as_str(),
            column.as_str(),
            row.as_str(),
        ),
        [name, a, b, c, d, e] => with_budget(
            name.as_str(),
            a.as_str(),
            b.as_str(),
            c.as_str(),
            d.as_str(),
            e.as_str(),
        ),
        [_, _, _, _, _, _, _, ..] => None,
    }
}

// A command of two words.
fn check_of<'a>(name: &str, archive: &'a str) -> Option<Command<'a>>
    ensures command { option_map seen_command result ≡ check_of name.now archive.now }
    ensures values { IfSome result (λ c. HasGoodValues (seen_command c)) }
{
    if name == "check" && is_argument(archive) {
        Some(Command::Check { archive })
    } else {
        None
    }
}

// A command of four words.
fn four_of<'a>(name: &str, first: &'a str, second: &'a str, third: &'a str) -> Option<Command<'a>>
    ensures command { option_map seen_command result ≡ four_of name.now first.now second.now third.now }
    ensures values { IfSome result (λ c. HasGoodValues (seen_command c)) }
{
    if name == "gen" {
        generate_of(first, second, third)
    } else if name == "trial" {
        trial_of(first, second, third)
    } else {
        build_of(name, first, second, third)
    }
}

// The command that generates.
fn generate_of<'a>(seed: &str, count: &str, extract: &'a str) -> Option<Command<'a>>
    ensures command { option_map seen_command result ≡ generate_of seed.now count.now extract.now }
    ensures values { IfSome result (λ c. HasGoodValues (seen_command c)) }
{
    if !is_argument(extract) {
        return None;
    }
    let seed = match seed_of(seed) {
        Some(seed) => seed,
        None => return None,
    };
    match count_of(count) {
        Some(count) => Some(Command::Generate {
            seed,
            count,
            extract,
        }),
        None => None,
    }
}

// The command that tries.
fn trial_of<'a>(seed: &str, count: &str, archive: &'a str) -> Option<Command<'a>>
    ensures command { option_map seen_command result ≡ trial_of seed.now count.now archive.now }
    ensures values { IfSome result (λ c. HasGoodValues (seen_command c)) }
{
    if !is_argument(archive) {
        return None;
    }
    let seed = match seed_of(seed) {
        Some(seed) => seed,
        None => return None,
    };
    match trial_count_of(count) {
        Some(count) => Some(Command::Trial {
            seed,
            count,
            archive,
        }),
        None => None,
    }
}

// A command that builds within the budget of one that gives none.
fn build_of<'a>(
    name: &str,
    first: &'a str,
    extract: &'a str,
    archive: &'a str,
) -> Option<Command<'a>>
    ensures command { option_map seen_command result ≡ build_of name.now first.now extract.now archive.now }
    ensures values { IfSome result (λ c. HasGoodValues (seen_command c)) }
{
    build_within(DEFAULT_BUDGET, name, first, extract, archive)
}

// A command that builds within a budget.
fn build_within<'a>(
    budget: u64,
    name: &str,
    first: &'a str,
    extract: &'a str,
    archive: &'a str,
) -> Option<Command<'a>>
    requires { budget ≤ MOST_BUDGET }
    ensures command { option_map seen_command result ≡ build_within budget name.now first.now extract.now archive.now }
    ensures values { IfSome result (λ c. HasGoodValues (seen_command c)) }
{
    if is_argument(first) && is_argument(extract) && is_argument(archive) {
        match rules_of(name, first) {
            Some(rules) => Some(Command::Build {
                rules,
                extract,
                archive,
                budget,
            }),
            None => None,
        }
    } else {
        None
    }
}

// A command of six words: the option for the budget stands before its number, wherever, among three arguments.
fn with_budget<'a>(
    name: &str,
    a: &'a str,
    b: &'a str,
    c: &'a str,
    d: &'a str,
    e: &'a str,
) -> Option<Command<'a>>
    ensures command { option_map seen_command result ≡ with_budget name.now a.now b.now c.now d.now e.now }
    ensures values { IfSome result (λ c. HasGoodValues (seen_command c)) }
{
    if is_budget(a) {
        budgeted(name, b, c, d, e)
    } else if is_budget(b) {
        budgeted(name, c, a, d, e)
    } else if is_budget(c) {
        budgeted(name, d, a, b, e)
    } else if is_budget(d) {
        budgeted(name, e, a, b, c)
    } else {
        None
    }
}

// Whether a word is the option for the budget.
fn is_budget(word: &str) -> bool
    ensures { result ≡ is_budget word.now }
{
    word == "--budget"
}

// A build by a profile within the budget that a word says.
fn budgeted<'a>(
    name: &str,
    value: &str,
    first: &'a str,
    extract: &'a str,
    archive: &'a str,
) -> Option<Command<'a>>
    ensures command { option_map seen_command result ≡ budgeted name.now value.now first.now extract.now archive.now }
    ensures values { IfSome result (λ c. HasGoodValues (seen_command c)) }
{
    if name != "build" {
        return None;
    }
    match budget_of(value) {
        Some(budget) => build_within(budget, name, first, extract, archive),
        None => None,
    }
}

// The rules of a build of this name.
fn rules_of<'a>(name: &str, first: &'a str) -> Option<Rules<'a>>
    requires { is_argument first.now ≡ true }
    ensures rules { option_map seen_rules result ≡ rules_of name.now first.now }
    ensures keyed { IfSome result (λ r. IsKeyed (seen_rules r)) }
{
    if name == "nodes" {
        Some(Rules::Key(first))
    } else if name == "build" {
        Some(Rules::Profile(first))
    } else {
        None
    }
}

// A command of five words.
fn show_of<'a>(
    name: &str,
    archive: &'a str,
    zoom: &str,
    column: &str,
    row: &str,
) -> Option<Command<'a>>
    ensures command { option_map seen_command result ≡ show_of name.now archive.now zoom.now column.now row.now }
    ensures values { IfSome result (λ c. HasGoodValues (seen_command c)) }
{
    if name == "show" && is_argument(archive) {
        match tile_of(zoom, column, row) {
            Some(tile) => Some(Command::Show { archive, tile }),
            None => None,
        }
    } else {
        None
    }
}

// A word that is no option and isn't empty.
fn is_argument(word: &str) -> bool
    ensures { result ≡ is_argument word.now }
{
    !word.is_empty() && !word.as_bytes().starts_with(b"--")
}

/// Where the profile of a build comes from.
pub fn source_of(alloc: Global, rules: Rules<'_>) -> Result<ProfileFrom, Memory>
    ensures { IfOk result (λ from. from ≡ source_of (seen_rules rules.entry)) }
{
    match rules {
        Rules::Key(key) => Ok(ProfileFrom::OneRule(Text::copy_of(alloc, key)?)),
        Rules::Profile(_) => Ok(ProfileFrom::Read),
    }
}
