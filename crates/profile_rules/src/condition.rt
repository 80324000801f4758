ghost use Rattle.std.specs.Prelude.{◌≡◌, ◌==◌, ◌<◌, [], ◌∷◌, length, map, Ok, option_map, option_copied, MatchOption, IfSome};
ghost use Rattle.std.specs.List.{slice_split};
ghost use Rattle.profile_rules.specs.Faults.{GivesPart};
ghost use Rattle.profile_rules.specs.Conditions.{condition_of, conditions_of, bare, valued, filled, values_of, split_at, without_first, without_last};

use crate::fault::{PartErr, ProfileWhy};
use std::alloc::Global;
use tb_types::{Seq, Text};

/// A condition on the tags of an element, over the value of one key.
#[derive(Debug, Drop)]
pub enum Condition {
    /// The key is missing.
    Missing(Text),
    /// The key stands.
    Stands(Text),
    /// The value is one of these.
    OneOf(Text, Seq<Text>),
    /// The key is missing, or its value is another one.
    Other(Text, Text),
}

const EQUALS_MARK: char = '=';

const NOT_MARK: char = '!';

const OR_MARK: char = '|';

/// The conditions that these texts are. `Condition` where one is none.
pub fn conditions_of(alloc: Global, texts: &[&str]) -> Result<Vec<Condition>, PartErr>
    ensures { GivesPart (λ v. v.items) result (conditions_of (map (λ s. s.now) texts.now)) }
{
    let mut conditions = Vec::new(alloc);
    for text in texts {
        conditions.push(condition_of(alloc, *text)?)?;
    }
    Ok(conditions)
}

// The condition that a text is: it is split at its first `=`.
#[tactic(auto, unfolding(crate::specs::Conditions::condition_of))]
fn condition_of(alloc: Global, text: &str) -> Result<Condition, PartErr>
    ensures { GivesPart (λ c. c) result (condition_of text.now) }
{
    match split_at(text, EQUALS_MARK) {
        Some((before, value)) => valued(alloc, before, value),
        None => bare(alloc, text),
    }
}

// `!K`, or `K`.
fn bare(alloc: Global, text: &str) -> Result<Condition, PartErr>
    ensures { GivesPart (λ c. c) result (bare text.now (without_first 33 text.now)) }
{
    match without_first(text, NOT_MARK) {
        Some(key) => Ok(Condition::Missing(filled(alloc, key)?)),
        None => Ok(Condition::Stands(filled(alloc, text)?)),
    }
}

// `K!=V`, or `K=V|W`.
fn valued(alloc: Global, before: &str, value: &str) -> Result<Condition, PartErr>
    ensures { GivesPart (λ c. c) result (valued before.now value.now (without_last 33 before.now)) }
{
    match without_last(before, NOT_MARK) {
        Some(key) => {
            let key = filled(alloc, key)?;
            let value = filled(alloc, value)?;
            Ok(Condition::Other(key, value))
        }
        None => {
            let key = filled(alloc, before)?;
            let values = values_of(alloc, value)?;
            Ok(Condition::OneOf(key, Seq::from_vec(values)))
        }
    }
}

// The values between the marks.
fn values_of(alloc: Global, text: &str) -> Result<Vec<Text>, PartErr>
    ensures { GivesPart (λ v. v.items) result (values_of text.now) }
{
    let mut values = Vec::new(alloc);
    let mut rest = text;
    while let Some((value, more)) = split_at(rest, OR_MARK) {
        values.push(filled(alloc, value)?)?;
        rest = more;
    }
    values.push(filled(alloc, rest)?)?;
    Ok(values)
}

// Keys and values aren't empty.
fn filled(alloc: Global, text: &str) -> Result<Text, PartErr>
    ensures { GivesPart (λ t. t) result (filled text.now) }
{
    if text.is_empty() {
        return Err(PartErr::Bad(ProfileWhy::Condition));
    }
    Ok(Text::copy_of(alloc, text)?)
}

// The parts round the first mark in a text, where it has one.
fn split_at(text: &str, mark: char) -> Option<(&str, &str)>
    requires { mark < 128 }
    ensures value { option_map (λ p. (p.0.now, p.1.now)) result ≡ split_at mark text.now }
    ensures parts { MatchOption result (slice_split (λ b. b == mark) text.now ≡ text.now ∷ []) (λ p. slice_split (λ b. b == mark) text.now ≡ p.0.now ∷ slice_split (λ b. b == mark) p.1.now) }
    ensures shorter { IfSome result (λ p. length p.1.now < length text.now) }
{
    text.split_once(mark)
}

// A text without the mark that it begins with.
fn without_first(text: &str, mark: char) -> Option<&str>
    requires { mark < 128 }
    ensures { option_copied result ≡ without_first mark text.now }
{
    text.strip_prefix(mark)
}

// A text without the mark that it ends with.
fn without_last(text: &str, mark: char) -> Option<&str>
    requires { mark < 128 }
    ensures { option_copied result ≡ without_last mark text.now }
{
    text.strip_suffix(mark)
}
