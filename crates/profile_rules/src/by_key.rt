//! The numbers of rules by the key that each asks for, so that an element looks at few of many rules.

ghost use Rattle.std.specs.Prelude.{◌≡◌, ℕ, ◌<◌, ◌≤◌, ◌-◌, ◌==◌, ◌∷◌, [], length, replicate, option_copied, IfOk};
ghost use Rattle.profile_rules.specs.ByKey.{IsByKey, asked_key, key_or, key_number, place_of, place_of_rule, numbers_where, at_place, key_places, gathered, merged, numbers_for};

use crate::condition::Condition;
use crate::limits::{KEY_FACTOR, KEY_NUMBERS};
use crate::merge::merged;
use crate::parts::Rule;
use std::alloc::Global;
use tb_types::{Memory, Seq, Text};

/// The numbers of these rules at their places: of so many places that of the key that a rule asks for, and the last one
/// for those that ask for none. A rule asks for the first key that has to stand for its conditions to hold.
pub(crate) fn by_key(alloc: Global, rules: &[Rule]) -> Result<Seq<Seq<u16>>, Memory>
    requires { length rules.now ≤ 1024 }
    ensures { IfOk result (λ places. IsByKey rules.now places) }
{
    let count = rules.len().max(1);
    let mut places = empty_places(alloc, count + 1)?;
    for i in 0..rules.len() {
        let place = place_of_rule(count, &rules[i]);
        places[place].push(i as u16)?;
    }
    Ok(Seq::from_vec(places))
}

fn empty_places(alloc: Global, count: usize) -> Result<Vec<Seq<u16>>, Memory>
    ensures { IfOk result (λ places. places.items ≡ replicate count []) }
{
    let mut places = Vec::with_capacity(alloc, count)?;
    for place in 0..count {
        places.push(Seq::new(alloc))?;
    }
    Ok(places)
}

// The place of a rule.
fn place_of_rule(count: usize, rule: &Rule) -> usize
    requires { 0 < count }
    ensures place { result ≡ place_of_rule count rule.now }
    ensures within { result ≤ count }
{
    match asked_key(rule.conditions.as_slice()) {
        Some(key) => place_of(count, key),
        None => count,
    }
}

// The first key that has to stand for these conditions to hold.
fn asked_key(conditions: &[Condition]) -> Option<&str>
    ensures { option_copied result ≡ asked_key conditions.now }
{
    for condition in conditions {
        if let Condition::Stands(key) | Condition::OneOf(key, _) = condition {
            return Some(key.as_str());
        }
    }
    None
}

// The place of a key among so many.
fn place_of(count: usize, key: &str) -> usize
    requires { 0 < count }
    ensures place { result ≡ place_of count key.now }
    ensures within { result < count }
{
    key_number(key.as_bytes()) % count
}

fn key_number(key: &[u8]) -> usize
    ensures { result ≡ key_number 0 key.now }
{
    let mut number: usize = 0;
    for byte in key {
        number = (number * KEY_FACTOR + usize::from(*byte)) % KEY_NUMBERS;
    }
    number
}

// The numbers at a place.
fn at_place(places: &[Seq<u16>], place: usize) -> &[u16]
    requires { place < length places.now }
    ensures { result.now ≡ at_place place places.now }
{
    places[place].as_slice()
}

/// The numbers of the rules that ask for no key: they alone may be for an element without tags.
pub(crate) fn asking_none(places: &[Seq<u16>]) -> &[u16]
    requires { 1 < length places.now }
    ensures { result.now ≡ numbers_for places.now [] }
{
    at_place(places, places.len() - 1)
}

/// The numbers of the rules that may be for an element with these tags, in their order.
pub(crate) fn numbers_for(
    alloc: Global,
    places: &[Seq<u16>],
    tags: &[(Text, Text)],
) -> Result<Vec<u16>, Memory>
    requires { 1 < length places.now }
    ensures { IfOk result (λ numbers. numbers.items ≡ numbers_for places.now tags.now) }
{
    let count = places.len() - 1;
    let mut numbers = Vec::from_slice(alloc, asking_none(places))?;
    for tag in tags {
        let place = place_of(count, tag.0.as_str());
        numbers = with_numbers(alloc, numbers, at_place(places, place))?;
    }
    Ok(numbers)
}

// These numbers and more.
fn with_numbers(alloc: Global, numbers: Vec<u16>, more: &[u16]) -> Result<Vec<u16>, Memory>
    ensures { IfOk result (λ all. all.items ≡ merged numbers.items more.now) }
{
    if more.is_empty() {
        return Ok(numbers);
    }
    merged(alloc, &numbers, more)
}
