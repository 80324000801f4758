ghost use Rattle.std.specs.Prelude.{◌≡◌, option_copied};
ghost use Rattle.std.specs.List.{list_any, list_all};
ghost use Rattle.std.specs.Str.{bytes_eq};
ghost use Rattle.profile_rules.specs.Features.{tag_value, is_one_of, is_other, holds, is_area_type, fits, applies, type_key, multipolygon, boundary};

use crate::condition::Condition;
use crate::parts::{Form, Rule};
use tb_types::{Kind, Text};

/// Whether a rule is for an element of this kind with these tags.
pub fn applies(tags: &[(Text, Text)], kind: Kind, rule: &Rule) -> bool
    ensures { result ≡ applies tags.now kind rule.now }
{
    fits(tags, kind, rule.form) && all_hold(tags, rule.conditions.as_slice())
}

fn all_hold(tags: &[(Text, Text)], conditions: &[Condition]) -> bool
    ensures { result ≡ list_all (holds tags.now) conditions.now }
{
    conditions.iter().all(|condition| holds(tags, condition))
}

#[tactic(auto, unfolding(crate::specs::Features::type_key))]
fn fits(tags: &[(Text, Text)], kind: Kind, form: Form) -> bool
    ensures { result ≡ fits tags.now kind form }
{
    match (kind, form) {
        (Kind::Node, Form::Point) => true,
        (Kind::Way, Form::Line | Form::Area) => true,
        (Kind::Relation, Form::Area) => is_area_type(tag_value(tags, "type")),
        _ => false,
    }
}

#[tactic(auto, unfolding(crate::specs::Features::multipolygon, crate::specs::Features::boundary))]
fn is_area_type(value: Option<&str>) -> bool
    ensures { result ≡ is_area_type (option_copied value.entry) }
{
    match value {
        Some(value) => value == "multipolygon" || value == "boundary",
        None => false,
    }
}

// Whether a condition holds of an element with these tags.
fn holds(tags: &[(Text, Text)], condition: &Condition) -> bool
    ensures { result ≡ holds tags.now condition.now }
{
    match condition {
        Condition::Missing(key) => tag_value(tags, key.as_str()).is_none(),
        Condition::Stands(key) => tag_value(tags, key.as_str()).is_some(),
        Condition::OneOf(key, values) => is_one_of(
            values.as_slice(),
            tag_value(tags, key.as_str()),
        ),
        Condition::Other(key, value) => is_other(value.as_str(), tag_value(tags, key.as_str())),
    }
}

fn is_one_of(values: &[Text], value: Option<&str>) -> bool
    ensures { result ≡ is_one_of values.now (option_copied value.entry) }
{
    match value {
        Some(value) => is_listed(values, value),
        None => false,
    }
}

fn is_listed(values: &[Text], value: &str) -> bool
    ensures { result ≡ list_any (λ v. bytes_eq v value.now) values.now }
{
    values.iter().any(|v| is_text(v, value))
}

fn is_text(text: &Text, other: &str) -> bool
    ensures { result ≡ bytes_eq text.now other.now }
{
    text.as_str() == other
}

fn is_other(value: &str, found: Option<&str>) -> bool
    ensures { result ≡ is_other value.now (option_copied found.entry) }
{
    match found {
        Some(found) => found != value,
        None => true,
    }
}

/// The value of a key: the first tag counts.
pub fn tag_value<'a>(tags: &'a [(Text, Text)], key: &str) -> Option<&'a str>
    ensures { option_copied result ≡ tag_value key.now tags.now }
{
    for tag in tags {
        if tag.0.as_str() == key {
            return Some(tag.1.as_str());
        }
    }
    None
}
