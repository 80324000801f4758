ghost use Rattle.std.specs.Prelude.{◌≡◌, IfOk, option_copied};
ghost use Rattle.profile_rules.specs.Features.{attr_of, origin_value, value_in, constant_value, whole_value, truth_value, digits_value, yes_word, true_word, one_word, no_word, false_word, zero_word};

use crate::attribute::{Attribute, Constant, Origin, ValueForm};
use crate::element::tag_value;
use crate::limits::MOST_DIGITS;
use std::alloc::Global;
use tb_types::{Attr, AttrValue, Memory, Text};

/// An attribute with its value, if an element with these tags has one.
pub fn attr_of(
    alloc: Global,
    tags: &[(Text, Text)],
    attribute: &Attribute,
) -> Result<Option<Attr>, Memory>
    ensures { IfOk result (λ attr. attr ≡ attr_of tags.now attribute.now) }
{
    match origin_value(alloc, tags, &attribute.origin)? {
        Some(value) => {
            let name = Text::copy_of(alloc, attribute.name.as_str())?;
            Ok(Some(Attr { name, value }))
        }
        None => Ok(None),
    }
}

fn origin_value(
    alloc: Global,
    tags: &[(Text, Text)],
    origin: &Origin,
) -> Result<Option<AttrValue>, Memory>
    ensures { IfOk result (λ value. value ≡ origin_value tags.now origin.now) }
{
    match origin {
        Origin::Tag(key, form) => match tag_value(tags, key.as_str()) {
            Some(text) => value_in(alloc, *form, text),
            None => Ok(None),
        },
        Origin::Constant(constant) => Ok(Some(constant_value(alloc, constant)?)),
    }
}

// A tag's value in a form.
fn value_in(alloc: Global, form: ValueForm, text: &str) -> Result<Option<AttrValue>, Memory>
    ensures { IfOk result (λ value. value ≡ value_in form text.now) }
{
    match form {
        ValueForm::Text => Ok(Some(AttrValue::Text(Text::copy_of(alloc, text)?))),
        ValueForm::Whole => match whole_value(text.as_bytes()) {
            Some(n) => Ok(Some(AttrValue::Whole(n))),
            None => Ok(None),
        },
        ValueForm::Truth => match truth_value(text) {
            Some(b) => Ok(Some(AttrValue::Truth(b))),
            None => Ok(None),
        },
    }
}

fn constant_value(alloc: Global, constant: &Constant) -> Result<AttrValue, Memory>
    ensures { IfOk result (λ value. value ≡ constant_value constant.now) }
{
    match constant {
        Constant::Text(text) => Ok(AttrValue::Text(Text::copy_of(alloc, text.as_str())?)),
        Constant::Whole(n) => Ok(AttrValue::Whole(i128::from(*n))),
        Constant::Truth(b) => Ok(AttrValue::Truth(*b)),
    }
}

// A whole number: an optional `-` before its digits.
fn whole_value(text: &[u8]) -> Option<i128>
    ensures { result ≡ whole_value text.now }
{
    match text {
        [] => None,
        [b'-', digits @ ..] => match digits_value(digits) {
            Some(n) => Some(-i128::from(n)),
            None => None,
        },
        [_, ..] => match digits_value(text) {
            Some(n) => Some(i128::from(n)),
            None => None,
        },
    }
}

// The number that 1 to 18 digits are.
fn digits_value(text: &[u8]) -> Option<u64>
    ensures { result ≡ digits_value text.now }
{
    if text.is_empty() || text.len() > MOST_DIGITS {
        return None;
    }
    let mut n: u64 = 0;
    for c in text {
        if !c.is_ascii_digit() {
            return None;
        }
        n = 10 * n + u64::from(*c - b'0');
    }
    Some(n)
}

#[tactic(auto, unfolding(crate::specs::Features::yes_word, crate::specs::Features::true_word, crate::specs::Features::one_word, crate::specs::Features::no_word, crate::specs::Features::false_word, crate::specs::Features::zero_word))]
fn truth_value(text: &str) -> Option<bool>
    ensures { result ≡ truth_value text.now }
{
    if text == "yes" || (text == "true" || text == "1") {
        Some(true)
    } else if text == "no" || (text == "false" || text == "0") {
        Some(false)
    } else {
        None
    }
}
