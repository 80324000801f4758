ghost use Rattle.std.specs.Prelude.{◌≡◌, ◌++◌, ◌∷◌, [], ◌≤◌, length, option_copied, IfOk, OnOk, All, filter_map};
ghost use Rattle.profile_rules.specs.Features.{specs_of, specs_in, spec_of, attr_of};
ghost use Rattle.profile_rules.specs.ByKey.{IsByKey, specs_if, specs_by};
ghost use Rattle.profile_rules.specs.Sound.{IsSoundSpec};

use crate::attribute::Attribute;
use crate::by_key::{asking_none, numbers_for};
use crate::element::applies;
use crate::parts::{Form, Parts, Rule};
use crate::profile::Profile;
use crate::value::attr_of;
use std::alloc::Global;
use tb_types::{Attr, Kind, Memory, Seq, Tags, Text};

/// What a rule makes of an element: a feature of the layer of number `layer`, at the zooms from `min` to `max`. `rule` is
/// the number of the rule, counted from 0. Features of a layer stand in a tile by `order` first.
#[derive(Debug, Drop)]
pub struct Spec {
    pub rule: u16,
    pub layer: u8,
    pub order: i16,
    pub min: u8,
    pub max: u8,
    pub form: Form,
    pub attributes: Seq<Attr>,
}

/// The specs of an element: those rules, in their order, whose conditions all hold and whose form fits its kind. A spec has
/// those of its rule's attributes that the element has a value for, in their order.
pub fn specs(alloc: Global, profile: &Profile, tags: &Tags, kind: Kind) -> Result<Seq<Spec>, Memory>
    ensures value { IfOk result (λ specs. specs ≡ specs_of profile.now tags.now kind) }
    ensures sound { IfOk result (λ specs. All (IsSoundSpec profile.now) specs) }
{
    specs_under(alloc, profile.parts(), profile.places(), tags, kind)
}

// Of many rules those alone are looked at that ask for no key, or for one that may be a tag's.
fn specs_under(
    alloc: Global,
    parts: &Parts,
    places: &[Seq<u16>],
    tags: &Tags,
    kind: Kind,
) -> Result<Seq<Spec>, Memory>
    requires { IsByKey parts.now.rules places.now }
    ensures { IfOk result (λ specs. specs ≡ specs_of parts.now tags.now kind) }
{
    let rules = parts.rules.as_slice();
    let tags = tags.pairs.as_slice();
    if tags.is_empty() {
        return specs_by(alloc, tags, kind, rules, asking_none(places));
    }
    let numbers = numbers_for(alloc, places, tags)?;
    specs_by(alloc, tags, kind, rules, &numbers)
}

// What the rules of these numbers make of an element.
fn specs_by(
    alloc: Global,
    tags: &[(Text, Text)],
    kind: Kind,
    rules: &[Rule],
    numbers: &[u16],
) -> Result<Seq<Spec>, Memory>
    ensures { IfOk result (λ specs. specs ≡ specs_by tags.now kind rules.now numbers.now) }
{
    let mut specs = Seq::new(alloc);
    for number in numbers {
        add_spec(
            alloc,
            &mut specs,
            tags,
            kind,
            *number,
            rules.get(usize::from(*number)),
        )?;
    }
    Ok(specs)
}

// Adds what a rule makes of an element, where there is one and it is for it.
fn add_spec(
    alloc: Global,
    specs: &mut Seq<Spec>,
    tags: &[(Text, Text)],
    kind: Kind,
    number: u16,
    rule: Option<&Rule>,
) -> Result<(), Memory>
    ensures { OnOk result (specs.new ≡ specs.old ++ specs_if tags.now kind number (option_copied rule.entry)) }
{
    let Some(rule) = rule else {
        return Ok(());
    };
    if applies(tags, kind, rule) {
        specs.push(spec_of(alloc, tags, number, rule)?)?;
    }
    Ok(())
}

// What a rule makes of an element that it is for.
fn spec_of(alloc: Global, tags: &[(Text, Text)], number: u16, rule: &Rule) -> Result<Spec, Memory>
    ensures { IfOk result (λ spec. spec ≡ spec_of tags.now (number, rule.now)) }
{
    Ok(Spec {
        rule: number,
        layer: rule.layer,
        order: rule.order,
        min: rule.min,
        max: rule.max,
        form: rule.form,
        attributes: attrs_of(alloc, tags, rule.attributes.as_slice())?,
    })
}

fn attrs_of(
    alloc: Global,
    tags: &[(Text, Text)],
    attributes: &[Attribute],
) -> Result<Seq<Attr>, Memory>
    ensures { IfOk result (λ attrs. attrs ≡ filter_map (attr_of tags.now) attributes.now) }
{
    let mut attrs = Seq::new(alloc);
    for attribute in attributes {
        if let Some(attr) = attr_of(alloc, tags, attribute)? {
            attrs.push(attr)?;
        }
    }
    Ok(attrs)
}
