ghost use Rattle.std.specs.Prelude.{◌≡◌, IfOk, OnOk, All};
ghost use Rattle.profile_rules.specs.Sound.{IsSoundAttr, IsSoundValue};
ghost use Rattle.mvt_codec.specs.Again.{FitsAttribute, FitsValue};

use std::alloc::Global;
use tb_types::{Attr, AttrValue, Memory, Seq, Text};

/// A copy of attributes, which are within their types.
pub fn copy_of(alloc: Global, attributes: &[Attr]) -> Result<Seq<Attr>, Memory>
    requires { All IsSoundAttr attributes.now }
    ensures exact { IfOk result (λ copy. copy ≡ attributes.now) }
    ensures fits { OnOk result (All FitsAttribute attributes.now) }
{
    let mut copy = Vec::with_capacity(alloc, attributes.len())?;
    for attribute in attributes {
        copy.push(attribute_of(alloc, attribute)?)?;
    }
    Ok(Seq::from_vec(copy))
}

fn attribute_of(alloc: Global, attribute: &Attr) -> Result<Attr, Memory>
    requires { IsSoundAttr attribute.now }
    ensures exact { IfOk result (λ copy. copy ≡ attribute.now) }
    ensures fits { OnOk result (FitsAttribute attribute.now) }
{
    let name = Text::copy_of(alloc, attribute.name.as_str())?;
    let value = value_of(alloc, &attribute.value)?;
    Ok(Attr { name, value })
}

fn value_of(alloc: Global, value: &AttrValue) -> Result<AttrValue, Memory>
    requires { IsSoundValue value.now }
    ensures exact { IfOk result (λ copy. copy ≡ value.now) }
    ensures fits { OnOk result (FitsValue value.now) }
{
    match value {
        AttrValue::Text(text) => Ok(AttrValue::Text(Text::copy_of(alloc, text.as_str())?)),
        AttrValue::Whole(number) => Ok(AttrValue::Whole(*number)),
        AttrValue::Truth(truth) => Ok(AttrValue::Truth(*truth)),
        AttrValue::Bits32(bits) => Ok(AttrValue::Bits32(*bits)),
        AttrValue::Bits64(bits) => Ok(AttrValue::Bits64(*bits)),
    }
}
