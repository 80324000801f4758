ghost use Rattle.std.specs.Prelude.{◌≡◌, ◌<◌, [], ◌∷◌, length, IfOk};
ghost use Rattle.profile_rules.specs.OneRule.{one_rule_of, key_rule, nodes_layer};

use crate::attribute::{Attribute, Origin, ValueForm};
use crate::condition::Condition;
use crate::parts::{Form, LayerInfo, Parts, Rule};
use crate::profile::Profile;
use std::alloc::Global;
use tb_types::{Memory, Seq, Text};

/// The profile of a key, which isn't empty: points of all nodes with that key, in the one layer `nodes` at zoom 0, with
/// the key as their attribute.
pub fn one_rule(alloc: Global, key: &str) -> Result<Profile, Memory>
    requires { 0 < length key.now }
    ensures { IfOk result (λ p. p ≡ one_rule_of key.now) }
{
    let parts = one_rule_parts(alloc, key)?;
    Profile::of(alloc, parts)
}

#[tactic(auto, unfolding(crate::specs::Top::usual_name))]
fn one_rule_parts(alloc: Global, key: &str) -> Result<Parts, Memory>
    ensures { IfOk result (λ p. p ≡ one_rule_of key.now) }
{
    let name = Text::copy_of(alloc, "map")?;
    let mut layers = Seq::new(alloc);
    layers.push(nodes_layer(alloc)?)?;
    let mut rules = Seq::new(alloc);
    rules.push(key_rule(alloc, key)?)?;
    Ok(Parts {
        name,
        min: 0,
        max: 0,
        layers,
        rules,
    })
}

#[tactic(auto, unfolding(crate::specs::OneRule::nodes_id))]
fn nodes_layer(alloc: Global) -> Result<LayerInfo, Memory>
    ensures { IfOk result (λ l. l ≡ nodes_layer) }
{
    Ok(LayerInfo {
        id: Text::copy_of(alloc, "nodes")?,
        buffer: 0,
        tolerance: 0,
    })
}

fn key_rule(alloc: Global, key: &str) -> Result<Rule, Memory>
    ensures { IfOk result (λ r. r ≡ key_rule key.now) }
{
    let mut conditions = Seq::new(alloc);
    conditions.push(Condition::Stands(Text::copy_of(alloc, key)?))?;
    let mut attributes = Seq::new(alloc);
    attributes.push(Attribute {
        name: Text::copy_of(alloc, key)?,
        origin: Origin::Tag(Text::copy_of(alloc, key)?, ValueForm::Text),
    })?;
    Ok(Rule {
        layer: 0,
        form: Form::Point,
        conditions,
        min: 0,
        max: 0,
        order: 0,
        attributes,
    })
}
