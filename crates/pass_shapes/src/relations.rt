ghost use Rattle.std.specs.Prelude.{◌≡◌, ◌<◌, ◌∷◌, [], IfOk, All, Some, filter_map, flat_map, length};
ghost use Rattle.profile_rules.specs.declared.parts.Form.TheVariants as forms;
ghost use Rattle.profile_rules.specs.Sound.{IsSound, IsSoundSpec};
ghost use Rattle.tile_model.specs.Relations.{polygons_of, relation_shape};
ghost use Rattle.tile_model.specs.Rows.{form_feature, shape_feature};
ghost use Rattle.tile_model.specs.Tiles.{emitted_items, feature_items};
ghost use Rattle.pass_shapes.specs.Emitting.{Emits};
ghost use Rattle.pass_shapes.specs.Kept.{kept_features, kept_origin, IsSoundKept};
ghost use Rattle.pass_shapes.specs.Stores.{shape_in};

use crate::attributes::copy_of;
use crate::feature::put_feature;
use crate::member_ways::member_ways;
use feature_runs::{RunBuffer, Spill, SpillErr};
use member_sets::KeptRelation;
use node_store::Shapes;
use profile_rules::{Form, Profile, Spec};
use ring_assembly::{Polygon, assemble, nest};
use std::alloc::Global;
use tb_types::{Kind, Memory, Seq};
use tile_model::{Origin, WorldShape};

/// Adds the items of kept relations: of each that has a polygon, for each of its specs, its area.
///
/// `Failed` comes only where the spill's count of faults rose, and then the buffer isn't used again.
pub fn put_relations<S: Spill>(
    buffer: &mut RunBuffer,
    spill: &mut S,
    alloc: Global,
    profile: &Profile,
    shapes: &Shapes,
    kept: &[KeptRelation],
) -> Result<(), SpillErr>
    requires sound { IsSound profile.now }
    requires specs { All (IsSoundKept profile.now) kept.now }
    ensures { Emits profile.now (emitted_items (flat_map (kept_features profile.now (shape_in shapes.now)) kept.now)) (S.seen spill.old) (S.seen spill.new) buffer.old buffer.new result }
{
    for relation in kept {
        match put_relation(buffer, spill, alloc, profile, shapes, relation) {
            Ok(()) => {}
            Err(e) => return Err(e),
        }
    }
    Ok(())
}

// Adds the items of a relation.
fn put_relation<S: Spill>(
    buffer: &mut RunBuffer,
    spill: &mut S,
    alloc: Global,
    profile: &Profile,
    shapes: &Shapes,
    relation: &KeptRelation,
) -> Result<(), SpillErr>
    requires sound { IsSound profile.now }
    requires specs { IsSoundKept profile.now relation.now }
    ensures { Emits profile.now (emitted_items (kept_features profile.now (shape_in shapes.now) relation.now)) (S.seen spill.old) (S.seen spill.new) buffer.old buffer.new result }
{
    let polygons = match polygons_of(alloc, shapes, relation) {
        Ok(polygons) => polygons,
        Err(_) => return Err(SpillErr::Memory),
    };
    if polygons.as_slice().is_empty() {
        return Ok(());
    }
    let area = WorldShape::Area(polygons);
    put_specs(buffer, spill, alloc, profile, shapes, relation, &area)
}

// The polygons of a relation's member ways.
fn polygons_of(
    alloc: Global,
    shapes: &Shapes,
    relation: &KeptRelation,
) -> Result<Seq<Polygon>, Memory>
    ensures { IfOk result (λ polygons. polygons ≡ polygons_of (shape_in shapes.now) relation.now.members) }
{
    let ways = member_ways(alloc, shapes, relation.members.as_slice())?;
    let rings = assemble(alloc, &ways)?;
    nest(alloc, rings.as_slice())
}

// Adds the items of a relation with this area, spec after spec.
fn put_specs<S: Spill>(
    buffer: &mut RunBuffer,
    spill: &mut S,
    alloc: Global,
    profile: &Profile,
    shapes: &Shapes,
    relation: &KeptRelation,
    area: &WorldShape,
) -> Result<(), SpillErr>
    requires sound { IsSound profile.now }
    requires specs { IsSoundKept profile.now relation.now }
    requires area { relation_shape (shape_in shapes.now) relation.now.members forms.Area ≡ Some area.now }
    ensures { Emits profile.now (emitted_items (kept_features profile.now (shape_in shapes.now) relation.now)) (S.seen spill.old) (S.seen spill.new) buffer.old buffer.new result }
{
    for spec in relation.specs.as_slice() {
        match put_spec(buffer, spill, alloc, profile, shapes, relation, area, spec) {
            Ok(()) => {}
            Err(e) => return Err(e),
        }
    }
    Ok(())
}

// Adds the items of a spec.
fn put_spec<S: Spill>(
    buffer: &mut RunBuffer,
    spill: &mut S,
    alloc: Global,
    profile: &Profile,
    shapes: &Shapes,
    relation: &KeptRelation,
    area: &WorldShape,
    spec: &Spec,
) -> Result<(), SpillErr>
    requires sound { IsSound profile.now }
    requires spec { IsSoundSpec profile.now spec.now }
    requires area { relation_shape (shape_in shapes.now) relation.now.members forms.Area ≡ Some area.now }
    ensures { Emits profile.now (emitted_items (filter_map (form_feature profile.now (kept_origin relation.now) (relation_shape (shape_in shapes.now) relation.now.members)) (spec.now ∷ []))) (S.seen spill.old) (S.seen spill.new) buffer.old buffer.new result }
{
    match spec.form {
        Form::Point => Ok(()),
        Form::Line => Ok(()),
        Form::Area => put_area(buffer, spill, alloc, profile, relation, area, spec),
    }
}

// Adds the items of an area that a spec makes of a relation.
fn put_area<S: Spill>(
    buffer: &mut RunBuffer,
    spill: &mut S,
    alloc: Global,
    profile: &Profile,
    relation: &KeptRelation,
    area: &WorldShape,
    spec: &Spec,
) -> Result<(), SpillErr>
    requires sound { IsSound profile.now }
    requires spec { IsSoundSpec profile.now spec.now }
    ensures { Emits profile.now (feature_items (shape_feature profile.now (kept_origin relation.now) area.now spec.now)) (S.seen spill.old) (S.seen spill.new) buffer.old buffer.new result }
{
    let origin = Origin {
        kind: Kind::Relation,
        place: relation.place,
        id: relation.id,
    };
    match spec_of(alloc, profile, spec) {
        Ok(copy) => put_feature(buffer, spill, alloc, profile, origin, area, copy),
        Err(_) => Err(SpillErr::Memory),
    }
}

// A copy of a spec.
fn spec_of(alloc: Global, profile: &Profile, spec: &Spec) -> Result<Spec, Memory>
    requires { IsSoundSpec profile.now spec.now }
    ensures { IfOk result (λ copy. copy ≡ spec.now) }
{
    Ok(Spec {
        rule: spec.rule,
        layer: spec.layer,
        order: spec.order,
        min: spec.min,
        max: spec.max,
        form: spec.form,
        attributes: copy_of(alloc, spec.attributes.as_slice())?,
    })
}
