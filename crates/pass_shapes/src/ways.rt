ghost use Rattle.std.specs.Prelude.{◌≡◌, ◌∷◌, [], IfOk, Some, All, filter_map, flat_map};
ghost use Rattle.profile_rules.specs.Sound.{IsSound, IsSoundSpec};
ghost use Rattle.tile_model.specs.Tiles.{emitted_items};
ghost use Rattle.tile_model.specs.Ways.{path_of, ring_area, way_feature, way_features, way_origin, way_shape};
ghost use Rattle.pass_shapes.specs.Emitting.{Emits};
ghost use Rattle.pass_shapes.specs.Stores.{locate_in};

use crate::feature::put_feature;
use crate::path::{is_closed, path_of};
use feature_runs::{RunBuffer, Spill, SpillErr};
use node_store::Locations;
use osm_elements::WayEl;
use profile_rules::{Form, Profile, Spec, specs};
use ring_assembly::Polygon;
use std::alloc::Global;
use tb_types::{Kind, Memory, OsmId, Place, Seq, World};
use tile_model::{Origin, WorldShape};

/// Adds the items of the ways of a block: of each way that has a shape, for each spec that the rules of the profile make of it,
/// its line or its area.
///
/// `Failed` comes only where the spill's count of faults rose, and then the buffer isn't used again.
pub fn put_ways<S: Spill>(
    buffer: &mut RunBuffer,
    spill: &mut S,
    alloc: Global,
    profile: &Profile,
    locations: &Locations,
    block: u32,
    ways: &[WayEl],
) -> Result<(), SpillErr>
    requires sound { IsSound profile.now }
    ensures { Emits profile.now (emitted_items (flat_map (way_features profile.now (locate_in locations.now) block) ways.now)) (S.seen spill.old) (S.seen spill.new) buffer.old buffer.new result }
{
    for way in ways {
        match put_way(buffer, spill, alloc, profile, locations, block, way) {
            Ok(()) => {}
            Err(e) => return Err(e),
        }
    }
    Ok(())
}

// Adds the items of a way.
fn put_way<S: Spill>(
    buffer: &mut RunBuffer,
    spill: &mut S,
    alloc: Global,
    profile: &Profile,
    locations: &Locations,
    block: u32,
    way: &WayEl,
) -> Result<(), SpillErr>
    requires sound { IsSound profile.now }
    ensures { Emits profile.now (emitted_items (way_features profile.now (locate_in locations.now) block way.now)) (S.seen spill.old) (S.seen spill.new) buffer.old buffer.new result }
{
    let specs = match specs(alloc, profile, &way.tags, Kind::Way) {
        Ok(specs) => specs,
        Err(_) => return Err(SpillErr::Memory),
    };
    if specs.as_slice().is_empty() {
        return Ok(());
    }
    match path_of(alloc, locations, way.refs.as_slice()) {
        Ok(Some(path)) => put_specs(
            buffer, spill, alloc, profile, locations, block, way, &path, specs,
        ),
        Ok(None) => Ok(()),
        Err(_) => Err(SpillErr::Memory),
    }
}

// Adds the items of a way along these points, spec after spec.
fn put_specs<S: Spill>(
    buffer: &mut RunBuffer,
    spill: &mut S,
    alloc: Global,
    profile: &Profile,
    locations: &Locations,
    block: u32,
    way: &WayEl,
    path: &[World],
    specs: Seq<Spec>,
) -> Result<(), SpillErr>
    requires sound { IsSound profile.now }
    requires specs { All (IsSoundSpec profile.now) specs }
    requires path { path_of (locate_in locations.now) way.now.refs ≡ Some path.now }
    ensures { Emits profile.now (emitted_items (filter_map (way_feature profile.now (locate_in locations.now) block way.now) specs)) (S.seen spill.old) (S.seen spill.new) buffer.old buffer.new result }
{
    for spec in specs.into_vec() {
        match put_spec(
            buffer, spill, alloc, profile, locations, block, way, path, spec,
        ) {
            Ok(()) => {}
            Err(e) => return Err(e),
        }
    }
    Ok(())
}

// Adds the items of a spec of a way.
fn put_spec<S: Spill>(
    buffer: &mut RunBuffer,
    spill: &mut S,
    alloc: Global,
    profile: &Profile,
    locations: &Locations,
    block: u32,
    way: &WayEl,
    path: &[World],
    spec: Spec,
) -> Result<(), SpillErr>
    requires sound { IsSound profile.now }
    requires spec { IsSoundSpec profile.now spec }
    requires path { path_of (locate_in locations.now) way.now.refs ≡ Some path.now }
    ensures { Emits profile.now (emitted_items (filter_map (way_feature profile.now (locate_in locations.now) block way.now) (spec ∷ []))) (S.seen spill.old) (S.seen spill.new) buffer.old buffer.new result }
{
    match shape_in(alloc, locations, way.refs.as_slice(), path, spec.form) {
        Ok(Some(shape)) => put_feature(
            buffer,
            spill,
            alloc,
            profile,
            origin_of(block, way),
            &shape,
            spec,
        ),
        Ok(None) => Ok(()),
        Err(_) => Err(SpillErr::Memory),
    }
}

fn origin_of(block: u32, way: &WayEl) -> Origin
    ensures { result ≡ way_origin block way.now }
{
    Origin {
        kind: Kind::Way,
        place: Place {
            block,
            index: way.index,
        },
        id: way.id,
    }
}

// The shape of a way along these points in a form, if it has one.
fn shape_in(
    alloc: Global,
    locations: &Locations,
    refs: &[OsmId],
    path: &[World],
    form: Form,
) -> Result<Option<WorldShape>, Memory>
    requires path { path_of (locate_in locations.now) refs.now ≡ Some path.now }
    ensures { IfOk result (λ shape. shape ≡ way_shape (locate_in locations.now) refs.now form) }
{
    match form {
        Form::Point => Ok(None),
        Form::Line => Ok(Some(WorldShape::Line(copy_of(alloc, path)?))),
        Form::Area => {
            if !is_closed(refs) {
                return Ok(None);
            }
            Ok(Some(ring_area(alloc, path)?))
        }
    }
}

// The area of a closed way: its ring is its points without the last.
fn ring_area(alloc: Global, path: &[World]) -> Result<WorldShape, Memory>
    ensures { IfOk result (λ shape. shape ≡ ring_area path.now) }
{
    let mut ring = copy_of(alloc, path)?.into_vec();
    ring.pop();
    let mut polygons = Seq::new(alloc);
    polygons.push(Polygon {
        outer: Seq::from_vec(ring),
        inners: Seq::new(alloc),
    })?;
    Ok(WorldShape::Area(polygons))
}

fn copy_of(alloc: Global, path: &[World]) -> Result<Seq<World>, Memory>
    ensures { IfOk result (λ copy. copy ≡ path.now) }
{
    let mut points = Vec::new(alloc);
    points.extend_from_slice(path)?;
    Ok(Seq::from_vec(points))
}
