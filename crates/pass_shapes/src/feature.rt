ghost use Rattle.std.specs.Prelude.{◌≡◌, ◌+◌, ◌-◌, ◌<◌, ◌≤◌, ◌^◌, false, length, map, min};
ghost use Rattle.profile_rules.specs.Fields.{layers_of};
ghost use Rattle.profile_rules.specs.Sound.{IsSound, IsSoundSpec};
ghost use Rattle.tb_types.specs.Bags.{total};
ghost use Rattle.strip_clip.specs.CleanCuts.{points_of, polygon_points};
ghost use Rattle.tile_clip.specs.Pieces.{pieces_of};
ghost use Rattle.tile_model.specs.Rows.{shape_feature};
ghost use Rattle.tile_model.specs.Tiles.{feature_items};
ghost use Rattle.pass_shapes.specs.Labels.{IsSoundLabel};
ghost use Rattle.pass_shapes.specs.Emitting.{Emits};
ghost use Rattle.pass_shapes.specs.Pieces.{item_of, label_of, pieces_at};

use crate::id::feature_id;
use crate::layer::{buffer_of, tolerance_at};
use crate::numbers::POINT_LIMIT;
use crate::pieces::{Label, Pieces};
use crate::simple::simple_shape;
use feature_runs::{RunBuffer, Spill, SpillErr};
use mvt_codec::ItemKey;
use profile_rules::{Profile, Spec};
use std::alloc::Global;
use tb_types::{Grid, GridPolygon, Seq, Shape};
use tile_clip::{ClipErr, for_tiles};
use tile_model::{Origin, WorldShape};

/// Adds the items of a feature: of an element's shape what a spec makes of it, at each of the spec's zooms, in each tile in
/// which the cut leaves something of it.
pub fn put_feature<S: Spill>(
    buffer: &mut RunBuffer,
    spill: &mut S,
    alloc: Global,
    profile: &Profile,
    origin: Origin,
    shape: &WorldShape,
    spec: Spec,
) -> Result<(), SpillErr>
    requires sound { IsSound profile.now }
    requires spec { IsSoundSpec profile.now spec }
    ensures { Emits profile.now (feature_items (shape_feature profile.now origin shape.now spec)) (S.seen spill.old) (S.seen spill.new) buffer.old buffer.new result }
{
    let width = buffer_of(profile, &spec);
    let (layer, min, max) = (spec.layer, spec.min, spec.max);
    let label = label_of(profile, origin, spec);
    for zoom in min..max + 1 {
        let tolerance = tolerance_at(profile, layer, zoom);
        match put_zoom(
            buffer, spill, alloc, profile, &label, shape, zoom, tolerance, width,
        ) {
            Ok(()) => {}
            Err(e) => return Err(e),
        }
    }
    Ok(())
}

// What the items of a feature have in common.
fn label_of(profile: &Profile, origin: Origin, spec: Spec) -> Label
    requires sound { IsSound profile.now }
    requires spec { IsSoundSpec profile.now spec }
    ensures exact { result ≡ label_of origin spec }
    ensures sound { IsSoundLabel (length (layers_of profile.now)) result }
{
    Label {
        key: ItemKey {
            tile: 0,
            layer: spec.layer,
            order: spec.order,
            kind: origin.kind,
            place: origin.place,
            rule: spec.rule,
        },
        id: feature_id(origin.kind, origin.id),
        attributes: spec.attributes,
    }
}

// Adds the items of a feature at a zoom.
fn put_zoom<S: Spill>(
    buffer: &mut RunBuffer,
    spill: &mut S,
    alloc: Global,
    profile: &Profile,
    label: &Label,
    shape: &WorldShape,
    zoom: u8,
    tolerance: u32,
    width: u32,
) -> Result<(), SpillErr>
    requires sound { IsSound profile.now }
    requires label { IsSoundLabel (length (layers_of profile.now)) label.now }
    requires zoom { zoom ≤ 14 }
    requires tolerance { tolerance ≤ 64 }
    requires width { width ≤ 256 }
    ensures { Emits profile.now (map (item_of label.now) (pieces_at zoom tolerance width shape.now)) (S.seen spill.old) (S.seen spill.new) buffer.old buffer.new result }
{
    match simple_shape(alloc, shape, zoom, tolerance) {
        Ok(Some(simple)) => put_pieces(buffer, spill, alloc, profile, label, &simple, zoom, width),
        Ok(None) => Ok(()),
        Err(_) => Err(SpillErr::Memory),
    }
}

// Adds the items of the pieces of a shape on the grid of a zoom.
fn put_pieces<'a, S: Spill>(
    buffer: &'a mut RunBuffer,
    spill: &'a mut S,
    alloc: Global,
    profile: &'a Profile,
    label: &'a Label,
    simple: &Shape,
    zoom: u8,
    width: u32,
) -> Result<(), SpillErr>
    requires sound { IsSound profile.now }
    requires label { IsSoundLabel (length (layers_of profile.now)) label.now }
    requires zoom { zoom ≤ 14 }
    requires width { width ≤ 256 }
    ensures { Emits profile.now (map (item_of label.now) (pieces_of zoom width simple.now)) (S.seen spill.old) (S.seen spill.new) buffer.old buffer.new result }
{
    if is_too_large(simple) {
        return Err(SpillErr::Memory);
    }
    let mut pieces = Pieces {
        buffer,
        spill,
        alloc,
        profile,
        label,
    };
    match for_tiles(alloc, simple, zoom, width, &mut pieces) {
        Ok(()) => Ok(()),
        Err(ClipErr::Taker(stop)) => Err(stop),
        Err(ClipErr::Memory) => Err(SpillErr::Memory),
    }
}

// Whether a shape has too many points to be cut.
fn is_too_large(shape: &Shape) -> bool
    ensures { result ≡ false → points_of shape.now < 2 ^ 27 }
{
    count_points(shape) >= POINT_LIMIT
}

// How many points a shape has, up to the largest number of 64 bits.
fn count_points(shape: &Shape) -> usize
    ensures { result ≡ min (points_of shape.now) (2 ^ 64 - 1) }
{
    match shape {
        Shape::Point(_) => 1,
        Shape::Line(paths) => count_lines(0, paths.as_slice()),
        Shape::Area(polygons) => count_polygons(polygons.as_slice()),
    }
}

// So many points and those of lines or rings, up to that number.
#[tactic(auto, using(crate::proofs::Walks::total_next))]
fn count_lines(before: usize, lines: &[Seq<Grid>]) -> usize
    ensures { result ≡ min (before + total length lines.now) (2 ^ 64 - 1) }
{
    let mut count = before;
    for line in lines {
        count = count.saturating_add(line.as_slice().len());
    }
    count
}

// How many points polygons have, up to that number.
#[tactic(auto, using(crate::proofs::Walks::total_next))]
fn count_polygons(polygons: &[GridPolygon]) -> usize
    ensures { result ≡ min (total polygon_points polygons.now) (2 ^ 64 - 1) }
{
    let mut count = 0usize;
    for polygon in polygons {
        count = count.saturating_add(count_polygon(polygon));
    }
    count
}

// How many points a polygon has, up to that number.
fn count_polygon(polygon: &GridPolygon) -> usize
    ensures { result ≡ min (polygon_points polygon.now) (2 ^ 64 - 1) }
{
    count_lines(polygon.outer.as_slice().len(), polygon.inners.as_slice())
}
