ghost use Rattle.std.specs.Prelude.{◌≡◌, ◌<◌, ◌≤◌, ◌^◌, [], ◌∷◌, All, IfOk, flat_map, length, map};
ghost use Rattle.profile_rules.specs.Fields.{layers_of};
ghost use Rattle.profile_rules.specs.Sound.{IsSound, IsSoundSpec};
ghost use Rattle.tile_model.specs.Points.{node_features, node_origin, point_feature, point_ints, point_of, projected, reach_tiles, AreFew, IsOnGrid};
ghost use Rattle.pass_shapes.specs.Emitting.{Emits};
ghost use Rattle.tile_model.specs.Rows.{feature_id};
ghost use Rattle.tile_model.specs.World.{grid_point};
ghost use Rattle.tb_types.specs.Zigzag.{zigzag_of};
ghost use Rattle.tile_model.specs.Tiles.{emitted_items, feature_items, zoom_items};
ghost use Rattle.tb_types.specs.declared.element.Kind.TheVariants as kinds;
ghost use Rattle.tile_model.specs.Items.{column_tiles, item_in, IsSoundItem};

use crate::attributes::copy_of;
use crate::emit::emit_item;
use crate::id::feature_id;
use crate::layer::buffer_of;
use crate::numbers::MOVE_TO_ONE;
use crate::simple::grid_point;
use feature_runs::{RunBuffer, Spill, SpillErr};
use hilbert_ids::id_of;
use int_mercator::{Table, project};
use mvt_codec::{ItemKey, RunItem, TileRow};
use mvt_geom::POINT;
use osm_elements::NodeEl;
use profile_rules::{Profile, Spec, specs};
use std::alloc::Global;
use tb_types::{Grid, Kind, LatLon, Memory, Place, Seq, TileXyz, World, zigzag};
use tile_model::{Reach, Strips, from_corner, reach_of_point};

/// Adds the items of the nodes of a block to a buffer, which writes them to a spill as sorted runs.
///
/// `Failed` comes only where the spill's count of faults rose, and then the buffer isn't used again.
pub fn put_points<S: Spill>(
    buffer: &mut RunBuffer,
    spill: &mut S,
    alloc: Global,
    profile: &Profile,
    table: &Table,
    block: u32,
    nodes: &[NodeEl],
) -> Result<(), SpillErr>
    requires sound { IsSound profile.now }
    ensures { Emits profile.now (emitted_items (flat_map (node_features profile.now block) nodes.now)) (S.seen spill.old) (S.seen spill.new) buffer.old buffer.new result }
{
    for node in nodes {
        match put_items(buffer, spill, alloc, profile, table, block, node) {
            Ok(()) => {}
            Err(e) => return Err(e),
        }
    }
    Ok(())
}

// Adds the items of a node of a block, if it has a location: for each spec that the rules of the profile make of it a point
// at each of the spec's zooms, in each tile whose buffer holds it. Most nodes have no spec, and aren't projected.
fn put_items<S: Spill>(
    buffer: &mut RunBuffer,
    spill: &mut S,
    alloc: Global,
    profile: &Profile,
    table: &Table,
    block: u32,
    node: &NodeEl,
) -> Result<(), SpillErr>
    requires sound { IsSound profile.now }
    ensures { Emits profile.now (emitted_items (node_features profile.now block node.now)) (S.seen spill.old) (S.seen spill.new) buffer.old buffer.new result }
{
    let specs = match specs(alloc, profile, &node.tags, Kind::Node) {
        Ok(specs) => specs,
        Err(_) => return Err(SpillErr::Memory),
    };
    if specs.as_slice().is_empty() {
        return Ok(());
    }
    match point_of(table, node) {
        None => Ok(()),
        Some(point) => put_each(
            buffer,
            spill,
            alloc,
            profile,
            block,
            node,
            point,
            specs.as_slice(),
        ),
    }
}

// Adds the items of specs, one after another.
fn put_each<S: Spill>(
    buffer: &mut RunBuffer,
    spill: &mut S,
    alloc: Global,
    profile: &Profile,
    block: u32,
    node: &NodeEl,
    point: World,
    specs: &[Spec],
) -> Result<(), SpillErr>
    requires sound { IsSound profile.now }
    requires specs { All (IsSoundSpec profile.now) specs.now }
    ensures { Emits profile.now (emitted_items (map (point_feature profile.now block node.now point) specs.now)) (S.seen spill.old) (S.seen spill.new) buffer.old buffer.new result }
{
    for spec in specs {
        match put_spec(buffer, spill, alloc, profile, block, node, point, spec) {
            Ok(()) => {}
            Err(e) => return Err(e),
        }
    }
    Ok(())
}

// Adds the items of a spec, zoom after zoom.
fn put_spec<S: Spill>(
    buffer: &mut RunBuffer,
    spill: &mut S,
    alloc: Global,
    profile: &Profile,
    block: u32,
    node: &NodeEl,
    point: World,
    spec: &Spec,
) -> Result<(), SpillErr>
    requires sound { IsSound profile.now }
    requires spec { IsSoundSpec profile.now spec.now }
    ensures { Emits profile.now (feature_items (point_feature profile.now block node.now point spec.now)) (S.seen spill.old) (S.seen spill.new) buffer.old buffer.new result }
{
    for zoom in spec.min..spec.max + 1 {
        match put_zoom(
            buffer, spill, alloc, profile, block, node, point, spec, zoom,
        ) {
            Ok(()) => {}
            Err(e) => return Err(e),
        }
    }
    Ok(())
}

// Adds the items of a spec at a zoom.
fn put_zoom<S: Spill>(
    buffer: &mut RunBuffer,
    spill: &mut S,
    alloc: Global,
    profile: &Profile,
    block: u32,
    node: &NodeEl,
    point: World,
    spec: &Spec,
    zoom: u8,
) -> Result<(), SpillErr>
    requires sound { IsSound profile.now }
    requires spec { IsSoundSpec profile.now spec.now }
    requires first { spec.now.min ≤ zoom }
    requires last { zoom ≤ spec.now.max }
    ensures { Emits profile.now (zoom_items (point_feature profile.now block node.now point spec.now) zoom) (S.seen spill.old) (S.seen spill.new) buffer.old buffer.new result }
{
    let width = buffer_of(profile, spec);
    let p = grid_point(point, zoom);
    let reach = reach_of_point(p, zoom, width);
    put_reach(
        buffer, spill, alloc, profile, block, node, spec, p, zoom, reach,
    )
}

// Adds the items in the tiles where columns and rows cross.
fn put_reach<S: Spill>(
    buffer: &mut RunBuffer,
    spill: &mut S,
    alloc: Global,
    profile: &Profile,
    block: u32,
    node: &NodeEl,
    spec: &Spec,
    p: Grid,
    zoom: u8,
    reach: Reach,
) -> Result<(), SpillErr>
    requires sound { IsSound profile.now }
    requires spec { IsSoundSpec profile.now spec.now }
    requires zoom { zoom ≤ 14 }
    requires grid { IsOnGrid zoom p }
    requires columns { AreFew zoom reach.columns }
    requires rows { AreFew zoom reach.rows }
    ensures { Emits profile.now (map (item_in block node.now spec.now p) (reach_tiles zoom reach)) (S.seen spill.old) (S.seen spill.new) buffer.old buffer.new result }
{
    for x in reach.columns.first..reach.columns.last + 1 {
        match put_column(
            buffer, spill, alloc, profile, block, node, spec, p, zoom, x, reach.rows,
        ) {
            Ok(()) => {}
            Err(e) => return Err(e),
        }
    }
    Ok(())
}

// Adds the items in the tiles of a column.
fn put_column<S: Spill>(
    buffer: &mut RunBuffer,
    spill: &mut S,
    alloc: Global,
    profile: &Profile,
    block: u32,
    node: &NodeEl,
    spec: &Spec,
    p: Grid,
    zoom: u8,
    x: u32,
    rows: Strips,
) -> Result<(), SpillErr>
    requires sound { IsSound profile.now }
    requires spec { IsSoundSpec profile.now spec.now }
    requires zoom { zoom ≤ 14 }
    requires grid { IsOnGrid zoom p }
    requires column { x < 2 ^ zoom }
    requires rows { AreFew zoom rows }
    ensures { Emits profile.now (map (item_in block node.now spec.now p) (column_tiles zoom x rows)) (S.seen spill.old) (S.seen spill.new) buffer.old buffer.new result }
{
    for y in rows.first..rows.last + 1 {
        let tile = TileXyz { z: zoom, x, y };
        match put_item(buffer, spill, alloc, profile, block, node, spec, p, tile) {
            Ok(()) => {}
            Err(e) => return Err(e),
        }
    }
    Ok(())
}

// Adds the item of a node in a tile.
fn put_item<S: Spill>(
    buffer: &mut RunBuffer,
    spill: &mut S,
    alloc: Global,
    profile: &Profile,
    block: u32,
    node: &NodeEl,
    spec: &Spec,
    p: Grid,
    tile: TileXyz,
) -> Result<(), SpillErr>
    requires sound { IsSound profile.now }
    requires spec { IsSoundSpec profile.now spec.now }
    requires zoom { tile.z ≤ 14 }
    requires grid { IsOnGrid tile.z p }
    requires column { tile.x < 2 ^ tile.z }
    requires row { tile.y < 2 ^ tile.z }
    requires low { (tile.x ≤ 16383) × (tile.y ≤ 16383) }
    ensures { Emits profile.now (item_in block node.now spec.now p tile ∷ []) (S.seen spill.old) (S.seen spill.new) buffer.old buffer.new result }
{
    match item_in(alloc, profile, block, node, spec, p, tile) {
        Ok(item) => emit_item(buffer, spill, profile, item),
        Err(_) => Err(SpillErr::Memory),
    }
}

// The item of a node in a tile, where its point is at a place of the tile's grid.
fn item_in(
    alloc: Global,
    profile: &Profile,
    block: u32,
    node: &NodeEl,
    spec: &Spec,
    p: Grid,
    tile: TileXyz,
) -> Result<RunItem, Memory>
    requires sound { IsSound profile.now }
    requires spec { IsSoundSpec profile.now spec.now }
    requires zoom { tile.z ≤ 14 }
    requires grid { IsOnGrid tile.z p }
    requires column { tile.x < 2 ^ tile.z }
    requires row { tile.y < 2 ^ tile.z }
    requires low { (tile.x ≤ 16383) × (tile.y ≤ 16383) }
    ensures exact { IfOk result (λ item. item ≡ item_in block node.now spec.now p tile) }
    ensures sound { IfOk result (λ item. IsSoundItem (length (layers_of profile.now)) item) }
{
    let ints = point_ints(alloc, from_corner(p, tile.z, tile))?;
    let attributes = copy_of(alloc, spec.attributes.as_slice())?;
    Ok(RunItem {
        key: ItemKey {
            tile: id_of(tile).0,
            layer: spec.layer,
            order: spec.order,
            kind: Kind::Node,
            place: place_of(block, node),
            rule: spec.rule,
        },
        row: TileRow {
            id: feature_id(Kind::Node, node.id),
            form: POINT,
            ints,
            attributes,
        },
    })
}

fn place_of(block: u32, node: &NodeEl) -> Place
    ensures { result ≡ (node_origin block node.now).place }
{
    Place {
        block,
        index: node.index,
    }
}

// The point of a node, if it has a location.
pub(crate) fn point_of(table: &Table, node: &NodeEl) -> Option<World>
    ensures { result ≡ point_of node.now }
{
    match node.at {
        Some(at) => projected(table, at),
        None => None,
    }
}

// The point of the world at a location, or none where that isn't on earth.
fn projected(table: &Table, at: LatLon) -> Option<World>
    ensures { result ≡ projected at }
{
    project(table, at.lat, at.lon)
}

// MoveTo, once, and the way from the tile's corner to a point.
fn point_ints(alloc: Global, p: Grid) -> Result<Seq<u32>, Memory>
    ensures { IfOk result (λ ints. ints ≡ point_ints p) }
{
    let mut ints = Vec::with_capacity(alloc, 3)?;
    ints.push(MOVE_TO_ONE)?;
    ints.push(offset(p.x))?;
    ints.push(offset(p.y))?;
    Ok(Seq::from_vec(ints))
}

// A coordinate in a tile, as a parameter of a command.
fn offset(c: i32) -> u32
    ensures { result ≡ zigzag_of c }
{
    zigzag(i64::from(c)) as u32
}
