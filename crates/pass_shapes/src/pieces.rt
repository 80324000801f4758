ghost use Rattle.std.specs.Prelude.{◌≡◌, ◌^◌, ◌<◌, ◌≤◌, IfOk, length};
ghost use Rattle.profile_rules.specs.Fields.{layers_of};
ghost use Rattle.strip_clip.specs.CleanCuts.{IsCleanCut, points_of};
ghost use Rattle.mvt_geom.specs.Text.{form_of};
ghost use Rattle.tile_model.specs.Items.{IsSoundItem};
ghost use Rattle.pass_shapes.specs.Labels.{IsSoundLabel, label_props};
ghost use Rattle.pass_shapes.specs.Pieces.{item_of};

use crate::attributes::copy_of;
use crate::emit::emit_item;
use feature_runs::{RunBuffer, Spill, SpillErr};
use hilbert_ids::id_of;
use mvt_codec::{ItemKey, RunItem, TileRow};
use mvt_geom::{LINE, POINT, POLYGON, put_geometry};
use profile_rules::Profile;
use std::alloc::Global;
use tb_types::{Attr, Memory, Seq, Shape, TileXyz};
use tile_clip::PieceTaker;

/// What the items of a feature have in common: the key but for the tile, the feature's id and its attributes.
#[derive(Debug, Drop)]
pub struct Label {
    pub key: ItemKey,
    pub id: u64,
    pub attributes: Seq<Attr>,
}

impl Label {
    // The item of a piece in its tile.
    fn item(
        &self,
        alloc: Global,
        profile: &Profile,
        tile: TileXyz,
        piece: &Shape,
    ) -> Result<RunItem, Memory>
        requires label { IsSoundLabel (length (layers_of profile.now)) self.now }
        requires zoom { tile.z ≤ 14 }
        requires x { tile.x < 2 ^ tile.z }
        requires y { tile.y < 2 ^ tile.z }
        requires clean { IsCleanCut piece.now }
        requires few { points_of piece.now < 2 ^ 29 }
        ensures exact { IfOk result (λ item. item ≡ item_of self.now (tile, piece.now)) }
        ensures sound { IfOk result (λ item. IsSoundItem (length (layers_of profile.now)) item) }
    {
        let ints = put_geometry(alloc, piece)?;
        let attributes = copy_of(alloc, self.attributes.as_slice())?;
        Ok(RunItem {
            key: ItemKey {
                tile: id_of(tile).0,
                ..self.key
            },
            row: TileRow {
                id: self.id,
                form: form_of(piece),
                ints,
                attributes,
            },
        })
    }
}

// The type of a feature with a shape.
fn form_of(shape: &Shape) -> u8
    ensures { result ≡ form_of shape.now }
{
    match shape {
        Shape::Point(_) => POINT,
        Shape::Line(_) => LINE,
        Shape::Area(_) => POLYGON,
    }
}

/// Takes the pieces of a feature and emits an item for each.
pub struct Pieces<'a, S> {
    pub buffer: &'a mut RunBuffer,
    pub spill: &'a mut S,
    pub alloc: Global,
    pub profile: &'a Profile,
    pub label: &'a Label,
    ghost sound: { IsSoundLabel (length (layers_of profile.now)) label.now } by { Prim.hlevel label_props },
}

impl<'a, S> Drop for Pieces<'a, S> {
    fn drop(self)
        ensures buffer { self.exit.0.now ≡ self.entry.buffer.now }
        ensures spill { self.exit.1.0.now ≡ self.entry.spill.now }
    {
        let Self {
            buffer: _,
            spill: _,
            alloc: _,
            profile: _,
            label: _,
        } = self;
    }
}

impl<'a, S: Spill> PieceTaker for Pieces<'a, S> {
    type Stop = SpillErr;

    ghost use Rattle.std.specs.Prelude.{None};
    ghost use Rattle.pass_shapes.specs.Keeping.{Keeps, Stops, keeps-none, keeps-on, stops-after};

    ghost taken = { λ _. None };

    ghost steps = { Keeps S.seen };

    ghost stops = { Stops S.seen };

    fn take(&mut self, tile: TileXyz, piece: Shape) -> Result<(), SpillErr> {
        match self.label.item(self.alloc, self.profile, tile, &piece) {
            Ok(item) => emit_item(self.buffer, self.spill, self.profile, item),
            Err(_) => Err(SpillErr::Memory),
        }
    }

    ghost steps_none = { keeps-none S.seen };

    ghost steps_on = { keeps-on S.seen };

    ghost stops_after = { stops-after S.seen };
}
