ghost use Rattle.std.specs.Prelude.{◌≡◌, ◌^◌, ◌<◌, ◌≤◌, Ok, true, IfOk, IfSome};
ghost use Rattle.hilbert_ids.specs.Ids.{last_zoom};
ghost use Rattle.mvt_codec.specs.Grammar.{tile_of};
ghost use Rattle.pmtiles_read.specs.Answers.{Gives, IsNotFailed};
ghost use Rattle.pmtiles_read.specs.Tiles.{IsOpenedFrom};
ghost use Rattle.archive_text.specs.Show.{show_text, no_tile_text, layers_in};
ghost use Rattle.archive_text.specs.Rows.{is_tile};
ghost use Rattle.archive_text.specs.Answers.{LookAnswers, ShownAnswers};

use crate::contents::{count_contents, no_tile};
use crate::tile::layers_text;
use hilbert_ids::id_of;
use mvt_codec::{TileErr, decode_tile};
use pmtiles_read::{Archive, ReadErr, open_archive};
use std::alloc::Global;
use tb_outside::Source;
use tb_types::{Memory, Text, TileId, TileXyz};

/// The layers of a tile of an archive, each with its features, or `no tile` where no entry covers the tile's id.
///
/// Where the source tells its bytes, `Bad` comes exactly with the archive's first fault, which may be that another content is
/// no tile. `Failed` comes only where the source's count of faults rose.
///
/// The zoom is at most 26; column and row are below 2^zoom and count from the upper left tile.
pub fn show_tile<R: Source>(alloc: Global, source: &mut R, tile: TileXyz) -> Result<Text, ReadErr>
    requires zoom { tile.z ≤ last_zoom }
    requires column { tile.x < 2 ^ tile.z }
    requires row { tile.y < 2 ^ tile.z }
    ensures { LookAnswers (show_text tile) (R.seen source.old) (R.seen source.new) result }
{
    let archive = match open_archive(alloc, source) {
        Ok(archive) => archive,
        Err(e) => return Err(e),
    };
    match count_contents(alloc, source, &archive) {
        Ok(_) => show_id(alloc, source, &archive, id_of(tile)),
        Err(e) => Err(e),
    }
}

// The text of an id's tile.
fn show_id<R: Source>(
    alloc: Global,
    source: &mut R,
    archive: &Archive,
    id: TileId,
) -> Result<Text, ReadErr>
    requires { IfSome (R.seen source.old).bytes (λ bytes. IsOpenedFrom bytes archive.now) }
    ensures { ShownAnswers archive.now id.0 (R.seen source.old) (R.seen source.new) result }
{
    match archive.tile(source, id) {
        Ok(Some(content)) => content_text(alloc, &content, id),
        Ok(None) => Ok(no_tile_text(alloc)?),
        Err(e) => Err(e),
    }
}

#[tactic(auto, unfolding(crate::specs::Show::no_tile_text))]
fn no_tile_text(alloc: Global) -> Result<Text, Memory>
    ensures { IfOk result (λ text. text ≡ no_tile_text) }
{
    Text::copy_of(alloc, "no tile\n")
}

// The text of a tile's bytes. Where they are no tile, the fault is at this id.
fn content_text(alloc: Global, content: &[u8], id: TileId) -> Result<Text, ReadErr>
    ensures gives { is_tile content.now ≡ true → Gives (λ t. t) result (Ok (layers_in (tile_of content.now))) }
    ensures never_failed { IsNotFailed result }
{
    match decode_tile(alloc, content) {
        Ok(layers) => Ok(layers_text(alloc, layers.as_slice())?),
        Err(TileErr::Bad { .. }) => Err(ReadErr::Bad(no_tile(id.0))),
        Err(TileErr::Memory) => Err(ReadErr::Memory),
    }
}
