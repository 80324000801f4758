ghost use Rattle.std.specs.Prelude.{◌≡◌, ◌^◌, ◌<◌, ◌≤◌, Option, List, [], ◌∷◌, ◌++◌, OnOk, OnErr, IfErr};
ghost use Rattle.tb_types.specs.declared.tile.TileXyz.{TileXyz};
ghost use Rattle.tb_types.specs.declared.shape.Shape.{Shape};
ghost use Rattle.strip_clip.specs.CleanCuts.{IsCleanCut, points_of};
ghost use Rattle.tile_clip.specs.Given.{with_more};
ghost use Rattle.tile_clip.specs.declared.taker.ClipErr.TheVariants as errors;

use tb_types::{Memory as NoMemory, Shape, TileXyz};

/// Who is given the pieces of a shape, one after another.
pub trait PieceTaker {
    /// Why a piece is refused.
    type Stop;

    // The pieces so far, where the taker tells them.
    ghost taken: { Self → Option (List (TileXyz × Shape)) };

    // How the taker before and the taker after are related where these pieces were taken between.
    ghost steps: { Self → List (TileXyz × Shape) → Self → Type 0 };

    // How they are related where pieces were taken and then one was refused.
    ghost stops: { Self → Self → Self.Stop → Type 0 };

    /// Takes the piece of a tile, or refuses it. The piece is what `strip_clip::cut` leaves of a shape: it isn't empty, its
    /// points lie within -256 and 4352, counted from the tile's upper left corner, and there are fewer than 2^29 of them.
    fn take(&mut self, tile: TileXyz, piece: Shape) -> Result<(), Self::Stop>
        requires zoom { tile.z ≤ 14 }
        requires x { tile.x < 2 ^ tile.z }
        requires y { tile.y < 2 ^ tile.z }
        requires clean { IsCleanCut piece }
        requires few { points_of piece < 2 ^ 29 }
        ensures ok { OnOk result (taken self.new ≡ with_more (taken self.old) ((tile, piece) ∷ [])) }
        ensures err { OnErr result (taken self.new ≡ taken self.old) }
        ensures steps { OnOk result (steps self.old ((tile, piece) ∷ []) self.new) }
        ensures stops { IfErr result (λ stop. stops self.old self.new stop) };

    // Steps are stepwise, and a stop after steps is a stop from their beginning on.
    ghost steps_none: { (a : Self) → steps a [] a };

    ghost steps_on: { (a b c : Self) (some more : List (TileXyz × Shape)) → steps a some b → steps b more c → steps a (some ++ more) c };

    ghost stops_after: { (a b c : Self) (some : List (TileXyz × Shape)) (stop : Self.Stop) → steps a some b → stops b c stop → stops a c stop };
}

/// Why a shape's pieces were not all given.
#[derive(Clone, Copy, Debug, PartialEq, Eq)]
pub enum ClipErr<E> {
    /// The taker refused a piece, for this reason.
    Taker(E),
    /// Want of memory.
    Memory,
}

impl<E> From<NoMemory> for ClipErr<E> {
    ghost from_gives = { λ _ e. e ≡ errors.Memory };

    fn from(_e: NoMemory) -> ClipErr<E> {
        ClipErr::Memory
    }
}
