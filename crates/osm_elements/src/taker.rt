ghost use Rattle.std.specs.Prelude.{◌≡◌, List, [], ◌∷◌, ◌++◌, OnOk, IfErr};
ghost use Rattle.osm_elements.specs.declared.fault.BlockErr.{BlockErr};
ghost use Rattle.osm_elements.specs.Elements.{Element, seen_element};
ghost use Rattle.osm_elements.specs.WalkErrs.{walk_err};

use crate::element::AnyElement;
use crate::fault::BlockErr;
use tb_types::{Kind, Why};

/// Who is given the elements of a block, one after another.
pub trait ElementTaker {
    /// Why an element is refused.
    type Stop;

    // How the taker before and the taker after are related where these elements were taken between.
    ghost steps: { Self → List Element → Self → Type 0 };

    // How they are related where these elements were given, and it refused the last of them, or to make room behind them.
    ghost stops: { Self → List Element → Self → Self.Stop → Type 0 };

    /// Is told that so many elements of a kind may follow, at most. Those that are kept want room for them.
    fn make_room(&mut self, kind: Kind, count: usize) -> Result<(), Self::Stop>
        ensures steps { OnOk result (steps self.old [] self.new) }
        ensures stops { IfErr result (λ stop. stops self.old [] self.new stop) };

    /// Takes an element, or refuses it.
    fn take(&mut self, element: AnyElement<'_>) -> Result<(), Self::Stop>
        ensures steps { OnOk result (steps self.old (seen_element element.entry ∷ []) self.new) }
        ensures stops { IfErr result (λ stop. stops self.old (seen_element element.entry ∷ []) self.new stop) };

    // Steps are stepwise, and a stop after steps is a stop from their beginning on.
    ghost steps_none: { (a : Self) → steps a [] a };

    ghost steps_on: { (a b c : Self) (some more : List Element) → steps a some b → steps b more c → steps a (some ++ more) c };

    ghost stops_after: { (a b c : Self) (some more : List Element) (stop : Self.Stop) → steps a some b → stops b more c stop → stops a (some ++ more) c stop };
}

/// Why not all elements of a block were given.
#[derive(Clone, Copy, Debug, PartialEq, Eq)]
pub enum WalkErr<E> {
    /// The block is outside the format, with the first reason of its order.
    Bad(Why),
    /// Want of memory.
    Memory,
    /// The taker refused an element, for this reason.
    Taker(E),
}

impl<E> WalkErr<E> {
    /// The same of a taker that wasn't asked.
    pub(crate) fn from_block(e: BlockErr) -> WalkErr<E>
        ensures { result ≡ walk_err e }
    {
        match e {
            BlockErr::Bad(why) => WalkErr::Bad(why),
            BlockErr::Memory => WalkErr::Memory,
        }
    }
}
