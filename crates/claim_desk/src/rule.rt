//! The rule of the desk's word, and what each kind of step tells its seat.
use atomic_table::{Join, Play, Split, TableRule};
use std::collections::LinkedList;

/// What a seat knows. It exists in proofs alone: no value of it is made.
pub struct View {
    pub limit: u64,
    /// It is the first seat.
    pub first: bool,
    /// 1 until it is joined into the first seat, and then 0.
    pub live: u64,
    /// Of the first seat: how many others are out, and how often it was split.
    pub out: u64,
    pub splits: u64,
    /// What its last step found.
    pub seen: Option<u64>,
    /// Its steps that found the limit or more.
    pub past: u64,
    pub drawn: LinkedList<u64>,
}

/// What always holds of the word and of all seats. The key is the limit.
pub struct Draws;

impl TableRule<u8, View, u32> for Draws {
    ghost use Rattle.claim_desk.specs.Rule.{IsKept, opener};

    ghost holds = { λ n s. IsKept n s };

    ghost first = { λ n. opener n };
}

/// The step of a claim.
pub struct Claims;

impl Play<u8, View> for Claims {
    ghost use Rattle.std.specs.Prelude.{◌≡◌};
    ghost use Rattle.claim_desk.specs.Rule.{after_claim};

    ghost then = { λ step before found after. after ≡ (after_claim before.0 found, before.1) };
}

/// The look at the word that closes a desk.
pub struct Looks;

impl Play<u8, View> for Looks {
    ghost use Rattle.std.specs.Prelude.{◌≡◌};
    ghost use Rattle.claim_desk.specs.Rule.{Told};

    ghost then = { λ step before found after. (after ≡ before) × Told before.0 found };
}

/// A seat is split off.
pub struct Deals;

impl Split<View> for Deals {
    ghost use Rattle.claim_desk.specs.Rule.{kept_by, given_by};

    ghost left = { kept_by };

    ghost right = { given_by };
}

/// A seat is joined into another.
pub struct Gathers;

impl Join<View> for Gathers {
    ghost use Rattle.claim_desk.specs.Rule.{joined, spent};

    ghost both = { joined };

    ghost spent = { spent };
}
