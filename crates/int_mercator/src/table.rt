ghost use Rattle.std.specs.Prelude.{◌≡◌, ℕ, ◌+◌, ◌*◌, ◌/◌, ◌^◌, ◌<◌, ◌≤◌, List, IfOk, slice_index};
ghost use Rattle.int_mercator.specs.Cosine.{last_half, least_cosine};
ghost use Rattle.int_mercator.specs.Quarter.{secant_of, simpson, scaled, quarter, TableFacts};
ghost use Rattle.int_mercator.specs.Places.{north_of, knot_step};

use super::cosine::{HALF_TURN, HALVES_IN_HALF_TURN, UNIT_BITS, cosine};
use std::alloc::Global;
use std::marker::Model;
use tb_types::Memory;

/// The distance of two knots, 1/64 degree, in nanodegrees.
pub const KNOT: u64 = 15_625_000;

/// The number of the last knot, at 85.0625 degrees.
pub const LAST: u32 = 5444;

// What Simpson's rule divides by: 6 for its weights, and the count of knots in a half turn.
const SIMPSON: u128 = 6 * HALVES_IN_HALF_TURN / 2;

// The height of the northern half of the world.
const HALF_WORLD: u128 = 1 << 31;

/// The table of the projection: how far north of the equator each knot lies, of 2^31 units up to the world's north bound.
///
/// A contract sees it as the list of its 5,445 entries.
#[derive(Drop)]
pub struct Table {
    entries: Vec<u32>,
}

impl Model for Table {
    ghost Value = { List ℕ };

    ghost view = { λ t. t.entries.items };

    ghost invariant = { λ t. t.entries.items ≡ quarter };
}

impl Table {
    /// Makes the table, once for all points. It takes about 22 KB; `Memory` says that they are wanting.
    pub fn new(alloc: Global) -> Result<Table, Memory>
        ensures { IfOk result (λ table. table ≡ quarter) }
    {
        let mut entries = Vec::with_capacity(alloc, LAST as usize + 1)?;
        let mut height = 0;
        let mut here = secant(0);
        for knot in 0..LAST {
            entries.push(entry(height))?;
            let half = secant(2 * knot + 1);
            let next = secant(2 * knot + 2);
            height += rise(here, half, next);
            here = next;
        }
        entries.push(entry(height))?;
        Ok(Table { entries })
    }

    // How far north a latitude of that many nanodegrees lies: on a straight line between its knots, or at the last knot.
    #[tactic(auto, unfolding(crate::specs::Places::north_of))]
    pub fn north(&self, lat: u64) -> u32
        requires { lat < 2 ^ 40 }
        ensures exact { result ≡ north_of lat }
        ensures small { result ≤ 2 ^ 31 }
    {
        let knot = (lat / KNOT) as usize;
        if knot >= LAST as usize {
            return self.at(LAST as usize);
        }
        let here = self.at(knot);
        let step = self.at(knot + 1) - here;
        here + part(step, lat % KNOT)
    }

    // The entry of a knot.
    fn at(&self, knot: usize) -> u32
        requires { knot < 5445 }
        ensures exact { result ≡ slice_index quarter knot }
        ensures small { result ≤ 2 ^ 31 }
    {
        self.entries[knot]
    }
}

/// The law of the table: it has 5,445 entries, never falls, stays within 2^31, and no cosine that it is made of is below
/// 9 * 10^16 units of 2^-60.
pub fn table_facts()
    ensures { TableFacts }
{}

// The secant after a count of half knots.
fn secant(halves: u32) -> u128
    requires { halves ≤ last_half }
    ensures exact { result ≡ secant_of halves }
    ensures small { result ≤ 2 ^ 120 / least_cosine }
{
    (1 << (2 * UNIT_BITS)) / cosine(halves)
}

// How far the projection goes between two knots, from the secants at both and half-way between.
fn rise(here: u128, half: u128, next: u128) -> u128
    requires here { here ≤ 2 ^ 120 / least_cosine }
    requires half { half ≤ 2 ^ 120 / least_cosine }
    requires next { next ≤ 2 ^ 120 / least_cosine }
    ensures exact { result ≡ simpson here half next }
    ensures small { result < 2 ^ 52 }
{
    (HALF_TURN * (here + 4 * half + next) / SIMPSON) >> UNIT_BITS
}

// The entry of a knot at a height.
fn entry(height: u128) -> u32
    requires { height < 2 ^ 65 }
    ensures { result ≡ scaled height }
{
    (height * HALF_WORLD / HALF_TURN).min(HALF_WORLD) as u32
}

// The part of a step from one knot to the next that a latitude has gone.
fn part(step: u32, rest: u64) -> u32
    requires { rest < knot_step }
    ensures exact { result ≡ step * rest / knot_step }
    ensures within { result ≤ step }
{
    (u64::from(step) * rest / KNOT) as u32
}

#[cfg(test)]
mod tests {
    use super::*;

    // Knots and their entries, computed with another program.
    const KNOWN: [(usize, u32); 5] = [
        (0, 0),
        (2880, 602476378),
        (4000, 962274436),
        (5443, 2146895613),
        (5444, 2147483648),
    ];

    #[test]
    fn table_is_the_stated_one(rt: HostRuntime) -> Result<(), Memory> {
        let table = Table::new(rt.alloc())?;
        for (knot, entry) in KNOWN {
            assert_eq!(rt; table.entries.get(knot).copied(), Some(entry), "at {knot}");
        }
        let mut sum = 0u64;
        for entry in &table.entries {
            sum = sum.saturating_add(u64::from(*entry));
        }
        assert_eq!(rt; sum, 3697767937639);
        Ok(())
    }
}
