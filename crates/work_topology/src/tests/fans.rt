//! A body at each item of a list.
use crate::body::{Body, fan_out};
use std::alloc::Global;
use std::sync::Wait;
use std::test::*;
use std::thread::Threads;
use tb_types::Memory;

/// Adds its seed to the item, and gives both numbers.
#[derive(Drop)]
struct Adder;

impl Body<u64> for Adder {
    type Seed = u32;

    type Out = (u32, u32);

    ghost accepts = { λ b item number seed. Unit {0} };

    ghost gives = { λ b item item' number seed out. Unit {0} };

    fn run(&self, item: &mut u64, number: u32, seed: u32) -> (u32, u32) {
        *item = item.wrapping_add(u64::from(seed));
        (number, seed)
    }
}

/// So many items of 5, each with three times its number as seed: what became of them, and their outs.
fn fanned<T: Threads + Wait + Sync>(rt: &T, alloc: Global, count: u32) -> Result<bool, Memory> {
    if count == 0 || count > 64 {
        return Ok(false);
    }
    let mut items = Vec::from_elem(alloc, 5u64, count as usize)?;
    let mut seeds = Vec::new(alloc);
    for number in 0..count {
        seeds.push(3 * number)?;
    }
    let outs = fan_out(rt, alloc, items.as_mut_slice(), seeds, &Adder)?;
    Ok(are_in_order(items.as_slice(), outs.as_slice()))
}

fn are_in_order(items: &[u64], outs: &[(u32, u32)]) -> bool {
    let mut right = items.len() == outs.len();
    for (place, (item, out)) in items.iter().zip(outs).enumerate() {
        let (number, seed) = *out;
        right = right
            && number as usize == place
            && seed as usize == 3usize.wrapping_mul(place)
            && *item == u64::from(seed).wrapping_add(5);
    }
    right
}

#[test]
fn each_item_is_run_once_with_its_seed(rt: HostRuntime) -> Result<(), Fail> {
    for count in [1, 2, 3, 64] {
        assert!(rt; fanned(&rt, rt.alloc(), count)?, "{count}");
    }
    Ok(())
}
