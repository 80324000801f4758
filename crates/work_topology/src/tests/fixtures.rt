//! Blocks of ten bytes, lanes over them, and what is counted after a pass.
ghost use Rattle.std.specs.Prelude.{◌≡◌, ◌+◌, ◌*◌, ◌<◌, ◌≤◌, true, length, vec_len, IfOk, IfSome};
ghost use Rattle.tb_outside.specs.Memory.{as_source};
ghost use Rattle.work_topology.specs.Lists.{Each};
ghost use Rattle.work_topology.specs.Blocks.{Ascend};

use memory_book::{Purse, SharedBook};
use pbf_blobs::{BlockAt, BlockKind};
use std::alloc::Global;
use std::sync::Wait;
use std::sync::atomic::{AtomicU32, Ordering};
use tb_outside::{Gate, Lane, MemSource, MemSpill};
use tb_types::{Memory, Seq};

/// The need of a block of ten bytes.
pub const NEED: u64 = 16 * 10 + 65_536;

/// Most blocks of a row.
pub const MOST_BLOCKS: usize = 100;

/// What a pass is tried on.
#[derive(Clone, Copy)]
pub struct Row {
    pub lanes: u32,
    pub queue: u32,
    pub blocks: u32,
    pub budget: u64,
    /// How many lanes are held until as many have claimed.
    pub held: u32,
    /// Blocks whose bodies begin with another byte than 7.
    pub marks: &'static [(u32, u8)],
    /// Lanes whose readers fail at the call of this number, and those whose spills do.
    pub readers: &'static [(u32, u64)],
    pub spills: &'static [(u32, u64)],
}

impl Row {
    /// Whether a pass may be tried on it.
    pub fn may(&self) -> bool
        ensures { result ≡ true → (0 < self.now.lanes) × (self.now.lanes ≤ 64) × (0 < self.now.queue) × (self.now.queue ≤ 1024) × (self.now.blocks ≤ 100) × (65696 ≤ self.now.budget) }
    {
        self.lanes > 0
            && self.lanes <= 64
            && self.queue > 0
            && self.queue <= 1024
            && self.blocks <= 100
            && self.budget >= NEED
    }
}

fn block_of(place: u32) -> BlockAt
    requires { place ≤ 100 }
    ensures no { result.no ≡ 2 * place + 1 }
    ensures at { result.at ≡ 10 * place }
    ensures len { result.len ≡ 10 }
{
    BlockAt {
        no: 2 * place + 1,
        at: 10 * u64::from(place),
        len: 10,
        kind: BlockKind::Elements,
    }
}

/// Blocks one behind the other, with odd numbers.
pub fn blocks_of(alloc: Global, count: u32) -> Result<Vec<BlockAt>, Memory>
    requires { count ≤ 100 }
    ensures { IfOk result (λ blocks. (length blocks.items ≡ count) × Ascend blocks.items × Each (λ block. (block.no < 2 * count) × (block.at + block.len ≤ 10 * count) × (block.len ≡ 10)) blocks.items) }
{
    let mut blocks = Vec::new(alloc);
    for place in 0..count {
        blocks.push(block_of(place))?;
    }
    Ok(blocks)
}

/// The bytes of so many blocks.
fn bytes_of(alloc: Global, count: u32, marks: &[(u32, u8)]) -> Result<Vec<u8>, Memory>
    requires { count ≤ 100 }
    ensures { IfOk result (λ bytes. vec_len bytes ≡ 10 * count) }
{
    let mut bytes = Vec::from_elem(alloc, 7u8, 10 * count as usize)?;
    for (place, mark) in marks {
        if let Some(byte) = bytes.get_mut((*place as usize).wrapping_mul(10)) {
            *byte = *mark;
        }
    }
    Ok(bytes)
}

/// The calls of a lane's object that fail.
fn fails_of(alloc: Global, lane: u32, failing: &[(u32, u64)]) -> Result<Vec<u64>, Memory> {
    let mut fails = Vec::new(alloc);
    for (number, call) in failing {
        if *number == lane {
            fails.push(*call)?;
        }
    }
    Ok(fails)
}

pub fn reader_of(alloc: Global, row: &Row, lane: u32) -> Result<MemSource, Memory>
    requires { row.now.blocks ≤ 100 }
    ensures { IfOk result (λ reader. IfSome (as_source reader).bytes (λ bytes. length bytes ≡ 10 * row.now.blocks)) }
{
    let bytes = bytes_of(alloc, row.blocks, row.marks)?;
    let fails = fails_of(alloc, lane, row.readers)?;
    MemSource::new(alloc, bytes, 1000, fails)
}

fn lane_of(alloc: Global, row: &Row, number: u32) -> Result<Lane<MemSource, MemSpill>, Memory>
    requires { row.now.blocks ≤ 100 }
    ensures { IfOk result (λ lane. IfSome (as_source lane.reader).bytes (λ bytes. length bytes ≡ 10 * row.now.blocks)) }
{
    let reader = reader_of(alloc, row, number)?;
    let spill = MemSpill::new(alloc, fails_of(alloc, number, row.spills)?)?;
    Ok(Lane { reader, spill })
}

pub fn lanes_of(alloc: Global, row: &Row) -> Result<Vec<Lane<MemSource, MemSpill>>, Memory>
    requires { row.now.blocks ≤ 100 }
    ensures { IfOk result (λ lanes. (length lanes.items ≡ row.now.lanes) × Each (λ lane. IfSome (as_source lane.reader).bytes (λ bytes. length bytes ≡ 10 * row.now.blocks)) lanes.items) }
{
    let mut lanes = Vec::new(alloc);
    for number in 0..row.lanes {
        let lane = lane_of(alloc, row, number)?;
        lanes.push(lane)?;
    }
    Ok(lanes)
}

/// A gate that holds each lane until so many have claimed, but not for ever.
#[derive(Drop)]
pub struct Meeting {
    pub held: u32,
    pub claims: AtomicU32,
}

impl Gate for Meeting {
    fn at_claim(&self, _lane: u32, _pass: u8, _block: u32) {
        self.claims.fetch_add(1, Ordering::SeqCst);
        for _ in 0..200_000_000u32 {
            if self.claims.load(Ordering::SeqCst) >= self.held {
                return;
            }
        }
    }
}

/// How much the book grants at once.
pub fn free_of<L: Purse, T: Wait>(rt: &T, book: &SharedBook<L>, budget: u64) -> u64 {
    match book.book(rt, budget) {
        Ok(grant) => {
            let amount = grant.amount();
            book.give(rt, grant);
            amount
        }
        Err(_) => 0,
    }
}

/// How often each place was seen.
#[derive(Drop)]
pub struct Times {
    pub times: [u8; 128],
}

impl Times {
    pub fn new() -> Times {
        Times { times: [0; 128] }
    }

    pub fn see(&mut self, place: u64) {
        if place < 128 {
            let old = self.times[place as usize];
            self.times[place as usize] = old.saturating_add(1);
        }
    }

    /// Each place below the count was seen once, and no other.
    pub fn are_once(&self, count: u32) -> bool {
        for place in 0..128u32 {
            if self.times[place as usize] != u8::from(place < count) {
                return false;
            }
        }
        true
    }
}

/// Each place below the count stands once in the lists.
pub fn are_each_once(lists: &[Seq<u32>], count: u32) -> bool {
    let mut times = Times::new();
    for list in lists {
        for place in list.as_slice() {
            times.see(u64::from(*place));
        }
    }
    times.are_once(count)
}

/// Each body was loaded once.
pub fn are_loaded_once(lanes: &[Lane<MemSource, MemSpill>], count: u32) -> bool {
    let mut times = Times::new();
    for lane in lanes {
        for (at, len) in lane.reader.log() {
            times.see(if *len == 10 { *at / 10 } else { 127 });
        }
    }
    times.are_once(count)
}
