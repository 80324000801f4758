ghost use Rattle.std.specs.Prelude.{◌≡◌, ◌++◌, ◌+◌, ◌≤◌, OnOk, flat_map, length, pos, ◌-ℤ◌};
ghost use Rattle.tb_types.specs.Zigzag.{zigzag_of};
ghost use Rattle.tb_wire.specs.Varint.{encoding};
ghost use Rattle.gen_world.specs.Blocks.{number_text, packed_text, steps_text, steps_from};

use tb_types::Memory;
use tb_wire::{put_len, put_varint, zigzag};

/// Appends a field whose value is a varint.
#[tactic(auto, using(std::proofs::Common::append_assoc), unfolding(crate::specs::Blocks::number_text))]
pub fn put_number(out: &mut Vec<u8>, number: u32, n: u64) -> Result<(), Memory>
    ensures { OnOk result (out.new.items ≡ out.old.items ++ number_text number n) }
{
    put_varint(out, u64::from(number) * 8)?;
    put_varint(out, n)
}

/// Appends a packed list, or nothing where it is empty. `packed` is room for it.
#[tactic(auto, unfolding(crate::specs::Blocks::packed_text))]
pub fn put_packed(
    out: &mut Vec<u8>,
    packed: &mut Vec<u8>,
    number: u32,
    numbers: &[u64],
) -> Result<(), Memory>
    ensures { OnOk result (out.new.items ≡ out.old.items ++ packed_text number numbers.now) }
{
    if numbers.is_empty() {
        return Ok(());
    }
    packed.clear();
    for n in numbers {
        put_varint(packed, *n)?;
    }
    put_len(out, number, packed)
}

/// Appends a packed list that is coded by differences, or nothing where it is empty. `packed` is room for it.
#[tactic(auto, unfolding(crate::specs::Blocks::steps_text))]
pub fn put_steps(
    out: &mut Vec<u8>,
    packed: &mut Vec<u8>,
    number: u32,
    numbers: &[i32],
) -> Result<(), Memory>
    ensures { OnOk result (out.new.items ≡ out.old.items ++ steps_text number numbers.now) }
{
    if numbers.is_empty() {
        return Ok(());
    }
    packed.clear();
    append_steps(packed, numbers)?;
    put_len(out, number, packed)
}

// Appends what each number is more than the one before it, the first than 0.
fn append_steps(out: &mut Vec<u8>, numbers: &[i32]) -> Result<(), Memory>
    ensures { OnOk result (out.new.items ≡ out.old.items ++ flat_map encoding (steps_from (pos 0) numbers.now)) }
{
    let mut last = 0i32;
    for n in numbers {
        put_varint(out, step(*n, last))?;
        last = *n;
    }
    Ok(())
}

// What a number is more than another.
fn step(n: i32, last: i32) -> u64
    ensures { result ≡ zigzag_of (n -ℤ last) }
{
    zigzag(i64::from(n) - i64::from(last))
}
