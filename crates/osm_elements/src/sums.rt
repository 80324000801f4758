//! Sums of differences, one after another.

ghost use Rattle.std.specs.Prelude.{◌≡◌, ℕ, ℤ, [], ◌∷◌, length};
ghost use Rattle.tb_wire.specs.Field.{entry_of, text};
ghost use Rattle.osm_elements.specs.Reasons.{Gives};
ghost use Rattle.osm_elements.specs.Fields.{if_numbered, some_numbers};
ghost use Rattle.osm_elements.specs.Sums.{IsSummed, Notes, seen_sums};

use crate::fault::BlockErr;
use crate::message::NO_MESSAGE;
use crate::varint::next_varint;
use std::alloc::Global;
use tb_types::{OsmId, Why};
use tb_wire::{Field, FieldValue, unzigzag};

/// What a sum is kept as.
pub(crate) trait Summed: Copy + Drop {
    ghost made: { ℤ → Self };

    fn made(sum: i64) -> Self
        ensures { result ≡ made sum };
}

impl Summed for i64 {
    ghost made = { λ n. n };

    fn made(sum: i64) -> i64 {
        sum
    }
}

impl Summed for OsmId {
    ghost made = { λ n. record { 0 = n } };

    fn made(sum: i64) -> OsmId {
        OsmId(sum)
    }
}

/// The sums of the differences that were read so far, the first from 0. Once one passes 64 bits, what is kept says only how
/// many they are.
#[derive(Drop)]
pub(crate) struct Sums<T> {
    pub items: Vec<T>,
    sum: i64,
    pub is_over: bool,
}

impl<T: Summed> Sums<T> {
    pub fn new(alloc: Global) -> Sums<T>
        ensures { IsSummed T.made [] result }
    {
        Sums {
            items: Vec::new(alloc),
            sum: 0,
            is_over: false,
        }
    }

    /// Forgets all sums. Their room stays.
    pub fn clear(&mut self)
        ensures { IsSummed T.made [] self.new }
    {
        self.items.clear();
        self.sum = 0;
        self.is_over = false;
    }

    /// Adds the sums of the differences in a field of this number.
    pub fn put_field(&mut self, number: u32, field: &Field<'_>) -> Result<(), BlockErr>
        ensures { Notes T.made self.old self.new result (if_numbered some_numbers number (entry_of field.now)) }
    {
        if field.number != number {
            return Ok(());
        }
        match field.value {
            FieldValue::Varint(n) => self.put(n),
            FieldValue::Bytes(bytes) => self.put_packed(bytes),
            _ => Err(NO_MESSAGE),
        }
    }

    /// Whether all sums have 64 bits.
    pub fn check(&self) -> Result<(), BlockErr>
        ensures { Gives (λ _. self.now.items.items) result (seen_sums self.now) }
    {
        if self.is_over {
            Err(BlockErr::Bad(Why::Range))
        } else {
            Ok(())
        }
    }

    // Adds those of a packed list.
    fn put_packed(&mut self, bytes: &[u8]) -> Result<(), BlockErr>
        ensures { Notes T.made self.old self.new result (some_numbers (text bytes.now)) }
    {
        self.items.reserve(bytes.len())?;
        let mut at = 0;
        while at < bytes.len() {
            match next_varint(bytes, at) {
                Ok((difference, next)) => {
                    at = next;
                    self.put(difference)?;
                }
                Err(_) => return Err(NO_MESSAGE),
            }
        }
        Ok(())
    }

    // Adds the sum of a difference.
    fn put(&mut self, difference: u64) -> Result<(), BlockErr>
        ensures { Notes T.made self.old self.new result (Ok (difference ∷ [])) }
    {
        match self.sum.checked_add(unzigzag(difference)) {
            Some(sum) => self.sum = sum,
            None => self.is_over = true,
        }
        self.items.push(T::made(self.sum))?;
        Ok(())
    }
}
