ghost use Rattle.std.specs.Prelude.{◌≡◌, ℕ, List, ◌∷◌, [], ◌++◌, ◌≤◌, length, map, flat_map, OnOk, IfOk};
ghost use Rattle.std.specs.List.{list_any, position_or_len};
ghost use Rattle.std.specs.Str.{bytes_eq};
ghost use Rattle.tb_wire.specs.Message.{len_text};
ghost use Rattle.gen_world.specs.Words.{text_of, pair_of};
ghost use Rattle.gen_world.specs.Tables.{with_text, uses_of, place_in};

use crate::field::STRING;
use crate::word::{Tag, Word};
use std::alloc::Global;
use std::marker::Model;
use tb_types::Memory;
use tb_wire::put_len;

/// The table of a block's texts: the empty one, and then the words of its tags in order of first use.
#[derive(Drop)]
pub struct Strings {
    words: Vec<Word>,
}

impl Model for Strings {
    ghost Value = { List (List ℕ) };

    ghost view = { λ s. map text_of s.words.items };
}

impl Strings {
    /// The table of these tags.
    pub fn of(alloc: Global, tags: &[Tag]) -> Result<Strings, Memory>
        ensures { IfOk result (λ s. s ≡ uses_of (map pair_of tags.now)) }
    {
        let mut strings = Strings {
            words: Vec::new(alloc),
        };
        for tag in tags {
            strings.add(tag.key)?;
            strings.add(tag.value)?;
        }
        Ok(strings)
    }

    // Adds a word, unless it is there.
    #[tactic(auto, unfolding(crate::specs::Tables::with_text))]
    fn add(&mut self, word: Word) -> Result<(), Memory>
        ensures { OnOk result (self.new ≡ with_text self.old (text_of word)) }
    {
        if !has_word(&self.words, word) {
            self.words.push(word)?;
        }
        Ok(())
    }

    /// The place of a word, counted from 0 for the empty text.
    #[tactic(auto, unfolding(crate::specs::Tables::place_in))]
    pub fn place_of(&self, word: Word) -> u64
        ensures { result ≡ place_in self.now (text_of word) }
    {
        index_of(&self.words, word) as u64 + 1
    }

    /// Appends the texts as fields.
    pub fn put(&self, alloc: Global, out: &mut Vec<u8>) -> Result<(), Memory>
        ensures { OnOk result (out.new.items ≡ out.old.items ++ flat_map (len_text 1) ([] ∷ self.now)) }
    {
        put_len(out, STRING, b"")?;
        put_words(alloc, out, &self.words)
    }
}

// Appends words as fields.
fn put_words(alloc: Global, out: &mut Vec<u8>, words: &[Word]) -> Result<(), Memory>
    ensures { OnOk result (out.new.items ≡ out.old.items ++ flat_map (len_text 1) (map text_of words.now)) }
{
    let mut text = Vec::new(alloc);
    for word in words {
        text.clear();
        word.put(alloc, &mut text)?;
        put_len(out, STRING, &text)?;
    }
    Ok(())
}

fn has_word(words: &[Word], word: Word) -> bool
    ensures { result ≡ list_any (bytes_eq (text_of word)) (map text_of words.now) }
{
    for own in words {
        if is_same(word, *own) {
            return true;
        }
    }
    false
}

// The place of a word in a list, or the list's length.
fn index_of(words: &[Word], word: Word) -> usize
    ensures place { result ≡ position_or_len (bytes_eq (text_of word)) (map text_of words.now) }
    ensures within { result ≤ length words.now }
{
    for (index, own) in words.iter().enumerate() {
        if is_same(word, *own) {
            return index;
        }
    }
    words.len()
}

// Two words are one where they are written alike.
fn is_same(word: Word, other: Word) -> bool
    ensures { result ≡ bytes_eq (text_of word) (text_of other) }
{
    word == other
}
