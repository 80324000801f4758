ghost use Rattle.std.specs.Prelude.{◌≡◌, ℕ, ◌∷◌, ◌++◌, List, [], Ok, drop};
ghost use Rattle.std.specs.Cmp.Lexicographic.{slice_cmp};
ghost use Rattle.std.specs.Ordering.{nat_cmp};
ghost use Rattle.std.specs.BTreeSet.{contains_by};
ghost use Rattle.osm_elements.specs.Reasons.{Gives};
ghost use Rattle.osm_elements.specs.Tags.{with_tag, has_key};
ghost use Rattle.osm_elements.specs.TagRefs.{seen_tags};
ghost use Rattle.osm_elements.specs.Words.{seen_word};

use crate::element::TagRef;
use crate::fault::BlockErr;
use crate::word::Word;
use std::alloc::Global;
use std::collections::BTreeSet;

/// How many tags are walked to find a key.
const WALKED: usize = 32;

/// The tags of one element while they are found, of which no two have one key. It serves one element after another.
///
/// Keys are looked for by a walk over the first tags, and in a set of the keys of all others. So few tags take no memory
/// for the set, and very many take no time that grows with their square.
#[derive(Drop)]
pub(crate) struct TagList<'a> {
    pub tags: Vec<TagRef<'a>>,
    others: BTreeSet<&'a str>,
    // the set has the keys of the tags behind the first ones
    ghost known: { (q : List ℕ) → contains_by (λ k. slice_cmp nat_cmp q k.now) others ≡ has_key q (seen_tags (drop 32 tags.items)) },
}

impl<'a> TagList<'a> {
    /// No tags yet.
    pub fn new(alloc: Global) -> TagList<'a>
        ensures { result.tags.items ≡ [] }
    {
        TagList {
            tags: Vec::new(alloc),
            others: BTreeSet::new(alloc),
        }
    }

    /// Forgets all tags. Their room stays.
    pub fn clear(&mut self)
        ensures { self.new.tags.items ≡ [] }
    {
        self.tags.clear();
        self.others.clear();
    }

    /// Adds a tag, where both are text and its key is none of those before it.
    pub fn put(&mut self, key: Word<'a>, value: Word<'a>) -> Result<(), BlockErr>
        ensures { Gives (λ _. seen_tags self.new.tags.items) result (Ok (with_tag (seen_tags self.old.tags.items) (seen_word key.entry) (seen_word value.entry))) }
    {
        let Some(key) = key.text() else {
            return Ok(());
        };
        let Some(value) = value.text() else {
            return Ok(());
        };
        if self.has(key) {
            return Ok(());
        }
        self.add(TagRef { key, value })
    }

    // Whether a key is among the tags.
    fn has(&self, key: &str) -> bool
        ensures { result ≡ has_key key.now (seen_tags self.now.tags.items) }
    {
        let first = self.tags.len().min(WALKED);
        has_key(&self.tags[..first], key) || self.others.contains(key)
    }

    // Adds a tag behind the others.
    fn add(&mut self, tag: TagRef<'a>) -> Result<(), BlockErr>
        ensures { Gives (λ _. self.new.tags.items) result (Ok (self.old.tags.items ++ tag.entry ∷ [])) }
    {
        self.tags.push(tag)?;
        if self.tags.len() <= WALKED {
            return Ok(());
        }
        match self.others.insert(tag.key) {
            Ok(_) => Ok(()),
            Err(_) => {
                self.tags.pop();
                Err(BlockErr::Memory)
            }
        }
    }
}

// Whether a key is among these tags.
fn has_key(tags: &[TagRef<'_>], key: &str) -> bool
    ensures { result ≡ has_key key.now (seen_tags tags.now) }
{
    for tag in tags {
        if tag.key == key {
            return true;
        }
    }
    false
}
