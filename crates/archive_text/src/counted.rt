ghost use Rattle.std.specs.Prelude.{◌≡◌, ℕ, None, List, [], ◌∷◌, ◌++◌, length, OnOk};
ghost use Rattle.archive_text.specs.declared.span.Span.{Span};
ghost use Rattle.archive_text.specs.Counted.{features_at};

use crate::span::Span;
use indexmap::IndexMap;
use std::alloc::Global;
use std::marker::Model;
use tb_types::Memory;

/// The contents that were read as tiles, in order of first use, each with the number of its features.
#[derive(Drop)]
pub struct Counted {
    counts: IndexMap<Span, u128>,
}

impl Model for Counted {
    ghost Value = { List (Span × ℕ) };

    ghost view = { λ c. c.counts.entries };
}

impl Counted {
    /// No contents. It takes no memory.
    pub fn new(alloc: Global) -> Self
        ensures { result ≡ [] }
    {
        Counted {
            counts: IndexMap::new(alloc),
        }
    }

    /// How many features a content has, if it was read.
    pub fn features_at(&self, span: Span) -> Option<u128>
        ensures { result ≡ features_at span self.now }
    {
        self.counts.get(&span).copied()
    }

    /// Adds a content that wasn't read before as the last one.
    pub fn add(&mut self, span: Span, features: u128) -> Result<(), Memory>
        requires { features_at span self.old ≡ None }
        ensures { OnOk result (self.new ≡ self.old ++ (span, features) ∷ []) }
    {
        self.counts.insert(span, features)?;
        Ok(())
    }

    /// How many contents they are.
    pub fn count(&self) -> usize
        ensures { result ≡ length self.now }
    {
        self.counts.len()
    }
}
