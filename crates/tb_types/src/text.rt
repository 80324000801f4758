ghost use Rattle.std.specs.Prelude.{◌≡◌, ℕ, List, [], ◌++◌, OnOk, OnErr, IfOk, IsUtf8, string_bytes};

use crate::memory::Memory;
use std::alloc::Global;
use std::marker::Model;

/// A text that contracts see as the list of its bytes, which are UTF-8.
#[derive(Debug, Drop)]
pub struct Text {
    text: String,
}

impl Model for Text {
    ghost Value = { List ℕ };

    ghost view = { λ t. string_bytes t.text };
}

impl Text {
    /// An empty text. It takes no memory.
    pub fn new(alloc: Global) -> Self
        ensures { result ≡ [] }
    {
        Text {
            text: String::new(alloc),
        }
    }

    /// A string as a text. It takes no memory.
    pub fn from_string(text: String) -> Self
        ensures { result ≡ string_bytes text }
    {
        Text { text }
    }

    /// A copy of a text.
    pub fn copy_of(alloc: Global, text: &str) -> Result<Self, Memory>
        ensures { IfOk result (λ copy. copy ≡ text.now) }
    {
        Ok(Text {
            text: String::from_str(alloc, text)?,
        })
    }

    /// The text as a string. It takes no memory.
    pub fn into_string(self) -> String
        ensures { string_bytes result ≡ self }
    {
        self.text
    }

    pub fn as_str(&self) -> &str
        ensures exact { result.now ≡ self.now }
        ensures utf8 { IsUtf8 self.now }
    {
        self.text.as_str()
    }

    /// Adds a text at the end. Where that is refused, this one is as it was.
    pub fn push_str(&mut self, more: &str) -> Result<(), Memory>
        ensures ok { OnOk result (self.new ≡ self.old ++ more.now) }
        ensures err { OnErr result (self.new ≡ self.old) }
    {
        self.text.push_str(more)?;
        Ok(())
    }
}
