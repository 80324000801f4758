ghost use Rattle.std.specs.Prelude.{◌≡◌, IfSome, IfNone, true, false};
ghost use Rattle.std.specs.Str.{is_utf8};

use std::str;

/// Bytes that were seen to be text.
#[derive(Clone, Copy, Debug)]
pub(crate) struct Seen<'a> {
    text: &'a str,
    ghost utf8: { is_utf8 text.now ≡ true },
}

/// A string of the table. Text is looked at once, when the table is read.
#[derive(Clone, Copy, Debug)]
pub(crate) enum Word<'a> {
    Text(Seen<'a>),
    Bytes(&'a [u8]),
}

impl<'a> Word<'a> {
    ghost use Rattle.osm_elements.specs.Words.{seen_word};

    /// The string of these bytes.
    pub fn of(bytes: &'a [u8]) -> Word<'a>
        ensures { seen_word result ≡ bytes.now }
    {
        match text(bytes) {
            Some(text) => Word::Text(Seen { text }),
            None => Word::Bytes(bytes),
        }
    }

    /// The string as text, if it is UTF-8.
    pub fn text(self) -> Option<&'a str>
        ensures some { IfSome result (λ t. (t.now ≡ seen_word self.entry) × (is_utf8 (seen_word self.entry) ≡ true)) }
        ensures none { IfNone result (is_utf8 (seen_word self.entry) ≡ false) }
    {
        match self {
            Word::Text(seen) => Some(seen.text),
            Word::Bytes(bytes) => text(bytes),
        }
    }
}

// The bytes as text, if they are UTF-8.
fn text(bytes: &[u8]) -> Option<&str>
    ensures some { IfSome result (λ t. (t.now ≡ bytes.now) × (is_utf8 bytes.now ≡ true)) }
    ensures none { IfNone result (is_utf8 bytes.now ≡ false) }
{
    match str::from_utf8(bytes) {
        Ok(text) => Some(text),
        Err(_) => None,
    }
}
