//! The two messages of the file format, read in one walk without memory.

ghost use Rattle.std.specs.Prelude.{◌≡◌};
ghost use Rattle.tb_wire.specs.Field.{entry_of};
ghost use Rattle.tb_wire.specs.Message as wire;
ghost use Rattle.pbf_blobs.specs.Blob as blob;
ghost use Rattle.pbf_blobs.specs.Header as header;
ghost use Rattle.pbf_blobs.specs.Messages.{is_mistyped, nothing, with_field, found_in, seen, seen_found};

use crate::field::{is_number, is_text, number_in, text_in};
use crate::numbers::{
    BLOB_RAW, BLOB_RAW_SIZE, FIRST_COMPRESSED, HEADER_DATASIZE, HEADER_INDEXDATA, HEADER_TYPE,
    LAST_COMPRESSED,
};
use tb_wire::{Field, Wire, read_field};

/// A message (fileformat.proto), which decides what fields are known.
#[derive(Clone, Copy)]
pub(crate) enum Message {
    BlobHeader,
    Blob,
}

/// What was found in the fields of a message, as far as they are read.
#[derive(Clone, Copy)]
pub(crate) struct Found<'a> {
    /// The last bytes of field 1: the type of a body, or a raw block.
    pub text: Option<&'a [u8]>,
    /// The last number of field 3: the length of a body.
    pub number: Option<u64>,
    /// A field with a compressed block stands.
    pub compressed: bool,
    /// A known field has another wire type than its own.
    pub mistyped: bool,
}

/// What all fields of a message say.
pub(crate) fn find<'a>(message: Message, bytes: &'a [u8]) -> Result<Found<'a>, Wire>
    ensures { seen_found result ≡ found_in message nothing (wire.message bytes.now) }
{
    let mut found = Found {
        text: None,
        number: None,
        compressed: false,
        mistyped: false,
    };
    let mut at = 0;
    while at < bytes.len() {
        match read_field(bytes, at) {
            Ok(Some(field)) => {
                found = with_field(message, found, &field);
                at = field.next;
            }
            Ok(None) => break,
            Err(e) => return Err(e),
        }
    }
    Ok(found)
}

// One field more.
fn with_field<'a>(message: Message, found: Found<'a>, field: &Field<'a>) -> Found<'a>
    ensures { seen result ≡ with_field message (seen found.entry) (entry_of field.now) }
{
    let text = text_in(HEADER_TYPE, field);
    let number = number_in(HEADER_DATASIZE, field);
    let compressed = is_compressed(field);
    let mistyped = is_mistyped(message, field);
    Found {
        text: text.or(found.text),
        number: number.or(found.number),
        compressed: found.compressed || compressed,
        mistyped: found.mistyped || mistyped,
    }
}

fn is_mistyped(message: Message, field: &Field<'_>) -> bool
    ensures { result ≡ is_mistyped message (entry_of field.now) }
{
    match message {
        Message::BlobHeader => is_mistyped_in_header(field),
        Message::Blob => is_mistyped_in_blob(field),
    }
}

fn is_mistyped_in_header(field: &Field<'_>) -> bool
    ensures { result ≡ header.is_mistyped (entry_of field.now) }
{
    if field.number == HEADER_TYPE || field.number == HEADER_INDEXDATA {
        return !is_text(field);
    }
    field.number == HEADER_DATASIZE && !is_number(field)
}

fn is_mistyped_in_blob(field: &Field<'_>) -> bool
    ensures { result ≡ blob.is_mistyped (entry_of field.now) }
{
    if field.number == BLOB_RAW {
        return !is_text(field);
    }
    if field.number == BLOB_RAW_SIZE {
        return !is_number(field);
    }
    is_compressed(field) && !is_text(field)
}

fn is_compressed(field: &Field<'_>) -> bool
    ensures { result ≡ blob.is_compressed (entry_of field.now) }
{
    field.number >= FIRST_COMPRESSED && field.number <= LAST_COMPRESSED
}
