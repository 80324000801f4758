ghost use Rattle.std.specs.Prelude.{◌≡◌};
ghost use Rattle.std.specs.Option.{option_copied};
ghost use Rattle.tb_wire.specs.Field.{entry_of};
ghost use Rattle.pbf_blobs.specs.Fields.{is_text, is_number, text_in, number_in};

use tb_wire::{Field, FieldValue};

/// Its value is bytes.
pub(crate) fn is_text(field: &Field<'_>) -> bool
    ensures { result ≡ is_text (entry_of field.now) }
{
    matches!(field.value, FieldValue::Bytes(_))
}

/// Its value is a varint.
pub(crate) fn is_number(field: &Field<'_>) -> bool
    ensures { result ≡ is_number (entry_of field.now) }
{
    matches!(field.value, FieldValue::Varint(_))
}

/// The bytes of a field, if it has this number and bytes.
pub(crate) fn text_in<'a>(number: u32, field: &Field<'a>) -> Option<&'a [u8]>
    ensures { option_copied result ≡ text_in number (entry_of field.now) }
{
    match field.value {
        FieldValue::Bytes(text) if field.number == number => Some(text),
        _ => None,
    }
}

/// The varint of a field, if it has this number and a varint.
pub(crate) fn number_in(number: u32, field: &Field<'_>) -> Option<u64>
    ensures { result ≡ number_in number (entry_of field.now) }
{
    match field.value {
        FieldValue::Varint(n) if field.number == number => Some(n),
        _ => None,
    }
}
