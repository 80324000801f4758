ghost use Rattle.std.specs.Prelude.{◌≡◌, IfSome, IfNone, true, false};
ghost use Rattle.std.specs.Str.{is_utf8};
ghost use Rattle.tb_wire.specs.Field.{value_of};
ghost use Rattle.mvt_codec.specs.Messages.{bytes_in, text_in};
ghost use Rattle.mvt_codec.specs.Reading.{Gives};

use crate::fault::Fault;
use tb_wire::FieldValue;

/// The bytes of a field.
pub fn bytes_in(value: FieldValue<'_>) -> Result<&[u8], Fault>
    ensures { Gives (λ b. b.now) result (bytes_in (value_of value.entry)) }
{
    match value {
        FieldValue::Bytes(bytes) => Ok(bytes),
        _ => Err(Fault::Bad),
    }
}

/// The text of a field.
pub fn text_in(value: FieldValue<'_>) -> Result<&str, Fault>
    ensures { Gives (λ t. t.now) result (text_in (value_of value.entry)) }
{
    let bytes = bytes_in(value)?;
    match as_text(bytes) {
        Some(text) => Ok(text),
        None => Err(Fault::Bad),
    }
}

// The bytes as text, if they are UTF-8.
fn as_text(bytes: &[u8]) -> Option<&str>
    ensures some { IfSome result (λ t. (t.now ≡ bytes.now) × (is_utf8 bytes.now ≡ true)) }
    ensures none { IfNone result (is_utf8 bytes.now ≡ false) }
{
    match str::from_utf8(bytes) {
        Ok(text) => Some(text),
        Err(_) => None,
    }
}
