//! Whether a field has the wire type that it is declared with.

ghost use Rattle.buffa_bytes.specs.Readings.{check_wire, Gives};

use crate::error::DecodeError;
use crate::tag::Tag;
use crate::wire_type::WireType;

/// Refuses a field of another wire type than the one it is declared with.
///
/// # Errors
/// [`DecodeError::WireTypeMismatch`] alone, with the field's number and both wire types. It takes no
/// memory.
///
/// ```ignore
/// check_wire_type(tag, WireType::Varint)?; // of another: DecodeError::WireTypeMismatch
/// ```
pub fn check_wire_type(tag: Tag, expected: WireType) -> Result<(), DecodeError>
    ensures { Gives (λ _. tt) result (check_wire tag.number expected tag.wire_type) }
{
    if tag.wire_type() == expected {
        return Ok(());
    }
    Err(DecodeError::WireTypeMismatch {
        field_number: tag.field_number(),
        expected,
        actual: tag.wire_type(),
    })
}
