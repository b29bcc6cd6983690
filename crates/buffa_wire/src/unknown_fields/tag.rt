//! The tags of unknown fields.

ghost use Rattle.std.specs.Prelude.{◌≡◌, ◌+◌, ◌*◌};
ghost use Rattle.buffa_wire.specs.Encoding.{wire_of};
ghost use Rattle.buffa_wire.specs.RecordsOfValues.{field_data_of};
ghost use Rattle.buffa_bytes.specs.Number.{wire_number};

use crate::unknown_fields::UnknownFieldData;
use buffa_bytes::WireType;

impl UnknownFieldData {
    /// The wire type of the field's tag.
    ///
    /// ```ignore
    /// let wire_type = payload.wire_type(); // WireType::Varint for UnknownFieldData::Varint(0)
    /// ```
    pub fn wire_type(&self) -> WireType
        ensures { result ≡ wire_of (field_data_of self.now) }
    {
        match self {
            UnknownFieldData::Varint(_) => WireType::Varint,
            UnknownFieldData::Fixed32(_) => WireType::Fixed32,
            UnknownFieldData::Fixed64(_) => WireType::Fixed64,
            UnknownFieldData::LengthDelimited(_) => WireType::LengthDelimited,
            UnknownFieldData::Group(_) => WireType::StartGroup,
        }
    }
}

// The value of the varint that is a tag, of any number.
#[inline(always)]
pub(crate) fn tag_value(number: u32, wire_type: WireType) -> u64
    ensures { result ≡ 8 * number + wire_number wire_type }
{
    8 * u64::from(number) + u64::from(wire_type.number())
}
