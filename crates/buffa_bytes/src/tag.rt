//! Tags: the number and the wire type of a field.

ghost use Rattle.std.specs.Prelude.{◌<◌, ◌≤◌, length};

use crate::buf::Buf;
use crate::error::{DecodeError, EncodeError};
use crate::sink::EncodeSink;
use crate::varint::{decode_varint, encode_varint, varint_len};
use crate::wire_type::WireType;

/// The largest number that a field may have. Source: the protobuf language guide, "Assigning Field Numbers".
///
/// ```ignore
/// if number == 0 || number > MAX_FIELD_NUMBER as u64 { .. }
/// ```
pub const MAX_FIELD_NUMBER: u32 = 536_870_911;

/// The number, 1 to [`MAX_FIELD_NUMBER`], and the wire type of a field.
///
/// On the wire it is the varint of `8 * number + wire type`. Source: the protobuf encoding guide,
/// "Message Structure".
///
/// ```ignore
/// let tag = Tag::new(9, WireType::Varint); // 48
/// ```
#[derive(Clone, Copy, Debug, PartialEq, Eq)]
pub struct Tag {
    /// The number of the field.
    pub number: u32,
    /// How the field's payload is laid out.
    pub wire_type: WireType,
    ghost in_range: { (0 < number) × (number ≤ 536870911) },
}

impl Tag {
    ghost use Rattle.std.specs.Prelude.{◌≡◌, OnErr};
    ghost use Rattle.buffa_bytes.specs.Unread.{past_no_tag, IsTailOf};
    ghost use Rattle.buffa_bytes.specs.Number.{IsNumber};
    ghost use Rattle.buffa_bytes.specs.Readings.{tag_at, Gives};
    ghost use Rattle.buffa_bytes.specs.Values.{tag_encoding};
    ghost use Rattle.buffa_bytes.specs.Written.{UsesRoom, Writes};

    /// A tag of a number from 1 to [`MAX_FIELD_NUMBER`].
    ///
    /// ```ignore
    /// let tag = Tag::new(number, WireType::LengthDelimited);
    /// ```
    pub fn new(number: u32, wire_type: WireType) -> Tag
        requires { IsNumber number }
        ensures number { result.number ≡ number }
        ensures wire_type { result.wire_type ≡ wire_type }
    {
        Tag { number, wire_type }
    }

    /// The number of the field.
    ///
    /// ```ignore
    /// let number = tag.field_number(); // 5 for 2A
    /// ```
    pub fn field_number(self) -> u32
        ensures { result ≡ self.number }
    {
        self.number
    }

    /// How the field's payload is laid out.
    ///
    /// ```ignore
    /// let wire_type = tag.wire_type(); // WireType::LengthDelimited for 2A
    /// ```
    pub fn wire_type(self) -> WireType
        ensures { result ≡ self.wire_type }
    {
        self.wire_type
    }

    /// The length of the shortest spelling of the tag, 1 to 5 bytes.
    ///
    /// ```ignore
    /// let len = Tag::new(number, WireType::LengthDelimited).encoded_len(); // 1 for 5
    /// ```
    #[inline(always)]
    pub fn encoded_len(self) -> usize
        ensures { result ≡ length (tag_encoding self.number self.wire_type) }
    {
        varint_len(u64::from(self.number) * 8 + u64::from(self.wire_type.number()))
    }

    /// Writes the shortest spelling of the tag, 1 to 5 bytes.
    ///
    /// # Errors
    /// [`EncodeError::OutOfMemory`] alone, after a beginning of the spelling.
    ///
    /// ```ignore
    /// Tag::new(number, WireType::LengthDelimited).encode(sink)?; // 2A for 5
    /// ```
    pub fn encode<S: EncodeSink>(self, sink: &mut S) -> Result<(), EncodeError>
        ensures writes { Writes result (S.written sink.old) (tag_encoding self.number self.wire_type) (S.written sink.new) }
        ensures room { UsesRoom result (S.room sink.old) (tag_encoding self.number self.wire_type) (S.room sink.new) }
    {
        let number = u64::from(self.number) * 8 + u64::from(self.wire_type.number());
        encode_varint(number, sink)
    }

    /// Reads a tag, in any spelling.
    ///
    /// # Errors
    /// In this order: the faults of a varint; [`DecodeError::InvalidFieldNumber`] for a value of 2^32 or
    /// more and for number 0; [`DecodeError::InvalidWireType`] for the wire types 6 and 7. What follows the varint
    /// stays unread then. It takes no memory.
    ///
    /// ```ignore
    /// let tag = Tag::decode(&mut rest)?; // of 2A: number 5, WireType::LengthDelimited
    /// ```
    #[tactic(auto, unfolding(crate::specs::Readings::tag_at, crate::specs::Readings::tag_of, crate::specs::Unread::past_no_tag))]
    pub fn decode<B: Buf>(buf: &mut B) -> Result<Tag, DecodeError>
        ensures reads { Gives (λ tag. (tag.number, tag.wire_type, B.unread buf.new)) result
            (tag_at (B.unread buf.old)) }
        ensures kept { B.beyond buf.new ≡ B.beyond buf.old }
        ensures left { OnErr result (B.unread buf.new ≡ past_no_tag (B.unread buf.old)) }
        ensures tail { IsTailOf (B.unread buf.new) (B.unread buf.old) }
    {
        let value = decode_varint(buf)?;
        if value >= 1 << 32 || value < 8 {
            return Err(DecodeError::InvalidFieldNumber);
        }
        let Some(wire_type) = WireType::from_number(value % 8) else {
            return Err(DecodeError::InvalidWireType((value % 8) as u32));
        };
        Ok(Tag {
            number: (value / 8) as u32,
            wire_type,
        })
    }
}
