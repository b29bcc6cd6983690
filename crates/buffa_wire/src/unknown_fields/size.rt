//! The lengths of encodings of unknown fields.

ghost use Rattle.std.specs.Prelude.{◌≡◌, ◌≤◌, length, min};
ghost use Rattle.buffa_wire.specs.Encoding.{records_encoding, tagged_encoding, payload_encoding};
ghost use Rattle.buffa_wire.specs.RecordsOfValues.{field_data_of};
ghost use Rattle.buffa_bytes.specs.Values.{tag_encoding};
ghost use Rattle.buffa_bytes.specs.Varint.{varint_encoding};

use crate::unknown_fields::tag::tag_value;
use crate::unknown_fields::{UnknownField, UnknownFieldData, UnknownFields};
use buffa_bytes::{WireType, prefix_len, varint_len};

impl UnknownField {
    /// The length of the encoding that [`UnknownField::write_to`] writes, in bytes, or 2^64 - 1 where it is
    /// longer. It takes no memory.
    ///
    /// ```ignore
    /// let len = field.encoded_len(); // 3 for 38 96 01
    /// ```
    pub fn encoded_len(&self) -> u64
        ensures { result ≡ min (length (tagged_encoding self.now.number (field_data_of self.now.payload))) 18446744073709551615 }
    {
        field_len(self.number, &self.payload)
    }
}

impl UnknownFields {
    /// The length of the encoding that [`UnknownFields::write_to`] writes, in bytes, or 2^64 - 1 where it is
    /// longer. It takes no memory.
    ///
    /// ```ignore
    /// let three = fields.encoded_len(); // of 38 96 01
    /// ```
    #[cycle(size)]
    #[inline(never)]
    pub fn encoded_len(&self) -> u64
        ensures { result ≡ min (length (records_encoding self.now.records)) 18446744073709551615 }
    {
        let mut total: u64 = 0;
        for field in &self.fields {
            let len = field_len(field.number, &field.payload);
            let Some(more) = total.checked_add(len) else {
                return u64::MAX;
            };
            total = more;
        }
        total
    }
}

// The length of a varint.
#[inline(always)]
#[tactic(auto, using(buffa_bytes::proofs::ShortestLemmas::ten_at_most))]
fn number_len(n: u64) -> u64
    ensures len { result ≡ length (varint_encoding n) }
    ensures short { result ≤ 10 }
{
    varint_len(n) as u64
}

// The length of a tag. Most numbers are below 16, and their tags have one byte.
#[inline(always)]
#[tactic(auto, using(buffa_bytes::proofs::ShortestLemmas::ten_at_most))]
fn tag_len(number: u32, wire_type: WireType) -> u64
    ensures len { result ≡ length (tag_encoding number wire_type) }
    ensures short { result ≤ 10 }
{
    prefix_len(tag_value(number, wire_type)) as u64
}

// The length of a field's encoding, or 2^64 - 1 where it is longer.
#[cycle(size)]
#[inline(always)]
fn field_len(number: u32, payload: &UnknownFieldData) -> u64
    ensures { result ≡ min (length (tagged_encoding number (field_data_of payload.now))) 18446744073709551615 }
{
    let tag = tag_len(number, payload.wire_type());
    match payload {
        UnknownFieldData::Varint(v) => tag + number_len(*v),
        UnknownFieldData::Fixed32(_) => tag + 4,
        UnknownFieldData::Fixed64(_) => tag + 8,
        _ => tag.saturating_add(payload_len(number, payload)),
    }
}

// The length of what follows the tag, or 2^64 - 1 where it is longer.
#[cycle(size)]
#[inline(always)]
fn payload_len(number: u32, payload: &UnknownFieldData) -> u64
    ensures { result ≡ min (length (payload_encoding number (field_data_of payload.now))) 18446744073709551615 }
{
    match payload {
        UnknownFieldData::Varint(v) => return number_len(*v),
        UnknownFieldData::Fixed32(_) => return 4,
        UnknownFieldData::Fixed64(_) => return 8,
        UnknownFieldData::LengthDelimited(b) => {
            let len = b.len() as u64;
            return len.saturating_add(prefix_len(len) as u64);
        }
        UnknownFieldData::Group(g) => {
            let end = number_len(tag_value(number, WireType::EndGroup));
            return end.saturating_add(g.encoded_len());
        }
    }
}
