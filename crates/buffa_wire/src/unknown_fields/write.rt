//! The encodings of unknown fields.

ghost use Rattle.std.specs.Prelude.{◌++◌};
ghost use Rattle.buffa_bytes.specs.Values.{tag_encoding};
ghost use Rattle.buffa_wire.specs.Encoding.{records_encoding, tagged_encoding, write_outcome};
ghost use Rattle.buffa_wire.specs.RecordsOfValues.{field_data_of};
ghost use Rattle.buffa_bytes.specs.Written.{UsesRoom, Writes};

use crate::short::{write_bytes, write_fixed32, write_fixed64, write_two};
use crate::unknown_fields::tag::tag_value;
use crate::unknown_fields::{UnknownField, UnknownFieldData, UnknownFields};
use buffa_bytes::{EncodeError, EncodeSink, WireType, encode_varint};

impl UnknownField {
    /// Writes the field, with the shortest tag and lengths, whatever its number.
    ///
    /// # Errors
    /// [`EncodeError::OutOfMemory`] alone, after a beginning of the encoding.
    ///
    /// ```ignore
    /// field.write_to(sink)?; // 38 96 01
    /// ```
    #[tactic(auto, using(crate::proofs::EncodingLemmas::reported_of, crate::proofs::EncodingLemmas::reported_room))]
    pub fn write_to<S: EncodeSink>(&self, sink: &mut S) -> Result<(), EncodeError>
        ensures writes { Writes result (S.written sink.old)
            (tagged_encoding self.now.number (field_data_of self.now.payload)) (S.written sink.new) }
        ensures room { UsesRoom result (S.room sink.old)
            (tagged_encoding self.now.number (field_data_of self.now.payload)) (S.room sink.new) }
    {
        if !write_field(self.number, &self.payload, sink) {
            return Err(EncodeError::OutOfMemory);
        }
        Ok(())
    }
}

impl UnknownFields {
    /// Writes the fields, one after another, with the shortest tags and lengths.
    ///
    /// Every number is written, 0 and those past [`MAX_FIELD_NUMBER`](crate::MAX_FIELD_NUMBER) too; only 1
    /// to that are read back.
    ///
    /// # Errors
    /// [`EncodeError::OutOfMemory`] alone, after a beginning of the encoding.
    ///
    /// Source: the protobuf encoding guide, "Message Structure".
    ///
    /// ```ignore
    /// fields.write_to(&mut sink)?; // 38 96 01
    /// ```
    #[cycle(write)]
    #[inline(never)]
    pub fn write_to<S: EncodeSink>(&self, sink: &mut S) -> Result<(), EncodeError>
        ensures writes { Writes result (S.written sink.old) (records_encoding self.now.records) (S.written sink.new) }
        ensures room { UsesRoom result (S.room sink.old) (records_encoding self.now.records) (S.room sink.new) }
    {
        for field in &self.fields {
            if !write_field(field.number, &field.payload, sink) {
                return Err(EncodeError::OutOfMemory);
            }
        }
        Ok(())
    }
}

// Writes a field, and answers whether all of it was written: by a `bool`, since a `Result` is made in memory.
#[cycle(write)]
#[inline(always)]
#[tactic(auto, using(crate::proofs::EncodingLemmas::reported_of, crate::proofs::EncodingLemmas::reported_room))]
fn write_field<S: EncodeSink>(number: u32, payload: &UnknownFieldData, sink: &mut S) -> bool
    ensures writes { Writes (write_outcome result) (S.written sink.old) (tagged_encoding number (field_data_of payload.now))
        (S.written sink.new) }
    ensures room { UsesRoom (write_outcome result) (S.room sink.old) (tagged_encoding number (field_data_of payload.now))
        (S.room sink.new) }
{
    match payload {
        UnknownFieldData::Varint(v) => {
            return write_two(tag_value(number, WireType::Varint), *v, sink).is_ok();
        }
        UnknownFieldData::Fixed32(v) => {
            return write_fixed32(tag_value(number, WireType::Fixed32), *v, sink).is_ok();
        }
        UnknownFieldData::Fixed64(v) => {
            return write_fixed64(tag_value(number, WireType::Fixed64), *v, sink).is_ok();
        }
        UnknownFieldData::LengthDelimited(b) => {
            return write_bytes(
                tag_value(number, WireType::LengthDelimited),
                b.as_slice(),
                sink,
            )
            .is_ok();
        }
        UnknownFieldData::Group(g) => return write_group(number, g, sink),
    }
}

// Writes a group with its two tags, and answers whether all of it was written. It stands apart from the other kinds of
// field, which are shorter without it.
#[cycle(write)]
#[inline(never)]
#[tactic(auto, using(buffa_bytes::proofs::SinkLemmas::writes_then, buffa_bytes::proofs::SinkLemmas::front_first, buffa_bytes::proofs::SinkLemmas::room_then, crate::proofs::EncodingLemmas::reported_of, crate::proofs::EncodingLemmas::reported_room))]
fn write_group<S: EncodeSink>(number: u32, group: &UnknownFields, sink: &mut S) -> bool
    ensures writes { Writes (write_outcome result) (S.written sink.old) (tag_encoding number WireType.StartGroup ++ (records_encoding group.now.records ++ tag_encoding number WireType.EndGroup))
        (S.written sink.new) }
    ensures room { UsesRoom (write_outcome result) (S.room sink.old) (tag_encoding number WireType.StartGroup ++ (records_encoding group.now.records ++ tag_encoding number WireType.EndGroup))
        (S.room sink.new) }
{
    if encode_varint(tag_value(number, WireType::StartGroup), sink).is_err() {
        return false;
    }
    if group.write_to(sink).is_err() {
        return false;
    }
    encode_varint(tag_value(number, WireType::EndGroup), sink).is_ok()
}
