// One record of a MessageSet: read, sized and written.

ghost use Rattle.std.specs.Prelude.{◌≡◌, ◌≢◌, length, min};
ghost use Rattle.buffa_bytes.specs.declared.wire_type.WireType.TheVariants.{EndGroup};
ghost use Rattle.buffa_bytes.specs.Readings.{FullOnlyIf, GivesUnlessFull};
ghost use Rattle.buffa_wire.specs.RecordsOfValues.{field_data_of, record_of};
ghost use Rattle.buffa_bytes.specs.Written.{UsesRoom, Writes};
ghost use Rattle.buffa_sets.specs.Set.{is_type_id, record_of_field, set_record_encoding, starts};

use buffa_fields::messages::unknown::read_alone;
use buffa_message_set::message_set::{item_encoded_len, merge_item, write_item};
use buffa_wire::{
    Budget, DecodeContext, DecodeError, EncodeError, EncodeSink, Tag, UnknownField,
    UnknownFieldData, WireType,
};
use std::alloc::Global;

// Whether the tag begins an Item.
fn starts_item(tag: Tag) -> bool
    ensures { result ≡ starts tag.number tag.wire_type }
{
    match tag.wire_type() {
        WireType::StartGroup => tag.field_number() == 1,
        _ => false,
    }
}

// Whether the number may be a type id.
fn is_type_id(number: u32) -> bool
    ensures { result ≡ is_type_id number }
{
    0 < number && number < 2_147_483_648
}

// Reads the field whose tag was read, with so many unknown fields left, and says how many are left then. An
// Item, a level deeper, is the record of its type id that holds its message; any other field is kept as it
// is.
pub(crate) fn read_record(
    alloc: Global,
    tag: Tag,
    buf: &mut &[u8],
    depth: u32,
    unknown: usize,
) -> Result<(UnknownField, usize), DecodeError>
    ensures reads { GivesUnlessFull (λ x. (record_of x.0, x.1, buf.new.now)) result
        (record_of_field depth unknown tag.number tag.wire_type buf.old.now) }
    ensures full { FullOnlyIf result (tag.wire_type ≢ EndGroup) }
{
    if !starts_item(tag) {
        return read_alone(alloc, tag, buf, depth, unknown);
    }
    if depth == 0 {
        return Err(DecodeError::RecursionLimitExceeded);
    }
    let mut own = Budget::new(unknown);
    let lent = DecodeContext {
        depth: depth - 1,
        budget: &mut own,
    };
    let (number, message) = merge_item(alloc, buf, lent)?;
    let item = UnknownField {
        number,
        payload: UnknownFieldData::LengthDelimited(message),
    };
    Ok((item, own.unknown_left()))
}

// The length of a record's encoding, or 2^64 - 1 where it is longer.
pub(crate) fn record_len(field: &UnknownField) -> u64
    ensures { result ≡ min (length (set_record_encoding field.now.number (field_data_of field.now.payload)))
        18446744073709551615 }
{
    match &field.payload {
        UnknownFieldData::LengthDelimited(message) => {
            if is_type_id(field.number) {
                return item_encoded_len(field.number, message.len()) as u64;
            }
            field.encoded_len()
        }
        UnknownFieldData::Varint(_)
        | UnknownFieldData::Fixed32(_)
        | UnknownFieldData::Fixed64(_)
        | UnknownFieldData::Group(_) => field.encoded_len(),
    }
}

// Writes a record: an Item, where it holds bytes under a type id, or else a field.
pub(crate) fn write_record<S: EncodeSink>(
    field: &UnknownField,
    sink: &mut S,
) -> Result<(), EncodeError>
    ensures writes { Writes result (S.written sink.old) (set_record_encoding field.now.number (field_data_of field.now.payload))
        (S.written sink.new) }
    ensures room { UsesRoom result (S.room sink.old) (set_record_encoding field.now.number (field_data_of field.now.payload))
        (S.room sink.new) }
{
    match &field.payload {
        UnknownFieldData::LengthDelimited(message) => {
            if is_type_id(field.number) {
                return write_item(field.number, message.as_slice(), sink);
            }
            field.write_to(sink)
        }
        UnknownFieldData::Varint(_)
        | UnknownFieldData::Fixed32(_)
        | UnknownFieldData::Fixed64(_)
        | UnknownFieldData::Group(_) => field.write_to(sink),
    }
}
