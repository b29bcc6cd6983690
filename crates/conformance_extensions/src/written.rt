// Records that can be written, so that they are read again.

ghost use Rattle.std.specs.Prelude.{◌≤◌, IsTrue};
ghost use Rattle.buffa_bytes.specs.Number.{IsNumber};
ghost use Rattle.buffa_wire.specs.Parse.{FitsFieldData, IsValidFieldData};
ghost use Rattle.buffa_wire.specs.Records.{field_data_height};
ghost use Rattle.buffa_wire.specs.RecordsOfValues.{field_data_of};
ghost use Rattle.conformance_extensions.specs.Normal.{AreWritten};

use buffa_wire::{MAX_FIELD_NUMBER, UnknownFieldData, UnknownFields};

// Whether a field may have the number.
fn is_number(number: u32) -> bool
    ensures { IsTrue result → IsNumber number }
{
    0 < number && number <= MAX_FIELD_NUMBER
}

// Whether what a field holds can be written: a number or bytes always can, the records of a group by each of them.
#[cycle(walk)]
fn is_payload_written(payload: &UnknownFieldData, levels: u32) -> bool
    ensures { IsTrue result → IsValidFieldData (field_data_of payload.now) × FitsFieldData (field_data_of payload.now)
        × (field_data_height (field_data_of payload.now) ≤ levels) }
{
    match payload {
        UnknownFieldData::Varint(value) => {
            let _value = *value;
            true
        }
        UnknownFieldData::Fixed32(value) => {
            let _value = *value;
            true
        }
        UnknownFieldData::Fixed64(value) => {
            let _value = *value;
            true
        }
        UnknownFieldData::LengthDelimited(text) => {
            let _len = text.len();
            true
        }
        UnknownFieldData::Group(fields) => levels > 0 && are_written(fields, levels - 1),
    }
}

/// Whether records can be written, and nest at most so many levels deep: each has a number that a field may have, and
/// so have those in its groups.
#[cycle(walk)]
pub fn are_written(fields: &UnknownFields, levels: u32) -> bool
    ensures { IsTrue result → AreWritten levels fields.now.records }
{
    for field in fields.iter().as_slice() {
        if !is_number(field.number) {
            return false;
        }
        if !is_payload_written(&field.payload, levels) {
            return false;
        }
    }
    true
}
