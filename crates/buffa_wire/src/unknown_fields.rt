//! Unknown fields: the fields of a message that its type does not declare, kept as they came.
//!
//! A contract sees a record, a number and what its payload holds, and a list of records with the spare capacity for
//! more. What is read, written and compared goes by records alone.

pub mod copy;
pub mod equal;
pub mod list;
pub mod read;
pub mod size;
pub mod tag;
pub mod write;

use std::marker::Model;

/// A field whose number its reader does not declare: the number, and what its payload holds.
///
/// Source: the protobuf encoding guide, "Message Structure".
///
/// ```ignore
/// let payload = UnknownFieldData::Varint(0);
/// let field = UnknownField { number: 9, payload }; // 48 00
/// ```
#[cycle(fields)]
#[derive(Debug, Drop)]
pub struct UnknownField {
    /// The number in its tag. What is read has 1 to 536,870,911; any other is written as it is.
    pub number: u32,
    /// What its payload holds.
    pub payload: UnknownFieldData,
}

/// What the payload of an unknown field holds, by the wire type of its tag.
///
/// ```ignore
/// let payload = UnknownFieldData::Varint(0); // 00
/// ```
#[cycle(fields)]
#[derive(Debug, Drop)]
pub enum UnknownFieldData {
    /// The value of a varint.
    Varint(u64),
    /// Four bytes, the lowest first.
    Fixed32(u32),
    /// Eight bytes, the lowest first.
    Fixed64(u64),
    /// A length and so many bytes; these bytes.
    LengthDelimited(Vec<u8>),
    /// The fields of a group, without its end tag.
    Group(UnknownFields),
}

/// Unknown fields, in the order in which they came.
///
/// ```ignore
/// let fields = UnknownFields::decode_from_slice(alloc, &[0x38, 0x01])?; // the field 7, a varint
/// ```
#[cycle(fields)]
#[derive(Debug, Drop)]
pub struct UnknownFields {
    fields: Vec<UnknownField>,
}

impl Model for UnknownFields {
    ghost use Rattle.buffa_wire.specs.Records.{Held, height};
    ghost use Rattle.buffa_wire.specs.StoredRecords.{coded_held};

    ghost Value = { Held };

    ghost coded = { coded_held };

    ghost use Rattle.buffa_wire.specs.RecordsOfValues.{held};

    ghost view = { held };

    ghost size = { λ h. height h.records };

    ghost use Rattle.std.proofs.Common.{arith};
    ghost use Rattle.buffa_wire.specs.DepthFacts.{deep_fields};

    ghost size_decreases = { λ a h. omega (arith, deep_fields a.fields.items) };
}
