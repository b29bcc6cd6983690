//! google.protobuf.Timestamp, made of google/protobuf/timestamp.proto by protoc-gen-buffa.

ghost use Rattle.std.proofs.Common.{lit<, refl};
ghost use Rattle.buffa_fields.specs.Terms.{field, keep_unknown};

use crate::named_message::NamedMessage;
use buffa_fields::map_codec::{Int32, Int64};
use buffa_fields::{
    And3, Blank, DecodeContext, DecodeError, FieldByField, FieldsMeaning, ImplicitField, Member,
    MessageFields, MessageImpl, Tag, UnknownFields, Unknowns, Visitor, unknown,
};
use std::alloc::Global;

/// A point in time, from 0001-01-01T00:00:00Z to 9999-12-31T23:59:59.999999999Z, in whatever time zone. Each day has 86,400
/// seconds: leap seconds aren't counted.
///
/// message Timestamp {
///     int64 seconds = 1;
///     int32 nanos = 2;
/// }
#[derive(Clone, Debug, Drop, PartialEq, Eq)]
pub struct Timestamp {
    /// The whole seconds since 1970-01-01T00:00:00Z, -62,135,596,800 to 253,402,300,799: less than 0 before it.
    pub seconds: i64,
    /// The nanoseconds behind them, 0 to 999,999,999: they count forward before 1970, too.
    pub nanos: i32,
    /// The fields that aren't declared, in order.
    pub unknown_fields: UnknownFields,
}

impl MessageFields for Timestamp {
    type Meaning = And3<i64, i32, Unknowns>;

    const COST: usize = 40;

    ghost COST = { 40 };

    ghost positive = { lit< tt };

    ghost schema = { field 1 (λ m. m.seconds) ⟦<ImplicitField<Int64> as Member>⟧.shape (
        field 2 (λ m. m.nanos) ⟦<ImplicitField<Int32> as Member>⟧.shape (
        keep_unknown (λ m. m.unknown_fields.records))) };

    ghost sound = { refl };

    fn visit<V: Visitor>(&self, visitor: &mut V) {
        visitor.visit::<ImplicitField<Int64>>(1, &self.seconds);
        visitor.visit::<ImplicitField<Int32>>(2, &self.nanos);
        visitor.visit_unknown_fields(&self.unknown_fields);
    }

    fn take(
        &mut self,
        alloc: Global,
        tag: Tag,
        buf: &mut &[u8],
        ctx: DecodeContext<'_>,
    ) -> Result<(), DecodeError> {
        match tag.field_number() {
            1 => ImplicitField::<Int64>::merge(&mut self.seconds, alloc, tag, buf, ctx),
            2 => ImplicitField::<Int32>::merge(&mut self.nanos, alloc, tag, buf, ctx),
            _ => unknown::keep(alloc, &mut self.unknown_fields, tag, buf, ctx),
        }
    }
}

impl Blank for Timestamp {
    type Meaning = <Timestamp as MessageFields>::Meaning;

    ghost meaning = { ⟦<Timestamp as MessageFields>⟧.schema.meaning };

    ghost blank_is = { ⟦<Timestamp as MessageFields>⟧.schema.blank };

    fn blank(alloc: Global) -> Timestamp {
        Timestamp {
            seconds: 0,
            nanos: 0,
            unknown_fields: UnknownFields::new(alloc),
        }
    }
}

impl FieldsMeaning for Timestamp {
    ghost means = { λ m. refl };

    ghost starts = { refl };
}

impl MessageImpl for Timestamp {
    type Impl = FieldByField;
}

const _: () = prove!(size_of::<Timestamp>() <= Timestamp::COST);

impl NamedMessage for Timestamp {
    ghost use Rattle.std.specs.Prelude.{codes};

    ghost name = { codes "google.protobuf.Timestamp" };

    fn full_name() -> &'static str {
        Self::FULL_NAME
    }
}

impl Timestamp {
    /// The full name of the message.
    pub const FULL_NAME: &'static str = "google.protobuf.Timestamp";
}
