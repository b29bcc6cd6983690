//! google.protobuf.Int64Value, made of google/protobuf/wrappers.proto by protoc-gen-buffa.

ghost use Rattle.std.proofs.Common.{lit<, refl};
ghost use Rattle.buffa_fields.specs.Terms.{field, keep_unknown};

use crate::named_message::NamedMessage;
use buffa_fields::map_codec::Int64;
use buffa_fields::{
    And, Blank, DecodeContext, DecodeError, FieldByField, FieldsMeaning, ImplicitField, Member,
    MessageFields, MessageImpl, Tag, UnknownFields, Unknowns, Visitor, unknown,
};
use std::alloc::Global;

/// An `int64`.
///
/// message Int64Value {
///     int64 value = 1;
/// }
#[derive(Clone, Debug, Drop, PartialEq, Eq)]
pub struct Int64Value {
    /// The value.
    pub value: i64,
    /// The fields that aren't declared, in order.
    pub unknown_fields: UnknownFields,
}

impl MessageFields for Int64Value {
    type Meaning = And<i64, Unknowns>;

    const COST: usize = 32;

    ghost COST = { 32 };

    ghost positive = { lit< tt };

    ghost schema = { field 1 (λ m. m.value) ⟦<ImplicitField<Int64> as Member>⟧.shape (
        keep_unknown (λ m. m.unknown_fields.records)) };

    ghost sound = { refl };

    fn visit<V: Visitor>(&self, visitor: &mut V) {
        visitor.visit::<ImplicitField<Int64>>(1, &self.value);
        visitor.visit_unknown_fields(&self.unknown_fields);
    }

    fn take(
        &mut self,
        alloc: Global,
        tag: Tag,
        buf: &mut &[u8],
        ctx: DecodeContext<'_>,
    ) -> Result<(), DecodeError> {
        match tag.field_number() {
            1 => ImplicitField::<Int64>::merge(&mut self.value, alloc, tag, buf, ctx),
            _ => unknown::keep(alloc, &mut self.unknown_fields, tag, buf, ctx),
        }
    }
}

impl Blank for Int64Value {
    type Meaning = <Int64Value as MessageFields>::Meaning;

    ghost meaning = { ⟦<Int64Value as MessageFields>⟧.schema.meaning };

    ghost blank_is = { ⟦<Int64Value as MessageFields>⟧.schema.blank };

    fn blank(alloc: Global) -> Int64Value {
        Int64Value {
            value: 0,
            unknown_fields: UnknownFields::new(alloc),
        }
    }
}

impl FieldsMeaning for Int64Value {
    ghost means = { λ m. refl };

    ghost starts = { refl };
}

impl MessageImpl for Int64Value {
    type Impl = FieldByField;
}

const _: () = prove!(size_of::<Int64Value>() <= Int64Value::COST);

impl NamedMessage for Int64Value {
    ghost use Rattle.std.specs.Prelude.{codes};

    ghost name = { codes "google.protobuf.Int64Value" };

    fn full_name() -> &'static str {
        Self::FULL_NAME
    }
}

impl Int64Value {
    /// The full name of the message.
    pub const FULL_NAME: &'static str = "google.protobuf.Int64Value";
}
