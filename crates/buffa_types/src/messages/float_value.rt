//! google.protobuf.FloatValue, made of google/protobuf/wrappers.proto by protoc-gen-buffa.

ghost use Rattle.std.proofs.Common.{lit<, refl};
ghost use Rattle.buffa_fields.specs.Terms.{field, keep_unknown};

use crate::named_message::NamedMessage;
use buffa_fields::map_codec::Float;
use buffa_fields::{
    And, Blank, DecodeContext, DecodeError, FieldByField, FieldsMeaning, FloatBits, ImplicitField,
    Member, MessageFields, MessageImpl, Tag, UnknownFields, Unknowns, Visitor, unknown,
};
use std::alloc::Global;

/// A `float`.
///
/// message FloatValue {
///     float value = 1;
/// }
#[derive(Clone, Debug, Drop, PartialEq, Eq)]
pub struct FloatValue {
    /// The value.
    pub value: FloatBits,
    /// The fields that aren't declared, in order.
    pub unknown_fields: UnknownFields,
}

impl MessageFields for FloatValue {
    type Meaning = And<u32, Unknowns>;

    const COST: usize = 32;

    ghost COST = { 32 };

    ghost positive = { lit< tt };

    ghost schema = { field 1 (λ m. m.value) ⟦<ImplicitField<Float> as Member>⟧.shape (
        keep_unknown (λ m. m.unknown_fields.records)) };

    ghost sound = { refl };

    fn visit<V: Visitor>(&self, visitor: &mut V) {
        visitor.visit::<ImplicitField<Float>>(1, &self.value);
        visitor.visit_unknown_fields(&self.unknown_fields);
    }

    fn take(
        &mut self,
        alloc: Global,
        tag: Tag,
        buf: &mut &[u8],
        ctx: DecodeContext<'_>,
    ) -> Result<(), DecodeError> {
        match tag.field_number() {
            1 => ImplicitField::<Float>::merge(&mut self.value, alloc, tag, buf, ctx),
            _ => unknown::keep(alloc, &mut self.unknown_fields, tag, buf, ctx),
        }
    }
}

impl Blank for FloatValue {
    type Meaning = <FloatValue as MessageFields>::Meaning;

    ghost meaning = { ⟦<FloatValue as MessageFields>⟧.schema.meaning };

    ghost blank_is = { ⟦<FloatValue as MessageFields>⟧.schema.blank };

    fn blank(alloc: Global) -> FloatValue {
        FloatValue {
            value: FloatBits { bits: 0 },
            unknown_fields: UnknownFields::new(alloc),
        }
    }
}

impl FieldsMeaning for FloatValue {
    ghost means = { λ m. refl };

    ghost starts = { refl };
}

impl MessageImpl for FloatValue {
    type Impl = FieldByField;
}

const _: () = prove!(size_of::<FloatValue>() <= FloatValue::COST);

impl NamedMessage for FloatValue {
    ghost use Rattle.std.specs.Prelude.{codes};

    ghost name = { codes "google.protobuf.FloatValue" };

    fn full_name() -> &'static str {
        Self::FULL_NAME
    }
}

impl FloatValue {
    /// The full name of the message.
    pub const FULL_NAME: &'static str = "google.protobuf.FloatValue";
}
