//! google.protobuf.BytesValue, made of google/protobuf/wrappers.proto by protoc-gen-buffa.

ghost use Rattle.std.proofs.Common.{lit<, refl};
ghost use Rattle.buffa_fields.specs.Terms.{field, keep_unknown};

use crate::named_message::NamedMessage;
use buffa_fields::map_codec::BytesVec;
use buffa_fields::{
    And, Blank, DecodeContext, DecodeError, FieldByField, FieldsMeaning, ImplicitField, Member,
    MessageFields, MessageImpl, Tag, UnknownFields, Unknowns, Visitor, unknown,
};
use std::alloc::Global;

/// A `bytes`.
///
/// message BytesValue {
///     bytes value = 1;
/// }
#[derive(Clone, Debug, Drop, PartialEq, Eq)]
pub struct BytesValue {
    /// The value.
    pub value: Vec<u8>,
    /// The fields that aren't declared, in order.
    pub unknown_fields: UnknownFields,
}

impl MessageFields for BytesValue {
    type Meaning = And<[u8; 0], Unknowns>;

    const COST: usize = 48;

    ghost COST = { 48 };

    ghost positive = { lit< tt };

    ghost schema = { field 1 (λ m. m.value) ⟦<ImplicitField<BytesVec> as Member>⟧.shape (
        keep_unknown (λ m. m.unknown_fields.records)) };

    ghost sound = { refl };

    fn visit<V: Visitor>(&self, visitor: &mut V) {
        visitor.visit::<ImplicitField<BytesVec>>(1, &self.value);
        visitor.visit_unknown_fields(&self.unknown_fields);
    }

    fn take(
        &mut self,
        alloc: Global,
        tag: Tag,
        buf: &mut &[u8],
        ctx: DecodeContext<'_>,
    ) -> Result<(), DecodeError> {
        match tag.field_number() {
            1 => ImplicitField::<BytesVec>::merge(&mut self.value, alloc, tag, buf, ctx),
            _ => unknown::keep(alloc, &mut self.unknown_fields, tag, buf, ctx),
        }
    }
}

impl Blank for BytesValue {
    type Meaning = <BytesValue as MessageFields>::Meaning;

    ghost meaning = { ⟦<BytesValue as MessageFields>⟧.schema.meaning };

    ghost blank_is = { ⟦<BytesValue as MessageFields>⟧.schema.blank };

    fn blank(alloc: Global) -> BytesValue {
        BytesValue {
            value: Vec::new(alloc),
            unknown_fields: UnknownFields::new(alloc),
        }
    }
}

impl FieldsMeaning for BytesValue {
    ghost means = { λ m. refl };

    ghost starts = { refl };
}

impl MessageImpl for BytesValue {
    type Impl = FieldByField;
}

const _: () = prove!(size_of::<BytesValue>() <= BytesValue::COST);

impl NamedMessage for BytesValue {
    ghost use Rattle.std.specs.Prelude.{codes};

    ghost name = { codes "google.protobuf.BytesValue" };

    fn full_name() -> &'static str {
        Self::FULL_NAME
    }
}

impl BytesValue {
    /// The full name of the message.
    pub const FULL_NAME: &'static str = "google.protobuf.BytesValue";
}
