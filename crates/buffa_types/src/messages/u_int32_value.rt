//! google.protobuf.UInt32Value, made of google/protobuf/wrappers.proto by protoc-gen-buffa.

ghost use Rattle.std.proofs.Common.{lit<, refl};
ghost use Rattle.buffa_fields.specs.Terms.{field, keep_unknown};

use crate::named_message::NamedMessage;
use buffa_fields::map_codec::Uint32;
use buffa_fields::{
    And, Blank, DecodeContext, DecodeError, FieldByField, FieldsMeaning, ImplicitField, Member,
    MessageFields, MessageImpl, Tag, UnknownFields, Unknowns, Visitor, unknown,
};
use std::alloc::Global;

/// A `uint32`.
///
/// message UInt32Value {
///     uint32 value = 1;
/// }
#[derive(Clone, Debug, Drop, PartialEq, Eq)]
pub struct UInt32Value {
    /// The value.
    pub value: u32,
    /// The fields that aren't declared, in order.
    pub unknown_fields: UnknownFields,
}

impl MessageFields for UInt32Value {
    type Meaning = And<u32, Unknowns>;

    const COST: usize = 32;

    ghost COST = { 32 };

    ghost positive = { lit< tt };

    ghost schema = { field 1 (λ m. m.value) ⟦<ImplicitField<Uint32> as Member>⟧.shape (
        keep_unknown (λ m. m.unknown_fields.records)) };

    ghost sound = { refl };

    fn visit<V: Visitor>(&self, visitor: &mut V) {
        visitor.visit::<ImplicitField<Uint32>>(1, &self.value);
        visitor.visit_unknown_fields(&self.unknown_fields);
    }

    fn take(
        &mut self,
        alloc: Global,
        tag: Tag,
        buf: &mut &[u8],
        ctx: DecodeContext<'_>,
    ) -> Result<(), DecodeError> {
        match tag.field_number() {
            1 => ImplicitField::<Uint32>::merge(&mut self.value, alloc, tag, buf, ctx),
            _ => unknown::keep(alloc, &mut self.unknown_fields, tag, buf, ctx),
        }
    }
}

impl Blank for UInt32Value {
    type Meaning = <UInt32Value as MessageFields>::Meaning;

    ghost meaning = { ⟦<UInt32Value as MessageFields>⟧.schema.meaning };

    ghost blank_is = { ⟦<UInt32Value as MessageFields>⟧.schema.blank };

    fn blank(alloc: Global) -> UInt32Value {
        UInt32Value {
            value: 0,
            unknown_fields: UnknownFields::new(alloc),
        }
    }
}

impl FieldsMeaning for UInt32Value {
    ghost means = { λ m. refl };

    ghost starts = { refl };
}

impl MessageImpl for UInt32Value {
    type Impl = FieldByField;
}

const _: () = prove!(size_of::<UInt32Value>() <= UInt32Value::COST);

impl NamedMessage for UInt32Value {
    ghost use Rattle.std.specs.Prelude.{codes};

    ghost name = { codes "google.protobuf.UInt32Value" };

    fn full_name() -> &'static str {
        Self::FULL_NAME
    }
}

impl UInt32Value {
    /// The full name of the message.
    pub const FULL_NAME: &'static str = "google.protobuf.UInt32Value";
}
