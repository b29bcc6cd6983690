//! google.protobuf.BoolValue, made of google/protobuf/wrappers.proto by protoc-gen-buffa.

ghost use Rattle.std.proofs.Common.{lit<, refl};
ghost use Rattle.buffa_fields.specs.Terms.{field, keep_unknown};

use crate::named_message::NamedMessage;
use buffa_fields::map_codec::Bool;
use buffa_fields::{
    And, Blank, DecodeContext, DecodeError, FieldByField, FieldsMeaning, ImplicitField, Member,
    MessageFields, MessageImpl, Tag, UnknownFields, Unknowns, Visitor, unknown,
};
use std::alloc::Global;

/// A `bool`.
///
/// message BoolValue {
///     bool value = 1;
/// }
#[derive(Clone, Debug, Drop, PartialEq, Eq)]
pub struct BoolValue {
    /// The value.
    pub value: bool,
    /// The fields that aren't declared, in order.
    pub unknown_fields: UnknownFields,
}

impl MessageFields for BoolValue {
    type Meaning = And<bool, Unknowns>;

    const COST: usize = 32;

    ghost COST = { 32 };

    ghost positive = { lit< tt };

    ghost schema = { field 1 (λ m. m.value) ⟦<ImplicitField<Bool> as Member>⟧.shape (
        keep_unknown (λ m. m.unknown_fields.records)) };

    ghost sound = { refl };

    fn visit<V: Visitor>(&self, visitor: &mut V) {
        visitor.visit::<ImplicitField<Bool>>(1, &self.value);
        visitor.visit_unknown_fields(&self.unknown_fields);
    }

    fn take(
        &mut self,
        alloc: Global,
        tag: Tag,
        buf: &mut &[u8],
        ctx: DecodeContext<'_>,
    ) -> Result<(), DecodeError> {
        match tag.field_number() {
            1 => ImplicitField::<Bool>::merge(&mut self.value, alloc, tag, buf, ctx),
            _ => unknown::keep(alloc, &mut self.unknown_fields, tag, buf, ctx),
        }
    }
}

impl Blank for BoolValue {
    type Meaning = <BoolValue as MessageFields>::Meaning;

    ghost meaning = { ⟦<BoolValue as MessageFields>⟧.schema.meaning };

    ghost blank_is = { ⟦<BoolValue as MessageFields>⟧.schema.blank };

    fn blank(alloc: Global) -> BoolValue {
        BoolValue {
            value: false,
            unknown_fields: UnknownFields::new(alloc),
        }
    }
}

impl FieldsMeaning for BoolValue {
    ghost means = { λ m. refl };

    ghost starts = { refl };
}

impl MessageImpl for BoolValue {
    type Impl = FieldByField;
}

const _: () = prove!(size_of::<BoolValue>() <= BoolValue::COST);

impl NamedMessage for BoolValue {
    ghost use Rattle.std.specs.Prelude.{codes};

    ghost name = { codes "google.protobuf.BoolValue" };

    fn full_name() -> &'static str {
        Self::FULL_NAME
    }
}

impl BoolValue {
    /// The full name of the message.
    pub const FULL_NAME: &'static str = "google.protobuf.BoolValue";
}
