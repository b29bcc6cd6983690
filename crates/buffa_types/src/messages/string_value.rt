//! google.protobuf.StringValue, made of google/protobuf/wrappers.proto by protoc-gen-buffa.

ghost use Rattle.std.proofs.Common.{lit<, refl};
ghost use Rattle.buffa_fields.specs.Terms.{field, keep_unknown};

use crate::named_message::NamedMessage;
use buffa_fields::map_codec::Str;
use buffa_fields::{
    And, Blank, DecodeContext, DecodeError, FieldByField, FieldsMeaning, ImplicitField, Member,
    MessageFields, MessageImpl, Tag, UnknownFields, Unknowns, Visitor, unknown,
};
use std::alloc::Global;
use std::string::String;

/// A `string`.
///
/// message StringValue {
///     string value = 1;
/// }
#[derive(Clone, Debug, Drop, PartialEq, Eq)]
pub struct StringValue {
    /// The value.
    pub value: String,
    /// The fields that aren't declared, in order.
    pub unknown_fields: UnknownFields,
}

impl MessageFields for StringValue {
    type Meaning = And<[u8; 0], Unknowns>;

    const COST: usize = 48;

    ghost COST = { 48 };

    ghost positive = { lit< tt };

    ghost schema = { field 1 (λ m. m.value) ⟦<ImplicitField<Str> as Member>⟧.shape (
        keep_unknown (λ m. m.unknown_fields.records)) };

    ghost sound = { refl };

    fn visit<V: Visitor>(&self, visitor: &mut V) {
        visitor.visit::<ImplicitField<Str>>(1, &self.value);
        visitor.visit_unknown_fields(&self.unknown_fields);
    }

    fn take(
        &mut self,
        alloc: Global,
        tag: Tag,
        buf: &mut &[u8],
        ctx: DecodeContext<'_>,
    ) -> Result<(), DecodeError> {
        match tag.field_number() {
            1 => ImplicitField::<Str>::merge(&mut self.value, alloc, tag, buf, ctx),
            _ => unknown::keep(alloc, &mut self.unknown_fields, tag, buf, ctx),
        }
    }
}

impl Blank for StringValue {
    type Meaning = <StringValue as MessageFields>::Meaning;

    ghost meaning = { ⟦<StringValue as MessageFields>⟧.schema.meaning };

    ghost blank_is = { ⟦<StringValue as MessageFields>⟧.schema.blank };

    fn blank(alloc: Global) -> StringValue {
        StringValue {
            value: String::new(alloc),
            unknown_fields: UnknownFields::new(alloc),
        }
    }
}

impl FieldsMeaning for StringValue {
    ghost means = { λ m. refl };

    ghost starts = { refl };
}

impl MessageImpl for StringValue {
    type Impl = FieldByField;
}

const _: () = prove!(size_of::<StringValue>() <= StringValue::COST);

impl NamedMessage for StringValue {
    ghost use Rattle.std.specs.Prelude.{codes};

    ghost name = { codes "google.protobuf.StringValue" };

    fn full_name() -> &'static str {
        Self::FULL_NAME
    }
}

impl StringValue {
    /// The full name of the message.
    pub const FULL_NAME: &'static str = "google.protobuf.StringValue";
}
