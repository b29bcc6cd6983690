//! google.protobuf.Any, made of google/protobuf/any.proto by protoc-gen-buffa.

ghost use Rattle.std.proofs.Common.{lit<, refl};
ghost use Rattle.buffa_fields.specs.Terms.{field, keep_unknown};

use crate::named_message::NamedMessage;
use buffa_fields::map_codec::{BytesVec, Str};
use buffa_fields::{
    And3, Blank, DecodeContext, DecodeError, FieldByField, FieldsMeaning, ImplicitField, Member,
    MessageFields, MessageImpl, Tag, UnknownFields, Unknowns, Visitor, unknown,
};
use std::alloc::Global;
use std::string::String;

/// A message of any type, with the name of its type.
///
/// message Any {
///     string type_url = 1;
///     bytes value = 2;
/// }
#[derive(Clone, Debug, Drop, PartialEq, Eq)]
pub struct Any {
    /// Which type it is: the full name of the message, such as `google.protobuf.Duration`, behind the last `/`. What stands
    /// before the `/` is as a rule `type.googleapis.com`.
    pub type_url: String,
    /// The encoding of the message.
    pub value: Vec<u8>,
    /// The fields that aren't declared, in order.
    pub unknown_fields: UnknownFields,
}

impl MessageFields for Any {
    type Meaning = And3<[u8; 0], [u8; 0], Unknowns>;

    const COST: usize = 72;

    ghost COST = { 72 };

    ghost positive = { lit< tt };

    ghost schema = { field 1 (λ m. m.type_url) ⟦<ImplicitField<Str> as Member>⟧.shape (
        field 2 (λ m. m.value) ⟦<ImplicitField<BytesVec> as Member>⟧.shape (
        keep_unknown (λ m. m.unknown_fields.records))) };

    ghost sound = { refl };

    fn visit<V: Visitor>(&self, visitor: &mut V) {
        visitor.visit::<ImplicitField<Str>>(1, &self.type_url);
        visitor.visit::<ImplicitField<BytesVec>>(2, &self.value);
        visitor.visit_unknown_fields(&self.unknown_fields);
    }

    fn take(
        &mut self,
        alloc: Global,
        tag: Tag,
        buf: &mut &[u8],
        ctx: DecodeContext<'_>,
    ) -> Result<(), DecodeError> {
        match tag.field_number() {
            1 => ImplicitField::<Str>::merge(&mut self.type_url, alloc, tag, buf, ctx),
            2 => ImplicitField::<BytesVec>::merge(&mut self.value, alloc, tag, buf, ctx),
            _ => unknown::keep(alloc, &mut self.unknown_fields, tag, buf, ctx),
        }
    }
}

impl Blank for Any {
    type Meaning = <Any as MessageFields>::Meaning;

    ghost meaning = { ⟦<Any as MessageFields>⟧.schema.meaning };

    ghost blank_is = { ⟦<Any as MessageFields>⟧.schema.blank };

    fn blank(alloc: Global) -> Any {
        Any {
            type_url: String::new(alloc),
            value: Vec::new(alloc),
            unknown_fields: UnknownFields::new(alloc),
        }
    }
}

impl FieldsMeaning for Any {
    ghost means = { λ m. refl };

    ghost starts = { refl };
}

impl MessageImpl for Any {
    type Impl = FieldByField;
}

const _: () = prove!(size_of::<Any>() <= Any::COST);

impl NamedMessage for Any {
    ghost use Rattle.std.specs.Prelude.{codes};

    ghost name = { codes "google.protobuf.Any" };

    fn full_name() -> &'static str {
        Self::FULL_NAME
    }
}

impl Any {
    /// The full name of the message.
    pub const FULL_NAME: &'static str = "google.protobuf.Any";
}
