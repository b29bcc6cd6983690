//! google.protobuf.SourceContext, made of google/protobuf/source_context.proto by protoc-gen-buffa.

ghost use Rattle.std.proofs.Common.{lit<, refl};
ghost use Rattle.buffa_fields.specs.Terms.{field, keep_unknown};

use crate::named_message::NamedMessage;
use buffa_fields::map_codec::Str;
use buffa_fields::{
    And, Blank, DecodeContext, DecodeError, FieldByField, FieldsMeaning, ImplicitField, Member,
    MessageFields, MessageImpl, Tag, UnknownFields, Unknowns, Visitor, unknown,
};
use std::alloc::Global;
use std::string::String;

/// Where something was declared.
///
/// message SourceContext {
///     string file_name = 1;
/// }
#[derive(Clone, Debug, Drop, PartialEq, Eq)]
pub struct SourceContext {
    /// The name of the .proto file, from the folder in which protoc looks for imports.
    pub file_name: String,
    /// The fields that aren't declared, in order.
    pub unknown_fields: UnknownFields,
}

impl MessageFields for SourceContext {
    type Meaning = And<[u8; 0], Unknowns>;

    const COST: usize = 48;

    ghost COST = { 48 };

    ghost positive = { lit< tt };

    ghost schema = { field 1 (λ m. m.file_name) ⟦<ImplicitField<Str> as Member>⟧.shape (
        keep_unknown (λ m. m.unknown_fields.records)) };

    ghost sound = { refl };

    fn visit<V: Visitor>(&self, visitor: &mut V) {
        visitor.visit::<ImplicitField<Str>>(1, &self.file_name);
        visitor.visit_unknown_fields(&self.unknown_fields);
    }

    fn take(
        &mut self,
        alloc: Global,
        tag: Tag,
        buf: &mut &[u8],
        ctx: DecodeContext<'_>,
    ) -> Result<(), DecodeError> {
        match tag.field_number() {
            1 => ImplicitField::<Str>::merge(&mut self.file_name, alloc, tag, buf, ctx),
            _ => unknown::keep(alloc, &mut self.unknown_fields, tag, buf, ctx),
        }
    }
}

impl Blank for SourceContext {
    type Meaning = <SourceContext as MessageFields>::Meaning;

    ghost meaning = { ⟦<SourceContext as MessageFields>⟧.schema.meaning };

    ghost blank_is = { ⟦<SourceContext as MessageFields>⟧.schema.blank };

    fn blank(alloc: Global) -> SourceContext {
        SourceContext {
            file_name: String::new(alloc),
            unknown_fields: UnknownFields::new(alloc),
        }
    }
}

impl FieldsMeaning for SourceContext {
    ghost means = { λ m. refl };

    ghost starts = { refl };
}

impl MessageImpl for SourceContext {
    type Impl = FieldByField;
}

const _: () = prove!(size_of::<SourceContext>() <= SourceContext::COST);

impl NamedMessage for SourceContext {
    ghost use Rattle.std.specs.Prelude.{codes};

    ghost name = { codes "google.protobuf.SourceContext" };

    fn full_name() -> &'static str {
        Self::FULL_NAME
    }
}

impl SourceContext {
    /// The full name of the message.
    pub const FULL_NAME: &'static str = "google.protobuf.SourceContext";
}
