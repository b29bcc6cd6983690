//! google.protobuf.MethodOptions, made of descriptor.proto by protoc-gen-buffa.

ghost use Rattle.std.proofs.Common.{lit<, refl};
ghost use Rattle.std.specs.Prelude.{codes};
ghost use Rattle.buffa_fields.specs.Terms.{keep_unknown};

use buffa_ext::ExtensionSet;
use buffa_fields::{
    Blank, DecodeContext, DecodeError, FieldByField, FieldsMeaning, MessageFields, MessageImpl,
    Tag, UnknownFields, Unknowns, Visitor, unknown,
};
use std::alloc::Global;

/// The options of a method. Each of them, also one that `descriptor.proto` declares, is had by its number as an
/// extension.
///
/// message MethodOptions {
///     extensions 1 to max;
/// }
#[derive(Debug, Drop)]
pub struct MethodOptions {
    /// The fields that aren't declared, in order.
    pub unknown_fields: UnknownFields,
}

impl MessageFields for MethodOptions {
    type Meaning = Unknowns;

    const COST: usize = 24;

    ghost COST = { 24 };

    ghost positive = { lit< tt };

    ghost schema = { keep_unknown (λ m. m.unknown_fields.records) };

    ghost sound = { refl };

    fn visit<V: Visitor>(&self, visitor: &mut V) {
        visitor.visit_unknown_fields(&self.unknown_fields);
    }

    fn take(
        &mut self,
        alloc: Global,
        tag: Tag,
        buf: &mut &[u8],
        ctx: DecodeContext<'_>,
    ) -> Result<(), DecodeError> {
        unknown::keep(alloc, &mut self.unknown_fields, tag, buf, ctx)
    }
}

impl Blank for MethodOptions {
    type Meaning = <MethodOptions as MessageFields>::Meaning;

    ghost meaning = { ⟦<MethodOptions as MessageFields>⟧.schema.meaning };

    ghost blank_is = { ⟦<MethodOptions as MessageFields>⟧.schema.blank };

    fn blank(alloc: Global) -> MethodOptions {
        MethodOptions {
            unknown_fields: UnknownFields::new(alloc),
        }
    }
}

impl FieldsMeaning for MethodOptions {
    ghost means = { λ m. refl };

    ghost starts = { refl };
}

impl MessageImpl for MethodOptions {
    type Impl = FieldByField;
}

impl ExtensionSet for MethodOptions {
    const PROTO_FQN: &'static str = "google.protobuf.MethodOptions";

    ghost fqn = { codes "google.protobuf.MethodOptions" };

    ghost fields_of = { λ m. m.unknown_fields };

    ghost with_fields = { λ m w. record m { unknown_fields = w } };

    fn extendee_name() -> &'static str {
        Self::PROTO_FQN
    }

    fn unknown_fields(&self) -> &UnknownFields {
        &self.unknown_fields
    }

    fn unknown_fields_mut(&mut self) -> &mut UnknownFields {
        &mut self.unknown_fields
    }

    ghost fields_of_with = { λ m w. refl };

    ghost with_fields_of = { λ m. refl };

    ghost with_fields_twice = { λ m w u. refl };
}

const _: () = prove!(size_of::<MethodOptions>() <= MethodOptions::COST);

impl MethodOptions {
    /// The full name of the message.
    pub const FULL_NAME: &'static str = "google.protobuf.MethodOptions";
}
