//! google.protobuf.MessageOptions, made of descriptor.proto by protoc-gen-buffa.

ghost use Rattle.std.proofs.Common.{lit<, refl};
ghost use Rattle.std.specs.Prelude.{codes};
ghost use Rattle.buffa_fields.specs.Terms.{keep_unknown};

use buffa_ext::ExtensionSet;
use buffa_fields::{
    Blank, DecodeContext, DecodeError, FieldByField, FieldsMeaning, MessageFields, MessageImpl,
    Tag, UnknownFields, Unknowns, Visitor, unknown,
};
use std::alloc::Global;

/// The options of a message. Each of them, also one that `descriptor.proto` declares, is had by its number as
/// an extension.
///
/// message MessageOptions {
///     extensions 1 to max;
/// }
#[derive(Debug, Drop)]
pub struct MessageOptions {
    /// The fields that aren't declared, in order.
    pub unknown_fields: UnknownFields,
}

impl MessageFields for MessageOptions {
    type Meaning = Unknowns;

    const COST: usize = 24;

    ghost COST = { 24 };

    ghost positive = { lit< tt };

    ghost schema = { keep_unknown (λ m. m.unknown_fields.records) };

    ghost sound = { refl };

    fn visit<V: Visitor>(&self, visitor: &mut V) {
        visitor.visit_unknown_fields(&self.unknown_fields);
    }

    fn take(
        &mut self,
        alloc: Global,
        tag: Tag,
        buf: &mut &[u8],
        ctx: DecodeContext<'_>,
    ) -> Result<(), DecodeError> {
        unknown::keep(alloc, &mut self.unknown_fields, tag, buf, ctx)
    }
}

impl Blank for MessageOptions {
    type Meaning = <MessageOptions as MessageFields>::Meaning;

    ghost meaning = { ⟦<MessageOptions as MessageFields>⟧.schema.meaning };

    ghost blank_is = { ⟦<MessageOptions as MessageFields>⟧.schema.blank };

    fn blank(alloc: Global) -> MessageOptions {
        MessageOptions {
            unknown_fields: UnknownFields::new(alloc),
        }
    }
}

impl FieldsMeaning for MessageOptions {
    ghost means = { λ m. refl };

    ghost starts = { refl };
}

impl MessageImpl for MessageOptions {
    type Impl = FieldByField;
}

impl ExtensionSet for MessageOptions {
    const PROTO_FQN: &'static str = "google.protobuf.MessageOptions";

    ghost fqn = { codes "google.protobuf.MessageOptions" };

    ghost fields_of = { λ m. m.unknown_fields };

    ghost with_fields = { λ m w. record m { unknown_fields = w } };

    fn extendee_name() -> &'static str {
        Self::PROTO_FQN
    }

    fn unknown_fields(&self) -> &UnknownFields {
        &self.unknown_fields
    }

    fn unknown_fields_mut(&mut self) -> &mut UnknownFields {
        &mut self.unknown_fields
    }

    ghost fields_of_with = { λ m w. refl };

    ghost with_fields_of = { λ m. refl };

    ghost with_fields_twice = { λ m w u. refl };
}

const _: () = prove!(size_of::<MessageOptions>() <= MessageOptions::COST);

impl MessageOptions {
    /// The full name of the message.
    pub const FULL_NAME: &'static str = "google.protobuf.MessageOptions";
}
