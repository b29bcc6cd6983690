//! google.protobuf.Empty, made of google/protobuf/empty.proto by protoc-gen-buffa.

ghost use Rattle.std.proofs.Common.{lit<, refl};
ghost use Rattle.buffa_fields.specs.Terms.{keep_unknown};

use crate::named_message::NamedMessage;
use buffa_fields::{
    Blank, DecodeContext, DecodeError, FieldByField, FieldsMeaning, MessageFields, MessageImpl,
    Tag, UnknownFields, Unknowns, Visitor, unknown,
};
use std::alloc::Global;

/// A message without fields, for a call that takes or answers nothing.
///
/// message Empty {
/// }
#[derive(Clone, Debug, Drop, PartialEq, Eq)]
pub struct Empty {
    /// The fields that aren't declared, in order.
    pub unknown_fields: UnknownFields,
}

impl MessageFields for Empty {
    type Meaning = Unknowns;

    const COST: usize = 24;

    ghost COST = { 24 };

    ghost positive = { lit< tt };

    ghost schema = { keep_unknown (λ m. m.unknown_fields.records) };

    ghost sound = { refl };

    fn visit<V: Visitor>(&self, visitor: &mut V) {
        visitor.visit_unknown_fields(&self.unknown_fields);
    }

    fn take(
        &mut self,
        alloc: Global,
        tag: Tag,
        buf: &mut &[u8],
        ctx: DecodeContext<'_>,
    ) -> Result<(), DecodeError> {
        unknown::keep(alloc, &mut self.unknown_fields, tag, buf, ctx)
    }
}

impl Blank for Empty {
    type Meaning = <Empty as MessageFields>::Meaning;

    ghost meaning = { ⟦<Empty as MessageFields>⟧.schema.meaning };

    ghost blank_is = { ⟦<Empty as MessageFields>⟧.schema.blank };

    fn blank(alloc: Global) -> Empty {
        Empty {
            unknown_fields: UnknownFields::new(alloc),
        }
    }
}

impl FieldsMeaning for Empty {
    ghost means = { λ m. refl };

    ghost starts = { refl };
}

impl MessageImpl for Empty {
    type Impl = FieldByField;
}

const _: () = prove!(size_of::<Empty>() <= Empty::COST);

impl NamedMessage for Empty {
    ghost use Rattle.std.specs.Prelude.{codes};

    ghost name = { codes "google.protobuf.Empty" };

    fn full_name() -> &'static str {
        Self::FULL_NAME
    }
}

impl Empty {
    /// The full name of the message.
    pub const FULL_NAME: &'static str = "google.protobuf.Empty";
}
