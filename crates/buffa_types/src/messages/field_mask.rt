//! google.protobuf.FieldMask, made of google/protobuf/field_mask.proto by protoc-gen-buffa.

ghost use Rattle.std.proofs.Common.{lit<, refl};
ghost use Rattle.buffa_fields.specs.Terms.{field, keep_unknown};

use crate::named_message::NamedMessage;
use buffa_fields::map_codec::Str;
use buffa_fields::{
    And, Blank, DecodeContext, DecodeError, FieldByField, FieldsMeaning, Member, MessageFields,
    MessageImpl, RepeatedField, Tag, UnknownFields, Unknowns, Visitor, unknown,
};
use std::alloc::Global;
use std::string::String;

/// Some fields of a message: those that a call reads or changes.
///
/// message FieldMask {
///     repeated string paths = 1;
/// }
#[derive(Clone, Debug, Drop, PartialEq, Eq)]
pub struct FieldMask {
    /// A path for each: the names of fields from the outermost one on, with a dot between them, such as `author.name`.
    pub paths: Vec<String>,
    /// The fields that aren't declared, in order.
    pub unknown_fields: UnknownFields,
}

impl MessageFields for FieldMask {
    type Meaning = And<[[u8; 0]; 0], Unknowns>;

    const COST: usize = 48;

    ghost COST = { 48 };

    ghost positive = { lit< tt };

    ghost schema = { field 1 (λ m. m.paths) ⟦<RepeatedField<Str> as Member>⟧.shape (
        keep_unknown (λ m. m.unknown_fields.records)) };

    ghost sound = { refl };

    fn visit<V: Visitor>(&self, visitor: &mut V) {
        visitor.visit::<RepeatedField<Str>>(1, &self.paths);
        visitor.visit_unknown_fields(&self.unknown_fields);
    }

    fn take(
        &mut self,
        alloc: Global,
        tag: Tag,
        buf: &mut &[u8],
        ctx: DecodeContext<'_>,
    ) -> Result<(), DecodeError> {
        match tag.field_number() {
            1 => RepeatedField::<Str>::merge(&mut self.paths, alloc, tag, buf, ctx),
            _ => unknown::keep(alloc, &mut self.unknown_fields, tag, buf, ctx),
        }
    }
}

impl Blank for FieldMask {
    type Meaning = <FieldMask as MessageFields>::Meaning;

    ghost meaning = { ⟦<FieldMask as MessageFields>⟧.schema.meaning };

    ghost blank_is = { ⟦<FieldMask as MessageFields>⟧.schema.blank };

    fn blank(alloc: Global) -> FieldMask {
        FieldMask {
            paths: Vec::new(alloc),
            unknown_fields: UnknownFields::new(alloc),
        }
    }
}

impl FieldsMeaning for FieldMask {
    ghost means = { λ m. refl };

    ghost starts = { refl };
}

impl MessageImpl for FieldMask {
    type Impl = FieldByField;
}

const _: () = prove!(size_of::<FieldMask>() <= FieldMask::COST);

impl NamedMessage for FieldMask {
    ghost use Rattle.std.specs.Prelude.{codes};

    ghost name = { codes "google.protobuf.FieldMask" };

    fn full_name() -> &'static str {
        Self::FULL_NAME
    }
}

impl FieldMask {
    /// The full name of the message.
    pub const FULL_NAME: &'static str = "google.protobuf.FieldMask";
}
