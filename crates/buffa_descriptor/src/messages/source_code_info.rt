//! google.protobuf.SourceCodeInfo, made of descriptor.proto by protoc-gen-buffa.

ghost use Rattle.std.proofs.Common.{lit<, refl};
ghost use Rattle.buffa_fields.specs.Terms.{field, keep_unknown};

use crate::messages::source_code_info_location::SourceCodeInfoLocation;
use buffa_fields::{
    And, Blank, DecodeContext, DecodeError, FieldByField, FieldsMeaning, Member, MessageFields,
    MessageImpl, RepeatedMessageField, Tag, UnknownFields, Unknowns, Visitor, unknown,
};
use std::alloc::Global;

/// Where in the text of a file each declaration stands.
///
/// message SourceCodeInfo {
///     repeated Location location = 1;
/// }
#[derive(Debug, Drop)]
pub struct SourceCodeInfo {
    /// The places.
    pub location: Vec<SourceCodeInfoLocation>,
    /// The fields that aren't declared, in order.
    pub unknown_fields: UnknownFields,
}

impl MessageFields for SourceCodeInfo {
    type Meaning = And<[<SourceCodeInfoLocation as Blank>::Meaning; 0], Unknowns>;

    const COST: usize = 48;

    ghost COST = { 48 };

    ghost positive = { lit< tt };

    ghost schema = { field 1 (λ m. m.location) ⟦<RepeatedMessageField<SourceCodeInfoLocation> as Member>⟧.shape (
        keep_unknown (λ m. m.unknown_fields.records)) };

    ghost sound = { refl };

    fn visit<V: Visitor>(&self, visitor: &mut V) {
        visitor.visit::<RepeatedMessageField<SourceCodeInfoLocation>>(1, &self.location);
        visitor.visit_unknown_fields(&self.unknown_fields);
    }

    fn take(
        &mut self,
        alloc: Global,
        tag: Tag,
        buf: &mut &[u8],
        ctx: DecodeContext<'_>,
    ) -> Result<(), DecodeError> {
        match tag.field_number() {
            1 => RepeatedMessageField::<SourceCodeInfoLocation>::merge(
                &mut self.location,
                alloc,
                tag,
                buf,
                ctx,
            ),
            _ => unknown::keep(alloc, &mut self.unknown_fields, tag, buf, ctx),
        }
    }
}

impl Blank for SourceCodeInfo {
    type Meaning = <SourceCodeInfo as MessageFields>::Meaning;

    ghost meaning = { ⟦<SourceCodeInfo as MessageFields>⟧.schema.meaning };

    ghost blank_is = { ⟦<SourceCodeInfo as MessageFields>⟧.schema.blank };

    fn blank(alloc: Global) -> SourceCodeInfo {
        SourceCodeInfo {
            location: Vec::new(alloc),
            unknown_fields: UnknownFields::new(alloc),
        }
    }
}

impl FieldsMeaning for SourceCodeInfo {
    ghost means = { λ m. refl };

    ghost starts = { refl };
}

impl MessageImpl for SourceCodeInfo {
    type Impl = FieldByField;
}

const _: () = prove!(size_of::<SourceCodeInfo>() <= SourceCodeInfo::COST);

impl SourceCodeInfo {
    /// The full name of the message.
    pub const FULL_NAME: &'static str = "google.protobuf.SourceCodeInfo";
}
