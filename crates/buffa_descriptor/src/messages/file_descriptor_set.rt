//! google.protobuf.FileDescriptorSet, made of descriptor.proto by protoc-gen-buffa.

ghost use Rattle.std.proofs.Common.{lit<, refl};
ghost use Rattle.buffa_fields.specs.Terms.{field, keep_unknown};

use crate::messages::file_descriptor_proto::FileDescriptorProto;
use buffa_fields::{
    And, Blank, DecodeContext, DecodeError, FieldByField, FieldsMeaning, Member, MessageFields,
    MessageImpl, RepeatedMessageField, Tag, UnknownFields, Unknowns, Visitor, unknown,
};
use std::alloc::Global;

/// Some .proto files, as protoc writes them with --descriptor_set_out.
///
/// message FileDescriptorSet {
///     repeated FileDescriptorProto file = 1;
/// }
#[derive(Debug, Drop)]
pub struct FileDescriptorSet {
    /// The files. One that is imported stands before those that import it.
    pub file: Vec<FileDescriptorProto>,
    /// The fields that aren't declared, in order.
    pub unknown_fields: UnknownFields,
}

impl MessageFields for FileDescriptorSet {
    type Meaning = And<[<FileDescriptorProto as Blank>::Meaning; 0], Unknowns>;

    const COST: usize = 48;

    ghost COST = { 48 };

    ghost positive = { lit< tt };

    ghost schema = { field 1 (λ m. m.file) ⟦<RepeatedMessageField<FileDescriptorProto> as Member>⟧.shape (
        keep_unknown (λ m. m.unknown_fields.records)) };

    ghost sound = { refl };

    fn visit<V: Visitor>(&self, visitor: &mut V) {
        visitor.visit::<RepeatedMessageField<FileDescriptorProto>>(1, &self.file);
        visitor.visit_unknown_fields(&self.unknown_fields);
    }

    fn take(
        &mut self,
        alloc: Global,
        tag: Tag,
        buf: &mut &[u8],
        ctx: DecodeContext<'_>,
    ) -> Result<(), DecodeError> {
        match tag.field_number() {
            1 => RepeatedMessageField::<FileDescriptorProto>::merge(
                &mut self.file,
                alloc,
                tag,
                buf,
                ctx,
            ),
            _ => unknown::keep(alloc, &mut self.unknown_fields, tag, buf, ctx),
        }
    }
}

impl Blank for FileDescriptorSet {
    type Meaning = <FileDescriptorSet as MessageFields>::Meaning;

    ghost meaning = { ⟦<FileDescriptorSet as MessageFields>⟧.schema.meaning };

    ghost blank_is = { ⟦<FileDescriptorSet as MessageFields>⟧.schema.blank };

    fn blank(alloc: Global) -> FileDescriptorSet {
        FileDescriptorSet {
            file: Vec::new(alloc),
            unknown_fields: UnknownFields::new(alloc),
        }
    }
}

impl FieldsMeaning for FileDescriptorSet {
    ghost means = { λ m. refl };

    ghost starts = { refl };
}

impl MessageImpl for FileDescriptorSet {
    type Impl = FieldByField;
}

const _: () = prove!(size_of::<FileDescriptorSet>() <= FileDescriptorSet::COST);

impl FileDescriptorSet {
    /// The full name of the message.
    pub const FULL_NAME: &'static str = "google.protobuf.FileDescriptorSet";
}
