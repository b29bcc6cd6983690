//! google.protobuf.DescriptorProto, made of descriptor.proto by protoc-gen-buffa.

ghost use Rattle.std.proofs.Common.{lit<, refl};
ghost use Rattle.buffa_recursive.specs.Terms.{keeps_unknown, list_inside, member, recursive_message, rest_of};

use crate::messages::descriptor_proto_extension_range::DescriptorProtoExtensionRange;
use crate::messages::descriptor_proto_reserved_range::DescriptorProtoReservedRange;
use crate::messages::enum_descriptor_proto::EnumDescriptorProto;
use crate::messages::field_descriptor_proto::FieldDescriptorProto;
use crate::messages::message_options::MessageOptions;
use crate::messages::oneof_descriptor_proto::OneofDescriptorProto;
use buffa_fields::map_codec::Str;
use buffa_fields::{
    Blank, DecodeContext, DecodeError, ExplicitField, Member, MessageField, MessageImpl,
    RepeatedField, RepeatedMessageField, Tag, UnknownFields, unknown,
};
use buffa_recursive::{
    InnerMerger, RecursiveFieldByField, RecursiveFields, RecursiveMeaning, RecursiveType,
    RecursiveVisitor, take_list,
};
use std::alloc::Global;
use std::marker::Model;
use std::string::String;

/// A message type.
///
/// message DescriptorProto {
///     optional string name = 1;
///     repeated FieldDescriptorProto field = 2;
///     repeated DescriptorProto nested_type = 3;
///     repeated EnumDescriptorProto enum_type = 4;
///     repeated ExtensionRange extension_range = 5;
///     repeated FieldDescriptorProto extension = 6;
///     optional MessageOptions options = 7;
///     repeated OneofDescriptorProto oneof_decl = 8;
///     repeated ReservedRange reserved_range = 9;
///     repeated string reserved_name = 10;
/// }
#[derive(Debug, Drop)]
pub struct DescriptorProto {
    /// Its name, without the package and the messages around it.
    pub name: Option<String>,
    /// Its fields, in the order of the text.
    pub field: Vec<FieldDescriptorProto>,
    /// The message types that stand in it. Those of maps' entries, and of groups, are among them.
    pub nested_type: Vec<DescriptorProto>,
    /// The enums that stand in it.
    pub enum_type: Vec<EnumDescriptorProto>,
    /// The ranges of numbers that are for extensions.
    pub extension_range: Vec<DescriptorProtoExtensionRange>,
    /// The extensions that stand in it. Which messages they extend, they say themselves.
    pub extension: Vec<FieldDescriptorProto>,
    /// The options of the message.
    pub options: Option<MessageOptions>,
    /// Its oneofs.
    pub oneof_decl: Vec<OneofDescriptorProto>,
    /// The ranges of numbers that no field may have.
    pub reserved_range: Vec<DescriptorProtoReservedRange>,
    /// The names that no field may have.
    pub reserved_name: Vec<String>,
    /// The fields that aren't declared, in order.
    pub unknown_fields: UnknownFields,
}

impl Model for DescriptorProto {
    ghost use Rattle.std.specs.Coded.{codes};
    ghost use Rattle.std.specs.Prelude.{List, Option, ℕ};
    ghost use Rattle.std.proofs.Common.{arith};
    ghost use Rattle.buffa_fields.specs.Terms.{FieldData, coded_field_data};
    ghost use Rattle.buffa_recursive.specs.Terms.{MeaningOf, MessageTree, coded_tree, has, has_list, has_unknown_fields, most-of_list, tree_height, tree_of};

    ghost Value = { MessageTree (
        Option (List ℕ) × (
        MeaningOf ⟦<RepeatedMessageField<FieldDescriptorProto> as Member>⟧.shape × (
        MeaningOf ⟦<RepeatedMessageField<EnumDescriptorProto> as Member>⟧.shape × (
        MeaningOf ⟦<RepeatedMessageField<DescriptorProtoExtensionRange> as Member>⟧.shape × (
        MeaningOf ⟦<RepeatedMessageField<FieldDescriptorProto> as Member>⟧.shape × (
        MeaningOf ⟦<MessageField<MessageOptions> as Member>⟧.shape × (
        MeaningOf ⟦<RepeatedMessageField<OneofDescriptorProto> as Member>⟧.shape × (
        MeaningOf ⟦<RepeatedMessageField<DescriptorProtoReservedRange> as Member>⟧.shape × (
        List (List ℕ) × List (ℕ × FieldData)))))))))) };

    ghost coded = { Prim.hlevel (codes, coded_field_data, coded_tree) };

    ghost view = { λ m. tree_of (
        has (⟦<ExplicitField<Str> as Member>⟧.shape.meaning m.name) (
        has (⟦<RepeatedMessageField<FieldDescriptorProto> as Member>⟧.shape.meaning m.field) (
        has_list m.nested_type.items (
        has (⟦<RepeatedMessageField<EnumDescriptorProto> as Member>⟧.shape.meaning m.enum_type) (
        has (⟦<RepeatedMessageField<DescriptorProtoExtensionRange> as Member>⟧.shape.meaning m.extension_range) (
        has (⟦<RepeatedMessageField<FieldDescriptorProto> as Member>⟧.shape.meaning m.extension) (
        has (⟦<MessageField<MessageOptions> as Member>⟧.shape.meaning m.options) (
        has (⟦<RepeatedMessageField<OneofDescriptorProto> as Member>⟧.shape.meaning m.oneof_decl) (
        has (⟦<RepeatedMessageField<DescriptorProtoReservedRange> as Member>⟧.shape.meaning m.reserved_range) (
        has (⟦<RepeatedField<Str> as Member>⟧.shape.meaning m.reserved_name) (has_unknown_fields m.unknown_fields.records))))))))))) };

    ghost size = { tree_height };

    ghost size_decreases = { λ m h. Prim.grind (arith, most-of_list m.nested_type.items) };
}

impl RecursiveType for DescriptorProto {
    const COST: usize = 280;

    ghost COST = { 280 };

    ghost positive = { lit< tt };

    ghost schema = { recursive_message (
        member 1 ⟦<ExplicitField<Str> as Member>⟧.shape (
        member 2 ⟦<RepeatedMessageField<FieldDescriptorProto> as Member>⟧.shape (
        list_inside 3 (
        member 4 ⟦<RepeatedMessageField<EnumDescriptorProto> as Member>⟧.shape (
        member 5 ⟦<RepeatedMessageField<DescriptorProtoExtensionRange> as Member>⟧.shape (
        member 6 ⟦<RepeatedMessageField<FieldDescriptorProto> as Member>⟧.shape (
        member 7 ⟦<MessageField<MessageOptions> as Member>⟧.shape (
        member 8 ⟦<RepeatedMessageField<OneofDescriptorProto> as Member>⟧.shape (
        member 9 ⟦<RepeatedMessageField<DescriptorProtoReservedRange> as Member>⟧.shape (
        member 10 ⟦<RepeatedField<Str> as Member>⟧.shape keeps_unknown)))))))))) };

    ghost sound = { λ w. refl };
}

impl RecursiveFields for DescriptorProto {
    fn visit<V: RecursiveVisitor<DescriptorProto>>(&self, visitor: &mut V) {
        visitor.visit::<ExplicitField<Str>>(1, &self.name);
        visitor.visit::<RepeatedMessageField<FieldDescriptorProto>>(2, &self.field);
        visitor.visit_list(3, &self.nested_type);
        visitor.visit::<RepeatedMessageField<EnumDescriptorProto>>(4, &self.enum_type);
        visitor.visit::<RepeatedMessageField<DescriptorProtoExtensionRange>>(
            5,
            &self.extension_range,
        );
        visitor.visit::<RepeatedMessageField<FieldDescriptorProto>>(6, &self.extension);
        visitor.visit::<MessageField<MessageOptions>>(7, &self.options);
        visitor.visit::<RepeatedMessageField<OneofDescriptorProto>>(8, &self.oneof_decl);
        visitor.visit::<RepeatedMessageField<DescriptorProtoReservedRange>>(
            9,
            &self.reserved_range,
        );
        visitor.visit::<RepeatedField<Str>>(10, &self.reserved_name);
        visitor.visit_unknown_fields(&self.unknown_fields);
    }

    fn take<I: InnerMerger<DescriptorProto>>(
        &mut self,
        alloc: Global,
        tag: Tag,
        buf: &mut &[u8],
        ctx: DecodeContext<'_>,
        inner: &I,
    ) -> Result<(), DecodeError> {
        match tag.field_number() {
            1 => ExplicitField::<Str>::merge(&mut self.name, alloc, tag, buf, ctx),
            2 => RepeatedMessageField::<FieldDescriptorProto>::merge(
                &mut self.field,
                alloc,
                tag,
                buf,
                ctx,
            ),
            3 => take_list(&mut self.nested_type, alloc, tag, buf, ctx, inner),
            4 => RepeatedMessageField::<EnumDescriptorProto>::merge(
                &mut self.enum_type,
                alloc,
                tag,
                buf,
                ctx,
            ),
            5 => RepeatedMessageField::<DescriptorProtoExtensionRange>::merge(
                &mut self.extension_range,
                alloc,
                tag,
                buf,
                ctx,
            ),
            6 => RepeatedMessageField::<FieldDescriptorProto>::merge(
                &mut self.extension,
                alloc,
                tag,
                buf,
                ctx,
            ),
            7 => MessageField::<MessageOptions>::merge(&mut self.options, alloc, tag, buf, ctx),
            8 => RepeatedMessageField::<OneofDescriptorProto>::merge(
                &mut self.oneof_decl,
                alloc,
                tag,
                buf,
                ctx,
            ),
            9 => RepeatedMessageField::<DescriptorProtoReservedRange>::merge(
                &mut self.reserved_range,
                alloc,
                tag,
                buf,
                ctx,
            ),
            10 => RepeatedField::<Str>::merge(&mut self.reserved_name, alloc, tag, buf, ctx),
            _ => unknown::keep(alloc, &mut self.unknown_fields, tag, buf, ctx),
        }
    }
}

impl Blank for DescriptorProto {
    type Meaning = DescriptorProto;

    ghost meaning = { λ m. m };

    ghost blank_is = { ⟦<DescriptorProto as RecursiveType>⟧.schema.into ⟦<DescriptorProto as RecursiveType>⟧.schema.blank };

    fn blank(alloc: Global) -> DescriptorProto {
        DescriptorProto {
            name: None,
            field: Vec::new(alloc),
            nested_type: Vec::new(alloc),
            enum_type: Vec::new(alloc),
            extension_range: Vec::new(alloc),
            extension: Vec::new(alloc),
            options: None,
            oneof_decl: Vec::new(alloc),
            reserved_range: Vec::new(alloc),
            reserved_name: Vec::new(alloc),
            unknown_fields: UnknownFields::new(alloc),
        }
    }
}

impl RecursiveMeaning for DescriptorProto {
    ghost means = { λ m. refl };

    ghost starts = { refl };
}

impl MessageImpl for DescriptorProto {
    type Impl = RecursiveFieldByField;
}

const _: () = prove!(size_of::<DescriptorProto>() <= DescriptorProto::COST);

impl DescriptorProto {
    ghost use Rattle.std.specs.Prelude.{[], unwrap_or, ◌≡◌};

    /// The full name of the message.
    pub const FULL_NAME: &'static str = "google.protobuf.DescriptorProto";

    /// `name`, or the default of its type where it isn't there: empty.
    pub fn name(&self) -> &str
        ensures is { result.now ≡ unwrap_or (rest_of self.now).0.0 [] }
    {
        match &self.name {
            Some(it) => it.as_str(),
            None => "",
        }
    }
}
