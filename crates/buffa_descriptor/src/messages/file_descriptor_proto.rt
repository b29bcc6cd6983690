//! google.protobuf.FileDescriptorProto, made of descriptor.proto by protoc-gen-buffa.

ghost use Rattle.std.proofs.Common.{lit<, refl};
ghost use Rattle.buffa_fields.specs.Terms.{field, keep_unknown};

use crate::messages::descriptor_proto::DescriptorProto;
use crate::messages::enum_descriptor_proto::EnumDescriptorProto;
use crate::messages::field_descriptor_proto::FieldDescriptorProto;
use crate::messages::file_options::FileOptions;
use crate::messages::service_descriptor_proto::ServiceDescriptorProto;
use crate::messages::source_code_info::SourceCodeInfo;
use buffa_fields::map_codec::{Int32, Str};
use buffa_fields::{
    And13, Blank, DecodeContext, DecodeError, ExplicitField, FieldByField, FieldsMeaning, Member,
    MessageField, MessageFields, MessageImpl, RepeatedField, RepeatedMessageField, Tag,
    UnknownFields, Unknowns, Visitor, unknown,
};
use std::alloc::Global;
use std::string::String;

/// A .proto file.
///
/// message FileDescriptorProto {
///     optional string name = 1;
///     optional string package = 2;
///     repeated string dependency = 3;
///     repeated DescriptorProto message_type = 4;
///     repeated EnumDescriptorProto enum_type = 5;
///     repeated ServiceDescriptorProto service = 6;
///     repeated FieldDescriptorProto extension = 7;
///     optional FileOptions options = 8;
///     optional SourceCodeInfo source_code_info = 9;
///     repeated int32 public_dependency = 10;
///     repeated int32 weak_dependency = 11;
///     optional string syntax = 12;
/// }
#[derive(Debug, Drop)]
pub struct FileDescriptorProto {
    /// Its name, from the folder in which protoc looks for imports.
    pub name: Option<String>,
    /// Its package, without a dot in front.
    pub package: Option<String>,
    /// The names of the files that it imports.
    pub dependency: Vec<String>,
    /// The message types that stand in no other one.
    pub message_type: Vec<DescriptorProto>,
    /// The enums that stand in no message.
    pub enum_type: Vec<EnumDescriptorProto>,
    /// The services.
    pub service: Vec<ServiceDescriptorProto>,
    /// The extensions that stand in no message.
    pub extension: Vec<FieldDescriptorProto>,
    /// The options of the file.
    pub options: Option<FileOptions>,
    /// Where in the text each declaration stands, where protoc was asked for it with --include_source_info.
    pub source_code_info: Option<SourceCodeInfo>,
    /// Which of `dependency` are public imports, counted from 0.
    pub public_dependency: Vec<i32>,
    /// Which of `dependency` are weak imports, counted from 0.
    pub weak_dependency: Vec<i32>,
    /// `proto2` or `proto3`; protoc leaves it out for `proto2`.
    pub syntax: Option<String>,
    /// The fields that aren't declared, in order.
    pub unknown_fields: UnknownFields,
}

impl MessageFields for FileDescriptorProto {
    type Meaning = And13<
        Option<[u8; 0]>,
        Option<[u8; 0]>,
        [[u8; 0]; 0],
        [<DescriptorProto as Blank>::Meaning; 0],
        [<EnumDescriptorProto as Blank>::Meaning; 0],
        [<ServiceDescriptorProto as Blank>::Meaning; 0],
        [<FieldDescriptorProto as Blank>::Meaning; 0],
        Option<<FileOptions as Blank>::Meaning>,
        Option<<SourceCodeInfo as Blank>::Meaning>,
        [i32; 0],
        [i32; 0],
        Option<[u8; 0]>,
        Unknowns,
    >;

    const COST: usize = 376;

    ghost COST = { 376 };

    ghost positive = { lit< tt };

    ghost schema = { field 1 (λ m. m.name) ⟦<ExplicitField<Str> as Member>⟧.shape (
        field 2 (λ m. m.«package») ⟦<ExplicitField<Str> as Member>⟧.shape (
        field 3 (λ m. m.dependency) ⟦<RepeatedField<Str> as Member>⟧.shape (
        field 4 (λ m. m.message_type) ⟦<RepeatedMessageField<DescriptorProto> as Member>⟧.shape (
        field 5 (λ m. m.enum_type) ⟦<RepeatedMessageField<EnumDescriptorProto> as Member>⟧.shape (
        field 6 (λ m. m.service) ⟦<RepeatedMessageField<ServiceDescriptorProto> as Member>⟧.shape (
        field 7 (λ m. m.extension) ⟦<RepeatedMessageField<FieldDescriptorProto> as Member>⟧.shape (
        field 8 (λ m. m.options) ⟦<MessageField<FileOptions> as Member>⟧.shape (
        field 9 (λ m. m.source_code_info) ⟦<MessageField<SourceCodeInfo> as Member>⟧.shape (
        field 10 (λ m. m.public_dependency) ⟦<RepeatedField<Int32> as Member>⟧.shape (
        field 11 (λ m. m.weak_dependency) ⟦<RepeatedField<Int32> as Member>⟧.shape (
        field 12 (λ m. m.syntax) ⟦<ExplicitField<Str> as Member>⟧.shape (
        keep_unknown (λ m. m.unknown_fields.records))))))))))))) };

    ghost sound = { refl };

    fn visit<V: Visitor>(&self, visitor: &mut V) {
        visitor.visit::<ExplicitField<Str>>(1, &self.name);
        visitor.visit::<ExplicitField<Str>>(2, &self.package);
        visitor.visit::<RepeatedField<Str>>(3, &self.dependency);
        visitor.visit::<RepeatedMessageField<DescriptorProto>>(4, &self.message_type);
        visitor.visit::<RepeatedMessageField<EnumDescriptorProto>>(5, &self.enum_type);
        visitor.visit::<RepeatedMessageField<ServiceDescriptorProto>>(6, &self.service);
        visitor.visit::<RepeatedMessageField<FieldDescriptorProto>>(7, &self.extension);
        visitor.visit::<MessageField<FileOptions>>(8, &self.options);
        visitor.visit::<MessageField<SourceCodeInfo>>(9, &self.source_code_info);
        visitor.visit::<RepeatedField<Int32>>(10, &self.public_dependency);
        visitor.visit::<RepeatedField<Int32>>(11, &self.weak_dependency);
        visitor.visit::<ExplicitField<Str>>(12, &self.syntax);
        visitor.visit_unknown_fields(&self.unknown_fields);
    }

    fn take(
        &mut self,
        alloc: Global,
        tag: Tag,
        buf: &mut &[u8],
        ctx: DecodeContext<'_>,
    ) -> Result<(), DecodeError> {
        match tag.field_number() {
            1 => ExplicitField::<Str>::merge(&mut self.name, alloc, tag, buf, ctx),
            2 => ExplicitField::<Str>::merge(&mut self.package, alloc, tag, buf, ctx),
            3 => RepeatedField::<Str>::merge(&mut self.dependency, alloc, tag, buf, ctx),
            4 => RepeatedMessageField::<DescriptorProto>::merge(
                &mut self.message_type,
                alloc,
                tag,
                buf,
                ctx,
            ),
            5 => RepeatedMessageField::<EnumDescriptorProto>::merge(
                &mut self.enum_type,
                alloc,
                tag,
                buf,
                ctx,
            ),
            6 => RepeatedMessageField::<ServiceDescriptorProto>::merge(
                &mut self.service,
                alloc,
                tag,
                buf,
                ctx,
            ),
            7 => RepeatedMessageField::<FieldDescriptorProto>::merge(
                &mut self.extension,
                alloc,
                tag,
                buf,
                ctx,
            ),
            8 => MessageField::<FileOptions>::merge(&mut self.options, alloc, tag, buf, ctx),
            9 => MessageField::<SourceCodeInfo>::merge(
                &mut self.source_code_info,
                alloc,
                tag,
                buf,
                ctx,
            ),
            10 => RepeatedField::<Int32>::merge(&mut self.public_dependency, alloc, tag, buf, ctx),
            11 => RepeatedField::<Int32>::merge(&mut self.weak_dependency, alloc, tag, buf, ctx),
            12 => ExplicitField::<Str>::merge(&mut self.syntax, alloc, tag, buf, ctx),
            _ => unknown::keep(alloc, &mut self.unknown_fields, tag, buf, ctx),
        }
    }
}

impl Blank for FileDescriptorProto {
    type Meaning = <FileDescriptorProto as MessageFields>::Meaning;

    ghost meaning = { ⟦<FileDescriptorProto as MessageFields>⟧.schema.meaning };

    ghost blank_is = { ⟦<FileDescriptorProto as MessageFields>⟧.schema.blank };

    fn blank(alloc: Global) -> FileDescriptorProto {
        FileDescriptorProto {
            name: None,
            package: None,
            dependency: Vec::new(alloc),
            message_type: Vec::new(alloc),
            enum_type: Vec::new(alloc),
            service: Vec::new(alloc),
            extension: Vec::new(alloc),
            options: None,
            source_code_info: None,
            public_dependency: Vec::new(alloc),
            weak_dependency: Vec::new(alloc),
            syntax: None,
            unknown_fields: UnknownFields::new(alloc),
        }
    }
}

impl FieldsMeaning for FileDescriptorProto {
    ghost means = { λ m. refl };

    ghost starts = { refl };
}

impl MessageImpl for FileDescriptorProto {
    type Impl = FieldByField;
}

const _: () = prove!(size_of::<FileDescriptorProto>() <= FileDescriptorProto::COST);

impl FileDescriptorProto {
    ghost use Rattle.std.specs.Prelude.{[], option_map, string_bytes, unwrap_or, ◌≡◌};

    /// The full name of the message.
    pub const FULL_NAME: &'static str = "google.protobuf.FileDescriptorProto";

    /// `name`, or the default of its type where it isn't there: empty.
    pub fn name(&self) -> &str
        ensures is { result.now ≡ unwrap_or (option_map string_bytes self.now.name) [] }
    {
        match &self.name {
            Some(it) => it.as_str(),
            None => "",
        }
    }

    /// `package`, or the default of its type where it isn't there: empty.
    pub fn package(&self) -> &str
        ensures is { result.now ≡ unwrap_or (option_map string_bytes self.now.«package») [] }
    {
        match &self.package {
            Some(it) => it.as_str(),
            None => "",
        }
    }

    /// `syntax`, or the default of its type where it isn't there: empty.
    pub fn syntax(&self) -> &str
        ensures is { result.now ≡ unwrap_or (option_map string_bytes self.now.syntax) [] }
    {
        match &self.syntax {
            Some(it) => it.as_str(),
            None => "",
        }
    }
}
