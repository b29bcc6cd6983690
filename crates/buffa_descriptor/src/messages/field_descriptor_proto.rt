//! google.protobuf.FieldDescriptorProto, made of descriptor.proto by protoc-gen-buffa.

ghost use Rattle.std.proofs.Common.{lit<, refl};
ghost use Rattle.buffa_fields.specs.Terms.{field, field_with_unknowns, keep_unknown};

use crate::messages::field_descriptor_proto_label::FieldDescriptorProtoLabel;
use crate::messages::field_descriptor_proto_type::FieldDescriptorProtoType;
use crate::messages::field_options::FieldOptions;
use buffa_fields::map_codec::{Bool, ClosedEnum, Int32, Str};
use buffa_fields::{
    And12, Blank, DecodeContext, DecodeError, ExplicitField, FieldByField, FieldsMeaning,
    KeepsUnknowns, Member, MessageField, MessageFields, MessageImpl, Tag, UnknownFields, Unknowns,
    Visitor, unknown,
};
use std::alloc::Global;
use std::string::String;

/// A field of a message, or an extension.
///
/// message FieldDescriptorProto {
///     optional string name = 1;
///     optional string extendee = 2;
///     optional int32 number = 3;
///     optional Label label = 4;
///     optional Type type = 5;
///     optional string type_name = 6;
///     optional string default_value = 7;
///     optional FieldOptions options = 8;
///     optional int32 oneof_index = 9;
///     optional string json_name = 10;
///     optional bool proto3_optional = 17;
/// }
#[derive(Debug, Drop)]
pub struct FieldDescriptorProto {
    /// Its name.
    pub name: Option<String>,
    /// Of an extension, the message that it extends: the full name with a dot in front.
    pub extendee: Option<String>,
    /// Its number, 1 to 536,870,911.
    pub number: Option<i32>,
    /// How often it may stand in a message.
    pub label: Option<FieldDescriptorProtoLabel>,
    /// Its type. A map is a repeated message.
    pub type_: Option<FieldDescriptorProtoType>,
    /// Of a message, a group or an enum, which one: the full name with a dot in front.
    pub type_name: Option<String>,
    /// The default that the text says: a number in decimal, `true` or `false`, the name of an enum's value, a
    /// string as it is, bytes with escapes as in C.
    pub default_value: Option<String>,
    /// The options of the field.
    pub options: Option<FieldOptions>,
    /// Of a field in a oneof, which one of the message's `oneof_decl`, counted from 0.
    pub oneof_index: Option<i32>,
    /// Its name in JSON.
    pub json_name: Option<String>,
    /// Whether it is `optional` in a file of proto3; such a field has a oneof of its own.
    pub proto3_optional: Option<bool>,
    /// The fields that aren't declared, in order.
    pub unknown_fields: UnknownFields,
}

impl MessageFields for FieldDescriptorProto {
    type Meaning = And12<
        Option<[u8; 0]>,
        Option<[u8; 0]>,
        Option<i32>,
        Option<i32>,
        Option<i32>,
        Option<[u8; 0]>,
        Option<[u8; 0]>,
        Option<<FieldOptions as Blank>::Meaning>,
        Option<i32>,
        Option<[u8; 0]>,
        Option<bool>,
        Unknowns,
    >;

    const COST: usize = 296;

    ghost COST = { 296 };

    ghost positive = { lit< tt };

    ghost schema = { field 1 (λ m. m.name) ⟦<ExplicitField<Str> as Member>⟧.shape (
        field 2 (λ m. m.extendee) ⟦<ExplicitField<Str> as Member>⟧.shape (
        field 3 (λ m. m.number) ⟦<ExplicitField<Int32> as Member>⟧.shape (
        field_with_unknowns 4 (λ m. m.label) ⟦<ExplicitField<ClosedEnum<FieldDescriptorProtoLabel>> as Member>⟧.shape
        ⟦<ExplicitField<ClosedEnum<FieldDescriptorProtoLabel>> as KeepsUnknowns>⟧.unknowns (
        field_with_unknowns 5 (λ m. m.type_) ⟦<ExplicitField<ClosedEnum<FieldDescriptorProtoType>> as Member>⟧.shape
        ⟦<ExplicitField<ClosedEnum<FieldDescriptorProtoType>> as KeepsUnknowns>⟧.unknowns (
        field 6 (λ m. m.type_name) ⟦<ExplicitField<Str> as Member>⟧.shape (
        field 7 (λ m. m.default_value) ⟦<ExplicitField<Str> as Member>⟧.shape (
        field 8 (λ m. m.options) ⟦<MessageField<FieldOptions> as Member>⟧.shape (
        field 9 (λ m. m.oneof_index) ⟦<ExplicitField<Int32> as Member>⟧.shape (
        field 10 (λ m. m.json_name) ⟦<ExplicitField<Str> as Member>⟧.shape (
        field 17 (λ m. m.proto3_optional) ⟦<ExplicitField<Bool> as Member>⟧.shape (
        keep_unknown (λ m. m.unknown_fields.records)))))))))))) };

    ghost sound = { refl };

    fn visit<V: Visitor>(&self, visitor: &mut V) {
        visitor.visit::<ExplicitField<Str>>(1, &self.name);
        visitor.visit::<ExplicitField<Str>>(2, &self.extendee);
        visitor.visit::<ExplicitField<Int32>>(3, &self.number);
        visitor.visit_with_unknowns::<ExplicitField<ClosedEnum<FieldDescriptorProtoLabel>>>(
            4,
            &self.label,
        );
        visitor.visit_with_unknowns::<ExplicitField<ClosedEnum<FieldDescriptorProtoType>>>(
            5,
            &self.type_,
        );
        visitor.visit::<ExplicitField<Str>>(6, &self.type_name);
        visitor.visit::<ExplicitField<Str>>(7, &self.default_value);
        visitor.visit::<MessageField<FieldOptions>>(8, &self.options);
        visitor.visit::<ExplicitField<Int32>>(9, &self.oneof_index);
        visitor.visit::<ExplicitField<Str>>(10, &self.json_name);
        visitor.visit::<ExplicitField<Bool>>(17, &self.proto3_optional);
        visitor.visit_unknown_fields(&self.unknown_fields);
    }

    fn take(
        &mut self,
        alloc: Global,
        tag: Tag,
        buf: &mut &[u8],
        ctx: DecodeContext<'_>,
    ) -> Result<(), DecodeError> {
        match tag.field_number() {
            1 => ExplicitField::<Str>::merge(&mut self.name, alloc, tag, buf, ctx),
            2 => ExplicitField::<Str>::merge(&mut self.extendee, alloc, tag, buf, ctx),
            3 => ExplicitField::<Int32>::merge(&mut self.number, alloc, tag, buf, ctx),
            4 => ExplicitField::<ClosedEnum<FieldDescriptorProtoLabel>>::merge_with_unknowns(
                &mut self.label,
                &mut self.unknown_fields,
                alloc,
                tag,
                buf,
                ctx,
            ),
            5 => ExplicitField::<ClosedEnum<FieldDescriptorProtoType>>::merge_with_unknowns(
                &mut self.type_,
                &mut self.unknown_fields,
                alloc,
                tag,
                buf,
                ctx,
            ),
            6 => ExplicitField::<Str>::merge(&mut self.type_name, alloc, tag, buf, ctx),
            7 => ExplicitField::<Str>::merge(&mut self.default_value, alloc, tag, buf, ctx),
            8 => MessageField::<FieldOptions>::merge(&mut self.options, alloc, tag, buf, ctx),
            9 => ExplicitField::<Int32>::merge(&mut self.oneof_index, alloc, tag, buf, ctx),
            10 => ExplicitField::<Str>::merge(&mut self.json_name, alloc, tag, buf, ctx),
            17 => ExplicitField::<Bool>::merge(&mut self.proto3_optional, alloc, tag, buf, ctx),
            _ => unknown::keep(alloc, &mut self.unknown_fields, tag, buf, ctx),
        }
    }
}

impl Blank for FieldDescriptorProto {
    type Meaning = <FieldDescriptorProto as MessageFields>::Meaning;

    ghost meaning = { ⟦<FieldDescriptorProto as MessageFields>⟧.schema.meaning };

    ghost blank_is = { ⟦<FieldDescriptorProto as MessageFields>⟧.schema.blank };

    fn blank(alloc: Global) -> FieldDescriptorProto {
        FieldDescriptorProto {
            name: None,
            extendee: None,
            number: None,
            label: None,
            type_: None,
            type_name: None,
            default_value: None,
            options: None,
            oneof_index: None,
            json_name: None,
            proto3_optional: None,
            unknown_fields: UnknownFields::new(alloc),
        }
    }
}

impl FieldsMeaning for FieldDescriptorProto {
    ghost means = { λ m. refl };

    ghost starts = { refl };
}

impl MessageImpl for FieldDescriptorProto {
    type Impl = FieldByField;
}

const _: () = prove!(size_of::<FieldDescriptorProto>() <= FieldDescriptorProto::COST);

impl FieldDescriptorProto {
    ghost use Rattle.std.specs.Prelude.{[], false, option_map, pos, string_bytes, unwrap_or, ◌≡◌};
    ghost use Rattle.buffa_descriptor.specs.declared.messages.field_descriptor_proto_label.FieldDescriptorProtoLabel.TheVariants.{Optional};
    ghost use Rattle.buffa_descriptor.specs.declared.messages.field_descriptor_proto_type.FieldDescriptorProtoType.TheVariants.{Double as DoubleOfFieldDescriptorProtoType};

    /// The full name of the message.
    pub const FULL_NAME: &'static str = "google.protobuf.FieldDescriptorProto";

    /// `name`, or the default of its type where it isn't there: empty.
    pub fn name(&self) -> &str
        ensures is { result.now ≡ unwrap_or (option_map string_bytes self.now.name) [] }
    {
        match &self.name {
            Some(it) => it.as_str(),
            None => "",
        }
    }

    /// `extendee`, or the default of its type where it isn't there: empty.
    pub fn extendee(&self) -> &str
        ensures is { result.now ≡ unwrap_or (option_map string_bytes self.now.extendee) [] }
    {
        match &self.extendee {
            Some(it) => it.as_str(),
            None => "",
        }
    }

    /// `number`, or the default of its type where it isn't there: 0.
    pub fn number(&self) -> i32
        ensures is { result ≡ unwrap_or self.now.number (pos 0) }
    {
        self.number.unwrap_or(0)
    }

    /// `label`, or the default of its type where it isn't there: LABEL_OPTIONAL.
    pub fn label(&self) -> FieldDescriptorProtoLabel
        ensures is { result ≡ unwrap_or self.now.label Optional }
    {
        self.label.unwrap_or(FieldDescriptorProtoLabel::Optional)
    }

    /// `type_`, or the default of its type where it isn't there: TYPE_DOUBLE.
    pub fn type_(&self) -> FieldDescriptorProtoType
        ensures is { result ≡ unwrap_or self.now.type_ DoubleOfFieldDescriptorProtoType }
    {
        self.type_.unwrap_or(FieldDescriptorProtoType::Double)
    }

    /// `type_name`, or the default of its type where it isn't there: empty.
    pub fn type_name(&self) -> &str
        ensures is { result.now ≡ unwrap_or (option_map string_bytes self.now.type_name) [] }
    {
        match &self.type_name {
            Some(it) => it.as_str(),
            None => "",
        }
    }

    /// `default_value`, or the default of its type where it isn't there: empty.
    pub fn default_value(&self) -> &str
        ensures is { result.now ≡ unwrap_or (option_map string_bytes self.now.default_value) [] }
    {
        match &self.default_value {
            Some(it) => it.as_str(),
            None => "",
        }
    }

    /// `oneof_index`, or the default of its type where it isn't there: 0.
    pub fn oneof_index(&self) -> i32
        ensures is { result ≡ unwrap_or self.now.oneof_index (pos 0) }
    {
        self.oneof_index.unwrap_or(0)
    }

    /// `json_name`, or the default of its type where it isn't there: empty.
    pub fn json_name(&self) -> &str
        ensures is { result.now ≡ unwrap_or (option_map string_bytes self.now.json_name) [] }
    {
        match &self.json_name {
            Some(it) => it.as_str(),
            None => "",
        }
    }

    /// `proto3_optional`, or the default of its type where it isn't there: false.
    pub fn proto3_optional(&self) -> bool
        ensures is { result ≡ unwrap_or self.now.proto3_optional false }
    {
        self.proto3_optional.unwrap_or(false)
    }
}
