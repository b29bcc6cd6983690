//! google.protobuf.EnumDescriptorProto, made of descriptor.proto by protoc-gen-buffa.

ghost use Rattle.std.proofs.Common.{lit<, refl};
ghost use Rattle.buffa_fields.specs.Terms.{field, keep_unknown};

use crate::messages::enum_descriptor_proto_enum_reserved_range::EnumDescriptorProtoEnumReservedRange;
use crate::messages::enum_options::EnumOptions;
use crate::messages::enum_value_descriptor_proto::EnumValueDescriptorProto;
use buffa_fields::map_codec::Str;
use buffa_fields::{
    And6, Blank, DecodeContext, DecodeError, ExplicitField, FieldByField, FieldsMeaning, Member,
    MessageField, MessageFields, MessageImpl, RepeatedField, RepeatedMessageField, Tag,
    UnknownFields, Unknowns, Visitor, unknown,
};
use std::alloc::Global;
use std::string::String;

/// An enum.
///
/// message EnumDescriptorProto {
///     optional string name = 1;
///     repeated EnumValueDescriptorProto value = 2;
///     optional EnumOptions options = 3;
///     repeated EnumReservedRange reserved_range = 4;
///     repeated string reserved_name = 5;
/// }
#[derive(Debug, Drop)]
pub struct EnumDescriptorProto {
    /// Its name, without the package and the messages around it.
    pub name: Option<String>,
    /// Its values, in the order of the text.
    pub value: Vec<EnumValueDescriptorProto>,
    /// The options of the enum.
    pub options: Option<EnumOptions>,
    /// The ranges of numbers that no value may have.
    pub reserved_range: Vec<EnumDescriptorProtoEnumReservedRange>,
    /// The names that no value may have.
    pub reserved_name: Vec<String>,
    /// The fields that aren't declared, in order.
    pub unknown_fields: UnknownFields,
}

impl MessageFields for EnumDescriptorProto {
    type Meaning = And6<
        Option<[u8; 0]>,
        [<EnumValueDescriptorProto as Blank>::Meaning; 0],
        Option<<EnumOptions as Blank>::Meaning>,
        [<EnumDescriptorProtoEnumReservedRange as Blank>::Meaning; 0],
        [[u8; 0]; 0],
        Unknowns,
    >;

    const COST: usize = 160;

    ghost COST = { 160 };

    ghost positive = { lit< tt };

    ghost schema = { field 1 (λ m. m.name) ⟦<ExplicitField<Str> as Member>⟧.shape (
        field 2 (λ m. m.value) ⟦<RepeatedMessageField<EnumValueDescriptorProto> as Member>⟧.shape (
        field 3 (λ m. m.options) ⟦<MessageField<EnumOptions> as Member>⟧.shape (
        field 4 (λ m. m.reserved_range) ⟦<RepeatedMessageField<EnumDescriptorProtoEnumReservedRange> as Member>⟧.shape (
        field 5 (λ m. m.reserved_name) ⟦<RepeatedField<Str> as Member>⟧.shape (
        keep_unknown (λ m. m.unknown_fields.records)))))) };

    ghost sound = { refl };

    fn visit<V: Visitor>(&self, visitor: &mut V) {
        visitor.visit::<ExplicitField<Str>>(1, &self.name);
        visitor.visit::<RepeatedMessageField<EnumValueDescriptorProto>>(2, &self.value);
        visitor.visit::<MessageField<EnumOptions>>(3, &self.options);
        visitor.visit::<RepeatedMessageField<EnumDescriptorProtoEnumReservedRange>>(
            4,
            &self.reserved_range,
        );
        visitor.visit::<RepeatedField<Str>>(5, &self.reserved_name);
        visitor.visit_unknown_fields(&self.unknown_fields);
    }

    fn take(
        &mut self,
        alloc: Global,
        tag: Tag,
        buf: &mut &[u8],
        ctx: DecodeContext<'_>,
    ) -> Result<(), DecodeError> {
        match tag.field_number() {
            1 => ExplicitField::<Str>::merge(&mut self.name, alloc, tag, buf, ctx),
            2 => RepeatedMessageField::<EnumValueDescriptorProto>::merge(
                &mut self.value,
                alloc,
                tag,
                buf,
                ctx,
            ),
            3 => MessageField::<EnumOptions>::merge(&mut self.options, alloc, tag, buf, ctx),
            4 => RepeatedMessageField::<EnumDescriptorProtoEnumReservedRange>::merge(
                &mut self.reserved_range,
                alloc,
                tag,
                buf,
                ctx,
            ),
            5 => RepeatedField::<Str>::merge(&mut self.reserved_name, alloc, tag, buf, ctx),
            _ => unknown::keep(alloc, &mut self.unknown_fields, tag, buf, ctx),
        }
    }
}

impl Blank for EnumDescriptorProto {
    type Meaning = <EnumDescriptorProto as MessageFields>::Meaning;

    ghost meaning = { ⟦<EnumDescriptorProto as MessageFields>⟧.schema.meaning };

    ghost blank_is = { ⟦<EnumDescriptorProto as MessageFields>⟧.schema.blank };

    fn blank(alloc: Global) -> EnumDescriptorProto {
        EnumDescriptorProto {
            name: None,
            value: Vec::new(alloc),
            options: None,
            reserved_range: Vec::new(alloc),
            reserved_name: Vec::new(alloc),
            unknown_fields: UnknownFields::new(alloc),
        }
    }
}

impl FieldsMeaning for EnumDescriptorProto {
    ghost means = { λ m. refl };

    ghost starts = { refl };
}

impl MessageImpl for EnumDescriptorProto {
    type Impl = FieldByField;
}

const _: () = prove!(size_of::<EnumDescriptorProto>() <= EnumDescriptorProto::COST);

impl EnumDescriptorProto {
    ghost use Rattle.std.specs.Prelude.{[], option_map, string_bytes, unwrap_or, ◌≡◌};

    /// The full name of the message.
    pub const FULL_NAME: &'static str = "google.protobuf.EnumDescriptorProto";

    /// `name`, or the default of its type where it isn't there: empty.
    pub fn name(&self) -> &str
        ensures is { result.now ≡ unwrap_or (option_map string_bytes self.now.name) [] }
    {
        match &self.name {
            Some(it) => it.as_str(),
            None => "",
        }
    }
}
