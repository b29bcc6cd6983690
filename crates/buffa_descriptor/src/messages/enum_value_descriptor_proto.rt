//! google.protobuf.EnumValueDescriptorProto, made of descriptor.proto by protoc-gen-buffa.

ghost use Rattle.std.proofs.Common.{lit<, refl};
ghost use Rattle.buffa_fields.specs.Terms.{field, keep_unknown};

use crate::messages::enum_value_options::EnumValueOptions;
use buffa_fields::map_codec::{Int32, Str};
use buffa_fields::{
    And4, Blank, DecodeContext, DecodeError, ExplicitField, FieldByField, FieldsMeaning, Member,
    MessageField, MessageFields, MessageImpl, Tag, UnknownFields, Unknowns, Visitor, unknown,
};
use std::alloc::Global;
use std::string::String;

/// A value of an enum.
///
/// message EnumValueDescriptorProto {
///     optional string name = 1;
///     optional int32 number = 2;
///     optional EnumValueOptions options = 3;
/// }
#[derive(Debug, Drop)]
pub struct EnumValueDescriptorProto {
    /// Its name.
    pub name: Option<String>,
    /// Its number.
    pub number: Option<i32>,
    /// The options of the value.
    pub options: Option<EnumValueOptions>,
    /// The fields that aren't declared, in order.
    pub unknown_fields: UnknownFields,
}

impl MessageFields for EnumValueDescriptorProto {
    type Meaning = And4<
        Option<[u8; 0]>,
        Option<i32>,
        Option<<EnumValueOptions as Blank>::Meaning>,
        Unknowns,
    >;

    const COST: usize = 104;

    ghost COST = { 104 };

    ghost positive = { lit< tt };

    ghost schema = { field 1 (λ m. m.name) ⟦<ExplicitField<Str> as Member>⟧.shape (
        field 2 (λ m. m.number) ⟦<ExplicitField<Int32> as Member>⟧.shape (
        field 3 (λ m. m.options) ⟦<MessageField<EnumValueOptions> as Member>⟧.shape (
        keep_unknown (λ m. m.unknown_fields.records)))) };

    ghost sound = { refl };

    fn visit<V: Visitor>(&self, visitor: &mut V) {
        visitor.visit::<ExplicitField<Str>>(1, &self.name);
        visitor.visit::<ExplicitField<Int32>>(2, &self.number);
        visitor.visit::<MessageField<EnumValueOptions>>(3, &self.options);
        visitor.visit_unknown_fields(&self.unknown_fields);
    }

    fn take(
        &mut self,
        alloc: Global,
        tag: Tag,
        buf: &mut &[u8],
        ctx: DecodeContext<'_>,
    ) -> Result<(), DecodeError> {
        match tag.field_number() {
            1 => ExplicitField::<Str>::merge(&mut self.name, alloc, tag, buf, ctx),
            2 => ExplicitField::<Int32>::merge(&mut self.number, alloc, tag, buf, ctx),
            3 => MessageField::<EnumValueOptions>::merge(&mut self.options, alloc, tag, buf, ctx),
            _ => unknown::keep(alloc, &mut self.unknown_fields, tag, buf, ctx),
        }
    }
}

impl Blank for EnumValueDescriptorProto {
    type Meaning = <EnumValueDescriptorProto as MessageFields>::Meaning;

    ghost meaning = { ⟦<EnumValueDescriptorProto as MessageFields>⟧.schema.meaning };

    ghost blank_is = { ⟦<EnumValueDescriptorProto as MessageFields>⟧.schema.blank };

    fn blank(alloc: Global) -> EnumValueDescriptorProto {
        EnumValueDescriptorProto {
            name: None,
            number: None,
            options: None,
            unknown_fields: UnknownFields::new(alloc),
        }
    }
}

impl FieldsMeaning for EnumValueDescriptorProto {
    ghost means = { λ m. refl };

    ghost starts = { refl };
}

impl MessageImpl for EnumValueDescriptorProto {
    type Impl = FieldByField;
}

const _: () = prove!(size_of::<EnumValueDescriptorProto>() <= EnumValueDescriptorProto::COST);

impl EnumValueDescriptorProto {
    ghost use Rattle.std.specs.Prelude.{[], option_map, pos, string_bytes, unwrap_or, ◌≡◌};

    /// The full name of the message.
    pub const FULL_NAME: &'static str = "google.protobuf.EnumValueDescriptorProto";

    /// `name`, or the default of its type where it isn't there: empty.
    pub fn name(&self) -> &str
        ensures is { result.now ≡ unwrap_or (option_map string_bytes self.now.name) [] }
    {
        match &self.name {
            Some(it) => it.as_str(),
            None => "",
        }
    }

    /// `number`, or the default of its type where it isn't there: 0.
    pub fn number(&self) -> i32
        ensures is { result ≡ unwrap_or self.now.number (pos 0) }
    {
        self.number.unwrap_or(0)
    }
}
