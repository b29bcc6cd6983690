//! google.protobuf.MethodDescriptorProto, made of descriptor.proto by protoc-gen-buffa.

ghost use Rattle.std.proofs.Common.{lit<, refl};
ghost use Rattle.buffa_fields.specs.Terms.{field, keep_unknown};

use crate::messages::method_options::MethodOptions;
use buffa_fields::map_codec::{Bool, Str};
use buffa_fields::{
    And7, Blank, DecodeContext, DecodeError, ExplicitField, FieldByField, FieldsMeaning, Member,
    MessageField, MessageFields, MessageImpl, Tag, UnknownFields, Unknowns, Visitor, unknown,
};
use std::alloc::Global;
use std::string::String;

/// A method of a service.
///
/// message MethodDescriptorProto {
///     optional string name = 1;
///     optional string input_type = 2;
///     optional string output_type = 3;
///     optional MethodOptions options = 4;
///     optional bool client_streaming = 5 [default = false];
///     optional bool server_streaming = 6 [default = false];
/// }
#[derive(Debug, Drop)]
pub struct MethodDescriptorProto {
    /// Its name.
    pub name: Option<String>,
    /// The message that it takes: the full name with a dot in front.
    pub input_type: Option<String>,
    /// The message that it answers: the full name with a dot in front.
    pub output_type: Option<String>,
    /// The options of the method.
    pub options: Option<MethodOptions>,
    /// Whether it takes a stream of messages.
    pub client_streaming: Option<bool>,
    /// Whether it answers with a stream of messages.
    pub server_streaming: Option<bool>,
    /// The fields that aren't declared, in order.
    pub unknown_fields: UnknownFields,
}

impl MessageFields for MethodDescriptorProto {
    type Meaning = And7<
        Option<[u8; 0]>,
        Option<[u8; 0]>,
        Option<[u8; 0]>,
        Option<<MethodOptions as Blank>::Meaning>,
        Option<bool>,
        Option<bool>,
        Unknowns,
    >;

    const COST: usize = 184;

    ghost COST = { 184 };

    ghost positive = { lit< tt };

    ghost schema = { field 1 (λ m. m.name) ⟦<ExplicitField<Str> as Member>⟧.shape (
        field 2 (λ m. m.input_type) ⟦<ExplicitField<Str> as Member>⟧.shape (
        field 3 (λ m. m.output_type) ⟦<ExplicitField<Str> as Member>⟧.shape (
        field 4 (λ m. m.options) ⟦<MessageField<MethodOptions> as Member>⟧.shape (
        field 5 (λ m. m.client_streaming) ⟦<ExplicitField<Bool> as Member>⟧.shape (
        field 6 (λ m. m.server_streaming) ⟦<ExplicitField<Bool> as Member>⟧.shape (
        keep_unknown (λ m. m.unknown_fields.records))))))) };

    ghost sound = { refl };

    fn visit<V: Visitor>(&self, visitor: &mut V) {
        visitor.visit::<ExplicitField<Str>>(1, &self.name);
        visitor.visit::<ExplicitField<Str>>(2, &self.input_type);
        visitor.visit::<ExplicitField<Str>>(3, &self.output_type);
        visitor.visit::<MessageField<MethodOptions>>(4, &self.options);
        visitor.visit::<ExplicitField<Bool>>(5, &self.client_streaming);
        visitor.visit::<ExplicitField<Bool>>(6, &self.server_streaming);
        visitor.visit_unknown_fields(&self.unknown_fields);
    }

    fn take(
        &mut self,
        alloc: Global,
        tag: Tag,
        buf: &mut &[u8],
        ctx: DecodeContext<'_>,
    ) -> Result<(), DecodeError> {
        match tag.field_number() {
            1 => ExplicitField::<Str>::merge(&mut self.name, alloc, tag, buf, ctx),
            2 => ExplicitField::<Str>::merge(&mut self.input_type, alloc, tag, buf, ctx),
            3 => ExplicitField::<Str>::merge(&mut self.output_type, alloc, tag, buf, ctx),
            4 => MessageField::<MethodOptions>::merge(&mut self.options, alloc, tag, buf, ctx),
            5 => ExplicitField::<Bool>::merge(&mut self.client_streaming, alloc, tag, buf, ctx),
            6 => ExplicitField::<Bool>::merge(&mut self.server_streaming, alloc, tag, buf, ctx),
            _ => unknown::keep(alloc, &mut self.unknown_fields, tag, buf, ctx),
        }
    }
}

impl Blank for MethodDescriptorProto {
    type Meaning = <MethodDescriptorProto as MessageFields>::Meaning;

    ghost meaning = { ⟦<MethodDescriptorProto as MessageFields>⟧.schema.meaning };

    ghost blank_is = { ⟦<MethodDescriptorProto as MessageFields>⟧.schema.blank };

    fn blank(alloc: Global) -> MethodDescriptorProto {
        MethodDescriptorProto {
            name: None,
            input_type: None,
            output_type: None,
            options: None,
            client_streaming: None,
            server_streaming: None,
            unknown_fields: UnknownFields::new(alloc),
        }
    }
}

impl FieldsMeaning for MethodDescriptorProto {
    ghost means = { λ m. refl };

    ghost starts = { refl };
}

impl MessageImpl for MethodDescriptorProto {
    type Impl = FieldByField;
}

const _: () = prove!(size_of::<MethodDescriptorProto>() <= MethodDescriptorProto::COST);

impl MethodDescriptorProto {
    ghost use Rattle.std.specs.Prelude.{[], option_map, string_bytes, unwrap_or, ◌≡◌};

    /// The full name of the message.
    pub const FULL_NAME: &'static str = "google.protobuf.MethodDescriptorProto";

    /// `name`, or the default of its type where it isn't there: empty.
    pub fn name(&self) -> &str
        ensures is { result.now ≡ unwrap_or (option_map string_bytes self.now.name) [] }
    {
        match &self.name {
            Some(it) => it.as_str(),
            None => "",
        }
    }

    /// `input_type`, or the default of its type where it isn't there: empty.
    pub fn input_type(&self) -> &str
        ensures is { result.now ≡ unwrap_or (option_map string_bytes self.now.input_type) [] }
    {
        match &self.input_type {
            Some(it) => it.as_str(),
            None => "",
        }
    }

    /// `output_type`, or the default of its type where it isn't there: empty.
    pub fn output_type(&self) -> &str
        ensures is { result.now ≡ unwrap_or (option_map string_bytes self.now.output_type) [] }
    {
        match &self.output_type {
            Some(it) => it.as_str(),
            None => "",
        }
    }
}
