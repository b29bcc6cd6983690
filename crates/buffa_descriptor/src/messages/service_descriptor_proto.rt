//! google.protobuf.ServiceDescriptorProto, made of descriptor.proto by protoc-gen-buffa.

ghost use Rattle.std.proofs.Common.{lit<, refl};
ghost use Rattle.buffa_fields.specs.Terms.{field, keep_unknown};

use crate::messages::method_descriptor_proto::MethodDescriptorProto;
use crate::messages::service_options::ServiceOptions;
use buffa_fields::map_codec::Str;
use buffa_fields::{
    And4, Blank, DecodeContext, DecodeError, ExplicitField, FieldByField, FieldsMeaning, Member,
    MessageField, MessageFields, MessageImpl, RepeatedMessageField, Tag, UnknownFields, Unknowns,
    Visitor, unknown,
};
use std::alloc::Global;
use std::string::String;

/// A service.
///
/// message ServiceDescriptorProto {
///     optional string name = 1;
///     repeated MethodDescriptorProto method = 2;
///     optional ServiceOptions options = 3;
/// }
#[derive(Debug, Drop)]
pub struct ServiceDescriptorProto {
    /// Its name.
    pub name: Option<String>,
    /// Its methods.
    pub method: Vec<MethodDescriptorProto>,
    /// The options of the service.
    pub options: Option<ServiceOptions>,
    /// The fields that aren't declared, in order.
    pub unknown_fields: UnknownFields,
}

impl MessageFields for ServiceDescriptorProto {
    type Meaning = And4<
        Option<[u8; 0]>,
        [<MethodDescriptorProto as Blank>::Meaning; 0],
        Option<<ServiceOptions as Blank>::Meaning>,
        Unknowns,
    >;

    const COST: usize = 112;

    ghost COST = { 112 };

    ghost positive = { lit< tt };

    ghost schema = { field 1 (λ m. m.name) ⟦<ExplicitField<Str> as Member>⟧.shape (
        field 2 (λ m. m.method) ⟦<RepeatedMessageField<MethodDescriptorProto> as Member>⟧.shape (
        field 3 (λ m. m.options) ⟦<MessageField<ServiceOptions> as Member>⟧.shape (
        keep_unknown (λ m. m.unknown_fields.records)))) };

    ghost sound = { refl };

    fn visit<V: Visitor>(&self, visitor: &mut V) {
        visitor.visit::<ExplicitField<Str>>(1, &self.name);
        visitor.visit::<RepeatedMessageField<MethodDescriptorProto>>(2, &self.method);
        visitor.visit::<MessageField<ServiceOptions>>(3, &self.options);
        visitor.visit_unknown_fields(&self.unknown_fields);
    }

    fn take(
        &mut self,
        alloc: Global,
        tag: Tag,
        buf: &mut &[u8],
        ctx: DecodeContext<'_>,
    ) -> Result<(), DecodeError> {
        match tag.field_number() {
            1 => ExplicitField::<Str>::merge(&mut self.name, alloc, tag, buf, ctx),
            2 => RepeatedMessageField::<MethodDescriptorProto>::merge(
                &mut self.method,
                alloc,
                tag,
                buf,
                ctx,
            ),
            3 => MessageField::<ServiceOptions>::merge(&mut self.options, alloc, tag, buf, ctx),
            _ => unknown::keep(alloc, &mut self.unknown_fields, tag, buf, ctx),
        }
    }
}

impl Blank for ServiceDescriptorProto {
    type Meaning = <ServiceDescriptorProto as MessageFields>::Meaning;

    ghost meaning = { ⟦<ServiceDescriptorProto as MessageFields>⟧.schema.meaning };

    ghost blank_is = { ⟦<ServiceDescriptorProto as MessageFields>⟧.schema.blank };

    fn blank(alloc: Global) -> ServiceDescriptorProto {
        ServiceDescriptorProto {
            name: None,
            method: Vec::new(alloc),
            options: None,
            unknown_fields: UnknownFields::new(alloc),
        }
    }
}

impl FieldsMeaning for ServiceDescriptorProto {
    ghost means = { λ m. refl };

    ghost starts = { refl };
}

impl MessageImpl for ServiceDescriptorProto {
    type Impl = FieldByField;
}

const _: () = prove!(size_of::<ServiceDescriptorProto>() <= ServiceDescriptorProto::COST);

impl ServiceDescriptorProto {
    ghost use Rattle.std.specs.Prelude.{[], option_map, string_bytes, unwrap_or, ◌≡◌};

    /// The full name of the message.
    pub const FULL_NAME: &'static str = "google.protobuf.ServiceDescriptorProto";

    /// `name`, or the default of its type where it isn't there: empty.
    pub fn name(&self) -> &str
        ensures is { result.now ≡ unwrap_or (option_map string_bytes self.now.name) [] }
    {
        match &self.name {
            Some(it) => it.as_str(),
            None => "",
        }
    }
}
