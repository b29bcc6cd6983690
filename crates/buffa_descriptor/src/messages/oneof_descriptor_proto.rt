//! google.protobuf.OneofDescriptorProto, made of descriptor.proto by protoc-gen-buffa.

ghost use Rattle.std.proofs.Common.{lit<, refl};
ghost use Rattle.buffa_fields.specs.Terms.{field, keep_unknown};

use crate::messages::oneof_options::OneofOptions;
use buffa_fields::map_codec::Str;
use buffa_fields::{
    And3, Blank, DecodeContext, DecodeError, ExplicitField, FieldByField, FieldsMeaning, Member,
    MessageField, MessageFields, MessageImpl, Tag, UnknownFields, Unknowns, Visitor, unknown,
};
use std::alloc::Global;
use std::string::String;

/// A oneof. Its fields are those of the message whose `oneof_index` names it.
///
/// message OneofDescriptorProto {
///     optional string name = 1;
///     optional OneofOptions options = 2;
/// }
#[derive(Debug, Drop)]
pub struct OneofDescriptorProto {
    /// Its name.
    pub name: Option<String>,
    /// The options of the oneof.
    pub options: Option<OneofOptions>,
    /// The fields that aren't declared, in order.
    pub unknown_fields: UnknownFields,
}

impl MessageFields for OneofDescriptorProto {
    type Meaning = And3<Option<[u8; 0]>, Option<<OneofOptions as Blank>::Meaning>, Unknowns>;

    const COST: usize = 88;

    ghost COST = { 88 };

    ghost positive = { lit< tt };

    ghost schema = { field 1 (λ m. m.name) ⟦<ExplicitField<Str> as Member>⟧.shape (
        field 2 (λ m. m.options) ⟦<MessageField<OneofOptions> as Member>⟧.shape (
        keep_unknown (λ m. m.unknown_fields.records))) };

    ghost sound = { refl };

    fn visit<V: Visitor>(&self, visitor: &mut V) {
        visitor.visit::<ExplicitField<Str>>(1, &self.name);
        visitor.visit::<MessageField<OneofOptions>>(2, &self.options);
        visitor.visit_unknown_fields(&self.unknown_fields);
    }

    fn take(
        &mut self,
        alloc: Global,
        tag: Tag,
        buf: &mut &[u8],
        ctx: DecodeContext<'_>,
    ) -> Result<(), DecodeError> {
        match tag.field_number() {
            1 => ExplicitField::<Str>::merge(&mut self.name, alloc, tag, buf, ctx),
            2 => MessageField::<OneofOptions>::merge(&mut self.options, alloc, tag, buf, ctx),
            _ => unknown::keep(alloc, &mut self.unknown_fields, tag, buf, ctx),
        }
    }
}

impl Blank for OneofDescriptorProto {
    type Meaning = <OneofDescriptorProto as MessageFields>::Meaning;

    ghost meaning = { ⟦<OneofDescriptorProto as MessageFields>⟧.schema.meaning };

    ghost blank_is = { ⟦<OneofDescriptorProto as MessageFields>⟧.schema.blank };

    fn blank(alloc: Global) -> OneofDescriptorProto {
        OneofDescriptorProto {
            name: None,
            options: None,
            unknown_fields: UnknownFields::new(alloc),
        }
    }
}

impl FieldsMeaning for OneofDescriptorProto {
    ghost means = { λ m. refl };

    ghost starts = { refl };
}

impl MessageImpl for OneofDescriptorProto {
    type Impl = FieldByField;
}

const _: () = prove!(size_of::<OneofDescriptorProto>() <= OneofDescriptorProto::COST);

impl OneofDescriptorProto {
    ghost use Rattle.std.specs.Prelude.{[], option_map, string_bytes, unwrap_or, ◌≡◌};

    /// The full name of the message.
    pub const FULL_NAME: &'static str = "google.protobuf.OneofDescriptorProto";

    /// `name`, or the default of its type where it isn't there: empty.
    pub fn name(&self) -> &str
        ensures is { result.now ≡ unwrap_or (option_map string_bytes self.now.name) [] }
    {
        match &self.name {
            Some(it) => it.as_str(),
            None => "",
        }
    }
}
