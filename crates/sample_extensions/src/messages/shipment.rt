//! buffa.sample.Shipment, made of shipment.proto by protoc-gen-buffa.

ghost use Rattle.std.proofs.Common.{lit<, refl};
ghost use Rattle.std.specs.Prelude.{codes};
ghost use Rattle.buffa_fields.specs.Terms.{field, keep_unknown};

use buffa_ext::ExtensionSet;
use buffa_fields::map_codec::Str;
use buffa_fields::{
    And, Blank, DecodeContext, DecodeError, ExplicitField, FieldByField, FieldsMeaning, Member,
    MessageFields, MessageImpl, Tag, UnknownFields, Unknowns, Visitor, unknown,
};
use buffa_types::NamedMessage;
use std::alloc::Global;
use std::string::String;

/// What is shipped. Its extensions say how.
///
/// message Shipment {
///     optional string to = 1;
///     extensions 100 to max;
/// }
#[derive(Debug, Drop)]
pub struct Shipment {
    pub to: Option<String>,
    /// The fields that aren't declared, in order.
    pub unknown_fields: UnknownFields,
}

impl MessageFields for Shipment {
    type Meaning = And<Option<[u8; 0]>, Unknowns>;

    const COST: usize = 56;

    ghost COST = { 56 };

    ghost positive = { lit< tt };

    ghost schema = { field 1 (λ m. m.to) ⟦<ExplicitField<Str> as Member>⟧.shape (
        keep_unknown (λ m. m.unknown_fields.records)) };

    ghost sound = { refl };

    fn visit<V: Visitor>(&self, visitor: &mut V) {
        visitor.visit::<ExplicitField<Str>>(1, &self.to);
        visitor.visit_unknown_fields(&self.unknown_fields);
    }

    fn take(
        &mut self,
        alloc: Global,
        tag: Tag,
        buf: &mut &[u8],
        ctx: DecodeContext<'_>,
    ) -> Result<(), DecodeError> {
        match tag.field_number() {
            1 => ExplicitField::<Str>::merge(&mut self.to, alloc, tag, buf, ctx),
            _ => unknown::keep(alloc, &mut self.unknown_fields, tag, buf, ctx),
        }
    }
}

impl Blank for Shipment {
    type Meaning = <Shipment as MessageFields>::Meaning;

    ghost meaning = { ⟦<Shipment as MessageFields>⟧.schema.meaning };

    ghost blank_is = { ⟦<Shipment as MessageFields>⟧.schema.blank };

    fn blank(alloc: Global) -> Shipment {
        Shipment {
            to: None,
            unknown_fields: UnknownFields::new(alloc),
        }
    }
}

impl FieldsMeaning for Shipment {
    ghost means = { λ m. refl };

    ghost starts = { refl };
}

impl MessageImpl for Shipment {
    type Impl = FieldByField;
}

impl ExtensionSet for Shipment {
    const PROTO_FQN: &'static str = "buffa.sample.Shipment";

    ghost fqn = { codes "buffa.sample.Shipment" };

    ghost fields_of = { λ m. m.unknown_fields };

    ghost with_fields = { λ m w. record m { unknown_fields = w } };

    fn extendee_name() -> &'static str {
        Self::PROTO_FQN
    }

    fn unknown_fields(&self) -> &UnknownFields {
        &self.unknown_fields
    }

    fn unknown_fields_mut(&mut self) -> &mut UnknownFields {
        &mut self.unknown_fields
    }

    ghost fields_of_with = { λ m w. refl };

    ghost with_fields_of = { λ m. refl };

    ghost with_fields_twice = { λ m w u. refl };
}

const _: () = prove!(size_of::<Shipment>() <= Shipment::COST);

impl NamedMessage for Shipment {
    ghost use Rattle.std.specs.Prelude.{codes};

    ghost name = { codes "buffa.sample.Shipment" };

    fn full_name() -> &'static str {
        Self::FULL_NAME
    }
}

impl Shipment {
    ghost use Rattle.std.specs.Prelude.{[], option_map, string_bytes, unwrap_or, ◌≡◌};

    /// The full name of the message.
    pub const FULL_NAME: &'static str = "buffa.sample.Shipment";

    /// `to`, or the default of its type where it isn't there: empty.
    pub fn to(&self) -> &str
        ensures is { result.now ≡ unwrap_or (option_map string_bytes self.now.to) [] }
    {
        match &self.to {
            Some(it) => it.as_str(),
            None => "",
        }
    }
}
