//! buffa.sample.Insurance, made of shipment.proto by protoc-gen-buffa.

ghost use Rattle.std.proofs.Common.{lit<, refl};
ghost use Rattle.buffa_fields.specs.Terms.{field, keep_unknown};

use buffa_fields::map_codec::Uint32;
use buffa_fields::{
    And, Blank, DecodeContext, DecodeError, ExplicitField, FieldByField, FieldsMeaning, Member,
    MessageFields, MessageImpl, Tag, UnknownFields, Unknowns, Visitor, unknown,
};
use buffa_types::NamedMessage;
use std::alloc::Global;

/// What is paid where a shipment is lost.
///
/// message Insurance {
///     optional uint32 cents = 1;
/// }
#[derive(Debug, Drop)]
pub struct Insurance {
    pub cents: Option<u32>,
    /// The fields that aren't declared, in order.
    pub unknown_fields: UnknownFields,
}

impl MessageFields for Insurance {
    type Meaning = And<Option<u32>, Unknowns>;

    const COST: usize = 40;

    ghost COST = { 40 };

    ghost positive = { lit< tt };

    ghost schema = { field 1 (λ m. m.cents) ⟦<ExplicitField<Uint32> as Member>⟧.shape (
        keep_unknown (λ m. m.unknown_fields.records)) };

    ghost sound = { refl };

    fn visit<V: Visitor>(&self, visitor: &mut V) {
        visitor.visit::<ExplicitField<Uint32>>(1, &self.cents);
        visitor.visit_unknown_fields(&self.unknown_fields);
    }

    fn take(
        &mut self,
        alloc: Global,
        tag: Tag,
        buf: &mut &[u8],
        ctx: DecodeContext<'_>,
    ) -> Result<(), DecodeError> {
        match tag.field_number() {
            1 => ExplicitField::<Uint32>::merge(&mut self.cents, alloc, tag, buf, ctx),
            _ => unknown::keep(alloc, &mut self.unknown_fields, tag, buf, ctx),
        }
    }
}

impl Blank for Insurance {
    type Meaning = <Insurance as MessageFields>::Meaning;

    ghost meaning = { ⟦<Insurance as MessageFields>⟧.schema.meaning };

    ghost blank_is = { ⟦<Insurance as MessageFields>⟧.schema.blank };

    fn blank(alloc: Global) -> Insurance {
        Insurance {
            cents: None,
            unknown_fields: UnknownFields::new(alloc),
        }
    }
}

impl FieldsMeaning for Insurance {
    ghost means = { λ m. refl };

    ghost starts = { refl };
}

impl MessageImpl for Insurance {
    type Impl = FieldByField;
}

const _: () = prove!(size_of::<Insurance>() <= Insurance::COST);

impl NamedMessage for Insurance {
    ghost use Rattle.std.specs.Prelude.{codes};

    ghost name = { codes "buffa.sample.Insurance" };

    fn full_name() -> &'static str {
        Self::FULL_NAME
    }
}

impl Insurance {
    ghost use Rattle.std.specs.Prelude.{unwrap_or, ◌≡◌};

    /// The full name of the message.
    pub const FULL_NAME: &'static str = "buffa.sample.Insurance";

    /// `cents`, or the default of its type where it isn't there: 0.
    pub fn cents(&self) -> u32
        ensures is { result ≡ unwrap_or self.now.cents 0 }
    {
        self.cents.unwrap_or(0)
    }
}
