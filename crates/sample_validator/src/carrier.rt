//! A message that is nothing but its unknown fields.

ghost use Rattle.std.proofs.Common.{lit<};
ghost use Rattle.std.specs.Prelude.{codes, refl};
ghost use Rattle.buffa_fields.specs.MemberList.{keep_unknown};

use buffa_ext::ExtensionSet;
use buffa_fields::meaning::Unknowns;
use buffa_fields::messages::message::{FieldByField, FieldsMeaning};
use buffa_fields::messages::message_fields::MessageFields;
use buffa_fields::messages::unknown;
use buffa_fields::passes::visitor::Visitor;
use buffa_wire::{Blank, DecodeContext, DecodeError, MessageImpl, Tag, UnknownFields};
use std::alloc::Global;

/// A list of records, which lends itself to extensions of `test.Carrier`.
///
/// ```ignore
/// let carrier = Carrier { fields }; // of 08 05 38 09
/// let ext = Extension::<Int32>::new(7, "test.Carrier");
/// let nine = carrier.extension(alloc, &ext)?; // Some(9)
/// ```
#[derive(Drop)]
pub struct Carrier {
    /// The records, in order.
    pub fields: UnknownFields,
}

impl MessageFields for Carrier {
    type Meaning = Unknowns;

    const COST: usize = 24;

    ghost COST = { 24 };

    ghost positive = { lit< tt };

    ghost schema = { keep_unknown (λ m. m.fields.records) };

    ghost sound = { refl };

    fn visit<V: Visitor>(&self, visitor: &mut V) {
        visitor.visit_unknown_fields(&self.fields);
    }

    fn take(
        &mut self,
        alloc: Global,
        tag: Tag,
        buf: &mut &[u8],
        ctx: DecodeContext<'_>,
    ) -> Result<(), DecodeError> {
        unknown::keep(alloc, &mut self.fields, tag, buf, ctx)
    }
}

impl Blank for Carrier {
    type Meaning = <Carrier as MessageFields>::Meaning;

    ghost meaning = { ⟦<Carrier as MessageFields>⟧.schema.meaning };

    ghost blank_is = { ⟦<Carrier as MessageFields>⟧.schema.blank };

    fn blank(alloc: Global) -> Carrier {
        Carrier {
            fields: UnknownFields::new(alloc),
        }
    }
}

impl FieldsMeaning for Carrier {
    ghost means = { λ m. refl };

    ghost starts = { refl };
}

impl MessageImpl for Carrier {
    type Impl = FieldByField;
}

impl ExtensionSet for Carrier {
    const PROTO_FQN: &'static str = "test.Carrier";

    ghost fqn = { codes "test.Carrier" };

    ghost fields_of = { λ m. m.fields };

    ghost with_fields = { λ m w. record m { fields = w } };

    fn extendee_name() -> &'static str {
        Self::PROTO_FQN
    }

    fn unknown_fields(&self) -> &UnknownFields {
        &self.fields
    }

    fn unknown_fields_mut(&mut self) -> &mut UnknownFields {
        &mut self.fields
    }

    ghost fields_of_with = { λ m w. refl };

    ghost with_fields_of = { λ m. refl };

    ghost with_fields_twice = { λ m w u. refl };
}
