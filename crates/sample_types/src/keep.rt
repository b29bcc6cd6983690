//! `BudgetMsg`, a message that declares no field and keeps each.

ghost use Rattle.std.proofs.Common.{lit<, refl};
ghost use Rattle.buffa_fields.specs.MemberList.{keep_unknown};

use buffa_fields::meaning::Unknowns;
use buffa_fields::messages::message::{FieldByField, FieldsMeaning};
use buffa_fields::messages::message_fields::MessageFields;
use buffa_fields::messages::unknown;
use buffa_fields::passes::visitor::Visitor;
use buffa_wire::{Blank, DecodeContext, DecodeError, MessageImpl, Tag, UnknownFields};
use std::alloc::Global;

/// message BudgetMsg {}, of which each field is kept as an unknown field, behind those that it has.
///
/// A field takes one of the unknown fields left, and so does each field in its groups; what is
/// refused spends nothing.
///
/// ```ignore
/// message.merge(alloc, &mut bytes, DecodeContext::new(1, &mut budget))?; // of 38 96 01: keeps field 7, the varint 150
/// ```
#[derive(Drop)]
pub struct BudgetMsg {
    /// The fields, in order.
    pub fields: UnknownFields,
}

impl MessageFields for BudgetMsg {
    type Meaning = Unknowns;

    const COST: usize = 24;

    ghost COST = { 24 };

    ghost positive = { lit< tt };

    ghost schema = { keep_unknown (λ m. m.fields.records) };

    ghost sound = { refl };

    fn visit<V: Visitor>(&self, visitor: &mut V) {
        visitor.visit_unknown_fields(&self.fields);
    }

    fn take(
        &mut self,
        alloc: Global,
        tag: Tag,
        buf: &mut &[u8],
        ctx: DecodeContext<'_>,
    ) -> Result<(), DecodeError> {
        unknown::keep(alloc, &mut self.fields, tag, buf, ctx)
    }
}

impl Blank for BudgetMsg {
    type Meaning = <BudgetMsg as MessageFields>::Meaning;

    ghost meaning = { ⟦<BudgetMsg as MessageFields>⟧.schema.meaning };

    ghost blank_is = { ⟦<BudgetMsg as MessageFields>⟧.schema.blank };

    fn blank(alloc: Global) -> BudgetMsg {
        BudgetMsg {
            fields: UnknownFields::new(alloc),
        }
    }
}

impl FieldsMeaning for BudgetMsg {
    ghost means = { λ m. refl };

    ghost starts = { refl };
}

impl MessageImpl for BudgetMsg {
    type Impl = FieldByField;
}
