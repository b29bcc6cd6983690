//! A message of one int32.

ghost use Rattle.std.proofs.Common.{lit<, refl};
ghost use Rattle.buffa_fields.specs.MemberList.{field, skip_unknown};

use buffa_fields::meaning::And;
use buffa_fields::members::implicit_field::ImplicitField;
use buffa_fields::members::member::Member;
use buffa_fields::messages::message::{FieldByField, FieldsMeaning};
use buffa_fields::messages::message_fields::MessageFields;
use buffa_fields::passes::visitor::Visitor;
use buffa_fields::unknown;
use buffa_map::map_codec::Int32;
use buffa_wire::{Blank, DecodeContext, DecodeError, MessageImpl, Tag};
use std::alloc::Global;

/// message FlatMsg { int32 value = 1; }
///
/// ```ignore
/// let message = FlatMsg { value };
/// ```
#[derive(Drop)]
pub struct FlatMsg {
    /// The value of the last field 1, or 0.
    pub value: i32,
}

impl MessageFields for FlatMsg {
    type Meaning = And<i32, ()>;

    const COST: usize = 4;

    ghost COST = { 4 };

    ghost positive = { lit< tt };

    ghost schema = { field 1 (λ m. m.value) ⟦<ImplicitField<Int32> as Member>⟧.shape skip_unknown };

    ghost sound = { refl };

    fn visit<V: Visitor>(&self, visitor: &mut V) {
        visitor.visit::<ImplicitField<Int32>>(1, &self.value);
    }

    fn take(
        &mut self,
        alloc: Global,
        tag: Tag,
        buf: &mut &[u8],
        ctx: DecodeContext<'_>,
    ) -> Result<(), DecodeError> {
        match tag.field_number() {
            1 => ImplicitField::<Int32>::merge(&mut self.value, alloc, tag, buf, ctx),
            _ => unknown::pass(tag, buf, ctx),
        }
    }
}

impl Blank for FlatMsg {
    type Meaning = <FlatMsg as MessageFields>::Meaning;

    ghost meaning = { ⟦<FlatMsg as MessageFields>⟧.schema.meaning };

    ghost blank_is = { ⟦<FlatMsg as MessageFields>⟧.schema.blank };

    fn blank(_alloc: Global) -> FlatMsg {
        FlatMsg { value: 0 }
    }
}

impl FieldsMeaning for FlatMsg {
    ghost means = { λ m. refl };

    ghost starts = { refl };
}

impl MessageImpl for FlatMsg {
    type Impl = FieldByField;
}
