//! A message of two int32.

ghost use Rattle.std.proofs.Common.{lit<, refl};
ghost use Rattle.buffa_fields.specs.MemberList.{field, skip_unknown};

use buffa_fields::meaning::And3;
use buffa_fields::members::implicit_field::ImplicitField;
use buffa_fields::members::member::Member;
use buffa_fields::messages::message::{FieldByField, FieldsMeaning};
use buffa_fields::messages::message_fields::MessageFields;
use buffa_fields::passes::visitor::Visitor;
use buffa_fields::unknown;
use buffa_map::map_codec::Int32;
use buffa_wire::{Blank, DecodeContext, DecodeError, MessageImpl, Tag};
use std::alloc::Global;

/// message TestMsg { int32 a = 1; int32 b = 2; }
///
/// ```ignore
/// read_map_field::<Int32, Msg<TestMsg>, _, _>(alloc, &mut map, 5, &mut rest, ctx, None)?;
/// ```
#[derive(Drop)]
pub struct TestMsg {
    /// The value of the last field 1, or 0.
    pub a: i32,
    /// The value of the last field 2, or 0.
    pub b: i32,
}

impl MessageFields for TestMsg {
    type Meaning = And3<i32, i32, ()>;

    const COST: usize = 32;

    ghost COST = { 32 };

    ghost positive = { lit< tt };

    ghost schema = { field 1 (λ m. m.a) ⟦<ImplicitField<Int32> as Member>⟧.shape (
        field 2 (λ m. m.b) ⟦<ImplicitField<Int32> as Member>⟧.shape (
        skip_unknown)) };

    ghost sound = { refl };

    fn visit<V: Visitor>(&self, visitor: &mut V) {
        visitor.visit::<ImplicitField<Int32>>(1, &self.a);
        visitor.visit::<ImplicitField<Int32>>(2, &self.b);
    }

    fn take(
        &mut self,
        alloc: Global,
        tag: Tag,
        buf: &mut &[u8],
        ctx: DecodeContext<'_>,
    ) -> Result<(), DecodeError> {
        match tag.field_number() {
            1 => ImplicitField::<Int32>::merge(&mut self.a, alloc, tag, buf, ctx),
            2 => ImplicitField::<Int32>::merge(&mut self.b, alloc, tag, buf, ctx),
            _ => unknown::pass(tag, buf, ctx),
        }
    }
}

impl Blank for TestMsg {
    type Meaning = <TestMsg as MessageFields>::Meaning;

    ghost meaning = { ⟦<TestMsg as MessageFields>⟧.schema.meaning };

    ghost blank_is = { ⟦<TestMsg as MessageFields>⟧.schema.blank };

    fn blank(_alloc: Global) -> TestMsg {
        TestMsg { a: 0, b: 0 }
    }
}

impl FieldsMeaning for TestMsg {
    ghost means = { λ m. refl };

    ghost starts = { refl };
}

impl MessageImpl for TestMsg {
    type Impl = FieldByField;
}
