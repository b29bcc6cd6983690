//! buffa.sample.Implicit, made of members.proto by protoc-gen-buffa.

ghost use Rattle.std.proofs.Common.{lit<, refl};
ghost use Rattle.buffa_fields.specs.Terms.{field, skip_unknown};

use buffa_fields::map_codec::{
    Bool, Fixed32, Fixed64, Int32, Int64, Sfixed32, Sfixed64, Sint32, Sint64, Uint32, Uint64,
};
use buffa_fields::{
    And12, Blank, DecodeContext, DecodeError, FieldByField, FieldsMeaning, ImplicitField, Member,
    MessageFields, MessageImpl, Tag, Visitor, unknown,
};
use std::alloc::Global;

/// Numbers of implicit presence: one that is the default isn't written.
///
/// message Implicit {
///     int32 int32 = 1;
///     int64 int64 = 2;
///     uint32 uint32 = 3;
///     uint64 uint64 = 4;
///     sint32 sint32 = 5;
///     sint64 sint64 = 6;
///     bool truth = 7;
///     fixed32 fixed32 = 8;
///     fixed64 fixed64 = 9;
///     sfixed32 sfixed32 = 10;
///     sfixed64 sfixed64 = 11;
/// }
///
/// The fields that aren't declared are passed over.
#[derive(Debug, Drop)]
pub struct Implicit {
    pub int32: i32,
    pub int64: i64,
    pub uint32: u32,
    pub uint64: u64,
    pub sint32: i32,
    pub sint64: i64,
    pub truth: bool,
    pub fixed32: u32,
    pub fixed64: u64,
    pub sfixed32: i32,
    pub sfixed64: i64,
}

impl MessageFields for Implicit {
    type Meaning = And12<i32, i64, u32, u64, i32, i64, bool, u32, u64, i32, i64, ()>;

    const COST: usize = 80;

    ghost COST = { 80 };

    ghost positive = { lit< tt };

    ghost schema = { field 1 (λ m. m.int32) ⟦<ImplicitField<Int32> as Member>⟧.shape (
        field 2 (λ m. m.int64) ⟦<ImplicitField<Int64> as Member>⟧.shape (
        field 3 (λ m. m.uint32) ⟦<ImplicitField<Uint32> as Member>⟧.shape (
        field 4 (λ m. m.uint64) ⟦<ImplicitField<Uint64> as Member>⟧.shape (
        field 5 (λ m. m.sint32) ⟦<ImplicitField<Sint32> as Member>⟧.shape (
        field 6 (λ m. m.sint64) ⟦<ImplicitField<Sint64> as Member>⟧.shape (
        field 7 (λ m. m.truth) ⟦<ImplicitField<Bool> as Member>⟧.shape (
        field 8 (λ m. m.fixed32) ⟦<ImplicitField<Fixed32> as Member>⟧.shape (
        field 9 (λ m. m.fixed64) ⟦<ImplicitField<Fixed64> as Member>⟧.shape (
        field 10 (λ m. m.sfixed32) ⟦<ImplicitField<Sfixed32> as Member>⟧.shape (
        field 11 (λ m. m.sfixed64) ⟦<ImplicitField<Sfixed64> as Member>⟧.shape (
        skip_unknown))))))))))) };

    ghost sound = { refl };

    fn visit<V: Visitor>(&self, visitor: &mut V) {
        visitor.visit::<ImplicitField<Int32>>(1, &self.int32);
        visitor.visit::<ImplicitField<Int64>>(2, &self.int64);
        visitor.visit::<ImplicitField<Uint32>>(3, &self.uint32);
        visitor.visit::<ImplicitField<Uint64>>(4, &self.uint64);
        visitor.visit::<ImplicitField<Sint32>>(5, &self.sint32);
        visitor.visit::<ImplicitField<Sint64>>(6, &self.sint64);
        visitor.visit::<ImplicitField<Bool>>(7, &self.truth);
        visitor.visit::<ImplicitField<Fixed32>>(8, &self.fixed32);
        visitor.visit::<ImplicitField<Fixed64>>(9, &self.fixed64);
        visitor.visit::<ImplicitField<Sfixed32>>(10, &self.sfixed32);
        visitor.visit::<ImplicitField<Sfixed64>>(11, &self.sfixed64);
    }

    fn take(
        &mut self,
        alloc: Global,
        tag: Tag,
        buf: &mut &[u8],
        ctx: DecodeContext<'_>,
    ) -> Result<(), DecodeError> {
        match tag.field_number() {
            1 => ImplicitField::<Int32>::merge(&mut self.int32, alloc, tag, buf, ctx),
            2 => ImplicitField::<Int64>::merge(&mut self.int64, alloc, tag, buf, ctx),
            3 => ImplicitField::<Uint32>::merge(&mut self.uint32, alloc, tag, buf, ctx),
            4 => ImplicitField::<Uint64>::merge(&mut self.uint64, alloc, tag, buf, ctx),
            5 => ImplicitField::<Sint32>::merge(&mut self.sint32, alloc, tag, buf, ctx),
            6 => ImplicitField::<Sint64>::merge(&mut self.sint64, alloc, tag, buf, ctx),
            7 => ImplicitField::<Bool>::merge(&mut self.truth, alloc, tag, buf, ctx),
            8 => ImplicitField::<Fixed32>::merge(&mut self.fixed32, alloc, tag, buf, ctx),
            9 => ImplicitField::<Fixed64>::merge(&mut self.fixed64, alloc, tag, buf, ctx),
            10 => ImplicitField::<Sfixed32>::merge(&mut self.sfixed32, alloc, tag, buf, ctx),
            11 => ImplicitField::<Sfixed64>::merge(&mut self.sfixed64, alloc, tag, buf, ctx),
            _ => unknown::pass(tag, buf, ctx),
        }
    }
}

impl Blank for Implicit {
    type Meaning = <Implicit as MessageFields>::Meaning;

    ghost meaning = { ⟦<Implicit as MessageFields>⟧.schema.meaning };

    ghost blank_is = { ⟦<Implicit as MessageFields>⟧.schema.blank };

    fn blank(_alloc: Global) -> Implicit {
        Implicit {
            int32: 0,
            int64: 0,
            uint32: 0,
            uint64: 0,
            sint32: 0,
            sint64: 0,
            truth: false,
            fixed32: 0,
            fixed64: 0,
            sfixed32: 0,
            sfixed64: 0,
        }
    }
}

impl FieldsMeaning for Implicit {
    ghost means = { λ m. refl };

    ghost starts = { refl };
}

impl MessageImpl for Implicit {
    type Impl = FieldByField;
}

impl Implicit {
    /// The full name of the message.
    pub const FULL_NAME: &'static str = "buffa.sample.Implicit";
}
