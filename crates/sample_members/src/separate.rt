//! buffa.sample.Separate, made of members.proto by protoc-gen-buffa.

ghost use Rattle.std.proofs.Common.{lit<, refl};
ghost use Rattle.buffa_fields.specs.Terms.{field, skip_unknown};

use buffa_fields::map_codec::{
    Bool, Fixed32, Fixed64, Int32, Int64, Sfixed32, Sfixed64, Sint32, Sint64, Uint32, Uint64,
};
use buffa_fields::{
    And12, Blank, DecodeContext, DecodeError, FieldByField, FieldsMeaning, Member, MessageFields,
    MessageImpl, RepeatedField, Tag, Visitor, unknown,
};
use std::alloc::Global;

/// Lists of numbers, each in a field of its own.
///
/// message Separate {
///     repeated int32 int32 = 1 [packed = false];
///     repeated int64 int64 = 2 [packed = false];
///     repeated uint32 uint32 = 3 [packed = false];
///     repeated uint64 uint64 = 4 [packed = false];
///     repeated sint32 sint32 = 5 [packed = false];
///     repeated sint64 sint64 = 6 [packed = false];
///     repeated bool truth = 7 [packed = false];
///     repeated fixed32 fixed32 = 8 [packed = false];
///     repeated fixed64 fixed64 = 9 [packed = false];
///     repeated sfixed32 sfixed32 = 10 [packed = false];
///     repeated sfixed64 sfixed64 = 11 [packed = false];
/// }
///
/// The fields that aren't declared are passed over.
#[derive(Debug, Drop)]
pub struct Separate {
    pub int32: Vec<i32>,
    pub int64: Vec<i64>,
    pub uint32: Vec<u32>,
    pub uint64: Vec<u64>,
    pub sint32: Vec<i32>,
    pub sint64: Vec<i64>,
    pub truth: Vec<bool>,
    pub fixed32: Vec<u32>,
    pub fixed64: Vec<u64>,
    pub sfixed32: Vec<i32>,
    pub sfixed64: Vec<i64>,
}

impl MessageFields for Separate {
    type Meaning = And12<
        [i32; 0],
        [i64; 0],
        [u32; 0],
        [u64; 0],
        [i32; 0],
        [i64; 0],
        [bool; 0],
        [u32; 0],
        [u64; 0],
        [i32; 0],
        [i64; 0],
        (),
    >;

    const COST: usize = 264;

    ghost COST = { 264 };

    ghost positive = { lit< tt };

    ghost schema = { field 1 (λ m. m.int32) ⟦<RepeatedField<Int32> as Member>⟧.shape (
        field 2 (λ m. m.int64) ⟦<RepeatedField<Int64> as Member>⟧.shape (
        field 3 (λ m. m.uint32) ⟦<RepeatedField<Uint32> as Member>⟧.shape (
        field 4 (λ m. m.uint64) ⟦<RepeatedField<Uint64> as Member>⟧.shape (
        field 5 (λ m. m.sint32) ⟦<RepeatedField<Sint32> as Member>⟧.shape (
        field 6 (λ m. m.sint64) ⟦<RepeatedField<Sint64> as Member>⟧.shape (
        field 7 (λ m. m.truth) ⟦<RepeatedField<Bool> as Member>⟧.shape (
        field 8 (λ m. m.fixed32) ⟦<RepeatedField<Fixed32> as Member>⟧.shape (
        field 9 (λ m. m.fixed64) ⟦<RepeatedField<Fixed64> as Member>⟧.shape (
        field 10 (λ m. m.sfixed32) ⟦<RepeatedField<Sfixed32> as Member>⟧.shape (
        field 11 (λ m. m.sfixed64) ⟦<RepeatedField<Sfixed64> as Member>⟧.shape (
        skip_unknown))))))))))) };

    ghost sound = { refl };

    fn visit<V: Visitor>(&self, visitor: &mut V) {
        visitor.visit::<RepeatedField<Int32>>(1, &self.int32);
        visitor.visit::<RepeatedField<Int64>>(2, &self.int64);
        visitor.visit::<RepeatedField<Uint32>>(3, &self.uint32);
        visitor.visit::<RepeatedField<Uint64>>(4, &self.uint64);
        visitor.visit::<RepeatedField<Sint32>>(5, &self.sint32);
        visitor.visit::<RepeatedField<Sint64>>(6, &self.sint64);
        visitor.visit::<RepeatedField<Bool>>(7, &self.truth);
        visitor.visit::<RepeatedField<Fixed32>>(8, &self.fixed32);
        visitor.visit::<RepeatedField<Fixed64>>(9, &self.fixed64);
        visitor.visit::<RepeatedField<Sfixed32>>(10, &self.sfixed32);
        visitor.visit::<RepeatedField<Sfixed64>>(11, &self.sfixed64);
    }

    fn take(
        &mut self,
        alloc: Global,
        tag: Tag,
        buf: &mut &[u8],
        ctx: DecodeContext<'_>,
    ) -> Result<(), DecodeError> {
        match tag.field_number() {
            1 => RepeatedField::<Int32>::merge(&mut self.int32, alloc, tag, buf, ctx),
            2 => RepeatedField::<Int64>::merge(&mut self.int64, alloc, tag, buf, ctx),
            3 => RepeatedField::<Uint32>::merge(&mut self.uint32, alloc, tag, buf, ctx),
            4 => RepeatedField::<Uint64>::merge(&mut self.uint64, alloc, tag, buf, ctx),
            5 => RepeatedField::<Sint32>::merge(&mut self.sint32, alloc, tag, buf, ctx),
            6 => RepeatedField::<Sint64>::merge(&mut self.sint64, alloc, tag, buf, ctx),
            7 => RepeatedField::<Bool>::merge(&mut self.truth, alloc, tag, buf, ctx),
            8 => RepeatedField::<Fixed32>::merge(&mut self.fixed32, alloc, tag, buf, ctx),
            9 => RepeatedField::<Fixed64>::merge(&mut self.fixed64, alloc, tag, buf, ctx),
            10 => RepeatedField::<Sfixed32>::merge(&mut self.sfixed32, alloc, tag, buf, ctx),
            11 => RepeatedField::<Sfixed64>::merge(&mut self.sfixed64, alloc, tag, buf, ctx),
            _ => unknown::pass(tag, buf, ctx),
        }
    }
}

impl Blank for Separate {
    type Meaning = <Separate as MessageFields>::Meaning;

    ghost meaning = { ⟦<Separate as MessageFields>⟧.schema.meaning };

    ghost blank_is = { ⟦<Separate as MessageFields>⟧.schema.blank };

    fn blank(alloc: Global) -> Separate {
        Separate {
            int32: Vec::new(alloc),
            int64: Vec::new(alloc),
            uint32: Vec::new(alloc),
            uint64: Vec::new(alloc),
            sint32: Vec::new(alloc),
            sint64: Vec::new(alloc),
            truth: Vec::new(alloc),
            fixed32: Vec::new(alloc),
            fixed64: Vec::new(alloc),
            sfixed32: Vec::new(alloc),
            sfixed64: Vec::new(alloc),
        }
    }
}

impl FieldsMeaning for Separate {
    ghost means = { λ m. refl };

    ghost starts = { refl };
}

impl MessageImpl for Separate {
    type Impl = FieldByField;
}

const _: () = prove!(size_of::<Separate>() <= Separate::COST);

impl Separate {
    /// The full name of the message.
    pub const FULL_NAME: &'static str = "buffa.sample.Separate";
}
