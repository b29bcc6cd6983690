//! buffa.sample.Joined, made of members.proto by protoc-gen-buffa.

ghost use Rattle.std.proofs.Common.{lit<, refl};
ghost use Rattle.buffa_fields.specs.Terms.{field, keep_unknown};

use buffa_fields::map_codec::{
    Bool, Fixed32, Fixed64, Int32, Int64, Sfixed32, Sfixed64, Sint32, Sint64, Uint32, Uint64,
};
use buffa_fields::{
    And12, Blank, DecodeContext, DecodeError, FieldByField, FieldsMeaning, Member, MessageFields,
    MessageImpl, PackedField, Tag, UnknownFields, Unknowns, Visitor, unknown,
};
use std::alloc::Global;

/// Lists of numbers, packed.
///
/// message Joined {
///     repeated int32 int32 = 1;
///     repeated int64 int64 = 2;
///     repeated uint32 uint32 = 3;
///     repeated uint64 uint64 = 4;
///     repeated sint32 sint32 = 5;
///     repeated sint64 sint64 = 6;
///     repeated bool truth = 7;
///     repeated fixed32 fixed32 = 15;
///     repeated fixed64 fixed64 = 16;
///     repeated sfixed32 sfixed32 = 2047;
///     repeated sfixed64 sfixed64 = 2048;
/// }
#[derive(Debug, Drop)]
pub struct Joined {
    pub int32: Vec<i32>,
    pub int64: Vec<i64>,
    pub uint32: Vec<u32>,
    pub uint64: Vec<u64>,
    pub sint32: Vec<i32>,
    pub sint64: Vec<i64>,
    pub truth: Vec<bool>,
    pub fixed32: Vec<u32>,
    pub fixed64: Vec<u64>,
    pub sfixed32: Vec<i32>,
    pub sfixed64: Vec<i64>,
    /// The fields that aren't declared, in order.
    pub unknown_fields: UnknownFields,
}

impl MessageFields for Joined {
    type Meaning = And12<
        [i32; 0],
        [i64; 0],
        [u32; 0],
        [u64; 0],
        [i32; 0],
        [i64; 0],
        [bool; 0],
        [u32; 0],
        [u64; 0],
        [i32; 0],
        [i64; 0],
        Unknowns,
    >;

    const COST: usize = 288;

    ghost COST = { 288 };

    ghost positive = { lit< tt };

    ghost schema = { field 1 (λ m. m.int32) ⟦<PackedField<Int32> as Member>⟧.shape (
        field 2 (λ m. m.int64) ⟦<PackedField<Int64> as Member>⟧.shape (
        field 3 (λ m. m.uint32) ⟦<PackedField<Uint32> as Member>⟧.shape (
        field 4 (λ m. m.uint64) ⟦<PackedField<Uint64> as Member>⟧.shape (
        field 5 (λ m. m.sint32) ⟦<PackedField<Sint32> as Member>⟧.shape (
        field 6 (λ m. m.sint64) ⟦<PackedField<Sint64> as Member>⟧.shape (
        field 7 (λ m. m.truth) ⟦<PackedField<Bool> as Member>⟧.shape (
        field 15 (λ m. m.fixed32) ⟦<PackedField<Fixed32> as Member>⟧.shape (
        field 16 (λ m. m.fixed64) ⟦<PackedField<Fixed64> as Member>⟧.shape (
        field 2047 (λ m. m.sfixed32) ⟦<PackedField<Sfixed32> as Member>⟧.shape (
        field 2048 (λ m. m.sfixed64) ⟦<PackedField<Sfixed64> as Member>⟧.shape (
        keep_unknown (λ m. m.unknown_fields.records)))))))))))) };

    ghost sound = { refl };

    fn visit<V: Visitor>(&self, visitor: &mut V) {
        visitor.visit::<PackedField<Int32>>(1, &self.int32);
        visitor.visit::<PackedField<Int64>>(2, &self.int64);
        visitor.visit::<PackedField<Uint32>>(3, &self.uint32);
        visitor.visit::<PackedField<Uint64>>(4, &self.uint64);
        visitor.visit::<PackedField<Sint32>>(5, &self.sint32);
        visitor.visit::<PackedField<Sint64>>(6, &self.sint64);
        visitor.visit::<PackedField<Bool>>(7, &self.truth);
        visitor.visit::<PackedField<Fixed32>>(15, &self.fixed32);
        visitor.visit::<PackedField<Fixed64>>(16, &self.fixed64);
        visitor.visit::<PackedField<Sfixed32>>(2047, &self.sfixed32);
        visitor.visit::<PackedField<Sfixed64>>(2048, &self.sfixed64);
        visitor.visit_unknown_fields(&self.unknown_fields);
    }

    fn take(
        &mut self,
        alloc: Global,
        tag: Tag,
        buf: &mut &[u8],
        ctx: DecodeContext<'_>,
    ) -> Result<(), DecodeError> {
        match tag.field_number() {
            1 => PackedField::<Int32>::merge(&mut self.int32, alloc, tag, buf, ctx),
            2 => PackedField::<Int64>::merge(&mut self.int64, alloc, tag, buf, ctx),
            3 => PackedField::<Uint32>::merge(&mut self.uint32, alloc, tag, buf, ctx),
            4 => PackedField::<Uint64>::merge(&mut self.uint64, alloc, tag, buf, ctx),
            5 => PackedField::<Sint32>::merge(&mut self.sint32, alloc, tag, buf, ctx),
            6 => PackedField::<Sint64>::merge(&mut self.sint64, alloc, tag, buf, ctx),
            7 => PackedField::<Bool>::merge(&mut self.truth, alloc, tag, buf, ctx),
            15 => PackedField::<Fixed32>::merge(&mut self.fixed32, alloc, tag, buf, ctx),
            16 => PackedField::<Fixed64>::merge(&mut self.fixed64, alloc, tag, buf, ctx),
            2047 => PackedField::<Sfixed32>::merge(&mut self.sfixed32, alloc, tag, buf, ctx),
            2048 => PackedField::<Sfixed64>::merge(&mut self.sfixed64, alloc, tag, buf, ctx),
            _ => unknown::keep(alloc, &mut self.unknown_fields, tag, buf, ctx),
        }
    }
}

impl Blank for Joined {
    type Meaning = <Joined as MessageFields>::Meaning;

    ghost meaning = { ⟦<Joined as MessageFields>⟧.schema.meaning };

    ghost blank_is = { ⟦<Joined as MessageFields>⟧.schema.blank };

    fn blank(alloc: Global) -> Joined {
        Joined {
            int32: Vec::new(alloc),
            int64: Vec::new(alloc),
            uint32: Vec::new(alloc),
            uint64: Vec::new(alloc),
            sint32: Vec::new(alloc),
            sint64: Vec::new(alloc),
            truth: Vec::new(alloc),
            fixed32: Vec::new(alloc),
            fixed64: Vec::new(alloc),
            sfixed32: Vec::new(alloc),
            sfixed64: Vec::new(alloc),
            unknown_fields: UnknownFields::new(alloc),
        }
    }
}

impl FieldsMeaning for Joined {
    ghost means = { λ m. refl };

    ghost starts = { refl };
}

impl MessageImpl for Joined {
    type Impl = FieldByField;
}

const _: () = prove!(size_of::<Joined>() <= Joined::COST);

impl Joined {
    /// The full name of the message.
    pub const FULL_NAME: &'static str = "buffa.sample.Joined";
}
