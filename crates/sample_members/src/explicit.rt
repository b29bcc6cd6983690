//! buffa.sample.Explicit, made of members.proto by protoc-gen-buffa.

ghost use Rattle.std.proofs.Common.{lit<, refl};
ghost use Rattle.buffa_fields.specs.Terms.{field, keep_unknown};

use buffa_fields::map_codec::{
    Bool, Fixed32, Fixed64, Int32, Int64, Sfixed32, Sfixed64, Sint32, Sint64, Uint32, Uint64,
};
use buffa_fields::{
    And12, Blank, DecodeContext, DecodeError, ExplicitField, FieldByField, FieldsMeaning, Member,
    MessageFields, MessageImpl, Tag, UnknownFields, Unknowns, Visitor, unknown,
};
use std::alloc::Global;

/// Numbers of explicit presence: one that is the default is written where it is there.
///
/// message Explicit {
///     optional int32 int32 = 1;
///     optional int64 int64 = 2;
///     optional uint32 uint32 = 3;
///     optional uint64 uint64 = 4;
///     optional sint32 sint32 = 5;
///     optional sint64 sint64 = 6;
///     optional bool truth = 7;
///     optional fixed32 fixed32 = 8;
///     optional fixed64 fixed64 = 15;
///     optional sfixed32 sfixed32 = 16;
///     optional sfixed64 sfixed64 = 536870911;
/// }
#[derive(Debug, Drop)]
pub struct Explicit {
    pub int32: Option<i32>,
    pub int64: Option<i64>,
    pub uint32: Option<u32>,
    pub uint64: Option<u64>,
    pub sint32: Option<i32>,
    pub sint64: Option<i64>,
    pub truth: Option<bool>,
    pub fixed32: Option<u32>,
    pub fixed64: Option<u64>,
    pub sfixed32: Option<i32>,
    pub sfixed64: Option<i64>,
    /// The fields that aren't declared, in order.
    pub unknown_fields: UnknownFields,
}

impl MessageFields for Explicit {
    type Meaning = And12<
        Option<i32>,
        Option<i64>,
        Option<u32>,
        Option<u64>,
        Option<i32>,
        Option<i64>,
        Option<bool>,
        Option<u32>,
        Option<u64>,
        Option<i32>,
        Option<i64>,
        Unknowns,
    >;

    const COST: usize = 160;

    ghost COST = { 160 };

    ghost positive = { lit< tt };

    ghost schema = { field 1 (λ m. m.int32) ⟦<ExplicitField<Int32> as Member>⟧.shape (
        field 2 (λ m. m.int64) ⟦<ExplicitField<Int64> as Member>⟧.shape (
        field 3 (λ m. m.uint32) ⟦<ExplicitField<Uint32> as Member>⟧.shape (
        field 4 (λ m. m.uint64) ⟦<ExplicitField<Uint64> as Member>⟧.shape (
        field 5 (λ m. m.sint32) ⟦<ExplicitField<Sint32> as Member>⟧.shape (
        field 6 (λ m. m.sint64) ⟦<ExplicitField<Sint64> as Member>⟧.shape (
        field 7 (λ m. m.truth) ⟦<ExplicitField<Bool> as Member>⟧.shape (
        field 8 (λ m. m.fixed32) ⟦<ExplicitField<Fixed32> as Member>⟧.shape (
        field 15 (λ m. m.fixed64) ⟦<ExplicitField<Fixed64> as Member>⟧.shape (
        field 16 (λ m. m.sfixed32) ⟦<ExplicitField<Sfixed32> as Member>⟧.shape (
        field 536870911 (λ m. m.sfixed64) ⟦<ExplicitField<Sfixed64> as Member>⟧.shape (
        keep_unknown (λ m. m.unknown_fields.records)))))))))))) };

    ghost sound = { refl };

    fn visit<V: Visitor>(&self, visitor: &mut V) {
        visitor.visit::<ExplicitField<Int32>>(1, &self.int32);
        visitor.visit::<ExplicitField<Int64>>(2, &self.int64);
        visitor.visit::<ExplicitField<Uint32>>(3, &self.uint32);
        visitor.visit::<ExplicitField<Uint64>>(4, &self.uint64);
        visitor.visit::<ExplicitField<Sint32>>(5, &self.sint32);
        visitor.visit::<ExplicitField<Sint64>>(6, &self.sint64);
        visitor.visit::<ExplicitField<Bool>>(7, &self.truth);
        visitor.visit::<ExplicitField<Fixed32>>(8, &self.fixed32);
        visitor.visit::<ExplicitField<Fixed64>>(15, &self.fixed64);
        visitor.visit::<ExplicitField<Sfixed32>>(16, &self.sfixed32);
        visitor.visit::<ExplicitField<Sfixed64>>(536870911, &self.sfixed64);
        visitor.visit_unknown_fields(&self.unknown_fields);
    }

    fn take(
        &mut self,
        alloc: Global,
        tag: Tag,
        buf: &mut &[u8],
        ctx: DecodeContext<'_>,
    ) -> Result<(), DecodeError> {
        match tag.field_number() {
            1 => ExplicitField::<Int32>::merge(&mut self.int32, alloc, tag, buf, ctx),
            2 => ExplicitField::<Int64>::merge(&mut self.int64, alloc, tag, buf, ctx),
            3 => ExplicitField::<Uint32>::merge(&mut self.uint32, alloc, tag, buf, ctx),
            4 => ExplicitField::<Uint64>::merge(&mut self.uint64, alloc, tag, buf, ctx),
            5 => ExplicitField::<Sint32>::merge(&mut self.sint32, alloc, tag, buf, ctx),
            6 => ExplicitField::<Sint64>::merge(&mut self.sint64, alloc, tag, buf, ctx),
            7 => ExplicitField::<Bool>::merge(&mut self.truth, alloc, tag, buf, ctx),
            8 => ExplicitField::<Fixed32>::merge(&mut self.fixed32, alloc, tag, buf, ctx),
            15 => ExplicitField::<Fixed64>::merge(&mut self.fixed64, alloc, tag, buf, ctx),
            16 => ExplicitField::<Sfixed32>::merge(&mut self.sfixed32, alloc, tag, buf, ctx),
            536870911 => ExplicitField::<Sfixed64>::merge(&mut self.sfixed64, alloc, tag, buf, ctx),
            _ => unknown::keep(alloc, &mut self.unknown_fields, tag, buf, ctx),
        }
    }
}

impl Blank for Explicit {
    type Meaning = <Explicit as MessageFields>::Meaning;

    ghost meaning = { ⟦<Explicit as MessageFields>⟧.schema.meaning };

    ghost blank_is = { ⟦<Explicit as MessageFields>⟧.schema.blank };

    fn blank(alloc: Global) -> Explicit {
        Explicit {
            int32: None,
            int64: None,
            uint32: None,
            uint64: None,
            sint32: None,
            sint64: None,
            truth: None,
            fixed32: None,
            fixed64: None,
            sfixed32: None,
            sfixed64: None,
            unknown_fields: UnknownFields::new(alloc),
        }
    }
}

impl FieldsMeaning for Explicit {
    ghost means = { λ m. refl };

    ghost starts = { refl };
}

impl MessageImpl for Explicit {
    type Impl = FieldByField;
}

impl Explicit {
    ghost use Rattle.std.specs.Prelude.{false, pos, unwrap_or, ◌≡◌};

    /// The full name of the message.
    pub const FULL_NAME: &'static str = "buffa.sample.Explicit";

    /// `int32`, or the default of its type where it isn't there: 0.
    pub fn int32(&self) -> i32
        ensures is { result ≡ unwrap_or self.now.int32 (pos 0) }
    {
        self.int32.unwrap_or(0)
    }

    /// `int64`, or the default of its type where it isn't there: 0.
    pub fn int64(&self) -> i64
        ensures is { result ≡ unwrap_or self.now.int64 (pos 0) }
    {
        self.int64.unwrap_or(0)
    }

    /// `uint32`, or the default of its type where it isn't there: 0.
    pub fn uint32(&self) -> u32
        ensures is { result ≡ unwrap_or self.now.uint32 0 }
    {
        self.uint32.unwrap_or(0)
    }

    /// `uint64`, or the default of its type where it isn't there: 0.
    pub fn uint64(&self) -> u64
        ensures is { result ≡ unwrap_or self.now.uint64 0 }
    {
        self.uint64.unwrap_or(0)
    }

    /// `sint32`, or the default of its type where it isn't there: 0.
    pub fn sint32(&self) -> i32
        ensures is { result ≡ unwrap_or self.now.sint32 (pos 0) }
    {
        self.sint32.unwrap_or(0)
    }

    /// `sint64`, or the default of its type where it isn't there: 0.
    pub fn sint64(&self) -> i64
        ensures is { result ≡ unwrap_or self.now.sint64 (pos 0) }
    {
        self.sint64.unwrap_or(0)
    }

    /// `truth`, or the default of its type where it isn't there: false.
    pub fn truth(&self) -> bool
        ensures is { result ≡ unwrap_or self.now.truth false }
    {
        self.truth.unwrap_or(false)
    }

    /// `fixed32`, or the default of its type where it isn't there: 0.
    pub fn fixed32(&self) -> u32
        ensures is { result ≡ unwrap_or self.now.fixed32 0 }
    {
        self.fixed32.unwrap_or(0)
    }

    /// `fixed64`, or the default of its type where it isn't there: 0.
    pub fn fixed64(&self) -> u64
        ensures is { result ≡ unwrap_or self.now.fixed64 0 }
    {
        self.fixed64.unwrap_or(0)
    }

    /// `sfixed32`, or the default of its type where it isn't there: 0.
    pub fn sfixed32(&self) -> i32
        ensures is { result ≡ unwrap_or self.now.sfixed32 (pos 0) }
    {
        self.sfixed32.unwrap_or(0)
    }

    /// `sfixed64`, or the default of its type where it isn't there: 0.
    pub fn sfixed64(&self) -> i64
        ensures is { result ≡ unwrap_or self.now.sfixed64 (pos 0) }
    {
        self.sfixed64.unwrap_or(0)
    }
}
