//! google.protobuf.DescriptorProto.ReservedRange, made of descriptor.proto by protoc-gen-buffa.

ghost use Rattle.std.proofs.Common.{lit<, refl};
ghost use Rattle.buffa_fields.specs.Terms.{field, keep_unknown};

use buffa_fields::map_codec::Int32;
use buffa_fields::{
    And3, Blank, DecodeContext, DecodeError, ExplicitField, FieldByField, FieldsMeaning, Member,
    MessageFields, MessageImpl, Tag, UnknownFields, Unknowns, Visitor, unknown,
};
use std::alloc::Global;

/// A range of field numbers that no field may have.
///
/// message ReservedRange {
///     optional int32 start = 1;
///     optional int32 end = 2;
/// }
#[derive(Debug, Drop)]
pub struct DescriptorProtoReservedRange {
    /// The first number.
    pub start: Option<i32>,
    /// The number behind the last one.
    pub end: Option<i32>,
    /// The fields that aren't declared, in order.
    pub unknown_fields: UnknownFields,
}

impl MessageFields for DescriptorProtoReservedRange {
    type Meaning = And3<Option<i32>, Option<i32>, Unknowns>;

    const COST: usize = 56;

    ghost COST = { 56 };

    ghost positive = { lit< tt };

    ghost schema = { field 1 (λ m. m.start) ⟦<ExplicitField<Int32> as Member>⟧.shape (
        field 2 (λ m. m.end) ⟦<ExplicitField<Int32> as Member>⟧.shape (
        keep_unknown (λ m. m.unknown_fields.records))) };

    ghost sound = { refl };

    fn visit<V: Visitor>(&self, visitor: &mut V) {
        visitor.visit::<ExplicitField<Int32>>(1, &self.start);
        visitor.visit::<ExplicitField<Int32>>(2, &self.end);
        visitor.visit_unknown_fields(&self.unknown_fields);
    }

    fn take(
        &mut self,
        alloc: Global,
        tag: Tag,
        buf: &mut &[u8],
        ctx: DecodeContext<'_>,
    ) -> Result<(), DecodeError> {
        match tag.field_number() {
            1 => ExplicitField::<Int32>::merge(&mut self.start, alloc, tag, buf, ctx),
            2 => ExplicitField::<Int32>::merge(&mut self.end, alloc, tag, buf, ctx),
            _ => unknown::keep(alloc, &mut self.unknown_fields, tag, buf, ctx),
        }
    }
}

impl Blank for DescriptorProtoReservedRange {
    type Meaning = <DescriptorProtoReservedRange as MessageFields>::Meaning;

    ghost meaning = { ⟦<DescriptorProtoReservedRange as MessageFields>⟧.schema.meaning };

    ghost blank_is = { ⟦<DescriptorProtoReservedRange as MessageFields>⟧.schema.blank };

    fn blank(alloc: Global) -> DescriptorProtoReservedRange {
        DescriptorProtoReservedRange {
            start: None,
            end: None,
            unknown_fields: UnknownFields::new(alloc),
        }
    }
}

impl FieldsMeaning for DescriptorProtoReservedRange {
    ghost means = { λ m. refl };

    ghost starts = { refl };
}

impl MessageImpl for DescriptorProtoReservedRange {
    type Impl = FieldByField;
}

const _: () = prove!(
    size_of::<DescriptorProtoReservedRange>() <= DescriptorProtoReservedRange::COST
);

impl DescriptorProtoReservedRange {
    ghost use Rattle.std.specs.Prelude.{pos, unwrap_or, ◌≡◌};

    /// The full name of the message.
    pub const FULL_NAME: &'static str = "google.protobuf.DescriptorProto.ReservedRange";

    /// `start`, or the default of its type where it isn't there: 0.
    pub fn start(&self) -> i32
        ensures is { result ≡ unwrap_or self.now.start (pos 0) }
    {
        self.start.unwrap_or(0)
    }

    /// `end`, or the default of its type where it isn't there: 0.
    pub fn end(&self) -> i32
        ensures is { result ≡ unwrap_or self.now.end (pos 0) }
    {
        self.end.unwrap_or(0)
    }
}
