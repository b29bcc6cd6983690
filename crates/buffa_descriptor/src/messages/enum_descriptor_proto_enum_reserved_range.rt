//! google.protobuf.EnumDescriptorProto.EnumReservedRange, made of descriptor.proto by protoc-gen-buffa.

ghost use Rattle.std.proofs.Common.{lit<, refl};
ghost use Rattle.buffa_fields.specs.Terms.{field, keep_unknown};

use buffa_fields::map_codec::Int32;
use buffa_fields::{
    And3, Blank, DecodeContext, DecodeError, ExplicitField, FieldByField, FieldsMeaning, Member,
    MessageFields, MessageImpl, Tag, UnknownFields, Unknowns, Visitor, unknown,
};
use std::alloc::Global;

/// A range of numbers that no value may have.
///
/// message EnumReservedRange {
///     optional int32 start = 1;
///     optional int32 end = 2;
/// }
#[derive(Debug, Drop)]
pub struct EnumDescriptorProtoEnumReservedRange {
    /// The first number.
    pub start: Option<i32>,
    /// The last number.
    pub end: Option<i32>,
    /// The fields that aren't declared, in order.
    pub unknown_fields: UnknownFields,
}

impl MessageFields for EnumDescriptorProtoEnumReservedRange {
    type Meaning = And3<Option<i32>, Option<i32>, Unknowns>;

    const COST: usize = 56;

    ghost COST = { 56 };

    ghost positive = { lit< tt };

    ghost schema = { field 1 (λ m. m.start) ⟦<ExplicitField<Int32> as Member>⟧.shape (
        field 2 (λ m. m.end) ⟦<ExplicitField<Int32> as Member>⟧.shape (
        keep_unknown (λ m. m.unknown_fields.records))) };

    ghost sound = { refl };

    fn visit<V: Visitor>(&self, visitor: &mut V) {
        visitor.visit::<ExplicitField<Int32>>(1, &self.start);
        visitor.visit::<ExplicitField<Int32>>(2, &self.end);
        visitor.visit_unknown_fields(&self.unknown_fields);
    }

    fn take(
        &mut self,
        alloc: Global,
        tag: Tag,
        buf: &mut &[u8],
        ctx: DecodeContext<'_>,
    ) -> Result<(), DecodeError> {
        match tag.field_number() {
            1 => ExplicitField::<Int32>::merge(&mut self.start, alloc, tag, buf, ctx),
            2 => ExplicitField::<Int32>::merge(&mut self.end, alloc, tag, buf, ctx),
            _ => unknown::keep(alloc, &mut self.unknown_fields, tag, buf, ctx),
        }
    }
}

impl Blank for EnumDescriptorProtoEnumReservedRange {
    type Meaning = <EnumDescriptorProtoEnumReservedRange as MessageFields>::Meaning;

    ghost meaning = { ⟦<EnumDescriptorProtoEnumReservedRange as MessageFields>⟧.schema.meaning };

    ghost blank_is = { ⟦<EnumDescriptorProtoEnumReservedRange as MessageFields>⟧.schema.blank };

    fn blank(alloc: Global) -> EnumDescriptorProtoEnumReservedRange {
        EnumDescriptorProtoEnumReservedRange {
            start: None,
            end: None,
            unknown_fields: UnknownFields::new(alloc),
        }
    }
}

impl FieldsMeaning for EnumDescriptorProtoEnumReservedRange {
    ghost means = { λ m. refl };

    ghost starts = { refl };
}

impl MessageImpl for EnumDescriptorProtoEnumReservedRange {
    type Impl = FieldByField;
}

const _: () = prove!(
    size_of::<EnumDescriptorProtoEnumReservedRange>() <= EnumDescriptorProtoEnumReservedRange::COST
);

impl EnumDescriptorProtoEnumReservedRange {
    ghost use Rattle.std.specs.Prelude.{pos, unwrap_or, ◌≡◌};

    /// The full name of the message.
    pub const FULL_NAME: &'static str = "google.protobuf.EnumDescriptorProto.EnumReservedRange";

    /// `start`, or the default of its type where it isn't there: 0.
    pub fn start(&self) -> i32
        ensures is { result ≡ unwrap_or self.now.start (pos 0) }
    {
        self.start.unwrap_or(0)
    }

    /// `end`, or the default of its type where it isn't there: 0.
    pub fn end(&self) -> i32
        ensures is { result ≡ unwrap_or self.now.end (pos 0) }
    {
        self.end.unwrap_or(0)
    }
}
