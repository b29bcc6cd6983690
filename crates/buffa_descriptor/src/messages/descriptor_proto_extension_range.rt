//! google.protobuf.DescriptorProto.ExtensionRange, made of descriptor.proto by protoc-gen-buffa.

ghost use Rattle.std.proofs.Common.{lit<, refl};
ghost use Rattle.buffa_fields.specs.Terms.{field, keep_unknown};

use crate::messages::extension_range_options::ExtensionRangeOptions;
use buffa_fields::map_codec::Int32;
use buffa_fields::{
    And4, Blank, DecodeContext, DecodeError, ExplicitField, FieldByField, FieldsMeaning, Member,
    MessageField, MessageFields, MessageImpl, Tag, UnknownFields, Unknowns, Visitor, unknown,
};
use std::alloc::Global;

/// A range of field numbers that are for extensions.
///
/// message ExtensionRange {
///     optional int32 start = 1;
///     optional int32 end = 2;
///     optional ExtensionRangeOptions options = 3;
/// }
#[derive(Debug, Drop)]
pub struct DescriptorProtoExtensionRange {
    /// The first number.
    pub start: Option<i32>,
    /// The number behind the last one.
    pub end: Option<i32>,
    /// The options of the range.
    pub options: Option<ExtensionRangeOptions>,
    /// The fields that aren't declared, in order.
    pub unknown_fields: UnknownFields,
}

impl MessageFields for DescriptorProtoExtensionRange {
    type Meaning = And4<
        Option<i32>,
        Option<i32>,
        Option<<ExtensionRangeOptions as Blank>::Meaning>,
        Unknowns,
    >;

    const COST: usize = 88;

    ghost COST = { 88 };

    ghost positive = { lit< tt };

    ghost schema = { field 1 (λ m. m.start) ⟦<ExplicitField<Int32> as Member>⟧.shape (
        field 2 (λ m. m.end) ⟦<ExplicitField<Int32> as Member>⟧.shape (
        field 3 (λ m. m.options) ⟦<MessageField<ExtensionRangeOptions> as Member>⟧.shape (
        keep_unknown (λ m. m.unknown_fields.records)))) };

    ghost sound = { refl };

    fn visit<V: Visitor>(&self, visitor: &mut V) {
        visitor.visit::<ExplicitField<Int32>>(1, &self.start);
        visitor.visit::<ExplicitField<Int32>>(2, &self.end);
        visitor.visit::<MessageField<ExtensionRangeOptions>>(3, &self.options);
        visitor.visit_unknown_fields(&self.unknown_fields);
    }

    fn take(
        &mut self,
        alloc: Global,
        tag: Tag,
        buf: &mut &[u8],
        ctx: DecodeContext<'_>,
    ) -> Result<(), DecodeError> {
        match tag.field_number() {
            1 => ExplicitField::<Int32>::merge(&mut self.start, alloc, tag, buf, ctx),
            2 => ExplicitField::<Int32>::merge(&mut self.end, alloc, tag, buf, ctx),
            3 => MessageField::<ExtensionRangeOptions>::merge(
                &mut self.options,
                alloc,
                tag,
                buf,
                ctx,
            ),
            _ => unknown::keep(alloc, &mut self.unknown_fields, tag, buf, ctx),
        }
    }
}

impl Blank for DescriptorProtoExtensionRange {
    type Meaning = <DescriptorProtoExtensionRange as MessageFields>::Meaning;

    ghost meaning = { ⟦<DescriptorProtoExtensionRange as MessageFields>⟧.schema.meaning };

    ghost blank_is = { ⟦<DescriptorProtoExtensionRange as MessageFields>⟧.schema.blank };

    fn blank(alloc: Global) -> DescriptorProtoExtensionRange {
        DescriptorProtoExtensionRange {
            start: None,
            end: None,
            options: None,
            unknown_fields: UnknownFields::new(alloc),
        }
    }
}

impl FieldsMeaning for DescriptorProtoExtensionRange {
    ghost means = { λ m. refl };

    ghost starts = { refl };
}

impl MessageImpl for DescriptorProtoExtensionRange {
    type Impl = FieldByField;
}

const _: () = prove!(
    size_of::<DescriptorProtoExtensionRange>() <= DescriptorProtoExtensionRange::COST
);

impl DescriptorProtoExtensionRange {
    ghost use Rattle.std.specs.Prelude.{pos, unwrap_or, ◌≡◌};

    /// The full name of the message.
    pub const FULL_NAME: &'static str = "google.protobuf.DescriptorProto.ExtensionRange";

    /// `start`, or the default of its type where it isn't there: 0.
    pub fn start(&self) -> i32
        ensures is { result ≡ unwrap_or self.now.start (pos 0) }
    {
        self.start.unwrap_or(0)
    }

    /// `end`, or the default of its type where it isn't there: 0.
    pub fn end(&self) -> i32
        ensures is { result ≡ unwrap_or self.now.end (pos 0) }
    {
        self.end.unwrap_or(0)
    }
}
