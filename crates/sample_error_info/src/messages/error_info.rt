//! google.rpc.ErrorInfo, made of error_info.proto by protoc-gen-buffa.

ghost use Rattle.std.proofs.Common.{lit<, refl};
ghost use Rattle.buffa_fields.specs.Terms.{field, keep_unknown};

use buffa_fields::map_codec::{Map, Str};
use buffa_fields::{
    And, And4, Blank, DecodeContext, DecodeError, FieldByField, FieldsMeaning, ImplicitField,
    MapField, Member, MessageFields, MessageImpl, Tag, UnknownFields, Unknowns, Visitor, unknown,
};
use std::alloc::Global;
use std::string::String;

/// Describes the cause of the error with structured details.
///
/// message ErrorInfo {
///     string reason = 1;
///     string domain = 2;
///     map<string, string> metadata = 3;
/// }
#[derive(Debug, Drop)]
pub struct ErrorInfo {
    /// The reason of the error: a constant value that is unique within its domain.
    pub reason: String,
    /// The logical grouping to which the reason belongs, as a rule the name of the service.
    pub domain: String,
    /// Additional structured details about this error.
    pub metadata: Map<String, String>,
    /// The fields that aren't declared, in order.
    pub unknown_fields: UnknownFields,
}

impl MessageFields for ErrorInfo {
    type Meaning = And4<[u8; 0], [u8; 0], [And<[u8; 0], [u8; 0]>; 0], Unknowns>;

    const COST: usize = 184;

    ghost COST = { 184 };

    ghost positive = { lit< tt };

    ghost schema = { field 1 (λ m. m.reason) ⟦<ImplicitField<Str> as Member>⟧.shape (
        field 2 (λ m. m.domain) ⟦<ImplicitField<Str> as Member>⟧.shape (
        field 3 (λ m. m.metadata) ⟦<MapField<Str, Str> as Member>⟧.shape (
        keep_unknown (λ m. m.unknown_fields.records)))) };

    ghost sound = { refl };

    fn visit<V: Visitor>(&self, visitor: &mut V) {
        visitor.visit::<ImplicitField<Str>>(1, &self.reason);
        visitor.visit::<ImplicitField<Str>>(2, &self.domain);
        visitor.visit::<MapField<Str, Str>>(3, &self.metadata);
        visitor.visit_unknown_fields(&self.unknown_fields);
    }

    fn take(
        &mut self,
        alloc: Global,
        tag: Tag,
        buf: &mut &[u8],
        ctx: DecodeContext<'_>,
    ) -> Result<(), DecodeError> {
        match tag.field_number() {
            1 => ImplicitField::<Str>::merge(&mut self.reason, alloc, tag, buf, ctx),
            2 => ImplicitField::<Str>::merge(&mut self.domain, alloc, tag, buf, ctx),
            3 => MapField::<Str, Str>::merge(&mut self.metadata, alloc, tag, buf, ctx),
            _ => unknown::keep(alloc, &mut self.unknown_fields, tag, buf, ctx),
        }
    }
}

impl Blank for ErrorInfo {
    type Meaning = <ErrorInfo as MessageFields>::Meaning;

    ghost meaning = { ⟦<ErrorInfo as MessageFields>⟧.schema.meaning };

    ghost blank_is = { ⟦<ErrorInfo as MessageFields>⟧.schema.blank };

    fn blank(alloc: Global) -> ErrorInfo {
        ErrorInfo {
            reason: String::new(alloc),
            domain: String::new(alloc),
            metadata: Map::new(alloc),
            unknown_fields: UnknownFields::new(alloc),
        }
    }
}

impl FieldsMeaning for ErrorInfo {
    ghost means = { λ m. refl };

    ghost starts = { refl };
}

impl MessageImpl for ErrorInfo {
    type Impl = FieldByField;
}

const _: () = prove!(size_of::<ErrorInfo>() <= ErrorInfo::COST);

impl ErrorInfo {
    /// The full name of the message.
    pub const FULL_NAME: &'static str = "google.rpc.ErrorInfo";
}
