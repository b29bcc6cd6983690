//! google.protobuf.SourceCodeInfo.Location, made of descriptor.proto by protoc-gen-buffa.

ghost use Rattle.std.proofs.Common.{lit<, refl};
ghost use Rattle.buffa_fields.specs.Terms.{field, keep_unknown};

use buffa_fields::map_codec::{Int32, Str};
use buffa_fields::{
    And6, Blank, DecodeContext, DecodeError, ExplicitField, FieldByField, FieldsMeaning, Member,
    MessageFields, MessageImpl, PackedField, RepeatedField, Tag, UnknownFields, Unknowns, Visitor,
    unknown,
};
use std::alloc::Global;
use std::string::String;

/// A piece of the text, and what is declared there.
///
/// message Location {
///     repeated int32 path = 1 [packed = true];
///     repeated int32 span = 2 [packed = true];
///     optional string leading_comments = 3;
///     optional string trailing_comments = 4;
///     repeated string leading_detached_comments = 6;
/// }
#[derive(Debug, Drop)]
pub struct SourceCodeInfoLocation {
    /// The way to what is declared: from the file, the number of a field, and where that is repeated, which
    /// one of it, counted from 0, and so on.
    pub path: Vec<i32>,
    /// The line and the column of its beginning, the line of its end where it is another one, and the
    /// column behind its end, each counted from 0.
    pub span: Vec<i32>,
    /// The comment before it.
    pub leading_comments: Option<String>,
    /// The comment behind it.
    pub trailing_comments: Option<String>,
    /// The comments before it that an empty line parts from it.
    pub leading_detached_comments: Vec<String>,
    /// The fields that aren't declared, in order.
    pub unknown_fields: UnknownFields,
}

impl MessageFields for SourceCodeInfoLocation {
    type Meaning = And6<
        [i32; 0],
        [i32; 0],
        Option<[u8; 0]>,
        Option<[u8; 0]>,
        [[u8; 0]; 0],
        Unknowns,
    >;

    const COST: usize = 160;

    ghost COST = { 160 };

    ghost positive = { lit< tt };

    ghost schema = { field 1 (λ m. m.path) ⟦<PackedField<Int32> as Member>⟧.shape (
        field 2 (λ m. m.span) ⟦<PackedField<Int32> as Member>⟧.shape (
        field 3 (λ m. m.leading_comments) ⟦<ExplicitField<Str> as Member>⟧.shape (
        field 4 (λ m. m.trailing_comments) ⟦<ExplicitField<Str> as Member>⟧.shape (
        field 6 (λ m. m.leading_detached_comments) ⟦<RepeatedField<Str> as Member>⟧.shape (
        keep_unknown (λ m. m.unknown_fields.records)))))) };

    ghost sound = { refl };

    fn visit<V: Visitor>(&self, visitor: &mut V) {
        visitor.visit::<PackedField<Int32>>(1, &self.path);
        visitor.visit::<PackedField<Int32>>(2, &self.span);
        visitor.visit::<ExplicitField<Str>>(3, &self.leading_comments);
        visitor.visit::<ExplicitField<Str>>(4, &self.trailing_comments);
        visitor.visit::<RepeatedField<Str>>(6, &self.leading_detached_comments);
        visitor.visit_unknown_fields(&self.unknown_fields);
    }

    fn take(
        &mut self,
        alloc: Global,
        tag: Tag,
        buf: &mut &[u8],
        ctx: DecodeContext<'_>,
    ) -> Result<(), DecodeError> {
        match tag.field_number() {
            1 => PackedField::<Int32>::merge(&mut self.path, alloc, tag, buf, ctx),
            2 => PackedField::<Int32>::merge(&mut self.span, alloc, tag, buf, ctx),
            3 => ExplicitField::<Str>::merge(&mut self.leading_comments, alloc, tag, buf, ctx),
            4 => ExplicitField::<Str>::merge(&mut self.trailing_comments, alloc, tag, buf, ctx),
            6 => RepeatedField::<Str>::merge(
                &mut self.leading_detached_comments,
                alloc,
                tag,
                buf,
                ctx,
            ),
            _ => unknown::keep(alloc, &mut self.unknown_fields, tag, buf, ctx),
        }
    }
}

impl Blank for SourceCodeInfoLocation {
    type Meaning = <SourceCodeInfoLocation as MessageFields>::Meaning;

    ghost meaning = { ⟦<SourceCodeInfoLocation as MessageFields>⟧.schema.meaning };

    ghost blank_is = { ⟦<SourceCodeInfoLocation as MessageFields>⟧.schema.blank };

    fn blank(alloc: Global) -> SourceCodeInfoLocation {
        SourceCodeInfoLocation {
            path: Vec::new(alloc),
            span: Vec::new(alloc),
            leading_comments: None,
            trailing_comments: None,
            leading_detached_comments: Vec::new(alloc),
            unknown_fields: UnknownFields::new(alloc),
        }
    }
}

impl FieldsMeaning for SourceCodeInfoLocation {
    ghost means = { λ m. refl };

    ghost starts = { refl };
}

impl MessageImpl for SourceCodeInfoLocation {
    type Impl = FieldByField;
}

const _: () = prove!(size_of::<SourceCodeInfoLocation>() <= SourceCodeInfoLocation::COST);

impl SourceCodeInfoLocation {
    ghost use Rattle.std.specs.Prelude.{[], option_map, string_bytes, unwrap_or, ◌≡◌};

    /// The full name of the message.
    pub const FULL_NAME: &'static str = "google.protobuf.SourceCodeInfo.Location";

    /// `leading_comments`, or the default of its type where it isn't there: empty.
    pub fn leading_comments(&self) -> &str
        ensures is { result.now ≡ unwrap_or (option_map string_bytes self.now.leading_comments) [] }
    {
        match &self.leading_comments {
            Some(it) => it.as_str(),
            None => "",
        }
    }

    /// `trailing_comments`, or the default of its type where it isn't there: empty.
    pub fn trailing_comments(&self) -> &str
        ensures is { result.now ≡ unwrap_or (option_map string_bytes self.now.trailing_comments) [] }
    {
        match &self.trailing_comments {
            Some(it) => it.as_str(),
            None => "",
        }
    }
}
