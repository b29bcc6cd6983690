//! buffa.sample.Spot, made of outline.proto by protoc-gen-buffa.

ghost use Rattle.std.proofs.Common.{lit<, refl};
ghost use Rattle.buffa_fields.specs.Terms.{field, keep_unknown};

use buffa_fields::map_codec::Int32;
use buffa_fields::{
    And, Blank, DecodeContext, DecodeError, ExplicitField, FieldByField, FieldsMeaning, Member,
    MessageFields, MessageImpl, Tag, UnknownFields, Unknowns, Visitor, unknown,
};
use std::alloc::Global;

/// Where a part stands in a book.
///
/// message Spot {
///     optional int32 line = 1;
/// }
#[derive(Debug, Drop)]
pub struct Spot {
    pub line: Option<i32>,
    /// The fields that aren't declared, in order.
    pub unknown_fields: UnknownFields,
}

impl MessageFields for Spot {
    type Meaning = And<Option<i32>, Unknowns>;

    const COST: usize = 40;

    ghost COST = { 40 };

    ghost positive = { lit< tt };

    ghost schema = { field 1 (λ m. m.line) ⟦<ExplicitField<Int32> as Member>⟧.shape (
        keep_unknown (λ m. m.unknown_fields.records)) };

    ghost sound = { refl };

    fn visit<V: Visitor>(&self, visitor: &mut V) {
        visitor.visit::<ExplicitField<Int32>>(1, &self.line);
        visitor.visit_unknown_fields(&self.unknown_fields);
    }

    fn take(
        &mut self,
        alloc: Global,
        tag: Tag,
        buf: &mut &[u8],
        ctx: DecodeContext<'_>,
    ) -> Result<(), DecodeError> {
        match tag.field_number() {
            1 => ExplicitField::<Int32>::merge(&mut self.line, alloc, tag, buf, ctx),
            _ => unknown::keep(alloc, &mut self.unknown_fields, tag, buf, ctx),
        }
    }
}

impl Blank for Spot {
    type Meaning = <Spot as MessageFields>::Meaning;

    ghost meaning = { ⟦<Spot as MessageFields>⟧.schema.meaning };

    ghost blank_is = { ⟦<Spot as MessageFields>⟧.schema.blank };

    fn blank(alloc: Global) -> Spot {
        Spot {
            line: None,
            unknown_fields: UnknownFields::new(alloc),
        }
    }
}

impl FieldsMeaning for Spot {
    ghost means = { λ m. refl };

    ghost starts = { refl };
}

impl MessageImpl for Spot {
    type Impl = FieldByField;
}

const _: () = prove!(size_of::<Spot>() <= Spot::COST);

impl Spot {
    ghost use Rattle.std.specs.Prelude.{pos, unwrap_or, ◌≡◌};

    /// The full name of the message.
    pub const FULL_NAME: &'static str = "buffa.sample.Spot";

    /// `line`, or the default of its type where it isn't there: 0.
    pub fn line(&self) -> i32
        ensures is { result ≡ unwrap_or self.now.line (pos 0) }
    {
        self.line.unwrap_or(0)
    }
}
