//! buffa.sample.Swatch, made of palette.proto by protoc-gen-buffa.

ghost use Rattle.std.proofs.Common.{lit<, refl};
ghost use Rattle.buffa_fields.specs.Terms.{field_with_unknowns, keep_unknown};

use crate::shade::Shade;
use buffa_fields::map_codec::ClosedEnum;
use buffa_fields::{
    And3, Blank, DecodeContext, DecodeError, ExplicitField, FieldByField, FieldsMeaning,
    KeepsUnknowns, Member, MessageFields, MessageImpl, RepeatedField, Tag, UnknownFields, Unknowns,
    Visitor, unknown,
};
use std::alloc::Global;

/// A swatch: a message inside another, or a group, which passes on what it doesn't understand itself.
///
/// message Swatch {
///     optional Shade shade = 1;
///     repeated Shade others = 2;
/// }
#[derive(Debug, Drop)]
pub struct Swatch {
    pub shade: Option<Shade>,
    pub others: Vec<Shade>,
    /// The fields that aren't declared, in order.
    pub unknown_fields: UnknownFields,
}

impl MessageFields for Swatch {
    type Meaning = And3<Option<i32>, [i32; 0], Unknowns>;

    const COST: usize = 64;

    ghost COST = { 64 };

    ghost positive = { lit< tt };

    ghost schema = { field_with_unknowns 1 (λ m. m.shade) ⟦<ExplicitField<ClosedEnum<Shade>> as Member>⟧.shape
        ⟦<ExplicitField<ClosedEnum<Shade>> as KeepsUnknowns>⟧.unknowns (
        field_with_unknowns 2 (λ m. m.others) ⟦<RepeatedField<ClosedEnum<Shade>> as Member>⟧.shape
        ⟦<RepeatedField<ClosedEnum<Shade>> as KeepsUnknowns>⟧.unknowns (
        keep_unknown (λ m. m.unknown_fields.records))) };

    ghost sound = { refl };

    fn visit<V: Visitor>(&self, visitor: &mut V) {
        visitor.visit_with_unknowns::<ExplicitField<ClosedEnum<Shade>>>(1, &self.shade);
        visitor.visit_with_unknowns::<RepeatedField<ClosedEnum<Shade>>>(2, &self.others);
        visitor.visit_unknown_fields(&self.unknown_fields);
    }

    fn take(
        &mut self,
        alloc: Global,
        tag: Tag,
        buf: &mut &[u8],
        ctx: DecodeContext<'_>,
    ) -> Result<(), DecodeError> {
        match tag.field_number() {
            1 => ExplicitField::<ClosedEnum<Shade>>::merge_with_unknowns(
                &mut self.shade,
                &mut self.unknown_fields,
                alloc,
                tag,
                buf,
                ctx,
            ),
            2 => RepeatedField::<ClosedEnum<Shade>>::merge_with_unknowns(
                &mut self.others,
                &mut self.unknown_fields,
                alloc,
                tag,
                buf,
                ctx,
            ),
            _ => unknown::keep(alloc, &mut self.unknown_fields, tag, buf, ctx),
        }
    }
}

impl Blank for Swatch {
    type Meaning = <Swatch as MessageFields>::Meaning;

    ghost meaning = { ⟦<Swatch as MessageFields>⟧.schema.meaning };

    ghost blank_is = { ⟦<Swatch as MessageFields>⟧.schema.blank };

    fn blank(alloc: Global) -> Swatch {
        Swatch {
            shade: None,
            others: Vec::new(alloc),
            unknown_fields: UnknownFields::new(alloc),
        }
    }
}

impl FieldsMeaning for Swatch {
    ghost means = { λ m. refl };

    ghost starts = { refl };
}

impl MessageImpl for Swatch {
    type Impl = FieldByField;
}

const _: () = prove!(size_of::<Swatch>() <= Swatch::COST);

impl Swatch {
    ghost use Rattle.std.specs.Prelude.{unwrap_or, ◌≡◌};
    ghost use Rattle.sample_palette.specs.declared.shade.Shade.TheVariants.{A};

    /// The full name of the message.
    pub const FULL_NAME: &'static str = "buffa.sample.Swatch";

    /// `shade`, or the default of its type where it isn't there: A.
    pub fn shade(&self) -> Shade
        ensures is { result ≡ unwrap_or self.now.shade A }
    {
        self.shade.unwrap_or(Shade::A)
    }
}
