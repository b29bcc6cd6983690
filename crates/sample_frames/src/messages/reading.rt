//! buffa.sample.Reading, made of readings.proto by protoc-gen-buffa.

ghost use Rattle.std.proofs.Common.{lit<, refl};
ghost use Rattle.buffa_fields.specs.Terms.{field, keep_unknown};

use buffa_fields::map_codec::{Sint32, Str};
use buffa_fields::{
    And3, Blank, DecodeContext, DecodeError, FieldByField, FieldsMeaning, ImplicitField, Member,
    MessageFields, MessageImpl, Tag, UnknownFields, Unknowns, Visitor, unknown,
};
use std::alloc::Global;
use std::string::String;

/// What a sensor measured.
///
/// message Reading {
///     string sensor = 1;
///     sint32 value = 2;
/// }
#[derive(Debug, Drop)]
pub struct Reading {
    /// The sensor's name.
    pub sensor: String,
    /// What it measured, in thousandths of a degree.
    pub value: i32,
    /// The fields that aren't declared, in order.
    pub unknown_fields: UnknownFields,
}

impl MessageFields for Reading {
    type Meaning = And3<[u8; 0], i32, Unknowns>;

    const COST: usize = 56;

    ghost COST = { 56 };

    ghost positive = { lit< tt };

    ghost schema = { field 1 (λ m. m.sensor) ⟦<ImplicitField<Str> as Member>⟧.shape (
        field 2 (λ m. m.value) ⟦<ImplicitField<Sint32> as Member>⟧.shape (
        keep_unknown (λ m. m.unknown_fields.records))) };

    ghost sound = { refl };

    fn visit<V: Visitor>(&self, visitor: &mut V) {
        visitor.visit::<ImplicitField<Str>>(1, &self.sensor);
        visitor.visit::<ImplicitField<Sint32>>(2, &self.value);
        visitor.visit_unknown_fields(&self.unknown_fields);
    }

    fn take(
        &mut self,
        alloc: Global,
        tag: Tag,
        buf: &mut &[u8],
        ctx: DecodeContext<'_>,
    ) -> Result<(), DecodeError> {
        match tag.field_number() {
            1 => ImplicitField::<Str>::merge(&mut self.sensor, alloc, tag, buf, ctx),
            2 => ImplicitField::<Sint32>::merge(&mut self.value, alloc, tag, buf, ctx),
            _ => unknown::keep(alloc, &mut self.unknown_fields, tag, buf, ctx),
        }
    }
}

impl Blank for Reading {
    type Meaning = <Reading as MessageFields>::Meaning;

    ghost meaning = { ⟦<Reading as MessageFields>⟧.schema.meaning };

    ghost blank_is = { ⟦<Reading as MessageFields>⟧.schema.blank };

    fn blank(alloc: Global) -> Reading {
        Reading {
            sensor: String::new(alloc),
            value: 0,
            unknown_fields: UnknownFields::new(alloc),
        }
    }
}

impl FieldsMeaning for Reading {
    ghost means = { λ m. refl };

    ghost starts = { refl };
}

impl MessageImpl for Reading {
    type Impl = FieldByField;
}

const _: () = prove!(size_of::<Reading>() <= Reading::COST);

impl Reading {
    /// The full name of the message.
    pub const FULL_NAME: &'static str = "buffa.sample.Reading";
}
