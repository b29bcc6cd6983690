//! weather.Place, made of day.proto by protoc-gen-buffa.

ghost use Rattle.std.proofs.Common.{lit<, refl};
ghost use Rattle.buffa_fields.specs.Terms.{field, keep_unknown};

use buffa_fields::map_codec::Sint32;
use buffa_fields::{
    And3, Blank, DecodeContext, DecodeError, FieldByField, FieldsMeaning, ImplicitField, Member,
    MessageFields, MessageImpl, Tag, UnknownFields, Unknowns, Visitor, unknown,
};
use std::alloc::Global;

/// Where a station stands.
///
/// message Place {
///     sint32 latitude = 1;
///     sint32 longitude = 2;
/// }
#[derive(Debug, Drop)]
pub struct Place {
    /// In millionths of a degree.
    pub latitude: i32,
    pub longitude: i32,
    /// The fields that aren't declared, in order.
    pub unknown_fields: UnknownFields,
}

impl MessageFields for Place {
    type Meaning = And3<i32, i32, Unknowns>;

    const COST: usize = 40;

    ghost COST = { 40 };

    ghost positive = { lit< tt };

    ghost schema = { field 1 (λ m. m.latitude) ⟦<ImplicitField<Sint32> as Member>⟧.shape (
        field 2 (λ m. m.longitude) ⟦<ImplicitField<Sint32> as Member>⟧.shape (
        keep_unknown (λ m. m.unknown_fields.records))) };

    ghost sound = { refl };

    fn visit<V: Visitor>(&self, visitor: &mut V) {
        visitor.visit::<ImplicitField<Sint32>>(1, &self.latitude);
        visitor.visit::<ImplicitField<Sint32>>(2, &self.longitude);
        visitor.visit_unknown_fields(&self.unknown_fields);
    }

    fn take(
        &mut self,
        alloc: Global,
        tag: Tag,
        buf: &mut &[u8],
        ctx: DecodeContext<'_>,
    ) -> Result<(), DecodeError> {
        match tag.field_number() {
            1 => ImplicitField::<Sint32>::merge(&mut self.latitude, alloc, tag, buf, ctx),
            2 => ImplicitField::<Sint32>::merge(&mut self.longitude, alloc, tag, buf, ctx),
            _ => unknown::keep(alloc, &mut self.unknown_fields, tag, buf, ctx),
        }
    }
}

impl Blank for Place {
    type Meaning = <Place as MessageFields>::Meaning;

    ghost meaning = { ⟦<Place as MessageFields>⟧.schema.meaning };

    ghost blank_is = { ⟦<Place as MessageFields>⟧.schema.blank };

    fn blank(alloc: Global) -> Place {
        Place {
            latitude: 0,
            longitude: 0,
            unknown_fields: UnknownFields::new(alloc),
        }
    }
}

impl FieldsMeaning for Place {
    ghost means = { λ m. refl };

    ghost starts = { refl };
}

impl MessageImpl for Place {
    type Impl = FieldByField;
}

const _: () = prove!(size_of::<Place>() <= Place::COST);

impl Place {
    /// The full name of the message.
    pub const FULL_NAME: &'static str = "weather.Place";
}
