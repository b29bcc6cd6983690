//! buffa.sample.Spot, made of measure.proto by protoc-gen-buffa.

ghost use Rattle.std.proofs.Common.{lit<, refl};
ghost use Rattle.std.specs.Prelude.{is_some, ◌&&◌};
ghost use Rattle.buffa_fields.specs.Terms.{field, keep_unknown};

use buffa_fields::map_codec::Float;
use buffa_fields::{
    And4, Blank, DecodeContext, DecodeError, ExplicitField, FieldByField, FieldsMeaning, FloatBits,
    Member, MessageFields, MessageImpl, Required, Tag, UnknownFields, Unknowns, Visitor, unknown,
};
use std::alloc::Global;

/// Where a station stands.
///
/// message Spot {
///     required float latitude = 1;
///     required float longitude = 2;
///     optional float height = 3 [default = -1.5];
/// }
///
/// Read where it isn't there, too, and `is_initialized` says whether it is: latitude = 1, longitude = 2.
#[derive(Debug, Drop)]
pub struct Spot {
    pub latitude: Option<FloatBits>,
    pub longitude: Option<FloatBits>,
    pub height: Option<FloatBits>,
    /// The fields that aren't declared, in order.
    pub unknown_fields: UnknownFields,
}

impl MessageFields for Spot {
    type Meaning = And4<Option<u32>, Option<u32>, Option<u32>, Unknowns>;

    const COST: usize = 72;

    ghost COST = { 72 };

    ghost positive = { lit< tt };

    ghost schema = { field 1 (λ m. m.latitude) ⟦<ExplicitField<Float> as Member>⟧.shape (
        field 2 (λ m. m.longitude) ⟦<ExplicitField<Float> as Member>⟧.shape (
        field 3 (λ m. m.height) ⟦<ExplicitField<Float> as Member>⟧.shape (
        keep_unknown (λ m. m.unknown_fields.records)))) };

    ghost sound = { refl };

    fn visit<V: Visitor>(&self, visitor: &mut V) {
        visitor.visit::<ExplicitField<Float>>(1, &self.latitude);
        visitor.visit::<ExplicitField<Float>>(2, &self.longitude);
        visitor.visit::<ExplicitField<Float>>(3, &self.height);
        visitor.visit_unknown_fields(&self.unknown_fields);
    }

    fn take(
        &mut self,
        alloc: Global,
        tag: Tag,
        buf: &mut &[u8],
        ctx: DecodeContext<'_>,
    ) -> Result<(), DecodeError> {
        match tag.field_number() {
            1 => ExplicitField::<Float>::merge(&mut self.latitude, alloc, tag, buf, ctx),
            2 => ExplicitField::<Float>::merge(&mut self.longitude, alloc, tag, buf, ctx),
            3 => ExplicitField::<Float>::merge(&mut self.height, alloc, tag, buf, ctx),
            _ => unknown::keep(alloc, &mut self.unknown_fields, tag, buf, ctx),
        }
    }
}

impl Blank for Spot {
    type Meaning = <Spot as MessageFields>::Meaning;

    ghost meaning = { ⟦<Spot as MessageFields>⟧.schema.meaning };

    ghost blank_is = { ⟦<Spot as MessageFields>⟧.schema.blank };

    fn blank(alloc: Global) -> Spot {
        Spot {
            latitude: None,
            longitude: None,
            height: None,
            unknown_fields: UnknownFields::new(alloc),
        }
    }
}

impl FieldsMeaning for Spot {
    ghost means = { λ m. refl };

    ghost starts = { refl };
}

impl MessageImpl for Spot {
    type Impl = FieldByField;
}

const _: () = prove!(size_of::<Spot>() <= Spot::COST);

impl Required for Spot {
    ghost initialized = { λ m. is_some m.latitude && is_some m.longitude };

    fn is_initialized(&self) -> bool {
        self.latitude.is_some() & self.longitude.is_some()
    }
}

impl Spot {
    ghost use Rattle.std.specs.Prelude.{None, Some, codes, if◌then◌else◌, option_map, unwrap_or, ◌==◌, ◌≡◌};

    /// The full name of the message.
    pub const FULL_NAME: &'static str = "buffa.sample.Spot";

    /// The name in the `.proto` of the field that has this number; none where the message has no member for it.
    pub fn field_name(number: u32) -> Option<&'static str>
        ensures { option_map (λ name. name.now) result ≡ (
            if number == 1 then Some (codes "latitude") else
            if number == 2 then Some (codes "longitude") else
            if number == 3 then Some (codes "height") else
            None) }
    {
        match number {
            1 => Some("latitude"),
            2 => Some("longitude"),
            3 => Some("height"),
            _ => None,
        }
    }

    /// `latitude`, or the default of its type where it isn't there: 0.
    pub fn latitude(&self) -> FloatBits
        ensures is { result.bits ≡ unwrap_or (option_map (λ it. it.bits) self.now.latitude) 0 }
    {
        match &self.latitude {
            Some(it) => *it,
            None => FloatBits { bits: 0 },
        }
    }

    /// `longitude`, or the default of its type where it isn't there: 0.
    pub fn longitude(&self) -> FloatBits
        ensures is { result.bits ≡ unwrap_or (option_map (λ it. it.bits) self.now.longitude) 0 }
    {
        match &self.longitude {
            Some(it) => *it,
            None => FloatBits { bits: 0 },
        }
    }

    /// `height`, or its default where it isn't there: -1.5.
    pub fn height(&self) -> FloatBits
        ensures is { result.bits ≡ unwrap_or (option_map (λ it. it.bits) self.now.height) 3217031168 }
    {
        match &self.height {
            Some(it) => *it,
            None => FloatBits { bits: 3217031168 },
        }
    }
}
