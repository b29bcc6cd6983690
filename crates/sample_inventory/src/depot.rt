//! buffa.sample.Depot, made of inventory.proto by protoc-gen-buffa.

ghost use Rattle.std.proofs.Common.{lit<, refl};
ghost use Rattle.buffa_fields.specs.Terms.{field, skip_unknown};

use crate::parcel::Parcel;
use buffa_fields::map_codec::Str;
use buffa_fields::{
    And3, Blank, DecodeContext, DecodeError, FieldByField, FieldsMeaning, ImplicitField, Member,
    MessageFields, MessageImpl, RepeatedMessageField, Tag, Visitor, unknown,
};
use std::alloc::Global;
use std::string::String;

/// A depot: a list of messages.
///
/// message Depot {
///     string city = 1;
///     repeated Parcel parcels = 2;
/// }
///
/// The fields that aren't declared are passed over.
#[derive(Debug, Drop)]
pub struct Depot {
    pub city: String,
    pub parcels: Vec<Parcel>,
}

impl MessageFields for Depot {
    type Meaning = And3<[u8; 0], [<Parcel as Blank>::Meaning; 0], ()>;

    const COST: usize = 56;

    ghost COST = { 56 };

    ghost positive = { lit< tt };

    ghost schema = { field 1 (λ m. m.city) ⟦<ImplicitField<Str> as Member>⟧.shape (
        field 2 (λ m. m.parcels) ⟦<RepeatedMessageField<Parcel> as Member>⟧.shape (
        skip_unknown)) };

    ghost sound = { refl };

    fn visit<V: Visitor>(&self, visitor: &mut V) {
        visitor.visit::<ImplicitField<Str>>(1, &self.city);
        visitor.visit::<RepeatedMessageField<Parcel>>(2, &self.parcels);
    }

    fn take(
        &mut self,
        alloc: Global,
        tag: Tag,
        buf: &mut &[u8],
        ctx: DecodeContext<'_>,
    ) -> Result<(), DecodeError> {
        match tag.field_number() {
            1 => ImplicitField::<Str>::merge(&mut self.city, alloc, tag, buf, ctx),
            2 => RepeatedMessageField::<Parcel>::merge(&mut self.parcels, alloc, tag, buf, ctx),
            _ => unknown::pass(tag, buf, ctx),
        }
    }
}

impl Blank for Depot {
    type Meaning = <Depot as MessageFields>::Meaning;

    ghost meaning = { ⟦<Depot as MessageFields>⟧.schema.meaning };

    ghost blank_is = { ⟦<Depot as MessageFields>⟧.schema.blank };

    fn blank(alloc: Global) -> Depot {
        Depot {
            city: String::new(alloc),
            parcels: Vec::new(alloc),
        }
    }
}

impl FieldsMeaning for Depot {
    ghost means = { λ m. refl };

    ghost starts = { refl };
}

impl MessageImpl for Depot {
    type Impl = FieldByField;
}

impl Depot {
    /// The full name of the message.
    pub const FULL_NAME: &'static str = "buffa.sample.Depot";
}

impl buffa_locate::Locate for Depot {
    fn name_of(number: u32) -> Option<&'static str> {
        match number {
            1 => Some("city"),
            2 => Some("parcels"),
            _ => None,
        }
    }

    fn inside(number: u32) -> Option<buffa_locate::Inside> {
        match number {
            2 => Some(buffa_locate::Inside::element::<Parcel>()),
            _ => None,
        }
    }

    fn find_inside(
        number: u32,
        alloc: Global,
        search: buffa_locate::Search<'_>,
        path: &mut Vec<buffa_locate::Step>,
    ) -> Result<Option<usize>, std::alloc::AllocError> {
        match number {
            2 => buffa_locate::find::<Parcel>(alloc, search, path),
            _ => buffa_locate::nothing_inside(search, path),
        }
    }
}
