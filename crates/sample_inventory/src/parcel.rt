//! buffa.sample.Parcel, made of inventory.proto by protoc-gen-buffa.

ghost use Rattle.std.proofs.Common.{lit<, refl};
ghost use Rattle.buffa_fields.specs.Terms.{field, skip_unknown};

use crate::inventory::Inventory;
use buffa_fields::map_codec::Int64;
use buffa_fields::{
    And3, Blank, DecodeContext, DecodeError, FieldByField, FieldsMeaning, ImplicitField, Member,
    MessageField, MessageFields, MessageImpl, Tag, Visitor, unknown,
};
use std::alloc::Global;

/// A parcel: a member that is a message.
///
/// message Parcel {
///     int64 id = 1;
///     Inventory stock = 2;
/// }
///
/// The fields that aren't declared are passed over.
#[derive(Debug, Drop)]
pub struct Parcel {
    pub id: i64,
    pub stock: Option<Inventory>,
}

impl MessageFields for Parcel {
    type Meaning = And3<i64, Option<<Inventory as Blank>::Meaning>, ()>;

    const COST: usize = 112;

    ghost COST = { 112 };

    ghost positive = { lit< tt };

    ghost schema = { field 1 (λ m. m.id) ⟦<ImplicitField<Int64> as Member>⟧.shape (
        field 2 (λ m. m.stock) ⟦<MessageField<Inventory> as Member>⟧.shape (
        skip_unknown)) };

    ghost sound = { refl };

    fn visit<V: Visitor>(&self, visitor: &mut V) {
        visitor.visit::<ImplicitField<Int64>>(1, &self.id);
        visitor.visit::<MessageField<Inventory>>(2, &self.stock);
    }

    fn take(
        &mut self,
        alloc: Global,
        tag: Tag,
        buf: &mut &[u8],
        ctx: DecodeContext<'_>,
    ) -> Result<(), DecodeError> {
        match tag.field_number() {
            1 => ImplicitField::<Int64>::merge(&mut self.id, alloc, tag, buf, ctx),
            2 => MessageField::<Inventory>::merge(&mut self.stock, alloc, tag, buf, ctx),
            _ => unknown::pass(tag, buf, ctx),
        }
    }
}

impl Blank for Parcel {
    type Meaning = <Parcel as MessageFields>::Meaning;

    ghost meaning = { ⟦<Parcel as MessageFields>⟧.schema.meaning };

    ghost blank_is = { ⟦<Parcel as MessageFields>⟧.schema.blank };

    fn blank(_alloc: Global) -> Parcel {
        Parcel { id: 0, stock: None }
    }
}

impl FieldsMeaning for Parcel {
    ghost means = { λ m. refl };

    ghost starts = { refl };
}

impl MessageImpl for Parcel {
    type Impl = FieldByField;
}

impl Parcel {
    /// The full name of the message.
    pub const FULL_NAME: &'static str = "buffa.sample.Parcel";
}

impl buffa_locate::Locate for Parcel {
    fn name_of(number: u32) -> Option<&'static str> {
        match number {
            1 => Some("id"),
            2 => Some("stock"),
            _ => None,
        }
    }

    fn inside(number: u32) -> Option<buffa_locate::Inside> {
        match number {
            2 => Some(buffa_locate::Inside::one()),
            _ => None,
        }
    }

    fn find_inside(
        number: u32,
        alloc: Global,
        search: buffa_locate::Search<'_>,
        path: &mut Vec<buffa_locate::Step>,
    ) -> Result<Option<usize>, std::alloc::AllocError> {
        match number {
            2 => buffa_locate::find::<Inventory>(alloc, search, path),
            _ => buffa_locate::nothing_inside(search, path),
        }
    }
}
