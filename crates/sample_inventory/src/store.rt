//! buffa.sample.Store, made of inventory.proto by protoc-gen-buffa.

ghost use Rattle.std.proofs.Common.{lit<, refl};
ghost use Rattle.buffa_fields.specs.Terms.{field, skip_unknown};

use crate::inventory::Inventory;
use buffa_fields::map_codec::{Map, Str};
use buffa_fields::{
    And, And3, Blank, DecodeContext, DecodeError, FieldByField, FieldsMeaning, ImplicitField,
    Member, MessageFields, MessageImpl, MessageMapField, Tag, Visitor, unknown,
};
use std::alloc::Global;
use std::string::String;

/// A store: a map of messages.
///
/// message Store {
///     string name = 1;
///     map<string, Inventory> shelves = 2;
/// }
///
/// The fields that aren't declared are passed over.
#[derive(Debug, Drop)]
pub struct Store {
    pub name: String,
    pub shelves: Map<String, Inventory>,
}

impl MessageFields for Store {
    type Meaning = And3<[u8; 0], [And<[u8; 0], <Inventory as Blank>::Meaning>; 0], ()>;

    const COST: usize = 72;

    ghost COST = { 72 };

    ghost positive = { lit< tt };

    ghost schema = { field 1 (λ m. m.name) ⟦<ImplicitField<Str> as Member>⟧.shape (
        field 2 (λ m. m.shelves) ⟦<MessageMapField<Str, Inventory> as Member>⟧.shape (
        skip_unknown)) };

    ghost sound = { refl };

    fn visit<V: Visitor>(&self, visitor: &mut V) {
        visitor.visit::<ImplicitField<Str>>(1, &self.name);
        visitor.visit::<MessageMapField<Str, Inventory>>(2, &self.shelves);
    }

    fn take(
        &mut self,
        alloc: Global,
        tag: Tag,
        buf: &mut &[u8],
        ctx: DecodeContext<'_>,
    ) -> Result<(), DecodeError> {
        match tag.field_number() {
            1 => ImplicitField::<Str>::merge(&mut self.name, alloc, tag, buf, ctx),
            2 => MessageMapField::<Str, Inventory>::merge(&mut self.shelves, alloc, tag, buf, ctx),
            _ => unknown::pass(tag, buf, ctx),
        }
    }
}

impl Blank for Store {
    type Meaning = <Store as MessageFields>::Meaning;

    ghost meaning = { ⟦<Store as MessageFields>⟧.schema.meaning };

    ghost blank_is = { ⟦<Store as MessageFields>⟧.schema.blank };

    fn blank(alloc: Global) -> Store {
        Store {
            name: String::new(alloc),
            shelves: Map::new(alloc),
        }
    }
}

impl FieldsMeaning for Store {
    ghost means = { λ m. refl };

    ghost starts = { refl };
}

impl MessageImpl for Store {
    type Impl = FieldByField;
}

impl Store {
    /// The full name of the message.
    pub const FULL_NAME: &'static str = "buffa.sample.Store";
}

impl buffa_locate::Locate for Store {
    fn name_of(number: u32) -> Option<&'static str> {
        match number {
            1 => Some("name"),
            2 => Some("shelves"),
            _ => None,
        }
    }

    fn inside(number: u32) -> Option<buffa_locate::Inside> {
        match number {
            2 => {
                let key = <Str as buffa_fields::map_codec::MapValueDecode>::COST;
                let held = buffa_locate::Inside::value::<Inventory>(key);
                Some(held)
            }
            _ => None,
        }
    }

    fn find_inside(
        number: u32,
        alloc: Global,
        search: buffa_locate::Search<'_>,
        path: &mut Vec<buffa_locate::Step>,
    ) -> Result<Option<usize>, std::alloc::AllocError> {
        match number {
            2 => buffa_locate::find::<Inventory>(alloc, search, path),
            _ => buffa_locate::nothing_inside(search, path),
        }
    }
}
