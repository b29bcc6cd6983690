//! buffa.sample.Pallet, made of inventory.proto by protoc-gen-buffa.

ghost use Rattle.std.proofs.Common.{lit<, refl};
ghost use Rattle.buffa_fields.specs.Terms.{field, skip_unknown};

use crate::inventory::Inventory;
use buffa_fields::map_codec::Str;
use buffa_fields::{
    And4, Blank, DecodeContext, DecodeError, FieldByField, FieldsMeaning, GroupField,
    ImplicitField, Member, MessageFields, MessageImpl, RepeatedGroupField, Tag, Visitor, unknown,
};
use std::alloc::Global;
use std::string::String;

/// A pallet: a group, and a list of groups.
///
/// message Pallet {
///     string mark = 1;
///     Inventory stock = 2;
///     repeated Inventory layers = 3;
/// }
///
/// Written as groups: stock = 2, layers = 3.
///
/// The fields that aren't declared are passed over.
#[derive(Debug, Drop)]
pub struct Pallet {
    pub mark: String,
    pub stock: Option<Inventory>,
    pub layers: Vec<Inventory>,
}

impl MessageFields for Pallet {
    type Meaning = And4<
        [u8; 0],
        Option<<Inventory as Blank>::Meaning>,
        [<Inventory as Blank>::Meaning; 0],
        (),
    >;

    const COST: usize = 160;

    ghost COST = { 160 };

    ghost positive = { lit< tt };

    ghost schema = { field 1 (λ m. m.mark) ⟦<ImplicitField<Str> as Member>⟧.shape (
        field 2 (λ m. m.stock) ⟦<GroupField<Inventory> as Member>⟧.shape (
        field 3 (λ m. m.layers) ⟦<RepeatedGroupField<Inventory> as Member>⟧.shape (
        skip_unknown))) };

    ghost sound = { refl };

    fn visit<V: Visitor>(&self, visitor: &mut V) {
        visitor.visit::<ImplicitField<Str>>(1, &self.mark);
        visitor.visit::<GroupField<Inventory>>(2, &self.stock);
        visitor.visit::<RepeatedGroupField<Inventory>>(3, &self.layers);
    }

    fn take(
        &mut self,
        alloc: Global,
        tag: Tag,
        buf: &mut &[u8],
        ctx: DecodeContext<'_>,
    ) -> Result<(), DecodeError> {
        match tag.field_number() {
            1 => ImplicitField::<Str>::merge(&mut self.mark, alloc, tag, buf, ctx),
            2 => GroupField::<Inventory>::merge(&mut self.stock, alloc, tag, buf, ctx),
            3 => RepeatedGroupField::<Inventory>::merge(&mut self.layers, alloc, tag, buf, ctx),
            _ => unknown::pass(tag, buf, ctx),
        }
    }
}

impl Blank for Pallet {
    type Meaning = <Pallet as MessageFields>::Meaning;

    ghost meaning = { ⟦<Pallet as MessageFields>⟧.schema.meaning };

    ghost blank_is = { ⟦<Pallet as MessageFields>⟧.schema.blank };

    fn blank(alloc: Global) -> Pallet {
        Pallet {
            mark: String::new(alloc),
            stock: None,
            layers: Vec::new(alloc),
        }
    }
}

impl FieldsMeaning for Pallet {
    ghost means = { λ m. refl };

    ghost starts = { refl };
}

impl MessageImpl for Pallet {
    type Impl = FieldByField;
}

impl Pallet {
    /// The full name of the message.
    pub const FULL_NAME: &'static str = "buffa.sample.Pallet";
}

impl buffa_locate::Locate for Pallet {
    fn name_of(number: u32) -> Option<&'static str> {
        match number {
            1 => Some("mark"),
            2 => Some("stock"),
            3 => Some("layers"),
            _ => None,
        }
    }

    fn inside(number: u32) -> Option<buffa_locate::Inside> {
        match number {
            2 => Some(buffa_locate::Inside::group()),
            3 => Some(buffa_locate::Inside::group_element::<Inventory>()),
            _ => None,
        }
    }

    fn find_inside(
        number: u32,
        alloc: Global,
        search: buffa_locate::Search<'_>,
        path: &mut Vec<buffa_locate::Step>,
    ) -> Result<Option<usize>, std::alloc::AllocError> {
        match number {
            2 | 3 => buffa_locate::find::<Inventory>(alloc, search, path),
            _ => buffa_locate::nothing_inside(search, path),
        }
    }
}
