//! buffa.sample.Ledger, made of inventory.proto by protoc-gen-buffa.

ghost use Rattle.std.proofs.Common.{lit<, refl};
ghost use Rattle.buffa_fields.specs.Terms.{field, keep_unknown};

use crate::inventory::Inventory;
use buffa_fields::map_codec::{Bool, BytesVec, Int32, Str};
use buffa_fields::{
    And, And4, Blank, DecodeContext, DecodeError, FieldByField, FieldsMeaning, Member,
    MessageFields, MessageImpl, OrderedMapField, OrderedMessageMapField, Tag, UnknownFields,
    Unknowns, Visitor, unknown,
};
use std::alloc::Global;
use std::collections::BTreeMap;
use std::string::String;

/// A ledger, whose maps are written in the order of their keys.
///
/// message Ledger {
///     map<string, int32> balances = 1;
///     map<int32, Inventory> pages = 2;
///     map<bool, bytes> seals = 3;
/// }
///
/// Written in the order of their keys: balances = 1, pages = 2, seals = 3.
#[derive(Debug, Drop)]
pub struct Ledger {
    pub balances: BTreeMap<String, i32>,
    pub pages: BTreeMap<i32, Inventory>,
    pub seals: BTreeMap<bool, Vec<u8>>,
    /// The fields that aren't declared, in order.
    pub unknown_fields: UnknownFields,
}

impl MessageFields for Ledger {
    type Meaning = And4<
        [And<[u8; 0], i32>; 0],
        [And<i32, <Inventory as Blank>::Meaning>; 0],
        [And<bool, [u8; 0]>; 0],
        Unknowns,
    >;

    const COST: usize = 96;

    ghost COST = { 96 };

    ghost positive = { lit< tt };

    ghost schema = { field 1 (λ m. m.balances) ⟦<OrderedMapField<Str, Int32> as Member>⟧.shape (
        field 2 (λ m. m.pages) ⟦<OrderedMessageMapField<Int32, Inventory> as Member>⟧.shape (
        field 3 (λ m. m.seals) ⟦<OrderedMapField<Bool, BytesVec> as Member>⟧.shape (
        keep_unknown (λ m. m.unknown_fields.records)))) };

    ghost sound = { refl };

    fn visit<V: Visitor>(&self, visitor: &mut V) {
        visitor.visit::<OrderedMapField<Str, Int32>>(1, &self.balances);
        visitor.visit::<OrderedMessageMapField<Int32, Inventory>>(2, &self.pages);
        visitor.visit::<OrderedMapField<Bool, BytesVec>>(3, &self.seals);
        visitor.visit_unknown_fields(&self.unknown_fields);
    }

    fn take(
        &mut self,
        alloc: Global,
        tag: Tag,
        buf: &mut &[u8],
        ctx: DecodeContext<'_>,
    ) -> Result<(), DecodeError> {
        match tag.field_number() {
            1 => OrderedMapField::<Str, Int32>::merge(&mut self.balances, alloc, tag, buf, ctx),
            2 => OrderedMessageMapField::<Int32, Inventory>::merge(
                &mut self.pages,
                alloc,
                tag,
                buf,
                ctx,
            ),
            3 => OrderedMapField::<Bool, BytesVec>::merge(&mut self.seals, alloc, tag, buf, ctx),
            _ => unknown::keep(alloc, &mut self.unknown_fields, tag, buf, ctx),
        }
    }
}

impl Blank for Ledger {
    type Meaning = <Ledger as MessageFields>::Meaning;

    ghost meaning = { ⟦<Ledger as MessageFields>⟧.schema.meaning };

    ghost blank_is = { ⟦<Ledger as MessageFields>⟧.schema.blank };

    fn blank(alloc: Global) -> Ledger {
        Ledger {
            balances: BTreeMap::new(alloc),
            pages: BTreeMap::new(alloc),
            seals: BTreeMap::new(alloc),
            unknown_fields: UnknownFields::new(alloc),
        }
    }
}

impl FieldsMeaning for Ledger {
    ghost means = { λ m. refl };

    ghost starts = { refl };
}

impl MessageImpl for Ledger {
    type Impl = FieldByField;
}

const _: () = prove!(size_of::<Ledger>() <= Ledger::COST);

impl Ledger {
    /// The full name of the message.
    pub const FULL_NAME: &'static str = "buffa.sample.Ledger";
}

impl buffa_locate::Locate for Ledger {
    fn name_of(number: u32) -> Option<&'static str> {
        match number {
            1 => Some("balances"),
            2 => Some("pages"),
            3 => Some("seals"),
            _ => None,
        }
    }

    fn inside(number: u32) -> Option<buffa_locate::Inside> {
        match number {
            2 => {
                let key = <Int32 as buffa_fields::map_codec::MapValueDecode>::COST;
                let held = buffa_locate::Inside::value::<Inventory>(key);
                Some(held)
            }
            _ => None,
        }
    }

    fn find_inside(
        number: u32,
        alloc: Global,
        search: buffa_locate::Search<'_>,
        path: &mut Vec<buffa_locate::Step>,
    ) -> Result<Option<usize>, std::alloc::AllocError> {
        match number {
            2 => buffa_locate::find::<Inventory>(alloc, search, path),
            _ => buffa_locate::nothing_inside(search, path),
        }
    }
}
