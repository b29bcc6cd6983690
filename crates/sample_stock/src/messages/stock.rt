//! shop.Stock, made of stock.proto by protoc-gen-buffa.

ghost use Rattle.std.proofs.Common.{lit<, refl};
ghost use Rattle.buffa_fields.specs.Terms.{field, keep_unknown};

use buffa_fields::map_codec::{Int32, Map, Str};
use buffa_fields::{
    And, And3, Blank, DecodeContext, DecodeError, FieldByField, FieldsMeaning, ImplicitField,
    MapField, Member, MessageFields, MessageImpl, Tag, UnknownFields, Unknowns, Visitor, unknown,
};
use std::alloc::Global;
use std::string::String;

/// What is there of each thing.
///
/// message Stock {
///     string name = 1;
///     map<string, int32> counts = 5;
/// }
#[derive(Debug, Drop)]
pub struct Stock {
    pub name: String,
    pub counts: Map<String, i32>,
    /// The fields that aren't declared, in order.
    pub unknown_fields: UnknownFields,
}

impl MessageFields for Stock {
    type Meaning = And3<[u8; 0], [And<[u8; 0], i32>; 0], Unknowns>;

    const COST: usize = 160;

    ghost COST = { 160 };

    ghost positive = { lit< tt };

    ghost schema = { field 1 (λ m. m.name) ⟦<ImplicitField<Str> as Member>⟧.shape (
        field 5 (λ m. m.counts) ⟦<MapField<Str, Int32> as Member>⟧.shape (
        keep_unknown (λ m. m.unknown_fields.records))) };

    ghost sound = { refl };

    fn visit<V: Visitor>(&self, visitor: &mut V) {
        visitor.visit::<ImplicitField<Str>>(1, &self.name);
        visitor.visit::<MapField<Str, Int32>>(5, &self.counts);
        visitor.visit_unknown_fields(&self.unknown_fields);
    }

    fn take(
        &mut self,
        alloc: Global,
        tag: Tag,
        buf: &mut &[u8],
        ctx: DecodeContext<'_>,
    ) -> Result<(), DecodeError> {
        match tag.field_number() {
            1 => ImplicitField::<Str>::merge(&mut self.name, alloc, tag, buf, ctx),
            5 => MapField::<Str, Int32>::merge(&mut self.counts, alloc, tag, buf, ctx),
            _ => unknown::keep(alloc, &mut self.unknown_fields, tag, buf, ctx),
        }
    }
}

impl Blank for Stock {
    type Meaning = <Stock as MessageFields>::Meaning;

    ghost meaning = { ⟦<Stock as MessageFields>⟧.schema.meaning };

    ghost blank_is = { ⟦<Stock as MessageFields>⟧.schema.blank };

    fn blank(alloc: Global) -> Stock {
        Stock {
            name: String::new(alloc),
            counts: Map::new(alloc),
            unknown_fields: UnknownFields::new(alloc),
        }
    }
}

impl FieldsMeaning for Stock {
    ghost means = { λ m. refl };

    ghost starts = { refl };
}

impl MessageImpl for Stock {
    type Impl = FieldByField;
}

const _: () = prove!(size_of::<Stock>() <= Stock::COST);

impl Stock {
    ghost use Rattle.std.specs.Prelude.{None, Some, codes, if◌then◌else◌, option_map, ◌==◌, ◌≡◌};

    /// The full name of the message.
    pub const FULL_NAME: &'static str = "shop.Stock";

    /// The name in the `.proto` of the field that has this number; none where the message has no member for it.
    pub fn field_name(number: u32) -> Option<&'static str>
        ensures { option_map (λ name. name.now) result ≡ (
            if number == 1 then Some (codes "name") else
            if number == 5 then Some (codes "counts") else
            None) }
    {
        match number {
            1 => Some("name"),
            5 => Some("counts"),
            _ => None,
        }
    }
}

impl buffa_locate::Locate for Stock {
    fn name_of(number: u32) -> Option<&'static str> {
        Stock::field_name(number)
    }

    fn inside(_number: u32) -> Option<buffa_locate::Inside> {
        None
    }

    fn find_inside(
        _number: u32,
        _alloc: Global,
        search: buffa_locate::Search<'_>,
        path: &mut Vec<buffa_locate::Step>,
    ) -> Result<Option<usize>, std::alloc::AllocError> {
        buffa_locate::nothing_inside(search, path)
    }
}
