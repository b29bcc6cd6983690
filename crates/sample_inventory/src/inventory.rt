//! buffa.sample.Inventory, made of inventory.proto by protoc-gen-buffa.

ghost use Rattle.std.proofs.Common.{lit<, refl};
ghost use Rattle.buffa_fields.specs.Terms.{field, keep_unknown};

use buffa_fields::map_codec::{Bool, Int32, Map, Str};
use buffa_fields::{
    And, And5, Blank, DecodeContext, DecodeError, ExplicitField, FieldByField, FieldsMeaning,
    ImplicitField, MapField, Member, MessageFields, MessageImpl, Tag, UnknownFields, Unknowns,
    Visitor, unknown,
};
use std::alloc::Global;
use std::string::String;

/// Values, an optional one, and a map.
///
/// message Inventory {
///     int32 total = 1;
///     string note = 2;
///     optional bool listed = 3;
///     map<string, int32> counts = 5;
/// }
#[derive(Debug, Drop)]
pub struct Inventory {
    pub total: i32,
    pub note: String,
    pub listed: Option<bool>,
    pub counts: Map<String, i32>,
    /// The fields that aren't declared, in order.
    pub unknown_fields: UnknownFields,
}

impl MessageFields for Inventory {
    type Meaning = And5<i32, [u8; 0], Option<bool>, [And<[u8; 0], i32>; 0], Unknowns>;

    const COST: usize = 96;

    ghost COST = { 96 };

    ghost positive = { lit< tt };

    ghost schema = { field 1 (λ m. m.total) ⟦<ImplicitField<Int32> as Member>⟧.shape (
        field 2 (λ m. m.note) ⟦<ImplicitField<Str> as Member>⟧.shape (
        field 3 (λ m. m.listed) ⟦<ExplicitField<Bool> as Member>⟧.shape (
        field 5 (λ m. m.counts) ⟦<MapField<Str, Int32> as Member>⟧.shape (
        keep_unknown (λ m. m.unknown_fields.records))))) };

    ghost sound = { refl };

    fn visit<V: Visitor>(&self, visitor: &mut V) {
        visitor.visit::<ImplicitField<Int32>>(1, &self.total);
        visitor.visit::<ImplicitField<Str>>(2, &self.note);
        visitor.visit::<ExplicitField<Bool>>(3, &self.listed);
        visitor.visit::<MapField<Str, Int32>>(5, &self.counts);
        visitor.visit_unknown_fields(&self.unknown_fields);
    }

    fn take(
        &mut self,
        alloc: Global,
        tag: Tag,
        buf: &mut &[u8],
        ctx: DecodeContext<'_>,
    ) -> Result<(), DecodeError> {
        match tag.field_number() {
            1 => ImplicitField::<Int32>::merge(&mut self.total, alloc, tag, buf, ctx),
            2 => ImplicitField::<Str>::merge(&mut self.note, alloc, tag, buf, ctx),
            3 => ExplicitField::<Bool>::merge(&mut self.listed, alloc, tag, buf, ctx),
            5 => MapField::<Str, Int32>::merge(&mut self.counts, alloc, tag, buf, ctx),
            _ => unknown::keep(alloc, &mut self.unknown_fields, tag, buf, ctx),
        }
    }
}

impl Blank for Inventory {
    type Meaning = <Inventory as MessageFields>::Meaning;

    ghost meaning = { ⟦<Inventory as MessageFields>⟧.schema.meaning };

    ghost blank_is = { ⟦<Inventory as MessageFields>⟧.schema.blank };

    fn blank(alloc: Global) -> Inventory {
        Inventory {
            total: 0,
            note: String::new(alloc),
            listed: None,
            counts: Map::new(alloc),
            unknown_fields: UnknownFields::new(alloc),
        }
    }
}

impl FieldsMeaning for Inventory {
    ghost means = { λ m. refl };

    ghost starts = { refl };
}

impl MessageImpl for Inventory {
    type Impl = FieldByField;
}

impl Inventory {
    ghost use Rattle.std.specs.Prelude.{false, unwrap_or, ◌≡◌};

    /// The full name of the message.
    pub const FULL_NAME: &'static str = "buffa.sample.Inventory";

    /// `listed`, or the default of its type where it isn't there: false.
    pub fn listed(&self) -> bool
        ensures is { result ≡ unwrap_or self.now.listed false }
    {
        self.listed.unwrap_or(false)
    }
}

impl buffa_locate::Locate for Inventory {
    fn name_of(number: u32) -> Option<&'static str> {
        match number {
            1 => Some("total"),
            2 => Some("note"),
            3 => Some("listed"),
            5 => Some("counts"),
            _ => None,
        }
    }

    fn inside(_number: u32) -> Option<buffa_locate::Inside> {
        None
    }

    fn find_inside(
        _number: u32,
        _alloc: Global,
        search: buffa_locate::Search<'_>,
        path: &mut Vec<buffa_locate::Step>,
    ) -> Result<Option<usize>, std::alloc::AllocError> {
        buffa_locate::nothing_inside(search, path)
    }
}
