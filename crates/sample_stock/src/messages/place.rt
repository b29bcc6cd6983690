//! shop.Place, made of stock.proto by protoc-gen-buffa.

ghost use Rattle.std.proofs.Common.{lit<, refl};
ghost use Rattle.buffa_recursive.specs.Terms.{keeps_unknown, list_inside, member, recursive_message};

use buffa_fields::map_codec::Str;
use buffa_fields::{
    Blank, DecodeContext, DecodeError, ImplicitField, Member, MessageImpl, Tag, UnknownFields,
    unknown,
};
use buffa_recursive::{
    InnerMerger, RecursiveFieldByField, RecursiveFields, RecursiveMeaning, RecursiveType,
    RecursiveVisitor, take_list,
};
use std::alloc::Global;
use std::marker::Model;
use std::string::String;

/// A place where goods lie, with the places in it.
///
/// message Place {
///     string name = 1;
///     repeated Place places = 2;
/// }
#[derive(Debug, Drop)]
pub struct Place {
    pub name: String,
    pub places: Vec<Place>,
    /// The fields that aren't declared, in order.
    pub unknown_fields: UnknownFields,
}

impl Model for Place {
    ghost use Rattle.std.specs.Coded.{codes};
    ghost use Rattle.std.specs.Prelude.{List, ℕ};
    ghost use Rattle.std.proofs.Common.{arith};
    ghost use Rattle.buffa_fields.specs.Terms.{FieldData, coded_field_data};
    ghost use Rattle.buffa_recursive.specs.Terms.{MessageTree, coded_tree, has, has_list, has_unknown_fields, most-of_list, tree_height, tree_of};

    ghost Value = { MessageTree (List ℕ × List (ℕ × FieldData)) };

    ghost coded = { Prim.hlevel (codes, coded_field_data, coded_tree) };

    ghost view = { λ m. tree_of (
        has (⟦<ImplicitField<Str> as Member>⟧.shape.meaning m.name) (
        has_list m.places.items (has_unknown_fields m.unknown_fields.records))) };

    ghost size = { tree_height };

    ghost size_decreases = { λ m h. Prim.grind (arith, most-of_list m.places.items) };
}

impl RecursiveType for Place {
    const COST: usize = 72;

    ghost COST = { 72 };

    ghost positive = { lit< tt };

    ghost schema = { recursive_message (
        member 1 ⟦<ImplicitField<Str> as Member>⟧.shape (
        list_inside 2 keeps_unknown)) };

    ghost sound = { λ w. refl };
}

impl RecursiveFields for Place {
    fn visit<V: RecursiveVisitor<Place>>(&self, visitor: &mut V) {
        visitor.visit::<ImplicitField<Str>>(1, &self.name);
        visitor.visit_list(2, &self.places);
        visitor.visit_unknown_fields(&self.unknown_fields);
    }

    fn take<I: InnerMerger<Place>>(
        &mut self,
        alloc: Global,
        tag: Tag,
        buf: &mut &[u8],
        ctx: DecodeContext<'_>,
        inner: &I,
    ) -> Result<(), DecodeError> {
        match tag.field_number() {
            1 => ImplicitField::<Str>::merge(&mut self.name, alloc, tag, buf, ctx),
            2 => take_list(&mut self.places, alloc, tag, buf, ctx, inner),
            _ => unknown::keep(alloc, &mut self.unknown_fields, tag, buf, ctx),
        }
    }
}

impl Blank for Place {
    type Meaning = Place;

    ghost meaning = { λ m. m };

    ghost blank_is = { ⟦<Place as RecursiveType>⟧.schema.into ⟦<Place as RecursiveType>⟧.schema.blank };

    fn blank(alloc: Global) -> Place {
        Place {
            name: String::new(alloc),
            places: Vec::new(alloc),
            unknown_fields: UnknownFields::new(alloc),
        }
    }
}

impl RecursiveMeaning for Place {
    ghost means = { λ m. refl };

    ghost starts = { refl };
}

impl MessageImpl for Place {
    type Impl = RecursiveFieldByField;
}

const _: () = prove!(size_of::<Place>() <= Place::COST);

impl Place {
    ghost use Rattle.std.specs.Prelude.{None, Some, codes, if◌then◌else◌, option_map, ◌==◌, ◌≡◌};

    /// The full name of the message.
    pub const FULL_NAME: &'static str = "shop.Place";

    /// The name in the `.proto` of the field that has this number; none where the message has no member for it.
    pub fn field_name(number: u32) -> Option<&'static str>
        ensures { option_map (λ name. name.now) result ≡ (
            if number == 1 then Some (codes "name") else
            if number == 2 then Some (codes "places") else
            None) }
    {
        match number {
            1 => Some("name"),
            2 => Some("places"),
            _ => None,
        }
    }
}

impl buffa_locate::Locate for Place {
    fn name_of(number: u32) -> Option<&'static str> {
        Place::field_name(number)
    }

    fn inside(number: u32) -> Option<buffa_locate::Inside> {
        match number {
            2 => Some(buffa_locate::Inside::own_element::<Place>()),
            _ => None,
        }
    }

    fn find_inside(
        _number: u32,
        _alloc: Global,
        search: buffa_locate::Search<'_>,
        path: &mut Vec<buffa_locate::Step>,
    ) -> Result<Option<usize>, std::alloc::AllocError> {
        buffa_locate::nothing_inside(search, path)
    }
}
