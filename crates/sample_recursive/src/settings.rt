//! buffa.sample.Settings, made of settings.proto by protoc-gen-buffa.

ghost use Rattle.std.proofs.Common.{lit<, refl};
ghost use Rattle.buffa_recursive.specs.Terms.{keeps_unknown, map_inside, member, recursive_message};

use buffa_fields::map_codec::{Int32, Str};
use buffa_fields::{
    Blank, DecodeContext, DecodeError, ImplicitField, Member, MessageImpl, RepeatedField, Tag,
    UnknownFields, unknown,
};
use buffa_recursive::{
    ByKey, InnerMerger, Keyed, RecursiveFieldByField, RecursiveFields, RecursiveMeaning,
    RecursiveType, RecursiveVisitor, take_map,
};
use std::alloc::Global;
use std::collections::BTreeMap;
use std::marker::Model;
use std::string::String;

/// Settings, with those of each section in them, by its name.
///
/// message Settings {
///     string value = 1;
///     map<string, Settings> sections = 2;
///     repeated int32 ports = 3 [packed = false];
/// }
///
/// Written in the order of their keys: sections = 2.
#[derive(Debug, Drop)]
pub struct Settings {
    pub value: String,
    pub sections: BTreeMap<String, Settings>,
    pub ports: Vec<i32>,
    /// The fields that aren't declared, in order.
    pub unknown_fields: UnknownFields,
}

impl Model for Settings {
    ghost use Rattle.std.specs.Coded.{codes};
    ghost use Rattle.std.specs.Prelude.{List, ℕ, ℤ};
    ghost use Rattle.std.proofs.Common.{arith};
    ghost use Rattle.buffa_fields.specs.Terms.{FieldData, coded_field_data};
    ghost use Rattle.buffa_recursive.specs.Terms.{MessageTree, coded_tree, has, has_map, has_unknown_fields, most-of_map, tree_height, tree_of};

    ghost Value = { MessageTree (List ℕ × (List (List ℕ) × (List ℤ × List (ℕ × FieldData)))) };

    ghost coded = { Prim.hlevel (codes, coded_field_data, coded_tree) };

    ghost view = { λ m. tree_of (
        has (⟦<ImplicitField<Str> as Member>⟧.shape.meaning m.value) (
        has_map ⟦<String as Blank>⟧.meaning m.sections.entries (
        has (⟦<RepeatedField<Int32> as Member>⟧.shape.meaning m.ports) (has_unknown_fields m.unknown_fields.records)))) };

    ghost size = { tree_height };

    ghost size_decreases = { λ m h. Prim.grind (arith, most-of_map ⟦<String as Blank>⟧.meaning m.sections.entries) };
}

impl RecursiveType for Settings {
    const COST: usize = 96;

    ghost COST = { 96 };

    ghost positive = { lit< tt };

    ghost schema = { recursive_message (
        member 1 ⟦<ImplicitField<Str> as Member>⟧.shape (
        map_inside 2 ⟦<ByKey<Str> as Keyed>⟧.keys (
        member 3 ⟦<RepeatedField<Int32> as Member>⟧.shape keeps_unknown))) };

    ghost sound = { λ w. refl };
}

impl RecursiveFields for Settings {
    fn visit<V: RecursiveVisitor<Settings>>(&self, visitor: &mut V) {
        visitor.visit::<ImplicitField<Str>>(1, &self.value);
        visitor.visit_map::<Str>(2, &self.sections);
        visitor.visit::<RepeatedField<Int32>>(3, &self.ports);
        visitor.visit_unknown_fields(&self.unknown_fields);
    }

    fn take<I: InnerMerger<Settings>>(
        &mut self,
        alloc: Global,
        tag: Tag,
        buf: &mut &[u8],
        ctx: DecodeContext<'_>,
        inner: &I,
    ) -> Result<(), DecodeError> {
        match tag.field_number() {
            1 => ImplicitField::<Str>::merge(&mut self.value, alloc, tag, buf, ctx),
            2 => take_map::<Str, Settings, I>(&mut self.sections, alloc, tag, buf, ctx, inner),
            3 => RepeatedField::<Int32>::merge(&mut self.ports, alloc, tag, buf, ctx),
            _ => unknown::keep(alloc, &mut self.unknown_fields, tag, buf, ctx),
        }
    }
}

impl Blank for Settings {
    type Meaning = Settings;

    ghost meaning = { λ m. m };

    ghost blank_is = { ⟦<Settings as RecursiveType>⟧.schema.into ⟦<Settings as RecursiveType>⟧.schema.blank };

    fn blank(alloc: Global) -> Settings {
        Settings {
            value: String::new(alloc),
            sections: BTreeMap::new(alloc),
            ports: Vec::new(alloc),
            unknown_fields: UnknownFields::new(alloc),
        }
    }
}

impl RecursiveMeaning for Settings {
    ghost means = { λ m. refl };

    ghost starts = { refl };
}

impl MessageImpl for Settings {
    type Impl = RecursiveFieldByField;
}

const _: () = prove!(size_of::<Settings>() <= Settings::COST);

impl Settings {
    /// The full name of the message.
    pub const FULL_NAME: &'static str = "buffa.sample.Settings";
}

impl buffa_locate::Locate for Settings {
    fn name_of(number: u32) -> Option<&'static str> {
        match number {
            1 => Some("value"),
            2 => Some("sections"),
            3 => Some("ports"),
            _ => None,
        }
    }

    fn inside(number: u32) -> Option<buffa_locate::Inside> {
        match number {
            2 => {
                let key = <Str as buffa_fields::map_codec::MapValueDecode>::COST;
                let held = buffa_locate::Inside::own_value::<Settings>(key);
                Some(held)
            }
            _ => None,
        }
    }

    fn find_inside(
        _number: u32,
        _alloc: Global,
        search: buffa_locate::Search<'_>,
        path: &mut Vec<buffa_locate::Step>,
    ) -> Result<Option<usize>, std::alloc::AllocError> {
        buffa_locate::nothing_inside(search, path)
    }
}
