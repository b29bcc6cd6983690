//! buffa.sample.Outline, made of outline.proto by protoc-gen-buffa.

ghost use Rattle.std.proofs.Common.{lit<, refl};
ghost use Rattle.buffa_recursive.specs.Terms.{keeps_unknown, list_inside, map_inside, member, member_one_of, member_with_unknowns, one_inside, recursive_message, rest_of};

use crate::outline_mark::OutlineMark;
use crate::outline_source::OutlineSource;
use buffa_fields::map_codec::{ClosedEnum, Int32, Map, Str};
use buffa_fields::{
    Blank, DecodeContext, DecodeError, ExplicitField, KeepsUnknowns, MapField, Member, MessageImpl,
    OneOf, Tag, UnknownFields, unknown,
};
use buffa_recursive::{
    ByKey, InnerMerger, Keyed, RecursiveFieldByField, RecursiveFields, RecursiveMeaning,
    RecursiveType, RecursiveVisitor, take_list, take_map, take_one, take_one_of,
};
use std::alloc::Global;
use std::collections::BTreeMap;
use std::marker::Model;
use std::string::String;

/// A part of a text, with the parts in it.
///
/// message Outline {
///     optional string title = 1;
///     repeated Outline parts = 2;
///     optional int32 width = 3;
///     optional Outline beside = 4;
///     map<int32, Outline> by_number = 5;
///     map<int32, Mark> marks = 6;
///     oneof source {
///         string book = 7;
///         int32 page = 8;
///         Spot spot = 9;
///     }
/// }
///
/// Written in the order of their keys: by_number = 5.
#[derive(Debug, Drop)]
pub struct Outline {
    pub title: Option<String>,
    pub parts: Vec<Outline>,
    pub width: Option<i32>,
    pub beside: Option<Box<Outline>>,
    pub by_number: BTreeMap<i32, Outline>,
    pub marks: Map<i32, OutlineMark>,
    /// Where it is from.
    pub source: Option<OutlineSource>,
    /// The fields that aren't declared, in order.
    pub unknown_fields: UnknownFields,
}

impl Model for Outline {
    ghost use Rattle.std.specs.Coded.{codes};
    ghost use Rattle.std.specs.Option.{option_map};
    ghost use Rattle.std.specs.Prelude.{List, Option, ℕ, ℤ};
    ghost use Rattle.std.proofs.Common.{arith};
    ghost use Rattle.buffa_fields.specs.Terms.{FieldData, coded_field_data, coded_or};
    ghost use Rattle.buffa_recursive.specs.Terms.{CaseMeaningOf, MessageTree, coded_tree, has, has_case, has_list, has_map, has_one, has_unknown_fields, most-of_list, most-of_map, tree_height, tree_of};

    ghost Value = { MessageTree (
        Option (List ℕ) × (
        Option ℤ × (
        List ℤ × (
        (List (ℤ × ℤ)) × (
        CaseMeaningOf ⟦<OutlineSource as OneOf>⟧.cases × List (ℕ × FieldData)))))) };

    ghost coded = { Prim.hlevel (codes, coded_field_data, coded_tree, coded_or) };

    ghost view = { λ m. tree_of (
        has (⟦<ExplicitField<Str> as Member>⟧.shape.meaning m.title) (
        has_list m.parts.items (
        has (⟦<ExplicitField<Int32> as Member>⟧.shape.meaning m.width) (
        has_one (option_map (λ b. b.value) m.beside) (
        has_map ⟦<i32 as Blank>⟧.meaning m.by_number.entries (
        has (⟦<MapField<Int32, ClosedEnum<OutlineMark>> as Member>⟧.shape.meaning m.marks) (
        has_case ⟦<OutlineSource as OneOf>⟧.cases m.source (has_unknown_fields m.unknown_fields.records)))))))) };

    ghost size = { tree_height };

    ghost size_decreases = { λ m h. Prim.grind (
      arith,
      most-of_list m.parts.items,
      most-of_map ⟦<i32 as Blank>⟧.meaning m.by_number.entries,
    ) };
}

impl RecursiveType for Outline {
    const COST: usize = 304;

    ghost COST = { 304 };

    ghost positive = { lit< tt };

    ghost schema = { recursive_message (
        member 1 ⟦<ExplicitField<Str> as Member>⟧.shape (
        list_inside 2 (
        member 3 ⟦<ExplicitField<Int32> as Member>⟧.shape (
        one_inside 4 (
        map_inside 5 ⟦<ByKey<Int32> as Keyed>⟧.keys (
        member_with_unknowns 6 ⟦<MapField<Int32, ClosedEnum<OutlineMark>> as Member>⟧.shape ⟦<MapField<Int32, ClosedEnum<OutlineMark>> as KeepsUnknowns>⟧.unknowns (
        member_one_of ⟦<OutlineSource as OneOf>⟧.cases keeps_unknown))))))) };

    ghost sound = { λ w. refl };
}

impl RecursiveFields for Outline {
    fn visit<V: RecursiveVisitor<Outline>>(&self, visitor: &mut V) {
        visitor.visit::<ExplicitField<Str>>(1, &self.title);
        visitor.visit_list(2, &self.parts);
        visitor.visit::<ExplicitField<Int32>>(3, &self.width);
        visitor.visit_one(4, &self.beside);
        visitor.visit_map::<Int32>(5, &self.by_number);
        visitor.visit_with_unknowns::<MapField<Int32, ClosedEnum<OutlineMark>>>(6, &self.marks);
        visitor.visit_one_of(&self.source);
        visitor.visit_unknown_fields(&self.unknown_fields);
    }

    fn take<I: InnerMerger<Outline>>(
        &mut self,
        alloc: Global,
        tag: Tag,
        buf: &mut &[u8],
        ctx: DecodeContext<'_>,
        inner: &I,
    ) -> Result<(), DecodeError> {
        match tag.field_number() {
            1 => ExplicitField::<Str>::merge(&mut self.title, alloc, tag, buf, ctx),
            2 => take_list(&mut self.parts, alloc, tag, buf, ctx, inner),
            3 => ExplicitField::<Int32>::merge(&mut self.width, alloc, tag, buf, ctx),
            4 => take_one(&mut self.beside, alloc, tag, buf, ctx, inner),
            5 => take_map::<Int32, Outline, I>(&mut self.by_number, alloc, tag, buf, ctx, inner),
            6 => MapField::<Int32, ClosedEnum<OutlineMark>>::merge_with_unknowns(
                &mut self.marks,
                &mut self.unknown_fields,
                alloc,
                tag,
                buf,
                ctx,
            ),
            7 => take_one_of(&mut self.source, alloc, tag, buf, ctx),
            8 => take_one_of(&mut self.source, alloc, tag, buf, ctx),
            9 => take_one_of(&mut self.source, alloc, tag, buf, ctx),
            _ => unknown::keep(alloc, &mut self.unknown_fields, tag, buf, ctx),
        }
    }
}

impl Blank for Outline {
    type Meaning = Outline;

    ghost meaning = { λ m. m };

    ghost blank_is = { ⟦<Outline as RecursiveType>⟧.schema.into ⟦<Outline as RecursiveType>⟧.schema.blank };

    fn blank(alloc: Global) -> Outline {
        Outline {
            title: None,
            parts: Vec::new(alloc),
            width: None,
            beside: None,
            by_number: BTreeMap::new(alloc),
            marks: Map::new(alloc),
            source: None,
            unknown_fields: UnknownFields::new(alloc),
        }
    }
}

impl RecursiveMeaning for Outline {
    ghost means = { λ m. refl };

    ghost starts = { refl };
}

impl MessageImpl for Outline {
    type Impl = RecursiveFieldByField;
}

const _: () = prove!(size_of::<Outline>() <= Outline::COST);

impl Outline {
    ghost use Rattle.std.specs.Prelude.{[], pos, unwrap_or, ◌≡◌};

    /// The full name of the message.
    pub const FULL_NAME: &'static str = "buffa.sample.Outline";

    /// `title`, or the default of its type where it isn't there: empty.
    pub fn title(&self) -> &str
        ensures is { result.now ≡ unwrap_or (rest_of self.now).0.0 [] }
    {
        match &self.title {
            Some(it) => it.as_str(),
            None => "",
        }
    }

    /// `width`, or the default of its type where it isn't there: 0.
    pub fn width(&self) -> i32
        ensures is { result ≡ unwrap_or (rest_of self.now).0.1.0 (pos 0) }
    {
        self.width.unwrap_or(0)
    }
}
