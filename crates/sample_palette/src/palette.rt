//! buffa.sample.Palette, made of palette.proto by protoc-gen-buffa.

ghost use Rattle.std.proofs.Common.{lit<, refl};
ghost use Rattle.buffa_fields.specs.Terms.{field, field_with_unknowns, keep_unknown};

use crate::shade::Shade;
use crate::swatch::Swatch;
use buffa_fields::map_codec::{ClosedEnum, Int32, Map};
use buffa_fields::{
    And, And9, Blank, DecodeContext, DecodeError, ExplicitField, FieldByField, FieldsMeaning,
    GroupField, ImplicitField, KeepsUnknowns, MapField, Member, MessageField, MessageFields,
    MessageImpl, OrderedMapField, PackedField, RepeatedField, Tag, UnknownFields, Unknowns,
    Visitor, unknown,
};
use std::alloc::Global;
use std::collections::BTreeMap;

/// A palette: what a reader doesn't understand of its shades is passed on.
///
/// message Palette {
///     optional int32 total = 1;
///     map<int32, Shade> shades = 3;
///     optional Shade s = 4;
///     repeated Shade list = 5;
///     repeated Shade packed = 6 [packed = true];
///     map<int32, Shade> ordered = 7;
///     optional Swatch swatch = 8;
///     optional Swatch patch = 9;
/// }
///
/// Written as groups: patch = 9.
///
/// Written in the order of their keys: ordered = 7.
///
/// Not written where it is the default: total = 1.
#[derive(Debug, Drop)]
pub struct Palette {
    pub total: i32,
    pub shades: Map<i32, Shade>,
    pub s: Option<Shade>,
    pub list: Vec<Shade>,
    pub packed: Vec<Shade>,
    pub ordered: BTreeMap<i32, Shade>,
    pub swatch: Option<Swatch>,
    pub patch: Option<Swatch>,
    /// The fields that aren't declared, in order.
    pub unknown_fields: UnknownFields,
}

impl MessageFields for Palette {
    type Meaning = And9<
        i32,
        [And<i32, i32>; 0],
        Option<i32>,
        [i32; 0],
        [i32; 0],
        [And<i32, i32>; 0],
        Option<<Swatch as Blank>::Meaning>,
        Option<<Swatch as Blank>::Meaning>,
        Unknowns,
    >;

    const COST: usize = 256;

    ghost COST = { 256 };

    ghost positive = { lit< tt };

    ghost schema = { field 1 (λ m. m.total) ⟦<ImplicitField<Int32> as Member>⟧.shape (
        field_with_unknowns 3 (λ m. m.shades) ⟦<MapField<Int32, ClosedEnum<Shade>> as Member>⟧.shape
        ⟦<MapField<Int32, ClosedEnum<Shade>> as KeepsUnknowns>⟧.unknowns (
        field_with_unknowns 4 (λ m. m.s) ⟦<ExplicitField<ClosedEnum<Shade>> as Member>⟧.shape
        ⟦<ExplicitField<ClosedEnum<Shade>> as KeepsUnknowns>⟧.unknowns (
        field_with_unknowns 5 (λ m. m.list) ⟦<RepeatedField<ClosedEnum<Shade>> as Member>⟧.shape
        ⟦<RepeatedField<ClosedEnum<Shade>> as KeepsUnknowns>⟧.unknowns (
        field_with_unknowns 6 (λ m. m.packed) ⟦<PackedField<ClosedEnum<Shade>> as Member>⟧.shape
        ⟦<PackedField<ClosedEnum<Shade>> as KeepsUnknowns>⟧.unknowns (
        field_with_unknowns 7 (λ m. m.ordered) ⟦<OrderedMapField<Int32, ClosedEnum<Shade>> as Member>⟧.shape
        ⟦<OrderedMapField<Int32, ClosedEnum<Shade>> as KeepsUnknowns>⟧.unknowns (
        field 8 (λ m. m.swatch) ⟦<MessageField<Swatch> as Member>⟧.shape (
        field 9 (λ m. m.patch) ⟦<GroupField<Swatch> as Member>⟧.shape (
        keep_unknown (λ m. m.unknown_fields.records))))))))) };

    ghost sound = { refl };

    fn visit<V: Visitor>(&self, visitor: &mut V) {
        visitor.visit::<ImplicitField<Int32>>(1, &self.total);
        visitor.visit_with_unknowns::<MapField<Int32, ClosedEnum<Shade>>>(3, &self.shades);
        visitor.visit_with_unknowns::<ExplicitField<ClosedEnum<Shade>>>(4, &self.s);
        visitor.visit_with_unknowns::<RepeatedField<ClosedEnum<Shade>>>(5, &self.list);
        visitor.visit_with_unknowns::<PackedField<ClosedEnum<Shade>>>(6, &self.packed);
        visitor.visit_with_unknowns::<OrderedMapField<Int32, ClosedEnum<Shade>>>(7, &self.ordered);
        visitor.visit::<MessageField<Swatch>>(8, &self.swatch);
        visitor.visit::<GroupField<Swatch>>(9, &self.patch);
        visitor.visit_unknown_fields(&self.unknown_fields);
    }

    fn take(
        &mut self,
        alloc: Global,
        tag: Tag,
        buf: &mut &[u8],
        ctx: DecodeContext<'_>,
    ) -> Result<(), DecodeError> {
        match tag.field_number() {
            1 => ImplicitField::<Int32>::merge(&mut self.total, alloc, tag, buf, ctx),
            3 => MapField::<Int32, ClosedEnum<Shade>>::merge_with_unknowns(
                &mut self.shades,
                &mut self.unknown_fields,
                alloc,
                tag,
                buf,
                ctx,
            ),
            4 => ExplicitField::<ClosedEnum<Shade>>::merge_with_unknowns(
                &mut self.s,
                &mut self.unknown_fields,
                alloc,
                tag,
                buf,
                ctx,
            ),
            5 => RepeatedField::<ClosedEnum<Shade>>::merge_with_unknowns(
                &mut self.list,
                &mut self.unknown_fields,
                alloc,
                tag,
                buf,
                ctx,
            ),
            6 => PackedField::<ClosedEnum<Shade>>::merge_with_unknowns(
                &mut self.packed,
                &mut self.unknown_fields,
                alloc,
                tag,
                buf,
                ctx,
            ),
            7 => OrderedMapField::<Int32, ClosedEnum<Shade>>::merge_with_unknowns(
                &mut self.ordered,
                &mut self.unknown_fields,
                alloc,
                tag,
                buf,
                ctx,
            ),
            8 => MessageField::<Swatch>::merge(&mut self.swatch, alloc, tag, buf, ctx),
            9 => GroupField::<Swatch>::merge(&mut self.patch, alloc, tag, buf, ctx),
            _ => unknown::keep(alloc, &mut self.unknown_fields, tag, buf, ctx),
        }
    }
}

impl Blank for Palette {
    type Meaning = <Palette as MessageFields>::Meaning;

    ghost meaning = { ⟦<Palette as MessageFields>⟧.schema.meaning };

    ghost blank_is = { ⟦<Palette as MessageFields>⟧.schema.blank };

    fn blank(alloc: Global) -> Palette {
        Palette {
            total: 0,
            shades: Map::new(alloc),
            s: None,
            list: Vec::new(alloc),
            packed: Vec::new(alloc),
            ordered: BTreeMap::new(alloc),
            swatch: None,
            patch: None,
            unknown_fields: UnknownFields::new(alloc),
        }
    }
}

impl FieldsMeaning for Palette {
    ghost means = { λ m. refl };

    ghost starts = { refl };
}

impl MessageImpl for Palette {
    type Impl = FieldByField;
}

impl Palette {
    ghost use Rattle.std.specs.Prelude.{unwrap_or, ◌≡◌};
    ghost use Rattle.sample_palette.specs.declared.shade.Shade.TheVariants.{A};

    /// The full name of the message.
    pub const FULL_NAME: &'static str = "buffa.sample.Palette";

    /// `s`, or the default of its type where it isn't there: A.
    pub fn s(&self) -> Shade
        ensures is { result ≡ unwrap_or self.now.s A }
    {
        self.s.unwrap_or(Shade::A)
    }
}
