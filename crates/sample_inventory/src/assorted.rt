//! buffa.sample.Assorted, made of inventory.proto by protoc-gen-buffa.

ghost use Rattle.std.proofs.Common.{lit<, refl};
ghost use Rattle.buffa_fields.specs.Terms.{field, keep_unknown};

use crate::state::State;
use buffa_fields::map_codec::{Bool, BytesBuf, BytesVec, Int64, Map, OpenEnum};
use buffa_fields::{
    And, And9, Blank, DecodeContext, DecodeError, EnumValue, ExplicitField, FieldByField,
    FieldsMeaning, ImplicitField, MapField, Member, MessageFields, MessageImpl, PackedField,
    RepeatedField, Tag, UnknownFields, Unknowns, Visitor, unknown,
};
use bytes::Bytes;
use std::alloc::Global;

/// Bytes and values of an enum: optional ones, lists, maps; and bytes that are shared.
///
/// message Assorted {
///     optional bytes data = 1;
///     optional State state = 2;
///     repeated bytes parts = 3;
///     repeated State past = 4 [packed = false];
///     repeated State coming = 5;
///     map<bool, bytes> marks = 6;
///     map<int64, State> states = 7;
///     bytes shared = 8;
/// }
#[derive(Debug, Drop)]
pub struct Assorted {
    pub data: Option<Vec<u8>>,
    pub state: Option<EnumValue<State>>,
    pub parts: Vec<Vec<u8>>,
    pub past: Vec<EnumValue<State>>,
    pub coming: Vec<EnumValue<State>>,
    pub marks: Map<bool, Vec<u8>>,
    pub states: Map<i64, EnumValue<State>>,
    pub shared: Bytes,
    /// The fields that aren't declared, in order.
    pub unknown_fields: UnknownFields,
}

impl MessageFields for Assorted {
    type Meaning = And9<
        Option<[u8; 0]>,
        Option<(bool, i32)>,
        [[u8; 0]; 0],
        [(bool, i32); 0],
        [(bool, i32); 0],
        [And<bool, [u8; 0]>; 0],
        [And<i64, (bool, i32)>; 0],
        [u8; 0],
        Unknowns,
    >;

    const COST: usize = 216;

    ghost COST = { 216 };

    ghost positive = { lit< tt };

    ghost schema = { field 1 (λ m. m.«data») ⟦<ExplicitField<BytesVec> as Member>⟧.shape (
        field 2 (λ m. m.state) ⟦<ExplicitField<OpenEnum<State>> as Member>⟧.shape (
        field 3 (λ m. m.parts) ⟦<RepeatedField<BytesVec> as Member>⟧.shape (
        field 4 (λ m. m.past) ⟦<RepeatedField<OpenEnum<State>> as Member>⟧.shape (
        field 5 (λ m. m.coming) ⟦<PackedField<OpenEnum<State>> as Member>⟧.shape (
        field 6 (λ m. m.marks) ⟦<MapField<Bool, BytesVec> as Member>⟧.shape (
        field 7 (λ m. m.states) ⟦<MapField<Int64, OpenEnum<State>> as Member>⟧.shape (
        field 8 (λ m. m.shared) ⟦<ImplicitField<BytesBuf> as Member>⟧.shape (
        keep_unknown (λ m. m.unknown_fields.records))))))))) };

    ghost sound = { refl };

    fn visit<V: Visitor>(&self, visitor: &mut V) {
        visitor.visit::<ExplicitField<BytesVec>>(1, &self.data);
        visitor.visit::<ExplicitField<OpenEnum<State>>>(2, &self.state);
        visitor.visit::<RepeatedField<BytesVec>>(3, &self.parts);
        visitor.visit::<RepeatedField<OpenEnum<State>>>(4, &self.past);
        visitor.visit::<PackedField<OpenEnum<State>>>(5, &self.coming);
        visitor.visit::<MapField<Bool, BytesVec>>(6, &self.marks);
        visitor.visit::<MapField<Int64, OpenEnum<State>>>(7, &self.states);
        visitor.visit::<ImplicitField<BytesBuf>>(8, &self.shared);
        visitor.visit_unknown_fields(&self.unknown_fields);
    }

    fn take(
        &mut self,
        alloc: Global,
        tag: Tag,
        buf: &mut &[u8],
        ctx: DecodeContext<'_>,
    ) -> Result<(), DecodeError> {
        match tag.field_number() {
            1 => ExplicitField::<BytesVec>::merge(&mut self.data, alloc, tag, buf, ctx),
            2 => ExplicitField::<OpenEnum<State>>::merge(&mut self.state, alloc, tag, buf, ctx),
            3 => RepeatedField::<BytesVec>::merge(&mut self.parts, alloc, tag, buf, ctx),
            4 => RepeatedField::<OpenEnum<State>>::merge(&mut self.past, alloc, tag, buf, ctx),
            5 => PackedField::<OpenEnum<State>>::merge(&mut self.coming, alloc, tag, buf, ctx),
            6 => MapField::<Bool, BytesVec>::merge(&mut self.marks, alloc, tag, buf, ctx),
            7 => MapField::<Int64, OpenEnum<State>>::merge(&mut self.states, alloc, tag, buf, ctx),
            8 => ImplicitField::<BytesBuf>::merge(&mut self.shared, alloc, tag, buf, ctx),
            _ => unknown::keep(alloc, &mut self.unknown_fields, tag, buf, ctx),
        }
    }
}

impl Blank for Assorted {
    type Meaning = <Assorted as MessageFields>::Meaning;

    ghost meaning = { ⟦<Assorted as MessageFields>⟧.schema.meaning };

    ghost blank_is = { ⟦<Assorted as MessageFields>⟧.schema.blank };

    fn blank(alloc: Global) -> Assorted {
        Assorted {
            data: None,
            state: None,
            parts: Vec::new(alloc),
            past: Vec::new(alloc),
            coming: Vec::new(alloc),
            marks: Map::new(alloc),
            states: Map::new(alloc),
            shared: Bytes::new(),
            unknown_fields: UnknownFields::new(alloc),
        }
    }
}

impl FieldsMeaning for Assorted {
    ghost means = { λ m. refl };

    ghost starts = { refl };
}

impl MessageImpl for Assorted {
    type Impl = FieldByField;
}

impl Assorted {
    ghost use Rattle.std.specs.Prelude.{[], option_map, pos, true, unwrap_or, ◌≡◌};

    /// The full name of the message.
    pub const FULL_NAME: &'static str = "buffa.sample.Assorted";

    /// `data`, or the default of its type where it isn't there: empty.
    pub fn data(&self) -> &[u8]
        ensures is { result.now ≡ unwrap_or (option_map (λ it. it.items) self.now.«data») [] }
    {
        match &self.data {
            Some(it) => it.as_slice(),
            None => b"",
        }
    }

    /// `state`, or the default of its type where it isn't there: OPEN.
    pub fn state(&self) -> EnumValue<State>
        ensures is { ⟦<EnumValue<State> as Blank>⟧.meaning result
            ≡ unwrap_or (option_map ⟦<EnumValue<State> as Blank>⟧.meaning self.now.state) (true, pos 0) }
    {
        match &self.state {
            Some(it) => *it,
            None => EnumValue::Known(State::Open),
        }
    }
}

impl buffa_locate::Locate for Assorted {
    fn name_of(number: u32) -> Option<&'static str> {
        match number {
            1 => Some("data"),
            2 => Some("state"),
            3 => Some("parts"),
            4 => Some("past"),
            5 => Some("coming"),
            6 => Some("marks"),
            7 => Some("states"),
            8 => Some("shared"),
            _ => None,
        }
    }

    fn inside(_number: u32) -> Option<buffa_locate::Inside> {
        None
    }

    fn find_inside(
        _number: u32,
        _alloc: Global,
        search: buffa_locate::Search<'_>,
        path: &mut Vec<buffa_locate::Step>,
    ) -> Result<Option<usize>, std::alloc::AllocError> {
        buffa_locate::nothing_inside(search, path)
    }
}
