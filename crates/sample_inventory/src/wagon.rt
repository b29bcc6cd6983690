//! buffa.sample.Wagon, made of inventory.proto by protoc-gen-buffa.

ghost use Rattle.std.proofs.Common.{lit<, refl};
ghost use Rattle.buffa_fields.specs.Terms.{field, keep_unknown};

use crate::load::Load;
use crate::state::State;
use buffa_fields::map_codec::{Int32, Int64, Map, OpenEnum, Str};
use buffa_fields::{
    And, And14, Blank, DecodeContext, DecodeError, EnumValue, ExplicitField, FieldByField,
    FieldsMeaning, GroupField, ImplicitField, MapField, Member, MessageField, MessageFields,
    MessageImpl, MessageMapField, OrderedMapField, OrderedMessageMapField, PackedField,
    RepeatedField, RepeatedGroupField, RepeatedMessageField, Tag, UnknownFields, Unknowns, Visitor,
    unknown,
};
use std::alloc::Global;
use std::collections::BTreeMap;
use std::string::String;

/// A wagon: a member of each type, with loads in each that has messages.
///
/// message Wagon {
///     optional Load load = 1;
///     repeated Load loads = 2;
///     optional Load frame = 3;
///     repeated Load beams = 4;
///     map<string, Load> shelves = 5;
///     map<int32, Load> berths = 6;
///     int64 id = 7;
///     optional string name = 8;
///     optional State state = 9;
///     repeated int32 seats = 10;
///     repeated string tags = 11;
///     map<string, int32> counts = 12;
///     map<int32, int32> axles = 13;
/// }
///
/// Written as groups: frame = 3, beams = 4.
///
/// Written in the order of their keys: berths = 6, axles = 13.
#[derive(Debug, Drop)]
pub struct Wagon {
    pub load: Option<Load>,
    pub loads: Vec<Load>,
    pub frame: Option<Load>,
    pub beams: Vec<Load>,
    pub shelves: Map<String, Load>,
    pub berths: BTreeMap<i32, Load>,
    pub id: i64,
    pub name: Option<String>,
    pub state: Option<EnumValue<State>>,
    pub seats: Vec<i32>,
    pub tags: Vec<String>,
    pub counts: Map<String, i32>,
    pub axles: BTreeMap<i32, i32>,
    /// The fields that aren't declared, in order.
    pub unknown_fields: UnknownFields,
}

impl MessageFields for Wagon {
    type Meaning = And14<
        Option<<Load as Blank>::Meaning>,
        [<Load as Blank>::Meaning; 0],
        Option<<Load as Blank>::Meaning>,
        [<Load as Blank>::Meaning; 0],
        [And<[u8; 0], <Load as Blank>::Meaning>; 0],
        [And<i32, <Load as Blank>::Meaning>; 0],
        i64,
        Option<[u8; 0]>,
        Option<(bool, i32)>,
        [i32; 0],
        [[u8; 0]; 0],
        [And<[u8; 0], i32>; 0],
        [And<i32, i32>; 0],
        Unknowns,
    >;

    const COST: usize = 392;

    ghost COST = { 392 };

    ghost positive = { lit< tt };

    ghost schema = { field 1 (λ m. m.load) ⟦<MessageField<Load> as Member>⟧.shape (
        field 2 (λ m. m.loads) ⟦<RepeatedMessageField<Load> as Member>⟧.shape (
        field 3 (λ m. m.frame) ⟦<GroupField<Load> as Member>⟧.shape (
        field 4 (λ m. m.beams) ⟦<RepeatedGroupField<Load> as Member>⟧.shape (
        field 5 (λ m. m.shelves) ⟦<MessageMapField<Str, Load> as Member>⟧.shape (
        field 6 (λ m. m.berths) ⟦<OrderedMessageMapField<Int32, Load> as Member>⟧.shape (
        field 7 (λ m. m.id) ⟦<ImplicitField<Int64> as Member>⟧.shape (
        field 8 (λ m. m.name) ⟦<ExplicitField<Str> as Member>⟧.shape (
        field 9 (λ m. m.state) ⟦<ExplicitField<OpenEnum<State>> as Member>⟧.shape (
        field 10 (λ m. m.seats) ⟦<PackedField<Int32> as Member>⟧.shape (
        field 11 (λ m. m.tags) ⟦<RepeatedField<Str> as Member>⟧.shape (
        field 12 (λ m. m.counts) ⟦<MapField<Str, Int32> as Member>⟧.shape (
        field 13 (λ m. m.axles) ⟦<OrderedMapField<Int32, Int32> as Member>⟧.shape (
        keep_unknown (λ m. m.unknown_fields.records)))))))))))))) };

    ghost sound = { refl };

    fn visit<V: Visitor>(&self, visitor: &mut V) {
        visitor.visit::<MessageField<Load>>(1, &self.load);
        visitor.visit::<RepeatedMessageField<Load>>(2, &self.loads);
        visitor.visit::<GroupField<Load>>(3, &self.frame);
        visitor.visit::<RepeatedGroupField<Load>>(4, &self.beams);
        visitor.visit::<MessageMapField<Str, Load>>(5, &self.shelves);
        visitor.visit::<OrderedMessageMapField<Int32, Load>>(6, &self.berths);
        visitor.visit::<ImplicitField<Int64>>(7, &self.id);
        visitor.visit::<ExplicitField<Str>>(8, &self.name);
        visitor.visit::<ExplicitField<OpenEnum<State>>>(9, &self.state);
        visitor.visit::<PackedField<Int32>>(10, &self.seats);
        visitor.visit::<RepeatedField<Str>>(11, &self.tags);
        visitor.visit::<MapField<Str, Int32>>(12, &self.counts);
        visitor.visit::<OrderedMapField<Int32, Int32>>(13, &self.axles);
        visitor.visit_unknown_fields(&self.unknown_fields);
    }

    fn take(
        &mut self,
        alloc: Global,
        tag: Tag,
        buf: &mut &[u8],
        ctx: DecodeContext<'_>,
    ) -> Result<(), DecodeError> {
        match tag.field_number() {
            1 => MessageField::<Load>::merge(&mut self.load, alloc, tag, buf, ctx),
            2 => RepeatedMessageField::<Load>::merge(&mut self.loads, alloc, tag, buf, ctx),
            3 => GroupField::<Load>::merge(&mut self.frame, alloc, tag, buf, ctx),
            4 => RepeatedGroupField::<Load>::merge(&mut self.beams, alloc, tag, buf, ctx),
            5 => MessageMapField::<Str, Load>::merge(&mut self.shelves, alloc, tag, buf, ctx),
            6 => OrderedMessageMapField::<Int32, Load>::merge(
                &mut self.berths,
                alloc,
                tag,
                buf,
                ctx,
            ),
            7 => ImplicitField::<Int64>::merge(&mut self.id, alloc, tag, buf, ctx),
            8 => ExplicitField::<Str>::merge(&mut self.name, alloc, tag, buf, ctx),
            9 => ExplicitField::<OpenEnum<State>>::merge(&mut self.state, alloc, tag, buf, ctx),
            10 => PackedField::<Int32>::merge(&mut self.seats, alloc, tag, buf, ctx),
            11 => RepeatedField::<Str>::merge(&mut self.tags, alloc, tag, buf, ctx),
            12 => MapField::<Str, Int32>::merge(&mut self.counts, alloc, tag, buf, ctx),
            13 => OrderedMapField::<Int32, Int32>::merge(&mut self.axles, alloc, tag, buf, ctx),
            _ => unknown::keep(alloc, &mut self.unknown_fields, tag, buf, ctx),
        }
    }
}

impl Blank for Wagon {
    type Meaning = <Wagon as MessageFields>::Meaning;

    ghost meaning = { ⟦<Wagon as MessageFields>⟧.schema.meaning };

    ghost blank_is = { ⟦<Wagon as MessageFields>⟧.schema.blank };

    fn blank(alloc: Global) -> Wagon {
        Wagon {
            load: None,
            loads: Vec::new(alloc),
            frame: None,
            beams: Vec::new(alloc),
            shelves: Map::new(alloc),
            berths: BTreeMap::new(alloc),
            id: 0,
            name: None,
            state: None,
            seats: Vec::new(alloc),
            tags: Vec::new(alloc),
            counts: Map::new(alloc),
            axles: BTreeMap::new(alloc),
            unknown_fields: UnknownFields::new(alloc),
        }
    }
}

impl FieldsMeaning for Wagon {
    ghost means = { λ m. refl };

    ghost starts = { refl };
}

impl MessageImpl for Wagon {
    type Impl = FieldByField;
}

impl Wagon {
    ghost use Rattle.std.specs.Prelude.{[], option_map, pos, string_bytes, true, unwrap_or, ◌≡◌};

    /// The full name of the message.
    pub const FULL_NAME: &'static str = "buffa.sample.Wagon";

    /// `name`, or the default of its type where it isn't there: empty.
    pub fn name(&self) -> &str
        ensures is { result.now ≡ unwrap_or (option_map string_bytes self.now.name) [] }
    {
        match &self.name {
            Some(it) => it.as_str(),
            None => "",
        }
    }

    /// `state`, or the default of its type where it isn't there: OPEN.
    pub fn state(&self) -> EnumValue<State>
        ensures is { ⟦<EnumValue<State> as Blank>⟧.meaning result
            ≡ unwrap_or (option_map ⟦<EnumValue<State> as Blank>⟧.meaning self.now.state) (true, pos 0) }
    {
        match &self.state {
            Some(it) => *it,
            None => EnumValue::Known(State::Open),
        }
    }
}

impl buffa_locate::Locate for Wagon {
    fn name_of(number: u32) -> Option<&'static str> {
        match number {
            1 => Some("load"),
            2 => Some("loads"),
            3 => Some("frame"),
            4 => Some("beams"),
            5 => Some("shelves"),
            6 => Some("berths"),
            7 => Some("id"),
            8 => Some("name"),
            9 => Some("state"),
            10 => Some("seats"),
            11 => Some("tags"),
            12 => Some("counts"),
            13 => Some("axles"),
            _ => None,
        }
    }

    fn inside(number: u32) -> Option<buffa_locate::Inside> {
        match number {
            1 => Some(buffa_locate::Inside::one()),
            2 => Some(buffa_locate::Inside::element::<Load>()),
            3 => Some(buffa_locate::Inside::group()),
            4 => Some(buffa_locate::Inside::group_element::<Load>()),
            5 => {
                let key = <Str as buffa_fields::map_codec::MapValueDecode>::COST;
                let held = buffa_locate::Inside::value::<Load>(key);
                Some(held)
            }
            6 => {
                let key = <Int32 as buffa_fields::map_codec::MapValueDecode>::COST;
                let held = buffa_locate::Inside::value::<Load>(key);
                Some(held)
            }
            _ => None,
        }
    }

    fn find_inside(
        number: u32,
        alloc: Global,
        search: buffa_locate::Search<'_>,
        path: &mut Vec<buffa_locate::Step>,
    ) -> Result<Option<usize>, std::alloc::AllocError> {
        match number {
            1 | 2 | 3 | 4 | 5 | 6 => buffa_locate::find::<Load>(alloc, search, path),
            _ => buffa_locate::nothing_inside(search, path),
        }
    }
}
