//! buffa.sample.Order, made of inventory.proto by protoc-gen-buffa.

ghost use Rattle.std.proofs.Common.{lit<, refl};
ghost use Rattle.buffa_fields.specs.Terms.{field, skip_unknown};

use crate::state::State;
use buffa_fields::map_codec::{Bool, BytesVec, Fixed64, Int32, Int64, Map, OpenEnum, Sint32, Str};
use buffa_fields::{
    And, And13, Blank, DecodeContext, DecodeError, EnumValue, ExplicitField, FieldByField,
    FieldsMeaning, ImplicitField, MapField, Member, MessageFields, MessageImpl, PackedField,
    RepeatedField, Tag, Visitor, unknown,
};
use std::alloc::Global;
use std::string::String;

/// An order: values, optional ones, lists and maps, in twelve members.
///
/// message Order {
///     int64 id = 1;
///     string note = 2;
///     optional bool gift = 3;
///     State state = 4;
///     map<string, int32> counts = 5;
///     bytes blob = 6;
///     repeated sint32 steps = 7;
///     optional string code = 8;
///     optional fixed64 stamp = 9;
///     map<int32, string> names = 10;
///     repeated string tags = 11;
///     optional int32 floor = 12;
/// }
///
/// The fields that aren't declared are passed over.
#[derive(Debug, Drop)]
pub struct Order {
    pub id: i64,
    pub note: String,
    pub gift: Option<bool>,
    pub state: EnumValue<State>,
    pub counts: Map<String, i32>,
    pub blob: Vec<u8>,
    pub steps: Vec<i32>,
    pub code: Option<String>,
    pub stamp: Option<u64>,
    pub names: Map<i32, String>,
    pub tags: Vec<String>,
    pub floor: Option<i32>,
}

impl MessageFields for Order {
    type Meaning = And13<
        i64,
        [u8; 0],
        Option<bool>,
        (bool, i32),
        [And<[u8; 0], i32>; 0],
        [u8; 0],
        [i32; 0],
        Option<[u8; 0]>,
        Option<u64>,
        [And<i32, [u8; 0]>; 0],
        [[u8; 0]; 0],
        Option<i32>,
        (),
    >;

    const COST: usize = 256;

    ghost COST = { 256 };

    ghost positive = { lit< tt };

    ghost schema = { field 1 (λ m. m.id) ⟦<ImplicitField<Int64> as Member>⟧.shape (
        field 2 (λ m. m.note) ⟦<ImplicitField<Str> as Member>⟧.shape (
        field 3 (λ m. m.gift) ⟦<ExplicitField<Bool> as Member>⟧.shape (
        field 4 (λ m. m.state) ⟦<ImplicitField<OpenEnum<State>> as Member>⟧.shape (
        field 5 (λ m. m.counts) ⟦<MapField<Str, Int32> as Member>⟧.shape (
        field 6 (λ m. m.blob) ⟦<ImplicitField<BytesVec> as Member>⟧.shape (
        field 7 (λ m. m.steps) ⟦<PackedField<Sint32> as Member>⟧.shape (
        field 8 (λ m. m.code) ⟦<ExplicitField<Str> as Member>⟧.shape (
        field 9 (λ m. m.stamp) ⟦<ExplicitField<Fixed64> as Member>⟧.shape (
        field 10 (λ m. m.names) ⟦<MapField<Int32, Str> as Member>⟧.shape (
        field 11 (λ m. m.tags) ⟦<RepeatedField<Str> as Member>⟧.shape (
        field 12 (λ m. m.floor) ⟦<ExplicitField<Int32> as Member>⟧.shape (
        skip_unknown)))))))))))) };

    ghost sound = { refl };

    fn visit<V: Visitor>(&self, visitor: &mut V) {
        visitor.visit::<ImplicitField<Int64>>(1, &self.id);
        visitor.visit::<ImplicitField<Str>>(2, &self.note);
        visitor.visit::<ExplicitField<Bool>>(3, &self.gift);
        visitor.visit::<ImplicitField<OpenEnum<State>>>(4, &self.state);
        visitor.visit::<MapField<Str, Int32>>(5, &self.counts);
        visitor.visit::<ImplicitField<BytesVec>>(6, &self.blob);
        visitor.visit::<PackedField<Sint32>>(7, &self.steps);
        visitor.visit::<ExplicitField<Str>>(8, &self.code);
        visitor.visit::<ExplicitField<Fixed64>>(9, &self.stamp);
        visitor.visit::<MapField<Int32, Str>>(10, &self.names);
        visitor.visit::<RepeatedField<Str>>(11, &self.tags);
        visitor.visit::<ExplicitField<Int32>>(12, &self.floor);
    }

    fn take(
        &mut self,
        alloc: Global,
        tag: Tag,
        buf: &mut &[u8],
        ctx: DecodeContext<'_>,
    ) -> Result<(), DecodeError> {
        match tag.field_number() {
            1 => ImplicitField::<Int64>::merge(&mut self.id, alloc, tag, buf, ctx),
            2 => ImplicitField::<Str>::merge(&mut self.note, alloc, tag, buf, ctx),
            3 => ExplicitField::<Bool>::merge(&mut self.gift, alloc, tag, buf, ctx),
            4 => ImplicitField::<OpenEnum<State>>::merge(&mut self.state, alloc, tag, buf, ctx),
            5 => MapField::<Str, Int32>::merge(&mut self.counts, alloc, tag, buf, ctx),
            6 => ImplicitField::<BytesVec>::merge(&mut self.blob, alloc, tag, buf, ctx),
            7 => PackedField::<Sint32>::merge(&mut self.steps, alloc, tag, buf, ctx),
            8 => ExplicitField::<Str>::merge(&mut self.code, alloc, tag, buf, ctx),
            9 => ExplicitField::<Fixed64>::merge(&mut self.stamp, alloc, tag, buf, ctx),
            10 => MapField::<Int32, Str>::merge(&mut self.names, alloc, tag, buf, ctx),
            11 => RepeatedField::<Str>::merge(&mut self.tags, alloc, tag, buf, ctx),
            12 => ExplicitField::<Int32>::merge(&mut self.floor, alloc, tag, buf, ctx),
            _ => unknown::pass(tag, buf, ctx),
        }
    }
}

impl Blank for Order {
    type Meaning = <Order as MessageFields>::Meaning;

    ghost meaning = { ⟦<Order as MessageFields>⟧.schema.meaning };

    ghost blank_is = { ⟦<Order as MessageFields>⟧.schema.blank };

    fn blank(alloc: Global) -> Order {
        Order {
            id: 0,
            note: String::new(alloc),
            gift: None,
            state: EnumValue::<State>::blank(alloc),
            counts: Map::new(alloc),
            blob: Vec::new(alloc),
            steps: Vec::new(alloc),
            code: None,
            stamp: None,
            names: Map::new(alloc),
            tags: Vec::new(alloc),
            floor: None,
        }
    }
}

impl FieldsMeaning for Order {
    ghost means = { λ m. refl };

    ghost starts = { refl };
}

impl MessageImpl for Order {
    type Impl = FieldByField;
}

impl Order {
    ghost use Rattle.std.specs.Prelude.{[], false, option_map, pos, string_bytes, unwrap_or, ◌≡◌};

    /// The full name of the message.
    pub const FULL_NAME: &'static str = "buffa.sample.Order";

    /// `gift`, or the default of its type where it isn't there: false.
    pub fn gift(&self) -> bool
        ensures is { result ≡ unwrap_or self.now.gift false }
    {
        self.gift.unwrap_or(false)
    }

    /// `code`, or the default of its type where it isn't there: empty.
    pub fn code(&self) -> &str
        ensures is { result.now ≡ unwrap_or (option_map string_bytes self.now.code) [] }
    {
        match &self.code {
            Some(it) => it.as_str(),
            None => "",
        }
    }

    /// `stamp`, or the default of its type where it isn't there: 0.
    pub fn stamp(&self) -> u64
        ensures is { result ≡ unwrap_or self.now.stamp 0 }
    {
        self.stamp.unwrap_or(0)
    }

    /// `floor`, or the default of its type where it isn't there: 0.
    pub fn floor(&self) -> i32
        ensures is { result ≡ unwrap_or self.now.floor (pos 0) }
    {
        self.floor.unwrap_or(0)
    }
}

impl buffa_locate::Locate for Order {
    fn name_of(number: u32) -> Option<&'static str> {
        match number {
            1 => Some("id"),
            2 => Some("note"),
            3 => Some("gift"),
            4 => Some("state"),
            5 => Some("counts"),
            6 => Some("blob"),
            7 => Some("steps"),
            8 => Some("code"),
            9 => Some("stamp"),
            10 => Some("names"),
            11 => Some("tags"),
            12 => Some("floor"),
            _ => None,
        }
    }

    fn inside(_number: u32) -> Option<buffa_locate::Inside> {
        None
    }

    fn find_inside(
        _number: u32,
        _alloc: Global,
        search: buffa_locate::Search<'_>,
        path: &mut Vec<buffa_locate::Step>,
    ) -> Result<Option<usize>, std::alloc::AllocError> {
        buffa_locate::nothing_inside(search, path)
    }
}
