//! shop.Order, made of stock.proto by protoc-gen-buffa.

ghost use Rattle.std.proofs.Common.{lit<, refl};
ghost use Rattle.buffa_fields.specs.Terms.{field, keep_unknown};

use crate::messages::line::Line;
use crate::messages::state::State;
use buffa_fields::map_codec::{Map, OpenEnum, Str};
use buffa_fields::{
    And, And5, Blank, DecodeContext, DecodeError, EnumValue, ExplicitField, FieldByField,
    FieldsMeaning, ImplicitField, Member, MessageFields, MessageImpl, MessageMapField,
    RepeatedMessageField, Tag, UnknownFields, Unknowns, Visitor, unknown,
};
use std::alloc::Global;
use std::string::String;

/// What somebody orders.
///
/// message Order {
///     State state = 1;
///     optional string note = 2;
///     repeated Line lines = 3;
///     map<string, Line> gifts = 4;
/// }
#[derive(Debug, Drop)]
pub struct Order {
    pub state: EnumValue<State>,
    pub note: Option<String>,
    pub lines: Vec<Line>,
    pub gifts: Map<String, Line>,
    /// The fields that aren't declared, in order.
    pub unknown_fields: UnknownFields,
}

impl MessageFields for Order {
    type Meaning = And5<
        (bool, i32),
        Option<[u8; 0]>,
        [<Line as Blank>::Meaning; 0],
        [And<[u8; 0], <Line as Blank>::Meaning>; 0],
        Unknowns,
    >;

    const COST: usize = 200;

    ghost COST = { 200 };

    ghost positive = { lit< tt };

    ghost schema = { field 1 (λ m. m.state) ⟦<ImplicitField<OpenEnum<State>> as Member>⟧.shape (
        field 2 (λ m. m.note) ⟦<ExplicitField<Str> as Member>⟧.shape (
        field 3 (λ m. m.lines) ⟦<RepeatedMessageField<Line> as Member>⟧.shape (
        field 4 (λ m. m.gifts) ⟦<MessageMapField<Str, Line> as Member>⟧.shape (
        keep_unknown (λ m. m.unknown_fields.records))))) };

    ghost sound = { refl };

    fn visit<V: Visitor>(&self, visitor: &mut V) {
        visitor.visit::<ImplicitField<OpenEnum<State>>>(1, &self.state);
        visitor.visit::<ExplicitField<Str>>(2, &self.note);
        visitor.visit::<RepeatedMessageField<Line>>(3, &self.lines);
        visitor.visit::<MessageMapField<Str, Line>>(4, &self.gifts);
        visitor.visit_unknown_fields(&self.unknown_fields);
    }

    fn take(
        &mut self,
        alloc: Global,
        tag: Tag,
        buf: &mut &[u8],
        ctx: DecodeContext<'_>,
    ) -> Result<(), DecodeError> {
        match tag.field_number() {
            1 => ImplicitField::<OpenEnum<State>>::merge(&mut self.state, alloc, tag, buf, ctx),
            2 => ExplicitField::<Str>::merge(&mut self.note, alloc, tag, buf, ctx),
            3 => RepeatedMessageField::<Line>::merge(&mut self.lines, alloc, tag, buf, ctx),
            4 => MessageMapField::<Str, Line>::merge(&mut self.gifts, alloc, tag, buf, ctx),
            _ => unknown::keep(alloc, &mut self.unknown_fields, tag, buf, ctx),
        }
    }
}

impl Blank for Order {
    type Meaning = <Order as MessageFields>::Meaning;

    ghost meaning = { ⟦<Order as MessageFields>⟧.schema.meaning };

    ghost blank_is = { ⟦<Order as MessageFields>⟧.schema.blank };

    fn blank(alloc: Global) -> Order {
        Order {
            state: EnumValue::<State>::blank(alloc),
            note: None,
            lines: Vec::new(alloc),
            gifts: Map::new(alloc),
            unknown_fields: UnknownFields::new(alloc),
        }
    }
}

impl FieldsMeaning for Order {
    ghost means = { λ m. refl };

    ghost starts = { refl };
}

impl MessageImpl for Order {
    type Impl = FieldByField;
}

const _: () = prove!(size_of::<Order>() <= Order::COST);

impl Order {
    ghost use Rattle.std.specs.Prelude.{None, Some, [], codes, if◌then◌else◌, option_map, string_bytes, unwrap_or, ◌==◌, ◌≡◌};

    /// The full name of the message.
    pub const FULL_NAME: &'static str = "shop.Order";

    /// The name in the `.proto` of the field that has this number; none where the message has no member for it.
    pub fn field_name(number: u32) -> Option<&'static str>
        ensures { option_map (λ name. name.now) result ≡ (
            if number == 1 then Some (codes "state") else
            if number == 2 then Some (codes "note") else
            if number == 3 then Some (codes "lines") else
            if number == 4 then Some (codes "gifts") else
            None) }
    {
        match number {
            1 => Some("state"),
            2 => Some("note"),
            3 => Some("lines"),
            4 => Some("gifts"),
            _ => None,
        }
    }

    /// `note`, or the default of its type where it isn't there: empty.
    pub fn note(&self) -> &str
        ensures is { result.now ≡ unwrap_or (option_map string_bytes self.now.note) [] }
    {
        match &self.note {
            Some(it) => it.as_str(),
            None => "",
        }
    }
}

impl buffa_locate::Locate for Order {
    fn name_of(number: u32) -> Option<&'static str> {
        Order::field_name(number)
    }

    fn inside(number: u32) -> Option<buffa_locate::Inside> {
        match number {
            3 => Some(buffa_locate::Inside::element::<Line>()),
            4 => {
                let key = <Str as buffa_fields::map_codec::MapValueDecode>::COST;
                let held = buffa_locate::Inside::value::<Line>(key);
                Some(held)
            }
            _ => None,
        }
    }

    fn find_inside(
        number: u32,
        alloc: Global,
        search: buffa_locate::Search<'_>,
        path: &mut Vec<buffa_locate::Step>,
    ) -> Result<Option<usize>, std::alloc::AllocError> {
        match number {
            3 | 4 => buffa_locate::find::<Line>(alloc, search, path),
            _ => buffa_locate::nothing_inside(search, path),
        }
    }
}
