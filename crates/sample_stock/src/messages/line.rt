//! shop.Line, made of stock.proto by protoc-gen-buffa.

ghost use Rattle.std.proofs.Common.{lit<, refl};
ghost use Rattle.buffa_fields.specs.Terms.{field, keep_unknown};

use buffa_fields::map_codec::{Int32, Str};
use buffa_fields::{
    And3, Blank, DecodeContext, DecodeError, ExplicitField, FieldByField, FieldsMeaning,
    ImplicitField, Member, MessageFields, MessageImpl, Tag, UnknownFields, Unknowns, Visitor,
    unknown,
};
use std::alloc::Global;
use std::string::String;

/// A row of an order.
///
/// message Line {
///     string good = 1;
///     optional int32 count = 2;
/// }
#[derive(Debug, Drop)]
pub struct Line {
    pub good: String,
    pub count: Option<i32>,
    /// The fields that aren't declared, in order.
    pub unknown_fields: UnknownFields,
}

impl MessageFields for Line {
    type Meaning = And3<[u8; 0], Option<i32>, Unknowns>;

    const COST: usize = 64;

    ghost COST = { 64 };

    ghost positive = { lit< tt };

    ghost schema = { field 1 (λ m. m.good) ⟦<ImplicitField<Str> as Member>⟧.shape (
        field 2 (λ m. m.count) ⟦<ExplicitField<Int32> as Member>⟧.shape (
        keep_unknown (λ m. m.unknown_fields.records))) };

    ghost sound = { refl };

    fn visit<V: Visitor>(&self, visitor: &mut V) {
        visitor.visit::<ImplicitField<Str>>(1, &self.good);
        visitor.visit::<ExplicitField<Int32>>(2, &self.count);
        visitor.visit_unknown_fields(&self.unknown_fields);
    }

    fn take(
        &mut self,
        alloc: Global,
        tag: Tag,
        buf: &mut &[u8],
        ctx: DecodeContext<'_>,
    ) -> Result<(), DecodeError> {
        match tag.field_number() {
            1 => ImplicitField::<Str>::merge(&mut self.good, alloc, tag, buf, ctx),
            2 => ExplicitField::<Int32>::merge(&mut self.count, alloc, tag, buf, ctx),
            _ => unknown::keep(alloc, &mut self.unknown_fields, tag, buf, ctx),
        }
    }
}

impl Blank for Line {
    type Meaning = <Line as MessageFields>::Meaning;

    ghost meaning = { ⟦<Line as MessageFields>⟧.schema.meaning };

    ghost blank_is = { ⟦<Line as MessageFields>⟧.schema.blank };

    fn blank(alloc: Global) -> Line {
        Line {
            good: String::new(alloc),
            count: None,
            unknown_fields: UnknownFields::new(alloc),
        }
    }
}

impl FieldsMeaning for Line {
    ghost means = { λ m. refl };

    ghost starts = { refl };
}

impl MessageImpl for Line {
    type Impl = FieldByField;
}

const _: () = prove!(size_of::<Line>() <= Line::COST);

impl Line {
    ghost use Rattle.std.specs.Prelude.{None, Some, codes, if◌then◌else◌, option_map, pos, unwrap_or, ◌==◌, ◌≡◌};

    /// The full name of the message.
    pub const FULL_NAME: &'static str = "shop.Line";

    /// The name in the `.proto` of the field that has this number; none where the message has no member for it.
    pub fn field_name(number: u32) -> Option<&'static str>
        ensures { option_map (λ name. name.now) result ≡ (
            if number == 1 then Some (codes "good") else
            if number == 2 then Some (codes "count") else
            None) }
    {
        match number {
            1 => Some("good"),
            2 => Some("count"),
            _ => None,
        }
    }

    /// `count`, or the default of its type where it isn't there: 0.
    pub fn count(&self) -> i32
        ensures is { result ≡ unwrap_or self.now.count (pos 0) }
    {
        self.count.unwrap_or(0)
    }
}

impl buffa_locate::Locate for Line {
    fn name_of(number: u32) -> Option<&'static str> {
        Line::field_name(number)
    }

    fn inside(_number: u32) -> Option<buffa_locate::Inside> {
        None
    }

    fn find_inside(
        _number: u32,
        _alloc: Global,
        search: buffa_locate::Search<'_>,
        path: &mut Vec<buffa_locate::Step>,
    ) -> Result<Option<usize>, std::alloc::AllocError> {
        buffa_locate::nothing_inside(search, path)
    }
}
