//! buffa.sample.Transfer, made of payment.proto by protoc-gen-buffa.

ghost use Rattle.std.proofs.Common.{lit<, refl};
ghost use Rattle.buffa_fields.specs.Terms.{field, keep_unknown};

use buffa_fields::map_codec::{Int32, Str};
use buffa_fields::{
    And3, Blank, DecodeContext, DecodeError, FieldByField, FieldsMeaning, ImplicitField, Member,
    MessageFields, MessageImpl, Tag, UnknownFields, Unknowns, Visitor, unknown,
};
use std::alloc::Global;
use std::string::String;

/// Where money goes, and on which day.
///
/// message Transfer {
///     string to = 1;
///     int32 day = 2;
/// }
#[derive(Clone, Debug, Drop, PartialEq, Eq)]
pub struct Transfer {
    pub to: String,
    pub day: i32,
    /// The fields that aren't declared, in order.
    pub unknown_fields: UnknownFields,
}

impl MessageFields for Transfer {
    type Meaning = And3<[u8; 0], i32, Unknowns>;

    const COST: usize = 56;

    ghost COST = { 56 };

    ghost positive = { lit< tt };

    ghost schema = { field 1 (λ m. m.to) ⟦<ImplicitField<Str> as Member>⟧.shape (
        field 2 (λ m. m.day) ⟦<ImplicitField<Int32> as Member>⟧.shape (
        keep_unknown (λ m. m.unknown_fields.records))) };

    ghost sound = { refl };

    fn visit<V: Visitor>(&self, visitor: &mut V) {
        visitor.visit::<ImplicitField<Str>>(1, &self.to);
        visitor.visit::<ImplicitField<Int32>>(2, &self.day);
        visitor.visit_unknown_fields(&self.unknown_fields);
    }

    fn take(
        &mut self,
        alloc: Global,
        tag: Tag,
        buf: &mut &[u8],
        ctx: DecodeContext<'_>,
    ) -> Result<(), DecodeError> {
        match tag.field_number() {
            1 => ImplicitField::<Str>::merge(&mut self.to, alloc, tag, buf, ctx),
            2 => ImplicitField::<Int32>::merge(&mut self.day, alloc, tag, buf, ctx),
            _ => unknown::keep(alloc, &mut self.unknown_fields, tag, buf, ctx),
        }
    }
}

impl Blank for Transfer {
    type Meaning = <Transfer as MessageFields>::Meaning;

    ghost meaning = { ⟦<Transfer as MessageFields>⟧.schema.meaning };

    ghost blank_is = { ⟦<Transfer as MessageFields>⟧.schema.blank };

    fn blank(alloc: Global) -> Transfer {
        Transfer {
            to: String::new(alloc),
            day: 0,
            unknown_fields: UnknownFields::new(alloc),
        }
    }
}

impl FieldsMeaning for Transfer {
    ghost means = { λ m. refl };

    ghost starts = { refl };
}

impl MessageImpl for Transfer {
    type Impl = FieldByField;
}

const _: () = prove!(size_of::<Transfer>() <= Transfer::COST);

impl Transfer {
    ghost use Rattle.std.specs.Prelude.{None, Some, codes, if◌then◌else◌, option_map, ◌==◌, ◌≡◌};

    /// The full name of the message.
    pub const FULL_NAME: &'static str = "buffa.sample.Transfer";

    /// The name in the `.proto` of the field that has this number; none where the message has no member for it.
    pub fn field_name(number: u32) -> Option<&'static str>
        ensures { option_map (λ name. name.now) result ≡ (
            if number == 1 then Some (codes "to") else
            if number == 2 then Some (codes "day") else
            None) }
    {
        match number {
            1 => Some("to"),
            2 => Some("day"),
            _ => None,
        }
    }
}

impl buffa_locate::Locate for Transfer {
    fn name_of(number: u32) -> Option<&'static str> {
        Transfer::field_name(number)
    }

    fn inside(_number: u32) -> Option<buffa_locate::Inside> {
        None
    }

    fn find_inside(
        _number: u32,
        _alloc: Global,
        search: buffa_locate::Search<'_>,
        path: &mut Vec<buffa_locate::Step>,
    ) -> Result<Option<usize>, std::alloc::AllocError> {
        buffa_locate::nothing_inside(search, path)
    }
}

impl buffa_discard::DiscardUnknown for Transfer {
    ghost use Rattle.std.specs.Prelude.{[], ◌≡◌};

    ghost Discarded = { λ old new. (new.to ≡ old.to) × (new.day ≡ old.day) × (new.unknown_fields.records ≡ []) };

    fn discard_unknown_fields(&mut self, alloc: Global) {
        self.unknown_fields = UnknownFields::new(alloc);
    }
}
