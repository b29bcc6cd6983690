//! buffa.sample.Payment, made of payment.proto by protoc-gen-buffa.

ghost use Rattle.std.proofs.Common.{lit<, refl};
ghost use Rattle.buffa_fields.specs.Terms.{field, keep_unknown, one_of};

use crate::method::Method;
use crate::transfer::Transfer;
use buffa_fields::map_codec::{Int32, Str};
use buffa_fields::{
    And4, Blank, DecodeContext, DecodeError, FieldByField, FieldsMeaning, ImplicitField, Member,
    MessageFields, MessageImpl, OneOf, Tag, UnknownFields, Unknowns, Visitor, unknown,
    visit_one_of,
};
use std::alloc::Global;
use std::string::String;

/// What is paid, and how.
///
/// message Payment {
///     int32 amount = 1;
///     oneof method {
///         string card = 2;
///         int32 cash = 3;
///         Transfer transfer = 4;
///     }
///     string note = 5;
/// }
#[derive(Clone, Debug, Drop, PartialEq, Eq)]
pub struct Payment {
    pub amount: i32,
    pub method: Option<Method>,
    pub note: String,
    /// The fields that aren't declared, in order.
    pub unknown_fields: UnknownFields,
}

impl MessageFields for Payment {
    type Meaning = And4<i32, Option<<Method as OneOf>::Meaning>, [u8; 0], Unknowns>;

    const COST: usize = 128;

    ghost COST = { 128 };

    ghost positive = { lit< tt };

    ghost schema = { field 1 (λ m. m.amount) ⟦<ImplicitField<Int32> as Member>⟧.shape (
        one_of (λ m. m.method) ⟦<Method as OneOf>⟧.cases (
        field 5 (λ m. m.note) ⟦<ImplicitField<Str> as Member>⟧.shape (
        keep_unknown (λ m. m.unknown_fields.records)))) };

    ghost sound = { refl };

    fn visit<V: Visitor>(&self, visitor: &mut V) {
        visitor.visit::<ImplicitField<Int32>>(1, &self.amount);
        visit_one_of(&self.method, visitor);
        visitor.visit::<ImplicitField<Str>>(5, &self.note);
        visitor.visit_unknown_fields(&self.unknown_fields);
    }

    fn take(
        &mut self,
        alloc: Global,
        tag: Tag,
        buf: &mut &[u8],
        ctx: DecodeContext<'_>,
    ) -> Result<(), DecodeError> {
        match tag.field_number() {
            1 => ImplicitField::<Int32>::merge(&mut self.amount, alloc, tag, buf, ctx),
            2 | 3 | 4 => Method::take(&mut self.method, alloc, tag, buf, ctx),
            5 => ImplicitField::<Str>::merge(&mut self.note, alloc, tag, buf, ctx),
            _ => unknown::keep(alloc, &mut self.unknown_fields, tag, buf, ctx),
        }
    }
}

impl Blank for Payment {
    type Meaning = <Payment as MessageFields>::Meaning;

    ghost meaning = { ⟦<Payment as MessageFields>⟧.schema.meaning };

    ghost blank_is = { ⟦<Payment as MessageFields>⟧.schema.blank };

    fn blank(alloc: Global) -> Payment {
        Payment {
            amount: 0,
            method: None,
            note: String::new(alloc),
            unknown_fields: UnknownFields::new(alloc),
        }
    }
}

impl FieldsMeaning for Payment {
    ghost means = { λ m. refl };

    ghost starts = { refl };
}

impl MessageImpl for Payment {
    type Impl = FieldByField;
}

const _: () = prove!(size_of::<Payment>() <= Payment::COST);

impl Payment {
    ghost use Rattle.std.specs.Prelude.{None, Some, codes, if◌then◌else◌, option_map, ◌==◌, ◌≡◌};

    /// The full name of the message.
    pub const FULL_NAME: &'static str = "buffa.sample.Payment";

    /// The name in the `.proto` of the field that has this number; none where the message has no member for it.
    pub fn field_name(number: u32) -> Option<&'static str>
        ensures { option_map (λ name. name.now) result ≡ (
            if number == 1 then Some (codes "amount") else
            if number == 2 then Some (codes "card") else
            if number == 3 then Some (codes "cash") else
            if number == 4 then Some (codes "transfer") else
            if number == 5 then Some (codes "note") else
            None) }
    {
        match number {
            1 => Some("amount"),
            2 => Some("card"),
            3 => Some("cash"),
            4 => Some("transfer"),
            5 => Some("note"),
            _ => None,
        }
    }
}

impl buffa_locate::Locate for Payment {
    fn name_of(number: u32) -> Option<&'static str> {
        Payment::field_name(number)
    }

    fn inside(number: u32) -> Option<buffa_locate::Inside> {
        match number {
            4 => Some(buffa_locate::Inside::one()),
            _ => None,
        }
    }

    fn find_inside(
        number: u32,
        alloc: Global,
        search: buffa_locate::Search<'_>,
        path: &mut Vec<buffa_locate::Step>,
    ) -> Result<Option<usize>, std::alloc::AllocError> {
        match number {
            4 => buffa_locate::find::<Transfer>(alloc, search, path),
            _ => buffa_locate::nothing_inside(search, path),
        }
    }
}

impl buffa_discard::DiscardUnknown for Payment {
    ghost use Rattle.std.specs.Prelude.{[], ◌≡◌};

    ghost Discarded = { λ old new. (new.amount ≡ old.amount)
        × (⟦<Option<Method> as buffa_discard::DiscardUnknown>⟧.Discarded old.method new.method)
        × (new.note ≡ old.note) × (new.unknown_fields.records ≡ []) };

    fn discard_unknown_fields(&mut self, alloc: Global) {
        self.method.discard_unknown_fields(alloc);
        self.unknown_fields = UnknownFields::new(alloc);
    }
}
