//! buffa.sample.Failure, made of failure.proto by protoc-gen-buffa.

ghost use Rattle.std.proofs.Common.{lit<, refl};
ghost use Rattle.buffa_recursive.specs.Terms.{keeps_unknown, member, one_inside, recursive_message};

use buffa_fields::map_codec::{Int32, Str};
use buffa_fields::{
    Blank, DecodeContext, DecodeError, ImplicitField, Member, MessageImpl, RepeatedField, Tag,
    UnknownFields, unknown,
};
use buffa_recursive::{
    InnerMerger, RecursiveFieldByField, RecursiveFields, RecursiveMeaning, RecursiveType,
    RecursiveVisitor, take_one,
};
use std::alloc::Global;
use std::marker::Model;
use std::string::String;

/// A failure, with what caused it.
///
/// message Failure {
///     string reason = 1;
///     optional Failure cause = 2;
///     repeated int32 lines = 3 [packed = false];
/// }
#[derive(Debug, Drop)]
pub struct Failure {
    pub reason: String,
    pub cause: Option<Box<Failure>>,
    pub lines: Vec<i32>,
    /// The fields that aren't declared, in order.
    pub unknown_fields: UnknownFields,
}

impl Model for Failure {
    ghost use Rattle.std.specs.Coded.{codes};
    ghost use Rattle.std.specs.Option.{option_map};
    ghost use Rattle.std.specs.Prelude.{List, ℕ, ℤ};
    ghost use Rattle.std.proofs.Common.{arith};
    ghost use Rattle.buffa_fields.specs.Terms.{FieldData, coded_field_data};
    ghost use Rattle.buffa_recursive.specs.Terms.{MessageTree, coded_tree, has, has_one, has_unknown_fields, tree_height, tree_of};

    ghost Value = { MessageTree (List ℕ × (List ℤ × List (ℕ × FieldData))) };

    ghost coded = { Prim.hlevel (codes, coded_field_data, coded_tree) };

    ghost view = { λ m. tree_of (
        has (⟦<ImplicitField<Str> as Member>⟧.shape.meaning m.reason) (
        has_one (option_map (λ b. b.value) m.cause) (
        has (⟦<RepeatedField<Int32> as Member>⟧.shape.meaning m.lines) (has_unknown_fields m.unknown_fields.records)))) };

    ghost size = { tree_height };

    ghost size_decreases = { λ m h. Prim.grind arith };
}

impl RecursiveType for Failure {
    const COST: usize = 88;

    ghost COST = { 88 };

    ghost positive = { lit< tt };

    ghost schema = { recursive_message (
        member 1 ⟦<ImplicitField<Str> as Member>⟧.shape (
        one_inside 2 (
        member 3 ⟦<RepeatedField<Int32> as Member>⟧.shape keeps_unknown))) };

    ghost sound = { λ w. refl };
}

impl RecursiveFields for Failure {
    fn visit<V: RecursiveVisitor<Failure>>(&self, visitor: &mut V) {
        visitor.visit::<ImplicitField<Str>>(1, &self.reason);
        visitor.visit_one(2, &self.cause);
        visitor.visit::<RepeatedField<Int32>>(3, &self.lines);
        visitor.visit_unknown_fields(&self.unknown_fields);
    }

    fn take<I: InnerMerger<Failure>>(
        &mut self,
        alloc: Global,
        tag: Tag,
        buf: &mut &[u8],
        ctx: DecodeContext<'_>,
        inner: &I,
    ) -> Result<(), DecodeError> {
        match tag.field_number() {
            1 => ImplicitField::<Str>::merge(&mut self.reason, alloc, tag, buf, ctx),
            2 => take_one(&mut self.cause, alloc, tag, buf, ctx, inner),
            3 => RepeatedField::<Int32>::merge(&mut self.lines, alloc, tag, buf, ctx),
            _ => unknown::keep(alloc, &mut self.unknown_fields, tag, buf, ctx),
        }
    }
}

impl Blank for Failure {
    type Meaning = Failure;

    ghost meaning = { λ m. m };

    ghost blank_is = { ⟦<Failure as RecursiveType>⟧.schema.into ⟦<Failure as RecursiveType>⟧.schema.blank };

    fn blank(alloc: Global) -> Failure {
        Failure {
            reason: String::new(alloc),
            cause: None,
            lines: Vec::new(alloc),
            unknown_fields: UnknownFields::new(alloc),
        }
    }
}

impl RecursiveMeaning for Failure {
    ghost means = { λ m. refl };

    ghost starts = { refl };
}

impl MessageImpl for Failure {
    type Impl = RecursiveFieldByField;
}

const _: () = prove!(size_of::<Failure>() <= Failure::COST);

impl Failure {
    /// The full name of the message.
    pub const FULL_NAME: &'static str = "buffa.sample.Failure";
}

impl buffa_locate::Locate for Failure {
    fn name_of(number: u32) -> Option<&'static str> {
        match number {
            1 => Some("reason"),
            2 => Some("cause"),
            3 => Some("lines"),
            _ => None,
        }
    }

    fn inside(number: u32) -> Option<buffa_locate::Inside> {
        match number {
            2 => Some(buffa_locate::Inside::boxed::<Failure>()),
            _ => None,
        }
    }

    fn find_inside(
        _number: u32,
        _alloc: Global,
        search: buffa_locate::Search<'_>,
        path: &mut Vec<buffa_locate::Step>,
    ) -> Result<Option<usize>, std::alloc::AllocError> {
        buffa_locate::nothing_inside(search, path)
    }
}
