//! buffa.sample.Branch, made of branch.proto by protoc-gen-buffa.

ghost use Rattle.std.proofs.Common.{lit<, refl};
ghost use Rattle.buffa_recursive.specs.Terms.{keeps_unknown, list_inside, member, recursive_message};

use buffa_fields::map_codec::{Int32, Str};
use buffa_fields::{
    Blank, DecodeContext, DecodeError, ImplicitField, Member, MessageImpl, RepeatedField, Tag,
    UnknownFields, unknown,
};
use buffa_recursive::{
    InnerMerger, RecursiveFieldByField, RecursiveFields, RecursiveMeaning, RecursiveType,
    RecursiveVisitor, take_list,
};
use std::alloc::Global;
use std::marker::Model;
use std::string::String;

/// A branch, with the branches on it.
///
/// message Branch {
///     string name = 1;
///     repeated int32 leaves = 2 [packed = false];
///     repeated Branch branches = 3;
/// }
#[derive(Debug, Drop)]
pub struct Branch {
    pub name: String,
    pub leaves: Vec<i32>,
    pub branches: Vec<Branch>,
    /// The fields that aren't declared, in order.
    pub unknown_fields: UnknownFields,
}

impl Model for Branch {
    ghost use Rattle.std.specs.Coded.{codes};
    ghost use Rattle.std.specs.Prelude.{List, ℕ, ℤ};
    ghost use Rattle.std.proofs.Common.{arith};
    ghost use Rattle.buffa_fields.specs.Terms.{FieldData, coded_field_data};
    ghost use Rattle.buffa_recursive.specs.Terms.{MessageTree, coded_tree, has, has_list, has_unknown_fields, most-of_list, tree_height, tree_of};

    ghost Value = { MessageTree (List ℕ × (List ℤ × List (ℕ × FieldData))) };

    ghost coded = { Prim.hlevel (codes, coded_field_data, coded_tree) };

    ghost view = { λ m. tree_of (
        has (⟦<ImplicitField<Str> as Member>⟧.shape.meaning m.name) (
        has (⟦<RepeatedField<Int32> as Member>⟧.shape.meaning m.leaves) (
        has_list m.branches.items (has_unknown_fields m.unknown_fields.records)))) };

    ghost size = { tree_height };

    ghost size_decreases = { λ m h. Prim.grind (arith, most-of_list m.branches.items) };
}

impl RecursiveType for Branch {
    const COST: usize = 96;

    ghost COST = { 96 };

    ghost positive = { lit< tt };

    ghost schema = { recursive_message (
        member 1 ⟦<ImplicitField<Str> as Member>⟧.shape (
        member 2 ⟦<RepeatedField<Int32> as Member>⟧.shape (
        list_inside 3 keeps_unknown))) };

    ghost sound = { λ w. refl };
}

impl RecursiveFields for Branch {
    fn visit<V: RecursiveVisitor<Branch>>(&self, visitor: &mut V) {
        visitor.visit::<ImplicitField<Str>>(1, &self.name);
        visitor.visit::<RepeatedField<Int32>>(2, &self.leaves);
        visitor.visit_list(3, &self.branches);
        visitor.visit_unknown_fields(&self.unknown_fields);
    }

    fn take<I: InnerMerger<Branch>>(
        &mut self,
        alloc: Global,
        tag: Tag,
        buf: &mut &[u8],
        ctx: DecodeContext<'_>,
        inner: &I,
    ) -> Result<(), DecodeError> {
        match tag.field_number() {
            1 => ImplicitField::<Str>::merge(&mut self.name, alloc, tag, buf, ctx),
            2 => RepeatedField::<Int32>::merge(&mut self.leaves, alloc, tag, buf, ctx),
            3 => take_list(&mut self.branches, alloc, tag, buf, ctx, inner),
            _ => unknown::keep(alloc, &mut self.unknown_fields, tag, buf, ctx),
        }
    }
}

impl Blank for Branch {
    type Meaning = Branch;

    ghost meaning = { λ m. m };

    ghost blank_is = { ⟦<Branch as RecursiveType>⟧.schema.into ⟦<Branch as RecursiveType>⟧.schema.blank };

    fn blank(alloc: Global) -> Branch {
        Branch {
            name: String::new(alloc),
            leaves: Vec::new(alloc),
            branches: Vec::new(alloc),
            unknown_fields: UnknownFields::new(alloc),
        }
    }
}

impl RecursiveMeaning for Branch {
    ghost means = { λ m. refl };

    ghost starts = { refl };
}

impl MessageImpl for Branch {
    type Impl = RecursiveFieldByField;
}

const _: () = prove!(size_of::<Branch>() <= Branch::COST);

impl Branch {
    /// The full name of the message.
    pub const FULL_NAME: &'static str = "buffa.sample.Branch";
}

impl buffa_locate::Locate for Branch {
    fn name_of(number: u32) -> Option<&'static str> {
        match number {
            1 => Some("name"),
            2 => Some("leaves"),
            3 => Some("branches"),
            _ => None,
        }
    }

    fn inside(number: u32) -> Option<buffa_locate::Inside> {
        match number {
            3 => Some(buffa_locate::Inside::own_element::<Branch>()),
            _ => None,
        }
    }

    fn find_inside(
        _number: u32,
        _alloc: Global,
        search: buffa_locate::Search<'_>,
        path: &mut Vec<buffa_locate::Step>,
    ) -> Result<Option<usize>, std::alloc::AllocError> {
        buffa_locate::nothing_inside(search, path)
    }
}
