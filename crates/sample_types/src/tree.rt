//! A message that holds itself: a plain struct with a map of its own type, in the form [`RecursiveFieldByField`]. The functions are those
//! of [`Message`]; what a tree is as a message its type says, and the law `trees_are_these`.

ghost use Rattle.std.specs.Prelude.{IfErr, OnErr, [], ◌≢◌};
ghost use Rattle.std.proofs.Common.{lit<, refl};
ghost use Rattle.buffa_bytes.specs.Readings.{FullOnlyIf};
ghost use Rattle.buffa_wire.specs.Message.{BeginsField, IsMerged, PartlyMerged};
ghost use Rattle.buffa_wire.specs.Passes.{IsNext, IsSized, IsWritten};
ghost use Rattle.buffa_recursive.specs.MemberList.{recursive_message, map_inside, member, skips_unknown};

use buffa_fields::members::implicit_field::ImplicitField;
use buffa_fields::members::member::Member;
use buffa_fields::unknown;
use buffa_map::map_codec::Int32;
use buffa_recursive::inner_merger::InnerMerger;
use buffa_recursive::map_keys::{ByKey, Keyed};
use buffa_recursive::maps::take_map;
use buffa_recursive::recursive_fields::RecursiveFields;
use buffa_recursive::recursive_meaning::{RecursiveFieldByField, RecursiveMeaning};
use buffa_recursive::recursive_type::RecursiveType;
use buffa_recursive::visitor::RecursiveVisitor;
use buffa_wire::{
    Blank, Budget, DecodeContext, DecodeError, EncodeError, EncodeSink, Message, MessageImpl,
    MessageSpec, SizeCache, Tag,
};
use std::alloc::Global;
use std::collections::BTreeMap;
use std::marker::Model;

/// Field 1 is the label, an int32; field 2 the children, by int32 keys; other fields are passed over.
///
/// ```ignore
/// let tree = Tree { label: 5, children };
/// ```
#[derive(Drop)]
pub struct Tree {
    /// The label of the last field 1, or 0.
    pub label: i32,
    /// The children by their keys.
    pub children: BTreeMap<i32, Tree>,
}

impl Model for Tree {
    ghost use Rattle.std.specs.Prelude.{List, ℤ};
    ghost use Rattle.std.specs.Coded.{coded_list, coded_ℤ, coded×};
    ghost use Rattle.std.proofs.Common.{arith};
    ghost use Rattle.buffa_map.specs.Pairs.{means};
    ghost use Rattle.buffa_recursive.specs.MapTree.{keys_in, most-of_map, values_in};
    ghost use Rattle.buffa_recursive.specs.MessageTree.{MessageTree, coded_tree, message_tree, tree_height, many, no_inner};
    ghost use base.Stored.{coded_unit};

    ghost Value = { MessageTree (ℤ × (List ℤ × Unit {0})) };

    ghost coded = { coded_tree (coded× coded_ℤ (coded× (coded_list coded_ℤ) coded_unit)) };

    ghost view = { λ t. let pairs = means (λ k. k) (λ m. m) t.children.entries in
        message_tree (t.label, (keys_in pairs, tt)) (many (values_in pairs) no_inner) };

    ghost size = { tree_height };

    ghost size_decreases = { λ t h. omega (arith, most-of_map (λ k. k) t.children.entries) };
}

impl RecursiveType for Tree {
    const COST: usize = 32;

    ghost COST = { 32 };

    ghost positive = { lit< tt };

    ghost schema = { recursive_message (
        member 1 ⟦<ImplicitField<Int32> as Member>⟧.shape (
        map_inside 2 ⟦<ByKey<Int32> as Keyed>⟧.keys skips_unknown)) };

    ghost sound = { λ w. refl };
}

impl RecursiveFields for Tree {
    fn visit<V: RecursiveVisitor<Tree>>(&self, visitor: &mut V) {
        visitor.visit::<ImplicitField<Int32>>(1, &self.label);
        visitor.visit_map::<Int32>(2, &self.children);
    }

    fn take<I: InnerMerger<Tree>>(
        &mut self,
        alloc: Global,
        tag: Tag,
        buf: &mut &[u8],
        ctx: DecodeContext<'_>,
        inner: &I,
    ) -> Result<(), DecodeError> {
        match tag.field_number() {
            1 => ImplicitField::<Int32>::merge(&mut self.label, alloc, tag, buf, ctx),
            2 => take_map::<Int32, Tree, I>(&mut self.children, alloc, tag, buf, ctx, inner),
            _ => unknown::pass(tag, buf, ctx),
        }
    }
}

impl Blank for Tree {
    type Meaning = Tree;

    ghost meaning = { λ m. m };

    ghost blank_is = { ⟦<Tree as RecursiveType>⟧.schema.into ⟦<Tree as RecursiveType>⟧.schema.blank };

    fn blank(alloc: Global) -> Tree {
        Tree {
            label: 0,
            children: BTreeMap::new(alloc),
        }
    }
}

impl RecursiveMeaning for Tree {
    ghost means = { λ m. refl };

    ghost starts = { refl };
}

impl MessageImpl for Tree {
    type Impl = RecursiveFieldByField;
}

/// The size pass: the length of the encoding, and the slots of the children appended.
///
/// # Errors
/// Those of [`Message::compute_size`]; never for a tree with no children.
///
/// ```ignore
/// let size = size_tree(&tree, &mut cache)?;
/// ```
pub fn size_tree(tree: &Tree, cache: &mut SizeCache) -> Result<u32, EncodeError>
    ensures sized { IsSized (⟦<Tree as MessageSpec>⟧.encoding tree.now) (⟦<Tree as MessageSpec>⟧.slots tree.now) cache.old
        result cache.new }
    ensures some { OnErr result (⟦<Tree as MessageSpec>⟧.slots tree.now ≢ []) }
{
    tree.compute_size(cache)
}

/// The write pass: the encoding, and the slots of the children consumed.
///
/// ```ignore
/// write_tree(&tree, &mut cache, &mut encoding)?;
/// ```
pub fn write_tree<S: EncodeSink>(
    tree: &Tree,
    cache: &mut SizeCache,
    sink: &mut S,
) -> Result<(), EncodeError>
    requires { IsNext (⟦<Tree as MessageSpec>⟧.slots tree.now) cache.old }
    ensures { IsWritten (⟦<Tree as MessageSpec>⟧.encoding tree.now) (⟦<Tree as MessageSpec>⟧.slots tree.now) cache.old
        (S.written sink.old) result cache.new (S.written sink.new) }
{
    tree.write_to(cache, sink)
}

/// Merges the fields that the bytes are, all of them, where so many levels may still open: a child is one level
/// deeper. A field 2 costs 36 units of element memory, and what its child costs.
///
/// # Errors
/// Those of [`Message::merge`], and the tree is then as it says: what the fields before the refused one make of it.
///
/// ```ignore
/// merge_tree(alloc, &mut tree, bytes, 1, &mut budget)?;
/// ```
pub fn merge_tree(
    alloc: Global,
    tree: &mut Tree,
    bytes: &[u8],
    depth: u32,
    budget: &mut Budget,
) -> Result<(), DecodeError>
    ensures merged { IsMerged (⟦<Tree as MessageSpec>⟧.merged depth tree.old bytes.now)
        (⟦<Tree as MessageSpec>⟧.cost depth bytes.now) budget.old result tree.new budget.new }
    ensures partly { IfErr result (λ e. PartlyMerged ⟦<Tree as MessageSpec>⟧.merged ⟦<Tree as MessageSpec>⟧.cost
        ⟦<Tree as MessageSpec>⟧.Refused depth tree.old bytes.now budget.old e tree.new) }
    ensures full { FullOnlyIf result (BeginsField bytes.now) }
{
    let mut rest = bytes;
    tree.merge(alloc, &mut rest, DecodeContext::new(depth, budget))
}
