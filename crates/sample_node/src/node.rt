//! A message that holds itself, keeps entries with undeclared values, and every field that it doesn't declare.

ghost use Rattle.std.proofs.Common.{lit<, refl};
ghost use Rattle.std.specs.Prelude.{OnErr, [], IfErr, ◌≢◌};
ghost use Rattle.buffa_bytes.specs.Readings.{FullOnlyIf};
ghost use Rattle.buffa_wire.specs.Message.{BeginsField, IsFieldMerged, IsMerged, PartlyMerged};
ghost use Rattle.buffa_wire.specs.Passes.{IsNext, IsSized};
ghost use Rattle.sample_node.specs.Branch.{IsNode};
ghost use Rattle.sample_node.specs.NodeMeaning.{node_cost, node_merged};
ghost use Rattle.sample_node.specs.NodeEncoding.{IsNodeWritten, node_encoding, node_slots};
ghost use Rattle.sample_node.specs.Refused.{IsNodeRefused};
ghost use Rattle.sample_node.specs.Stops.{Stops};

use crate::shade::Shade;
use buffa_fields::members::keeps_unknowns::KeepsUnknowns;
use buffa_fields::members::member::Member;
use buffa_fields::members::ordered_map_field::OrderedMapField;
use buffa_fields::unknown;
use buffa_map::map_codec::{ClosedEnum, Int32, Str};
use buffa_recursive::inner_merger::InnerMerger;
use buffa_recursive::map_keys::{ByKey, Keyed};
use buffa_recursive::maps::take_map;
use buffa_recursive::recursive_fields::RecursiveFields;
use buffa_recursive::recursive_meaning::{RecursiveFieldByField, RecursiveMeaning};
use buffa_recursive::recursive_type::RecursiveType;
use buffa_recursive::visitor::RecursiveVisitor;
use buffa_wire::{
    Blank, Budget, Buf, DecodeContext, DecodeError, EncodeError, EncodeSink, Message, MessageImpl,
    SizeCache, Tag, UnknownFields, WireType,
};
use std::alloc::Global;
use std::collections::BTreeMap;
use std::marker::Model;

/// Field 1 is a map of scores, field 2 one of nodes, field 3 one of shades. An entry of field 3 with an undeclared
/// shade is kept as an unknown field of number 3, and so is every other field under its own.
///
/// ```ignore
/// let mut node: Node = Blank::blank(alloc);
/// ```
#[derive(Drop)]
pub struct Node {
    /// `map<string, int32>`.
    pub scores: BTreeMap<String, i32>,
    /// `map<int32, Node>`.
    pub children: BTreeMap<i32, Node>,
    /// `map<int32, Shade>`.
    pub shades: BTreeMap<i32, Shade>,
    /// What isn't declared, in the order in which it came.
    pub unknown_fields: UnknownFields,
}

impl Model for Node {
    ghost use Rattle.std.specs.Prelude.{string_bytes};
    ghost use Rattle.std.specs.Coded.{coded_list, coded_ℕ, coded_ℤ, coded×};
    ghost use Rattle.std.proofs.Common.{arith};
    ghost use Rattle.buffa_wire.specs.StoredRecords.{coded_field_data};
    ghost use Rattle.buffa_map.specs.Pairs.{means};
    ghost use Rattle.buffa_recursive.specs.MessageTree.{coded_tree, tree_height};
    ghost use Rattle.buffa_recursive.specs.MapTree.{most-of_map};
    ghost use Rattle.sample_node.specs.Branch.{Branch, node_of, shade_number};

    ghost Value = { Branch };

    ghost coded = { coded_tree (coded× (coded_list (coded× (coded_list coded_ℕ) coded_ℤ)) (coded× (coded_list coded_ℤ) (
        coded× (coded_list (coded× coded_ℤ coded_ℤ)) (coded_list (coded× coded_ℕ coded_field_data))))) };

    ghost view = { λ t. node_of (means string_bytes (λ v. v) t.scores.entries) (means (λ k. k) (λ m. m) t.children.entries)
        (means (λ k. k) shade_number t.shades.entries) t.unknown_fields.records };

    ghost size = { tree_height };

    ghost size_decreases = { λ t h. omega (arith, most-of_map (λ k. k) t.children.entries) };
}

impl RecursiveType for Node {
    ghost use Rattle.buffa_recursive.specs.MemberList.{keeps_unknown, recursive_message, map_inside, member, member_with_unknowns};

    const COST: usize = 96;

    ghost COST = { 96 };

    ghost positive = { lit< tt };

    ghost schema = { recursive_message (
        member 1 ⟦<OrderedMapField<Str, Int32> as Member>⟧.shape (
        map_inside 2 ⟦<ByKey<Int32> as Keyed>⟧.keys (
        member_with_unknowns 3 ⟦<OrderedMapField<Int32, ClosedEnum<Shade>> as Member>⟧.shape
        ⟦<OrderedMapField<Int32, ClosedEnum<Shade>> as KeepsUnknowns>⟧.unknowns keeps_unknown))) };

    ghost sound = { λ w. refl };
}

impl RecursiveFields for Node {
    fn visit<V: RecursiveVisitor<Node>>(&self, visitor: &mut V) {
        visitor.visit::<OrderedMapField<Str, Int32>>(1, &self.scores);
        visitor.visit_map::<Int32>(2, &self.children);
        visitor.visit_with_unknowns::<OrderedMapField<Int32, ClosedEnum<Shade>>>(3, &self.shades);
        visitor.visit_unknown_fields(&self.unknown_fields);
    }

    fn take<I: InnerMerger<Node>>(
        &mut self,
        alloc: Global,
        tag: Tag,
        buf: &mut &[u8],
        ctx: DecodeContext<'_>,
        inner: &I,
    ) -> Result<(), DecodeError> {
        match tag.field_number() {
            1 => OrderedMapField::<Str, Int32>::merge(&mut self.scores, alloc, tag, buf, ctx),
            2 => take_map::<Int32, Node, I>(&mut self.children, alloc, tag, buf, ctx, inner),
            3 => OrderedMapField::<Int32, ClosedEnum<Shade>>::merge_with_unknowns(
                &mut self.shades,
                &mut self.unknown_fields,
                alloc,
                tag,
                buf,
                ctx,
            ),
            _ => unknown::keep(alloc, &mut self.unknown_fields, tag, buf, ctx),
        }
    }
}

impl Blank for Node {
    ghost use Rattle.sample_node.specs.Branch.{blank_node};

    type Meaning = Node;

    ghost meaning = { λ m. m };

    ghost blank_is = { blank_node };

    fn blank(alloc: Global) -> Node {
        Node {
            scores: BTreeMap::new(alloc),
            children: BTreeMap::new(alloc),
            shades: BTreeMap::new(alloc),
            unknown_fields: UnknownFields::new(alloc),
        }
    }
}

impl RecursiveMeaning for Node {
    ghost means = { λ m. refl };

    ghost starts = { refl };
}

impl MessageImpl for Node {
    type Impl = RecursiveFieldByField;
}

/// The size pass: the length of the encoding, and the slots of the children appended.
///
/// # Errors
/// Those of [`Message::compute_size`]; never for a node with no children.
///
/// ```ignore
/// let size = size_node(&node, &mut cache)?;
/// ```
pub fn size_node(node: &Node, cache: &mut SizeCache) -> Result<u32, EncodeError>
    ensures sized { IsSized (node_encoding node.now) (node_slots node.now) cache.old result cache.new }
    ensures some { OnErr result (node_slots node.now ≢ []) }
{
    node.compute_size(cache)
}

/// The write pass: the encoding, and the slots of the children consumed.
///
/// # Errors
/// Those of [`Message::write_to`].
///
/// ```ignore
/// write_node(&node, &mut cache, &mut encoding)?;
/// ```
pub fn write_node<S: EncodeSink>(
    node: &Node,
    cache: &mut SizeCache,
    sink: &mut S,
) -> Result<(), EncodeError>
    requires { IsNext (node_slots node.now) cache.old }
    ensures { IsNodeWritten node.now cache.old (S.written sink.old) result cache.new (S.written sink.new) }
{
    node.write_to(cache, sink)
}

// Does nothing. It tells the proof of its caller that a node has as many keys as children, and nothing behind these.
fn is_node(node: &Node)
    ensures { IsNode node.now }
{
    let _scores = &node.scores;
}

// Merges the field whose tag was read, as the form does, in the words of a node. A refused one leaves the node as it was, and
// tells its own fault; what is inside a child may tell any.
fn merge_node_field(
    alloc: Global,
    node: &mut Node,
    tag: Tag,
    buf: &mut &[u8],
    depth: u32,
    budget: &mut Budget,
) -> Result<(), DecodeError>
    ensures merged { IsFieldMerged node_merged node_cost depth node.old tag.number tag.wire_type buf.old.now budget.old
        result node.new budget.new buf.new.now }
    ensures full { FullOnlyIf result (tag.wire_type ≢ WireType.EndGroup) }
    ensures refused { IfErr result (λ e. IsNodeRefused depth node.old tag.number tag.wire_type buf.old.now budget.old e
        node.new) }
{
    is_node(node);
    let merged = node.merge_field(alloc, tag, buf, DecodeContext { depth, budget });
    is_node(node);
    merged
}

/// Merges the fields that the bytes are, all of them, where so many levels may still open: a child is one level
/// deeper. A score costs 28 units of element memory, a child 100 and what is in it, a shade 8; what is kept
/// costs an unknown field for each record, those in groups too.
///
/// # Errors
/// Those of [`Message::merge`]. The node is then what the fields before the refused one make of it.
///
/// ```ignore
/// merge_node(alloc, &mut node, bytes, 1, &mut budget)?;
/// ```
pub fn merge_node(
    alloc: Global,
    node: &mut Node,
    bytes: &[u8],
    depth: u32,
    budget: &mut Budget,
) -> Result<(), DecodeError>
    ensures merged { IsMerged (node_merged depth node.old bytes.now) (node_cost depth bytes.now) budget.old result node.new
        budget.new }
    ensures full { FullOnlyIf result (BeginsField bytes.now) }
    ensures partly { IfErr result (λ e. PartlyMerged node_merged node_cost IsNodeRefused depth node.old bytes.now budget.old e
        node.new) }
    ensures stops { IfErr result (Stops node_merged node_cost depth node.old bytes.now budget.old node.new budget.new) }
{
    let mut rest = bytes;
    while rest.remaining() > 0 {
        let tag = Tag::decode(&mut rest)?;
        merge_node_field(alloc, node, tag, &mut rest, depth, budget)?;
    }
    Ok(())
}
