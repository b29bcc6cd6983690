//! Laws: which message a node is, and which enum a shade; and what the words mean by which that is said.

ghost use Rattle.std.specs.Prelude.{◌≡◌, ◌≢◌, ◌↔◌, ◌⊎◌, ◌<◌, ◌==◌, ◌++◌, ◌∷◌, ℕ, zero, suc, ℤ, List, [], Option, None, Some, Result, Ok, Err, false, if◌then◌else◌, length, max, pos, string_bytes, FitsSigned};
ghost use Rattle.std.specs.BTreeMap.{insert_entry};
ghost use Rattle.std.specs.Cmp.Lexicographic.{slice_cmp};
ghost use Rattle.std.specs.Int.{w32};
ghost use Rattle.std.specs.Option.{option_map};
ghost use Rattle.std.specs.Ordering.{int_cmp, int_eq, nat_cmp};
ghost use Rattle.std.specs.List.{AllByRecursion};
ghost use Rattle.std.specs.List.Sorted.{IsStrictlySortedBy};
ghost use Rattle.std.specs.Map.{keys_of};
ghost use Rattle.buffa_bytes.specs.declared.error.DecodeError.{DecodeError};
ghost use Rattle.buffa_bytes.specs.declared.error.DecodeError.TheVariants.{OutOfMemory};
ghost use Rattle.buffa_bytes.specs.declared.error.EncodeError.{EncodeError};
ghost use Rattle.buffa_bytes.specs.declared.wire_type.WireType.{WireType};
ghost use Rattle.buffa_bytes.specs.declared.wire_type.WireType.TheVariants.{EndGroup, LengthDelimited};
ghost use Rattle.buffa_bytes.specs.Readings.{check_wire, tag_at};
ghost use Rattle.buffa_bytes.specs.Pinned.{IsCopied, SameIsOne};
ghost use Rattle.buffa_bytes.specs.Varint.{IsByte};
ghost use Rattle.buffa_wire.specs.BudgetLeft.{BudgetLeft, Pays, nothing};
ghost use Rattle.buffa_wire.specs.Cache.{Cache};
ghost use Rattle.buffa_wire.specs.Encoding.{records_encoding};
ghost use Rattle.buffa_wire.specs.Enums.{numbers};
ghost use Rattle.buffa_wire.specs.KeptField.{keep_charge};
ghost use Rattle.buffa_wire.specs.Message.{IsFieldMerged, PartlyMerged};
ghost use Rattle.buffa_wire.specs.Parse.{AreValid, Fits};
ghost use Rattle.buffa_wire.specs.Passes.{IsWritten, cap};
ghost use Rattle.buffa_wire.specs.RecordReading.{field_at};
ghost use Rattle.buffa_wire.specs.Records.{FieldData, bytes, height, records_of};
ghost use Rattle.buffa_wire.specs.Takes.{cost_of, merged_of};
ghost use Rattle.buffa_map.specs.Codec.{Reading};
ghost use Rattle.buffa_map.specs.Encoding.{AllHold, entry_encoding, field_encoding, record_encoding};
ghost use Rattle.buffa_map.specs.Entry.{EntryFault};
ghost use Rattle.buffa_map.specs.Enums.{ClosedFits, closed_reading, closed_writing};
ghost use Rattle.buffa_map.specs.Message.{message_reading};
ghost use Rattle.buffa_map.specs.Pairs.{means};
ghost use Rattle.buffa_map.specs.Scalars.{IsText, delimited_writing, int32_reading, int32_writing, text_reading, text_writing};
ghost use Rattle.buffa_fields.specs.UnknownsOfMembers.{unknowns_levels};
ghost use Rattle.buffa_fields.specs.UndeclaredFields.{keep_takes};
ghost use Rattle.buffa_fields.specs.ClosedEnumMaps.{IsUnknownEntry, unknown_entry_levels, kept_pair_cost, kept_pair_taken};
ghost use Rattle.buffa_recursive.specs.MessageTree.{TreeList, Maybe, InnerMembers, head_many, first_tree, message_tree, many, no_trees, no_inner, one};
ghost use Rattle.buffa_fields.specs.MapFields.{map_records, pair_cost, pair_taken};
ghost use Rattle.buffa_recursive.specs.MapTree.{child_pairs, keys_in, values_in};
ghost use Rattle.sample_node.specs.Branch.{Branch, IsNode, NodeOwn, blank_node, branch, node_of, shade_number, shade_numbers};
ghost use Rattle.sample_node.specs.NodeMeaning.{node_cost, node_field_charge, node_field_takes, node_merged};
ghost use Rattle.sample_node.specs.Refused.{HasEntryFault, IsNodeRefused};
ghost use Rattle.sample_node.specs.Stops.{IsFrontRefused, Stops};
ghost use Rattle.sample_node.specs.NodeEncoding.{AreNormalNodes, IsKept, IsNodeWritten, IsNormalNode, IsNormalOwn};
ghost use Rattle.sample_node.specs.NodeEncoding.{children_encoding, children_levels, children_slots, node_encoding, node_levels};
ghost use Rattle.sample_node.specs.NodeEncoding.{node_records, node_slots, nodes_encoding, nodes_levels, nodes_records, nodes_slots};

use crate::node::Node;
use crate::shade::Shade;
use buffa_wire::{Blank, Enumeration, MessageSpec, UnknownFields};
use std::collections::BTreeMap;

/// Which message a node is: what bytes make of it and cost, its encoding, its slots, which nodes are read back where no
/// length in them is too large to be read, and how deep their encoding nests. Of these nothing is left out. Of a refused
/// field of a node its type says at least which error `IsNodeRefused` has, and that what stands is that node, if it is a node.
pub fn node_is_this()
    ensures merged { (⟦<Node as MessageSpec>⟧.merged ≡ node_merged) × (⟦<Node as MessageSpec>⟧.cost ≡ node_cost) }
    ensures encoding { (⟦<Node as MessageSpec>⟧.encoding ≡ node_encoding) × (⟦<Node as MessageSpec>⟧.records ≡ node_records) }
    ensures slots { (⟦<Node as MessageSpec>⟧.slots ≡ node_slots) × (⟦<Node as MessageSpec>⟧.COST ≡ 96) }
    ensures levels { ⟦<Node as MessageSpec>⟧.levels ≡ node_levels }
    ensures normal { (v : Branch) → Fits (records_of (node_records v)) → ⟦<Node as MessageSpec>⟧.normal v ↔ IsNormalNode v }
    ensures refused { (d : ℕ) (v : Branch) (n : ℕ) (w : _) (bs : List ℕ) (l : _) (e : _) (u : Branch) → IsNode v →
        ⟦<Node as MessageSpec>⟧.Refused d v n w bs l e u → IsNodeRefused d v n w bs l e v × (IsNode u → u ≡ v) }
    ensures blank { ⟦<Node as Blank>⟧.blank_is ≡ blank_node }
    ensures meaning { (v : Branch) → ⟦<Node as Blank>⟧.meaning v ≡ v }
{}

/// What bytes make of a normal node is normal, and so is the blank one: what is read is read back of its encoding.
pub fn nodes_stay_normal()
    ensures merged { (d : ℕ) (v u : Branch) (bs : List ℕ) → AllByRecursion IsByte bs → IsNormalNode v →
        node_merged d v bs ≡ Some u → IsNormalNode u }
    ensures blank { IsNormalNode ⟦<Node as Blank>⟧.blank_is }
{}

/// What bytes make of a node is one, as the value of each struct is (`nodes_hold_these`). So after a refused merge a node is what the
/// fields before the refused one make of its old value.
pub fn merged_nodes_are_nodes()
    ensures merged { (d : ℕ) (v u : Branch) (bs : List ℕ) → IsNode v → node_merged d v bs ≡ Some u → IsNode u }
    ensures blank { IsNode ⟦<Node as Blank>⟧.blank_is }
    ensures partly { (d : ℕ) (v u : Branch) (bs : List ℕ) (before : BudgetLeft) (e : DecodeError) → IsNode v → IsNode u →
        PartlyMerged ⟦<Node as MessageSpec>⟧.merged ⟦<Node as MessageSpec>⟧.cost ⟦<Node as MessageSpec>⟧.Refused d v bs before e u →
        (front : List ℕ) × (rest : List ℕ) × (bs ≡ front ++ rest) × (node_merged d v front ≡ Some u)
        × PartlyMerged node_merged node_cost IsNodeRefused d v bs before e u }
{}

/// How deep a node nests is exactly so deep: at no lesser depth are its encoding's bytes merged, into whatever node, so that it
/// isn't read back there. Nothing is left out.
pub fn node_levels_are_exact()
    ensures { (d : ℕ) (old v : Branch) → Fits (records_of (⟦<Node as MessageSpec>⟧.records v)) →
        ⟦<Node as MessageSpec>⟧.normal v → d < ⟦<Node as MessageSpec>⟧.levels v →
        ⟦<Node as MessageSpec>⟧.merged d old (⟦<Node as MessageSpec>⟧.encoding v) ≡ None }
{}

/// A node is what its fields hold. Nothing is left out.
pub fn nodes_hold_these(
    node: &Node,
) -> (
    &BTreeMap<String, i32>,
    &BTreeMap<i32, Node>,
    &BTreeMap<i32, Shade>,
    &UnknownFields,
)
    ensures { node.now ≡ node_of (means string_bytes (λ v. v) result.0.now.entries) (means (λ k. k) (λ t. t) result.1.now.entries)
        (means (λ k. k) shade_number result.2.now.entries) result.3.now.records }
{
    (
        &node.scores,
        &node.children,
        &node.shades,
        &node.unknown_fields,
    )
}

/// Which numbers shades declare, and no others, by which values, and their default; `==` and `clone` of them. Nothing is
/// left out.
pub fn shades_are_these()
    ensures declared { (n : ℤ) → ⟦<Shade as Enumeration>⟧.of_number n
        ≡ (if int_eq n (pos 0) then Some Shade.A else if int_eq n (pos 1) then Some Shade.B else None) }
    ensures words { (shade_number Shade.A ≡ pos 0) × (shade_number Shade.B ≡ pos 1)
        × (shade_numbers ≡ numbers ⟦<Shade as Enumeration>⟧.of_number (pos 0)) }
    ensures blank { ⟦<Shade as Blank>⟧.blank_is ≡ pos 0 }
    ensures equal { SameIsOne ⟦<Shade as PartialEq>⟧.eq }
    ensures copied { IsCopied ⟦<Shade as Clone>⟧.is_clone ⟦<Shade as Clone>⟧.is_infallible }
{}

/// What is said of a refused field of a node: the node is as it was, and, unless memory ran out, the error is the fault of the
/// entry, by the readings of the map of the field's number, or of the record that would be kept. An entry is at fault by its wire type
/// or by what is in it.
pub fn refused_fields_of_nodes_are_these<X, Y>()
    ensures refused { (d : ℕ) (v : Branch) (n : ℕ) (w : WireType) (bs : List ℕ) (l : BudgetLeft) (e : DecodeError) (u : Branch) →
        IsNodeRefused d v n w bs l e u ↔ ((u ≡ v)
        × (n ≡ 1 → e ≢ OutOfMemory → HasEntryFault text_reading int32_reading 28 0 d n w bs l e)
        × (n ≡ 2 → e ≢ OutOfMemory →
        HasEntryFault int32_reading (message_reading blank_node node_merged node_cost) 100 0 d n w bs l e)
        × (n ≡ 3 → e ≢ OutOfMemory →
        HasEntryFault int32_reading (closed_reading (numbers ⟦<Shade as Enumeration>⟧.of_number (pos 0))) 8 1 d n w bs l e)
        × (n ≢ 1 → n ≢ 2 → n ≢ 3 → e ≢ OutOfMemory → field_at d l.unknown n w bs ≡ Err e)) }
    ensures entry { (key : Reading X) (val : Reading Y) (cost extra d n : ℕ) (w : WireType) (bs : List ℕ) (l : BudgetLeft)
        (e : DecodeError) → HasEntryFault key val cost extra d n w bs l e ↔ ((check_wire n LengthDelimited w ≡ Err e)
        ⊎ ((w ≡ LengthDelimited) × EntryFault key val d cost extra l bs e)) }
{}

/// What a refused merge leaves: the fields before the refused one are merged into the old value, and what they cost is spent. Behind
/// them no tag is there, and no more is spent; or a field is there that is refused.
pub fn refused_nodes_stop_so<X>()
    ensures stops { (merged : ℕ → X → List ℕ → Option X) (cost : ℕ → List ℕ → BudgetLeft) (d : ℕ) (old new : X) (bs : List ℕ)
        (before after : BudgetLeft) (e : DecodeError) → Stops merged cost d old bs before new after e
        ↔ ((front : List ℕ) × (rest : List ℕ) × (left : BudgetLeft) × (bs ≡ front ++ rest) × (merged d old front ≡ Some new)
        × Pays before (cost d front) left × IsFrontRefused merged cost d new rest left e after) }
    ensures front { (merged : ℕ → X → List ℕ → Option X) (cost : ℕ → List ℕ → BudgetLeft) (d : ℕ) (v : X) (bs : List ℕ)
        (before after : BudgetLeft) (e : DecodeError) → IsFrontRefused merged cost d v bs before e after
        ↔ (((tag_at bs ≡ Err e) × (after ≡ before))
        ⊎ ((n : ℕ) × (w : WireType) × (rest : List ℕ) × (tag_at bs ≡ Ok (n, w, rest))
        × IsFieldMerged {T = Unit {0}} merged cost d v n w rest before (Err e) v after rest × (e ≡ OutOfMemory → w ≢ EndGroup))) }
{}

/// How a node is made: of what it has of its own, with the keys of its children, and of the children, in the order of their keys.
pub fn nodes_are_made_so()
    ensures parts { (a : List (List ℕ × ℤ)) (ks : List ℤ) (cs : TreeList NodeOwn) (h : List (ℤ × ℤ)) (r : List (ℕ × FieldData)) →
        branch a ks cs h r ≡ message_tree (a, (ks, (h, r))) (many cs no_inner) }
    ensures pairs { (a : List (List ℕ × ℤ)) (es : List (ℤ × Branch)) (h : List (ℤ × ℤ)) (r : List (ℕ × FieldData)) →
        node_of a es h r ≡ branch a (keys_in es) (values_in es) h r }
    ensures held { (t : Branch) → IsNode t ↔ ((a : List (List ℕ × ℤ)) × (es : List (ℤ × Branch)) × (h : List (ℤ × ℤ))
        × (r : List (ℕ × FieldData)) × (t ≡ node_of a es h r)) }
    ensures blank { blank_node ≡ node_of [] [] [] [] }
{}

/// What a field makes of a node, where a level below makes this of a child: field 1 puts a score, field 2 a child, field 3 a shade,
/// or keeps its entry where the shade is undeclared; any other field is kept. So bytes are merged, and no child at the last level.
pub fn fields_of_nodes_mean_these()
    ensures score { (below : Branch → List ℕ → Option Branch) (d : ℕ) (a : List (List ℕ × ℤ)) (ks : List ℤ) (h : List (ℤ × ℤ)) (r : List (ℕ × FieldData))
        (ss : InnerMembers NodeOwn) (w : WireType) (p : List ℕ) → node_field_takes below d (message_tree (a, (ks, (h, r))) ss) 1 w p
        ≡ option_map (λ b. branch b ks (head_many ss) h r)
        (pair_taken text_reading int32_reading (insert_entry (slice_cmp nat_cmp)) d a 1 w p) }
    ensures child { (below : Branch → List ℕ → Option Branch) (d : ℕ) (a : List (List ℕ × ℤ)) (ks : List ℤ) (h : List (ℤ × ℤ)) (r : List (ℕ × FieldData))
        (ss : InnerMembers NodeOwn) (w : WireType) (p : List ℕ) → node_field_takes below d (message_tree (a, (ks, (h, r))) ss) 2 w p
        ≡ option_map (λ es. branch a (keys_in es) (values_in es) h r)
        (pair_taken int32_reading (message_reading blank_node (λ _. below) (λ _ _. nothing)) (insert_entry int_cmp) d
        (child_pairs ks (head_many ss)) 2 w p) }
    ensures shade { (below : Branch → List ℕ → Option Branch) (d : ℕ) (a : List (List ℕ × ℤ)) (ks : List ℤ) (h : List (ℤ × ℤ)) (r : List (ℕ × FieldData))
        (ss : InnerMembers NodeOwn) (w : WireType) (p : List ℕ) → node_field_takes below d (message_tree (a, (ks, (h, r))) ss) 3 w p
        ≡ option_map (λ x. branch a ks (head_many ss) x.0 x.1)
        (kept_pair_taken int32_reading (closed_reading (numbers ⟦<Shade as Enumeration>⟧.of_number (pos 0)))
        (insert_entry int_cmp) d (h, r) 3 w p) }
    ensures other { (below : Branch → List ℕ → Option Branch) (d n : ℕ) (a : List (List ℕ × ℤ)) (ks : List ℤ) (h : List (ℤ × ℤ)) (r : List (ℕ × FieldData))
        (ss : InnerMembers NodeOwn) (w : WireType) (p : List ℕ) → (n == 1) ≡ false → (n == 2) ≡ false → (n == 3) ≡ false →
        node_field_takes below d (message_tree (a, (ks, (h, r))) ss) n w p
        ≡ option_map (λ s. branch a ks (head_many ss) h s) (keep_takes d r n w p) }
    ensures last { (v : Branch) (bs : List ℕ) → node_merged zero v bs
        ≡ merged_of (node_field_takes (λ _ _. None)) zero v bs }
    ensures deeper { (d : ℕ) (v : Branch) (bs : List ℕ) → node_merged (suc d) v bs
        ≡ merged_of (node_field_takes (node_merged d)) (suc d) v bs }
{}

/// What a field of a node costs, where a level below makes this of a child and takes so much: a score 28 units, a child 100 and
/// what is in it, a shade 8, or an unknown field besides where its entry is kept; any other field what it costs to keep it.
pub fn fields_of_nodes_cost_these()
    ensures score { (below : Branch → List ℕ → Option Branch) (costs : List ℕ → BudgetLeft) (d : ℕ) (w : WireType) (bs : List ℕ) →
        node_field_charge below costs d 1 w bs ≡ pair_cost text_reading int32_reading 28 d 1 w bs }
    ensures child { (below : Branch → List ℕ → Option Branch) (costs : List ℕ → BudgetLeft) (d : ℕ) (w : WireType) (bs : List ℕ) →
        node_field_charge below costs d 2 w bs
        ≡ pair_cost int32_reading (message_reading blank_node (λ _. below) (λ _. costs)) 100 d 2 w bs }
    ensures shade { (below : Branch → List ℕ → Option Branch) (costs : List ℕ → BudgetLeft) (d : ℕ) (w : WireType) (bs : List ℕ) →
        node_field_charge below costs d 3 w bs
        ≡ kept_pair_cost int32_reading (closed_reading (numbers ⟦<Shade as Enumeration>⟧.of_number (pos 0))) 8 d 3 w bs }
    ensures other { (below : Branch → List ℕ → Option Branch) (costs : List ℕ → BudgetLeft) (d n : ℕ) (w : WireType) (bs : List ℕ) →
        (n == 1) ≡ false → (n == 2) ≡ false → (n == 3) ≡ false → node_field_charge below costs d n w bs ≡ keep_charge d n w bs }
    ensures last { (bs : List ℕ) → node_cost zero bs ≡ cost_of (node_field_charge (λ _ _. None) (λ _. nothing)) zero bs }
    ensures deeper { (d : ℕ) (bs : List ℕ) → node_cost (suc d) bs
        ≡ cost_of (node_field_charge (node_merged d) (node_cost d)) (suc d) bs }
{}

/// What the encoding of a node is: a record of field 1 for each score, of field 2 for each child, with its encoding, and of field 3
/// for each shade, and then what is kept. It is written in a pass that takes its slots out of a cache.
pub fn encodings_of_nodes_are_these<X>()
    ensures whole { (a : List (List ℕ × ℤ)) (ks : List ℤ) (h : List (ℤ × ℤ)) (r : List (ℕ × FieldData)) (ss : InnerMembers NodeOwn) → node_encoding (message_tree (a, (ks, (h, r))) ss)
        ≡ field_encoding text_writing int32_writing 1 a ++ (children_encoding ks ss
        ++ (field_encoding int32_writing closed_writing 3 h ++ records_encoding r)) }
    ensures children { (ks : List ℤ) (cs : TreeList NodeOwn) (ss : InnerMembers NodeOwn) →
        children_encoding ks (many cs ss) ≡ nodes_encoding ks cs }
    ensures child { (k : ℤ) (ks : List ℤ) (t : Branch) (cs : TreeList NodeOwn) → nodes_encoding (k ∷ ks) (first_tree t cs)
        ≡ record_encoding int32_writing (delimited_writing node_encoding) 2 (k, t) ++ nodes_encoding ks cs }
    ensures no_children { (k : ℤ) (ks : List ℤ) (cs : TreeList NodeOwn) (m : Maybe NodeOwn) (ss : InnerMembers NodeOwn) →
        (children_encoding ks no_inner ≡ []) × (children_encoding ks (one m ss) ≡ []) × (nodes_encoding [] cs ≡ [])
        × (nodes_encoding (k ∷ ks) no_trees ≡ []) }
    ensures written { (t : Branch) (old new : Cache) (before after : List ℕ) (r : Result X EncodeError) →
        IsNodeWritten t old before r new after
        ↔ IsWritten (node_encoding t) (node_slots t) old before r new after }
{}

/// The records that are that encoding: one for each score, each child and each shade, and then those that are kept.
pub fn records_of_nodes_are_these()
    ensures whole { (a : List (List ℕ × ℤ)) (ks : List ℤ) (h : List (ℤ × ℤ)) (r : List (ℕ × FieldData)) (ss : InnerMembers NodeOwn) → node_records (message_tree (a, (ks, (h, r))) ss)
        ≡ map_records text_writing int32_writing 1 a ++ (nodes_records ks (head_many ss)
        ++ (map_records int32_writing closed_writing 3 h ++ r)) }
    ensures child { (k : ℤ) (ks : List ℤ) (t : Branch) (cs : TreeList NodeOwn) → nodes_records (k ∷ ks) (first_tree t cs)
        ≡ (2, bytes (entry_encoding int32_writing (delimited_writing node_encoding) (k, t))) ∷ nodes_records ks cs }
    ensures no_children { (k : ℤ) (ks : List ℤ) (cs : TreeList NodeOwn) →
        (nodes_records [] cs ≡ []) × (nodes_records (k ∷ ks) no_trees ≡ []) }
{}

/// The slots of a node in the cache of sizes: for each child the length of its encoding, capped, and then the child's own slots.
pub fn slots_of_nodes_are_these()
    ensures whole { (a : List (List ℕ × ℤ)) (ks : List ℤ) (h : List (ℤ × ℤ)) (r : List (ℕ × FieldData)) (ss : InnerMembers NodeOwn) → node_slots (message_tree (a, (ks, (h, r))) ss) ≡ children_slots ks ss }
    ensures children { (ks : List ℤ) (cs : TreeList NodeOwn) (ss : InnerMembers NodeOwn) →
        children_slots ks (many cs ss) ≡ nodes_slots ks cs }
    ensures child { (k : ℤ) (ks : List ℤ) (t : Branch) (cs : TreeList NodeOwn) → nodes_slots (k ∷ ks) (first_tree t cs)
        ≡ cap (length (node_encoding t)) ∷ (node_slots t ++ nodes_slots ks cs) }
    ensures no_children { (k : ℤ) (ks : List ℤ) (cs : TreeList NodeOwn) (m : Maybe NodeOwn) (ss : InnerMembers NodeOwn) →
        (children_slots ks no_inner ≡ []) × (children_slots ks (one m ss) ≡ []) × (nodes_slots [] cs ≡ [])
        × (nodes_slots (k ∷ ks) no_trees ≡ []) }
{}

/// How deep a node nests: as deep as its deepest child and a level more, or as the groups that it keeps, those in the entries of
/// undeclared shades too.
pub fn nodes_nest_so()
    ensures whole { (a : List (List ℕ × ℤ)) (ks : List ℤ) (h : List (ℤ × ℤ)) (r : List (ℕ × FieldData)) (ss : InnerMembers NodeOwn) → node_levels (message_tree (a, (ks, (h, r))) ss)
        ≡ max (children_levels ks ss) (max (height r) (unknowns_levels 3 (unknown_entry_levels int32_reading
        (closed_reading (numbers ⟦<Shade as Enumeration>⟧.of_number (pos 0)))) r)) }
    ensures children { (ks : List ℤ) (cs : TreeList NodeOwn) (ss : InnerMembers NodeOwn) →
        children_levels ks (many cs ss) ≡ nodes_levels ks cs }
    ensures child { (k : ℤ) (ks : List ℤ) (t : Branch) (cs : TreeList NodeOwn) → nodes_levels (k ∷ ks) (first_tree t cs)
        ≡ max (suc (node_levels t)) (nodes_levels ks cs) }
    ensures no_children { (k : ℤ) (ks : List ℤ) (cs : TreeList NodeOwn) (m : Maybe NodeOwn) (ss : InnerMembers NodeOwn) →
        (children_levels ks no_inner ≡ 0) × (children_levels ks (one m ss) ≡ 0) × (nodes_levels [] cs ≡ 0)
        × (nodes_levels (k ∷ ks) no_trees ≡ 0) }
{}

/// Which nodes are normal: those of as many keys as children, and nothing behind these. Keys and values are of their types, keys ascend,
/// shades are declared, children are normal, and what is kept may have been read so.
pub fn nodes_are_normal_so()
    ensures whole { (a : List (List ℕ × ℤ)) (ks : List ℤ) (cs : TreeList NodeOwn) (h : List (ℤ × ℤ)) (r : List (ℕ × FieldData)) →
        IsNormalNode (message_tree (a, (ks, (h, r))) (many cs no_inner))
        ↔ (IsNormalOwn a h r × IsStrictlySortedBy int_cmp ks × AreNormalNodes ks cs) }
    ensures no_other { (o : NodeOwn) (cs ds : TreeList NodeOwn) (m : Maybe NodeOwn) (ss : InnerMembers NodeOwn) →
        (IsNormalNode (message_tree o no_inner) → ⊥) × (IsNormalNode (message_tree o (one m ss)) → ⊥)
        × (IsNormalNode (message_tree o (many cs (many ds ss))) → ⊥) × (IsNormalNode (message_tree o (many cs (one m ss))) → ⊥) }
    ensures own { (a : List (List ℕ × ℤ)) (h : List (ℤ × ℤ)) (r : List (ℕ × FieldData)) → IsNormalOwn a h r
        ↔ ((AllHold IsText (FitsSigned w32) a × IsStrictlySortedBy (slice_cmp nat_cmp) (keys_of a))
        × (AllHold (FitsSigned w32) (ClosedFits (numbers ⟦<Shade as Enumeration>⟧.of_number (pos 0))) h
        × IsStrictlySortedBy int_cmp (keys_of h)) × AllByRecursion IsKept r) }
    ensures kept { (n : ℕ) (x : FieldData) → IsKept (n, x) ↔ (((3 < n) × AreValid (records_of ((n, x) ∷ [])))
        ⊎ ((n ≡ 3) × IsUnknownEntry int32_reading
        (closed_reading (numbers ⟦<Shade as Enumeration>⟧.of_number (pos 0))) x)) }
    ensures none { AreNormalNodes [] no_trees }
    ensures child { (k : ℤ) (ks : List ℤ) (t : Branch) (cs : TreeList NodeOwn) → AreNormalNodes (k ∷ ks) (first_tree t cs)
        ↔ (FitsSigned w32 k × IsNormalNode t × AreNormalNodes ks cs) }
    ensures as_many { (k : ℤ) (ks : List ℤ) (t : Branch) (cs : TreeList NodeOwn) →
        (AreNormalNodes [] (first_tree t cs) → ⊥) × (AreNormalNodes (k ∷ ks) no_trees → ⊥) }
{}
