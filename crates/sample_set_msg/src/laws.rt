//! Which message a MessageSet is: laws, each a function with nothing to do.

ghost use Rattle.std.specs.Prelude.{◌≡◌, ◌≢◌, ◌↔◌, ◌⊎◌, ◌&&◌, ◌++◌, ◌-◌, ◌<◌, ◌==◌, ◌∷◌, ◌^◌, ℕ, List, [], Err, Ok, Some, codes, false, length, nat_lt, suc, true, zero};
ghost use Rattle.buffa_bytes.specs.Field.{SomeField};
ghost use Rattle.buffa_bytes.specs.Readings.{same_wire, tag_at};
ghost use Rattle.buffa_bytes.specs.Join.{Join};
ghost use Rattle.buffa_bytes.specs.declared.error.DecodeError.{DecodeError};
ghost use Rattle.buffa_bytes.specs.declared.error.DecodeError.TheVariants.{OutOfMemory, RecursionLimitExceeded};
ghost use Rattle.buffa_bytes.specs.declared.wire_type.WireType.{WireType};
ghost use Rattle.buffa_bytes.specs.declared.wire_type.WireType.TheVariants.{StartGroup};
ghost use Rattle.buffa_fields.specs.UndeclaredFields.{keep_takes};
ghost use Rattle.buffa_message_set.specs.Item.{item_at, item_encoding, item_in};
ghost use Rattle.buffa_wire.specs.BudgetLeft.{BudgetLeft, Pays, unknown_fields};
ghost use Rattle.buffa_wire.specs.ByField.{cost_by, merged_by, value_of};
ghost use Rattle.buffa_wire.specs.Encoding.{tagged_encoding};
ghost use Rattle.buffa_wire.specs.KeptField.{keep_charge};
ghost use Rattle.buffa_wire.specs.Message.{BeginsField, MergeFault};
ghost use Rattle.buffa_wire.specs.RecordReading.{field_at};
ghost use Rattle.buffa_wire.specs.Records.{FieldData, Records, bytes, fixed32, fixed64, group, height, no_records, one, varint};
ghost use Rattle.buffa_wire.specs.Takes.{framed};
ghost use Rattle.buffa_sets.specs.Set.{AreItems, IsSetRefused, is_type_id, set_cost, set_field, set_levels, set_merged, set_charge, set_records};
ghost use Rattle.buffa_sets.specs.Set.{NextIsRefused, StopsBehind, TakesSetField, record_of_field, set_encoding};

use crate::set_msg::SetMsg;
use buffa_ext::ExtensionSet;
use buffa_wire::{Blank, MessageSpec};

/// What bytes make of a MessageSet, what they cost, its encoding, and what it means. Nothing is left out.
pub fn sets_are_these()
    ensures merged { ⟦<SetMsg as MessageSpec>⟧.merged ≡ set_merged }
    ensures cost { ⟦<SetMsg as MessageSpec>⟧.cost ≡ set_cost }
    ensures encoding { ⟦<SetMsg as MessageSpec>⟧.encoding ≡ set_encoding }
    ensures records { ⟦<SetMsg as MessageSpec>⟧.records ≡ set_records }
    ensures slots { ⟦<SetMsg as MessageSpec>⟧.slots ≡ (λ _. []) }
    ensures refused { (d : ℕ) (v : List (ℕ × FieldData)) (n : ℕ) (w : _) (bs : List ℕ) (l : _) (e : _)
        (u : List (ℕ × FieldData)) → ⟦<SetMsg as MessageSpec>⟧.Refused d v n w bs l e u ↔ IsSetRefused d v n w bs l e u }
    ensures element { ⟦<SetMsg as MessageSpec>⟧.COST ≡ 24 }
    ensures meaning { (m : SetMsg) → ⟦<SetMsg as Blank>⟧.meaning m ≡ m.unknown_fields.records }
    ensures blank { ⟦<SetMsg as Blank>⟧.blank_is ≡ [] }
{}

/// What a field makes of a MessageSet, and what it costs. An Item, behind the start tag of group 1, is read a level deeper; its
/// message stands under its type id behind the other records, and it costs an unknown field. Any other field is kept as it is.
pub fn fields_of_sets_are_these()
    ensures item { (d id : ℕ) (v : List (ℕ × FieldData)) (bs message rest : List ℕ) → item_at d bs ≡ Ok (id, message, rest) →
        set_field (suc d) v 1 StartGroup bs ≡ Ok (v ++ (id, bytes message) ∷ [], rest) }
    ensures malformed { (d : ℕ) (v : List (ℕ × FieldData)) (bs : List ℕ) (e : DecodeError) → item_at d bs ≡ Err e →
        set_field (suc d) v 1 StartGroup bs ≡ Err e }
    ensures too_deep { (v : List (ℕ × FieldData)) (bs : List ℕ) → set_field zero v 1 StartGroup bs
        ≡ Err RecursionLimitExceeded }
    ensures item_costs { (d : ℕ) (bs : List ℕ) → set_charge d 1 StartGroup bs ≡ unknown_fields 1 }
    ensures no_group { (d n : ℕ) (v : List (ℕ × FieldData)) (w : WireType) (bs : List ℕ) →
        ((n == 1) && same_wire StartGroup w) ≡ false →
        (set_field d v n w bs ≡ framed keep_takes d v n w bs) × (set_charge d n w bs ≡ keep_charge d n w bs) }
    ensures all { (d : ℕ) (v : List (ℕ × FieldData)) (bs : List ℕ) → (set_merged d v bs ≡ merged_by (set_field d) v bs)
        × (set_cost d bs ≡ cost_by (set_charge d) d bs) }
{}

/// What the encoding of a MessageSet is: an Item for bytes under a type id, which is 1 to 2,147,483,647, and a field for any other
/// record. As a message it has a group of number 1 for an Item, with the type id in field 2 and the message in field 3.
pub fn encodings_of_sets_are_these()
    ensures none { (set_encoding [] ≡ []) × (set_records [] ≡ []) }
    ensures type_id { (n : ℕ) → is_type_id n ≡ (nat_lt 0 n && nat_lt n (2 ^ 31)) }
    ensures item { (n : ℕ) (b : List ℕ) (rs : List (ℕ × FieldData)) → is_type_id n ≡ true →
        (set_encoding ((n, bytes b) ∷ rs) ≡ item_encoding n b ++ set_encoding rs)
        × (set_records ((n, bytes b) ∷ rs)
        ≡ (1, group (one 2 (varint n) (one 3 (bytes b) no_records))) ∷ set_records rs) }
    ensures no_type_id { (n : ℕ) (b : List ℕ) (rs : List (ℕ × FieldData)) → is_type_id n ≡ false →
        (set_encoding ((n, bytes b) ∷ rs) ≡ tagged_encoding n (bytes b) ++ set_encoding rs)
        × (set_records ((n, bytes b) ∷ rs) ≡ (n, bytes b) ∷ set_records rs) }
    ensures number { (n x : ℕ) (rs : List (ℕ × FieldData)) →
        (set_encoding ((n, varint x) ∷ rs) ≡ tagged_encoding n (varint x) ++ set_encoding rs)
        × (set_encoding ((n, fixed32 x) ∷ rs) ≡ tagged_encoding n (fixed32 x) ++ set_encoding rs)
        × (set_encoding ((n, fixed64 x) ∷ rs) ≡ tagged_encoding n (fixed64 x) ++ set_encoding rs)
        × (set_records ((n, varint x) ∷ rs) ≡ (n, varint x) ∷ set_records rs)
        × (set_records ((n, fixed32 x) ∷ rs) ≡ (n, fixed32 x) ∷ set_records rs)
        × (set_records ((n, fixed64 x) ∷ rs) ≡ (n, fixed64 x) ∷ set_records rs) }
    ensures group_field { (n : ℕ) (qs : Records) (rs : List (ℕ × FieldData)) →
        (set_encoding ((n, group qs) ∷ rs) ≡ tagged_encoding n (group qs) ++ set_encoding rs)
        × (set_records ((n, group qs) ∷ rs) ≡ (n, group qs) ∷ set_records rs) }
    ensures levels { (v : List (ℕ × FieldData)) → set_levels v ≡ height (set_records v) }
{}

/// Under which name a MessageSet is extended, and that its records are its unknown fields. Nothing is left out.
pub fn sets_lend_these()
    ensures name { ⟦<SetMsg as ExtensionSet>⟧.fqn ≡ codes "buffa.sample.SetMsg" }
    ensures fields { (m : SetMsg) → ⟦<SetMsg as ExtensionSet>⟧.fields_of m ≡ m.unknown_fields }
{}

/// The constant `PROTO_FQN` is that name, too. Nothing is left out.
pub fn set_name_is_this() -> &'static str
    ensures { result.now ≡ codes "buffa.sample.SetMsg" }
{
    SetMsg::PROTO_FQN
}

/// Which MessageSets are read back from their encoding: those of Items alone, each of bytes under a type id. They nest one
/// level deep, if any is there.
pub fn sets_are_read_back()
    ensures normal { (v : List (ℕ × FieldData)) → ⟦<SetMsg as MessageSpec>⟧.normal v ↔ AreItems v }
    ensures none { AreItems [] }
    ensures items { (n : ℕ) (b : List ℕ) (rs : List (ℕ × FieldData)) →
        AreItems ((n, bytes b) ∷ rs) ↔ ((0 < n) × (n < 2 ^ 31) × AreItems rs) }
    ensures no_items { (n x : ℕ) (qs : Records) (rs : List (ℕ × FieldData)) → (AreItems ((n, varint x) ∷ rs) → ⊥)
        × (AreItems ((n, fixed32 x) ∷ rs) → ⊥) × (AreItems ((n, fixed64 x) ∷ rs) → ⊥)
        × (AreItems ((n, group qs) ∷ rs) → ⊥) }
    ensures levels { ⟦<SetMsg as MessageSpec>⟧.levels ≡ set_levels }
    ensures deep { (v : List (ℕ × FieldData)) → AreItems v → ((v ≡ []) × (set_levels v ≡ 0)) ⊎ ((v ≢ []) × (set_levels v ≡ 1)) }
{}

/// Which record is read of a field, where so many unknown fields are left, or which fault is told. An Item is read a level
/// deeper: its record is its message under its type id, and one unknown field fewer is left. Any other field is its own record.
/// A refused field leaves the records as they were, and tells that fault: it means nothing, or its cost isn't left. Open is
/// where memory runs out.
pub fn faults_of_sets_are_these()
    ensures too_deep { (s : ℕ) (bs : List ℕ) → record_of_field zero s 1 StartGroup bs ≡ Err RecursionLimitExceeded }
    ensures malformed { (d s : ℕ) (bs : List ℕ) (e : DecodeError) → item_in d s bs ≡ Err e →
        record_of_field (suc d) s 1 StartGroup bs ≡ Err e }
    ensures item { (d s id : ℕ) (bs message rest : List ℕ) → item_in d s bs ≡ Ok (id, message, rest) →
        record_of_field (suc d) s 1 StartGroup bs ≡ Ok ((id, bytes message), s - 1, rest) }
    ensures other_malformed { (d s n : ℕ) (w : WireType) (bs : List ℕ) (e : DecodeError) →
        ((n == 1) && same_wire StartGroup w) ≡ false → field_at d s n w bs ≡ Err e →
        record_of_field d s n w bs ≡ Err e }
    ensures other { (d s n left : ℕ) (w : WireType) (bs rest : List ℕ) (x : FieldData) →
        ((n == 1) && same_wire StartGroup w) ≡ false → field_at d s n w bs ≡ Ok (x, left, rest) →
        record_of_field d s n w bs ≡ Ok ((n, x), left, rest) }
    ensures refused { (d : ℕ) (v : List (ℕ × FieldData)) (n : ℕ) (w : WireType) (bs : List ℕ) (l : BudgetLeft)
        (e : DecodeError) (u : List (ℕ × FieldData)) → IsSetRefused d v n w bs l e u
        ↔ ((u ≡ v) × (e ≢ OutOfMemory → MergeFault (value_of (set_field d v n w bs)) (set_charge d n w bs) l e
        × (record_of_field d l.unknown n w bs ≡ Err e))) }
{}

/// What merging a field into a MessageSet leaves: the records that the field makes of those before, the bytes that follow it, and
/// the budget without exactly its cost. A refused field changes and spends nothing.
pub fn merges_into_sets_are_these<T>()
    ensures merged { (d : ℕ) (v : List (ℕ × FieldData)) (n : ℕ) (w : WireType) (bs : List ℕ) (b : BudgetLeft) (x : T)
        (u : List (ℕ × FieldData)) (a : BudgetLeft) (rest : List ℕ) → TakesSetField d v n w bs b (Ok x) u a rest
        ↔ ((set_field d v n w bs ≡ Ok (u, rest)) × Pays b (set_charge d n w bs) a) }
    ensures refused { (d : ℕ) (v : List (ℕ × FieldData)) (n : ℕ) (w : WireType) (bs : List ℕ) (b : BudgetLeft)
        (e : DecodeError) (u : List (ℕ × FieldData)) (a : BudgetLeft) (rest : List ℕ) →
        TakesSetField {T = T} d v n w bs b (Err e) u a rest ↔ ((u ≡ v) × (a ≡ b) × (e ≢ OutOfMemory →
        MergeFault (value_of (set_field d v n w bs)) (set_charge d n w bs) b e
        × (record_of_field d b.unknown n w bs ≡ Err e))) }
{}

/// Where a refused merge of a MessageSet stops: behind fields that are merged and paid for, at a field that is refused, or where
/// no tag is read. Memory runs out only at a tag that is no end tag.
pub fn stops_in_sets_are_these()
    ensures next { (d : ℕ) (v : List (ℕ × FieldData)) (bs : List ℕ) (l : BudgetLeft) (e : DecodeError) →
        NextIsRefused d v bs l e ↔ ((tag_at bs ≡ Err e) ⊎ ((n : ℕ) × (w : WireType) × (rest : List ℕ)
        × (tag_at bs ≡ Ok (n, w, rest)) × MergeFault (value_of (set_field d v n w rest)) (set_charge d n w rest) l e
        × (record_of_field d l.unknown n w rest ≡ Err e))) }
    ensures stop { (d : ℕ) (v : List (ℕ × FieldData)) (bs : List ℕ) (b : BudgetLeft) (e : DecodeError)
        (u : List (ℕ × FieldData)) (a : BudgetLeft) → StopsBehind d v bs b e u a
        ↔ ((front : List ℕ) × (rest : List ℕ) × Join (SomeField d) front × (bs ≡ front ++ rest) × (0 < length rest)
        × (set_merged d v front ≡ Some u) × Pays b (set_cost d front) a
        × (e ≢ OutOfMemory → NextIsRefused d u rest a e) × (e ≡ OutOfMemory → BeginsField rest)) }
{}

/// A refused merge leaves one value and one budget, and returns one fault: the fields before the refused one are merged,
/// and paid for. Open is where memory runs out.
pub fn refused_sets_are_pinned()
    ensures { (d : ℕ) (v : List (ℕ × FieldData)) (bs : List ℕ) (b : BudgetLeft) (e f : DecodeError)
        (u w : List (ℕ × FieldData)) (a c : BudgetLeft) → StopsBehind d v bs b e u a → StopsBehind d v bs b f w c
        → e ≢ OutOfMemory → f ≢ OutOfMemory → (u ≡ w) × (a ≡ c) × (e ≡ f) }
{}
