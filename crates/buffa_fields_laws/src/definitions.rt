//! What the words mean that laws of members share with the calls: each law says some in words of std, or in words that the laws of the
//! wire and of maps say, and is a function with nothing to do.

ghost use Rattle.std.specs.Prelude.{◌≡◌, ◌≢◌, ◌↔◌, ◌==◌, ◌<◌, ◌≤◌, ℕ, Bool, List, [], ◌∷◌, ◌++◌, None, Option, Some, Ok, Err, Result, MatchResult, OnErr, cond, false, length, max, true};
ghost use Rattle.std.specs.List.{list_all};
ghost use Rattle.std.specs.List.Sorted.{IsStrictlySortedBy};
ghost use Rattle.std.specs.Map.{keys_of};
ghost use Rattle.std.specs.Option.{option_map};
ghost use Rattle.std.specs.declared.cmp.Ordering.{Ordering};
ghost use Rattle.buffa_bytes.specs.PayloadValue.PayloadValue.{number};
ghost use Rattle.buffa_bytes.specs.Field.{Payload};
ghost use Rattle.buffa_bytes.specs.Readings.{skip_at, tag_at, FullOnlyIf, Gives};
ghost use Rattle.buffa_bytes.specs.Unread.{past_no_payload};
ghost use Rattle.buffa_bytes.specs.Values.{int32_of};
ghost use Rattle.buffa_bytes.specs.declared.error.DecodeError.{DecodeError};
ghost use Rattle.buffa_bytes.specs.declared.error.DecodeError.TheVariants.{OutOfMemory};
ghost use Rattle.buffa_bytes.specs.declared.tag.Tag.{Tag};
ghost use Rattle.buffa_bytes.specs.declared.wire_type.WireType.{WireType};
ghost use Rattle.buffa_bytes.specs.declared.wire_type.WireType.TheVariants as wire;
ghost use Rattle.buffa_wire.specs.BudgetLeft.{BudgetLeft, plus, unknown_fields};
ghost use Rattle.buffa_wire.specs.Enums.{numbers};
ghost use Rattle.buffa_wire.specs.Parse.{Fits};
ghost use Rattle.buffa_wire.specs.RecordReading.{field_at};
ghost use Rattle.buffa_wire.specs.Records.{FieldData, records_of, varint};
ghost use Rattle.buffa_wire.specs.declared.context.DecodeContext.{DecodeContext};
ghost use denote.Ref.{Bor};
ghost use Rattle.buffa_wire.specs.Takes.{IsTaken, Charge, Taker, merged_of};
ghost use Rattle.buffa_map.specs.declared.map_entry.MapEntry.{MapEntry};
ghost use Rattle.buffa_fields.specs.UnknownsOfMembers.{AllUnknowns, TookWithUnknowns, unknowns_levels};
ghost use Rattle.buffa_fields.specs.UndeclaredFields.{AllNumbers};
ghost use Rattle.buffa_fields.specs.ClosedEnumLists.{declared_of, undeclared_of, varints};
ghost use Rattle.buffa_fields.specs.ClosedEnumFields.{undeclared_number};
ghost use Rattle.buffa_fields.specs.Schema.{AsksAsSaid, Choice, IsFieldKept, Passed, RefusesAsSaid, TakesAsSaid, TellsWrongType, Took};
ghost use Rattle.buffa_fields.specs.TaggedField.{TaggedField, tagged_field};
ghost use Rattle.buffa_fields.specs.MapFields.{stepped};
ghost use Rattle.buffa_fields.specs.MemberList.{field_with_unknowns, keep_unknown};
ghost use Rattle.buffa_fields.specs.Submessages.{FitsInside};
ghost use Rattle.buffa_fields_laws.specs.OneOfClauses.{CaseOrOthers};
ghost use Rattle.buffa_fields.specs.OrderedMaps.{KeysAscend};
ghost use Rattle.buffa_fields.specs.TakenClauses.{AmongKept, CostsEach, GoesToUnknowns, UnknownsOrOthers, LeavesAlone, MemberOrOthers, PassedOver, PutsToUnknowns, TakeAlike};
ghost use Rattle.buffa_fields.specs.Refusals.{RefusesUnder};
ghost use Rattle.buffa_fields.specs.RefusedMessage.{IsMemberRefused, MergingTakesMemory};
ghost use Rattle.buffa_fields.specs.Values.{IfThere};

use buffa_fields::members::keeps_unknowns::KeepsUnknowns;
use buffa_fields::members::member::Member;
use buffa_fields::messages::message_fields::MessageFields;
use buffa_fields::messages::required::Required;
use buffa_fields::oneofs::one_of::OneOf;
use buffa_map::map_codec::Map;
use buffa_wire::{Enumeration, Message};
use std::collections::BTreeMap;
use std::hash::Hash;

/// One of two, by a test; of a value that may be absent, if it is there; and of records, each by its number.
pub fn tests_are_these<X>()
    ensures first { (x y z u : X) → Choice true (x ≡ y) (z ≡ u) ↔ (x ≡ y) }
    ensures second { (x y z u : X) → Choice false (x ≡ y) (z ≡ u) ↔ (z ≡ u) }
    ensures absent { (x : X) → IfThere (λ y. y ≡ x) None }
    ensures there { (x y : X) → IfThere (λ z. z ≡ x) (Some y) ↔ (y ≡ x) }
    ensures no_records { (own : ℕ → Bool) → AllNumbers own [] }
    ensures records { (own : ℕ → Bool) (n : ℕ) (x : FieldData) (rs : List (ℕ × FieldData)) →
        AllNumbers own ((n, x) ∷ rs) ↔ ((own n ≡ true) × AllNumbers own rs) }
{}

/// The keys of a map ascend in std's words. A message fits inside another where it is normal and the lengths in it fit. An entry
/// is put where its value is declared.
pub fn maps_and_messages_fit_so<X, Y, N: Message>()
    ensures ascend { (order : X → X → Ordering) (l : List (X × Y)) → KeysAscend order l ↔ IsStrictlySortedBy order (keys_of l) }
    ensures inside { (v : N.Meaning) → FitsInside N.normal N.records v ↔ (N.normal v × Fits (records_of (N.records v))) }
    ensures put { (puts : List (X × Y) → X → Y → List (X × Y)) (m : List (X × Y)) (s : MapEntry X Y) →
        stepped puts m s ≡ cond s.known (puts m s.key s.value) m }
{}

/// Of a field that a member took: what its payload makes of the value, and what it costs; that memory ran out only where the
/// member may ask for some; that the fault of its wire type is told, and then nothing has changed, and the field is unread;
/// and what the member says of refused fields.
#[tactic(auto, unfolding(buffa_fields::specs::Schema::AsksAsSaid, buffa_fields::specs::Schema::RefusesAsSaid, buffa_fields::specs::Schema::TakesAsSaid, buffa_fields::specs::Schema::TellsWrongType))]
pub fn members_take_so<N: Member>()
    ensures taken { (f : TaggedField) (old new : N.Part) (r : Result (Unit {0}) DecodeError) (after : BudgetLeft) (rest : List ℕ) →
        TakesAsSaid N.shape f old r new after rest
        ↔ IsTaken N.shape.takes N.shape.charge f.depth (N.shape.meaning old) f.number f.wire_type f.bytes f.budget r
        (N.shape.meaning new) after rest }
    ensures memory { (f : TaggedField) (r : Result (Unit {0}) DecodeError) →
        AsksAsSaid N.shape f r ↔ FullOnlyIf r (N.shape.asks f.depth f.number f.wire_type f.bytes) }
    ensures wrong_type { (f : TaggedField) (old new : N.Part) (r : Result (Unit {0}) DecodeError) (rest : List ℕ) →
        TellsWrongType N.shape f old r new rest
        ↔ ((e : DecodeError) → N.shape.checks f.number f.wire_type ≡ Err e →
        (r ≡ Err e) × (N.shape.meaning old ≡ N.shape.meaning new) × (f.bytes ≡ rest)) }
    ensures refused { (f : TaggedField) (old new : N.Part) (r : Result (Unit {0}) DecodeError) →
        RefusesAsSaid N.shape f old r new
        ↔ ((e : DecodeError) → r ≡ Err e →
        N.shape.refuses f.depth (N.shape.meaning old) f.number f.wire_type f.bytes f.budget e (N.shape.meaning new)) }
    ensures field { (tag : Tag) (ctx : DecodeContext) (b : Bor (List ℕ)) →
        tagged_field tag ctx b ≡ record { depth = ctx.depth; number = tag.number; wire_type = tag.wire_type; bytes = b.now; budget = ctx.budget.now } }
    ensures all { (d : ℕ) (old : N.Part) (n : ℕ) (w : WireType) (bs : List ℕ) (before : BudgetLeft)
        (r : Result (Unit {0}) DecodeError) (new : N.Part) (after : BudgetLeft) (rest : List ℕ) →
        Took N.shape d old n w bs before r new after rest
        ↔ (IsTaken N.shape.takes N.shape.charge d (N.shape.meaning old) n w bs before r (N.shape.meaning new) after rest
        × FullOnlyIf r (N.shape.asks d n w bs)
        × ((e : DecodeError) → N.shape.checks n w ≡ Err e →
        (r ≡ Err e) × (N.shape.meaning old ≡ N.shape.meaning new) × (bs ≡ rest))
        × ((e : DecodeError) → r ≡ Err e →
        N.shape.refuses d (N.shape.meaning old) n w bs before e (N.shape.meaning new))) }
{}

/// The same of a member that puts aside what it doesn't understand, and of the records that are kept beside it.
#[tactic(auto, unfolding(buffa_fields::specs::UnknownsOfMembers::TookWithUnknowns))]
pub fn members_with_unknowns_take_so<N: KeepsUnknowns>()
    ensures { (d : ℕ) (old : N.Part) (kept : List (ℕ × FieldData)) (n : ℕ) (w : WireType) (bs : List ℕ) (before : BudgetLeft)
        (r : Result (Unit {0}) DecodeError) (new : N.Part) (keeps : List (ℕ × FieldData)) (after : BudgetLeft) (rest : List ℕ) →
        TookWithUnknowns N.shape N.unknowns d old kept n w bs before r new keeps after rest
        ↔ (IsTaken N.unknowns.takes N.unknowns.charge d (N.shape.meaning old, kept) n w bs before r (N.shape.meaning new, keeps) after rest
        × FullOnlyIf r (N.unknowns.asks before.unknown d n w bs)
        × ((e : DecodeError) → N.shape.checks n w ≡ Err e →
        (r ≡ Err e) × (N.shape.meaning old ≡ N.shape.meaning new) × (kept ≡ keeps) × (bs ≡ rest))
        × ((e : DecodeError) → r ≡ Err e →
        N.unknowns.refuses d (N.shape.meaning old) n w bs before e (N.shape.meaning new) × (kept ≡ keeps))) }
{}

/// Of a field that isn't declared: it is kept, where `keep` says what its payload makes of the records, or refused, and then they
/// are as they were, and nothing is spent. Or it is passed over, or refused by its fault, for nothing. Unread is then what
/// stands where no payload does; and all of it, where no unknown field is left to keep it, or no level for a group.
#[tactic(auto, unfolding(buffa_fields::specs::Schema::IsFieldKept, buffa_fields::specs::Schema::Passed))]
pub fn fields_that_are_not_declared_are_taken_so<M>()
    ensures kept { (get : M → List (ℕ × FieldData)) (d : ℕ) (old : List (ℕ × FieldData)) (n : ℕ) (w : WireType) (bs : List ℕ)
        (before : BudgetLeft) (r : Result (Unit {0}) DecodeError) (new : List (ℕ × FieldData)) (after : BudgetLeft) (rest : List ℕ) →
        IsFieldKept d old n w bs before r new after rest
        ↔ (IsTaken (keep_unknown get).takes (keep_unknown get).charge d old n w bs before r new after rest
        × MatchResult r (λ _. Unit {0}) (λ _. old ≡ new)
        × FullOnlyIf r ((keep_unknown get).asks before.unknown d n w bs)
        × MatchResult r (λ _. Unit {0}) (λ _. before ≡ after)
        × ((e : DecodeError) → r ≡ Err e → e ≢ OutOfMemory → (field_at d before.unknown n w bs ≡ Err e)
        × (before.unknown ≡ 0 → rest ≡ bs) × (w ≡ wire.StartGroup → d ≡ 0 → rest ≡ bs)
        × (w ≢ wire.StartGroup → 0 < before.unknown → rest ≡ past_no_payload w bs))) }
    ensures passed { (d n : ℕ) (w : WireType) (bs : List ℕ) (before : BudgetLeft) (r : Result (Unit {0}) DecodeError)
        (after : BudgetLeft) (rest : List ℕ) → Passed d n w bs before r after rest
        ↔ (Gives (λ _. rest) r (skip_at d n w bs) × (before ≡ after) × (w ≡ wire.StartGroup → d ≡ 0 → rest ≡ bs)
        × (w ≢ wire.StartGroup → OnErr r (rest ≡ past_no_payload w bs))) }
{}

/// What laws say of fields that a message takes: one of the member's number is for the member, and the others stay; each other is
/// for these, and the member stays. So it is with a oneof, by its numbers, and with a member that puts records aside, where
/// the others stay but for what is kept.
pub fn fields_are_taken_by_these<M: MessageFields, N: KeepsUnknowns, E: OneOf>()
    ensures alike { TakeAlike M.schema.Taken PassedOver ↔ ((d : ℕ) (old : M) (n : ℕ) (w : WireType) (bs : List ℕ)
        (before : BudgetLeft) (r : Result (Unit {0}) DecodeError) (new : M) (after : BudgetLeft) (rest : List ℕ) →
        M.schema.Taken d old n w bs before r new after rest ↔ Passed d n w bs before r after rest) }
    ensures among { (get : M → List (ℕ × FieldData)) (d : ℕ) (old : M) (n : ℕ) (w : WireType) (bs : List ℕ)
        (before : BudgetLeft) (r : Result (Unit {0}) DecodeError) (new : M) (after : BudgetLeft) (rest : List ℕ) →
        AmongKept get d old n w bs before r new after rest
        ↔ IsFieldKept d (get old) n w bs before r (get new) after rest }
    ensures member { (k d : ℕ) (get : M → N.Part) (old : M) (w : WireType) (bs : List ℕ)
        (before : BudgetLeft) (r : Result (Unit {0}) DecodeError) (new : M) (after : BudgetLeft) (rest : List ℕ) →
        MemberOrOthers k get N.shape M.schema d old k w bs before r new after rest
        ↔ (Took N.shape d (get old) k w bs before r (get new) after rest × M.schema.Same old new) }
    ensures others { (k d n : ℕ) (get : M → N.Part) (old : M) (w : WireType) (bs : List ℕ)
        (before : BudgetLeft) (r : Result (Unit {0}) DecodeError) (new : M) (after : BudgetLeft) (rest : List ℕ) →
        (n == k) ≡ false → MemberOrOthers k get N.shape M.schema d old n w bs before r new after rest
        ↔ ((get new ≡ get old) × M.schema.Taken d old n w bs before r new after rest) }
    ensures keeping { (k d : ℕ) (get : M → N.Part) (old : M) (w : WireType) (bs : List ℕ)
        (before : BudgetLeft) (r : Result (Unit {0}) DecodeError) (new : M) (after : BudgetLeft) (rest : List ℕ) →
        UnknownsOrOthers k get N.shape N.unknowns M.schema d old k w bs before r new after rest
        ↔ (TookWithUnknowns N.shape N.unknowns d (get old) (M.schema.kept (M.schema.meaning old)) k w bs before r (get new)
        (M.schema.kept (M.schema.meaning new)) after rest × M.schema.SameBut old new) }
    ensures beside { (k d n : ℕ) (get : M → N.Part) (old : M) (w : WireType) (bs : List ℕ)
        (before : BudgetLeft) (r : Result (Unit {0}) DecodeError) (new : M) (after : BudgetLeft) (rest : List ℕ) →
        (n == k) ≡ false → UnknownsOrOthers k get N.shape N.unknowns M.schema d old n w bs before r new after rest
        ↔ ((get new ≡ get old) × M.schema.Taken d old n w bs before r new after rest) }
    ensures case { (d n : ℕ) (get : M → Option E) (old : M) (w : WireType) (bs : List ℕ)
        (before : BudgetLeft) (r : Result (Unit {0}) DecodeError) (new : M) (after : BudgetLeft) (rest : List ℕ) →
        E.cases.all.cases.mine n ≡ true → CaseOrOthers get E.cases M.schema d old n w bs before r new after rest
        ↔ (E.cases.all.cases.Took (λ o. option_map E.cases.view o) d (get old) n w bs before r (get new) after rest
        × M.schema.Same old new) }
    ensures no_case { (d n : ℕ) (get : M → Option E) (old : M) (w : WireType) (bs : List ℕ)
        (before : BudgetLeft) (r : Result (Unit {0}) DecodeError) (new : M) (after : BudgetLeft) (rest : List ℕ) →
        E.cases.all.cases.mine n ≡ false → CaseOrOthers get E.cases M.schema d old n w bs before r new after rest
        ↔ ((get new ≡ get old) × M.schema.Taken d old n w bs before r new after rest) }
    ensures alone { (k : ℕ) (get : M → N.Part) → LeavesAlone M.schema.Taken k get ↔ ((d : ℕ) (old : M) (w : WireType)
        (bs : List ℕ) (before : BudgetLeft) (r : Result (Unit {0}) DecodeError) (new : M) (after : BudgetLeft) (rest : List ℕ) →
        M.schema.Taken d old k w bs before r new after rest → get new ≡ get old) }
{}

/// What laws say of a member that puts records aside, and of refused fields of a member. Of the records that are kept, those of the
/// member's number may have been put aside, and the deepest of them counts.
pub fn members_leave_unknowns_so<M: MessageFields, N: KeepsUnknowns>()
    ensures costs { CostsEach N.shape N.unknowns ↔ ((d n : ℕ) (w : WireType) (p more : List ℕ) (v u : N.Meaning)
        (rs : List (ℕ × FieldData)) → Payload d n w p → N.unknowns.takes d (v, []) n w p ≡ Some (u, rs) →
        N.unknowns.charge d n w (p ++ more) ≡ plus (N.shape.charge d n w (p ++ more)) (unknown_fields (length rs))) }
    ensures behind { (k : ℕ) (get : M → N.Part) → let all = field_with_unknowns k get N.shape N.unknowns M.schema in
        GoesToUnknowns N.shape N.unknowns M.schema all k ↔ ((d : ℕ) (x : N.Meaning × M.Meaning)
        (w : WireType) (p : List ℕ) (u : N.Meaning) (rs : List (ℕ × FieldData)) → N.unknowns.takes d (x.0, []) k w p ≡ Some (u, rs) →
        (y : N.Meaning × M.Meaning) × (all.takes d x k w p ≡ Some y)
        × (all.records y ≡ N.shape.records k u ++ (M.schema.own x.1 ++ (M.schema.kept x.1 ++ rs)))
        × (all.kept y ≡ all.kept x ++ rs)) }
    ensures unknowns { (takes : Taker (N.Meaning × List (ℕ × FieldData))) (charge : Charge) (y : FieldData) (levels : FieldData → ℕ) →
        PutsToUnknowns N.unknowns takes (λ s d n w bs. s ≡ d) charge (λ d old n w bs left e new. old ≡ new) (λ x. x ≡ y) levels
        ↔ ((N.unknowns.takes ≡ takes) × ((s d n : ℕ) (w : WireType) (bs : List ℕ) → N.unknowns.asks s d n w bs ↔ (s ≡ d))
        × (N.unknowns.charge ≡ charge) × ((d : ℕ) (old : N.Meaning) (n : ℕ) (w : WireType) (bs : List ℕ) (left : BudgetLeft)
        (e : DecodeError) (new : N.Meaning) → N.unknowns.refuses d old n w bs left e new ↔ (old ≡ new))
        × ((x : FieldData) → N.unknowns.AreUnknowns x ↔ (x ≡ y)) × (N.unknowns.levels ≡ levels)) }
    ensures refused { RefusesUnder N.shape (λ d old n w bs left e new. old ≡ new) ↔ ((d : ℕ) (old : N.Meaning) (n : ℕ)
        (w : WireType) (bs : List ℕ) (left : BudgetLeft) (e : DecodeError) (new : N.Meaning) →
        N.shape.refuses d old n w bs left e new ↔ (old ≡ new)) }
    ensures none { (k : ℕ) (levels : FieldData → ℕ) → AllUnknowns k N.unknowns.AreUnknowns [] × (unknowns_levels k levels [] ≡ 0) }
    ensures own { (k : ℕ) (x : FieldData) (rs : List (ℕ × FieldData)) →
        AllUnknowns k N.unknowns.AreUnknowns ((k, x) ∷ rs) ↔ (N.unknowns.AreUnknowns x × AllUnknowns k N.unknowns.AreUnknowns rs) }
    ensures others { (k n : ℕ) (x : FieldData) (rs : List (ℕ × FieldData)) → (n == k) ≡ false →
        AllUnknowns k N.unknowns.AreUnknowns ((n, x) ∷ rs) ↔ AllUnknowns k N.unknowns.AreUnknowns rs }
    ensures own_levels { (k : ℕ) (x : FieldData) (rs : List (ℕ × FieldData)) (levels : FieldData → ℕ) →
        unknowns_levels k levels ((k, x) ∷ rs) ≡ max (levels x) (unknowns_levels k levels rs) }
    ensures other_levels { (k n : ℕ) (x : FieldData) (rs : List (ℕ × FieldData)) (levels : FieldData → ℕ) → (n == k) ≡ false →
        unknowns_levels k levels ((n, x) ∷ rs) ≡ unknowns_levels k levels rs }
{}

/// Varints as a list of a closed enum reads them: numbers of 64 bits, whatever their low 32 bits are. Of these, the declared ones are
/// numbers, and each other is a record of the varint that was read.
pub fn numbers_are_left_to_unknowns_so<E: Enumeration>()
    ensures varints { (d old k : ℕ) → (varints.reads d old (number k) ≡ Ok (k, true)) × (varints.wire ≡ wire.Varint)
        × (varints.blank ≡ 0) }
    ensures none { (n : ℕ) → (declared_of (numbers E.of_number E.blank_is) [] ≡ [])
        × (undeclared_of (numbers E.of_number E.blank_is) n [] ≡ []) }
    ensures declared { (n k : ℕ) (ks : List ℕ) → (numbers E.of_number E.blank_is).declares (int32_of k) ≡ true →
        (declared_of (numbers E.of_number E.blank_is) (k ∷ ks)
        ≡ int32_of k ∷ declared_of (numbers E.of_number E.blank_is) ks)
        × (undeclared_of (numbers E.of_number E.blank_is) n (k ∷ ks) ≡ undeclared_of (numbers E.of_number E.blank_is) n ks)
        × (undeclared_number (numbers E.of_number E.blank_is) n k ≡ []) }
    ensures undeclared { (n k : ℕ) (ks : List ℕ) → (numbers E.of_number E.blank_is).declares (int32_of k) ≡ false →
        (declared_of (numbers E.of_number E.blank_is) (k ∷ ks) ≡ declared_of (numbers E.of_number E.blank_is) ks)
        × (undeclared_of (numbers E.of_number E.blank_is) n (k ∷ ks)
        ≡ (n, varint k) ∷ undeclared_of (numbers E.of_number E.blank_is) n ks)
        × (undeclared_number (numbers E.of_number E.blank_is) n k ≡ (n, varint k) ∷ []) }
{}

/// All that is required is there: of a message that may be absent, where it is there; and of a list and of a map, of each message.
pub fn what_is_required_is_there<K: Hash + Eq + Ord, M: Required>()
    ensures absent { ⟦<Option<M> as Required>⟧.initialized None ≡ true }
    ensures there { (m : M) → ⟦<Option<M> as Required>⟧.initialized (Some m) ≡ M.initialized m }
    ensures list { (v : _) → ⟦<Vec<M> as Required>⟧.initialized v ≡ list_all M.initialized v.items }
    ensures map { (m : _) → ⟦<Map<K, M> as Required>⟧.initialized m ≡ list_all (λ p. M.initialized p.1) m.entries }
    ensures ordered_map { (m : _) → ⟦<BTreeMap<K, M> as Required>⟧.initialized m
        ≡ list_all (λ p. M.initialized p.1) m.entries }
{}

/// Merging the fields of a message takes memory where some at the front are merged, and the next one may ask for it. A refused
/// field leaves a message whose other members are as they were, and whose member of the number refuses it so.
pub fn refused_merges_are_these<M: MessageFields>()
    ensures memory { (d : ℕ) (v : M.Meaning) (bs : List ℕ) (unknown : ℕ) →
        MergingTakesMemory M.schema.takes M.schema.asks d v bs unknown
        ↔ ((front : List ℕ) × (rest : List ℕ) × (bs ≡ front ++ rest)
        × (mid : M.Meaning) × (merged_of M.schema.takes d v front ≡ Some mid) × (left : ℕ) × (left ≤ unknown)
        × (n : ℕ) × (w : WireType) × (more : List ℕ) × (tag_at rest ≡ Ok (n, w, more)) × M.schema.asks left d n w more) }
    ensures refused { (d : ℕ) (old : M.Meaning) (n : ℕ) (w : WireType) (bs : List ℕ) (before : BudgetLeft) (e : DecodeError)
        (new : M.Meaning) → IsMemberRefused M.schema d old n w bs before e new
        ↔ (M.schema.DiffersOnlyAt n old new × ((a : M) × (b : M) × (after : BudgetLeft) × (rest : List ℕ)
        × (M.schema.meaning a ≡ old) × (M.schema.meaning b ≡ new)
        × M.schema.Taken d a n w bs before (Err e) b after rest)) }
{}
