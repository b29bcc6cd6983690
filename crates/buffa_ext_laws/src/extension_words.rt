//! What the words say by which sets, clears, defaults and messages are described: each law is a function with nothing to do,
//! whose contract is the law.

ghost use Rattle.std.specs.Prelude.{◌≡◌, ◌≢◌, ◌↔◌, ◌<◌, ◌≤◌, ◌+◌, ◌==◌, ◌⊎◌, ◌^◌, ℕ, List, [], ◌∷◌, ◌++◌};
ghost use Rattle.std.specs.Prelude.{Err, None, Ok, Option, Some, drop, filter, length, map, not, option_map};
ghost use Rattle.std.specs.List.{filter_map};
ghost use Rattle.buffa_bytes.specs.declared.error.DecodeError.{DecodeError};
ghost use Rattle.buffa_bytes.specs.declared.error.EncodeError.TheVariants.{GroupRefused};
ghost use Rattle.buffa_wire.specs.BudgetLeft.{BudgetLeft, Covers, Lacks, Pays, PaysAtMost, nothing, plus};
ghost use Rattle.buffa_wire.specs.Encoding.{fields_encoding};
ghost use Rattle.buffa_wire.specs.Message.{BeginsField};
ghost use Rattle.buffa_wire.specs.RecordReading.{list_at};
ghost use Rattle.buffa_wire.specs.Records.{FieldData, Held, Records, bytes, fixed32, fixed64, group, no_records, records_of, varint};
ghost use Rattle.buffa_wire.specs.RecordsOfValues.{field_data_of};
ghost use Rattle.buffa_codec.specs.Decoded.{bytes_held};
ghost use Rattle.buffa_codec.specs.RecordsOfNumber.{sub};
ghost use Rattle.buffa_ext.specs.Defaults.{IsDefaulted, IsRefused, ReadsNumber};
ghost use Rattle.buffa_ext.specs.Messages.{BeginsFieldIn, LeavesOf, cost_all, encodings_in, group_held, group_of};
ghost use Rattle.buffa_ext.specs.Messages.{group_refusal, merged_all, message_of};
ghost use Rattle.buffa_ext.specs.SetsAndClears.{HoldsRecord, IsCleared, IsSet, IsSetUnread, KeepsRoom, NumberStep, RefusedAt, StepTakesMemory, after};
ghost use Rattle.buffa_ext.specs.SetsAndClears.{after_one, clear, history, put_count, set, step_of};
ghost use Rattle.buffa_ext.specs.declared.sets_and_clears.Step.TheVariants.{Clear, Set};

use buffa_codec::{ExtensionCodec, LastWins};
use buffa_ext::descriptor::Declared;
use buffa_wire::{Blank, Message};

/// A set takes the records of its number out and puts its own behind the others; a clear takes them out. Steps are taken
/// one after the other. An extension is there where a record has its number. A value may be set that isn't read back, where
/// reading it takes memory.
pub fn steps_are_these<C: ExtensionCodec>()
    ensures set { (n : ℕ) (ds : List FieldData) (rs : List (ℕ × FieldData)) → after_one rs (set n ds)
        ≡ filter (λ r. not (r.0 == n)) rs ++ map (λ d. (n, d)) ds }
    ensures clear { (n : ℕ) (rs : List (ℕ × FieldData)) → after_one rs (clear n) ≡ filter (λ r. not (r.0 == n)) rs }
    ensures none { (rs : List (ℕ × FieldData)) → after rs [] ≡ rs }
    ensures next { (rs : List (ℕ × FieldData)) (c : NumberStep) (cs : List NumberStep) →
        after rs (c ∷ cs) ≡ after (after_one rs c) cs }
    ensures is_set { (n : ℕ) (ds : List FieldData) (old new : Held) → IsSet n ds old new
        ↔ (new.records ≡ filter (λ r. not (r.0 == n)) old.records ++ map (λ d. (n, d)) ds) }
    ensures is_cleared { (n : ℕ) (old new : Held) → IsCleared n old new
        ↔ (new.records ≡ filter (λ r. not (r.0 == n)) old.records) }
    ensures unread { (n : ℕ) (v : C.Meaning) (old new : Held) →
        IsSetUnread n (C.extension_data v) (C.refusal v) C.asks old new
        ↔ ((new.records ≡ filter (λ r. not (r.0 == n)) old.records ++ map (λ d. (n, d)) (C.extension_data v)) × (C.refusal v ≡ None)
        × C.asks (C.extension_data v)) }
    ensures there { (n : ℕ) (held : Held) → HoldsRecord n held
        ↔ (map (λ r. r.1) (filter (λ r. r.0 == n) held.records) ≢ []) }
    ensures step { (n : ℕ) (xs : _) → (step_of (Set n xs) ≡ set n (map field_data_of xs.items))
        × (step_of (Clear n) ≡ clear n) }
{}

/// What a number has after steps is what its last set put in, nothing after a last clear, and what was there where no step
/// is its own.
pub fn histories_are_these()
    ensures untouched { (n : ℕ) (rs : List (ℕ × FieldData)) → history n rs [] ≡ sub n rs }
    ensures set { (n : ℕ) (rs : List (ℕ × FieldData)) (cs : List NumberStep) (ds : List FieldData) →
        history n rs (cs ++ set n ds ∷ []) ≡ ds }
    ensures clear { (n : ℕ) (rs : List (ℕ × FieldData)) (cs : List NumberStep) → history n rs (cs ++ clear n ∷ []) ≡ [] }
    ensures other_set { (n m : ℕ) (rs : List (ℕ × FieldData)) (cs : List NumberStep) (ds : List FieldData) → n ≢ m →
        history m rs (cs ++ set n ds ∷ []) ≡ history m rs cs }
    ensures other_clear { (n m : ℕ) (rs : List (ℕ × FieldData)) (cs : List NumberStep) → n ≢ m →
        history m rs (cs ++ clear n ∷ []) ≡ history m rs cs }
{}

/// A replay is refused only at a set to some records, and uses no more room than its steps put records in.
pub fn replays_are_refused_so()
    ensures set { (n : ℕ) (ds : List FieldData) → StepTakesMemory (set n ds) ↔ (ds ≢ []) }
    ensures clear { (n : ℕ) → StepTakesMemory (clear n) → ⊥ }
    ensures at { (k : ℕ) (cs : List NumberStep) → RefusedAt k cs
        ↔ ((c : NumberStep) × (rest : List NumberStep) × (drop k cs ≡ c ∷ rest) × StepTakesMemory c) }
    ensures room { (cs : List NumberStep) (old new : Held) → KeepsRoom cs old new
        ↔ (old.spare ≤ new.spare + put_count cs) }
    ensures no_records { put_count [] ≡ 0 }
    ensures records { (n : ℕ) (ds : List FieldData) (cs : List NumberStep) →
        (put_count (set n ds ∷ cs) ≡ length ds + put_count cs) × (put_count (clear n ∷ cs) ≡ put_count cs) }
{}

/// A value that is read is the answer; else the declared default is, and the default of the type where none is declared.
/// Want of memory is told of the reading, or of the declared default where no value is read.
pub fn answers_with_a_default_are_these<C: LastWins, D: Declared<C::Value>>()
    ensures value { (ds : List FieldData) (s : D) (v : C.Value) → IsDefaulted
        (λ o. ⟦<C as ExtensionCodec>⟧.reads ds (option_map C.Value.meaning o)) (D.may_declare s)
        (C.Value.meaning v ≡ C.Value.blank_is) v
        ↔ (⟦<C as ExtensionCodec>⟧.reads ds (Some (C.Value.meaning v)) ⊎ (⟦<C as ExtensionCodec>⟧.reads ds None
        × (D.may_declare s (Some v) ⊎ (D.may_declare s None × (C.Value.meaning v ≡ C.Value.blank_is))))) }
    ensures number { (n : ℕ) (held : Held) (o : Option C.Value) →
        ReadsNumber ⟦<C as ExtensionCodec>⟧.reads (option_map C.Value.meaning) n held o
        ↔ ⟦<C as ExtensionCodec>⟧.reads (map (λ r. r.1) (filter (λ r. r.0 == n) held.records))
        (option_map C.Value.meaning o) }
    ensures refused { (ds : List FieldData) (s : D) → IsRefused (⟦<C as ExtensionCodec>⟧.asks ds)
        (λ o. ⟦<C as ExtensionCodec>⟧.reads ds (option_map C.Value.meaning o)) (D.may_refuse s)
        ↔ (⟦<C as ExtensionCodec>⟧.asks ds ⊎ (⟦<C as ExtensionCodec>⟧.reads ds None × D.may_refuse s)) }
{}

/// The same of any codec that answers with a value or none, of the records of one number among others.
pub fn answers_of_codecs_are_these<
    V: Blank,
    C: ExtensionCodec<Value = V, Output = Option<V>>,
    D: Declared<V>,
>()
    ensures number { (n : ℕ) (held : Held) (o : Option V) → ReadsNumber C.reads C.answer n held o
        ↔ C.reads (map (λ r. r.1) (filter (λ r. r.0 == n) held.records)) (C.answer o) }
    ensures value { (n : ℕ) (held : Held) (s : D) (v : V) → IsDefaulted (ReadsNumber C.reads C.answer n held)
        (D.may_declare s) (V.meaning v ≡ V.blank_is) v
        ↔ (C.reads (map (λ r. r.1) (filter (λ r. r.0 == n) held.records)) (C.answer (Some v))
        ⊎ (C.reads (map (λ r. r.1) (filter (λ r. r.0 == n) held.records)) (C.answer None)
        × (D.may_declare s (Some v) ⊎ (D.may_declare s None × (V.meaning v ≡ V.blank_is))))) }
    ensures refused { (n : ℕ) (held : Held) (s : D) → IsRefused (C.asks (sub n held.records))
        (ReadsNumber C.reads C.answer n held) (D.may_refuse s)
        ↔ (C.asks (map (λ r. r.1) (filter (λ r. r.0 == n) held.records))
        ⊎ (C.reads (map (λ r. r.1) (filter (λ r. r.0 == n) held.records)) (C.answer None) × D.may_refuse s)) }
{}

/// The encodings in records are merged one after the other, and their costs are added. They are a message where there is one at
/// all, what they cost is left, and each is merged.
pub fn merged_messages_are_these<M: Message>()
    ensures held { (held : FieldData → Option (List ℕ)) (ds : List FieldData) → encodings_in held ds ≡ filter_map held ds }
    ensures all { (n : ℕ) (old : M.Meaning) → merged_all (M.merged n) old [] ≡ Some old }
    ensures next { (n : ℕ) (old new : M.Meaning) (b : List ℕ) (bs : List (List ℕ)) → M.merged n old b ≡ Some new →
        merged_all (M.merged n) old (b ∷ bs) ≡ merged_all (M.merged n) new bs }
    ensures refused { (n : ℕ) (old : M.Meaning) (b : List ℕ) (bs : List (List ℕ)) → M.merged n old b ≡ None →
        merged_all (M.merged n) old (b ∷ bs) ≡ None }
    ensures free { (n : ℕ) → cost_all (M.cost n) [] ≡ nothing }
    ensures costs { (n : ℕ) (b : List ℕ) (bs : List (List ℕ)) → cost_all (M.cost n) (b ∷ bs)
        ≡ plus (M.cost n b) (cost_all (M.cost n) bs) }
    ensures absent { (n : ℕ) (left : BudgetLeft) → message_of (M.merged n) (M.cost n) M.blank_is left [] ≡ None }
    ensures message { (n : ℕ) (left : BudgetLeft) (b : List ℕ) (bs : List (List ℕ)) →
        Covers left (cost_all (M.cost n) (b ∷ bs)) →
        message_of (M.merged n) (M.cost n) M.blank_is left (b ∷ bs) ≡ merged_all (M.merged n) M.blank_is (b ∷ bs) }
    ensures too_dear { (n : ℕ) (left : BudgetLeft) (b : List ℕ) (bs : List (List ℕ)) →
        Lacks left (cost_all (M.cost n) (b ∷ bs)) →
        message_of (M.merged n) (M.cost n) M.blank_is left (b ∷ bs) ≡ None }
    ensures leaves { (v : M.Meaning) (before charge after : BudgetLeft) → (LeavesOf (Some v) before charge after ↔ Pays before charge after)
        × (LeavesOf {X = M.Meaning} None before charge after ↔ PaysAtMost before charge after) }
{}

/// A group holds the encoding of its records, and no other record is a group. The group of an encoding has the records that
/// are read of it, 100 levels deep and a million at most; where none are read it is empty, and refused for that fault.
pub fn groups_are_these()
    ensures held { (rs : Records) → group_held (group rs) ≡ Some (fields_encoding rs) }
    ensures others { (x : ℕ) (b : List ℕ) → (group_held (varint x) ≡ None) × (group_held (fixed32 x) ≡ None)
        × (group_held (fixed64 x) ≡ None) × (group_held (bytes b) ≡ None) }
    ensures read { (t : List ℕ) (rs : List (ℕ × FieldData)) → list_at 100 1000000 t ≡ Ok rs →
        (group_of t ≡ group (records_of rs)) × (group_refusal t ≡ None) }
    ensures refused { (t : List ℕ) (e : DecodeError) → list_at 100 1000000 t ≡ Err e →
        (group_of t ≡ group no_records) × (group_refusal t ≡ Some (GroupRefused e)) }
    ensures begins { (b : List ℕ) → BeginsFieldIn bytes_held (bytes b) ↔ BeginsField b }
    ensures begins_none { (x : ℕ) (rs : Records) → (BeginsFieldIn bytes_held (varint x) → ⊥)
        × (BeginsFieldIn bytes_held (fixed32 x) → ⊥) × (BeginsFieldIn bytes_held (fixed64 x) → ⊥)
        × (BeginsFieldIn bytes_held (group rs) → ⊥) }
{}
