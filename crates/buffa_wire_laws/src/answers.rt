//! What the words of answers mean: what a call gave, wrote, spent and left, in std's words for lists and numbers. Each law is
//! a function with nothing to do, whose contract is the law.

ghost use Rattle.std.specs.Prelude.{◌≡◌, ◌≢◌, ◌<◌, ◌≤◌, ◌⊎◌, ◌^◌, ◌+◌, ◌-◌, ◌↔◌, ℕ, suc, List, [], ◌∷◌, ◌++◌, length, take, drop};
ghost use Rattle.std.specs.Prelude.{Bool, true, false, Some, None, Result, Ok, Err, IsOk};
ghost use Rattle.std.specs.Borrow.{Bor, MutBor};
ghost use Rattle.std.specs.Fn.{CalledAt};
ghost use Rattle.buffa_bytes.specs.declared.error.DecodeError.{DecodeError};
ghost use Rattle.buffa_bytes.specs.declared.error.DecodeError.TheVariants as decoding;
ghost use Rattle.buffa_bytes.specs.declared.error.EncodeError.{EncodeError};
ghost use Rattle.buffa_bytes.specs.declared.error.EncodeError.TheVariants as encoding;
ghost use Rattle.buffa_bytes.specs.declared.wire_type.WireType.{WireType};
ghost use Rattle.buffa_bytes.specs.declared.wire_type.WireType.TheVariants as wire;
ghost use Rattle.buffa_bytes.specs.PayloadValue.{PayloadValueFault};
ghost use Rattle.buffa_bytes.specs.Delimited.{Lends};
ghost use Rattle.buffa_bytes.specs.Field.{IsTag, Payload, TagFault, TakesPayload, TakesTag};
ghost use Rattle.buffa_bytes.specs.Readings.{delimited_at, tag_at, FullOnlyIf, Gives, GivesUnlessFull};
ghost use Rattle.buffa_bytes.specs.Unread.{LeavesUnlessFull, IsChunkOf, IsFrontOf, IsTailOf, MayBeCut, MovesUnlessFull, bytes_read};
ghost use Rattle.buffa_bytes.specs.Pieces.{joined};
ghost use Rattle.buffa_bytes.specs.Written.{UsesRoom, Writes};
ghost use Rattle.buffa_wire.specs.BudgetLeft.{BudgetLeft, Covers, Lacks, Pays, PaysAtMost, UnknownTaken, UnknownsSpent, IsLimit};
ghost use Rattle.buffa_wire.specs.BudgetLeft.{budget_left, defaults, minus, charge_by, nothing, plus, units, unknown_fields};
ghost use Rattle.buffa_wire.specs.Cache.{Cache, advanced, appended};
ghost use Rattle.buffa_wire.specs.KeptField.{more_left};
ghost use Rattle.buffa_wire.specs.Message.{BeginsField, IsFieldMerged, IsJudged, IsMerged, IsMergedAlone, MergeFault};
ghost use Rattle.buffa_wire.specs.Message.{MergesBytes, MergesField, MergesInside, Unchanged};
ghost use Rattle.buffa_wire.specs.Message.{IsInside, MessageFault, PartlyMerged, PartlyMergedInside, cost_in, cost_of_payload, merged_in};
ghost use Rattle.buffa_wire.specs.Parse.{FieldFault, GroupRecordsFault, RecordsFault, TakesRecords};
ghost use Rattle.buffa_wire.specs.Passes.{Begins, Consumes, IsNext, IsSized, IsSmall, IsWritten, cap};
ghost use Rattle.buffa_wire.specs.RecordReading.{ListTakesMemory, RecordTakesMemory, field_at, field_in};
ghost use Rattle.buffa_wire.specs.Records.{FieldData, Records};
ghost use Rattle.buffa_wire.specs.Encoding.{write_outcome};
ghost use Rattle.buffa_wire.specs.Takes.{IsTaken, Leads, Piece, ReadsBack, Stays, Untaken, costs_nothing, joined_fields};
ghost use Rattle.buffa_wire.specs.declared.context.DecodeContext.{DecodeContext};

use buffa_bytes::error::DecodeError;
use buffa_wire::message::{Message, MessageSpec};

/// What a call gives is what is read, and its error the fault, unless memory ran out where the contract says so.
pub fn answers_are_these<X, Y>()
    ensures read { (f : X → Y) (x : X) (read : Result Y DecodeError) → Gives f (Ok x) read ↔ (read ≡ Ok (f x)) }
    ensures refused { (f : X → Y) (e : DecodeError) (read : Result Y DecodeError) → Gives f (Err e) read ↔ (read ≡ Err e) }
    ensures read_unless_full { (f : X → Y) (x : X) (read : Result Y DecodeError) → GivesUnlessFull f (Ok x) read
        ↔ (read ≡ Ok (f x)) }
    ensures refused_unless_full { (f : X → Y) (e : DecodeError) (read : Result Y DecodeError) → GivesUnlessFull f (Err e) read
        ↔ (e ≢ decoding.OutOfMemory → read ≡ Err e) }
    ensures full { (x y : X) (e : DecodeError) → FullOnlyIf {X = X} (Err e) (x ≡ y)
        ↔ (e ≡ decoding.OutOfMemory → x ≡ y) }
    ensures never_full { (x y z : X) → FullOnlyIf (Ok z) (x ≡ y) }
    ensures left { (e : DecodeError) (rest left : List ℕ) → LeavesUnlessFull {X = X} (Err e) rest left
        ↔ ((e ≢ decoding.OutOfMemory → left ≡ rest) × IsTailOf rest left) }
{}

/// Bytes that are lent are the argument of one call, whose answer is handed on, and what follows them is left; or memory ran out,
/// of a byte or more, and the function is as it was. Where no bytes are there their fault is handed on, and it is so too.
pub fn lent_bytes_are_these<T, F: FnMut(&[u8]) -> Result<T, DecodeError>>()
    ensures there { (f h : F) (r : Result T DecodeError) (p rest left : List ℕ) → Lends F.FnMut f (Ok (p, rest)) r h left
        ↔ ((CalledAt F.FnMut f p r h × (left ≡ rest)) ⊎ ((r ≡ Err decoding.OutOfMemory) × (h ≡ f) × (p ≢ []))) }
    ensures fault { (f h : F) (r : Result T DecodeError) (e : DecodeError) (left : List ℕ) → Lends F.FnMut f (Err e) r h left
        ↔ ((r ≡ Err e) × (h ≡ f)) }
{}

/// What stands at the front of a buffer, and what follows it.
pub fn fronts_are_these()
    ensures tail { (tail all : List ℕ) → IsTailOf tail all ↔ ((n : ℕ) × (tail ≡ drop n all)) }
    ensures chunk { (part all : List ℕ) → IsChunkOf part all ↔ ((take (length part) all ≡ part) × (length part ≤ length all)
        × (0 < length all → 0 < length part)) }
    ensures front { (part all : List ℕ) (n : ℕ) → IsFrontOf part n all ↔ ((part ≡ take n all) × (n ≤ length all)) }
    ensures cut { (n : ℕ) (all : List ℕ) → MayBeCut n all ↔ (n ≤ length all → 1 < n) }
    ensures read { (old new : List ℕ) → bytes_read old new ≡ length old - length new }
    ensures moved { (n : ℕ) (old new held holds : List ℕ) → MovesUnlessFull (Ok tt) n old new held holds
        ↔ ((holds ≡ held ++ take n old) × (new ≡ drop n old)) }
    ensures not_moved { (n : ℕ) (old new held holds : List ℕ) (e : DecodeError) → MovesUnlessFull (Err e) n old new held holds
        ↔ (e ≡ decoding.OutOfMemory) }
    ensures no_pieces { joined [] ≡ [] }
    ensures pieces { (s : Bor (List ℕ)) (ss : List (Bor (List ℕ))) → joined (s ∷ ss) ≡ s.now ++ joined ss }
{}

/// A write puts the encoding behind what the sink holds; where memory ran out, a beginning of it, and not all. An encoding that
/// fits the spare capacity is written, and takes no more of it than it has bytes.
pub fn writes_are_these<T>()
    ensures written { (x : T) (old encoded new : List ℕ) → Writes (Ok x) old encoded new ↔ (new ≡ old ++ encoded) }
    ensures not_written { (e : EncodeError) (old encoded new : List ℕ) → Writes {T = T} (Err e) old encoded new
        ↔ ((e ≡ encoding.OutOfMemory) × (front : List ℕ) × (rest : List ℕ) × (encoded ≡ front ++ rest)
        × (new ≡ old ++ front) × (0 < length rest)) }
    ensures outcome { (write_outcome true ≡ Ok tt) × (write_outcome false ≡ Err encoding.OutOfMemory) }
    ensures fits { (x : T) (room left : ℕ) (encoded : List ℕ) → UsesRoom (Ok x) room encoded left
        ↔ (room ≤ left + length encoded) }
    ensures no_room { (e : EncodeError) (room left : ℕ) (encoded : List ℕ) → UsesRoom {T = T} (Err e) room encoded left
        ↔ (room < length encoded) }
{}

/// Budgets by their numbers: the unknown fields left, and the units of element memory left. What is needed is lacking where
/// fewer are left of either; else it is spent of both.
pub fn budgets_are_these<X>()
    ensures nothing { (nothing.unknown ≡ 0) × (nothing.memory ≡ 0) }
    ensures units { (n : ℕ) → ((units n).unknown ≡ 0) × ((units n).memory ≡ n) }
    ensures unknown_fields { (n : ℕ) → ((unknown_fields n).unknown ≡ n) × ((unknown_fields n).memory ≡ 0) }
    ensures defaults { (defaults.unknown ≡ 1000000) × (defaults.memory ≡ 2 ^ 28) }
    ensures plus { (a b : BudgetLeft) → ((plus a b).unknown ≡ a.unknown + b.unknown)
        × ((plus a b).memory ≡ a.memory + b.memory) }
    ensures minus { (a b : BudgetLeft) → ((minus a b).unknown ≡ a.unknown - b.unknown)
        × ((minus a b).memory ≡ a.memory - b.memory) }
    ensures covers { (a b : BudgetLeft) → Covers a b ↔ ((b.unknown ≤ a.unknown) × (b.memory ≤ a.memory)) }
    ensures lacks { (left charge : BudgetLeft) → Lacks left charge
        ↔ ((left.unknown < charge.unknown) ⊎ (left.memory < charge.memory)) }
    ensures pays { (before charge after : BudgetLeft) → Pays before charge after
        ↔ ((before.unknown ≡ after.unknown + charge.unknown) × (before.memory ≡ after.memory + charge.memory)) }
    ensures pays_at_most { (before charge after : BudgetLeft) → PaysAtMost before charge after
        ↔ ((after.unknown ≤ before.unknown) × (before.unknown ≤ after.unknown + charge.unknown)
        × (after.memory ≤ before.memory) × (before.memory ≤ after.memory + charge.memory)) }
    ensures left { (x : X) (budget : MutBor BudgetLeft) → budget_left (x, (budget, tt)) ≡ budget.now }
    ensures charge { (x : X) (f : X → BudgetLeft) → charge_by (Ok x) f ≡ f x }
    ensures no_charge { (e : DecodeError) (f : X → BudgetLeft) → charge_by (Err e) f ≡ nothing }
{}

/// What reading takes of the unknown fields left: for a field one, where one is left; for a refused group no more than is said,
/// and never does it add any.
pub fn unknown_fields_are_spent_so()
    ensures spent { (n before after : ℕ) → UnknownsSpent n before after ↔ ((after ≤ before) × (before ≤ after + n)) }
    ensures taken { (before after : ℕ) → UnknownTaken (suc before) after ↔ (after ≡ before) }
    ensures none_taken { (after : ℕ) → UnknownTaken 0 after ↔ (after ≡ 0) }
    ensures more { (k left : ℕ) (x : FieldData) (rest : List ℕ) → more_left k (Ok (x, left, rest)) ≡ Ok (x, left + k, rest) }
    ensures no_more { (k : ℕ) (e : DecodeError) → more_left k (Err e) ≡ Err e }
{}

/// The two passes over a message. The size is the length of the encoding, or 2^32 - 1 where that is more, and the slots go
/// behind those of the cache; where memory ran out the old slots stay in front, and none is consumed. What is written is the
/// encoding, where it has fewer than 2^31 bytes, and its slots are consumed; where memory ran out, a beginning and some slots.
pub fn passes_are_these<T>()
    ensures capped { (n : ℕ) → n < 2 ^ 32 → cap n ≡ n }
    ensures too_long { (n : ℕ) → 2 ^ 32 ≤ n → cap n ≡ 2 ^ 32 - 1 }
    ensures small { (encoded : List ℕ) → IsSmall encoded ↔ (length encoded < 2 ^ 31) }
    ensures appended { (more : List ℕ) (c : Cache) → ((appended more c).slots ≡ c.slots ++ more)
        × ((appended more c).next ≡ c.next) }
    ensures advanced { (n : ℕ) (c : Cache) → ((advanced n c).slots ≡ c.slots) × ((advanced n c).next ≡ c.next + n) }
    ensures next { (slots : List ℕ) (c : Cache) → IsNext slots c ↔ ((rest : List ℕ) × (drop c.next c.slots ≡ slots ++ rest)) }
    ensures sized { (encoded slots : List ℕ) (old new : Cache) (n : ℕ) → IsSized encoded slots old (Ok n) new
        ↔ ((n ≡ cap (length encoded)) × (new ≡ appended slots old)) }
    ensures not_sized { (encoded slots : List ℕ) (old new : Cache) (e : EncodeError) → IsSized encoded slots old (Err e) new
        ↔ ((e ≡ encoding.OutOfMemory) × (more : List ℕ) × (new ≡ appended more old)) }
    ensures written { (encoded slots before after : List ℕ) (old new : Cache) (x : T) →
        IsWritten encoded slots old before (Ok x) new after ↔ ((bs : List ℕ) × (after ≡ before ++ bs)
        × (new ≡ advanced (length slots) old) × (length encoded < 2 ^ 31 → bs ≡ encoded)) }
    ensures not_written { (encoded slots before after : List ℕ) (old new : Cache) (e : EncodeError) →
        IsWritten {T = T} encoded slots old before (Err e) new after ↔ ((bs : List ℕ) × (after ≡ before ++ bs)
        × (e ≡ encoding.OutOfMemory) × (length encoded < 2 ^ 31 → Begins bs encoded) × Consumes slots old new) }
    ensures begins { (bs encoded : List ℕ) → Begins bs encoded ↔ ((rest : List ℕ) × (encoded ≡ bs ++ rest)
        × (0 < length rest)) }
    ensures consumes { (slots : List ℕ) (old new : Cache) → Consumes slots old new
        ↔ ((n : ℕ) × (n ≤ length slots) × (new ≡ advanced n old)) }
{}

/// Why the field after a tag isn't kept, in this order: an end tag; no unknown field is left; its payload's fault. In a group
/// that is the depth, or the fault of the field behind some that are kept.
#[tactic(auto, unfolding(buffa_wire::specs::Parse::GroupRecordsFault))]
pub fn faults_of_records_are_these()
    ensures end { (d s n : ℕ) (bs : List ℕ) (e : DecodeError) → FieldFault d s n wire.EndGroup bs e
        ↔ (e ≡ decoding.InvalidEndGroup n) }
    ensures none_left { (d n : ℕ) (w : WireType) (bs : List ℕ) (e : DecodeError) → w ≢ wire.EndGroup → FieldFault d 0 n w bs e
        ↔ (e ≡ decoding.UnknownFieldLimitExceeded) }
    ensures payload { (d s n : ℕ) (w : WireType) (bs : List ℕ) (e : DecodeError) → w ≢ wire.EndGroup → w ≢ wire.StartGroup →
        0 < s → FieldFault d s n w bs e ↔ PayloadValueFault w bs e }
    ensures group { (d s n : ℕ) (bs : List ℕ) (e : DecodeError) → 0 < s → FieldFault d s n wire.StartGroup bs e
        ↔ GroupRecordsFault d (s - 1) n bs e }
    ensures too_deep { (s n : ℕ) (bs : List ℕ) (e : DecodeError) → GroupRecordsFault 0 s n bs e
        ↔ (e ≡ decoding.RecursionLimitExceeded) }
    ensures within { (d s n : ℕ) (bs : List ℕ) (e : DecodeError) → GroupRecordsFault (suc d) s n bs e
        ↔ ((rs : Records) × (left : ℕ) × (rest : List ℕ) × TakesRecords d s bs rs left rest × (TagFault rest e
        ⊎ ((m : ℕ) × (w : WireType) × (more : List ℕ) × TakesTag rest m w more × (w ≡ wire.EndGroup → m ≡ n → ⊥)
        × FieldFault d left m w more e))) }
    ensures whole { (d s : ℕ) (bs : List ℕ) (e : DecodeError) → RecordsFault d s bs e
        ↔ ((rs : Records) × (left : ℕ) × (rest : List ℕ) × TakesRecords d s bs rs left rest × (0 < length rest)
        × (TagFault rest e ⊎ ((m : ℕ) × (w : WireType) × (more : List ℕ) × TakesTag rest m w more
        × FieldFault d left m w more e))) }
{}

/// Keeping a field takes memory for its bytes, if there are any, and for the fields of a group: where the first of them is
/// kept, or takes memory itself. It takes none where no unknown field is left.
#[tactic(auto, unfolding(buffa_wire::specs::RecordReading::GroupRecordsTakeMemory))]
pub fn memory_is_taken_so()
    ensures none_left { (d : ℕ) (w : WireType) (bs : List ℕ) → RecordTakesMemory d 0 w bs → ⊥ }
    ensures bytes { (d s : ℕ) (bs : List ℕ) → RecordTakesMemory d s wire.LengthDelimited bs
        ↔ ((0 < s) × (b : List ℕ) × (rest : List ℕ) × (delimited_at bs ≡ Ok (b, rest)) × (b ≢ [])) }
    ensures too_deep { (s : ℕ) (bs : List ℕ) → RecordTakesMemory 0 s wire.StartGroup bs → ⊥ }
    ensures group { (d s : ℕ) (bs : List ℕ) → RecordTakesMemory (suc d) s wire.StartGroup bs
        ↔ ((0 < s) × ListTakesMemory d (s - 1) bs) }
    ensures number { (d s : ℕ) (w : WireType) (bs : List ℕ) → w ≢ wire.LengthDelimited → w ≢ wire.StartGroup →
        RecordTakesMemory d s w bs → ⊥ }
    ensures whole { (d s : ℕ) (bs : List ℕ) → ListTakesMemory d s bs ↔ ((t : ℕ × WireType × List ℕ) × (tag_at bs ≡ Ok t)
        × (IsOk (field_at d s t.0 t.1 t.2) ⊎ RecordTakesMemory d s t.1 t.2)) }
{}

/// Merging leaves what the bytes mean, and spends what they need; it is refused where the budget lacks that, and then by any
/// error, or where the bytes mean no value, and then by no limit; or memory ran out. At most the need is spent then.
pub fn merges_are_these<M: Message>()
    ensures limit { (e : DecodeError) → IsLimit e
        ↔ ((e ≡ decoding.UnknownFieldLimitExceeded) ⊎ (e ≡ decoding.ElementMemoryLimitExceeded)) }
    ensures fault { (d : ℕ) (v : M.Meaning) (bs : List ℕ) (charge left : BudgetLeft) (e : DecodeError) →
        MergeFault (M.merged d v bs) charge left e ↔ (Lacks left charge ⊎ ((M.merged d v bs ≡ None) × (IsLimit e → ⊥))) }
    ensures merged { (d : ℕ) (v new : M.Meaning) (bs : List ℕ) (charge before after : BudgetLeft) (x : Unit {0}) →
        IsMerged (M.merged d v bs) charge before (Ok x) new after ↔ ((M.merged d v bs ≡ Some new) × Pays before charge after) }
    ensures not_merged { (d : ℕ) (v new : M.Meaning) (bs : List ℕ) (charge before after : BudgetLeft) (e : DecodeError) →
        IsMerged {T = Unit {0}} (M.merged d v bs) charge before (Err e) new after ↔ (PaysAtMost before charge after
        × (e ≢ decoding.OutOfMemory → MergeFault (M.merged d v bs) charge before e)) }
    ensures alone { (d : ℕ) (v new : M.Meaning) (bs : List ℕ) (charge : BudgetLeft) (x : Unit {0}) →
        IsMergedAlone (M.merged d v bs) charge (Ok x) new ↔ ((M.merged d v bs ≡ Some new) × (Lacks defaults charge → ⊥)) }
    ensures not_alone { (d : ℕ) (v new : M.Meaning) (bs : List ℕ) (charge : BudgetLeft) (e : DecodeError) →
        IsMergedAlone {T = Unit {0}} (M.merged d v bs) charge (Err e) new
        ↔ (e ≢ decoding.OutOfMemory → MergeFault (M.merged d v bs) charge defaults e) }
    ensures bytes { (d : ℕ) (v new : M.Meaning) (bs : List ℕ) (before after : BudgetLeft) (r : Result (Unit {0}) DecodeError) →
        MergesBytes M.merged M.cost d v bs before r new after ↔ IsMerged (M.merged d v bs) (M.cost d bs) before r new after }
    ensures begins { (bs : List ℕ) → BeginsField bs ↔ ((n : ℕ) × (w : WireType) × (rest : List ℕ)
        × (tag_at bs ≡ Ok (n, w, rest)) × (w ≢ wire.EndGroup)) }
{}

/// A tag and a payload mean to a message what its type says of the payload, and cost that.
pub fn fields_mean_their_payloads<M: MessageSpec>()
    ensures means { (d n : ℕ) (w : WireType) (v : M.Meaning) (t p : List ℕ) → IsTag t n w → Payload d n w p →
        M.merged d v (t ++ p) ≡ M.takes d v n w p }
    ensures costs { (d n : ℕ) (w : WireType) (t p : List ℕ) → IsTag t n w → Payload d n w p → M.cost d (t ++ p)
        ≡ M.charge d n w p }
{}

/// A field is taken by its payload: what the type makes of the payload is left, and what the field needs is spent. It is refused
/// where the budget lacks that, or where no payload at the front is taken, and then by no limit; or memory ran out, and not at
/// an end tag.
pub fn fields_are_taken_so<M: MessageSpec>()
    ensures taken { (d n : ℕ) (w : WireType) (v new : M.Meaning) (bs rest : List ℕ) (before after : BudgetLeft) (x : Unit {0}) →
        IsTaken M.takes M.charge d v n w bs before (Ok x) new after rest ↔ ((p : List ℕ) × Payload d n w p × (bs ≡ p ++ rest)
        × (M.takes d v n w p ≡ Some new) × Pays before (M.charge d n w bs) after) }
    ensures refused { (d n : ℕ) (w : WireType) (v new : M.Meaning) (bs rest : List ℕ) (before after : BudgetLeft)
        (e : DecodeError) → IsTaken {T = Unit {0}} M.takes M.charge d v n w bs before (Err e) new after rest
        ↔ (PaysAtMost before (M.charge d n w bs) after
        × (e ≢ decoding.OutOfMemory → Lacks before (M.charge d n w bs)
        ⊎ (Untaken M.takes d v n w bs × (IsLimit e → ⊥)))
        × (e ≡ decoding.OutOfMemory → w ≢ wire.EndGroup)) }
    ensures untaken { (d n : ℕ) (w : WireType) (v : M.Meaning) (bs : List ℕ) → Untaken M.takes d v n w bs
        ↔ ((p rest : List ℕ) → Payload d n w p → bs ≡ p ++ rest → M.takes d v n w p ≡ None) }
    ensures stays { Stays M.charge ↔ ((d n : ℕ) (w : WireType) (p x : List ℕ) → Payload d n w p →
        M.charge d n w (p ++ x) ≡ M.charge d n w p) }
    ensures free { (d n : ℕ) (w : WireType) (bs : List ℕ) → costs_nothing d n w bs ≡ nothing }
{}

/// An encoding reads back as fields: each a tag and a payload, of a number of the message's own, which takes the value further.
pub fn encodings_lead_so<M: MessageSpec>()
    ensures fields { (own : ℕ → Bool) (d : ℕ) (s t : M.Meaning) (encoded : List ℕ) → ReadsBack M.takes own d s encoded t
        ↔ ((fs : List Piece) × (encoded ≡ joined_fields fs) × Leads M.takes own d s fs t) }
    ensures none { (own : ℕ → Bool) (d : ℕ) (s t : M.Meaning) → Leads M.takes own d s [] t ↔ (s ≡ t) }
    ensures more { (own : ℕ → Bool) (d : ℕ) (s t : M.Meaning) (f : Piece) (fs : List Piece) →
        Leads M.takes own d s (f ∷ fs) t ↔ ((own f.number ≡ true) × IsTag f.tag f.number f.wire
        × Payload d f.number f.wire f.payload × (u : M.Meaning) × (M.takes d s f.number f.wire f.payload ≡ Some u)
        × Leads M.takes own d u fs t) }
    ensures none_joined { joined_fields [] ≡ [] }
    ensures joined { (f : Piece) (fs : List Piece) → joined_fields (f ∷ fs) ≡ (f.tag ++ f.payload) ++ joined_fields fs }
{}

/// The same of a field after its tag, whose need is that of the tag and the payload. A refusal speaks of the payload at the
/// front, or where none begins the bytes of all of them.
pub fn merges_of_fields_are_these<M: Message>()
    ensures merged { (d n : ℕ) (w : WireType) (v new : M.Meaning) (bs rest : List ℕ) (before after : BudgetLeft) (x : Unit {0}) →
        IsFieldMerged M.merged M.cost d v n w bs before (Ok x) new after rest ↔ ((p : List ℕ) × Payload d n w p
        × (bs ≡ p ++ rest) × ((t : List ℕ) → IsTag t n w → (M.merged d v (t ++ p) ≡ Some new)
        × Pays before (M.cost d (t ++ p)) after)) }
    ensures not_merged { (d n : ℕ) (w : WireType) (v new : M.Meaning) (bs rest : List ℕ) (before after : BudgetLeft)
        (e : DecodeError) → IsFieldMerged {T = Unit {0}} M.merged M.cost d v n w bs before (Err e) new after rest
        ↔ ((t p : List ℕ) → IsTag t n w → IsJudged d n w bs p → PaysAtMost before (M.cost d (t ++ p)) after
        × (e ≢ decoding.OutOfMemory → MergeFault (M.merged d v (t ++ p)) (M.cost d (t ++ p)) before e)) }
    ensures in_context { (ctx : DecodeContext) (n : ℕ) (w : WireType) (v new : M.Meaning) (bs rest : List ℕ) (after : BudgetLeft)
        (r : Result (Unit {0}) DecodeError) → MergesField M.merged M.cost ctx v n w bs r new after rest
        ↔ IsFieldMerged M.merged M.cost ctx.depth v n w bs ctx.budget.now r new after rest }
    ensures kept_in_context { (ctx : DecodeContext) (n : ℕ) (w : WireType) (bs : List ℕ) → field_in ctx n w bs
        ≡ field_at ctx.depth ctx.budget.now.unknown n w bs }
    ensures judged { (d n : ℕ) (w : WireType) (bs p : List ℕ) → IsJudged d n w bs p
        ↔ (((rest : List ℕ) × Payload d n w p × (bs ≡ p ++ rest))
        ⊎ ((p ≡ bs) × ((rest : List ℕ) → TakesPayload d n w bs rest → ⊥))) }
{}

/// What stands where merging was refused: what the fields at the front made of the value, and they were paid for. Behind them
/// stands no tag, and the error is the tag's fault; or a field that is refused by that error, and there stands what it leaves.
pub fn refused_merges_leave_these<M: Message>()
    ensures partly { (d : ℕ) (old new : M.Meaning) (bs : List ℕ) (before : BudgetLeft) (e : DecodeError) →
        PartlyMerged M.merged M.cost M.Refused d old bs before e new ↔ ((front : List ℕ) × (rest : List ℕ) × (bs ≡ front ++ rest)
        × (0 < length rest) × (mid : M.Meaning) × (M.merged d old front ≡ Some mid)
        × (left : BudgetLeft) × Pays before (M.cost d front) left
        × (((tag_at rest ≡ Err e) × (new ≡ mid))
        ⊎ ((n : ℕ) × (w : WireType) × (more : List ℕ) × (tag_at rest ≡ Ok (n, w, more)) × M.Refused d mid n w more left e new
        × (e ≡ decoding.OutOfMemory → w ≢ wire.EndGroup)
        × ((t p : List ℕ) → IsTag t n w → IsJudged d n w more p → e ≢ decoding.OutOfMemory →
        MergeFault (M.merged d mid (t ++ p)) (M.cost d (t ++ p)) left e)))) }
    ensures unchanged { (d n : ℕ) (w : WireType) (old new : M.Meaning) (bs : List ℕ) (left : BudgetLeft) (e : DecodeError) →
        Unchanged d old n w bs left e new ↔ (new ≡ old) }
    ensures inside { (d : ℕ) (old new : M.Meaning) (bs : List ℕ) (before : BudgetLeft) (e : DecodeError) →
        PartlyMergedInside M.merged M.cost M.Refused d old bs before e new ↔ ((c : ℕ) (b rest : List ℕ) → d ≡ suc c →
        delimited_at bs ≡ Ok (b, rest) → PartlyMerged M.merged M.cost M.Refused c old b before e new
        ⊎ ((e ≡ decoding.OutOfMemory) × (new ≡ old))) }
{}

/// The same of a length and a message, one level deeper, where a level is left.
pub fn merges_inside_are_these<M: Message>()
    ensures means { (d : ℕ) (v : M.Meaning) (b : List ℕ) → merged_in M.merged (suc d) v b ≡ M.merged d v b }
    ensures too_deep { (v : M.Meaning) (b : List ℕ) → merged_in M.merged 0 v b ≡ None }
    ensures costs { (d : ℕ) (b : List ℕ) → cost_in M.cost (suc d) b ≡ M.cost d b }
    ensures no_cost { (b : List ℕ) → cost_in M.cost 0 b ≡ nothing }
    ensures payload { (d : ℕ) (b rest : List ℕ) → cost_of_payload M.cost d (Ok (b, rest)) ≡ cost_in M.cost d b }
    ensures no_payload { (d : ℕ) (e : DecodeError) → cost_of_payload M.cost d (Err e) ≡ nothing }
    ensures merged { (d : ℕ) (v new : M.Meaning) (bs rest : List ℕ) (before after : BudgetLeft) →
        IsInside M.merged M.cost d v bs before new after rest ↔ ((b : List ℕ) × (delimited_at bs ≡ Ok (b, rest))
        × (merged_in M.merged d v b ≡ Some new) × Pays before (cost_in M.cost d b) after) }
    ensures in_context { (ctx : DecodeContext) (v new : M.Meaning) (bs rest : List ℕ) (after : BudgetLeft) →
        MergesInside M.merged M.cost ctx v bs new after rest
        ↔ IsInside M.merged M.cost ctx.depth v bs ctx.budget.now new after rest }
    ensures no_level { (v : M.Meaning) (bs : List ℕ) (left : BudgetLeft) (e : DecodeError) →
        MessageFault M.merged M.cost 0 v bs left e ↔ (e ≡ decoding.RecursionLimitExceeded) }
    ensures fault { (d : ℕ) (v : M.Meaning) (bs : List ℕ) (left : BudgetLeft) (e : DecodeError) →
        MessageFault M.merged M.cost (suc d) v bs left e ↔ ((delimited_at bs ≡ Err e)
        ⊎ ((b : List ℕ) × (rest : List ℕ) × (delimited_at bs ≡ Ok (b, rest))
        × MergeFault (M.merged d v b) (M.cost d b) left e)) }
{}
