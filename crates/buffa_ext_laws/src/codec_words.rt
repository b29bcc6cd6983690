//! What the words say by which codecs are described: each law is a function with nothing to do, whose contract is the law.

ghost use Rattle.std.specs.Prelude.{◌≡◌, ◌≢◌, ◌↔◌, ◌<◌, ◌≤◌, ◌+◌, ◌==◌, ◌⊎◌, ℕ, List, [], ◌∷◌, ◌++◌, if◌then◌else◌};
ghost use Rattle.std.specs.Prelude.{◌^◌, Err, None, Ok, Option, Some, filter, length, map, not, take};
ghost use Rattle.std.specs.Option.{option_map, option_or};
ghost use Rattle.std.specs.Str.{is_utf8};
ghost use Rattle.buffa_bytes.specs.declared.error.DecodeError.{DecodeError};
ghost use Rattle.buffa_bytes.specs.declared.error.DecodeError.TheVariants.{InvalidUtf8, OutOfMemory as NoMemory, WireTypeMismatch};
ghost use Rattle.buffa_bytes.specs.declared.error.EncodeError.{EncodeError};
ghost use Rattle.buffa_bytes.specs.declared.error.EncodeError.TheVariants.{OutOfMemory};
ghost use Rattle.buffa_bytes.specs.declared.wire_type.WireType.{WireType};
ghost use Rattle.buffa_bytes.specs.declared.wire_type.WireType.TheVariants.{Fixed32, Fixed64, LengthDelimited, StartGroup, Varint};
ghost use Rattle.buffa_wire.specs.BudgetLeft.{BudgetLeft, Covers, PaysAtMost, defaults, minus, nothing, plus};
ghost use Rattle.buffa_wire.specs.declared.context.DecodeContext.{DecodeContext};
ghost use Rattle.buffa_ext_laws.specs.Costs.{Costs, StaysWithin, cost_if};
ghost use Rattle.buffa_wire.specs.Encoding.{encodings, wire_of};
ghost use Rattle.buffa_wire.specs.Records.{FieldData, Held, Records, bytes, fixed32, fixed64, group, varint};
ghost use Rattle.buffa_codec.specs.Decoded.{Adds, AddsSome, AddsSomeValues, AddsValues, CoversAll, HasByte, KeepsCapacity};
ghost use Rattle.buffa_codec.specs.Decoded.{ReadsAll, ReadsList, Refuses, UsesVecRoom, bytes_held, elements, first_refusal};
ghost use Rattle.buffa_codec.specs.Decoded.{LaterReadingsWin, LeavesIn, ReadAlike, ReadingsJoin, SpendsIn, one_in, packed_record, string_held};
ghost use Rattle.buffa_codec.specs.Strict.{AreElements, IsFaultOrFull, bytes_fault, number_list_fault, packed_fault};
ghost use Rattle.buffa_codec.specs.Strict.{string_fault, unless_found};
ghost use Rattle.buffa_codec.specs.RecordsOfNumber.{sub, tagged, without};
ghost use Rattle.buffa_ext_laws.specs.MappedReadings.{ListsThrough, ReadsThrough, WritesThrough};

use buffa_codec::codec::{ExtensionCodec, PackableCodec, SingularCodec};
use buffa_codec::last::LastWins;
use buffa_codec::number::Numbered;
use buffa_codec::packed::PackedRepeated;
use buffa_codec::repeated::Repeated;
use buffa_codec::strict::{StrictCodec, StrictElementCodec};
use buffa_wire::Form;

/// The records of a number are those that have it, and what they hold is read in their order; all others are those of other
/// numbers.
pub fn records_of_a_number_are_these()
    ensures held { (n : ℕ) (rs : List (ℕ × FieldData)) → sub n rs ≡ map (λ r. r.1) (filter (λ r. r.0 == n) rs) }
    ensures others { (n : ℕ) (rs : List (ℕ × FieldData)) → without n rs ≡ filter (λ r. not (r.0 == n)) rs }
    ensures put { (n : ℕ) (ds : List FieldData) → tagged n ds ≡ map (λ d. (n, d)) ds }
{}

/// A length-delimited record has bytes, and no other record has any. They are a string where they are UTF-8. A value
/// takes memory where a byte is there.
pub fn bytes_of_a_record_are_these()
    ensures bytes { (b : List ℕ) → bytes_held (bytes b) ≡ Some b }
    ensures no_bytes { (x : ℕ) (rs : Records) → (bytes_held (varint x) ≡ None) × (bytes_held (fixed32 x) ≡ None)
        × (bytes_held (fixed64 x) ≡ None) × (bytes_held (group rs) ≡ None) }
    ensures string { (b : List ℕ) → string_held (bytes b) ≡ (if is_utf8 b then Some b else None) }
    ensures no_string { (x : ℕ) (rs : Records) → (string_held (varint x) ≡ None) × (string_held (fixed32 x) ≡ None)
        × (string_held (fixed64 x) ≡ None) × (string_held (group rs) ≡ None) }
    ensures byte { (b : List ℕ) → HasByte (Some b) ↔ (b ≢ []) }
    ensures no_byte { HasByte None → ⊥ }
{}

/// A list is read of its records one after the other under one default budget, each from what those before it leave. A
/// record that is read as a value is one element; of any other, bytes are packed elements, and the rest is passed over.
pub fn elements_are_these<C: SingularCodec>()
    ensures budget { (ds : List FieldData) (vs : List C.Value.Meaning) → ReadsList (C.one 100) (C.leaves 100) C.packed ds vs
        ↔ ((left : BudgetLeft) × ReadsAll (C.one 100) (C.leaves 100) C.packed defaults ds vs left) }
    ensures end { (b left : BudgetLeft) (vs : List C.Value.Meaning) →
        ReadsAll (C.one 100) (C.leaves 100) C.packed b [] vs left ↔ ((vs ≡ []) × (left ≡ b)) }
    ensures next { (b left : BudgetLeft) (d : FieldData) (ds : List FieldData) (vs : List C.Value.Meaning) →
        ReadsAll (C.one 100) (C.leaves 100) C.packed b (d ∷ ds) vs left
        ↔ ((mid : BudgetLeft) × (more : List C.Value.Meaning) × C.leaves 100 b d mid
        × ReadsAll (C.one 100) (C.leaves 100) C.packed mid ds more left × (vs ≡ elements C.packed d (C.one 100 b d) ++ more)) }
    ensures value { (d : FieldData) (v : C.Value.Meaning) → elements C.packed d (Some v) ≡ v ∷ [] }
    ensures packed { (b : List ℕ) → elements C.packed (bytes b) None ≡ C.packed b }
    ensures others { (x : ℕ) (rs : Records) → (elements C.packed (varint x) None ≡ [])
        × (elements C.packed (fixed32 x) None ≡ []) × (elements C.packed (fixed64 x) None ≡ [])
        × (elements C.packed (group rs) None ≡ []) }
{}

/// A packed list is one record, which holds the encodings of its values one after the other, and no record where there
/// is no value. A list is refused for its first value that is refused at all; and records are covered where the cost
/// of each is, by what those before it leave.
pub fn lists_are_written_so<C: SingularCodec, P: PackableCodec>()
    ensures no_values { packed_record P.packed_encoding [] ≡ [] }
    ensures values { (v : P.Value.Meaning) (vs : List P.Value.Meaning) → packed_record P.packed_encoding (v ∷ vs)
        ≡ bytes (encodings P.packed_encoding (v ∷ vs)) ∷ [] }
    ensures joined { (v : P.Value.Meaning) (vs : List P.Value.Meaning) →
        (encodings P.packed_encoding [] ≡ [])
        × (encodings P.packed_encoding (v ∷ vs) ≡ P.packed_encoding v ++ encodings P.packed_encoding vs) }
    ensures unrefused { first_refusal C.refusal [] ≡ None }
    ensures refused { (v : C.Value.Meaning) (vs : List C.Value.Meaning) (e : EncodeError) → C.refusal v ≡ Some e →
        first_refusal C.refusal (v ∷ vs) ≡ Some e }
    ensures later { (v : C.Value.Meaning) (vs : List C.Value.Meaning) → C.refusal v ≡ None →
        first_refusal C.refusal (v ∷ vs) ≡ first_refusal C.refusal vs }
    ensures free { (b : BudgetLeft) → CoversAll C.cost b [] }
    ensures covered { (b : BudgetLeft) (d : FieldData) (ds : List FieldData) → CoversAll C.cost b (d ∷ ds)
        ↔ (Covers b (C.cost d) × CoversAll C.cost (minus b (C.cost d)) ds) }
{}

/// What is written stands behind what was there, and what is refused leaves a beginning that isn't all. A value is
/// refused for its own reason, or for want of memory; and no spare capacity is lost.
pub fn additions_are_these<C: SingularCodec, T, E>()
    ensures all { (old more new : List (ℕ × FieldData)) → Adds old more new ↔ (new ≡ old ++ more) }
    ensures some { (old more new : List (ℕ × FieldData)) → AddsSome old more new
        ↔ ((k : ℕ) × (k < length more) × (new ≡ old ++ take k more)) }
    ensures values { (old new : List C.Value) (more : List C.Value.Meaning) → AddsValues C.Value.meaning old more new
        ↔ (map C.Value.meaning new ≡ map C.Value.meaning old ++ more) }
    ensures some_values { (old new : List C.Value) (more : List C.Value.Meaning) →
        AddsSomeValues C.Value.meaning old more new
        ↔ ((k : ℕ) × (k < length more) × (map C.Value.meaning new ≡ map C.Value.meaning old ++ take k more)) }
    ensures written { (x : T) (why : Option EncodeError) → Refuses (Ok x) why ↔ (why ≡ None) }
    ensures refused { (e : EncodeError) (why : Option EncodeError) → Refuses {T = T} (Err e) why
        ↔ ((e ≡ OutOfMemory) ⊎ (why ≡ Some e)) }
    ensures capacity { (old new : Held) → KeepsCapacity old new
        ↔ (length old.records + old.spare ≤ length new.records + new.spare) }
    ensures room { (x : T) (room left : ℕ) (more : List C.Value.Meaning) →
        UsesVecRoom {T = T} {E = E} (Ok x) room more left ↔ (room ≤ left + length more) }
    ensures no_room { (e : E) (room left : ℕ) (more : List C.Value.Meaning) →
        UsesVecRoom {T = T} {E = E} (Err e) room more left ↔ (room < length more) }
{}

/// The fault of a record of a number is that it has another wire type, and which it has and which is read; of a string
/// also that its bytes are no UTF-8; and of a list of numbers that of its packed bytes.
pub fn faults_of_a_record_are_these<N: Numbered>()
    ensures found { (w : WireType) (n x : ℕ) (d : FieldData) → unless_found (Some x) w n d ≡ None }
    ensures other { (w : WireType) (n : ℕ) (d : FieldData) → unless_found {A = ℕ} None w n d
        ≡ Some (WireTypeMismatch n w (wire_of d)) }
    ensures wire_type { (x : ℕ) (b : List ℕ) (rs : Records) → (wire_of (varint x) ≡ Varint)
        × (wire_of (fixed32 x) ≡ Fixed32) × (wire_of (fixed64 x) ≡ Fixed64) × (wire_of (bytes b) ≡ LengthDelimited)
        × (wire_of (group rs) ≡ StartGroup) }
    ensures bytes { (n x : ℕ) (b : List ℕ) (rs : Records) → (bytes_fault n (bytes b) ≡ None)
        × (bytes_fault n (varint x) ≡ Some (WireTypeMismatch n LengthDelimited Varint))
        × (bytes_fault n (fixed32 x) ≡ Some (WireTypeMismatch n LengthDelimited Fixed32))
        × (bytes_fault n (fixed64 x) ≡ Some (WireTypeMismatch n LengthDelimited Fixed64))
        × (bytes_fault n (group rs) ≡ Some (WireTypeMismatch n LengthDelimited StartGroup)) }
    ensures string { (n : ℕ) (b : List ℕ) → string_fault n (bytes b) ≡ (if is_utf8 b then None else Some InvalidUtf8) }
    ensures no_string { (n x : ℕ) (rs : Records) →
        (string_fault n (varint x) ≡ Some (WireTypeMismatch n LengthDelimited Varint))
        × (string_fault n (fixed32 x) ≡ Some (WireTypeMismatch n LengthDelimited Fixed32))
        × (string_fault n (fixed64 x) ≡ Some (WireTypeMismatch n LengthDelimited Fixed64))
        × (string_fault n (group rs) ≡ Some (WireTypeMismatch n LengthDelimited StartGroup)) }
    ensures packed { (n : ℕ) (b : List ℕ) → number_list_fault N.Form.found N.Form.WIRE_TYPE n (bytes b)
        ≡ packed_fault N.Form.WIRE_TYPE b }
    ensures number { (n x : ℕ) (rs : Records) →
        (number_list_fault N.Form.found N.Form.WIRE_TYPE n (varint x)
        ≡ unless_found (N.Form.found (varint x)) N.Form.WIRE_TYPE n (varint x))
        × (number_list_fault N.Form.found N.Form.WIRE_TYPE n (fixed32 x)
        ≡ unless_found (N.Form.found (fixed32 x)) N.Form.WIRE_TYPE n (fixed32 x))
        × (number_list_fault N.Form.found N.Form.WIRE_TYPE n (fixed64 x)
        ≡ unless_found (N.Form.found (fixed64 x)) N.Form.WIRE_TYPE n (fixed64 x))
        × (number_list_fault N.Form.found N.Form.WIRE_TYPE n (group rs)
        ≡ unless_found (N.Form.found (group rs)) N.Form.WIRE_TYPE n (group rs)) }
{}

/// A strict reading is refused for a fault, or for want of memory where its records take some. The records of a list
/// are elements one after the other, each by what those before it leave.
pub fn strict_refusals_are_these<C: StrictCodec, E: StrictElementCodec>()
    ensures refused { (n : ℕ) (ds : List FieldData) (e : DecodeError) → IsFaultOrFull (C.HasFault n ds) (C.asks ds) e
        ↔ (C.HasFault n ds e ⊎ ((e ≡ NoMemory) × C.asks ds)) }
    ensures end { (n : ℕ) (b left : BudgetLeft) → AreElements (E.IsElement n) (E.leaves 100) b [] left ↔ (left ≡ b) }
    ensures next { (n : ℕ) (b left : BudgetLeft) (d : FieldData) (ds : List FieldData) →
        AreElements (E.IsElement n) (E.leaves 100) b (d ∷ ds) left
        ↔ ((mid : BudgetLeft) × E.IsElement n b d × E.leaves 100 b d mid
        × AreElements (E.IsElement n) (E.leaves 100) mid ds left) }
{}

/// What a record is read as in a context, and what that leaves and spends of its budget, is what the codec says of it at the
/// context's depth, and of what its budget has left.
pub fn readings_in_contexts_are_these<C: SingularCodec>()
    ensures read { (ctx : DecodeContext) (d : FieldData) → one_in C.one ctx d ≡ C.one ctx.depth ctx.budget.now d }
    ensures left { (ctx : DecodeContext) (d : FieldData) (left : BudgetLeft) → LeavesIn C.leaves ctx d left
        ↔ C.leaves ctx.depth ctx.budget.now d left }
    ensures spent { (ctx : DecodeContext) (d : FieldData) (left : BudgetLeft) → SpendsIn C.most ctx d left
        ↔ PaysAtMost ctx.budget.now (C.most ctx.depth d) left }
{}

/// What the records of a list cost together that are read as values, each from what those before it leave; any other record costs
/// nothing. They stay within a budget where that is no more than the default budgets have: 1,000,000 and 2^28.
pub fn costs_are_these<C: SingularCodec>()
    ensures end { (b total : BudgetLeft) → Costs (C.one 100) (C.leaves 100) C.cost b [] total ↔ (total ≡ nothing) }
    ensures next { (b total : BudgetLeft) (d : FieldData) (ds : List FieldData) →
        Costs (C.one 100) (C.leaves 100) C.cost b (d ∷ ds) total ↔ ((mid : BudgetLeft) × (rest : BudgetLeft) × C.leaves 100 b d mid
        × Costs (C.one 100) (C.leaves 100) C.cost mid ds rest × (total ≡ plus (cost_if (C.cost d) (C.one 100 b d)) rest)) }
    ensures value { (cost : BudgetLeft) (v : C.Value.Meaning) → cost_if cost (Some v) ≡ cost }
    ensures no_value { (cost : BudgetLeft) → cost_if {M = C.Value.Meaning} cost None ≡ nothing }
    ensures within { StaysWithin (C.one 100) (C.leaves 100) C.cost ↔ ((ds : List FieldData) (total : BudgetLeft) →
        Costs (C.one 100) (C.leaves 100) C.cost defaults ds total → (total.unknown ≤ 1000000) × (total.memory ≤ 2 ^ 28)) }
{}

/// What the laws of readings say: of joined records; and of a codec that reads and writes by way of another one, each value turned
/// into one of the other's.
pub fn laws_of_readings_are_these<C: LastWins, D: LastWins, P: PackableCodec>()
    ensures later { LaterReadingsWin ⟦<C as ExtensionCodec>⟧.reads
        ↔ ((s r : List FieldData) (o : Option C.Value.Meaning) → ⟦<C as ExtensionCodec>⟧.reads (s ++ r) o
        ↔ ((p : Option C.Value.Meaning) × (q : Option C.Value.Meaning) × ⟦<C as ExtensionCodec>⟧.reads s p
        × ⟦<C as ExtensionCodec>⟧.reads r q × (o ≡ option_or q p))) }
    ensures joined { ReadingsJoin ⟦<Repeated<C> as ExtensionCodec>⟧.reads
        ↔ ((s r : List FieldData) (out : List C.Value.Meaning) → ⟦<Repeated<C> as ExtensionCodec>⟧.reads (s ++ r) out
        ↔ ((vs : List C.Value.Meaning) × (ws : List C.Value.Meaning) × ⟦<Repeated<C> as ExtensionCodec>⟧.reads s vs
        × ⟦<Repeated<C> as ExtensionCodec>⟧.reads r ws × (out ≡ vs ++ ws))) }
    ensures alike { ReadAlike ⟦<Repeated<P> as ExtensionCodec>⟧.reads ⟦<PackedRepeated<P> as ExtensionCodec>⟧.reads
        ↔ ((s : List FieldData) (out : List P.Value.Meaning) → ⟦<Repeated<P> as ExtensionCodec>⟧.reads s out
        ↔ ⟦<PackedRepeated<P> as ExtensionCodec>⟧.reads s out) }
    ensures value { (f : C.Value.Meaning → D.Value.Meaning) →
        ReadsThrough f ⟦<C as ExtensionCodec>⟧.reads ⟦<D as ExtensionCodec>⟧.reads
        ↔ ((ds : List FieldData) (out : Option D.Value.Meaning) → ⟦<D as ExtensionCodec>⟧.reads ds out
        ↔ ((m : Option C.Value.Meaning) × ⟦<C as ExtensionCodec>⟧.reads ds m × (out ≡ option_map f m))) }
    ensures list { (f : C.Value.Meaning → D.Value.Meaning) →
        ListsThrough f ⟦<Repeated<C> as ExtensionCodec>⟧.reads ⟦<Repeated<D> as ExtensionCodec>⟧.reads
        ↔ ((ds : List FieldData) (out : List D.Value.Meaning) → ⟦<Repeated<D> as ExtensionCodec>⟧.reads ds out
        ↔ ((ms : List C.Value.Meaning) × ⟦<Repeated<C> as ExtensionCodec>⟧.reads ds ms × (out ≡ map f ms))) }
    ensures written { (f : D.Value.Meaning → C.Value.Meaning) →
        WritesThrough f ⟦<C as ExtensionCodec>⟧.extension_data ⟦<D as ExtensionCodec>⟧.extension_data
        ↔ ((v : D.Value.Meaning) → ⟦<D as ExtensionCodec>⟧.extension_data v ≡ ⟦<C as ExtensionCodec>⟧.extension_data (f v)) }
{}
