//! What the words mean by which contracts of entries, runs and rewrites of map fields are written, in the words of the encoding
//! guide, of lists and of numbers. Each law is a function with nothing to do, whose contract is the law.

ghost use Rattle.std.specs.Prelude.{◌≡◌, ◌≢◌, ◌↔◌, ◌⊎◌, ◌+◌, ◌*◌, ◌-◌, ◌^◌, ◌<◌, ◌≤◌, ℕ, Bool, true, false, cond, if◌then◌else◌};
ghost use Rattle.std.specs.Prelude.{List, [], ◌∷◌, ◌++◌, length, map, Result, Ok, Err, IsOk};
ghost use Rattle.buffa_bytes.specs.ErrorText.{decode_error_text, encode_error_text};
ghost use Rattle.buffa_bytes.specs.Field.{IsTag, LengthFault, PayloadFault, TagFault, TakesTag};
ghost use Rattle.buffa_bytes.specs.Readings.{delimited_at};
ghost use Rattle.buffa_bytes.specs.Number.{wire_number};
ghost use Rattle.buffa_bytes.specs.Unread.{past_no_tag};
ghost use Rattle.buffa_bytes.specs.Varint.{IsVarint};
ghost use Rattle.buffa_bytes.specs.declared.error.DecodeError.{DecodeError};
ghost use Rattle.buffa_bytes.specs.declared.error.DecodeError.TheVariants.{ElementMemoryLimitExceeded, OutOfMemory};
ghost use Rattle.buffa_bytes.specs.declared.error.DecodeError.TheVariants.{UnexpectedField, UnknownFieldLimitExceeded};
ghost use Rattle.buffa_bytes.specs.declared.error.DecodeError.TheVariants.{WireTypeMismatch};
ghost use Rattle.buffa_bytes.specs.declared.error.EncodeError.{EncodeError};
ghost use Rattle.buffa_bytes.specs.declared.error.EncodeError.TheVariants as encoding;
ghost use Rattle.buffa_bytes.specs.declared.wire_type.WireType.{WireType};
ghost use Rattle.buffa_bytes.specs.declared.wire_type.WireType.TheVariants.{LengthDelimited};
ghost use Rattle.buffa_wire.specs.BudgetLeft.{BudgetLeft, Lacks, Pays, PaysAtMost, nothing, plus, unknown_fields};
ghost use Rattle.buffa_wire.specs.Cache.{Cache, advanced};
ghost use Rattle.buffa_wire.specs.Encoding.{records_encoding};
ghost use Rattle.buffa_wire.specs.Passes.{Begins, Consumes};
ghost use Rattle.buffa_wire.specs.Records.{FieldData, bytes};
ghost use Rattle.buffa_map.specs.Codec.{HoldsNothing, IsWhole, ReadingTakesMemory, RefusesValue, Spends};
ghost use Rattle.buffa_map.specs.Encoding.{AllHold, HasEncoding, entry_encoding, field_encoding, saturated};
ghost use Rattle.buffa_map.specs.Entry.{EntryFault, FaultOf, IsEntry, EntryFieldsTakeMemory};
ghost use Rattle.buffa_map.specs.EntryReading.{charge_of};
ghost use Rattle.buffa_map.specs.Merge.{MergesEntry, ReadsRun, RefusesEntry, RefusesRun, State, rules, state};
ghost use Rattle.buffa_map.specs.MessageField.{IsFieldWritten, IsSmallField, field_slots};
ghost use Rattle.buffa_map.specs.Pairs.{ListsOnce, SamePairs, put};
ghost use Rattle.buffa_map.specs.Rewrite.{ForEntriesOf, RefusesEncoding, RewritesRun, StopsRewrite, field_writing, rewrite_encoding, rewrite_error_text};
ghost use Rattle.buffa_map.specs.Run.{ArePaid, EntryRecord, Run, RunFault, fold_entries, cost_inside, undeclared};
ghost use Rattle.buffa_map.specs.Run.{undeclared_record};
ghost use Rattle.buffa_map.specs.Scalars.{delimited_writing, int32_reading, int32_writing, text_reading, text_writing};
ghost use Rattle.buffa_map.specs.Enums.{closed_writing};
ghost use Rattle.buffa_map.specs.declared.rewrite.RewriteError.TheVariants as refusal;
ghost use Rattle.buffa_map.specs.declared.codec.MapValueDecodeStatus.{MapValueDecodeStatus};
ghost use Rattle.buffa_map.specs.declared.map_entry.MapEntry.{MapEntry};

use buffa_map::map_codec::{ClosedEnum, Int32, MapCodec, MapStorage, MapValueDecode, Msg, Str};
use buffa_wire::{Enumeration, Message, MessageSpec};

/// By which rules the calls read entries: the readings of the two codecs, the storage's equality and whether it keeps the
/// order, the depth, the field's number, the units of a key and of a value together, and whether what is undeclared is kept.
/// A state is the pairs, the records and what is left of the budget.
pub fn rules_are_these<KC: MapValueDecode, VC: MapValueDecode>()
    ensures rules { (a b d n : ℕ) (same : KC.Value.Meaning → KC.Value.Meaning → Bool) (ordered keeps : Bool) →
        rules (KC.reading, a) (VC.reading, b) (same, ordered) d n keeps ≡ record {
          key = KC.reading;
          val = VC.reading;
          same = same;
          keeps_order = ordered;
          depth = d;
          number = n;
          cost = a + b;
          keeps_undeclared = keeps;
        } }
    ensures state { (pairs : List (KC.Value.Meaning × VC.Value.Meaning)) (records : List (ℕ × FieldData)) (left : BudgetLeft) →
        state pairs records left ≡ record { pairs = pairs; records = records; left = left } }
{}

/// The record of an undeclared entry is its bytes, under the field's number. A refused rewrite prints the error that it holds.
pub fn records_and_texts_are_these()
    ensures declared { (n : ℕ) (e : List ℕ) → undeclared_record n e true ≡ [] }
    ensures undeclared { (n : ℕ) (e : List ℕ) → undeclared_record n e false ≡ (n, bytes e) ∷ [] }
    ensures bytes_refused { (f : DecodeError) → rewrite_error_text (refusal.Decode f) ≡ decode_error_text f }
    ensures encoding_refused { (e : EncodeError) → rewrite_error_text (refusal.Encode e) ≡ encode_error_text e }
{}

/// The readings and the writings that have names of their own are those of the codecs `Str`, `Int32` and `ClosedEnum`.
pub fn named_readings_are_these<E: Enumeration>()
    ensures text { (text_reading ≡ ⟦<Str as MapValueDecode>⟧.reading) × (text_writing ≡ ⟦<Str as MapCodec>⟧.writing) }
    ensures int32 { (int32_reading ≡ ⟦<Int32 as MapValueDecode>⟧.reading)
        × (int32_writing ≡ ⟦<Int32 as MapCodec>⟧.writing) }
    ensures closed { closed_writing ≡ ⟦<ClosedEnum<E> as MapCodec>⟧.writing }
{}

/// What a codec spends of a budget: nothing where its payloads are no messages; and of messages exactly what the payload needs, or on a
/// refusal at most that.
pub fn codecs_spend_so()
    ensures plain { (r : Result MapValueDecodeStatus DecodeError) (left charge over : BudgetLeft) →
        Spends false r left charge over ↔ (over ≡ left) }
    ensures merged { (s : MapValueDecodeStatus) (left charge over : BudgetLeft) →
        Spends true (Ok s) left charge over ↔ Pays left charge over }
    ensures refused { (f : DecodeError) (left charge over : BudgetLeft) →
        Spends {T = MapValueDecodeStatus} true (Err f) left charge over ↔ PaysAtMost left charge over }
{}

/// The codec of messages takes memory only where a level is left, and a length and so many bytes are there; and it takes none
/// for a message of no bytes.
pub fn messages_take_memory_so<M: Message>()
    ensures takes { (d : ℕ) (bs : List ℕ) → ReadingTakesMemory ⟦<Msg<M> as MapValueDecode>⟧.reading d bs
        ↔ ((0 < d) × IsOk (delimited_at bs)) }
    ensures whole { (d : ℕ) (bs : List ℕ) → IsWhole ⟦<Msg<M> as MapValueDecode>⟧.reading d bs
        ↔ ((0 < d) × IsOk (delimited_at bs)) }
    ensures empty { (d : ℕ) (bs : List ℕ) → HoldsNothing ⟦<Msg<M> as MapValueDecode>⟧.reading d bs
        ↔ ((0 < d) × (rest : List ℕ) × (delimited_at bs ≡ Ok ([], rest))) }
{}

/// Memory runs out in an entry only at a field of the key or of the value whose codec takes some, behind some fields that are an
/// entry.
pub fn fields_of_entries_take_memory_so<KC: MapValueDecode, VC: MapValueDecode>()
    ensures { (d : ℕ) (e : List ℕ) → EntryFieldsTakeMemory KC.reading VC.reading d e →
        (front : List ℕ) × (more : List ℕ) × (s : MapEntry KC.Value.Meaning VC.Value.Meaning) × (e ≡ front ++ more)
        × IsEntry KC.reading VC.reading d front s
        × (((p : List ℕ) × TakesTag more 1 KC.reading.wire p × ReadingTakesMemory KC.reading d p)
        ⊎ ((p : List ℕ) × TakesTag more 2 VC.reading.wire p × ReadingTakesMemory VC.reading d p)) }
{}

/// A merged entry was there: a length and so many bytes, which are an entry. What it needs was left, and is spent, and an unknown
/// field where it is kept. It is put where it is declared, and else kept as a record of the field's number, or dropped.
pub fn merged_entries_are_these<KC: MapValueDecode, VC: MapValueDecode>()
    ensures { (a b d n : ℕ) (same : KC.Value.Meaning → KC.Value.Meaning → Bool) (ordered keeps : Bool)
        (old new : State KC.Value.Meaning VC.Value.Meaning) (bs rest : List ℕ) →
        MergesEntry (rules (KC.reading, a) (VC.reading, b) (same, ordered) d n keeps) old bs new rest →
        (e : List ℕ) × (s : MapEntry KC.Value.Meaning VC.Value.Meaning)
        × ((t : List ℕ) × IsVarint t (length e) × (bs ≡ t ++ (e ++ rest)) × IsEntry KC.reading VC.reading d e s)
        × Pays old.left (plus (charge_of KC.reading VC.reading d (a + b) e)
        (unknown_fields (cond s.known 0 (if keeps then 1 else 0)))) new.left
        × SamePairs same (cond s.known (put same old.pairs s.key s.value) old.pairs) new.pairs
        × (ordered ≡ true → new.pairs ≡ cond s.known (put same old.pairs s.key s.value) old.pairs)
        × (new.records ≡ old.records ++ (if keeps then cond s.known [] ((n, bytes e) ∷ []) else [])) }
{}

/// Memory aside, a refused entry is refused for its first fault, also where its values are messages: of its length; its units
/// aren't left; what the messages in it cost isn't; of its fields; or it is undeclared, and no unknown field is left to keep it.
pub fn refused_entries_are_these<KC: MapValueDecode, VC: MapValueDecode>()
    ensures refused { (a b d n : ℕ) (same : KC.Value.Meaning → KC.Value.Meaning → Bool) (ordered keeps : Bool)
        (old new : State KC.Value.Meaning VC.Value.Meaning) (bs tail : List ℕ) (f : DecodeError) →
        RefusesEntry (rules (KC.reading, a) (VC.reading, b) (same, ordered) d n keeps) old bs new tail f → f ≢ OutOfMemory →
        EntryFault KC.reading VC.reading d (a + b) (if keeps then 1 else 0) old.left bs f }
    ensures fault { (d cost more : ℕ) (left : BudgetLeft) (bs : List ℕ) (f : DecodeError) →
        EntryFault KC.reading VC.reading d cost more left bs f ↔ (LengthFault bs f
        ⊎ ((t : List ℕ) × (e : List ℕ) × (rest : List ℕ) × IsVarint t (length e) × (bs ≡ t ++ (e ++ rest))
        × (((left.memory < cost) × (f ≡ ElementMemoryLimitExceeded))
        ⊎ ((cost ≤ left.memory) × (Lacks left (charge_of KC.reading VC.reading d cost e) ⊎ (FaultOf KC.reading VC.reading d e f
        ⊎ ((s : MapEntry KC.Value.Meaning VC.Value.Meaning) × IsEntry KC.reading VC.reading d e s × (s.known ≡ false)
        × (left.unknown < (charge_of KC.reading VC.reading d cost e).unknown + more) × (f ≡ UnknownFieldLimitExceeded)))))))) }
{}

/// The fault of an entry is that of what follows some fields that are an entry: of its tag; of a key or a value of another wire
/// type; what the codec tells of its payload, whatever is left of a budget; or that of the payload of another field. So a
/// message that is a level too deep, or longer than the bytes, is told as that.
pub fn faults_of_entries_are_these<KC: MapValueDecode, VC: MapValueDecode>()
    ensures { (d : ℕ) (e : List ℕ) (f : DecodeError) → FaultOf KC.reading VC.reading d e f →
        (front : List ℕ) × (more : List ℕ) × (s : MapEntry KC.Value.Meaning VC.Value.Meaning) × (e ≡ front ++ more)
        × IsEntry KC.reading VC.reading d front s × (more ≢ [])
        × (TagFault more f
        ⊎ (((w : WireType) × (p : List ℕ) × TakesTag more 1 w p
        × (((w ≢ KC.reading.wire) × (f ≡ WireTypeMismatch 1 KC.reading.wire w)) ⊎ ((w ≡ KC.reading.wire)
        × ((left : BudgetLeft) → RefusesValue KC.reading.nested KC.reading d s.key p left f))))
        ⊎ (((w : WireType) × (p : List ℕ) × TakesTag more 2 w p
        × (((w ≢ VC.reading.wire) × (f ≡ WireTypeMismatch 2 VC.reading.wire w)) ⊎ ((w ≡ VC.reading.wire)
        × ((left : BudgetLeft) → RefusesValue VC.reading.nested VC.reading d s.value p left f))))
        ⊎ ((n : ℕ) × (w : WireType) × (p : List ℕ) × (n ≢ 1) × (n ≢ 2) × TakesTag more n w p × PayloadFault d n w p f)))) }
{}

/// A run is a record for each entry, one behind the other: a tag of the field's number, a length, and the entry. It costs the
/// units of each entry, what the messages in each cost, and for each that is kept unknown fields.
pub fn runs_are_these<KC: MapValueDecode, VC: MapValueDecode>()
    ensures none { (d n : ℕ) (bs : List ℕ) → Run KC.reading VC.reading d n bs [] ↔ (bs ≡ []) }
    ensures more { (d n : ℕ) (bs : List ℕ) (x : EntryRecord KC.Value.Meaning VC.Value.Meaning)
        (xs : List (EntryRecord KC.Value.Meaning VC.Value.Meaning)) → Run KC.reading VC.reading d n bs (x ∷ xs)
        ↔ ((r : List ℕ) × (rest : List ℕ) × ((t : List ℕ) × (l : List ℕ) × IsTag t n LengthDelimited
        × IsVarint l (length x.bytes) × (r ≡ t ++ (l ++ x.bytes)) × IsEntry KC.reading VC.reading d x.bytes x.parts)
        × (bs ≡ r ++ rest) × Run KC.reading VC.reading d n rest xs) }
    ensures paid { (d cost more : ℕ) (left after : BudgetLeft) (xs : List (EntryRecord KC.Value.Meaning VC.Value.Meaning)) →
        ArePaid KC.reading VC.reading d cost more left xs after
        ↔ ((after.memory + (length xs * cost + (cost_inside KC.reading VC.reading d xs).memory) ≡ left.memory)
        × (after.unknown + (length (undeclared xs) * more + (cost_inside KC.reading VC.reading d xs).unknown)
        ≡ left.unknown)) }
    ensures no_charges { (d : ℕ) → cost_inside KC.reading VC.reading d [] ≡ nothing }
    ensures needs { (d : ℕ) (x : EntryRecord KC.Value.Meaning VC.Value.Meaning)
        (xs : List (EntryRecord KC.Value.Meaning VC.Value.Meaning)) → cost_inside KC.reading VC.reading d (x ∷ xs)
        ≡ plus (charge_of KC.reading VC.reading d 0 x.bytes) (cost_inside KC.reading VC.reading d xs) }
{}

/// Why bytes are no run: behind some records, which are paid, comes no tag, or one of another number or wire type; or an entry that is
/// refused.
pub fn faults_of_runs_are_these<KC: MapValueDecode, VC: MapValueDecode>()
    ensures { (d n cost more : ℕ) (left : BudgetLeft) (bs : List ℕ) (f : DecodeError) →
        RunFault KC.reading VC.reading d n cost more left bs f
        ↔ ((es : List (EntryRecord KC.Value.Meaning VC.Value.Meaning)) × (rest : List ℕ) × (over : BudgetLeft)
        × ((front : List ℕ) × (bs ≡ front ++ rest) × Run KC.reading VC.reading d n front es
        × ArePaid KC.reading VC.reading d cost more left es over) × (rest ≢ [])
        × (TagFault rest f
        ⊎ (((g : ℕ) × (w : WireType) × (mid : List ℕ) × TakesTag rest g w mid × (g ≢ n) × (f ≡ UnexpectedField g))
        ⊎ (((w : WireType) × (mid : List ℕ) × TakesTag rest n w mid × (w ≢ LengthDelimited)
        × (f ≡ WireTypeMismatch n LengthDelimited w))
        ⊎ ((mid : List ℕ) × TakesTag rest n LengthDelimited mid
        × EntryFault KC.reading VC.reading d cost more over mid f))))) }
{}

/// A run that was read is all of the bytes: its declared entries are put, one after the other, each undeclared one is kept as a
/// record, or dropped, and all are paid. One that was refused, for whatever error, was read up to a record that has no tag of
/// the field, or whose entry is refused.
pub fn runs_are_read_so<KC: MapValueDecode, VC: MapValueDecode>()
    ensures read { (a b d n : ℕ) (same : KC.Value.Meaning → KC.Value.Meaning → Bool) (ordered keeps : Bool)
        (old new : State KC.Value.Meaning VC.Value.Meaning) (bs rest : List ℕ) →
        ReadsRun (rules (KC.reading, a) (VC.reading, b) (same, ordered) d n keeps) old bs new rest →
        (es : List (EntryRecord KC.Value.Meaning VC.Value.Meaning)) × Run KC.reading VC.reading d n bs es
        × SamePairs same (fold_entries same old.pairs es) new.pairs
        × (ordered ≡ true → new.pairs ≡ fold_entries same old.pairs es)
        × (new.records ≡ old.records ++ (if keeps then map (λ e. (n, bytes e)) (undeclared es) else []))
        × ArePaid KC.reading VC.reading d (a + b) (if keeps then 1 else 0) old.left es new.left × (rest ≡ []) }
    ensures refused { (a b d n : ℕ) (same : KC.Value.Meaning → KC.Value.Meaning → Bool) (ordered keeps : Bool)
        (old new : State KC.Value.Meaning VC.Value.Meaning) (bs tail : List ℕ) (f : DecodeError) →
        RefusesRun (rules (KC.reading, a) (VC.reading, b) (same, ordered) d n keeps) old bs new tail f →
        (front : List ℕ) × (more : List ℕ) × (now : State KC.Value.Meaning VC.Value.Meaning) × (bs ≡ front ++ more) × (more ≢ [])
        × ReadsRun (rules (KC.reading, a) (VC.reading, b) (same, ordered) d n keeps) old front now []
        × ((((TagFault more f × (tail ≡ past_no_tag more))
        ⊎ ((g : ℕ) × (w : WireType) × TakesTag more g w tail × (((g ≢ n) × (f ≡ UnexpectedField g))
        ⊎ ((g ≡ n) × (w ≢ LengthDelimited) × (f ≡ WireTypeMismatch n LengthDelimited w))))) × (new ≡ now))
        ⊎ ((mid : List ℕ) × TakesTag more n LengthDelimited mid
        × RefusesEntry (rules (KC.reading, a) (VC.reading, b) (same, ordered) d n keeps) now mid new tail f)) }
{}

/// An entry is written as a tag of one byte and the key, and a tag of one byte and the value. A size is the number of bytes, or
/// 2^64 - 1 where that is more.
pub fn entries_are_written_so<KC: MapCodec, VC: MapCodec>()
    ensures entry { (p : KC.Value.Meaning × VC.Value.Meaning) → entry_encoding KC.writing VC.writing p
        ≡ ((8 + wire_number KC.writing.wire) ∷ KC.writing.encoding p.0)
        ++ ((16 + wire_number VC.writing.wire) ∷ VC.writing.encoding p.1) }
    ensures size { (n : ℕ) → n < 2 ^ 64 → saturated n ≡ n }
    ensures too_long { (n : ℕ) → 2 ^ 64 ≤ n → saturated n ≡ 2 ^ 64 - 1 }
{}

/// A field of messages is written behind what the sink has, and its slots are consumed; where memory ran out, a beginning of it,
/// and some of the slots.
pub fn fields_of_messages_are_written_so<KC: MapCodec, M: MessageSpec>()
    ensures written { (n : ℕ) (l : List (KC.Value.Meaning × M.Meaning)) (old new : Cache) (before after : List ℕ) →
        IsFieldWritten KC.writing M.encoding M.slots n l old before (Ok tt) new after
        ↔ ((bs : List ℕ) × (after ≡ before ++ bs) × (new ≡ advanced (length (field_slots M.encoding M.slots l)) old)
        × (IsSmallField KC.writing M.encoding l → bs ≡ field_encoding KC.writing (delimited_writing M.encoding) n l)) }
    ensures refused { (n : ℕ) (l : List (KC.Value.Meaning × M.Meaning)) (old new : Cache) (before after : List ℕ)
        (e : EncodeError) → IsFieldWritten KC.writing M.encoding M.slots n l old before (Err e) new after
        ↔ ((bs : List ℕ) × (after ≡ before ++ bs) × (e ≡ encoding.OutOfMemory)
        × (IsSmallField KC.writing M.encoding l → Begins bs (field_encoding KC.writing (delimited_writing M.encoding) n l))
        × Consumes (field_slots M.encoding M.slots l) old new) }
{}

/// What the clauses of [`rewrite_map_field`](buffa_map::map_codec::rewrite_map_field) say together of a call that left its map as `storage` is:
/// the run was read and rewritten (`RewritesRun`), or its encoding was refused (`RefusesEncoding`). The laws of rewrites speak of these two.
/// Besides, which entries the clauses mean, and which encoding.
pub fn rewrites_are_whole<
    KC: MapCodec,
    VC: MapCodec,
    C: MapStorage<Key = KC::Value, Value = VC::Value>,
>()
    ensures entries { (a b d n : ℕ) (bs : List ℕ) (fs : List (EntryRecord KC.Value.Meaning VC.Value.Meaning)) →
        ForEntriesOf (rules (KC.reading, a) (VC.reading, b) (C.equal, C.keeps_order) d n true) bs (λ es. es ≡ fs)
        ↔ ((es : List (EntryRecord KC.Value.Meaning VC.Value.Meaning)) → Run KC.reading VC.reading d n bs es → es ≡ fs) }
    ensures encoding { (n : ℕ) (l : List (KC.Value.Meaning × VC.Value.Meaning)) (es : List (EntryRecord KC.Value.Meaning VC.Value.Meaning)) →
        rewrite_encoding (field_writing KC.writing VC.writing n) l es
        ≡ field_encoding KC.writing VC.writing n l ++ records_encoding (map (λ e. (n, bytes e)) (undeclared es)) }
    ensures written { (a b d n before after : ℕ) (storage : C) (left over : BudgetLeft) (bs rest old written : List ℕ) →
        ((kept : List (ℕ × FieldData)) × ReadsRun (rules (KC.reading, a) (VC.reading, b) (C.equal, C.keeps_order) d n true)
        (state [] [] left) bs (state (C.pairs storage) kept over) rest) →
        ForEntriesOf (rules (KC.reading, a) (VC.reading, b) (C.equal, C.keeps_order) d n true) bs
        (λ es. (l : List (KC.Value.Meaning × VC.Value.Meaning)) × C.walks storage l × ListsOnce C.equal (C.pairs storage) l
        × (written ≡ old ++ rewrite_encoding (field_writing KC.writing VC.writing n) l es)) →
        ((l : List (KC.Value.Meaning × VC.Value.Meaning)) → ListsOnce C.equal (C.pairs storage) l → HasEncoding KC.writing VC.writing l) →
        ((l : List (KC.Value.Meaning × VC.Value.Meaning)) → ListsOnce C.equal (C.pairs storage) l → AllHold KC.fits VC.fits l) →
        before + length old ≤ after + length written →
        RewritesRun (rules (KC.reading, a) (VC.reading, b) (C.equal, C.keeps_order) d n true) KC.writing VC.writing KC.fits VC.fits
        (C.walks storage) left bs (C.pairs storage) over rest old written before after }
    ensures stopped { (a b d n before : ℕ) (storage : C) (left over : BudgetLeft) (bs rest old written : List ℕ) (e : EncodeError) →
        ((kept : List (ℕ × FieldData)) × ReadsRun (rules (KC.reading, a) (VC.reading, b) (C.equal, C.keeps_order) d n true)
        (state [] [] left) bs (state (C.pairs storage) kept over) rest) →
        ForEntriesOf (rules (KC.reading, a) (VC.reading, b) (C.equal, C.keeps_order) d n true) bs
        (λ es. (l : List (KC.Value.Meaning × VC.Value.Meaning)) × C.walks storage l × ListsOnce C.equal (C.pairs storage) l
        × StopsRewrite (field_writing KC.writing VC.writing n) l es old written e) →
        (e ≡ encoding.OutOfMemory → ForEntriesOf (rules (KC.reading, a) (VC.reading, b) (C.equal, C.keeps_order) d n true) bs
        (λ es. (l : List (KC.Value.Meaning × VC.Value.Meaning)) → ListsOnce C.equal (C.pairs storage) l →
        before < length (rewrite_encoding (field_writing KC.writing VC.writing n) l es))) →
        RefusesEncoding (rules (KC.reading, a) (VC.reading, b) (C.equal, C.keeps_order) d n true) KC.writing VC.writing
        (C.walks storage) left bs (C.pairs storage) over rest old written before e }
{}

/// A rewrite reads the run into an empty map, and keeps what is undeclared, as a reading does that is passed a list; and pays what that
/// pays, also where the encoding is refused. It writes one walk of the map, and the kept records behind it, and takes no more room
/// than they have bytes.
pub fn rewrites_are_readings<
    KC: MapCodec,
    VC: MapCodec,
    C: MapStorage<Key = KC::Value, Value = VC::Value>,
>()
    ensures read { (a b d n room after : ℕ) (storage : C) (left over : BudgetLeft) (bs rest old written : List ℕ)
        (new : List (KC.Value.Meaning × VC.Value.Meaning)) →
        RewritesRun (rules (KC.reading, a) (VC.reading, b) (C.equal, C.keeps_order) d n true) KC.writing VC.writing KC.fits VC.fits
        (C.walks storage) left bs new over rest old written room after → (kept : List (ℕ × FieldData))
        × ReadsRun (rules (KC.reading, a) (VC.reading, b) (C.equal, C.keeps_order) d n true) (state [] [] left) bs
        (state new kept over) rest }
    ensures written { (a b d n room after : ℕ) (storage : C) (left over : BudgetLeft) (bs rest old written : List ℕ)
        (new : List (KC.Value.Meaning × VC.Value.Meaning)) →
        RewritesRun (rules (KC.reading, a) (VC.reading, b) (C.equal, C.keeps_order) d n true) KC.writing VC.writing KC.fits VC.fits
        (C.walks storage) left bs new over rest old written room after →
        (es : List (EntryRecord KC.Value.Meaning VC.Value.Meaning)) × (l : List (KC.Value.Meaning × VC.Value.Meaning))
        × (out : List ℕ) × Run KC.reading VC.reading d n bs es × C.walks storage l × ListsOnce C.equal (fold_entries C.equal [] es) l
        × (out ≡ field_encoding KC.writing VC.writing n l ++ records_encoding (map (λ e. (n, bytes e)) (undeclared es)))
        × (written ≡ old ++ out) × (room ≤ after + length out) }
    ensures not_written { (a b d n room : ℕ) (storage : C) (left over : BudgetLeft) (bs rest old written : List ℕ)
        (new : List (KC.Value.Meaning × VC.Value.Meaning)) (e : EncodeError) →
        RefusesEncoding (rules (KC.reading, a) (VC.reading, b) (C.equal, C.keeps_order) d n true) KC.writing VC.writing
        (C.walks storage) left bs new over rest old written room e → (kept : List (ℕ × FieldData))
        × ReadsRun (rules (KC.reading, a) (VC.reading, b) (C.equal, C.keeps_order) d n true) (state [] [] left) bs
        (state new kept over) rest }
{}
