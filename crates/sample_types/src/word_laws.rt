//! What the words mean by which the calls of the samples are described, in std's words: each law is a function with nothing
//! to do, whose contract is the law.

ghost use Rattle.std.specs.Prelude.{◌≡◌, ◌≢◌, ◌↔◌, ◌⊎◌, ◌+◌, ◌-◌, ◌*◌, ◌^◌, ◌<◌, ◌≤◌, ℕ, ℤ, Bool, true, Err, List, [], ◌∷◌, ◌++◌, None, Ok, Some, length, map, min, nat_eq, string_bytes};
ghost use Rattle.std.specs.Char.{to_ascii_lowercase};
ghost use Rattle.std.specs.Cmp.Lexicographic.{pointwise};
ghost use Rattle.buffa_bytes.specs.Readings.{delimited_at, skip_at, tag_at, varint_at};
ghost use Rattle.buffa_bytes.specs.declared.error.DecodeError.{DecodeError};
ghost use Rattle.buffa_bytes.specs.declared.error.DecodeError.TheVariants as decode;
ghost use Rattle.buffa_bytes.specs.declared.error.EncodeError.{EncodeError};
ghost use Rattle.buffa_bytes.specs.declared.error.EncodeError.TheVariants as encode;
ghost use Rattle.buffa_bytes.specs.declared.wire_type.WireType.{WireType};
ghost use Rattle.buffa_bytes.specs.declared.wire_type.WireType.TheVariants as wire;
ghost use Rattle.buffa_wire.specs.BudgetLeft.{BudgetLeft};
ghost use Rattle.buffa_wire.specs.Enums.{numbers};
ghost use Rattle.buffa_wire.specs.Records.{FieldData, Held};
ghost use Rattle.buffa_map.specs.Encoding.{HasEncoding, entry_encoding, field_encoding};
ghost use Rattle.buffa_map.specs.EntryReading.{entry_of};
ghost use Rattle.buffa_map.specs.Enums.{ClosedFits, closed_reading, closed_writing};
ghost use Rattle.buffa_map.specs.Merge.{ReadsRun, RefusesRun, Rules, state};
ghost use Rattle.buffa_map.specs.Pairs.{ListsOnce, SamePairs, put};
ghost use Rattle.buffa_map.specs.Rewrite.{Ordered, RefusesEncoding, RewritesRun};
ghost use Rattle.buffa_map.specs.Run.{EntryRecord, Run, fold_entries, undeclared_records};
ghost use Rattle.buffa_map.specs.Scalars.{int32_reading, text_reading};
ghost use Rattle.buffa_map.specs.declared.map_entry.MapEntry.{MapEntry};
ghost use Rattle.buffa_map.specs.declared.rewrite.RewriteError.{RewriteError};
ghost use Rattle.buffa_map.specs.declared.rewrite.RewriteError.TheVariants as rewrite;
ghost use Rattle.sample_types.specs.Census.{census_field, census_merged, counts_by_name};
ghost use Rattle.sample_types.specs.Count.{IsCountRefused, count_field, count_merged, one_more};
ghost use Rattle.sample_types.specs.Letters.{lower, same_letters, spelled};
ghost use Rattle.sample_types.specs.Passed.{IfRefused, IfUnread, IsRun, IsShortage, KeepsRun, MeansRun, NotRewritten, Proxy, ReadsRewrite, Stopped};
ghost use Rattle.sample_types.specs.RoundTrip.{FitsTrip, IfNotReadBack, IfUnwritten, RefusesPairs, RefusesTrip, StopsInField, StopsTrip};
ghost use Rattle.sample_types.specs.declared.passed_on.PassFault.TheVariants as pass;
ghost use Rattle.sample_types.specs.declared.round_trip.TripFault.{TripFault};
ghost use Rattle.sample_types.specs.declared.round_trip.TripFault.TheVariants as trip;

use crate::census::Census;
use crate::passed_on::{Pass, Way};
use crate::word::Word;
use buffa_map::map_codec::{MapCodec, MapStorage};
use buffa_wire::Enumeration;

/// A census has a count for each name, and the name is its bytes.
pub fn names_are_their_bytes(census: &Census)
    ensures { counts_by_name census.now.counts.entries ≡ map (λ e. (string_bytes e.0, e.1)) census.now.counts.entries }
{}

/// A field 5 of a census is a length and an entry of a string and an int32, which is put; a payload of another wire type, or one
/// that isn't so, is refused; and any other field is passed over. So it goes on to the end of the bytes.
pub fn censuses_are_read_so()
    ensures entry { (d : ℕ) (es : List (List ℕ × ℤ)) (bs p rest : List ℕ) (s : MapEntry (List ℕ) ℤ) →
        delimited_at bs ≡ Ok (p, rest) → entry_of text_reading int32_reading d p ≡ Ok s → s.known ≡ true →
        census_field d es 5 wire.LengthDelimited bs ≡ Ok (put (pointwise nat_eq) es s.key s.value, rest) }
    ensures no_entry { (d : ℕ) (es : List (List ℕ × ℤ)) (bs p rest : List ℕ) (e : DecodeError) →
        delimited_at bs ≡ Ok (p, rest) → entry_of text_reading int32_reading d p ≡ Err e →
        census_field d es 5 wire.LengthDelimited bs ≡ Err e }
    ensures no_length { (d : ℕ) (es : List (List ℕ × ℤ)) (bs : List ℕ) (e : DecodeError) → delimited_at bs ≡ Err e →
        census_field d es 5 wire.LengthDelimited bs ≡ Err e }
    ensures other_wire { (d : ℕ) (es : List (List ℕ × ℤ)) (w : WireType) (bs : List ℕ) → w ≢ wire.LengthDelimited →
        census_field d es 5 w bs ≡ Err (decode.WireTypeMismatch 5 wire.LengthDelimited w) }
    ensures passed_over { (d : ℕ) (es : List (List ℕ × ℤ)) (n : ℕ) (w : WireType) (bs rest : List ℕ) → n ≢ 5 →
        skip_at d n w bs ≡ Ok rest → census_field d es n w bs ≡ Ok (es, rest) }
    ensures no_payload { (d : ℕ) (es : List (List ℕ × ℤ)) (n : ℕ) (w : WireType) (bs : List ℕ) (e : DecodeError) → n ≢ 5 →
        skip_at d n w bs ≡ Err e → census_field d es n w bs ≡ Err e }
    ensures nothing { (d : ℕ) (es : List (List ℕ × ℤ)) → census_merged d es [] ≡ Some es }
    ensures next { (d : ℕ) (es fs : List (List ℕ × ℤ)) (n : ℕ) (w : WireType) (bs mid rest : List ℕ) →
        tag_at bs ≡ Ok (n, w, mid) → census_field d es n w mid ≡ Ok (fs, rest) →
        census_merged d es bs ≡ census_merged d fs rest }
    ensures refused { (d : ℕ) (es : List (List ℕ × ℤ)) (n : ℕ) (w : WireType) (bs mid : List ℕ) (e : DecodeError) →
        tag_at bs ≡ Ok (n, w, mid) → census_field d es n w mid ≡ Err e → census_merged d es bs ≡ None }
    ensures no_tag { (d : ℕ) (es : List (List ℕ × ℤ)) (bs : List ℕ) (e : DecodeError) → bs ≢ [] → tag_at bs ≡ Err e →
        census_merged d es bs ≡ None }
{}

/// Two texts are one word where they are one in lower case, letter by letter. Pairs are spelled by the bytes of each word.
pub fn letters_are_these()
    ensures lower { (t : List ℕ) → lower t ≡ map to_ascii_lowercase t }
    ensures same { (a b : List ℕ) →
        same_letters a b ≡ pointwise nat_eq (map to_ascii_lowercase a) (map to_ascii_lowercase b) }
    ensures spelled { (ps : List (Word × Bool)) → spelled ps ≡ map (λ p. (string_bytes p.0.text, p.1)) ps }
{}

/// A field 9, a varint, counts one, up to 2^64 - 1. A malformed varint is refused by its fault, and so is another wire type; the
/// count stays then. A field of another number is passed over. So it goes on to the end of the bytes.
pub fn fields_are_counted_so()
    ensures more { (v : ℕ) → one_more v ≡ min (v + 1) (2 ^ 64 - 1) }
    ensures counted { (d v x : ℕ) (bs rest : List ℕ) → varint_at bs ≡ Ok (x, rest) →
        count_field d v 9 wire.Varint bs ≡ Ok (min (v + 1) (2 ^ 64 - 1), rest) }
    ensures malformed { (d v : ℕ) (bs : List ℕ) (e : DecodeError) → varint_at bs ≡ Err e →
        count_field d v 9 wire.Varint bs ≡ Err e }
    ensures other_wire { (d v : ℕ) (w : WireType) (bs : List ℕ) → w ≢ wire.Varint →
        count_field d v 9 w bs ≡ Err (decode.WireTypeMismatch 9 wire.Varint w) }
    ensures passed_over { (d v n : ℕ) (w : WireType) (bs rest : List ℕ) → n ≢ 9 → skip_at d n w bs ≡ Ok rest →
        count_field d v n w bs ≡ Ok (v, rest) }
    ensures no_payload { (d v n : ℕ) (w : WireType) (bs : List ℕ) (e : DecodeError) → n ≢ 9 → skip_at d n w bs ≡ Err e →
        count_field d v n w bs ≡ Err e }
    ensures nothing { (d v : ℕ) → count_merged d v [] ≡ Some v }
    ensures next { (d v u n : ℕ) (w : WireType) (bs mid rest : List ℕ) → tag_at bs ≡ Ok (n, w, mid) →
        count_field d v n w mid ≡ Ok (u, rest) → count_merged d v bs ≡ count_merged d u rest }
    ensures refused { (d v n : ℕ) (w : WireType) (bs mid : List ℕ) (e : DecodeError) → tag_at bs ≡ Ok (n, w, mid) →
        count_field d v n w mid ≡ Err e → count_merged d v bs ≡ None }
    ensures no_tag { (d v : ℕ) (bs : List ℕ) (e : DecodeError) → bs ≢ [] → tag_at bs ≡ Err e →
        count_merged d v bs ≡ None }
    ensures stays { (d v n : ℕ) (w : WireType) (bs : List ℕ) (left : BudgetLeft) (e : DecodeError) (u : ℕ) →
        IsCountRefused d v n w bs left e u ↔ ((u ≡ v) × (count_field d v n w bs ≡ Err e)) }
{}

/// What is said of a field that wasn't rewritten is said of the error, and what is said of a rewrite that wasn't read, of the
/// fault; each says nothing of the other. A shortage is that memory ran out, or a budget.
pub fn answers_of_proxies_are_these()
    ensures refused { (p : RewriteError → Bool) (e : RewriteError) →
        IfRefused (λ x. p x ≡ true) (pass.Rewrite e) ↔ (p e ≡ true) }
    ensures not_refused { (p : RewriteError → Bool) (f : DecodeError) → IfRefused (λ x. p x ≡ true) (pass.Decode f) }
    ensures unread { (p : DecodeError → Bool) (f : DecodeError) →
        IfUnread (λ x. p x ≡ true) (pass.Decode f) ↔ (p f ≡ true) }
    ensures not_unread { (p : DecodeError → Bool) (e : RewriteError) → IfUnread (λ x. p x ≡ true) (pass.Rewrite e) }
    ensures short { (f : DecodeError) → IsShortage f ↔ ((f ≡ decode.OutOfMemory)
        ⊎ ((f ≡ decode.UnknownFieldLimitExceeded) ⊎ (f ≡ decode.ElementMemoryLimitExceeded))) }
{}

/// What is said of a map that wasn't written is said of its error, and what is said of bytes that weren't read back, of their
/// fault; each says nothing of the other.
pub fn answers_of_trips_are_these()
    ensures unwritten { (e : EncodeError) (b : Bool) → IfUnwritten (trip.Encode e) (b ≡ true) ↔ (b ≡ true) }
    ensures written { (f : DecodeError) (b : Bool) → IfUnwritten (trip.Decode f) (b ≡ true) }
    ensures not_read { (q : DecodeError → Bool) (f : DecodeError) →
        IfNotReadBack (trip.Decode f) (λ x. q x ≡ true) ↔ (q f ≡ true) }
    ensures unread { (q : DecodeError → Bool) (e : EncodeError) → IfNotReadBack (trip.Encode e) (λ x. q x ≡ true) }
{}

/// Pairs are refused where an entry has 2^64 bytes or more; where memory runs out, and there is a pair; and where none is too long,
/// and they cost more than 2^28 units, or memory runs out again. A map is so by some walk, which lists each pair once; and it fits
/// where some walk does.
pub fn trips_are_refused_so<
    KC: MapCodec,
    VC: MapCodec,
    C: MapStorage<Key = KC::Value, Value = VC::Value>,
>()
    ensures too_large { (cost : ℕ) (l : List (KC.Value.Meaning × VC.Value.Meaning)) →
        RefusesPairs KC.writing VC.writing cost l (trip.Encode encode.MessageTooLarge)
        ↔ ((done : List (KC.Value.Meaning × VC.Value.Meaning)) × (p : KC.Value.Meaning × VC.Value.Meaning)
        × (rest : List (KC.Value.Meaning × VC.Value.Meaning)) × (l ≡ done ++ p ∷ rest)
        × (2 ^ 64 ≤ length (entry_encoding KC.writing VC.writing p))) }
    ensures no_room { (cost : ℕ) (l : List (KC.Value.Meaning × VC.Value.Meaning)) →
        RefusesPairs KC.writing VC.writing cost l (trip.Encode encode.OutOfMemory) ↔ (l ≢ []) }
    ensures no_group { (cost : ℕ) (l : List (KC.Value.Meaning × VC.Value.Meaning)) (f : DecodeError) →
        RefusesPairs KC.writing VC.writing cost l (trip.Encode (encode.GroupRefused f)) → ⊥ }
    ensures unread { (cost : ℕ) (l : List (KC.Value.Meaning × VC.Value.Meaning)) (f : DecodeError) →
        RefusesPairs KC.writing VC.writing cost l (trip.Decode f)
        ↔ ((l ≢ []) × HasEncoding KC.writing VC.writing l
        × (f ≢ decode.OutOfMemory → (f ≡ decode.ElementMemoryLimitExceeded) × (2 ^ 28 < length l * cost))) }
    ensures walk { (cost : ℕ) (m : C) (f : TripFault) →
        RefusesTrip KC.writing VC.writing cost C.equal (C.pairs m) (C.walks m) f
        ↔ ((l : List (KC.Value.Meaning × VC.Value.Meaning)) × C.walks m l × ListsOnce C.equal (C.pairs m) l
        × RefusesPairs KC.writing VC.writing cost l f) }
    ensures fits { (cost : ℕ) (m : C) → FitsTrip KC.writing VC.writing cost C.equal (C.pairs m) (C.walks m)
        ↔ ((l : List (KC.Value.Meaning × VC.Value.Meaning)) × C.walks m l × ListsOnce C.equal (C.pairs m) l
        × HasEncoding KC.writing VC.writing l × (length l * cost ≤ 2 ^ 28)) }
    ensures in_field { (r : Rules KC.Value.Meaning VC.Value.Meaning) (m : C) (left : BudgetLeft)
        (pairs : List (KC.Value.Meaning × VC.Value.Meaning)) (f : DecodeError) →
        StopsInField r KC.writing VC.writing (C.walks m) left pairs f
        ↔ ((l : List (KC.Value.Meaning × VC.Value.Meaning)) × C.walks m l × (over : BudgetLeft) × (unread : List ℕ)
        × RefusesRun r (state [] [] left) (field_encoding KC.writing VC.writing r.number l) (state pairs [] over) unread f) }
    ensures stops { (r : Rules KC.Value.Meaning VC.Value.Meaning) (m : C)
        (pairs : List (KC.Value.Meaning × VC.Value.Meaning)) (f : DecodeError) →
        StopsTrip r KC.writing VC.writing (C.walks m) pairs (trip.Decode f)
        ↔ StopsInField r KC.writing VC.writing (C.walks m) (record { unknown = 0; memory = 2 ^ 28 }) pairs f }
{}

/// How the two readers of a proxy read: the codec of keys, each its enum, whose numbers cost four units, and its storage; what is
/// undeclared is kept. Keys are written by their codec, and the older enum is the one that is written.
pub fn proxies_are_these<
    KC: MapCodec,
    E: Enumeration,
    F: Enumeration,
    C: MapStorage<Key = KC::Value, Value = E>,
    D: MapStorage<Key = KC::Value, Value = F>,
>()
    ensures older { (d n : ℕ) → ⟦<Pass<KC, E, F, C, D> as Way>⟧.way.older d n ≡ record {
      key = KC.reading;
      val = closed_reading (numbers E.of_number E.blank_is);
      same = C.equal;
      keeps_order = C.keeps_order;
      depth = d;
      number = n;
      cost = KC.COST + 4;
      keeps_undeclared = true;
    } }
    ensures newer { (d n : ℕ) → ⟦<Pass<KC, E, F, C, D> as Way>⟧.way.newer d n ≡ record {
      key = KC.reading;
      val = closed_reading (numbers F.of_number F.blank_is);
      same = D.equal;
      keeps_order = D.keeps_order;
      depth = d;
      number = n;
      cost = KC.COST + 4;
      keeps_undeclared = true;
    } }
    ensures key { ⟦<Pass<KC, E, F, C, D> as Way>⟧.way.key ≡ KC.writing }
    ensures numbers { ⟦<Pass<KC, E, F, C, D> as Way>⟧.way.numbers ≡ numbers E.of_number E.blank_is }
{}

/// What a proxy keeps and means: the old records stay in front, and behind them is what the newer reader doesn't declare; and where
/// the run is ordered, the newer reader's map has what the run makes of it. Bytes were passed on where they were rewritten, and the
/// rewrite was read; each reader begins with a million unknown fields and 2^28 units. They weren't rewritten where reading them into
/// an empty map stopped so, or where writing them did.
pub fn runs_are_passed_on_so<
    KC: MapCodec,
    E: Enumeration,
    C: MapStorage<Key = KC::Value, Value = E>,
>()
    ensures keeps { (p : Proxy KC.Value.Meaning) (d n : ℕ) (bytes : List ℕ) (old new : Held) →
        KeepsRun p KC.fits d n bytes old new
        ↔ ((fs : List (EntryRecord KC.Value.Meaning ℤ)) →
        Run (p.newer d n).key (p.newer d n).val (p.newer d n).depth (p.newer d n).number bytes fs →
        new.records ≡ old.records ++ undeclared_records n fs) }
    ensures means { (p : Proxy KC.Value.Meaning) (d n : ℕ) (bytes : List ℕ) (old new : List (KC.Value.Meaning × ℤ)) →
        MeansRun p KC.fits d n bytes old new
        ↔ ((es fs : List (EntryRecord KC.Value.Meaning ℤ)) →
        Run (p.older d n).key (p.older d n).val (p.older d n).depth (p.older d n).number bytes es →
        Run (p.newer d n).key (p.newer d n).val (p.newer d n).depth (p.newer d n).number bytes fs →
        Ordered (p.newer d n).same es fs →
        SamePairs (p.newer d n).same (fold_entries (p.newer d n).same old fs) new) }
    ensures runs { (p : Proxy KC.Value.Meaning) (d n : ℕ) (bytes : List ℕ) → IsRun p KC.fits d n bytes →
        (es : List (EntryRecord KC.Value.Meaning ℤ)) × (fs : List (EntryRecord KC.Value.Meaning ℤ))
        × Run (p.older d n).key (p.older d n).val (p.older d n).depth (p.older d n).number bytes es
        × Run (p.newer d n).key (p.newer d n).val (p.newer d n).depth (p.newer d n).number bytes fs }
    ensures reads { (p : Proxy KC.Value.Meaning) (d n : ℕ) (bytes : List ℕ) (filled old new : List (KC.Value.Meaning × ℤ))
        (before after : Held) → ReadsRewrite p KC.fits d n bytes filled old before new after →
        (left : BudgetLeft) × (out : List ℕ) × (over : BudgetLeft)
        × RewritesRun (p.older d n) p.key closed_writing KC.fits (ClosedFits p.numbers) (λ _. Unit {0})
        (record { unknown = 1000000; memory = 2 ^ 28 }) bytes filled left [] [] out 0 0
        × ReadsRun (p.newer d n) (state old before.records (record { unknown = 1000000; memory = 2 ^ 28 })) out
        (state new after.records over) [] }
    ensures stopped { (p : Proxy KC.Value.Meaning) (d n : ℕ) (bytes : List ℕ) (filled old new : List (KC.Value.Meaning × ℤ))
        (before after : Held) (f : DecodeError) → Stopped p KC.fits d n bytes filled old before new after f →
        IsRun p KC.fits d n bytes × IsShortage f × (left : BudgetLeft) × (out : List ℕ) × (over : BudgetLeft) × (unread : List ℕ)
        × RewritesRun (p.older d n) p.key closed_writing KC.fits (ClosedFits p.numbers) (λ _. Unit {0})
        (record { unknown = 1000000; memory = 2 ^ 28 }) bytes filled left [] [] out 0 0
        × RefusesRun (p.newer d n) (state old before.records (record { unknown = 1000000; memory = 2 ^ 28 })) out
        (state new after.records over) unread f }
    ensures not_read { (p : Proxy KC.Value.Meaning) (d n : ℕ) (bytes : List ℕ) (scratch : C)
        (pairs : List (KC.Value.Meaning × ℤ)) (f : DecodeError) →
        NotRewritten p KC.fits d n bytes (C.walks scratch) pairs (rewrite.Decode f)
        ↔ ((over : BudgetLeft) × (rest : List ℕ) × (kept : List (ℕ × FieldData))
        × RefusesRun (p.older d n) (state [] [] (record { unknown = 1000000; memory = 2 ^ 28 })) bytes
        (state pairs kept over) rest f) }
    ensures not_written { (p : Proxy KC.Value.Meaning) (d n : ℕ) (bytes : List ℕ) (scratch : C)
        (pairs : List (KC.Value.Meaning × ℤ)) (e : EncodeError) →
        NotRewritten p KC.fits d n bytes (C.walks scratch) pairs (rewrite.Encode e)
        ↔ ((over : BudgetLeft) × (rest : List ℕ) × (written : List ℕ)
        × RefusesEncoding (p.older d n) p.key closed_writing (C.walks scratch) (record { unknown = 1000000; memory = 2 ^ 28 })
        bytes pairs over rest [] written 0 e) }
{}
