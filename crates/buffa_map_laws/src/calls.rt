//! What the words mean by which calls of map fields are described, in std's words: each law is a function with nothing to do,
//! whose contract is the law.

ghost use Rattle.std.specs.Prelude.{◌≡◌, ◌≢◌, ◌↔◌, ◌+◌, ◌&&◌, [], ◌∷◌, ℕ, ℤ, List, Bool, true, false, not, length, Some, None};
ghost use Rattle.std.specs.Prelude.{Err, IfSome, Ok, OnOk, Result};
ghost use Rattle.std.proofs.Common.{inl, inr};
ghost use Rattle.std.specs.Borrow.{Bor, MutBor};
ghost use Rattle.std.specs.List.{Contains, filter};
ghost use Rattle.buffa_bytes.specs.declared.error.DecodeError.{DecodeError};
ghost use Rattle.buffa_bytes.specs.declared.error.EncodeError.{EncodeError};
ghost use Rattle.buffa_bytes.specs.Written.{UsesRoom};
ghost use Rattle.buffa_wire.specs.BudgetLeft.{BudgetLeft};
ghost use Rattle.buffa_wire.specs.Cache.{Cache};
ghost use Rattle.buffa_wire.specs.Message.{MergesBytes};
ghost use Rattle.buffa_wire.specs.Passes.{IsSized, IsWritten};
ghost use Rattle.buffa_wire.specs.Records.{Held};
ghost use Rattle.buffa_map.specs.Calls.{MergesMessages, SizesMessages, WritesMapField, WritesMessages};
ghost use Rattle.buffa_map.specs.Codec.{is_known};
ghost use Rattle.buffa_map.specs.declared.codec.MapValueDecodeStatus.TheVariants as status;
ghost use Rattle.buffa_map.specs.declared.rewrite.RewriteError.TheVariants as rewrite;
ghost use Rattle.buffa_map.specs.Encoding.{AllHold, UsesRoomOf, WritesField, field_encoding};
ghost use Rattle.buffa_map.specs.PassedList.{capacity_after, capacity_before, records_after, records_before};
ghost use Rattle.buffa_map.specs.MessageField.{IsSmallField, KeepsMessageRoom, UsesFieldRoom};
ghost use Rattle.buffa_map.specs.Pairs.{ListsOnce, SamePairs};
ghost use Rattle.buffa_map.specs.Rewrite.{IfNotDecoded, IfNotEncoded, WhereDecoded};
ghost use Rattle.buffa_map.specs.Rewrite.{IsOrderedClass, KeepsMeaning, MatchRefusal, Ordered, SeenByTwo, first, last, seen};
ghost use Rattle.buffa_map.specs.Run.{EntryRecord, fold_entries, undeclared};
ghost use Rattle.buffa_map.specs.Scalars.{delimited_writing};

use buffa_map::map_codec::{MapCodec, MapStorage, MapValueDecode};
use buffa_wire::{Budget, DecodeError, EncodeError, EncodeSink, MessageSpec, SizeCache};

/// The status of a payload says whether its value is a declared one. A refused rewrite holds the fault of the bytes, or the error
/// of the encoding, and what a contract says of it is said of that.
pub fn answers_are_these()
    ensures declared { is_known status.Known ≡ true }
    ensures not_declared { is_known status.Unknown ≡ false }
    ensures bytes_refused { (f g : DecodeError) (e : EncodeError) → MatchRefusal (rewrite.Decode f) (λ x. x ≡ g) (λ y. y ≡ e)
        ↔ (f ≡ g) }
    ensures encoding_refused { (g : DecodeError) (d e : EncodeError) →
        MatchRefusal (rewrite.Encode d) (λ x. x ≡ g) (λ y. y ≡ e) ↔ (d ≡ e) }
{}

/// What is said of a rewrite where its bytes were read, where they were refused, and where the encoding was.
pub fn rewrites_end_so()
    ensures done { (a b c : ℕ) (f : DecodeError) (e : EncodeError) → (WhereDecoded {T = ℕ} (Ok a) (b ≡ c) ↔ (b ≡ c))
        × IfNotDecoded {T = ℕ} (Ok a) (λ x. x ≡ f) × IfNotEncoded {T = ℕ} (Ok a) (λ x. x ≡ e) }
    ensures not_decoded { (b c : ℕ) (f g : DecodeError) (e : EncodeError) →
        WhereDecoded {T = ℕ} (Err (rewrite.Decode f)) (b ≡ c)
        × (IfNotDecoded {T = ℕ} (Err (rewrite.Decode f)) (λ x. x ≡ g) ↔ (f ≡ g))
        × IfNotEncoded {T = ℕ} (Err (rewrite.Decode f)) (λ x. x ≡ e) }
    ensures not_encoded { (b c : ℕ) (f : DecodeError) (d e : EncodeError) →
        (WhereDecoded {T = ℕ} (Err (rewrite.Encode d)) (b ≡ c) ↔ (b ≡ c))
        × IfNotDecoded {T = ℕ} (Err (rewrite.Encode d)) (λ x. x ≡ f)
        × (IfNotEncoded {T = ℕ} (Err (rewrite.Encode d)) (λ x. x ≡ e) ↔ (d ≡ e)) }
{}

/// The records of a list that may be passed to a call, and how many it can hold, at the call and at its return.
pub fn lent_lists_are_these()
    ensures none_before { (records_before None ≡ []) × (capacity_before None ≡ 0) }
    ensures before { (list : MutBor Held) → records_before (Some list) ≡ list.now.records }
    ensures capacity { (list : MutBor Held) → capacity_before (Some list) ≡ length list.now.records + list.now.spare }
    ensures none_after { (records_after (inl tt) ≡ []) × (capacity_after (inl tt) ≡ 0) }
    ensures after { (list : MutBor Held) → records_after (inr (inl (list, tt))) ≡ list.now.records }
    ensures capacity_left { (list : MutBor Held) → capacity_after (inr (inl (list, tt)))
        ≡ length list.now.records + list.now.spare }
{}

/// A map field is written by one walk of the map, which lists each pair once: whole records of it, of values that the types of
/// key and value hold, and no field that has room is refused.
pub fn map_fields_are_written_so<
    KC: MapCodec,
    VC: MapCodec,
    C: MapStorage<Key = KC::Value, Value = VC::Value>,
    S: EncodeSink,
>()
    ensures { (map : C) (n : ℕ) (old new : S) (r : Result (Unit {0}) EncodeError) →
        WritesMapField C.equal C.walks C.pairs map KC.writing VC.writing KC.fits VC.fits n S.written S.room old new r
        ↔ ((l : List (KC.Value.Meaning × VC.Value.Meaning)) × C.walks map l × ListsOnce C.equal (C.pairs map) l
        × WritesField KC.writing VC.writing n (S.written old) (S.written new) r l × OnOk r (AllHold KC.fits VC.fits l)
        × UsesRoomOf r (S.room old) (field_encoding KC.writing VC.writing n l) (S.room new)) }
{}

/// What is asked of functions that size, write and merge messages: each of their calls is a pass over the message that it is
/// passed, or merges its bytes, one level down. A function keeps room where it refuses no message that fits.
pub fn functions_of_messages_are_these<
    KC: MapCodec,
    M: MessageSpec,
    S: EncodeSink,
    F: Fn(&M, &mut SizeCache) -> Result<u32, EncodeError>,
    G: Fn(&M, &mut SizeCache, &mut S) -> Result<(), EncodeError>,
    H: Fn(&mut M, &[u8], u32, &mut Budget) -> Result<(), DecodeError>,
>()
    ensures sizes { (size : F) (vs : List M.Meaning) → SizesMessages (F.post size) (Contains vs) M.meaning M.encoding M.slots
        ↔ ((x : Bor M) (c : MutBor Cache) (r : Result ℕ EncodeError) (d : MutBor Cache) → Contains vs (M.meaning x.now) →
        F.post size x c r d → IsSized (M.encoding (M.meaning x.now)) (M.slots (M.meaning x.now)) c.now r d.now) }
    ensures writes { (write : G) (vs : List M.Meaning) →
        WritesMessages (G.post write) (λ x. Contains vs (M.meaning x)) M.meaning M.encoding M.slots S.written
        ↔ ((x : Bor M) (c : MutBor Cache) (s : MutBor S) (r : Result (Unit {0}) EncodeError) (d : MutBor Cache) (t : MutBor S) →
        Contains vs (M.meaning x.now) → G.post write x c s r d t →
        IsWritten (M.encoding (M.meaning x.now)) (M.slots (M.meaning x.now)) c.now (S.written s.now) r d.now (S.written t.now)) }
    ensures merges { (merge : H) (depth : ℕ) → MergesMessages (H.post merge) M.meaning M.merged M.cost depth
        ↔ ((x : MutBor M) (b : Bor (List ℕ)) (d : ℕ) (w : MutBor BudgetLeft) (r : Result (Unit {0}) DecodeError) (y : MutBor M)
        (v : MutBor BudgetLeft) → d + 1 ≡ depth → H.post merge x b d w r y v →
        MergesBytes M.merged M.cost d (M.meaning x.now) b.now w.now r (M.meaning y.now) v.now) }
    ensures keeps_room { (write : G) → KeepsMessageRoom (G.post write) (λ v. M.encoding (M.meaning v)) S.room
        ↔ ((x : Bor M) (c : MutBor Cache) (s : MutBor S) (r : Result (Unit {0}) EncodeError) (d : MutBor Cache) (t : MutBor S) →
        G.post write x c s r d t → UsesRoom r (S.room s.now) (M.encoding (M.meaning x.now)) (S.room t.now)) }
    ensures room { (n before left : ℕ) (l : List (KC.Value.Meaning × M.Meaning)) (r : Result (Unit {0}) EncodeError) →
        UsesFieldRoom KC.writing M.encoding n l r before left ↔ (IsSmallField KC.writing M.encoding l →
        UsesRoom r before (field_encoding KC.writing (delimited_writing M.encoding) n l) left) }
{}

/// When a rewrite keeps the meaning of a run to a newer reader: that reader keeps the same entries; if the run is ordered, both
/// make one map of any; and only then do both make one map of the empty one. A run is ordered if, of the entries of each key, the
/// last that the newer reader knows is new to it where any is, and the first that it knows has the key that the older one stores.
pub fn meanings_are_kept_so<KC: MapValueDecode>()
    ensures kept { (eq : KC.Value.Meaning → KC.Value.Meaning → Bool) (es fs gs : List (EntryRecord KC.Value.Meaning ℤ)) →
        KeepsMeaning eq es fs gs ↔ ((undeclared gs ≡ undeclared fs)
        × (Ordered eq es fs → (m : List (KC.Value.Meaning × ℤ)) → SamePairs eq (fold_entries eq m gs) (fold_entries eq m fs))
        × (SamePairs eq (fold_entries eq [] gs) (fold_entries eq [] fs) → Ordered eq es fs)) }
    ensures ordered { (eq : KC.Value.Meaning → KC.Value.Meaning → Bool) (es fs : List (EntryRecord KC.Value.Meaning ℤ)) →
        Ordered eq es fs ↔ ((q : KC.Value.Meaning) → IsOrderedClass (filter (λ x. eq q x.key) (seen es fs))) }
    ensures class { (xs : List (SeenByTwo KC.Value.Meaning)) → IsOrderedClass xs
        ↔ (filter (λ x. x.known_to_newer && not x.known_to_older) xs ≢ [] →
        IfSome (last (filter (λ x. x.known_to_newer) xs)) (λ x. (x.known_to_newer && not x.known_to_older) ≡ true)
        × IfSome (first (filter (λ x. x.known_to_older) xs))
        (λ x. IfSome (first (filter (λ y. y.known_to_newer) xs)) (λ y. y.key ≡ x.key))) }
    ensures none_seen { (fs : List (EntryRecord KC.Value.Meaning ℤ)) → seen [] fs ≡ [] }
    ensures seen { (x y : EntryRecord KC.Value.Meaning ℤ) (es fs : List (EntryRecord KC.Value.Meaning ℤ)) →
        seen (x ∷ es) (y ∷ fs)
        ≡ record { key = y.parts.key; known_to_older = x.parts.known; known_to_newer = y.parts.known } ∷ seen es fs }
    ensures first_of_none { first {A = SeenByTwo KC.Value.Meaning} [] ≡ None }
    ensures first { (x : SeenByTwo KC.Value.Meaning) (xs : List (SeenByTwo KC.Value.Meaning)) → first (x ∷ xs) ≡ Some x }
    ensures last_of_none { last {A = SeenByTwo KC.Value.Meaning} [] ≡ None }
    ensures last_of_one { (x : SeenByTwo KC.Value.Meaning) → last (x ∷ []) ≡ Some x }
    ensures last { (x y : SeenByTwo KC.Value.Meaning) (xs : List (SeenByTwo KC.Value.Meaning)) → last xs ≡ Some y →
        last (x ∷ xs) ≡ Some y }
{}
