//! What strict readings are, and what their contracts leave open: each law is a function with nothing to do, whose contract
//! is the law.

ghost use Rattle.std.specs.Prelude.{◌≡◌, ◌≢◌, ◌↔◌, ◌⊎◌, ℕ, List, [], ◌∷◌, ◌++◌, None, Some};
ghost use Rattle.std.specs.List.{AllByRecursion};
ghost use Rattle.buffa_bytes.specs.PayloadValue.{PayloadValue, PayloadValueFault, TakesPayloadValue};
ghost use Rattle.buffa_bytes.specs.declared.error.DecodeError.{DecodeError};
ghost use Rattle.buffa_bytes.specs.declared.error.DecodeError.TheVariants.{OutOfMemory};
ghost use Rattle.buffa_bytes.specs.declared.wire_type.WireType.{WireType};
ghost use Rattle.buffa_wire.specs.BudgetLeft.{BudgetLeft, Pays, defaults};
ghost use Rattle.buffa_wire.specs.Message.{MergeFault};
ghost use Rattle.buffa_wire.specs.Records.{FieldData};
ghost use Rattle.buffa_codec.specs.Strict.{AreElements};
ghost use Rattle.buffa_codec.specs.Strict.{bytes_fault, number_list_fault, packed_fault, string_fault, unless_found};
ghost use Rattle.buffa_ext.specs.Messages.{cost_all, encodings_in, merged_all, message_of};
ghost use Rattle.buffa_ext.specs.Strict.{FaultBehind, FaultlessOrFault, NoneIsAbsent, OneFault};

use buffa_codec::{
    BytesCodec, ExtensionCodec, LastWins, Numbered, PackableCodec, PackedRepeated, Repeated,
    StrictCodec, StrictElementCodec, StrictSingularCodec, StringCodec,
};
use buffa_ext::message::MessageIn;
use buffa_ext::message_record::MessageRecord;
use buffa_wire::Message;

/// A strict reading of one value reads each record of the number, or there is one fault, that of the first record that isn't
/// read; and it reads no value only where there is no record.
///
/// Nothing is left open, memory aside: the value is that of [`ExtensionCodec::decode`], which is one.
pub fn strict_values_are_pinned<C: LastWins + StrictSingularCodec>()
    ensures either { FaultlessOrFault ⟦<C as StrictCodec>⟧.IsFaultless ⟦<C as StrictCodec>⟧.HasFault }
    ensures reported { OneFault ⟦<C as StrictCodec>⟧.HasFault }
    ensures absent { NoneIsAbsent ⟦<C as StrictCodec>⟧.IsFaultless ⟦<C as ExtensionCodec>⟧.reads }
    ensures whole { (n : ℕ) (ds : List FieldData) → ⟦<C as StrictCodec>⟧.IsFaultless n ds
        ↔ AllByRecursion (λ d. C.fault n d ≡ None) ds }
    ensures first { (n : ℕ) (ds : List FieldData) (e : DecodeError) → ⟦<C as StrictCodec>⟧.HasFault n ds e
        ↔ ((front : List FieldData) × (d : FieldData) × (back : List FieldData) × (ds ≡ front ++ d ∷ back)
        × AllByRecursion (λ d. C.fault n d ≡ None) front × (C.fault n d ≡ Some e)) }
{}

/// A strict reading of a message reads records of the kind whose encodings are merged in order, and none only where
/// there is no record; or there is a fault, that of the first record that is of another kind, or whose encoding isn't
/// merged.
///
/// Left open: which fault is told of that encoding; it is not want of memory.
pub fn strict_messages_are_pinned<K: MessageRecord, M: Message>()
    ensures either { FaultlessOrFault ⟦<MessageIn<K, M> as StrictCodec>⟧.IsFaultless
        ⟦<MessageIn<K, M> as StrictCodec>⟧.HasFault }
    ensures whole { (n : ℕ) (ds : List FieldData) → ⟦<MessageIn<K, M> as StrictCodec>⟧.IsFaultless n ds
        ↔ (AllByRecursion (λ d. unless_found (K.held d) K.WIRE_TYPE n d ≡ None) ds × (new : M.Meaning) × (left : BudgetLeft)
        × (merged_all (M.merged 100) M.blank_is (encodings_in K.held ds) ≡ Some new)
        × Pays defaults (cost_all (M.cost 100) (encodings_in K.held ds)) left) }
    ensures absent { NoneIsAbsent ⟦<MessageIn<K, M> as StrictCodec>⟧.IsFaultless ⟦<MessageIn<K, M> as ExtensionCodec>⟧.reads }
    ensures first { (n : ℕ) (ds : List FieldData) (e : DecodeError) → ⟦<MessageIn<K, M> as StrictCodec>⟧.HasFault n ds e
        ↔ ((front : List FieldData) × (d : FieldData) × (back : List FieldData) × (mid : M.Meaning) × (left : BudgetLeft)
        × (ds ≡ front ++ d ∷ back) × AllByRecursion (λ d. unless_found (K.held d) K.WIRE_TYPE n d ≡ None) front
        × ((merged_all (M.merged 100) M.blank_is (encodings_in K.held front) ≡ Some mid)
        × Pays defaults (cost_all (M.cost 100) (encodings_in K.held front)) left)
        × ((unless_found (K.held d) K.WIRE_TYPE n d ≡ Some e) ⊎ ((e ≢ OutOfMemory) × (t : List ℕ) × (K.held d ≡ Some t)
        × MergeFault (M.merged 100 mid t) (M.cost 100 t) left e))) }
{}

/// A strict reading of a list, packed or not, reads records that are elements, or packed ones, each by what those before
/// it leave of the default budget; and its fault is that of the first record that is no element.
pub fn strict_lists_are_pinned<C: StrictElementCodec, P: PackableCodec + StrictElementCodec>()
    ensures whole { (n : ℕ) (ds : List FieldData) → ⟦<Repeated<C> as StrictCodec>⟧.IsFaultless n ds
        ↔ ((left : BudgetLeft) × AreElements (C.IsElement n) (C.leaves 100) defaults ds left) }
    ensures first { (n : ℕ) (ds : List FieldData) (e : DecodeError) → ⟦<Repeated<C> as StrictCodec>⟧.HasFault n ds e
        ↔ ((front : List FieldData) × (d : FieldData) × (back : List FieldData) × (mid : BudgetLeft) × (ds ≡ front ++ d ∷ back)
        × AreElements (C.IsElement n) (C.leaves 100) defaults front mid × C.ElementFault n mid d e) }
    ensures packed_whole { (n : ℕ) (ds : List FieldData) → ⟦<PackedRepeated<P> as StrictCodec>⟧.IsFaultless n ds
        ↔ ((left : BudgetLeft) × AreElements (P.IsElement n) (P.leaves 100) defaults ds left) }
    ensures packed_first { (n : ℕ) (ds : List FieldData) (e : DecodeError) →
        ⟦<PackedRepeated<P> as StrictCodec>⟧.HasFault n ds e
        ↔ ((front : List FieldData) × (d : FieldData) × (back : List FieldData) × (mid : BudgetLeft) × (ds ≡ front ++ d ∷ back)
        × AreElements (P.IsElement n) (P.leaves 100) defaults front mid × P.ElementFault n mid d e) }
{}

/// A strict reading of a list of numbers, packed or not, reads each record of the number, or there is one fault.
pub fn strict_number_lists_are_pinned<N: Numbered>()
    ensures either { FaultlessOrFault ⟦<Repeated<N> as StrictCodec>⟧.IsFaultless
        ⟦<Repeated<N> as StrictCodec>⟧.HasFault }
    ensures reported { OneFault ⟦<Repeated<N> as StrictCodec>⟧.HasFault }
    ensures packed_either { FaultlessOrFault ⟦<PackedRepeated<N> as StrictCodec>⟧.IsFaultless
        ⟦<PackedRepeated<N> as StrictCodec>⟧.HasFault }
    ensures packed_found { OneFault ⟦<PackedRepeated<N> as StrictCodec>⟧.HasFault }
{}

/// The fault of a record: it has another wire type; or, of a string, its bytes are no UTF-8; or, in a list of numbers,
/// it is that of the first payload of packed bytes that is none; or, in a list of messages, its encoding isn't merged
/// into a blank. An element is a record without a fault.
pub fn record_faults_are_these<N: Numbered, K: MessageRecord, M: Message>()
    ensures number { (n : ℕ) (d : FieldData) → ⟦<N as StrictSingularCodec>⟧.fault n d
        ≡ unless_found (N.Form.found d) N.Form.WIRE_TYPE n d }
    ensures string { (n : ℕ) (d : FieldData) → ⟦<StringCodec as StrictSingularCodec>⟧.fault n d ≡ string_fault n d }
    ensures bytes { (n : ℕ) (d : FieldData) → ⟦<BytesCodec as StrictSingularCodec>⟧.fault n d ≡ bytes_fault n d }
    ensures listed { (n : ℕ) (b : BudgetLeft) (d : FieldData) (e : DecodeError) →
        ⟦<N as StrictElementCodec>⟧.ElementFault n b d e ↔ (number_list_fault N.Form.found N.Form.WIRE_TYPE n d ≡ Some e) }
    ensures number_element { (n : ℕ) (b : BudgetLeft) (d : FieldData) →
        ⟦<N as StrictElementCodec>⟧.IsElement n b d ↔ (number_list_fault N.Form.found N.Form.WIRE_TYPE n d ≡ None) }
    ensures string_listed { (n : ℕ) (b : BudgetLeft) (d : FieldData) (e : DecodeError) →
        ⟦<StringCodec as StrictElementCodec>⟧.ElementFault n b d e ↔ (string_fault n d ≡ Some e) }
    ensures string_element { (n : ℕ) (b : BudgetLeft) (d : FieldData) →
        ⟦<StringCodec as StrictElementCodec>⟧.IsElement n b d ↔ (string_fault n d ≡ None) }
    ensures bytes_listed { (n : ℕ) (b : BudgetLeft) (d : FieldData) (e : DecodeError) →
        ⟦<BytesCodec as StrictElementCodec>⟧.ElementFault n b d e ↔ (bytes_fault n d ≡ Some e) }
    ensures bytes_element { (n : ℕ) (b : BudgetLeft) (d : FieldData) →
        ⟦<BytesCodec as StrictElementCodec>⟧.IsElement n b d ↔ (bytes_fault n d ≡ None) }
    ensures message_listed { (n : ℕ) (b : BudgetLeft) (d : FieldData) (e : DecodeError) →
        ⟦<MessageIn<K, M> as StrictElementCodec>⟧.ElementFault n b d e
        ↔ ((unless_found (K.held d) K.WIRE_TYPE n d ≡ Some e) ⊎ ((e ≢ OutOfMemory) × (t : List ℕ) × (K.held d ≡ Some t)
        × MergeFault (M.merged 100 M.blank_is t) (M.cost 100 t) b e)) }
    ensures message_element { (n : ℕ) (b : BudgetLeft) (d : FieldData) →
        ⟦<MessageIn<K, M> as StrictElementCodec>⟧.IsElement n b d ↔ ((v : M.Meaning)
        × (message_of (M.merged 100) (M.cost 100) M.blank_is b (encodings_in K.held (d ∷ [])) ≡ Some v)) }
{}

/// The fault of packed bytes: whole payloads begin them, more follows these, and the fault is why no payload begins
/// that.
pub fn packed_faults_are_these()
    ensures whole { (w : WireType) (bs : List ℕ) (e : DecodeError) → (packed_fault w bs ≡ Some e)
        ↔ ((cs : List PayloadValue) × FaultBehind w cs bs e) }
    ensures none { (w : WireType) → packed_fault w [] ≡ None }
    ensures next { (w : WireType) (bs rest : List ℕ) (c : PayloadValue) → TakesPayloadValue w bs c rest →
        packed_fault w bs ≡ packed_fault w rest }
    ensures fault { (w : WireType) (bs : List ℕ) (e : DecodeError) → bs ≢ [] → PayloadValueFault w bs e →
        packed_fault w bs ≡ Some e }
{}
