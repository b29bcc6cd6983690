//! What the definitions of records say together: each law is a function with nothing to do, whose contract
//! is the law.

ghost use Rattle.std.specs.Prelude.{◌≡◌, ◌≢◌, ◌-◌, ◌^◌, ◌≤◌, ◌↔◌, ◌∷◌, [], ◌++◌, ℕ, ℤ, List, Some, None, Ok, Err, true, false, length, pos, slice_index, ◌+◌, ◌<◌, Result};
ghost use Rattle.std.specs.List.{AllByRecursion};
ghost use Rattle.std.specs.Option.{option_and_then};
ghost use Rattle.buffa_bytes.specs.declared.wire_type.WireType.{WireType};
ghost use Rattle.buffa_bytes.specs.declared.error.DecodeError.{DecodeError};
ghost use Rattle.buffa_bytes.specs.declared.error.DecodeError.TheVariants.{OutOfMemory, UnknownFieldLimitExceeded};
ghost use Rattle.buffa_bytes.specs.Field.{PayloadFault, SomeField, IsTag};
ghost use Rattle.buffa_bytes.specs.Readings.{tag_at};
ghost use Rattle.buffa_wire.specs.Message.{TakesMessageField};
ghost use Rattle.buffa_wire.specs.declared.context.DecodeContext.{DecodeContext};
ghost use Rattle.buffa_bytes.specs.Join.{Join};
ghost use Rattle.buffa_bytes.specs.Varint.{IsByte};
ghost use Rattle.buffa_wire.specs.Records.{FieldData, Held, height, records_of};
ghost use Rattle.buffa_wire.specs.RecordsOfValues.{field_data_of, record_of};
ghost use Rattle.buffa_wire.specs.Encoding.{records_encoding};
ghost use Rattle.buffa_wire.specs.Parse.{AreValid, FieldFault, Fits, InRange, Parse, RecordsFault, TakesField, field_count};
ghost use Rattle.buffa_wire.specs.RecordReading.{field_at, list_at};
ghost use Rattle.buffa_wire.specs.BudgetLeft.{BudgetLeft, nothing, plus};
ghost use Rattle.buffa_wire.specs.Cache.{Cache, advanced, appended};
ghost use Rattle.buffa_wire.specs.Enums.{open_number};
ghost use Rattle.buffa_wire.specs.KeptField.{keep_charge, more_left};
ghost use Rattle.buffa_wire.specs.Passes.{IsNext};
ghost use Rattle.buffa_wire.specs.Pinned.{BudgetIsPinned, FieldIsPinned, FieldMergeIsPinned, InsideIsPinned, MergeIsPinned, PassesArePinned, RecordsArePinned};

pub use crate::scalars::{
    forms_are_these, scalars_are_read, scalars_are_written, scalars_cost_so_much,
    scalars_have_lengths, scalars_have_wire_types,
};
use buffa_bytes::Blank;
use buffa_wire::budget::{DEFAULT_ELEMENT_MEMORY_LIMIT, DEFAULT_UNKNOWN_FIELD_LIMIT};
use buffa_wire::context::RECURSION_LIMIT;
use buffa_wire::enumeration::{EnumValue, Enumeration};
use buffa_wire::message::{MAX_MESSAGE_BYTES, Message, MessageSpec};
use buffa_wire::message_impl::{MessageImpl, MessageMethods};
use buffa_wire::unknown_fields::{UnknownField, UnknownFieldData, UnknownFields};

/// Whole bytes are read as records exactly where the grammar has them and an unknown field is left for each
/// record, nested ones too; else the first fault is returned.
pub fn records_are_read()
    ensures ok { (d s : ℕ) (bs : List ℕ) (rs : List (ℕ × FieldData)) → (list_at d s bs ≡ Ok rs)
        ↔ (Parse d bs (records_of rs) × (field_count (records_of rs) ≤ s)) }
    ensures err { (d s : ℕ) (bs : List ℕ) (e : DecodeError) → (list_at d s bs ≡ Err e) ↔ RecordsFault d s bs e }
{}

/// The same of one field after its tag, and how many unknown fields it leaves, and what of the bytes.
pub fn fields_are_read()
    ensures ok { (d s n : ℕ) (w : WireType) (bs : List ℕ) (x : FieldData) (left : ℕ) (rest : List ℕ) →
        (field_at d s n w bs ≡ Ok (x, left, rest)) ↔ TakesField d s n w bs x left rest }
    ensures err { (d s n : ℕ) (w : WireType) (bs : List ℕ) (e : DecodeError) → (field_at d s n w bs ≡ Err e)
        ↔ FieldFault d s n w bs e }
{}

/// What a field costs that is kept, a malformed one too: it is refused for want of unknown fields exactly where fewer are
/// left. With more of them the result is the same, and so many more are left then. Nothing is left out.
pub fn kept_fields_cost_so_much()
    ensures limit { (d s n : ℕ) (w : WireType) (bs : List ℕ) → (field_at d s n w bs ≡ Err UnknownFieldLimitExceeded)
        ↔ (s < (keep_charge d n w bs).unknown) }
    ensures units { (d n : ℕ) (w : WireType) (bs : List ℕ) → (keep_charge d n w bs).memory ≡ 0 }
    ensures more { (d s k n : ℕ) (w : WireType) (bs : List ℕ) → field_at d s n w bs ≢ Err UnknownFieldLimitExceeded →
        field_at d (s + k) n w bs ≡ more_left k (field_at d s n w bs) }
{}

/// Out of memory is no fault of the bytes.
pub fn memory_is_no_fault()
    ensures field { (d s n : ℕ) (w : WireType) (bs : List ℕ) → field_at d s n w bs ≢ Err OutOfMemory }
    ensures records { (d s : ℕ) (bs : List ℕ) → list_at d s bs ≢ Err OutOfMemory }
{}

/// The constants: how deep and with which budget a message is read where nothing else is said, and how
/// long a message may be.
pub fn constants()
    ensures recursion_limit { RECURSION_LIMIT ≡ 100 }
    ensures unknown_fields { DEFAULT_UNKNOWN_FIELD_LIMIT ≡ 1000000 }
    ensures element_memory { DEFAULT_ELEMENT_MEMORY_LIMIT ≡ 2 ^ 28 }
    ensures message_bytes { MAX_MESSAGE_BYTES ≡ 2 ^ 31 - 1 }
{}

/// Records are what fields say: bytes are a join of fields exactly where they are the fields of records, and
/// more depth changes nothing. Such records have numbers that a field may have, and data in range.
pub fn records_are_fields()
    ensures fields { (d : ℕ) (bs : List ℕ) → Join (SomeField d) bs
        ↔ ((rs : List (ℕ × FieldData)) × Parse d bs (records_of rs)) }
    ensures deeper { (c d : ℕ) (bs : List ℕ) (rs : List (ℕ × FieldData)) → c ≤ d → Parse c bs (records_of rs) →
        Parse d bs (records_of rs) }
    ensures valid { (d : ℕ) (bs : List ℕ) (rs : List (ℕ × FieldData)) → AllByRecursion IsByte bs →
        Parse d bs (records_of rs) → AreValid (records_of rs) }
{}

/// Bytes are the fields of one list of records, at any depths.
pub fn one_reading()
    ensures { (bs : List ℕ) (c d : ℕ) (rs qs : List (ℕ × FieldData)) → Parse c bs (records_of rs) →
        Parse d bs (records_of qs) → rs ≡ qs }
{}

/// The encoding of valid records that fit is theirs, at a depth that their groups need, and it is read back with an
/// unknown field left for each. All records fit whose encoding is shorter than 2^64 bytes. The encoding of any records
/// whose data are in range is that of no others.
pub fn encodings_are_read_back()
    ensures parses { (d : ℕ) (rs : List (ℕ × FieldData)) → AreValid (records_of rs) → Fits (records_of rs) → height rs ≤ d →
        Parse d (records_encoding rs) (records_of rs) }
    ensures read { (d s : ℕ) (rs : List (ℕ × FieldData)) → AreValid (records_of rs) → Fits (records_of rs) → height rs ≤ d →
        field_count (records_of rs) ≤ s → list_at d s (records_encoding rs) ≡ Ok rs }
    ensures fits { (rs : List (ℕ × FieldData)) → length (records_encoding rs) < 2 ^ 64 → Fits (records_of rs) }
    ensures theirs { (d : ℕ) (rs qs : List (ℕ × FieldData)) → InRange (records_of rs) →
        Parse d (records_encoding rs) (records_of qs) → qs ≡ rs }
{}

/// `==` holds of unknown fields exactly where their records are equal.
pub fn equality_is_of_records()
    ensures fields { (a b : Held) → (⟦<UnknownFields as PartialEq>⟧.eq a b ≡ true) ↔ (a.records ≡ b.records) }
    ensures field { (a b : UnknownField) → (⟦<UnknownField as PartialEq>⟧.eq a b ≡ true) ↔ (record_of a ≡ record_of b) }
    ensures payload { (a b : UnknownFieldData) → (⟦<UnknownFieldData as PartialEq>⟧.eq a b ≡ true)
        ↔ (field_data_of a ≡ field_data_of b) }
{}

/// Merging no bytes changes nothing. A field is merged, and then what follows it into what the field makes, and nothing
/// where it makes nothing. Bytes that are no fields, one after the other, mean no value.
pub fn merging_is_by_fields<M: MessageSpec>()
    ensures none { (d : ℕ) (v : M.Meaning) → M.merged d v [] ≡ Some v }
    ensures next { (d : ℕ) (v : M.Meaning) (f r : List ℕ) → SomeField d f → M.merged d v (f ++ r)
        ≡ option_and_then (λ u. M.merged d u r) (M.merged d v f) }
    ensures no_fields { (d : ℕ) (v : M.Meaning) (bs : List ℕ) → (Join (SomeField d) bs → ⊥) → M.merged d v bs ≡ None }
{}

/// No bytes cost nothing, and a field and what follows it cost what both do. What is no field costs what the type says of its
/// tag, and nothing where no tag is there.
#[tactic(auto, using(buffa_wire::proofs::TakesLemmas::cost_of_no_tag))]
pub fn costs_add<M: MessageSpec>()
    ensures none { (d : ℕ) → M.cost d [] ≡ nothing }
    ensures no_tag { (d : ℕ) (bs : List ℕ) (e : DecodeError) → tag_at bs ≡ Err e → M.cost d bs ≡ nothing }
    ensures no_payload { (d n : ℕ) (w : WireType) (t bs : List ℕ) (e : DecodeError) → IsTag t n w → PayloadFault d n w bs e →
        M.cost d (t ++ bs) ≡ M.charge d n w bs }
    ensures next { (d : ℕ) (f r : List ℕ) → SomeField d f → M.cost d (f ++ r) ≡ plus (M.cost d f) (M.cost d r) }
{}

/// Whole bytes are merged in one way, and what is merged isn't refused, memory aside.
///
/// Not promised: on a refusal which error is returned (any but a limit's where the bytes mean no value, any where their cost
/// isn't left), what is left of the budget between nothing and all of the cost spent, what is unread, and what
/// the type doesn't say of the field that is refused.
pub fn merging_is_pinned<M: Message>()
    ensures { (d : ℕ) (old : M.Meaning) (bs : List ℕ) (before : BudgetLeft) → MergeIsPinned (M.merged d old bs)
        (M.cost d bs) before }
{}

/// The same of one field, and of what follows it.
///
/// Not promised: what isn't promised of whole bytes, and what is left of the buffer after a refusal.
pub fn merging_a_field_is_pinned<M: Message>()
    ensures { (d n : ℕ) (w : WireType) (t : List ℕ) (tag : IsTag t n w) (old : M.Meaning) (bs : List ℕ)
        (before : BudgetLeft) → FieldMergeIsPinned M.merged M.cost d n w t tag old bs before }
{}

/// The same of a length and a message, which leave one rest of bytes that are refused.
///
/// Not promised: what isn't promised of whole bytes; and where memory runs out, how many of the bytes are unread,
/// but no fewer than follow the message.
pub fn merging_inside_is_pinned<M: Message>()
    ensures { (d : ℕ) (old : M.Meaning) (bs : List ℕ) (before : BudgetLeft) → InsideIsPinned M.merged M.cost d old bs
        before }
{}

/// A value is sized and, where its encoding is small, written in one way.
///
/// Not promised: when memory runs out, how many slots are reserved then, and what is written of an encoding that
/// isn't small.
pub fn passes_are_pinned()
    ensures { (encoding slots : List ℕ) (old : Cache) → PassesArePinned encoding slots old }
{}

/// A field, and whole bytes, are read as one list of records, or refused by one fault.
///
/// Not promised: when memory runs out of those cases where reading takes any, and what is unread then; of a group
/// that is refused how many of the unknown fields left are spent, at most one and one for each byte that was
/// read, and what is unread.
pub fn records_are_pinned()
    ensures field { (d s n : ℕ) (w : WireType) (bs : List ℕ) → FieldIsPinned d s n w bs }
    ensures whole { (d s : ℕ) (bs : List ℕ) → RecordsArePinned d s bs }
{}

/// A type that is a message as another says means, costs and is written as that one says, and of a field that is
/// refused it leaves what that one says. It doesn't say where memory runs out: the calls of the message do.
pub fn message_impls_are_these<M: MessageImpl>()
where
    M::Impl: MessageMethods<M>,
    ensures merged { (⟦<M as MessageSpec>⟧.merged ≡ M.Impl.merged) × (⟦<M as MessageSpec>⟧.cost ≡ M.Impl.cost) }
    ensures encoding { (v : M.Meaning) → ⟦<M as MessageSpec>⟧.encoding v ≡ records_encoding (M.Impl.records v) }
    ensures records { ⟦<M as MessageSpec>⟧.records ≡ M.Impl.records }
    ensures slots { ⟦<M as MessageSpec>⟧.slots ≡ M.Impl.slots }
    ensures levels { ⟦<M as MessageSpec>⟧.levels ≡ M.Impl.levels }
    ensures refused { (d : ℕ) (v : M.Meaning) (n : ℕ) (w : WireType) (bs : List ℕ) (l : BudgetLeft) (e : DecodeError)
        (u : M.Meaning) → ⟦<M as MessageSpec>⟧.Refused d v n w bs l e u ↔ M.Impl.Refused d v n w bs l e u }
    ensures taken { (ctx : DecodeContext) (old new : M) (n : ℕ) (w : WireType) (bs rest : List ℕ) (after : BudgetLeft)
        (r : Result (Unit {0}) DecodeError) → TakesMessageField M.Impl.Taken ctx old n w bs r new after rest
        ↔ M.Impl.Taken ctx.depth old n w bs ctx.budget.now r new after rest }
    ensures normal { (v : M.Meaning) → ⟦<M as MessageSpec>⟧.normal v ↔ M.Impl.normal v }
    ensures units { ⟦<M as MessageSpec>⟧.COST ≡ M.Impl.COST }
{}

/// What is spent leaves one budget, and it is spent exactly where it is there. Nothing is left out.
pub fn budgets_are_pinned()
    ensures { (left charge : BudgetLeft) → BudgetIsPinned left charge }
{}

/// What a value of an open enum means: of a declared value that it is declared, and its number; of a number that it is
/// none, and the number. It is read as the declared value of the number, where one has it. Nothing is left out.
pub fn open_enums_are_these<E: Enumeration>()
    ensures known { (v : E) → ⟦<EnumValue<E> as Blank>⟧.meaning (EnumValue.Known v) ≡ (true, E.meaning v) }
    ensures number { (n : ℤ) → ⟦<EnumValue<E> as Blank>⟧.meaning (EnumValue.Unknown n) ≡ (false, n) }
    ensures blank { ⟦<EnumValue<E> as Blank>⟧.blank_is ≡ open_number E.of_number (pos 0) }
    ensures read { (v : E) → open_number E.of_number (E.meaning v) ≡ (true, E.meaning v) }
{}

/// `==` of values of an open enum: declared ones are compared by their type, numbers as numbers, and a declared one
/// never equals a number. `clone` clones a declared one by its type, and fails only where that may fail; a number is
/// the same. Nothing else is left out.
pub fn open_enums_are_compared<E: Enumeration + Clone + PartialEq>()
    ensures known { (a b : E) → ⟦<EnumValue<E> as PartialEq>⟧.eq (EnumValue.Known a) (EnumValue.Known b) ≡ E.eq a b }
    ensures number { (m n : ℤ) → (⟦<EnumValue<E> as PartialEq>⟧.eq (EnumValue.Unknown m) (EnumValue.Unknown n) ≡ true)
        ↔ (m ≡ n) }
    ensures apart { (a : E) (n : ℤ) → ⟦<EnumValue<E> as PartialEq>⟧.eq (EnumValue.Known a) (EnumValue.Unknown n) ≡ false }
    ensures back_through { (a : E) (n : ℤ) → ⟦<EnumValue<E> as PartialEq>⟧.eq (EnumValue.Unknown n) (EnumValue.Known a)
        ≡ false }
    ensures known_clone { (a : E) (c : EnumValue E) → ⟦<EnumValue<E> as Clone>⟧.is_clone (EnumValue.Known a) c →
        (b : E) × (c ≡ EnumValue.Known b) × E.is_clone a b }
    ensures number_clone { (n : ℤ) (c : EnumValue E) → ⟦<EnumValue<E> as Clone>⟧.is_clone (EnumValue.Unknown n) c → c
        ≡ EnumValue.Unknown n }
    ensures known_made { (a : E) → E.is_infallible a → ⟦<EnumValue<E> as Clone>⟧.is_infallible (EnumValue.Known a) }
    ensures number_made { (n : ℤ) → ⟦<EnumValue<E> as Clone>⟧.is_infallible (EnumValue.Unknown n) }
{}

/// Slots are consumed in the order in which they were reserved: those that are appended where all are consumed are
/// the next ones, and the first of the next ones is consumed. Nothing is left out but the spare capacity.
pub fn slots_are_consumed_in_order()
    ensures reserved { (slots : List ℕ) (c : Cache) → c.next ≡ length c.slots → IsNext slots (appended slots c) }
    ensures consumed { (n : ℕ) (slots : List ℕ) (c : Cache) → IsNext (n ∷ slots) c →
        (slice_index c.slots c.next ≡ n) × IsNext slots (advanced 1 c) }
{}
