//! What the definitions of sets and clears say together: each law is a function with nothing to do, whose
//! contract is the law.

ghost use Rattle.std.specs.Prelude.{◌≡◌, ◌≢◌, ◌↔◌, ◌<◌, ◌≤◌, ◌^◌, ℕ, Bool, List, [], ◌∷◌, ◌++◌, Option, Some, None, Result, Ok, Err, IsOk, false, length, option_map};
ghost use Rattle.std.specs.List.{filter_map};
ghost use Rattle.std.specs.declared.alloc.Global.{Global as GlobalValue};
ghost use Rattle.std.specs.declared.alloc.AllocError.{AllocError as AllocErrorValue};
ghost use Rattle.buffa_ext.specs.declared.descriptor.Make.{Make};
ghost use Rattle.buffa_ext.specs.declared.descriptor.NoDefault.{NoDefault};
ghost use Rattle.buffa_ext.specs.declared.sets_and_clears.Step.TheVariants.{Set};
ghost use Rattle.buffa_bytes.specs.Pinned.{IsCopied, SameIsOne};
ghost use Rattle.buffa_bytes.specs.declared.error.DecodeError.{DecodeError};
ghost use Rattle.buffa_bytes.specs.declared.error.EncodeError.TheVariants.{MessageTooLarge};
ghost use Rattle.buffa_bytes.specs.declared.wire_type.WireType.TheVariants.{LengthDelimited, StartGroup};
ghost use Rattle.buffa_wire.specs.BudgetLeft.{BudgetLeft, Covers, Pays, PaysAtMost, defaults};
ghost use Rattle.buffa_wire.specs.Parse.{Fits};
ghost use Rattle.buffa_wire.specs.Records.{FieldData, bytes as held_bytes, records_of};
ghost use Rattle.buffa_ext_laws.specs.LeftOpenCodecs.{OneAnswer};
ghost use Rattle.buffa_codec.specs.Decoded.{HasByte, bytes_held};
ghost use Rattle.buffa_codec.specs.RecordsOfNumber.{sub};
ghost use Rattle.buffa_ext.specs.SetsAndClears.{SameIsOneStep};
ghost use Rattle.buffa_ext.specs.Messages.{BeginsFieldIn, LeavesOf, MergesRecords, cost_all, group_held, group_of};
ghost use Rattle.buffa_ext.specs.Messages.{group_refusal, merged_all, message_of, encoding_refusal, encodings_in};
ghost use Rattle.buffa_ext_laws.specs.LeftOpenExtensions.{ClearIsPinned, DefaultIsPinned, ListIsExact, MergingIsPinned};
ghost use Rattle.buffa_ext_laws.specs.LeftOpenExtensions.{RecordMergeIsPinned, SetIsPinned};
ghost use Rattle.buffa_ext.specs.SetsAndClears.{ClearsAreOne, IsExactlySet, KeepsTheRest, LeavesOthers, NumberStep};
ghost use Rattle.buffa_ext.specs.SetsAndClears.{ReadsHistory, SecondCounts, ComesLast, TakesOut, TakesThePlace, after, history};

pub use crate::codec_names::{number_names_are_these, other_names_are_these};
pub use crate::extension_words::{
    answers_of_codecs_are_these, answers_with_a_default_are_these, groups_are_these,
    histories_are_these, merged_messages_are_these, replays_are_refused_so, steps_are_these,
};
pub use crate::merging_words::{merged_records_are_these, one_record_is_merged_so};
pub use crate::strict_readings::{
    packed_faults_are_these, record_faults_are_these, strict_lists_are_pinned,
    strict_messages_are_pinned, strict_number_lists_are_pinned, strict_values_are_pinned,
};
use buffa_codec::{ExtensionCodec, LastWins, Repeated, SingularCodec};
use buffa_ext::descriptor::{Declared, Make, NoDefault};
use buffa_ext::message::{GroupCodec, MessageCodec, MessageIn};
use buffa_ext::message_record::{Delimited, Grouped, MessageRecord};
use buffa_ext::sets_and_clears::{ReplayFault, Step};
use buffa_wire::{Message, MessageSpec};
use std::alloc::{AllocError, Global};

/// `==` of steps says whether they are one step, and of faults whether they are one. So two sets of one number are two
/// steps where one is to no records and the other is not. It leaves nothing out.
pub fn equal_steps_are_one()
    ensures step { SameIsOneStep ⟦<Step as PartialEq>⟧.eq }
    ensures emptied { (n : ℕ) (xs ys : _) → xs.items ≡ [] → ys.items ≢ [] →
        ⟦<Step as PartialEq>⟧.eq (Set n xs) (Set n ys) ≡ false }
    ensures fault { SameIsOne ⟦<ReplayFault as PartialEq>⟧.eq }
{}

/// What `clone` makes of a fault, or of a default that isn't declared, is the same again, and it doesn't fail. It leaves
/// nothing out.
pub fn clones_are_these()
    ensures fault { IsCopied ⟦<ReplayFault as Clone>⟧.is_clone ⟦<ReplayFault as Clone>⟧.is_infallible }
    ensures no_default { IsCopied ⟦<NoDefault as Clone>⟧.is_clone ⟦<NoDefault as Clone>⟧.is_infallible }
{}

/// The records of a number after steps are what its last step says.
pub fn last_step_counts()
    ensures { (n : ℕ) (rs : List (ℕ × FieldData)) (cs : List NumberStep) → sub n (after rs cs) ≡ history n rs cs }
{}

/// A set leaves the other numbers, and its records come last.
pub fn sets_leave_others()
    ensures others { LeavesOthers }
    ensures last { ComesLast }
{}

/// After a set the number's records hold what was set, those of other numbers stay, and no other list is so.
pub fn sets_take_the_place()
    ensures place { TakesThePlace }
    ensures others { KeepsTheRest }
    ensures exactly { IsExactlySet }
{}

/// After a clear no record of the number is there, those of other numbers stay, and no other list is so.
pub fn clears_take_out()
    ensures { TakesOut }
{}

/// What a number is read as after steps is what its history is read as: the records of its last set, none
/// after a clear, or else those that were there.
pub fn reads_after_steps<C: ExtensionCodec>()
    ensures { ReadsHistory C.reads }
{}

/// A value that was set is what is read, also after steps at other numbers.
pub fn set_values_are_read<C: ExtensionCodec>()
    ensures { (n : ℕ) (rs : List (ℕ × FieldData)) (cs : List NumberStep) (v : C.Meaning) (o : C.Answer) → C.fits v →
        C.normal v → history n rs cs ≡ C.extension_data v → C.reads (sub n (after rs cs)) o → C.holds v o }
{}

/// Two sets are the second, and two clears are one.
pub fn last_set_counts()
    ensures sets { SecondCounts }
    ensures clears { ClearsAreOne }
{}

/// The records that are read as one message cost together no more than a default budget; and merging
/// records under any budget never spends more than the encodings in them cost together, nor more than was
/// there.
pub fn messages_stay_within_a_budget<K: MessageRecord, M: Message>()
    ensures read { (ds : List FieldData) (v : M.Meaning) → ⟦<MessageIn<K, M> as ExtensionCodec>⟧.reads ds (Some v)
        → Covers defaults (cost_all (M.cost 100) (encodings_in K.held ds)) }
    ensures merged { (ds : List FieldData) (old new : M.Meaning) (before left : BudgetLeft) (r : Result Bool DecodeError) →
        MergesRecords (M.merged 100) (M.cost 100) K.held (K.asks 100) ds old before r new left →
        PaysAtMost before (cost_all (M.cost 100) (filter_map K.held ds)) left
        × (IsOk r → Covers before (cost_all (M.cost 100) (filter_map K.held ds))) }
{}

/// A message is read of the bytes of all records of bytes of its number, or of the records in all its
/// groups, merged in order. A value is read back whose type says so, and whose encoding isn't too deep, nor
/// costs more than the default budget.
pub fn messages_are_read<M: Message>()
    ensures delimited { (ds : List FieldData) (o : Option M.Meaning) → ⟦<MessageCodec<M> as ExtensionCodec>⟧.reads ds o
        ↔ (o ≡ message_of (M.merged 100) (M.cost 100) M.blank_is defaults (filter_map bytes_held ds)) }
    ensures groups { (ds : List FieldData) (o : Option M.Meaning) → ⟦<GroupCodec<M> as ExtensionCodec>⟧.reads ds o
        ↔ (o ≡ message_of (M.merged 100) (M.cost 100) M.blank_is defaults (filter_map group_held ds)) }
    ensures bytes { (v : M.Meaning) → ⟦<MessageCodec<M> as ExtensionCodec>⟧.extension_data v ≡ held_bytes (M.encoding v) ∷ [] }
    ensures group { (v : M.Meaning) → ⟦<GroupCodec<M> as ExtensionCodec>⟧.extension_data v ≡ group_of (M.encoding v) ∷ [] }
    ensures normal { (v : M.Meaning) → ⟦<MessageCodec<M> as ExtensionCodec>⟧.normal v
        ↔ ((M.normal v × (M.levels v ≤ 100) × Fits (records_of (M.records v)))
        × Covers defaults (cost_all (M.cost 100) (M.encoding v ∷ []))) }
    ensures group_normal { (v : M.Meaning) → ⟦<GroupCodec<M> as ExtensionCodec>⟧.normal v
        ↔ ((M.normal v × (M.levels v ≤ 100) × Fits (records_of (M.records v)))
        × Covers defaults (cost_all (M.cost 100) (filter_map group_held (group_of (M.encoding v) ∷ [])))) }
    ensures holds { (v : M.Meaning) (o : Option M.Meaning) → ⟦<MessageCodec<M> as ExtensionCodec>⟧.holds v o
        ↔ (o ≡ Some v) }
    ensures group_holds { (v : M.Meaning) (o : Option M.Meaning) → ⟦<GroupCodec<M> as ExtensionCodec>⟧.holds v o
        ↔ (o ≡ Some v) }
    ensures asks { (ds : List FieldData) → ⟦<MessageCodec<M> as ExtensionCodec>⟧.asks ds
        ↔ ((front : List FieldData) × (d : FieldData) × (back : List FieldData) × (mid : M.Meaning) × (left : BudgetLeft)
        × (ds ≡ front ++ d ∷ back) × ((merged_all (M.merged 100) M.blank_is (encodings_in bytes_held front) ≡ Some mid)
        × Pays defaults (cost_all (M.cost 100) (encodings_in bytes_held front)) left) × BeginsFieldIn bytes_held d) }
    ensures group_asks { (ds : List FieldData) → ⟦<GroupCodec<M> as ExtensionCodec>⟧.asks ds
        ↔ ((front : List FieldData) × (d : FieldData) × (back : List FieldData) × (mid : M.Meaning) × (left : BudgetLeft)
        × (ds ≡ front ++ d ∷ back) × ((merged_all (M.merged 100) M.blank_is (encodings_in group_held front) ≡ Some mid)
        × Pays defaults (cost_all (M.cost 100) (encodings_in group_held front)) left) × HasByte (group_held d)) }
    ensures too_large { (v : M.Meaning) → 2 ^ 31 ≤ length (M.encoding v) → ⟦<MessageCodec<M> as ExtensionCodec>⟧.refusal v
        ≡ Some MessageTooLarge }
    ensures group_too_large { (v : M.Meaning) → 2 ^ 31 ≤ length (M.encoding v) →
        ⟦<GroupCodec<M> as ExtensionCodec>⟧.refusal v ≡ Some MessageTooLarge }
    ensures fits { (v : M.Meaning) → ⟦<MessageCodec<M> as ExtensionCodec>⟧.fits v ↔ (length (M.encoding v) < 2 ^ 31) }
    ensures group_fits { (v : M.Meaning) → ⟦<GroupCodec<M> as ExtensionCodec>⟧.fits v
        ↔ ((length (M.encoding v) < 2 ^ 31) × (group_refusal (M.encoding v) ≡ None)) }
    ensures written { (v : M.Meaning) → length (M.encoding v) < 2 ^ 31 →
        ⟦<MessageCodec<M> as ExtensionCodec>⟧.refusal v ≡ None }
    ensures group_written { (v : M.Meaning) → length (M.encoding v) < 2 ^ 31 →
        ⟦<GroupCodec<M> as ExtensionCodec>⟧.refusal v ≡ group_refusal (M.encoding v) }
{}

/// The same of a message in records of any kind, by what the kind says a record holds, which record holds an encoding, which
/// take memory, and why none holds one.
pub fn messages_in_records_are_read<K: MessageRecord, M: Message>()
    ensures read { (ds : List FieldData) (o : Option M.Meaning) → ⟦<MessageIn<K, M> as ExtensionCodec>⟧.reads ds o
        ↔ (o ≡ message_of (M.merged 100) (M.cost 100) M.blank_is defaults (filter_map K.held ds)) }
    ensures records { (v : M.Meaning) → ⟦<MessageIn<K, M> as ExtensionCodec>⟧.extension_data v ≡ K.holder (M.encoding v) ∷ [] }
    ensures normal { (v : M.Meaning) → ⟦<MessageIn<K, M> as ExtensionCodec>⟧.normal v
        ↔ ((M.normal v × (M.levels v ≤ 100) × Fits (records_of (M.records v)))
        × Covers defaults (cost_all (M.cost 100) (filter_map K.held (K.holder (M.encoding v) ∷ [])))) }
    ensures holds { (v : M.Meaning) (o : Option M.Meaning) → ⟦<MessageIn<K, M> as ExtensionCodec>⟧.holds v o
        ↔ (o ≡ Some v) }
    ensures asks { (ds : List FieldData) → ⟦<MessageIn<K, M> as ExtensionCodec>⟧.asks ds
        ↔ ((front : List FieldData) × (d : FieldData) × (back : List FieldData) × (mid : M.Meaning) × (left : BudgetLeft)
        × (ds ≡ front ++ d ∷ back) × ((merged_all (M.merged 100) M.blank_is (encodings_in K.held front) ≡ Some mid)
        × Pays defaults (cost_all (M.cost 100) (encodings_in K.held front)) left) × K.asks 100 d) }
    ensures too_large { (v : M.Meaning) → 2 ^ 31 ≤ length (M.encoding v) → ⟦<MessageIn<K, M> as ExtensionCodec>⟧.refusal v
        ≡ Some MessageTooLarge }
    ensures written { (v : M.Meaning) → length (M.encoding v) < 2 ^ 31 → ⟦<MessageIn<K, M> as ExtensionCodec>⟧.refusal v
        ≡ K.refusal (M.encoding v) }
    ensures fits { (v : M.Meaning) → ⟦<MessageIn<K, M> as ExtensionCodec>⟧.fits v
        ↔ ((length (M.encoding v) < 2 ^ 31) × (K.refusal (M.encoding v) ≡ None)) }
{}

/// One record of a kind, a user's own too, is read and written as the message whose encoding it holds, at any depth and of any budget,
/// and so is an element of a list. A value is refused where its encoding is 2^31 bytes long or longer, or no record of the kind holds it.
pub fn records_of_a_kind_are_read<K: MessageRecord, M: Message>()
    ensures one { (n : ℕ) (b : BudgetLeft) (d : FieldData) → ⟦<MessageIn<K, M> as SingularCodec>⟧.one n b d
        ≡ message_of (M.merged n) (M.cost n) M.blank_is b (filter_map K.held (d ∷ [])) }
    ensures leaves { (n : ℕ) (b left : BudgetLeft) (d : FieldData) → ⟦<MessageIn<K, M> as SingularCodec>⟧.leaves n b d left
        ↔ LeavesOf (message_of (M.merged n) (M.cost n) M.blank_is b (filter_map K.held (d ∷ []))) b
        (cost_all (M.cost n) (filter_map K.held (d ∷ []))) left }
    ensures cost { (d : FieldData) → ⟦<MessageIn<K, M> as SingularCodec>⟧.cost d
        ≡ cost_all (M.cost 100) (filter_map K.held (d ∷ [])) }
    ensures most { (n : ℕ) (d : FieldData) → ⟦<MessageIn<K, M> as SingularCodec>⟧.most n d
        ≡ cost_all (M.cost n) (filter_map K.held (d ∷ [])) }
    ensures field_data { (v : M.Meaning) → ⟦<MessageIn<K, M> as SingularCodec>⟧.field_data v ≡ K.holder (M.encoding v) }
    ensures too_large { (v : M.Meaning) → 2 ^ 31 ≤ length (M.encoding v) → ⟦<MessageIn<K, M> as SingularCodec>⟧.refusal v
        ≡ Some MessageTooLarge }
    ensures written { (v : M.Meaning) → length (M.encoding v) < 2 ^ 31 → ⟦<MessageIn<K, M> as SingularCodec>⟧.refusal v
        ≡ K.refusal (M.encoding v) }
    ensures fits { (v : M.Meaning) → ⟦<MessageIn<K, M> as SingularCodec>⟧.fits v
        ↔ ((length (M.encoding v) < 2 ^ 31) × (K.refusal (M.encoding v) ≡ None)) }
    ensures normal { (v : M.Meaning) → ⟦<MessageIn<K, M> as SingularCodec>⟧.normal v
        ↔ (M.normal v × (M.levels v ≤ 100) × Fits (records_of (M.records v))) }
    ensures back { (v : M.Meaning) → ⟦<MessageIn<K, M> as SingularCodec>⟧.back v ≡ v }
    ensures asks { (d : FieldData) → ⟦<MessageIn<K, M> as SingularCodec>⟧.asks d ↔ ((n : ℕ) × K.asks n d) }
    ensures packed { (bs : List ℕ) → ⟦<MessageIn<K, M> as SingularCodec>⟧.packed bs ≡ [] }
{}

/// One record of bytes is read and written as a message, at any depth and of any budget, and so is an element
/// of a list. A value is refused exactly where its encoding is 2^31 bytes long or longer.
pub fn message_records_are_read<M: Message>()
    ensures one { (n : ℕ) (b : BudgetLeft) (d : FieldData) → ⟦<MessageCodec<M> as SingularCodec>⟧.one n b d
        ≡ message_of (M.merged n) (M.cost n) M.blank_is b (encodings_in bytes_held (d ∷ [])) }
    ensures leaves { (n : ℕ) (b left : BudgetLeft) (d : FieldData) → ⟦<MessageCodec<M> as SingularCodec>⟧.leaves n b d left
        ↔ LeavesOf (message_of (M.merged n) (M.cost n) M.blank_is b (filter_map bytes_held (d ∷ []))) b
        (cost_all (M.cost n) (filter_map bytes_held (d ∷ []))) left }
    ensures cost { (d : FieldData) → ⟦<MessageCodec<M> as SingularCodec>⟧.cost d
        ≡ cost_all (M.cost 100) (encodings_in bytes_held (d ∷ [])) }
    ensures most { (n : ℕ) (d : FieldData) → ⟦<MessageCodec<M> as SingularCodec>⟧.most n d
        ≡ cost_all (M.cost n) (encodings_in bytes_held (d ∷ [])) }
    ensures field_data { (v : M.Meaning) → ⟦<MessageCodec<M> as SingularCodec>⟧.field_data v ≡ held_bytes (M.encoding v) }
    ensures refusal { (v : M.Meaning) → ⟦<MessageCodec<M> as SingularCodec>⟧.refusal v
        ≡ encoding_refusal (λ t. None) (M.encoding v) }
    ensures fits { (v : M.Meaning) → ⟦<MessageCodec<M> as SingularCodec>⟧.fits v
        ↔ (encoding_refusal (λ t. None) (M.encoding v) ≡ None) }
    ensures too_large { (v : M.Meaning) → 2 ^ 31 ≤ length (M.encoding v) →
        ⟦<MessageCodec<M> as SingularCodec>⟧.refusal v ≡ Some MessageTooLarge }
    ensures written { (v : M.Meaning) → length (M.encoding v) < 2 ^ 31 →
        ⟦<MessageCodec<M> as SingularCodec>⟧.refusal v ≡ None }
    ensures short { (v : M.Meaning) → ⟦<MessageCodec<M> as SingularCodec>⟧.fits v
        ↔ (length (M.encoding v) < 2 ^ 31) }
    ensures normal { (v : M.Meaning) → ⟦<MessageCodec<M> as SingularCodec>⟧.normal v
        ↔ (M.normal v × (M.levels v ≤ 100) × Fits (records_of (M.records v))) }
    ensures back { (v : M.Meaning) → ⟦<MessageCodec<M> as SingularCodec>⟧.back v ≡ v }
    ensures asks { (d : FieldData) → ⟦<MessageCodec<M> as SingularCodec>⟧.asks d ↔ BeginsFieldIn bytes_held d }
    ensures packed { (bs : List ℕ) → ⟦<MessageCodec<M> as SingularCodec>⟧.packed bs ≡ [] }
{}

/// The same of a group, where a shorter encoding is refused too if no records are read of it.
pub fn group_records_are_read<M: Message>()
    ensures one { (n : ℕ) (b : BudgetLeft) (d : FieldData) → ⟦<GroupCodec<M> as SingularCodec>⟧.one n b d
        ≡ message_of (M.merged n) (M.cost n) M.blank_is b (encodings_in group_held (d ∷ [])) }
    ensures leaves { (n : ℕ) (b left : BudgetLeft) (d : FieldData) → ⟦<GroupCodec<M> as SingularCodec>⟧.leaves n b d left
        ↔ LeavesOf (message_of (M.merged n) (M.cost n) M.blank_is b (filter_map group_held (d ∷ []))) b
        (cost_all (M.cost n) (filter_map group_held (d ∷ []))) left }
    ensures cost { (d : FieldData) → ⟦<GroupCodec<M> as SingularCodec>⟧.cost d
        ≡ cost_all (M.cost 100) (encodings_in group_held (d ∷ [])) }
    ensures most { (n : ℕ) (d : FieldData) → ⟦<GroupCodec<M> as SingularCodec>⟧.most n d
        ≡ cost_all (M.cost n) (encodings_in group_held (d ∷ [])) }
    ensures field_data { (v : M.Meaning) → ⟦<GroupCodec<M> as SingularCodec>⟧.field_data v ≡ group_of (M.encoding v) }
    ensures refusal { (v : M.Meaning) → ⟦<GroupCodec<M> as SingularCodec>⟧.refusal v
        ≡ encoding_refusal group_refusal (M.encoding v) }
    ensures fits { (v : M.Meaning) → ⟦<GroupCodec<M> as SingularCodec>⟧.fits v
        ↔ (encoding_refusal group_refusal (M.encoding v) ≡ None) }
    ensures too_large { (v : M.Meaning) → 2 ^ 31 ≤ length (M.encoding v) →
        ⟦<GroupCodec<M> as SingularCodec>⟧.refusal v ≡ Some MessageTooLarge }
    ensures written { (v : M.Meaning) → length (M.encoding v) < 2 ^ 31 →
        ⟦<GroupCodec<M> as SingularCodec>⟧.refusal v ≡ group_refusal (M.encoding v) }
    ensures short { (v : M.Meaning) → ⟦<GroupCodec<M> as SingularCodec>⟧.fits v
        ↔ ((length (M.encoding v) < 2 ^ 31) × (group_refusal (M.encoding v) ≡ None)) }
    ensures normal { (v : M.Meaning) → ⟦<GroupCodec<M> as SingularCodec>⟧.normal v
        ↔ (M.normal v × (M.levels v ≤ 100) × Fits (records_of (M.records v))) }
    ensures back { (v : M.Meaning) → ⟦<GroupCodec<M> as SingularCodec>⟧.back v ≡ v }
    ensures asks { (d : FieldData) → ⟦<GroupCodec<M> as SingularCodec>⟧.asks d ↔ ((n : ℕ) × HasByte (group_held d)) }
    ensures packed { (bs : List ℕ) → ⟦<GroupCodec<M> as SingularCodec>⟧.packed bs ≡ [] }
{}

/// A value means what its message type says, and so does the answer of a reading; a record of bytes holds an
/// encoding without memory.
pub fn messages_mean_these<K: MessageRecord, M: Message>(value: &M, output: &Option<M>)
    ensures value { ⟦<MessageIn<K, M> as ExtensionCodec>⟧.meaning value.now ≡ M.meaning value.now }
    ensures answer { ⟦<MessageIn<K, M> as ExtensionCodec>⟧.answer output.now ≡ option_map M.meaning output.now }
    ensures held { ⟦<Delimited as MessageRecord>⟧.never_fails }
{}

/// A record of bytes holds its bytes, and a group the encoding of its records; their wire types; which of them take
/// memory to be merged, at any depth; and which encodings have no group.
pub fn held_encodings_are_these()
    ensures wire_type { (⟦<Delimited as MessageRecord>⟧.WIRE_TYPE ≡ LengthDelimited)
        × (⟦<Grouped as MessageRecord>⟧.WIRE_TYPE ≡ StartGroup) }
    ensures held { (d : FieldData) → (⟦<Delimited as MessageRecord>⟧.held d ≡ bytes_held d)
        × (⟦<Grouped as MessageRecord>⟧.held d ≡ group_held d) }
    ensures holder { (t : List ℕ) → (⟦<Delimited as MessageRecord>⟧.holder t ≡ held_bytes t)
        × (⟦<Grouped as MessageRecord>⟧.holder t ≡ group_of t) }
    ensures asks { (n : ℕ) (d : FieldData) → (⟦<Delimited as MessageRecord>⟧.asks n d ↔ BeginsFieldIn bytes_held d)
        × (⟦<Grouped as MessageRecord>⟧.asks n d ↔ HasByte (group_held d)) }
    ensures refusal { (t : List ℕ) → (⟦<Delimited as MessageRecord>⟧.refusal t ≡ None)
        × (⟦<Grouped as MessageRecord>⟧.refusal t ≡ group_refusal t) }
{}

/// A default that is declared is what its function makes, and no other; where none is declared there is none.
/// It may be asked for wherever its function may always be called.
pub fn defaults_are_these<V, F: Fn(Global) -> Result<V, AllocError>>()
    ensures none_callable { (s : NoDefault) → ⟦<NoDefault as Declared<V>>⟧.can_declare s }
    ensures none { (s : NoDefault) (o : Option V) → ⟦<NoDefault as Declared<V>>⟧.may_declare s o ↔ (o ≡ None) }
    ensures none_refused { (s : NoDefault) → ⟦<NoDefault as Declared<V>>⟧.may_refuse s → ⊥ }
    ensures callable { (s : Make F) → ⟦<Make<F> as Declared<V>>⟧.can_declare s ↔ F.IsAlwaysCallable s.make }
    ensures made { (s : Make F) (o : Option V) → ⟦<Make<F> as Declared<V>>⟧.may_declare s o
        ↔ ((a : GlobalValue) × (v : V) × F.post s.make a (Ok v) × (o ≡ Some v)) }
    ensures refused { (s : Make F) → ⟦<Make<F> as Declared<V>>⟧.may_refuse s
        ↔ ((a : GlobalValue) × (e : AllocErrorValue) × F.post s.make a (Err e)) }
{}

/// A message is read as one value or none; and merging records in order, or one at any depth, ends in one way,
/// memory aside: it stops at the first encoding that is refused, or at none.
///
/// Not promised: where memory runs out, of those records up to the first refused encoding for which merging may
/// take some (`asks`); which fault is returned for that encoding, and how much of its own cost is spent.
pub fn messages_are_pinned<K: MessageRecord, M: Message>()
    ensures read { OneAnswer ⟦<MessageIn<K, M> as ExtensionCodec>⟧.reads }
    ensures merged { MergingIsPinned (M.merged 100) (M.cost 100) K.held (K.asks 100) }
    ensures record { (n : ℕ) → RecordMergeIsPinned (M.merged n) (M.cost n) K.held }
{}

/// A list of messages whose encodings cost together no more than a default budget has one answer:
/// the value of each encoding that means one.
///
/// Not promised: past that budget, which records behind the first refused one are values.
pub fn lists_of_messages_are_pinned<M: Message>()
    ensures delimited { ListIsExact ⟦<Repeated<MessageCodec<M>> as ExtensionCodec>⟧.reads (M.merged 100) (M.cost 100)
        M.blank_is bytes_held }
    ensures groups { ListIsExact ⟦<Repeated<GroupCodec<M>> as ExtensionCodec>⟧.reads (M.merged 100) (M.cost 100)
        M.blank_is group_held }
{}

/// A number's value, or else its default, is one.
///
/// Not promised: which of the values that a declared default may be it is, where more than one may be.
pub fn defaults_are_pinned<
    C: LastWins,
    D: Declared<C::Value>,
    K: MessageRecord,
    M: Message,
    E: Declared<M>,
>()
    ensures values { (s : D) → DefaultIsPinned ⟦<C as ExtensionCodec>⟧.reads C.Value.meaning C.Value.blank_is
        (D.may_declare s) }
    ensures messages { (s : E) → DefaultIsPinned ⟦<MessageIn<K, M> as ExtensionCodec>⟧.reads M.meaning M.blank_is
        (E.may_declare s) }
{}

/// Sets and clears leave one list of records.
///
/// Not promised: how much spare capacity the list has, beyond what `room` says.
pub fn steps_are_pinned()
    ensures sets { SetIsPinned }
    ensures clears { ClearIsPinned }
{}
