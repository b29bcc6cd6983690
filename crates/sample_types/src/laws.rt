//! What the definitions of the samples say together: each law is a function with nothing to do, whose contract is the
//! law.

ghost use Rattle.std.specs.Prelude.{Bool, true, ◌≡◌, ◌↔◌, ◌<◌, ◌+◌, ◌^◌, ℕ, ℤ, FitsSigned, List, [], ◌++◌, None, Some, if◌then◌else◌, pos, string_bytes};
ghost use Rattle.std.specs.Hash as fed;
ghost use Rattle.std.specs.Int.{w32};
ghost use Rattle.std.specs.List.{AllByRecursion};
ghost use Rattle.std.specs.Option.{option_map};
ghost use Rattle.std.specs.Ordering.{int_cmp, int_eq};
ghost use Rattle.buffa_bytes.specs.Pinned.{IsCopied, SameIsOne};
ghost use Rattle.buffa_bytes.specs.Varint.{IsByte};
ghost use Rattle.buffa_fields.specs.Calls.{KeepsFields};
ghost use Rattle.buffa_fields.specs.UndeclaredFields.{keep_takes};
ghost use Rattle.buffa_wire.specs.Takes.{cost_of, merged_of};
ghost use Rattle.buffa_wire.specs.BudgetLeft.{nothing};
ghost use Rattle.buffa_wire.specs.Enums.{numbers};
ghost use Rattle.buffa_wire.specs.KeptField.{keep_charge};
ghost use Rattle.buffa_wire.specs.Parse.{AreValid, Fits};
ghost use Rattle.buffa_wire.specs.Records.{FieldData, height, records_of};
ghost use Rattle.buffa_wire.specs.Encoding.{records_encoding};
ghost use Rattle.sample_types.specs.Count.{IsCountRefused, count_cost, count_merged, count_records, count_encoding};
ghost use Rattle.sample_types.specs.Fields.{number_encoding, number_records, value_encoding, value_field, value_records};
ghost use Rattle.sample_types.specs.Letters.{lower, same_letters};
ghost use Rattle.sample_types.specs.Numbers.{ReadsAlone, flat_takes, two_field, two_takes};
ghost use Rattle.sample_types.specs.Passed.{proxy};
ghost use Rattle.sample_types.specs.Pinned.{PassIsPinned, TripIsPinned};
ghost use Rattle.sample_types.specs.Trees.{Children, Grown, HasTreeFault, IsTreeOf, grown, tree_levels, tree_charge, tree_records, tree_slots, tree_takes};

use crate::count::CountMsg;
use crate::flat::FlatMsg;
use crate::hues::{New, Old};
use crate::keep::BudgetMsg;
use crate::passed_on::{Pass, Way};
use crate::tree::Tree;
use crate::two::TestMsg;
use crate::word::Word;
pub use crate::word_laws::{
    answers_of_proxies_are_these, answers_of_trips_are_these, censuses_are_read_so,
    fields_are_counted_so, letters_are_these, names_are_their_bytes, proxies_are_these,
    runs_are_passed_on_so, trips_are_refused_so,
};
use buffa_fields::messages::message::members_read_back;
use buffa_fields::messages::message_fields::MessageFields;
use buffa_fields_laws::recursive_messages;
use buffa_map::map_codec::{MapCodec, MapStorage};
use buffa_wire::{Blank, Enumeration, MapKey, MessageSpec, ProtoString};
use std::collections::BTreeMap;
use std::hash::Hash;

/// What a tree is as a message, one level at a time: what it is written as, what bytes make of it and cost, which fault
/// refuses a field, and which trees read back. Of its children it says what the type says of any tree. Nothing is left out.
pub fn trees_are_these(tree: &Tree)
    ensures encoding { (t : Grown) →
        ⟦<Tree as MessageSpec>⟧.encoding t ≡ records_encoding (⟦<Tree as MessageSpec>⟧.records t) }
    ensures records { (l : ℤ) (es : Children) → ⟦<Tree as MessageSpec>⟧.records (grown l es)
        ≡ tree_records ⟦<Tree as MessageSpec>⟧.encoding l es }
    ensures slots { (l : ℤ) (es : Children) → ⟦<Tree as MessageSpec>⟧.slots (grown l es)
        ≡ tree_slots ⟦<Tree as MessageSpec>⟧.encoding ⟦<Tree as MessageSpec>⟧.slots es }
    ensures levels { (l : ℤ) (es : Children) → ⟦<Tree as MessageSpec>⟧.levels (grown l es)
        ≡ tree_levels ⟦<Tree as MessageSpec>⟧.levels es }
    ensures merged { (d : ℕ) (l : ℤ) (es : Children) (bs : List ℕ) → ⟦<Tree as MessageSpec>⟧.merged d (grown l es) bs
        ≡ option_map (λ t. grown t.0 t.1)
        (merged_of (tree_takes ⟦<Tree as MessageSpec>⟧.merged ⟦<Tree as MessageSpec>⟧.cost) d (l, es) bs) }
    ensures cost { (d : ℕ) (bs : List ℕ) → ⟦<Tree as MessageSpec>⟧.cost d bs
        ≡ cost_of (tree_charge ⟦<Tree as MessageSpec>⟧.merged ⟦<Tree as MessageSpec>⟧.cost) d bs }
    ensures refused { (d : ℕ) (l : ℤ) (es : Children) (n : ℕ) (w : _) (bs : List ℕ) (left : _) (e : _) (m : ℤ)
        (fs : Children) → ⟦<Tree as MessageSpec>⟧.Refused d (grown l es) n w bs left e (grown m fs)
        ↔ ((grown m fs ≡ grown l es)
        × HasTreeFault ⟦<Tree as MessageSpec>⟧.merged ⟦<Tree as MessageSpec>⟧.cost d n w bs left e) }
    ensures normal { (l : ℤ) (es : Children) → ⟦<Tree as MessageSpec>⟧.normal (grown l es)
        ↔ IsTreeOf (λ t. ⟦<Tree as MessageSpec>⟧.normal t × Fits (records_of (⟦<Tree as MessageSpec>⟧.records t))) l es }
    ensures fits { (l : ℤ) (es : Children) → Fits (records_of (⟦<Tree as MessageSpec>⟧.records (grown l es))) →
        (⟦<Tree as MessageSpec>⟧.normal (grown l es) ↔ IsTreeOf ⟦<Tree as MessageSpec>⟧.normal l es) }
    ensures only { (t : Grown) → ⟦<Tree as MessageSpec>⟧.normal t → (l : ℤ) × (es : Children) × (t ≡ grown l es) }
    ensures blank { ⟦<Tree as Blank>⟧.blank_is ≡ grown (pos 0) [] }
    ensures costs { ⟦<Tree as MessageSpec>⟧.COST ≡ 32 }
{
    recursive_messages::members_read_back(tree);
}

/// What bytes make of a normal tree is normal, where its records fit, and so is the blank one. And what holds of each tree
/// whose label and keys are int32, whose keys ascend, and of whose children it holds, holds of what bytes make of such a tree.
pub fn trees_stay_normal(tree: &Tree)
    ensures merged { (d : ℕ) (t u : Grown) (bs : List ℕ) → ⟦<Tree as MessageSpec>⟧.normal t →
        ⟦<Tree as MessageSpec>⟧.merged d t bs ≡ Some u → Fits (records_of (⟦<Tree as MessageSpec>⟧.records u)) →
        ⟦<Tree as MessageSpec>⟧.normal u }
    ensures all { (p : Grown → Bool) →
        ((l : ℤ) (es : Children) → IsTreeOf (λ t. p t ≡ true) l es → p (grown l es) ≡ true) → (d : ℕ) (l : ℤ) (es : Children)
        (u : Grown) (bs : List ℕ) → IsTreeOf (λ t. p t ≡ true) l es →
        ⟦<Tree as MessageSpec>⟧.merged d (grown l es) bs ≡ Some u →
        (m : ℤ) × (fs : Children) × (u ≡ grown m fs) × IsTreeOf (λ t. p t ≡ true) m fs }
    ensures blank { ⟦<Tree as MessageSpec>⟧.normal ⟦<Tree as Blank>⟧.blank_is }
{
    recursive_messages::members_read_back(tree);
}

/// What bytes make of a normal message that keeps its fields is normal, and so is the blank one: the numbers that are read may
/// be a field's, and the data are in range.
pub fn kept_fields_stay_normal()
    ensures merged { (d : ℕ) (rs qs : List (ℕ × FieldData)) (bs : List ℕ) → AllByRecursion IsByte bs →
        ⟦<BudgetMsg as MessageSpec>⟧.normal rs → ⟦<BudgetMsg as MessageSpec>⟧.merged d rs bs ≡ Some qs →
        ⟦<BudgetMsg as MessageSpec>⟧.normal qs }
    ensures blank { ⟦<BudgetMsg as MessageSpec>⟧.normal ⟦<BudgetMsg as Blank>⟧.blank_is }
{}

/// Which message each sample is: what bytes make of it, what they cost, and its encoding; of trees `trees_are_these` says it.
/// Which fault refuses a field of `FlatMsg`, `TestMsg` and `BudgetMsg`, `fields_are_read_alone` says. Nothing else is left out.
pub fn messages_are_these()
    ensures flat { ⟦<FlatMsg as MessageSpec>⟧.merged ≡ merged_of flat_takes }
    ensures flat_encoding { (v : _) → ⟦<FlatMsg as MessageSpec>⟧.encoding v ≡ value_encoding v.0 }
    ensures two { ⟦<TestMsg as MessageSpec>⟧.merged ≡ merged_of two_takes }
    ensures two_encoding { (v : _) → ⟦<TestMsg as MessageSpec>⟧.encoding v
        ≡ number_encoding 1 v.0 ++ number_encoding 2 v.1.0 }
    ensures flat_cost { (d : ℕ) (bs : List ℕ) → ⟦<FlatMsg as MessageSpec>⟧.cost d bs ≡ nothing }
    ensures two_cost { (d : ℕ) (bs : List ℕ) → ⟦<TestMsg as MessageSpec>⟧.cost d bs ≡ nothing }
    ensures count { (⟦<CountMsg as MessageSpec>⟧.merged ≡ count_merged) × (⟦<CountMsg as MessageSpec>⟧.cost ≡ count_cost) }
    ensures count_encoding { ⟦<CountMsg as MessageSpec>⟧.encoding ≡ count_encoding }
    ensures keep { (⟦<BudgetMsg as MessageSpec>⟧.merged ≡ merged_of keep_takes)
        × (⟦<BudgetMsg as MessageSpec>⟧.cost ≡ cost_of keep_charge) }
    ensures keep_encoding { ⟦<BudgetMsg as MessageSpec>⟧.encoding ≡ records_encoding }
    ensures numbers_slots { (⟦<FlatMsg as MessageSpec>⟧.slots ≡ (λ _. [])) × (⟦<TestMsg as MessageSpec>⟧.slots ≡ (λ _. [])) }
    ensures lists_slots { (⟦<CountMsg as MessageSpec>⟧.slots ≡ (λ _. [])) × (⟦<BudgetMsg as MessageSpec>⟧.slots ≡ (λ _. [])) }
    ensures numbers_cost { (⟦<FlatMsg as MessageSpec>⟧.COST ≡ 4) × (⟦<TestMsg as MessageSpec>⟧.COST ≡ 32) }
    ensures lists_cost { (⟦<CountMsg as MessageSpec>⟧.COST ≡ 8) × (⟦<BudgetMsg as MessageSpec>⟧.COST ≡ 24) }
    ensures flat_records { (v : _) → ⟦<FlatMsg as MessageSpec>⟧.records v ≡ value_records v.0 }
    ensures two_records { (v : _) → ⟦<TestMsg as MessageSpec>⟧.records v
        ≡ number_records 1 v.0 ++ number_records 2 v.1.0 }
    ensures lists_records { (⟦<CountMsg as MessageSpec>⟧.records ≡ count_records)
        × (⟦<BudgetMsg as MessageSpec>⟧.records ≡ (λ rs. rs)) }
    ensures count_refused { (d v n : ℕ) (w : _) (bs : List ℕ) (l : _) (e : _) (u : ℕ) →
        ⟦<CountMsg as MessageSpec>⟧.Refused d v n w bs l e u ↔ IsCountRefused d v n w bs l e u }
{}

/// What the values of the samples of numbers mean: their fields. Nothing is left out.
pub fn messages_mean_these()
    ensures flat { (m : FlatMsg) → ⟦<FlatMsg as Blank>⟧.meaning m ≡ (m.value, tt) }
    ensures two { (m : TestMsg) → ⟦<TestMsg as Blank>⟧.meaning m ≡ (m.a, (m.b, tt)) }
    ensures count { (m : CountMsg) → ⟦<CountMsg as Blank>⟧.meaning m ≡ m.count }
    ensures keep { (m : BudgetMsg) → ⟦<BudgetMsg as Blank>⟧.meaning m ≡ m.fields.records }
    ensures tree { (m : Tree) → ⟦<Tree as Blank>⟧.meaning m ≡ m }
{}

/// A value is what it means: no member of a sample is left out of what is said of it. Where a list keeps fields, it
/// doesn't say how much spare capacity it has; nothing else is left out.
pub fn messages_are_what_they_mean()
    ensures flat { (a b : FlatMsg) → ⟦<FlatMsg as Blank>⟧.meaning a ≡ ⟦<FlatMsg as Blank>⟧.meaning b → a ≡ b }
    ensures two { (a b : TestMsg) → ⟦<TestMsg as Blank>⟧.meaning a ≡ ⟦<TestMsg as Blank>⟧.meaning b → a ≡ b }
    ensures count { (a b : CountMsg) → ⟦<CountMsg as Blank>⟧.meaning a ≡ ⟦<CountMsg as Blank>⟧.meaning b → a ≡ b }
    ensures keep { (a b : BudgetMsg) → a.fields ≡ b.fields → a ≡ b }
{}

/// What a tree means is what its fields hold: its label, and its children by their keys. Nothing is left out.
pub fn trees_hold_these(tree: &Tree) -> (&i32, &BTreeMap<i32, Tree>)
    ensures { tree.now ≡ grown result.0.now result.1.now.entries }
{
    (&tree.label, &tree.children)
}

/// A field of the samples of numbers is merged as its bytes say, or refused by its fault, and changes nothing then;
/// nothing is spent. Where fields are kept, each is, or is refused so. Open is what is unread of a number that is
/// refused, and where memory runs out.
pub fn fields_are_read_alone()
    ensures flat { ReadsAlone ⟦<FlatMsg as MessageFields>⟧.schema.Taken value_field (λ m. m.value) }
    ensures two { ReadsAlone ⟦<TestMsg as MessageFields>⟧.schema.Taken two_field (λ m. (m.a, m.b)) }
    ensures keep { KeepsFields ⟦<BudgetMsg as MessageFields>⟧.schema.Taken (λ m. m.fields.records) }
{}

/// How deep a value nests is exactly so deep: at no lesser depth are its encoding's bytes merged, so that it isn't read back
/// there. Those of a tree aren't merged into any other tree either. Of the others no value nests. Nothing is left out.
pub fn levels_are_exact()
    ensures tree { (d : ℕ) (old t : Grown) → Fits (records_of (⟦<Tree as MessageSpec>⟧.records t)) →
        ⟦<Tree as MessageSpec>⟧.normal t → d < ⟦<Tree as MessageSpec>⟧.levels t →
        ⟦<Tree as MessageSpec>⟧.merged d old (⟦<Tree as MessageSpec>⟧.encoding t) ≡ None }
    ensures keep { (d : ℕ) (rs : List (ℕ × FieldData)) → Fits (records_of (⟦<BudgetMsg as MessageSpec>⟧.records rs)) →
        ⟦<BudgetMsg as MessageSpec>⟧.normal rs → d < ⟦<BudgetMsg as MessageSpec>⟧.levels rs →
        ⟦<BudgetMsg as MessageSpec>⟧.merged d [] (⟦<BudgetMsg as MessageSpec>⟧.encoding rs) ≡ None }
{
    recursive_messages::levels_are_exact::<Tree>();
}

/// Which values of each sample are read back from their encoding, and how deep it nests; of trees `trees_are_these` says it. Nothing
/// is left out.
pub fn messages_are_read_back(flat: &FlatMsg, two: &TestMsg)
    ensures flat { (v : _) → ⟦<FlatMsg as MessageSpec>⟧.normal v ↔ FitsSigned w32 v.0 }
    ensures two { (v : _) → ⟦<TestMsg as MessageSpec>⟧.normal v ↔ (FitsSigned w32 v.0 × FitsSigned w32 v.1.0) }
    ensures count { (n : ℕ) → ⟦<CountMsg as MessageSpec>⟧.normal n ↔ (n < 2 ^ 64) }
    ensures keep { (rs : List (ℕ × FieldData)) → ⟦<BudgetMsg as MessageSpec>⟧.normal rs ↔ AreValid (records_of rs) }
    ensures deep { ⟦<BudgetMsg as MessageSpec>⟧.levels ≡ height }
    ensures flat_levels { (⟦<FlatMsg as MessageSpec>⟧.levels ≡ (λ _. 0)) × (⟦<TestMsg as MessageSpec>⟧.levels ≡ (λ _. 0))
        × (⟦<CountMsg as MessageSpec>⟧.levels ≡ (λ _. 0)) }
    ensures blank { (⟦<FlatMsg as Blank>⟧.blank_is ≡ (pos 0, tt))
        × (⟦<TestMsg as Blank>⟧.blank_is ≡ (pos 0, (pos 0, tt))) }
    ensures blank_lists { (⟦<CountMsg as Blank>⟧.blank_is ≡ 0) × (⟦<BudgetMsg as Blank>⟧.blank_is ≡ []) }
{
    members_read_back(flat);
    members_read_back(two);
}

/// Which numbers the two enums declare, and no others, and by which values, and their default; `==`, `clone` and the order
/// of their values. Nothing is left out of these.
pub fn enums_are_these()
    ensures old { (n : ℤ) → ⟦<Old as Enumeration>⟧.of_number n
        ≡ (if int_eq n (pos 0) then Some Old.A else if int_eq n (pos 1) then Some Old.B else None) }
    ensures new { (n : ℤ) → ⟦<New as Enumeration>⟧.of_number n
        ≡ (if int_eq n (pos 0) then Some New.A else if int_eq n (pos 1) then Some New.B else if int_eq n (pos 2)
        then Some New.C else None) }
    ensures blank { (⟦<Old as Blank>⟧.blank_is ≡ pos 0) × (⟦<New as Blank>⟧.blank_is ≡ pos 0) }
    ensures equal { SameIsOne ⟦<Old as PartialEq>⟧.eq × SameIsOne ⟦<New as PartialEq>⟧.eq }
    ensures copied_old { IsCopied ⟦<Old as Clone>⟧.is_clone ⟦<Old as Clone>⟧.is_infallible }
    ensures copied_new { IsCopied ⟦<New as Clone>⟧.is_clone ⟦<New as Clone>⟧.is_infallible }
    ensures order { (a b : Old) → ⟦<Old as Ord>⟧.cmp a b
        ≡ int_cmp (⟦<Old as Blank>⟧.meaning a) (⟦<Old as Blank>⟧.meaning b) }
{}

/// What a word means, which words are one key, and which texts it reads and writes. Nothing is left out.
pub fn words_are_these()
    ensures meaning { (w : Word) → ⟦<Word as Blank>⟧.meaning w ≡ string_bytes w.text }
    ensures blank { ⟦<Word as Blank>⟧.blank_is ≡ [] }
    ensures same { ⟦<Word as MapKey>⟧.same ≡ same_letters }
    ensures hashed { (w : Word) → ⟦<Word as Hash>⟧.hash_input w ≡ fed.slice fed.u8 (lower (string_bytes w.text)) }
    ensures text { (t : List ℕ) → (⟦<Word as ProtoString>⟧.text t ≡ t) × (⟦<Word as ProtoString>⟧.of_text t ≡ t) }
{}

/// A map comes through its bytes in one way only: two copies hold the same pairs, and where an order is kept they are
/// one list; what came back can't have been refused, memory aside, and there is one fault. Open is where memory runs
/// out; after a refused read, which walk was written; and where no order is kept, the order of the pairs.
pub fn trips_are_pinned<
    KC: MapCodec,
    VC: MapCodec,
    C: MapStorage<Key = KC::Value, Value = VC::Value>,
>()
    ensures { (m : C) → TripIsPinned KC.writing VC.writing (KC.COST + VC.COST) C.equal C.keeps_order (C.pairs m)
        (C.walks m) }
{}

/// What a proxy is: by which codecs, enums and storages its two readers read and write. Nothing is left out.
pub fn ways_are_these<
    KC: MapCodec,
    E: Enumeration,
    F: Enumeration,
    C: MapStorage<Key = KC::Value, Value = E>,
    D: MapStorage<Key = KC::Value, Value = F>,
>()
    ensures { ⟦<Pass<KC, E, F, C, D> as Way>⟧.way
        ≡ proxy KC.reading KC.COST KC.writing (numbers E.of_number E.blank_is) (numbers F.of_number F.blank_is)
        C.equal C.keeps_order D.equal D.keeps_order }
{}

/// A map field is passed on in one way only: the same entries are kept; where the run is ordered, or one walk was
/// written, the map has the same pairs; and what was passed on can't have been refused, memory aside. Open is where
/// memory runs out; and what a reading makes of another walk's encoding, and whether the budget lasts for it.
pub fn passes_are_pinned<
    KC: MapCodec,
    E: Enumeration,
    F: Enumeration,
    C: MapStorage<Key = KC::Value, Value = E>,
    D: MapStorage<Key = KC::Value, Value = F>,
>()
    ensures { (scratch : C) (d n : ℕ) (bytes : List ℕ) →
        PassIsPinned ⟦<Pass<KC, E, F, C, D> as Way>⟧.way KC.fits (C.walks scratch) d n bytes }
{}
