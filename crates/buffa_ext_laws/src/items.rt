//! What the definitions of Items say together: each law is a function with nothing to do, whose contract is the law.

ghost use Rattle.std.specs.Prelude.{◌≡◌, ◌≢◌, ◌↔◌, ◌<◌, ◌≤◌, ◌+◌, ◌^◌, ◌⊎◌, [], ◌∷◌, ◌++◌, ℕ, List, Ok, Err, Option, None, Some, length};
ghost use Rattle.buffa_bytes.specs.declared.error.DecodeError.{DecodeError};
ghost use Rattle.buffa_bytes.specs.declared.error.DecodeError.TheVariants.{InvalidMessageSet, OutOfMemory, UnknownFieldLimitExceeded};
ghost use Rattle.buffa_bytes.specs.declared.error.MessageSetFault.TheVariants.{MissingTypeId, TypeIdOutOfRange};
ghost use Rattle.buffa_bytes.specs.declared.wire_type.WireType.TheVariants.{EndGroup, LengthDelimited, StartGroup, Varint};
ghost use Rattle.buffa_bytes.specs.Field.{Field, IsTag, LengthFault, PayloadFault, SomeField, TagFault};
ghost use Rattle.buffa_bytes.specs.Join.{Join};
ghost use Rattle.buffa_bytes.specs.Values.{delimited_encoding, tag_encoding};
ghost use Rattle.buffa_bytes.specs.Varint.{IsVarint, VarintFault, varint_encoding};
ghost use Rattle.buffa_bytes.specs.declared.wire_type.WireType.{WireType};
ghost use Rattle.buffa_wire.specs.BudgetLeft.{BudgetLeft, IsLimit};
ghost use Rattle.buffa_message_set.specs.Item.{GroupsAreReadAlike, HasMessage, IsTypeId, Item, ItemFault, ItemsAreGroups, NoOtherFront, Reaches, SpendsUnknown};
ghost use Rattle.buffa_message_set.specs.Item.{TakesItem, WrittenIsItem, body_encoding, item_at, item_encoding, item_in, said};
ghost use Rattle.buffa_ext_laws.specs.LeftOpenItems.{ItemIsPinned, WrittenItemIsPinned};

use buffa_message_set::message_set::{ITEM_END_TAG, ITEM_START_TAG, MESSAGE_TAG, TYPE_ID_TAG};

/// A written Item is an Item with its number and its message, and nothing else that begins it is one.
///
/// The Item is what follows the start tag, which is one byte. Whatever follows the Item, no other front of the
/// bytes is an Item. The number is 1 to 2,147,483,647.
pub fn written_items_are_items()
    ensures start { (id : ℕ) (msg : List ℕ) → item_encoding id msg ≡ ITEM_START_TAG ∷ body_encoding id msg }
    ensures item { WrittenIsItem }
    ensures only { NoOtherFront }
{}

/// What the fields of an Item say, the one behind the other: at first nothing. A type id takes the place of the one before it;
/// message bytes go behind those before them, also where the type id comes first; and a field of any other number or wire
/// type says nothing. The end tag ends the Item, where a type id was said, and else it is missing.
pub fn items_are_read_in_order()
    ensures none { (d : ℕ) → Reaches d [] (said None []) [] }
    ensures type_id { (d n : ℕ) (fs tag p : List ℕ) (o : Option ℕ) (msg : List ℕ) → IsTag tag 2 Varint → IsVarint p n →
        IsTypeId n → Reaches d fs (said o msg) [] → Reaches d (fs ++ (tag ++ p)) (said (Some n) msg) [] }
    ensures message { (d : ℕ) (fs tag l m : List ℕ) (o : Option ℕ) (msg : List ℕ) → IsTag tag 3 LengthDelimited →
        IsVarint l (length m) → Reaches d fs (said o msg) [] →
        Reaches d (fs ++ (tag ++ (l ++ m))) (said o (msg ++ m)) [] }
    ensures other { (d n : ℕ) (w : WireType) (fs f : List ℕ) (o : Option ℕ) (msg : List ℕ) → Field d n w f →
        (n ≡ 2 → w ≢ Varint) → (n ≡ 3 → w ≢ LengthDelimited) → (n ≡ 1 → w ≢ EndGroup) → Reaches d fs (said o msg) [] →
        Reaches d (fs ++ f) (said o msg) [] }
    ensures item { (d id : ℕ) (fs end msg : List ℕ) → IsTag end 1 EndGroup → Reaches d fs (said (Some id) msg) [] →
        Item d (fs ++ end) id msg }
    ensures missing { (d : ℕ) (fs end rest msg : List ℕ) → IsTag end 1 EndGroup → Reaches d fs (said None msg) [] →
        ItemFault d (fs ++ (end ++ rest)) (InvalidMessageSet MissingTypeId) }
{}

/// The grammar of Items, from the end tag to the front: an end tag of number 1 behind a type id is an Item of no message; and
/// what stands in front of an Item makes another. A type id there changes nothing, since the last one counts; message bytes go
/// before the Item's own; and a field of any other number or wire type changes nothing.
///
/// A type id is 1 to 2,147,483,647, and tags, varints and fields are as anywhere.
pub fn items_are_these()
    ensures type_id { (n : ℕ) → IsTypeId n ↔ ((0 < n) × (n < 2 ^ 31)) }
    ensures least { (d n : ℕ) (tag p end : List ℕ) → IsTag tag 2 Varint → IsVarint p n → IsTypeId n → IsTag end 1 EndGroup →
        Item d (tag ++ (p ++ end)) n [] }
    ensures earlier_id { (d n id : ℕ) (tag p b msg : List ℕ) → IsTag tag 2 Varint → IsVarint p n → IsTypeId n →
        Item d b id msg → Item d (tag ++ (p ++ b)) id msg }
    ensures message { (d id : ℕ) (tag l m b msg : List ℕ) → IsTag tag 3 LengthDelimited → IsVarint l (length m) →
        Item d b id msg → Item d (tag ++ (l ++ (m ++ b))) id (m ++ msg) }
    ensures other { (d id n : ℕ) (w : WireType) (f b msg : List ℕ) → Field d n w f → (n ≡ 2 → w ≢ Varint) →
        (n ≡ 3 → w ≢ LengthDelimited) → (n ≡ 1 → w ≢ EndGroup) → Item d b id msg → Item d (f ++ b) id msg }
{}

/// An Item is read where an unknown field is left, which is spent; where none is left nothing is. Its encoding is the start tag,
/// the type id, the message, and the end tag, each with its own tag, all of them the shortest.
pub fn item_words_are_these()
    ensures none_left { (d : ℕ) (bs : List ℕ) → item_in d 0 bs ≡ Err UnknownFieldLimitExceeded }
    ensures left { (d n : ℕ) (bs : List ℕ) → 0 < n → item_in d n bs ≡ item_at d bs }
    ensures spent { (old new : BudgetLeft) → SpendsUnknown old new ↔ (((old.unknown ≡ 0) × (new ≡ old))
        ⊎ ((new.unknown + 1 ≡ old.unknown) × (new.memory ≡ old.memory))) }
    ensures encoding { (id : ℕ) (msg : List ℕ) → item_encoding id msg ≡ tag_encoding 1 StartGroup
        ++ (tag_encoding 2 Varint ++ (varint_encoding id
        ++ (tag_encoding 3 LengthDelimited ++ (delimited_encoding msg ++ tag_encoding 1 EndGroup)))) }
    ensures taken { (d id : ℕ) (bs msg rest : List ℕ) → TakesItem d bs id msg rest
        ↔ ((b : List ℕ) × Item d b id msg × (bs ≡ b ++ rest)) }
{}

/// An Item is read exactly where the grammar has one, and a fault is returned exactly where the grammar has it.
///
/// Out of memory is no fault of the bytes, and the type id of an Item is 1 to 2,147,483,647.
pub fn items_are_read()
    ensures ok { (d id : ℕ) (bs msg rest : List ℕ) → (item_at d bs ≡ Ok (id, msg, rest)) ↔ TakesItem d bs id msg rest }
    ensures err { (d : ℕ) (bs : List ℕ) (e : DecodeError) → (item_at d bs ≡ Err e) ↔ ItemFault d bs e }
    ensures memory { (d : ℕ) (bs : List ℕ) → item_at d bs ≢ Err OutOfMemory }
    ensures range { (d id : ℕ) (bs msg : List ℕ) → Item d bs id msg → IsTypeId id }
{}

/// Why no Item begins bytes: the fault of the first field; an end tag of number 1 where no type id was; a type id of 0, or of 2^31
/// or more. So it is behind a field, too, where that is well formed; but behind a type id none is missing.
#[tactic(auto, using(crate::proofs::FrontLemmas::no_tag, crate::proofs::FrontLemmas::no_type_id, crate::proofs::FrontLemmas::no_varint, crate::proofs::FrontLemmas::no_bytes))]
pub fn faults_of_items_are_these()
    ensures no_tag { (d : ℕ) (bs : List ℕ) (e : DecodeError) → TagFault bs e → ItemFault d bs e }
    ensures no_type_id { (d : ℕ) (end rest : List ℕ) → IsTag end 1 EndGroup →
        ItemFault d (end ++ rest) (InvalidMessageSet MissingTypeId) }
    ensures out_of_range { (d n : ℕ) (tag p rest : List ℕ) → IsTag tag 2 Varint → IsVarint p n → (n ≡ 0) ⊎ (2 ^ 31 ≤ n) →
        ItemFault d (tag ++ (p ++ rest)) (InvalidMessageSet TypeIdOutOfRange) }
    ensures no_varint { (d : ℕ) (tag bs : List ℕ) (e : DecodeError) → IsTag tag 2 Varint → VarintFault bs e →
        ItemFault d (tag ++ bs) e }
    ensures no_bytes { (d : ℕ) (tag bs : List ℕ) (e : DecodeError) → IsTag tag 3 LengthDelimited → LengthFault bs e →
        ItemFault d (tag ++ bs) e }
    ensures no_payload { (d n : ℕ) (w : WireType) (tag bs : List ℕ) (e : DecodeError) → IsTag tag n w → (n ≡ 2 → w ≢ Varint) →
        (n ≡ 3 → w ≢ LengthDelimited) → (n ≡ 1 → w ≢ EndGroup) → PayloadFault d n w bs e → ItemFault d (tag ++ bs) e }
    ensures behind_id { (d n : ℕ) (tag p b : List ℕ) (e : DecodeError) → IsTag tag 2 Varint → IsVarint p n → IsTypeId n →
        e ≢ InvalidMessageSet MissingTypeId → ItemFault d b e → ItemFault d (tag ++ (p ++ b)) e }
    ensures behind_message { (d : ℕ) (tag l m b : List ℕ) (e : DecodeError) → IsTag tag 3 LengthDelimited →
        IsVarint l (length m) → ItemFault d b e → ItemFault d (tag ++ (l ++ (m ++ b))) e }
    ensures behind_other { (d n : ℕ) (w : WireType) (f b : List ℕ) (e : DecodeError) → Field d n w f → (n ≡ 2 → w ≢ Varint) →
        (n ≡ 3 → w ≢ LengthDelimited) → (n ≡ 1 → w ≢ EndGroup) → ItemFault d b e → ItemFault d (f ++ b) e }
{}

/// An Item takes memory only where, behind some fields, a message's tag, its length and so many bytes are there, and one byte
/// at least. These fields may begin an Item: with a type id and an end tag behind them they are one, so no type id that is out of
/// range is among them.
#[tactic(auto, using(crate::proofs::FrontLemmas::message_there))]
pub fn items_take_memory_so()
    ensures { (d : ℕ) (bs : List ℕ) → HasMessage d bs → (front : List ℕ) × (tag : List ℕ) × (l : List ℕ) × (b : List ℕ)
        × (rest : List ℕ) × (bs ≡ front ++ (tag ++ (l ++ (b ++ rest)))) × Join (SomeField d) front
        × IsTag tag 3 LengthDelimited × IsVarint l (length b) × (b ≢ [])
        × ((n : ℕ) (id p end : List ℕ) → IsTag id 2 Varint → IsVarint p n → (0 < n) × (n < 2 ^ 31) → IsTag end 1 EndGroup →
        (msg : List ℕ) × Item d (front ++ (id ++ (p ++ end))) n msg) }
{}

/// No Item is a proper beginning of another, and bytes are an Item in one way.
pub fn no_item_begins_another()
    ensures { (d : ℕ) (a b x y m o : List ℕ) (n k : ℕ) → Item d a n m → Item d b k o → a ++ x ≡ b ++ y
        → (a ≡ b) × (n ≡ k) × (m ≡ o) }
{}

/// An Item is a group of number 1, one level deeper than its fields are passed over, and whether such a group is an
/// Item doesn't depend on what follows it. No fault of an Item is a budget's.
pub fn items_are_groups()
    ensures group { ItemsAreGroups }
    ensures alike { GroupsAreReadAlike }
    ensures no_limit { (d : ℕ) (bs : List ℕ) (e : DecodeError) → ItemFault d bs e → IsLimit e → ⊥ }
{}

/// Bytes, a depth and a budget have one answer as an Item, and leave one budget.
///
/// Not promised: after a refusal, how much stays unread (a tail of what was there, and all of it where
/// no unknown field was left); and where memory runs out, which is returned only where message bytes are there.
pub fn items_are_pinned()
    ensures { ItemIsPinned }
{}

/// A type id and a message are written in one way, and no others have that encoding.
///
/// Not promised: where memory runs out, how much of the encoding is written.
pub fn written_items_are_pinned()
    ensures { WrittenItemIsPinned }
{}

/// The four tags of an Item, each of which has one byte.
pub fn item_tags()
    ensures start { tag_encoding 1 StartGroup ≡ ITEM_START_TAG ∷ [] }
    ensures end { tag_encoding 1 EndGroup ≡ ITEM_END_TAG ∷ [] }
    ensures type_id { tag_encoding 2 Varint ≡ TYPE_ID_TAG ∷ [] }
    ensures message { tag_encoding 3 LengthDelimited ≡ MESSAGE_TAG ∷ [] }
{}
