//! What the definitions say together, one function a law: it has nothing to do, and its contract is the law.
//! The numbers are names, which stay.

ghost use Rattle.std.specs.Prelude.{◌≡◌, ◌≢◌, ◌↔◌, [], ◌∷◌, ℕ, List, ℤ, Bool, Option, Some, map};
ghost use Rattle.buffa_wire.specs.Enums.{open_number};
ghost use Rattle.buffa_codec.specs.Decoded.{LaterReadingsWin, ReadAlike, ReadingsJoin};
ghost use Rattle.buffa_ext_laws.specs.MappedReadings.{ListsThrough, ReadsThrough, WritesThrough};
ghost use Rattle.buffa_ext.specs.SetsAndClears.{ClearsAreOne, IsExactlySet, KeepsTheRest, LeavesOthers, SecondCounts};
ghost use Rattle.buffa_ext.specs.SetsAndClears.{ComesLast, TakesOut, TakesThePlace};
ghost use Rattle.buffa_map.specs.Laws.{SizeIsLength};
ghost use Rattle.buffa_map_laws.specs.Laws.{RewriteMeans, RunsJoin};
ghost use Rattle.buffa_map.specs.Scalars.{delimited_writing};
ghost use Rattle.buffa_message_set.specs.Item.{NoOtherFront, WrittenIsItem, body_encoding, item_encoding};
ghost use Rattle.buffa.specs.Keys.{KeepsStoredKeys};
ghost use Rattle.buffa.specs.Slots.{SlotsAreLengths};

use buffa_codec::{
    EnumCodec, ExtensionCodec, LastWins, PackableCodec, PackedRepeated, Repeated, SingularCodec,
};
use buffa_ext::{MessageIn, MessageRecord};
use buffa_map::map_codec::{MapCodec, MapStorage, MapValueDecode};
use buffa_message_set::message_set::ITEM_START_TAG;
use buffa_wire::scalars::Int32;
use buffa_wire::{Blank, Enumeration, MapKey, Message, MessageSpec};
use indexmap::IndexMap;
use std::collections::{BTreeMap, HashMap};
use std::hash::{BuildHasher, Hash};

/// Laws of the names of this crate: limits, codecs, and the usual map.
pub use crate::name_laws as names;
/// Laws of bytes: varints, tags, fields, scalars and texts.
pub use buffa_wire_laws::wire;
/// Laws of codecs of extensions: scalars, texts, enums and lists.
pub use buffa_ext_laws::codecs as extension_codecs;
/// Laws of sets and clears of extensions, and of messages in them.
pub use buffa_ext_laws::extensions;
/// Laws of messages that are lists of their members, and of member types.
pub use buffa_fields_laws::members as fields;
/// Laws of members that hold messages of the message's own type, and of such messages.
pub use buffa_fields_laws::recursive_members as inside;
/// Laws of messages that hold themselves, in members of any kind.
pub use buffa_fields_laws::recursive_messages as selves;
/// Laws of the words by which a message that holds itself names its members.
pub use buffa_fields_laws::member_list as open_members;
/// Laws of oneofs and of their cases.
pub use buffa_fields_laws::oneofs;
/// Laws of what groups, maps of messages and numbers that are put aside cost, and what a refusal of them leaves.
pub use buffa_fields_laws::spending;
/// Laws of blocks of members, which messages of many members have.
pub use buffa_fields_laws::blocks;
/// Laws of map fields: codecs, entries, runs, sizes, encodings and rewrites.
pub use buffa_map_laws::map_fields;
/// Laws of Items of a MessageSet.
pub use buffa_ext_laws::items::{
    faults_of_items_are_these, item_tags, item_words_are_these, items_are_groups, items_are_pinned,
    items_are_read, items_are_read_in_order, items_are_these, items_take_memory_so,
    no_item_begins_another, written_items_are_pinned,
};
/// Laws of the sample that holds itself, and of its enum.
pub use sample_node::laws as nodes;
/// Laws of the sample that is a MessageSet.
pub use sample_set_msg::laws as sets;
/// Laws of records of unknown fields.
pub use buffa_wire_laws::records;
/// What the words of the grammar mean: varints, tags, payloads, fields, records.
pub use buffa_wire_laws::grammar;
/// What the words of values mean: scalars, encodings, enums, records, texts of errors.
pub use buffa_wire_laws::values;
/// What the words of answers mean: what a call gave, wrote, spent and left.
pub use buffa_wire_laws::answers;

/// Two runs of a map field, one after the other, are a run of the entries of both.
///
/// It means what the second one makes of what the first one makes of a map, and keeps the entries with
/// undeclared values that both keep, in order.
pub fn law_1<
    KC: MapValueDecode,
    VC: MapValueDecode,
    C: MapStorage<Key = KC::Value, Value = VC::Value>,
>()
    ensures { RunsJoin KC.reading VC.reading C.equal }
{
    buffa_map_laws::map_fields::runs_join::<KC, VC, C>();
}

/// Of the records of an extension of one value later ones win, if one of them is read at all.
///
/// What records and then more records are read as is what the later ones are, or where they are read as
/// nothing, what the earlier ones are. It holds of the codecs of scalars, enums, strings and bytes.
pub fn law_2<C: LastWins>()
    ensures { LaterReadingsWin ⟦<C as ExtensionCodec>⟧.reads }
{
    buffa_ext_laws::codecs::later_readings_win::<C>();
}

/// The values of joined records of a repeated extension are the joined values.
///
/// It holds of lists of scalars, enums, strings and bytes.
pub fn law_3<C: LastWins>()
    ensures { ReadingsJoin ⟦<Repeated<C> as ExtensionCodec>⟧.reads }
{
    buffa_ext_laws::codecs::lists_join::<C>();
}

/// A repeated extension is read alike by the packed codec and by the one that isn't, whatever its records.
pub fn law_4<C: PackableCodec>()
    ensures { ReadAlike ⟦<Repeated<C> as ExtensionCodec>⟧.reads ⟦<PackedRepeated<C> as ExtensionCodec>⟧.reads }
{
    buffa_ext_laws::codecs::lists_read_alike::<C>();
}

/// A set of a number leaves the records of every other number, and the new records come last.
///
/// Then the number's records hold what was set; all others are as they were, in order. No other list is so.
pub fn law_5()
    ensures others { LeavesOthers }
    ensures last { ComesLast }
    ensures place { TakesThePlace }
    ensures rest { KeepsTheRest }
    ensures exactly { IsExactlySet }
{
    buffa_ext_laws::extensions::sets_leave_others();
    buffa_ext_laws::extensions::sets_take_the_place();
}

/// Two sets of a number are the second one, and two clears are one.
///
/// A clear leaves the one list without records of the number in which all others are as they were.
pub fn law_6()
    ensures sets { SecondCounts }
    ensures clears { ClearsAreOne }
    ensures out { TakesOut }
{
    buffa_ext_laws::extensions::last_set_counts();
    buffa_ext_laws::extensions::clears_take_out();
}

/// A value of a codec of one value has a record, and an empty list has none.
///
/// So an extension that is set to a scalar's default, or to an empty text or message, is there; a repeated
/// one that is set to no values isn't.
pub fn law_7<C: LastWins, K: MessageRecord, M: Message, R: SingularCodec, P: PackableCodec>()
    ensures one { (v : C.Value.Meaning) → ⟦<C as ExtensionCodec>⟧.extension_data v ≢ [] }
    ensures message { (v : M.Meaning) → ⟦<MessageIn<K, M> as ExtensionCodec>⟧.extension_data v ≢ [] }
    ensures repeated { ⟦<Repeated<R> as ExtensionCodec>⟧.extension_data [] ≡ [] }
    ensures packed { ⟦<PackedRepeated<P> as ExtensionCodec>⟧.extension_data [] ≡ [] }
{}

/// The announced size of a map field is the length of its encoding, where the tag's length is that of its
/// tag.
///
/// So it is of a field of messages too, where the size is the sum of the records' lengths.
pub fn law_8<KC: MapCodec, VC: MapCodec, M: MessageSpec>()
    ensures values { SizeIsLength KC.writing VC.writing }
    ensures messages { SizeIsLength KC.writing (delimited_writing M.encoding) }
{
    buffa_map::laws::size_is_length::<KC, VC>();
}

/// The slots of a map of messages, consumed in order, are the lengths in the field's encoding.
///
/// For each pair of a walk the next slot is the length of the message's encoding, and the message's own slots
/// follow it; the encoding with these lengths is the field's encoding. No message is longer than 2^31 - 1
/// bytes.
pub fn law_9<KC: MapCodec, M: MessageSpec>()
    ensures { SlotsAreLengths KC.writing M.encoding M.slots }
{}

/// A put keeps the stored key of a pair that is there, and every other pair.
///
/// It holds of whatever pairs an insertion into a storage may leave. Two keys are one key of our maps where the
/// key's type says so.
pub fn law_10<K: MapKey + Ord + Hash, V: Blank, S: BuildHasher, C: MapStorage>()
    ensures keys { KeepsStoredKeys C.Value.Meaning C.equal }
    ensures ordered { ⟦<BTreeMap<K, V> as MapStorage>⟧.equal ≡ K.same }
    ensures hashed { ⟦<HashMap<K, V, S> as MapStorage>⟧.equal ≡ K.same }
    ensures indexed { ⟦<IndexMap<K, V, S> as MapStorage>⟧.equal ≡ K.same }
{}

/// A written Item is an Item with its number and its message, and nothing else that begins it is one.
///
/// The Item is what follows the start tag, which is one byte. Whatever follows the Item, no other front of the
/// bytes is an Item. The number is 1 to 2,147,483,647.
pub fn law_11()
    ensures start { (id : ℕ) (msg : List ℕ) → item_encoding id msg ≡ ITEM_START_TAG ∷ body_encoding id msg }
    ensures item { WrittenIsItem }
    ensures only { NoOtherFront }
{
    buffa_ext_laws::items::written_items_are_items();
}

/// A rewrite of a run by an older reader means to a newer one what the run means, if the run is ordered.
///
/// And only then. The newer reader's enum declares all that the older one's does, with the same default; it
/// keeps the same entries in any case.
pub fn law_12<KC: MapCodec>()
    ensures { RewriteMeans KC.reading KC.writing KC.fits }
{
    buffa_map_laws::map_fields::rewrite_means::<KC>();
}

/// An extension of an enum is read and written as `int32` is, each number as the value that it means.
///
/// So it is in lists too, packed or not; and a value that is set comes back as its `back`, the value that its
/// number means.
pub fn law_13<E: Enumeration>()
    ensures reads { ReadsThrough (open_number E.of_number) ⟦<Int32 as ExtensionCodec>⟧.reads
        ⟦<EnumCodec<E> as ExtensionCodec>⟧.reads }
    ensures lists { ListsThrough (open_number E.of_number) ⟦<Repeated<Int32> as ExtensionCodec>⟧.reads
        ⟦<Repeated<EnumCodec<E>> as ExtensionCodec>⟧.reads }
    ensures packed { ListsThrough (open_number E.of_number) ⟦<PackedRepeated<Int32> as ExtensionCodec>⟧.reads
        ⟦<PackedRepeated<EnumCodec<E>> as ExtensionCodec>⟧.reads }
    ensures records { WritesThrough (λ v. v.1) ⟦<Int32 as ExtensionCodec>⟧.extension_data
        ⟦<EnumCodec<E> as ExtensionCodec>⟧.extension_data }
    ensures list_records { WritesThrough (map (λ v. v.1)) ⟦<Repeated<Int32> as ExtensionCodec>⟧.extension_data
        ⟦<Repeated<EnumCodec<E>> as ExtensionCodec>⟧.extension_data }
    ensures packed_records { WritesThrough (map (λ v. v.1)) ⟦<PackedRepeated<Int32> as ExtensionCodec>⟧.extension_data
        ⟦<PackedRepeated<EnumCodec<E>> as ExtensionCodec>⟧.extension_data }
    ensures holds { (v : Bool × ℤ) (o : Option (Bool × ℤ)) → ⟦<EnumCodec<E> as ExtensionCodec>⟧.holds v o
        ↔ (o ≡ Some (open_number E.of_number v.1)) }
    ensures list_holds { (vs os : List (Bool × ℤ)) → ⟦<Repeated<EnumCodec<E>> as ExtensionCodec>⟧.holds vs os
        ↔ (os ≡ map (λ v. open_number E.of_number v.1) vs) }
    ensures packed_holds { (vs os : List (Bool × ℤ)) → ⟦<PackedRepeated<EnumCodec<E>> as ExtensionCodec>⟧.holds vs os
        ↔ (os ≡ map (λ v. open_number E.of_number v.1) vs) }
{
    buffa_ext_laws::codecs::enums_are_read_as_numbers::<E>();
}
