//! Where members may ask for memory, and what stands of a member whose field was refused, in the words of the encoding guide.
//!
//! The words of `MapCodec` and `MessageSpec` that these cite are pinned by the laws of the wire and of maps.

ghost use Rattle.std.specs.Prelude.{◌≡◌, ◌≢◌, ◌⊎◌, ◌↔◌, ◌<◌, ◌≤◌, ◌+◌, ◌-◌, ℕ, List, [], ◌++◌, None, Option, Some, Ok, Err, IsOk, false, length, suc, true};
ghost use Rattle.buffa_bytes.specs.PayloadValue.{payload_value_at};
ghost use Rattle.buffa_bytes.specs.Readings.{check_wire, delimited_at, skip_at, tag_at, varint_at};
ghost use Rattle.buffa_bytes.specs.declared.error.DecodeError.TheVariants.{ElementMemoryLimitExceeded, InvalidEndGroup, OutOfMemory, RecursionLimitExceeded, UnknownFieldLimitExceeded};
ghost use Rattle.buffa_bytes.specs.Values.{int32_of};
ghost use Rattle.buffa_bytes.specs.Varint.{IsVarint};
ghost use Rattle.buffa_wire.specs.BudgetLeft.{nothing};
ghost use Rattle.buffa_wire.specs.Enums.{numbers};
ghost use Rattle.buffa_wire.specs.Message.{BeginsField, MergeFault, MessageFault};
ghost use Rattle.buffa_wire.specs.RecordReading.{RecordTakesMemory, field_at};
ghost use Rattle.buffa_wire.specs.Records.{FieldData, bytes};
ghost use Rattle.buffa_map.specs.Codec.{HoldsNothing, ReadingTakesMemory, value_at};
ghost use Rattle.buffa_map.specs.Entry.{EntryFault, IsEntry, EntryFieldsTakeMemory};
ghost use Rattle.buffa_map.specs.EntryReading.{entry_of, charge_of};
ghost use Rattle.buffa_map.specs.declared.map_entry.MapEntry.{MapEntry};
ghost use Rattle.buffa_fields.specs.ClosedEnumLists.{varints};
ghost use Rattle.buffa_fields.specs.ClosedEnumMaps.{IsUndeclaredAt};
ghost use Rattle.buffa_fields.specs.Lists.{elements_in};
ghost use Rattle.buffa_fields.specs.Refusals.{RefusesBoxed, RefusesElements};
ghost use Rattle.buffa_fields.specs.Submessages.{or_blank};

use buffa_fields::members::explicit_field::ExplicitField;
use buffa_fields::members::group_field::GroupField;
use buffa_fields::members::implicit_field::ImplicitField;
use buffa_fields::members::keeps_unknowns::KeepsUnknowns;
use buffa_fields::members::map_field::MapField;
use buffa_fields::members::member::Member;
use buffa_fields::members::message_field::MessageField;
use buffa_fields::members::proto_type::ProtoType;
use buffa_fields::members::repeated_field::RepeatedField;
use buffa_fields::members::repeated_group_field::RepeatedGroupField;
use buffa_fields::members::repeated_message_field::RepeatedMessageField;
use buffa_map::map_codec::{ClosedEnum, MapCodec};
use buffa_wire::{Enumeration, MapKey, Message, WireType};
use std::hash::Hash;

/// A refused value is as it was; unless memory ran out, the error is that of the wire type, or of the payload. Memory is asked for
/// only where the codec takes some, and a payload of its wire type is there, and not empty.
pub fn refused_values_stay<C: ProtoType>()
    ensures stays { (d : ℕ) (v : _) (n : ℕ) (w : _) (bs : List ℕ) (left : _) (e : _) (u : _) →
        ⟦<ImplicitField<C> as Member>⟧.shape.refuses d v n w bs left e u → v ≡ u }
    ensures fault { (d : ℕ) (v : _) (n : ℕ) (w : _) (bs : List ℕ) (left : _) (e : _) (u : _) →
        ⟦<ImplicitField<C> as Member>⟧.shape.refuses d v n w bs left e u → e ≢ OutOfMemory →
        (check_wire n C.reading.wire w ≡ Err e) ⊎ ((w ≡ C.reading.wire) × (value_at C.reading d v bs ≡ Err e)) }
    ensures optional_stays { (d : ℕ) (v : _) (n : ℕ) (w : _) (bs : List ℕ) (left : _) (e : _) (u : _) →
        ⟦<ExplicitField<C> as Member>⟧.shape.refuses d v n w bs left e u → v ≡ u }
    ensures optional_fault { (d : ℕ) (v : _) (n : ℕ) (w : _) (bs : List ℕ) (left : _) (e : _) (u : _) →
        ⟦<ExplicitField<C> as Member>⟧.shape.refuses d v n w bs left e u → e ≢ OutOfMemory →
        (check_wire n C.reading.wire w ≡ Err e)
        ⊎ ((w ≡ C.reading.wire) × (value_at C.reading d C.reading.blank bs ≡ Err e)) }
    ensures asks { (d n : ℕ) (w : _) (bs : List ℕ) → ⟦<ImplicitField<C> as Member>⟧.shape.asks d n w bs
        ↔ ((w ≡ C.reading.wire) × ReadingTakesMemory C.reading d bs × (HoldsNothing C.reading d bs → ⊥)) }
    ensures asks_alike { (d n : ℕ) (w : _) (bs : List ℕ) → ⟦<ExplicitField<C> as Member>⟧.shape.asks d n w bs
        ↔ ⟦<ImplicitField<C> as Member>⟧.shape.asks d n w bs }
{}

/// A refused element isn't put. Of packed ones those in front of the refused one are: they stand behind those that stood, and the
/// error is the next one's.
pub fn refused_elements_are_not_put<C: ProtoType>()
    ensures one { (d : ℕ) (v : _) (n : ℕ) (w : _) (bs : List ℕ) (left : _) (e : _) (u : _) →
        (w ≡ C.reading.wire) ⊎ (w ≢ WireType.LengthDelimited) →
        ⟦<RepeatedField<C> as Member>⟧.shape.refuses d v n w bs left e u → v ≡ u }
    ensures fault { (d : ℕ) (v : _) (n : ℕ) (w : _) (bs : List ℕ) (left : _) (e : _) (u : _) →
        (w ≡ C.reading.wire) ⊎ (w ≢ WireType.LengthDelimited) →
        ⟦<RepeatedField<C> as Member>⟧.shape.refuses d v n w bs left e u → e ≢ OutOfMemory →
        (check_wire n C.reading.wire w ≡ Err e)
        ⊎ ((w ≡ C.reading.wire) × (value_at C.reading d C.reading.blank bs ≡ Err e)) }
    ensures packed { (d : ℕ) (v : _) (n : ℕ) (bs : List ℕ) (left : _) (e : _) (u : _) →
        WireType.LengthDelimited ≢ C.reading.wire →
        ⟦<RepeatedField<C> as Member>⟧.shape.refuses d v n WireType.LengthDelimited bs left e u →
        ((delimited_at bs ≡ Err e) × (v ≡ u))
        ⊎ ((b : List ℕ) × (after : List ℕ) × (delimited_at bs ≡ Ok (b, after))
        × (front : List ℕ) × (rest : List ℕ) × (b ≡ front ++ rest) × (elements_in C.reading d v front ≡ Ok u)
        × (e ≢ OutOfMemory → value_at C.reading d C.reading.blank rest ≡ Err e)) }
    ensures asks { (d n : ℕ) (w : _) (bs : List ℕ) → ⟦<RepeatedField<C> as Member>⟧.shape.asks d n w bs
        ↔ (((w ≡ C.reading.wire) × IsOk (payload_value_at C.reading.wire bs))
        ⊎ ((w ≡ WireType.LengthDelimited) × (b : List ℕ) × (rest : List ℕ) × (delimited_at bs ≡ Ok (b, rest))
        × IsOk (payload_value_at C.reading.wire b))) }
{}

/// What a list says of wire types: length-delimited ones are packed elements, and else it takes that of its codec.
pub fn lists_take_these_wire_types<C: ProtoType>()
    ensures packed { (n : ℕ) → ⟦<RepeatedField<C> as Member>⟧.shape.checks n WireType.LengthDelimited ≡ Ok tt }
    ensures one { (n : ℕ) (w : _) → w ≢ WireType.LengthDelimited →
        ⟦<RepeatedField<C> as Member>⟧.shape.checks n w ≡ check_wire n C.WIRE_TYPE w }
{}

/// A refused field neither puts a message there nor takes one away. One that stood is as it was where the wire type is another
/// one, no level is left, or no length and so many bytes are there. Unless memory ran out, the error is that of the wire type, or
/// one of the level, the length, or the message itself. A refused element isn't put.
pub fn refused_messages_stand<N: Message>()
    ensures there { (d : ℕ) (v : _) (n : ℕ) (w : _) (bs : List ℕ) (left : _) (e : _) (u : _) →
        ⟦<MessageField<N> as Member>⟧.shape.refuses d v n w bs left e u → (v ≡ None) ↔ (u ≡ None) }
    ensures stays { (d : ℕ) (v : _) (n : ℕ) (w : _) (bs : List ℕ) (left : _) (e : _) (u : _) →
        ⟦<MessageField<N> as Member>⟧.shape.refuses d v n w bs left e u →
        (w ≢ WireType.LengthDelimited → v ≡ u) × (d ≡ 0 → v ≡ u) × ((IsOk (delimited_at bs) → ⊥) → v ≡ u) }
    ensures no_level { (v : _) (n : ℕ) (w : _) (bs : List ℕ) (left : _) (e : _) (u : _) →
        ⟦<MessageField<N> as Member>⟧.shape.refuses 0 v n w bs left e u → e ≢ OutOfMemory →
        (check_wire n WireType.LengthDelimited w ≡ Err e)
        ⊎ ((w ≡ WireType.LengthDelimited) × (e ≡ RecursionLimitExceeded)) }
    ensures fault { (d : ℕ) (v : N.Meaning) (n : ℕ) (w : _) (bs : List ℕ) (left : _) (e : _) (u : _) →
        ⟦<MessageField<N> as Member>⟧.shape.refuses (suc d) (Some v) n w bs left e u → e ≢ OutOfMemory →
        (check_wire n WireType.LengthDelimited w ≡ Err e)
        ⊎ ((w ≡ WireType.LengthDelimited) × ((delimited_at bs ≡ Err e)
        ⊎ ((b : List ℕ) × (rest : List ℕ) × (delimited_at bs ≡ Ok (b, rest))
        × MergeFault (N.merged d v b) (N.cost d b) left e))) }
    ensures first_fault { (d n : ℕ) (w : _) (bs : List ℕ) (left : _) (e : _) (u : _) →
        ⟦<MessageField<N> as Member>⟧.shape.refuses (suc d) None n w bs left e u → e ≢ OutOfMemory →
        (check_wire n WireType.LengthDelimited w ≡ Err e)
        ⊎ ((w ≡ WireType.LengthDelimited) × ((delimited_at bs ≡ Err e)
        ⊎ ((b : List ℕ) × (rest : List ℕ) × (delimited_at bs ≡ Ok (b, rest))
        × MergeFault (N.merged d N.blank_is b) (N.cost d b) left e))) }
    ensures element { (d : ℕ) (v : _) (n : ℕ) (w : _) (bs : List ℕ) (left : _) (e : _) (u : _) →
        ⟦<RepeatedMessageField<N> as Member>⟧.shape.refuses d v n w bs left e u ↔ (v ≡ u) }
    ensures asks { (d n : ℕ) (w : _) (bs : List ℕ) → ⟦<MessageField<N> as Member>⟧.shape.asks d n w bs
        ↔ ((w ≡ WireType.LengthDelimited) × (0 < d)
        × (b : List ℕ) × (rest : List ℕ) × (delimited_at bs ≡ Ok (b, rest)) × (b ≢ [])) }
    ensures element_asks { (d n : ℕ) (w : _) (bs : List ℕ) → ⟦<RepeatedMessageField<N> as Member>⟧.shape.asks d n w bs
        ↔ ((w ≡ WireType.LengthDelimited) × (0 < d) × IsOk (delimited_at bs)) }
{}

/// A message in a box is refused as any other, behind its units: where they aren't left, that is the fault, and the message is as it
/// was; where they are, it is refused under what is left behind them. Where one stands, memory runs out only for the bytes of a
/// message.
pub fn refused_boxes_stand<N: Message>()
    ensures { (d each : ℕ) (v : Option N.Meaning) (n : ℕ) (w : _) (bs : List ℕ) (left : _) (e : _) (u : Option N.Meaning) →
        RefusesBoxed each N.blank_is N.merged N.cost d v n w bs left e u
        ↔ ((v ≡ None) ↔ (u ≡ None))
        × ((w ≢ WireType.LengthDelimited → v ≡ u) × (d ≡ 0 → v ≡ u) × ((IsOk (delimited_at bs) → ⊥) → v ≡ u))
        × (e ≢ OutOfMemory → (check_wire n WireType.LengthDelimited w ≡ Err e)
        ⊎ ((w ≡ WireType.LengthDelimited) × (((left.memory < each) × (e ≡ ElementMemoryLimitExceeded))
        ⊎ ((each ≤ left.memory) × MessageFault N.merged N.cost d (or_blank N.blank_is v) bs
        (record { unknown = left.unknown; memory = left.memory - each }) e))))
        × (e ≡ OutOfMemory → v ≢ None → (w ≡ WireType.LengthDelimited) × (0 < d)
        × (b : List ℕ) × (rest : List ℕ) × (delimited_at bs ≡ Ok (b, rest)) × (b ≢ [])) }
{}

/// The same of groups: one that stood is as it was where no field begins the bytes; and where one does, any error may be told.
pub fn refused_groups_stand<N: Message>()
    ensures there { (d : ℕ) (v : _) (n : ℕ) (w : _) (bs : List ℕ) (left : _) (e : _) (u : _) →
        ⟦<GroupField<N> as Member>⟧.shape.refuses d v n w bs left e u → (v ≡ None) ↔ (u ≡ None) }
    ensures stays { (d : ℕ) (v : _) (n : ℕ) (w : _) (bs : List ℕ) (left : _) (e : _) (u : _) →
        ⟦<GroupField<N> as Member>⟧.shape.refuses d v n w bs left e u →
        (w ≢ WireType.StartGroup → v ≡ u) × (d ≡ 0 → v ≡ u) × ((BeginsField bs → ⊥) → v ≡ u) }
    ensures no_level { (v : _) (n : ℕ) (w : _) (bs : List ℕ) (left : _) (e : _) (u : _) →
        ⟦<GroupField<N> as Member>⟧.shape.refuses 0 v n w bs left e u → e ≢ OutOfMemory →
        (check_wire n WireType.StartGroup w ≡ Err e) ⊎ ((w ≡ WireType.StartGroup) × (e ≡ RecursionLimitExceeded)) }
    ensures fault { (d : ℕ) (v : _) (n : ℕ) (w : _) (bs : List ℕ) (left : _) (e : _) (u : _) →
        ⟦<GroupField<N> as Member>⟧.shape.refuses (suc d) v n w bs left e u → e ≢ OutOfMemory →
        (check_wire n WireType.StartGroup w ≡ Err e) ⊎ ((w ≡ WireType.StartGroup)
        × (BeginsField bs ⊎ ((tag_at bs ≡ Err e) ⊎ ((m : ℕ) × (rest : List ℕ)
        × (tag_at bs ≡ Ok (m, WireType.EndGroup, rest)) × (m ≢ n) × (e ≡ InvalidEndGroup m))))) }
    ensures element { (d : ℕ) (v : _) (n : ℕ) (w : _) (bs : List ℕ) (left : _) (e : _) (u : _) →
        ⟦<RepeatedGroupField<N> as Member>⟧.shape.refuses d v n w bs left e u ↔ (v ≡ u) }
    ensures asks { (d n : ℕ) (w : _) (bs : List ℕ) → ⟦<GroupField<N> as Member>⟧.shape.asks d n w bs
        ↔ ((w ≡ WireType.StartGroup) × (0 < d) × BeginsField bs) }
    ensures element_asks { (d n : ℕ) (w : _) (bs : List ℕ) → ⟦<RepeatedGroupField<N> as Member>⟧.shape.asks d n w bs
        ↔ ((w ≡ WireType.StartGroup) × (0 < d) × (BeginsField bs ⊎ IsOk (skip_at d n w bs))) }
{}

/// A refused entry isn't put. Unless memory ran out, the error is that of the wire type, or one of the entry's. Memory is asked for
/// where a field of the entry takes some, or the pair is put.
pub fn refused_entries_are_not_put<KC: MapCodec, VC: MapCodec>()
where
    KC::Value: MapKey + Hash,
    ensures refuses { (d : ℕ) (v : _) (n : ℕ) (w : _) (bs : List ℕ) (left : _) (e : _) (u : _) →
        ⟦<MapField<KC, VC> as Member>⟧.shape.refuses d v n w bs left e u ↔ ((v ≡ u)
        × (e ≢ OutOfMemory → (check_wire n WireType.LengthDelimited w ≡ Err e) ⊎ ((w ≡ WireType.LengthDelimited)
        × EntryFault KC.reading VC.reading d (KC.COST + VC.COST) 0 left bs e))) }
    ensures asks { (d n : ℕ) (w : _) (bs : List ℕ) → ⟦<MapField<KC, VC> as Member>⟧.shape.asks d n w bs
        ↔ ((w ≡ WireType.LengthDelimited)
        × (b : List ℕ) × (rest : List ℕ) × (delimited_at bs ≡ Ok (b, rest))
        × (EntryFieldsTakeMemory KC.reading VC.reading d b
        ⊎ ((s : MapEntry KC.Value.Meaning VC.Value.Meaning) × IsEntry KC.reading VC.reading d b s × (s.known ≡ true)))) }
{}

/// A refused entry of a map that puts undeclared ones aside isn't put, and none is put aside. Unless memory ran out, the error is that
/// of the wire type, or one of the entry's, which costs an unknown field more where it is undeclared. Memory is asked for where the
/// bytes of an entry may be kept, where a field of it takes some, and where it is put or kept. A field costs nothing where no length
/// and so many bytes are there, or the wire type is another one.
pub fn refused_kept_entries_are_not_put<KC: MapCodec, VC: MapCodec>()
where
    KC::Value: MapKey + Hash,
    ensures refuses { (d : ℕ) (v : _) (n : ℕ) (w : _) (bs : List ℕ) (left : _) (e : _) (u : _) →
        ⟦<MapField<KC, VC> as KeepsUnknowns>⟧.unknowns.refuses d v n w bs left e u ↔ ((v ≡ u)
        × (e ≢ OutOfMemory → (check_wire n WireType.LengthDelimited w ≡ Err e) ⊎ ((w ≡ WireType.LengthDelimited)
        × EntryFault KC.reading VC.reading d (KC.COST + VC.COST) 1 left bs e))) }
    ensures asks { (left d n : ℕ) (w : _) (bs : List ℕ) → ⟦<MapField<KC, VC> as KeepsUnknowns>⟧.unknowns.asks left d n w bs
        ↔ ((w ≡ WireType.LengthDelimited)
        × (b : List ℕ) × (rest : List ℕ) × (delimited_at bs ≡ Ok (b, rest))
        × (((VC.reading.undeclared ≡ true) × (b ≢ []))
        ⊎ (EntryFieldsTakeMemory KC.reading VC.reading d b
        ⊎ ((s : MapEntry KC.Value.Meaning VC.Value.Meaning) × IsEntry KC.reading VC.reading d b s × ((s.known ≡ true)
        ⊎ ((charge_of KC.reading VC.reading d (KC.COST + VC.COST) b).unknown + 1 ≤ left)))))) }
    ensures fault { (d n : ℕ) (t e more : List ℕ) (f : _) → IsVarint t (length e) → entry_of KC.reading VC.reading d e ≡ Err f →
        ⟦<MapField<KC, VC> as KeepsUnknowns>⟧.unknowns.charge d n WireType.LengthDelimited ((t ++ e) ++ more)
        ≡ charge_of KC.reading VC.reading d (KC.COST + VC.COST) e }
    ensures no_bytes { (d n : ℕ) (bs : List ℕ) (f : _) → delimited_at bs ≡ Err f →
        ⟦<MapField<KC, VC> as KeepsUnknowns>⟧.unknowns.charge d n WireType.LengthDelimited bs ≡ nothing }
    ensures wire { (d n : ℕ) (w : _) (bs : List ℕ) → w ≢ WireType.LengthDelimited →
        ⟦<MapField<KC, VC> as KeepsUnknowns>⟧.unknowns.charge d n w bs ≡ nothing }
    ensures undeclared { (d : ℕ) (e : List ℕ) → IsUndeclaredAt KC.reading VC.reading d e
        ↔ ((s : MapEntry KC.Value.Meaning VC.Value.Meaning) × IsEntry KC.reading VC.reading d e s × (s.known ≡ false)) }
    ensures unknowns { (x : FieldData) → ⟦<MapField<KC, VC> as KeepsUnknowns>⟧.unknowns.AreUnknowns x → (e : List ℕ) × (x ≡ bytes e)
        × ((d : ℕ) → ⟦<MapField<KC, VC> as KeepsUnknowns>⟧.unknowns.levels x ≤ d →
        (s : MapEntry KC.Value.Meaning VC.Value.Meaning) × IsEntry KC.reading VC.reading d e s × (s.known ≡ false)) }
{}

/// A refused number of a closed enum leaves the value. Unless memory ran out, the error is that of the wire type, of the varint, or
/// of a record that is kept, where the number is undeclared. Memory is asked for where such a record is kept. A refused field
/// of a list leaves the list: the error is that of the same field of varints, or it has more undeclared ones than unknown fields
/// are left.
pub fn refused_numbers_are_not_put<E: Enumeration>()
    ensures refuses { (d : ℕ) (v : _) (n : ℕ) (w : _) (bs : List ℕ) (left : _) (e : _) (u : _) →
        ⟦<ExplicitField<ClosedEnum<E>> as KeepsUnknowns>⟧.unknowns.refuses d v n w bs left e u ↔ ((v ≡ u)
        × (e ≢ OutOfMemory → (check_wire n WireType.Varint w ≡ Err e) ⊎ ((varint_at bs ≡ Err e)
        ⊎ ((k : ℕ) × (rest : List ℕ) × (varint_at bs ≡ Ok (k, rest))
        × ((numbers E.of_number E.blank_is).declares (int32_of k) ≡ false) × (field_at d left.unknown n w bs ≡ Err e))))) }
    ensures asks { (left d n : ℕ) (w : _) (bs : List ℕ) → ⟦<ExplicitField<ClosedEnum<E>> as KeepsUnknowns>⟧.unknowns.asks left d n w bs
        ↔ ((w ≡ WireType.Varint) × (k : ℕ) × (rest : List ℕ) × (varint_at bs ≡ Ok (k, rest))
        × ((numbers E.of_number E.blank_is).declares (int32_of k) ≡ false)
        × (RecordTakesMemory d left w bs ⊎ IsOk (field_at d left n w bs))) }
    ensures list { (d : ℕ) (v : _) (n : ℕ) (w : _) (bs : List ℕ) (left : _) (e : _) (u : _) →
        ⟦<RepeatedField<ClosedEnum<E>> as KeepsUnknowns>⟧.unknowns.refuses d v n w bs left e u ↔ ((v ≡ u)
        × (e ≢ OutOfMemory → ((ks : List ℕ) × RefusesElements varints d [] n w bs e ks) ⊎ ((e ≡ UnknownFieldLimitExceeded)
        × (left.unknown < (⟦<RepeatedField<ClosedEnum<E>> as KeepsUnknowns>⟧.unknowns.charge d n w bs).unknown)))) }
    ensures list_asks { (left d n : ℕ) (w : _) (bs : List ℕ) → ⟦<RepeatedField<ClosedEnum<E>> as KeepsUnknowns>⟧.unknowns.asks left d n w bs
        ↔ (((w ≡ WireType.Varint) × IsOk (payload_value_at WireType.Varint bs))
        ⊎ ((w ≡ WireType.LengthDelimited) × (b : List ℕ) × (rest : List ℕ) × (delimited_at bs ≡ Ok (b, rest))
        × IsOk (payload_value_at WireType.Varint b))) }
{}
