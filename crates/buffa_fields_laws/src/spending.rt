//! What members cost that are groups, what a refused field leaves of maps of messages, and how the numbers of a closed enum are
//! read that are put aside. Each law is a function with nothing to do, whose contract is the law.

ghost use Rattle.std.specs.Prelude.{◌≡◌, ◌≢◌, ◌↔◌, ◌⊎◌, ◌+◌, ℕ, ℤ, suc, true, List, ◌++◌, None, Ok, Err};
ghost use Rattle.buffa_bytes.specs.Field.{IsTag, Payload, PayloadFault, SomeField, TagFault};
ghost use Rattle.buffa_bytes.specs.Readings.{check_wire, delimited_at, varint_at};
ghost use Rattle.buffa_bytes.specs.Join.{Join};
ghost use Rattle.buffa_bytes.specs.declared.error.DecodeError.{DecodeError};
ghost use Rattle.buffa_bytes.specs.declared.error.DecodeError.TheVariants.{OutOfMemory};
ghost use Rattle.buffa_bytes.specs.declared.wire_type.WireType.{WireType};
ghost use Rattle.buffa_bytes.specs.declared.wire_type.WireType.TheVariants.{EndGroup, LengthDelimited, StartGroup, Varint};
ghost use Rattle.buffa_wire.specs.BudgetLeft.{BudgetLeft, nothing, plus, units};
ghost use Rattle.buffa_wire.specs.Parse.{TakesField};
ghost use Rattle.buffa_wire.specs.Records.{FieldData};
ghost use Rattle.buffa_map.specs.Entry.{EntryFault, IsEntry, EntryFieldsTakeMemory};
ghost use Rattle.buffa_map.specs.Message.{message_reading};
ghost use Rattle.buffa_map.specs.declared.map_entry.MapEntry.{MapEntry};
ghost use Rattle.buffa_fields.specs.UndeclaredFields.{IsFieldThere};
ghost use Rattle.buffa_fields.specs.ClosedEnumLists.{varints};

use buffa_fields::members::explicit_field::ExplicitField;
use buffa_fields::members::group_field::GroupField;
use buffa_fields::members::keeps_unknowns::KeepsUnknowns;
use buffa_fields::members::member::Member;
use buffa_fields::members::message_map_field::MessageMapField;
use buffa_fields::members::ordered_key::OrderedKey;
use buffa_fields::members::ordered_message_map_field::OrderedMessageMapField;
use buffa_fields::members::packed_field::PackedField;
use buffa_fields::members::repeated_field::RepeatedField;
use buffa_fields::members::repeated_group_field::RepeatedGroupField;
use buffa_map::map_codec::{ClosedEnum, MapCodec, MapValueDecode, Uint64};
use buffa_wire::{Enumeration, MapKey, Message};
use std::hash::Hash;

/// A group costs what its fields cost, one level down, up to its end tag; a malformed one what they cost and what stands behind
/// them. In a list it costs the units of its type too. One of another wire type costs nothing, nor does one where no level is
/// left.
#[tactic(auto, unfolding(buffa_fields::specs::Groups::group_cost, buffa_fields::specs::RepeatedGroups::groups_cost))]
pub fn groups_cost_what_is_in_them<N: Message>()
    ensures group { (d m n : ℕ) (b end more : List ℕ) → Join (SomeField d) b → IsTag end m EndGroup →
        ⟦<GroupField<N> as Member>⟧.shape.charge (suc d) n StartGroup (b ++ (end ++ more)) ≡ N.cost d b }
    ensures no_tag { (d n : ℕ) (b more : List ℕ) (f : DecodeError) → Join (SomeField d) b → TagFault more f →
        ⟦<GroupField<N> as Member>⟧.shape.charge (suc d) n StartGroup (b ++ more) ≡ N.cost d (b ++ more) }
    ensures no_payload { (d m n : ℕ) (w : WireType) (b t more : List ℕ) (f : DecodeError) → Join (SomeField d) b → IsTag t m w →
        w ≢ EndGroup → PayloadFault d m w more f →
        ⟦<GroupField<N> as Member>⟧.shape.charge (suc d) n StartGroup (b ++ (t ++ more)) ≡ N.cost d (b ++ (t ++ more)) }
    ensures too_deep { (n : ℕ) (bs : List ℕ) → ⟦<GroupField<N> as Member>⟧.shape.charge 0 n StartGroup bs ≡ nothing }
    ensures wire { (d n : ℕ) (w : WireType) (bs : List ℕ) → w ≢ StartGroup →
        (⟦<GroupField<N> as Member>⟧.shape.charge d n w bs ≡ nothing)
        × (⟦<RepeatedGroupField<N> as Member>⟧.shape.charge d n w bs ≡ nothing) }
    ensures element { (d n : ℕ) (bs : List ℕ) → ⟦<RepeatedGroupField<N> as Member>⟧.shape.charge d n StartGroup bs
        ≡ plus (units N.COST) (⟦<GroupField<N> as Member>⟧.shape.charge d n StartGroup bs) }
{}

/// A refused entry of a map of messages isn't put: the pairs are as they were. Unless memory ran out, the error is that of the wire
/// type, or one of the entry's. Memory is asked for where a field of the entry takes some, or the pair is put.
pub fn refused_entries_of_messages_are_not_put<KC: MapCodec, N: Message>()
where
    KC::Value: MapKey + Hash + OrderedKey,
    ensures refuses { (d : ℕ) (v : _) (n : ℕ) (w : WireType) (bs : List ℕ) (left : BudgetLeft) (e : DecodeError) (u : _) →
        ⟦<MessageMapField<KC, N> as Member>⟧.shape.refuses d v n w bs left e u ↔ ((v ≡ u)
        × (e ≢ OutOfMemory → (check_wire n LengthDelimited w ≡ Err e) ⊎ ((w ≡ LengthDelimited)
        × EntryFault KC.reading (message_reading N.blank_is N.merged N.cost) d (KC.COST + N.COST) 0 left bs e))) }
    ensures ordered_refuses { (d : ℕ) (v : _) (n : ℕ) (w : WireType) (bs : List ℕ) (left : BudgetLeft) (e : DecodeError)
        (u : _) → ⟦<OrderedMessageMapField<KC, N> as Member>⟧.shape.refuses d v n w bs left e u
        ↔ ⟦<MessageMapField<KC, N> as Member>⟧.shape.refuses d v n w bs left e u }
    ensures asks { (d n : ℕ) (w : WireType) (bs : List ℕ) → ⟦<MessageMapField<KC, N> as Member>⟧.shape.asks d n w bs
        ↔ ((w ≡ LengthDelimited)
        × (b : List ℕ) × (rest : List ℕ) × (delimited_at bs ≡ Ok (b, rest))
        × (EntryFieldsTakeMemory KC.reading (message_reading N.blank_is N.merged N.cost) d b
        ⊎ ((s : MapEntry KC.Value.Meaning N.Meaning) × IsEntry KC.reading (message_reading N.blank_is N.merged N.cost) d b s
        × (s.known ≡ true)))) }
    ensures ordered_asks { (d n : ℕ) (w : WireType) (bs : List ℕ) →
        ⟦<OrderedMessageMapField<KC, N> as Member>⟧.shape.asks d n w bs
        ↔ ⟦<MessageMapField<KC, N> as Member>⟧.shape.asks d n w bs }
{}

/// A field that is kept is there where it is read as a record, and an unknown field is left for it and for each inside.
pub fn kept_fields_are_there_so()
    ensures { (d s n : ℕ) (w : WireType) (bs : List ℕ) → IsFieldThere d s n w bs
        ↔ ((x : FieldData) × (left : ℕ) × (rest : List ℕ) × TakesField d s n w bs x left rest) }
{}

/// A malformed field of a list of a closed enum costs nothing, whatever undeclared numbers stand in it; so a refusal of it spends
/// no unknown field, and is told as its fault. A field of one that may be absent costs nothing where no varint is there, or the
/// wire type is another one.
pub fn malformed_numbers_cost_nothing<E: Enumeration>()
    ensures no_payload { (d n : ℕ) (w : WireType) (bs : List ℕ) (f : DecodeError) → PayloadFault d n w bs f →
        (⟦<RepeatedField<ClosedEnum<E>> as KeepsUnknowns>⟧.unknowns.charge d n w bs ≡ nothing)
        × (⟦<PackedField<ClosedEnum<E>> as KeepsUnknowns>⟧.unknowns.charge d n w bs ≡ nothing) }
    ensures refused { (d n : ℕ) (w : WireType) (p more : List ℕ) (v : List ℤ) (kept : List (ℕ × FieldData)) → Payload d n w p →
        ⟦<RepeatedField<ClosedEnum<E>> as KeepsUnknowns>⟧.unknowns.takes d (v, kept) n w p ≡ None →
        (⟦<RepeatedField<ClosedEnum<E>> as KeepsUnknowns>⟧.unknowns.charge d n w (p ++ more) ≡ nothing)
        × (⟦<PackedField<ClosedEnum<E>> as KeepsUnknowns>⟧.unknowns.charge d n w (p ++ more) ≡ nothing) }
    ensures no_varint { (d n : ℕ) (bs : List ℕ) (f : DecodeError) → varint_at bs ≡ Err f →
        ⟦<ExplicitField<ClosedEnum<E>> as KeepsUnknowns>⟧.unknowns.charge d n Varint bs ≡ nothing }
    ensures wire { (d n : ℕ) (w : WireType) (bs : List ℕ) → w ≢ Varint →
        ⟦<ExplicitField<ClosedEnum<E>> as KeepsUnknowns>⟧.unknowns.charge d n w bs ≡ nothing }
{}

/// A list of a closed enum reads its varints as a list of `uint64` does, so that what the laws of packed elements say holds of them:
/// a packed record has as many as there are, declared or not.
pub fn varints_are_read_as_uint64()
    ensures { varints ≡ ⟦<Uint64 as MapValueDecode>⟧.reading }
{}
