//! What each member type is, and which message a list of members: one answer each, in the words of `specs/`.
//!
//! The words of `MapCodec`, `MessageSpec` and `Scalar` that these cite are pinned by the laws of the wire and of maps.

ghost use Rattle.std.specs.Prelude.{◌≡◌, ◌↔◌, ◌⊎◌, ◌+◌, ◌<◌, ◌==◌, ◌&&◌, ◌||◌, ℕ, ℤ, List, [], ◌∷◌, ◌++◌, None, Some, Err, map, max, not, false, true, cond, length};
ghost use Rattle.std.specs.List.{AllByRecursion, IsDistinct};
ghost use Rattle.std.specs.BTreeMap.{insert_entry};
ghost use Rattle.std.specs.Map.{keys_of};
ghost use Rattle.std.specs.Option.{option_map};
ghost use Rattle.buffa_bytes.specs.Values.{int32_of};
ghost use Rattle.buffa_bytes.specs.Varint.{IsVarint};
ghost use Rattle.buffa_wire.specs.BudgetLeft.{unknown_fields};
ghost use Rattle.buffa_wire.specs.Enums.{numbers};
ghost use Rattle.buffa_map.specs.Entry.{IsEntry};
ghost use Rattle.buffa_map.specs.Run.{undeclared_record};
ghost use Rattle.buffa_map.specs.declared.map_entry.MapEntry.{MapEntry};
ghost use Rattle.buffa_fields.specs.UnknownsOfMembers.{AllUnknowns, unknowns_levels, take_with_unknowns};
ghost use Rattle.buffa_fields.specs.ClosedEnumLists.{RefusesKeptNumbers, declared_of, kept_numbers_cost, kept_numbers_taken, undeclared_of, varints};
ghost use Rattle.buffa_fields.specs.ClosedEnumMaps.{IsUnknownEntry, KeptPairTakesMemory, RefusesKeptPair, unknown_entry_levels, kept_pair_cost, kept_pair_taken};
ghost use Rattle.buffa_fields.specs.ClosedEnumFields.{IsUnknownNumber, KeptNumberTakesMemory, RefusesKeptNumber, kept_number_cost, kept_number_taken, undeclared_number};
ghost use Rattle.buffa_wire.specs.Parse.{AreValid, IsPayload, fields_inside};
ghost use Rattle.buffa_wire.specs.RecordReading.{RecordTakesMemory, field_at};
ghost use Rattle.buffa_wire.specs.Records.{FieldData, height, records_of};
ghost use Rattle.buffa_bytes.specs.Readings.{check_wire};
ghost use Rattle.buffa_bytes.specs.declared.error.DecodeError.TheVariants.{UnknownFieldLimitExceeded};
ghost use Rattle.buffa_wire.specs.Encoding.{wire_of};
ghost use Rattle.buffa_map.specs.Message.{message_reading};
ghost use Rattle.buffa_map.specs.Pairs.{means, put};
ghost use Rattle.buffa_map.specs.Encoding.{AllHold};
ghost use Rattle.buffa_fields.specs.UndeclaredFields.{AllNumbers, IsFieldThere};
ghost use Rattle.buffa_fields.specs.Lists.{ElementsTakeMemory, check_list_wire, element_records, elements_taken, packed_records};
ghost use Rattle.buffa_fields.specs.MapFields.{PairTakesMemory, pair_cost, pair_taken, entry_records, stepped};
ghost use Rattle.buffa_fields.specs.Schema.{Choice, both_charge, both_take, is_number};
ghost use Rattle.buffa_fields.specs.MemberList.{field, field_with_unknowns, keep_unknown, skip_unknown};
ghost use Rattle.buffa_fields.specs.Groups.{GroupTakesMemory, group_cost, group_field_data, group_merged, group_records};
ghost use Rattle.buffa_fields.specs.Submessages.{FitsInside, MessageTakesMemory, message_cost, message_levels, message_merged, message_records, message_slots, taken_behind, taken_there};
ghost use Rattle.buffa_fields.specs.MapsOfMessages.{pair_levels, pair_records, pair_slots};
ghost use Rattle.buffa_fields.specs.RepeatedMessages.{MessagesTakeMemory, messages_cost, messages_levels, messages_records, messages_slots, messages_taken};
ghost use Rattle.buffa_fields.specs.OrderedMaps.{KeysAscend};
ghost use Rattle.buffa_fields.specs.RepeatedGroups.{GroupsTakeMemory, groups_cost};
ghost use Rattle.buffa_fields.specs.Refusals.{RefusesAs, RefusesElements, RefusesGroup, RefusesMessage, RefusesNew, RefusesPair, RefusesUnder};
ghost use Rattle.buffa_fields.specs.MemberRecords.{explicit_records, implicit_records};
ghost use Rattle.buffa_wire.specs.Takes.{cost_of, merged_of};
ghost use Rattle.buffa_fields.specs.TakenClauses.{AmongKept, CostsEach, GoesToUnknowns, UnknownsOrOthers, LeavesAlone, MemberOrOthers, PassedOver, PutsToUnknowns, TakeAlike};
ghost use Rattle.buffa_fields.specs.Values.{IfThere, RefusesAlone, ValueTakesMemory, free, some_taken, value_taken};

pub use crate::definitions::{
    fields_are_taken_by_these, fields_that_are_not_declared_are_taken_so, maps_and_messages_fit_so,
    members_leave_unknowns_so, members_take_so, members_with_unknowns_take_so,
    numbers_are_left_to_unknowns_so, refused_merges_are_these, tests_are_these,
    what_is_required_is_there,
};
pub use crate::encoding::{
    entries_cost_what_is_in_them, fields_cost_what_is_in_them, groups_are_written,
    messages_are_written, packed_elements_are_written, pairs_are_written,
    pairs_of_messages_are_written, values_are_written,
};
pub use crate::levels::{
    exact_levels_are_these, levels_of_fields_are_exact, messages_in_lists_are_these,
    messages_in_members_are_these, values_have_no_messages,
};
pub use crate::proto_types::{
    members_that_lose_nothing_are_these, numbers_are_these, orders_are_these,
    texts_and_enums_are_these,
};
pub use crate::records::{
    elements_are_appended, entries_are_put, entries_of_messages_are_put,
    fields_go_to_their_members, groups_are_merged, messages_are_merged,
    packed_elements_are_appended, packed_elements_are_read, values_are_read,
};
pub use crate::refusals::{
    lists_take_these_wire_types, refused_boxes_stand, refused_elements_are_not_put,
    refused_entries_are_not_put, refused_groups_stand, refused_kept_entries_are_not_put,
    refused_messages_stand, refused_numbers_are_not_put, refused_values_stay,
};
pub use crate::undeclared::these_may_stand;
use buffa_fields::members::explicit_field::ExplicitField;
use buffa_fields::members::group_field::GroupField;
use buffa_fields::members::implicit_field::ImplicitField;
use buffa_fields::members::keeps_unknowns::KeepsUnknowns;
use buffa_fields::members::map_field::MapField;
use buffa_fields::members::member::Member;
use buffa_fields::members::message_field::MessageField;
use buffa_fields::members::message_map_field::MessageMapField;
use buffa_fields::members::ordered_key::OrderedKey;
use buffa_fields::members::ordered_map_field::OrderedMapField;
use buffa_fields::members::ordered_message_map_field::OrderedMessageMapField;
use buffa_fields::members::packed_field::{Packable, PackedField};
use buffa_fields::members::proto_type::ProtoType;
use buffa_fields::members::repeated_field::RepeatedField;
use buffa_fields::members::repeated_group_field::RepeatedGroupField;
use buffa_fields::members::repeated_message_field::RepeatedMessageField;
use buffa_fields::messages::message::{FieldByField, FieldsMeaning};
use buffa_fields::messages::message_fields::MessageFields;
use buffa_map::map_codec::{ClosedEnum, MapCodec};
use buffa_wire::{Enumeration, MapKey, Message, MessageMeaning, MessageMethods, WireType};
use std::hash::Hash;

/// A member with implicit presence: a payload of its wire type is its value; the default has no record.
pub fn implicit_fields_are_these<C: ProtoType>()
    ensures meaning { (p : _) → ⟦<ImplicitField<C> as Member>⟧.shape.meaning p ≡ C.Value.meaning p }
    ensures blank { ⟦<ImplicitField<C> as Member>⟧.shape.blank ≡ C.Value.blank_is }
    ensures takes { ⟦<ImplicitField<C> as Member>⟧.shape.takes ≡ value_taken C.reading }
    ensures checks { (n : ℕ) (w : _) → ⟦<ImplicitField<C> as Member>⟧.shape.checks n w ≡ check_wire n C.WIRE_TYPE w }
    ensures asks { (d n : ℕ) (w : _) (bs : List ℕ) → ⟦<ImplicitField<C> as Member>⟧.shape.asks d n w bs
        ↔ (ValueTakesMemory C.reading d n w bs) }
    ensures refuses { RefusesAs ⟦<ImplicitField<C> as Member>⟧.shape (RefusesAlone C.reading (λ v. v)) }
    ensures charge { ⟦<ImplicitField<C> as Member>⟧.shape.charge ≡ free }
    ensures records { (n : ℕ) (v : _) → ⟦<ImplicitField<C> as Member>⟧.shape.records n v
        ≡ implicit_records C.is_blank C.field_data n v }
    ensures slots { (v : _) → ⟦<ImplicitField<C> as Member>⟧.shape.slots v ≡ [] }
    ensures levels { (v : _) → ⟦<ImplicitField<C> as Member>⟧.shape.levels v ≡ 0 }
    ensures normal { (v : _) → ⟦<ImplicitField<C> as Member>⟧.shape.normal v ↔ (C.fits v × C.normal v) }
{}

/// A member that may be absent: a record where it is there, the default too.
pub fn explicit_fields_are_these<C: ProtoType>()
    ensures meaning { (p : _) → ⟦<ExplicitField<C> as Member>⟧.shape.meaning p ≡ option_map C.Value.meaning p }
    ensures blank { ⟦<ExplicitField<C> as Member>⟧.shape.blank ≡ None }
    ensures takes { ⟦<ExplicitField<C> as Member>⟧.shape.takes ≡ some_taken C.reading }
    ensures checks { (n : ℕ) (w : _) → ⟦<ExplicitField<C> as Member>⟧.shape.checks n w ≡ check_wire n C.WIRE_TYPE w }
    ensures asks { (d n : ℕ) (w : _) (bs : List ℕ) → ⟦<ExplicitField<C> as Member>⟧.shape.asks d n w bs
        ↔ (ValueTakesMemory C.reading d n w bs) }
    ensures refuses { RefusesAs ⟦<ExplicitField<C> as Member>⟧.shape (RefusesAlone C.reading (λ _. C.reading.blank)) }
    ensures charge { ⟦<ExplicitField<C> as Member>⟧.shape.charge ≡ free }
    ensures records { (n : ℕ) (v : _) → ⟦<ExplicitField<C> as Member>⟧.shape.records n v ≡ explicit_records C.field_data n v }
    ensures slots { (v : _) → ⟦<ExplicitField<C> as Member>⟧.shape.slots v ≡ [] }
    ensures levels { (v : _) → ⟦<ExplicitField<C> as Member>⟧.shape.levels v ≡ 0 }
    ensures normal { (v : _) → ⟦<ExplicitField<C> as Member>⟧.shape.normal v ↔ (IfThere (λ x. C.fits x × C.normal x) v) }
{}

/// A list: each record of its wire type has an element, one with a length packed ones; a record is written for each.
pub fn lists_are_these<C: ProtoType>()
    ensures meaning { (p : _) → ⟦<RepeatedField<C> as Member>⟧.shape.meaning p ≡ map C.Value.meaning p.items }
    ensures blank { ⟦<RepeatedField<C> as Member>⟧.shape.blank ≡ [] }
    ensures takes { ⟦<RepeatedField<C> as Member>⟧.shape.takes ≡ elements_taken C.reading }
    ensures checks { (n : ℕ) (w : _) → ⟦<RepeatedField<C> as Member>⟧.shape.checks n w ≡ check_list_wire n C.WIRE_TYPE w }
    ensures asks { (d n : ℕ) (w : _) (bs : List ℕ) → ⟦<RepeatedField<C> as Member>⟧.shape.asks d n w bs
        ↔ (ElementsTakeMemory C.reading d n w bs) }
    ensures refuses { RefusesAs ⟦<RepeatedField<C> as Member>⟧.shape (RefusesElements C.reading) }
    ensures charge { ⟦<RepeatedField<C> as Member>⟧.shape.charge ≡ free }
    ensures records { (n : ℕ) (v : _) → ⟦<RepeatedField<C> as Member>⟧.shape.records n v ≡ element_records C.field_data n v }
    ensures slots { (v : _) → ⟦<RepeatedField<C> as Member>⟧.shape.slots v ≡ [] }
    ensures levels { (v : _) → ⟦<RepeatedField<C> as Member>⟧.shape.levels v ≡ 0 }
    ensures normal { (v : _) → ⟦<RepeatedField<C> as Member>⟧.shape.normal v ↔ (AllByRecursion (λ x. C.fits x × C.normal x) v) }
{}

/// The same, written packed: one record of all elements, none where there is none.
pub fn packed_lists_are_these<C: Packable>()
    ensures meaning { (p : _) → ⟦<PackedField<C> as Member>⟧.shape.meaning p ≡ map C.Value.meaning p.items }
    ensures blank { ⟦<PackedField<C> as Member>⟧.shape.blank ≡ [] }
    ensures takes { ⟦<PackedField<C> as Member>⟧.shape.takes ≡ elements_taken C.reading }
    ensures checks { (n : ℕ) (w : _) → ⟦<PackedField<C> as Member>⟧.shape.checks n w ≡ check_list_wire n C.WIRE_TYPE w }
    ensures asks { (d n : ℕ) (w : _) (bs : List ℕ) → ⟦<PackedField<C> as Member>⟧.shape.asks d n w bs
        ↔ (ElementsTakeMemory C.reading d n w bs) }
    ensures refuses { RefusesAs ⟦<PackedField<C> as Member>⟧.shape (RefusesElements C.reading) }
    ensures charge { ⟦<PackedField<C> as Member>⟧.shape.charge ≡ free }
    ensures records { (n : ℕ) (v : _) → ⟦<PackedField<C> as Member>⟧.shape.records n v ≡ packed_records C.writing.encoding n v }
    ensures slots { (v : _) → ⟦<PackedField<C> as Member>⟧.shape.slots v ≡ [] }
    ensures levels { (v : _) → ⟦<PackedField<C> as Member>⟧.shape.levels v ≡ 0 }
    ensures normal { (v : _) → ⟦<PackedField<C> as Member>⟧.shape.normal v ↔ (AllByRecursion (λ x. C.fits x × C.normal x) v) }
{}

/// A message that may be absent: each record is merged into the one that is there.
#[tactic(auto, unfolding(buffa_fields::specs::Submessages::message_merged, buffa_fields::specs::Submessages::message_cost))]
pub fn message_fields_are_these<N: Message>()
    ensures meaning { (p : _) → ⟦<MessageField<N> as Member>⟧.shape.meaning p ≡ option_map N.meaning p }
    ensures blank { ⟦<MessageField<N> as Member>⟧.shape.blank ≡ None }
    ensures takes { ⟦<MessageField<N> as Member>⟧.shape.takes ≡ taken_there N.blank_is (message_merged N.merged) }
    ensures checks { (n : ℕ) (w : _) → ⟦<MessageField<N> as Member>⟧.shape.checks n w
        ≡ check_wire n WireType.LengthDelimited w }
    ensures asks { (d n : ℕ) (w : _) (bs : List ℕ) → ⟦<MessageField<N> as Member>⟧.shape.asks d n w bs
        ↔ (MessageTakesMemory d n w bs) }
    ensures refuses { RefusesUnder ⟦<MessageField<N> as Member>⟧.shape (RefusesMessage N.blank_is N.merged N.cost) }
    ensures charge { ⟦<MessageField<N> as Member>⟧.shape.charge ≡ message_cost N.cost }
    ensures records { (n : ℕ) (v : _) → ⟦<MessageField<N> as Member>⟧.shape.records n v ≡ message_records N.encoding n v }
    ensures slots { (v : _) → ⟦<MessageField<N> as Member>⟧.shape.slots v ≡ message_slots N.encoding N.slots v }
    ensures levels { (v : _) → ⟦<MessageField<N> as Member>⟧.shape.levels v ≡ message_levels N.levels v }
    ensures normal { (v : _) → ⟦<MessageField<N> as Member>⟧.shape.normal v
        ↔ (IfThere (FitsInside N.normal N.records) v) }
{}

/// A list of messages: each record is a new element, which costs the units of its type too.
#[tactic(auto, unfolding(buffa_fields::specs::Submessages::message_merged, buffa_fields::specs::RepeatedMessages::messages_cost))]
pub fn lists_of_messages_are_these<N: Message>()
    ensures meaning { (p : _) → ⟦<RepeatedMessageField<N> as Member>⟧.shape.meaning p ≡ map N.meaning p.items }
    ensures blank { ⟦<RepeatedMessageField<N> as Member>⟧.shape.blank ≡ [] }
    ensures takes { ⟦<RepeatedMessageField<N> as Member>⟧.shape.takes ≡ messages_taken N.blank_is N.merged }
    ensures checks { (n : ℕ) (w : _) → ⟦<RepeatedMessageField<N> as Member>⟧.shape.checks n w
        ≡ check_wire n WireType.LengthDelimited w }
    ensures asks { (d n : ℕ) (w : _) (bs : List ℕ) → ⟦<RepeatedMessageField<N> as Member>⟧.shape.asks d n w bs
        ↔ (MessagesTakeMemory d n w bs) }
    ensures refuses { RefusesAs ⟦<RepeatedMessageField<N> as Member>⟧.shape RefusesNew }
    ensures charge { ⟦<RepeatedMessageField<N> as Member>⟧.shape.charge ≡ messages_cost N.COST N.cost }
    ensures records { (n : ℕ) (v : _) → ⟦<RepeatedMessageField<N> as Member>⟧.shape.records n v
        ≡ messages_records N.encoding n v }
    ensures slots { (v : _) → ⟦<RepeatedMessageField<N> as Member>⟧.shape.slots v ≡ messages_slots N.encoding N.slots v }
    ensures levels { (v : _) → ⟦<RepeatedMessageField<N> as Member>⟧.shape.levels v ≡ messages_levels N.levels v }
    ensures normal { (v : _) → ⟦<RepeatedMessageField<N> as Member>⟧.shape.normal v
        ↔ (AllByRecursion (FitsInside N.normal N.records) v) }
{}

/// A message that may be absent, as a group: each group is merged into the one that is there.
#[tactic(auto, unfolding(buffa_fields::specs::Groups::group_merged, buffa_fields::specs::Groups::group_cost))]
pub fn groups_are_these<N: Message>()
    ensures meaning { (p : _) → ⟦<GroupField<N> as Member>⟧.shape.meaning p ≡ option_map N.meaning p }
    ensures blank { ⟦<GroupField<N> as Member>⟧.shape.blank ≡ None }
    ensures takes { ⟦<GroupField<N> as Member>⟧.shape.takes ≡ taken_there N.blank_is (group_merged N.merged) }
    ensures checks { (n : ℕ) (w : _) → ⟦<GroupField<N> as Member>⟧.shape.checks n w ≡ check_wire n WireType.StartGroup w }
    ensures asks { (d n : ℕ) (w : _) (bs : List ℕ) → ⟦<GroupField<N> as Member>⟧.shape.asks d n w bs
        ↔ (GroupTakesMemory d n w bs) }
    ensures refuses { RefusesUnder ⟦<GroupField<N> as Member>⟧.shape RefusesGroup }
    ensures charge { ⟦<GroupField<N> as Member>⟧.shape.charge ≡ group_cost N.cost }
    ensures records { (n : ℕ) (v : _) → ⟦<GroupField<N> as Member>⟧.shape.records n v ≡ group_records N.records n v }
    ensures slots { (v : _) → ⟦<GroupField<N> as Member>⟧.shape.slots v ≡ message_slots N.encoding N.slots v }
    ensures levels { (v : _) → ⟦<GroupField<N> as Member>⟧.shape.levels v ≡ message_levels N.levels v }
    ensures normal { (v : _) → ⟦<GroupField<N> as Member>⟧.shape.normal v ↔ (IfThere N.normal v) }
{}

/// A list of messages, as groups: each group is a new element, which costs the units of its type too.
#[tactic(auto, unfolding(buffa_fields::specs::Groups::group_merged, buffa_fields::specs::RepeatedGroups::groups_cost))]
pub fn lists_of_groups_are_these<N: Message>()
    ensures meaning { (p : _) → ⟦<RepeatedGroupField<N> as Member>⟧.shape.meaning p ≡ map N.meaning p.items }
    ensures blank { ⟦<RepeatedGroupField<N> as Member>⟧.shape.blank ≡ [] }
    ensures takes { ⟦<RepeatedGroupField<N> as Member>⟧.shape.takes ≡ taken_behind N.blank_is (group_merged N.merged) }
    ensures checks { (n : ℕ) (w : _) → ⟦<RepeatedGroupField<N> as Member>⟧.shape.checks n w
        ≡ check_wire n WireType.StartGroup w }
    ensures asks { (d n : ℕ) (w : _) (bs : List ℕ) → ⟦<RepeatedGroupField<N> as Member>⟧.shape.asks d n w bs
        ↔ (GroupsTakeMemory d n w bs) }
    ensures refuses { RefusesAs ⟦<RepeatedGroupField<N> as Member>⟧.shape RefusesNew }
    ensures charge { ⟦<RepeatedGroupField<N> as Member>⟧.shape.charge ≡ groups_cost N.COST N.cost }
    ensures records { (n : ℕ) (v : _) → ⟦<RepeatedGroupField<N> as Member>⟧.shape.records n v
        ≡ element_records (group_field_data N.records) n v }
    ensures slots { (v : _) → ⟦<RepeatedGroupField<N> as Member>⟧.shape.slots v ≡ messages_slots N.encoding N.slots v }
    ensures levels { (v : _) → ⟦<RepeatedGroupField<N> as Member>⟧.shape.levels v ≡ messages_levels N.levels v }
    ensures normal { (v : _) → ⟦<RepeatedGroupField<N> as Member>⟧.shape.normal v ↔ (AllByRecursion N.normal v) }
{}

/// A map: each record is an entry, which is put.
pub fn maps_are_these<KC: MapCodec, VC: MapCodec>()
where
    KC::Value: MapKey + Hash,
    ensures meaning { (p : _) → ⟦<MapField<KC, VC> as Member>⟧.shape.meaning p
        ≡ means KC.Value.meaning VC.Value.meaning p.entries }
    ensures blank { ⟦<MapField<KC, VC> as Member>⟧.shape.blank ≡ [] }
    ensures takes { ⟦<MapField<KC, VC> as Member>⟧.shape.takes ≡ pair_taken KC.reading VC.reading (put KC.Value.same) }
    ensures checks { (n : ℕ) (w : _) → ⟦<MapField<KC, VC> as Member>⟧.shape.checks n w
        ≡ check_wire n WireType.LengthDelimited w }
    ensures asks { (d n : ℕ) (w : _) (bs : List ℕ) → ⟦<MapField<KC, VC> as Member>⟧.shape.asks d n w bs
        ↔ (PairTakesMemory KC.reading VC.reading d n w bs) }
    ensures refuses { RefusesUnder ⟦<MapField<KC, VC> as Member>⟧.shape
        (RefusesPair KC.reading VC.reading (KC.COST + VC.COST)) }
    ensures charge { ⟦<MapField<KC, VC> as Member>⟧.shape.charge ≡ pair_cost KC.reading VC.reading (KC.COST + VC.COST) }
    ensures records { (n : ℕ) (v : _) → ⟦<MapField<KC, VC> as Member>⟧.shape.records n v
        ≡ entry_records KC.writing VC.writing n v }
    ensures slots { (v : _) → ⟦<MapField<KC, VC> as Member>⟧.shape.slots v ≡ [] }
    ensures levels { (v : _) → ⟦<MapField<KC, VC> as Member>⟧.shape.levels v ≡ 0 }
    ensures normal { (v : _) → ⟦<MapField<KC, VC> as Member>⟧.shape.normal v
        ↔ (AllHold (λ k. KC.fits k × KC.normal k) (λ x. VC.fits x × VC.normal x) v
        × IsDistinct KC.Value.same (keys_of v)) }
{}

/// A map of messages.
pub fn maps_of_messages_are_these<KC: MapCodec, N: Message>()
where
    KC::Value: MapKey + Hash,
    ensures meaning { (p : _) → ⟦<MessageMapField<KC, N> as Member>⟧.shape.meaning p
        ≡ means KC.Value.meaning N.meaning p.entries }
    ensures blank { ⟦<MessageMapField<KC, N> as Member>⟧.shape.blank ≡ [] }
    ensures takes { ⟦<MessageMapField<KC, N> as Member>⟧.shape.takes
        ≡ pair_taken KC.reading (message_reading N.blank_is N.merged N.cost) (put KC.Value.same) }
    ensures checks { (n : ℕ) (w : _) → ⟦<MessageMapField<KC, N> as Member>⟧.shape.checks n w
        ≡ check_wire n WireType.LengthDelimited w }
    ensures asks { (d n : ℕ) (w : _) (bs : List ℕ) → ⟦<MessageMapField<KC, N> as Member>⟧.shape.asks d n w bs
        ↔ (PairTakesMemory KC.reading (message_reading N.blank_is N.merged N.cost) d n w bs) }
    ensures refuses { RefusesUnder ⟦<MessageMapField<KC, N> as Member>⟧.shape
        (RefusesPair KC.reading (message_reading N.blank_is N.merged N.cost) (KC.COST + N.COST)) }
    ensures charge { ⟦<MessageMapField<KC, N> as Member>⟧.shape.charge
        ≡ pair_cost KC.reading (message_reading N.blank_is N.merged N.cost) (KC.COST + N.COST) }
    ensures records { (n : ℕ) (v : _) → ⟦<MessageMapField<KC, N> as Member>⟧.shape.records n v
        ≡ pair_records KC.writing N.encoding n v }
    ensures slots { (v : _) → ⟦<MessageMapField<KC, N> as Member>⟧.shape.slots v ≡ pair_slots N.encoding N.slots v }
    ensures levels { (v : _) → ⟦<MessageMapField<KC, N> as Member>⟧.shape.levels v ≡ pair_levels N.levels v }
    ensures parts { (v : _) → ⟦<MessageMapField<KC, N> as Member>⟧.shape.normal v →
        AllHold (λ k. KC.fits k × KC.normal k) (FitsInside N.normal N.records) v }
    ensures keys { (v : _) → ⟦<MessageMapField<KC, N> as Member>⟧.shape.normal v → IsDistinct KC.Value.same (keys_of v) }
    ensures normal { (v : _) → IsDistinct KC.Value.same (keys_of v) →
        AllHold (λ k. KC.fits k × KC.normal k) (FitsInside N.normal N.records) v →
        ⟦<MessageMapField<KC, N> as Member>⟧.shape.normal v }
{}

/// A map in the order of its keys: each record is an entry, which is put in its place.
pub fn ordered_maps_are_these<KC: MapCodec, VC: MapCodec>()
where
    KC::Value: OrderedKey,
    ensures meaning { (p : _) → ⟦<OrderedMapField<KC, VC> as Member>⟧.shape.meaning p
        ≡ means KC.Value.meaning VC.Value.meaning p.entries }
    ensures blank { ⟦<OrderedMapField<KC, VC> as Member>⟧.shape.blank ≡ [] }
    ensures takes { ⟦<OrderedMapField<KC, VC> as Member>⟧.shape.takes ≡ pair_taken KC.reading VC.reading (insert_entry KC.Value.order) }
    ensures checks { (n : ℕ) (w : _) → ⟦<OrderedMapField<KC, VC> as Member>⟧.shape.checks n w
        ≡ check_wire n WireType.LengthDelimited w }
    ensures asks { (d n : ℕ) (w : _) (bs : List ℕ) → ⟦<OrderedMapField<KC, VC> as Member>⟧.shape.asks d n w bs
        ↔ (PairTakesMemory KC.reading VC.reading d n w bs) }
    ensures refuses { RefusesUnder ⟦<OrderedMapField<KC, VC> as Member>⟧.shape
        (RefusesPair KC.reading VC.reading (KC.COST + VC.COST)) }
    ensures charge { ⟦<OrderedMapField<KC, VC> as Member>⟧.shape.charge ≡ pair_cost KC.reading VC.reading (KC.COST + VC.COST) }
    ensures records { (n : ℕ) (v : _) → ⟦<OrderedMapField<KC, VC> as Member>⟧.shape.records n v
        ≡ entry_records KC.writing VC.writing n v }
    ensures slots { (v : _) → ⟦<OrderedMapField<KC, VC> as Member>⟧.shape.slots v ≡ [] }
    ensures levels { (v : _) → ⟦<OrderedMapField<KC, VC> as Member>⟧.shape.levels v ≡ 0 }
    ensures normal { (v : _) → ⟦<OrderedMapField<KC, VC> as Member>⟧.shape.normal v
        ↔ (AllHold (λ k. KC.fits k × KC.normal k) (λ x. VC.fits x × VC.normal x) v
        × KeysAscend KC.Value.order v) }
{}

/// A map of messages in the order of its keys.
pub fn ordered_maps_of_messages_are_these<KC: MapCodec, N: Message>()
where
    KC::Value: OrderedKey,
    ensures meaning { (p : _) → ⟦<OrderedMessageMapField<KC, N> as Member>⟧.shape.meaning p
        ≡ means KC.Value.meaning N.meaning p.entries }
    ensures blank { ⟦<OrderedMessageMapField<KC, N> as Member>⟧.shape.blank ≡ [] }
    ensures takes { ⟦<OrderedMessageMapField<KC, N> as Member>⟧.shape.takes
        ≡ pair_taken KC.reading (message_reading N.blank_is N.merged N.cost) (insert_entry KC.Value.order) }
    ensures checks { (n : ℕ) (w : _) → ⟦<OrderedMessageMapField<KC, N> as Member>⟧.shape.checks n w
        ≡ check_wire n WireType.LengthDelimited w }
    ensures asks { (d n : ℕ) (w : _) (bs : List ℕ) → ⟦<OrderedMessageMapField<KC, N> as Member>⟧.shape.asks d n w bs
        ↔ (PairTakesMemory KC.reading (message_reading N.blank_is N.merged N.cost) d n w bs) }
    ensures refuses { RefusesUnder ⟦<OrderedMessageMapField<KC, N> as Member>⟧.shape
        (RefusesPair KC.reading (message_reading N.blank_is N.merged N.cost) (KC.COST + N.COST)) }
    ensures charge { ⟦<OrderedMessageMapField<KC, N> as Member>⟧.shape.charge
        ≡ pair_cost KC.reading (message_reading N.blank_is N.merged N.cost) (KC.COST + N.COST) }
    ensures records { (n : ℕ) (v : _) → ⟦<OrderedMessageMapField<KC, N> as Member>⟧.shape.records n v
        ≡ pair_records KC.writing N.encoding n v }
    ensures slots { (v : _) → ⟦<OrderedMessageMapField<KC, N> as Member>⟧.shape.slots v ≡ pair_slots N.encoding N.slots v }
    ensures levels { (v : _) → ⟦<OrderedMessageMapField<KC, N> as Member>⟧.shape.levels v ≡ pair_levels N.levels v }
    ensures parts { (v : _) → ⟦<OrderedMessageMapField<KC, N> as Member>⟧.shape.normal v →
        AllHold (λ k. KC.fits k × KC.normal k) (FitsInside N.normal N.records) v }
    ensures keys { (v : _) → ⟦<OrderedMessageMapField<KC, N> as Member>⟧.shape.normal v → KeysAscend KC.Value.order v }
    ensures normal { (v : _) → KeysAscend KC.Value.order v →
        AllHold (λ k. KC.fits k × KC.normal k) (FitsInside N.normal N.records) v →
        ⟦<OrderedMessageMapField<KC, N> as Member>⟧.shape.normal v }
{}

/// Fields that aren't declared, where they are kept: each is a record behind the others, and costs an unknown
/// field for itself and for each inside. One that has a fault costs as many as are read of it: with fewer left it is
/// refused for want of them, with so many it isn't. Memory is asked for where reading one takes some, or where one is
/// there and these unknown fields are left. They are no member of the message, so no number is theirs.
pub fn kept_fields_are_these<M>()
    ensures meaning { (get : M → List (ℕ × FieldData)) (m : M) → (keep_unknown get).meaning m ≡ get m }
    ensures blank { (get : M → List (ℕ × FieldData)) → (keep_unknown get).blank ≡ [] }
    ensures takes { (get : M → List (ℕ × FieldData)) (d n : ℕ) (x : FieldData) (p : List ℕ) (v : List (ℕ × FieldData)) →
        IsPayload d n x p → (keep_unknown get).takes d v n (wire_of x) p ≡ Some (v ++ (n, x) ∷ []) }
    ensures asks { (get : M → List (ℕ × FieldData)) (s d n : ℕ) (w : _) (bs : List ℕ) → (keep_unknown get).asks s d n w bs
        ↔ (RecordTakesMemory d s w bs ⊎ IsFieldThere d s n w bs) }
    ensures charge { (get : M → List (ℕ × FieldData)) (d n : ℕ) (x : FieldData) (p more : List ℕ) → IsPayload d n x p →
        (keep_unknown get).charge d n (wire_of x) (p ++ more) ≡ unknown_fields (1 + fields_inside x) }
    ensures limit { (get : M → List (ℕ × FieldData)) (d s n : ℕ) (w : _) (bs : List ℕ) →
        (field_at d s n w bs ≡ Err UnknownFieldLimitExceeded) ↔ (s < ((keep_unknown get).charge d n w bs).unknown) }
    ensures units { (get : M → List (ℕ × FieldData)) (d n : ℕ) (w : _) (bs : List ℕ) → ((keep_unknown get).charge d n w bs).memory ≡ 0 }
    ensures records { (get : M → List (ℕ × FieldData)) (v : List (ℕ × FieldData)) → (keep_unknown get).records v ≡ v }
    ensures slots { (get : M → List (ℕ × FieldData)) (v : List (ℕ × FieldData)) → (keep_unknown get).slots v ≡ [] }
    ensures levels { (get : M → List (ℕ × FieldData)) (v : List (ℕ × FieldData)) → (keep_unknown get).levels v ≡ height v }
    ensures normal { (get : M → List (ℕ × FieldData)) (v : List (ℕ × FieldData)) → (keep_unknown get).normal v
        ↔ AreValid (records_of v) }
    ensures taken { (get : M → List (ℕ × FieldData)) → TakeAlike (keep_unknown get).Taken (AmongKept get) }
    ensures differs_only { (get : M → List (ℕ × FieldData)) (n : ℕ) (v u : List (ℕ × FieldData)) → (keep_unknown get).DiffersOnlyAt n v u ↔ (v ≡ u) }
    ensures same { (get : M → List (ℕ × FieldData)) (a b : M) → (keep_unknown get).Same a b ↔ (get b ≡ get a) }
    ensures no_member { (get : M → List (ℕ × FieldData)) (n : ℕ) → ((keep_unknown get).declares n ≡ false) × ((keep_unknown get).sound ≡ true) }
{}

/// Fields that aren't declared, where they are passed over: for nothing, without memory, and nothing is said of them. No number
/// is theirs.
pub fn passed_fields_are_these<M>()
    ensures takes { (d n : ℕ) (w : _) (p : List ℕ) (v : _) → (skip_unknown {M = M}).takes d v n w p ≡ Some v }
    ensures asks { (s d n : ℕ) (w : _) (bs : List ℕ) → (skip_unknown {M = M}).asks s d n w bs → ⊥ }
    ensures charge { (skip_unknown {M = M}).charge ≡ free }
    ensures records { (v : _) → ((skip_unknown {M = M}).records v ≡ []) × ((skip_unknown {M = M}).slots v ≡ []) }
    ensures normal { (v : _) → ((skip_unknown {M = M}).levels v ≡ 0) × (skip_unknown {M = M}).normal v }
    ensures taken { TakeAlike (skip_unknown {M = M}).Taken PassedOver }
    ensures no_member { (n : ℕ) → ((skip_unknown {M = M}).declares n ≡ false) × ((skip_unknown {M = M}).sound ≡ true) }
{}

/// A member in front of others: it takes the fields of its number, and they stay then; all other fields are theirs.
/// What it is written as comes before what they are.
pub fn members_are_these<M: MessageFields, N: Member>()
    ensures meaning { (k : ℕ) (get : M → N.Part) (m : M) →
        (field k get N.shape M.schema).meaning m ≡ (N.shape.meaning (get m), M.schema.meaning m) }
    ensures blank { (k : ℕ) (get : M → N.Part) → (field k get N.shape M.schema).blank ≡ (N.shape.blank, M.schema.blank) }
    ensures takes { (k : ℕ) (get : M → N.Part) →
        (field k get N.shape M.schema).takes ≡ both_take k N.shape.takes M.schema.takes }
    ensures charge { (k : ℕ) (get : M → N.Part) → (field k get N.shape M.schema).charge ≡ both_charge k N.shape.charge M.schema.charge }
    ensures asks { (k : ℕ) (get : M → N.Part) (s d n : ℕ) (w : _) (bs : List ℕ) →
        (field k get N.shape M.schema).asks s d n w bs ↔ Choice (n == k) (N.shape.asks d n w bs) (M.schema.asks s d n w bs) }
    ensures records { (k : ℕ) (get : M → N.Part) (v : _) →
        (field k get N.shape M.schema).records v ≡ N.shape.records k v.0 ++ M.schema.records v.1 }
    ensures slots { (k : ℕ) (get : M → N.Part) (v : _) →
        (field k get N.shape M.schema).slots v ≡ N.shape.slots v.0 ++ M.schema.slots v.1 }
    ensures levels { (k : ℕ) (get : M → N.Part) (v : _) →
        (field k get N.shape M.schema).levels v ≡ max (N.shape.levels v.0) (M.schema.levels v.1) }
    ensures normal { (k : ℕ) (get : M → N.Part) (v : _) → (field k get N.shape M.schema).normal v
        ↔ (N.shape.normal v.0 × M.schema.normal v.1 × AllNumbers (λ n. not (n == k)) (M.schema.kept v.1)) }
    ensures sound { (k : ℕ) (get : M → N.Part) →
        (field k get N.shape M.schema).sound
        ≡ (is_number k && not (M.schema.declares k) && (N.shape.whole && M.schema.sound)) }
    ensures declares { (k : ℕ) (get : M → N.Part) (n : ℕ) →
        (field k get N.shape M.schema).declares n ≡ (n == k || M.schema.declares n) }
    ensures taken { (k : ℕ) (get : M → N.Part) →
        TakeAlike (field k get N.shape M.schema).Taken (MemberOrOthers k get N.shape M.schema) }
    ensures differs_only { (k : ℕ) (get : M → N.Part) (n : ℕ) (v u : _) → (field k get N.shape M.schema).DiffersOnlyAt n v u
        ↔ Choice (n == k) (v.1 ≡ u.1) ((v.0 ≡ u.0) × M.schema.DiffersOnlyAt n v.1 u.1) }
    ensures same { (k : ℕ) (get : M → N.Part) (a b : M) →
        (field k get N.shape M.schema).Same a b ↔ ((get b ≡ get a) × M.schema.Same a b) }
    ensures same_but { (k : ℕ) (get : M → N.Part) (a b : M) → (field k get N.shape M.schema).SameBut a b
        ↔ ((get b ≡ get a) × M.schema.SameBut a b) }
{}

/// A map whose undeclared entries are put aside: each whole, as a record of the field's number. A payload that is taken is a length
/// and so many bytes, which are an entry.
pub fn maps_with_unknowns_are_these<KC: MapCodec, VC: MapCodec>()
where
    KC::Value: MapKey + Hash,
    ensures unknowns { PutsToUnknowns ⟦<MapField<KC, VC> as KeepsUnknowns>⟧.unknowns (kept_pair_taken KC.reading VC.reading (put KC.Value.same))
        (KeptPairTakesMemory KC.reading VC.reading (KC.COST + VC.COST)) (kept_pair_cost KC.reading VC.reading (KC.COST + VC.COST))
        (RefusesKeptPair KC.reading VC.reading (KC.COST + VC.COST)) (IsUnknownEntry KC.reading VC.reading)
        (unknown_entry_levels KC.reading VC.reading) }
    ensures entry { (d n : ℕ) (v : _) (kept : List (ℕ × FieldData)) (t e : List ℕ) (s : _) → IsVarint t (length e) →
        IsEntry KC.reading VC.reading d e s → ⟦<MapField<KC, VC> as KeepsUnknowns>⟧.unknowns.takes d (v, kept) n
        WireType.LengthDelimited (t ++ e)
        ≡ Some (stepped (put KC.Value.same) v s, kept ++ undeclared_record n e s.known) }
    ensures only { (d n : ℕ) (v u : _) (w : _) (p : List ℕ) →
        ⟦<MapField<KC, VC> as KeepsUnknowns>⟧.unknowns.takes d v n w p ≡ Some u →
        (w ≡ WireType.LengthDelimited) × (t : List ℕ) × (e : List ℕ)
        × (s : MapEntry KC.Value.Meaning VC.Value.Meaning) × IsVarint t (length e) × (p ≡ t ++ e)
        × IsEntry KC.reading VC.reading d e s }
    ensures costs { CostsEach ⟦<MapField<KC, VC> as Member>⟧.shape ⟦<MapField<KC, VC> as KeepsUnknowns>⟧.unknowns }
{}

/// The same in the order of the keys.
pub fn ordered_maps_with_unknowns_are_these<KC: MapCodec, VC: MapCodec>()
where
    KC::Value: OrderedKey,
    ensures unknowns { PutsToUnknowns ⟦<OrderedMapField<KC, VC> as KeepsUnknowns>⟧.unknowns (kept_pair_taken KC.reading VC.reading (insert_entry KC.Value.order))
        (KeptPairTakesMemory KC.reading VC.reading (KC.COST + VC.COST)) (kept_pair_cost KC.reading VC.reading (KC.COST + VC.COST))
        (RefusesKeptPair KC.reading VC.reading (KC.COST + VC.COST)) (IsUnknownEntry KC.reading VC.reading)
        (unknown_entry_levels KC.reading VC.reading) }
    ensures entry { (d n : ℕ) (v : _) (kept : List (ℕ × FieldData)) (t e : List ℕ) (s : _) → IsVarint t (length e) →
        IsEntry KC.reading VC.reading d e s → ⟦<OrderedMapField<KC, VC> as KeepsUnknowns>⟧.unknowns.takes d (v, kept) n
        WireType.LengthDelimited (t ++ e)
        ≡ Some (stepped (insert_entry KC.Value.order) v s, kept ++ undeclared_record n e s.known) }
    ensures only { (d n : ℕ) (v u : _) (w : _) (p : List ℕ) →
        ⟦<OrderedMapField<KC, VC> as KeepsUnknowns>⟧.unknowns.takes d v n w p ≡ Some u →
        (w ≡ WireType.LengthDelimited) × (t : List ℕ) × (e : List ℕ)
        × (s : MapEntry KC.Value.Meaning VC.Value.Meaning) × IsVarint t (length e) × (p ≡ t ++ e)
        × IsEntry KC.reading VC.reading d e s }
    ensures costs { CostsEach ⟦<OrderedMapField<KC, VC> as Member>⟧.shape ⟦<OrderedMapField<KC, VC> as KeepsUnknowns>⟧.unknowns }
{}

/// A member that may be absent, of a closed enum: an undeclared number leaves it, and is put aside as it was read.
pub fn explicit_members_with_unknowns_are_these<E: Enumeration>()
    ensures unknowns { PutsToUnknowns ⟦<ExplicitField<ClosedEnum<E>> as KeepsUnknowns>⟧.unknowns
        (kept_number_taken (numbers E.of_number E.blank_is)) (KeptNumberTakesMemory (numbers E.of_number E.blank_is))
        (kept_number_cost (numbers E.of_number E.blank_is)) (RefusesKeptNumber (numbers E.of_number E.blank_is))
        (IsUnknownNumber (numbers E.of_number E.blank_is)) (λ _. 0) }
    ensures number { (d n k : ℕ) (v : _) (kept : List (ℕ × FieldData)) (p : List ℕ) → IsVarint p k →
        ⟦<ExplicitField<ClosedEnum<E>> as KeepsUnknowns>⟧.unknowns.takes d (v, kept) n WireType.Varint p
        ≡ Some (
          cond ((numbers E.of_number E.blank_is).declares (int32_of k)) (Some (int32_of k)) v,
          kept ++ undeclared_number (numbers E.of_number E.blank_is) n k,
        ) }
    ensures costs { CostsEach ⟦<ExplicitField<ClosedEnum<E>> as Member>⟧.shape ⟦<ExplicitField<ClosedEnum<E>> as KeepsUnknowns>⟧.unknowns }
{}

/// A list of a closed enum: of a record's varints, packed or not, the declared numbers go behind the elements, and
/// each other is put aside as it was read, in a record of its own. Where no varints are read, none is.
pub fn lists_with_unknowns_are_these<E: Enumeration>()
    ensures unknowns { PutsToUnknowns ⟦<RepeatedField<ClosedEnum<E>> as KeepsUnknowns>⟧.unknowns
        (kept_numbers_taken (numbers E.of_number E.blank_is)) (λ _. ElementsTakeMemory varints)
        (kept_numbers_cost (numbers E.of_number E.blank_is)) (RefusesKeptNumbers (numbers E.of_number E.blank_is))
        (IsUnknownNumber (numbers E.of_number E.blank_is)) (λ _. 0) }
    ensures varints { (d n : ℕ) (v : List ℤ) (kept : List (ℕ × FieldData)) (w : _) (p ks : List ℕ) →
        elements_taken varints d [] n w p ≡ Some ks →
        ⟦<RepeatedField<ClosedEnum<E>> as KeepsUnknowns>⟧.unknowns.takes d (v, kept) n w p
        ≡ Some (
          v ++ declared_of (numbers E.of_number E.blank_is) ks,
          kept ++ undeclared_of (numbers E.of_number E.blank_is) n ks,
        ) }
    ensures refused { (d n : ℕ) (v : List ℤ) (kept : List (ℕ × FieldData)) (w : _) (p : List ℕ) →
        elements_taken varints d [] n w p ≡ None →
        ⟦<RepeatedField<ClosedEnum<E>> as KeepsUnknowns>⟧.unknowns.takes d (v, kept) n w p ≡ None }
    ensures costs { CostsEach ⟦<RepeatedField<ClosedEnum<E>> as Member>⟧.shape ⟦<RepeatedField<ClosedEnum<E>> as KeepsUnknowns>⟧.unknowns }
{}

/// The same of one that is written packed.
pub fn packed_lists_with_unknowns_are_these<E: Enumeration>()
    ensures unknowns { PutsToUnknowns ⟦<PackedField<ClosedEnum<E>> as KeepsUnknowns>⟧.unknowns
        (kept_numbers_taken (numbers E.of_number E.blank_is)) (λ _. ElementsTakeMemory varints)
        (kept_numbers_cost (numbers E.of_number E.blank_is)) (RefusesKeptNumbers (numbers E.of_number E.blank_is))
        (IsUnknownNumber (numbers E.of_number E.blank_is)) (λ _. 0) }
    ensures varints { (d n : ℕ) (v : List ℤ) (kept : List (ℕ × FieldData)) (w : _) (p ks : List ℕ) →
        elements_taken varints d [] n w p ≡ Some ks →
        ⟦<PackedField<ClosedEnum<E>> as KeepsUnknowns>⟧.unknowns.takes d (v, kept) n w p
        ≡ Some (
          v ++ declared_of (numbers E.of_number E.blank_is) ks,
          kept ++ undeclared_of (numbers E.of_number E.blank_is) n ks,
        ) }
    ensures refused { (d n : ℕ) (v : List ℤ) (kept : List (ℕ × FieldData)) (w : _) (p : List ℕ) →
        elements_taken varints d [] n w p ≡ None →
        ⟦<PackedField<ClosedEnum<E>> as KeepsUnknowns>⟧.unknowns.takes d (v, kept) n w p ≡ None }
    ensures costs { CostsEach ⟦<PackedField<ClosedEnum<E>> as Member>⟧.shape ⟦<PackedField<ClosedEnum<E>> as KeepsUnknowns>⟧.unknowns }
{}

/// What keeps fields: the records that are kept, which more are put behind, and the members' own, which come before
/// them.
pub fn kept_records_are_these<M: MessageFields, N: KeepsUnknowns>()
    ensures keep { (get : M → List (ℕ × FieldData)) (v rs : List (ℕ × FieldData)) → ((keep_unknown get).keeps ≡ true)
        × ((keep_unknown get).kept v ≡ v) × ((keep_unknown get).own v ≡ []) × ((keep_unknown get).adds v rs ≡ v ++ rs) }
    ensures skip { (v : _) → ((skip_unknown {M = M}).keeps ≡ false) × ((skip_unknown {M = M}).kept v ≡ []) × ((skip_unknown {M = M}).own v ≡ []) }
    ensures field { (k : ℕ) (get : M → N.Part) (v : _) (rs : List (ℕ × FieldData)) →
        ((field k get N.shape M.schema).keeps ≡ M.schema.keeps)
        × ((field k get N.shape M.schema).kept v ≡ M.schema.kept v.1)
        × ((field k get N.shape M.schema).own v ≡ N.shape.records k v.0 ++ M.schema.own v.1)
        × ((field k get N.shape M.schema).adds v rs ≡ (v.0, M.schema.adds v.1 rs)) }
    ensures field_with_unknowns { (k : ℕ) (get : M → N.Part) (v : _) (rs : List (ℕ × FieldData)) →
        ((field_with_unknowns k get N.shape N.unknowns M.schema).keeps ≡ M.schema.keeps)
        × ((field_with_unknowns k get N.shape N.unknowns M.schema).kept v ≡ M.schema.kept v.1)
        × ((field_with_unknowns k get N.shape N.unknowns M.schema).own v ≡ N.shape.records k v.0 ++ M.schema.own v.1)
        × ((field_with_unknowns k get N.shape N.unknowns M.schema).adds v rs ≡ (v.0, M.schema.adds v.1 rs)) }
    ensures kept { M.schema.keeps ≡ true → (v : _) (rs : List (ℕ × FieldData)) →
        M.schema.kept (M.schema.adds v rs) ≡ M.schema.kept v ++ rs }
    ensures own { (v : _) (rs : List (ℕ × FieldData)) → M.schema.own (M.schema.adds v rs) ≡ M.schema.own v }
    ensures records { (v : _) → M.schema.records v ≡ M.schema.own v ++ M.schema.kept v }
{}

/// A member that puts records aside, in front of others that keep fields: it takes the fields of its number, and what it
/// puts aside comes behind the records that are kept, whatever these are. Such a field leaves each other member as it is,
/// and not only what it means. All else is as with any other member.
pub fn members_with_unknowns_are_these<M: MessageFields, N: KeepsUnknowns, O: Member>()
    ensures meaning { (k : ℕ) (get : M → N.Part) (m : M) →
        (field_with_unknowns k get N.shape N.unknowns M.schema).meaning m ≡ (N.shape.meaning (get m), M.schema.meaning m) }
    ensures blank { (k : ℕ) (get : M → N.Part) →
        (field_with_unknowns k get N.shape N.unknowns M.schema).blank ≡ (N.shape.blank, M.schema.blank) }
    ensures takes { (k : ℕ) (get : M → N.Part) → (field_with_unknowns k get N.shape N.unknowns M.schema).takes
        ≡ take_with_unknowns k N.unknowns.takes M.schema.adds M.schema.takes }
    ensures behind { (k : ℕ) (get : M → N.Part) → M.schema.keeps ≡ true →
        GoesToUnknowns N.shape N.unknowns M.schema (field_with_unknowns k get N.shape N.unknowns M.schema) k }
    ensures charge { (k : ℕ) (get : M → N.Part) →
        (field_with_unknowns k get N.shape N.unknowns M.schema).charge ≡ both_charge k N.unknowns.charge M.schema.charge }
    ensures asks { (k : ℕ) (get : M → N.Part) (s d n : ℕ) (w : _) (bs : List ℕ) →
        (field_with_unknowns k get N.shape N.unknowns M.schema).asks s d n w bs
        ↔ Choice (n == k) (N.unknowns.asks s d n w bs) (M.schema.asks s d n w bs) }
    ensures records { (k : ℕ) (get : M → N.Part) (v : _) → (field_with_unknowns k get N.shape N.unknowns M.schema).records v
        ≡ N.shape.records k v.0 ++ M.schema.records v.1 }
    ensures slots { (k : ℕ) (get : M → N.Part) (v : _) → (field_with_unknowns k get N.shape N.unknowns M.schema).slots v
        ≡ N.shape.slots v.0 ++ M.schema.slots v.1 }
    ensures levels { (k : ℕ) (get : M → N.Part) (v : _) → (field_with_unknowns k get N.shape N.unknowns M.schema).levels v
        ≡ max (N.shape.levels v.0) (max (M.schema.levels v.1) (unknowns_levels k N.unknowns.levels (M.schema.kept v.1))) }
    ensures normal { (k : ℕ) (get : M → N.Part) (v : _) → (field_with_unknowns k get N.shape N.unknowns M.schema).normal v
        ↔ (N.shape.normal v.0 × M.schema.normal v.1 × AllUnknowns k N.unknowns.AreUnknowns (M.schema.kept v.1)) }
    ensures sound { (k : ℕ) (get : M → N.Part) → (field_with_unknowns k get N.shape N.unknowns M.schema).sound
        ≡ (is_number k && not (M.schema.declares k) && (M.schema.keeps && M.schema.sound)) }
    ensures declares { (k : ℕ) (get : M → N.Part) (n : ℕ) →
        (field_with_unknowns k get N.shape N.unknowns M.schema).declares n ≡ (n == k || M.schema.declares n) }
    ensures taken { (k : ℕ) (get : M → N.Part) → TakeAlike (field_with_unknowns k get N.shape N.unknowns M.schema).Taken
        (UnknownsOrOthers k get N.shape N.unknowns M.schema) }
    ensures differs_only { (k : ℕ) (get : M → N.Part) (n : ℕ) (v u : _) → (field_with_unknowns k get N.shape N.unknowns M.schema).DiffersOnlyAt n v u
        ↔ Choice (n == k) (v.1 ≡ u.1) ((v.0 ≡ u.0) × M.schema.DiffersOnlyAt n v.1 u.1) }
    ensures same { (k : ℕ) (get : M → N.Part) (a b : M) → (field_with_unknowns k get N.shape N.unknowns M.schema).Same a b
        ↔ ((get b ≡ get a) × M.schema.Same a b) }
    ensures same_but { (k : ℕ) (get : M → N.Part) (a b : M) → (field_with_unknowns k get N.shape N.unknowns M.schema).SameBut a b
        ↔ ((get b ≡ get a) × M.schema.SameBut a b) }
    ensures others { (k j : ℕ) (get : M → N.Part) (other : M → O.Part) →
        LeavesAlone (field_with_unknowns k get N.shape N.unknowns (field j other O.shape M.schema)).Taken k other }
{}

/// A message of its members: the member of its number takes a field, and merging costs what the fields cost. It is
/// normal where its members are, and sure of memory in its size pass where it has no slots.
pub fn messages_are_these<M: FieldsMeaning>()
    ensures meaning { (m : M) → M.meaning m ≡ M.schema.meaning m }
    ensures blank { M.blank_is ≡ M.schema.blank }
    ensures merged { ⟦<FieldByField as MessageMeaning<M>>⟧.merged ≡ merged_of M.schema.takes }
    ensures cost { ⟦<FieldByField as MessageMeaning<M>>⟧.cost ≡ cost_of M.schema.charge }
    ensures records { ⟦<FieldByField as MessageMeaning<M>>⟧.records ≡ M.schema.records }
    ensures slots { ⟦<FieldByField as MessageMeaning<M>>⟧.slots ≡ M.schema.slots }
    ensures levels { ⟦<FieldByField as MessageMeaning<M>>⟧.levels ≡ M.schema.levels }
    ensures units { ⟦<FieldByField as MessageMeaning<M>>⟧.COST ≡ M.COST }
    ensures takes { (⟦<FieldByField as MessageMeaning<M>>⟧.takes ≡ M.schema.takes) × (⟦<FieldByField as MessageMeaning<M>>⟧.charge ≡ M.schema.charge) }
    ensures normal { (v : _) → ⟦<FieldByField as MessageMeaning<M>>⟧.normal v ↔ (M.schema.Owes × M.schema.normal v) }
    ensures sure { (v : _) → ⟦<FieldByField as MessageMethods<M>>⟧.sure v ↔ (M.schema.slots v ≡ []) }
    ensures taken { TakeAlike ⟦<FieldByField as MessageMethods<M>>⟧.Taken M.schema.Taken }
    ensures refused { (d : ℕ) (v : _) (n : ℕ) (w : _) (bs : List ℕ) (l : _) (e : _) (u : _) →
        ⟦<FieldByField as MessageMeaning<M>>⟧.Refused d v n w bs l e u ↔ (M.schema.DiffersOnlyAt n v u
        × ((a : M) × (b : M) × (after : _) × (rest : List ℕ) × (M.schema.meaning a ≡ v) × (M.schema.meaning b ≡ u)
        × M.schema.Taken d a n w bs l (Err e) b after rest)) }
{}
