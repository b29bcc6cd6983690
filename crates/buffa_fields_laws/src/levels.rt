//! How deep messages from their fields nest: exactly as deep as they say.

ghost use Rattle.std.specs.Prelude.{◌≡◌, ◌↔◌, ◌<◌, ℕ, List, None};
ghost use Rattle.buffa_wire.specs.Parse.{Fits};
ghost use Rattle.buffa_wire.specs.Records.{FieldData, records_of};
ghost use Rattle.buffa_wire.specs.Encoding.{records_encoding};
ghost use Rattle.buffa_fields.specs.Levels.{AreExactLevels};
ghost use Rattle.buffa_fields.specs.MemberList.{field, field_with_unknowns, keep_unknown, skip_unknown};

use buffa_fields::members::explicit_field::ExplicitField;
use buffa_fields::members::group_field::GroupField;
use buffa_fields::members::implicit_field::ImplicitField;
use buffa_fields::members::keeps_unknowns::KeepsUnknowns;
use buffa_fields::members::map_field::MapField;
use buffa_fields::members::member::Member;
use buffa_fields::members::message_field::MessageField;
use buffa_fields::members::message_map_field::MessageMapField;
use buffa_fields::members::ordered_key::OrderedKey;
use buffa_fields::members::ordered_map_field::OrderedMapField;
use buffa_fields::members::ordered_message_map_field::OrderedMessageMapField;
use buffa_fields::members::packed_field::{Packable, PackedField};
use buffa_fields::members::proto_type::ProtoType;
use buffa_fields::members::repeated_field::RepeatedField;
use buffa_fields::members::repeated_group_field::RepeatedGroupField;
use buffa_fields::members::repeated_message_field::RepeatedMessageField;
use buffa_fields::messages::message::{FieldByField, FieldsMeaning};
use buffa_fields::messages::message_fields::MessageFields;
use buffa_map::map_codec::MapCodec;
use buffa_wire::{MapKey, Message, MessageMeaning};
use std::hash::Hash;

/// The `levels` of a message from its fields are exact, where those of the messages in it are: at a lesser depth, the
/// encoding of a normal value whose records fit is refused, whatever it is merged into.
pub fn levels_of_fields_are_exact<M: FieldsMeaning>()
    ensures { M.schema.Exact → AreExactLevels ⟦<FieldByField as MessageMeaning<M>>⟧.merged
        (λ v. records_encoding (⟦<FieldByField as MessageMeaning<M>>⟧.records v)) ⟦<FieldByField as MessageMeaning<M>>⟧.records
        ⟦<FieldByField as MessageMeaning<M>>⟧.normal ⟦<FieldByField as MessageMeaning<M>>⟧.levels }
{}

/// The levels of a type of messages are exact where at any lesser depth the encoding of a normal value whose records fit is merged into no
/// value.
pub fn exact_levels_are_these<N: Message>()
    ensures { AreExactLevels N.merged N.encoding N.records N.normal N.levels ↔ ((d : ℕ) (old v : N.Meaning) →
        Fits (records_of (N.records v)) → N.normal v → d < N.levels v → N.merged d old (N.encoding v) ≡ None) }
{}

/// The levels of a list of members are exact where those of each member are; `keep` and `skip` have no messages.
pub fn messages_in_lists_are_these<M: MessageFields, N: KeepsUnknowns>()
    ensures field { (k : ℕ) (get : M → N.Part) → (field k get N.shape M.schema).Exact ↔ (N.shape.Exact × M.schema.Exact) }
    ensures field_with_unknowns { (k : ℕ) (get : M → N.Part) →
        (field_with_unknowns k get N.shape N.unknowns M.schema).Exact ↔ (N.shape.Exact × M.schema.Exact) }
    ensures keep { (get : M → List (ℕ × FieldData)) → (keep_unknown get).Exact }
    ensures skip { (skip_unknown {M = M}).Exact }
{}

/// A member of plain values, or a list or a map of them, has no messages in it: its levels are always exact.
pub fn values_have_no_messages<
    C: ProtoType,
    P: Packable,
    KC: MapCodec,
    VC: MapCodec,
    OC: MapCodec,
>()
where
    KC::Value: MapKey + Hash,
    OC::Value: OrderedKey,
    ensures values { ⟦<ImplicitField<C> as Member>⟧.shape.Exact × ⟦<ExplicitField<C> as Member>⟧.shape.Exact }
    ensures lists { ⟦<RepeatedField<C> as Member>⟧.shape.Exact × ⟦<PackedField<P> as Member>⟧.shape.Exact }
    ensures maps { ⟦<MapField<KC, VC> as Member>⟧.shape.Exact × ⟦<OrderedMapField<OC, VC> as Member>⟧.shape.Exact }
{}

/// The levels of a member that is a message or a group, or a list or a map of messages, are exact where those of the
/// message's type are.
pub fn messages_in_members_are_these<N: Message, KC: MapCodec, OC: MapCodec>()
where
    KC::Value: MapKey + Hash,
    OC::Value: OrderedKey,
    ensures nested { ⟦<MessageField<N> as Member>⟧.shape.Exact
        ↔ AreExactLevels N.merged N.encoding N.records N.normal N.levels }
    ensures list { ⟦<RepeatedMessageField<N> as Member>⟧.shape.Exact
        ↔ AreExactLevels N.merged N.encoding N.records N.normal N.levels }
    ensures group { ⟦<GroupField<N> as Member>⟧.shape.Exact ↔ AreExactLevels N.merged N.encoding N.records N.normal N.levels }
    ensures groups { ⟦<RepeatedGroupField<N> as Member>⟧.shape.Exact
        ↔ AreExactLevels N.merged N.encoding N.records N.normal N.levels }
    ensures map { ⟦<MessageMapField<KC, N> as Member>⟧.shape.Exact
        ↔ AreExactLevels N.merged N.encoding N.records N.normal N.levels }
    ensures ordered { ⟦<OrderedMessageMapField<OC, N> as Member>⟧.shape.Exact
        ↔ AreExactLevels N.merged N.encoding N.records N.normal N.levels }
{}
