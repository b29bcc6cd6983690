//! Which records, sizes and levels the members of a message have, and what their fields cost, in the words of the encoding
//! guide.
//!
//! The words of `MapCodec` and `MessageSpec` that these cite are pinned by the laws of the wire and of maps.

ghost use Rattle.std.specs.Prelude.{◌≡◌, ◌≢◌, ◌↔◌, ◌+◌, ◌<◌, ◌^◌, ℕ, List, [], ◌∷◌, ◌++◌, None, Some, Err, false, length, map, max, min, ◌-◌, suc, true};
ghost use Rattle.std.specs.List.{concat};
ghost use Rattle.buffa_bytes.specs.Readings.{delimited_at};
ghost use Rattle.buffa_bytes.specs.Varint.{IsVarint};
ghost use Rattle.buffa_wire.specs.BudgetLeft.{charge_by, nothing, plus, units};
ghost use Rattle.buffa_wire.specs.Parse.{Fits};
ghost use Rattle.buffa_wire.specs.Records.{bytes, group, records_of};
ghost use Rattle.buffa_map.specs.Encoding.{entry_encoding};
ghost use Rattle.buffa_map.specs.EntryReading.{charge_of};
ghost use Rattle.buffa_map.specs.Message.{message_reading};
ghost use Rattle.buffa_map.specs.Scalars.{delimited_writing};
ghost use Rattle.buffa_fields.specs.Schema.{is_number};

use buffa_fields::members::explicit_field::ExplicitField;
use buffa_fields::members::group_field::GroupField;
use buffa_fields::members::implicit_field::ImplicitField;
use buffa_fields::members::map_field::MapField;
use buffa_fields::members::member::Member;
use buffa_fields::members::message_field::MessageField;
use buffa_fields::members::message_map_field::MessageMapField;
use buffa_fields::members::ordered_key::OrderedKey;
use buffa_fields::members::ordered_map_field::OrderedMapField;
use buffa_fields::members::ordered_message_map_field::OrderedMessageMapField;
use buffa_fields::members::packed_field::{Packable, PackedField};
use buffa_fields::members::proto_type::ProtoType;
use buffa_fields::members::repeated_field::RepeatedField;
use buffa_fields::members::repeated_group_field::RepeatedGroupField;
use buffa_fields::members::repeated_message_field::RepeatedMessageField;
use buffa_map::map_codec::MapCodec;
use buffa_wire::{MapKey, Message, WireType};
use std::hash::Hash;

/// A default value has no record, and each other one has one. A value that is there has a record, the default too. Each
/// element has one, in order.
#[tactic(auto, unfolding(buffa_fields::specs::MemberRecords::explicit_records, buffa_fields::specs::Lists::element_records))]
pub fn values_are_written<C: ProtoType>()
    ensures default { (n : ℕ) (v : _) → C.is_blank v ≡ true → ⟦<ImplicitField<C> as Member>⟧.shape.records n v ≡ [] }
    ensures plain { (n : ℕ) (v : _) → C.is_blank v ≡ false →
        ⟦<ImplicitField<C> as Member>⟧.shape.records n v ≡ (n, C.field_data v) ∷ [] }
    ensures absent { (n : ℕ) → ⟦<ExplicitField<C> as Member>⟧.shape.records n None ≡ [] }
    ensures present { (n : ℕ) (v : _) → ⟦<ExplicitField<C> as Member>⟧.shape.records n (Some v) ≡ (n, C.field_data v) ∷ [] }
    ensures list { (n : ℕ) (vs : _) → ⟦<RepeatedField<C> as Member>⟧.shape.records n vs ≡ map (λ v. (n, C.field_data v)) vs }
{}

/// No elements have no packed record, and others one, whose bytes are their encodings, one behind the other.
#[tactic(auto, unfolding(buffa_fields::specs::Lists::packed_records))]
pub fn packed_elements_are_written<C: Packable>()
    ensures none { (n : ℕ) → ⟦<PackedField<C> as Member>⟧.shape.records n [] ≡ [] }
    ensures packed { (n : ℕ) (v : _) (vs : _) → ⟦<PackedField<C> as Member>⟧.shape.records n (v ∷ vs)
        ≡ (n, bytes (concat (map C.writing.encoding (v ∷ vs)))) ∷ [] }
{}

/// A message that is there has a record of its encoding, and in a list each has one. Its size, at most 2^32 - 1, comes in front of
/// the sizes of the messages in it. It nests one level deeper than what is in it.
#[tactic(auto, unfolding(buffa_fields::specs::MemberRecords::explicit_records, buffa_fields::specs::Lists::element_records, buffa_fields::specs::Submessages::message_slots, buffa_fields::specs::RepeatedMessages::messages_slots))]
pub fn messages_are_written<N: Message>()
    ensures absent { (n : ℕ) → (⟦<MessageField<N> as Member>⟧.shape.records n None ≡ [])
        × (⟦<MessageField<N> as Member>⟧.shape.slots None ≡ []) × (⟦<MessageField<N> as Member>⟧.shape.levels None ≡ 0)
        × ⟦<MessageField<N> as Member>⟧.shape.normal None }
    ensures records { (n : ℕ) (v : _) →
        ⟦<MessageField<N> as Member>⟧.shape.records n (Some v) ≡ (n, bytes (N.encoding v)) ∷ [] }
    ensures slots { (v : _) → ⟦<MessageField<N> as Member>⟧.shape.slots (Some v)
        ≡ min (length (N.encoding v)) (2 ^ 32 - 1) ∷ N.slots v }
    ensures levels { (v : _) → ⟦<MessageField<N> as Member>⟧.shape.levels (Some v) ≡ suc (N.levels v) }
    ensures normal { (v : _) → ⟦<MessageField<N> as Member>⟧.shape.normal (Some v)
        ↔ (N.normal v × Fits (records_of (N.records v))) }
    ensures none { (⟦<RepeatedMessageField<N> as Member>⟧.shape.slots [] ≡ [])
        × (⟦<RepeatedMessageField<N> as Member>⟧.shape.levels [] ≡ 0) }
    ensures list_records { (n : ℕ) (vs : _) →
        ⟦<RepeatedMessageField<N> as Member>⟧.shape.records n vs ≡ map (λ v. (n, bytes (N.encoding v))) vs }
    ensures list_slots { (v : _) (vs : _) → ⟦<RepeatedMessageField<N> as Member>⟧.shape.slots (v ∷ vs)
        ≡ (min (length (N.encoding v)) (2 ^ 32 - 1) ∷ N.slots v) ++ ⟦<RepeatedMessageField<N> as Member>⟧.shape.slots vs }
    ensures list_levels { (v : _) (vs : _) → ⟦<RepeatedMessageField<N> as Member>⟧.shape.levels (v ∷ vs)
        ≡ max (suc (N.levels v)) (⟦<RepeatedMessageField<N> as Member>⟧.shape.levels vs) }
{}

/// A message that is there has a group of its records, and in a list each has one. Sizes and levels are as of other messages.
#[tactic(auto, unfolding(buffa_fields::specs::MemberRecords::explicit_records, buffa_fields::specs::Lists::element_records, buffa_fields::specs::Submessages::message_slots, buffa_fields::specs::RepeatedMessages::messages_slots))]
pub fn groups_are_written<N: Message>()
    ensures absent { (n : ℕ) → (⟦<GroupField<N> as Member>⟧.shape.records n None ≡ [])
        × (⟦<GroupField<N> as Member>⟧.shape.slots None ≡ []) × (⟦<GroupField<N> as Member>⟧.shape.levels None ≡ 0)
        × ⟦<GroupField<N> as Member>⟧.shape.normal None }
    ensures records { (n : ℕ) (v : _) →
        ⟦<GroupField<N> as Member>⟧.shape.records n (Some v) ≡ (n, group (records_of (N.records v))) ∷ [] }
    ensures slots { (v : _) → ⟦<GroupField<N> as Member>⟧.shape.slots (Some v)
        ≡ min (length (N.encoding v)) (2 ^ 32 - 1) ∷ N.slots v }
    ensures levels { (v : _) → ⟦<GroupField<N> as Member>⟧.shape.levels (Some v) ≡ suc (N.levels v) }
    ensures normal { (v : _) → ⟦<GroupField<N> as Member>⟧.shape.normal (Some v) ↔ N.normal v }
    ensures none { (⟦<RepeatedGroupField<N> as Member>⟧.shape.slots [] ≡ [])
        × (⟦<RepeatedGroupField<N> as Member>⟧.shape.levels [] ≡ 0) }
    ensures list_records { (n : ℕ) (vs : _) →
        ⟦<RepeatedGroupField<N> as Member>⟧.shape.records n vs ≡ map (λ v. (n, group (records_of (N.records v)))) vs }
    ensures list_slots { (v : _) (vs : _) → ⟦<RepeatedGroupField<N> as Member>⟧.shape.slots (v ∷ vs)
        ≡ (min (length (N.encoding v)) (2 ^ 32 - 1) ∷ N.slots v) ++ ⟦<RepeatedGroupField<N> as Member>⟧.shape.slots vs }
    ensures list_levels { (v : _) (vs : _) → ⟦<RepeatedGroupField<N> as Member>⟧.shape.levels (v ∷ vs)
        ≡ max (suc (N.levels v)) (⟦<RepeatedGroupField<N> as Member>⟧.shape.levels vs) }
{}

/// Each pair has a record, in the order of a walk, whose bytes are its entry.
#[tactic(auto, unfolding(buffa_fields::specs::MapFields::entry_records))]
pub fn pairs_are_written<KC: MapCodec, VC: MapCodec>()
where
    KC::Value: MapKey + Hash + OrderedKey,
    ensures none { (n : ℕ) → (⟦<MapField<KC, VC> as Member>⟧.shape.records n [] ≡ [])
        × (⟦<OrderedMapField<KC, VC> as Member>⟧.shape.records n [] ≡ []) }
    ensures map { (n : ℕ) (p : _) (ps : _) → ⟦<MapField<KC, VC> as Member>⟧.shape.records n (p ∷ ps)
        ≡ (n, bytes (entry_encoding KC.writing VC.writing p)) ∷ ⟦<MapField<KC, VC> as Member>⟧.shape.records n ps }
    ensures ordered { (n : ℕ) (p : _) (ps : _) → ⟦<OrderedMapField<KC, VC> as Member>⟧.shape.records n (p ∷ ps)
        ≡ (n, bytes (entry_encoding KC.writing VC.writing p)) ∷ ⟦<OrderedMapField<KC, VC> as Member>⟧.shape.records n ps }
{}

/// The same of maps of messages, whose sizes come in the same order. A map nests as deep as the deepest of them.
#[tactic(auto, unfolding(buffa_fields::specs::MapsOfMessages::pair_records, buffa_fields::specs::MapsOfMessages::pair_slots))]
pub fn pairs_of_messages_are_written<KC: MapCodec, N: Message>()
where
    KC::Value: MapKey + Hash + OrderedKey,
    ensures none { (n : ℕ) → (⟦<MessageMapField<KC, N> as Member>⟧.shape.records n [] ≡ [])
        × (⟦<MessageMapField<KC, N> as Member>⟧.shape.slots [] ≡ [])
        × (⟦<MessageMapField<KC, N> as Member>⟧.shape.levels [] ≡ 0) }
    ensures records { (n : ℕ) (p : _) (ps : _) → ⟦<MessageMapField<KC, N> as Member>⟧.shape.records n (p ∷ ps)
        ≡ (n, bytes (entry_encoding KC.writing (delimited_writing N.encoding) p))
        ∷ ⟦<MessageMapField<KC, N> as Member>⟧.shape.records n ps }
    ensures slots { (p : _) (ps : _) → ⟦<MessageMapField<KC, N> as Member>⟧.shape.slots (p ∷ ps)
        ≡ (min (length (N.encoding p.1)) (2 ^ 32 - 1) ∷ N.slots p.1) ++ ⟦<MessageMapField<KC, N> as Member>⟧.shape.slots ps }
    ensures levels { (p : _) (ps : _) → ⟦<MessageMapField<KC, N> as Member>⟧.shape.levels (p ∷ ps)
        ≡ max (suc (N.levels p.1)) (⟦<MessageMapField<KC, N> as Member>⟧.shape.levels ps) }
    ensures alike { (n : ℕ) (v : _) →
        (⟦<OrderedMessageMapField<KC, N> as Member>⟧.shape.records n v ≡ ⟦<MessageMapField<KC, N> as Member>⟧.shape.records n v)
        × (⟦<OrderedMessageMapField<KC, N> as Member>⟧.shape.slots v ≡ ⟦<MessageMapField<KC, N> as Member>⟧.shape.slots v)
        × (⟦<OrderedMessageMapField<KC, N> as Member>⟧.shape.levels v ≡ ⟦<MessageMapField<KC, N> as Member>⟧.shape.levels v) }
{}

/// A field of a map, where a length and so many bytes are there, costs the units of a pair, and what the messages in its entry cost, also
/// where the entry is refused. One of another wire type costs nothing.
#[tactic(auto, unfolding(buffa_fields::specs::EntriesTaken::entry_cost))]
pub fn entries_cost_what_is_in_them<KC: MapCodec, VC: MapCodec, N: Message>()
where
    KC::Value: MapKey + Hash + OrderedKey,
    ensures map { (d n : ℕ) (bs : List ℕ) → ⟦<MapField<KC, VC> as Member>⟧.shape.charge d n WireType.LengthDelimited bs
        ≡ charge_by (delimited_at bs) (λ e. charge_of KC.reading VC.reading d (KC.COST + VC.COST) e.0) }
    ensures messages { (d n : ℕ) (bs : List ℕ) → ⟦<MessageMapField<KC, N> as Member>⟧.shape.charge d n WireType.LengthDelimited bs
        ≡ charge_by (delimited_at bs)
        (λ e. charge_of KC.reading (message_reading N.blank_is N.merged N.cost) d (KC.COST + N.COST) e.0) }
    ensures wire { (d n : ℕ) (w : _) (bs : List ℕ) → w ≢ WireType.LengthDelimited →
        (⟦<MapField<KC, VC> as Member>⟧.shape.charge d n w bs ≡ nothing)
        × (⟦<MessageMapField<KC, N> as Member>⟧.shape.charge d n w bs ≡ nothing) }
    ensures alike { (⟦<OrderedMapField<KC, VC> as Member>⟧.shape.charge ≡ ⟦<MapField<KC, VC> as Member>⟧.shape.charge)
        × (⟦<OrderedMessageMapField<KC, N> as Member>⟧.shape.charge ≡ ⟦<MessageMapField<KC, N> as Member>⟧.shape.charge) }
{}

/// Fields of values and of lists of values cost nothing. A field of a message costs what its bytes cost one level down, and nothing
/// where no level is left, or no length and so many bytes are there. In a list each costs the units of its type too. One of
/// another wire type costs nothing.
pub fn fields_cost_what_is_in_them<C: ProtoType, N: Message>()
    ensures values { (d n : ℕ) (w : _) (bs : List ℕ) → ((⟦<ImplicitField<C> as Member>⟧.shape.charge d n w bs).memory ≡ 0)
        × ((⟦<ImplicitField<C> as Member>⟧.shape.charge d n w bs).unknown ≡ 0)
        × (⟦<ExplicitField<C> as Member>⟧.shape.charge d n w bs ≡ ⟦<ImplicitField<C> as Member>⟧.shape.charge d n w bs)
        × (⟦<RepeatedField<C> as Member>⟧.shape.charge d n w bs ≡ ⟦<ImplicitField<C> as Member>⟧.shape.charge d n w bs) }
    ensures message { (d n : ℕ) (t b more : List ℕ) → IsVarint t (length b) →
        ⟦<MessageField<N> as Member>⟧.shape.charge (suc d) n WireType.LengthDelimited ((t ++ b) ++ more) ≡ N.cost d b }
    ensures element { (d n : ℕ) (t b more : List ℕ) → IsVarint t (length b) →
        ((⟦<RepeatedMessageField<N> as Member>⟧.shape.charge (suc d) n WireType.LengthDelimited ((t ++ b) ++ more)).memory
        ≡ N.COST + (N.cost d b).memory)
        × ((⟦<RepeatedMessageField<N> as Member>⟧.shape.charge (suc d) n WireType.LengthDelimited ((t ++ b) ++ more)).unknown
        ≡ (N.cost d b).unknown) }
    ensures too_deep { (n : ℕ) (bs : List ℕ) →
        ⟦<MessageField<N> as Member>⟧.shape.charge 0 n WireType.LengthDelimited bs ≡ nothing }
    ensures no_bytes { (d n : ℕ) (bs : List ℕ) (e : _) → delimited_at bs ≡ Err e →
        ⟦<MessageField<N> as Member>⟧.shape.charge d n WireType.LengthDelimited bs ≡ nothing }
    ensures each { (d n : ℕ) (bs : List ℕ) → ⟦<RepeatedMessageField<N> as Member>⟧.shape.charge d n WireType.LengthDelimited bs
        ≡ plus (units N.COST) (⟦<MessageField<N> as Member>⟧.shape.charge d n WireType.LengthDelimited bs) }
    ensures wire { (d n : ℕ) (w : _) (bs : List ℕ) → w ≢ WireType.LengthDelimited →
        (⟦<MessageField<N> as Member>⟧.shape.charge d n w bs ≡ nothing)
        × (⟦<RepeatedMessageField<N> as Member>⟧.shape.charge d n w bs ≡ nothing) }
    ensures numbers { (k : ℕ) → (is_number k ≡ true) ↔ ((0 < k) × (k < 2 ^ 29)) }
{}
