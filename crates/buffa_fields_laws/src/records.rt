//! What the records of a message make of its members, in the words of the encoding guide: `t` is a varint of the length of
//! the bytes that follow it, `p` the payload of a record, and `d` how many levels of messages and groups are left.
//!
//! The words of `MapCodec` and `MessageSpec` that these cite are pinned by the laws of the wire and of maps.

ghost use Rattle.std.specs.Prelude.{◌≡◌, ◌≢◌, ℕ, Bool, List, [], ◌∷◌, ◌++◌, None, Some, Ok, Err, cond, false, length, suc};
ghost use Rattle.std.specs.BTreeMap.{insert_entry};
ghost use Rattle.std.specs.Option.{option_map};
ghost use Rattle.buffa_bytes.specs.PayloadValue.{PayloadValue, HasPayloadValue};
ghost use Rattle.buffa_bytes.specs.Field.{IsTag, SomeField};
ghost use Rattle.buffa_bytes.specs.Readings.{delimited_at, same_wire};
ghost use Rattle.buffa_bytes.specs.Join.{Join};
ghost use Rattle.buffa_bytes.specs.Varint.{IsVarint};
ghost use Rattle.buffa_bytes.specs.declared.error.DecodeError.{DecodeError};
ghost use Rattle.buffa_wire.specs.ByField.{value_of};
ghost use Rattle.buffa_map.specs.Codec.{value_at};
ghost use Rattle.buffa_map.specs.Entry.{IsEntry};
ghost use Rattle.buffa_map.specs.Message.{message_reading};
ghost use Rattle.buffa_map.specs.Pairs.{put};
ghost use Rattle.buffa_map.specs.declared.map_entry.MapEntry.{MapEntry};
ghost use Rattle.buffa_fields.specs.Groups.{group_merged};
ghost use Rattle.buffa_fields.specs.Lists.{elements_in};
ghost use Rattle.buffa_fields.specs.MemberList.{field, field_with_unknowns};
ghost use Rattle.buffa_fields.specs.Submessages.{message_merged};

use buffa_fields::members::explicit_field::ExplicitField;
use buffa_fields::members::group_field::GroupField;
use buffa_fields::members::implicit_field::ImplicitField;
use buffa_fields::members::keeps_unknowns::KeepsUnknowns;
use buffa_fields::members::map_field::MapField;
use buffa_fields::members::member::Member;
use buffa_fields::members::message_field::MessageField;
use buffa_fields::members::message_map_field::MessageMapField;
use buffa_fields::members::ordered_key::OrderedKey;
use buffa_fields::members::ordered_map_field::OrderedMapField;
use buffa_fields::members::ordered_message_map_field::OrderedMessageMapField;
use buffa_fields::members::packed_field::{Packable, PackedField};
use buffa_fields::members::proto_type::ProtoType;
use buffa_fields::members::repeated_field::RepeatedField;
use buffa_fields::members::repeated_group_field::RepeatedGroupField;
use buffa_fields::members::repeated_message_field::RepeatedMessageField;
use buffa_fields::messages::message_fields::MessageFields;
use buffa_map::map_codec::MapCodec;
use buffa_wire::{MapKey, Message, WireType};
use std::hash::Hash;

/// A record of a member of one value: its content is read as the codec does. A member that may be absent starts with the
/// default, whatever stood. Nothing is made of a record of another wire type.
pub fn values_are_read<C: ProtoType>()
    ensures plain { (d n : ℕ) (v x : C.Value.Meaning) (p : List ℕ) (c : PayloadValue) (known : Bool) →
        HasPayloadValue C.WIRE_TYPE p c → C.reading.reads d v c ≡ Ok (x, known) →
        ⟦<ImplicitField<C> as Member>⟧.shape.takes d v n C.WIRE_TYPE p ≡ Some x }
    ensures optional { (d n : ℕ) (v : _) (x : C.Value.Meaning) (p : List ℕ) (c : PayloadValue) (known : Bool) →
        HasPayloadValue C.WIRE_TYPE p c → C.reading.reads d C.Value.blank_is c ≡ Ok (x, known) →
        ⟦<ExplicitField<C> as Member>⟧.shape.takes d v n C.WIRE_TYPE p ≡ Some (Some x) }
    ensures refused { (d n : ℕ) (v : C.Value.Meaning) (p : List ℕ) (c : PayloadValue) (e : DecodeError) →
        HasPayloadValue C.WIRE_TYPE p c → C.reading.reads d v c ≡ Err e →
        ⟦<ImplicitField<C> as Member>⟧.shape.takes d v n C.WIRE_TYPE p ≡ None }
    ensures optional_refused { (d n : ℕ) (v : _) (p : List ℕ) (c : PayloadValue) (e : DecodeError) →
        HasPayloadValue C.WIRE_TYPE p c → C.reading.reads d C.Value.blank_is c ≡ Err e →
        ⟦<ExplicitField<C> as Member>⟧.shape.takes d v n C.WIRE_TYPE p ≡ None }
    ensures others { (d n : ℕ) (v : C.Value.Meaning) (o : _) (w : _) (p : List ℕ) → w ≢ C.WIRE_TYPE →
        (⟦<ImplicitField<C> as Member>⟧.shape.takes d v n w p ≡ None)
        × (⟦<ExplicitField<C> as Member>⟧.shape.takes d o n w p ≡ None) }
{}

/// A record of a list: its elements go behind those that stand. A record of the codec's wire type is one element.
pub fn elements_are_appended<C: ProtoType>()
    ensures one { (d n : ℕ) (vs : List C.Value.Meaning) (p : List ℕ) (c : PayloadValue) (x : C.Value.Meaning) (known : Bool) →
        HasPayloadValue C.WIRE_TYPE p c → C.reading.reads d C.Value.blank_is c ≡ Ok (x, known) →
        ⟦<RepeatedField<C> as Member>⟧.shape.takes d vs n C.WIRE_TYPE p ≡ Some (vs ++ x ∷ []) }
    ensures refused { (d n : ℕ) (vs : List C.Value.Meaning) (p : List ℕ) (c : PayloadValue) (e : DecodeError) →
        HasPayloadValue C.WIRE_TYPE p c → C.reading.reads d C.Value.blank_is c ≡ Err e →
        ⟦<RepeatedField<C> as Member>⟧.shape.takes d vs n C.WIRE_TYPE p ≡ None }
    ensures behind { (d n : ℕ) (vs : List C.Value.Meaning) (w : _) (p : List ℕ) →
        ⟦<RepeatedField<C> as Member>⟧.shape.takes d vs n w p
        ≡ option_map (λ us. vs ++ us) (⟦<RepeatedField<C> as Member>⟧.shape.takes d [] n w p) }
{}

/// Packed elements go behind those that stand. Lists are read alike, whether they are written packed or not.
#[tactic(auto, unfolding(buffa_fields::specs::Lists::elements_taken))]
pub fn packed_elements_are_appended<C: Packable>()
    ensures bytes { (d n : ℕ) (vs : List C.Value.Meaning) (p b : List ℕ) → delimited_at p ≡ Ok (b, []) →
        same_wire C.reading.wire WireType.LengthDelimited ≡ false →
        ⟦<RepeatedField<C> as Member>⟧.shape.takes d vs n WireType.LengthDelimited p
        ≡ value_of (elements_in C.reading d vs b) }
    ensures alike { ⟦<PackedField<C> as Member>⟧.shape.takes ≡ ⟦<RepeatedField<C> as Member>⟧.shape.takes }
{}

/// A packed record is a length and so many bytes, which are the payloads of elements, one after the other: no bytes are no
/// element, and the payload at the front is the next one; where that is refused, nothing is taken.
pub fn packed_elements_are_read<C: Packable>()
    ensures none { (d n : ℕ) (vs : List C.Value.Meaning) (t : List ℕ) → IsVarint t 0 →
        ⟦<RepeatedField<C> as Member>⟧.shape.takes d vs n WireType.LengthDelimited t ≡ Some vs }
    ensures more { (d n : ℕ) (vs : List C.Value.Meaning) (t s p b : List ℕ) (c : PayloadValue) (x : C.Value.Meaning)
        (known : Bool) → HasPayloadValue C.WIRE_TYPE p c → C.reading.reads d C.Value.blank_is c ≡ Ok (x, known) →
        IsVarint t (length (p ++ b)) → IsVarint s (length b) →
        ⟦<RepeatedField<C> as Member>⟧.shape.takes d vs n WireType.LengthDelimited (t ++ (p ++ b))
        ≡ ⟦<RepeatedField<C> as Member>⟧.shape.takes d (vs ++ x ∷ []) n WireType.LengthDelimited (s ++ b) }
    ensures refused { (d n : ℕ) (vs : List C.Value.Meaning) (t b : List ℕ) (e : DecodeError) → b ≢ [] →
        value_at C.reading d C.reading.blank b ≡ Err e → IsVarint t (length b) →
        ⟦<RepeatedField<C> as Member>⟧.shape.takes d vs n WireType.LengthDelimited (t ++ b) ≡ None }
{}

/// A record of a message is merged into the message that stands, or into the default one where none does; in a list it makes an
/// element of the default one. It is a length and so many bytes, which are merged one level down. Nothing else is merged.
#[tactic(auto, unfolding(buffa_fields::specs::Submessages::message_merged))]
pub fn messages_are_merged<N: Message>()
    ensures absent { (d n : ℕ) (w : _) (p : List ℕ) → ⟦<MessageField<N> as Member>⟧.shape.takes d None n w p
        ≡ option_map (λ u. Some u) (message_merged N.merged d N.blank_is n w p) }
    ensures partly { (d n : ℕ) (v : N.Meaning) (w : _) (p : List ℕ) → ⟦<MessageField<N> as Member>⟧.shape.takes d (Some v) n w p
        ≡ option_map (λ u. Some u) (message_merged N.merged d v n w p) }
    ensures element { (d n : ℕ) (vs : List N.Meaning) (w : _) (p : List ℕ) →
        ⟦<RepeatedMessageField<N> as Member>⟧.shape.takes d vs n w p
        ≡ option_map (λ u. vs ++ u ∷ []) (message_merged N.merged d N.blank_is n w p) }
    ensures merged { (d n : ℕ) (v : N.Meaning) (t b : List ℕ) → IsVarint t (length b) →
        message_merged N.merged (suc d) v n WireType.LengthDelimited (t ++ b) ≡ N.merged d v b }
    ensures only { (d n : ℕ) (v u : N.Meaning) (w : _) (p : List ℕ) → message_merged N.merged d v n w p ≡ Some u →
        (d ≢ 0) × (w ≡ WireType.LengthDelimited)
        × (t : List ℕ) × (b : List ℕ) × IsVarint t (length b) × (p ≡ t ++ b) }
{}

/// The same of groups. A record of one is fields `b` and an end tag `e` of its number: the fields are merged one level down.
#[tactic(auto, unfolding(buffa_fields::specs::Groups::group_merged))]
pub fn groups_are_merged<N: Message>()
    ensures absent { (d n : ℕ) (w : _) (p : List ℕ) → ⟦<GroupField<N> as Member>⟧.shape.takes d None n w p
        ≡ option_map (λ u. Some u) (group_merged N.merged d N.blank_is n w p) }
    ensures partly { (d n : ℕ) (v : N.Meaning) (w : _) (p : List ℕ) → ⟦<GroupField<N> as Member>⟧.shape.takes d (Some v) n w p
        ≡ option_map (λ u. Some u) (group_merged N.merged d v n w p) }
    ensures element { (d n : ℕ) (vs : List N.Meaning) (w : _) (p : List ℕ) →
        ⟦<RepeatedGroupField<N> as Member>⟧.shape.takes d vs n w p
        ≡ option_map (λ u. vs ++ u ∷ []) (group_merged N.merged d N.blank_is n w p) }
    ensures merged { (d n : ℕ) (v : N.Meaning) (b e : List ℕ) → Join (SomeField d) b → IsTag e n WireType.EndGroup →
        group_merged N.merged (suc d) v n WireType.StartGroup (b ++ e) ≡ N.merged d v b }
    ensures only { (d n : ℕ) (v u : N.Meaning) (w : _) (p : List ℕ) → group_merged N.merged d v n w p ≡ Some u →
        (d ≢ 0) × (w ≡ WireType.StartGroup) }
{}

/// A record of a map is a length and so many bytes, which are an entry: its pair is put, if its value is declared; else the
/// pairs stay.
pub fn entries_are_put<KC: MapCodec, VC: MapCodec>()
where
    KC::Value: MapKey + Hash + OrderedKey,
    ensures map { (d n : ℕ) (v : _) (t e : List ℕ) (s : _) → IsVarint t (length e) → IsEntry KC.reading VC.reading d e s →
        ⟦<MapField<KC, VC> as Member>⟧.shape.takes d v n WireType.LengthDelimited (t ++ e)
        ≡ Some (cond s.known (put KC.Value.same v s.key s.value) v) }
    ensures ordered { (d n : ℕ) (v : _) (t e : List ℕ) (s : _) → IsVarint t (length e) →
        IsEntry KC.reading VC.reading d e s →
        ⟦<OrderedMapField<KC, VC> as Member>⟧.shape.takes d v n WireType.LengthDelimited (t ++ e)
        ≡ Some (cond s.known (insert_entry KC.Value.order v s.key s.value) v) }
    ensures only { (d n : ℕ) (v u : _) (w : _) (p : List ℕ) → ⟦<MapField<KC, VC> as Member>⟧.shape.takes d v n w p ≡ Some u →
        (w ≡ WireType.LengthDelimited) × (t : List ℕ) × (e : List ℕ)
        × (s : MapEntry KC.Value.Meaning VC.Value.Meaning) × IsVarint t (length e) × (p ≡ t ++ e)
        × IsEntry KC.reading VC.reading d e s }
    ensures only_ordered { (d n : ℕ) (v u : _) (w : _) (p : List ℕ) →
        ⟦<OrderedMapField<KC, VC> as Member>⟧.shape.takes d v n w p ≡ Some u →
        (w ≡ WireType.LengthDelimited) × (t : List ℕ) × (e : List ℕ)
        × (s : MapEntry KC.Value.Meaning VC.Value.Meaning) × IsVarint t (length e) × (p ≡ t ++ e)
        × IsEntry KC.reading VC.reading d e s }
{}

/// The same of maps of messages.
pub fn entries_of_messages_are_put<KC: MapCodec, N: Message>()
where
    KC::Value: MapKey + Hash + OrderedKey,
    ensures map { (d n : ℕ) (v : _) (t e : List ℕ) (s : _) → IsVarint t (length e) →
        IsEntry KC.reading (message_reading N.blank_is N.merged N.cost) d e s →
        ⟦<MessageMapField<KC, N> as Member>⟧.shape.takes d v n WireType.LengthDelimited (t ++ e)
        ≡ Some (cond s.known (put KC.Value.same v s.key s.value) v) }
    ensures ordered { (d n : ℕ) (v : _) (t e : List ℕ) (s : _) → IsVarint t (length e) →
        IsEntry KC.reading (message_reading N.blank_is N.merged N.cost) d e s →
        ⟦<OrderedMessageMapField<KC, N> as Member>⟧.shape.takes d v n WireType.LengthDelimited (t ++ e)
        ≡ Some (cond s.known (insert_entry KC.Value.order v s.key s.value) v) }
    ensures only { (d n : ℕ) (v u : _) (w : _) (p : List ℕ) →
        ⟦<MessageMapField<KC, N> as Member>⟧.shape.takes d v n w p ≡ Some u →
        (w ≡ WireType.LengthDelimited) × (t : List ℕ) × (e : List ℕ) × (s : MapEntry KC.Value.Meaning N.Meaning)
        × IsVarint t (length e) × (p ≡ t ++ e)
        × IsEntry KC.reading (message_reading N.blank_is N.merged N.cost) d e s }
    ensures only_ordered { (d n : ℕ) (v u : _) (w : _) (p : List ℕ) →
        ⟦<OrderedMessageMapField<KC, N> as Member>⟧.shape.takes d v n w p ≡ Some u →
        (w ≡ WireType.LengthDelimited) × (t : List ℕ) × (e : List ℕ) × (s : MapEntry KC.Value.Meaning N.Meaning)
        × IsVarint t (length e) × (p ≡ t ++ e)
        × IsEntry KC.reading (message_reading N.blank_is N.merged N.cost) d e s }
{}

/// A field goes to the member of its number, and leaves the others; each other field goes to these, and leaves the member.
/// What a member puts aside goes behind the records that the others keep.
pub fn fields_go_to_their_members<M: MessageFields, N: KeepsUnknowns>()
    ensures own { (d k : ℕ) (get : M → N.Part) (v : _) (w : _) (p : List ℕ) →
        (field k get N.shape M.schema).takes d v k w p ≡ option_map (λ u. (u, v.1)) (N.shape.takes d v.0 k w p) }
    ensures others { (d k n : ℕ) (get : M → N.Part) (v : _) (w : _) (p : List ℕ) → n ≢ k →
        (field k get N.shape M.schema).takes d v n w p ≡ option_map (λ u. (v.0, u)) (M.schema.takes d v.1 n w p) }
    ensures own_charge { (d k : ℕ) (get : M → N.Part) (w : _) (bs : List ℕ) →
        ((field k get N.shape M.schema).charge d k w bs ≡ N.shape.charge d k w bs)
        × ((field_with_unknowns k get N.shape N.unknowns M.schema).charge d k w bs ≡ N.unknowns.charge d k w bs) }
    ensures other_charges { (d k n : ℕ) (get : M → N.Part) (w : _) (bs : List ℕ) → n ≢ k →
        ((field k get N.shape M.schema).charge d n w bs ≡ M.schema.charge d n w bs)
        × ((field_with_unknowns k get N.shape N.unknowns M.schema).charge d n w bs ≡ M.schema.charge d n w bs) }
    ensures own_unknowns { (d k : ℕ) (get : M → N.Part) (v : _) (w : _) (p : List ℕ) →
        (field_with_unknowns k get N.shape N.unknowns M.schema).takes d v k w p
        ≡ option_map (λ u. (u.0, M.schema.adds v.1 u.1)) (N.unknowns.takes d (v.0, []) k w p) }
    ensures other_unknowns { (d k n : ℕ) (get : M → N.Part) (v : _) (w : _) (p : List ℕ) → n ≢ k →
        (field_with_unknowns k get N.shape N.unknowns M.schema).takes d v n w p
        ≡ option_map (λ u. (v.0, u)) (M.schema.takes d v.1 n w p) }
{}
