//! What the names of this crate stand for: no two limits, codecs, member types or samples can be exchanged while these laws hold.

ghost use Rattle.std.specs.Prelude.{◌≡◌, ◌∷◌, ◌++◌, ◌-◌, ◌^◌, [], ℕ, List, Ok, Some, false, map, option_map, pos, take, true};
ghost use Rattle.buffa_bytes.specs.Scalars.{bool_of, fixed32_of, fixed64_of, int64_of, sfixed32_of, sfixed64_of};
ghost use Rattle.buffa_bytes.specs.Scalars.{sint32_of, sint64_of, uint32_of, uint64_of};
ghost use Rattle.buffa_bytes.specs.Readings.{delimited_at, same_wire};
ghost use Rattle.buffa_bytes.specs.Values.{int32_of};
ghost use Rattle.buffa_bytes.specs.declared.wire_type.WireType.TheVariants as wire;
ghost use Rattle.buffa_wire.specs.BudgetLeft.{BudgetLeft};
ghost use Rattle.buffa_wire.specs.ByField.{value_of};
ghost use Rattle.buffa_wire.specs.Enums.{numbers, open_number};
ghost use Rattle.buffa_wire.specs.NumberInRecord.{fixed32_in, fixed64_in, varint_in};
ghost use Rattle.buffa_wire.specs.Records.{FieldData, bytes as held_bytes};
ghost use Rattle.buffa_codec.specs.Decoded.{bytes_held, packed_record, string_held};
ghost use Rattle.buffa_ext.specs.Messages.{group_of};
ghost use Rattle.std.specs.BTreeMap.{insert_entry};
ghost use Rattle.buffa_fields.specs.Groups.{group_field_data, group_merged, group_records};
ghost use Rattle.buffa_fields.specs.Lists.{element_records, elements_in, packed_records};
ghost use Rattle.buffa_fields.specs.MapFields.{pair_taken};
ghost use Rattle.buffa_fields.specs.MemberRecords.{explicit_records, implicit_records};
ghost use Rattle.buffa_fields.specs.Submessages.{message_merged, message_records};
ghost use Rattle.buffa_fields.specs.RepeatedMessages.{messages_records};
ghost use Rattle.buffa_recursive.specs.Fixpoint.{semantics};
ghost use Rattle.buffa_map.specs.Enums.{closed_reading, open_reading};
ghost use Rattle.buffa_map.specs.Message.{message_reading};
ghost use Rattle.buffa_map.specs.Pairs.{put};
ghost use Rattle.buffa_map.specs.Scalars.{bytes_reading, number_reading, string_reading};
ghost use Rattle.buffa.specs.NodeMeaning.{node_merged};
ghost use Rattle.buffa.specs.Set.{set_merged};

use crate::extension::{ExtensionCodec, PackableCodec, SingularCodec, codecs};
use crate::fields::{
    FieldsMeaning, KeepsUnknowns, Keyed, Member, MessageFields, OneOf, OrderedKey, Packable,
    ProtoType, RecursiveFields, RecursiveMeaning, RecursiveType,
};
use crate::laws::open_members::OpenMembers;
use crate::map_codec::{MapCodec, MapStorage, MapValueDecode};
use crate::{
    Blank, Buf, DEFAULT_ELEMENT_MEMORY_LIMIT, DEFAULT_UNKNOWN_FIELD_LIMIT, DoubleBits, Enumeration,
    FloatBits, Limited, MAX_FIELD_NUMBER, MAX_MESSAGE_BYTES, Map, MapKey, Message, MessageSpec,
    Pieces, RECURSION_LIMIT, fields, laws, map_codec, samples,
};
use buffa_ext_laws::codecs::{numbers_are_read, the_last_record_is_read};
use buffa_wire::MessageMeaning;
use bytes::Bytes;
use std::hash::Hash;

/// The limits: how deep and with which budget is read where nothing else is said, and what is too large.
pub fn limits_are_these()
    ensures depth { RECURSION_LIMIT ≡ 100 }
    ensures unknown_fields { DEFAULT_UNKNOWN_FIELD_LIMIT ≡ 1000000 }
    ensures element_memory { DEFAULT_ELEMENT_MEMORY_LIMIT ≡ 2 ^ 28 }
    ensures field_number { MAX_FIELD_NUMBER ≡ 2 ^ 29 - 1 }
    ensures message_bytes { MAX_MESSAGE_BYTES ≡ 2 ^ 31 - 1 }
{}

/// Which buffers the names are: `Pieces` shows its bytes, and `Limited` the front of the buffer that it was lent.
pub fn buffers_are_these<B: Buf>()
    ensures pieces { (s : _) → ⟦<Pieces<'static> as Buf>⟧.unread s ≡ s }
    ensures limited { (s : _) → ⟦<Limited<'static, B> as Buf>⟧.unread s ≡ take s.limit (B.unread s.inner.now) }
{}

/// Which laws the names of the modules in [`laws`] are: each has those of the form that it is named for.
pub fn law_modules_are_these<
    M: RecursiveFields,
    N: Message,
    T: OpenMembers,
    K: Keyed,
    E: OneOf,
    C: ProtoType,
    F: MessageFields,
    G: KeepsUnknowns,
>(message: &M) {
    laws::wire::varints_are_read();
    laws::records::records_are_read();
    laws::grammar::varints_are_these();
    laws::values::records_of_fields_are_these();
    laws::answers::merges_are_these::<N>();
    laws::extension_codecs::packed_numbers_are_read();
    laws::extensions::last_step_counts();
    laws::fields::message_fields_are_these::<N>();
    laws::inside::lists_inside_are_these::<M>();
    laws::selves::messages_are_their_members(message);
    laws::open_members::members_of_the_same_type_are_named_so::<M, T, K>();
    laws::oneofs::the_last_value_stands::<E, C>();
    laws::spending::groups_cost_what_is_in_them::<N>();
    laws::blocks::blocks_of_one_are_their_member::<F, G, E>();
    laws::map_fields::rewrite_errors_print();
    laws::nodes::node_is_this();
    laws::sets::sets_are_these();
    laws::names::limits_are_these();
}

/// Which samples the names are: what bytes make of each.
pub fn samples_are_these()
    ensures node { ⟦<samples::Node as MessageSpec>⟧.merged ≡ node_merged }
    ensures set { ⟦<samples::SetMsg as MessageSpec>⟧.merged ≡ set_merged }
{
    laws::nodes::node_is_this();
    laws::sets::sets_are_these();
}

/// How each codec of extensions of one value reads a record, and which records lists and messages have. What the laws of
/// numbers and of last records say holds of these names.
pub fn extension_codecs_are_these<E: Enumeration, M: Message, P: PackableCodec>()
    ensures int32 { (n : ℕ) (b : BudgetLeft) (d : FieldData) → ⟦<codecs::Int32 as SingularCodec>⟧.one n b d
        ≡ option_map int32_of (varint_in d) }
    ensures int64 { (n : ℕ) (b : BudgetLeft) (d : FieldData) → ⟦<codecs::Int64 as SingularCodec>⟧.one n b d
        ≡ option_map int64_of (varint_in d) }
    ensures uint32 { (n : ℕ) (b : BudgetLeft) (d : FieldData) → ⟦<codecs::Uint32 as SingularCodec>⟧.one n b d
        ≡ option_map uint32_of (varint_in d) }
    ensures uint64 { (n : ℕ) (b : BudgetLeft) (d : FieldData) → ⟦<codecs::Uint64 as SingularCodec>⟧.one n b d
        ≡ option_map uint64_of (varint_in d) }
    ensures sint32 { (n : ℕ) (b : BudgetLeft) (d : FieldData) → ⟦<codecs::Sint32 as SingularCodec>⟧.one n b d
        ≡ option_map sint32_of (varint_in d) }
    ensures sint64 { (n : ℕ) (b : BudgetLeft) (d : FieldData) → ⟦<codecs::Sint64 as SingularCodec>⟧.one n b d
        ≡ option_map sint64_of (varint_in d) }
    ensures bool { (n : ℕ) (b : BudgetLeft) (d : FieldData) → ⟦<codecs::Bool as SingularCodec>⟧.one n b d
        ≡ option_map bool_of (varint_in d) }
    ensures fixed32 { (n : ℕ) (b : BudgetLeft) (d : FieldData) → ⟦<codecs::Fixed32 as SingularCodec>⟧.one n b d
        ≡ option_map fixed32_of (fixed32_in d) }
    ensures fixed64 { (n : ℕ) (b : BudgetLeft) (d : FieldData) → ⟦<codecs::Fixed64 as SingularCodec>⟧.one n b d
        ≡ option_map fixed64_of (fixed64_in d) }
    ensures sfixed32 { (n : ℕ) (b : BudgetLeft) (d : FieldData) → ⟦<codecs::Sfixed32 as SingularCodec>⟧.one n b d
        ≡ option_map sfixed32_of (fixed32_in d) }
    ensures sfixed64 { (n : ℕ) (b : BudgetLeft) (d : FieldData) → ⟦<codecs::Sfixed64 as SingularCodec>⟧.one n b d
        ≡ option_map sfixed64_of (fixed64_in d) }
    ensures float { (n : ℕ) (b : BudgetLeft) (d : FieldData) → ⟦<codecs::Float as SingularCodec>⟧.one n b d
        ≡ option_map fixed32_of (fixed32_in d) }
    ensures double { (n : ℕ) (b : BudgetLeft) (d : FieldData) → ⟦<codecs::Double as SingularCodec>⟧.one n b d
        ≡ option_map fixed64_of (fixed64_in d) }
    ensures enums { (n : ℕ) (b : BudgetLeft) (d : FieldData) → ⟦<codecs::EnumI32 as SingularCodec>⟧.one n b d
        ≡ option_map int32_of (varint_in d) }
    ensures open_enums { (n : ℕ) (b : BudgetLeft) (d : FieldData) → ⟦<codecs::EnumCodec<E> as SingularCodec>⟧.one n b d
        ≡ option_map (λ k. open_number E.of_number (int32_of k)) (varint_in d) }
    ensures string { (n : ℕ) (b : BudgetLeft) (d : FieldData) → ⟦<codecs::StringCodec as SingularCodec>⟧.one n b d
        ≡ string_held d }
    ensures bytes { (n : ℕ) (b : BudgetLeft) (d : FieldData) → ⟦<codecs::BytesCodec as SingularCodec>⟧.one n b d
        ≡ bytes_held d }
    ensures lists { (vs : List P.Value.Meaning) → ⟦<codecs::Repeated<P> as ExtensionCodec>⟧.extension_data vs ≡ map P.field_data vs }
    ensures packed { (vs : List P.Value.Meaning) → ⟦<codecs::PackedRepeated<P> as ExtensionCodec>⟧.extension_data vs
        ≡ packed_record P.packed_encoding vs }
    ensures message { (v : _) → ⟦<codecs::MessageCodec<M> as ExtensionCodec>⟧.extension_data v ≡ held_bytes (M.encoding v) ∷ [] }
    ensures group { (v : _) → ⟦<codecs::GroupCodec<M> as ExtensionCodec>⟧.extension_data v ≡ group_of (M.encoding v) ∷ [] }
{
    numbers_are_read::<codecs::Int32>();
    numbers_are_read::<codecs::Int64>();
    numbers_are_read::<codecs::Uint32>();
    numbers_are_read::<codecs::Uint64>();
    numbers_are_read::<codecs::Sint32>();
    numbers_are_read::<codecs::Sint64>();
    numbers_are_read::<codecs::Bool>();
    numbers_are_read::<codecs::Fixed32>();
    numbers_are_read::<codecs::Fixed64>();
    numbers_are_read::<codecs::Sfixed32>();
    numbers_are_read::<codecs::Sfixed64>();
    numbers_are_read::<codecs::Float>();
    numbers_are_read::<codecs::Double>();
    numbers_are_read::<codecs::EnumI32>();
    numbers_are_read::<codecs::EnumCodec<E>>();
    the_last_record_is_read::<codecs::StringCodec>();
    the_last_record_is_read::<codecs::BytesCodec>();
}

// A codec of extensions has values of this type.
fn has_values<C: SingularCodec<Value = V>, V>() {}

// A codec of map fields has values of this type.
fn maps_values<C: MapValueDecode<Value = V>, V>() {}

/// Which values the codecs have that are read alike: reals have the bits of numbers, and bytes are shared or not.
pub fn values_of_codecs_are_these() {
    has_values::<codecs::Fixed32, u32>();
    has_values::<codecs::Fixed64, u64>();
    has_values::<codecs::Float, FloatBits>();
    has_values::<codecs::Double, DoubleBits>();
    maps_values::<map_codec::Fixed32, u32>();
    maps_values::<map_codec::Fixed64, u64>();
    maps_values::<map_codec::Float, FloatBits>();
    maps_values::<map_codec::Double, DoubleBits>();
    maps_values::<map_codec::BytesVec, Vec<u8>>();
    maps_values::<map_codec::BytesBuf, Bytes>();
}

/// How each codec of map fields reads a payload, and how the usual map, [`Map`](crate::Map), is walked.
pub fn map_codecs_are_these<E: Enumeration, M: Message, K: MapKey + Hash, V: Blank>()
    ensures int32 { ⟦<map_codec::Int32 as MapValueDecode>⟧.reading ≡ number_reading wire.Varint (pos 0) int32_of }
    ensures int64 { ⟦<map_codec::Int64 as MapValueDecode>⟧.reading ≡ number_reading wire.Varint (pos 0) int64_of }
    ensures uint32 { ⟦<map_codec::Uint32 as MapValueDecode>⟧.reading ≡ number_reading wire.Varint 0 uint32_of }
    ensures uint64 { ⟦<map_codec::Uint64 as MapValueDecode>⟧.reading ≡ number_reading wire.Varint 0 (λ n. n) }
    ensures sint32 { ⟦<map_codec::Sint32 as MapValueDecode>⟧.reading ≡ number_reading wire.Varint (pos 0) sint32_of }
    ensures sint64 { ⟦<map_codec::Sint64 as MapValueDecode>⟧.reading ≡ number_reading wire.Varint (pos 0) sint64_of }
    ensures bool { ⟦<map_codec::Bool as MapValueDecode>⟧.reading ≡ number_reading wire.Varint false bool_of }
    ensures fixed32 { ⟦<map_codec::Fixed32 as MapValueDecode>⟧.reading ≡ number_reading wire.Fixed32 0 (λ n. n) }
    ensures fixed64 { ⟦<map_codec::Fixed64 as MapValueDecode>⟧.reading ≡ number_reading wire.Fixed64 0 (λ n. n) }
    ensures sfixed32 { ⟦<map_codec::Sfixed32 as MapValueDecode>⟧.reading ≡ number_reading wire.Fixed32 (pos 0) sfixed32_of }
    ensures sfixed64 { ⟦<map_codec::Sfixed64 as MapValueDecode>⟧.reading ≡ number_reading wire.Fixed64 (pos 0) sfixed64_of }
    ensures float { ⟦<map_codec::Float as MapValueDecode>⟧.reading ≡ number_reading wire.Fixed32 0 (λ n. n) }
    ensures double { ⟦<map_codec::Double as MapValueDecode>⟧.reading ≡ number_reading wire.Fixed64 0 (λ n. n) }
    ensures string { ⟦<map_codec::Str as MapValueDecode>⟧.reading ≡ string_reading [] (λ b. b) }
    ensures bytes { ⟦<map_codec::BytesVec as MapValueDecode>⟧.reading ≡ bytes_reading [] (λ b. b) }
    ensures closed { ⟦<map_codec::ClosedEnum<E> as MapValueDecode>⟧.reading ≡ closed_reading (numbers E.of_number E.blank_is) }
    ensures open { ⟦<map_codec::OpenEnum<E> as MapValueDecode>⟧.reading ≡ open_reading E.of_number }
    ensures message { ⟦<map_codec::Msg<M> as MapValueDecode>⟧.reading ≡ message_reading M.blank_is M.merged M.cost }
    ensures map { ⟦<Map<K, V> as MapStorage>⟧.keeps_order ≡ true }
{}

/// What a record of a member does where something stands: a message takes it in, and a list has its elements behind those that
/// stand. A default is no record, of an unsigned number as of any.
#[tactic(auto, unfolding(buffa_fields::specs::Groups::group_merged, buffa_fields::specs::Lists::elements_taken, buffa_fields::specs::Submessages::message_merged))]
pub fn records_of_members_are_these<N: Message, P: Packable>()
    ensures nested { (d n : ℕ) (v : N.Meaning) (w : _) (p : List ℕ) →
        ⟦<fields::MessageField<N> as Member>⟧.shape.takes d (Some v) n w p
        ≡ option_map (λ u. Some u) (message_merged N.merged d v n w p) }
    ensures group { (d n : ℕ) (v : N.Meaning) (w : _) (p : List ℕ) →
        ⟦<fields::GroupField<N> as Member>⟧.shape.takes d (Some v) n w p
        ≡ option_map (λ u. Some u) (group_merged N.merged d v n w p) }
    ensures packed { (d n : ℕ) (vs : List P.Value.Meaning) (p b : List ℕ) → delimited_at p ≡ Ok (b, []) →
        same_wire P.reading.wire wire.LengthDelimited ≡ false →
        ⟦<fields::PackedField<P> as Member>⟧.shape.takes d vs n wire.LengthDelimited p
        ≡ value_of (elements_in P.reading d vs b) }
    ensures unsigned { (⟦<map_codec::Uint32 as ProtoType>⟧.is_blank 0 ≡ true)
        × (⟦<map_codec::Uint64 as ProtoType>⟧.is_blank 0 ≡ true)
        × (⟦<map_codec::Fixed32 as ProtoType>⟧.is_blank 0 ≡ true)
        × (⟦<map_codec::Fixed64 as ProtoType>⟧.is_blank 0 ≡ true) }
{}

/// Which member type each name of [`fields`] is: by the records of its values, and of maps by what they make of an
/// entry.
pub fn member_types_are_these<
    C: ProtoType,
    P: Packable,
    N: Message,
    KC: MapCodec<Value = K>,
    K: MapKey + Hash + OrderedKey,
    VC: MapCodec,
    M: FieldsMeaning,
    S: RecursiveMeaning,
>()
    ensures plain { (n : ℕ) (v : _) → ⟦<fields::ImplicitField<C> as Member>⟧.shape.records n v
        ≡ implicit_records C.is_blank C.field_data n v }
    ensures optional { (n : ℕ) (v : _) → ⟦<fields::ExplicitField<C> as Member>⟧.shape.records n v
        ≡ explicit_records C.field_data n v }
    ensures repeated { (n : ℕ) (v : _) → ⟦<fields::RepeatedField<P> as Member>⟧.shape.records n v
        ≡ element_records P.field_data n v }
    ensures packed { (n : ℕ) (v : _) → ⟦<fields::PackedField<P> as Member>⟧.shape.records n v
        ≡ packed_records P.writing.encoding n v }
    ensures nested { (n : ℕ) (v : _) → ⟦<fields::MessageField<N> as Member>⟧.shape.records n v
        ≡ message_records N.encoding n v }
    ensures repeated_nested { (n : ℕ) (v : _) → ⟦<fields::RepeatedMessageField<N> as Member>⟧.shape.records n v
        ≡ messages_records N.encoding n v }
    ensures group { (n : ℕ) (v : _) → ⟦<fields::GroupField<N> as Member>⟧.shape.records n v ≡ group_records N.records n v }
    ensures repeated_group { (n : ℕ) (v : _) → ⟦<fields::RepeatedGroupField<N> as Member>⟧.shape.records n v
        ≡ element_records (group_field_data N.records) n v }
    ensures map { ⟦<fields::MapField<KC, VC> as Member>⟧.shape.takes
        ≡ pair_taken KC.reading VC.reading (put K.same) }
    ensures map_of_nested { ⟦<fields::MessageMapField<KC, N> as Member>⟧.shape.takes
        ≡ pair_taken KC.reading (message_reading N.blank_is N.merged N.cost) (put K.same) }
    ensures ordered_map { ⟦<fields::OrderedMapField<KC, VC> as Member>⟧.shape.takes
        ≡ pair_taken KC.reading VC.reading (insert_entry K.order) }
    ensures ordered_map_of_nested { ⟦<fields::OrderedMessageMapField<KC, N> as Member>⟧.shape.takes
        ≡ pair_taken KC.reading (message_reading N.blank_is N.merged N.cost) (insert_entry K.order) }
    ensures listed { ⟦<fields::FieldByField as MessageMeaning<M>>⟧.records ≡ M.schema.records }
    ensures self_listed { ⟦<fields::RecursiveFieldByField as MessageMeaning<S>>⟧.records ≡ (semantics S.RecursiveType.COST S.schema S.sound).records }
{}
