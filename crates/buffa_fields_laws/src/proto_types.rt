//! What member types are made of: the orders of keys, the records of numbers, texts and enums, and which members lose
//! nothing.
//!
//! The words of `MapCodec` and `Scalar` that these cite are pinned by the laws of the wire and of maps.

ghost use Rattle.std.specs.Prelude.{◌≡◌, ◌↔◌, ℕ, ℤ, List, [], false, true, not, pos};
ghost use Rattle.std.specs.Cmp.Lexicographic.{slice_cmp};
ghost use Rattle.std.specs.Int.{cast_unsigned, w64};
ghost use Rattle.std.specs.Ordering.{bool_cmp, int_cmp, nat_cmp};
ghost use Rattle.buffa_wire.specs.Records.FieldData.{varint, fixed32, fixed64, bytes};

use buffa_fields::members::explicit_field::ExplicitField;
use buffa_fields::members::group_field::GroupField;
use buffa_fields::members::implicit_field::ImplicitField;
use buffa_fields::members::map_field::MapField;
use buffa_fields::members::member::Member;
use buffa_fields::members::message_field::MessageField;
use buffa_fields::members::message_map_field::MessageMapField;
use buffa_fields::members::ordered_key::OrderedKey;
use buffa_fields::members::ordered_map_field::OrderedMapField;
use buffa_fields::members::ordered_message_map_field::OrderedMessageMapField;
use buffa_fields::members::packed_field::{Packable, PackedField};
use buffa_fields::members::proto_type::ProtoType;
use buffa_fields::members::repeated_field::RepeatedField;
use buffa_fields::members::repeated_group_field::RepeatedGroupField;
use buffa_fields::members::repeated_message_field::RepeatedMessageField;
use buffa_map::map_codec::{
    Bool, BytesBuf, ClosedEnum, Double, Fixed32, Fixed64, Float, Int32, Int64, MapCodec, OpenEnum,
    ProtoBytesMap, ProtoStringMap, Sfixed32, Sfixed64, Sint32, Sint64, Uint32, Uint64,
};
use buffa_wire::{Enumeration, MapKey, Message, ProtoBytes, ProtoString, Scalar};
use std::hash::Hash;

/// The orders of keys: numbers as numbers, false before true, strings byte by byte.
pub fn orders_are_these()
    ensures int32 { ⟦<i32 as OrderedKey>⟧.order ≡ int_cmp }
    ensures int64 { ⟦<i64 as OrderedKey>⟧.order ≡ int_cmp }
    ensures uint32 { ⟦<u32 as OrderedKey>⟧.order ≡ nat_cmp }
    ensures uint64 { ⟦<u64 as OrderedKey>⟧.order ≡ nat_cmp }
    ensures bool { ⟦<bool as OrderedKey>⟧.order ≡ bool_cmp }
    ensures string { ⟦<String as OrderedKey>⟧.order ≡ slice_cmp nat_cmp }
{}

/// The record of a number, and which number is the default: 0, or false.
pub fn numbers_are_these()
    ensures zero { (⟦<Int32 as ProtoType>⟧.is_blank (pos 0) ≡ true) × (⟦<Int64 as ProtoType>⟧.is_blank (pos 0) ≡ true)
        × (⟦<Uint32 as ProtoType>⟧.is_blank 0 ≡ true) × (⟦<Uint64 as ProtoType>⟧.is_blank 0 ≡ true)
        × (⟦<Sint32 as ProtoType>⟧.is_blank (pos 0) ≡ true) × (⟦<Sint64 as ProtoType>⟧.is_blank (pos 0) ≡ true)
        × (⟦<Fixed32 as ProtoType>⟧.is_blank 0 ≡ true) × (⟦<Fixed64 as ProtoType>⟧.is_blank 0 ≡ true)
        × (⟦<Float as ProtoType>⟧.is_blank 0 ≡ true) × (⟦<Double as ProtoType>⟧.is_blank 0 ≡ true)
        × (⟦<Sfixed32 as ProtoType>⟧.is_blank (pos 0) ≡ true) × (⟦<Sfixed64 as ProtoType>⟧.is_blank (pos 0) ≡ true)
        × (⟦<Bool as ProtoType>⟧.is_blank false ≡ true) }
    ensures int32 { (v : ℤ) → (⟦<Int32 as ProtoType>⟧.field_data v ≡ varint (⟦<Int32 as Scalar>⟧.number_of v))
        × ((⟦<Int32 as ProtoType>⟧.is_blank v ≡ true) ↔ (v ≡ pos 0)) }
    ensures int64 { (v : ℤ) → (⟦<Int64 as ProtoType>⟧.field_data v ≡ varint (⟦<Int64 as Scalar>⟧.number_of v))
        × ((⟦<Int64 as ProtoType>⟧.is_blank v ≡ true) ↔ (v ≡ pos 0)) }
    ensures uint32 { (v : ℕ) → (⟦<Uint32 as ProtoType>⟧.field_data v ≡ varint (⟦<Uint32 as Scalar>⟧.number_of v))
        × ((⟦<Uint32 as ProtoType>⟧.is_blank v ≡ true) ↔ (v ≡ 0)) }
    ensures uint64 { (v : ℕ) → (⟦<Uint64 as ProtoType>⟧.field_data v ≡ varint (⟦<Uint64 as Scalar>⟧.number_of v))
        × ((⟦<Uint64 as ProtoType>⟧.is_blank v ≡ true) ↔ (v ≡ 0)) }
    ensures sint32 { (v : ℤ) → (⟦<Sint32 as ProtoType>⟧.field_data v ≡ varint (⟦<Sint32 as Scalar>⟧.number_of v))
        × ((⟦<Sint32 as ProtoType>⟧.is_blank v ≡ true) ↔ (v ≡ pos 0)) }
    ensures sint64 { (v : ℤ) → (⟦<Sint64 as ProtoType>⟧.field_data v ≡ varint (⟦<Sint64 as Scalar>⟧.number_of v))
        × ((⟦<Sint64 as ProtoType>⟧.is_blank v ≡ true) ↔ (v ≡ pos 0)) }
    ensures fixed32 { (v : ℕ) → (⟦<Fixed32 as ProtoType>⟧.field_data v ≡ fixed32 (⟦<Fixed32 as Scalar>⟧.number_of v))
        × ((⟦<Fixed32 as ProtoType>⟧.is_blank v ≡ true) ↔ (v ≡ 0)) }
    ensures fixed64 { (v : ℕ) → (⟦<Fixed64 as ProtoType>⟧.field_data v ≡ fixed64 (⟦<Fixed64 as Scalar>⟧.number_of v))
        × ((⟦<Fixed64 as ProtoType>⟧.is_blank v ≡ true) ↔ (v ≡ 0)) }
    ensures sfixed32 { (v : ℤ) → (⟦<Sfixed32 as ProtoType>⟧.field_data v ≡ fixed32 (⟦<Sfixed32 as Scalar>⟧.number_of v))
        × ((⟦<Sfixed32 as ProtoType>⟧.is_blank v ≡ true) ↔ (v ≡ pos 0)) }
    ensures sfixed64 { (v : ℤ) → (⟦<Sfixed64 as ProtoType>⟧.field_data v ≡ fixed64 (⟦<Sfixed64 as Scalar>⟧.number_of v))
        × ((⟦<Sfixed64 as ProtoType>⟧.is_blank v ≡ true) ↔ (v ≡ pos 0)) }
    ensures float { (v : ℕ) → (⟦<Float as ProtoType>⟧.field_data v ≡ fixed32 (⟦<Float as Scalar>⟧.number_of v))
        × ((⟦<Float as ProtoType>⟧.is_blank v ≡ true) ↔ (v ≡ 0)) }
    ensures double { (v : ℕ) → (⟦<Double as ProtoType>⟧.field_data v ≡ fixed64 (⟦<Double as Scalar>⟧.number_of v))
        × ((⟦<Double as ProtoType>⟧.is_blank v ≡ true) ↔ (v ≡ 0)) }
    ensures bool { (v : _) → (⟦<Bool as ProtoType>⟧.field_data v ≡ varint (⟦<Bool as Scalar>⟧.number_of v))
        × ((⟦<Bool as ProtoType>⟧.is_blank v ≡ true) ↔ (v ≡ false)) }
{}

/// The record of a string, of bytes and of an enum, and which is the default: the empty one, and the number 0. A closed
/// enum's value is always written.
pub fn texts_and_enums_are_these<T: ProtoString, B: ProtoBytes, E: Enumeration>()
    ensures empty { (k : _) → (⟦<BytesBuf as ProtoType>⟧.is_blank [] ≡ true)
        × (⟦<OpenEnum<E> as ProtoType>⟧.is_blank (k, pos 0) ≡ true) }
    ensures string { (v : _) → (⟦<ProtoStringMap<T> as ProtoType>⟧.field_data v ≡ bytes (T.text v))
        × ((⟦<ProtoStringMap<T> as ProtoType>⟧.is_blank v ≡ true) ↔ (T.text v ≡ [])) }
    ensures bytes { (v : _) → (⟦<ProtoBytesMap<B> as ProtoType>⟧.field_data v ≡ bytes (B.bytes v))
        × ((⟦<ProtoBytesMap<B> as ProtoType>⟧.is_blank v ≡ true) ↔ (B.bytes v ≡ [])) }
    ensures shared { (v : List ℕ) → (⟦<BytesBuf as ProtoType>⟧.field_data v ≡ bytes v)
        × ((⟦<BytesBuf as ProtoType>⟧.is_blank v ≡ true) ↔ (v ≡ [])) }
    ensures open { (v : _) → (⟦<OpenEnum<E> as ProtoType>⟧.field_data v ≡ varint (cast_unsigned w64 v.1))
        × ((⟦<OpenEnum<E> as ProtoType>⟧.is_blank v ≡ true) ↔ (v.1 ≡ pos 0)) }
    ensures closed { (v : ℤ) → (⟦<ClosedEnum<E> as ProtoType>⟧.field_data v ≡ varint (cast_unsigned w64 v))
        × (⟦<ClosedEnum<E> as ProtoType>⟧.is_blank v ≡ false) }
{}

/// Which members lose nothing of what they read: those whose codec returns only values that are declared, and those of
/// messages. A layout with another one isn't sound. Nothing is left out.
pub fn members_that_lose_nothing_are_these<C: Packable, KC: MapCodec, VC: MapCodec, N: Message>()
where
    KC::Value: MapKey + Hash + OrderedKey,
    ensures plain { ⟦<ImplicitField<C> as Member>⟧.shape.whole ≡ not C.MAY_RETURN_UNKNOWN }
    ensures optional { ⟦<ExplicitField<C> as Member>⟧.shape.whole ≡ not C.MAY_RETURN_UNKNOWN }
    ensures repeated { ⟦<RepeatedField<C> as Member>⟧.shape.whole ≡ not C.MAY_RETURN_UNKNOWN }
    ensures packed { ⟦<PackedField<C> as Member>⟧.shape.whole ≡ not C.MAY_RETURN_UNKNOWN }
    ensures map { ⟦<MapField<KC, VC> as Member>⟧.shape.whole ≡ not VC.MAY_RETURN_UNKNOWN }
    ensures ordered_map { ⟦<OrderedMapField<KC, VC> as Member>⟧.shape.whole ≡ not VC.MAY_RETURN_UNKNOWN }
    ensures map_of_messages { ⟦<MessageMapField<KC, N> as Member>⟧.shape.whole ≡ true }
    ensures ordered_map_of_messages { ⟦<OrderedMessageMapField<KC, N> as Member>⟧.shape.whole ≡ true }
    ensures nested { ⟦<MessageField<N> as Member>⟧.shape.whole ≡ true }
    ensures repeated_nested { ⟦<RepeatedMessageField<N> as Member>⟧.shape.whole ≡ true }
    ensures group { ⟦<GroupField<N> as Member>⟧.shape.whole ≡ true }
    ensures repeated_group { ⟦<RepeatedGroupField<N> as Member>⟧.shape.whole ≡ true }
{}
