//! What the public names of codecs are: each law is a function with nothing to do, whose contract is the law.

ghost use Rattle.std.specs.Prelude.{◌≡◌, ◌↔◌, List, [], ◌∷◌, map, option_map};
ghost use Rattle.std.specs.Int.{cast_unsigned, from_bool, w32, w64};
ghost use Rattle.buffa_bytes.specs.Scalars.{bool_of, fixed32_of, fixed64_of, int32_of, int64_of, sfixed32_of};
ghost use Rattle.buffa_bytes.specs.Scalars.{sfixed64_of, sint32_of, sint64_of, uint32_of, uint64_of, zigzag};
ghost use Rattle.buffa_wire.specs.NumberInRecord.{fixed32_in, fixed64_in, varint_in};
ghost use Rattle.buffa_wire.specs.Records.{FieldData, bytes, fixed32, fixed64, varint};
ghost use Rattle.buffa_codec.specs.Decoded.{ReadsList, bytes_held, packed_record, string_held};
ghost use Rattle.buffa_ext.specs.Messages.{ReadsMessages, group_held, group_of};
ghost use Rattle.buffa_ext_laws.specs.Names.{IsOf, enum_in};

use crate::codecs::{numbers_are_read, the_last_record_is_read};
use buffa_codec::ExtensionCodec;
use buffa_ext::codecs::{
    Bool, BytesCodec, Double, EnumCodec, EnumI32, Fixed32, Fixed64, Float, GroupCodec, Int32,
    Int64, MessageCodec, PackableCodec, PackedRepeated, Repeated, Sfixed32, Sfixed64,
    SingularCodec, Sint32, Sint64, StringCodec, Uint32, Uint64,
};
use buffa_ext::message::MessageIn;
use buffa_ext::message_record::{Delimited, Grouped};
use buffa_wire::{Enumeration, Message, scalars};
use std::marker::PhantomData;

/// Each name of a number is the codec that reads and writes it so, what the law of numbers says holds of it, and it is the
/// type of that scalar.
pub fn number_names_are_these()
    ensures bool { IsOf ⟦<Bool as SingularCodec>⟧.one ⟦<Bool as SingularCodec>⟧.field_data
        (λ d. option_map bool_of (varint_in d)) (λ v. varint (from_bool v)) }
    ensures int32 { IsOf ⟦<Int32 as SingularCodec>⟧.one ⟦<Int32 as SingularCodec>⟧.field_data
        (λ d. option_map int32_of (varint_in d)) (λ v. varint (cast_unsigned w64 v)) }
    ensures enum_i32 { IsOf ⟦<EnumI32 as SingularCodec>⟧.one ⟦<EnumI32 as SingularCodec>⟧.field_data
        (λ d. option_map int32_of (varint_in d)) (λ v. varint (cast_unsigned w64 v)) }
    ensures int64 { IsOf ⟦<Int64 as SingularCodec>⟧.one ⟦<Int64 as SingularCodec>⟧.field_data
        (λ d. option_map int64_of (varint_in d)) (λ v. varint (cast_unsigned w64 v)) }
    ensures uint32 { IsOf ⟦<Uint32 as SingularCodec>⟧.one ⟦<Uint32 as SingularCodec>⟧.field_data
        (λ d. option_map uint32_of (varint_in d)) varint }
    ensures uint64 { IsOf ⟦<Uint64 as SingularCodec>⟧.one ⟦<Uint64 as SingularCodec>⟧.field_data
        (λ d. option_map uint64_of (varint_in d)) varint }
    ensures sint32 { IsOf ⟦<Sint32 as SingularCodec>⟧.one ⟦<Sint32 as SingularCodec>⟧.field_data
        (λ d. option_map sint32_of (varint_in d)) (λ v. varint (zigzag v)) }
    ensures sint64 { IsOf ⟦<Sint64 as SingularCodec>⟧.one ⟦<Sint64 as SingularCodec>⟧.field_data
        (λ d. option_map sint64_of (varint_in d)) (λ v. varint (zigzag v)) }
    ensures fixed32 { IsOf ⟦<Fixed32 as SingularCodec>⟧.one ⟦<Fixed32 as SingularCodec>⟧.field_data
        (λ d. option_map fixed32_of (fixed32_in d)) fixed32 }
    ensures fixed64 { IsOf ⟦<Fixed64 as SingularCodec>⟧.one ⟦<Fixed64 as SingularCodec>⟧.field_data
        (λ d. option_map fixed64_of (fixed64_in d)) fixed64 }
    ensures sfixed32 { IsOf ⟦<Sfixed32 as SingularCodec>⟧.one ⟦<Sfixed32 as SingularCodec>⟧.field_data
        (λ d. option_map sfixed32_of (fixed32_in d)) (λ v. fixed32 (cast_unsigned w32 v)) }
    ensures sfixed64 { IsOf ⟦<Sfixed64 as SingularCodec>⟧.one ⟦<Sfixed64 as SingularCodec>⟧.field_data
        (λ d. option_map sfixed64_of (fixed64_in d)) (λ v. fixed64 (cast_unsigned w64 v)) }
    ensures float { IsOf ⟦<Float as SingularCodec>⟧.one ⟦<Float as SingularCodec>⟧.field_data
        (λ d. option_map fixed32_of (fixed32_in d)) fixed32 }
    ensures double { IsOf ⟦<Double as SingularCodec>⟧.one ⟦<Double as SingularCodec>⟧.field_data
        (λ d. option_map fixed64_of (fixed64_in d)) fixed64 }
{
    numbers_are_read::<Bool>();
    numbers_are_read::<Int32>();
    numbers_are_read::<EnumI32>();
    numbers_are_read::<Int64>();
    numbers_are_read::<Uint32>();
    numbers_are_read::<Uint64>();
    numbers_are_read::<Sint32>();
    numbers_are_read::<Sint64>();
    numbers_are_read::<Fixed32>();
    numbers_are_read::<Fixed64>();
    numbers_are_read::<Sfixed32>();
    numbers_are_read::<Sfixed64>();
    numbers_are_read::<Float>();
    numbers_are_read::<Double>();
    are_one_type::<scalars::Bool>(PhantomData::<Bool>);
    are_one_type::<scalars::Int32>(PhantomData::<Int32>);
    are_one_type::<scalars::Int64>(PhantomData::<Int64>);
    are_one_type::<scalars::Uint32>(PhantomData::<Uint32>);
    are_one_type::<scalars::Uint64>(PhantomData::<Uint64>);
    are_one_type::<scalars::Sint32>(PhantomData::<Sint32>);
    are_one_type::<scalars::Sint64>(PhantomData::<Sint64>);
    are_one_type::<scalars::Fixed32>(PhantomData::<Fixed32>);
    are_one_type::<scalars::Fixed64>(PhantomData::<Fixed64>);
    are_one_type::<scalars::Sfixed32>(PhantomData::<Sfixed32>);
    are_one_type::<scalars::Sfixed64>(PhantomData::<Sfixed64>);
    are_one_type::<scalars::Float>(PhantomData::<Float>);
    are_one_type::<scalars::Double>(PhantomData::<Double>);
    are_one_type::<scalars::Int32>(PhantomData::<EnumI32>);
}

/// The names of codecs of strings, bytes, enums, lists and messages are those that read and write them so. Of strings and
/// bytes the last record wins, an enum is a number, and all are the types of the laws of these.
pub fn other_names_are_these<E: Enumeration, C: SingularCodec, P: PackableCodec, M: Message>()
    ensures string { IsOf ⟦<StringCodec as SingularCodec>⟧.one ⟦<StringCodec as SingularCodec>⟧.field_data string_held bytes }
    ensures bytes { IsOf ⟦<BytesCodec as SingularCodec>⟧.one ⟦<BytesCodec as SingularCodec>⟧.field_data bytes_held bytes }
    ensures enums { IsOf ⟦<EnumCodec<E> as SingularCodec>⟧.one ⟦<EnumCodec<E> as SingularCodec>⟧.field_data
        (enum_in E.of_number) (λ v. varint (cast_unsigned w64 v.1)) }
    ensures lists { (ds : List FieldData) (vs : List C.Value.Meaning) → ⟦<Repeated<C> as ExtensionCodec>⟧.reads ds vs
        ↔ ReadsList (C.one 100) (C.leaves 100) C.packed ds vs }
    ensures list_records { (vs : List C.Value.Meaning) → ⟦<Repeated<C> as ExtensionCodec>⟧.extension_data vs ≡ map C.field_data vs }
    ensures packed { (ds : List FieldData) (vs : List P.Value.Meaning) → ⟦<PackedRepeated<P> as ExtensionCodec>⟧.reads ds vs
        ↔ ReadsList (P.one 100) (P.leaves 100) P.packed ds vs }
    ensures packed_records { (vs : List P.Value.Meaning) → ⟦<PackedRepeated<P> as ExtensionCodec>⟧.extension_data vs
        ≡ packed_record P.packed_encoding vs }
    ensures messages { ReadsMessages ⟦<MessageCodec<M> as ExtensionCodec>⟧.reads (M.merged 100) (M.cost 100) M.blank_is
        bytes_held }
    ensures message_records { (v : _) → ⟦<MessageCodec<M> as ExtensionCodec>⟧.extension_data v ≡ bytes (M.encoding v) ∷ [] }
    ensures groups { ReadsMessages ⟦<GroupCodec<M> as ExtensionCodec>⟧.reads (M.merged 100) (M.cost 100) M.blank_is
        group_held }
    ensures group_records { (v : _) → ⟦<GroupCodec<M> as ExtensionCodec>⟧.extension_data v ≡ group_of (M.encoding v) ∷ [] }
{
    the_last_record_is_read::<StringCodec>();
    the_last_record_is_read::<BytesCodec>();
    numbers_are_read::<EnumCodec<E>>();
    are_one_type::<buffa_ext::StringCodec>(PhantomData::<StringCodec>);
    are_one_type::<buffa_ext::BytesCodec>(PhantomData::<BytesCodec>);
    are_one_type::<buffa_ext::EnumCodec<E>>(PhantomData::<EnumCodec<E>>);
    are_one_type::<buffa_ext::Repeated<C>>(PhantomData::<Repeated<C>>);
    are_one_type::<buffa_ext::PackedRepeated<P>>(PhantomData::<PackedRepeated<P>>);
    are_one_type::<MessageIn<Delimited, M>>(PhantomData::<MessageCodec<M>>);
    are_one_type::<MessageIn<Grouped, M>>(PhantomData::<GroupCodec<M>>);
}

// What is handed in is of the type that is named.
fn are_one_type<T>(_of: PhantomData<T>) {}
