//! Which codec each public name is: of scalars, strings, bytes, enums and messages.

ghost use Rattle.std.specs.Prelude.{◌≡◌, ◌↔◌, ℕ, ℤ, List, [], None, Option, Some, false, true};
ghost use Rattle.buffa_map.specs.Scalars.{IsLengthy, IsText};
ghost use Rattle.buffa_wire.specs.Enums.{numbers};
ghost use Rattle.buffa_map.specs.Codec.{Coded, Codes, Every, Reading, Writing};
ghost use Rattle.buffa_map.specs.Enums.{ClosedFits, OpenFits, OpenNormal, closed_reading, closed_writing};
ghost use Rattle.buffa_map.specs.Enums.{open_reading, open_writing};
ghost use Rattle.buffa_map.specs.Message.{message_reading};
ghost use Rattle.buffa_map.specs.Scalars.{bytes_reading, delimited_writing, number_reading, number_writing};
ghost use Rattle.buffa_map.specs.Scalars.{eight_writing, four_writing, string_reading, varint_writing};
ghost use Rattle.std.specs.Prelude.{pos};
ghost use Rattle.std.specs.Int.{cast_unsigned, from_bool, w32, w64};
ghost use Rattle.buffa_bytes.specs.Scalars.{bool_of, int64_of, sfixed32_of, sfixed64_of, sint32_of, sint64_of};
ghost use Rattle.buffa_bytes.specs.Scalars.{uint32_of, zigzag};
ghost use Rattle.buffa_bytes.specs.Values.{int32_of};
ghost use Rattle.buffa_bytes.specs.declared.wire_type.WireType.TheVariants as wire;

// By the public names, so that the laws say what a user's names stand for.
use buffa_map::map_codec::{
    Bool, BytesBuf, BytesVec, ClosedEnum, Double, Fixed32, Fixed64, Float, Int32, Int64, MapCodec,
    MapValueDecode, Msg, OpenEnum, ProtoBytesMap, ProtoStringMap, Sfixed32, Sfixed64, Sint32,
    Sint64, Str, Uint32, Uint64,
};
use buffa_wire::{Blank, Enumeration, MapKey, Message, ProtoBytes, ProtoString, Scalar};

/// What a codec is, as laws name it: nothing to call.
pub(crate) trait IsCodec: MapCodec {
    /// How it reads and writes, and what is said of its values.
    ghost coded: { Coded Self.Value.Meaning };
}

impl<VC: MapCodec> IsCodec for VC {
    ghost coded = { record {
      reading = VC.reading;
      writing = VC.writing;
      cost = VC.COST;
      undeclared = VC.MAY_RETURN_UNKNOWN;
      len = VC.FIXED_LEN;
      Normal = VC.normal;
    } };
}

/// What these laws call a codec: how it reads and writes, and what is said of its values. Nothing is left out, nor by the word that
/// says all of it at once; here it says that each value is read back.
pub fn coded_is_this<VC: MapCodec>()
    ensures reading { ⟦<VC as IsCodec>⟧.coded.reading ≡ VC.reading }
    ensures writing { ⟦<VC as IsCodec>⟧.coded.writing ≡ VC.writing }
    ensures cost { ⟦<VC as IsCodec>⟧.coded.cost ≡ VC.COST }
    ensures undeclared { ⟦<VC as IsCodec>⟧.coded.undeclared ≡ VC.MAY_RETURN_UNKNOWN }
    ensures len { ⟦<VC as IsCodec>⟧.coded.len ≡ VC.FIXED_LEN }
    ensures normal { (v : VC.Value.Meaning) → ⟦<VC as IsCodec>⟧.coded.Normal v ↔ VC.normal v }
    ensures codes { (reads : Reading VC.Value.Meaning) (writes : Writing VC.Value.Meaning) (costs : ℕ) (undeclared : _)
        (len : Option ℕ) → Codes ⟦<VC as IsCodec>⟧.coded reads writes costs undeclared len Every
        ↔ ((VC.reading ≡ reads) × (VC.writing ≡ writes) × (VC.COST ≡ costs) × (VC.MAY_RETURN_UNKNOWN ≡ undeclared)
        × (VC.FIXED_LEN ≡ len) × ((v : VC.Value.Meaning) → VC.normal v ↔ Unit {0})) }
{}

/// How each codec reads and writes, what a value costs, whether one may be undeclared, and the length of its payloads.
/// All values are read back, but for an open enum those alone that hold a declared number as the declared value.
pub fn codecs_are_these<N: Scalar, T: ProtoString, P: ProtoBytes, E: Enumeration, M: Message>()
    ensures scalar { Codes ⟦<N as IsCodec>⟧.coded (number_reading N.Form.WIRE_TYPE N.Value.blank_is N.value_of)
        (number_writing N.Form.WIRE_TYPE N.Form.encoding N.number_of) N.Scalar.COST false N.Scalar.FIXED_LEN Every }
    ensures string { Codes ⟦<ProtoStringMap<T> as IsCodec>⟧.coded (string_reading T.blank_is T.of_text)
        (delimited_writing T.text) 24 false None Every }
    ensures bytes { Codes ⟦<ProtoBytesMap<P> as IsCodec>⟧.coded (bytes_reading P.blank_is P.of_bytes)
        (delimited_writing P.bytes) 24 false None Every }
    ensures shared { Codes ⟦<BytesBuf as IsCodec>⟧.coded (bytes_reading [] (λ b. b)) (delimited_writing (λ b. b))
        32 false None Every }
    ensures closed { Codes ⟦<ClosedEnum<E> as IsCodec>⟧.coded (closed_reading (numbers E.of_number E.blank_is))
        closed_writing 4 true None Every }
    ensures open { Codes ⟦<OpenEnum<E> as IsCodec>⟧.coded (open_reading E.of_number) open_writing 8 false None
        (OpenNormal E.of_number) }
    ensures scalar_fits { (v : _) → ⟦<N as MapCodec>⟧.fits v ↔ N.fits v }
    ensures string_fits { (v : _) → ⟦<ProtoStringMap<T> as MapCodec>⟧.fits v ↔ IsText (T.text v) }
    ensures bytes_fits { (v : _) → ⟦<ProtoBytesMap<P> as MapCodec>⟧.fits v ↔ IsLengthy (P.bytes v) }
    ensures closed_fits { (v : ℤ) → ⟦<ClosedEnum<E> as MapCodec>⟧.fits v
        ↔ ClosedFits (numbers E.of_number E.blank_is) v }
    ensures open_fits { (v : _) → ⟦<OpenEnum<E> as MapCodec>⟧.fits v ↔ OpenFits v }
    ensures undeclared { ⟦<Msg<M> as MapValueDecode>⟧.MAY_RETURN_UNKNOWN ≡ false }
    ensures message { (⟦<Msg<M> as MapValueDecode>⟧.reading ≡ message_reading M.blank_is M.merged M.cost)
        × (⟦<Msg<M> as MapValueDecode>⟧.COST ≡ M.COST) }
{}

/// Which codec each scalar is.
pub fn scalars_are_these()
    ensures int32 { (⟦<Int32 as MapValueDecode>⟧.reading ≡ number_reading wire.Varint (pos 0) int32_of)
        × (⟦<Int32 as MapCodec>⟧.writing ≡ varint_writing (cast_unsigned w64)) }
    ensures int64 { (⟦<Int64 as MapValueDecode>⟧.reading ≡ number_reading wire.Varint (pos 0) int64_of)
        × (⟦<Int64 as MapCodec>⟧.writing ≡ varint_writing (cast_unsigned w64)) }
    ensures uint32 { (⟦<Uint32 as MapValueDecode>⟧.reading ≡ number_reading wire.Varint 0 uint32_of)
        × (⟦<Uint32 as MapCodec>⟧.writing ≡ varint_writing (λ n. n)) }
    ensures uint64 { (⟦<Uint64 as MapValueDecode>⟧.reading ≡ number_reading wire.Varint 0 (λ n. n))
        × (⟦<Uint64 as MapCodec>⟧.writing ≡ varint_writing (λ n. n)) }
    ensures sint32 { (⟦<Sint32 as MapValueDecode>⟧.reading ≡ number_reading wire.Varint (pos 0) sint32_of)
        × (⟦<Sint32 as MapCodec>⟧.writing ≡ varint_writing zigzag) }
    ensures sint64 { (⟦<Sint64 as MapValueDecode>⟧.reading ≡ number_reading wire.Varint (pos 0) sint64_of)
        × (⟦<Sint64 as MapCodec>⟧.writing ≡ varint_writing zigzag) }
    ensures bool { (⟦<Bool as MapValueDecode>⟧.reading ≡ number_reading wire.Varint false bool_of)
        × (⟦<Bool as MapCodec>⟧.writing ≡ varint_writing from_bool) }
    ensures fixed32 { (⟦<Fixed32 as MapValueDecode>⟧.reading ≡ number_reading wire.Fixed32 0 (λ n. n))
        × (⟦<Fixed32 as MapCodec>⟧.writing ≡ four_writing (λ n. n)) }
    ensures fixed64 { (⟦<Fixed64 as MapValueDecode>⟧.reading ≡ number_reading wire.Fixed64 0 (λ n. n))
        × (⟦<Fixed64 as MapCodec>⟧.writing ≡ eight_writing (λ n. n)) }
    ensures sfixed32 { (⟦<Sfixed32 as MapValueDecode>⟧.reading ≡ number_reading wire.Fixed32 (pos 0) sfixed32_of)
        × (⟦<Sfixed32 as MapCodec>⟧.writing ≡ four_writing (cast_unsigned w32)) }
    ensures sfixed64 { (⟦<Sfixed64 as MapValueDecode>⟧.reading ≡ number_reading wire.Fixed64 (pos 0) sfixed64_of)
        × (⟦<Sfixed64 as MapCodec>⟧.writing ≡ eight_writing (cast_unsigned w64)) }
    ensures float { (⟦<Float as MapValueDecode>⟧.reading ≡ number_reading wire.Fixed32 0 (λ n. n))
        × (⟦<Float as MapCodec>⟧.writing ≡ four_writing (λ n. n)) }
    ensures double { (⟦<Double as MapValueDecode>⟧.reading ≡ number_reading wire.Fixed64 0 (λ n. n))
        × (⟦<Double as MapCodec>⟧.writing ≡ eight_writing (λ n. n)) }
{}

/// How strings and bytes are read and written, what holds of those that a value may have, and what a value costs.
pub fn strings_and_bytes_are_these()
    ensures string { (⟦<Str as MapValueDecode>⟧.reading ≡ string_reading [] (λ b. b))
        × (⟦<Str as MapCodec>⟧.writing ≡ delimited_writing (λ b. b)) }
    ensures bytes { (⟦<BytesVec as MapValueDecode>⟧.reading ≡ bytes_reading [] (λ b. b))
        × (⟦<BytesVec as MapCodec>⟧.writing ≡ delimited_writing (λ b. b)) }
    ensures shared { (⟦<BytesBuf as MapValueDecode>⟧.reading ≡ bytes_reading [] (λ b. b))
        × (⟦<BytesBuf as MapCodec>⟧.writing ≡ delimited_writing (λ b. b)) }
    ensures fits { (b : List ℕ) → (⟦<Str as MapCodec>⟧.fits b ↔ IsText b)
        × (⟦<BytesVec as MapCodec>⟧.fits b ↔ IsLengthy b) × (⟦<BytesBuf as MapCodec>⟧.fits b ↔ IsLengthy b) }
    ensures costs { (⟦<Str as MapValueDecode>⟧.COST ≡ 24) × (⟦<BytesVec as MapValueDecode>⟧.COST ≡ 24)
        × (⟦<BytesBuf as MapValueDecode>⟧.COST ≡ 32) }
{}

/// What a value of each scalar costs, and the length of its payloads, where they have one.
pub fn scalars_cost_so_much()
    ensures varints { (⟦<Int32 as MapValueDecode>⟧.COST ≡ 4) × (⟦<Sint32 as MapValueDecode>⟧.COST ≡ 4)
        × (⟦<Uint32 as MapValueDecode>⟧.COST ≡ 4) × (⟦<Bool as MapValueDecode>⟧.COST ≡ 1) }
    ensures long_varints { (⟦<Int64 as MapValueDecode>⟧.COST ≡ 8) × (⟦<Sint64 as MapValueDecode>⟧.COST ≡ 8)
        × (⟦<Uint64 as MapValueDecode>⟧.COST ≡ 8) }
    ensures fixed { (⟦<Fixed32 as MapValueDecode>⟧.COST ≡ 4) × (⟦<Sfixed32 as MapValueDecode>⟧.COST ≡ 4)
        × (⟦<Fixed64 as MapValueDecode>⟧.COST ≡ 8) × (⟦<Sfixed64 as MapValueDecode>⟧.COST ≡ 8) }
    ensures reals { (⟦<Float as MapValueDecode>⟧.COST ≡ 4) × (⟦<Double as MapValueDecode>⟧.COST ≡ 8)
        × (⟦<Float as MapCodec>⟧.FIXED_LEN ≡ Some 4) × (⟦<Double as MapCodec>⟧.FIXED_LEN ≡ Some 8) }
    ensures lengths { (⟦<Bool as MapCodec>⟧.FIXED_LEN ≡ Some 1) × (⟦<Fixed32 as MapCodec>⟧.FIXED_LEN ≡ Some 4)
        × (⟦<Sfixed32 as MapCodec>⟧.FIXED_LEN ≡ Some 4) }
    ensures long_lengths { (⟦<Fixed64 as MapCodec>⟧.FIXED_LEN ≡ Some 8)
        × (⟦<Sfixed64 as MapCodec>⟧.FIXED_LEN ≡ Some 8) }
    ensures none { (⟦<Int32 as MapCodec>⟧.FIXED_LEN ≡ None) × (⟦<Sint32 as MapCodec>⟧.FIXED_LEN ≡ None)
        × (⟦<Uint32 as MapCodec>⟧.FIXED_LEN ≡ None) }
    ensures long_none { (⟦<Int64 as MapCodec>⟧.FIXED_LEN ≡ None) × (⟦<Sint64 as MapCodec>⟧.FIXED_LEN ≡ None)
        × (⟦<Uint64 as MapCodec>⟧.FIXED_LEN ≡ None) }
{}
