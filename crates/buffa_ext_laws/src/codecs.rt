//! What the definitions of readings say together: each law is a function with nothing to do, whose contract
//! is the law.

ghost use Rattle.std.specs.Prelude.{◌≡◌, ◌≢◌, ◌↔◌, ℕ, ℤ, List, [], ◌∷◌, ◌++◌, ◌⊎◌, map, Bool, Option, Some, None, option_map};
ghost use Rattle.std.specs.List.{AllByRecursion, filter_map, last_or};
ghost use Rattle.std.specs.Prelude.{FitsSigned, string_bytes, true};
ghost use Rattle.std.specs.Str.{is_utf8};
ghost use Rattle.buffa_bytes.specs.PayloadValue.{PayloadValue, PayloadValueFault, TakesPayloadValue, number_in};
ghost use Rattle.buffa_bytes.specs.declared.error.DecodeError.{DecodeError};
ghost use Rattle.buffa_bytes.specs.declared.error.EncodeError.{EncodeError};
ghost use Rattle.buffa_bytes.specs.declared.wire_type.WireType.TheVariants.{Fixed32 as FourBytes, Fixed64 as EightBytes, Varint};
ghost use Rattle.buffa_bytes.specs.Scalars.{bool_of, fixed32_of, fixed64_of, int32_of, int64_of, sfixed32_of};
ghost use Rattle.buffa_bytes.specs.Scalars.{sfixed64_of, sint32_of, sint64_of, uint32_of, uint64_of};
ghost use Rattle.buffa_bytes.specs.Scalars.{bool_encoding, fixed32_encoding, fixed64_encoding, int32_encoding, int64_encoding};
ghost use Rattle.buffa_bytes.specs.Scalars.{sfixed32_encoding, sfixed64_encoding, sint32_encoding, sint64_encoding, uint32_encoding};
ghost use Rattle.buffa_bytes.specs.Scalars.{uint64_encoding};
ghost use Rattle.buffa_wire.specs.BudgetLeft.{BudgetLeft, defaults, nothing};
ghost use Rattle.buffa_ext_laws.specs.LeftOpenCodecs.{BeginsAlike, EncodingIsPinned, HasAnswer, LeavesOne, OneAnswer, OneList};
ghost use Rattle.buffa_ext_laws.specs.LeftOpenCodecs.{RefusalIsPinned, UnpackingIsPinned};
ghost use Rattle.buffa_wire.specs.Enums.{open_number};
ghost use Rattle.buffa_wire.specs.NumberInRecord.{fixed32_in, fixed64_in, varint_in};
ghost use Rattle.buffa_wire.specs.Records.{FieldData, bytes as held_bytes};
ghost use Rattle.buffa_ext_laws.specs.Costs.{StaysWithin};
ghost use Rattle.buffa_codec.specs.Packed.{numbers_in};
ghost use Rattle.buffa_codec.specs.Decoded.{HasByte};
ghost use Rattle.std.specs.Int.{cast_unsigned, from_bool, w32, w64};
ghost use Rattle.buffa_bytes.specs.Scalars.{zigzag};
ghost use Rattle.buffa_wire.specs.Records.{varint, fixed32, fixed64};
ghost use Rattle.buffa_codec.specs.Decoded.{LaterReadingsWin, ReadAlike, ReadingsJoin};
ghost use Rattle.buffa_codec.specs.Decoded.{bytes_held, elements};
ghost use Rattle.buffa_codec.specs.Decoded.{CoversAll, ReadsList, first_refusal, packed_record, string_held};
ghost use Rattle.buffa_bytes.specs.declared.wire_type.WireType.{WireType};
ghost use Rattle.buffa_ext_laws.specs.PackedGrammar.{ArePacked};
ghost use Rattle.buffa_ext_laws.specs.MappedReadings.{ListsThrough, ReadsThrough, WritesThrough};

pub use crate::codec_words::{
    additions_are_these, bytes_of_a_record_are_these, costs_are_these, elements_are_these,
    faults_of_a_record_are_these, laws_of_readings_are_these, lists_are_written_so,
    readings_in_contexts_are_these, records_of_a_number_are_these, strict_refusals_are_these,
};
use buffa_codec::{
    BytesCodec, EnumCodec, ExtensionCodec, LastWins, Numbered, PackableCodec, PackedRepeated,
    Repeated, SingularCodec, StringCodec,
};
use buffa_wire::scalars::{
    Bool as BoolScalar, Double, Fixed32, Fixed64, Float, Int32, Int64, Sfixed32, Sfixed64, Sint32,
    Sint64, Uint32, Uint64,
};
use buffa_wire::{Enumeration, Form, Scalar};

/// What records and then more records are read as is what the later ones are, or where those are read as
/// nothing, what the earlier ones are.
pub fn later_readings_win<C: LastWins>()
    ensures { LaterReadingsWin ⟦<C as ExtensionCodec>⟧.reads }
{}

/// One value is read of the last record that is read at all; and reading takes memory only for that one.
pub fn the_last_record_is_read<C: LastWins>()
    ensures reads { (ds : List FieldData) (o : Option C.Value.Meaning) → ⟦<C as ExtensionCodec>⟧.reads ds o
        ↔ (o ≡ last_or None (filter_map (C.one 100 defaults) ds)) }
    ensures records { (v : C.Value.Meaning) → ⟦<C as ExtensionCodec>⟧.extension_data v ≡ C.field_data v ∷ [] }
    ensures memory { (ds : List FieldData) → ⟦<C as ExtensionCodec>⟧.asks ds
        ↔ ((front : List FieldData) × (d : FieldData) × (back : List FieldData) × C.asks d
        × (filter_map (C.one 100 defaults) back ≡ []) × (ds ≡ front ++ d ∷ back)) }
    ensures in_room { (v : C.Value.Meaning) → ⟦<C as ExtensionCodec>⟧.in_room v ↔ C.made_free v }
    ensures holds { (v : C.Value.Meaning) (o : Option C.Value.Meaning) → ⟦<C as ExtensionCodec>⟧.holds v o
        ↔ (o ≡ Some (C.back v)) }
    ensures spends { (b left : BudgetLeft) (d : FieldData) → C.leaves 100 b d left ↔ (left ≡ b) }
    ensures refusal { (v : C.Value.Meaning) → ⟦<C as ExtensionCodec>⟧.refusal v ≡ C.refusal v }
    ensures fits { (v : C.Value.Meaning) → ⟦<C as ExtensionCodec>⟧.fits v ↔ C.fits v }
    ensures normal { (v : C.Value.Meaning) → ⟦<C as ExtensionCodec>⟧.normal v ↔ C.normal v }
    ensures always { C.never_fails → ⟦<C as ExtensionCodec>⟧.never_fails }
{}

/// A value means what its type says, and a list what its values do, in order; so do the answers of a reading.
pub fn values_mean_these<C: LastWins, R: SingularCodec, P: PackableCodec>(
    value: &C::Value,
    output: &Option<C::Value>,
    list: &Vec<R::Value>,
    packed: &Vec<P::Value>,
)
    ensures value { ⟦<C as ExtensionCodec>⟧.meaning value.now ≡ C.Value.meaning value.now }
    ensures answer { ⟦<C as ExtensionCodec>⟧.answer output.now ≡ option_map C.Value.meaning output.now }
    ensures list { ⟦<Repeated<R> as ExtensionCodec>⟧.meaning list.now ≡ map R.Value.meaning list.now.items }
    ensures list_answer { ⟦<Repeated<R> as ExtensionCodec>⟧.answer list.now ≡ map R.Value.meaning list.now.items }
    ensures packed { ⟦<PackedRepeated<P> as ExtensionCodec>⟧.meaning packed.now
        ≡ map P.Value.meaning packed.now.items }
    ensures packed_answer { ⟦<PackedRepeated<P> as ExtensionCodec>⟧.answer packed.now
        ≡ map P.Value.meaning packed.now.items }
{}

/// A string means its bytes, and bytes are what they are; so are the answers of a reading.
pub fn strings_and_bytes_mean_these(
    string: &String,
    text: &Option<String>,
    bytes: &Vec<u8>,
    held: &Option<Vec<u8>>,
)
    ensures string { ⟦<StringCodec as ExtensionCodec>⟧.meaning string.now ≡ string_bytes string.now }
    ensures string_answer { ⟦<StringCodec as ExtensionCodec>⟧.answer text.now ≡ option_map string_bytes text.now }
    ensures bytes { ⟦<BytesCodec as ExtensionCodec>⟧.meaning bytes.now ≡ bytes.now.items }
    ensures bytes_answer { ⟦<BytesCodec as ExtensionCodec>⟧.answer held.now ≡ option_map (λ v. v.items) held.now }
{}

/// The record of each scalar.
pub fn scalars_are_written()
    ensures int32 { (v : ℤ) → ⟦<Int32 as SingularCodec>⟧.field_data v ≡ varint (cast_unsigned w64 v) }
    ensures int64 { (v : ℤ) → ⟦<Int64 as SingularCodec>⟧.field_data v ≡ varint (cast_unsigned w64 v) }
    ensures uint32 { (v : ℕ) → ⟦<Uint32 as SingularCodec>⟧.field_data v ≡ varint v }
    ensures uint64 { (v : ℕ) → ⟦<Uint64 as SingularCodec>⟧.field_data v ≡ varint v }
    ensures sint32 { (v : ℤ) → ⟦<Sint32 as SingularCodec>⟧.field_data v ≡ varint (zigzag v) }
    ensures sint64 { (v : ℤ) → ⟦<Sint64 as SingularCodec>⟧.field_data v ≡ varint (zigzag v) }
    ensures bool { (v : Bool) → ⟦<BoolScalar as SingularCodec>⟧.field_data v ≡ varint (from_bool v) }
    ensures fixed32 { (v : ℕ) → ⟦<Fixed32 as SingularCodec>⟧.field_data v ≡ fixed32 v }
    ensures fixed64 { (v : ℕ) → ⟦<Fixed64 as SingularCodec>⟧.field_data v ≡ fixed64 v }
    ensures sfixed32 { (v : ℤ) → ⟦<Sfixed32 as SingularCodec>⟧.field_data v ≡ fixed32 (cast_unsigned w32 v) }
    ensures sfixed64 { (v : ℤ) → ⟦<Sfixed64 as SingularCodec>⟧.field_data v ≡ fixed64 (cast_unsigned w64 v) }
    ensures float { (v : ℕ) → ⟦<Float as SingularCodec>⟧.field_data v ≡ fixed32 v }
    ensures double { (v : ℕ) → ⟦<Double as SingularCodec>⟧.field_data v ≡ fixed64 v }
{}

/// A scalar is read back as it was, and each value of its type is one.
pub fn scalars_come_back<S: Scalar>()
    ensures back { (v : S.Value.Meaning) → ⟦<S as SingularCodec>⟧.back v ≡ v }
    ensures fits { (v : S.Value.Meaning) → ⟦<S as SingularCodec>⟧.fits v ↔ S.fits v }
{}

/// The bytes of each scalar in a packed record.
pub fn packed_scalars_are_written()
    ensures int32 { (v : ℤ) → ⟦<Int32 as PackableCodec>⟧.packed_encoding v ≡ int32_encoding v }
    ensures int64 { (v : ℤ) → ⟦<Int64 as PackableCodec>⟧.packed_encoding v ≡ int64_encoding v }
    ensures uint32 { (v : ℕ) → ⟦<Uint32 as PackableCodec>⟧.packed_encoding v ≡ uint32_encoding v }
    ensures uint64 { (v : ℕ) → ⟦<Uint64 as PackableCodec>⟧.packed_encoding v ≡ uint64_encoding v }
    ensures sint32 { (v : ℤ) → ⟦<Sint32 as PackableCodec>⟧.packed_encoding v ≡ sint32_encoding v }
    ensures sint64 { (v : ℤ) → ⟦<Sint64 as PackableCodec>⟧.packed_encoding v ≡ sint64_encoding v }
    ensures bool { (v : Bool) → ⟦<BoolScalar as PackableCodec>⟧.packed_encoding v ≡ bool_encoding v }
    ensures fixed32 { (v : ℕ) → ⟦<Fixed32 as PackableCodec>⟧.packed_encoding v ≡ fixed32_encoding v }
    ensures fixed64 { (v : ℕ) → ⟦<Fixed64 as PackableCodec>⟧.packed_encoding v ≡ fixed64_encoding v }
    ensures sfixed32 { (v : ℤ) → ⟦<Sfixed32 as PackableCodec>⟧.packed_encoding v ≡ sfixed32_encoding v }
    ensures sfixed64 { (v : ℤ) → ⟦<Sfixed64 as PackableCodec>⟧.packed_encoding v ≡ sfixed64_encoding v }
    ensures float { (v : ℕ) → ⟦<Float as PackableCodec>⟧.packed_encoding v ≡ fixed32_encoding v }
    ensures double { (v : ℕ) → ⟦<Double as PackableCodec>⟧.packed_encoding v ≡ fixed64_encoding v }
{}

/// The values of each scalar in a packed record.
pub fn packed_scalars_are_read()
    ensures int32 { (bs : List ℕ) → ⟦<Int32 as SingularCodec>⟧.packed bs ≡ map int32_of (numbers_in Varint bs) }
    ensures int64 { (bs : List ℕ) → ⟦<Int64 as SingularCodec>⟧.packed bs ≡ map int64_of (numbers_in Varint bs) }
    ensures uint32 { (bs : List ℕ) → ⟦<Uint32 as SingularCodec>⟧.packed bs ≡ map uint32_of (numbers_in Varint bs) }
    ensures uint64 { (bs : List ℕ) → ⟦<Uint64 as SingularCodec>⟧.packed bs ≡ map uint64_of (numbers_in Varint bs) }
    ensures sint32 { (bs : List ℕ) → ⟦<Sint32 as SingularCodec>⟧.packed bs ≡ map sint32_of (numbers_in Varint bs) }
    ensures sint64 { (bs : List ℕ) → ⟦<Sint64 as SingularCodec>⟧.packed bs ≡ map sint64_of (numbers_in Varint bs) }
    ensures bool { (bs : List ℕ) → ⟦<BoolScalar as SingularCodec>⟧.packed bs ≡ map bool_of (numbers_in Varint bs) }
    ensures fixed32 { (bs : List ℕ) → ⟦<Fixed32 as SingularCodec>⟧.packed bs
        ≡ map fixed32_of (numbers_in FourBytes bs) }
    ensures fixed64 { (bs : List ℕ) → ⟦<Fixed64 as SingularCodec>⟧.packed bs
        ≡ map fixed64_of (numbers_in EightBytes bs) }
    ensures sfixed32 { (bs : List ℕ) → ⟦<Sfixed32 as SingularCodec>⟧.packed bs
        ≡ map sfixed32_of (numbers_in FourBytes bs) }
    ensures sfixed64 { (bs : List ℕ) → ⟦<Sfixed64 as SingularCodec>⟧.packed bs
        ≡ map sfixed64_of (numbers_in EightBytes bs) }
    ensures float { (bs : List ℕ) → ⟦<Float as SingularCodec>⟧.packed bs
        ≡ map fixed32_of (numbers_in FourBytes bs) }
    ensures double { (bs : List ℕ) → ⟦<Double as SingularCodec>⟧.packed bs
        ≡ map fixed64_of (numbers_in EightBytes bs) }
{}

/// The values of joined records are the joined values.
pub fn lists_join<C: LastWins>()
    ensures { ReadingsJoin ⟦<Repeated<C> as ExtensionCodec>⟧.reads }
{}

/// Both codecs of lists read the same.
pub fn lists_read_alike<C: PackableCodec>()
    ensures { ReadAlike ⟦<Repeated<C> as ExtensionCodec>⟧.reads ⟦<PackedRepeated<C> as ExtensionCodec>⟧.reads }
{}

/// A value of one record has a record, and no values have none.
pub fn records_of_values<C: LastWins, P: PackableCodec>()
    ensures one { (v : C.Value.Meaning) → ⟦<C as ExtensionCodec>⟧.extension_data v ≢ [] }
    ensures repeated { ⟦<Repeated<C> as ExtensionCodec>⟧.extension_data [] ≡ [] }
    ensures packed { ⟦<PackedRepeated<P> as ExtensionCodec>⟧.extension_data [] ≡ [] }
{}

/// However records are read one after the other from a default budget, those that are read as
/// values cost together no more than the pair.
pub fn lists_stay_within_a_budget<C: SingularCodec>()
    ensures { StaysWithin (C.one 100) (C.leaves 100) C.cost }
{}

/// Packed bytes are read as the numbers of the payloads that begin them one after the other, up to where none
/// begins what follows: those before a malformed one count, and no others. Each number stands in front of those that are read
/// of what follows it.
pub fn packed_numbers_are_read()
    ensures whole { (w : WireType) (bs ns : List ℕ) → (numbers_in w bs ≡ ns) ↔ ArePacked w ns bs }
    ensures next { (w : WireType) (bs rest : List ℕ) (c : PayloadValue) → TakesPayloadValue w bs c rest →
        numbers_in w bs ≡ number_in c ∷ numbers_in w rest }
    ensures end { (w : WireType) (bs : List ℕ) (e : DecodeError) → PayloadValueFault w bs e → numbers_in w bs ≡ [] }
    ensures none { (w : WireType) → numbers_in w [] ≡ [] }
{}

/// Enums are read and written as `int32` is, each number as what it means; in lists too, packed or not. A
/// value comes back as its number means it.
pub fn enums_are_read_as_numbers<E: Enumeration>()
    ensures reads { ReadsThrough (open_number E.of_number) ⟦<Int32 as ExtensionCodec>⟧.reads
        ⟦<EnumCodec<E> as ExtensionCodec>⟧.reads }
    ensures lists { ListsThrough (open_number E.of_number) ⟦<Repeated<Int32> as ExtensionCodec>⟧.reads
        ⟦<Repeated<EnumCodec<E>> as ExtensionCodec>⟧.reads }
    ensures packed { ListsThrough (open_number E.of_number) ⟦<PackedRepeated<Int32> as ExtensionCodec>⟧.reads
        ⟦<PackedRepeated<EnumCodec<E>> as ExtensionCodec>⟧.reads }
    ensures records { WritesThrough (λ v. v.1) ⟦<Int32 as ExtensionCodec>⟧.extension_data
        ⟦<EnumCodec<E> as ExtensionCodec>⟧.extension_data }
    ensures list_records { WritesThrough (map (λ v. v.1)) ⟦<Repeated<Int32> as ExtensionCodec>⟧.extension_data
        ⟦<Repeated<EnumCodec<E>> as ExtensionCodec>⟧.extension_data }
    ensures packed_records { WritesThrough (map (λ v. v.1)) ⟦<PackedRepeated<Int32> as ExtensionCodec>⟧.extension_data
        ⟦<PackedRepeated<EnumCodec<E>> as ExtensionCodec>⟧.extension_data }
    ensures holds { (v : Bool × ℤ) (o : Option (Bool × ℤ)) → ⟦<EnumCodec<E> as ExtensionCodec>⟧.holds v o
        ↔ (o ≡ Some (open_number E.of_number v.1)) }
    ensures list_holds { (vs os : List (Bool × ℤ)) → ⟦<Repeated<EnumCodec<E>> as ExtensionCodec>⟧.holds vs os
        ↔ (os ≡ map (λ v. open_number E.of_number v.1) vs) }
    ensures packed_holds { (vs os : List (Bool × ℤ)) →
        ⟦<PackedRepeated<EnumCodec<E>> as ExtensionCodec>⟧.holds vs os
        ↔ (os ≡ map (λ v. open_number E.of_number v.1) vs) }
{}

/// An enum is a number ([`numbers_are_read`]). It is read in a record, or in packed bytes, as that of an `int32`, at
/// any depth; and so it is written.
pub fn enum_records_are_read<E: Enumeration>()
    ensures value { (n : ℕ) → ⟦<EnumCodec<E> as Numbered>⟧.value_of n ≡ open_number E.of_number (int32_of n) }
    ensures number { (v : Bool × ℤ) → ⟦<EnumCodec<E> as Numbered>⟧.number_of v ≡ cast_unsigned w64 v.1 }
    ensures one { (n : ℕ) (b : BudgetLeft) (d : FieldData) → ⟦<EnumCodec<E> as SingularCodec>⟧.one n b d
        ≡ option_map (λ k. open_number E.of_number (int32_of k)) (varint_in d) }
    ensures packed { (bs : List ℕ) → ⟦<EnumCodec<E> as SingularCodec>⟧.packed bs
        ≡ map (λ k. open_number E.of_number (int32_of k)) (numbers_in Varint bs) }
    ensures field_data { (v : Bool × ℤ) → ⟦<EnumCodec<E> as SingularCodec>⟧.field_data v ≡ varint (cast_unsigned w64 v.1) }
    ensures packed_encoding { (v : Bool × ℤ) → ⟦<EnumCodec<E> as PackableCodec>⟧.packed_encoding v ≡ int32_encoding v.1 }
    ensures back { (v : Bool × ℤ) → ⟦<EnumCodec<E> as SingularCodec>⟧.back v ≡ open_number E.of_number v.1 }
    ensures fits { (v : Bool × ℤ) → ⟦<EnumCodec<E> as SingularCodec>⟧.fits v ↔ FitsSigned w32 v.1 }
{
    numbers_are_read::<EnumCodec<E>>();
}

/// Values of numbers are read of the last record of their form, and packed ones of the payloads that begin
/// the bytes; all of them are written, and read back; and neither takes memory.
pub fn numbers_are_read<N: Numbered>()
    ensures reads { (ds : List FieldData) (o : Option N.Value.Meaning) → ⟦<N as ExtensionCodec>⟧.reads ds o
        ↔ (o ≡ last_or None (filter_map (λ d. option_map N.value_of (N.Form.found d)) ds)) }
    ensures packed { (bs : List ℕ) → ⟦<N as SingularCodec>⟧.packed bs
        ≡ map N.value_of (numbers_in N.Form.WIRE_TYPE bs) }
    ensures records { (v : N.Value.Meaning) → ⟦<N as ExtensionCodec>⟧.extension_data v ≡ N.Form.field_data (N.number_of v) ∷ [] }
    ensures written { (v : N.Value.Meaning) → ⟦<N as ExtensionCodec>⟧.refusal v ≡ None }
    ensures normal { (v : N.Value.Meaning) → ⟦<N as ExtensionCodec>⟧.normal v }
    ensures holds { (v : N.Value.Meaning) (o : Option N.Value.Meaning) → ⟦<N as ExtensionCodec>⟧.holds v o
        ↔ (o ≡ Some (N.back v)) }
    ensures memory { ⟦<N as ExtensionCodec>⟧.never_fails }
    ensures in_room { (v : N.Value.Meaning) → ⟦<N as ExtensionCodec>⟧.in_room v }
    ensures spends { (n : ℕ) (b left : BudgetLeft) (d : FieldData) → ⟦<N as SingularCodec>⟧.leaves n b d left ↔ (left ≡ b) }
    ensures record { (v : N.Value.Meaning) → ⟦<N as SingularCodec>⟧.field_data v ≡ N.Form.field_data (N.number_of v) }
    ensures record_written { (v : N.Value.Meaning) → ⟦<N as SingularCodec>⟧.refusal v ≡ None }
    ensures record_normal { (v : N.Value.Meaning) → ⟦<N as SingularCodec>⟧.normal v }
    ensures fits { (v : N.Value.Meaning) → (⟦<N as SingularCodec>⟧.fits v ↔ N.fits v)
        × (⟦<N as ExtensionCodec>⟧.fits v ↔ N.fits v) }
    ensures back { (v : N.Value.Meaning) → ⟦<N as SingularCodec>⟧.back v ≡ N.back v }
    ensures packed_encoding { (v : N.Value.Meaning) → ⟦<N as PackableCodec>⟧.packed_encoding v ≡ N.Form.encoding (N.number_of v) }
    ensures costs { (n : ℕ) (d : FieldData) → (⟦<N as SingularCodec>⟧.cost d ≡ nothing)
        × (⟦<N as SingularCodec>⟧.most n d ≡ nothing) }
    ensures free { ⟦<N as SingularCodec>⟧.never_fails × ((v : N.Value.Meaning) → ⟦<N as SingularCodec>⟧.made_free v) }
    ensures asks { (d : FieldData) → ⟦<N as SingularCodec>⟧.asks d → ⊥ }
{}

/// Which values each scalar reads in a record, also of numbers that its values don't have. Each is a number
/// ([`numbers_are_read`]).
pub fn scalars_are_read()
    ensures int32 { (n : ℕ) (b : BudgetLeft) (d : FieldData) → ⟦<Int32 as SingularCodec>⟧.one n b d
        ≡ option_map int32_of (varint_in d) }
    ensures int64 { (n : ℕ) (b : BudgetLeft) (d : FieldData) → ⟦<Int64 as SingularCodec>⟧.one n b d
        ≡ option_map int64_of (varint_in d) }
    ensures uint32 { (n : ℕ) (b : BudgetLeft) (d : FieldData) → ⟦<Uint32 as SingularCodec>⟧.one n b d
        ≡ option_map uint32_of (varint_in d) }
    ensures uint64 { (n : ℕ) (b : BudgetLeft) (d : FieldData) → ⟦<Uint64 as SingularCodec>⟧.one n b d
        ≡ option_map uint64_of (varint_in d) }
    ensures sint32 { (n : ℕ) (b : BudgetLeft) (d : FieldData) → ⟦<Sint32 as SingularCodec>⟧.one n b d
        ≡ option_map sint32_of (varint_in d) }
    ensures sint64 { (n : ℕ) (b : BudgetLeft) (d : FieldData) → ⟦<Sint64 as SingularCodec>⟧.one n b d
        ≡ option_map sint64_of (varint_in d) }
    ensures bool { (n : ℕ) (b : BudgetLeft) (d : FieldData) → ⟦<BoolScalar as SingularCodec>⟧.one n b d
        ≡ option_map bool_of (varint_in d) }
    ensures fixed32 { (n : ℕ) (b : BudgetLeft) (d : FieldData) → ⟦<Fixed32 as SingularCodec>⟧.one n b d
        ≡ option_map fixed32_of (fixed32_in d) }
    ensures fixed64 { (n : ℕ) (b : BudgetLeft) (d : FieldData) → ⟦<Fixed64 as SingularCodec>⟧.one n b d
        ≡ option_map fixed64_of (fixed64_in d) }
    ensures sfixed32 { (n : ℕ) (b : BudgetLeft) (d : FieldData) → ⟦<Sfixed32 as SingularCodec>⟧.one n b d
        ≡ option_map sfixed32_of (fixed32_in d) }
    ensures sfixed64 { (n : ℕ) (b : BudgetLeft) (d : FieldData) → ⟦<Sfixed64 as SingularCodec>⟧.one n b d
        ≡ option_map sfixed64_of (fixed64_in d) }
    ensures float { (n : ℕ) (b : BudgetLeft) (d : FieldData) → ⟦<Float as SingularCodec>⟧.one n b d
        ≡ option_map fixed32_of (fixed32_in d) }
    ensures double { (n : ℕ) (b : BudgetLeft) (d : FieldData) → ⟦<Double as SingularCodec>⟧.one n b d
        ≡ option_map fixed64_of (fixed64_in d) }
{
    numbers_are_read::<BoolScalar>();
    numbers_are_read::<Int32>();
    numbers_are_read::<Int64>();
    numbers_are_read::<Uint32>();
    numbers_are_read::<Uint64>();
    numbers_are_read::<Sint32>();
    numbers_are_read::<Sint64>();
    numbers_are_read::<Fixed32>();
    numbers_are_read::<Fixed64>();
    numbers_are_read::<Sfixed32>();
    numbers_are_read::<Sfixed64>();
    numbers_are_read::<Float>();
    numbers_are_read::<Double>();
}

/// Strings and bytes are read of the last record of bytes, strings where these are UTF-8; all of them are
/// written, and read back; and no packed ones are read. Only a value of a byte or more takes memory to be
/// read, the last one alone, and an empty one is written in the list's spare capacity.
pub fn strings_and_bytes_are_read()
    ensures strings { (ds : List FieldData) (o : Option (List ℕ)) → ⟦<StringCodec as ExtensionCodec>⟧.reads ds o
        ↔ (o ≡ last_or None (filter_map string_held ds)) }
    ensures bytes { (ds : List FieldData) (o : Option (List ℕ)) → ⟦<BytesCodec as ExtensionCodec>⟧.reads ds o
        ↔ (o ≡ last_or None (filter_map bytes_held ds)) }
    ensures string { (v : List ℕ) → ⟦<StringCodec as ExtensionCodec>⟧.extension_data v ≡ held_bytes v ∷ [] }
    ensures byte_string { (v : List ℕ) → ⟦<BytesCodec as ExtensionCodec>⟧.extension_data v ≡ held_bytes v ∷ [] }
    ensures written { (v : List ℕ) → (⟦<StringCodec as ExtensionCodec>⟧.refusal v ≡ None)
        × (⟦<BytesCodec as ExtensionCodec>⟧.refusal v ≡ None) }
    ensures normal { (v : List ℕ) → ⟦<StringCodec as ExtensionCodec>⟧.normal v
        × ⟦<BytesCodec as ExtensionCodec>⟧.normal v }
    ensures packed { (bs : List ℕ) → (⟦<StringCodec as SingularCodec>⟧.packed bs ≡ [])
        × (⟦<BytesCodec as SingularCodec>⟧.packed bs ≡ []) }
    ensures memory { (d : FieldData) → (⟦<StringCodec as SingularCodec>⟧.asks d ↔ HasByte (string_held d))
        × (⟦<BytesCodec as SingularCodec>⟧.asks d ↔ HasByte (bytes_held d)) }
    ensures counts { (ds : List FieldData) → ⟦<StringCodec as ExtensionCodec>⟧.asks ds
        ↔ ((front : List FieldData) × (d : FieldData) × (back : List FieldData) × HasByte (string_held d)
        × (filter_map string_held back ≡ []) × (ds ≡ front ++ d ∷ back)) }
    ensures bytes_count { (ds : List FieldData) → ⟦<BytesCodec as ExtensionCodec>⟧.asks ds
        ↔ ((front : List FieldData) × (d : FieldData) × (back : List FieldData) × HasByte (bytes_held d)
        × (filter_map bytes_held back ≡ []) × (ds ≡ front ++ d ∷ back)) }
    ensures in_room { (v : List ℕ) → (⟦<StringCodec as ExtensionCodec>⟧.in_room v ↔ (v ≡ []))
        × (⟦<BytesCodec as ExtensionCodec>⟧.in_room v ↔ (v ≡ [])) }
    ensures holds { (v : List ℕ) (o : Option (List ℕ)) → (⟦<StringCodec as ExtensionCodec>⟧.holds v o ↔ (o ≡ Some v))
        × (⟦<BytesCodec as ExtensionCodec>⟧.holds v o ↔ (o ≡ Some v)) }
    ensures free { (v : List ℕ) → (⟦<StringCodec as SingularCodec>⟧.made_free v ↔ (v ≡ []))
        × (⟦<BytesCodec as SingularCodec>⟧.made_free v ↔ (v ≡ [])) }
    ensures one { (n : ℕ) (b : BudgetLeft) (d : FieldData) → (⟦<StringCodec as SingularCodec>⟧.one n b d ≡ string_held d)
        × (⟦<BytesCodec as SingularCodec>⟧.one n b d ≡ bytes_held d) }
    ensures spends { (n : ℕ) (b left : BudgetLeft) (d : FieldData) →
        (⟦<StringCodec as SingularCodec>⟧.leaves n b d left ↔ (left ≡ b))
        × (⟦<BytesCodec as SingularCodec>⟧.leaves n b d left ↔ (left ≡ b)) }
    ensures most { (n : ℕ) (d : FieldData) → (⟦<StringCodec as SingularCodec>⟧.most n d ≡ nothing)
        × (⟦<BytesCodec as SingularCodec>⟧.most n d ≡ nothing) }
    ensures costs { (d : FieldData) → (⟦<StringCodec as SingularCodec>⟧.cost d ≡ nothing)
        × (⟦<BytesCodec as SingularCodec>⟧.cost d ≡ nothing) }
    ensures fits { (v : List ℕ) → (⟦<StringCodec as SingularCodec>⟧.fits v ↔ (is_utf8 v ≡ true))
        × ⟦<BytesCodec as SingularCodec>⟧.fits v }
    ensures record { (v : List ℕ) → (⟦<StringCodec as SingularCodec>⟧.field_data v ≡ held_bytes v)
        × (⟦<BytesCodec as SingularCodec>⟧.field_data v ≡ held_bytes v) }
    ensures refusal { (v : List ℕ) → (⟦<StringCodec as SingularCodec>⟧.refusal v ≡ None)
        × (⟦<BytesCodec as SingularCodec>⟧.refusal v ≡ None) }
    ensures record_normal { (v : List ℕ) → ⟦<StringCodec as SingularCodec>⟧.normal v
        × ⟦<BytesCodec as SingularCodec>⟧.normal v }
    ensures back { (v : List ℕ) → (⟦<StringCodec as SingularCodec>⟧.back v ≡ v)
        × (⟦<BytesCodec as SingularCodec>⟧.back v ≡ v) }
    ensures written_values { (v : List ℕ) → (⟦<StringCodec as ExtensionCodec>⟧.fits v ↔ (is_utf8 v ≡ true))
        × ⟦<BytesCodec as ExtensionCodec>⟧.fits v }
{}

/// Lists are read of all records of their number, from one default budget, the packed ones too. They
/// are written as a record for each value, or all in one where there is a value; and a list holds its values,
/// each as it is read back. A list is read back of records that are, and that together cost no more than the
/// budgets; a packed one always.
pub fn lists_are_read<C: SingularCodec, P: PackableCodec>()
    ensures reads { (ds : List FieldData) (vs : List C.Value.Meaning) → ⟦<Repeated<C> as ExtensionCodec>⟧.reads ds vs
        ↔ ReadsList (C.one 100) (C.leaves 100) C.packed ds vs }
    ensures records { (vs : List C.Value.Meaning) → ⟦<Repeated<C> as ExtensionCodec>⟧.extension_data vs ≡ map C.field_data vs }
    ensures packed { (vs : List P.Value.Meaning) → ⟦<PackedRepeated<P> as ExtensionCodec>⟧.extension_data vs
        ≡ packed_record P.packed_encoding vs }
    ensures refusal { (vs : List C.Value.Meaning) → ⟦<Repeated<C> as ExtensionCodec>⟧.refusal vs
        ≡ first_refusal C.refusal vs }
    ensures written { (vs : List P.Value.Meaning) → ⟦<PackedRepeated<P> as ExtensionCodec>⟧.refusal vs ≡ None }
    ensures normal { (vs : List C.Value.Meaning) → ⟦<Repeated<C> as ExtensionCodec>⟧.normal vs
        ↔ (AllByRecursion C.normal vs × CoversAll C.cost defaults (map C.field_data vs)) }
    ensures always { (vs : List P.Value.Meaning) → ⟦<PackedRepeated<P> as ExtensionCodec>⟧.normal vs }
    ensures holds { (vs os : List C.Value.Meaning) → ⟦<Repeated<C> as ExtensionCodec>⟧.holds vs os
        ↔ (os ≡ map C.back vs) }
    ensures packed_holds { (vs os : List P.Value.Meaning) → ⟦<PackedRepeated<P> as ExtensionCodec>⟧.holds vs os
        ↔ (os ≡ map P.back vs) }
    ensures in_room { (vs : List C.Value.Meaning) → ⟦<Repeated<C> as ExtensionCodec>⟧.in_room vs ↔ AllByRecursion C.made_free vs }
    ensures packed_in_room { (vs : List P.Value.Meaning) → ⟦<PackedRepeated<P> as ExtensionCodec>⟧.in_room vs → ⊥ }
    ensures memory { (ds : List FieldData) → ⟦<Repeated<C> as ExtensionCodec>⟧.asks ds
        ↔ ((front : List FieldData) × (d : FieldData) × (back : List FieldData)
        × (C.asks d ⊎ ((b : BudgetLeft) × (elements C.packed d (C.one 100 b d) ≢ []))) × (ds ≡ front ++ d ∷ back)) }
    ensures fits { (vs : List C.Value.Meaning) → ⟦<Repeated<C> as ExtensionCodec>⟧.fits vs ↔ AllByRecursion C.fits vs }
    ensures packed_fits { (vs : List P.Value.Meaning) → ⟦<PackedRepeated<P> as ExtensionCodec>⟧.fits vs
        ↔ AllByRecursion P.fits vs }
    ensures packed_memory { (ds : List FieldData) → ⟦<PackedRepeated<P> as ExtensionCodec>⟧.asks ds
        ↔ ((front : List FieldData) × (d : FieldData) × (back : List FieldData)
        × (P.asks d ⊎ ((b : BudgetLeft) × (elements P.packed d (P.one 100 b d) ≢ []))) × (ds ≡ front ++ d ∷ back)) }
{}

/// Records are read as one value or none, and in lists as one list, by codecs whose reading spends nothing.
///
/// Not promised: whether memory runs out, where there is a record whose reading takes some (`asks`).
pub fn answers_are_pinned<C: LastWins, P: LastWins + PackableCodec>()
    ensures one { OneAnswer ⟦<C as ExtensionCodec>⟧.reads }
    ensures there { HasAnswer ⟦<C as ExtensionCodec>⟧.reads }
    ensures lists { OneAnswer ⟦<Repeated<C> as ExtensionCodec>⟧.reads }
    ensures lists_there { HasAnswer ⟦<Repeated<C> as ExtensionCodec>⟧.reads }
    ensures packed { OneAnswer ⟦<PackedRepeated<P> as ExtensionCodec>⟧.reads }
    ensures packed_there { HasAnswer ⟦<PackedRepeated<P> as ExtensionCodec>⟧.reads }
{}

/// A list of values that cost something is one up to the first record that is no value, and so where all
/// records are values; and what a value leaves of a budget is one.
///
/// Not promised: what a record that is no value leaves, of which at most its cost is spent, and so which of the
/// records behind it are values.
pub fn costly_lists_are_pinned<C: SingularCodec>()
    ensures leaves { LeavesOne (C.one 100) (C.leaves 100) }
    ensures begins { BeginsAlike ⟦<Repeated<C> as ExtensionCodec>⟧.reads (C.one 100) C.cost }
    ensures whole { OneList ⟦<Repeated<C> as ExtensionCodec>⟧.reads (C.one 100) C.cost }
{}

/// Values are written as one list of records, and packed values are read as one list.
///
/// Not promised: of a list that is refused, how many of its records are there, but never all.
pub fn encodings_are_pinned<C: SingularCodec>()
    ensures records { EncodingIsPinned }
    ensures unpacked { UnpackingIsPinned C.Value.meaning }
{}

/// Memory aside, a value that is written isn't refused, and one that is refused is for one reason.
///
/// Not promised: whether memory runs out.
pub fn refusals_are_pinned<T>()
    ensures { (refusal : Option EncodeError) → RefusalIsPinned T refusal }
{}
