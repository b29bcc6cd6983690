//! Which scalar each one is, in the words of the encoding guide: laws, as in [`records`](crate::records).

ghost use Rattle.std.specs.Prelude.{◌≡◌, ◌<◌, ◌^◌, ◌↔◌, ℕ, List, Option, None, Some, true};
ghost use Rattle.buffa_bytes.specs.Scalars.{bool_of, bool_encoding, fixed32_of, fixed32_encoding, fixed64_of, fixed64_encoding};
ghost use Rattle.buffa_bytes.specs.Scalars.{int64_of, int64_encoding, sfixed32_of, sfixed32_encoding, sfixed64_of};
ghost use Rattle.buffa_bytes.specs.Scalars.{sfixed64_encoding, sint32_of, sint32_encoding, sint64_of, sint64_encoding};
ghost use Rattle.buffa_bytes.specs.Scalars.{uint32_of, uint32_encoding, uint64_of, uint64_encoding};
ghost use Rattle.std.specs.Int.{to_le_bytes, w32, w64};
ghost use Rattle.buffa_bytes.specs.Values.{int32_of, int32_encoding};
ghost use Rattle.buffa_bytes.specs.Varint.{varint_encoding};
ghost use Rattle.buffa_bytes.specs.declared.wire_type.WireType.TheVariants as wire;
ghost use Rattle.buffa_bytes.specs.Pinned.{IsCopied, Means};
ghost use Rattle.buffa_wire.specs.declared.reals.DoubleBits.{DoubleBits};
ghost use Rattle.buffa_wire.specs.declared.reals.FloatBits.{FloatBits};
ghost use Rattle.buffa_wire.specs.NumberInRecord.{fixed32_in, fixed64_in, varint_in};
ghost use Rattle.buffa_wire.specs.Pinned.{IsRecordedAs, IsSpelled, SpellsBelow};
ghost use Rattle.buffa_wire.specs.Records.{FieldData, fixed32, fixed64, varint};

use buffa_bytes::Blank;
use buffa_wire::form::{EightBytes, Form, FourBytes, Varint};
use buffa_wire::reals::{DoubleBits, FloatBits};
use buffa_wire::scalar::Scalar;
use buffa_wire::scalars::{
    Bool, Double, Fixed32, Fixed64, Float, Int32, Int64, Sfixed32, Sfixed64, Sint32, Sint64,
    Uint32, Uint64,
};

/// What is written of a value of each scalar. Nothing is left out.
pub fn scalars_are_written()
    ensures int32 { IsSpelled ⟦<Int32 as Scalar>⟧.number_of ⟦<<Int32 as Scalar>::Form as Form>⟧.encoding int32_encoding }
    ensures int64 { IsSpelled ⟦<Int64 as Scalar>⟧.number_of ⟦<<Int64 as Scalar>::Form as Form>⟧.encoding int64_encoding }
    ensures uint32 { IsSpelled ⟦<Uint32 as Scalar>⟧.number_of ⟦<<Uint32 as Scalar>::Form as Form>⟧.encoding uint32_encoding }
    ensures uint64 { IsSpelled ⟦<Uint64 as Scalar>⟧.number_of ⟦<<Uint64 as Scalar>::Form as Form>⟧.encoding uint64_encoding }
    ensures sint32 { IsSpelled ⟦<Sint32 as Scalar>⟧.number_of ⟦<<Sint32 as Scalar>::Form as Form>⟧.encoding sint32_encoding }
    ensures sint64 { IsSpelled ⟦<Sint64 as Scalar>⟧.number_of ⟦<<Sint64 as Scalar>::Form as Form>⟧.encoding sint64_encoding }
    ensures bool { IsSpelled ⟦<Bool as Scalar>⟧.number_of ⟦<<Bool as Scalar>::Form as Form>⟧.encoding bool_encoding }
    ensures fixed32 { IsSpelled ⟦<Fixed32 as Scalar>⟧.number_of ⟦<<Fixed32 as Scalar>::Form as Form>⟧.encoding fixed32_encoding }
    ensures fixed64 { IsSpelled ⟦<Fixed64 as Scalar>⟧.number_of ⟦<<Fixed64 as Scalar>::Form as Form>⟧.encoding fixed64_encoding }
    ensures sfixed32 { IsSpelled ⟦<Sfixed32 as Scalar>⟧.number_of ⟦<<Sfixed32 as Scalar>::Form as Form>⟧.encoding sfixed32_encoding }
    ensures sfixed64 { IsSpelled ⟦<Sfixed64 as Scalar>⟧.number_of ⟦<<Sfixed64 as Scalar>::Form as Form>⟧.encoding sfixed64_encoding }
    ensures float { IsSpelled ⟦<Float as Scalar>⟧.number_of ⟦<<Float as Scalar>::Form as Form>⟧.encoding fixed32_encoding }
    ensures double { IsSpelled ⟦<Double as Scalar>⟧.number_of ⟦<<Double as Scalar>::Form as Form>⟧.encoding fixed64_encoding }
{}

/// What the number in an encoding of each scalar means. Nothing is left out.
pub fn scalars_are_read()
    ensures int32 { (n : ℕ) → ⟦<Int32 as Scalar>⟧.value_of n ≡ int32_of n }
    ensures int64 { (n : ℕ) → ⟦<Int64 as Scalar>⟧.value_of n ≡ int64_of n }
    ensures uint32 { (n : ℕ) → ⟦<Uint32 as Scalar>⟧.value_of n ≡ uint32_of n }
    ensures uint64 { (n : ℕ) → ⟦<Uint64 as Scalar>⟧.value_of n ≡ uint64_of n }
    ensures sint32 { (n : ℕ) → ⟦<Sint32 as Scalar>⟧.value_of n ≡ sint32_of n }
    ensures sint64 { (n : ℕ) → ⟦<Sint64 as Scalar>⟧.value_of n ≡ sint64_of n }
    ensures bool { (n : ℕ) → ⟦<Bool as Scalar>⟧.value_of n ≡ bool_of n }
    ensures fixed32 { (n : ℕ) → ⟦<Fixed32 as Scalar>⟧.value_of n ≡ fixed32_of n }
    ensures fixed64 { (n : ℕ) → ⟦<Fixed64 as Scalar>⟧.value_of n ≡ fixed64_of n }
    ensures sfixed32 { (n : ℕ) → ⟦<Sfixed32 as Scalar>⟧.value_of n ≡ sfixed32_of n }
    ensures sfixed64 { (n : ℕ) → ⟦<Sfixed64 as Scalar>⟧.value_of n ≡ sfixed64_of n }
    ensures float { (n : ℕ) → ⟦<Float as Scalar>⟧.value_of n ≡ fixed32_of n }
    ensures double { (n : ℕ) → ⟦<Double as Scalar>⟧.value_of n ≡ fixed64_of n }
{}

/// The wire type of each scalar's payloads. Nothing is left out.
pub fn scalars_have_wire_types()
    ensures int32 { ⟦<<Int32 as Scalar>::Form as Form>⟧.WIRE_TYPE ≡ wire.Varint }
    ensures int64 { ⟦<<Int64 as Scalar>::Form as Form>⟧.WIRE_TYPE ≡ wire.Varint }
    ensures uint32 { ⟦<<Uint32 as Scalar>::Form as Form>⟧.WIRE_TYPE ≡ wire.Varint }
    ensures uint64 { ⟦<<Uint64 as Scalar>::Form as Form>⟧.WIRE_TYPE ≡ wire.Varint }
    ensures sint32 { ⟦<<Sint32 as Scalar>::Form as Form>⟧.WIRE_TYPE ≡ wire.Varint }
    ensures sint64 { ⟦<<Sint64 as Scalar>::Form as Form>⟧.WIRE_TYPE ≡ wire.Varint }
    ensures bool { ⟦<<Bool as Scalar>::Form as Form>⟧.WIRE_TYPE ≡ wire.Varint }
    ensures fixed32 { ⟦<<Fixed32 as Scalar>::Form as Form>⟧.WIRE_TYPE ≡ wire.Fixed32 }
    ensures fixed64 { ⟦<<Fixed64 as Scalar>::Form as Form>⟧.WIRE_TYPE ≡ wire.Fixed64 }
    ensures sfixed32 { ⟦<<Sfixed32 as Scalar>::Form as Form>⟧.WIRE_TYPE ≡ wire.Fixed32 }
    ensures sfixed64 { ⟦<<Sfixed64 as Scalar>::Form as Form>⟧.WIRE_TYPE ≡ wire.Fixed64 }
    ensures float { ⟦<<Float as Scalar>::Form as Form>⟧.WIRE_TYPE ≡ wire.Fixed32 }
    ensures double { ⟦<<Double as Scalar>::Form as Form>⟧.WIRE_TYPE ≡ wire.Fixed64 }
{}

/// What a value of each scalar costs where it is an element. Nothing is left out.
pub fn scalars_cost_so_much()
    ensures int32 { ⟦<Int32 as Scalar>⟧.COST ≡ 4 }
    ensures int64 { ⟦<Int64 as Scalar>⟧.COST ≡ 8 }
    ensures uint32 { ⟦<Uint32 as Scalar>⟧.COST ≡ 4 }
    ensures uint64 { ⟦<Uint64 as Scalar>⟧.COST ≡ 8 }
    ensures sint32 { ⟦<Sint32 as Scalar>⟧.COST ≡ 4 }
    ensures sint64 { ⟦<Sint64 as Scalar>⟧.COST ≡ 8 }
    ensures bool { ⟦<Bool as Scalar>⟧.COST ≡ 1 }
    ensures fixed32 { ⟦<Fixed32 as Scalar>⟧.COST ≡ 4 }
    ensures fixed64 { ⟦<Fixed64 as Scalar>⟧.COST ≡ 8 }
    ensures sfixed32 { ⟦<Sfixed32 as Scalar>⟧.COST ≡ 4 }
    ensures sfixed64 { ⟦<Sfixed64 as Scalar>⟧.COST ≡ 8 }
    ensures float { ⟦<Float as Scalar>⟧.COST ≡ 4 }
    ensures double { ⟦<Double as Scalar>⟧.COST ≡ 8 }
{}

/// The length of each scalar's encodings, where they have one. Nothing is left out.
pub fn scalars_have_lengths()
    ensures int32 { ⟦<Int32 as Scalar>⟧.FIXED_LEN ≡ None }
    ensures int64 { ⟦<Int64 as Scalar>⟧.FIXED_LEN ≡ None }
    ensures uint32 { ⟦<Uint32 as Scalar>⟧.FIXED_LEN ≡ None }
    ensures uint64 { ⟦<Uint64 as Scalar>⟧.FIXED_LEN ≡ None }
    ensures sint32 { ⟦<Sint32 as Scalar>⟧.FIXED_LEN ≡ None }
    ensures sint64 { ⟦<Sint64 as Scalar>⟧.FIXED_LEN ≡ None }
    ensures bool { ⟦<Bool as Scalar>⟧.FIXED_LEN ≡ Some 1 }
    ensures fixed32 { ⟦<Fixed32 as Scalar>⟧.FIXED_LEN ≡ Some 4 }
    ensures fixed64 { ⟦<Fixed64 as Scalar>⟧.FIXED_LEN ≡ Some 8 }
    ensures sfixed32 { ⟦<Sfixed32 as Scalar>⟧.FIXED_LEN ≡ Some 4 }
    ensures sfixed64 { ⟦<Sfixed64 as Scalar>⟧.FIXED_LEN ≡ Some 8 }
    ensures float { ⟦<Float as Scalar>⟧.FIXED_LEN ≡ Some 4 }
    ensures double { ⟦<Double as Scalar>⟧.FIXED_LEN ≡ Some 8 }
{}

/// How each form spells a number, which numbers it spells, and the record of one. Nothing is left out.
pub fn forms_are_these()
    ensures varint { SpellsBelow ⟦<Varint as Form>⟧.encoding ⟦<Varint as Form>⟧.spells varint_encoding (2 ^ 64) }
    ensures varint_record { IsRecordedAs ⟦<Varint as Form>⟧.field_data ⟦<Varint as Form>⟧.found varint varint_in }
    ensures varint_wire { ⟦<Varint as Form>⟧.WIRE_TYPE ≡ wire.Varint }
    ensures four { SpellsBelow ⟦<FourBytes as Form>⟧.encoding ⟦<FourBytes as Form>⟧.spells (to_le_bytes w32) (2 ^ 32) }
    ensures four_record { IsRecordedAs ⟦<FourBytes as Form>⟧.field_data ⟦<FourBytes as Form>⟧.found fixed32 fixed32_in }
    ensures four_wire { ⟦<FourBytes as Form>⟧.WIRE_TYPE ≡ wire.Fixed32 }
    ensures eight { SpellsBelow ⟦<EightBytes as Form>⟧.encoding ⟦<EightBytes as Form>⟧.spells (to_le_bytes w64) (2 ^ 64) }
    ensures eight_record { IsRecordedAs ⟦<EightBytes as Form>⟧.field_data ⟦<EightBytes as Form>⟧.found fixed64 fixed64_in }
    ensures eight_wire { ⟦<EightBytes as Form>⟧.WIRE_TYPE ≡ wire.Fixed64 }
{}

/// What the words say by which the laws of scalars and forms name how numbers are spelled and recorded. Which numbers are
/// spelled is said here of what has an answer.
pub fn words_of_scalars_are_these<V>()
    ensures spelled { (number_of : V → ℕ) (spelling : ℕ → List ℕ) (encoding : V → List ℕ) → IsSpelled number_of spelling encoding
        ↔ ((v : V) → spelling (number_of v) ≡ encoding v) }
    ensures below { (spelling wanted : ℕ → List ℕ) (spells : ℕ → _) (limit : ℕ) →
        SpellsBelow spelling (λ n. spells n ≡ true) wanted limit
        ↔ ((n : ℕ) → (spelling n ≡ wanted n) × ((spells n ≡ true) ↔ (n < limit))) }
    ensures recorded { (field_data wanted : ℕ → FieldData) (found found_so : FieldData → Option ℕ) → IsRecordedAs field_data found wanted found_so
        ↔ (((n : ℕ) → field_data n ≡ wanted n) × (found ≡ found_so)) }
{}

/// A real number means its bits, and its default is that of which no bit is set. Two are equal exactly where their bits are,
/// and `clone` makes the same again. Nothing is left out.
pub fn reals_are_these()
    ensures float { Means (λ v. v.bits) 0 ⟦<FloatBits as Blank>⟧.meaning ⟦<FloatBits as Blank>⟧.blank_is }
    ensures double { Means (λ v. v.bits) 0 ⟦<DoubleBits as Blank>⟧.meaning ⟦<DoubleBits as Blank>⟧.blank_is }
    ensures float_equal { (a b : FloatBits) → (⟦<FloatBits as PartialEq>⟧.eq a b ≡ true) ↔ (a.bits ≡ b.bits) }
    ensures double_equal { (a b : DoubleBits) → (⟦<DoubleBits as PartialEq>⟧.eq a b ≡ true) ↔ (a.bits ≡ b.bits) }
    ensures float_clone { IsCopied ⟦<FloatBits as Clone>⟧.is_clone ⟦<FloatBits as Clone>⟧.is_infallible }
    ensures double_clone { IsCopied ⟦<DoubleBits as Clone>⟧.is_clone ⟦<DoubleBits as Clone>⟧.is_infallible }
{}
