//! The proto types.

ghost use Rattle.std.specs.Prelude.{false, refl};
ghost use Rattle.std.specs.Int.{cast_unsigned, w64};
ghost use Rattle.std.proofs.Common.{ap, sym, ◌∙◌};
ghost use Rattle.buffa_bytes.proofs.IntLemmas.{int32_below};
ghost use Rattle.buffa_bytes.proofs.ScalarLemmas.{bool_fits, unsigned32_fits, unsigned64_fits, zigzag_fits64};
ghost use Rattle.buffa_wire.specs.ScalarFacts.{below_64, zigzag32_below};
ghost use Rattle.buffa_wire.specs.Enums.{open_number};
ghost use Rattle.buffa_wire.specs.Records.FieldData.{varint, fixed32, fixed64, bytes};
ghost use Rattle.buffa_fields.specs.facts.BlankFacts.{zero_only, is_nought, is_zero, none_only, nought_only, is_none, same_false_only};
ghost use Rattle.std.specs.Prelude.{not};

use crate::members::proto_type::ProtoType;
use buffa_map::map_codec::{
    Bool, BytesBuf, ClosedEnum, Double, Fixed32, Fixed64, Float, Int32, Int64, OpenEnum,
    ProtoBytesMap, ProtoStringMap, Sfixed32, Sfixed64, Sint32, Sint64, Uint32, Uint64,
};
use buffa_wire::{DoubleBits, EnumValue, Enumeration, FloatBits, ProtoBytes, ProtoString, Scalar};
use bytes::Bytes;

impl ProtoType for Int32 {
    ghost field_data = { λ v. varint (⟦<Int32 as Scalar>⟧.number_of v) };

    ghost is_blank = { is_zero };

    ghost field_data_encoding = { λ n v. refl };

    ghost field_data_valid = { int32_below };

    ghost blank_only = { λ v _ h. zero_only v h };

    fn is_blank(value: &i32) -> bool {
        *value == 0
    }
}

impl ProtoType for Bool {
    ghost field_data = { λ v. varint (⟦<Bool as Scalar>⟧.number_of v) };

    ghost is_blank = { not };

    ghost field_data_encoding = { λ n v. refl };

    ghost field_data_valid = { λ v _. bool_fits v };

    ghost blank_only = { λ v _ h. same_false_only v h };

    fn is_blank(value: &bool) -> bool {
        !*value
    }
}

impl<T: ProtoString> ProtoType for ProtoStringMap<T> {
    ghost field_data = { λ v. bytes (T.text v) };

    ghost is_blank = { λ v. is_none (T.text v) };

    ghost field_data_encoding = { λ n v. refl };

    ghost field_data_valid = { λ v _. tt };

    ghost blank_only = { λ v _ h. sym (T.ProtoString.meaning_stays v)
        ∙ ap T.of_text (none_only (T.text v) h ∙ sym T.ProtoString.blank_text)
        ∙ T.ProtoString.meaning_stays T.blank_is };

    fn is_blank(value: &T) -> bool {
        value.as_str().is_empty()
    }
}

impl ProtoType for Int64 {
    ghost field_data = { λ v. varint (⟦<Int64 as Scalar>⟧.number_of v) };

    ghost is_blank = { is_zero };

    fn is_blank(value: &i64) -> bool {
        *value == 0
    }

    ghost field_data_encoding = { λ n v. refl };

    ghost field_data_valid = { unsigned64_fits };

    ghost blank_only = { λ v _ h. zero_only v h };
}

impl ProtoType for Uint32 {
    ghost field_data = { λ v. varint (⟦<Uint32 as Scalar>⟧.number_of v) };

    ghost is_blank = { is_nought };

    fn is_blank(value: &u32) -> bool {
        *value == 0
    }

    ghost field_data_encoding = { λ n v. refl };

    ghost field_data_valid = { below_64 };

    ghost blank_only = { λ v _ h. nought_only v h };
}

impl ProtoType for Uint64 {
    ghost field_data = { λ v. varint (⟦<Uint64 as Scalar>⟧.number_of v) };

    ghost is_blank = { is_nought };

    fn is_blank(value: &u64) -> bool {
        *value == 0
    }

    ghost field_data_encoding = { λ n v. refl };

    ghost field_data_valid = { λ v fit. fit };

    ghost blank_only = { λ v _ h. nought_only v h };
}

impl ProtoType for Sint32 {
    ghost field_data = { λ v. varint (⟦<Sint32 as Scalar>⟧.number_of v) };

    ghost is_blank = { is_zero };

    fn is_blank(value: &i32) -> bool {
        *value == 0
    }

    ghost field_data_encoding = { λ n v. refl };

    ghost field_data_valid = { zigzag32_below };

    ghost blank_only = { λ v _ h. zero_only v h };
}

impl ProtoType for Sint64 {
    ghost field_data = { λ v. varint (⟦<Sint64 as Scalar>⟧.number_of v) };

    ghost is_blank = { is_zero };

    fn is_blank(value: &i64) -> bool {
        *value == 0
    }

    ghost field_data_encoding = { λ n v. refl };

    ghost field_data_valid = { zigzag_fits64 };

    ghost blank_only = { λ v _ h. zero_only v h };
}

impl ProtoType for Fixed32 {
    ghost field_data = { λ v. fixed32 (⟦<Fixed32 as Scalar>⟧.number_of v) };

    ghost is_blank = { is_nought };

    fn is_blank(value: &u32) -> bool {
        *value == 0
    }

    ghost field_data_encoding = { λ n v. refl };

    ghost field_data_valid = { λ v fit. fit };

    ghost blank_only = { λ v _ h. nought_only v h };
}

impl ProtoType for Fixed64 {
    ghost field_data = { λ v. fixed64 (⟦<Fixed64 as Scalar>⟧.number_of v) };

    ghost is_blank = { is_nought };

    fn is_blank(value: &u64) -> bool {
        *value == 0
    }

    ghost field_data_encoding = { λ n v. refl };

    ghost field_data_valid = { λ v fit. fit };

    ghost blank_only = { λ v _ h. nought_only v h };
}

impl ProtoType for Float {
    ghost field_data = { λ v. fixed32 (⟦<Float as Scalar>⟧.number_of v) };

    ghost is_blank = { is_nought };

    fn is_blank(value: &FloatBits) -> bool {
        value.bits == 0
    }

    ghost field_data_encoding = { λ n v. refl };

    ghost field_data_valid = { λ v fit. fit };

    ghost blank_only = { λ v _ h. nought_only v h };
}

impl ProtoType for Double {
    ghost field_data = { λ v. fixed64 (⟦<Double as Scalar>⟧.number_of v) };

    ghost is_blank = { is_nought };

    fn is_blank(value: &DoubleBits) -> bool {
        value.bits == 0
    }

    ghost field_data_encoding = { λ n v. refl };

    ghost field_data_valid = { λ v fit. fit };

    ghost blank_only = { λ v _ h. nought_only v h };
}

impl ProtoType for Sfixed32 {
    ghost field_data = { λ v. fixed32 (⟦<Sfixed32 as Scalar>⟧.number_of v) };

    ghost is_blank = { is_zero };

    fn is_blank(value: &i32) -> bool {
        *value == 0
    }

    ghost field_data_encoding = { λ n v. refl };

    ghost field_data_valid = { unsigned32_fits };

    ghost blank_only = { λ v _ h. zero_only v h };
}

impl ProtoType for Sfixed64 {
    ghost field_data = { λ v. fixed64 (⟦<Sfixed64 as Scalar>⟧.number_of v) };

    ghost is_blank = { is_zero };

    fn is_blank(value: &i64) -> bool {
        *value == 0
    }

    ghost field_data_encoding = { λ n v. refl };

    ghost field_data_valid = { unsigned64_fits };

    ghost blank_only = { λ v _ h. zero_only v h };
}

impl<T: ProtoBytes> ProtoType for ProtoBytesMap<T> {
    ghost field_data = { λ v. bytes (T.bytes v) };

    ghost is_blank = { λ v. is_none (T.bytes v) };

    fn is_blank(value: &T) -> bool {
        value.as_bytes().is_empty()
    }

    ghost field_data_encoding = { λ n v. refl };

    ghost field_data_valid = { λ v _. tt };

    ghost blank_only = { λ v _ h. sym (T.ProtoBytes.meaning_stays v)
        ∙ ap T.of_bytes (none_only (T.bytes v) h ∙ sym T.ProtoBytes.blank_bytes)
        ∙ T.ProtoBytes.meaning_stays T.blank_is };
}

impl ProtoType for BytesBuf {
    ghost field_data = { bytes };

    ghost is_blank = { is_none };

    fn is_blank(value: &Bytes) -> bool {
        Bytes::as_slice(value).is_empty()
    }

    ghost field_data_encoding = { λ n v. refl };

    ghost field_data_valid = { λ v _. tt };

    ghost blank_only = { λ v _ h. none_only v h };
}

impl<E: Enumeration> ProtoType for OpenEnum<E> {
    ghost field_data = { λ v. varint (cast_unsigned w64 v.1) };

    ghost is_blank = { λ v. is_zero v.1 };

    fn is_blank(value: &EnumValue<E>) -> bool {
        value.to_i32() == 0
    }

    ghost field_data_encoding = { λ n v. refl };

    ghost field_data_valid = { λ v fit. int32_below v.1 fit };

    ghost blank_only = { λ v normal h. normal ∙ ap (open_number E.of_number) (zero_only v.1 h) };
}

impl<E: Enumeration> ProtoType for ClosedEnum<E> {
    ghost field_data = { λ v. varint (cast_unsigned w64 v) };

    ghost is_blank = { λ v. false };

    ghost field_data_encoding = { λ n v. refl };

    ghost field_data_valid = { λ v fit. int32_below v fit.0 };

    ghost blank_only = { λ v _ h. cc };

    // A closed enum has explicit presence: a value that is there is written.
    fn is_blank(_value: &E) -> bool {
        false
    }
}
