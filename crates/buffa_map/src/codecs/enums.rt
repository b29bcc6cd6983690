//! Codecs of enums: an int32.

ghost use Rattle.std.specs.Prelude.{None, false, refl, true};
ghost use Rattle.buffa_bytes.specs.declared.wire_type.WireType.TheVariants.{Varint};
ghost use Rattle.buffa_wire.specs.Enums.{numbers};
ghost use Rattle.buffa_map.specs.Enums.{ClosedFits, OpenFits, OpenNormal, closed_reading, closed_writing};
ghost use Rattle.buffa_map.specs.Enums.{open_reading, open_writing};
ghost use Rattle.buffa_map.specs.EnumFacts.{closed_reads_back, open_reads_back, open_stays_normal};
ghost use Rattle.buffa_map.specs.ScalarFacts.{always_known, never_faulty, no_fixed_length};

use crate::codec::sealed::Sealed;
use crate::codec::{MapCodec, MapValueDecode, MapValueDecodeStatus};
use buffa_wire::types::{decode_int32, encode_int32, int32_encoded_len};
use buffa_wire::{
    Buf, DecodeContext, DecodeError, EncodeError, EncodeSink, EnumValue, Enumeration, WireType,
};
use std::alloc::Global;
use std::marker::PhantomData;

/// A closed enum: a declared value. For a number that the enum doesn't declare the value stays as it
/// was, and the payload isn't a declared one.
///
/// ```ignore
/// read_map_field::<Int32, ClosedEnum<Old>, _, _>(alloc, &mut map, 5, &mut rest, ctx, Some(&mut unknown))?;
/// ```
pub struct ClosedEnum<E> {
    of: PhantomData<E>,
}

impl<E: Enumeration> Sealed for ClosedEnum<E> {}

impl<E: Enumeration> MapValueDecode for ClosedEnum<E> {
    type Value = E;

    const WIRE_TYPE: WireType = WireType::Varint;

    const MAY_RETURN_UNKNOWN: bool = true;

    const COST: usize = 4;

    ghost WIRE_TYPE = { Varint };

    ghost MAY_RETURN_UNKNOWN = { true };

    ghost COST = { 4 };

    ghost reading = { closed_reading (numbers E.of_number E.blank_is) };

    #[tactic(auto, unfolding(buffa_bytes::specs::Unread::past_no_payload))]
    fn merge<B: Buf>(
        _alloc: Global,
        value: &mut E,
        buf: &mut B,
        _ctx: DecodeContext<'_>,
    ) -> Result<MapValueDecodeStatus, DecodeError> {
        let number = decode_int32(buf)?;
        match E::from_i32(number) {
            Some(declared) => {
                *value = declared;
                Ok(MapValueDecodeStatus::Known)
            }
            None => Ok(MapValueDecodeStatus::Unknown),
        }
    }

    ghost free = { λ _ d c. refl };

    ghost no_limit = { λ d old c x h. never_faulty x h };

    ghost wire = { refl };

    ghost blank = { refl };

    ghost declared = { λ no d old c new known h. cc };

    ghost undeclared = { refl };
}

impl<E: Enumeration> MapCodec for ClosedEnum<E> {
    const FIXED_LEN: Option<u64> = None;

    ghost FIXED_LEN = { None };

    ghost writing = { closed_writing };

    ghost fits = { ClosedFits (numbers E.of_number E.blank_is) };

    ghost normal = { λ _. Unit {0} };

    fn encoded_len(value: &E) -> u64 {
        int32_encoded_len(value.to_i32()) as u64
    }

    fn encode<S: EncodeSink>(value: &E, sink: &mut S) -> Result<(), EncodeError> {
        encode_int32(value.to_i32(), sink)
    }

    ghost plain = { refl };

    ghost written_wire = { refl };

    ghost reads_back = { λ d old v h _. closed_reads_back (numbers E.of_number E.blank_is) d old v h };

    ghost blank_normal = { tt };

    ghost stays_normal = { λ d old c new known h _. tt };

    ghost fixed = { λ n h v. no_fixed_length h };
}

/// An open enum: any number, as the declared value where one has it.
///
/// ```ignore
/// write_field::<Int32, OpenEnum<Old>, _, _>(&map, 5, &mut sink)?;
/// ```
pub struct OpenEnum<E> {
    of: PhantomData<E>,
}

impl<E: Enumeration> Sealed for OpenEnum<E> {}

impl<E: Enumeration> MapValueDecode for OpenEnum<E> {
    type Value = EnumValue<E>;

    const WIRE_TYPE: WireType = WireType::Varint;

    const MAY_RETURN_UNKNOWN: bool = false;

    const COST: usize = 8;

    ghost WIRE_TYPE = { Varint };

    ghost MAY_RETURN_UNKNOWN = { false };

    ghost COST = { 8 };

    ghost reading = { open_reading E.of_number };

    #[tactic(auto, unfolding(buffa_bytes::specs::Unread::past_no_payload))]
    fn merge<B: Buf>(
        _alloc: Global,
        value: &mut EnumValue<E>,
        buf: &mut B,
        _ctx: DecodeContext<'_>,
    ) -> Result<MapValueDecodeStatus, DecodeError> {
        *value = EnumValue::from_i32(decode_int32(buf)?);
        Ok(MapValueDecodeStatus::Known)
    }

    ghost free = { λ _ d c. refl };

    ghost no_limit = { λ d old c x h. never_faulty x h };

    ghost wire = { refl };

    ghost blank = { refl };

    ghost declared = { λ _ d old c new known h. always_known new known h };

    ghost undeclared = { refl };
}

impl<E: Enumeration> MapCodec for OpenEnum<E> {
    const FIXED_LEN: Option<u64> = None;

    ghost FIXED_LEN = { None };

    ghost writing = { open_writing };

    ghost fits = { OpenFits };

    ghost normal = { OpenNormal E.of_number };

    fn encoded_len(value: &EnumValue<E>) -> u64 {
        int32_encoded_len(value.to_i32()) as u64
    }

    fn encode<S: EncodeSink>(value: &EnumValue<E>, sink: &mut S) -> Result<(), EncodeError> {
        encode_int32(value.to_i32(), sink)
    }

    ghost plain = { refl };

    ghost written_wire = { refl };

    ghost reads_back = { open_reads_back E.of_number };

    ghost blank_normal = { refl };

    ghost stays_normal = { λ d old c new known _ h. open_stays_normal E.of_number _ new known h };

    ghost fixed = { λ n h v. no_fixed_length h };
}
