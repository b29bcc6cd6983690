//! Codecs of strings and bytes: a length and so many bytes.

ghost use Rattle.std.specs.Prelude.{[], None, false, refl};
ghost use Rattle.buffa_bytes.specs.declared.wire_type.WireType.TheVariants.{LengthDelimited};
ghost use Rattle.buffa_map.specs.Scalars.{IsLengthy, IsText, bytes_reading, delimited_writing, string_reading};
ghost use Rattle.buffa_map.specs.ScalarFacts.{always_known, bytes_read_back, never_faulty, no_fixed_length};
ghost use Rattle.buffa_map.specs.ScalarFacts.{string_known, string_no_limit, string_reads_back};

use crate::codec::sealed::Sealed;
use crate::codec::{MapCodec, MapValueDecode, MapValueDecodeStatus};
use buffa_bytes::{ProtoBytes, ProtoString};
use buffa_wire::types::{
    bytes_encoded_len, decode_bytes_to, decode_bytes_to_bytes, decode_string_to, encode_bytes,
    encode_string, string_encoded_len,
};
use buffa_wire::{Buf, DecodeContext, DecodeError, EncodeError, EncodeSink, WireType};
use bytes::Bytes;
use std::alloc::Global;
use std::marker::PhantomData;

/// `string`, held as a type of one's own.
///
/// ```ignore
/// read_map_field::<ProtoStringMap<Word>, Bool, _, _>(alloc, &mut words, 1, &mut rest, ctx, None)?;
/// ```
pub struct ProtoStringMap<T> {
    of: PhantomData<T>,
}

impl<T: ProtoString> Sealed for ProtoStringMap<T> {}

impl<T: ProtoString> MapValueDecode for ProtoStringMap<T> {
    type Value = T;

    const WIRE_TYPE: WireType = WireType::LengthDelimited;

    const MAY_RETURN_UNKNOWN: bool = false;

    const COST: usize = 24;

    ghost WIRE_TYPE = { LengthDelimited };

    ghost MAY_RETURN_UNKNOWN = { false };

    ghost COST = { 24 };

    ghost reading = { string_reading T.blank_is T.of_text };

    fn merge<B: Buf>(
        alloc: Global,
        value: &mut T,
        buf: &mut B,
        _ctx: DecodeContext<'_>,
    ) -> Result<MapValueDecodeStatus, DecodeError> {
        *value = decode_string_to(alloc, buf)?;
        Ok(MapValueDecodeStatus::Known)
    }

    ghost free = { λ _ d c. refl };

    ghost no_limit = { λ d old c x h. string_no_limit T.of_text c x h };

    ghost wire = { refl };

    ghost blank = { refl };

    ghost declared = { λ _ d old c new known h. string_known T.of_text c new known h };

    ghost undeclared = { refl };
}

impl<T: ProtoString> MapCodec for ProtoStringMap<T> {
    const FIXED_LEN: Option<u64> = None;

    ghost FIXED_LEN = { None };

    ghost writing = { delimited_writing T.text };

    ghost fits = { λ v. IsText (T.text v) };

    ghost normal = { λ _. Unit {0} };

    fn encoded_len(value: &T) -> u64 {
        string_encoded_len(T::as_str(value)) as u64
    }

    #[inline(always)]
    fn encode<S: EncodeSink>(value: &T, sink: &mut S) -> Result<(), EncodeError> {
        encode_string(T::as_str(value), sink)
    }

    ghost plain = { refl };

    ghost written_wire = { refl };

    ghost reads_back = { λ d old v h _. string_reads_back T.of_text T.text v h (T.ProtoString.meaning_stays v) };

    ghost blank_normal = { tt };

    ghost stays_normal = { λ d old c new known h _. tt };

    ghost fixed = { λ n h v. no_fixed_length h };
}

/// `string`: a `String`.
///
/// ```ignore
/// let size = field_len::<Str, Int32, _>(&map, 1);
/// ```
pub type Str = ProtoStringMap<String>;

/// `bytes`: a `Vec<u8>`.
///
/// ```ignore
/// visitor.visit::<ImplicitField<BytesVec>>(6, &self.blob);
/// ```
pub type BytesVec = ProtoBytesMap<Vec<u8>>;

/// `bytes`: a `bytes::Bytes`, which can be shared with no copy.
///
/// ```ignore
/// read_map_field::<Int32, BytesBuf, _, _>(alloc, &mut shared, 5, &mut rest, ctx, None)?;
/// ```
pub struct BytesBuf;

impl Sealed for BytesBuf {}

impl MapValueDecode for BytesBuf {
    type Value = Bytes;

    const WIRE_TYPE: WireType = WireType::LengthDelimited;

    const MAY_RETURN_UNKNOWN: bool = false;

    const COST: usize = 32;

    ghost WIRE_TYPE = { LengthDelimited };

    ghost MAY_RETURN_UNKNOWN = { false };

    ghost COST = { 32 };

    ghost reading = { bytes_reading [] (λ bytes. bytes) };

    fn merge<B: Buf>(
        alloc: Global,
        value: &mut Bytes,
        buf: &mut B,
        _ctx: DecodeContext<'_>,
    ) -> Result<MapValueDecodeStatus, DecodeError> {
        *value = decode_bytes_to_bytes(alloc, buf)?;
        Ok(MapValueDecodeStatus::Known)
    }

    ghost free = { λ _ d c. refl };

    ghost no_limit = { λ d old c x h. never_faulty x h };

    ghost wire = { refl };

    ghost blank = { refl };

    ghost declared = { λ _ d old c new known h. always_known new known h };

    ghost undeclared = { refl };
}

impl MapCodec for BytesBuf {
    const FIXED_LEN: Option<u64> = None;

    ghost FIXED_LEN = { None };

    ghost writing = { delimited_writing (λ bytes. bytes) };

    ghost fits = { IsLengthy };

    ghost normal = { λ _. Unit {0} };

    fn encoded_len(value: &Bytes) -> u64 {
        bytes_encoded_len(Bytes::as_slice(value)) as u64
    }

    #[inline(always)]
    fn encode<S: EncodeSink>(value: &Bytes, sink: &mut S) -> Result<(), EncodeError> {
        encode_bytes(Bytes::as_slice(value), sink)
    }

    ghost plain = { refl };

    ghost written_wire = { refl };

    ghost reads_back = { λ d old v h _. bytes_read_back (λ bytes. bytes) (λ bytes. bytes) v h refl };

    ghost blank_normal = { tt };

    ghost stays_normal = { λ d old c new known h _. tt };

    ghost fixed = { λ n h v. no_fixed_length h };
}

/// `bytes`, held as a type of one's own.
///
/// ```ignore
/// write_field::<Int32, ProtoBytesMap<Vec<u8>>, _, _>(&map, 5, &mut sink)?;
/// ```
pub struct ProtoBytesMap<T> {
    of: PhantomData<T>,
}

impl<T: ProtoBytes> Sealed for ProtoBytesMap<T> {}

impl<T: ProtoBytes> MapValueDecode for ProtoBytesMap<T> {
    type Value = T;

    const WIRE_TYPE: WireType = WireType::LengthDelimited;

    const MAY_RETURN_UNKNOWN: bool = false;

    const COST: usize = 24;

    ghost WIRE_TYPE = { LengthDelimited };

    ghost MAY_RETURN_UNKNOWN = { false };

    ghost COST = { 24 };

    ghost reading = { bytes_reading T.blank_is T.of_bytes };

    fn merge<B: Buf>(
        alloc: Global,
        value: &mut T,
        buf: &mut B,
        _ctx: DecodeContext<'_>,
    ) -> Result<MapValueDecodeStatus, DecodeError> {
        *value = decode_bytes_to(alloc, buf)?;
        Ok(MapValueDecodeStatus::Known)
    }

    ghost free = { λ _ d c. refl };

    ghost no_limit = { λ d old c x h. never_faulty x h };

    ghost wire = { refl };

    ghost blank = { refl };

    ghost declared = { λ _ d old c new known h. always_known new known h };

    ghost undeclared = { refl };
}

impl<T: ProtoBytes> MapCodec for ProtoBytesMap<T> {
    const FIXED_LEN: Option<u64> = None;

    ghost FIXED_LEN = { None };

    ghost writing = { delimited_writing T.bytes };

    ghost fits = { λ v. IsLengthy (T.bytes v) };

    ghost normal = { λ _. Unit {0} };

    fn encoded_len(value: &T) -> u64 {
        bytes_encoded_len(T::as_bytes(value)) as u64
    }

    #[inline(always)]
    fn encode<S: EncodeSink>(value: &T, sink: &mut S) -> Result<(), EncodeError> {
        encode_bytes(T::as_bytes(value), sink)
    }

    ghost plain = { refl };

    ghost written_wire = { refl };

    ghost reads_back = { λ d old v h _. bytes_read_back T.of_bytes T.bytes v h (T.ProtoBytes.meaning_stays v) };

    ghost blank_normal = { tt };

    ghost stays_normal = { λ d old c new known h _. tt };

    ghost fixed = { λ n h v. no_fixed_length h };
}
