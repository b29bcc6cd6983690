// Numbers by themselves.

use crate::scalars::payload::{Payload, Spelled};
use buffa_wire::types::{
    BOOL_ENCODED_LEN, FIXED32_ENCODED_LEN, FIXED64_ENCODED_LEN, decode_bool, decode_fixed32,
    decode_fixed64, decode_int32, decode_int64, decode_sfixed32, decode_sfixed64, decode_sint32,
    decode_sint64, decode_uint32, decode_uint64, encode_bool, encode_fixed32, encode_fixed64,
    encode_int32, encode_int64, encode_sfixed32, encode_sfixed64, encode_sint32, encode_sint64,
    encode_uint32, encode_uint64, int32_encoded_len, int64_encoded_len, sint32_encoded_len,
    sint64_encoded_len, uint32_encoded_len, uint64_encoded_len,
};
use buffa_wire::{Buf, DecodeError, decode_varint, encode_varint, prefix_len, varint_len};
use std::alloc::Global;

/// An int32.
pub struct Int32;

impl Payload for Int32 {
    type Value = i32;

    fn decode<B: Buf>(_alloc: Global, buf: &mut B) -> Result<i32, DecodeError> {
        decode_int32(buf)
    }

    fn spell(value: &i32, text: &mut Vec<u8>) -> Spelled {
        (int32_encoded_len(*value), encode_int32(*value, text))
    }
}

/// An int64.
pub struct Int64;

impl Payload for Int64 {
    type Value = i64;

    fn decode<B: Buf>(_alloc: Global, buf: &mut B) -> Result<i64, DecodeError> {
        decode_int64(buf)
    }

    fn spell(value: &i64, text: &mut Vec<u8>) -> Spelled {
        (int64_encoded_len(*value), encode_int64(*value, text))
    }
}

/// A uint32.
pub struct Uint32;

impl Payload for Uint32 {
    type Value = u32;

    fn decode<B: Buf>(_alloc: Global, buf: &mut B) -> Result<u32, DecodeError> {
        decode_uint32(buf)
    }

    fn spell(value: &u32, text: &mut Vec<u8>) -> Spelled {
        (uint32_encoded_len(*value), encode_uint32(*value, text))
    }
}

/// A uint64.
pub struct Uint64;

impl Payload for Uint64 {
    type Value = u64;

    fn decode<B: Buf>(_alloc: Global, buf: &mut B) -> Result<u64, DecodeError> {
        decode_uint64(buf)
    }

    fn spell(value: &u64, text: &mut Vec<u8>) -> Spelled {
        (uint64_encoded_len(*value), encode_uint64(*value, text))
    }
}

/// A sint32.
pub struct Sint32;

impl Payload for Sint32 {
    type Value = i32;

    fn decode<B: Buf>(_alloc: Global, buf: &mut B) -> Result<i32, DecodeError> {
        decode_sint32(buf)
    }

    fn spell(value: &i32, text: &mut Vec<u8>) -> Spelled {
        (sint32_encoded_len(*value), encode_sint32(*value, text))
    }
}

/// A sint64.
pub struct Sint64;

impl Payload for Sint64 {
    type Value = i64;

    fn decode<B: Buf>(_alloc: Global, buf: &mut B) -> Result<i64, DecodeError> {
        decode_sint64(buf)
    }

    fn spell(value: &i64, text: &mut Vec<u8>) -> Spelled {
        (sint64_encoded_len(*value), encode_sint64(*value, text))
    }
}

/// A bool.
pub struct Bool;

impl Payload for Bool {
    type Value = bool;

    fn decode<B: Buf>(_alloc: Global, buf: &mut B) -> Result<bool, DecodeError> {
        decode_bool(buf)
    }

    fn spell(value: &bool, text: &mut Vec<u8>) -> Spelled {
        (BOOL_ENCODED_LEN, encode_bool(*value, text))
    }
}

/// A fixed32.
pub struct Fixed32;

impl Payload for Fixed32 {
    type Value = u32;

    fn decode<B: Buf>(_alloc: Global, buf: &mut B) -> Result<u32, DecodeError> {
        decode_fixed32(buf)
    }

    fn spell(value: &u32, text: &mut Vec<u8>) -> Spelled {
        (FIXED32_ENCODED_LEN, encode_fixed32(*value, text))
    }
}

/// A fixed64.
pub struct Fixed64;

impl Payload for Fixed64 {
    type Value = u64;

    fn decode<B: Buf>(_alloc: Global, buf: &mut B) -> Result<u64, DecodeError> {
        decode_fixed64(buf)
    }

    fn spell(value: &u64, text: &mut Vec<u8>) -> Spelled {
        (FIXED64_ENCODED_LEN, encode_fixed64(*value, text))
    }
}

/// An sfixed32.
pub struct Sfixed32;

impl Payload for Sfixed32 {
    type Value = i32;

    fn decode<B: Buf>(_alloc: Global, buf: &mut B) -> Result<i32, DecodeError> {
        decode_sfixed32(buf)
    }

    fn spell(value: &i32, text: &mut Vec<u8>) -> Spelled {
        (FIXED32_ENCODED_LEN, encode_sfixed32(*value, text))
    }
}

/// An sfixed64.
pub struct Sfixed64;

impl Payload for Sfixed64 {
    type Value = i64;

    fn decode<B: Buf>(_alloc: Global, buf: &mut B) -> Result<i64, DecodeError> {
        decode_sfixed64(buf)
    }

    fn spell(value: &i64, text: &mut Vec<u8>) -> Spelled {
        (FIXED64_ENCODED_LEN, encode_sfixed64(*value, text))
    }
}

/// A varint.
pub struct Varint;

impl Payload for Varint {
    type Value = u64;

    fn decode<B: Buf>(_alloc: Global, buf: &mut B) -> Result<u64, DecodeError> {
        decode_varint(buf)
    }

    fn spell(value: &u64, text: &mut Vec<u8>) -> Spelled {
        (varint_len(*value), encode_varint(*value, text))
    }
}

/// A varint that stands before so many bytes.
pub struct Length;

impl Payload for Length {
    type Value = u64;

    fn decode<B: Buf>(_alloc: Global, buf: &mut B) -> Result<u64, DecodeError> {
        decode_varint(buf)
    }

    fn spell(value: &u64, text: &mut Vec<u8>) -> Spelled {
        (prefix_len(*value), encode_varint(*value, text))
    }
}
