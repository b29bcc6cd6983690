//! Scalars that are varints.

ghost use Rattle.std.specs.Prelude.{◌≡◌, length, OnErr};
ghost use Rattle.buffa_bytes.specs.Readings.{Gives};
ghost use Rattle.buffa_bytes.specs.Unread.{past_no_varint, IsTailOf};
ghost use Rattle.buffa_bytes.specs.Scalars.{bool_at, bool_encoding, int32_at, int32_encoding, int64_at, int64_encoding};
ghost use Rattle.buffa_bytes.specs.Scalars.{sint32_at, sint32_encoding, sint64_at, sint64_encoding, uint32_at, uint32_encoding};
ghost use Rattle.buffa_bytes.specs.Scalars.{uint64_at, uint64_encoding};
ghost use Rattle.buffa_bytes.specs.Written.{UsesRoom, Writes};

use crate::buf::Buf;
use crate::error::{DecodeError, EncodeError};
use crate::sink::EncodeSink;
use crate::types::zigzag::{
    zigzag_decode_i32, zigzag_decode_i64, zigzag_encode_i32, zigzag_encode_i64,
};
use crate::varint::{encode_varint, read_varint, varint_len};

/// The length of an int32's encoding: 1 to 5 bytes, or 10 for a negative one.
///
/// ```ignore
/// let len = int32_encoded_len(-1); // 10
/// ```
pub fn int32_encoded_len(value: i32) -> usize
    ensures { result ≡ length (int32_encoding value) }
{
    varint_len(i64::from(value).cast_unsigned())
}

/// Writes an int32: its 64-bit two's complement as a varint. Source: the protobuf encoding guide,
/// "Signed Integers".
///
/// # Errors
/// [`EncodeError::OutOfMemory`] alone, after a beginning of the encoding.
///
/// ```ignore
/// encode_int32(-1, &mut sink)?; // FF FF FF FF FF FF FF FF FF 01
/// ```
pub fn encode_int32<S: EncodeSink>(value: i32, sink: &mut S) -> Result<(), EncodeError>
    ensures writes { Writes result (S.written sink.old) (int32_encoding value) (S.written sink.new) }
    ensures room { UsesRoom result (S.room sink.old) (int32_encoding value) (S.room sink.new) }
{
    encode_varint(i64::from(value).cast_unsigned(), sink)
}

/// Reads an int32: the low 32 bits of a varint.
///
/// # Errors
/// Those of a varint. It takes no memory.
///
/// ```ignore
/// let answer = decode_int32(&mut rest)?; // of 2A: 42
/// ```
pub fn decode_int32<B: Buf>(buf: &mut B) -> Result<i32, DecodeError>
    ensures reads { Gives (λ v. (v, B.unread buf.new)) result (int32_at (B.unread buf.old)) }
    ensures kept { B.beyond buf.new ≡ B.beyond buf.old }
    ensures left { OnErr result (B.unread buf.new ≡ past_no_varint (B.unread buf.old)) }
    ensures tail { IsTailOf (B.unread buf.new) (B.unread buf.old) }
{
    let number = read_varint(buf)?;
    Ok(((number % (1 << 32)) as u32).cast_signed())
}

/// The length of an int64's encoding: 1 to 9 bytes, or 10 for a negative one.
///
/// ```ignore
/// let len = int64_encoded_len(1); // 1
/// ```
pub fn int64_encoded_len(value: i64) -> usize
    ensures { result ≡ length (int64_encoding value) }
{
    varint_len(value.cast_unsigned())
}

/// Writes an int64: its two's complement as a varint. Source: the protobuf encoding guide,
/// "Signed Integers".
///
/// # Errors
/// [`EncodeError::OutOfMemory`] alone, after a beginning of the encoding.
///
/// ```ignore
/// encode_int64(-2, &mut sink)?; // FE FF FF FF FF FF FF FF FF 01
/// ```
pub fn encode_int64<S: EncodeSink>(value: i64, sink: &mut S) -> Result<(), EncodeError>
    ensures writes { Writes result (S.written sink.old) (int64_encoding value) (S.written sink.new) }
    ensures room { UsesRoom result (S.room sink.old) (int64_encoding value) (S.room sink.new) }
{
    encode_varint(value.cast_unsigned(), sink)
}

/// Reads an int64: a varint in two's complement.
///
/// # Errors
/// Those of a varint. It takes no memory.
///
/// ```ignore
/// let answer = decode_int64(&mut rest)?; // of 2A: 42
/// ```
pub fn decode_int64<B: Buf>(buf: &mut B) -> Result<i64, DecodeError>
    ensures reads { Gives (λ v. (v, B.unread buf.new)) result (int64_at (B.unread buf.old)) }
    ensures kept { B.beyond buf.new ≡ B.beyond buf.old }
    ensures left { OnErr result (B.unread buf.new ≡ past_no_varint (B.unread buf.old)) }
    ensures tail { IsTailOf (B.unread buf.new) (B.unread buf.old) }
{
    let number = read_varint(buf)?;
    Ok(number.cast_signed())
}

/// The length of a uint32's encoding: 1 to 5 bytes.
///
/// ```ignore
/// let len = uint32_encoded_len(300); // 2
/// ```
pub fn uint32_encoded_len(value: u32) -> usize
    ensures { result ≡ length (uint32_encoding value) }
{
    varint_len(u64::from(value))
}

/// Writes a uint32: a varint.
///
/// # Errors
/// [`EncodeError::OutOfMemory`] alone, after a beginning of the encoding.
///
/// ```ignore
/// encode_uint32(300, &mut sink)?; // AC 02
/// ```
pub fn encode_uint32<S: EncodeSink>(value: u32, sink: &mut S) -> Result<(), EncodeError>
    ensures writes { Writes result (S.written sink.old) (uint32_encoding value) (S.written sink.new) }
    ensures room { UsesRoom result (S.room sink.old) (uint32_encoding value) (S.room sink.new) }
{
    encode_varint(u64::from(value), sink)
}

/// Reads a uint32: the low 32 bits of a varint.
///
/// # Errors
/// Those of a varint. It takes no memory.
///
/// ```ignore
/// let number = decode_uint32(&mut rest)?; // of AC 02: 300
/// ```
pub fn decode_uint32<B: Buf>(buf: &mut B) -> Result<u32, DecodeError>
    ensures reads { Gives (λ v. (v, B.unread buf.new)) result (uint32_at (B.unread buf.old)) }
    ensures kept { B.beyond buf.new ≡ B.beyond buf.old }
    ensures left { OnErr result (B.unread buf.new ≡ past_no_varint (B.unread buf.old)) }
    ensures tail { IsTailOf (B.unread buf.new) (B.unread buf.old) }
{
    let number = read_varint(buf)?;
    Ok((number % (1 << 32)) as u32)
}

/// The length of a uint64's encoding: 1 to 10 bytes.
///
/// ```ignore
/// let len = uint64_encoded_len(7); // 1
/// ```
pub fn uint64_encoded_len(value: u64) -> usize
    ensures { result ≡ length (uint64_encoding value) }
{
    varint_len(value)
}

/// Writes a uint64: a varint.
///
/// # Errors
/// [`EncodeError::OutOfMemory`] alone, after a beginning of the encoding.
///
/// ```ignore
/// encode_uint64(7, &mut sink)?; // 07
/// ```
pub fn encode_uint64<S: EncodeSink>(value: u64, sink: &mut S) -> Result<(), EncodeError>
    ensures writes { Writes result (S.written sink.old) (uint64_encoding value) (S.written sink.new) }
    ensures room { UsesRoom result (S.room sink.old) (uint64_encoding value) (S.room sink.new) }
{
    encode_varint(value, sink)
}

/// Reads a uint64: a varint.
///
/// # Errors
/// Those of a varint. It takes no memory.
///
/// ```ignore
/// let number = decode_uint64(&mut rest)?; // of AC 02: 300
/// ```
pub fn decode_uint64<B: Buf>(buf: &mut B) -> Result<u64, DecodeError>
    ensures reads { Gives (λ v. (v, B.unread buf.new)) result (uint64_at (B.unread buf.old)) }
    ensures kept { B.beyond buf.new ≡ B.beyond buf.old }
    ensures left { OnErr result (B.unread buf.new ≡ past_no_varint (B.unread buf.old)) }
    ensures tail { IsTailOf (B.unread buf.new) (B.unread buf.old) }
{
    read_varint(buf)
}

/// The length of a sint32's encoding: 1 to 5 bytes.
///
/// ```ignore
/// let len = sint32_encoded_len(-64); // 1
/// ```
pub fn sint32_encoded_len(value: i32) -> usize
    ensures { result ≡ length (sint32_encoding value) }
{
    varint_len(u64::from(zigzag_encode_i32(value)))
}

/// Writes a sint32: its zigzag as a varint.
///
/// # Errors
/// [`EncodeError::OutOfMemory`] alone, after a beginning of the encoding.
///
/// ```ignore
/// encode_sint32(-64, &mut sink)?; // 7F
/// ```
pub fn encode_sint32<S: EncodeSink>(value: i32, sink: &mut S) -> Result<(), EncodeError>
    ensures writes { Writes result (S.written sink.old) (sint32_encoding value) (S.written sink.new) }
    ensures room { UsesRoom result (S.room sink.old) (sint32_encoding value) (S.room sink.new) }
{
    encode_varint(u64::from(zigzag_encode_i32(value)), sink)
}

/// Reads a sint32: the zigzag in the low 32 bits of a varint.
///
/// # Errors
/// Those of a varint. It takes no memory.
///
/// ```ignore
/// let minus_two = decode_sint32(&mut rest)?; // of 03
/// ```
pub fn decode_sint32<B: Buf>(buf: &mut B) -> Result<i32, DecodeError>
    ensures reads { Gives (λ v. (v, B.unread buf.new)) result (sint32_at (B.unread buf.old)) }
    ensures kept { B.beyond buf.new ≡ B.beyond buf.old }
    ensures left { OnErr result (B.unread buf.new ≡ past_no_varint (B.unread buf.old)) }
    ensures tail { IsTailOf (B.unread buf.new) (B.unread buf.old) }
{
    let number = read_varint(buf)?;
    Ok(zigzag_decode_i32((number % (1 << 32)) as u32))
}

/// The length of a sint64's encoding: 1 to 10 bytes.
///
/// ```ignore
/// let len = sint64_encoded_len(64); // 2
/// ```
pub fn sint64_encoded_len(value: i64) -> usize
    ensures { result ≡ length (sint64_encoding value) }
{
    varint_len(zigzag_encode_i64(value))
}

/// Writes a sint64: its zigzag as a varint.
///
/// # Errors
/// [`EncodeError::OutOfMemory`] alone, after a beginning of the encoding.
///
/// ```ignore
/// encode_sint64(64, &mut sink)?; // 80 01
/// ```
pub fn encode_sint64<S: EncodeSink>(value: i64, sink: &mut S) -> Result<(), EncodeError>
    ensures writes { Writes result (S.written sink.old) (sint64_encoding value) (S.written sink.new) }
    ensures room { UsesRoom result (S.room sink.old) (sint64_encoding value) (S.room sink.new) }
{
    encode_varint(zigzag_encode_i64(value), sink)
}

/// Reads a sint64: the zigzag in a varint.
///
/// # Errors
/// Those of a varint. It takes no memory.
///
/// ```ignore
/// let minus_two = decode_sint64(&mut rest)?; // of 03
/// ```
pub fn decode_sint64<B: Buf>(buf: &mut B) -> Result<i64, DecodeError>
    ensures reads { Gives (λ v. (v, B.unread buf.new)) result (sint64_at (B.unread buf.old)) }
    ensures kept { B.beyond buf.new ≡ B.beyond buf.old }
    ensures left { OnErr result (B.unread buf.new ≡ past_no_varint (B.unread buf.old)) }
    ensures tail { IsTailOf (B.unread buf.new) (B.unread buf.old) }
{
    let number = read_varint(buf)?;
    Ok(zigzag_decode_i64(number))
}

/// The length of a bool's encoding, in bytes.
///
/// ```ignore
/// let is_one_byte = sink.len() == types::BOOL_ENCODED_LEN;
/// ```
pub const BOOL_ENCODED_LEN: usize = 1;

/// Writes a bool: 1 for true, 0 for false. Source: the protobuf encoding guide, "Bools and Enums".
///
/// # Errors
/// [`EncodeError::OutOfMemory`] alone, after a beginning of the encoding.
///
/// ```ignore
/// encode_bool(true, &mut sink)?; // 01
/// ```
pub fn encode_bool<S: EncodeSink>(value: bool, sink: &mut S) -> Result<(), EncodeError>
    ensures writes { Writes result (S.written sink.old) (bool_encoding value) (S.written sink.new) }
    ensures room { UsesRoom result (S.room sink.old) (bool_encoding value) (S.room sink.new) }
{
    encode_uint64(u64::from(value), sink)
}

/// Reads a bool: a varint of which anything but 0 is true.
///
/// # Errors
/// Those of a varint. It takes no memory.
///
/// ```ignore
/// let yes = decode_bool(&mut rest)?; // of 01: true
/// ```
pub fn decode_bool<B: Buf>(buf: &mut B) -> Result<bool, DecodeError>
    ensures reads { Gives (λ v. (v, B.unread buf.new)) result (bool_at (B.unread buf.old)) }
    ensures kept { B.beyond buf.new ≡ B.beyond buf.old }
    ensures left { OnErr result (B.unread buf.new ≡ past_no_varint (B.unread buf.old)) }
    ensures tail { IsTailOf (B.unread buf.new) (B.unread buf.old) }
{
    let number = read_varint(buf)?;
    Ok(number != 0)
}
