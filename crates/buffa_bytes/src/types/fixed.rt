//! Scalars of four and of eight bytes, the lowest first.

ghost use Rattle.std.specs.Prelude.{◌≡◌, length, OnErr};
ghost use Rattle.buffa_bytes.specs.Readings.{taken, Gives};
ghost use Rattle.buffa_bytes.specs.Scalars.{fixed32_at, fixed32_encoding, fixed64_at, fixed64_encoding, sfixed32_at};
ghost use Rattle.buffa_bytes.specs.Scalars.{sfixed32_encoding, sfixed64_at, sfixed64_encoding};
ghost use Rattle.buffa_bytes.specs.Written.{UsesRoom, Writes};
ghost use Rattle.buffa_bytes.specs.Unread.{IsTailOf};

use crate::buf::Buf;
use crate::error::{DecodeError, EncodeError};
use crate::sink::EncodeSink;

/// The length of a fixed32's and an sfixed32's encoding, in bytes.
///
/// ```ignore
/// assert!(rt; types::FIXED32_ENCODED_LEN == 4);
/// ```
pub const FIXED32_ENCODED_LEN: usize = 4;

/// The length of a fixed64's and an sfixed64's encoding, in bytes.
///
/// ```ignore
/// assert!(rt; types::FIXED64_ENCODED_LEN == 8);
/// ```
pub const FIXED64_ENCODED_LEN: usize = 8;

// Fills `bytes` with the first bytes of the buffer.
#[tactic(auto, using(crate::proofs::TailLemmas::tail_whole, crate::proofs::TailLemmas::tail_dropped), unfolding(crate::specs::Readings::taken))]
fn take_into<B: Buf>(buf: &mut B, bytes: &mut [u8]) -> Result<(), DecodeError>
    ensures reads { Gives (λ _. (bytes.new, B.unread buf.new)) result (taken (length bytes.old) (B.unread buf.old)) }
    ensures kept { B.beyond buf.new ≡ B.beyond buf.old }
    ensures left { OnErr result (B.unread buf.new ≡ B.unread buf.old) }
    ensures tail { IsTailOf (B.unread buf.new) (B.unread buf.old) }
{
    if buf.remaining() < bytes.len() {
        return Err(DecodeError::UnexpectedEof);
    }
    let mut at = 0;
    while at < bytes.len() {
        let chunk = buf.chunk();
        let part = chunk.len().min(bytes.len() - at);
        bytes[at..at + part].copy_from_slice(&chunk[..part]);
        buf.advance(part);
        at += part;
    }
    Ok(())
}

/// Writes a fixed32: four bytes, the lowest first. Source: the protobuf encoding guide, "Non-varint
/// Numbers".
///
/// # Errors
/// [`EncodeError::OutOfMemory`] alone, after a beginning of the encoding.
///
/// ```ignore
/// encode_fixed32(1, &mut sink)?; // 01 00 00 00
/// ```
pub fn encode_fixed32<S: EncodeSink>(value: u32, sink: &mut S) -> Result<(), EncodeError>
    ensures writes { Writes result (S.written sink.old) (fixed32_encoding value) (S.written sink.new) }
    ensures room { UsesRoom result (S.room sink.old) (fixed32_encoding value) (S.room sink.new) }
{
    sink.put_slice(&u32::to_le_bytes(value))
}

/// Reads a fixed32: four bytes, the lowest first.
///
/// # Errors
/// [`DecodeError::UnexpectedEof`] where fewer bytes are left. It takes no memory.
///
/// ```ignore
/// let one = decode_fixed32(&mut rest)?; // of 01 00 00 00
/// ```
pub fn decode_fixed32<B: Buf>(buf: &mut B) -> Result<u32, DecodeError>
    ensures reads { Gives (λ v. (v, B.unread buf.new)) result (fixed32_at (B.unread buf.old)) }
    ensures kept { B.beyond buf.new ≡ B.beyond buf.old }
    ensures left { OnErr result (B.unread buf.new ≡ B.unread buf.old) }
    ensures tail { IsTailOf (B.unread buf.new) (B.unread buf.old) }
{
    let mut bytes = [0; 4];
    take_into(buf, &mut bytes)?;
    Ok(u32::from_le_bytes(bytes))
}

/// Writes a fixed64: eight bytes, the lowest first.
///
/// # Errors
/// [`EncodeError::OutOfMemory`] alone, after a beginning of the encoding.
///
/// ```ignore
/// encode_fixed64(2, &mut sink)?; // 02 00 00 00 00 00 00 00
/// ```
pub fn encode_fixed64<S: EncodeSink>(value: u64, sink: &mut S) -> Result<(), EncodeError>
    ensures writes { Writes result (S.written sink.old) (fixed64_encoding value) (S.written sink.new) }
    ensures room { UsesRoom result (S.room sink.old) (fixed64_encoding value) (S.room sink.new) }
{
    sink.put_slice(&u64::to_le_bytes(value))
}

/// Reads a fixed64: eight bytes, the lowest first.
///
/// # Errors
/// [`DecodeError::UnexpectedEof`] where fewer bytes are left. It takes no memory.
///
/// ```ignore
/// let two = decode_fixed64(&mut rest)?; // of 02 00 00 00 00 00 00 00
/// ```
pub fn decode_fixed64<B: Buf>(buf: &mut B) -> Result<u64, DecodeError>
    ensures reads { Gives (λ v. (v, B.unread buf.new)) result (fixed64_at (B.unread buf.old)) }
    ensures kept { B.beyond buf.new ≡ B.beyond buf.old }
    ensures left { OnErr result (B.unread buf.new ≡ B.unread buf.old) }
    ensures tail { IsTailOf (B.unread buf.new) (B.unread buf.old) }
{
    let mut bytes = [0; 8];
    take_into(buf, &mut bytes)?;
    Ok(u64::from_le_bytes(bytes))
}

/// Writes an sfixed32: four bytes in two's complement, the lowest first.
///
/// # Errors
/// [`EncodeError::OutOfMemory`] alone, after a beginning of the encoding.
///
/// ```ignore
/// encode_sfixed32(-1, &mut sink)?; // FF FF FF FF
/// ```
pub fn encode_sfixed32<S: EncodeSink>(value: i32, sink: &mut S) -> Result<(), EncodeError>
    ensures writes { Writes result (S.written sink.old) (sfixed32_encoding value) (S.written sink.new) }
    ensures room { UsesRoom result (S.room sink.old) (sfixed32_encoding value) (S.room sink.new) }
{
    sink.put_slice(&i32::to_le_bytes(value))
}

/// Reads an sfixed32: four bytes in two's complement, the lowest first.
///
/// # Errors
/// [`DecodeError::UnexpectedEof`] where fewer bytes are left. It takes no memory.
///
/// ```ignore
/// let minus_one = decode_sfixed32(&mut rest)?; // of FF FF FF FF
/// ```
pub fn decode_sfixed32<B: Buf>(buf: &mut B) -> Result<i32, DecodeError>
    ensures reads { Gives (λ v. (v, B.unread buf.new)) result (sfixed32_at (B.unread buf.old)) }
    ensures kept { B.beyond buf.new ≡ B.beyond buf.old }
    ensures left { OnErr result (B.unread buf.new ≡ B.unread buf.old) }
    ensures tail { IsTailOf (B.unread buf.new) (B.unread buf.old) }
{
    let mut bytes = [0; 4];
    take_into(buf, &mut bytes)?;
    Ok(i32::from_le_bytes(bytes))
}

/// Writes an sfixed64: eight bytes in two's complement, the lowest first.
///
/// # Errors
/// [`EncodeError::OutOfMemory`] alone, after a beginning of the encoding.
///
/// ```ignore
/// encode_sfixed64(-2, &mut sink)?; // FE FF FF FF FF FF FF FF
/// ```
pub fn encode_sfixed64<S: EncodeSink>(value: i64, sink: &mut S) -> Result<(), EncodeError>
    ensures writes { Writes result (S.written sink.old) (sfixed64_encoding value) (S.written sink.new) }
    ensures room { UsesRoom result (S.room sink.old) (sfixed64_encoding value) (S.room sink.new) }
{
    sink.put_slice(&i64::to_le_bytes(value))
}

/// Reads an sfixed64: eight bytes in two's complement, the lowest first.
///
/// # Errors
/// [`DecodeError::UnexpectedEof`] where fewer bytes are left. It takes no memory.
///
/// ```ignore
/// let minus_two = decode_sfixed64(&mut rest)?; // of FE FF FF FF FF FF FF FF
/// ```
pub fn decode_sfixed64<B: Buf>(buf: &mut B) -> Result<i64, DecodeError>
    ensures reads { Gives (λ v. (v, B.unread buf.new)) result (sfixed64_at (B.unread buf.old)) }
    ensures kept { B.beyond buf.new ≡ B.beyond buf.old }
    ensures left { OnErr result (B.unread buf.new ≡ B.unread buf.old) }
    ensures tail { IsTailOf (B.unread buf.new) (B.unread buf.old) }
{
    let mut bytes = [0; 8];
    take_into(buf, &mut bytes)?;
    Ok(i64::from_le_bytes(bytes))
}
