//! Strings and bytes: a length and so many bytes.

ghost use Rattle.std.specs.Prelude.{◌≡◌, ℕ, List, [], Ok, length, string_bytes, IsOk};
ghost use Rattle.std.specs.Fn.{TakesAt};
ghost use Rattle.buffa_bytes.specs.Unread.{LeavesUnlessFull, past_no_delimited, IsTailOf};
ghost use Rattle.buffa_bytes.specs.Readings.{delimited_at, FullOnlyIf, GivesUnlessFull};
ghost use Rattle.buffa_bytes.specs.Delimited.{Lends, bytes_as, string_as};
ghost use Rattle.buffa_bytes.specs.Values.{delimited_encoding, string_at};
ghost use Rattle.buffa_bytes.specs.Written.{UsesRoom, Writes};

use crate::buf::{Buf, copy_bytes, front};
use crate::error::{DecodeError, EncodeError};
use crate::proto::{ProtoBytes, ProtoString};
use crate::sink::EncodeSink;
use crate::varint::{decode_varint, encode_varint, prefix_len};
use bytes::Bytes;
use std::alloc::Global;

/// The length of a string's encoding: the length varint and the bytes.
///
/// ```ignore
/// let len = string_encoded_len("ok"); // 3
/// ```
pub fn string_encoded_len(value: &str) -> usize
    ensures { result ≡ length (delimited_encoding value.now) }
{
    bytes_encoded_len(value.as_bytes())
}

/// Writes a string: the length as a varint, and the bytes.
///
/// # Errors
/// [`EncodeError::OutOfMemory`] alone, after a beginning of the encoding.
///
/// ```ignore
/// encode_string("testing", &mut sink)?; // 07 74 65 73 74 69 6E 67
/// ```
#[inline(always)]
pub fn encode_string<S: EncodeSink>(value: &str, sink: &mut S) -> Result<(), EncodeError>
    ensures writes { Writes result (S.written sink.old) (delimited_encoding value.now) (S.written sink.new) }
    ensures room { UsesRoom result (S.room sink.old) (delimited_encoding value.now) (S.room sink.new) }
{
    encode_bytes(value.as_bytes(), sink)
}

/// Reads a string: a length varint and so many bytes of UTF-8.
///
/// Bytes that lie together are looked at where they lie; either way they are copied once.
///
/// # Errors
/// In this order: those of a varint, [`DecodeError::UnexpectedEof`] where the length passes what is
/// left, [`DecodeError::InvalidUtf8`]; or [`DecodeError::OutOfMemory`]. What follows a length that passes the end
/// stays unread then, and what follows the string.
///
/// ```ignore
/// let word = decode_string(alloc, &mut rest)?; // of 02 6F 6B: "ok"
/// ```
#[tactic(auto, using(crate::proofs::TailLemmas::tail_more))]
pub fn decode_string<B: Buf>(alloc: Global, buf: &mut B) -> Result<String, DecodeError>
    ensures reads { GivesUnlessFull (λ s. (string_bytes s, B.unread buf.new)) result (string_at (B.unread buf.old)) }
    ensures free { (rest : List ℕ) → delimited_at (B.unread buf.old) ≡ Ok ([], rest) → IsOk result }
    ensures full { FullOnlyIf result (IsOk (delimited_at (B.unread buf.old))) }
    ensures kept { B.beyond buf.new ≡ B.beyond buf.old }
    ensures left { LeavesUnlessFull result (past_no_delimited (B.unread buf.old)) (B.unread buf.new) }
    ensures tail { IsTailOf (B.unread buf.new) (B.unread buf.old) }
{
    let len = decode_varint(buf)?;
    if let Some(part) = front(buf, len) {
        let read = <String as ProtoString>::from_wire(alloc, part);
        buf.advance(len as usize);
        return read;
    }
    let bytes = copy_bytes(alloc, buf, len)?;
    match String::from_utf8(bytes) {
        Ok(text) => Ok(text),
        Err(_) => Err(DecodeError::InvalidUtf8),
    }
}

/// The length of a bytes value's encoding: the length varint and the bytes.
///
/// ```ignore
/// let len = bytes_encoded_len(b"a"); // 2
/// ```
pub fn bytes_encoded_len(value: &[u8]) -> usize
    ensures { result ≡ length (delimited_encoding value.now) }
{
    prefix_len(value.len() as u64) + value.len()
}

/// Writes bytes: the length as a varint, and the bytes.
///
/// # Errors
/// [`EncodeError::OutOfMemory`] alone, after a beginning of the encoding.
///
/// ```ignore
/// encode_bytes(b"a", &mut sink)?; // 01 61
/// ```
#[inline(always)]
#[tactic(auto, using(crate::proofs::SinkLemmas::writes_then, crate::proofs::SinkLemmas::front_first, crate::proofs::SinkLemmas::room_then))]
pub fn encode_bytes<S: EncodeSink>(value: &[u8], sink: &mut S) -> Result<(), EncodeError>
    ensures writes { Writes result (S.written sink.old) (delimited_encoding value.now) (S.written sink.new) }
    ensures room { UsesRoom result (S.room sink.old) (delimited_encoding value.now) (S.room sink.new) }
{
    encode_varint(value.len() as u64, sink)?;
    sink.put_slice(value)
}

/// Reads bytes: a length varint and so many bytes.
///
/// # Errors
/// In this order: those of a varint, [`DecodeError::UnexpectedEof`] where the length passes what is left;
/// or [`DecodeError::OutOfMemory`]. What follows a length that passes the end stays unread then, and what follows
/// the bytes.
///
/// ```ignore
/// let one = decode_bytes(alloc, &mut rest)?; // of 01 61: "a"
/// ```
#[tactic(auto, using(crate::proofs::TailLemmas::tail_more))]
pub fn decode_bytes<B: Buf>(alloc: Global, buf: &mut B) -> Result<Vec<u8>, DecodeError>
    ensures reads { GivesUnlessFull (λ v. (v.items, B.unread buf.new)) result (delimited_at (B.unread buf.old)) }
    ensures free { (rest : List ℕ) → delimited_at (B.unread buf.old) ≡ Ok ([], rest) → IsOk result }
    ensures full { FullOnlyIf result (IsOk (delimited_at (B.unread buf.old))) }
    ensures kept { B.beyond buf.new ≡ B.beyond buf.old }
    ensures left { LeavesUnlessFull result (past_no_delimited (B.unread buf.old)) (B.unread buf.new) }
    ensures tail { IsTailOf (B.unread buf.new) (B.unread buf.old) }
{
    let len = decode_varint(buf)?;
    copy_bytes(alloc, buf, len)
}

/// Reads bytes into a buffer that can be shared.
///
/// # Errors
/// As [`decode_bytes`].
///
/// ```ignore
/// let shared = decode_bytes_to_bytes(alloc, &mut rest)?; // of 01 62: "b"
/// ```
pub fn decode_bytes_to_bytes<B: Buf>(alloc: Global, buf: &mut B) -> Result<Bytes, DecodeError>
    ensures reads { GivesUnlessFull (λ b. (b, B.unread buf.new)) result (delimited_at (B.unread buf.old)) }
    ensures free { (rest : List ℕ) → delimited_at (B.unread buf.old) ≡ Ok ([], rest) → IsOk result }
    ensures full { FullOnlyIf result (IsOk (delimited_at (B.unread buf.old))) }
    ensures kept { B.beyond buf.new ≡ B.beyond buf.old }
    ensures left { LeavesUnlessFull result (past_no_delimited (B.unread buf.old)) (B.unread buf.new) }
    ensures tail { IsTailOf (B.unread buf.new) (B.unread buf.old) }
{
    let bytes = decode_bytes(alloc, buf)?;
    Ok(Bytes::from_vec(bytes)?)
}

/// Reads a length varint, and gives so many bytes to a function: where they lie, or else put together first.
///
/// The function is called once where the bytes are there. Where they aren't, or memory ran out before, it isn't called.
///
/// # Errors
/// In this order: those of a varint, [`DecodeError::UnexpectedEof`] where the length passes what is left;
/// [`DecodeError::OutOfMemory`], where there is a byte or more; or the function's. What follows a length that passes the
/// end stays unread then, and what follows the bytes. The contract leaves open whether bytes that lie together are copied.
///
/// ```ignore
/// with_delimited(alloc, buf, &mut |bytes: &[u8]| P::from_wire(alloc, bytes)) // of 02 DE AD: what P makes of DE AD
/// ```
#[inline(always)]
#[tactic(auto, using(crate::proofs::TailLemmas::tail_more))]
pub fn with_delimited<B: Buf, T, F: FnMut(&[u8]) -> Result<T, DecodeError>>(
    alloc: Global,
    buf: &mut B,
    read: &mut F,
) -> Result<T, DecodeError>
    requires { (p rest : List ℕ) → delimited_at (B.unread buf.old) ≡ Ok (p, rest) → TakesAt F.FnMut read.old p }
    ensures lends { Lends F.FnMut read.old (delimited_at (B.unread buf.old)) result read.new (B.unread buf.new) }
    ensures kept { B.beyond buf.new ≡ B.beyond buf.old }
    ensures left { LeavesUnlessFull result (past_no_delimited (B.unread buf.old)) (B.unread buf.new) }
    ensures tail { IsTailOf (B.unread buf.new) (B.unread buf.old) }
{
    let len = decode_varint(buf)?;
    if let Some(bytes) = front(buf, len) {
        let answer = read(bytes);
        buf.advance(len as usize);
        return answer;
    }
    let bytes = copy_bytes(alloc, buf, len)?;
    read(&bytes)
}

/// Reads a string into a type of one's own, by [`with_delimited`] and [`ProtoString::from_wire`].
///
/// # Errors
/// As [`decode_string`].
///
/// ```ignore
/// let own = decode_string_to::<String, _>(alloc, &mut rest)?; // of 02 6F 6E: "on"
/// ```
pub fn decode_string_to<S: ProtoString, B: Buf>(
    alloc: Global,
    buf: &mut B,
) -> Result<S, DecodeError>
    ensures reads { GivesUnlessFull (λ s. (S.meaning s, B.unread buf.new)) result
        (string_as S.of_text (B.unread buf.old)) }
    ensures free { (rest : List ℕ) → delimited_at (B.unread buf.old) ≡ Ok ([], rest) → IsOk result }
    ensures full { FullOnlyIf result (IsOk (delimited_at (B.unread buf.old))) }
    ensures kept { B.beyond buf.new ≡ B.beyond buf.old }
    ensures left { LeavesUnlessFull result (past_no_delimited (B.unread buf.old)) (B.unread buf.new) }
    ensures tail { IsTailOf (B.unread buf.new) (B.unread buf.old) }
{
    with_delimited(alloc, buf, &mut |bytes: &[u8]| S::from_wire(alloc, bytes))
}

/// Reads bytes into a type of one's own, by [`with_delimited`] and [`ProtoBytes::from_wire`].
///
/// # Errors
/// As [`decode_bytes`].
///
/// ```ignore
/// let own = decode_bytes_to::<Vec<u8>, _>(alloc, &mut rest)?; // of 01 63: "c"
/// ```
pub fn decode_bytes_to<P: ProtoBytes, B: Buf>(alloc: Global, buf: &mut B) -> Result<P, DecodeError>
    ensures reads { GivesUnlessFull (λ p. (P.meaning p, B.unread buf.new)) result
        (bytes_as P.of_bytes (B.unread buf.old)) }
    ensures free { (rest : List ℕ) → delimited_at (B.unread buf.old) ≡ Ok ([], rest) → IsOk result }
    ensures full { FullOnlyIf result (IsOk (delimited_at (B.unread buf.old))) }
    ensures kept { B.beyond buf.new ≡ B.beyond buf.old }
    ensures left { LeavesUnlessFull result (past_no_delimited (B.unread buf.old)) (B.unread buf.new) }
    ensures tail { IsTailOf (B.unread buf.new) (B.unread buf.old) }
{
    with_delimited(alloc, buf, &mut |bytes: &[u8]| P::from_wire(alloc, bytes))
}
