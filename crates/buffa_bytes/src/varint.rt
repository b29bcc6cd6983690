//! Varints: seven bits a byte, the lowest first.

ghost use Rattle.std.specs.Prelude.{◌≡◌, ◌<◌, ◌≤◌, ◌∷◌, [], Ok, drop, length, IfSome, MatchOption, OnErr};
ghost use Rattle.buffa_bytes.specs.Unread.{past_no_varint, IsTailOf};
ghost use Rattle.buffa_bytes.specs.Readings.{varint_at, Gives};
ghost use Rattle.buffa_bytes.specs.Varint.{varint_encoding};
ghost use Rattle.buffa_bytes.specs.Written.{UsesRoom, Writes};

use crate::buf::Buf;
use crate::error::{DecodeError, EncodeError};
use crate::sink::EncodeSink;

/// Takes the next byte, where one is left.
///
/// ```ignore
/// let seven = take_byte(&mut rest); // of 07: Some(7)
/// ```
#[tactic(auto, using(crate::proofs::TailLemmas::tail_whole, crate::proofs::TailLemmas::tail_dropped))]
pub fn take_byte<B: Buf>(buf: &mut B) -> Option<u8>
    ensures taken { MatchOption result ((B.unread buf.old ≡ []) × (B.unread buf.new ≡ []))
        (λ byte. B.unread buf.old ≡ byte ∷ B.unread buf.new) }
    ensures kept { B.beyond buf.new ≡ B.beyond buf.old }
    ensures tail { IsTailOf (B.unread buf.new) (B.unread buf.old) }
{
    let byte = *buf.chunk().first()?;
    buf.advance(1);
    Some(byte)
}

/// Reads a varint: 1 to 10 bytes, in the shortest spelling or a longer one.
///
/// # Errors
/// [`DecodeError::UnexpectedEof`] where the bytes end before a byte below 128 and fewer than ten were
/// there; [`DecodeError::VarintTooLong`] where the tenth byte is neither 0 nor 1. What follows the tenth byte stays
/// unread then. It takes no memory.
///
/// Source: the protobuf encoding guide, "Base 128 Varints".
///
/// ```ignore
/// let number = decode_varint(&mut rest)?; // of 96 01: 150
/// ```
#[tactic(auto, unfolding(crate::specs::Readings::varint_at, crate::specs::Readings::varint_within))]
#[inline]
pub fn decode_varint<B: Buf>(buf: &mut B) -> Result<u64, DecodeError>
    ensures reads { Gives (λ n. (n, B.unread buf.new)) result (varint_at (B.unread buf.old)) }
    ensures kept { B.beyond buf.new ≡ B.beyond buf.old }
    ensures left { OnErr result (B.unread buf.new ≡ past_no_varint (B.unread buf.old)) }
    ensures tail { IsTailOf (B.unread buf.new) (B.unread buf.old) }
{
    match take_small(buf) {
        Some(digit) => Ok(u64::from(digit)),
        None => decode_digits(buf),
    }
}

// Takes the next byte, where one is left and it ends a varint.
#[tactic(auto, using(crate::proofs::TailLemmas::tail_whole, crate::proofs::TailLemmas::tail_dropped))]
#[inline(always)]
fn take_small<B: Buf>(buf: &mut B) -> Option<u8>
    ensures taken { MatchOption result (B.unread buf.new ≡ B.unread buf.old)
        (λ digit. (digit < 128) × (B.unread buf.old ≡ digit ∷ B.unread buf.new)) }
    ensures kept { B.beyond buf.new ≡ B.beyond buf.old }
    ensures tail { IsTailOf (B.unread buf.new) (B.unread buf.old) }
{
    let digit = *buf.chunk().first()?;
    if digit >= 128 {
        return None;
    }
    buf.advance(1);
    Some(digit)
}

// Reads a varint byte by byte.
#[inline(never)]
fn decode_digits<B: Buf>(buf: &mut B) -> Result<u64, DecodeError>
    ensures reads { Gives (λ n. (n, B.unread buf.new)) result (varint_at (B.unread buf.old)) }
    ensures kept { B.beyond buf.new ≡ B.beyond buf.old }
    ensures left { OnErr result (B.unread buf.new ≡ past_no_varint (B.unread buf.old)) }
    ensures tail { IsTailOf (B.unread buf.new) (B.unread buf.old) }
{
    let mut value: u64 = 0;
    let mut scale: u64 = 1;
    for place in 0..10u32 {
        let Some(byte) = take_byte(buf) else {
            return Err(DecodeError::UnexpectedEof);
        };
        if place == 9 && byte > 1 {
            return Err(DecodeError::VarintTooLong);
        }
        value += u64::from(byte % 128) * scale;
        if byte < 128 {
            return Ok(value);
        }
        scale *= 128;
    }
    unreachable!()
}

// The varint at the front, where it has one to three bytes, and how many they are.
#[inline(always)]
fn short_at(bytes: &[u8]) -> Option<(u64, usize)>
    ensures reads { IfSome result (λ r. varint_at bytes.now ≡ Ok (r.0, drop r.1 bytes.now)) }
    ensures within { IfSome result (λ r. r.1 ≤ length bytes.now) }
{
    let (first, rest) = bytes.split_first()?;
    if *first < 128 {
        return Some((u64::from(*first), 1));
    }
    let (second, rest) = rest.split_first()?;
    if *second < 128 {
        return Some((u64::from(*first % 128) + u64::from(*second) * 128, 2));
    }
    let (third, _) = rest.split_first()?;
    if *third < 128 {
        let low = u64::from(*first % 128) + u64::from(*second % 128) * 128;
        return Some((low + u64::from(*third) * 16_384, 3));
    }
    None
}

/// Reads a varint, as [`decode_varint`] does: where one to three bytes of it lie together they are looked at where they lie.
///
/// # Errors
/// Those of [`decode_varint`].
///
/// ```ignore
/// let number = read_varint(buf)?;
/// ```
#[inline(always)]
pub fn read_varint<B: Buf>(buf: &mut B) -> Result<u64, DecodeError>
    ensures reads { Gives (λ n. (n, B.unread buf.new)) result (varint_at (B.unread buf.old)) }
    ensures kept { B.beyond buf.new ≡ B.beyond buf.old }
    ensures left { OnErr result (B.unread buf.new ≡ past_no_varint (B.unread buf.old)) }
    ensures tail { IsTailOf (B.unread buf.new) (B.unread buf.old) }
{
    let Some((n, len)) = short_at(buf.chunk()) else {
        return decode_varint(buf);
    };
    buf.advance(len);
    Ok(n)
}

/// Writes the shortest spelling of a number, 1 to 10 bytes.
///
/// # Errors
/// [`EncodeError::OutOfMemory`] alone, after a beginning of the spelling.
///
/// ```ignore
/// encode_varint(300, &mut sink)?; // AC 02
/// ```
#[tactic(auto, using(crate::proofs::ShortestLemmas::v_laws))]
pub fn encode_varint<S: EncodeSink>(n: u64, sink: &mut S) -> Result<(), EncodeError>
    ensures writes { Writes result (S.written sink.old) (varint_encoding n) (S.written sink.new) }
    ensures room { UsesRoom result (S.room sink.old) (varint_encoding n) (S.room sink.new) }
{
    let mut rest = n;
    while rest >= 128 {
        sink.put_byte((rest % 128) as u8 + 128)?;
        rest /= 128;
    }
    sink.put_byte(rest as u8)
}

/// The length of the shortest spelling of a number, 1 to 10 bytes.
///
/// ```ignore
/// let len = varint_len(300); // 2
/// ```
pub fn varint_len(n: u64) -> usize
    ensures { result ≡ length (varint_encoding n) }
{
    let bits = 64 - (n | 1).leading_zeros();
    ((bits * 9 + 64) / 64) as usize
}

/// The length of a length prefix, 1 to 10 bytes: that of its varint. Most lengths are below 128, and have one byte.
///
/// ```ignore
/// let prefix = prefix_len(len); // 1 for 3
/// ```
#[tactic(auto, using(crate::proofs::ShortestLemmas::v_laws))]
#[inline(always)]
pub fn prefix_len(len: u64) -> usize
    ensures { result ≡ length (varint_encoding len) }
{
    if len < 128 { 1 } else { varint_len(len) }
}
