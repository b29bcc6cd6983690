//! Short varints, written in one step.
//!
//! Most numbers have one to three bytes, and a sink is handed these at once.

ghost use Rattle.std.specs.Prelude.{◌++◌};
ghost use Rattle.buffa_bytes.specs.Scalars.{fixed32_encoding, fixed64_encoding};
ghost use Rattle.buffa_bytes.specs.Values.{delimited_encoding};
ghost use Rattle.buffa_bytes.specs.Varint.{varint_encoding};
ghost use Rattle.buffa_bytes.specs.Written.{UsesRoom, Writes};

use buffa_bytes::{EncodeError, EncodeSink, encode_varint, types};

/// Writes a varint, as [`encode_varint`] does.
///
/// # Errors
/// Those of [`encode_varint`].
#[inline(always)]
pub(crate) fn write_varint<S: EncodeSink>(n: u64, sink: &mut S) -> Result<(), EncodeError>
    ensures writes { Writes result (S.written sink.old) (varint_encoding n) (S.written sink.new) }
    ensures room { UsesRoom result (S.room sink.old) (varint_encoding n) (S.room sink.new) }
{
    if n < 128 {
        return sink.put_byte(n as u8);
    }
    let low = (n % 128) as u8 + 128;
    if n < 16_384 {
        return sink.put_slice(&[low, (n / 128) as u8]);
    }
    if n < 2_097_152 {
        return sink.put_slice(&[low, (n / 128 % 128) as u8 + 128, (n / 16_384) as u8]);
    }
    encode_varint(n, sink)
}

/// Writes two varints, one behind the other.
///
/// # Errors
/// Those of [`encode_varint`].
#[inline(always)]
#[tactic(auto, using(buffa_bytes::proofs::SinkLemmas::writes_then, buffa_bytes::proofs::SinkLemmas::front_first, buffa_bytes::proofs::SinkLemmas::room_then))]
pub(crate) fn write_two<S: EncodeSink>(m: u64, n: u64, sink: &mut S) -> Result<(), EncodeError>
    ensures writes { Writes result (S.written sink.old) (varint_encoding m ++ varint_encoding n) (S.written sink.new) }
    ensures room { UsesRoom result (S.room sink.old) (varint_encoding m ++ varint_encoding n) (S.room sink.new) }
{
    if m < 128 && n < 2_097_152 {
        let first = m as u8;
        if n < 128 {
            return sink.put_slice(&[first, n as u8]);
        }
        let low = (n % 128) as u8 + 128;
        if n < 16_384 {
            return sink.put_slice(&[first, low, (n / 128) as u8]);
        }
        return sink.put_slice(&[first, low, (n / 128 % 128) as u8 + 128, (n / 16_384) as u8]);
    }
    encode_varint(m, sink)?;
    encode_varint(n, sink)
}

/// Writes a varint and four bytes behind it, the lowest first.
///
/// # Errors
/// Those of [`encode_varint`].
#[inline(always)]
#[tactic(auto, using(buffa_bytes::proofs::SinkLemmas::writes_then, buffa_bytes::proofs::SinkLemmas::front_first, buffa_bytes::proofs::SinkLemmas::room_then))]
pub(crate) fn write_fixed32<S: EncodeSink>(
    m: u64,
    value: u32,
    sink: &mut S,
) -> Result<(), EncodeError>
    ensures writes { Writes result (S.written sink.old) (varint_encoding m ++ fixed32_encoding value) (S.written sink.new) }
    ensures room { UsesRoom result (S.room sink.old) (varint_encoding m ++ fixed32_encoding value) (S.room sink.new) }
{
    if m < 128 {
        let [a, b, c, d] = u32::to_le_bytes(value);
        return sink.put_slice(&[m as u8, a, b, c, d]);
    }
    encode_varint(m, sink)?;
    types::encode_fixed32(value, sink)
}

/// Writes a varint and eight bytes behind it, the lowest first.
///
/// # Errors
/// Those of [`encode_varint`].
#[inline(always)]
#[tactic(auto, using(buffa_bytes::proofs::SinkLemmas::writes_then, buffa_bytes::proofs::SinkLemmas::front_first, buffa_bytes::proofs::SinkLemmas::room_then))]
pub(crate) fn write_fixed64<S: EncodeSink>(
    m: u64,
    value: u64,
    sink: &mut S,
) -> Result<(), EncodeError>
    ensures writes { Writes result (S.written sink.old) (varint_encoding m ++ fixed64_encoding value) (S.written sink.new) }
    ensures room { UsesRoom result (S.room sink.old) (varint_encoding m ++ fixed64_encoding value) (S.room sink.new) }
{
    if m < 128 {
        let [a, b, c, d, e, f, g, h] = u64::to_le_bytes(value);
        return sink.put_slice(&[m as u8, a, b, c, d, e, f, g, h]);
    }
    encode_varint(m, sink)?;
    types::encode_fixed64(value, sink)
}

/// Writes a varint, a length and so many bytes.
///
/// # Errors
/// Those of [`encode_varint`].
#[inline(always)]
#[tactic(auto, using(buffa_bytes::proofs::SinkLemmas::writes_then, buffa_bytes::proofs::SinkLemmas::front_first, buffa_bytes::proofs::SinkLemmas::room_then))]
pub(crate) fn write_bytes<S: EncodeSink>(
    m: u64,
    value: &[u8],
    sink: &mut S,
) -> Result<(), EncodeError>
    ensures writes { Writes result (S.written sink.old) (varint_encoding m ++ delimited_encoding value.now) (S.written sink.new) }
    ensures room { UsesRoom result (S.room sink.old) (varint_encoding m ++ delimited_encoding value.now) (S.room sink.new) }
{
    write_two(m, value.len() as u64, sink)?;
    sink.put_slice(value)
}
