//! How one number is spelled in a payload: as a varint, or in four or eight bytes.

ghost use Rattle.std.specs.Prelude.{◌≡◌, ◌<◌, ◌^◌, ℕ, List, IfOk, IfSome, None, OnErr, Option, Some, length};
ghost use Rattle.std.specs.Prelude.{refl};
ghost use Rattle.buffa_wire.specs.Records.{FieldData, bytes, fixed32, fixed64, varint};
ghost use Rattle.buffa_wire.specs.RecordsOfValues.{field_data_of};
ghost use Rattle.buffa_wire.specs.NumberInRecord.{fixed32_in, fixed32_only, fixed64_in, fixed64_only, varint_in, varint_only};
ghost use Rattle.buffa_bytes.specs.declared.wire_type.WireType.{WireType};
ghost use Rattle.buffa_bytes.specs.PayloadValue.{HasPayloadValue, payload_value_at};
ghost use Rattle.buffa_bytes.specs.PayloadValue.PayloadValue.{number};
ghost use Rattle.buffa_bytes.specs.Readings.{Gives};
ghost use Rattle.buffa_bytes.specs.Unread.{past_no_payload, IsTailOf};
ghost use Rattle.buffa_bytes.specs.Written.{UsesRoom, Writes};

use crate::sealed::Sealed;
use crate::short::write_varint;
use crate::unknown_fields::UnknownFieldData;
use buffa_bytes::types::{decode_fixed32, decode_fixed64, encode_fixed32, encode_fixed64};
use buffa_bytes::varint::read_varint;
use buffa_bytes::{Buf, DecodeError, EncodeError, EncodeSink, WireType, varint_len};

/// A spelling of numbers.
///
/// ```ignore
/// type Form = <Sint64 as Scalar>::Form; // in an impl of Numbered
/// ```
pub trait Form: Sealed {
    /// The wire type of the payloads.
    const WIRE_TYPE: WireType;

    ghost WIRE_TYPE: { WireType };

    /// The numbers that can be spelled.
    ghost spells: { ℕ → Type 0 };

    /// The encoding of a number.
    ghost encoding: { ℕ → List ℕ };

    /// Reads the number at the front. It takes no memory.
    ///
    /// # Errors
    /// [`DecodeError::UnexpectedEof`], and of varints [`DecodeError::VarintTooLong`]. What follows the tenth byte of a
    /// varint stays unread then, and all of other bytes.
    fn read<B: Buf>(buf: &mut B) -> Result<u64, DecodeError>
        ensures reads { Gives (λ n. (number n, B.unread buf.new)) result (payload_value_at WIRE_TYPE (B.unread buf.old)) }
        ensures spelled { IfOk result spells }
        ensures kept { B.beyond buf.new ≡ B.beyond buf.old }
        ensures left { OnErr result (B.unread buf.new ≡ past_no_payload WIRE_TYPE (B.unread buf.old)) }
        ensures tail { IsTailOf (B.unread buf.new) (B.unread buf.old) };

    /// The length of a number's encoding in bytes, 1 to 10; the number has to be one that can be spelled.
    fn len(n: u64) -> u64
        requires { spells n }
        ensures { result ≡ length (encoding n) };

    /// Writes a number, which has to be one that can be spelled.
    ///
    /// # Errors
    /// [`EncodeError::OutOfMemory`] alone, after a beginning of the encoding.
    fn write<S: EncodeSink>(n: u64, sink: &mut S) -> Result<(), EncodeError>
        requires { spells n }
        ensures writes { Writes result (S.written sink.old) (encoding n) (S.written sink.new) }
        ensures room { UsesRoom result (S.room sink.old) (encoding n) (S.room sink.new) };

    /// The record data of a number.
    ghost field_data: { ℕ → FieldData };

    /// The number of record data of this form.
    ghost found: { FieldData → Option ℕ };

    /// The number in a record of this form.
    fn in_record(held: &UnknownFieldData) -> Option<u64>
        ensures found { result ≡ found (field_data_of held.now) }
        ensures spelled { IfSome result spells };

    /// The record data of a number.
    fn record_of(n: u64) -> UnknownFieldData
        requires { spells n }
        ensures { field_data_of result ≡ field_data n };

    /// The encoding of a number holds it.
    ghost reads_back: { (n : ℕ) → spells n → HasPayloadValue WIRE_TYPE (encoding n) (number n) };

    /// The record of a number has it.
    ghost kept: { (n : ℕ) → found (field_data n) ≡ Some n };

    /// No other record has it.
    ghost only: { (d : FieldData) (n : ℕ) → found d ≡ Some n → d ≡ field_data n };

    /// A record of bytes has no number.
    ghost bytes_other: { (bs : List ℕ) → found (bytes bs) ≡ None };
}

/// A varint.
///
/// ```ignore
/// type Form = Varint;
/// ```
pub struct Varint;

impl Sealed for Varint {}

impl Form for Varint {
    ghost use Rattle.buffa_bytes.proofs.VarintLemmas.{IsVarint-varint_encoding};
    ghost use Rattle.buffa_bytes.specs.Varint.{varint_encoding};

    const WIRE_TYPE: WireType = WireType::Varint;

    ghost WIRE_TYPE = { WireType.Varint };

    ghost spells = { λ n. n < 2 ^ 64 };

    ghost encoding = { varint_encoding };

    ghost field_data = { varint };

    ghost found = { varint_in };

    #[tactic(auto, unfolding(buffa_bytes::specs::Unread::past_no_payload))]
    fn read<B: Buf>(buf: &mut B) -> Result<u64, DecodeError> {
        read_varint(buf)
    }

    fn len(n: u64) -> u64 {
        varint_len(n) as u64
    }

    #[inline(always)]
    fn write<S: EncodeSink>(n: u64, sink: &mut S) -> Result<(), EncodeError> {
        write_varint(n, sink)
    }

    fn in_record(held: &UnknownFieldData) -> Option<u64> {
        match held {
            UnknownFieldData::Varint(n) => Some(*n),
            _ => None,
        }
    }

    fn record_of(n: u64) -> UnknownFieldData {
        UnknownFieldData::Varint(n)
    }

    ghost reads_back = { IsVarint-varint_encoding };

    ghost kept = { λ n. refl };

    ghost only = { varint_only };

    ghost bytes_other = { λ bs. refl };
}

/// Four bytes, the lowest first.
///
/// ```ignore
/// type Form = FourBytes;
/// ```
pub struct FourBytes;

impl Sealed for FourBytes {}

impl Form for FourBytes {
    ghost use Rattle.std.proofs.Common.{sym};
    ghost use Rattle.std.specs.Int.{to_le_bytes, w32};
    ghost use Rattle.std.proofs.lemmas.Nat.{from_le_bytes-to_le_bytes_4};

    const WIRE_TYPE: WireType = WireType::Fixed32;

    ghost WIRE_TYPE = { WireType.Fixed32 };

    ghost spells = { λ n. n < 2 ^ 32 };

    ghost encoding = { to_le_bytes w32 };

    ghost field_data = { fixed32 };

    ghost found = { fixed32_in };

    #[tactic(auto, unfolding(buffa_bytes::specs::Unread::past_no_payload))]
    fn read<B: Buf>(buf: &mut B) -> Result<u64, DecodeError> {
        Ok(u64::from(decode_fixed32(buf)?))
    }

    fn len(_n: u64) -> u64 {
        4
    }

    fn write<S: EncodeSink>(n: u64, sink: &mut S) -> Result<(), EncodeError> {
        encode_fixed32(n as u32, sink)
    }

    fn in_record(held: &UnknownFieldData) -> Option<u64> {
        match held {
            UnknownFieldData::Fixed32(n) => Some(u64::from(*n)),
            _ => None,
        }
    }

    fn record_of(n: u64) -> UnknownFieldData {
        UnknownFieldData::Fixed32(n as u32)
    }

    ghost reads_back = { λ n h. (refl, sym (from_le_bytes-to_le_bytes_4 n h)) };

    ghost kept = { λ n. refl };

    ghost only = { fixed32_only };

    ghost bytes_other = { λ bs. refl };
}

/// Eight bytes, the lowest first.
///
/// ```ignore
/// type Form = EightBytes;
/// ```
pub struct EightBytes;

impl Sealed for EightBytes {}

impl Form for EightBytes {
    ghost use Rattle.std.proofs.Common.{sym};
    ghost use Rattle.std.specs.Int.{to_le_bytes, w64};
    ghost use Rattle.std.proofs.lemmas.Nat.{from_le_bytes-to_le_bytes_8};

    const WIRE_TYPE: WireType = WireType::Fixed64;

    ghost WIRE_TYPE = { WireType.Fixed64 };

    ghost spells = { λ n. n < 2 ^ 64 };

    ghost encoding = { to_le_bytes w64 };

    ghost field_data = { fixed64 };

    ghost found = { fixed64_in };

    #[tactic(auto, unfolding(buffa_bytes::specs::Unread::past_no_payload))]
    fn read<B: Buf>(buf: &mut B) -> Result<u64, DecodeError> {
        decode_fixed64(buf)
    }

    fn len(_n: u64) -> u64 {
        8
    }

    fn write<S: EncodeSink>(n: u64, sink: &mut S) -> Result<(), EncodeError> {
        encode_fixed64(n, sink)
    }

    fn in_record(held: &UnknownFieldData) -> Option<u64> {
        match held {
            UnknownFieldData::Fixed64(n) => Some(*n),
            _ => None,
        }
    }

    fn record_of(n: u64) -> UnknownFieldData {
        UnknownFieldData::Fixed64(n)
    }

    ghost reads_back = { λ n h. (refl, sym (from_le_bytes-to_le_bytes_8 n h)) };

    ghost kept = { λ n. refl };

    ghost only = { fixed64_only };

    ghost bytes_other = { λ bs. refl };
}
