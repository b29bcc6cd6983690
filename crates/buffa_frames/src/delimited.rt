//! Messages behind their lengths.

ghost use Rattle.std.specs.Prelude.{◌≡◌, ◌≢◌, ◌<◌, ◌≤◌, ◌^◌, ◌++◌, ℕ, List, IfErr, IfOk, OnErr, OnOk, Ok, length};
ghost use Rattle.buffa_bytes.specs.Readings.{FullOnlyIf, delimited_at};
ghost use Rattle.buffa_bytes.specs.Unread.{LeavesUnlessFull, past_no_delimited};
ghost use Rattle.buffa_bytes.specs.Values.{delimited_encoding};
ghost use Rattle.buffa_bytes.specs.declared.error.DecodeError.TheVariants.{OutOfMemory};
ghost use Rattle.buffa_bytes.specs.declared.error.EncodeError.TheVariants as error;
ghost use Rattle.buffa_wire.specs.BudgetLeft.{defaults};
ghost use Rattle.buffa_wire.specs.Message.{BeginsField, PartlyMerged};
ghost use Rattle.buffa_wire.specs.Passes.{IsSmall};
ghost use Rattle.buffa_frames.specs.Delimited.{LengthDelimitedFault, MeansInside, UnwrittenFrame};

use buffa_wire::message::MAX_MESSAGE_BYTES;
use buffa_wire::{
    Decode, DecodeError, EncodeError, EncodeSink, RECURSION_LIMIT, SizeCache, decode_varint,
    encode_varint,
};
use std::alloc::Global;

/// What writes a message behind its length, and reads it so, for each type of messages.
///
/// ```ignore
/// swatch.try_encode_length_delimited(alloc, &mut log)?;
/// ```
pub trait Delimited: Decode {
    /// Writes the length of the encoding, a varint, and the encoding, behind what the sink holds.
    ///
    /// # Errors
    /// [`EncodeError::MessageTooLarge`] where the encoding is longer than [`MAX_MESSAGE_BYTES`], and nothing is written then; or
    /// [`EncodeError::OutOfMemory`], behind a beginning of what was to be written, and not all of it. The contract leaves open
    /// when memory runs out.
    ///
    /// ```ignore
    /// swatch.try_encode_length_delimited(alloc, &mut log)?; // of 08 01: 02 08 01
    /// ```
    final fn try_encode_length_delimited<S: EncodeSink>(
        &self,
        alloc: Global,
        sink: &mut S,
    ) -> Result<(), EncodeError>
        ensures written { OnOk result (S.written sink.new
            ≡ S.written sink.old ++ delimited_encoding (Self.encoding (Self.meaning self.now))) }
        ensures small { OnOk result (IsSmall (Self.encoding (Self.meaning self.now))) }
        ensures err { IfErr result (λ e. UnwrittenFrame (Self.encoding (Self.meaning self.now)) (S.written sink.old)
            (S.written sink.new) e) }
    {
        let mut cache = SizeCache::new(alloc);
        let size = self.compute_size(&mut cache)?;
        if size > MAX_MESSAGE_BYTES {
            return Err(EncodeError::MessageTooLarge);
        }
        encode_varint(u64::from(size), sink)?;
        self.write_to(&mut cache, sink)
    }

    /// The same behind the bytes of a vector, which stays as it was where the message isn't written.
    ///
    /// # Errors
    /// Those of [`Delimited::try_encode_length_delimited`].
    ///
    /// ```ignore
    /// Swatch::blank(alloc).try_append_length_delimited(alloc, &mut log)?; // 00
    /// ```
    final fn try_append_length_delimited(
        &self,
        alloc: Global,
        bytes: &mut Vec<u8>,
    ) -> Result<(), EncodeError>
        ensures written { OnOk result (bytes.new.items
            ≡ bytes.old.items ++ delimited_encoding (Self.encoding (Self.meaning self.now))) }
        ensures small { OnOk result (IsSmall (Self.encoding (Self.meaning self.now))) }
        ensures err { OnErr result (bytes.new.items ≡ bytes.old.items) }
        ensures which { IfErr result (λ e. e ≢ error.OutOfMemory → (e ≡ error.MessageTooLarge)
            × (2 ^ 31 ≤ length (Self.encoding (Self.meaning self.now)))) }
    {
        let held = bytes.len();
        let answer = self.try_encode_length_delimited(alloc, bytes);
        if answer.is_err() {
            bytes.truncate(held);
        }
        answer
    }

    /// Reads a length, a varint, and the message that so many bytes mean, at most [`RECURSION_LIMIT`] deep, under a default
    /// budget. What follows the message is left.
    ///
    /// # Errors
    /// In this order: the length's faults, [`DecodeError::UnexpectedEof`] where it passes the end, and those of
    /// [`Decode::decode_from_slice`]. What follows the first ten bytes is left then, what follows the length, or what follows
    /// the message.
    ///
    /// ```ignore
    /// let swatch = Swatch::decode_length_delimited(alloc, &mut rest)?; // of 02 08 01 00: leaves 00
    /// ```
    final fn decode_length_delimited(alloc: Global, buf: &mut &[u8]) -> Result<Self, DecodeError>
        ensures ok { IfOk result (λ m. MeansInside (Self.merged RECURSION_LIMIT Self.blank_is) (Self.cost RECURSION_LIMIT)
            buf.old.now (Self.meaning m) buf.new.now) }
        ensures fault { IfErr result (λ e. e ≢ OutOfMemory →
            LengthDelimitedFault (Self.merged RECURSION_LIMIT Self.blank_is) (Self.cost RECURSION_LIMIT) buf.old.now e) }
        // Of a message that is refused its type says why.
        ensures which { IfErr result (λ e. (body rest : List ℕ) → delimited_at buf.old.now ≡ Ok (body, rest) →
            (m : Self.Meaning) × PartlyMerged Self.merged Self.cost Self.Refused RECURSION_LIMIT Self.blank_is body defaults e m) }
        ensures full { FullOnlyIf result ((body : List ℕ) × (rest : List ℕ) × (delimited_at buf.old.now ≡ Ok (body, rest))
            × BeginsField body) }
        ensures left { OnErr result (buf.new.now ≡ past_no_delimited buf.old.now) }
    {
        let length = decode_varint(buf)?;
        let all: &[u8] = *buf;
        if length > all.len() as u64 {
            return Err(DecodeError::UnexpectedEof);
        }
        let (body, rest) = all.split_at(length as usize);
        *buf = rest;
        Self::decode_from_slice(alloc, body)
    }
}

impl<M: Decode> Delimited for M {}
