//! How records hold the encodings of messages: in bytes, or as a group.

ghost use Rattle.std.specs.Prelude.{◌≡◌, ◌≢◌, ℕ, List, [], ◌∷◌, Option, Some, None, IfErr, IfOk, IsOk, OnErr, refl};
ghost use Rattle.buffa_bytes.specs.declared.error.EncodeError.{EncodeError};
ghost use Rattle.buffa_bytes.specs.declared.error.EncodeError.TheVariants.{OutOfMemory};
ghost use Rattle.buffa_bytes.specs.declared.wire_type.WireType.{WireType};
ghost use Rattle.buffa_bytes.specs.Readings.{FullOnlyIf};
ghost use Rattle.buffa_wire.specs.BudgetLeft.{budget_left};
ghost use Rattle.buffa_wire.specs.Parse.{AreValid, Fits};
ghost use Rattle.buffa_wire.specs.Records.{FieldData, bytes, records_of};
ghost use Rattle.buffa_wire.specs.Encoding.{records_encoding};
ghost use Rattle.buffa_wire.specs.RecordsOfValues.{field_data_of};
ghost use Rattle.buffa_codec.specs.Decoded.{HasByte, Refuses, bytes_held};
ghost use Rattle.buffa_ext.specs.Messages.{BeginsFieldIn, MergesOne, PartlyMergedRecord, group_held, group_of};
ghost use Rattle.buffa_ext.specs.Messages.{group_refusal, encodings_in};
ghost use Rattle.buffa_ext.specs.MessageFacts.{group_back};

use buffa_wire::{
    DecodeContext, DecodeError, EncodeError, Message, UnknownFieldData, UnknownFields, WireType,
};
use std::alloc::Global;

/// How records of one kind hold the encodings of messages.
///
/// ```ignore
/// pub type MessageCodec<M> = MessageIn<Delimited, M>;
/// pub type GroupCodec<M> = MessageIn<Grouped, M>;
/// ```
pub trait MessageRecord {
    /// The wire type of a record of this kind.
    ///
    /// ```ignore
    /// const WIRE_TYPE: WireType = WireType::LengthDelimited;
    /// ```
    const WIRE_TYPE: WireType;

    ghost WIRE_TYPE: { WireType };

    /// The encoding in a record of this kind.
    ghost held: { FieldData → Option (List ℕ) };

    /// The record that holds an encoding.
    ghost holder: { List ℕ → FieldData };

    /// The records that hold an encoding which may take memory to be merged, at a depth.
    ghost asks: { ℕ → FieldData → Type 0 };

    /// Why no record holds an encoding, memory aside.
    ghost refusal: { List ℕ → Option EncodeError };

    /// Holding an encoding takes no memory.
    ghost never_fails: { Type 0 };

    /// Merges the encoding in a record of this kind, at the context's depth, and returns whether there is one.
    ///
    /// # Errors
    /// Those of [`Message::merge`], where there is one; out of memory only where merging it may take some. The message is
    /// then as it says; where memory ran out it may be as it was.
    ///
    /// ```ignore
    /// let merged = K::merge_in(alloc, payload, &mut message, lent);
    /// ```
    fn merge_in<M: Message>(
        alloc: Global,
        payload: &UnknownFieldData,
        message: &mut M,
        ctx: DecodeContext<'_>,
    ) -> Result<bool, DecodeError>
        ensures merged { MergesOne M.merged M.cost held ctx.entry (field_data_of payload.now) (M.meaning message.old) result
            (M.meaning message.new) (budget_left ctx.exit) }
        ensures encoding { OnErr result (encodings_in held (field_data_of payload.now ∷ []) ≢ []) }
        ensures partly { IfErr result (λ e. PartlyMergedRecord M.merged M.cost M.Refused held ctx.entry.depth
            (field_data_of payload.now) (M.meaning message.old) ctx.entry.budget.now e (M.meaning message.new)) }
        ensures full { FullOnlyIf result (asks ctx.entry.depth (field_data_of payload.now)) };

    /// The record that holds an encoding.
    ///
    /// # Errors
    /// Why no record holds it; or out of memory, but never for an encoding of no bytes, nor where holding takes
    /// none.
    fn hold(alloc: Global, encoding: Vec<u8>) -> Result<UnknownFieldData, EncodeError>
        ensures record { IfOk result (λ d. field_data_of d ≡ holder encoding.items) }
        ensures refused { Refuses result (refusal encoding.items) }
        ensures full { IfErr result (λ e. e ≡ OutOfMemory → encoding.items ≢ []) }
        ensures always { never_fails → IsOk result };

    /// The record of an encoding of valid records holds it.
    ghost held_back: { (rs : _) → AreValid (records_of rs) → Fits (records_of rs) → refusal (records_encoding rs) ≡ None →
        held (holder (records_encoding rs)) ≡ Some (records_encoding rs) };
}

/// A length-delimited record, whose bytes are the message's encoding.
///
/// ```ignore
/// pub type MessageCodec<M> = MessageIn<Delimited, M>;
/// ```
pub struct Delimited;

impl MessageRecord for Delimited {
    const WIRE_TYPE: WireType = WireType::LengthDelimited;

    ghost WIRE_TYPE = { WireType.LengthDelimited };

    ghost held = { bytes_held };

    ghost holder = { bytes };

    ghost asks = { λ n. BeginsFieldIn bytes_held };

    ghost refusal = { λ t. None };

    ghost never_fails = { Unit {0} };

    fn merge_in<M: Message>(
        alloc: Global,
        payload: &UnknownFieldData,
        message: &mut M,
        ctx: DecodeContext<'_>,
    ) -> Result<bool, DecodeError> {
        let DecodeContext { depth, budget } = ctx;
        let UnknownFieldData::LengthDelimited(encoding) = payload else {
            return Ok(false);
        };
        let lent = DecodeContext {
            depth,
            budget: &mut *budget,
        };
        let mut bytes = encoding.as_slice();
        message.merge(alloc, &mut bytes, lent)?;
        Ok(true)
    }

    fn hold(_alloc: Global, encoding: Vec<u8>) -> Result<UnknownFieldData, EncodeError> {
        Ok(UnknownFieldData::LengthDelimited(encoding))
    }

    ghost held_back = { λ rs v f h. refl };
}

/// A group, whose records' encoding is the message's.
///
/// ```ignore
/// pub type GroupCodec<M> = MessageIn<Grouped, M>;
/// ```
pub struct Grouped;

impl MessageRecord for Grouped {
    const WIRE_TYPE: WireType = WireType::StartGroup;

    ghost WIRE_TYPE = { WireType.StartGroup };

    ghost held = { group_held };

    ghost holder = { group_of };

    ghost asks = { λ n d. HasByte (group_held d) };

    ghost refusal = { group_refusal };

    ghost never_fails = { ⊥ };

    fn merge_in<M: Message>(
        alloc: Global,
        payload: &UnknownFieldData,
        message: &mut M,
        ctx: DecodeContext<'_>,
    ) -> Result<bool, DecodeError> {
        let DecodeContext { depth, budget } = ctx;
        let UnknownFieldData::Group(fields) = payload else {
            return Ok(false);
        };
        let mut bytes = Vec::new(alloc);
        let Ok(()) = fields.write_to(&mut bytes) else {
            return Err(DecodeError::OutOfMemory);
        };
        let lent = DecodeContext {
            depth,
            budget: &mut *budget,
        };
        let mut encoding = bytes.as_slice();
        message.merge(alloc, &mut encoding, lent)?;
        Ok(true)
    }

    fn hold(alloc: Global, encoding: Vec<u8>) -> Result<UnknownFieldData, EncodeError> {
        match UnknownFields::decode_from_slice(alloc, encoding.as_slice()) {
            Ok(fields) => Ok(UnknownFieldData::Group(fields)),
            Err(DecodeError::OutOfMemory) => Err(EncodeError::OutOfMemory),
            Err(error) => Err(EncodeError::GroupRefused(error)),
        }
    }

    ghost held_back = { group_back };
}
