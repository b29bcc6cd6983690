//! Types whose reading and writing as messages another type says, once for all of them.

ghost use Rattle.std.specs.Prelude.{◌≡◌, ◌≢◌, ◌<◌, ◌≤◌, ℕ, List, [], Option, Some, refl};
ghost use Rattle.std.specs.Prelude.{IfErr, IsOk, OnOk};
ghost use Rattle.buffa_bytes.specs.Readings.{FullOnlyIf};
ghost use Rattle.buffa_bytes.specs.Unread.{IsTailOf};
ghost use Rattle.buffa_wire.specs.BudgetLeft.{BudgetLeft, budget_left};
ghost use Rattle.buffa_wire.specs.Message.{BeginsField, FieldRefused, FieldTaken, MergesBytes, MergesField, PartlyMerged};
ghost use Rattle.buffa_wire.specs.Message.{TakesMessageField};
ghost use Rattle.buffa_wire.specs.Parse.{AreValid, Fits};
ghost use Rattle.buffa_wire.specs.Passes.{IsNext, IsSized, IsWritten};
ghost use Rattle.buffa_wire.specs.Records.{FieldData, records_of};
ghost use Rattle.buffa_wire.specs.Encoding.{records_encoding};
ghost use Rattle.buffa_wire.specs.Takes.{Charge, Stays, Taker, cost_of, merged_of};

use crate::cache::SizeCache;
use crate::context::DecodeContext;
use crate::message::{Message, MessageSpec};
use buffa_bytes::{Blank, DecodeError, EncodeError, EncodeSink, Tag, WireType};
use std::alloc::Global;

/// What the messages of a type are: all that [`MessageSpec`] asks. It has no function, so that those of a [`MessageMethods`] may
/// rest on it.
///
/// ```ignore
/// impl<M: FieldsMeaning> MessageMeaning<M> for FieldByField { .. }
/// ```
pub trait MessageMeaning<M: Blank> {
    /// The units of element memory that a message costs where it is the value of a map or an element of a list.
    const COST: usize;

    ghost COST: { ℕ };

    /// At a depth, what a field makes of a value by its payload, or none.
    ghost takes: { Taker M.Meaning };

    /// At a depth, the unknown fields and the units of element memory that a field costs, a malformed one too.
    ghost charge: { Charge };

    /// At a depth, what merging bytes makes of a value, or none.
    ghost merged: { ℕ → M.Meaning → List ℕ → Option M.Meaning };

    /// At a depth, what merging bytes costs, malformed ones too.
    ghost cost: { ℕ → List ℕ → BudgetLeft };

    /// At a depth and a budget, which error may refuse a field of a value, and what the value may hold then.
    ghost Refused: { FieldRefused M.Meaning };

    /// The records that a value is written as.
    ghost records: { M.Meaning → List (ℕ × FieldData) };

    /// The sizes of the messages in it, in the order in which its passes reserve and consume them.
    ghost slots: { M.Meaning → List ℕ };

    /// How deep groups and messages nest in the encoding.
    ghost levels: { M.Meaning → ℕ };

    /// The values that their encoding reads back to.
    ghost normal: { M.Meaning → Type 0 };

    /// An element has a cost.
    ghost positive: { 0 < COST };

    /// What a field costs is known by its payload.
    ghost stays: { Stays charge };

    /// Bytes make of a value what their payloads do, one after the other.
    ghost merged_is: { (d : ℕ) (v : M.Meaning) (b : List ℕ) → merged d v b ≡ merged_of takes d v b };

    /// They cost what their fields do.
    ghost cost_is: { (d : ℕ) (b : List ℕ) → cost d b ≡ cost_of charge d b };

    /// The records of such a value have numbers that a field may have, nested ones too, and data in range.
    ghost valid: { (v : M.Meaning) → normal v → AreValid (records_of (records v)) };

    /// The encoding reads back, where no length is too large to be read.
    ghost merged_encoding: { (d : ℕ) (v : M.Meaning) → Fits (records_of (records v)) → normal v → levels v ≤ d →
        merged d M.blank_is (records_encoding (records v)) ≡ Some v };
}

/// How the messages of a type are read and written: what [`Message`] asks for, and how all fields are merged.
///
/// ```ignore
/// impl<M: FieldsMeaning> MessageMethods<M> for FieldByField { .. }
/// ```
pub trait MessageMethods<M: Blank>: MessageMeaning<M> {
    /// The values whose size pass never runs out of memory.
    ghost sure: { M.Meaning → Type 0 };

    /// What is said, besides, of the field that was merged, also where it is refused.
    ghost Taken: { FieldTaken M };

    /// The size pass.
    ///
    /// # Errors
    /// Those of [`Message::compute_size`].
    fn compute_size(message: &M, cache: &mut SizeCache) -> Result<u32, EncodeError>
        ensures sized { IsSized (records_encoding (Self.records (M.meaning message.now)))
            (Self.slots (M.meaning message.now)) cache.old result cache.new }
        ensures always { sure (M.meaning message.now) → IsOk result };

    /// The write pass.
    ///
    /// # Errors
    /// Those of [`Message::write_to`].
    fn write_to<S: EncodeSink>(
        message: &M,
        cache: &mut SizeCache,
        sink: &mut S,
    ) -> Result<(), EncodeError>
        requires { IsNext (Self.slots (M.meaning message.now)) cache.old }
        ensures { IsWritten (records_encoding (Self.records (M.meaning message.now)))
            (Self.slots (M.meaning message.now)) cache.old (S.written sink.old) result cache.new (S.written sink.new) };

    /// Merges the field whose tag was read.
    ///
    /// # Errors
    /// Those of [`Message::merge_field`].
    fn merge_field(
        message: &mut M,
        alloc: Global,
        tag: Tag,
        buf: &mut &[u8],
        ctx: DecodeContext<'_>,
    ) -> Result<(), DecodeError>
        ensures merged { MergesField Self.merged Self.cost ctx.entry (M.meaning message.old) tag.number tag.wire_type
            buf.old.now result (M.meaning message.new) (budget_left ctx.exit) buf.new.now }
        ensures refused { IfErr result (λ e. Self.Refused ctx.entry.depth (M.meaning message.old) tag.number
            tag.wire_type buf.old.now ctx.entry.budget.now e (M.meaning message.new)) }
        ensures full { FullOnlyIf result (tag.wire_type ≢ WireType.EndGroup) }
        ensures taken { TakesMessageField Taken ctx.entry message.old tag.number tag.wire_type buf.old.now result message.new
            (budget_left ctx.exit) buf.new.now };

    /// Merges the fields that the bytes are, all of them: none is left. A form may have a loop of its own here. That of a
    /// message with a map of itself merges the messages inside, too.
    ///
    /// # Errors
    /// Those of [`Message::merge`].
    fn merge(
        message: &mut M,
        alloc: Global,
        buf: &mut &[u8],
        ctx: DecodeContext<'_>,
    ) -> Result<(), DecodeError>
        ensures merged { MergesBytes Self.merged Self.cost ctx.entry.depth (M.meaning message.old) buf.old.now
            ctx.entry.budget.now result (M.meaning message.new) (budget_left ctx.exit) }
        ensures partly { IfErr result (λ e. PartlyMerged Self.merged Self.cost Self.Refused ctx.entry.depth
            (M.meaning message.old) buf.old.now ctx.entry.budget.now e (M.meaning message.new)) }
        ensures full { FullOnlyIf result (BeginsField buf.old.now) }
        ensures read { OnOk result (buf.new.now ≡ []) }
        ensures tail { IsTailOf buf.new.now buf.old.now };
}

/// A type whose messages are read and written as another type says. It is a [`Message`] by that alone.
///
/// ```ignore
/// impl MessageImpl for Inventory {
///     type Impl = FieldByField;
/// }
/// ```
pub trait MessageImpl: Blank {
    /// How: a [`MessageMethods`] of it.
    ///
    /// ```ignore
    /// type Impl = FieldByField;
    /// ```
    type Impl;
}

impl<M: MessageImpl> MessageSpec for M
where
    M::Impl: MessageMeaning<M>,
{
    const COST: usize = <M::Impl as MessageMeaning<M>>::COST;

    ghost COST = { M.Impl.COST };

    ghost takes = { M.Impl.takes };

    ghost charge = { M.Impl.charge };

    ghost merged = { M.Impl.merged };

    ghost cost = { M.Impl.cost };

    ghost Refused = { M.Impl.Refused };

    ghost encoding = { λ v. records_encoding (M.Impl.records v) };

    ghost records = { M.Impl.records };

    ghost slots = { M.Impl.slots };

    ghost levels = { M.Impl.levels };

    ghost normal = { M.Impl.normal };

    ghost encoding_records = { λ v. refl };

    ghost valid = { M.Impl.MessageMeaning.valid };

    ghost merged_encoding = { M.Impl.MessageMeaning.merged_encoding };

    ghost positive = { M.Impl.positive };

    ghost stays = { M.Impl.stays };

    ghost merged_is = { M.Impl.merged_is };

    ghost cost_is = { M.Impl.cost_is };
}

impl<M: MessageImpl> Message for M
where
    M::Impl: MessageMethods<M>,
{
    /// The size pass, which never runs out of memory where the form is sure of that.
    fn compute_size(&self, cache: &mut SizeCache) -> Result<u32, EncodeError>
        ensures sized { IsSized (records_encoding (M.Impl.records (M.meaning self.now)))
            (M.Impl.slots (M.meaning self.now)) cache.old result cache.new }
        ensures always { M.Impl.sure (M.meaning self.now) → IsOk result }
    {
        <M::Impl as MessageMethods<M>>::compute_size(self, cache)
    }

    fn write_to<S: EncodeSink>(
        &self,
        cache: &mut SizeCache,
        sink: &mut S,
    ) -> Result<(), EncodeError> {
        <M::Impl as MessageMethods<M>>::write_to(self, cache, sink)
    }

    /// The form merges the field, and what it says of one that is refused holds.
    fn merge_field(
        &mut self,
        alloc: Global,
        tag: Tag,
        buf: &mut &[u8],
        ctx: DecodeContext<'_>,
    ) -> Result<(), DecodeError>
        ensures merged { MergesField M.Impl.merged M.Impl.cost ctx.entry (M.meaning self.old) tag.number tag.wire_type
            buf.old.now result (M.meaning self.new) (budget_left ctx.exit) buf.new.now }
        ensures refused { IfErr result (λ e. M.Impl.Refused ctx.entry.depth (M.meaning self.old) tag.number
            tag.wire_type buf.old.now ctx.entry.budget.now e (M.meaning self.new)) }
        ensures full { FullOnlyIf result (tag.wire_type ≢ WireType.EndGroup) }
        ensures taken { TakesMessageField M.Impl.Taken ctx.entry self.old tag.number tag.wire_type buf.old.now result self.new
            (budget_left ctx.exit) buf.new.now }
    {
        <M::Impl as MessageMethods<M>>::merge_field(self, alloc, tag, buf, ctx)
    }

    fn merge(
        &mut self,
        alloc: Global,
        buf: &mut &[u8],
        ctx: DecodeContext<'_>,
    ) -> Result<(), DecodeError> {
        <M::Impl as MessageMethods<M>>::merge(self, alloc, buf, ctx)
    }
}
