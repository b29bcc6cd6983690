//! Messages: values that bytes are merged into.

ghost use Rattle.std.specs.Prelude.{◌≡◌, ◌≢◌, ◌<◌, ◌≤◌, ◌^◌, ℕ, List, [], length, Option, Some, IfErr, IfOk};
ghost use Rattle.std.specs.Prelude.{IsOk, Ok, OnErr, OnOk};
ghost use Rattle.buffa_bytes.specs.declared.error.DecodeError.TheVariants.{OutOfMemory};
ghost use Rattle.buffa_bytes.specs.Unread.{LeavesUnlessFull, past_no_delimited, IsTailOf};
ghost use Rattle.buffa_bytes.specs.Readings.{delimited_at, FullOnlyIf};
ghost use Rattle.buffa_wire.specs.BudgetLeft.{BudgetLeft, PaysAtMost, budget_left, defaults};
ghost use Rattle.buffa_bytes.specs.declared.error.EncodeError.TheVariants as error;
ghost use Rattle.buffa_wire.specs.Parse.{AreValid, Fits};
ghost use Rattle.buffa_wire.specs.Passes.{IsNext, IsSized, IsWritten, cap};
ghost use Rattle.buffa_wire.specs.Records.{FieldData, records_of};
ghost use Rattle.buffa_wire.specs.Encoding.{records_encoding};
ghost use Rattle.buffa_wire.specs.Message.{BeginsField, FieldRefused, IsMergedAlone, MergesBytes, MergesField, MergesInside};
ghost use Rattle.buffa_wire.specs.Message.{MessageFault, PartlyMerged, PartlyMergedInside, cost_of_payload};
ghost use Rattle.buffa_wire.specs.Takes.{Charge, Stays, Taker, cost_of, merged_of};

use crate::budget::{Budget, DEFAULT_UNKNOWN_FIELD_LIMIT};
use crate::cache::SizeCache;
use crate::context::{DecodeContext, RECURSION_LIMIT};
use buffa_bytes::types::with_delimited;
use buffa_bytes::{Blank, Buf, DecodeError, EncodeError, EncodeSink, Tag, WireType};
use std::alloc::Global;

/// The most bytes that a message's encoding may have: 2^31 - 1.
///
/// ```ignore
/// assert!(rt; MAX_MESSAGE_BYTES == 2_147_483_647);
/// ```
pub const MAX_MESSAGE_BYTES: u32 = 2_147_483_647;

/// The size of a message whose encoding has so many bytes: as many, or 2^32 - 1 where they are more.
///
/// ```ignore
/// Ok(capped(total))
/// ```
#[inline(always)]
pub fn capped(len: u64) -> u32
    ensures { result ≡ cap len }
{
    len.min(4_294_967_295) as u32
}

/// What the bytes of a type of messages mean.
///
/// ```ignore
/// impl MessageSpec for CountMsg { .. }
/// ```
pub trait MessageSpec: Blank {
    /// The units of element memory that a message costs where it is the value of a map or an element of a list: 1 or
    /// more.
    ///
    /// ```ignore
    /// const COST: usize = 8;
    /// ```
    const COST: usize;

    ghost COST: { ℕ };

    /// At a depth, what a field makes of a value by its payload, or none.
    ghost takes: { Taker Self.Meaning };

    /// At a depth, the unknown fields and the units of element memory that a field costs, a malformed one too.
    ghost charge: { Charge };

    /// At a depth, what merging bytes makes of a value, or none.
    ghost merged: { ℕ → Self.Meaning → List ℕ → Option Self.Meaning };

    /// At a depth, what merging bytes costs, malformed ones too.
    ghost cost: { ℕ → List ℕ → BudgetLeft };

    /// At a depth and a budget, which error may refuse a field of a value, and what the value may hold then; a type
    /// need not say it.
    ghost Refused: { FieldRefused Self.Meaning };

    /// The encoding of a value.
    ghost encoding: { Self.Meaning → List ℕ };

    /// The records whose encoding it is.
    ghost records: { Self.Meaning → List (ℕ × FieldData) };

    /// The sizes of the messages in it, in the order in which its passes reserve and consume them.
    ghost slots: { Self.Meaning → List ℕ };

    /// How deep groups and messages nest in the encoding.
    ghost levels: { Self.Meaning → ℕ };

    /// The values that their encoding reads back to.
    ghost normal: { Self.Meaning → Type 0 };

    /// The encoding is that of the records.
    ghost encoding_records: { (v : Self.Meaning) → encoding v ≡ records_encoding (records v) };

    /// The records of such a value have numbers that a field may have, nested ones too, and data in range.
    ghost valid: { (v : Self.Meaning) → normal v → AreValid (records_of (records v)) };

    /// The encoding reads back, where no length is too large to be read.
    ghost merged_encoding: { (d : ℕ) (v : Self.Meaning) → Fits (records_of (records v)) → normal v → levels v ≤ d →
        merged d Self.blank_is (encoding v) ≡ Some v };

    /// An element has a cost.
    ghost positive: { 0 < COST };

    /// What a field costs is known by its payload.
    ghost stays: { Stays charge };

    /// Bytes make of a value what their payloads do, one after the other.
    ghost merged_is: { (d : ℕ) (v : Self.Meaning) (b : List ℕ) → merged d v b ≡ merged_of takes d v b };

    /// They cost what their fields do.
    ghost cost_is: { (d : ℕ) (b : List ℕ) → cost d b ≡ cost_of charge d b };
}

/// A message, which bytes can be merged into, and which is written in two passes.
///
/// ```ignore
/// impl Message for CountMsg { .. }
/// ```
pub trait Message: MessageSpec {
    /// The size pass: the length of the encoding, or 2^32 - 1 where it is more. The value's slots are
    /// appended.
    ///
    /// # Errors
    /// [`EncodeError::OutOfMemory`] alone; the old slots come first then. The contract leaves open when memory runs out.
    ///
    /// ```ignore
    /// let size = message.compute_size(&mut cache)?;
    /// ```
    fn compute_size(&self, cache: &mut SizeCache) -> Result<u32, EncodeError>
        ensures { IsSized (Self.encoding (Self.meaning self.now)) (Self.slots (Self.meaning self.now)) cache.old result
            cache.new };

    /// The write pass, which consumes the value's slots: the next ones of the cache have to be those that
    /// [`Message::compute_size`] appended for this value. Where the encoding has at most 2^31 - 1 bytes it is
    /// appended to the sink.
    ///
    /// # Errors
    /// [`EncodeError::OutOfMemory`] alone, after a beginning of the encoding; some of the value's slots are
    /// consumed then. The contract leaves open when memory runs out.
    ///
    /// ```ignore
    /// message.write_to(&mut cache, &mut sink)?; // as many bytes as compute_size said
    /// ```
    fn write_to<S: EncodeSink>(
        &self,
        cache: &mut SizeCache,
        sink: &mut S,
    ) -> Result<(), EncodeError>
        requires { IsNext (Self.slots (Self.meaning self.now)) cache.old }
        ensures { IsWritten (Self.encoding (Self.meaning self.now)) (Self.slots (Self.meaning self.now)) cache.old
            (S.written sink.old) result cache.new (S.written sink.new) };

    /// Makes the message the default of its type.
    ///
    /// ```ignore
    /// message.clear(alloc);
    /// ```
    fn clear(&mut self, alloc: Global)
        ensures { Self.meaning self.new ≡ Self.blank_is }
    {
        *self = Self::blank(alloc);
    }

    /// The encoding, by both passes.
    ///
    /// # Errors
    /// [`EncodeError::MessageTooLarge`] where the encoding is longer than 2^31 - 1 bytes; or
    /// [`EncodeError::OutOfMemory`].
    ///
    /// ```ignore
    /// let encoding = info.try_encode_to_vec(alloc)?;
    /// ```
    fn try_encode_to_vec(&self, alloc: Global) -> Result<Vec<u8>, EncodeError>
        ensures encoding { IfOk result (λ v. (v.items ≡ Self.encoding (Self.meaning self.now))
            × (length (Self.encoding (Self.meaning self.now)) < 2 ^ 31)) }
        ensures err { IfErr result (λ e. e ≢ error.OutOfMemory → (e ≡ error.MessageTooLarge)
            × (2 ^ 31 ≤ length (Self.encoding (Self.meaning self.now)))) }
    {
        let mut cache = SizeCache::new(alloc);
        let size = self.compute_size(&mut cache)?;
        if size > MAX_MESSAGE_BYTES {
            return Err(EncodeError::MessageTooLarge);
        }
        let mut encoding = Vec::new(alloc);
        self.write_to(&mut cache, &mut encoding)?;
        Ok(encoding)
    }

    /// Merges the field whose tag was read, and leaves what follows it.
    ///
    /// # Errors
    /// Those of [`Message::merge`], of this field alone where its payload is whole; never
    /// [`DecodeError::OutOfMemory`] for an end tag. Which error it is, and what the value holds then, is said by its type
    /// (`Refused`). It may leave that out. What is unread then is left open, and so is how much of the field's cost is spent.
    ///
    /// ```ignore
    /// let tag = Tag::decode(&mut rest)?;
    /// message.merge_field(alloc, tag, &mut rest, ctx)?; // of 08 05: field 1 is 5
    /// ```
    fn merge_field(
        &mut self,
        alloc: Global,
        tag: Tag,
        buf: &mut &[u8],
        ctx: DecodeContext<'_>,
    ) -> Result<(), DecodeError>
        ensures merged { MergesField Self.merged Self.cost ctx.entry (Self.meaning self.old) tag.number tag.wire_type
            buf.old.now result (Self.meaning self.new) (budget_left ctx.exit) buf.new.now }
        ensures refused { IfErr result (λ e. Self.Refused ctx.entry.depth (Self.meaning self.old) tag.number
            tag.wire_type buf.old.now ctx.entry.budget.now e (Self.meaning self.new)) }
        ensures full { FullOnlyIf result (tag.wire_type ≢ WireType.EndGroup) };

    /// Merges the fields that the bytes are, all of them: none is left.
    ///
    /// # Errors
    /// Where the bytes mean no value, any error but those of a budget, [`DecodeError::UnknownFieldLimitExceeded`] and
    /// [`DecodeError::ElementMemoryLimitExceeded`]; where what they cost isn't left, any error. And
    /// [`DecodeError::OutOfMemory`], only where a tag that is no end tag begins the bytes. The fields before the refused
    /// one are merged then, and its type says of that one which error it is and what the value holds (`Refused`), as it
    /// does for [`Message::merge_field`]. What is unread then is some end of the bytes.
    ///
    /// ```ignore
    /// info.merge(alloc, &mut rest, DecodeContext::new(20, &mut budget))?;
    /// ```
    fn merge(
        &mut self,
        alloc: Global,
        buf: &mut &[u8],
        ctx: DecodeContext<'_>,
    ) -> Result<(), DecodeError>
        // What the bytes mean is left, and what they cost is spent; or the error tells why not.
        ensures merged { MergesBytes Self.merged Self.cost ctx.entry.depth (Self.meaning self.old) buf.old.now
            ctx.entry.budget.now result (Self.meaning self.new) (budget_left ctx.exit) }
        // Refused: the fields before the refused one are merged, and its type says of that one what it leaves.
        ensures partly { IfErr result (λ e. PartlyMerged Self.merged Self.cost Self.Refused ctx.entry.depth
            (Self.meaning self.old) buf.old.now ctx.entry.budget.now e (Self.meaning self.new)) }
        // Memory runs out only where a field begins the bytes.
        ensures full { FullOnlyIf result (BeginsField buf.old.now) }
        // Accepted, nothing is left unread; refused, some end of the bytes.
        ensures read { OnOk result (buf.new.now ≡ []) }
        ensures tail { IsTailOf buf.new.now buf.old.now }
    {
        let DecodeContext { depth, budget } = ctx;
        // A slice of all of it: a copy of the reference is read as one word of 16 bytes, which waits for the two that the
        // caller has just stored.
        let mut rest = &buf[..];
        'fields: while rest.remaining() > 0 {
            let tag = Tag::decode(&mut rest)?;
            let lent = DecodeContext {
                depth,
                budget: &mut *budget,
            };
            self.merge_field(alloc, tag, &mut rest, lent)?;
        }
        *buf = rest;
        Ok(())
    }

    /// Merges the fields that the bytes are, at most [`RECURSION_LIMIT`] deep, under a default budget of its own.
    ///
    /// # Errors
    /// Those of [`Message::merge`], and the value is then as it says.
    ///
    /// ```ignore
    /// info.merge_from_slice(alloc, bytes)?;
    /// ```
    fn merge_from_slice(&mut self, alloc: Global, bytes: &[u8]) -> Result<(), DecodeError>
        ensures merged { IsMergedAlone (Self.merged RECURSION_LIMIT (Self.meaning self.old) bytes.now)
            (Self.cost RECURSION_LIMIT bytes.now) result (Self.meaning self.new) }
        ensures partly { IfErr result (λ e. PartlyMerged Self.merged Self.cost Self.Refused RECURSION_LIMIT
            (Self.meaning self.old) bytes.now defaults e (Self.meaning self.new)) }
        ensures full { FullOnlyIf result (BeginsField bytes.now) }
    {
        let mut budget = Budget::new(DEFAULT_UNKNOWN_FIELD_LIMIT);
        let mut buf = bytes;
        self.merge(
            alloc,
            &mut buf,
            DecodeContext::new(RECURSION_LIMIT, &mut budget),
        )
    }

    /// Merges the length and so many bytes at the front, one level down.
    ///
    /// Bytes that lie together are merged where they lie; others are put together first. The contract leaves open which do.
    ///
    /// # Errors
    /// In this order: [`DecodeError::RecursionLimitExceeded`] where no level is left; the length's faults;
    /// those of [`Message::merge`], and the value is then as it says; before the message it is as it was, and where
    /// memory ran out it may be. What follows a length that passes the end stays unread then, and what follows the
    /// message.
    ///
    /// ```ignore
    /// message.merge_length_delimited(alloc, &mut rest, ctx)?; // of 02 08 07: field 1 is 7
    /// ```
    fn merge_length_delimited<B: Buf>(
        &mut self,
        alloc: Global,
        buf: &mut B,
        ctx: DecodeContext<'_>,
    ) -> Result<(), DecodeError>
        ensures ok { OnOk result (MergesInside Self.merged Self.cost ctx.entry (Self.meaning self.old)
            (B.unread buf.old) (Self.meaning self.new) (budget_left ctx.exit) (B.unread buf.new)) }
        ensures fault { IfErr result (λ e. e ≢ OutOfMemory →
            MessageFault Self.merged Self.cost ctx.entry.depth (Self.meaning self.old) (B.unread buf.old)
            ctx.entry.budget.now e) }
        ensures partly { IfErr result (λ e. PartlyMergedInside Self.merged Self.cost Self.Refused ctx.entry.depth
            (Self.meaning self.old) (B.unread buf.old) ctx.entry.budget.now e (Self.meaning self.new)) }
        ensures spent { OnErr result (PaysAtMost ctx.entry.budget.now
            (cost_of_payload Self.cost ctx.entry.depth (delimited_at (B.unread buf.old))) (budget_left ctx.exit)) }
        ensures full { FullOnlyIf result ((0 < ctx.entry.depth) × IsOk (delimited_at (B.unread buf.old))) }
        ensures free { (r : List ℕ) → 0 < ctx.entry.depth → delimited_at (B.unread buf.old) ≡ Ok ([], r) → IsOk result }
        ensures outside { (IsOk (delimited_at (B.unread buf.old)) → ⊥) → Self.meaning self.new ≡ Self.meaning self.old }
        ensures level { ctx.entry.depth ≡ 0 → (Self.meaning self.new ≡ Self.meaning self.old)
            × (B.unread buf.new ≡ B.unread buf.old) }
        ensures left { 0 < ctx.entry.depth → LeavesUnlessFull result (past_no_delimited (B.unread buf.old))
            (B.unread buf.new) }
        ensures kept { B.beyond buf.new ≡ B.beyond buf.old }
        ensures tail { IsTailOf (B.unread buf.new) (B.unread buf.old) }
    {
        let DecodeContext { depth, budget } = ctx;
        if depth == 0 {
            return Err(DecodeError::RecursionLimitExceeded);
        }
        let inside = depth - 1;
        with_delimited(
            alloc,
            buf,
            &mut |payload: &[u8]|
                ensures merged { MergesBytes Self.merged Self.cost inside (Self.meaning self.entry.now) payload.now
                    budget.entry.now result (Self.meaning self.exit.now) budget.exit.now }
                ensures partly { IfErr result (λ e. PartlyMerged Self.merged Self.cost Self.Refused inside
                    (Self.meaning self.entry.now) payload.now budget.entry.now e (Self.meaning self.exit.now)) }
                ensures full { FullOnlyIf result (BeginsField payload.now) }
            {
                let mut bytes = payload;
                self.merge(alloc, &mut bytes, DecodeContext::new(inside, &mut *budget))
            },
        )
    }
}
