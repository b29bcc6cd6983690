//! Messages that hold themselves are messages.

ghost use Rattle.std.specs.Prelude.{◌≡◌, ◌≢◌, [], IfErr, IsOk, OnOk, refl};
ghost use Rattle.std.proofs.Common.{ap, sym, ◌∙◌};
ghost use Rattle.buffa_bytes.specs.Readings.{FullOnlyIf};
ghost use Rattle.buffa_bytes.specs.Unread.{IsTailOf};
ghost use Rattle.buffa_wire.specs.BudgetLeft.{budget_left};
ghost use Rattle.buffa_wire.specs.Encoding.{records_encoding};
ghost use Rattle.buffa_wire.specs.Message.{BeginsField, MergesBytes, MergesField, PartlyMerged, TakesMessageField};
ghost use Rattle.buffa_wire.specs.Passes.{IsNext, IsSized, IsWritten};
ghost use Rattle.buffa_recursive.specs.RecursiveSchema.{whole_takes};
ghost use Rattle.buffa_recursive.specs.RefusedFields.{IsSelfRefused};
ghost use Rattle.buffa_recursive.specs.Fixpoint.{semantics, message_schema};
ghost use Rattle.buffa_recursive.specs.facts.FixpointFacts.{blank_is, cost_by_is, merged_by_is};
ghost use Rattle.buffa_recursive.specs.InnerMessages.{encoding_by};

use crate::merge::{merge_self, take_by};
use crate::recursive_fields::RecursiveFields;
use crate::recursive_meaning::{RecursiveFieldByField, RecursiveMeaning};
use crate::recursive_type::RecursiveType;
use crate::sizer::size_self;
use crate::writer::write_self;
use buffa_wire::{
    Budget, DecodeContext, DecodeError, EncodeError, EncodeSink, MessageMeaning, MessageMethods,
    SizeCache, Tag, WireType,
};
use std::alloc::Global;

impl<M: RecursiveMeaning> MessageMeaning<M> for RecursiveFieldByField {
    const COST: usize = <M as RecursiveType>::COST;

    ghost COST = { M.RecursiveType.COST };

    ghost takes = { whole_takes M.schema (semantics M.RecursiveType.COST M.schema M.sound) };

    ghost charge = { (message_schema M.RecursiveType.COST M.schema M.sound).charge };

    ghost merged = { (semantics M.RecursiveType.COST M.schema M.sound).merged };

    ghost cost = { (semantics M.RecursiveType.COST M.schema M.sound).cost };

    ghost Refused = { IsSelfRefused M.RecursiveType.COST M.schema M.sound };

    ghost records = { (semantics M.RecursiveType.COST M.schema M.sound).records };

    ghost slots = { (semantics M.RecursiveType.COST M.schema M.sound).slots };

    ghost levels = { (semantics M.RecursiveType.COST M.schema M.sound).levels };

    ghost normal = { (semantics M.RecursiveType.COST M.schema M.sound).normal };

    ghost positive = { M.RecursiveType.positive };

    ghost stays = { (message_schema M.RecursiveType.COST M.schema M.sound).stays };

    ghost merged_is = { merged_by_is M.RecursiveType.COST M.schema M.sound };

    ghost cost_is = { cost_by_is M.RecursiveType.COST M.schema M.sound };

    ghost valid = { (semantics M.RecursiveType.COST M.schema M.sound).valid };

    ghost merged_encoding = { λ d v fits normal low. let t = semantics M.RecursiveType.COST M.schema M.sound in
        ap (λ b. t.merged d b (encoding_by t v)) (M.RecursiveMeaning.starts ∙ sym (blank_is M.RecursiveType.COST M.schema M.sound))
        ∙ t.back d v fits normal low };
}

impl<M: RecursiveFields> MessageMethods<M> for RecursiveFieldByField {
    ghost sure = { λ v. (semantics M.RecursiveType.COST M.schema M.sound).slots v ≡ [] };

    ghost Taken = { (message_schema M.RecursiveType.COST M.schema M.sound).Taken };

    /// The size pass, which runs out of memory only where there is a message inside.
    fn compute_size(message: &M, cache: &mut SizeCache) -> Result<u32, EncodeError>
        ensures sized { let t = semantics M.RecursiveType.COST M.schema M.sound in
            IsSized (encoding_by t (M.meaning message.now)) (t.slots (M.meaning message.now)) cache.old result cache.new }
        ensures always { (semantics M.RecursiveType.COST M.schema M.sound).slots (M.meaning message.now) ≡ [] → IsOk result }
    {
        size_self(message, cache)
    }

    fn write_to<S: EncodeSink>(
        message: &M,
        cache: &mut SizeCache,
        sink: &mut S,
    ) -> Result<(), EncodeError> {
        write_self(message, cache, sink)
    }

    /// The member of the number takes the field; of a refused one it tells the error, and the others stay as they were.
    fn merge_field(
        message: &mut M,
        alloc: Global,
        tag: Tag,
        buf: &mut &[u8],
        ctx: DecodeContext<'_>,
    ) -> Result<(), DecodeError>
        ensures merged { let t = semantics M.RecursiveType.COST M.schema M.sound in
            MergesField t.merged t.cost ctx.entry (M.meaning message.old) tag.number tag.wire_type buf.old.now result
            (M.meaning message.new) (budget_left ctx.exit) buf.new.now }
        ensures refused { IfErr result (λ e. IsSelfRefused M.RecursiveType.COST M.schema M.sound ctx.entry.depth
            (M.meaning message.old) tag.number tag.wire_type buf.old.now ctx.entry.budget.now e (M.meaning message.new)) }
        ensures full { FullOnlyIf result (tag.wire_type ≢ WireType.EndGroup) }
        ensures taken { TakesMessageField (message_schema M.RecursiveType.COST M.schema M.sound).Taken ctx.entry message.old tag.number
            tag.wire_type buf.old.now result message.new (budget_left ctx.exit) buf.new.now }
    {
        let DecodeContext { depth, budget } = ctx;
        take_by(
            message,
            alloc,
            tag,
            buf,
            depth,
            budget,
            |child: &mut M, bytes: &[u8], depth: u32, budget: &mut Budget| -> Result<
                (),
                DecodeError,
            >
                ensures merged { let t = semantics M.RecursiveType.COST M.schema M.sound in
                    MergesBytes t.merged t.cost depth child.old bytes.now budget.old result child.new budget.new }
                ensures free { bytes.now ≡ [] → IsOk result }
            { merge_self(alloc, child, bytes, depth, budget) },
        )
    }

    /// The loop that merges the messages inside merges this one, too.
    fn merge(
        message: &mut M,
        alloc: Global,
        buf: &mut &[u8],
        ctx: DecodeContext<'_>,
    ) -> Result<(), DecodeError>
        ensures merged { let t = semantics M.RecursiveType.COST M.schema M.sound in
            MergesBytes t.merged t.cost ctx.entry.depth (M.meaning message.old) buf.old.now ctx.entry.budget.now result
            (M.meaning message.new) (budget_left ctx.exit) }
        ensures partly { let t = semantics M.RecursiveType.COST M.schema M.sound in
            IfErr result (λ e. PartlyMerged t.merged t.cost (IsSelfRefused M.RecursiveType.COST M.schema M.sound) ctx.entry.depth
            (M.meaning message.old) buf.old.now ctx.entry.budget.now e (M.meaning message.new)) }
        ensures full { FullOnlyIf result (BeginsField buf.old.now) }
        ensures read { OnOk result (buf.new.now ≡ []) }
        ensures tail { IsTailOf buf.new.now buf.old.now }
    {
        let DecodeContext { depth, budget } = ctx;
        merge_self(alloc, message, &buf[..], depth, budget)?;
        *buf = &[];
        Ok(())
    }
}
