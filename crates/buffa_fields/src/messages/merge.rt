//! Merging all fields, and what a message holds after a refusal.

ghost use Rattle.std.specs.Prelude.{◌≡◌, [], IfErr, OnOk};
ghost use Rattle.buffa_bytes.specs.Readings.{FullOnlyIf};
ghost use Rattle.buffa_bytes.specs.Unread.{IsTailOf};
ghost use Rattle.buffa_wire.specs.Message.{BeginsField, PartlyMerged};
ghost use Rattle.buffa_wire.specs.Takes.{cost_of, merged_of};
ghost use Rattle.buffa_fields.specs.Calls.{MergesAll};
ghost use Rattle.buffa_fields.specs.RefusedMessage.{IsMemberRefused, MergingTakesMemory};

use crate::messages::message_fields::MessageFields;
use buffa_wire::{Buf, DecodeContext, DecodeError, Tag};
use std::alloc::Global;

/// Merges the fields that the bytes are, all of them, as [`Message::merge`](buffa_wire::Message::merge) does.
///
/// # Errors
/// The same. The fields before the refused one stay merged, and of the others no member is changed but that of the
/// refused field's number; the error is what that member tells. Memory runs out only at a field that may ask for it. It
/// never runs out where the bytes begin with an end tag, or with no tag.
///
/// ```ignore
/// merge_fields(&mut message, alloc, &mut bytes, ctx)?;
/// ```
pub fn merge_fields<M: MessageFields>(
    message: &mut M,
    alloc: Global,
    buf: &mut &[u8],
    ctx: DecodeContext<'_>,
) -> Result<(), DecodeError>
    ensures merged { MergesAll ctx.entry ctx.exit message.old message.new buf.old.now result M.schema.takes
        M.schema.charge M.schema.meaning }
    ensures partly { IfErr result (λ e. PartlyMerged (merged_of M.schema.takes) (cost_of M.schema.charge)
        (IsMemberRefused M.schema) ctx.entry.depth (M.schema.meaning message.old) buf.old.now ctx.entry.budget.now e
        (M.schema.meaning message.new)) }
    ensures full { FullOnlyIf result (MergingTakesMemory M.schema.takes M.schema.asks ctx.entry.depth
        (M.schema.meaning message.old) buf.old.now ctx.entry.budget.now.unknown) }
    ensures begun { FullOnlyIf result (BeginsField buf.old.now) }
    ensures read { OnOk result (buf.new.now ≡ []) }
    ensures tail { IsTailOf buf.new.now buf.old.now }
{
    let DecodeContext { depth, budget } = ctx;
    let mut rest = &buf[..];
    'fields: while rest.remaining() > 0 {
        let tag = Tag::decode(&mut rest)?;
        let lent = DecodeContext {
            depth,
            budget: &mut *budget,
        };
        message.take(alloc, tag, &mut rest, lent)?;
    }
    *buf = rest;
    Ok(())
}
