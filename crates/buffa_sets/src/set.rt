//! The records of a MessageSet: sized, written, and merged into.

ghost use Rattle.std.specs.Prelude.{◌≡◌, ◌≢◌, [], length, min, IfErr, OnOk};
ghost use Rattle.buffa_bytes.specs.declared.wire_type.WireType.TheVariants.{EndGroup};
ghost use Rattle.buffa_bytes.specs.Readings.{FullOnlyIf};
ghost use Rattle.buffa_bytes.specs.Unread.{IsTailOf};
ghost use Rattle.buffa_bytes.specs.Written.{UsesRoom, Writes};
ghost use Rattle.buffa_wire.specs.BudgetLeft.{budget_left};
ghost use Rattle.buffa_wire.specs.Message.{BeginsField, MergesBytes, MergesField, PartlyMerged};
ghost use Rattle.buffa_wire.specs.Passes.{cap};
ghost use Rattle.buffa_sets.specs.Set.{IsSetRefused, StopsBehind, TakesSetField, set_cost, set_encoding, set_merged};

use crate::record::{read_record, record_len, write_record};
use buffa_wire::{
    Budget, Buf, DecodeContext, DecodeError, EncodeError, EncodeSink, Tag, UnknownFields, capped,
};
use std::alloc::Global;

// The length of the encoding, or 2^64 - 1 where it is longer.
fn set_len(records: &UnknownFields) -> u64
    ensures { result ≡ min (length (set_encoding records.now.records)) 18446744073709551615 }
{
    let mut total: u64 = 0;
    for field in records.iter().as_slice() {
        total = total.saturating_add(record_len(field));
    }
    total
}

/// The length of the encoding in bytes, or 2^32 - 1 where it is longer.
///
/// ```ignore
/// Ok(set::size(&self.unknown_fields))
/// ```
pub fn size(records: &UnknownFields) -> u32
    ensures { result ≡ cap (length (set_encoding records.now.records)) }
{
    capped(set_len(records))
}

/// Writes the encoding: an Item for bytes under a type id, and a field for any other record, in order.
///
/// # Errors
/// [`EncodeError::OutOfMemory`] alone, after a beginning of the encoding.
///
/// ```ignore
/// set::write(&self.unknown_fields, sink)
/// ```
pub fn write<S: EncodeSink>(records: &UnknownFields, sink: &mut S) -> Result<(), EncodeError>
    ensures writes { Writes result (S.written sink.old) (set_encoding records.now.records) (S.written sink.new) }
    ensures room { UsesRoom result (S.room sink.old) (set_encoding records.now.records) (S.room sink.new) }
{
    for field in records.iter().as_slice() {
        write_record(field, sink)?;
    }
    Ok(())
}

/// Merges the field whose tag was read: the message of an Item stands under its type id behind the others, and any other field
/// is kept as it is. What is refused changes and spends nothing.
///
/// # Errors
/// [`DecodeError::RecursionLimitExceeded`] for an Item where no level is left, or else those of
/// [`merge_item`](buffa_message_set::message_set::merge_item); of any other field those of a field that is kept.
///
/// ```ignore
/// set::merge_field(&mut self.unknown_fields, alloc, tag, buf, ctx)
/// ```
pub fn merge_field(
    records: &mut UnknownFields,
    alloc: Global,
    tag: Tag,
    buf: &mut &[u8],
    ctx: DecodeContext<'_>,
) -> Result<(), DecodeError>
    ensures merged { MergesField set_merged set_cost ctx.entry records.old.records tag.number tag.wire_type
        buf.old.now result records.new.records (budget_left ctx.exit) buf.new.now }
    ensures refused { IfErr result (λ e. IsSetRefused ctx.entry.depth records.old.records tag.number tag.wire_type
        buf.old.now ctx.entry.budget.now e records.new.records) }
    ensures full { FullOnlyIf result (tag.wire_type ≢ EndGroup) }
    ensures takes { TakesSetField ctx.entry.depth records.old.records tag.number tag.wire_type buf.old.now
        ctx.entry.budget.now result records.new.records (budget_left ctx.exit) buf.new.now }
{
    let DecodeContext { depth, budget } = ctx;
    let (field, left) = read_record(alloc, tag, buf, depth, budget.unknown_left())?;
    records.push(field)?;
    *budget = Budget::new(left).with_element_memory(budget.memory_left());
    Ok(())
}

/// Merges the fields that the bytes are, all of them. After a refusal the fields before the refused one are merged, and no
/// others, and exactly their cost is spent.
///
/// # Errors
/// Those of [`merge_field`], or of a tag as [`Tag::decode`] returns them.
///
/// ```ignore
/// set::merge(&mut self.unknown_fields, alloc, buf, ctx)
/// ```
pub fn merge(
    records: &mut UnknownFields,
    alloc: Global,
    buf: &mut &[u8],
    ctx: DecodeContext<'_>,
) -> Result<(), DecodeError>
    ensures merged { MergesBytes set_merged set_cost ctx.entry.depth records.old.records buf.old.now
        ctx.entry.budget.now result records.new.records (budget_left ctx.exit) }
    ensures partly { IfErr result (λ e. PartlyMerged set_merged set_cost IsSetRefused ctx.entry.depth
        records.old.records buf.old.now ctx.entry.budget.now e records.new.records) }
    ensures full { FullOnlyIf result (BeginsField buf.old.now) }
    ensures read { OnOk result (buf.new.now ≡ []) }
    ensures tail { IsTailOf buf.new.now buf.old.now }
    ensures stops { IfErr result (λ e. StopsBehind ctx.entry.depth records.old.records buf.old.now
        ctx.entry.budget.now e records.new.records (budget_left ctx.exit)) }
{
    let DecodeContext { depth, budget } = ctx;
    let mut rest = &buf[..];
    'fields: while rest.remaining() > 0 {
        let tag = Tag::decode(&mut rest)?;
        let lent = DecodeContext {
            depth,
            budget: &mut *budget,
        };
        merge_field(records, alloc, tag, &mut rest, lent)?;
    }
    *buf = rest;
    Ok(())
}
