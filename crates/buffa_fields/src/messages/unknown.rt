//! Fields that a message doesn't declare: kept as records, or passed over.

ghost use Rattle.std.specs.Prelude.{◌≡◌, ◌≢◌, ◌<◌, IfOk, length};
ghost use Rattle.buffa_wire.specs.BudgetLeft.{budget_left};
ghost use Rattle.buffa_bytes.specs.Readings.{FullOnlyIf, GivesUnlessFull};
ghost use Rattle.buffa_bytes.specs.Unread.{LeavesUnlessFull, past_no_payload};
ghost use Rattle.buffa_bytes.specs.declared.wire_type.WireType.TheVariants.{StartGroup};
ghost use Rattle.buffa_wire.specs.Passes.{cap};
ghost use Rattle.buffa_wire.specs.RecordReading.{RecordTakesMemory, field_at};
ghost use Rattle.buffa_wire.specs.Encoding.{records_encoding};
ghost use Rattle.buffa_wire.specs.RecordsOfValues.{field_data_of};
ghost use Rattle.buffa_fields.specs.Schema.{IsFieldKept, Passed};

use buffa_wire::{
    Budget, DecodeContext, DecodeError, Tag, UnknownField, UnknownFields, capped,
    decode_unknown_field, skip_field_depth,
};
use std::alloc::Global;

/// Reads the field whose tag was read, with so many unknown fields left, and returns how many are left then.
///
/// # Errors
/// Those of [`decode_unknown_field`].
///
/// ```ignore
/// let (kept, left) = read_alone(alloc, tag, buf, depth, budget.unknown_left())?;
/// ```
pub fn read_alone(
    alloc: Global,
    tag: Tag,
    buf: &mut &[u8],
    depth: u32,
    unknown: usize,
) -> Result<(UnknownField, usize), DecodeError>
    ensures reads { GivesUnlessFull (λ x. (field_data_of x.0.payload, x.1, buf.new.now)) result
        (field_at depth unknown tag.number tag.wire_type buf.old.now) }
    ensures full { FullOnlyIf result (RecordTakesMemory depth unknown tag.wire_type buf.old.now) }
    ensures number { IfOk result (λ x. x.0.number ≡ tag.number) }
    ensures no_unknown_stays { unknown ≡ 0 → buf.new.now ≡ buf.old.now }
    ensures level { tag.wire_type ≡ StartGroup → depth ≡ 0 → buf.new.now ≡ buf.old.now }
    ensures left { tag.wire_type ≢ StartGroup → 0 < unknown →
        LeavesUnlessFull result (past_no_payload tag.wire_type buf.old.now) buf.new.now }
{
    let mut own = Budget::new(unknown);
    let lent = DecodeContext {
        depth,
        budget: &mut own,
    };
    let field = decode_unknown_field(alloc, tag, buf, lent)?;
    Ok((field, own.unknown_left()))
}

/// Keeps the field whose tag was read, behind the others; what is refused spends nothing. A field takes one
/// of the unknown fields left, and so does each field in its groups.
///
/// # Errors
/// Those of [`decode_unknown_field`].
///
/// ```ignore
/// _ => unknown::keep(alloc, &mut self.unknown_fields, tag, buf, ctx),
/// ```
#[tactic(auto, unfolding(crate::specs::Schema::IsFieldKept))]
pub fn keep(
    alloc: Global,
    fields: &mut UnknownFields,
    tag: Tag,
    buf: &mut &[u8],
    ctx: DecodeContext<'_>,
) -> Result<(), DecodeError>
    ensures { IsFieldKept ctx.entry.depth fields.old.records tag.number tag.wire_type buf.old.now ctx.entry.budget.now result
        fields.new.records (budget_left ctx.exit) buf.new.now }
{
    let DecodeContext { depth, budget } = ctx;
    let (field, left) = read_alone(alloc, tag, buf, depth, budget.unknown_left())?;
    fields.push(field)?;
    *budget = Budget::new(left).with_element_memory(budget.memory_left());
    Ok(())
}

// The length of the encoding of kept fields, or 2^32 - 1 where it is more.
pub(crate) fn kept_len(fields: &UnknownFields) -> u32
    ensures { result ≡ cap (length (records_encoding fields.now.records)) }
{
    let total = fields.encoded_len();
    capped(total)
}

/// Passes over the field whose tag was read.
///
/// # Errors
/// Those of [`skip_field_depth`].
///
/// ```ignore
/// _ => unknown::pass(tag, buf, ctx),
/// ```
#[tactic(auto, unfolding(crate::specs::Schema::Passed))]
pub fn pass(tag: Tag, buf: &mut &[u8], ctx: DecodeContext<'_>) -> Result<(), DecodeError>
    ensures { Passed ctx.entry.depth tag.number tag.wire_type buf.old.now ctx.entry.budget.now result
        (budget_left ctx.exit) buf.new.now }
{
    skip_field_depth(tag, buf, ctx.depth)
}
