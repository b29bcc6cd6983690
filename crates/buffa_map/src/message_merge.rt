//! Entries of messages, merged by a function.

ghost use Rattle.std.specs.Prelude.{◌≡◌, ◌≢◌, ◌+◌, ◌<◌, [], IfErr, IsOk, Ok, OnErr, OnOk, true, false};
ghost use Rattle.buffa_bytes.specs.Readings.{delimited_at, FullOnlyIf};
ghost use Rattle.buffa_bytes.specs.declared.error.DecodeError.TheVariants.{OutOfMemory};
ghost use Rattle.buffa_wire.specs.BudgetLeft.{PaysAtMost, budget_left};
ghost use Rattle.buffa_wire.specs.Message.{MergesBytes, MergesInside, MessageFault, cost_of_payload};
ghost use Rattle.buffa_map.specs.Calls.{MergesMessages};
ghost use Rattle.buffa_map.specs.Codec.{RefusesValue, Spends, ReadingTakesMemory, value_at, value_charge};
ghost use Rattle.buffa_map.specs.Merge.{MergesEntry, RefusesEntry, rules, state};
ghost use Rattle.buffa_map.specs.Message.{message_reading};

use crate::codec::MapCodec;
use crate::entry::merge_entry_by;
use crate::keep::Dropped;
use crate::merge_value::ByFunction;
use crate::storage::MapStorage;
use buffa_wire::types::with_delimited;
use buffa_wire::{Budget, Buf, DecodeContext, DecodeError, MessageSpec};
use std::alloc::Global;

// Merges bytes by a function.
fn merge_bytes_by<M: MessageSpec, F>(
    value: &mut M,
    bytes: &[u8],
    depth: u32,
    budget: &mut Budget,
    merge: &F,
) -> Result<(), DecodeError>
where
    F: Fn(&mut M, &[u8], u32, &mut Budget) -> Result<(), DecodeError>,
    requires may { (x : _) (b : _) (w : _) → F.pre merge.now x b depth w }
    requires keeps { MergesMessages (F.post merge.now) M.meaning M.merged M.cost (depth + 1) }
    ensures { MergesBytes M.merged M.cost depth (M.meaning value.old) bytes.now budget.old result (M.meaning value.new)
        budget.new }
{
    merge(value, bytes, depth, budget)
}

// Merges the length and so many bytes at the front, one level down, by a function.
fn merge_payload_by<M: MessageSpec, B: Buf, F>(
    alloc: Global,
    value: &mut M,
    buf: &mut B,
    ctx: DecodeContext<'_>,
    merge: &F,
) -> Result<(), DecodeError>
where
    F: Fn(&mut M, &[u8], u32, &mut Budget) -> Result<(), DecodeError>,
    requires may { (x : _) (b : _) (d : _) (w : _) → d + 1 ≡ ctx.depth → F.pre merge.now x b d w }
    requires keeps { MergesMessages (F.post merge.now) M.meaning M.merged M.cost ctx.depth }
    ensures ok { OnOk result (MergesInside M.merged M.cost ctx.entry (M.meaning value.old) (B.unread buf.old)
        (M.meaning value.new) (budget_left ctx.exit) (B.unread buf.new)) }
    ensures fault { IfErr result (λ e. e ≢ OutOfMemory →
        MessageFault M.merged M.cost ctx.entry.depth (M.meaning value.old) (B.unread buf.old) ctx.entry.budget.now
        e) }
    ensures full { FullOnlyIf result ((0 < ctx.entry.depth) × IsOk (delimited_at (B.unread buf.old))) }
    ensures spent { OnErr result (PaysAtMost ctx.entry.budget.now
        (cost_of_payload M.cost ctx.entry.depth (delimited_at (B.unread buf.old))) (budget_left ctx.exit)) }
    ensures kept { B.beyond buf.new ≡ B.beyond buf.old }
{
    let DecodeContext { depth, budget } = ctx;
    if depth == 0 {
        return Err(DecodeError::RecursionLimitExceeded);
    }
    let inside = depth - 1;
    with_delimited(
        alloc,
        buf,
        &mut |payload: &[u8]|
            requires may { (x : _) (b : _) (w : _) → F.pre merge.now x b inside w }
            requires keeps { MergesMessages (F.post merge.now) M.meaning M.merged M.cost (inside + 1) }
            ensures { MergesBytes M.merged M.cost inside (M.meaning value.entry.now) payload.now budget.entry.now result
                (M.meaning value.exit.now) budget.exit.now }
        { merge_bytes_by(value, payload, inside, &mut *budget, merge) },
    )
}

// The same, said as merging by the codec of messages is.
pub(crate) fn merge_value_by<M: MessageSpec, B: Buf, F>(
    alloc: Global,
    value: &mut M,
    buf: &mut B,
    ctx: DecodeContext<'_>,
    merge: &F,
) -> Result<(), DecodeError>
where
    F: Fn(&mut M, &[u8], u32, &mut Budget) -> Result<(), DecodeError>,
    requires may { (x : _) (b : _) (d : _) (w : _) → d + 1 ≡ ctx.depth → F.pre merge.now x b d w }
    requires keeps { MergesMessages (F.post merge.now) M.meaning M.merged M.cost ctx.depth }
    ensures ok { OnOk result (value_at (message_reading M.blank_is M.merged M.cost) ctx.entry.depth
        (M.meaning value.old) (B.unread buf.old) ≡ Ok ((M.meaning value.new, true), B.unread buf.new)) }
    ensures fault { IfErr result (λ e. e ≢ OutOfMemory →
        RefusesValue true (message_reading M.blank_is M.merged M.cost) ctx.entry.depth (M.meaning value.old)
        (B.unread buf.old) ctx.entry.budget.now e) }
    ensures full { FullOnlyIf result (ReadingTakesMemory (message_reading M.blank_is M.merged M.cost) ctx.entry.depth
        (B.unread buf.old)) }
    ensures kept { B.beyond buf.new ≡ B.beyond buf.old }
    ensures spends { Spends true result ctx.entry.budget.now
        (value_charge (message_reading M.blank_is M.merged M.cost) ctx.entry.depth (B.unread buf.old))
        (budget_left ctx.exit) }
{
    merge_payload_by(alloc, value, buf, ctx, merge)?;
    Ok(())
}

/// Merges one entry of a map field of messages, by a function that merges a message's bytes.
///
/// The function is passed the value, the message's bytes, the depth inside it, one less than the context's, and
/// the budget. It is asked for nothing at other depths; so a type that holds itself is merged by a function that
/// recurs through this one. An entry costs `KC::COST + M::COST` units, and what its messages cost. By the type's own
/// calls it is `merge_entry::<KC, Msg<M>, _, _>`.
///
/// # Errors
/// Those of [`merge_entry`](crate::entry::merge_entry).
///
/// ```ignore
/// merge_message_entry_by::<Int32, FlatMsg, _, _, _>(alloc, map, buf, ctx, .. )
/// ```
pub fn merge_message_entry_by<
    KC: MapCodec,
    M: MessageSpec,
    C: MapStorage<Key = KC::Value, Value = M>,
    B: Buf,
    F: Fn(&mut M, &[u8], u32, &mut Budget) -> Result<(), DecodeError>,
>(
    alloc: Global,
    map: &mut C,
    buf: &mut B,
    ctx: DecodeContext<'_>,
    merge: F,
) -> Result<(), DecodeError>
    requires may { (x : _) (b : _) (d : _) (w : _) → d + 1 ≡ ctx.depth → F.pre merge x b d w }
    requires keeps { MergesMessages (F.post merge) M.meaning M.merged M.cost ctx.depth }
    ensures ok { OnOk result (MergesEntry
        (rules (KC.reading, KC.COST) (message_reading M.blank_is M.merged M.cost, M.COST) (C.equal, C.keeps_order) ctx.entry.depth 0 false)
        (state (C.pairs map.old) [] ctx.entry.budget.now) (B.unread buf.old)
        (state (C.pairs map.new) [] (budget_left ctx.exit)) (B.unread buf.new)) }
    ensures err { IfErr result (RefusesEntry
        (rules (KC.reading, KC.COST) (message_reading M.blank_is M.merged M.cost, M.COST) (C.equal, C.keeps_order) ctx.entry.depth 0 false)
        (state (C.pairs map.old) [] ctx.entry.budget.now) (B.unread buf.old)
        (state (C.pairs map.new) [] (budget_left ctx.exit)) (B.unread buf.new)) }
    ensures kept { B.beyond buf.new ≡ B.beyond buf.old }
{
    let how = ByFunction::new(merge);
    merge_entry_by::<KC, _, C, B, Dropped>(alloc, map, buf, ctx, 0, &how, &mut Dropped)
}
