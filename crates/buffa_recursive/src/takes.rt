//! Fields that are messages of a type in a message of the same type.

ghost use Rattle.std.specs.Prelude.{◌≡◌, ◌≢◌, ◌<◌, ◌+◌, [], ℕ, List, IfErr, IsOk, Ok, OnErr, OnOk};
ghost use Rattle.std.specs.Option.{option_map};
ghost use Rattle.buffa_bytes.specs.Readings.{delimited_at, FullOnlyIf, Gives};
ghost use Rattle.buffa_bytes.specs.declared.error.DecodeError.TheVariants.{OutOfMemory};
ghost use Rattle.buffa_wire.specs.BudgetLeft.{PaysAtMost, budget_left};
ghost use Rattle.buffa_wire.specs.Message.{IsInside, MessageFault, cost_of_payload};
ghost use Rattle.buffa_wire.specs.Takes.{IsTaken};
ghost use Rattle.buffa_fields.specs.Calls.{ChecksWire};
ghost use Rattle.buffa_fields.specs.Schema.{Took};
ghost use Rattle.buffa_fields.specs.Submessages.{MessageTakesMemory, message_merged, taken_there};
ghost use Rattle.buffa_fields.specs.Refusals.{ChargedMessageFault, IsDelimited, LeavesUnless, RefusesBoxed, RefusesNew, RefusesTaggedField, RefusesTaggedUnder, TellsTaggedFault};
ghost use Rattle.buffa_fields.specs.RepeatedMessages.{MessagesTakeMemory, messages_cost, messages_taken};
ghost use Rattle.buffa_recursive.specs.RecursiveSchema.{children_shape, maybe_shape};
ghost use Rattle.buffa_recursive.specs.Fixpoint.{semantics};

use crate::inner_merger::InnerMerger;
use crate::recursive_type::RecursiveType;
use buffa_wire::{
    Budget, DecodeContext, DecodeError, Tag, WireType, check_wire_type, decode_varint,
};
use std::alloc::Global;

// Takes a length and so many bytes off the front, and returns these bytes.
#[tactic(auto, unfolding(buffa_bytes::specs::Readings::taken))]
fn cut<'a>(buf: &mut &'a [u8]) -> Result<&'a [u8], DecodeError>
    ensures { Gives (λ b. (b.now, buf.new.now)) result (delimited_at buf.old.now) }
{
    let len = decode_varint(buf)?;
    let all: &'a [u8] = *buf;
    if len > all.len() as u64 {
        return Err(DecodeError::UnexpectedEof);
    }
    *buf = &all[len as usize..];
    Ok(&all[..len as usize])
}

// Merges the length and so many bytes at the front into a message, one level down.
fn merge_inner<M: RecursiveType, I: InnerMerger<M>>(
    alloc: Global,
    child: &mut M,
    buf: &mut &[u8],
    depth: u32,
    budget: &mut Budget,
    inner: &I,
) -> Result<(), DecodeError>
    requires { (d : ℕ) → d + 1 ≡ depth → I.may inner.now d }
    ensures ok { let w = semantics M.COST M.schema M.sound in
        OnOk result (IsInside w.merged w.cost depth child.old buf.old.now budget.old child.new budget.new buf.new.now) }
    ensures fault { let w = semantics M.COST M.schema M.sound in
        IfErr result (λ e. e ≢ OutOfMemory → MessageFault w.merged w.cost depth child.old buf.old.now budget.old e) }
    ensures spent { OnErr result (PaysAtMost budget.old
        (cost_of_payload (semantics M.COST M.schema M.sound).cost depth (delimited_at buf.old.now)) budget.new) }
    ensures full { FullOnlyIf result ((0 < depth) × IsOk (delimited_at buf.old.now)) }
    ensures free { (rest : List ℕ) → 0 < depth → delimited_at buf.old.now ≡ Ok ([], rest) → IsOk result }
    ensures level { depth ≡ 0 → child.old ≡ child.new }
    ensures outside { (IsDelimited buf.old.now → ⊥) → child.old ≡ child.new }
{
    if depth == 0 {
        return Err(DecodeError::RecursionLimitExceeded);
    }
    let bytes = cut(buf)?;
    inner.merge(alloc, child, bytes, depth - 1, budget)
}

// Merges the message of the field whose tag was read into a message. The field costs the units of the type, too.
fn take_message<M: RecursiveType, I: InnerMerger<M>>(
    alloc: Global,
    child: &mut M,
    tag: Tag,
    buf: &mut &[u8],
    depth: u32,
    budget: &mut Budget,
    inner: &I,
) -> Result<(), DecodeError>
    requires { (d : ℕ) → d + 1 ≡ depth → I.may inner.now d }
    ensures taken { let w = semantics M.COST M.schema M.sound in
        IsTaken (message_merged w.merged) (messages_cost M.COST w.cost) depth child.old tag.number tag.wire_type buf.old.now
        budget.old result child.new budget.new buf.new.now }
    ensures full { FullOnlyIf result (MessageTakesMemory depth tag.number tag.wire_type buf.old.now) }
    ensures wire { ChecksWire tag WireType.LengthDelimited result child.old child.new buf.old buf.new }
    ensures refused { RefusesTaggedField (LeavesUnless WireType.LengthDelimited IsDelimited) tag depth child.old child.new
        buf.old result }
    ensures fault { let w = semantics M.COST M.schema M.sound in
        TellsTaggedFault WireType.LengthDelimited
        (ChargedMessageFault M.COST w.merged w.cost depth child.old buf.old.now budget.old) tag result }
{
    check_wire_type(tag, WireType::LengthDelimited)?;
    budget.take_memory(M::COST)?;
    merge_inner(alloc, child, buf, depth, budget, inner)
}

// Merges the message of the field whose tag was read into a default one, and puts it behind the others.
fn push_message<M: RecursiveType + Drop, I: InnerMerger<M>>(
    alloc: Global,
    list: &mut Vec<M>,
    tag: Tag,
    buf: &mut &[u8],
    depth: u32,
    budget: &mut Budget,
    inner: &I,
) -> Result<(), DecodeError>
    requires { (d : ℕ) → d + 1 ≡ depth → I.may inner.now d }
    ensures taken { let w = semantics M.COST M.schema M.sound in
        IsTaken (messages_taken w.blank w.merged) (messages_cost M.COST w.cost) depth list.old.items tag.number
        tag.wire_type buf.old.now budget.old result list.new.items budget.new buf.new.now }
    ensures full { FullOnlyIf result (MessagesTakeMemory depth tag.number tag.wire_type buf.old.now) }
    ensures wire { ChecksWire tag WireType.LengthDelimited result list.old.items list.new.items buf.old buf.new }
    ensures refused { RefusesTaggedField RefusesNew tag depth list.old.items list.new.items buf.old result }
{
    let mut child = inner.blank(alloc);
    take_message(alloc, &mut child, tag, buf, depth, budget, inner)?;
    Ok(list.push(child)?)
}

/// Merges the message of the field whose tag was read into a default one, and puts it behind the others of a list.
///
/// # Errors
/// [`DecodeError::WireTypeMismatch`] where the field isn't a length and so many bytes; else those of a message's bytes. The
/// list is as it was.
///
/// ```ignore
/// 2 => take_list(&mut self.parts, alloc, tag, buf, ctx, inner),
/// ```
pub fn take_list<M: RecursiveType + Drop, I: InnerMerger<M>>(
    list: &mut Vec<M>,
    alloc: Global,
    tag: Tag,
    buf: &mut &[u8],
    ctx: DecodeContext<'_>,
    inner: &I,
) -> Result<(), DecodeError>
    requires { (d : ℕ) → d + 1 ≡ ctx.depth → I.may inner.now d }
    ensures { Took (children_shape M.schema (semantics M.COST M.schema M.sound)) ctx.entry.depth (M.schema.of_list list.old.items)
        tag.number tag.wire_type buf.old.now ctx.entry.budget.now result (M.schema.of_list list.new.items)
        (budget_left ctx.exit) buf.new.now }
{
    let DecodeContext { depth, budget } = ctx;
    push_message(alloc, list, tag, buf, depth, budget, inner)
}

// Merges the message of the field whose tag was read into the one that is there. Where none is, it is merged into a default
// one, which is put there.
fn put_message<M: RecursiveType + Drop, I: InnerMerger<M>>(
    alloc: Global,
    one: &mut Option<Box<M>>,
    tag: Tag,
    buf: &mut &[u8],
    depth: u32,
    budget: &mut Budget,
    inner: &I,
) -> Result<(), DecodeError>
    requires { (d : ℕ) → d + 1 ≡ depth → I.may inner.now d }
    ensures taken { let w = semantics M.COST M.schema M.sound in
        IsTaken (taken_there w.blank (message_merged w.merged)) (messages_cost M.COST w.cost) depth
        (option_map (λ b. b.value) one.old) tag.number tag.wire_type buf.old.now budget.old result
        (option_map (λ b. b.value) one.new) budget.new buf.new.now }
    ensures full { FullOnlyIf result (MessagesTakeMemory depth tag.number tag.wire_type buf.old.now) }
    ensures wire { ChecksWire tag WireType.LengthDelimited result (option_map (λ b. b.value) one.old)
        (option_map (λ b. b.value) one.new) buf.old buf.new }
    ensures refused { let w = semantics M.COST M.schema M.sound in
        RefusesTaggedUnder (RefusesBoxed M.COST w.blank w.merged w.cost) tag depth budget.old (option_map (λ b. b.value) one.old)
        (option_map (λ b. b.value) one.new) buf.old result }
{
    match one {
        Some(child) => take_message(alloc, &mut **child, tag, buf, depth, budget, inner),
        None => {
            let mut child = inner.blank(alloc);
            take_message(alloc, &mut child, tag, buf, depth, budget, inner)?;
            *one = Some(Box::new(alloc, child)?);
            Ok(())
        }
    }
}

/// Merges the message of the field whose tag was read into the one that is there, or into a default one, which is put there.
///
/// # Errors
/// [`DecodeError::WireTypeMismatch`] where the field isn't a length and so many bytes;
/// [`DecodeError::ElementMemoryLimitExceeded`] where the units of a message aren't left, which each such field costs; else
/// those of a message's bytes. A refused field neither puts a message there nor takes one away.
///
/// ```ignore
/// 4 => take_one(&mut self.beside, alloc, tag, buf, ctx, inner),
/// ```
pub fn take_one<M: RecursiveType + Drop, I: InnerMerger<M>>(
    one: &mut Option<Box<M>>,
    alloc: Global,
    tag: Tag,
    buf: &mut &[u8],
    ctx: DecodeContext<'_>,
    inner: &I,
) -> Result<(), DecodeError>
    requires { (d : ℕ) → d + 1 ≡ ctx.depth → I.may inner.now d }
    ensures { Took (maybe_shape M.schema (semantics M.COST M.schema M.sound)) ctx.entry.depth
        (M.schema.of_option (option_map (λ b. b.value) one.old)) tag.number tag.wire_type buf.old.now
        ctx.entry.budget.now result (M.schema.of_option (option_map (λ b. b.value) one.new)) (budget_left ctx.exit)
        buf.new.now }
{
    let DecodeContext { depth, budget } = ctx;
    put_message(alloc, one, tag, buf, depth, budget, inner)
}
