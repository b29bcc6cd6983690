//! Merging messages that hold themselves.

ghost use Rattle.std.specs.Prelude.{◌≡◌, ◌+◌, [], IfErr, IsOk, OnOk};
ghost use Rattle.buffa_bytes.specs.Readings.{FullOnlyIf};
ghost use Rattle.buffa_wire.specs.Message.{BeginsField, MergesBytes, PartlyMerged};
ghost use Rattle.buffa_map.specs.Calls.{MergesMessages};
ghost use Rattle.buffa_recursive.specs.RefusedFields.{IsSelfRefused};
ghost use Rattle.buffa_recursive.specs.Fixpoint.{semantics, message_schema};

use crate::inner_merger::InnerMerger;
use crate::recursive_fields::RecursiveFields;
use crate::recursive_meaning::RecursiveMeaning;
use buffa_wire::{Blank, Budget, Buf, DecodeContext, DecodeError, Tag};
use std::alloc::Global;

// A function as what merges the messages inside.
#[derive(Drop)]
struct MergerBy<F> {
    merge: F,
}

impl<
    M: RecursiveMeaning,
    F: Fn(&mut M, &[u8], u32, &mut Budget) -> Result<(), DecodeError>,
> InnerMerger<M> for MergerBy<F> {
    ghost may = { λ s d. let t = semantics M.COST M.schema M.sound in
        ((x : _) (b : _) (w : _) → F.pre s.merge x b d w)
        × ((x : _) (b : _) (w : _) (r : _) (y : _) (v : _) → F.post s.merge x b d w r y v →
        MergesBytes t.merged t.cost d x.now b.now w.now r y.now v.now × (b.now ≡ [] → IsOk r)) };

    fn blank(&self, alloc: Global) -> M {
        M::blank(alloc)
    }

    fn merge(
        &self,
        _: Global,
        message: &mut M,
        bytes: &[u8],
        depth: u32,
        budget: &mut Budget,
    ) -> Result<(), DecodeError> {
        (self.merge)(message, bytes, depth, budget)
    }
}

// Merges the field whose tag was read, by a function that merges the bytes of a message inside.
pub(crate) fn take_by<
    M: RecursiveFields,
    F: Fn(&mut M, &[u8], u32, &mut Budget) -> Result<(), DecodeError>,
>(
    message: &mut M,
    alloc: Global,
    tag: Tag,
    buf: &mut &[u8],
    depth: u32,
    budget: &mut Budget,
    merge: F,
) -> Result<(), DecodeError>
    requires may { (x : _) (b : _) (d : _) (w : _) → d + 1 ≡ depth → F.pre merge x b d w }
    requires keeps { let t = semantics M.COST M.schema M.sound in MergesMessages (F.post merge) (λ m. m) t.merged t.cost depth }
    requires free { (x : _) (b : _) (d : _) (w : _) (r : _) (y : _) (v : _) → d + 1 ≡ depth → F.post merge x b d w r y v →
        b.now ≡ [] → IsOk r }
    ensures taken { (message_schema M.COST M.schema M.sound).Taken depth message.old tag.number tag.wire_type buf.old.now
        budget.old result message.new budget.new buf.new.now }
    ensures whole { OnOk result (M.schema.into (M.schema.out message.new) ≡ message.new) }
{
    let lent = DecodeContext {
        depth,
        budget: &mut *budget,
    };
    message.take(alloc, tag, buf, lent, &MergerBy { merge })
}

// Merges all the fields that the bytes are into a message: one that is inside another, or the outermost one.
pub(crate) fn merge_self<M: RecursiveFields>(
    alloc: Global,
    message: &mut M,
    bytes: &[u8],
    depth: u32,
    budget: &mut Budget,
) -> Result<(), DecodeError>
    ensures merged { let t = semantics M.COST M.schema M.sound in
        MergesBytes t.merged t.cost depth message.old bytes.now budget.old result message.new budget.new }
    ensures partly { let t = semantics M.COST M.schema M.sound in
        IfErr result (λ e. PartlyMerged t.merged t.cost (IsSelfRefused M.COST M.schema M.sound) depth message.old bytes.now
        budget.old e message.new) }
    ensures full { FullOnlyIf result (BeginsField bytes.now) }
    ensures free { bytes.now ≡ [] → IsOk result }
{
    let mut rest = bytes;
    'fields: while rest.remaining() > 0 {
        let tag = Tag::decode(&mut rest)?;
        take_by(
            message,
            alloc,
            tag,
            &mut rest,
            depth,
            budget,
            |child: &mut M, bytes: &[u8], depth: u32, budget: &mut Budget| -> Result<
                (),
                DecodeError,
            >
                ensures merged { let t = semantics M.COST M.schema M.sound in
                    MergesBytes t.merged t.cost depth child.old bytes.now budget.old result child.new budget.new }
                ensures free { bytes.now ≡ [] → IsOk result }
            { merge_self(alloc, child, bytes, depth, budget) },
        )?;
    }
    Ok(())
}
